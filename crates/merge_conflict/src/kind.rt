//! Why a version is in the conflict table.
ghost use Rattle.std.specs.Prelude.{◌≡◌};
ghost use Rattle.merge_conflict.specs.Kinds.{number_of_kind, kind_of_number};

use merge_types::Exact;

/// Why a version is in the conflict table. From `RowUpdate` on these are conflict types of SQL
/// Server's merge replication.
#[derive(Clone, Copy, Debug, PartialEq, Eq)]
pub enum ConflictKind {
    /// It was unsent when its subscriber was made anew.
    Discarded,
    /// Both sides updated the row, with row tracking.
    RowUpdate,
    /// Both sides updated the row, with column tracking.
    ColumnUpdate,
    /// An update lost against a delete.
    DeleteWins,
    /// A delete lost against an update.
    UpdateWins,
}

impl Exact for ConflictKind {
    ghost use Rattle.std.proofs.Common.{rules};

    ghost exact = { Prim.search rules };
}

impl ConflictKind {
    /// The number by which texts and records name it, as SQL Server does from 1 on.
    pub fn number(self) -> u8
        ensures { result ≡ number_of_kind self }
    {
        match self {
            ConflictKind::Discarded => 0,
            ConflictKind::RowUpdate => 1,
            ConflictKind::ColumnUpdate => 2,
            ConflictKind::DeleteWins => 3,
            ConflictKind::UpdateWins => 4,
        }
    }

    /// The kind that has this number.
    pub fn of_number(number: u8) -> Option<ConflictKind>
        ensures { result ≡ kind_of_number number }
    {
        match number {
            0 => Some(ConflictKind::Discarded),
            1 => Some(ConflictKind::RowUpdate),
            2 => Some(ConflictKind::ColumnUpdate),
            3 => Some(ConflictKind::DeleteWins),
            4 => Some(ConflictKind::UpdateWins),
            _ => None,
        }
    }
}
