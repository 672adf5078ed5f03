//! The mappings of each site by generation.
use merge_table::TableKey;
use merge_types::{Exact, RowKey};

/// That the last move of a row for a site was in a generation. Ordered by site, then by generation,
/// then by row.
#[derive(Clone, Copy, Debug, PartialEq, Eq, PartialOrd, Ord)]
pub struct MoveEntry {
    pub site: u16,
    pub generation: u64,
    pub key: RowKey,
}

impl Exact for MoveEntry {
    ghost use Rattle.std.proofs.Common.{rules};

    ghost exact = { Prim.search rules };
}

impl TableKey for MoveEntry {
    ghost use Rattle.std.proofs.Common.{rules};
    ghost use Rattle.merge_steps.specs.MoveEntries.{move_entry_exact};

    ghost equal_is_same = { move_entry_exact };

    ghost clone_is_same = { Prim.search rules };
}
