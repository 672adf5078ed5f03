//! Rows that come into the partitions of sites, and leave them.
use merge_table::TableKey;
use merge_types::{Exact, RowKey};

/// A row and a site. Ordered by row, then by site.
#[derive(Clone, Copy, Debug, PartialEq, Eq, PartialOrd, Ord)]
pub struct RowSite {
    pub key: RowKey,
    pub site: u16,
}

/// Whether a row came into a site's partition or left it.
#[derive(Clone, Copy, Debug, PartialEq, Eq, PartialOrd, Ord)]
pub enum MoveKind {
    Entered,
    Left,
}

/// The last move of a row for a site, with the generation in which it moved.
#[derive(Clone, Copy, Debug, PartialEq, Eq)]
pub struct Mapping {
    pub kind: MoveKind,
    pub generation: u64,
}

impl Exact for RowSite {
    ghost use Rattle.std.proofs.Common.{rules};

    ghost exact = { Prim.search rules };
}

impl TableKey for RowSite {
    ghost use Rattle.std.proofs.Common.{rules};
    ghost use Rattle.merge_gens.specs.Moves.{row_site_exact};

    ghost equal_is_same = { row_site_exact };

    ghost clone_is_same = { Prim.search rules };
}

impl Exact for MoveKind {
    ghost use Rattle.std.proofs.Common.{rules};

    ghost exact = { Prim.search rules };
}

impl Exact for Mapping {
    ghost use Rattle.std.proofs.Common.{rules};

    ghost exact = { Prim.search rules };
}
