//! Which row of which article.
use crate::identifiers::RowId;
use crate::listing::Exact;

/// A row of an article, which is named by its place in the publication. Rows are ordered by
/// article, then by identifier.
#[derive(Clone, Copy, Debug, PartialEq, Eq, PartialOrd, Ord)]
pub struct RowKey {
    pub article: u8,
    pub row: RowId,
}

impl Exact for RowKey {
    ghost use Rattle.std.proofs.Common.{rules};

    ghost exact = { Prim.search rules };
}
