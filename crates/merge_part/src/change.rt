//! Changes of rows, and what they move.
ghost use Rattle.std.specs.Prelude.{◌≡◌};

use merge_gens::MoveKind;
use merge_types::{Exact, Listing, RowId, RowKey, SiteId, Values};

/// A change of a row of an article, which is named by its place in the publication.
#[derive(Debug, Drop)]
pub struct RowChange {
    pub article: u8,
    pub row: RowId,
    /// The values that the row has afterwards, and none where it is not live then.
    pub new: Option<Values>,
}

impl RowChange {
    /// The row that changes.
    pub fn key(&self) -> RowKey
        ensures { result ≡ record { article = self.now.article; row = self.now.row } }
    {
        RowKey {
            article: self.article,
            row: self.row,
        }
    }
}

/// A row that entered or left the partition of a site.
#[derive(Clone, Copy, Debug, PartialEq, Eq, PartialOrd, Ord)]
pub struct Move {
    pub article: u8,
    pub row: RowId,
    pub site: SiteId,
    pub kind: MoveKind,
}

impl Exact for Move {
    ghost use Rattle.std.proofs.Common.{rules};

    ghost exact = { Prim.search rules };
}

/// Moves by article, row and site, each once.
pub type Moves = Listing<Move>;
