//! What a resolver is asked.
use merge_types::{Exact, Listing, Moment, RowId, SiteId};
use merge_units::Body;
use std::alloc::AllocError;

/// The places of cells, in order.
pub type Places = Listing<u8>;

/// What two versions of a row that conflict are.
#[derive(Clone, Copy, Debug, PartialEq, Eq)]
pub enum CaseKind {
    /// Updates of one row, with row tracking.
    ByRow,
    /// Updates of one row, with column tracking.
    ByColumn,
    /// An update and a delete, whichever wins.
    Delete,
}

impl Exact for CaseKind {
    ghost use Rattle.std.proofs.Common.{rules};

    ghost exact = { Prim.search rules };
}

/// Two versions of a row that conflict. An article is named by its place.
#[derive(Debug, Drop)]
pub struct ConflictCase {
    pub article: u8,
    pub row: RowId,
    pub kind: CaseKind,
    /// The site whose version comes in.
    pub site: SiteId,
    pub publisher: Body,
    pub incoming: Body,
    /// The conflicting cells; of an update and a delete none is named.
    pub cells: Places,
    /// In whole hundredths, as is the next.
    pub publisher_priority: u16,
    pub incoming_priority: u16,
    /// The column that the article names for its resolver.
    pub column: Option<u8>,
    pub moment: Moment,
}

impl Clone for ConflictCase {
    ghost use Rattle.std.specs.Prelude.{◌≡◌};

    ghost is_clone = { λ old new. new ≡ old };

    fn clone(&self) -> Result<ConflictCase, AllocError> {
        Ok(ConflictCase {
            article: self.article,
            row: self.row,
            kind: self.kind,
            site: self.site,
            publisher: self.publisher.clone()?,
            incoming: self.incoming.clone()?,
            cells: self.cells.clone()?,
            publisher_priority: self.publisher_priority,
            incoming_priority: self.incoming_priority,
            column: self.column,
            moment: self.moment,
        })
    }
}

impl Exact for ConflictCase {
    ghost exact = { λ value copy same. same };
}
