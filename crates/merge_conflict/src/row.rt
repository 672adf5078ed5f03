//! A version that lost, and why.
use crate::ConflictKind;
use merge_types::{Exact, Listing, Moment, RowId, SiteId};
use merge_units::Version;
use std::alloc::AllocError;

/// What became of the row whose version lost.
#[derive(Clone, Copy, Debug, PartialEq, Eq)]
pub enum Verdict {
    /// The publisher's version won.
    Publisher,
    /// The subscriber's version won.
    Subscriber,
    /// A resolver decided other values.
    Custom,
    /// The row was deleted, and its tombstone had been purged when the version came in.
    Purged,
    /// The version was unsent when its subscriber was made anew.
    Discarded,
}

/// A version that lost. An article is named by its place.
#[derive(Debug, Drop)]
pub struct ConflictRow {
    pub number: u64,
    pub article: u8,
    pub row: RowId,
    pub kind: ConflictKind,
    pub losing: Version,
    /// The site whose version lost.
    pub from: SiteId,
    pub verdict: Verdict,
    pub moment: Moment,
}

/// Versions that lost. The numbers of those in a table rise.
pub type ConflictRows = Listing<ConflictRow>;

impl Exact for Verdict {
    ghost use Rattle.std.proofs.Common.{rules};

    ghost exact = { Prim.search rules };
}

impl Clone for ConflictRow {
    ghost use Rattle.std.specs.Prelude.{◌≡◌};

    ghost is_clone = { λ old new. new ≡ old };

    fn clone(&self) -> Result<ConflictRow, AllocError> {
        Ok(ConflictRow {
            number: self.number,
            article: self.article,
            row: self.row,
            kind: self.kind,
            losing: self.losing.clone()?,
            from: self.from,
            verdict: self.verdict,
            moment: self.moment,
        })
    }
}

impl Exact for ConflictRow {
    ghost exact = { λ value copy same. same };
}
