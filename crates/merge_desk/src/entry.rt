//! The entries of a journal.
use crate::mark::Mark;
use merge_batch::{Reply, Request};
use merge_types::{Listing, Moment};
use merge_units::Decision;

/// A request that was answered: whose seat asked, when, and what the decisions on its conflicts
/// counted as. From these the publisher's step can be made again.
#[derive(Drop)]
pub struct Entry {
    pub seat: u16,
    pub moment: Moment,
    pub request: Request,
    pub decisions: Listing<Decision>,
    pub mark: Mark,
}

/// What a call answers: the place of its entry, the reply, and the entry's mark.
#[derive(Drop)]
pub struct Receipt {
    pub place: u64,
    pub reply: Reply,
    pub mark: Mark,
}
