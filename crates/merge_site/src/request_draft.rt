//! A request that was worked out.
use merge_steps::Draft;

/// The draft of a request's step, and whether it is committed.
#[derive(Drop)]
pub struct RequestDraft {
    pub(crate) draft: Draft,
    pub(crate) commits: bool,
}
