//! What a subscriber keeps one of.
use merge_batch::Outstanding;
use merge_types::{Exact, Moment};

/// What a subscriber keeps one of, as its state record has it.
#[derive(Clone, Copy, Debug, PartialEq, Eq)]
pub struct State {
    /// How many changes the site made.
    pub changes: u64,
    /// How many rows were added to the conflict table.
    pub conflict_count: u64,
    /// The greatest moment that a call was given that was not refused.
    pub latest: Moment,
    /// The number of the last message that was made.
    pub seq: u64,
    /// The message that is not answered yet, with its number.
    pub outstanding: Option<(u64, Outstanding)>,
    /// The own generations up to this one are done with.
    pub received: u64,
    /// The last generation of the publisher that is held.
    pub watermark: u64,
    pub is_joined: bool,
}

impl Exact for State {
    ghost use Rattle.std.proofs.Common.{rules};

    ghost exact = { Prim.search rules };
}
