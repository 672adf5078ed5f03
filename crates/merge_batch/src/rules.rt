//! What is told of a message that is not valid.
use merge_types::Exact;

/// A rule that a message breaks, and where.
#[derive(Clone, Copy, Debug, PartialEq, Eq)]
pub struct BrokenRule {
    /// The place of the item from 1 on, 0 for the message as a whole.
    pub item: u64,
    /// The number of the rule from 1 on, 0 for a reply that does not fit.
    pub rule: u8,
}

impl Exact for BrokenRule {
    ghost use Rattle.std.proofs.Common.{rules};

    ghost exact = { Prim.search rules };
}
