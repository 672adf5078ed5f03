//! What sites remember of one another, as others read it.
use merge_types::Exact;

/// What the publisher remembers of a subscription.
#[derive(Clone, Copy, Debug, PartialEq, Eq)]
pub struct SiteState {
    /// The sequence number of the last join that acted.
    pub joined_at: u64,
    /// The last generation of the site that was taken.
    pub received: u64,
    /// The last change number of that generation.
    pub received_number: u64,
    /// The greatest change number of the site that the publisher has met.
    pub seen: u64,
    /// The last generation that the site is known to hold.
    pub watermark: u64,
    /// The moment up to which the site was in step, in seconds.
    pub last_sync: u64,
}

impl Exact for SiteState {
    ghost use Rattle.std.proofs.Common.{rules};

    ghost exact = { Prim.search rules };
}

/// Where a subscriber stands.
#[derive(Clone, Copy, Debug, PartialEq, Eq)]
pub struct Marks {
    /// The last closed generation.
    pub closed: u64,
    /// How many entries the open generation holds.
    pub filled: u64,
    /// The last own generation that the publisher has taken.
    pub received: u64,
    /// The last generation of the publisher that the site holds.
    pub watermark: u64,
    /// The sequence number of the last message that was made.
    pub seq: u64,
    /// The sequence number of the outstanding message, and 0 where none is.
    pub outstanding: u64,
}

impl Exact for Marks {
    ghost use Rattle.std.proofs.Common.{rules};

    ghost exact = { Prim.search rules };
}
