//! What a subscriber holds a reply against.
use merge_types::{Exact, SiteId};

/// The numbers of a subscriber itself.
#[derive(Clone, Copy, Debug, PartialEq, Eq)]
pub struct Standing {
    pub site: SiteId,
    /// How many changes the site made.
    pub changes: u64,
    /// The last closed generation of the site.
    pub closed: u64,
    /// The last generation of the site that the publisher took.
    pub received: u64,
}

impl Exact for Standing {
    ghost use Rattle.std.proofs.Common.{rules};

    ghost exact = { Prim.search rules };
}
