//! Rows as the tables of the sites hold them.
use crate::Version;
use merge_types::{Exact, Listing};
use std::alloc::AllocError;

/// A row at the publisher, with the generation of its last change.
#[derive(Debug, Drop)]
pub struct PublisherRow {
    pub version: Version,
    pub changed: u64,
}

/// A row at a subscriber, with the generations in which this site changed it and that the publisher
/// has not taken. A stored row has them in ascending order.
#[derive(Debug, Drop)]
pub struct SubscriberRow {
    pub version: Version,
    pub generations: Listing<u64>,
}

impl Clone for PublisherRow {
    ghost use Rattle.std.specs.Prelude.{◌≡◌};

    ghost is_clone = { λ old new. new ≡ old };

    fn clone(&self) -> Result<PublisherRow, AllocError> {
        Ok(PublisherRow {
            version: self.version.clone()?,
            changed: self.changed,
        })
    }
}

impl Exact for PublisherRow {
    ghost exact = { λ value copy same. same };
}

impl Clone for SubscriberRow {
    ghost use Rattle.std.specs.Prelude.{◌≡◌};

    ghost is_clone = { λ old new. new ≡ old };

    fn clone(&self) -> Result<SubscriberRow, AllocError> {
        Ok(SubscriberRow {
            version: self.version.clone()?,
            generations: self.generations.clone()?,
        })
    }
}

impl Exact for SubscriberRow {
    ghost exact = { λ value copy same. same };
}
