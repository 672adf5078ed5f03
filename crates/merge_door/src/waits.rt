//! How long a connection waits.
ghost use Rattle.std.specs.Prelude.{◌≡◌, ◌*◌};
ghost use Rattle.std.specs.Duration.{as_nanos};

use std::time::Duration;

/// How long a connection waits.
#[derive(Clone, Copy, Debug, PartialEq, Eq)]
pub struct Waits {
    /// For each read or write.
    pub at_once: Duration,
    /// From when it was accepted, for all of them.
    pub in_all: Duration,
}

impl Waits {
    /// 30 seconds for each, and 300 for all.
    pub fn usual() -> Self
        ensures once { as_nanos result.at_once ≡ 30 * 1_000_000_000 }
        ensures all { as_nanos result.in_all ≡ 300 * 1_000_000_000 }
    {
        Waits {
            at_once: Duration::from_secs(30),
            in_all: Duration::from_secs(300),
        }
    }
}
