//! Why a body is no message.
use crate::stop::Stop;
use std::alloc::AllocFailed;
use thiserror::Error;

/// Why a body is no message.
#[derive(Clone, Copy, Debug, PartialEq, Eq, Error)]
pub enum BodyFault {
    /// The number of the first item that has no reading, counted from 1, or 0 where anything else
    /// has none.
    #[error("bad body at {place}")]
    BadBody { place: u64 },
    #[error("no memory")]
    NoMemory,
}

impl From<Stop> for BodyFault {
    ghost use Rattle.std.specs.Prelude.{◌≡◌};
    ghost use Rattle.merge_json.specs.Outcomes.{fault_of};

    ghost from_gives = { λ stop fault. fault ≡ fault_of stop };

    fn from(stop: Stop) -> Self {
        match stop {
            Stop::Memory => BodyFault::NoMemory,
            Stop::Broken => BodyFault::BadBody { place: 0 },
        }
    }
}

impl<T: Drop> From<AllocFailed<T>> for BodyFault {
    ghost use Rattle.std.specs.Prelude.{◌≡◌};
    ghost use Rattle.merge_json.specs.declared.fault.BodyFault.TheVariants as fault;

    ghost from_gives = { λ _ e. e ≡ fault.NoMemory };

    fn from(_: AllocFailed<T>) -> Self {
        BodyFault::NoMemory
    }
}
