//! Why a record is not read.
ghost use Rattle.std.specs.Prelude.{◌≡◌};
ghost use Rattle.merge_record.specs.declared.stop.Stop.TheVariants.{NoMemory as no_memory};

use merge_types::NoMemory;
use std::alloc::{AllocError, AllocFailed};

/// Why the reading of a record ended.
#[derive(Clone, Copy, Debug, PartialEq, Eq)]
pub enum Stop {
    /// The bytes are not in the grammar of records.
    Broken,
    NoMemory,
}

impl From<AllocError> for Stop {
    ghost from_gives = { λ _ stop. stop ≡ no_memory };

    fn from(_: AllocError) -> Stop {
        Stop::NoMemory
    }
}

impl From<NoMemory> for Stop {
    ghost from_gives = { λ _ stop. stop ≡ no_memory };

    fn from(_: NoMemory) -> Stop {
        Stop::NoMemory
    }
}

impl<T: Drop> From<AllocFailed<T>> for Stop {
    ghost from_gives = { λ _ stop. stop ≡ no_memory };

    fn from(_: AllocFailed<T>) -> Stop {
        Stop::NoMemory
    }
}
