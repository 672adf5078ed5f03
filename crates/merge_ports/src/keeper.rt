//! What keeps the entries of a site's store.
ghost use Rattle.std.specs.Prelude.{◌≡◌, ℕ, IfOk, IfSome, OnOk, OnErr};
ghost use Rattle.std.specs.declared.option.Option.{Option};
ghost use Rattle.merge_ports.specs.Entries.{Map, told_after};
ghost use Rattle.merge_ports.specs.Keeping.{HasKeepCause};

use crate::{Entries, EntryEdit};
use merge_types::NoMemory;
use std::alloc::{AllocError, AllocFailed};
use thiserror::Error;

/// Why a keeper refused a call. What it keeps is as before.
#[derive(Clone, Copy, Debug, PartialEq, Eq, Error)]
pub enum KeepFault {
    /// The store could not be read or written, and the keeper's count of faults rose.
    #[error("store fault")]
    Failed,
    #[error("no memory")]
    NoMemory,
}

impl From<NoMemory> for KeepFault {
    ghost use Rattle.std.specs.Prelude.{◌≡◌};
    ghost use Rattle.merge_ports.specs.declared.keeper.KeepFault.TheVariants.{NoMemory as no_memory};

    ghost from_gives = { λ _ fault. fault ≡ no_memory };

    fn from(_: NoMemory) -> Self {
        KeepFault::NoMemory
    }
}

impl From<AllocError> for KeepFault {
    ghost use Rattle.std.specs.Prelude.{◌≡◌};
    ghost use Rattle.merge_ports.specs.declared.keeper.KeepFault.TheVariants.{NoMemory as no_memory};

    ghost from_gives = { λ _ fault. fault ≡ no_memory };

    fn from(_: AllocError) -> Self {
        KeepFault::NoMemory
    }
}

impl<T: Drop> From<AllocFailed<T>> for KeepFault {
    ghost use Rattle.std.specs.Prelude.{◌≡◌};
    ghost use Rattle.merge_ports.specs.declared.keeper.KeepFault.TheVariants.{NoMemory as no_memory};

    ghost from_gives = { λ _ fault. fault ≡ no_memory };

    fn from(_: AllocFailed<T>) -> Self {
        KeepFault::NoMemory
    }
}

/// A finite map from tables and keys to bytes, which outlives the site that it is kept for.
pub trait Keeper: Drop {
    /// The map, where the keeper tells it.
    ghost told: { Self → Option Map };

    /// How often a call has failed. It never falls, and stays once it is the greatest u64.
    ghost count: { Self → ℕ };

    /// All entries, by table and then by key.
    fn load(&mut self) -> Result<Entries, KeepFault>
        ensures ok { IfOk result (λ entries. IfSome (told self.old) (λ map. entries ≡ map)) }
        ensures same { told self.new ≡ told self.old }
        ensures cause { HasKeepCause (count self.old) (count self.new) result };

    /// Makes all edits in their order, or none of them.
    fn commit(&mut self, edits: &[EntryEdit]) -> Result<(), KeepFault>
        ensures ok { OnOk result (told self.new ≡ told_after edits.now (told self.old)) }
        ensures err { OnErr result (told self.new ≡ told self.old) }
        ensures cause { HasKeepCause (count self.old) (count self.new) result };

    /// How often a call has failed.
    fn faults(&self) -> u64
        ensures { result ≡ count self.now };
}
