//! What comes in place of a reply.
use merge_types::NoMemory;
use std::alloc::AllocError;

/// Why a call has no reply. It is not in the journal, and no table changed.
#[derive(Clone, Copy, Debug, PartialEq, Eq)]
pub enum DeskFault {
    /// The publisher's store failed, and has failed so often.
    StoreFault { count: u64 },
    NoMemory,
}

impl From<NoMemory> for DeskFault {
    ghost use Rattle.std.specs.Prelude.{◌≡◌};
    ghost use Rattle.merge_desk.specs.declared.fault.DeskFault.TheVariants as fault;

    ghost from_gives = { λ _ e. e ≡ fault.NoMemory };

    fn from(_: NoMemory) -> Self {
        DeskFault::NoMemory
    }
}

impl From<AllocError> for DeskFault {
    ghost use Rattle.std.specs.Prelude.{◌≡◌};
    ghost use Rattle.merge_desk.specs.declared.fault.DeskFault.TheVariants as fault;

    ghost from_gives = { λ _ e. e ≡ fault.NoMemory };

    fn from(_: AllocError) -> Self {
        DeskFault::NoMemory
    }
}
