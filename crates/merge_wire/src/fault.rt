//! Why a message is not read or written.
use merge_ports::Failed;
use merge_types::NoMemory;
use std::alloc::AllocError;
use thiserror::Error;

/// Why a message is not read or written.
#[derive(Clone, Copy, Debug, PartialEq, Eq, Error)]
pub enum WireFault {
    /// No head can come of the bytes, it has more than 32 fields, or it is not ended within 8,192 bytes.
    #[error("bad head")]
    BadHead,
    /// The head does not give its body one length, as a plain decimal that fits 64 bits, or it has a
    /// transfer coding.
    #[error("bad length")]
    BadLength,
    /// The body has more bytes than are taken.
    #[error("body of {length} bytes is too long")]
    TooLong { length: u64 },
    /// The bytes end before the message does.
    #[error("message ended early")]
    Ended,
    #[error("read fault")]
    ReadFault,
    #[error("write fault")]
    WriteFault,
    #[error("no memory")]
    NoMemory,
}

impl From<NoMemory> for WireFault {
    ghost use Rattle.std.specs.Prelude.{◌≡◌};
    ghost use Rattle.merge_wire.specs.declared.fault.WireFault.TheVariants.{NoMemory as Lacking};

    ghost from_gives = { λ _ fault. fault ≡ Lacking };

    fn from(_: NoMemory) -> Self {
        WireFault::NoMemory
    }
}

impl From<AllocError> for WireFault {
    ghost use Rattle.std.specs.Prelude.{◌≡◌};
    ghost use Rattle.merge_wire.specs.declared.fault.WireFault.TheVariants.{NoMemory as Lacking};

    ghost from_gives = { λ _ fault. fault ≡ Lacking };

    fn from(_: AllocError) -> Self {
        WireFault::NoMemory
    }
}

// A call of a source that failed.
impl From<Failed> for WireFault {
    ghost use Rattle.std.specs.Prelude.{◌≡◌};
    ghost use Rattle.merge_wire.specs.declared.fault.WireFault.TheVariants.{ReadFault as Unread};

    ghost from_gives = { λ _ fault. fault ≡ Unread };

    fn from(_: Failed) -> Self {
        WireFault::ReadFault
    }
}
