//! How a session ends.
ghost use Rattle.std.specs.Prelude.{◌≡◌};
ghost use Rattle.merge_agent.specs.Faults.{refused_as};

use merge_batch::Refusal;
use merge_link::LinkFault;
use merge_types::{Moment, NoMemory};
use thiserror::Error;

/// What a session did that was refused nothing.
#[derive(Clone, Copy, Debug, PartialEq, Eq)]
pub struct Done {
    /// How many uploads were answered.
    pub uploads: u64,
    /// How many replies to downloads brought generations.
    pub downloads: u64,
    /// The last generation of the publisher that the subscriber holds.
    pub watermark: u64,
}

/// Why a session ended before it was done. The steps that it made stand.
#[derive(Clone, Copy, Debug, PartialEq, Eq, Error)]
pub enum SessionFault {
    /// The link failed, and its count of faults rose.
    #[error("link fault")]
    LinkFault,
    /// The subscriber's keeper failed, and its count of faults rose.
    #[error("store fault")]
    StoreFault,
    /// More than the retention has passed since the subscriber was in step. Moments are in seconds.
    #[error("expired {} {}", .last_sync.0, .now.0)]
    Expired { last_sync: Moment, now: Moment },
    /// A response is no message, has a status that is no answer of a publisher, or does not fit what
    /// was asked. The place is that of the first bad item, counted from 1, or 0.
    #[error("bad reply {place}")]
    BadReply { place: u64 },
    /// The publisher or the subscriber refused with this number, from the one list of refusals. It is
    /// 7 where the publisher's store failed, and 0 where the publisher wanted memory.
    #[error("refused {number}")]
    Refused { number: u8 },
    #[error("no memory")]
    NoMemory,
}

impl From<NoMemory> for SessionFault {
    ghost use Rattle.std.specs.Prelude.{◌≡◌};
    ghost use Rattle.merge_agent.specs.declared.fault.SessionFault.TheVariants.{NoMemory as no_memory};

    ghost from_gives = { λ _ fault. fault ≡ no_memory };

    fn from(_: NoMemory) -> Self {
        SessionFault::NoMemory
    }
}

impl From<LinkFault> for SessionFault {
    ghost use Rattle.std.specs.Prelude.{◌≡◌};
    ghost use Rattle.merge_agent.specs.Faults.{carrying_fault};

    ghost from_gives = { λ why fault. fault ≡ carrying_fault why };

    fn from(fault: LinkFault) -> Self {
        match fault {
            LinkFault::Failed => SessionFault::LinkFault,
            LinkFault::NoMemory => SessionFault::NoMemory,
        }
    }
}

impl From<Refusal> for SessionFault {
    ghost use Rattle.std.specs.Prelude.{◌≡◌};
    ghost use Rattle.merge_agent.specs.Faults.{fault_of};

    ghost from_gives = { λ refusal fault. fault ≡ fault_of refusal };

    fn from(refusal: Refusal) -> Self {
        match refusal {
            Refusal::BadBatch { item, .. } => SessionFault::BadReply { place: item },
            Refusal::StoreFault => SessionFault::StoreFault,
            Refusal::NoMemory => SessionFault::NoMemory,
            other => SessionFault::Refused {
                number: other.number(),
            },
        }
    }
}

/// The fault that a refused reply tells.
pub(crate) fn refused_as(number: u8, values: &[u64]) -> SessionFault
    ensures { result ≡ refused_as number values.now }
{
    match values {
        [last_sync, now] if number == 2 => SessionFault::Expired {
            last_sync: Moment(*last_sync),
            now: Moment(*now),
        },
        _ => SessionFault::Refused { number },
    }
}
