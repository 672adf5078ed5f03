//! Why a session at a store was not told as done.
ghost use Rattle.std.specs.Prelude.{◌≡◌};
ghost use Rattle.merge_sync.specs.Stops.{stop_of_fault, stop_of_opening, stop_of_start};

use merge_agent::SessionFault;
use merge_batch::Refusal;
use merge_ports::{Failed, OpenFault};
use merge_types::{Moment, NoMemory, Octets};

/// Why a session at a store was not told as done.
#[derive(Debug, Drop)]
pub enum Stop {
    /// The site is no subscription.
    UnknownSite,
    /// The store could not be opened or read, or it failed in the session. It is counted.
    StoreFault,
    /// A record of the store has no reading, or breaks the rules of its site.
    Damaged { table: u8, key: Octets },
    /// The link failed in the session. It is counted.
    LinkFault,
    /// More than the retention has passed since the subscriber was in step.
    Expired { last_sync: Moment, now: Moment },
    /// A response is no message or does not fit. The place is that of the first bad item, from 1, or 0.
    BadReply { place: u64 },
    /// The publisher or the subscriber refused with this number.
    Refused { number: u8 },
    /// The session was done, and its line could not be written.
    WriteFault,
    NoMemory,
}

impl From<NoMemory> for Stop {
    ghost use Rattle.std.specs.Prelude.{◌≡◌};
    ghost use Rattle.merge_sync.specs.declared.stop.Stop.TheVariants.{NoMemory as no_memory};

    ghost from_gives = { λ _ stop. stop ≡ no_memory };

    fn from(_: NoMemory) -> Self {
        Stop::NoMemory
    }
}

impl From<Failed> for Stop {
    ghost use Rattle.std.specs.Prelude.{◌≡◌};
    ghost use Rattle.merge_sync.specs.declared.stop.Stop.TheVariants.{WriteFault as write_fault};

    ghost from_gives = { λ _ stop. stop ≡ write_fault };

    fn from(_: Failed) -> Self {
        Stop::WriteFault
    }
}

/// How a session stops by a store that cannot be opened.
pub(crate) fn unopened(fault: OpenFault) -> Stop
    ensures { result ≡ stop_of_opening fault }
{
    match fault {
        OpenFault::Failed => Stop::StoreFault,
        OpenFault::NoMemory => Stop::NoMemory,
    }
}

/// How a session stops by a site that does not start. That is for its number, for its store, or for
/// want of memory.
pub(crate) fn unstarted(why: Refusal) -> Stop
    ensures { result ≡ stop_of_start why }
{
    match why {
        Refusal::UnknownSite { .. } => Stop::UnknownSite,
        Refusal::StoreFault => Stop::StoreFault,
        Refusal::Damaged { table, key } => Stop::Damaged { table, key },
        _ => Stop::NoMemory,
    }
}

/// How a session stops by what ended it.
pub(crate) fn undone(fault: SessionFault) -> Stop
    ensures { result ≡ stop_of_fault fault }
{
    match fault {
        SessionFault::LinkFault => Stop::LinkFault,
        SessionFault::StoreFault => Stop::StoreFault,
        SessionFault::Expired { last_sync, now } => Stop::Expired { last_sync, now },
        SessionFault::BadReply { place } => Stop::BadReply { place },
        SessionFault::Refused { number } => Stop::Refused { number },
        SessionFault::NoMemory => Stop::NoMemory,
    }
}
