//! Why a day at a publisher's store was not summed up.
ghost use Rattle.std.specs.Prelude.{◌≡◌};
ghost use Rattle.merge_service.specs.Stops.{stop_of_door, stop_of_opening, stop_of_start};

use merge_batch::Refusal;
use merge_desk::Difference;
use merge_ports::{Failed, OpenFault};
use merge_types::{NoMemory, Octets};

/// Why a day at a publisher's store was not summed up.
#[derive(Debug, Drop)]
pub enum Stop {
    /// The store could not be opened or read. It is counted.
    StoreFault,
    /// A record of the store has no reading, or breaks the rules of the publisher.
    Damaged { table: u8, key: Octets },
    /// The door could not be opened, or failed before all requests had come. It is counted.
    DoorFault,
    /// A seat was told something else than the journal has of it.
    Differs(Difference),
    /// The summary could not be written.
    WriteFault,
    NoMemory,
}

impl From<NoMemory> for Stop {
    ghost use Rattle.std.specs.Prelude.{◌≡◌};
    ghost use Rattle.merge_service.specs.declared.stop.Stop.TheVariants.{NoMemory as no_memory};

    ghost from_gives = { λ _ stop. stop ≡ no_memory };

    fn from(_: NoMemory) -> Self {
        Stop::NoMemory
    }
}

impl From<Failed> for Stop {
    ghost use Rattle.std.specs.Prelude.{◌≡◌};
    ghost use Rattle.merge_service.specs.declared.stop.Stop.TheVariants.{WriteFault as write_fault};

    ghost from_gives = { λ _ stop. stop ≡ write_fault };

    fn from(_: Failed) -> Self {
        Stop::WriteFault
    }
}

/// How a day stops by a store that cannot be opened.
pub(crate) fn unopened(fault: OpenFault) -> Stop
    ensures { result ≡ stop_of_opening fault }
{
    match fault {
        OpenFault::Failed => Stop::StoreFault,
        OpenFault::NoMemory => Stop::NoMemory,
    }
}

/// How a day stops by a door that cannot be opened.
pub(crate) fn undoored(fault: OpenFault) -> Stop
    ensures { result ≡ stop_of_door fault }
{
    match fault {
        OpenFault::Failed => Stop::DoorFault,
        OpenFault::NoMemory => Stop::NoMemory,
    }
}

/// How a day stops by a publisher that does not start. That is for its store, or for want of memory.
pub(crate) fn unstarted(why: Refusal) -> Stop
    ensures { result ≡ stop_of_start why }
{
    match why {
        Refusal::StoreFault => Stop::StoreFault,
        Refusal::Damaged { table, key } => Stop::Damaged { table, key },
        _ => Stop::NoMemory,
    }
}
