//! A day at a door that is opened for it.
ghost use Rattle.std.specs.Prelude.{◌≡◌, ◌≤◌, Some};
ghost use Rattle.merge_service.specs.Days.{IsDay, result_of_outcome};

use crate::day::{Day, Outcome, hold_day};
use crate::stop::{Stop, undoored};
use merge_desk::Journal;
use merge_draft::DraftingPublisher;
use merge_link::Clock;
use merge_serve::{Door, Doors};
use merge_types::Words;
use std::alloc::Global;
use std::marker::Brand;
use std::sync::Wait;
use std::sync::ledger::Blank;
use std::thread::Threads;

// How a day ended by its outcome.
fn ended(outcome: Outcome, requests: u64) -> Result<Journal, Stop>
    ensures { result ≡ result_of_outcome outcome requests }
{
    match outcome {
        Outcome::Unstarted => Err(Stop::NoMemory),
        Outcome::Closed { journal, accepted } => {
            if accepted < requests {
                Err(Stop::DoorFault)
            } else {
                Ok(journal)
            }
        }
        Outcome::Differs(difference) => Err(Stop::Differs(difference)),
    }
}

/// Opens a door at an address, serves a desk of this publisher at it, and gives the door back. It may wait.
pub(crate) fn open_day<
    R: Threads + Wait + Sync,
    P: DraftingPublisher + Send,
    T: Doors,
    C: Clock + Send,
>(
    rt: &R,
    alloc: Global,
    doors: &mut T,
    publisher: P,
    address: &Words,
    workers: u16,
    requests: u64,
    clock: C,
) -> (P, Result<Journal, Stop>)
where
    P::Work: Send,
    T::Opened: Send,
    <T::Opened as Door>::Input: Send,
    <T::Opened as Door>::Output: Send,
    requires workers { (1 ≤ workers) × (workers ≤ 16) }
    ensures asked { T.asked doors.new ≡ Some address.now }
    ensures day { IsDay (P.view publisher).publication (P.view publisher).says (P.view publisher).tables (P.view result.0).tables workers requests (T.handed doors.new) (T.count doors.old) (T.count doors.new) result.1 }
{
    let door = match doors.door(address) {
        Ok(door) => door,
        Err(fault) => return (publisher, Err(undoored(fault))),
    };
    let served = hold_day::<R, P, Brand, Brand, Brand, Brand, T::Opened, C>(
        rt,
        alloc,
        publisher,
        workers,
        requests,
        door,
        clock,
        Blank::new(workers as u64),
        Blank::new(workers as u64),
        Blank::new(requests),
    );
    let Day {
        publisher,
        door,
        outcome,
    } = served;
    doors.door_back(door);
    (publisher, ended(outcome, requests))
}
