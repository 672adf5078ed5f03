//! The parts of the script, each with the number of its events and the one with a place.
ghost use Rattle.std.specs.Prelude.{◌≡◌, ◌<◌, Some, length, slice_get};
ghost use Rattle.merge_make.specs.Script.{events_in};
ghost use Rattle.merge_make.specs.Steps.{event_of};

use crate::step::Step;
use merge_types::SiteId;

/// A part of the script, in which one thing is done for many customers.
#[derive(Clone, Copy, Debug, PartialEq, Eq)]
pub enum Part {
    /// The customers, at the publisher.
    Customers,
    /// Two orders for each customer.
    Orders,
    FirstSessions,
    /// Each customer's site gives it credit.
    Credits,
    /// The publisher takes the credit of each fourth customer back.
    Clearings,
    /// An upload that never comes, and sessions in which both updates meet.
    Crossing,
    /// The second order of each fifth customer goes.
    Cancellations,
    /// Each seventh customer goes to the next region.
    Moves,
    /// Sessions and reports.
    LastSessions,
}

const FIRST_SESSIONS: [Step; 3] = [
    Step::Sync(SiteId(1)),
    Step::Sync(SiteId(2)),
    Step::Sync(SiteId(3)),
];

const CROSSING: [Step; 6] = [
    Step::Upload(SiteId(1)),
    Step::Sync(SiteId(1)),
    Step::Sync(SiteId(2)),
    Step::Sync(SiteId(3)),
    Step::Sync(SiteId(1)),
    Step::Sync(SiteId(2)),
];

const LAST_SESSIONS: [Step; 8] = [
    Step::Sync(SiteId(1)),
    Step::Sync(SiteId(2)),
    Step::Sync(SiteId(3)),
    Step::Count(SiteId(0)),
    Step::Count(SiteId(1)),
    Step::Count(SiteId(2)),
    Step::Count(SiteId(3)),
    Step::Conflicts(SiteId(0)),
];

impl Part {
    /// How many events it has for so many customers.
    pub fn len(self, customers: u16) -> u32
        ensures { result ≡ length (events_in customers self) }
    {
        let customers = customers as u32;
        match self {
            Part::Customers => customers,
            Part::Orders => 2 * customers,
            Part::FirstSessions => 3,
            Part::Credits => customers,
            Part::Clearings => customers / 4,
            Part::Crossing => 6,
            Part::Cancellations => customers / 5,
            Part::Moves => customers / 7,
            Part::LastSessions => 8,
        }
    }

    /// Its event with a place, counted from 0.
    pub fn step(self, customers: u16, place: u32) -> Step
        requires { place < length (events_in customers self) }
        ensures { slice_get (events_in customers self) place ≡ Some (event_of result) }
    {
        match self {
            Part::Customers => Step::Customer(place),
            Part::Orders => Step::Order(place),
            Part::FirstSessions => FIRST_SESSIONS[place as usize],
            Part::Credits => Step::Credit(place),
            Part::Clearings => Step::Clear(4 * place + 3),
            Part::Crossing => CROSSING[place as usize],
            Part::Cancellations => Step::Cancel(customers as u32 + 10 * place + 9),
            Part::Moves => Step::Move(7 * place + 6),
            Part::LastSessions => LAST_SESSIONS[place as usize],
        }
    }
}
