//! The script, step by step.
ghost use Rattle.std.specs.Prelude.{◌≡◌, ◌<◌, ◌^◌, length, option_map, slice_get};
ghost use Rattle.merge_make.specs.Rest.{rest};
ghost use Rattle.merge_make.specs.Script.{script};
ghost use Rattle.merge_make.specs.Steps.{event_of};

use crate::part::Part;
use crate::step::Step;

const PARTS: [Part; 9] = [
    Part::Customers,
    Part::Orders,
    Part::FirstSessions,
    Part::Credits,
    Part::Clearings,
    Part::Crossing,
    Part::Cancellations,
    Part::Moves,
    Part::LastSessions,
];

// The step with a place, counted from 0.
fn step_at(customers: u16, place: u32) -> Option<Step>
    ensures { option_map event_of result ≡ slice_get (script customers) place }
{
    let mut left = place;
    for part in &PARTS {
        let len = part.len(customers);
        if left < len {
            return Some(part.step(customers, left));
        }
        left -= len;
    }
    None
}

/// How many events the script for so many customers has.
pub fn event_count(customers: u16) -> u32
    ensures count { result ≡ length (script customers) }
    ensures few { result < 2 ^ 19 }
{
    let customers = customers as u32;
    4 * customers + customers / 4 + customers / 5 + customers / 7 + 17
}

/// The script for a number of customers, step by step. It is never held as a whole.
#[derive(Debug, Drop)]
pub struct Script {
    customers: u16,
    // Of the step that comes next.
    place: u32,
}

impl Script {
    /// The whole script.
    pub fn new(customers: u16) -> Self
        ensures { rest result ≡ script customers }
    {
        Script {
            customers,
            place: 0,
        }
    }
}

impl Iterator for Script {
    ghost use Rattle.std.specs.Iterator.{YieldsFirstBy, item_count};
    ghost use Rattle.merge_make.specs.Rest.{rest};
    ghost use Rattle.merge_make.specs.Steps.{event_of};

    type Item = Step;

    ghost next_gives = { YieldsFirstBy event_of rest };

    ghost remaining = { item_count rest };

    fn next(&mut self) -> Option<Step> {
        match step_at(self.customers, self.place) {
            Some(step) => {
                self.place += 1;
                Some(step)
            }
            None => None,
        }
    }
}
