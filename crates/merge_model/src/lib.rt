//! What a world of merge replication does: the tables of its sites, each step of them, and the
//! history that the promises speak of.
#![tactic(auto)]

mod answer;
mod event;
mod laws;
mod letter;
mod outcome;
mod reading;
mod slips;

pub use answer::{Answer, HeldRanges, ShownRow, SiteStanding};
pub use event::{Event, Line, NamedValue, NamedValues};
pub use laws::{
    answered_uploads_change_nothing, events_keep_what_steps_keep, lists_stay_sorted,
    no_generation_acts_twice, numbers_only_rise, ranges_never_overlap, refusals_change_nothing,
    reports_change_nothing,
};
pub use letter::{Letter, Message};
pub use outcome::{Forgotten, Outcome, Taken};
pub use reading::{
    events_are_read_exactly, literals_are_read_exactly, reading_stops_at_the_first_fault,
};
pub use slips::{calls_are_steps, steps_that_fail_show, steps_without_slips_are_plain};
