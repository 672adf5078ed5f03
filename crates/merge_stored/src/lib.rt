//! What the sites of a run store always loads: the tables of every run keep the rules that a start
//! tests, and so do those of a publisher after any calls and of a subscriber after any steps. These
//! functions do nothing: their contracts are the laws.
#![tactic(auto)]

mod keeping;
mod loading;
mod replies;
mod stored;

pub use keeping::any_calls_keep_rules;
pub use loading::{publisher_loads, subscribers_load, typed_runs_load};
pub use replies::{any_reply_keeps_rules, any_steps_load, subscribers_begin_with_rules};
pub use stored::{
    closings_have_records, conflicts_are_numbered, conflicts_have_records, own_ranges_are_held,
    publisher_rows_load, ranges_have_records, rows_have_records, sites_have_records,
    states_have_records,
};
