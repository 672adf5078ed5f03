//! All that is promised of a run, in one record, and laws that it lacked: what a step leaves that fails,
//! which deleted rows a purge drops, which step saw a row leave, which changes a version knows, to whom
//! ranges were granted, and which values changes and decisions give. These functions do nothing: their
//! contracts are the laws.
#![tactic(auto)]

mod earlier;
mod failures;
mod given;
mod leavings;
mod promises;
mod ranges;
mod rounds;
mod tombstones;

pub use earlier::earlier_changes_are_known;
pub use failures::refused_steps_keep_tables;
pub use given::{changes_and_decisions_give_values, given_values_stand};
pub use leavings::leavings_were_seen;
pub use promises::all_promises_hold;
pub use ranges::held_ranges_were_granted;
pub use rounds::{
    rounds_beside_other_steps_settle_all_sites, rounds_in_which_steps_may_fail_settle_all_sites,
    two_rounds_settle_all_sites,
};
pub use tombstones::{leavings_are_passed, purged_rows_are_never_new, tombstones_are_passed};
