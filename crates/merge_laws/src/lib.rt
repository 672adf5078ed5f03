//! What holds of the model over every list of events. These functions do nothing: their contracts
//! are the laws.
#![tactic(auto)]

mod bounds;
mod effects;
mod laws;
mod leavings;
mod promised;
mod rests_on;
mod rounds;

pub use bounds::bounds_never_end_a_session;
pub use effects::no_generation_takes_effect_twice;
pub use laws::{
    downloads_stay_in_the_partition, finished_sessions_settle_their_sites,
    identity_values_are_taken_once, joined_sites_take_for_received_what_has_acted,
    known_changes_were_made, lineages_decide_as_histories_do,
    lineages_know_only_changes_that_were_made, lineages_that_tell_stand,
    machine_answers_as_the_model, mappings_are_the_last_lines, no_change_is_lost,
    purges_take_nothing_that_live_sites_need, received_change_numbers_are_the_last_that_acted,
    received_numbers_are_the_generations_that_acted, settled_sites_hold_their_partitions,
    subscribers_decide_as_their_changes_do, uploads_take_effect_once, watermarks_are_held,
};
pub use leavings::{purges_and_joins_take_nothing_owed, rows_leave_where_a_step_saw_it};
pub use promised::{promises_hold, valid_publications_have_values};
pub use rests_on::runs_keep_what_laws_rest_on;
pub use rounds::rounds_settle_all_sites;
