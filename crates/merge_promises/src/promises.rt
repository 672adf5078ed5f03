//! All promises in one record.
ghost use Rattle.merge_laws.specs.Laws.{OfEveryValidRun};
ghost use Rattle.merge_promises.specs.Promises.{AllPromised, OfEveryRunPromised};

use crate::earlier::earlier_changes_are_known;
use crate::given::{changes_and_decisions_give_values, given_values_stand};
use crate::leavings::leavings_were_seen;
use crate::ranges::held_ranges_were_granted;
use crate::rounds::{
    rounds_beside_other_steps_settle_all_sites, rounds_in_which_steps_may_fail_settle_all_sites,
    two_rounds_settle_all_sites,
};
use crate::tombstones::{leavings_are_passed, purged_rows_are_never_new, tombstones_are_passed};
use merge_actions::{
    actions_forget_by_lines, actions_keep_values, actions_take_effect_once, actions_take_mappings,
};
use merge_honest::{
    honest_requests_are_taken, inserts_take_values, replies_answer_what_was_asked,
    replies_are_taken, requests_are_refused_for_little, rows_that_are_put_fit,
    rows_that_are_removed_fit, sessions_finish, sessions_in_which_steps_fail_finish,
};
use merge_laws::{
    machine_answers_as_the_model, no_generation_takes_effect_twice, promises_hold,
    rows_leave_where_a_step_saw_it, uploads_take_effect_once,
};
use merge_owed::{
    accepted_changes_are_known_or_purged, identity_values_stay, mappings_go_by_what_took_them,
    range_requests_are_enough, reports_tell_what_has_acted, tops_are_in_chains,
    values_stand_by_their_tops, what_is_forgotten_is_read_of_lines,
};

/// Where a publication can be said by a file, all that is promised holds of the model behind every list
/// of events, whichever steps fail, in one record; and all that is promised of the run, in another, of
/// which the first is a part. The machine has the tables of such a model.
pub fn all_promises_hold()
    ensures model { OfEveryValidRun AllPromised }
    ensures runs { OfEveryRunPromised }
{
    promises_hold();
    machine_answers_as_the_model();
    accepted_changes_are_known_or_purged();
    earlier_changes_are_known();
    tops_are_in_chains();
    values_stand_by_their_tops();
    actions_keep_values();
    changes_and_decisions_give_values();
    given_values_stand();
    no_generation_takes_effect_twice();
    uploads_take_effect_once();
    actions_take_effect_once();
    rows_leave_where_a_step_saw_it();
    leavings_were_seen();
    sessions_finish();
    sessions_in_which_steps_fail_finish();
    two_rounds_settle_all_sites();
    rounds_in_which_steps_may_fail_settle_all_sites();
    rounds_beside_other_steps_settle_all_sites();
    range_requests_are_enough();
    honest_requests_are_taken();
    requests_are_refused_for_little();
    replies_answer_what_was_asked();
    replies_are_taken();
    rows_that_are_put_fit();
    rows_that_are_removed_fit();
    inserts_take_values();
    identity_values_stay();
    held_ranges_were_granted();
    tombstones_are_passed();
    leavings_are_passed();
    purged_rows_are_never_new();
    what_is_forgotten_is_read_of_lines();
    actions_forget_by_lines();
    mappings_go_by_what_took_them();
    actions_take_mappings();
    reports_tell_what_has_acted();
}
