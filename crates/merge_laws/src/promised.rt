//! All promises in one record.
ghost use Rattle.merge_laws.specs.Laws.{OfEveryValidRun};
ghost use Rattle.merge_laws.specs.Laws.Promised.{MachineHasPromises, Promised, ValidRulesHaveValues};

use crate::bounds::bounds_never_end_a_session;
use crate::effects::no_generation_takes_effect_twice;
use crate::laws::{
    downloads_stay_in_the_partition, finished_sessions_settle_their_sites,
    identity_values_are_taken_once, joined_sites_take_for_received_what_has_acted,
    known_changes_were_made, lineages_decide_as_histories_do,
    lineages_know_only_changes_that_were_made, machine_answers_as_the_model,
    mappings_are_the_last_lines, no_change_is_lost, purges_take_nothing_that_live_sites_need,
    received_change_numbers_are_the_last_that_acted,
    received_numbers_are_the_generations_that_acted, settled_sites_hold_their_partitions,
    subscribers_decide_as_their_changes_do, uploads_take_effect_once, watermarks_are_held,
};
use crate::leavings::purges_and_joins_take_nothing_owed;
use crate::rests_on::runs_keep_what_laws_rest_on;
use crate::rounds::rounds_settle_all_sites;
use merge_model::{lists_stay_sorted, no_generation_acts_twice, ranges_never_overlap};

/// The identity ranges of a publication that a file can say begin at 1 or above and have values, so
/// the laws on identity values hold of each.
pub fn valid_publications_have_values()
    ensures { ValidRulesHaveValues }
{}

/// Where a publication can be said by a file, all promises hold of the model behind every list of
/// events, whichever steps fail. So they hold of the machine, which has the tables of such a model.
pub fn promises_hold()
    ensures model { OfEveryValidRun Promised }
    ensures machine { MachineHasPromises }
{
    no_change_is_lost();
    settled_sites_hold_their_partitions();
    finished_sessions_settle_their_sites();
    no_generation_acts_twice();
    uploads_take_effect_once();
    no_generation_takes_effect_twice();
    lineages_decide_as_histories_do();
    subscribers_decide_as_their_changes_do();
    machine_answers_as_the_model();
    valid_publications_have_values();
    ranges_never_overlap();
    identity_values_are_taken_once();
    purges_take_nothing_that_live_sites_need();
    watermarks_are_held();
    downloads_stay_in_the_partition();
    received_numbers_are_the_generations_that_acted();
    joined_sites_take_for_received_what_has_acted();
    received_change_numbers_are_the_last_that_acted();
    mappings_are_the_last_lines();
    known_changes_were_made();
    lineages_know_only_changes_that_were_made();
    rounds_settle_all_sites();
    bounds_never_end_a_session();
    purges_and_joins_take_nothing_owed();
    runs_keep_what_laws_rest_on();
    lists_stay_sorted();
}
