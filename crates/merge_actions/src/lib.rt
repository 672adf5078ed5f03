//! What holds of the model after every list of actions, in any order, whatever steps fail. These functions
//! do nothing: their contracts are the laws.
#![tactic(auto)]

mod decisions;
mod numbers;
mod owed;
mod promised;
mod slips;
mod uploads;

pub use decisions::{actions_decide_as_histories_do, actions_keep_what_laws_rest_on};
pub use numbers::{actions_keep_numbers_and_lines, actions_take_nothing_owed};
pub use owed::{
    actions_forget_by_lines, actions_keep_values, actions_purge_what_is_lacking,
    actions_take_mappings,
};
pub use promised::{
    actions_lose_no_change, actions_settle_sites, actions_take_identity_values_once,
    promises_hold_of_actions,
};
pub use slips::{actions_that_fail_show, machine_acts_as_the_model};
pub use uploads::actions_take_effect_once;
