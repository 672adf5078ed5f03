//! Worked scripts, computed from their bytes to the bytes of the answers by the definitions alone.
//! No crate stands on this one.
#![tactic(auto)]

mod failing;
mod rows;
mod sessions;

pub use failing::steps_fail;
pub use rows::{
    a_row_goes_over, both_changes_sum, children_follow, column_update_stays, columns_merge,
    days_work, decided_by_one_value, decided_by_two_values, equal_priorities, everything_happens,
    expired_site, filter_for_null, filter_with_null, first_delete_stays, first_update_stays,
    higher_priority_wins, higher_update_stays, hundred_generations, identity_values, late_reply,
    lost_grant, made_anew, many_generations, negated_filter, purged_tombstone, repeated_upload,
    two_deletes_unite, unsent_row_stays,
};
pub use sessions::sessions_fail;
