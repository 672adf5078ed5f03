//! Honest messages are taken: what requests that subscribers made are not refused for, and that replies
//! never are, over every list of events, so that sessions finish. These functions do nothing: their
//! contracts are the laws.
#![tactic(auto)]

mod expected;
mod items;
mod replies;
mod senders;
mod sessions;

pub use expected::{honest_requests_are_taken, requests_are_refused_for_little};
pub use items::{
    identity_values_are_right, inserts_take_values, items_tell_what_is_known, makers_are_heard_of,
    numbers_and_lineages_fit, rows_fit_their_articles, uploads_are_made_well,
};
pub use replies::{
    replies_answer_what_was_asked, replies_are_taken, rows_that_are_put_fit,
    rows_that_are_removed_fit,
};
pub use senders::{
    asks_name_granted_ranges, asks_tell_held_watermarks, senders_are_known, uploads_are_never_gaps,
};
pub use sessions::{sessions_finish, sessions_in_which_steps_fail_finish};
