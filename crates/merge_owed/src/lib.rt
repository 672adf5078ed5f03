//! Laws that are owed over every list of events, whatever steps fail. These functions do nothing:
//! their contracts are the laws.
#![tactic(auto)]

mod bodies;
mod forgotten;
mod identity;
mod mappings;
mod purged;
mod ranges;

pub use bodies::{tops_are_in_chains, values_stand_by_their_tops};
pub use forgotten::{reports_tell_what_has_acted, what_is_forgotten_is_read_of_lines};
pub use identity::identity_values_stay;
pub use mappings::mappings_go_by_what_took_them;
pub use purged::accepted_changes_are_known_or_purged;
pub use ranges::range_requests_are_enough;
