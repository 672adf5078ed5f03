//! What a site stores, and the keeper in memory that holds it.
#![tactic(auto)]

mod counts;
mod edits;
mod grants;
mod laws;
mod memory;
mod publisher_record;
mod publisher_start;
mod start;
mod states;
mod stored;
mod subscriber_record;
mod subscriber_start;

pub use laws::{
    damage_is_first, edits_follow, loaded_has_no_other_record, loaded_keeps_rules,
    publisher_stored_tables_load, state_records, stored_tables_load,
};
pub use memory::{MemoryKeeper, Stop};
pub use publisher_record::PublisherRecord;
pub use publisher_start::start_publisher;
pub use start::StartFault;
pub use states::{ConflictHead, ConflictValue, Front, PublisherState, SubscriberState, Talk};
pub use stored::{PublisherChanges, PublisherStored, SubscriberChanges, SubscriberStored};
pub use subscriber_record::SubscriberRecord;
pub use subscriber_start::start_subscriber;
