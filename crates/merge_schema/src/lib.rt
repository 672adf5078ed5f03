//! Publications: what a publication file says, and what is known of one that is accepted.
#![tactic(auto)]

mod building;
mod checks;
mod choices;
mod draft;
mod fault;
mod file_tables;
mod file_values;
mod joins;
mod keys;
mod laws;
mod names;
mod order;
mod places;
mod publication;
mod reading;

pub use fault::SchemaFault;
pub use laws::{ancestor_laws, partition_laws, validity_laws};
pub use merge_types::Tracking;
pub use publication::{Article, Identity, JoinFilter, Publication, Subscription, SubscriptionKind};
pub use reading::read;
