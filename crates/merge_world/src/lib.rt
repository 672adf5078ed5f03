//! The world that a script is played on: sites, the messages between them, and what each event does.
#![tactic(auto)]

mod changing;
mod deliver;
mod events;
mod exchange;
mod laws;
mod local;
mod naming;
mod places;
mod pool;
mod reports;
mod restart;
mod rows;
mod sending;
mod session;
mod sites;
mod step;
mod world;

pub use laws::played_events_are_runs;
pub use reports::Report;
pub use sending::{Sending, request_of};
pub use session::Ended;
pub use sites::{PublisherSite, SubscriberSite};
pub use step::seconds_of;
pub use world::{Seen, Sites};
