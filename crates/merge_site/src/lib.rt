//! The sites that a program runs: a publisher and subscribers, each with a keeper of its records.
#![tactic(auto)]

mod beginning;
mod committing;
mod copies;
mod drafting;
mod drafting_site;
mod ending;
mod grants;
mod handling;
mod held_publisher;
mod lists;
mod loading;
mod places;
mod publisher;
mod publisher_commit;
mod publisher_start;
mod publisher_telling;
mod request_draft;
mod restarting;
mod short;
mod sites;
mod subscriber;
mod subscriber_commit;
mod subscriber_start;

pub use beginning::NotStarted;
pub use drafting_site::DraftingSite;
pub use publisher::KeptPublisher;
pub use request_draft::RequestDraft;
pub use subscriber::KeptSubscriber;
