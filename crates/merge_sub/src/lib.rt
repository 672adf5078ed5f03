//! A subscriber: what it holds, the changes that are made there, and what it says to the publisher
//! and hears from it.
#![tactic(auto)]

mod anew;
mod begin;
mod changes;
mod closing;
mod counting;
mod generations;
mod local;
mod prepared;
mod reply;
mod sending;
mod starting;
mod state;
mod still;
mod subscriber;
mod told;
mod upload;

pub use anew::Discarding;
pub use changes::{Changes, Draft};
pub use starting::Kept;
pub use state::State;
pub use subscriber::Subscriber;
