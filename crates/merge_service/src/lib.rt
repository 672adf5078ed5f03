//! A publisher starts at its store and serves subscribers over a door, and what its journal has is
//! summed up.
#![tactic(auto)]

mod day;
mod opening;
mod service;
mod start;
mod stop;
mod writing;

pub use service::{Hours, serve_store};
pub use stop::Stop;
