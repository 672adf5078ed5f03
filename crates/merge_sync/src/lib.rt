//! A subscriber starts at its store and meets its publisher over a link, and what came of it is written.
#![tactic(auto)]

mod meeting;
mod start;
mod stop;
mod syncing;
mod writing;

pub use stop::Stop;
pub use syncing::sync;
