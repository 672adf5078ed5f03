//! A publisher that callers share: one lock, one journal, and a seat for each caller.
#![tactic(auto)]

mod comparing;
mod desk;
mod ending;
mod entry;
mod fault;
mod mark;
mod opening;
mod seat;
mod state;
mod telling;
mod working;

pub use comparing::Difference;
pub use desk::{Desk, DeskStart};
pub use ending::{Closed, Differs, Journal};
pub use entry::{Entry, Receipt};
pub use fault::DeskFault;
pub use mark::Mark;
pub use opening::Opening;
pub use seat::Seat;
pub use state::DeskState;
pub use telling::summary;
