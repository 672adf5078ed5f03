//! Children by the value that they join on.
#![tactic(auto)]

mod entry;
mod index;
mod laws;

pub use entry::{JoinChange, JoinEntry};
pub use index::JoinIndex;
pub use laws::set_laws;
