//! What the lines of a script say.
#![tactic(auto)]

mod events;
mod line;
mod stop;
mod word;

pub use line::read_line;
