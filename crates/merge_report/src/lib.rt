//! The texts of answers, line by line as a script's reader sees them.
#![tactic(auto)]

mod answers;
mod conflicts;
mod generations;
mod lines;
mod names;
mod ranges;
mod refusals;
mod rows;

pub use answers::{text_of, texts_of};
