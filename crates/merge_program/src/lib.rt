//! The program but for its `main`: what words, an input, files and stores make it do, and how it tells
//! of its end.
#![tactic(auto)]

mod alone;
mod change;
mod command;
mod ending;
mod files;
mod finish;
mod make;
mod notes;
mod order;
mod performing;
mod play;
mod script;
mod serve;
mod show;
mod stores;
mod sync;
mod top;

pub use ending::Status;
pub use performing::perform;
pub use top::{Host, run};
