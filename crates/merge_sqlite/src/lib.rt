//! The keeper over a SQLite file.
#![tactic(auto)]

mod keeper;

pub use keeper::{SqliteKeeper, Stop};
