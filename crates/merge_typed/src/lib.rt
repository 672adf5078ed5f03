//! Values and moments are those of their types: what comes from outside is, and so are the tables of
//! every run. These functions do nothing: their contracts are the laws.
#![tactic(auto)]

mod typed;

pub use typed::{messages_are_typed, script_events_are_typed, tables_are_typed};
