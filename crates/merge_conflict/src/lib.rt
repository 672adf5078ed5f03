//! What lost in conflicts: the rows of a decision, and the table that keeps them.
#![tactic(auto)]

mod kind;
mod laws;
mod losers;
mod row;
mod table;

pub use kind::ConflictKind;
pub use laws::{kind_law, numbering_law};
pub use losers::{Conflict, losing_rows};
pub use row::{ConflictRow, ConflictRows, Verdict};
pub use table::{ConflictPlan, ConflictTable, are_rising};
