//! An ordered table that takes the memory for a change before the change is made.
//!
//! A table has slots, each with a key. A slot holds a row, or is room for one. Making room may be
//! refused for want of memory, and no row is seen to change. Putting a row into room, taking one out
//! and removing one need no memory, and so cannot be refused.
#![tactic(auto)]

mod edit;
mod kept;
mod key;
mod laws;
mod rows;
mod table;

pub use edit::Edit;
pub use kept::RowTest;
pub use key::TableKey;
pub use laws::{look_ups_after, rows_from_look_ups};
pub use rows::Rows;
pub use table::Table;
