//! Which changes of each site a version has seen.
#![tactic(auto)]

mod laws;
mod lineage;

pub use laws::{cover_laws, join_laws, knowing_laws};
pub use lineage::{Lineage, Order4, are_ascending};
