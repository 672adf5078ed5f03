//! Doors over TCP: where the connections of subscribers come from.
#![tactic(auto)]

mod door;
mod waits;

pub use door::{TcpDoor, TcpDoors};
pub use waits::Waits;
