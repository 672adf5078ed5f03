//! A desk serves subscribers over connections: each brings one request and takes one response.
#![tactic(auto)]

mod answer;
mod asking;
mod attending;
mod connection;
mod door;
mod doors;
mod entrance;
mod gate;
mod memory;
mod replying;
mod serving;

pub use answer::{Answer, Bare};
pub use attending::{Attended, attend};
pub use connection::Connection;
pub use door::Door;
pub use doors::Doors;
pub use entrance::Quota;
pub use gate::{Gate, OpenGate};
pub use memory::{Caller, MemoryDoor, MemoryDoors};
pub use serving::{Served, serve};
