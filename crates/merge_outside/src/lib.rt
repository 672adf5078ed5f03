//! What the program is joined to outside of itself: the stores of sites in memory and in files, texts
//! in files, the system's clock, and connections over TCP.
#![tactic(auto)]

mod clock;
mod commands;
mod connection;
mod memory;
mod real;
mod response;
mod slots;
mod store;
mod tcp;
mod text;
mod timed;

pub use clock::SystemClock;
pub use commands::CommandOutside;
pub use memory::{MemoryCommands, MemoryText};
pub use real::RealOutside;
pub use response::read_response;
pub use store::{FileKeeper, RealStore, Store};
pub use tcp::{RESPONSE_LIMIT, TcpLink, Waits};
pub use text::FileText;
pub use timed::TimedStream;
