//! What an agent meets: a link that carries requests to a publisher, and a clock.
#![tactic(auto)]

mod clock;
mod link;

pub use clock::{Clock, MemoryClock};
pub use link::{Exchange, Link, LinkFault, MemoryLink};
