//! A session of a subscriber with a publisher over a link: it joins, uploads, asks for identity
//! ranges, and downloads.
#![tactic(auto)]

mod answer;
mod exchange;
mod fault;
mod message;
mod stages;
mod take;

pub use answer::{Form, Told};
pub use fault::{Done, SessionFault};
pub use stages::session;
