//! Messages over HTTP/1.1 (RFC 9112).
#![tactic(auto)]

mod body;
mod fault;
mod fields;
mod gathered;
mod head;
mod laws;
mod lines;
mod message;
mod request;
mod response;
mod target;
mod write;

pub use fault::WireFault;
pub use laws::message_laws;
pub use message::{BODY_LIMIT, Message, is_visible};
pub use request::read_message;
pub use response::read_response;
pub use write::write_message;
