//! Messages between a subscriber and the publisher as JSON.
#![tactic(auto)]

mod answers;
mod asks;
mod body;
mod downloads;
mod fault;
mod fields;
mod laws;
mod path;
mod reply;
mod request;
mod rows;
mod stop;
mod texts;
mod uploads;
mod values;
mod written;
mod written_replies;
mod written_requests;

pub use fault::BodyFault;
pub use laws::{form_laws, reply_laws, request_laws};
pub use path::{kind_of_path, path_of};
pub use reply::{read_reply, write_reply};
pub use request::{read_request, write_request};
