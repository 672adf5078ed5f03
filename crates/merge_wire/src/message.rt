//! Requests and responses.
ghost use Rattle.std.specs.Prelude.{◌≡◌, ◌≤◌, ◌↔◌, [], All, IsTrue, IfOk, codes};
ghost use Rattle.merge_wire.specs.Written.{IsVisible};

use merge_types::{NoMemory, Octets, Words};
use std::alloc::Global;

/// A head is ended within so many bytes.
pub const HEAD_LIMIT: usize = 8192;

/// The most bytes that a body may have.
pub const BODY_LIMIT: u64 = 134_217_728;

/// A request or a response. A request has the status 0, and one that was read has no host. A response
/// has no method, path and host.
#[derive(Debug, Drop)]
pub struct Message {
    pub method: Words,
    pub path: Words,
    pub host: Words,
    pub status: u16,
    pub body: Octets,
}

impl Message {
    /// A request as the product sends it.
    pub fn request(
        alloc: Global,
        path: Words,
        host: Words,
        body: Octets,
    ) -> Result<Message, NoMemory>
        ensures { IfOk result (λ m. m ≡ record { method = codes "POST"; path = path; host = host; status = 0; body = body }) }
    {
        let method = Words::of(alloc, "POST")?;
        Ok(Message {
            method,
            path,
            host,
            status: 0,
            body,
        })
    }

    /// A response. Takes no memory.
    pub fn response(alloc: Global, status: u16, body: Octets) -> Message
        ensures { result ≡ record { method = []; path = []; host = []; status = status; body = body } }
    {
        Message {
            method: Words::new(String::new(alloc)),
            path: Words::new(String::new(alloc)),
            host: Words::new(String::new(alloc)),
            status,
            body,
        }
    }
}

/// Whether a text may be the path or the host of a request: from 1 to 255 visible characters of ASCII.
pub fn is_visible(text: &str) -> bool
    ensures { IsTrue result ↔ IsVisible text.now }
{
    if text.is_empty() || text.len() > 255 {
        return false;
    }
    all_visible(text.as_bytes())
}

fn all_visible(bytes: &[u8]) -> bool
    ensures { IsTrue result ↔ All (λ byte. (33 ≤ byte) × (byte ≤ 126)) bytes.now }
{
    bytes.iter().all(|byte| 33 <= *byte && *byte <= 126)
}
