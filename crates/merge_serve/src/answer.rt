//! What a connection is answered with.
ghost use Rattle.std.specs.Prelude.{◌≡◌, IfOk};
ghost use Rattle.serde_json.specs.Written.{compact_text};
ghost use Rattle.merge_desk.specs.Marks.{is_refused};
ghost use Rattle.merge_serve.specs.Answers.{bare_status, reply_status, response_of, status_of};

use merge_batch::Reply;
use merge_types::Octets;
use merge_wire::Message;
use std::alloc::Global;

/// What is answered without a body.
#[derive(Clone, Copy, Debug, PartialEq, Eq)]
pub enum Bare {
    /// What came is no message, or its body is none.
    BadRequest,
    /// No requests go to the path.
    NotFound,
    /// Requests go to the path, but by another method.
    MethodNotAllowed,
    /// The body is longer than any may be.
    TooLong,
    /// The publisher's store failed.
    StoreFault,
    NoMemory,
}

/// What a connection is answered with: a reply of the publisher with its body, or a status alone.
#[derive(Debug, Drop)]
pub enum Answer {
    Told { reply: Reply, body: Octets },
    Bare(Bare),
}

fn bare_status(why: Bare) -> u16
    ensures { result ≡ bare_status why }
{
    match why {
        Bare::BadRequest => 400,
        Bare::NotFound => 404,
        Bare::MethodNotAllowed => 405,
        Bare::TooLong => 413,
        Bare::StoreFault => 500,
        Bare::NoMemory => 507,
    }
}

fn reply_status(reply: &Reply) -> u16
    ensures { result ≡ reply_status reply.now }
{
    match reply {
        Reply::Refused { .. } => 409,
        _ => 200,
    }
}

impl Answer {
    /// The response. It takes no memory.
    pub fn into_response(self, alloc: Global) -> Message
        ensures { result ≡ response_of self }
    {
        match self {
            Answer::Told { reply, body } => Message::response(alloc, reply_status(&reply), body),
            Answer::Bare(why) => Message::response(alloc, bare_status(why), Octets::empty(alloc)),
        }
    }
}
