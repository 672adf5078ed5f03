//! The request of a connection.
ghost use Rattle.std.specs.Prelude.{◌≡◌, ◌≤◌, ◌↔◌, IfErr, IfOk, IsTrue};
ghost use Rattle.merge_json.specs.Messages.{IsSent};
ghost use Rattle.merge_json.specs.Sendable.{IsSendableRequest};
ghost use Rattle.merge_serve.specs.Asking.{Asks, IsNoRequest, IsPost, IsUnasked, unasked_of_fault};

use crate::answer::Bare;
use merge_batch::Request;
use merge_json::{BodyFault, kind_of_path, read_request};
use merge_ports::Source;
use merge_wire::{Message, WireFault, read_message};
use std::alloc::Global;

/// Why no request came: it is answered without the desk, or a read failed.
#[derive(Clone, Copy, Debug, PartialEq, Eq)]
pub enum Unasked {
    Declined(Bare),
    ReadFault,
}

// What is answered to a message that could not be read.
fn unread(fault: WireFault) -> Unasked
    ensures { result ≡ unasked_of_fault fault }
{
    match fault {
        WireFault::BadHead | WireFault::BadLength | WireFault::Ended => {
            Unasked::Declined(Bare::BadRequest)
        }
        WireFault::TooLong { .. } => Unasked::Declined(Bare::TooLong),
        WireFault::ReadFault => Unasked::ReadFault,
        WireFault::WriteFault | WireFault::NoMemory => Unasked::Declined(Bare::NoMemory),
    }
}

fn is_post(message: &Message) -> bool
    ensures { IsTrue result ↔ IsPost message.now }
{
    message.method.as_str() == "POST"
}

// The request that a message is.
fn request_in(alloc: Global, message: &Message) -> Result<Request, Bare>
    ensures asked { IfOk result (λ r. IsPost message.now × IsSent message.now.path message.now.body r) }
    ensures declined { IfErr result (IsNoRequest message.now) }
    ensures sendable { IfOk result IsSendableRequest }
{
    if kind_of_path(message.path.as_str().as_bytes()).is_none() {
        return Err(Bare::NotFound);
    }
    if !is_post(message) {
        return Err(Bare::MethodNotAllowed);
    }
    match read_request(
        alloc,
        message.path.as_str().as_bytes(),
        message.body.as_slice(),
    ) {
        Ok(request) => Ok(request),
        Err(BodyFault::BadBody { .. }) => Err(Bare::BadRequest),
        Err(BodyFault::NoMemory) => Err(Bare::NoMemory),
    }
}

/// Reads the request of a connection, and no byte behind it.
#[tactic(auto, using(crate::proofs::Asked::unasked_fault, crate::proofs::Asked::declined_message))]
pub(crate) fn read_asked<I: Source>(alloc: Global, input: &mut I) -> Result<Request, Unasked>
    ensures asked { IfOk result (Asks (I.left input.old) (I.left input.new)) }
    ensures unasked { IfErr result (IsUnasked (I.left input.old) (I.left input.new) (I.count input.old) (I.count input.new)) }
    ensures sendable { IfOk result IsSendableRequest }
    ensures later { I.count input.old ≤ I.count input.new }
{
    match read_message(alloc, input) {
        Ok(message) => match request_in(alloc, &message) {
            Ok(request) => Ok(request),
            Err(why) => Err(Unasked::Declined(why)),
        },
        Err(fault) => Err(unread(fault)),
    }
}
