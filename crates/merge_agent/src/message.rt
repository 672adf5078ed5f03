//! The messages that a subscriber makes, and their bytes.
ghost use Rattle.std.specs.Prelude.{◌≡◌, IfOk, IfSome};
ghost use Rattle.serde_json.specs.Written.{compact_text};
ghost use Rattle.merge_json.specs.Sendable.{IsSendableRequest};
ghost use Rattle.merge_json.specs.WrittenRequests.{request_data};
ghost use Rattle.merge_wire.specs.Written.{IsVisible};
ghost use Rattle.merge_world.specs.Messages.{sending_of};
ghost use Rattle.merge_world.specs.Printable.{ArePrintable};
ghost use Rattle.merge_agent.specs.Texts.{IsReadable, request_text};
ghost use Rattle.merge_agent.specs.Turns.{Makes};

use crate::fault::SessionFault;
use merge_batch::Request;
use merge_json::{path_of, write_request};
use merge_ports::MemorySink;
use merge_types::{Listing, Moment, NoMemory, Octets, Words};
use merge_wire::{Message, write_message};
use merge_world::{Sending, SubscriberSite, request_of};
use std::alloc::Global;

// What a subscriber's rows hold can be written.
fn rows_are_printable<S: SubscriberSite>(site: &S)
    ensures { ArePrintable (λ row. row.version) (S.view site.now).tables.rows }
{
    let _rows = site.rows();
}

/// The message that a subscriber makes, where it has one to make. It can be written.
pub(crate) fn make_message<S: SubscriberSite>(
    site: &mut S,
    now: Moment,
    sending: Sending,
) -> Result<Option<Request>, SessionFault>
    ensures made { Makes (sending_of sending) now (S.view site.old) (S.view site.new) result }
    ensures publication { (S.view site.new).publication ≡ (S.view site.old).publication }
    ensures sendable { IfOk result (λ made. IfSome made IsSendableRequest) }
{
    rows_are_printable(site);
    let made = request_of(site, now, sending)?;
    Ok(made)
}

// The body of a request. It is read again.
fn request_body(alloc: Global, request: &Request) -> Result<Octets, NoMemory>
    requires { IsSendableRequest request.now }
    ensures text { IfOk result (λ body. body ≡ compact_text (request_data request.now)) }
    ensures readable { IfOk result (λ body. IsReadable request.now) }
{
    let body = write_request(alloc, request)?;
    Ok(body)
}

/// The bytes of a request to an address.
#[tactic(auto, unfolding(crate::specs::Texts::request_text))]
pub(crate) fn request_bytes(
    alloc: Global,
    address: &Words,
    request: &Request,
) -> Result<Octets, NoMemory>
    requires visible { IsVisible address.now }
    requires sendable { IsSendableRequest request.now }
    ensures text { IfOk result (λ bytes. bytes ≡ request_text address.now request.now) }
    ensures readable { IfOk result (λ bytes. IsReadable request.now) }
{
    let body = request_body(alloc, request)?;
    let path = Words::of(alloc, path_of(request.kind()))?;
    let host = Words::of(alloc, address.as_str())?;
    let message = Message::request(alloc, path, host, body)?;
    let mut sink = MemorySink::new(alloc, Listing::empty(alloc));
    match write_message(&mut sink, &message) {
        Ok(()) => Ok(sink.bytes),
        Err(_) => Err(NoMemory),
    }
}
