//! Responses as they are read.
ghost use Rattle.std.specs.Prelude.{◌≡◌, ◌≤◌, length as count, take, IfOk, IfErr};
ghost use Rattle.httparse.specs.Grammar.{HasNoResponse, MayBecomeResponse};
ghost use Rattle.httparse.specs.Spans.{IsResponseOf, IsResponseWithin};
ghost use Rattle.merge_wire.specs.Heads.{head_limit};
ghost use Rattle.merge_wire.specs.Messages.{IsResponse};
ghost use Rattle.merge_wire.specs.Faults.{IsResponseFault};

use crate::fields::body_length;
use crate::lines::{LINE_LIMIT, lines};
use crate::message::HEAD_LIMIT;
use crate::{Message, WireFault};
use httparse::Status;
use httparse::spans::{EMPTY_HEADER_SPAN, HeaderSpan, ResponseSpans, parse_response};
use merge_types::{NoMemory, Octets};
use std::alloc::Global;

/// Reads a response. Bytes behind its body are passed over.
pub fn read_response(alloc: Global, bytes: &[u8]) -> Result<Message, WireFault>
    ensures read { IfOk result (IsResponse bytes.now) }
    ensures fault { IfErr result (IsResponseFault bytes.now) }
{
    let mut fields = [EMPTY_HEADER_SPAN; 32];
    match parse_response(front_of(bytes), &mut fields) {
        Ok(Status::Complete(spans)) => response_of(alloc, bytes, spans, &fields),
        Ok(Status::Partial) => Err(unfinished(bytes)),
        Err(_) => Err(WireFault::BadHead),
    }
}

// The response whose head is at the front of the bytes.
fn response_of(
    alloc: Global,
    bytes: &[u8],
    spans: ResponseSpans,
    fields: &[HeaderSpan; 32],
) -> Result<Message, WireFault>
    requires head { IsResponseOf (take head_limit bytes.now) fields.now spans }
    requires within { IsResponseWithin (take head_limit bytes.now) fields.now spans }
    ensures read { IfOk result (IsResponse bytes.now) }
    ensures fault { IfErr result (IsResponseFault bytes.now) }
{
    let length = body_length(front_of(bytes), &fields[..spans.headers])?;
    let (_, behind) = bytes.split_at(spans.len);
    if (behind.len() as u64) < length {
        return Err(WireFault::Ended);
    }
    let body = copy_front(alloc, behind, length)?;
    Ok(Message::response(alloc, spans.code, body))
}

// A copy of so many bytes.
fn copy_front(alloc: Global, bytes: &[u8], length: u64) -> Result<Octets, NoMemory>
    requires { length ≤ count bytes.now }
    ensures { IfOk result (λ copy. copy ≡ take length bytes.now) }
{
    Ok(Octets::new(bytes[..length as usize].to_vec(alloc)?))
}

// No head is there yet. More bytes can bring one only where a head may have more than there are, and more fields.
fn unfinished(bytes: &[u8]) -> WireFault
    requires open_head { HasNoResponse (take head_limit bytes.now) }
    requires hopeful { MayBecomeResponse (take head_limit bytes.now) }
    ensures { IsResponseFault bytes.now result }
{
    if bytes.len() >= HEAD_LIMIT {
        return WireFault::BadHead;
    }
    if lines(bytes) <= LINE_LIMIT {
        WireFault::Ended
    } else {
        WireFault::BadHead
    }
}

// The bytes that a head may have.
fn front_of(bytes: &[u8]) -> &[u8]
    ensures { result.now ≡ take head_limit bytes.now }
{
    &bytes[..bytes.len().min(HEAD_LIMIT)]
}
