//! Requests as they are read.
ghost use Rattle.std.specs.Prelude.{◌≡◌, ◌≤◌, length as count, Err, IfOk, IfErr, IsUtf8};
ghost use Rattle.httparse.specs.Spans.{IsWithin, span_bytes};
ghost use Rattle.merge_ports.specs.Parts.{ConsumesFront};
ghost use Rattle.merge_wire.specs.Messages.{IsRequest};
ghost use Rattle.merge_wire.specs.Faults.{Took, IsRequestFault};

use crate::body::read_body;
use crate::fields::body_length;
use crate::head::read_head;
use crate::{Message, WireFault};
use httparse::spans::{EMPTY_HEADER_SPAN, Span};
use merge_ports::Source;
use merge_types::{NoMemory, Words};
use std::alloc::Global;
use std::str;

/// Reads a request, and no byte behind its body. Its host is left out.
pub fn read_message<S: Source>(alloc: Global, source: &mut S) -> Result<Message, WireFault>
    ensures read { IfOk result (λ message. Took (S.left source.old) (S.left source.new) (λ bytes. IsRequest bytes message)) }
    ensures fault { IfErr result (IsRequestFault (S.left source.old) (S.left source.new) (S.count source.old) (S.count source.new)) }
    ensures front { ConsumesFront (S.left source.old) (S.left source.new) }
    ensures later { S.count source.old ≤ S.count source.new }
    ensures kept { (result ≡ Err WireFault.ReadFault → ⊥) → S.count source.new ≡ S.count source.old }
{
    let mut fields = [EMPTY_HEADER_SPAN; 32];
    let (head, spans) = read_head(alloc, source, &mut fields)?;
    let length = body_length(head.as_slice(), &fields[..spans.headers])?;
    let method = text_of(alloc, head.as_slice(), spans.method)?;
    let path = text_of(alloc, head.as_slice(), spans.path)?;
    let body = read_body(alloc, source, length)?;
    Ok(Message {
        method,
        path,
        host: Words::new(String::new(alloc)),
        status: 0,
        body,
    })
}

// A part of the head as a text.
fn text_of(alloc: Global, head: &[u8], span: Span) -> Result<Words, NoMemory>
    requires within { IsWithin (count head.now) span }
    requires text { IsUtf8 (span_bytes head.now span) }
    ensures { IfOk result (λ words. words ≡ span_bytes head.now span) }
{
    match str::from_utf8(span.of(head)) {
        Ok(text) => Words::of(alloc, text),
        Err(_) => unreachable!(),
    }
}
