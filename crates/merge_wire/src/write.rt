//! Messages as they are written.
ghost use Rattle.std.specs.Prelude.{◌≡◌, ◌≤◌, IfErr, OnOk, OnErr, IsTrue, Err};
ghost use Rattle.std.specs.Io.KnownBytes.{Appends};
ghost use Rattle.merge_ports.specs.Faults.{Rose};
ghost use Rattle.merge_ports.specs.Parts.{AppendsFront};
ghost use Rattle.merge_wire.specs.Pieces.{joined_pieces};
ghost use Rattle.merge_wire.specs.Written.{joined, request_pieces, response_pieces, message_text, status_text, allow_line, is_status, IsWritable};

use crate::{Message, WireFault};
use itoa::Buffer;
use merge_ports::{Sink, write_whole};

/// Writes a message. No memory is taken.
#[tactic(auto, unfolding(crate::specs::Written::message_text))]
pub fn write_message<S: Sink>(sink: &mut S, message: &Message) -> Result<(), WireFault>
    requires { IsWritable message.now }
    ensures whole { OnOk result (Appends (S.written sink.old) (S.written sink.new) (message_text message.now)) }
    ensures front { OnErr result (AppendsFront (S.written sink.old) (S.written sink.new) (message_text message.now)) }
    ensures fault { IfErr result (λ e. (e ≡ WireFault.WriteFault) × Rose (S.count sink.old) (S.count sink.new)) }
    ensures later { S.count sink.old ≤ S.count sink.new }
    ensures kept { OnOk result (S.count sink.new ≡ S.count sink.old) }
{
    if message.status == 0 {
        write_request(sink, message)
    } else {
        write_response(sink, message)
    }
}

fn write_request<S: Sink>(sink: &mut S, message: &Message) -> Result<(), WireFault>
    ensures whole { OnOk result (Appends (S.written sink.old) (S.written sink.new) (joined (request_pieces message.now))) }
    ensures front { OnErr result (AppendsFront (S.written sink.old) (S.written sink.new) (joined (request_pieces message.now))) }
    ensures fault { IfErr result (λ e. (e ≡ WireFault.WriteFault) × Rose (S.count sink.old) (S.count sink.new)) }
    ensures later { S.count sink.old ≤ S.count sink.new }
    ensures kept { OnOk result (S.count sink.new ≡ S.count sink.old) }
{
    let body = message.body.as_slice();
    let mut buffer = Buffer::new();
    let length = buffer.format(body.len());
    let pieces = [
        b"POST ".as_slice(),
        message.path.as_str().as_bytes(),
        b" HTTP/1.1\r\nHost: ".as_slice(),
        message.host.as_str().as_bytes(),
        b"\r\nContent-Type: application/json\r\nContent-Length: ".as_slice(),
        length.as_bytes(),
        b"\r\nConnection: close\r\n\r\n".as_slice(),
        body,
    ];
    send(sink, &pieces)
}

fn write_response<S: Sink>(sink: &mut S, message: &Message) -> Result<(), WireFault>
    requires { IsTrue (is_status message.now.status) }
    ensures whole { OnOk result (Appends (S.written sink.old) (S.written sink.new) (joined (response_pieces message.now))) }
    ensures front { OnErr result (AppendsFront (S.written sink.old) (S.written sink.new) (joined (response_pieces message.now))) }
    ensures fault { IfErr result (λ e. (e ≡ WireFault.WriteFault) × Rose (S.count sink.old) (S.count sink.new)) }
    ensures later { S.count sink.old ≤ S.count sink.new }
    ensures kept { OnOk result (S.count sink.new ≡ S.count sink.old) }
{
    let body = message.body.as_slice();
    let mut buffer = Buffer::new();
    let length = buffer.format(body.len());
    let pieces = [
        b"HTTP/1.1 ".as_slice(),
        status_text(message),
        b"\r\nContent-Type: application/json\r\nContent-Length: ".as_slice(),
        length.as_bytes(),
        b"\r\nConnection: close\r\n".as_slice(),
        allow(message),
        b"\r\n".as_slice(),
        body,
    ];
    send(sink, &pieces)
}

// The status of a response and its canonical phrase.
fn status_text(message: &Message) -> &[u8]
    requires { IsTrue (is_status message.now.status) }
    ensures { result.now ≡ status_text message.now.status }
{
    match message.status {
        200 => b"200 OK".as_slice(),
        400 => b"400 Bad Request".as_slice(),
        404 => b"404 Not Found".as_slice(),
        405 => b"405 Method Not Allowed".as_slice(),
        409 => b"409 Conflict".as_slice(),
        413 => b"413 Payload Too Large".as_slice(),
        500 => b"500 Internal Server Error".as_slice(),
        507 => b"507 Insufficient Storage".as_slice(),
        _ => unreachable!(),
    }
}

// A refused method is answered with the one that is taken.
fn allow(message: &Message) -> &[u8]
    ensures { result.now ≡ allow_line message.now.status }
{
    if message.status == 405 {
        b"Allow: POST\r\n".as_slice()
    } else {
        b"".as_slice()
    }
}

// Writes pieces one behind the other.
fn send<S: Sink>(sink: &mut S, pieces: &[&[u8]]) -> Result<(), WireFault>
    ensures whole { OnOk result (Appends (S.written sink.old) (S.written sink.new) (joined_pieces pieces.now)) }
    ensures front { OnErr result (AppendsFront (S.written sink.old) (S.written sink.new) (joined_pieces pieces.now)) }
    ensures fault { IfErr result (λ e. (e ≡ WireFault.WriteFault) × Rose (S.count sink.old) (S.count sink.new)) }
    ensures later { S.count sink.old ≤ S.count sink.new }
    ensures kept { OnOk result (S.count sink.new ≡ S.count sink.old) }
{
    for piece in pieces {
        match write_whole(sink, piece) {
            Ok(()) => {}
            Err(_) => return Err(WireFault::WriteFault),
        }
    }
    Ok(())
}
