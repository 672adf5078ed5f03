//! The example of the format, cut and hostile inputs, and failing ports.
mod faults;

ghost use Rattle.merge_wire.specs.Written.{IsWritable};

use crate::same::{same, same_in};
use merge_ports::{MemorySink, MemorySource, Short, Sink, Source};
use merge_types::{Listing, Octets, Words};
use merge_wire::{Message, WireFault, is_visible, read_message, read_response, write_message};
use std::alloc::Global;
use std::test::Fail;

const JOIN: &[u8] =
    b"POST /merge/join HTTP/1.1\r\nHost: 127.0.0.1:7000\r\nContent-Type: application/json\r\nContent-Length: 44\r\nConnection: close\r\n\r\n{\"generation\":0,\"number\":0,\"seq\":1,\"site\":1}";

const JOINED: &[u8] =
    b"HTTP/1.1 200 OK\r\nContent-Type: application/json\r\nContent-Length: 9\r\nConnection: close\r\n\r\n{\"seq\":1}";

fn octets(alloc: Global, bytes: &[u8]) -> Result<Octets, Fail> {
    Ok(Listing::new(bytes.to_vec(alloc)?))
}

fn source(alloc: Global, bytes: &[u8], failing: &[u64]) -> Result<MemorySource, Fail> {
    let failing = Listing::new(failing.to_vec(alloc)?);
    Ok(MemorySource::new(octets(alloc, bytes)?, failing))
}

// How a request is at fault, and none where it is read.
fn request_fault(alloc: Global, bytes: &[u8]) -> Result<Option<WireFault>, Fail> {
    let mut source = source(alloc, bytes, &[])?;
    match read_message(alloc, &mut source) {
        Ok(_) => Ok(None),
        Err(fault) => Ok(Some(fault)),
    }
}

fn response_fault(alloc: Global, bytes: &[u8]) -> Result<Option<WireFault>, Fail> {
    match read_response(alloc, bytes) {
        Ok(_) => Ok(None),
        Err(fault) => Ok(Some(fault)),
    }
}

#[test]
fn the_first_join_is_read(rt: HostRuntime) -> Result<(), Fail> {
    let mut bytes = octets(rt.alloc(), JOIN)?;
    bytes.extend(b"behind")?;
    let port = MemorySource::new(bytes, Listing::empty(rt.alloc()));
    let mut source = Short { port, most: 7 };
    let message = read_message(rt.alloc(), &mut source)?;
    same(&rt, &message.method.as_str(), &"POST");
    same(&rt, &message.path.as_str(), &"/merge/join");
    same(&rt, &message.host.as_str(), &"");
    same(&rt, &message.status, &0);
    same(
        &rt,
        &message.body.as_slice(),
        &br#"{"generation":0,"number":0,"seq":1,"site":1}"#.as_slice(),
    );
    same(&rt, &source.port.taken, &JOIN.len());
    Ok(())
}

#[test]
fn the_answer_is_read(rt: HostRuntime) -> Result<(), Fail> {
    let mut bytes = octets(rt.alloc(), JOINED)?;
    bytes.extend(b"behind")?;
    let message = read_response(rt.alloc(), bytes.as_slice())?;
    same(&rt, &message.status, &200);
    same(
        &rt,
        &(message.method.len() + message.path.len() + message.host.len()),
        &0,
    );
    same(&rt, &message.body.as_slice(), &br#"{"seq":1}"#.as_slice());
    Ok(())
}

#[test]
fn a_cut_request_has_ended(rt: HostRuntime) -> Result<(), Fail> {
    for length in 0..JOIN.len() {
        let fault = request_fault(rt.alloc(), &JOIN[..length])?;
        same_in(&rt, &fault, &Some(WireFault::Ended), &length);
    }
    same(&rt, &request_fault(rt.alloc(), JOIN)?, &None);
    Ok(())
}

#[test]
fn a_cut_response_has_ended(rt: HostRuntime) -> Result<(), Fail> {
    for length in 0..JOINED.len() {
        let fault = response_fault(rt.alloc(), &JOINED[..length])?;
        same_in(&rt, &fault, &Some(WireFault::Ended), &length);
    }
    same(&rt, &response_fault(rt.alloc(), JOINED)?, &None);
    Ok(())
}

#[test]
fn each_failing_read_is_a_read_fault(rt: HostRuntime) -> Result<(), Fail> {
    // 122 bytes of the head, and the body at once
    for failing in 0..123 {
        let mut source = source(rt.alloc(), JOIN, &[failing])?;
        let fault = read_message(rt.alloc(), &mut source).err();
        same_in(&rt, &fault, &Some(WireFault::ReadFault), &failing);
        same_in(&rt, &source.faults(), &1, &failing);
    }
    let mut source = source(rt.alloc(), JOIN, &[123])?;
    assert!(rt; read_message(rt.alloc(), &mut source).is_ok());
    same(&rt, &source.calls, &123);
    Ok(())
}

// Writes a request to a sink that takes so many bytes in one call, and fails at the calls that are told.
fn write_join(
    alloc: Global,
    failing: &[u64],
    most: usize,
) -> Result<(Option<WireFault>, Short<MemorySink>), Fail> {
    let host = "127.0.0.1:7000";
    let path = "/merge/join";
    if !is_visible(host) || !is_visible(path) {
        return Err(Fail::from("not visible"));
    }
    let body = octets(alloc, br#"{"generation":0,"number":0,"seq":1,"site":1}"#)?;
    let join = Message::request(
        alloc,
        Words::of(alloc, path)?,
        Words::of(alloc, host)?,
        body,
    )?;
    let port = MemorySink::new(alloc, Listing::new(failing.to_vec(alloc)?));
    let mut sink = Short { port, most };
    let result = write_message(&mut sink, &join);
    Ok((result.err(), sink))
}

#[test]
fn a_request_is_written_line_by_line(rt: HostRuntime) -> Result<(), Fail> {
    let (fault, sink) = write_join(rt.alloc(), &[], 1000)?;
    same(&rt, &fault, &None);
    same(&rt, &sink.port.bytes.as_slice(), &JOIN);
    Ok(())
}

#[test]
fn each_failing_write_leaves_a_front(rt: HostRuntime) -> Result<(), Fail> {
    for failing in 0..30 {
        let (fault, sink) = write_join(rt.alloc(), &[failing], 20)?;
        let is_whole = sink.port.bytes.len() == JOIN.len();
        let wanted = if is_whole {
            None
        } else {
            Some(WireFault::WriteFault)
        };
        same_in(&rt, &fault, &wanted, &failing);
        same_in(&rt, &(sink.faults() == 0), &is_whole, &failing);
        assert!(rt; JOIN.starts_with(sink.port.bytes.as_slice()));
    }
    Ok(())
}

// Whether a response is written so, and its status is read again.
fn is_written(alloc: Global, response: &Message, text: &[u8]) -> Result<bool, Fail>
    requires { IsWritable response.now }
{
    let mut sink = MemorySink::new(alloc, Listing::empty(alloc));
    if write_message(&mut sink, response).is_err() {
        return Ok(false);
    }
    let message = read_response(alloc, sink.bytes.as_slice())?;
    Ok(sink.bytes.as_slice() == text && message.status == response.status)
}

#[test]
fn an_answer_is_written_line_by_line(rt: HostRuntime) -> Result<(), Fail> {
    let body = octets(rt.alloc(), br#"{"seq":1}"#)?;
    let joined = Message::response(rt.alloc(), 200, body);
    assert!(rt; is_written(rt.alloc(), &joined, JOINED)?);
    Ok(())
}

const NOT_ALLOWED: &[u8] =
    b"HTTP/1.1 405 Method Not Allowed\r\nContent-Type: application/json\r\nContent-Length: 0\r\nConnection: close\r\nAllow: POST\r\n\r\n";

#[test]
fn a_refusal_of_a_method_is_written_line_by_line(rt: HostRuntime) -> Result<(), Fail> {
    let refused = Message::response(rt.alloc(), 405, Octets::empty(rt.alloc()));
    assert!(rt; is_written(rt.alloc(), &refused, NOT_ALLOWED)?);
    Ok(())
}

#[test]
fn a_told_length_takes_no_reads(rt: HostRuntime) -> Result<(), Fail> {
    let head = b"POST /x HTTP/1.1\r\nContent-Length: 134217728\r\n\r\n0123456789";
    let mut source = source(rt.alloc(), head, &[])?;
    same(
        &rt,
        &read_message(rt.alloc(), &mut source).err(),
        &Some(WireFault::Ended),
    );
    assert!(rt; source.calls <= head.len() as u64 + 2);
    Ok(())
}

// A head is read byte by byte, and a body by 4,096 bytes.
#[test]
fn reads_follow_the_bytes(rt: HostRuntime) -> Result<(), Fail> {
    for (length, reads) in [(0, 0), (1, 1), (4096, 1), (4097, 2), (100_000, 25)] {
        let head = format!(in rt.alloc(); "POST /x HTTP/1.1\r\nContent-Length: {length}\r\n\r\n")?;
        let mut bytes = octets(rt.alloc(), head.as_bytes())?;
        for _ in 0..length {
            bytes.push(b' ')?;
        }
        let mut source = MemorySource::new(bytes, Listing::empty(rt.alloc()));
        let message = read_message(rt.alloc(), &mut source)?;
        same(&rt, &message.body.len(), &length);
        same(
            &rt,
            &source.calls,
            &(head.len() as u64).saturating_add(reads),
        );
    }
    Ok(())
}
