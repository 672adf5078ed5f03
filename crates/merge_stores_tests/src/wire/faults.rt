//! How messages are at fault, over tables of heads.
use super::{octets, request_fault, response_fault, source};
use crate::same::{same, same_in};
use merge_types::Octets;
use merge_wire::WireFault::{BadHead, BadLength, Ended, TooLong};
use merge_wire::{WireFault, read_message};
use std::alloc::Global;
use std::test::Fail;

// Bytes, and how a message with them is at fault.
type Case = (&'static [u8], Option<WireFault>);

// These bytes with some behind them.
fn joined(alloc: Global, front: &[u8], behind: &[u8]) -> Result<Octets, Fail> {
    let mut bytes = octets(alloc, front)?;
    bytes.extend(behind)?;
    Ok(bytes)
}

// First lines of requests. Each has a length behind it, and a body.
const REQUEST_LINES: &[Case] = &[
    (b"POST /x HTTP/1.1\r\n", None),
    (b"GET /x HTTP/1.0\n", None),
    (b"\r\n\nPOST /x HTTP/1.1\r\n", None),
    // no method, or one that is no token
    (b" /x HTTP/1.1\r\n", Some(BadHead)),
    (b"PO(ST /x HTTP/1.1\r\n", Some(BadHead)),
    (b"\x16\x03\x01\x02\x00\r\n", Some(BadHead)),
    // no path, an empty one, two, or one with a control character
    (b"POST HTTP/1.1\r\n", Some(BadHead)),
    (b"POST  /x HTTP/1.1\r\n", Some(BadHead)),
    (b"POST /x /y HTTP/1.1\r\n", Some(BadHead)),
    (b"POST /\x7f HTTP/1.1\r\n", Some(BadHead)),
    // no version, or another
    (b"POST /x\r\n", Some(BadHead)),
    (b"POST /x HTTP/2.0\r\n", Some(BadHead)),
    (b"POST /x HTTP/1.2\r\n", Some(BadHead)),
    (b"POST /x http/1.1\r\n", Some(BadHead)),
    (b"POST /x HTTP/1.1 \r\n", Some(BadHead)),
];

#[test]
fn first_lines_of_requests(rt: HostRuntime) -> Result<(), Fail> {
    for (line, fault) in REQUEST_LINES {
        let bytes = joined(rt.alloc(), line, b"Content-Length: 1\r\n\r\nx")?;
        assert_eq!(rt;
            request_fault(rt.alloc(), bytes.as_slice())?,
            *fault,
            "{line:?}"
        );
    }
    Ok(())
}

// First lines of responses.
const STATUS_LINES: &[Case] = &[
    (b"HTTP/1.1 200 OK\r\n", None),
    (b"HTTP/1.0 404\n", None),
    // another version
    (b"HTTP/2 200 OK\r\n", Some(BadHead)),
    (b"http/1.1 200 OK\r\n", Some(BadHead)),
    // no status, or one of other than three digits
    (b"HTTP/1.1\r\n", Some(BadHead)),
    (b"HTTP/1.1  200 OK\r\n", Some(BadHead)),
    (b"HTTP/1.1 20 OK\r\n", Some(BadHead)),
    (b"HTTP/1.1 2000 OK\r\n", Some(BadHead)),
    (b"HTTP/1.1 2x0 OK\r\n", Some(BadHead)),
    // a control character in the phrase
    (b"HTTP/1.1 200 O\x00K\r\n", Some(BadHead)),
    // a request
    (b"POST / HTTP/1.1\r\n", Some(BadHead)),
];

#[test]
fn first_lines_of_responses(rt: HostRuntime) -> Result<(), Fail> {
    for (line, fault) in STATUS_LINES {
        let bytes = joined(rt.alloc(), line, b"Content-Length: 1\r\n\r\nx")?;
        assert_eq!(rt;
            response_fault(rt.alloc(), bytes.as_slice())?,
            *fault,
            "{line:?}"
        );
    }
    Ok(())
}

// How a request and a response are at fault that have these bytes behind a first line of 17 bytes.
fn faults_behind(
    alloc: Global,
    bytes: &[u8],
) -> Result<(Option<WireFault>, Option<WireFault>), Fail> {
    let request = joined(alloc, b"POST / HTTP/1.1\r\n", bytes)?;
    let response = joined(alloc, b"HTTP/1.1 200 OK\r\n", bytes)?;
    Ok((
        request_fault(alloc, request.as_slice())?,
        response_fault(alloc, response.as_slice())?,
    ))
}

// Fields of a message whose body has one byte.
const FIELDS: &[Case] = &[
    (b"Content-Length: 1\r\n", None),
    (b"content-length:1\n", None),
    (b"a: b\r\nCONTENT-LENGTH: \t 0 \r\n", None),
    // no colon, a space before it, no name, a folded value, and one with a control character
    (b"Content-Length: 1\r\nHost\r\n", Some(BadHead)),
    (b"Content Length: 1\r\n", Some(BadHead)),
    (b"Content-Length : 1\r\n", Some(BadHead)),
    (b": 1\r\n", Some(BadHead)),
    (b"Content-Length: 1\r\n a: b\r\n", Some(BadHead)),
    (b"Content-Length: 1\r\na: \x00\r\n", Some(BadHead)),
    (b"Content-Length: 1\ra: b\r\n", Some(BadHead)),
    // no length, two, and one with a transfer coding
    (b"", Some(BadLength)),
    (b"Content-Lengths: 1\r\n", Some(BadLength)),
    (
        b"Content-Length: 1\r\nContent-Length: 1\r\n",
        Some(BadLength),
    ),
    (
        b"Content-Length: 1\r\na: b\r\ncontent-length: 2\r\n",
        Some(BadLength),
    ),
    (
        b"Content-Length: 1\r\nTransfer-Encoding: chunked\r\n",
        Some(BadLength),
    ),
    (
        b"transfer-encoding: identity\r\nContent-Length: 1\r\n",
        Some(BadLength),
    ),
    // a length that is no plain decimal of 64 bits
    (b"Content-Length:\r\n", Some(BadLength)),
    (b"Content-Length: 1, 1\r\n", Some(BadLength)),
    (b"Content-Length: +1\r\n", Some(BadLength)),
    (b"Content-Length: -1\r\n", Some(BadLength)),
    (b"Content-Length: 01\r\n", Some(BadLength)),
    (b"Content-Length: 1.0\r\n", Some(BadLength)),
    (b"Content-Length: 0x1\r\n", Some(BadLength)),
    (b"Content-Length: 18446744073709551616\r\n", Some(BadLength)),
    // one of more than 134,217,728
    (
        b"Content-Length: 134217729\r\n",
        Some(TooLong {
            length: 134_217_729,
        }),
    ),
    (
        b"Content-Length: 18446744073709551615\r\n",
        Some(TooLong {
            length: 18_446_744_073_709_551_615,
        }),
    ),
    // a body that lacks bytes
    (b"Content-Length: 2\r\n", Some(Ended)),
    (b"Content-Length: 134217728\r\n", Some(Ended)),
];

#[test]
fn fields(rt: HostRuntime) -> Result<(), Fail> {
    for (lines, fault) in FIELDS {
        let bytes = joined(rt.alloc(), lines, b"\r\nx")?;
        let faults = faults_behind(rt.alloc(), bytes.as_slice())?;
        assert_eq!(rt; faults, (*fault, *fault), "{lines:?}");
    }
    Ok(())
}

// A length and so many fields more.
fn with_fields(alloc: Global, times: u32) -> Result<Octets, Fail> {
    let mut bytes = octets(alloc, b"Content-Length: 1\r\n")?;
    for _ in 0..times {
        bytes.extend(b"a:\r\n")?;
    }
    Ok(bytes)
}

#[test]
fn at_most_32_fields(rt: HostRuntime) -> Result<(), Fail> {
    for (times, end, fault) in [
        (31, b"\r\nx".as_slice(), None),
        (32, b"\r\nx", Some(BadHead)),
        // the 33rd is begun, and ended
        (31, b"a:", Some(Ended)),
        (31, b"a:\r\n", Some(BadHead)),
    ] {
        let mut bytes = with_fields(rt.alloc(), times)?;
        bytes.extend(end)?;
        let faults = faults_behind(rt.alloc(), bytes.as_slice())?;
        assert_eq!(rt; faults, (fault, fault), "{times} {end:?}");
    }
    Ok(())
}

// A length, and a field that makes the head so long, if its first line has 17 bytes.
fn with_long_field(alloc: Global, length: usize) -> Result<Octets, Fail> {
    let mut bytes = octets(alloc, b"Content-Length: 1\r\na:")?;
    for _ in bytes.len().saturating_add(17)..length {
        bytes.push(b'b')?;
    }
    Ok(bytes)
}

#[test]
fn at_most_8192_bytes(rt: HostRuntime) -> Result<(), Fail> {
    for (length, end, fault) in [
        (8188, b"\r\n\r\nx".as_slice(), None),
        (8189, b"\r\n\r\nx", Some(BadHead)),
        // a head without its end
        (8191, b"", Some(Ended)),
        (8192, b"", Some(BadHead)),
    ] {
        let mut bytes = with_long_field(rt.alloc(), length)?;
        bytes.extend(end)?;
        let faults = faults_behind(rt.alloc(), bytes.as_slice())?;
        same_in(&rt, &faults, &(fault, fault), &length);
    }
    Ok(())
}

// What ends inside a head has ended where a head can still come of it.
const REQUEST_FRONTS: &[Case] = &[
    (b"", Some(Ended)),
    (b"\r\n", Some(Ended)),
    (b"GET /", Some(Ended)),
    (b"GET ", Some(Ended)),
    // a target that bytes can make a text, and one that none can
    (b"GET /\xc3", Some(Ended)),
    (b"GET /\xc3\xa9", Some(Ended)),
    (b"GET /\xe2\x82", Some(Ended)),
    (b"GET /\xf0\x90\x8d", Some(Ended)),
    (b"GET /\xff", Some(BadHead)),
    (b"GET /\xf5", Some(BadHead)),
    (b"GET /\xe2\x28", Some(BadHead)),
    (b"GET /\xe2\x82 ", Some(BadHead)),
    // an overlong form, a surrogate, and a number past the last character
    (b"GET /\xc0\x80", Some(BadHead)),
    (b"GET /\xe0\x9f", Some(BadHead)),
    (b"GET /\xed\xa0", Some(BadHead)),
    (b"GET /\xf4\x90", Some(BadHead)),
    (b"GET /\x7f", Some(BadHead)),
    (b"GET  ", Some(BadHead)),
    (b"G\x00", Some(BadHead)),
    (b"POST / HTTP/2", Some(BadHead)),
    (b"POST / HTTP/1.1\r\na b", Some(BadHead)),
    (b"POST / HTTP/1.1\na: b\n", Some(Ended)),
    (b"POST / HTTP/1.1\na: b\r", Some(Ended)),
    (b"POST / HTTP/1.1\na: b\rc", Some(BadHead)),
];

#[test]
fn a_bad_front_of_a_request_has_not_ended(rt: HostRuntime) -> Result<(), Fail> {
    for (bytes, fault) in REQUEST_FRONTS {
        assert_eq!(rt; request_fault(rt.alloc(), bytes)?, *fault, "{bytes:?}");
    }
    Ok(())
}

const RESPONSE_FRONTS: &[Case] = &[
    (b"", Some(Ended)),
    (b"\r\n", Some(Ended)),
    (b"HTTP/1.1 ", Some(Ended)),
    (b"HTTP/1.1 20", Some(Ended)),
    (b"HTTP/1.1 2 ", Some(BadHead)),
    (b"HTTP/2", Some(BadHead)),
    (b"HTTP/1.1 200 OK\r\na b", Some(BadHead)),
    (b"HTTP/1.1 200 OK\na: b\n", Some(Ended)),
    (b"HTTP/1.1 200 OK\na: b\rc", Some(BadHead)),
];

#[test]
fn a_bad_front_of_a_response_has_not_ended(rt: HostRuntime) -> Result<(), Fail> {
    for (bytes, fault) in RESPONSE_FRONTS {
        assert_eq!(rt; response_fault(rt.alloc(), bytes)?, *fault, "{bytes:?}");
    }
    Ok(())
}

#[test]
fn nothing_is_read_behind_what_is_no_head(rt: HostRuntime) -> Result<(), Fail> {
    for (bytes, taken) in [
        (b"PO(ST / HTTP/1.1\r\n\r\n".as_slice(), 3),
        (b"GET /\xff HTTP/1.1\r\n\r\n", 6),
        (b"GET /\xe2\x28 HTTP/1.1\r\n\r\n", 7),
    ] {
        let mut source = source(rt.alloc(), bytes, &[])?;
        let fault = read_message(rt.alloc(), &mut source).err();
        same_in(&rt, &fault, &Some(BadHead), &taken);
        same(&rt, &source.taken, &taken);
    }
    Ok(())
}
