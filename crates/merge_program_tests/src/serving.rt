//! A publisher that serves by its words, over doors in memory.
use crate::ending::{MemoryHost, NONE, host, is_ended, outside, resolvers, words};
use merge_program::{Status, perform};
use merge_serve::{Caller, MemoryDoors};
use merge_types::Octets;
use std::alloc::Global;
use std::sync::Wait;
use std::test::Fail;
use std::thread::Threads;

// The first message of site 1.
const JOIN: &[u8] =
    b"POST /merge/join HTTP/1.1\r\nContent-Length: 44\r\n\r\n{\"generation\":0,\"number\":0,\"seq\":1,\"site\":1}";

// That of a site that is none.
const STRANGER: &[u8] =
    b"POST /merge/join HTTP/1.1\r\nContent-Length: 44\r\n\r\n{\"generation\":0,\"number\":0,\"seq\":1,\"site\":9}";

// What goes to no path of requests.
const NO_REQUEST: &[u8] = b"GET /merge HTTP/1.1\r\nContent-Length: 0\r\n\r\n";

// A line of words, what its door brings before it fails, how the program ends, and how many connections were handed out.
type Day = (
    &'static str,
    &'static [&'static [u8]],
    (u8, &'static str, &'static str),
    usize,
);

const DAYS: &[Day] = &[
    (
        "serve p1  here 1 2",
        &[JOIN, JOIN],
        (
            0,
            "calls 2 joins 2 uploads 0 ranges 0 downloads 0 refused 0\n",
            "",
        ),
        2,
    ),
    (
        "serve p1  here 16 2",
        &[JOIN, STRANGER, JOIN],
        (
            0,
            "calls 2 joins 2 uploads 0 ranges 0 downloads 0 refused 1\n",
            "",
        ),
        2,
    ),
    (
        "serve p1  here 1 1",
        &[NO_REQUEST],
        (
            0,
            "calls 0 joins 0 uploads 0 ranges 0 downloads 0 refused 0\n",
            "",
        ),
        1,
    ),
    ("serve p1  here 2 3", &[JOIN], (7, "", "link fault\n"), 1),
    (
        "serve p0  here 1 1",
        &[JOIN],
        (2, "", "publication refused: 2 missing name\n"),
        0,
    ),
    ("serve p2  here 1 1", &[JOIN], (4, "", "read fault\n"), 0),
    ("serve p1 s here 1 1", &[JOIN], (6, "", "store fault\n"), 0),
    ("show p1  0 item", &[JOIN], (0, "rows 0\n", ""), 0),
];

fn doors(alloc: Global, messages: &[&[u8]]) -> Result<MemoryDoors, Fail> {
    let mut callers = Vec::new(alloc);
    for message in messages {
        let mut caller = Caller::silent(alloc);
        caller.bytes = Octets::new(message.to_vec(alloc)?);
        callers.push(caller)?;
    }
    Ok(MemoryDoors::new(alloc, callers))
}

// How the words end, with the ports and the doors as they are then.
fn serve<R: Threads + Wait + Sync>(
    rt: &R,
    alloc: Global,
    line: &str,
    messages: &[&[u8]],
) -> Result<(u8, MemoryHost, MemoryDoors), Fail> {
    let words = words(alloc, line)?;
    let mut resolvers = resolvers(alloc)?;
    let mut host = host(alloc, b"", &NONE, outside(alloc, &[])?)?;
    let mut doors = doors(alloc, messages)?;
    let Status(status) = perform(
        rt,
        alloc,
        words.as_slice(),
        &mut host,
        &mut doors,
        &mut resolvers,
    );
    Ok((status, host, doors))
}

#[test]
fn a_publisher_serves(rt: HostRuntime) -> Result<(), Fail> {
    for (line, messages, (status, output, notes), handed) in DAYS {
        let (ended, host, doors) = serve(&rt, rt.alloc(), line, messages)?;
        assert!(rt; is_ended(ended, &host, *status, output, notes), "{line}");
        assert!(rt; doors.handed == *handed, "{line}");
    }
    Ok(())
}
