//! Connections to a desk: of a publisher that refuses everything, and of one at a store in memory.
ghost use Rattle.std.specs.Prelude.{◌≡◌, ◌≤◌, None};
ghost use Rattle.merge_model.specs.Publisher.{empty_publisher};
ghost use Rattle.merge_desk.specs.Replay.{no_publication};

use crate::nobody::Nobody;
use crate::same::same;
use crate::service::{JOIN, ONE_SITE, SECOND_JOIN, TWO_SITES, publication};
use merge_desk::{Closed, Desk, Journal, Opening, Seat, summary};
use merge_draft::DraftingPublisher;
use merge_keeper::MemoryKeeper;
use merge_link::MemoryClock;
use merge_ports::{Entries, Keeper, MemorySink, MemorySource};
use merge_resolve::Handed;
use merge_serve::{Attended, Caller, Gate, MemoryDoor, OpenGate, Served, attend, serve};
use merge_site::{DraftingSite, KeptPublisher};
use merge_types::{Listing, Moment, Octets};
use std::alloc::Global;
use std::marker::Brand;
use std::process::Abort;
use std::sync::Wait;
use std::sync::atomic::{AtomicU64, Ordering};
use std::sync::ledger::{Blank, Ledger, Share};
use std::test::*;
use std::thread;
use std::thread::Threads;

const REFUSED: &[u8] =
    b"HTTP/1.1 409 Conflict\r\nContent-Type: application/json\r\nContent-Length: 26\r\nConnection: close\r\n\r\n{\"refused\":1,\"values\":[1]}";

const JOINED: &[u8] =
    b"HTTP/1.1 200 OK\r\nContent-Type: application/json\r\nContent-Length: 9\r\nConnection: close\r\n\r\n{\"seq\":1}";

// What comes, and the first line of what is answered, with how many calls of the desk there are.
const TABLE: &[(&[u8], u16, u64)] = &[
    (JOIN, 409, 1),
    (
        b"GET /merge/join HTTP/1.1\r\nContent-Length: 0\r\n\r\n",
        405,
        0,
    ),
    (b"GET /merge HTTP/1.1\r\nContent-Length: 0\r\n\r\n", 404, 0),
    (
        b"POST /merge/join HTTP/1.1\r\nContent-Length: 2\r\n\r\n{}",
        400,
        0,
    ),
    (
        b"POST /merge/join HTTP/1.1\r\nContent-Length: 3\r\n\r\n{}",
        400,
        0,
    ),
    (b"POST /merge/join HTTP/1.1\r\n\r\n{}", 400, 0),
    (b"POST\r\n\r\n", 400, 0),
    (b"", 400, 0),
    (
        b"POST /merge/join HTTP/1.1\r\nContent-Length: 134217729\r\n\r\n",
        413,
        0,
    ),
];

fn octets(alloc: Global, bytes: &[u8]) -> Result<Octets, Fail> {
    Ok(Listing::new(bytes.to_vec(alloc)?))
}

// What one connection is answered with, and how many calls of the desk that made.
#[derive(Drop)]
struct Seen {
    attended: Attended,
    written: Octets,
    calls: u64,
}

// Serves a connection that brings these bytes, of which these reads and these writes fail.
fn attend_one<R: Wait, P: DraftingPublisher, L: Ledger, M: Ledger, N: Ledger, O: Opening>(
    rt: &R,
    alloc: Global,
    desk: &Desk<P, L, M, N, O>,
    seat: &mut Seat<L, M>,
    permit: Share<N>,
    bytes: &[u8],
    failing: (&[u64], &[u64]),
) -> Result<Seen, Fail>
    requires { permit.amount ≡ 1 }
{
    let mut input = MemorySource::new(
        octets(alloc, bytes)?,
        Listing::new(failing.0.to_vec(alloc)?),
    );
    let mut output = MemorySink::new(alloc, Listing::new(failing.1.to_vec(alloc)?));
    let attended = attend(
        rt,
        alloc,
        desk,
        seat,
        permit,
        1,
        &mut input,
        &mut output,
        Moment(7),
        &OpenGate,
    );
    Ok(Seen {
        attended,
        written: output.bytes,
        calls: seat.told().len() as u64,
    })
}

fn serve_one<R: Wait, L: Ledger, M: Ledger, N: Ledger, O: Opening>(
    rt: &R,
    alloc: Global,
    bytes: &[u8],
    failing: (&[u64], &[u64]),
    calls: Blank,
    faults: Blank,
    permits: Blank,
) -> Result<Seen, Fail>
    requires publication { O.publication ≡ no_publication }
    requires tables { O.tables ≡ empty_publisher no_publication }
    requires says { O.says ≡ (λ place tally asked. None) }
    requires count { O.count ≡ 0 }
    requires calls { (calls.name ≡ L.name) × (calls.parts ≡ L.parts) × (1 ≤ calls.parts) }
    requires faults { (faults.name ≡ M.name) × (faults.parts ≡ M.parts) × (1 ≤ faults.parts) }
    requires permits { (permits.name ≡ N.name) × (permits.parts ≡ N.parts) × (1 ≤ permits.parts) }
{
    let (mut given, mut permit) = permits.open::<N>();
    let spent = permit.empty();
    given.add(&mut permit, 1);
    let Ok((desk, mut seats)) = Desk::<Nobody, L, M, N, O>::start(
        alloc,
        Nobody { asked: 0 },
        1,
        calls,
        faults,
        spent,
    ) else {
        return Err(Fail::new("no memory for a desk"));
    };
    let Some(mut seat) = seats.pop() else {
        return Err(Fail::new("no seat"));
    };
    attend_one(rt, alloc, &desk, &mut seat, permit, bytes, failing)
}

fn try_one<R: Wait>(
    rt: &R,
    alloc: Global,
    bytes: &[u8],
    reads: &[u64],
    writes: &[u64],
) -> Result<Seen, Fail> {
    serve_one::<_, Brand, Brand, Brand, Brand>(
        rt,
        alloc,
        bytes,
        (reads, writes),
        Blank::new(1),
        Blank::new(1),
        Blank::new(1),
    )
}

#[test]
fn each_connection_is_answered_by_what_comes(rt: HostRuntime) -> Result<(), Fail> {
    for (bytes, status, calls) in TABLE {
        let seen = try_one(&rt, rt.alloc(), bytes, &[], &[])?;
        same(&rt, &seen.attended, &Attended::Answered { status: *status });
        same(&rt, &seen.calls, calls);
    }
    let seen = try_one(&rt, rt.alloc(), JOIN, &[], &[])?;
    same(&rt, &seen.written.as_slice(), &REFUSED);
    Ok(())
}

#[test]
fn ports_fail_by_their_cause(rt: HostRuntime) -> Result<(), Fail> {
    let unread = try_one(&rt, rt.alloc(), JOIN, &[3], &[])?;
    same(&rt, &unread.attended, &Attended::ReadFault);
    same(&rt, &(unread.calls, unread.written.len()), &(0, 0));
    let unwritten = try_one(&rt, rt.alloc(), JOIN, &[], &[2])?;
    same(&rt, &unwritten.attended, &Attended::WriteFault);
    same(&rt, &unwritten.calls, &1);
    assert!(rt; REFUSED.starts_with(unwritten.written.as_slice()));
    Ok(())
}

// Two connections that bring the same bytes, one behind the other, from the one seat of a desk.
fn serve_twice<R: Wait, P: DraftingPublisher, L: Ledger, M: Ledger, N: Ledger, O: Opening>(
    rt: &R,
    alloc: Global,
    publisher: P,
    bytes: &[u8],
    calls: Blank,
    faults: Blank,
    permits: Blank,
) -> Result<(Seen, Seen), Fail>
    requires publication { O.publication ≡ (P.view publisher).publication }
    requires tables { O.tables ≡ (P.view publisher).tables }
    requires says { O.says ≡ (P.view publisher).says }
    requires count { O.count ≡ (P.view publisher).faults }
    requires calls { (calls.name ≡ L.name) × (calls.parts ≡ L.parts) × (1 ≤ calls.parts) }
    requires faults { (faults.name ≡ M.name) × (faults.parts ≡ M.parts) × (1 ≤ faults.parts) }
    requires permits { (permits.name ≡ N.name) × (permits.parts ≡ N.parts) × (2 ≤ permits.parts) }
{
    let (mut given, mut second) = permits.open::<N>();
    let spent = second.empty();
    given.add(&mut second, 2);
    let first = second.split_off(1, 1);
    let Ok((desk, mut seats)) = Desk::<P, L, M, N, O>::start(
        alloc, publisher, 1, calls, faults, spent,
    ) else {
        return Err(Fail::new("no memory for a desk"));
    };
    let Some(mut seat) = seats.pop() else {
        return Err(Fail::new("no seat"));
    };
    let none: &[u64] = &[];
    let before = attend_one(rt, alloc, &desk, &mut seat, first, bytes, (none, none))?;
    let behind = attend_one(rt, alloc, &desk, &mut seat, second, bytes, (none, none))?;
    Ok((before, behind))
}

fn try_twice<R: Wait, P: DraftingPublisher>(
    rt: &R,
    alloc: Global,
    publisher: P,
    bytes: &[u8],
) -> Result<(Seen, Seen), Fail> {
    serve_twice::<_, P, Brand, Brand, Brand, Brand>(
        rt,
        alloc,
        publisher,
        bytes,
        Blank::new(1),
        Blank::new(1),
        Blank::new(2),
    )
}

// The same of a publisher at a store.
fn try_twice_stored<R: Wait, K: Keeper>(
    rt: &R,
    alloc: Global,
    kept: KeptPublisher<K>,
    resolvers: Vec<Handed>,
    bytes: &[u8],
) -> Result<(Seen, Seen), Fail> {
    try_twice(rt, alloc, DraftingSite::new(kept, resolvers), bytes)
}

// It was answered that the site has joined, and this many calls of the desk were answered.
fn check_joined(rt: &impl Abort, seen: &Seen, calls: u64) {
    same(rt, &seen.attended, &Attended::Answered { status: 200 });
    same(rt, &seen.written.as_slice(), &JOINED);
    same(rt, &seen.calls, &calls);
}

// The first join of a site, and the same once more.
#[test]
fn a_join_that_comes_again_is_answered_again(rt: HostRuntime) -> Result<(), Fail> {
    let site = kept(rt.alloc(), 9, ONE_SITE)?;
    let (first, second) = try_twice_stored(&rt, rt.alloc(), site, Vec::new(rt.alloc()), JOIN)?;
    check_joined(&rt, &first, 1);
    check_joined(&rt, &second, 2);
    Ok(())
}

// Holds the first connection before the desk until the second is answered, for so many turns.
#[derive(Drop)]
struct Holding {
    turns: u64,
    // the connection that was answered last, and the one that opened the gate
    answered: AtomicU64,
    opened: AtomicU64,
}

fn new_gate() -> Holding {
    Holding {
        turns: 10_000_000,
        answered: AtomicU64::new(0),
        opened: AtomicU64::new(0),
    }
}

// Which connection opened the gate.
fn opener(gate: &Holding) -> Result<u64, Fail> {
    match gate.opened.load(Ordering::SeqCst) {
        0 => Err(Fail::new(
            "the gate was not opened: it held the first connection for 10,000,000 turns, and no other was answered",
        )),
        connection => Ok(connection),
    }
}

impl Gate for Holding {
    fn before(&self, connection: u64) {
        if connection != 1 {
            return;
        }
        for _ in 0..self.turns {
            let answered = self.answered.load(Ordering::SeqCst);
            if answered > 0 {
                self.opened.store(answered, Ordering::SeqCst);
                return;
            }
            thread::yield_now();
        }
    }

    fn answered(&self, connection: u64) {
        self.answered.store(connection, Ordering::SeqCst);
    }
}

fn callers(alloc: Global, messages: &[&[u8]]) -> Result<Vec<Caller>, Fail> {
    let mut callers = Vec::new(alloc);
    for message in messages {
        callers.push(Caller {
            bytes: octets(alloc, message)?,
            failing_reads: Listing::empty(alloc),
            failing_writes: Listing::empty(alloc),
        })?;
    }
    Ok(callers)
}

// What a day of a desk leaves.
#[derive(Drop)]
struct Left<P: DraftingPublisher> {
    accepted: u64,
    faults: u64,
    publisher: P,
    journal: Journal,
}

// By how many workers these messages are answered, and for how many requests a desk is open.
#[derive(Clone, Copy)]
struct Day<'a> {
    messages: &'a [&'a [u8]],
    workers: u16,
    requests: u64,
}

fn hold<
    P: DraftingPublisher + Send,
    L: Ledger + Send + Sync,
    M: Ledger + Send + Sync,
    N: Ledger + Send + Sync,
    O: Opening + Send + Sync,
    R: Threads + Wait + Sync,
    G: Gate + Sync,
>(
    rt: &R,
    alloc: Global,
    publisher: P,
    day: Day,
    gate: &G,
    calls: Blank,
    faults: Blank,
    permits: Blank,
) -> Result<Left<P>, Fail>
where
    P::Work: Send,
    requires workers { (1 ≤ day.workers) × (day.workers ≤ 16) }
    requires publication { O.publication ≡ (P.view publisher).publication }
    requires tables { O.tables ≡ (P.view publisher).tables }
    requires says { O.says ≡ (P.view publisher).says }
    requires count { O.count ≡ (P.view publisher).faults }
    requires calls { (calls.name ≡ L.name) × (calls.parts ≡ L.parts) × (day.workers ≤ calls.parts) }
    requires faults { (faults.name ≡ M.name) × (faults.parts ≡ M.parts) × (day.workers ≤ faults.parts) }
    requires permits { (permits.name ≡ N.name) × (permits.parts ≡ N.parts) × (day.requests ≤ permits.parts) }
{
    let (given, mut parts) = permits.open::<N>();
    let spent = parts.empty();
    let door = MemoryDoor::new(alloc, callers(alloc, day.messages)?, Listing::empty(alloc));
    let clock = MemoryClock::new(Listing::empty(alloc));
    let Ok((desk, seats)) = Desk::<P, L, M, N, O>::start(
        alloc,
        publisher,
        day.workers,
        calls,
        faults,
        spent,
    ) else {
        return Err(Fail::new("no memory for a desk"));
    };
    if seats.is_empty() {
        return Err(Fail::new("no seats"));
    }
    let Served {
        seats,
        accepted,
        door,
        given: _,
    } = serve(
        rt,
        alloc,
        &desk,
        seats,
        day.requests,
        door,
        clock,
        gate,
        given,
        parts,
    );
    let Ok(closed) = desk.close(seats) else {
        return Err(Fail::new("the journal differs"));
    };
    let Closed {
        journal,
        publisher,
        permits: _,
    } = closed;
    Ok(Left {
        accepted,
        faults: door.faults,
        publisher,
        journal,
    })
}

// The same with ledgers for this day alone.
fn serve_day<P: DraftingPublisher + Send, R: Threads + Wait + Sync, G: Gate + Sync>(
    rt: &R,
    alloc: Global,
    publisher: P,
    day: Day,
    gate: &G,
) -> Result<Left<P>, Fail>
where
    P::Work: Send,
    requires { (1 ≤ day.workers) × (day.workers ≤ 16) }
{
    let workers = u64::from(day.workers);
    hold::<P, Brand, Brand, Brand, Brand, _, _>(
        rt,
        alloc,
        publisher,
        day,
        gate,
        Blank::new(workers),
        Blank::new(workers),
        Blank::new(day.requests),
    )
}

// The same of a publisher at a store.
fn serve_stored<R: Threads + Wait + Sync, K: Keeper + Send, G: Gate + Sync>(
    rt: &R,
    alloc: Global,
    kept: KeptPublisher<K>,
    resolvers: Vec<Handed>,
    day: Day,
    gate: &G,
) -> Result<Left<DraftingSite<K>>, Fail>
    requires { (1 ≤ day.workers) × (day.workers ≤ 16) }
{
    serve_day(rt, alloc, DraftingSite::new(kept, resolvers), day, gate)
}

// A publisher at an empty store in memory, whose keeper's call of this number fails.
pub fn kept(alloc: Global, failing: u64, text: &[u8]) -> Result<KeptPublisher<MemoryKeeper>, Fail> {
    let mut calls = Listing::empty(alloc);
    calls.push(failing)?;
    let keeper = MemoryKeeper::new(alloc, Entries::empty(alloc), calls, Listing::empty(alloc));
    match KeptPublisher::start(alloc, keeper, &publication(alloc, text)?) {
        Ok(site) => Ok(site),
        Err(_) => Err(Fail::new("no publisher")),
    }
}

const JOINS: &[&[u8]] = &[JOIN, SECOND_JOIN];

#[test]
fn two_workers_serve_at_once(rt: HostRuntime) -> Result<(), Fail> {
    let gate = new_gate();
    let day = Day {
        messages: JOINS,
        workers: 2,
        requests: 2,
    };
    let site = kept(rt.alloc(), 9, TWO_SITES)?;
    let left = serve_stored(&rt, rt.alloc(), site, Vec::new(rt.alloc()), day, &gate)?;
    same(&rt, &opener(&gate)?, &2);
    same(&rt, &(left.accepted, left.faults), &(2, 0));
    let told = summary(rt.alloc(), &left.journal)?;
    same(
        &rt,
        &told.as_str(),
        &"calls 2 joins 2 uploads 0 ranges 0 downloads 0 refused 0\n",
    );
    Ok(())
}

// The keeper's calls: the load, and a commit for each join, of which the second fails.
#[test]
fn a_join_whose_commit_fails_has_no_place(rt: HostRuntime) -> Result<(), Fail> {
    let day = Day {
        messages: &[JOIN, SECOND_JOIN, SECOND_JOIN],
        workers: 1,
        requests: 3,
    };
    let site = kept(rt.alloc(), 2, TWO_SITES)?;
    let left = serve_stored(&rt, rt.alloc(), site, Vec::new(rt.alloc()), day, &OpenGate)?;
    same(&rt, &(left.accepted, left.faults), &(3, 0));
    same(&rt, &left.publisher.faults(), &1);
    let mut places = Vec::new(rt.alloc());
    for entry in left.journal.entries() {
        places.push((entry.request.site().0, entry.mark.place))?;
    }
    same(&rt, &places.as_slice(), &[(1, 1), (2, 2)].as_slice());
    Ok(())
}

#[test]
fn a_door_that_fails_ends_the_day(rt: HostRuntime) -> Result<(), Fail> {
    let day = Day {
        messages: JOINS,
        workers: 2,
        requests: 3,
    };
    let left = serve_day(&rt, rt.alloc(), Nobody { asked: 0 }, day, &OpenGate)?;
    same(&rt, &(left.accepted, left.faults), &(2, 1));
    same(&rt, &left.journal.entries().len(), &2);
    Ok(())
}
