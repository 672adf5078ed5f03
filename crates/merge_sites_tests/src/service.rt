//! A publisher serves from a store in memory, over a door in memory, and sums up.
ghost use Rattle.std.specs.Prelude.{◌≤◌, IfOk};
ghost use Rattle.merge_schema.specs.Valid.{IsValid};

use crate::same::same;
use merge_keeper::MemoryKeeper;
use merge_outside::MemoryCommands;
use merge_ports::{Entries, MemoryOutside, MemorySink};
use merge_schema::{Publication, SchemaFault, read};
use merge_serve::{Caller, MemoryDoors};
use merge_service::{Hours, serve_store};
use merge_table::Table;
use merge_types::{Listing, Octets, SiteId, Words};
use std::alloc::Global;
use std::sync::Wait;
use std::test::Fail;
use std::thread::Threads;

pub const ONE_SITE: &[u8] =
    b"name = \"first\"\n[[article]]\nname = \"item\"\n[[article.column]]\nname = \"qty\"\ntype = \"int\"\n[[subscription]]\nsite = 1\nhost = \"h1\"\n";

pub const TWO_SITES: &[u8] =
    b"name = \"first\"\n[[article]]\nname = \"item\"\n[[article.column]]\nname = \"qty\"\ntype = \"int\"\n[[subscription]]\nsite = 1\nhost = \"h1\"\n[[subscription]]\nsite = 2\nhost = \"h2\"\n";

pub const JOIN: &[u8] =
    b"POST /merge/join HTTP/1.1\r\nHost: 127.0.0.1:7000\r\nContent-Type: application/json\r\nContent-Length: 44\r\nConnection: close\r\n\r\n{\"generation\":0,\"number\":0,\"seq\":1,\"site\":1}";

pub const SECOND_JOIN: &[u8] =
    b"POST /merge/join HTTP/1.1\r\nHost: 127.0.0.1:7000\r\nContent-Type: application/json\r\nContent-Length: 44\r\nConnection: close\r\n\r\n{\"generation\":0,\"number\":0,\"seq\":1,\"site\":2}";

const TWO_JOINS: &[u8] = b"calls 2 joins 2 uploads 0 ranges 0 downloads 0 refused 0\n";

fn doors(alloc: Global, messages: &[&[u8]]) -> Result<MemoryDoors, Fail> {
    let mut callers = Vec::new(alloc);
    for message in messages {
        let mut caller = Caller::silent(alloc);
        caller.bytes = Listing::new(message.to_vec(alloc)?);
        callers.push(caller)?;
    }
    Ok(MemoryDoors::new(alloc, callers))
}

// An outside with an empty store of the publisher, whose keeper's call of this number fails.
fn outside(alloc: Global, failing: u64) -> Result<MemoryCommands<MemoryKeeper>, Fail> {
    let mut calls = Listing::empty(alloc);
    calls.push(failing)?;
    let entries = Entries::empty(alloc);
    let keeper = MemoryKeeper::new(alloc, entries, calls, Listing::empty(alloc));
    let mut stores = Table::new(alloc);
    stores.insert(0u16, keeper)?;
    let stores = MemoryOutside::new(stores, Listing::empty(alloc));
    Ok(MemoryCommands::new(alloc, stores))
}

pub fn publication(alloc: Global, text: &[u8]) -> Result<Publication, Fail>
    ensures { IfOk result (λ publication. IsValid 1 publication) }
{
    match read(alloc, text, 1) {
        Ok(publication) => Ok(publication),
        Err(SchemaFault::NoMemory) => Err(Fail::from("no memory")),
        Err(_) => Err(Fail::from("no publication")),
    }
}

// What is written behind a day, and how often the store has failed.
fn day<R: Threads + Wait + Sync>(
    rt: &R,
    alloc: Global,
    workers: u16,
    text: &[u8],
    messages: &[&[u8]],
    failing: u64,
) -> Result<(Octets, u64), Fail>
    requires { (1 ≤ workers) × (workers ≤ 16) }
{
    let mut outside = outside(alloc, failing)?;
    let mut doors = doors(alloc, messages)?;
    let mut output = MemorySink::new(alloc, Listing::empty(alloc));
    let publication = publication(alloc, text)?;
    let (store, address) = (Words::of(alloc, "")?, Words::of(alloc, "here")?);
    let hours = Hours {
        workers,
        requests: messages.len() as u64,
    };
    let served = serve_store(
        rt,
        alloc,
        &mut outside,
        &mut doors,
        &publication,
        SiteId(0),
        &store,
        &address,
        hours,
        Vec::new(alloc),
        &mut output,
    );
    match served {
        Ok(()) => Ok((output.bytes, outside.stores.counts.stores)),
        Err(_) => Err(Fail::from("it was not served")),
    }
}

// The keeper's calls: the load, and a commit for each join. A join whose commit fails is answered
// by 500 and has no entry; the same once more has one.
#[test]
fn a_journal_has_what_was_answered(rt: HostRuntime) -> Result<(), Fail> {
    for (text, messages, failing, faults) in [
        (ONE_SITE, [JOIN, JOIN].as_slice(), 9, 0),
        (TWO_SITES, &[JOIN, SECOND_JOIN], 9, 0),
        (TWO_SITES, &[JOIN, SECOND_JOIN, SECOND_JOIN], 2, 1),
    ] {
        let (written, counted) = day(&rt, rt.alloc(), 1, text, messages, failing)?;
        same(&rt, &written.as_slice(), &TWO_JOINS);
        same(&rt, &counted, &faults);
    }
    Ok(())
}
