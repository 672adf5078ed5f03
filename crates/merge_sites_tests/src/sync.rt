//! Sessions of a site over stores and links in memory: what is sent and written, and how they end.
ghost use Rattle.std.specs.Prelude.{IfOk};
ghost use Rattle.merge_schema.specs.Valid.{IsValid};

use crate::same::same;
use merge_keeper::MemoryKeeper;
use merge_outside::MemoryCommands;
use merge_ports::{Entries, EntryKey, MemoryOutside, MemorySink};
use merge_schema::{Publication, SchemaFault, read};
use merge_sync::{Stop, sync};
use merge_table::Table;
use merge_types::{Listing, Moment, Octets, SiteId, Words};
use merge_wire::is_visible;
use std::alloc::Global;
use std::test::Fail;

// The only subscription.
const SITE: SiteId = SiteId(1);

const PUBLICATION: &[u8] =
    b"name = \"p\"\n[[article]]\nname = \"item\"\n[[article.column]]\nname = \"qty\"\ntype = \"int\"\n[[subscription]]\nsite = 1\nhost = \"h\"\n";

const JOINED: &str = "HTTP/1.1 200 OK\r\nContent-Length: 9\r\n\r\n{\"seq\":1}";

const NOTHING_NEW: &str =
    "HTTP/1.1 200 OK\r\nContent-Length: 58\r\n\r\n{\"from\":0,\"items\":[],\"last\":0,\"received\":0,\"seq\":2,\"to\":0}";

const NOTHING_MORE: &str =
    "HTTP/1.1 200 OK\r\nContent-Length: 58\r\n\r\n{\"from\":0,\"items\":[],\"last\":0,\"received\":0,\"seq\":3,\"to\":0}";

const OF_ANOTHER: &str =
    "HTTP/1.1 200 OK\r\nContent-Length: 58\r\n\r\n{\"from\":0,\"items\":[],\"last\":0,\"received\":0,\"seq\":9,\"to\":0}";

const EXPIRED: &str =
    "HTTP/1.1 409 Conflict\r\nContent-Length: 34\r\n\r\n{\"refused\":2,\"values\":[1,1209602]}";

const REFUSED: &str =
    "HTTP/1.1 409 Conflict\r\nContent-Length: 28\r\n\r\n{\"refused\":3,\"values\":[4,5]}";

const REFUSED_AS_DONE: &str =
    "HTTP/1.1 200 OK\r\nContent-Length: 34\r\n\r\n{\"refused\":2,\"values\":[1,1209602]}";

const DONE_AS_REFUSED: &str = "HTTP/1.1 409 Conflict\r\nContent-Length: 9\r\n\r\n{\"seq\":1}";

const FAILED: &str = "HTTP/1.1 500 Internal Server Error\r\nContent-Length: 0\r\n\r\n";

const WANTING: &str = "HTTP/1.1 507 Insufficient Storage\r\nContent-Length: 0\r\n\r\n";

const NOT_READ: &str = "HTTP/1.1 400 Bad Request\r\nContent-Length: 0\r\n\r\n";

const NO_MESSAGE: &str = "HTTP/1.1 200 OK\r\nContent-Length: 2\r\n\r\n{}";

const CUT_OFF: &str = "HTTP/1.1 200 OK\r\nContent-Length: 9\r\n\r\n{\"seq\":1";

const NO_LENGTH: &str = "HTTP/1.1 200 OK\r\n\r\n{\"seq\":1}";

const NO_ITEM: &str =
    "HTTP/1.1 200 OK\r\nContent-Length: 60\r\n\r\n{\"from\":0,\"items\":[{}],\"last\":0,\"received\":0,\"seq\":2,\"to\":0}";

const FIRST_JOIN: &str =
    "POST /merge/join HTTP/1.1\r\nHost: 127.0.0.1:7000\r\nContent-Type: application/json\r\nContent-Length: 44\r\nConnection: close\r\n\r\n{\"generation\":0,\"number\":0,\"seq\":1,\"site\":1}";

const FIRST_DOWNLOAD: &str =
    "POST /merge/download HTTP/1.1\r\nHost: 127.0.0.1:7000\r\nContent-Type: application/json\r\nContent-Length: 27\r\nConnection: close\r\n\r\n{\"from\":0,\"seq\":2,\"site\":1}";

const SECOND_DOWNLOAD: &str =
    "POST /merge/download HTTP/1.1\r\nHost: 127.0.0.1:7000\r\nContent-Type: application/json\r\nContent-Length: 27\r\nConnection: close\r\n\r\n{\"from\":0,\"seq\":3,\"site\":1}";

fn numbers(alloc: Global, numbers: &[u64]) -> Result<Listing<u64>, Fail> {
    Ok(Listing::new(numbers.to_vec(alloc)?))
}

// A store with an entry of no value in each of these tables.
fn entries(alloc: Global, tables: &[u8]) -> Result<Entries, Fail> {
    let mut entries = Entries::empty(alloc);
    for table in tables {
        let key = Octets::empty(alloc);
        entries.insert(EntryKey { table: *table, key }, Octets::empty(alloc))?;
    }
    Ok(entries)
}

// An outside with this store of a site.
fn outside(
    alloc: Global,
    site: SiteId,
    entries: Entries,
) -> Result<MemoryCommands<MemoryKeeper>, Fail> {
    let none = Listing::empty(alloc);
    let keeper = MemoryKeeper::new(alloc, entries, none, Listing::empty(alloc));
    let mut stores = Table::new(alloc);
    stores.insert(site.0, keeper)?;
    let mut outside = MemoryCommands::new(alloc, MemoryOutside::new(stores, Listing::empty(alloc)));
    outside.moments.push(Moment(5))?;
    Ok(outside)
}

// What the next link of the outside is answered with.
fn respond(
    alloc: Global,
    outside: &mut MemoryCommands<MemoryKeeper>,
    responses: &[&str],
) -> Result<(), Fail> {
    for response in responses {
        let bytes = Octets::new(response.as_bytes().to_vec(alloc)?);
        outside.responses.push(bytes)?;
    }
    Ok(())
}

fn publication(alloc: Global) -> Result<Publication, Fail>
    ensures { IfOk result (λ publication. IsValid 1 publication) }
{
    match read(alloc, PUBLICATION, 1) {
        Ok(publication) => Ok(publication),
        Err(SchemaFault::NoMemory) => Err(Fail::from("no memory")),
        Err(_) => Err(Fail::from("no publication")),
    }
}

/// How a session ends.
#[derive(Clone, Copy, Debug, PartialEq, Eq)]
enum End {
    Done,
    UnknownSite,
    StoreFault,
    Damaged { table: u8 },
    LinkFault,
    Expired { last_sync: Moment, now: Moment },
    BadReply { place: u64 },
    Refused { number: u8 },
    WriteFault,
}

fn end_of(end: &Result<(), Stop>) -> Result<End, Fail> {
    match end {
        Ok(()) => Ok(End::Done),
        Err(Stop::UnknownSite) => Ok(End::UnknownSite),
        Err(Stop::StoreFault) => Ok(End::StoreFault),
        Err(Stop::Damaged { table, .. }) => Ok(End::Damaged { table: *table }),
        Err(Stop::LinkFault) => Ok(End::LinkFault),
        Err(Stop::Expired { last_sync, now }) => Ok(End::Expired {
            last_sync: *last_sync,
            now: *now,
        }),
        Err(Stop::BadReply { place }) => Ok(End::BadReply { place: *place }),
        Err(Stop::Refused { number }) => Ok(End::Refused { number: *number }),
        Err(Stop::WriteFault) => Ok(End::WriteFault),
        Err(Stop::NoMemory) => Err(Fail::from("no memory")),
    }
}

// How a session of the site ends, and what it writes.
fn ended(
    alloc: Global,
    outside: &mut MemoryCommands<MemoryKeeper>,
    site: SiteId,
    failing_writes: &[u64],
) -> Result<(End, Octets), Fail> {
    let publication = publication(alloc)?;
    let store = Words::of(alloc, "")?;
    let address = Words::of(alloc, "127.0.0.1:7000")?;
    if !is_visible(address.as_str()) {
        return Err(Fail::from("not visible"));
    }
    let mut output = MemorySink::new(alloc, numbers(alloc, failing_writes)?);
    let end = sync(
        alloc,
        outside,
        &publication,
        site,
        &store,
        &address,
        &mut output,
    );
    Ok((end_of(&end)?, output.bytes))
}

// Sessions one behind the other: what comes back, and what is sent. The first joins.
const FOLLOWING: &[(&[&str], &[&str])] = &[
    (&[JOINED, NOTHING_NEW], &[FIRST_JOIN, FIRST_DOWNLOAD]),
    (&[NOTHING_MORE], &[SECOND_DOWNLOAD]),
];

fn are_sent(outside: &MemoryCommands<MemoryKeeper>, requests: &[&str]) -> bool {
    let mut same = outside.exchanges.len() == requests.len();
    for (exchange, request) in outside.exchanges.iter().zip(requests) {
        same = same && exchange.request.as_slice() == request.as_bytes();
    }
    same
}

#[test]
fn sessions_follow_one_another(rt: HostRuntime) -> Result<(), Fail> {
    let mut outside = outside(rt.alloc(), SITE, Entries::empty(rt.alloc()))?;
    for (responses, requests) in FOLLOWING {
        respond(rt.alloc(), &mut outside, responses)?;
        let (end, written) = ended(rt.alloc(), &mut outside, SITE, &[])?;
        same(&rt, &end, &End::Done);
        same(&rt, &written.as_slice(), &b"done 0 0 0\n".as_slice());
        assert!(rt; are_sent(&outside, requests));
    }
    Ok(())
}

/// A first session: of which site it is, in which tables its store has an entry of no value, what it
/// is answered with, which asks, openings of the store and writes fail, and how it ends.
#[derive(Clone, Copy, Debug)]
struct Session {
    site: SiteId,
    tables: &'static [u8],
    responses: &'static [&'static str],
    asks: &'static [u64],
    openings: &'static [u64],
    writes: &'static [u64],
    end: End,
}

const DONE: Session = Session {
    site: SITE,
    tables: &[],
    responses: &[JOINED, NOTHING_NEW],
    asks: &[],
    openings: &[],
    writes: &[],
    end: End::Done,
};

const SPOILED: End = End::BadReply { place: 0 };

const SESSIONS: &[Session] = &[
    DONE,
    Session {
        asks: &[0],
        end: End::LinkFault,
        ..DONE
    },
    Session {
        asks: &[1],
        end: End::LinkFault,
        ..DONE
    },
    Session {
        openings: &[0],
        end: End::StoreFault,
        ..DONE
    },
    Session {
        tables: &[2],
        end: End::Damaged { table: 2 },
        ..DONE
    },
    Session {
        site: SiteId(0),
        end: End::UnknownSite,
        ..DONE
    },
    Session {
        site: SiteId(2),
        tables: &[2],
        end: End::UnknownSite,
        ..DONE
    },
    Session {
        writes: &[0],
        end: End::WriteFault,
        ..DONE
    },
];

/// What a first session is answered with, and how it ends by the last of that.
const ANSWERS: &[(&[&'static str], End)] = &[
    (&[NO_MESSAGE], SPOILED),
    (&[CUT_OFF], SPOILED),
    (&[NO_LENGTH], SPOILED),
    (&[DONE_AS_REFUSED], SPOILED),
    (&[REFUSED_AS_DONE], SPOILED),
    (&[JOINED, "no response"], SPOILED),
    (&[JOINED, NOT_READ], SPOILED),
    (&[JOINED, OF_ANOTHER], SPOILED),
    (&[JOINED, NO_ITEM], End::BadReply { place: 1 }),
    (
        &[JOINED, EXPIRED],
        End::Expired {
            last_sync: Moment(1),
            now: Moment(1209602),
        },
    ),
    (&[REFUSED], End::Refused { number: 3 }),
    (&[JOINED, FAILED], End::Refused { number: 7 }),
    (&[JOINED, WANTING], End::Refused { number: 0 }),
];

// Whether the session ends so, and writes a line just where it is done.
fn ends(alloc: Global, session: &Session) -> Result<bool, Fail> {
    let mut outside = outside(alloc, session.site, entries(alloc, session.tables)?)?;
    respond(alloc, &mut outside, session.responses)?;
    outside.failing_asks = numbers(alloc, session.asks)?;
    outside.stores.failing = numbers(alloc, session.openings)?;
    let (end, written) = ended(alloc, &mut outside, session.site, session.writes)?;
    Ok(end == session.end && written.is_empty() == (end != End::Done))
}

#[test]
fn sessions_end_by_their_cause(rt: HostRuntime) -> Result<(), Fail> {
    for session in SESSIONS {
        assert!(rt; ends(rt.alloc(), session)?, "{session:?}");
    }
    Ok(())
}

#[test]
fn sessions_end_by_what_is_answered(rt: HostRuntime) -> Result<(), Fail> {
    for (responses, end) in ANSWERS {
        let session = Session {
            responses,
            end: *end,
            ..DONE
        };
        assert!(rt; ends(rt.alloc(), &session)?, "{session:?}");
    }
    Ok(())
}
