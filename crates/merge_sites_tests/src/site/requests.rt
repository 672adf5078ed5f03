//! Requests that come to a publisher, honest ones and forged ones, and what it answers.
use super::edits::{CUSTOMERS, Edit, Put, TICKETS};
use super::pair::{Step, There};
use super::playing::Play;
use super::telling::told;
use super::versions::{Made, customer, dot, lineage, ticket};
use crate::same::same_in;
use merge_batch::{
    Download, Join, RangeAsk, Request, Upload, UploadItem, UploadItems, Want, Wants,
};
use merge_types::{Moment, NoMemory, RowId, SiteId};
use merge_units::{Body, Version};
use std::alloc::Global;
use std::process::Abort;
use std::test::Fail;

/// What an item has of its row: a ticket of a number or a customer, whose values the change set, or
/// nothing, since the change deleted it.
#[derive(Clone, Copy, Debug)]
pub enum Holds {
    Ticket(Made, i64),
    Customer(Made),
    Nothing(Made),
}

/// An upload with the first and the last generation and the last change number, and one item, which
/// comes so many times.
#[derive(Clone, Copy, Debug)]
pub struct Sent {
    interval: (u64, u64, u64),
    times: u64,
    article: u8,
    row: RowId,
    generation: u64,
    knows: &'static [Made],
    holds: Holds,
}

/// What a request asks: a join that gives the last change number, an upload, ranges of articles of
/// which the site heard of so many, or a download from a generation on.
#[derive(Clone, Copy, Debug)]
pub enum Asks {
    Joins(u64),
    Uploads(Sent),
    Wants(&'static [(u8, u64)]),
    Downloads(u64),
}

/// The moment at which a request comes, its site, and its number there.
type Head = (u64, u16, u64);

/// A request: what it shows, its head, what it asks, what is answered, and whether that
/// changes what the publisher has.
pub type Row = (&'static str, Head, Asks, &'static str, bool);

// A ticket that the site's fourth change made, with the first number of the range that is granted
// to it.
const SENT: Sent = Sent {
    interval: (1, 2, 4),
    times: 1,
    article: TICKETS,
    row: RowId(0x0001_8000_8000_0000_0000_0004),
    generation: 2,
    knows: &[(1, 4)],
    holds: Holds::Ticket((1, 4), 1),
};

const FIRST: Head = (1, 1, 1);

const STRANGE: Head = (1, 9, 1);

const JOINING: Head = (1, 1, 5);

const LATER: Head = (1, 1, 7);

/// Requests to a publisher that closed four generations. The site joins with one generation and three
/// changes.
pub const REQUESTS: &[Row] = &[
    (
        "an upload before a join",
        FIRST,
        Asks::Uploads(SENT),
        "not joined",
        false,
    ),
    (
        "a range before a join",
        FIRST,
        Asks::Wants(&[(TICKETS, 0)]),
        "not joined",
        false,
    ),
    (
        "a download before a join",
        FIRST,
        Asks::Downloads(0),
        "not joined",
        false,
    ),
    (
        "a join of no subscription",
        STRANGE,
        Asks::Joins(3),
        "unknown site 9",
        false,
    ),
    (
        "an upload of no subscription",
        STRANGE,
        Asks::Uploads(SENT),
        "unknown site 9",
        false,
    ),
    (
        "a range of no subscription",
        STRANGE,
        Asks::Wants(&[(TICKETS, 0)]),
        "unknown site 9",
        false,
    ),
    (
        "a download of no subscription",
        STRANGE,
        Asks::Downloads(0),
        "unknown site 9",
        false,
    ),
    (
        "a join with a change number that is too great",
        JOINING,
        Asks::Joins(1 << 62),
        "bad batch 0 4",
        false,
    ),
    ("a join", JOINING, Asks::Joins(3), "joined 5", true),
    (
        "the same join again",
        JOINING,
        Asks::Joins(3),
        "joined 5",
        false,
    ),
    (
        "an earlier join",
        (1, 1, 4),
        Asks::Joins(3),
        "stale 4 5",
        false,
    ),
    (
        "an upload from before the join",
        JOINING,
        Asks::Uploads(SENT),
        "stale 5 5",
        false,
    ),
    (
        "a range from before the join",
        JOINING,
        Asks::Wants(&[(TICKETS, 0)]),
        "stale 5 5",
        false,
    ),
    (
        "a download from before the join",
        JOINING,
        Asks::Downloads(0),
        "stale 5 5",
        false,
    ),
    (
        "an upload behind a gap",
        LATER,
        Asks::Uploads(Sent {
            interval: (3, 4, 4),
            ..SENT
        }),
        "gap 3 1",
        false,
    ),
    (
        "a download from a generation that is not closed",
        LATER,
        Asks::Downloads(7),
        "wrong watermark 7 4",
        false,
    ),
    (
        "a range of an article that has none",
        LATER,
        Asks::Wants(&[(CUSTOMERS, 0)]),
        "bad batch 0 13",
        false,
    ),
    (
        "a range behind one that was not granted",
        LATER,
        Asks::Wants(&[(TICKETS, 1)]),
        "bad batch 0 13",
        false,
    ),
    (
        "two ranges of an article",
        LATER,
        Asks::Wants(&[(TICKETS, 0), (TICKETS, 0)]),
        "bad batch 0 13",
        false,
    ),
    (
        "a range",
        LATER,
        Asks::Wants(&[(TICKETS, 0)]),
        "ranged 1",
        true,
    ),
    (
        "the same range again",
        LATER,
        Asks::Wants(&[(TICKETS, 0)]),
        "ranged 1",
        false,
    ),
    // The customers of the third and the fourth generation.
    (
        "a download",
        LATER,
        Asks::Downloads(2),
        "downloaded 2",
        true,
    ),
    (
        "a second more than a day later",
        (86402, 1, 8),
        Asks::Downloads(0),
        "expired 1 86402",
        false,
    ),
];

/// Uploads to the same publisher. Behind the first two requests the site has joined and has a range.
pub const UPLOADS: &[Row] = &[
    ("a join", JOINING, Asks::Joins(3), "joined 5", true),
    (
        "a range",
        (1, 1, 6),
        Asks::Wants(&[(TICKETS, 0)]),
        "ranged 1",
        true,
    ),
    (
        "no generation",
        LATER,
        Asks::Uploads(Sent {
            interval: (1, 1, 4),
            ..SENT
        }),
        "bad batch 0 1",
        false,
    ),
    (
        "101 generations",
        LATER,
        Asks::Uploads(Sent {
            interval: (1, 102, 4),
            ..SENT
        }),
        "bad batch 0 2",
        false,
    ),
    (
        "2,001 items",
        LATER,
        Asks::Uploads(Sent {
            times: 2001,
            ..SENT
        }),
        "bad batch 0 3",
        false,
    ),
    (
        "the last change number falls",
        LATER,
        Asks::Uploads(Sent {
            interval: (1, 2, 2),
            ..SENT
        }),
        "bad batch 0 4",
        false,
    ),
    (
        "a last change number that is too great",
        LATER,
        Asks::Uploads(Sent {
            interval: (1, 2, 1 << 62),
            ..SENT
        }),
        "bad batch 0 4",
        false,
    ),
    (
        "a row twice",
        LATER,
        Asks::Uploads(Sent { times: 2, ..SENT }),
        "bad batch 2 5",
        false,
    ),
    (
        "an article that is not there",
        LATER,
        Asks::Uploads(Sent { article: 2, ..SENT }),
        "bad batch 1 6",
        false,
    ),
    (
        "a customer as a ticket",
        LATER,
        Asks::Uploads(Sent {
            holds: Holds::Customer((1, 4)),
            ..SENT
        }),
        "bad batch 1 6",
        false,
    ),
    (
        "an empty lineage",
        LATER,
        Asks::Uploads(Sent { knows: &[], ..SENT }),
        "bad batch 1 7",
        false,
    ),
    (
        "no change of the site",
        LATER,
        Asks::Uploads(Sent {
            knows: &[(0, 1)],
            holds: Holds::Ticket((0, 1), 1),
            ..SENT
        }),
        "bad batch 1 7",
        false,
    ),
    (
        "a change of no subscription",
        LATER,
        Asks::Uploads(Sent {
            knows: &[(1, 4), (7, 1)],
            ..SENT
        }),
        "bad batch 1 7",
        false,
    ),
    (
        "a change with no number",
        LATER,
        Asks::Uploads(Sent {
            knows: &[(0, 0), (1, 4)],
            ..SENT
        }),
        "bad batch 1 7",
        false,
    ),
    (
        "a generation before the first",
        LATER,
        Asks::Uploads(Sent {
            generation: 1,
            ..SENT
        }),
        "bad batch 1 8",
        false,
    ),
    (
        "a generation behind the last",
        LATER,
        Asks::Uploads(Sent {
            generation: 3,
            ..SENT
        }),
        "bad batch 1 8",
        false,
    ),
    (
        "values of a change that is not known",
        LATER,
        Asks::Uploads(Sent {
            holds: Holds::Ticket((1, 5), 1),
            ..SENT
        }),
        "bad batch 1 9",
        false,
    ),
    (
        "values of no change",
        LATER,
        Asks::Uploads(Sent {
            holds: Holds::Ticket((1, 0), 1),
            ..SENT
        }),
        "bad batch 1 9",
        false,
    ),
    (
        "deleted by a change that is not known",
        LATER,
        Asks::Uploads(Sent {
            holds: Holds::Nothing((1, 5)),
            ..SENT
        }),
        "bad batch 1 9",
        false,
    ),
    (
        "a row that no change makes",
        LATER,
        Asks::Uploads(Sent {
            row: RowId(5),
            ..SENT
        }),
        "bad batch 1 10",
        false,
    ),
    (
        "a row that the publisher did not make",
        LATER,
        Asks::Uploads(Sent {
            row: RowId(0x0000_8000_8000_0000_0000_0005),
            ..SENT
        }),
        "bad batch 1 10",
        false,
    ),
    (
        "a row of another site that was not taken",
        LATER,
        Asks::Uploads(Sent {
            row: RowId(0x0002_8000_8000_0000_0000_0001),
            ..SENT
        }),
        "bad batch 1 10",
        false,
    ),
    (
        "a row of no subscription",
        LATER,
        Asks::Uploads(Sent {
            row: RowId(0x0007_8000_8000_0000_0000_0001),
            ..SENT
        }),
        "bad batch 1 10",
        false,
    ),
    (
        "a change that the publisher did not make",
        LATER,
        Asks::Uploads(Sent {
            knows: &[(0, 5), (1, 4)],
            ..SENT
        }),
        "bad batch 1 11",
        false,
    ),
    (
        "a change of another site that was not seen",
        LATER,
        Asks::Uploads(Sent {
            knows: &[(1, 4), (2, 1)],
            ..SENT
        }),
        "bad batch 1 11",
        false,
    ),
    (
        "a number that was not granted",
        LATER,
        Asks::Uploads(Sent {
            holds: Holds::Ticket((1, 4), 3),
            ..SENT
        }),
        "bad batch 1 12",
        false,
    ),
    ("a ticket", LATER, Asks::Uploads(SENT), "uploaded 2", true),
    (
        "the same again",
        LATER,
        Asks::Uploads(SENT),
        "uploaded 2",
        false,
    ),
    (
        "another number for the ticket",
        (1, 1, 8),
        Asks::Uploads(Sent {
            interval: (2, 3, 5),
            generation: 3,
            knows: &[(1, 5)],
            holds: Holds::Ticket((1, 5), 2),
            ..SENT
        }),
        "bad batch 1 12",
        false,
    ),
    (
        "the ticket is deleted",
        (1, 1, 8),
        Asks::Uploads(Sent {
            interval: (2, 3, 5),
            generation: 3,
            knows: &[(1, 5)],
            holds: Holds::Nothing((1, 5)),
            ..SENT
        }),
        "uploaded 3",
        true,
    ),
];

fn body(alloc: Global, holds: Holds) -> Result<Body, NoMemory> {
    match holds {
        Holds::Ticket(top, number) => Ok(Body::Live(ticket(alloc, top, number)?)),
        Holds::Customer(top) => Ok(Body::Live(customer(alloc, top)?)),
        Holds::Nothing(top) => Ok(Body::Dead(dot(top))),
    }
}

fn item(alloc: Global, sent: &Sent) -> Result<UploadItem, Fail> {
    let lineage = lineage(alloc, sent.knows)?;
    let body = body(alloc, sent.holds)?;
    Ok(UploadItem {
        article: sent.article,
        row: sent.row,
        generation: sent.generation,
        version: Version { lineage, body },
    })
}

fn items(alloc: Global, sent: &Sent) -> Result<UploadItems, Fail> {
    let mut items = UploadItems::empty(alloc);
    for _ in 0..sent.times {
        items.push(item(alloc, sent)?)?;
    }
    Ok(items)
}

fn wants(alloc: Global, wanted: &[(u8, u64)]) -> Result<Wants, NoMemory> {
    let mut wants = Wants::empty(alloc);
    for (article, have) in wanted {
        wants.push(Want {
            article: *article,
            have: *have,
            due: true,
        })?;
    }
    Ok(wants)
}

fn request(alloc: Global, site: SiteId, seq: u64, asks: &Asks) -> Result<Request, Fail> {
    match asks {
        Asks::Joins(number) => Ok(Request::Join(Join {
            site,
            seq,
            generation: 1,
            number: *number,
        })),
        Asks::Uploads(sent) => {
            let items = items(alloc, sent)?;
            let (from, to, through) = sent.interval;
            Ok(Request::Upload(Upload {
                site,
                seq,
                from,
                to,
                through,
                items,
            }))
        }
        Asks::Wants(wanted) => {
            let wants = wants(alloc, wanted)?;
            Ok(Request::Ranges(RangeAsk { site, seq, wants }))
        }
        Asks::Downloads(from) => Ok(Request::Download(Download {
            site,
            seq,
            from: *from,
        })),
    }
}

// What the publisher answers, in words.
fn answer<T: Play>(
    alloc: Global,
    sites: &mut T,
    now: Moment,
    request: &Request,
) -> Result<String, NoMemory> {
    match sites.answer(now, request) {
        Ok(reply) => {
            let (word, number) = told(&reply);
            Ok(format!(in alloc; "{word} {number}")?)
        }
        Err(refusal) => Ok(format!(in alloc; "{refusal}")?),
    }
}

fn there<T: Play>(alloc: Global, sites: &T) -> Result<String, NoMemory> {
    let mut text = String::new(alloc);
    sites.write_there(&mut text)?;
    Ok(text)
}

fn ask<T: Play, R: Abort>(rt: &R, alloc: Global, sites: &mut T, row: &Row) -> Result<(), Fail> {
    let (shows, (now, site, seq), asks, wanted, changes) = row;
    let request = request(alloc, SiteId(*site), *seq, asks)?;
    let before = there(alloc, sites)?;
    let answer = answer(alloc, sites, Moment(*now), &request)?;
    let after = there(alloc, sites)?;
    same_in(rt, &answer.as_str(), wanted, shows);
    same_in(rt, &(before.as_str() != after.as_str()), changes, shows);
    Ok(())
}

const INSERT: Step = Step::There(There::Changes(Edit::Insert(CUSTOMERS, Put::Region("north"))));

// Two sites, of which the publisher closed four generations with a customer each.
fn prepared<T: Play>(alloc: Global) -> Result<T, Fail> {
    let mut sites = T::begun(alloc, None)?;
    for _ in 0..4 {
        sites.step(Moment(1), INSERT)?;
        sites.step(Moment(1), Step::There(There::Closes))?;
    }
    Ok(sites)
}

/// Requests come one behind the other, and are answered so.
pub fn ask_in_turn<T: Play, R: Abort>(rt: &R, alloc: Global, rows: &[Row]) -> Result<(), Fail> {
    let mut sites = prepared::<T>(alloc)?;
    for row in rows {
        ask(rt, alloc, &mut sites, row)?;
    }
    Ok(())
}
