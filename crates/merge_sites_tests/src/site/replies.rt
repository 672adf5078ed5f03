//! Replies that come to a subscriber, and what it says of them.
use super::edits::{CUSTOMERS, NORTHERN, SITE, TICKET, TICKETS};
use super::pair::{Sends, Step};
use super::playing::{Play, played};
use super::starting::Call;
use super::versions::{Made, customer, lineage};
use crate::same::{same, same_in};
use merge_batch::{
    Act, DownloadItem, DownloadItems, Downloaded, EndedRanges, Joined, RangeGrant, RangeGrants,
    Ranged, Refusal, Reply, Uploaded,
};
use merge_model::Taken;
use merge_types::{Listing, Moment, NoMemory, RowId, RowKey};
use std::alloc::Global;
use std::process::Abort;
use std::test::Fail;

/// What a download does with a row: it goes, or it comes as a customer whose values were set by the
/// first change, and that knows the second one beside the publisher's first.
#[derive(Clone, Copy, Debug)]
pub enum Does {
    Goes,
    Comes(Made, Made),
}

/// A range: its article, its number, and its first and last value.
type Given = (u8, u64, i64, i64);

/// A reply. A download has the number of its message, its interval, the last generations that the
/// publisher closed and received, and what it does with rows.
#[derive(Clone, Copy, Debug)]
pub enum Told {
    Refuses,
    Joins(u64),
    Uploads(u64, u64),
    Ranges(u64, &'static [Given]),
    Downloads(u64, (u64, u64), u64, u64, &'static [(RowKey, Does)]),
    /// A download with so many customers, each as the publisher made it.
    Brings(u32),
}

/// Behind how many steps of the script a reply comes, what it shows, what it is, and what is said of it.
pub type Row = (usize, &'static str, Told, &'static str);

// A row of an article that does not exist.
const NOWHERE: RowKey = RowKey {
    article: 2,
    row: RowId(0x0001_8000_8000_0000_0000_0001),
};

// A row that the site did not make, and that names it as its maker.
const UNMADE: RowKey = RowKey {
    article: TICKETS,
    row: RowId(0x0001_8000_8000_0000_0000_0009),
};

/// The first message is a join, the second asks for the first range, the third sends two generations,
/// the fourth asks from generation 0 on, and the sixth from generation 1 on.
pub const REPLIES: &[Row] = &[
    (
        3,
        "an upload that answers a join",
        Told::Uploads(1, 0),
        "bad batch 0 0",
    ),
    (
        7,
        "a range that is not the next",
        Told::Ranges(2, &[(TICKETS, 2, 1, 2)]),
        "bad batch 0 0",
    ),
    (
        7,
        "a range of no value",
        Told::Ranges(2, &[(TICKETS, 1, 2, 1)]),
        "bad batch 0 0",
    ),
    (
        7,
        "a range that was not asked for",
        Told::Ranges(2, &[(CUSTOMERS, 1, 1, 2)]),
        "bad batch 0 0",
    ),
    (
        7,
        "two ranges of an article",
        Told::Ranges(2, &[(TICKETS, 1, 1, 2), (TICKETS, 1, 1, 2)]),
        "bad batch 0 0",
    ),
    (
        16,
        "less received than was sent",
        Told::Uploads(3, 1),
        "bad batch 0 0",
    ),
    (
        16,
        "more received than was closed",
        Told::Uploads(3, 3),
        "bad batch 0 0",
    ),
    (23, "a refusal", Told::Refuses, "acted"),
    (23, "an old reply", Told::Joins(1), "missed 1 4"),
    (
        23,
        "a download of another message",
        Told::Downloads(5, (0, 1), 1, 2, &[]),
        "missed 5 4",
    ),
    (23, "a join", Told::Joins(4), "bad batch 0 0"),
    (23, "an upload", Told::Uploads(4, 2), "bad batch 0 0"),
    (
        23,
        "from another generation",
        Told::Downloads(4, (1, 1), 1, 2, &[]),
        "bad batch 0 0",
    ),
    (
        23,
        "no generation, where there is one",
        Told::Downloads(4, (0, 0), 1, 2, &[]),
        "bad batch 0 0",
    ),
    (
        23,
        "up to one that is not closed",
        Told::Downloads(4, (0, 2), 1, 2, &[]),
        "bad batch 0 0",
    ),
    (
        23,
        "a generation that is too great",
        Told::Downloads(4, (0, 1), 1 << 62, 2, &[]),
        "bad batch 0 0",
    ),
    (
        23,
        "101 generations",
        Told::Downloads(4, (0, 101), 101, 2, &[]),
        "bad batch 0 0",
    ),
    (23, "2,001 items", Told::Brings(2001), "bad batch 0 0"),
    (
        23,
        "less received than before",
        Told::Downloads(4, (0, 1), 1, 1, &[]),
        "bad batch 0 0",
    ),
    (
        23,
        "more received than closed",
        Told::Downloads(4, (0, 1), 1, 3, &[]),
        "bad batch 0 0",
    ),
    (
        23,
        "an article that is not there",
        Told::Downloads(
            4,
            (0, 1),
            1,
            2,
            &[(TICKET, Does::Goes), (NOWHERE, Does::Goes)],
        ),
        "bad batch 2 0",
    ),
    (
        23,
        "a row twice",
        Told::Downloads(
            4,
            (0, 1),
            1,
            2,
            &[(TICKET, Does::Goes), (TICKET, Does::Goes)],
        ),
        "bad batch 2 0",
    ),
    (
        23,
        "rows that do not ascend",
        Told::Downloads(
            4,
            (0, 1),
            1,
            2,
            &[(TICKET, Does::Goes), (NORTHERN, Does::Goes)],
        ),
        "bad batch 2 0",
    ),
    (
        23,
        "a row of the site that it did not make",
        Told::Downloads(
            4,
            (0, 1),
            1,
            2,
            &[(TICKET, Does::Goes), (UNMADE, Does::Goes)],
        ),
        "bad batch 2 0",
    ),
    (
        23,
        "a customer as a ticket",
        Told::Downloads(4, (0, 1), 1, 2, &[(TICKET, Does::Comes((0, 1), (1, 1)))]),
        "bad batch 1 0",
    ),
    (
        23,
        "a change of no subscription",
        Told::Downloads(4, (0, 1), 1, 2, &[(NORTHERN, Does::Comes((0, 1), (7, 1)))]),
        "bad batch 1 0",
    ),
    (
        23,
        "a change with no number",
        Told::Downloads(4, (0, 1), 1, 2, &[(NORTHERN, Does::Comes((0, 1), (1, 0)))]),
        "bad batch 1 0",
    ),
    (
        23,
        "a change of the site that it did not make",
        Told::Downloads(4, (0, 1), 1, 2, &[(NORTHERN, Does::Comes((0, 1), (1, 9)))]),
        "bad batch 1 0",
    ),
    (
        23,
        "values of a change that is not known",
        Told::Downloads(4, (0, 1), 1, 2, &[(NORTHERN, Does::Comes((1, 2), (1, 1)))]),
        "bad batch 1 0",
    ),
    (
        23,
        "values of no change",
        Told::Downloads(4, (0, 1), 1, 2, &[(NORTHERN, Does::Comes((0, 0), (1, 1)))]),
        "bad batch 1 0",
    ),
    (
        33,
        "back to an earlier generation",
        Told::Downloads(6, (1, 0), 2, 3, &[]),
        "bad batch 0 0",
    ),
];

fn act(alloc: Global, does: Does) -> Result<Act, Fail> {
    match does {
        Does::Goes => Ok(Act::RemoveDeleted),
        Does::Comes(top, known) => {
            let lineage = lineage(alloc, &[(0, 1), known])?;
            let live = customer(alloc, top)?;
            Ok(Act::Put { lineage, live })
        }
    }
}

fn items(alloc: Global, rows: &[(RowKey, Does)]) -> Result<DownloadItems, Fail> {
    let mut items = DownloadItems::empty(alloc);
    for (key, does) in rows {
        items.push(DownloadItem {
            article: key.article,
            row: key.row,
            act: act(alloc, *does)?,
        })?;
    }
    Ok(items)
}

// A customer as the publisher made it by its change of this number.
fn made(alloc: Global, number: u32) -> Result<DownloadItem, Fail> {
    let top = (0, u64::from(number));
    let lineage = lineage(alloc, &[top])?;
    let live = customer(alloc, top)?;
    Ok(DownloadItem {
        article: CUSTOMERS,
        row: RowId(0x0000_8000_8000_0000_0000_0000 + number as u128),
        act: Act::Put { lineage, live },
    })
}

fn made_items(alloc: Global, count: u32) -> Result<DownloadItems, Fail> {
    let mut items = DownloadItems::empty(alloc);
    for place in 0..count {
        items.push(made(alloc, place.saturating_add(1))?)?;
    }
    Ok(items)
}

fn grants(alloc: Global, given: &[Given]) -> Result<RangeGrants, NoMemory> {
    let mut grants = RangeGrants::empty(alloc);
    for (article, number, begin, end) in given {
        grants.push(RangeGrant {
            article: *article,
            number: *number,
            begin: *begin,
            end: *end,
        })?;
    }
    Ok(grants)
}

fn downloaded(
    seq: u64,
    interval: (u64, u64),
    last: u64,
    received: u64,
    items: DownloadItems,
) -> Reply {
    let (from, to) = interval;
    Reply::Downloaded(Downloaded {
        seq,
        from,
        to,
        last,
        received,
        items,
    })
}

fn reply(alloc: Global, told: Told) -> Result<Reply, Fail> {
    match told {
        Told::Refuses => Ok(Reply::Refused {
            number: 12,
            values: Listing::empty(alloc),
        }),
        Told::Joins(seq) => Ok(Reply::Joined(Joined { seq })),
        Told::Uploads(seq, received) => Ok(Reply::Uploaded(Uploaded { seq, received })),
        Told::Ranges(seq, given) => {
            let grants = grants(alloc, given)?;
            let ended = EndedRanges::empty(alloc);
            Ok(Reply::Ranged(Ranged { seq, grants, ended }))
        }
        Told::Downloads(seq, interval, last, received, rows) => {
            Ok(downloaded(seq, interval, last, received, items(alloc, rows)?))
        }
        Told::Brings(count) => Ok(downloaded(4, (0, 1), 1, 2, made_items(alloc, count)?)),
    }
}

// What the subscriber says of a reply, in words.
fn said<T: Play>(alloc: Global, sites: &mut T, reply: &Reply) -> Result<String, NoMemory> {
    match sites.take(Moment(7), reply) {
        Ok(Taken::Acted) => Ok(String::from_str(alloc, "acted")?),
        Ok(Taken::Missed { seq, outstanding }) => {
            Ok(format!(in alloc; "missed {seq} {outstanding}")?)
        }
        Err(refusal) => Ok(format!(in alloc; "{refusal}")?),
    }
}

fn here<T: Play>(alloc: Global, sites: &T) -> Result<String, NoMemory> {
    let mut text = String::new(alloc);
    sites.write_here(&mut text)?;
    Ok(text)
}

fn hear<T: Play, R: Abort>(rt: &R, alloc: Global, row: &Row) -> Result<(), Fail> {
    let (behind, shows, told, wanted) = row;
    let mut sites = played::<T>(alloc, None, *behind)?;
    let reply = reply(alloc, *told)?;
    let before = here(alloc, &sites)?;
    let said = said(alloc, &mut sites, &reply)?;
    let after = here(alloc, &sites)?;
    same_in(rt, &said.as_str(), wanted, shows);
    same_in(rt, &after.as_str(), &before.as_str(), shows);
    Ok(())
}

/// Each reply comes to a subscriber, which stays as it is.
pub fn hear_each<T: Play, R: Abort>(rt: &R, alloc: Global) -> Result<(), Fail> {
    for row in REPLIES {
        hear::<T, R>(rt, alloc, row)?;
    }
    Ok(())
}

// Behind 23 steps of the script the subscriber's keeper was called 13 times, so that the reply is
// committed by the call 13, and the next message by the call 14.
const NEXT: Call = Call {
    site: SITE,
    number: 14,
};

// Whether a reply with so many rows is one commit: it does not fail, and the next message does.
fn is_one_commit<T: Play>(alloc: Global, count: u32) -> Result<bool, Fail> {
    let mut sites = played::<T>(alloc, Some(NEXT), 23)?;
    let before = sites.rows_here();
    let reply = reply(alloc, Told::Brings(count))?;
    let taken = sites.take(Moment(5), &reply)?;
    let gained = sites.rows_here().saturating_sub(before);
    let next = sites.step(Moment(5), Step::Sends(Sends::Download));
    let fails = matches!(next, Err(Refusal::StoreFault));
    Ok(taken == Taken::Acted && gained == count as usize && fails && sites.faults() == (0, 1))
}

/// A reply is one commit, however many rows it brings.
pub fn commit_once<T: Play, R: Abort>(rt: &R, alloc: Global) -> Result<(), Fail> {
    for count in [0u32, 1, 2000] {
        same_in(rt, &is_one_commit::<T>(alloc, count)?, &true, &count);
    }
    Ok(())
}
