//! What two sites have: in words, and as it is worked out for the end of the script.
use super::edits::{SITE, TICKET};
use crate::same::same;
use merge_batch::Reply;
use merge_conflict::ConflictRow;
use merge_gens::{Filling, Marks, SiteState};
use merge_ident::{Grant, Range};
use merge_keeper::MemoryKeeper;
use merge_site::{KeptPublisher, KeptSubscriber};
use merge_table::{Table, TableKey};
use merge_types::{NoMemory, Value};
use merge_units::Body;
use std::fmt::Debug;
use std::process::Abort;

/// What a reply answers, and a number of it: the message that it answers, how far it received, or how
/// many grants or rows it has.
pub fn told(reply: &Reply) -> (&'static str, u64) {
    match reply {
        Reply::Joined(m) => ("joined", m.seq),
        Reply::Uploaded(m) => ("uploaded", m.received),
        Reply::Ranged(m) => ("ranged", m.grants.len() as u64),
        Reply::Downloaded(m) => ("downloaded", m.items.len() as u64),
        Reply::Refused { number, .. } => ("refused", u64::from(*number)),
    }
}

// Writes each row of a table, in a line.
fn write_rows<K: TableKey + Debug, V: Drop + Debug>(
    text: &mut String,
    rows: &Table<K, V>,
) -> Result<(), NoMemory> {
    for (key, row) in rows.iter() {
        writeln!(text, "{key:?} {row:?}")?;
    }
    Ok(())
}

fn write_conflicts(text: &mut String, rows: &[ConflictRow]) -> Result<(), NoMemory> {
    for row in rows {
        writeln!(text, "{row:?}")?;
    }
    Ok(())
}

/// Writes what a publisher has.
pub fn write_publisher(
    text: &mut String,
    site: &KeptPublisher<MemoryKeeper>,
) -> Result<(), NoMemory> {
    write_rows(text, site.rows())?;
    write_conflicts(text, site.conflicts())?;
    writeln!(text, "{:?} {:?}", site.grants(), site.filling())?;
    writeln!(text, "{} {:?}", site.kept(), site.site_state(SITE))?;
    Ok(())
}

/// Writes what a subscriber has.
pub fn write_subscriber(
    text: &mut String,
    site: &KeptSubscriber<MemoryKeeper>,
) -> Result<(), NoMemory> {
    write_rows(text, site.rows())?;
    write_own(text, site)?;
    writeln!(text, "{:?} {}", site.marks(), site.is_joined())?;
    Ok(())
}

/// Writes what a subscriber keeps that begins anew: its site, the numbers of its last change and its
/// last message, its ranges, and its conflicts, to which others may come.
pub fn write_own(text: &mut String, site: &KeptSubscriber<MemoryKeeper>) -> Result<(), NoMemory> {
    let seq = site.marks().seq;
    writeln!(text, "{} {} {seq}", site.site().0, site.changes())?;
    write_rows(text, site.held())?;
    write_conflicts(text, site.conflicts())
}

// The numbers of a ticket, where it lives.
fn numbers_of(body: &Body) -> Option<(i64, i64)> {
    let Body::Live(cells) = body else {
        return None;
    };
    let [cell] = cells.as_slice() else {
        return None;
    };
    match cell.values.as_slice() {
        [Value::Int(first), Value::Int(second)] => Some((*first, *second)),
        _ => None,
    }
}

// The numbers of the ticket that lost last.
fn lost(rows: &[ConflictRow]) -> Option<(i64, i64)> {
    match rows.last() {
        Some(row) => numbers_of(&row.losing.body),
        None => None,
    }
}

fn ticket_there(site: &KeptPublisher<MemoryKeeper>) -> Option<(i64, i64)> {
    match site.rows().get(&TICKET) {
        Some(row) => numbers_of(&row.version.body),
        None => None,
    }
}

fn ticket_here(site: &KeptSubscriber<MemoryKeeper>) -> Option<(i64, i64)> {
    match site.rows().get(&TICKET) {
        Some(row) => numbers_of(&row.version.body),
        None => None,
    }
}

fn last_range(grants: &[Grant]) -> Option<Range> {
    match grants.last() {
        Some(grant) => Some(grant.range),
        None => None,
    }
}

const SECOND_RANGE: Range = Range { begin: 3, end: 4 };

const FILLING: Filling = Filling {
    last_closed: 2,
    filled: 1,
};

const STATE: SiteState = SiteState {
    joined_at: 8,
    received: 5,
    received_number: 7,
    seen: 7,
    watermark: 0,
    last_sync: 172808,
};

/// That a publisher has what is worked out: a customer that left the site's partition, and two
/// tickets.
pub fn check_publisher<R: Abort>(
    rt: &R,
    site: &KeptPublisher<MemoryKeeper>,
) -> Result<(), NoMemory> {
    same(
        rt,
        &(site.rows().len(), site.partition(SITE)?.len()),
        &(3, 2),
    );
    same(rt, &ticket_there(site), &Some((1, 20)));
    same(rt, &site.conflicts().len(), &1);
    same(rt, &lost(site.conflicts()), &Some((1, 21)));
    same(rt, &last_range(site.grants()), &Some(SECOND_RANGE));
    same(rt, &(site.filling(), site.kept()), &(FILLING, 0));
    same(rt, &site.site_state(SITE), &Some(STATE));
    Ok(())
}

const MARKS: Marks = Marks {
    closed: 5,
    filled: 1,
    received: 5,
    watermark: 2,
    seq: 10,
    outstanding: 0,
};

/// That a subscriber has what is worked out: two tickets, of which it changed one since its last
/// upload.
pub fn check_subscriber<R: Abort>(rt: &R, site: &KeptSubscriber<MemoryKeeper>) {
    same(rt, &(site.site(), site.is_joined()), &(SITE, true));
    same(rt, &(site.rows().len(), site.unsent()), &(2, 1));
    same(rt, &ticket_here(site), &Some((1, 12)));
    same(rt, &site.conflicts().len(), &1);
    same(rt, &lost(site.conflicts()), &Some((1, 10)));
    same(rt, &(site.held().len(), site.changes()), &(1, 8));
    same(rt, &site.marks(), &MARKS);
}
