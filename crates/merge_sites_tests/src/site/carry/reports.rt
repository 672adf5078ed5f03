//! What messages say and what two sites have, in words.
use crate::site::edits::SITE;
use merge_batch::Request;
use merge_ident::Range;
use merge_keeper::MemoryKeeper;
use merge_site::{KeptPublisher, KeptSubscriber};
use merge_types::{NoMemory, RowId, Value};
use merge_units::Body;

/// What is told of a site.
#[derive(Clone, Copy)]
pub enum Report {
    RowsThere,
    RowsHere,
    LostHere,
    GrantsThere,
    HeldHere,
    StandingThere,
}

/// What a request asks, and a number of it: its own, how many rows or articles it has, or from which
/// generation on it asks.
pub fn asked(request: &Request) -> (&'static str, u64) {
    match request {
        Request::Join(m) => ("join", m.seq),
        Request::Upload(m) => ("upload", m.items.len() as u64),
        Request::Ranges(m) => ("ranges", m.wants.len() as u64),
        Request::Download(m) => ("download", m.from),
    }
}

/// Writes the change that made a row: its site and its number there.
pub fn write_row(text: &mut String, row: RowId) -> Result<(), NoMemory> {
    match row.maker() {
        Some(dot) => write!(text, "{}.{}", dot.site.0, dot.number)?,
        None => write!(text, "none")?,
    }
    Ok(())
}

// The first value of a row, where it lives and this is a number.
fn first_of(body: &Body) -> Option<i64> {
    let Body::Live(cells) = body else {
        return None;
    };
    let [cell] = cells.as_slice() else {
        return None;
    };
    match cell.values.as_slice() {
        [Value::Int(first), ..] => Some(*first),
        _ => None,
    }
}

// A row with its first value, in a line, where it lives.
fn write_live(text: &mut String, row: RowId, body: &Body) -> Result<(), NoMemory> {
    if let Some(first) = first_of(body) {
        write_row(text, row)?;
        writeln!(text, " {first}")?;
    }
    Ok(())
}

/// Writes the publisher's live rows.
pub fn write_rows_there(
    text: &mut String,
    site: &KeptPublisher<MemoryKeeper>,
) -> Result<(), NoMemory> {
    for (key, row) in site.rows().iter() {
        write_live(text, key.row, &row.version.body)?;
    }
    Ok(())
}

/// Writes the subscriber's live rows.
pub fn write_rows_here(
    text: &mut String,
    site: &KeptSubscriber<MemoryKeeper>,
) -> Result<(), NoMemory> {
    for (key, row) in site.rows().iter() {
        write_live(text, key.row, &row.version.body)?;
    }
    Ok(())
}

/// Writes the subscriber's conflicts: the number, the kind and the site of each, and the row that lost.
pub fn write_lost_here(
    text: &mut String,
    site: &KeptSubscriber<MemoryKeeper>,
) -> Result<(), NoMemory> {
    for lost in site.conflicts() {
        write!(text, "{} {:?} {} ", lost.number, lost.kind, lost.from.0)?;
        write_live(text, lost.row, &lost.losing.body)?;
    }
    Ok(())
}

/// Writes what the publisher granted: the article, the site, the number, and the range of each.
pub fn write_grants_there(
    text: &mut String,
    site: &KeptPublisher<MemoryKeeper>,
) -> Result<(), NoMemory> {
    for grant in site.grants() {
        write!(text, "{} {} {}", grant.article, grant.site.0, grant.number)?;
        writeln!(text, " {} {}", grant.range.begin, grant.range.end)?;
    }
    Ok(())
}

fn write_range(text: &mut String, range: Option<Range>) -> Result<(), NoMemory> {
    match range {
        Some(range) => write!(text, " {} {}", range.begin, range.end)?,
        None => write!(text, " - -")?,
    }
    Ok(())
}

/// Writes what the subscriber holds of each article: the two ranges that it has, of so many that it
/// heard of.
pub fn write_held_here(
    text: &mut String,
    site: &KeptSubscriber<MemoryKeeper>,
) -> Result<(), NoMemory> {
    for (article, ranges) in site.held().iter() {
        let holding = ranges.holding();
        write!(text, "{article}")?;
        write_range(text, holding.first)?;
        write_range(text, holding.second)?;
        writeln!(text, " of {}", holding.have)?;
    }
    Ok(())
}

/// Writes the publisher's generations, and what it remembers of the site.
pub fn write_standing_there(
    text: &mut String,
    site: &KeptPublisher<MemoryKeeper>,
) -> Result<(), NoMemory> {
    let filling = site.filling();
    write!(
        text,
        "closed {} open {}",
        filling.last_closed, filling.filled
    )?;
    writeln!(text, " kept {}", site.kept())?;
    if let Some(state) = site.site_state(SITE) {
        write!(
            text,
            "joined {} received {}",
            state.joined_at, state.received
        )?;
        write!(text, " number {}", state.received_number)?;
        writeln!(
            text,
            " watermark {} synced {}",
            state.watermark, state.last_sync
        )?;
    }
    Ok(())
}
