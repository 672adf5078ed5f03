//! The entries of a step that gives rows versions.
ghost use Rattle.std.specs.Prelude.{◌≡◌, ◌<◌, ◌+◌, ◌^◌, ◌∷◌, ◌++◌, [], map, length, drop, take, filter, option_copied, IfOk, OnOk};
ghost use Rattle.std.specs.List.{zip as zipped};
ghost use Rattle.merge_table.specs.Edits.{rows_after_all};
ghost use Rattle.merge_part.specs.Live.{live_rows as listed};
ghost use Rattle.merge_part.specs.View.{live_in};
ghost use Rattle.merge_model.specs.Tables.Keys.{has_key as one_has};
ghost use Rattle.merge_gens.specs.Moves.{row_site_cmp};
ghost use Rattle.merge_steps.specs.Rows as row;
ghost use Rattle.merge_steps.specs.Tie as tie;
ghost use Rattle.merge_steps.specs.Working as work;

use crate::edits::{entry_of, index_edits, live_values};
use merge_gens::{IndexChange, Mapping, MoveKind, RowSite};
use merge_part::{Membership, Move, RowChange};
use merge_table::{Edit, Table};
use merge_types::{Listing, NoMemory, RowKey, SiteId};
use merge_units::{PublisherRow, Version};
use std::alloc::Global;

/// The keys of rows.
pub fn keys_in(alloc: Global, versions: &[(RowKey, Version)]) -> Result<Listing<RowKey>, NoMemory>
    ensures { IfOk result (λ keys. keys ≡ work.keys_in versions.now) }
{
    let mut keys = Listing::empty(alloc);
    for one in versions {
        keys.push(one.0)?;
    }
    Ok(keys)
}

/// The changes of rows as a membership takes them.
pub fn row_changes(
    alloc: Global,
    versions: &[(RowKey, Version)],
) -> Result<Listing<RowChange>, NoMemory>
    ensures { IfOk result (λ changes. changes ≡ map work.row_change versions.now) }
{
    let mut changes = Listing::empty(alloc);
    for one in versions {
        let new = live_values(alloc, &one.1.body)?;
        changes.push(RowChange {
            article: one.0.article,
            row: one.0.row,
            new,
        })?;
    }
    Ok(changes)
}

// A table of rows, in which looking for one costs a logarithm.
fn key_table(alloc: Global, keys: &[RowKey]) -> Result<Table<RowKey, ()>, NoMemory>
    ensures { IfOk result (λ table. work.HaveSame table.slots keys.now) }
{
    let mut table = Table::new(alloc);
    for key in keys {
        table.insert(*key, ())?;
    }
    Ok(table)
}

// Whether a row is among these.
fn has_key(keys: &Table<RowKey, ()>, key: RowKey) -> bool
    ensures { result ≡ one_has keys.now.slots key }
{
    keys.has_room(&key)
}

// The row of a move.
fn key_moved(one: &Move) -> RowKey
    ensures { result ≡ tie.key_moved one.now }
{
    RowKey {
        article: one.article,
        row: one.row,
    }
}

// Whether a move makes an entry.
fn is_told(changed: &Table<RowKey, ()>, one: &Move) -> bool
    ensures { result ≡ tie.is_told changed.now.slots one.now }
{
    match one.kind {
        MoveKind::Entered => !has_key(changed, key_moved(one)),
        MoveKind::Left => true,
    }
}

// Whether a move is one at a site.
fn is_at_site(site: u16, one: &Move) -> bool
    ensures { result ≡ work.is_at_site site one.now }
{
    one.site.0 == site
}

// The rows that move at a site.
fn moved_at(alloc: Global, moves: &[Move], site: u16) -> Result<Listing<RowKey>, NoMemory>
    ensures { IfOk result (λ keys. keys ≡ work.moved_at site moves.now) }
{
    let mut keys = Listing::empty(alloc);
    for one in moves {
        if is_at_site(site, one) {
            keys.push(key_moved(one))?;
        }
    }
    Ok(keys)
}

// Whether a site may not hold a row after the moves, by the rows that move there.
fn found_out(membership: &Membership, moved: &Table<RowKey, ()>, site: u16, key: RowKey) -> bool
    ensures { result ≡ work.out_by membership.now.publication site (listed (live_in membership.now)) moved.now.slots key }
{
    let was = membership.is_in(key.article, key.row, SiteId(site));
    if has_key(moved, key) { was } else { !was }
}

// The rows that a site sent and may not hold, by the rows that move there.
fn found_outs(
    alloc: Global,
    membership: &Membership,
    moved: &Table<RowKey, ()>,
    site: u16,
    acted: &[RowKey],
) -> Result<Listing<RowKey>, NoMemory>
    ensures { IfOk result (λ outs. outs ≡ work.outs_by membership.now.publication site (listed (live_in membership.now)) moved.now.slots acted.now) }
{
    let mut outs = Listing::empty(alloc);
    for key in acted {
        if found_out(membership, moved, site, *key) {
            outs.push(*key)?;
        }
    }
    Ok(outs)
}

// The entries of moves, and of rows that left a site.
fn entry_edits(
    alloc: Global,
    changed: &Table<RowKey, ()>,
    moves: &[Move],
    site: u16,
    outs: &[RowKey],
) -> Result<Vec<Edit<RowSite, MoveKind>>, NoMemory>
    ensures { IfOk result (λ edits. edits.items ≡ work.entry_edits changed.now.slots site outs.now moves.now) }
{
    let mut edits = Vec::new(alloc);
    for one in moves {
        if is_told(changed, one) {
            let (place, kind) = entry_of(one);
            edits.push(Edit::Put(place, kind))?;
        }
    }
    for key in outs {
        edits.push(Edit::Put(RowSite { key: *key, site }, MoveKind::Left))?;
    }
    Ok(edits)
}

// The entries by row and site, each once.
fn in_order(
    alloc: Global,
    edits: Vec<Edit<RowSite, MoveKind>>,
) -> Result<Listing<(RowSite, MoveKind)>, NoMemory>
    ensures { IfOk result (λ entries. entries ≡ rows_after_all row_site_cmp [] edits.items) }
{
    let mut table = Table::new(alloc);
    table.prepare(&edits)?;
    table.apply(edits);
    listing_of(alloc, &table)
}

// The rows of a table in order.
fn listing_of(
    alloc: Global,
    table: &Table<RowSite, MoveKind>,
) -> Result<Listing<(RowSite, MoveKind)>, NoMemory>
    ensures { IfOk result (λ entries. entries ≡ table.now.rows) }
{
    let mut entries = Listing::empty(alloc);
    for (place, kind) in table.iter() {
        entries.push((*place, *kind))?;
    }
    Ok(entries)
}

/// The moves that make entries, by row and site.
pub fn found_entries(
    alloc: Global,
    membership: &Membership,
    changed: &[RowKey],
    moves: &[Move],
    site: u16,
    acted: &[RowKey],
) -> Result<Listing<(RowSite, MoveKind)>, NoMemory>
    ensures { IfOk result (λ entries. entries ≡ rows_after_all row_site_cmp [] (work.entry_edits changed.now site (work.found_outs membership.now.publication site (listed (live_in membership.now)) moves.now acted.now) moves.now)) }
{
    let there = moved_at(alloc, moves, site)?;
    let moved = key_table(alloc, there.as_slice())?;
    let outs = found_outs(alloc, membership, &moved, site, acted)?;
    let keys = key_table(alloc, changed)?;
    let edits = entry_edits(alloc, &keys, moves, site, outs.as_slice())?;
    let entries = in_order(alloc, edits)?;
    Ok(entries)
}

// Whether by this move a row comes back that changed.
fn is_return(mappings: &Table<RowSite, Mapping>, changed: &Table<RowKey, ()>, one: &Move) -> bool
    ensures { result ≡ work.is_return mappings.now.rows changed.now.slots one.now }
{
    let (place, kind) = entry_of(one);
    let has_left = match mappings.get(&place) {
        Some(mapping) => mapping.kind == MoveKind::Left,
        None => false,
    };
    kind == MoveKind::Entered && has_key(changed, place.key) && has_left
}

// The places at which rows of a table come back.
fn returns_among(
    alloc: Global,
    mappings: &Table<RowSite, Mapping>,
    changed: &Table<RowKey, ()>,
    moves: &[Move],
) -> Result<Listing<RowSite>, NoMemory>
    ensures { IfOk result (λ places. places ≡ work.returns mappings.now.rows changed.now.slots moves.now) }
{
    let mut places = Listing::empty(alloc);
    for one in moves {
        if is_return(mappings, changed, one) {
            let (place, _) = entry_of(one);
            places.push(place)?;
        }
    }
    Ok(places)
}

/// The places at which rows that changed come back.
pub fn returns(
    alloc: Global,
    mappings: &Table<RowSite, Mapping>,
    changed: &[RowKey],
    moves: &[Move],
) -> Result<Listing<RowSite>, NoMemory>
    ensures { IfOk result (λ places. places ≡ work.returns mappings.now.rows changed.now moves.now) }
{
    let keys = key_table(alloc, changed)?;
    let places = returns_among(alloc, mappings, &keys, moves)?;
    Ok(places)
}

/// The changes of the index by generation.
pub fn indexing(
    alloc: Global,
    rows: &Table<RowKey, PublisherRow>,
    versions: &[(RowKey, Version)],
    generations: &[u64],
) -> Result<Listing<IndexChange>, NoMemory>
    requires { length versions.now ≡ length generations.now }
    ensures { IfOk result (λ edits. edits ≡ work.all_indexing rows.now.rows (zipped versions.now generations.now)) }
{
    let mut edits = Vec::new(alloc);
    for (number, one) in versions.iter().enumerate() {
        let generation = generations[number];
        let mut more = index_edits(alloc, rows.get(&one.0), one.0, generation)?.into_vec();
        edits.append(&mut more)?;
    }
    Ok(Listing::new(edits))
}

/// The changes of the rows.
pub fn version_edits(
    alloc: Global,
    versions: Vec<(RowKey, Version)>,
    generations: &[u64],
) -> Result<Listing<Edit<RowKey, PublisherRow>>, NoMemory>
    requires { length versions.items ≡ length generations.now }
    ensures { IfOk result (λ edits. edits ≡ work.version_edits versions.items generations.now) }
{
    let mut edits = Listing::empty(alloc);
    let mut number = 0;
    for (key, version) in versions {
        let changed = generations[number];
        number += 1;
        edits.push(Edit::Put(key, PublisherRow { version, changed }))?;
    }
    Ok(edits)
}
