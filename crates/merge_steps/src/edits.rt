//! The edits of a step.
ghost use Rattle.std.specs.Prelude.{◌≡◌, ◌<◌, ◌+◌, ◌^◌, ◌∷◌, ◌++◌, [], map, length, drop, option_copied, IfOk, OnOk};
ghost use Rattle.std.specs.List.{zip as zipped};
ghost use Rattle.merge_table.specs.declared.edit.Edit.TheVariants.{Take};
ghost use Rattle.merge_steps.specs.LiveRows.{values_in};
ghost use Rattle.merge_steps.specs.MoveEntries.{move_entry};
ghost use Rattle.merge_steps.specs.Rows as row;
ghost use Rattle.merge_steps.specs.Tie as tie;

use crate::site_moves::MoveEntry;
use merge_gens::{IndexChange, IndexEntry, Mapping, MoveKind, RowSite};
use merge_part::Move;
use merge_table::{Edit, Table};
use merge_types::{Listing, NoMemory, RowKey, Values};
use merge_units::{Body, PublisherRow};
use std::alloc::Global;

/// The values of a live row.
pub fn live_values(alloc: Global, body: &Body) -> Result<Option<Values>, NoMemory>
    ensures { IfOk result (λ values. values ≡ values_in body.now) }
{
    let Body::Live(cells) = body else {
        return Ok(None);
    };
    let mut values = Listing::empty(alloc);
    for cell in cells.as_slice() {
        for value in cell.values.as_slice() {
            values.push(value.clone()?)?;
        }
    }
    Ok(Some(values))
}

// A membership's move as an entry.
pub fn entry_of(one: &Move) -> (RowSite, MoveKind)
    ensures { result ≡ tie.entry_of one.now }
{
    let key = RowKey {
        article: one.article,
        row: one.row,
    };
    (
        RowSite {
            key,
            site: one.site.0,
        },
        one.kind,
    )
}

// The entries that are put, with their generations.
pub fn put_edits(
    alloc: Global,
    told: &[(RowSite, MoveKind)],
    generations: &[u64],
) -> Result<Vec<Edit<RowSite, Mapping>>, NoMemory>
    requires { length told.now ≡ length generations.now }
    ensures { IfOk result (λ edits. edits.items ≡ map row.put_edit (zipped told.now generations.now)) }
{
    let mut edits = Vec::new(alloc);
    for (number, entry) in told.iter().enumerate() {
        let (place, kind) = *entry;
        let generation = generations[number];
        edits.push(Edit::Put(place, Mapping { kind, generation }))?;
    }
    Ok(edits)
}

// The edits of the mappings.
pub fn mapping_edits(
    alloc: Global,
    told: &[(RowSite, MoveKind)],
    generations: &[u64],
    gone: &[RowSite],
) -> Result<Listing<Edit<RowSite, Mapping>>, NoMemory>
    requires { length told.now ≡ length generations.now }
    ensures { IfOk result (λ edits. edits ≡ row.mapping_edits told.now generations.now gone.now) }
{
    let mut edits = put_edits(alloc, told, generations)?;
    for place in gone {
        edits.push(Edit::Take(*place))?;
    }
    Ok(Listing::new(edits))
}

// The edits of the index.
pub fn index_edits(
    alloc: Global,
    was: Option<&PublisherRow>,
    key: RowKey,
    generation: u64,
) -> Result<Listing<IndexChange>, NoMemory>
    ensures { IfOk result (λ edits. edits ≡ row.index_edits (option_copied was.entry) key generation) }
{
    let mut edits = Listing::empty(alloc);
    if let Some(was) = was {
        edits.push(Edit::Take(IndexEntry {
            generation: was.changed,
            key,
        }))?;
    }
    edits.push(Edit::Put(IndexEntry { generation, key }, ()))?;
    Ok(edits)
}

// The edits of the index of mappings for one mapping.
fn moved_edit(
    alloc: Global,
    mappings: &Table<RowSite, Mapping>,
    edit: &Edit<RowSite, Mapping>,
) -> Result<Vec<Edit<MoveEntry, ()>>, NoMemory>
    ensures { IfOk result (λ edits. edits.items ≡ row.moved_edit mappings.now.rows edit.now) }
{
    let place = match edit {
        Edit::Put(place, _) => *place,
        Edit::Take(place) => *place,
    };
    let mut edits = Vec::new(alloc);
    if let Some(was) = mappings.get(&place) {
        edits.push(Edit::Take(move_entry(place, was.generation)))?;
    }
    if let Edit::Put(_, mapping) = edit {
        edits.push(Edit::Put(move_entry(place, mapping.generation), ()))?;
    }
    Ok(edits)
}

/// The entry of a mapping.
pub fn move_entry(place: RowSite, generation: u64) -> MoveEntry
    ensures { result ≡ move_entry place generation }
{
    MoveEntry {
        site: place.site,
        generation,
        key: place.key,
    }
}

/// The edits of the index of mappings for edits of these, each at a place of its own.
pub fn moved_edits(
    alloc: Global,
    mappings: &Table<RowSite, Mapping>,
    edits: &[Edit<RowSite, Mapping>],
) -> Result<Listing<Edit<MoveEntry, ()>>, NoMemory>
    ensures { IfOk result (λ moved. moved ≡ row.moved_edits mappings.now.rows edits.now) }
{
    let mut moved = Vec::new(alloc);
    for edit in edits {
        let mut more = moved_edit(alloc, mappings, edit)?;
        moved.append(&mut more)?;
    }
    Ok(Listing::new(moved))
}
