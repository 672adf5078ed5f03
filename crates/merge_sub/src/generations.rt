//! The generations that rows keep.
ghost use Rattle.std.specs.Prelude.{◌≡◌, ◌+◌, ◌++◌, IfOk, OnOk, map};
ghost use Rattle.merge_model.specs.Tables.Keys.{row_at};
ghost use Rattle.merge_model.specs.Subscriber.{with_open};
ghost use Rattle.merge_sub.specs.Held.{entry_behind, kept_by};
ghost use Rattle.merge_sub.specs.Local.{put_entry, reindexing, take_entry};

use merge_gens::{IndexChanges, IndexEntry};
use merge_table::{Edit, Table};
use merge_types::{Listing, NoMemory, RowKey};
use merge_units::SubscriberRow;
use std::alloc::Global;

// The number behind one. No generation that was open has the greatest number, so the refusal never
// comes.
pub(crate) fn behind(number: u64) -> Result<u64, NoMemory>
    ensures { IfOk result (λ next. next ≡ number + 1) }
{
    match number.checked_add(1) {
        Some(next) => Ok(next),
        None => Err(NoMemory),
    }
}

// The entry of a row in the index for a generation that it keeps. It stands at the number behind the
// generation: a store may have rows with generation 0, and the index finds what lies behind a number.
pub(crate) fn entry_behind(generation: u64, key: RowKey) -> Result<IndexEntry, NoMemory>
    ensures { IfOk result (λ entry. entry ≡ entry_behind generation key) }
{
    Ok(IndexEntry {
        generation: behind(generation)?,
        key,
    })
}

// The generations that the row keeps, none where it is not held.
pub(crate) fn kept_by(rows: &Table<RowKey, SubscriberRow>, key: RowKey) -> &[u64]
    ensures { result.now ≡ kept_by (row_at rows.now.rows key) }
{
    match rows.get(&key) {
        Some(row) => row.generations.as_slice(),
        None => &[],
    }
}

// Those below the open generation, with it behind them.
pub(crate) fn with_open(alloc: Global, kept: &[u64], current: u64) -> Result<Listing<u64>, NoMemory>
    ensures { IfOk result (λ generations. generations ≡ with_open current kept.now) }
{
    let mut generations = Listing::empty(alloc);
    for generation in kept {
        if *generation < current {
            generations.push(*generation)?;
        }
    }
    generations.push(current)?;
    Ok(generations)
}

// The changes of an index by which the row keeps other generations.
pub(crate) fn reindexing(
    alloc: Global,
    key: RowKey,
    before: &[u64],
    generations: &[u64],
) -> Result<IndexChanges, NoMemory>
    ensures { IfOk result (λ changes. changes ≡ reindexing key before.now generations.now) }
{
    let mut changes = Listing::empty(alloc);
    add_takes(&mut changes, key, before)?;
    add_puts(&mut changes, key, generations)?;
    Ok(changes)
}

// The row loses these generations.
pub(crate) fn add_takes(
    changes: &mut IndexChanges,
    key: RowKey,
    generations: &[u64],
) -> Result<(), NoMemory>
    ensures { OnOk result (changes.new ≡ changes.old ++ map (take_entry key) generations.now) }
{
    for generation in generations {
        changes.push(Edit::Take(entry_behind(*generation, key)?))?;
    }
    Ok(())
}

// The row gains these generations.
fn add_puts(changes: &mut IndexChanges, key: RowKey, generations: &[u64]) -> Result<(), NoMemory>
    ensures { OnOk result (changes.new ≡ changes.old ++ map (put_entry key) generations.now) }
{
    for generation in generations {
        changes.push(Edit::Put(entry_behind(*generation, key)?, ()))?;
    }
    Ok(())
}
