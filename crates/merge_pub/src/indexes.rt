//! What finds the rows and the mappings of a store.
ghost use Rattle.std.specs.Prelude.{◌≡◌, ℕ, All, IfOk, [], map};
ghost use Rattle.std.specs.FinSet as set;
ghost use Rattle.std.specs.List.Sorted.{IsStrictlySortedBy};
ghost use Rattle.std.specs.Map.{keys_of};
ghost use Rattle.merge_types.specs.RowKeys.{key_cmp};
ghost use Rattle.merge_table.specs.Edits.{rows_after_all};
ghost use Rattle.merge_gens.specs.Index.{entries_after_all};
ghost use Rattle.merge_gens.specs.Moves.{row_site_cmp};
ghost use Rattle.merge_schema.specs.Valid.{IsValid};
ghost use Rattle.merge_part.specs.Taking.{FitsArticle};
ghost use Rattle.merge_part.specs.View.{live_in};
ghost use Rattle.merge_steps.specs.LiveRows.{live_pairs};
ghost use Rattle.merge_steps.specs.MoveEntries.{move_entry_cmp};
ghost use Rattle.merge_pub.specs.Restoring.{AreIndexesOf, changed_put, moved_put, versions_of};
ghost use Rattle.merge_steps.specs.Working.{row_change};

use merge_gens::{GenerationIndex, Mapping, RowSite};
use merge_part::{Membership, RowChange};
use merge_schema::Publication;
use merge_steps::{MoveEntry, live_values, move_entry};
use merge_table::Table;
use merge_types::{Listing, NoMemory, RowKey, Steps};
use merge_units::PublisherRow;
use std::alloc::Global;
use std::sync::ledger::Ledger;

// The partitions, the rows by the generations of their last changes, and each site's mappings by theirs.
#[derive(Drop)]
pub(crate) struct Indexes {
    pub(crate) membership: Membership,
    pub(crate) changed: GenerationIndex,
    pub(crate) moved: Table<MoveEntry, ()>,
}

// What finds these rows and mappings.
pub(crate) fn indexes_of<L: Ledger>(
    alloc: Global,
    publication: &Publication,
    rows: &[(RowKey, PublisherRow)],
    mappings: &[(RowSite, Mapping)],
    steps: &mut Steps<L>,
) -> Result<Indexes, NoMemory>
    requires valid { (resolvers : ℕ) × IsValid resolvers publication.now }
    requires rows { IsStrictlySortedBy key_cmp (keys_of rows.now) }
    requires mappings { IsStrictlySortedBy row_site_cmp (keys_of mappings.now) }
    requires fits { All (FitsArticle publication.now) (map row_change (versions_of rows.now)) }
    ensures { IfOk result (λ indexes. AreIndexesOf publication.now rows.now mappings.now indexes) }
{
    let membership = membership_of(alloc, publication, rows, steps)?;
    let changed = changed_by(alloc, rows)?;
    let moved = moved_by(alloc, mappings)?;
    Ok(Indexes {
        membership,
        changed,
        moved,
    })
}

// The changes by which the rows come in.
fn changes_of(
    alloc: Global,
    rows: &[(RowKey, PublisherRow)],
) -> Result<Listing<RowChange>, NoMemory>
    ensures { IfOk result (λ changes. changes ≡ map row_change (versions_of rows.now)) }
{
    let mut changes = Listing::empty(alloc);
    for (key, row) in rows {
        let new = live_values(alloc, &row.version.body)?;
        changes.push(RowChange {
            article: key.article,
            row: key.row,
            new,
        })?;
    }
    Ok(changes)
}

// The partitions of these rows.
fn membership_of<L: Ledger>(
    alloc: Global,
    publication: &Publication,
    rows: &[(RowKey, PublisherRow)],
    steps: &mut Steps<L>,
) -> Result<Membership, NoMemory>
    requires valid { (resolvers : ℕ) × IsValid resolvers publication.now }
    requires ascending { IsStrictlySortedBy key_cmp (keys_of rows.now) }
    requires fits { All (FitsArticle publication.now) (map row_change (versions_of rows.now)) }
    ensures publication { IfOk result (λ membership. membership.publication ≡ publication.now) }
    ensures live { IfOk result (λ membership. live_in membership ≡ live_pairs rows.now) }
{
    let mut membership = Membership::new(alloc, publication)?;
    let changes = changes_of(alloc, rows)?;
    let (_, plan) = membership.prepare(changes.as_slice(), steps)?;
    membership.make(plan);
    Ok(membership)
}

// The rows by the generations of their last changes.
fn changed_by(alloc: Global, rows: &[(RowKey, PublisherRow)]) -> Result<GenerationIndex, NoMemory>
    ensures { IfOk result (λ index. index.entries ≡ entries_after_all set.empty (map changed_put rows.now)) }
{
    let mut index = GenerationIndex::new(alloc);
    for (key, row) in rows {
        index.put(row.changed, *key)?;
    }
    Ok(index)
}

// The mappings of each site by generation.
fn moved_by(
    alloc: Global,
    mappings: &[(RowSite, Mapping)],
) -> Result<Table<MoveEntry, ()>, NoMemory>
    ensures { IfOk result (λ table. table.rows ≡ rows_after_all move_entry_cmp [] (map moved_put mappings.now)) }
{
    let mut table = Table::new(alloc);
    for (place, mapping) in mappings {
        table.insert(move_entry(*place, mapping.generation), ())?;
    }
    Ok(table)
}
