//! Rows by generation.
ghost use Rattle.std.specs.Prelude.{◌≡◌, ◌+◌, ◌<◌, ◌≤◌, ◌^◌, ◌↔◌, ◌++◌, List, IfOk, IsOk, IsTrue, OnOk, OnErr, Contains, length, map, filter};
ghost use Rattle.std.specs.FinSet as set;
ghost use Rattle.std.specs.BTreeSet.{insert_key};
ghost use Rattle.std.specs.List.Sorted.{IsStrictlySortedBy};
ghost use Rattle.std.specs.Map.{keys_of};
ghost use Rattle.merge_types.specs.RowKeys.{key_cmp};
ghost use Rattle.merge_types.specs.declared.row_key.RowKey.{RowKey as OneRow};
ghost use Rattle.merge_table.specs.Contents.{has_room};
ghost use Rattle.merge_table.specs.Edits.{rows_after_all, slots_for_all, IsReady};
ghost use Rattle.merge_gens.specs.declared.index.IndexEntry.{IndexEntry as OneEntry};
ghost use Rattle.merge_gens.specs.Entries.{entry_cmp, entry_of, row_of, is_between};
ghost use Rattle.merge_gens.specs.Index.{AddsRowsBetween, AreFrom, IsCompact, entries_after_all};

use merge_table::{Edit, Rows, Table, TableKey};
use merge_types::{Exact, Listing, NoMemory, RowId, RowKey};
use std::alloc::Global;
use std::marker::Model;

/// A generation that a row has. Ordered by generation, then by row.
#[derive(Clone, Copy, Debug, PartialEq, Eq, PartialOrd, Ord)]
pub struct IndexEntry {
    pub generation: u64,
    pub key: RowKey,
}

impl Exact for IndexEntry {
    ghost use Rattle.std.proofs.Common.{rules};

    ghost exact = { Prim.search rules };
}

impl TableKey for IndexEntry {
    ghost use Rattle.std.proofs.Common.{rules};
    ghost use Rattle.merge_gens.specs.Entries.{entry_exact};

    ghost equal_is_same = { entry_exact };

    ghost clone_is_same = { Prim.search rules };
}

/// A change of an index.
pub type IndexChange = Edit<IndexEntry, ()>;

/// Changes of an index, in order.
pub type IndexChanges = Listing<IndexChange>;

/// Changes for which an index has taken the memory.
#[derive(Debug, Drop)]
pub struct IndexPlan {
    pub changes: IndexChanges,
}

/// A set of rows with generations, in which the rows of some generations are found without a look
/// at the others.
#[derive(Debug, Drop)]
pub struct GenerationIndex {
    entries: Table<IndexEntry, ()>,
}

impl Model for GenerationIndex {
    ghost use Rattle.std.specs.FinSet as set;
    ghost use Rattle.std.specs.List.Sorted.{IsStrictlySortedBy};
    ghost use Rattle.std.specs.Map.{keys_of};
    ghost use Rattle.merge_gens.specs.Entries.{entry_cmp};
    ghost use Rattle.merge_gens.specs.Index.{Index, index_code};

    ghost Value = { Index };

    ghost coded = { index_code };

    ghost view = { λ i. record { entries = set.from_list (keys_of i.entries.rows); slots = i.entries.slots } };

    ghost invariant = { λ i. IsStrictlySortedBy entry_cmp (keys_of i.entries.rows) };
}

impl GenerationIndex {
    /// No entry.
    pub fn new(alloc: Global) -> Self
        ensures entries { result.entries ≡ set.empty }
        ensures compact { IsCompact result }
    {
        GenerationIndex {
            entries: Table::new(alloc),
        }
    }

    /// Adds the generation of the row.
    pub fn put(&mut self, generation: u64, key: RowKey) -> Result<(), NoMemory>
        ensures ok { OnOk result (self.new.entries ≡ set.insert self.old.entries (entry_of generation key)) }
        ensures slots { OnOk result (self.new.slots ≡ insert_key entry_cmp self.old.slots (entry_of generation key)) }
        ensures err { OnErr result (self.new ≡ self.old) }

        // What takes no memory is not refused.
        ensures room { IsTrue (has_room entry_cmp self.old.slots (entry_of generation key)) → IsOk result }
    {
        self.entries.insert(IndexEntry { generation, key }, ())?;
        Ok(())
    }

    /// Takes the memory for several changes, and gives the plan. The index stays as it is, and keeps
    /// all memory that it had.
    pub fn prepare(&mut self, changes: IndexChanges) -> Result<IndexPlan, NoMemory>
        ensures plan { IfOk result (λ plan. plan.changes ≡ changes) }
        ensures ready { IfOk result (λ plan. IsReady entry_cmp self.new.slots plan.changes) }
        ensures slots { OnOk result (self.new.slots ≡ slots_for_all entry_cmp self.old.slots changes) }
        ensures same { self.new.entries ≡ self.old.entries }
        ensures kept { (entry : OneEntry) → IsTrue (has_room entry_cmp self.old.slots entry) → IsTrue (has_room entry_cmp self.new.slots entry) }

        // What takes no memory is not refused.
        ensures room { IsReady entry_cmp self.old.slots changes → IsOk result }
    {
        self.entries.prepare(changes.as_slice())?;
        Ok(IndexPlan { changes })
    }

    /// Makes the changes of a plan in their order. The memory for them is there still, as it is where
    /// nothing was settled since they were prepared. None is taken, and what is there for more than
    /// twice the entries goes back.
    pub fn settle(&mut self, plan: IndexPlan)
        requires { IsReady entry_cmp self.old.slots plan.changes }
        ensures entries { self.new.entries ≡ entries_after_all self.old.entries plan.changes }
        ensures compact { IsCompact self.new }
    {
        self.entries.apply_and_sweep(plan.changes.into_vec());
    }

    /// Adds the rows with a generation behind `from`, up to `to`, behind a list, which `sort_rows`
    /// brings in order once all are found. The time grows with these rows, and with the logarithm
    /// of all entries.
    pub fn between(&self, from: u64, to: u64, rows: &mut Vec<RowKey>) -> Result<(), NoMemory>
        ensures rows { OnOk result (AddsRowsBetween self.now.entries from to rows.old.items rows.new.items) }
        ensures err { OnErr result (rows.new.items ≡ rows.old.items) }
        ensures nothing { to ≤ from → IsOk result }
    {
        let found = rows.len();
        match add_rows_between(&self.entries, from, to, rows) {
            Ok(()) => Ok(()),
            Err(refused) => {
                rows.truncate(found);
                Err(refused)
            }
        }
    }

    /// The entries of a generation and of those behind it, in order. No memory is taken. The time
    /// grows with these entries, and with the logarithm of all.
    pub fn entries_from(&self, first: u64) -> Rows<'_, IndexEntry, ()>
        ensures entries { AreFrom self.now.entries first (keys_of result) }
        ensures fits { length result < 2 ^ 63 }
    {
        let first = IndexEntry {
            generation: first,
            key: RowKey {
                article: 0,
                row: RowId(0),
            },
        };
        self.entries.range(first..)
    }
}

/// Sorts rows by article and identifier, and leaves each once.
pub fn sort_rows(rows: &mut Vec<RowKey>)
    ensures ascending { IsStrictlySortedBy key_cmp rows.new.items }
    ensures same { (key : OneRow) → Contains rows.new.items key ↔ Contains rows.old.items key }
{
    rows.sort_unstable();
    rows.dedup();
}

// Adds the rows with a generation between, by generation.
fn add_rows_between(
    entries: &Table<IndexEntry, ()>,
    from: u64,
    to: u64,
    rows: &mut Vec<RowKey>,
) -> Result<(), NoMemory>
    requires { IsStrictlySortedBy entry_cmp (keys_of entries.now.rows) }
    ensures nothing { to ≤ from → IsOk result }
    ensures rows { OnOk result (rows.new.items ≡ rows.old.items ++ map row_of (filter (is_between from to) (keys_of entries.now.rows))) }
    ensures kept { (more : List OneRow) × (rows.new.items ≡ rows.old.items ++ more) }
{
    if from >= to {
        return Ok(());
    }
    let first = IndexEntry {
        generation: from + 1,
        key: RowKey {
            article: 0,
            row: RowId(0),
        },
    };
    for (entry, _) in entries.range(first..) {
        if entry.generation > to {
            return Ok(());
        }
        rows.push(entry.key)?;
    }
    Ok(())
}
