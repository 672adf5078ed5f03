//! The index.
ghost use Rattle.std.specs.Prelude.{◌≡◌, ◌↔◌, ◌<◌, ◌≤◌, ◌^◌, ◌*◌, [], length, IfOk, IsOk, IsTrue, OnOk, OnErr};
ghost use Rattle.std.specs.List.Sorted.{IsStrictlySortedBy};
ghost use Rattle.std.specs.Map.{keys_of};
ghost use Rattle.std.specs.BTreeMap.{is_at};
ghost use Rattle.std.specs.BTreeSet.{insert_key};
ghost use Rattle.std.specs.Set.{remove_key};
ghost use Rattle.merge_table.specs.Contents.{has_room};
ghost use Rattle.merge_table.specs.Edits.{IsReady, slots_for_all};
ghost use Rattle.merge_join.specs.Entries.{entry_cmp};
ghost use Rattle.merge_join.specs.Index.{of_value, set_after_all};
ghost use Rattle.merge_join.specs.declared.entry.JoinEntry.{JoinEntry as OneEntry};

use crate::{JoinChange, JoinEntry};
use merge_table::{Rows, Table};
use merge_types::{NoMemory, RowId, Value};
use std::alloc::Global;
use std::marker::Model;

/// A set of children, each with the value that it has by a join. The children of a value are
/// found without a look at the others.
///
/// Contracts see the entries, in order and each once, and those that the memory is there for.
///
/// A look-up and a change cost the logarithm of the number of entries.
#[derive(Debug, Drop)]
pub struct JoinIndex {
    entries: Table<JoinEntry, ()>,
}

impl Model for JoinIndex {
    ghost use Rattle.std.specs.Map.{keys_of};
    ghost use Rattle.merge_join.specs.Index.{Entries};

    ghost Value = { Entries };

    ghost view = { λ i. record { set = keys_of i.entries.rows; room = i.entries.slots } };
}

impl JoinIndex {
    /// No entry.
    pub fn new(alloc: Global) -> Self
        ensures set { result.set ≡ [] }
        ensures slots { result.room ≡ [] }
    {
        JoinIndex {
            entries: Table::new(alloc),
        }
    }

    /// Tells that the entries are in order. It does nothing.
    pub fn is_ordered(&self)
        ensures { IsStrictlySortedBy entry_cmp self.now.set }
    {
        self.entries.is_ordered();
    }

    /// How many entries there are, known without a walk.
    pub fn len(&self) -> usize
        ensures { result ≡ length self.now.set }
    {
        self.entries.len()
    }

    /// Whether there is no entry.
    pub fn is_empty(&self) -> bool
        ensures { IsTrue result ↔ (self.now.set ≡ []) }
    {
        self.len() == 0
    }

    /// All entries, in order.
    pub fn iter(&self) -> Rows<'_, JoinEntry, ()>
        ensures { keys_of result ≡ self.now.set }
    {
        self.entries.iter()
    }

    /// The entries of the value by the join, by child. Memory is taken for two copies of the value.
    pub fn children_of(
        &self,
        join: usize,
        value: &Value,
    ) -> Result<Rows<'_, JoinEntry, ()>, NoMemory>
        requires { join < 2 ^ 63 }
        ensures { IfOk result (λ rows. keys_of rows ≡ of_value self.now.set join value.now) }
    {
        let first = first_of(join, value)?;
        let behind = first_of(join + 1, value)?;
        Ok(self.entries.range(first..behind))
    }

    /// Puts the entry in, whether it is there or not.
    pub fn insert(&mut self, entry: JoinEntry) -> Result<(), NoMemory>
        ensures ok { OnOk result (self.new.set ≡ insert_key entry_cmp self.old.set entry) }
        ensures slots { OnOk result (self.new.room ≡ insert_key entry_cmp self.old.room entry) }
        ensures err { OnErr result (self.new ≡ self.old) }

        // What takes no memory is not refused.
        ensures room { IsTrue (has_room entry_cmp self.old.room entry) → IsOk result }
    {
        self.entries.insert(entry, ())?;
        Ok(())
    }

    /// Takes the entry out, where it is there, and its room.
    pub fn remove(&mut self, entry: &JoinEntry)
        ensures set { self.new.set ≡ remove_key (is_at (entry_cmp entry.now)) self.old.set }
        ensures slots { self.new.room ≡ remove_key (is_at (entry_cmp entry.now)) self.old.room }
    {
        self.entries.remove(entry);
    }

    /// Takes the memory for several changes. The entries stay as they are. After a refusal, room that
    /// was made stays as room.
    pub fn prepare(&mut self, changes: &[JoinChange]) -> Result<(), NoMemory>
        ensures same { self.new.set ≡ self.old.set }
        ensures ready { OnOk result (IsReady entry_cmp self.new.room changes.now) }
        ensures slots { OnOk result (self.new.room ≡ slots_for_all entry_cmp self.old.room changes.now) }
        ensures kept { (entry : OneEntry) → IsTrue (has_room entry_cmp self.old.room entry) → IsTrue (has_room entry_cmp self.new.room entry) }

        // What takes no memory is not refused.
        ensures room { IsReady entry_cmp self.old.room changes.now → IsOk result }
    {
        self.entries.prepare(changes)?;
        Ok(())
    }

    /// Lets go of the room that has no entry, where it is the most.
    pub fn sweep_if_due(&mut self)
        ensures set { self.new.set ≡ self.old.set }
        ensures spare { length self.new.room ≤ 2 * length self.new.set }
    {
        self.entries.sweep_if_due();
    }

    /// Makes the changes in their order. No memory is taken, and spare memory goes back once it is
    /// the most.
    pub fn settle(&mut self, changes: Vec<JoinChange>)
        requires { IsReady entry_cmp self.old.room changes.items }
        ensures entries { self.new.set ≡ set_after_all self.old.set changes.items }
        ensures spare { length self.new.room ≤ 2 * length self.new.set }
    {
        self.entries.apply_and_sweep(changes);
    }
}

// What stands before all entries of the value by the join.
fn first_of(join: usize, value: &Value) -> Result<JoinEntry, NoMemory>
    ensures { IfOk result (λ entry. entry ≡ record { value = value.now; join = join; child = record { 0 = 0 } }) }
{
    Ok(JoinEntry {
        value: value.clone()?,
        join,
        child: RowId(0),
    })
}
