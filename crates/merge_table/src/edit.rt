//! Changes of a table, one at a time and all of a step at once.
ghost use Rattle.std.specs.Prelude.{◌≡◌, ◌<◌, ◌≤◌, ◌*◌, ℕ, true, length, take, IsTrue, IsOk, OnOk, OnErr};
ghost use Rattle.std.specs.Map.{keys_of};
ghost use Rattle.merge_table.specs.Contents.{has_room};
ghost use Rattle.merge_table.specs.Edits.{rows_after, rows_after_all, slots_for, slots_for_all, is_ready, IsReady};

use crate::{Table, TableKey};
use std::alloc::AllocError;

/// A change of the row at one key.
#[derive(Debug, Drop)]
pub enum Edit<K, V> {
    /// The row becomes this one, whether there was one or not.
    Put(K, V),
    /// There is no row any more.
    Take(K),
}

impl<K: TableKey, V: Drop> Table<K, V> {
    /// Makes one change.
    pub fn edit(&mut self, edit: Edit<K, V>)
        requires { is_ready K.cmp self.old.slots edit ≡ true }
        ensures rows { self.new.rows ≡ rows_after K.cmp self.old.rows edit }
        ensures slots { self.new.slots ≡ self.old.slots }
    {
        match edit {
            Edit::Put(key, row) => {
                self.put(&key, row);
            }
            Edit::Take(key) => {
                self.take(&key);
            }
        }
    }

    /// Takes the memory that the change needs, and does not make it.
    pub fn make_room_for(&mut self, edit: &Edit<K, V>) -> Result<(), AllocError>
        ensures rows { self.new.rows ≡ self.old.rows }
        ensures ok { OnOk result (self.new.slots ≡ slots_for K.cmp self.old.slots edit.now) }
        ensures room { OnOk result (is_ready K.cmp self.new.slots edit.now ≡ true) }
        ensures kept { (key : K) → IsTrue (has_room K.cmp self.old.slots key) → IsTrue (has_room K.cmp self.new.slots key) }
        ensures err { OnErr result (self.new ≡ self.old) }
        ensures succeeds { is_ready K.cmp self.old.slots edit.now ≡ true → IsOk result }
    {
        let Edit::Put(key, _) = edit else {
            return Ok(());
        };
        if self.has_room(key) {
            return Ok(());
        }
        self.add_slot(key.clone()?)
    }

    /// Takes all memory that the changes need, and makes none of them.
    ///
    /// After a refusal, the room that was made for the first of them stays as room.
    #[tactic(auto, unfolding(crate::specs::Edits::IsReady))]
    pub fn prepare(&mut self, edits: &[Edit<K, V>]) -> Result<(), AllocError>
        ensures rows { self.new.rows ≡ self.old.rows }
        ensures ok { OnOk result (self.new.slots ≡ slots_for_all K.cmp self.old.slots edits.now) }
        ensures ready { OnOk result (IsReady K.cmp self.new.slots edits.now) }
        ensures kept { (key : K) → IsTrue (has_room K.cmp self.old.slots key) → IsTrue (has_room K.cmp self.new.slots key) }
        ensures succeeds { IsReady K.cmp self.old.slots edits.now → IsOk result }
        ensures refused { OnErr result ((n : ℕ) × (self.new.slots ≡ slots_for_all K.cmp self.old.slots (take n edits.now))) }
    {
        for edit in edits {
            self.make_room_for(edit)?;
        }
        Ok(())
    }

    /// Makes the changes in their order. It takes no memory, so it cannot be refused.
    #[tactic(auto, unfolding(crate::specs::Edits::IsReady))]
    pub fn apply(&mut self, edits: Vec<Edit<K, V>>)
        requires { IsReady K.cmp self.old.slots edits.items }
        ensures rows { self.new.rows ≡ rows_after_all K.cmp self.old.rows edits.items }
        ensures slots { self.new.slots ≡ self.old.slots }
    {
        for edit in edits {
            self.edit(edit);
        }
    }

    /// The same, and lets go of all room where it is the most.
    pub fn apply_and_sweep(&mut self, edits: Vec<Edit<K, V>>)
        requires { IsReady K.cmp self.old.slots edits.items }
        ensures rows { self.new.rows ≡ rows_after_all K.cmp self.old.rows edits.items }
        ensures spare { length self.new.slots ≤ 2 * length self.new.rows }
        ensures early { length self.old.slots ≤ 2 * length self.new.rows → self.new.slots ≡ self.old.slots }
        ensures due { 2 * length self.new.rows < length self.old.slots → self.new.slots ≡ keys_of self.new.rows }
    {
        self.apply(edits);
        self.sweep_if_due();
    }
}
