//! The table.
ghost use Rattle.std.specs.Prelude.{◌≡◌, ◌↔◌, ◌+◌, ◌*◌, ◌<◌, ◌≤◌, ◌^◌, false, true, [], IsTrue, IsOk, IfOk, OnOk, OnErr, OnSome, is_some, length, filter, option_copied};
ghost use Rattle.std.specs.Option.{option_flatten};
ghost use Rattle.std.specs.List.{All};
ghost use Rattle.std.specs.Map.{lookup, set_value, remove_entry, keys_of};
ghost use Rattle.std.specs.Set.{remove_key};
ghost use Rattle.std.specs.BTreeMap.{is_at, insert_entry};
ghost use Rattle.std.specs.BTreeMap.Range.{IsLeBy, IsLtBy, entries_between};
ghost use Rattle.std.specs.BTreeSet.{insert_key};
ghost use Rattle.std.specs.List.Sorted.{IsStrictlySortedBy};
ghost use Rattle.merge_table.specs.Contents.{count_of, has_room};

use crate::{Rows, TableKey};
use merge_types::Exact;
use std::alloc::{AllocError, Global};
use std::collections::BTreeMap;
use std::marker::Model;
use std::mem;
use std::ops::RangeBounds;

/// A table whose rows stand in the order of their keys.
///
/// Contracts see its `rows`, and its `slots`: the keys that have a slot, with a row or without.
/// A type that shows its table as the `rows` alone shows nothing of its room.
///
/// A look-up and a change at one key cost the logarithm of the number of slots, which is measured
/// and not proved.
#[derive(Debug, Drop)]
pub struct Table<K: TableKey, V: Drop> {
    slots: BTreeMap<K, Option<V>>,
    held: usize,
}

impl<K: TableKey, V: Drop> Model for Table<K, V> {
    ghost use Rattle.merge_table.specs.Contents.{Contents, contents_of, IsSound};

    ghost Value = { Contents K V };

    ghost view = { λ t. contents_of t.slots.entries };

    ghost invariant = { λ t. IsSound K.cmp t.slots.entries t.held };
}

impl<K: TableKey, V: Drop> Table<K, V> {
    /// No rows and no room.
    pub fn new(alloc: Global) -> Self
        ensures rows { result.rows ≡ [] }
        ensures slots { result.slots ≡ [] }
    {
        Table {
            slots: BTreeMap::new(alloc),
            held: 0,
        }
    }

    /// How many rows there are, known without a walk.
    pub fn len(&self) -> usize
        ensures { result ≡ length self.now.rows }
    {
        self.held
    }

    /// How many slots are without a row, known without a walk.
    pub fn spare(&self) -> usize
        ensures { result + length self.now.rows ≡ length self.now.slots }
    {
        self.slots.len() - self.held
    }

    /// Whether there are no rows.
    pub fn is_empty(&self) -> bool
        ensures { IsTrue result ↔ (self.now.rows ≡ []) }
    {
        self.held == 0
    }

    /// That the rows stand in the order of their keys, each in its slot. It is a fact for proofs,
    /// and does nothing.
    pub fn is_ordered(&self)
        ensures rows { IsStrictlySortedBy K.cmp (keys_of self.now.rows) }
        ensures slots { IsStrictlySortedBy K.cmp self.now.slots }
        ensures room { All (λ row. IsTrue (has_room K.cmp self.now.slots row.0)) self.now.rows }
    {
        let _ = &self.held;
    }

    /// The row at the key.
    pub fn get(&self, key: &K) -> Option<&V>
        ensures row { option_copied result ≡ lookup (is_at (K.cmp key.now)) self.now.rows }
        ensures room { OnSome result (IsTrue (has_room K.cmp self.now.slots key.now)) }
        ensures ordered { IsStrictlySortedBy K.cmp (keys_of self.now.rows) }
    {
        match self.slots.get(key) {
            Some(slot) => slot.as_ref(),
            None => None,
        }
    }

    /// Whether the key has a slot.
    pub fn has_room(&self, key: &K) -> bool
        ensures room { result ≡ has_room K.cmp self.now.slots key.now }
        ensures ordered { IsStrictlySortedBy K.cmp self.now.slots }
        ensures rows { All (λ row. IsTrue (has_room K.cmp self.now.slots row.0)) self.now.rows }
    {
        self.slots.contains_key(key)
    }

    /// The rows in the order of their keys.
    pub fn iter(&self) -> Rows<'_, K, V>
        ensures rows { result ≡ self.now.rows }
        ensures ordered { IsStrictlySortedBy K.cmp (keys_of self.now.rows) }
        ensures fits { length result < 2 ^ 63 }
    {
        Rows {
            slots: self.slots.range(..),
        }
    }

    /// The rows whose keys lie in the range, in the order of their keys.
    pub fn range<R: RangeBounds<K> + Drop>(&self, keys: R) -> Rows<'_, K, V>
        requires { R.is_forward keys (IsLeBy K.cmp) (IsLtBy K.cmp) }
        ensures between { R.has_bounds keys → result ≡ entries_between K.cmp (R.start_bound keys) (R.end_bound keys) self.now.rows }
        ensures ordered { IsStrictlySortedBy K.cmp (keys_of self.now.rows) }
        ensures fits { length result < 2 ^ 63 }
    {
        Rows {
            slots: self.slots.range(keys),
        }
    }

    /// Makes a slot for the key, where it has none.
    pub fn make_room(&mut self, key: K) -> Result<(), AllocError>
        ensures rows { self.new.rows ≡ self.old.rows }
        ensures ok { OnOk result (self.new.slots ≡ insert_key K.cmp self.old.slots key) }
        ensures room { OnOk result (IsTrue (has_room K.cmp self.new.slots key)) }
        ensures kept { (q : K) → IsTrue (has_room K.cmp self.old.slots q) → IsTrue (has_room K.cmp self.new.slots q) }
        ensures err { OnErr result (self.new ≡ self.old) }
        ensures succeeds { IsTrue (has_room K.cmp self.old.slots key) → IsOk result }
    {
        if self.slots.contains_key(&key) {
            return Ok(());
        }
        self.add_slot(key)
    }

    /// Makes a slot for a key that has none.
    pub(crate) fn add_slot(&mut self, key: K) -> Result<(), AllocError>
        requires { has_room K.cmp self.old.slots key ≡ false }
        ensures rows { self.new.rows ≡ self.old.rows }
        ensures ok { OnOk result (self.new.slots ≡ insert_key K.cmp self.old.slots key) }
        ensures room { OnOk result (IsTrue (has_room K.cmp self.new.slots key)) }
        ensures kept { (q : K) → IsTrue (has_room K.cmp self.old.slots q) → IsTrue (has_room K.cmp self.new.slots q) }
        ensures err { OnErr result (self.new ≡ self.old) }
    {
        self.slots.insert(key, None)?;
        Ok(())
    }

    /// Puts the row into the key's slot, and answers the one that was there.
    pub fn put(&mut self, key: &K, row: V) -> Option<V>
        requires { IsTrue (has_room K.cmp self.old.slots key.now) }
        ensures old { result ≡ lookup (is_at (K.cmp key.now)) self.old.rows }
        ensures rows { self.new.rows ≡ insert_entry K.cmp self.old.rows key.now row }
        ensures slots { self.new.slots ≡ self.old.slots }
    {
        prove!(self.held <= self.slots.len());
        let old = swap(&mut self.slots, key, Some(row));
        self.held = self.held + 1 - rows_in(&old);
        old
    }

    /// Puts the row at the key, with room made for it first, and answers the one that was there.
    pub fn insert(&mut self, key: K, row: V) -> Result<Option<V>, AllocError>
        ensures old { IfOk result (λ old. old ≡ lookup (is_at (K.cmp key)) self.old.rows) }
        ensures rows { OnOk result (self.new.rows ≡ insert_entry K.cmp self.old.rows key row) }
        ensures slots { OnOk result (self.new.slots ≡ insert_key K.cmp self.old.slots key) }
        ensures err { OnErr result (self.new ≡ self.old) }
        ensures succeeds { IsTrue (has_room K.cmp self.old.slots key) → IsOk result }
    {
        prove!(self.held <= self.slots.len());
        let before = self.slots.insert(key, Some(row))?.flatten();
        self.held = self.held + 1 - rows_in(&before);
        Ok(before)
    }

    /// Takes the row at the key out, and leaves its slot as room.
    pub fn take(&mut self, key: &K) -> Option<V>
        ensures old { result ≡ lookup (is_at (K.cmp key.now)) self.old.rows }
        ensures rows { self.new.rows ≡ remove_entry (is_at (K.cmp key.now)) self.old.rows }
        ensures slots { self.new.slots ≡ self.old.slots }
    {
        let row = swap(&mut self.slots, key, None);
        self.held -= rows_in(&row);
        row
    }

    /// Takes the row at the key out, and its slot too.
    pub fn remove(&mut self, key: &K) -> Option<V>
        ensures old { result ≡ lookup (is_at (K.cmp key.now)) self.old.rows }
        ensures rows { self.new.rows ≡ remove_entry (is_at (K.cmp key.now)) self.old.rows }
        ensures slots { self.new.slots ≡ remove_key (is_at (K.cmp key.now)) self.old.slots }
    {
        let old = self.slots.remove(key).flatten();
        self.held -= rows_in(&old);
        old
    }

    /// Lets go of each slot that has no row.
    ///
    /// It goes over all slots, so it is for when `spare` has grown past `len`.
    pub fn sweep(&mut self)
        ensures rows { self.new.rows ≡ self.old.rows }
        ensures slots { self.new.slots ≡ keys_of self.old.rows }
    {
        drop_room(&mut self.slots);
    }

    /// Lets go of the slots that have no row where these are the most, so that a table is never more
    /// than half room. Where they are not, it keeps all slots: each sweep is paid for by the changes
    /// that made it due.
    pub fn sweep_if_due(&mut self)
        ensures rows { self.new.rows ≡ self.old.rows }
        ensures spare { length self.new.slots ≤ 2 * length self.new.rows }
        ensures early { length self.old.slots ≤ 2 * length self.old.rows → self.new.slots ≡ self.old.slots }
        ensures due { 2 * length self.old.rows < length self.old.slots → self.new.slots ≡ keys_of self.old.rows }
    {
        if self.spare() > self.len() {
            self.sweep();
        }
    }
}

/// A copy has the same rows and the same room.
impl<K: TableKey, V: Exact + Drop> Clone for Table<K, V> {
    ghost use Rattle.std.specs.Prelude.{◌≡◌};

    ghost is_clone = { λ old new. new ≡ old };

    fn clone(&self) -> Result<Table<K, V>, AllocError> {
        Ok(Table {
            slots: self.slots.clone()?,
            held: self.held,
        })
    }
}

impl<K: TableKey, V: Exact + Drop> Exact for Table<K, V> {
    ghost exact = { λ value copy same. same };
}

// Puts the value into the key's slot, if it has one, and answers the row that was there.
fn swap<K: Ord, V: Drop>(slots: &mut BTreeMap<K, Option<V>>, key: &K, value: Option<V>) -> Option<V>
    ensures old { result ≡ option_flatten (lookup (is_at (K.cmp key.now)) slots.old.entries) }
    ensures entries { slots.new.entries ≡ set_value (is_at (K.cmp key.now)) slots.old.entries value }
    ensures ordered { IsStrictlySortedBy K.cmp (keys_of slots.new.entries) }
{
    match slots.get_mut(key) {
        Some(slot) => mem::replace(slot, value),
        None => None,
    }
}

// Drops the slots that have no row.
fn drop_room<K: Ord + Drop, V: Drop>(slots: &mut BTreeMap<K, Option<V>>)
    ensures entries { slots.new.entries ≡ filter (λ e. is_some e.1) slots.old.entries }
    ensures ordered { IsStrictlySortedBy K.cmp (keys_of slots.new.entries) }
{
    slots.retain(|_, slot| slot.is_some());
}

// How many rows the slot has.
fn rows_in<V>(slot: &Option<V>) -> usize
    ensures { result ≡ count_of slot.now }
{
    match slot {
        Some(_) => 1,
        None => 0,
    }
}
