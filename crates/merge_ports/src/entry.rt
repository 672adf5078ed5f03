//! Entries of a store, and edits of them.
ghost use Rattle.std.specs.Prelude.{◌≡◌, ◌<◌, ◌^◌, [], OnOk, OnErr, length};
ghost use Rattle.std.specs.List.Sorted.{IsStrictlySortedBy};
ghost use Rattle.std.specs.Map.{keys_of};
ghost use Rattle.std.specs.BTreeMap.{insert_entry};
ghost use Rattle.merge_ports.specs.Entries.{entry_cmp};

use merge_table::{Rows, Table, TableKey};
use merge_types::{Exact, NoMemory, Octets};
use std::alloc::{AllocError, Global};
use std::cmp::Ordering;
use std::marker::Model;

/// Where an entry stands: the number of its table, and the bytes of its key there. Entries are
/// ordered by table, then by the bytes of their keys.
#[derive(Debug, Drop)]
pub struct EntryKey {
    pub table: u8,
    pub key: Octets,
}

/// A change of one entry: it gets a value, or with none it is taken away.
#[derive(Debug, Drop)]
pub struct EntryEdit {
    pub table: u8,
    pub key: Octets,
    pub value: Option<Octets>,
}

impl Clone for EntryKey {
    ghost use Rattle.std.specs.Prelude.{◌≡◌};

    ghost is_clone = { λ old new. new ≡ old };

    fn clone(&self) -> Result<EntryKey, AllocError> {
        Ok(EntryKey {
            table: self.table,
            key: self.key.clone()?,
        })
    }
}

impl Exact for EntryKey {
    ghost exact = { λ value copy same. same };
}

impl PartialEq for EntryKey {
    ghost use Rattle.std.specs.Prelude.{nat_eq};
    ghost use Rattle.std.specs.Ordering.{on, eq_of_both};
    ghost use Rattle.std.specs.Cmp.{partial_equiv_from_equiv, and_equiv, on_equiv, nat_eq_equiv};
    ghost use Rattle.std.specs.Cmp.Lexicographic.{pointwise, lists_equiv};

    ghost eq = { eq_of_both (on (λ k. k.table) nat_eq) (on (λ k. k.key) (pointwise nat_eq)) };

    ghost laws = { partial_equiv_from_equiv (and_equiv (on_equiv (λ k. k.table) nat_eq_equiv) (on_equiv (λ k. k.key) (lists_equiv nat_eq_equiv))) };

    fn eq(&self, other: &EntryKey) -> bool {
        self.table == other.table && self.key == other.key
    }
}

impl Eq for EntryKey {
    ghost use Rattle.std.specs.Cmp.{and_equiv, on_equiv, nat_eq_equiv};
    ghost use Rattle.std.specs.Cmp.Lexicographic.{lists_equiv};

    ghost laws = { and_equiv (on_equiv (λ k. k.table) nat_eq_equiv) (on_equiv (λ k. k.key) (lists_equiv nat_eq_equiv)) };
}

impl Ord for EntryKey {
    ghost use Rattle.std.proofs.Common.{rules};
    ghost use Rattle.std.specs.Ordering.{nat_cmp};
    ghost use Rattle.std.specs.Cmp.{then_total, on_total, nat_cmp_total};
    ghost use Rattle.std.specs.Cmp.Lexicographic.{nat_list_cmp_total};
    ghost use Rattle.std.specs.Cmp.Rules.{comparing};
    ghost use Rattle.merge_ports.specs.Entries.{entry_cmp, entry_ties};

    ghost cmp = { entry_cmp };

    ghost total = { then_total (on_total (λ k. k.table) nat_cmp_total) (on_total (λ k. k.key) nat_list_cmp_total) };

    ghost matches_partial_cmp = { Prim.search (comparing, rules) };

    ghost matches_eq = { entry_ties };

    fn cmp(&self, other: &EntryKey) -> Ordering {
        // Bytes are compared only where the tables are the same.
        match self.table.cmp(&other.table) {
            Ordering::Equal => self.key.as_slice().cmp(other.key.as_slice()),
            tables => tables,
        }
    }
}

impl PartialOrd for EntryKey {
    ghost use Rattle.std.specs.Prelude.{Some, refl};
    ghost use Rattle.std.specs.Cmp.{partial_order_from_agreeing_total, then_total, on_total, nat_cmp_total};
    ghost use Rattle.std.specs.Cmp.Lexicographic.{nat_list_cmp_total};
    ghost use Rattle.merge_ports.specs.Entries.{entry_cmp, entry_ties};

    ghost partial_cmp = { λ x y. Some (entry_cmp x y) };

    ghost laws = { partial_order_from_agreeing_total entry_cmp (then_total (on_total (λ k. k.table) nat_cmp_total) (on_total (λ k. k.key) nat_list_cmp_total)) (λ x y. refl) entry_ties };

    fn partial_cmp(&self, other: &EntryKey) -> Option<Ordering> {
        Some(self.cmp(other))
    }
}

impl TableKey for EntryKey {
    ghost use Rattle.merge_ports.specs.Entries.{entry_exact};

    ghost equal_is_same = { entry_exact };

    ghost clone_is_same = { λ old new same. same };
}

/// The entries of a store, by table and then by key.
#[derive(Debug, Drop)]
pub struct Entries {
    table: Table<EntryKey, Octets>,
}

impl Model for Entries {
    ghost use Rattle.merge_ports.specs.Entries.{Map};

    ghost Value = { Map };

    ghost view = { λ e. e.table.rows };
}

impl Entries {
    /// No entries.
    pub fn empty(alloc: Global) -> Self
        ensures { result ≡ [] }
    {
        Entries {
            table: Table::new(alloc),
        }
    }

    /// The entries of a table, with no memory taken.
    pub fn of(table: Table<EntryKey, Octets>) -> Self
        ensures { result ≡ table.rows }
    {
        Entries { table }
    }

    /// The table of the entries, with no memory taken.
    pub fn into_table(self) -> Table<EntryKey, Octets>
        ensures { result.rows ≡ self }
    {
        self.table
    }

    /// Adds an entry, in the place of the one with its key.
    pub fn insert(&mut self, key: EntryKey, value: Octets) -> Result<(), NoMemory>
        ensures ok { OnOk result (self.new ≡ insert_entry entry_cmp self.old key value) }
        ensures err { OnErr result (self.new ≡ self.old) }
    {
        self.table.insert(key, value)?;
        Ok(())
    }

    /// The entries in order.
    pub fn iter(&self) -> Rows<'_, EntryKey, Octets>
        ensures entries { result ≡ self.now }
        ensures ordered { IsStrictlySortedBy entry_cmp (keys_of self.now) }
        ensures fits { length result < 2 ^ 63 }
    {
        self.table.iter()
    }

    /// How many entries there are.
    pub fn len(&self) -> usize
        ensures { result ≡ length self.now }
    {
        self.table.len()
    }
}
