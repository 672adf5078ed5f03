//! Which rows a table is to keep.
ghost use Rattle.std.specs.Prelude.{◌≡◌, [], IfOk, IsOk, filter};
ghost use Rattle.merge_table.specs.Edits.{takes_of, rows_after_all, IsReady};

use crate::{Edit, Table, TableKey};
use std::alloc::{AllocError, Global};

/// A test of rows.
pub trait RowTest<K, V> {
    ghost use Rattle.std.specs.Prelude.{◌≡◌, Bool};

    ghost passes: { Self → K × V → Bool };

    /// Whether the row at the key passes.
    fn passes(&self, key: &K, row: &V) -> bool
        ensures { result ≡ passes self.now (key.now, row.now) };
}

impl<K: TableKey, V: Drop> Table<K, V> {
    /// The changes that take each row out that does not pass the test, in the order of their keys.
    /// They need no room, and after them exactly the rows that pass are left.
    pub fn takes<T: RowTest<K, V>>(
        &self,
        alloc: Global,
        test: &T,
    ) -> Result<Vec<Edit<K, V>>, AllocError>
        ensures takes { IfOk result (λ edits. edits.items ≡ takes_of (T.passes test.now) self.now.rows) }
        ensures nothing { takes_of (T.passes test.now) self.now.rows ≡ [] → IsOk result }
        ensures ready { IfOk result (λ edits. IsReady K.cmp self.now.slots edits.items) }
        ensures left { IfOk result (λ edits. rows_after_all K.cmp self.now.rows edits.items ≡ filter (T.passes test.now) self.now.rows) }
    {
        let mut edits = Vec::new(alloc);
        for (key, row) in self.iter() {
            if !test.passes(key, row) {
                edits.push(Edit::Take(key.clone()?))?;
            }
        }
        Ok(edits)
    }
}
