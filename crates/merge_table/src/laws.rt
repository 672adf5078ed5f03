//! What the words of the contracts come to, at every table.
ghost use Rattle.std.specs.Prelude.{◌≡◌, if◌then◌else◌};
ghost use Rattle.std.specs.Map.{lookup};
ghost use Rattle.std.specs.BTreeMap.{is_at};
ghost use Rattle.merge_table.specs.Edits.{rows_after, key_of, row_of};

use crate::{Edit, Table, TableKey};

/// After a change a look-up finds at its key what the change leaves there, and at each other key
/// what was there before.
pub fn look_ups_after<K: TableKey, V: Drop>(table: &Table<K, V>, edit: &Edit<K, V>)
    ensures { (q : K) → lookup (is_at (K.cmp q)) (rows_after K.cmp table.now.rows edit.now)
        ≡ (if is_at (K.cmp q) (key_of edit.now) then row_of edit.now else lookup (is_at (K.cmp q)) table.now.rows) }
{
    let _ = table.iter();
    let _ = edit;
}

/// A table's rows are what its look-ups find: where these agree, so do the rows and their order.
pub fn rows_from_look_ups<K: TableKey, V: Drop>(one: &Table<K, V>, other: &Table<K, V>)
    ensures { ((q : K) → lookup (is_at (K.cmp q)) one.now.rows ≡ lookup (is_at (K.cmp q)) other.now.rows)
        → one.now.rows ≡ other.now.rows }
{
    let _ = one.iter();
    let _ = other.iter();
}
