//! Tables as they were kept.
ghost use Rattle.std.specs.List.Sorted.{IsStrictlySortedBy};
ghost use Rattle.std.specs.Map.{keys_of};
ghost use Rattle.std.specs.Prelude.{◌≡◌, IfOk};

use merge_table::{Table, TableKey};
use merge_types::{Listing, NoMemory};
use std::alloc::Global;

/// The table of these rows, which stand in the order of their keys.
pub fn table_of<K: TableKey, V: Drop>(
    alloc: Global,
    rows: Listing<(K, V)>,
) -> Result<Table<K, V>, NoMemory>
    requires { IsStrictlySortedBy K.cmp (keys_of rows) }
    ensures { IfOk result (λ table. table.rows ≡ rows) }
{
    let mut table = Table::new(alloc);
    for (key, row) in rows.into_vec() {
        table.insert(key, row)?;
    }
    Ok(table)
}
