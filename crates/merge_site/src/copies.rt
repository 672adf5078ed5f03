//! Copies of changes.
ghost use Rattle.std.specs.Prelude.{◌≡◌, IfOk};

use merge_table::Edit;
use merge_types::{Exact, Listing, NoMemory};
use std::alloc::Global;

fn copy_of<K: Copy, V: Exact>(edit: &Edit<K, V>) -> Result<Edit<K, V>, NoMemory>
    ensures { IfOk result (λ copy. copy ≡ edit.now) }
{
    match edit {
        Edit::Put(key, row) => Ok(Edit::Put(*key, row.clone()?)),
        Edit::Take(key) => Ok(Edit::Take(*key)),
    }
}

/// A copy of the changes of a table.
pub(crate) fn copies_of<K: Copy, V: Exact + Drop>(
    alloc: Global,
    edits: &[Edit<K, V>],
) -> Result<Listing<Edit<K, V>>, NoMemory>
    ensures { IfOk result (λ copies. copies ≡ edits.now) }
{
    let mut copies = Listing::empty(alloc);
    for edit in edits {
        copies.push(copy_of(edit)?)?;
    }
    Ok(copies)
}
