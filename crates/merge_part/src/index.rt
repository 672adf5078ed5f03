//! Rows by a value of theirs.
ghost use Rattle.std.specs.Prelude.{◌≡◌, [], IfOk, OnOk, option_copied, unwrap_or};
ghost use Rattle.merge_types.specs.declared.values.Value.TheVariants.{Null};
ghost use Rattle.merge_part.specs.Entering.{Comes, Leaves, IsReplaced};
ghost use Rattle.merge_part.specs.Index.{entry_for};

use crate::joined::is_null;
use crate::link::Link;
use crate::waiting::stays;
use merge_join::{JoinChange, JoinEntry, JoinIndex};
use merge_table::Edit;
use merge_types::{NoMemory, RowId, Value};
use std::alloc::Global;

/// Rows by the values by which they follow others, and by those by which others follow them. The
/// number of a join is that of its link. A row is found by the values that it has, and by no other.
#[derive(Drop)]
pub struct Indexes {
    pub children: JoinIndex,
    pub parents: JoinIndex,
}

/// Changes of an index that are worked out, and the entries that come by them.
#[derive(Drop)]
pub struct DraftIndex {
    pub come: JoinIndex,
    pub changes: Vec<JoinChange>,
}

/// Changes of both indexes.
#[derive(Drop)]
pub struct DraftIndexes {
    pub children: DraftIndex,
    pub parents: DraftIndex,
}

impl DraftIndex {
    /// No change.
    pub fn new(alloc: Global) -> Self
        ensures come { result.come.set ≡ [] }
        ensures changes { result.changes.items ≡ [] }
    {
        DraftIndex {
            come: JoinIndex::new(alloc),
            changes: Vec::new(alloc),
        }
    }

    /// The changes, in order.
    pub fn into_changes(self) -> Vec<JoinChange>
        ensures { result.items ≡ self.changes.items }
    {
        self.changes
    }
}

impl DraftIndexes {
    /// No change.
    pub fn new(alloc: Global) -> Self
        ensures children { result.children.changes.items ≡ [] }
        ensures parents { result.parents.changes.items ≡ [] }
    {
        DraftIndexes {
            children: DraftIndex::new(alloc),
            parents: DraftIndex::new(alloc),
        }
    }
}

/// The links, and where children are found by them: an index, and the entries that come to it.
#[derive(Clone, Copy)]
pub struct Finder<'a> {
    pub links: &'a [Link],
    pub held: &'a JoinIndex,
    pub come: &'a JoinIndex,
}

/// The entry of the row by the value.
pub fn entry_for(number: usize, value: &Value, row: RowId) -> Result<JoinEntry, NoMemory>
    ensures { IfOk result (λ entry. entry ≡ entry_for number value.now row) }
{
    Ok(JoinEntry {
        value: value.clone()?,
        join: number,
        child: row,
    })
}

// The row is to be found by the value no longer.
fn leave(draft: &mut DraftIndex, number: usize, value: &Value, row: RowId) -> Result<(), NoMemory>
    ensures { OnOk result (Leaves draft.old draft.new number value.now row) }
{
    if is_null(value) {
        return Ok(());
    }
    draft
        .changes
        .push(Edit::Take(entry_for(number, value, row)?))?;
    Ok(())
}

// The row is to be found by the value.
fn come(draft: &mut DraftIndex, number: usize, value: &Value, row: RowId) -> Result<(), NoMemory>
    ensures { OnOk result (Comes draft.old draft.new number value.now row) }
{
    if is_null(value) {
        return Ok(());
    }
    draft.come.insert(entry_for(number, value, row)?)?;
    draft
        .changes
        .push(Edit::Put(entry_for(number, value, row)?, ()))?;
    Ok(())
}

fn leave_any(
    draft: &mut DraftIndex,
    number: usize,
    value: Option<&Value>,
    row: RowId,
) -> Result<(), NoMemory>
    ensures { OnOk result (Leaves draft.old draft.new number (unwrap_or (option_copied value.entry) Null) row) }
{
    match value {
        Some(value) => leave(draft, number, value, row),
        None => Ok(()),
    }
}

fn come_any(
    draft: &mut DraftIndex,
    number: usize,
    value: Option<&Value>,
    row: RowId,
) -> Result<(), NoMemory>
    ensures { OnOk result (Comes draft.old draft.new number (unwrap_or (option_copied value.entry) Null) row) }
{
    match value {
        Some(value) => come(draft, number, value, row),
        None => Ok(()),
    }
}

/// The row that has the one value is to be found by the other.
pub fn replace(
    draft: &mut DraftIndex,
    number: usize,
    old: Option<&Value>,
    new: Option<&Value>,
    row: RowId,
) -> Result<(), NoMemory>
    ensures { OnOk result (IsReplaced draft.old draft.new number (unwrap_or (option_copied old.entry) Null) (unwrap_or (option_copied new.entry) Null) row) }
{
    if stays(old, new) {
        return Ok(());
    }
    leave_any(draft, number, old, row)?;
    come_any(draft, number, new, row)
}
