//! What the parents of a value give, as one of its children shows.
ghost use Rattle.std.specs.Prelude.{◌≡◌, ◌<◌, ◌^◌, false, IfOk, IfSome, IsTrue};
ghost use Rattle.std.specs.Map.{keys_of};
ghost use Rattle.merge_types.specs.declared.row_key.RowKey.{RowKey as OneKey};
ghost use Rattle.merge_part.specs.Draft.{rows_in, marks_in};
ghost use Rattle.merge_part.specs.Index.{parents_found};
ghost use Rattle.merge_part.specs.Rule.{IsAt};
ghost use Rattle.merge_part.specs.Settling.{AllMeet, AreGiven};
ghost use Rattle.merge_part.specs.Siblings.{IsOnlyLink, Shows};
ghost use Rattle.merge_part.specs.Waiting.{waits};

use crate::draft::{Draft, marks_at};
use crate::joined::{are_joined, value_of};
use crate::keeping::Kept;
use crate::link::Link;
use crate::sites::Sites;
use merge_join::JoinEntry;
use merge_table::{Rows, Table};
use merge_types::{NoMemory, RowKey, Value};

// Whether no other link has the child article of the one with the number.
fn is_only_link(links: &[Link], number: usize, article: u8) -> bool
    ensures { IsTrue result → IsOnlyLink links.now number article }
{
    for (other, link) in links.iter().enumerate() {
        if link.child == article && other != number {
            return false;
        }
    }
    true
}

// The partitions that a row is in, if it has the value at the link and passes no filter.
fn sites_if_alike(
    kept: &Kept,
    draft: &Draft,
    key: &RowKey,
    link: &Link,
    value: &Value,
) -> Option<Sites>
    ensures { IfSome result (Shows (rows_in kept.now.held.rows.rows draft.now.rows) (marks_in kept.now.held.marks.rows draft.now.marks.rows) key.now link.now value.now) }
{
    let content = draft.rows.get(&kept.held.rows, key)?;
    let other = value_of(content.values.as_slice(), link.column)?;
    if content.filtered.0 != 0 {
        return None;
    }
    if are_joined(value, other) {
        return Some(marks_at(&kept.held.marks, &draft.marks, key));
    }
    None
}

// Whether the row does not wait.
fn is_free(waiting: &Table<RowKey, ()>, key: &RowKey) -> bool
    ensures { IsTrue result → waits (keys_of waiting.now.rows) key.now ≡ false }
{
    match waiting.get(key) {
        Some(_) => false,
        None => true,
    }
}

// The partitions of the first child among these entries that does not wait, if it has them by its
// parents alone.
fn sites_by_children(
    kept: &Kept,
    draft: &Draft,
    entries: Rows<'_, JoinEntry, ()>,
    link: &Link,
    value: &Value,
) -> Option<Sites>
    ensures { IfSome result (λ sites. (key : OneKey) × (key.article ≡ link.now.child) × (waits (keys_of draft.now.waiting.rows.rows) key ≡ false) × Shows (rows_in kept.now.held.rows.rows draft.now.rows) (marks_in kept.now.held.marks.rows draft.now.marks.rows) key link.now value.now sites) }
{
    for (entry, _) in entries {
        let key = RowKey {
            article: link.child,
            row: entry.child,
        };
        if is_free(&draft.waiting.rows, &key) {
            return sites_if_alike(kept, draft, &key, link, value);
        }
    }
    None
}

/// The partitions in which a child with the value has a place by its parents at one link, if
/// another child shows them: one of an article with this link alone, which passes no filter and does
/// not wait.
pub fn sites_by_sibling(
    kept: &Kept,
    draft: &Draft,
    number: usize,
    link: &Link,
    value: &Value,
) -> Result<Option<Sites>, NoMemory>
    requires number { number < 2 ^ 63 }
    requires link { IsAt kept.now.rules.links number link.now }
    requires met { AllMeet kept.now.rules.links (rows_in kept.now.held.rows.rows draft.now.rows) (marks_in kept.now.held.marks.rows draft.now.marks.rows) (waits (keys_of draft.now.waiting.rows.rows)) }
    ensures { IfOk result (λ found. IfSome found (AreGiven (parents_found kept.now.index draft.now.index) (rows_in kept.now.held.rows.rows draft.now.rows) (marks_in kept.now.held.marks.rows draft.now.marks.rows) number link.now value.now)) }
{
    if is_only_link(kept.rules.links.as_slice(), number, link.child) {
        let held = kept.index.children.children_of(number, value)?;
        return Ok(sites_by_children(kept, draft, held, link, value));
    }
    Ok(None)
}
