//! Rows that wait to be looked at, since a row that they may follow has changed.
ghost use Rattle.std.specs.Prelude.{◌≡◌, ◌==◌, ◌<◌, ◌++◌, ℕ, true, IsTrue, length, OnOk, option_copied, unwrap_or};
ghost use Rattle.std.specs.List.{list_any};
ghost use Rattle.std.specs.Map.{keys_of};
ghost use Rattle.merge_types.specs.declared.identifiers.RowId.{RowId as OneRow};
ghost use Rattle.merge_types.specs.declared.values.Value.TheVariants.{Null};
ghost use Rattle.merge_schema.specs.Partition.{are_joined};
ghost use Rattle.merge_part.specs.declared.link.Link.{Link as OneLink};
ghost use Rattle.merge_part.specs.Rule.{IsAt};
ghost use Rattle.merge_part.specs.Draft.{rows_in, marks_in};
ghost use Rattle.merge_part.specs.Waiting.{waits, KeepsWaiting, AreReached, ChildrenWait, AreSpared, ReachedAt, ReachedByMarks, ReachedByRow};

use crate::content::Content;
use crate::covering::{Others, are_enough};
use crate::index::{Finder, entry_for};
use crate::joined::{are_joined, parent_value};
use merge_join::JoinEntry;
use merge_table::{Rows, Table};
use merge_types::{NoMemory, RowId, RowKey, Value};

/// Rows that wait, and values, each by the first entry that it may have: those whose children wait,
/// and those of which it was asked whether other rows give these what they have.
#[derive(Drop)]
pub struct Waiting {
    pub rows: Table<RowKey, ()>,
    pub values: Table<JoinEntry, ()>,
    pub asked: Table<JoinEntry, ()>,
}

// Lets the rows of the article that have these entries wait.
fn wait_for(
    article: u8,
    entries: Rows<'_, JoinEntry, ()>,
    waiting: &mut Table<RowKey, ()>,
) -> Result<(), NoMemory>
    ensures kept { KeepsWaiting (keys_of waiting.old.rows) (keys_of waiting.new.rows) }
    ensures ok { OnOk result ((row : OneRow) → list_any (λ entry. entry.child.0 == row.0) (keys_of entries.entry) ≡ true → waits (keys_of waiting.new.rows) (record { article = article; row = row }) ≡ true) }
{
    for (entry, _) in entries {
        let child = RowKey {
            article,
            row: entry.child,
        };
        waiting.insert(child, ())?;
    }
    Ok(())
}

// Lets the children at a link wait that have the value, unless they do already.
fn reach(
    children: &Finder<'_>,
    number: usize,
    value: &Value,
    waiting: &mut Waiting,
) -> Result<(), NoMemory>
    requires number { number < length children.now.links.now }
    requires reached { AreReached children.now.links.now (children.now.held.now.set ++ children.now.come.now.set) (keys_of waiting.old.values.rows) (keys_of waiting.old.rows.rows) }
    ensures kept { KeepsWaiting (keys_of waiting.old.rows.rows) (keys_of waiting.new.rows.rows) }
    ensures reached { OnOk result (AreReached children.now.links.now (children.now.held.now.set ++ children.now.come.now.set) (keys_of waiting.new.values.rows) (keys_of waiting.new.rows.rows)) }
    ensures ok { OnOk result ((link : OneLink) → IsAt children.now.links.now number link → ChildrenWait (children.now.held.now.set ++ children.now.come.now.set) number link value.now (keys_of waiting.new.rows.rows)) }
{
    let first = entry_for(number, value, RowId(0))?;
    if let Some(_) = waiting.values.get(&first) {
        return Ok(());
    }
    let article = children.links[number].child;
    let held = children.held.children_of(number, value)?;
    wait_for(article, held, &mut waiting.rows)?;
    let come = children.come.children_of(number, value)?;
    wait_for(article, come, &mut waiting.rows)?;
    waiting.values.insert(first, ())?;
    Ok(())
}

// Lets the children at a link wait that have the value, unless others give them all that is asked for.
fn wait_unless_covered(
    children: &Finder<'_>,
    others: &Others<'_>,
    number: usize,
    value: &Value,
    waiting: &mut Waiting,
) -> Result<(), NoMemory>
    requires number { number < length children.now.links.now }
    requires reached { AreReached children.now.links.now (children.now.held.now.set ++ children.now.come.now.set) (keys_of waiting.old.values.rows) (keys_of waiting.old.rows.rows) }
    ensures kept { KeepsWaiting (keys_of waiting.old.rows.rows) (keys_of waiting.new.rows.rows) }
    ensures reached { OnOk result (AreReached children.now.links.now (children.now.held.now.set ++ children.now.come.now.set) (keys_of waiting.new.values.rows) (keys_of waiting.new.rows.rows)) }
    ensures ok { OnOk result ((link : OneLink) → IsAt children.now.links.now number link → AreSpared (rows_in others.now.kept.now.held.rows.rows others.now.rows.now) (marks_in others.now.kept.now.held.marks.rows others.now.marks.now.rows) others.now.key others.now.sites (children.now.held.now.set ++ children.now.come.now.set) number link value.now (keys_of waiting.new.rows.rows)) }
{
    let link = children.links[number];
    if are_enough(others, number, &link, value, &mut waiting.asked)? {
        return Ok(());
    }
    reach(children, number, value, waiting)?;
    Ok(())
}

// Lets the children at a link wait that have the value, if there is one, unless others cover it.
fn wait_for_children(
    children: &Finder<'_>,
    others: &Others<'_>,
    number: usize,
    value: Option<&Value>,
    waiting: &mut Waiting,
) -> Result<(), NoMemory>
    requires number { number < length children.now.links.now }
    requires reached { AreReached children.now.links.now (children.now.held.now.set ++ children.now.come.now.set) (keys_of waiting.old.values.rows) (keys_of waiting.old.rows.rows) }
    ensures kept { KeepsWaiting (keys_of waiting.old.rows.rows) (keys_of waiting.new.rows.rows) }
    ensures reached { OnOk result (AreReached children.now.links.now (children.now.held.now.set ++ children.now.come.now.set) (keys_of waiting.new.values.rows) (keys_of waiting.new.rows.rows)) }
    ensures ok { OnOk result ((link : OneLink) → IsAt children.now.links.now number link → AreSpared (rows_in others.now.kept.now.held.rows.rows others.now.rows.now) (marks_in others.now.kept.now.held.marks.rows others.now.marks.now.rows) others.now.key others.now.sites (children.now.held.now.set ++ children.now.come.now.set) number link (unwrap_or (option_copied value.entry) Null) (keys_of waiting.new.rows.rows)) }
{
    match value {
        Some(value) => wait_unless_covered(children, others, number, value, waiting),
        None => Ok(()),
    }
}

/// Lets the children of a row with this content wait, since its marks have changed.
pub fn wait_by_marks(
    children: &Finder<'_>,
    others: &Others<'_>,
    content: Option<&Content>,
    waiting: &mut Waiting,
) -> Result<(), NoMemory>
    requires reached { AreReached children.now.links.now (children.now.held.now.set ++ children.now.come.now.set) (keys_of waiting.old.values.rows) (keys_of waiting.old.rows.rows) }
    ensures kept { KeepsWaiting (keys_of waiting.old.rows.rows) (keys_of waiting.new.rows.rows) }
    ensures reached { OnOk result (AreReached children.now.links.now (children.now.held.now.set ++ children.now.come.now.set) (keys_of waiting.new.values.rows) (keys_of waiting.new.rows.rows)) }
    ensures ok { OnOk result (ReachedByMarks children.now.links.now (length children.now.links.now) (rows_in others.now.kept.now.held.rows.rows others.now.rows.now) (marks_in others.now.kept.now.held.marks.rows others.now.marks.now.rows) others.now.key others.now.sites (children.now.held.now.set ++ children.now.come.now.set) (option_copied content.entry) (keys_of waiting.new.rows.rows)) }
{
    for (number, link) in children.links.iter().enumerate() {
        if link.parent == others.key.article {
            let value = parent_value(link, content);
            wait_for_children(children, others, number, value, waiting)?;
        }
    }
    Ok(())
}

// Lets the children at a link wait, unless the row keeps its value for them.
fn wait_by_link(
    children: &Finder<'_>,
    others: &Others<'_>,
    number: usize,
    old: Option<&Content>,
    new: Option<&Content>,
    waiting: &mut Waiting,
) -> Result<(), NoMemory>
    requires number { number < length children.now.links.now }
    requires reached { AreReached children.now.links.now (children.now.held.now.set ++ children.now.come.now.set) (keys_of waiting.old.values.rows) (keys_of waiting.old.rows.rows) }
    ensures kept { KeepsWaiting (keys_of waiting.old.rows.rows) (keys_of waiting.new.rows.rows) }
    ensures reached { OnOk result (AreReached children.now.links.now (children.now.held.now.set ++ children.now.come.now.set) (keys_of waiting.new.values.rows) (keys_of waiting.new.rows.rows)) }
    ensures ok { OnOk result ((link : OneLink) → IsAt children.now.links.now number link → ReachedAt (rows_in others.now.kept.now.held.rows.rows others.now.rows.now) (marks_in others.now.kept.now.held.marks.rows others.now.marks.now.rows) others.now.key others.now.sites (children.now.held.now.set ++ children.now.come.now.set) number link (option_copied old.entry) (option_copied new.entry) (keys_of waiting.new.rows.rows)) }
{
    let link = &children.links[number];
    let before = parent_value(link, old);
    let after = parent_value(link, new);
    if stays(before, after) {
        return Ok(());
    }
    wait_for_children(children, others, number, before, waiting)?;
    wait_for_children(children, others, number, after, waiting)?;
    Ok(())
}

/// Whether the value is there before and after.
pub fn stays(before: Option<&Value>, after: Option<&Value>) -> bool
    ensures same { IsTrue result → unwrap_or (option_copied before.entry) Null ≡ unwrap_or (option_copied after.entry) Null }
    ensures joined { result ≡ are_joined (unwrap_or (option_copied before.entry) Null) (unwrap_or (option_copied after.entry) Null) }
{
    match (before, after) {
        (Some(before), Some(after)) => are_joined(before, after),
        _ => false,
    }
}

/// Lets the children of a row wait whose content was this and becomes that.
pub fn wait_by_row(
    children: &Finder<'_>,
    others: &Others<'_>,
    old: Option<&Content>,
    new: Option<&Content>,
    waiting: &mut Waiting,
) -> Result<(), NoMemory>
    requires reached { AreReached children.now.links.now (children.now.held.now.set ++ children.now.come.now.set) (keys_of waiting.old.values.rows) (keys_of waiting.old.rows.rows) }
    ensures kept { KeepsWaiting (keys_of waiting.old.rows.rows) (keys_of waiting.new.rows.rows) }
    ensures reached { OnOk result (AreReached children.now.links.now (children.now.held.now.set ++ children.now.come.now.set) (keys_of waiting.new.values.rows) (keys_of waiting.new.rows.rows)) }
    ensures ok { OnOk result (ReachedByRow children.now.links.now (length children.now.links.now) (rows_in others.now.kept.now.held.rows.rows others.now.rows.now) (marks_in others.now.kept.now.held.marks.rows others.now.marks.now.rows) others.now.key others.now.sites (children.now.held.now.set ++ children.now.come.now.set) (option_copied old.entry) (option_copied new.entry) (keys_of waiting.new.rows.rows)) }
{
    for (number, link) in children.links.iter().enumerate() {
        if link.parent == others.key.article {
            wait_by_link(children, others, number, old, new, waiting)?;
        }
    }
    Ok(())
}
