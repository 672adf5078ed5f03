//! Lets a row be found by the values that it gets.
ghost use Rattle.std.specs.Prelude.{length, OnOk, option_copied};
ghost use Rattle.merge_part.specs.Entering.{IsEntered};

use crate::content::Content;
use crate::index::{DraftIndex, DraftIndexes, replace};
use crate::joined::content_value;
use crate::link::Link;
use merge_types::{NoMemory, RowKey};

// As a child, at each link of its article.
fn enter_child(
    links: &[Link],
    draft: &mut DraftIndex,
    key: RowKey,
    old: Option<&Content>,
    new: Option<&Content>,
) -> Result<(), NoMemory>
    ensures { OnOk result (IsEntered (λ link. link.child) (λ link. link.column) links.now (length links.now) draft.old draft.new key (option_copied old.entry) (option_copied new.entry)) }
{
    for (number, link) in links.iter().enumerate() {
        if link.child == key.article {
            let before = content_value(old, link.column);
            let after = content_value(new, link.column);
            replace(draft, number, before, after, key.row)?;
        }
    }
    Ok(())
}

// As a parent, at each link to its article.
fn enter_parent(
    links: &[Link],
    draft: &mut DraftIndex,
    key: RowKey,
    old: Option<&Content>,
    new: Option<&Content>,
) -> Result<(), NoMemory>
    ensures { OnOk result (IsEntered (λ link. link.parent) (λ link. link.parent_column) links.now (length links.now) draft.old draft.new key (option_copied old.entry) (option_copied new.entry)) }
{
    for (number, link) in links.iter().enumerate() {
        if link.parent == key.article {
            let before = content_value(old, link.parent_column);
            let after = content_value(new, link.parent_column);
            replace(draft, number, before, after, key.row)?;
        }
    }
    Ok(())
}

/// The row that holds the one content is to be found by the values of the other.
pub fn enter_row(
    links: &[Link],
    draft: &mut DraftIndexes,
    key: RowKey,
    old: Option<&Content>,
    new: Option<&Content>,
) -> Result<(), NoMemory>
    ensures child { OnOk result (IsEntered (λ link. link.child) (λ link. link.column) links.now (length links.now) draft.old.children draft.new.children key (option_copied old.entry) (option_copied new.entry)) }
    ensures parent { OnOk result (IsEntered (λ link. link.parent) (λ link. link.parent_column) links.now (length links.now) draft.old.parents draft.new.parents key (option_copied old.entry) (option_copied new.entry)) }
{
    enter_child(links, &mut draft.children, key, old, new)?;
    enter_parent(links, &mut draft.parents, key, old, new)
}
