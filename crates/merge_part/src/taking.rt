//! Takes changes of rows up into a draft.
ghost use Rattle.std.specs.Prelude.{◌≡◌, ◌≤◌, ◌<◌, ◌+◌, ◌*◌, [], All, length, IfOk, OnOk, IsTrue};
ghost use Rattle.merge_part.specs.Draft.{rows_in, marks_in};
ghost use Rattle.std.specs.Map.{keys_of};
ghost use Rattle.merge_part.specs.Index.{AreDrafted, children_found};
ghost use Rattle.merge_part.specs.Waiting.{AreReached};
ghost use Rattle.merge_join.specs.Entries.{entry_cmp};
ghost use Rattle.std.specs.List.Sorted.{IsStrictlySortedBy};
ghost use Rattle.merge_part.specs.Settling.{AllMeet, pends, is_among, LinksAreWithin};
ghost use Rattle.merge_part.specs.Taking.{HoldsNew, TakesUp, FitsArticle, count_if_some, living};
ghost use Rattle.merge_schema.specs.ValidityLaws.{FiltersFit};
ghost use Rattle.merge_part.specs.Rules.{AreRules, IsKept, AreTaken};

use crate::change::RowChange;
use crate::content::Content;
use crate::covering::Others;
use crate::draft::{Draft, DraftRows, marks_at};
use crate::entering::enter_row;
use crate::filtering::filtered;
use crate::index::{DraftIndexes, Finder};
use crate::keeping::Kept;
use crate::waiting::{Waiting, wait_by_row};
use merge_schema::Publication;
use merge_table::Table;
use merge_types::{NoMemory, RowKey, Steps};
use std::alloc::Global;
use std::sync::ledger::Ledger;

// What is to be held of the row, by its new values.
fn content_of<L: Ledger>(
    publication: &Publication,
    change: &RowChange,
    steps: &mut Steps<L>,
) -> Result<Option<Content>, NoMemory>
    requires few { length publication.now.subscriptions < 64 }
    requires filters { FiltersFit publication.now }
    requires fits { FitsArticle publication.now change.now }
    ensures content { IfOk result (λ content. HoldsNew publication.now change.now.article change.now.new content) }
    ensures cost { steps.new ≤ steps.old + length publication.now.subscriptions * count_if_some change.now.new }
{
    let Some(values) = &change.new else {
        return Ok(None);
    };
    let article = &publication.articles.as_slice()[change.article as usize];
    let filtered = filtered(
        article,
        publication.subscriptions.as_slice(),
        values.as_slice(),
        steps,
    );
    Ok(Some(Content {
        values: values.clone()?,
        filtered,
    }))
}

/// Takes a change up. Its row waits, and so do the children that it reaches.
pub fn take_up<L: Ledger>(
    publication: &Publication,
    kept: &Kept,
    draft: &mut Draft,
    change: &RowChange,
    steps: &mut Steps<L>,
) -> Result<(), NoMemory>
    requires few { length publication.now.subscriptions < 64 }
    requires filters { FiltersFit publication.now }
    requires fits { FitsArticle publication.now change.now }
    requires children { IsStrictlySortedBy entry_cmp kept.now.index.children.set }
    requires parents { IsStrictlySortedBy entry_cmp kept.now.index.parents.set }
    requires drafted { AreDrafted kept.now.rules.links kept.now.index draft.old.index (rows_in kept.now.held.rows.rows draft.old.rows) }
    requires reached { AreReached kept.now.rules.links (children_found kept.now.index draft.old.index) (keys_of draft.old.waiting.values.rows) (keys_of draft.old.waiting.rows.rows) }
    ensures reached { OnOk result (AreReached kept.now.rules.links (children_found kept.now.index draft.new.index) (keys_of draft.new.waiting.values.rows) (keys_of draft.new.waiting.rows.rows)) }
    ensures edits { OnOk result (TakesUp publication.now change.now draft.old.rows draft.new.rows) }
    ensures marks { draft.new.marks ≡ draft.old.marks }
    ensures cost { steps.new ≤ steps.old + length publication.now.subscriptions * count_if_some change.now.new }
    ensures drafted { OnOk result (AreDrafted kept.now.rules.links kept.now.index draft.new.index (rows_in kept.now.held.rows.rows draft.new.rows)) }
    ensures met { OnOk result (LinksAreWithin kept.now.rules.links kept.now.rules.order → IsTrue (is_among kept.now.rules.order change.now.article)
        → AllMeet kept.now.rules.links (rows_in kept.now.held.rows.rows draft.old.rows) (marks_in kept.now.held.marks.rows draft.old.marks.rows) (pends kept.now.rules.order (keys_of draft.old.waiting.rows.rows))
        → AllMeet kept.now.rules.links (rows_in kept.now.held.rows.rows draft.new.rows) (marks_in kept.now.held.marks.rows draft.old.marks.rows) (pends kept.now.rules.order (keys_of draft.new.waiting.rows.rows))) }
{
    let key = change.key();
    let links = kept.rules.links.as_slice();
    let content = content_of(publication, change, steps)?;
    kept.held.rows.is_ordered();
    let old = draft.rows.get(&kept.held.rows, &key);
    draft.waiting.rows.insert(key, ())?;
    enter_row(links, &mut draft.index, key, old, content.as_ref())?;
    let children = Finder {
        links,
        held: &kept.index.children,
        come: &draft.index.children.come,
    };
    let others = Others {
        kept,
        rows: &draft.rows,
        marks: &draft.marks,
        come: &draft.index.parents.come,
        key,
        sites: marks_at(&kept.held.marks, &draft.marks, &key),
    };
    wait_by_row(
        &children,
        &others,
        old,
        content.as_ref(),
        &mut draft.waiting,
    )?;
    draft.rows.push(key, content)?;
    Ok(())
}

/// Takes all changes up, in order, into a draft in which no row is marked yet.
pub fn take_up_all<L: Ledger>(
    alloc: Global,
    publication: &Publication,
    kept: &Kept,
    changes: &[RowChange],
    steps: &mut Steps<L>,
) -> Result<Draft, NoMemory>
    requires rules { AreRules publication.now kept.now.rules }
    requires fits { All (FitsArticle publication.now) changes.now }
    requires kept { IsKept publication.now kept.now.rules.links kept.now.index.children.set kept.now.index.parents.set kept.now.held.rows.rows kept.now.held.marks.rows }
    ensures marks { IfOk result (λ draft. draft.marks.rows ≡ []) }
    ensures reached { IfOk result (λ draft. AreReached kept.now.rules.links (children_found kept.now.index draft.index) (keys_of draft.waiting.values.rows) (keys_of draft.waiting.rows.rows)) }
    ensures taken { IfOk result (λ draft. AreTaken publication.now kept.now.rules kept.now.index draft.index kept.now.held.rows.rows kept.now.held.marks.rows changes.now draft.rows (keys_of draft.waiting.rows.rows)) }
    ensures cost { steps.new ≤ steps.old + length publication.now.subscriptions * living changes.now }
{
    let mut draft = Draft {
        rows: DraftRows::new(alloc),
        index: DraftIndexes::new(alloc),
        marks: Table::new(alloc),
        waiting: Waiting {
            rows: Table::new(alloc),
            values: Table::new(alloc),
            asked: Table::new(alloc),
        },
    };
    kept.held.rows.is_ordered();
    kept.index.children.is_ordered();
    kept.index.parents.is_ordered();
    for change in changes {
        take_up(publication, kept, &mut draft, change, steps)?;
    }
    Ok(draft)
}
