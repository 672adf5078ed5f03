//! Works out the marks of waiting rows anew.
ghost use Rattle.std.specs.Prelude.{◌≡◌, ◌==◌, ℕ, List, ◌∷◌, All, filter, IfOk, OnOk};
ghost use Rattle.std.specs.Map.{keys_of};
ghost use Rattle.merge_types.specs.declared.row_key.RowKey.{RowKey as OneKey};
ghost use Rattle.merge_part.specs.Draft.{rows_in, marks_in};
ghost use Rattle.merge_part.specs.Index.{AreChildrenIndexed, AreParentsIndexed, children_found, parents_found};
ghost use Rattle.merge_part.specs.Settling.{AreKnown, AreMarksOf, IsSettled, AllMeet, pends, ChildrenCome, ParentsComeFirst, NoneFollowsItself};
ghost use Rattle.merge_part.specs.Rule.{Meets};
ghost use Rattle.merge_part.specs.Waiting.{waits, AreReached, KeepsWaiting};

use crate::covering::Others;
use crate::draft::{Draft, marks_at};
use crate::index::Finder;
use crate::joined::{Memo, sites_of};
use crate::keeping::Kept;
use crate::sites::Sites;
use crate::waiting::wait_by_marks;
use merge_table::Table;
use merge_types::{NoMemory, RowKey};
use std::alloc::Global;

// The partitions that the row is in, by the rule.
fn sites_by_rule(
    kept: &Kept,
    draft: &Draft,
    memo: &mut Memo,
    key: RowKey,
) -> Result<Sites, NoMemory>
    requires known { AreKnown kept.now.rules.links (parents_found kept.now.index draft.now.index) (rows_in kept.now.held.rows.rows draft.now.rows) (marks_in kept.now.held.marks.rows draft.now.marks.rows) key.article memo.old.rows }
    requires met { AllMeet kept.now.rules.links (rows_in kept.now.held.rows.rows draft.now.rows) (marks_in kept.now.held.marks.rows draft.now.marks.rows) (waits (keys_of draft.now.waiting.rows.rows)) }
    requires parents { AreParentsIndexed kept.now.rules.links (parents_found kept.now.index draft.now.index) (rows_in kept.now.held.rows.rows draft.now.rows) }
    ensures known { OnOk result (AreKnown kept.now.rules.links (parents_found kept.now.index draft.now.index) (rows_in kept.now.held.rows.rows draft.now.rows) (marks_in kept.now.held.marks.rows draft.now.marks.rows) key.article memo.new.rows) }
    ensures marks { IfOk result (λ sites. AreMarksOf kept.now.rules.links (rows_in kept.now.held.rows.rows draft.now.rows) (marks_in kept.now.held.marks.rows draft.now.marks.rows) key sites) }
{
    match draft.rows.get(&kept.held.rows, &key) {
        Some(content) => sites_of(kept, draft, memo, key, content),
        None => Ok(Sites::none()),
    }
}

// Gives the row the marks that the rule says of it, and lets its children wait where these change.
fn settle_row(kept: &Kept, draft: &mut Draft, memo: &mut Memo, key: RowKey) -> Result<(), NoMemory>
    requires apart { NoneFollowsItself kept.now.rules.links }
    requires met { AllMeet kept.now.rules.links (rows_in kept.now.held.rows.rows draft.old.rows) (marks_in kept.now.held.marks.rows draft.old.marks.rows) (waits (keys_of draft.old.waiting.rows.rows)) }
    requires known { AreKnown kept.now.rules.links (parents_found kept.now.index draft.old.index) (rows_in kept.now.held.rows.rows draft.old.rows) (marks_in kept.now.held.marks.rows draft.old.marks.rows) key.article memo.old.rows }
    requires reached { AreReached kept.now.rules.links (children_found kept.now.index draft.old.index) (keys_of draft.old.waiting.values.rows) (keys_of draft.old.waiting.rows.rows) }
    requires parents { AreParentsIndexed kept.now.rules.links (parents_found kept.now.index draft.old.index) (rows_in kept.now.held.rows.rows draft.old.rows) }
    ensures rows { draft.new.rows ≡ draft.old.rows }
    ensures index { draft.new.index ≡ draft.old.index }
    ensures known { OnOk result (AreKnown kept.now.rules.links (parents_found kept.now.index draft.old.index) (rows_in kept.now.held.rows.rows draft.old.rows) (marks_in kept.now.held.marks.rows draft.new.marks.rows) key.article memo.new.rows) }
    ensures reached { OnOk result (AreReached kept.now.rules.links (children_found kept.now.index draft.old.index) (keys_of draft.new.waiting.values.rows) (keys_of draft.new.waiting.rows.rows)) }
    ensures kept { KeepsWaiting (keys_of draft.old.waiting.rows.rows) (keys_of draft.new.waiting.rows.rows) }
    ensures ok { OnOk result (IsSettled kept.now.rules.links (children_found kept.now.index draft.old.index) (rows_in kept.now.held.rows.rows draft.old.rows) (marks_in kept.now.held.marks.rows draft.old.marks.rows) (marks_in kept.now.held.marks.rows draft.new.marks.rows) key (keys_of draft.new.waiting.rows.rows)) }
{
    let sites = sites_by_rule(kept, draft, memo, key)?;
    let before = marks_at(&kept.held.marks, &draft.marks, &key);
    if sites == before {
        return Ok(());
    }
    let content = draft.rows.get(&kept.held.rows, &key);
    let children = Finder {
        links: kept.rules.links.as_slice(),
        held: &kept.index.children,
        come: &draft.index.children.come,
    };
    let others = Others {
        kept,
        rows: &draft.rows,
        marks: &draft.marks,
        come: &draft.index.parents.come,
        key,
        sites: before.union(sites),
    };
    wait_by_marks(&children, &others, content, &mut draft.waiting)?;
    draft.marks.insert(key, sites)?;
    Ok(())
}

// The waiting rows of the article.
fn batch_of(
    alloc: Global,
    article: u8,
    waiting: &Table<RowKey, ()>,
) -> Result<Vec<RowKey>, NoMemory>
    ensures batch { IfOk result (λ batch. batch.items ≡ filter (λ key. key.article == article) (keys_of waiting.now.rows)) }
    ensures of_article { IfOk result (λ batch. All (λ key. key.article ≡ article) batch.items) }
{
    let mut batch = Vec::new(alloc);
    for (key, _) in waiting.iter() {
        if key.article == article {
            batch.push(*key)?;
        }
    }
    Ok(batch)
}

// Settles the waiting rows of an article whose parents' articles are settled.
fn settle_article(
    alloc: Global,
    kept: &Kept,
    draft: &mut Draft,
    article: u8,
) -> Result<(), NoMemory>
    requires children { AreChildrenIndexed kept.now.rules.links (children_found kept.now.index draft.old.index) (rows_in kept.now.held.rows.rows draft.old.rows) }
    requires parents { AreParentsIndexed kept.now.rules.links (parents_found kept.now.index draft.old.index) (rows_in kept.now.held.rows.rows draft.old.rows) }
    requires reached { AreReached kept.now.rules.links (children_found kept.now.index draft.old.index) (keys_of draft.old.waiting.values.rows) (keys_of draft.old.waiting.rows.rows) }
    requires met { AllMeet kept.now.rules.links (rows_in kept.now.held.rows.rows draft.old.rows) (marks_in kept.now.held.marks.rows draft.old.marks.rows) (waits (keys_of draft.old.waiting.rows.rows)) }
    requires apart { NoneFollowsItself kept.now.rules.links }
    ensures rows { draft.new.rows ≡ draft.old.rows }
    ensures index { draft.new.index ≡ draft.old.index }
    ensures reached { OnOk result (AreReached kept.now.rules.links (children_found kept.now.index draft.old.index) (keys_of draft.new.waiting.values.rows) (keys_of draft.new.waiting.rows.rows)) }
    ensures ok { OnOk result ((articles : List ℕ) → ChildrenCome kept.now.rules.links article articles
        → AllMeet kept.now.rules.links (rows_in kept.now.held.rows.rows draft.old.rows) (marks_in kept.now.held.marks.rows draft.old.marks.rows) (pends (article ∷ articles) (keys_of draft.old.waiting.rows.rows))
        → AllMeet kept.now.rules.links (rows_in kept.now.held.rows.rows draft.old.rows) (marks_in kept.now.held.marks.rows draft.new.marks.rows) (pends articles (keys_of draft.new.waiting.rows.rows))) }
{
    let batch = batch_of(alloc, article, &draft.waiting.rows)?;
    let mut memo = Table::new(alloc);
    for key in &batch {
        settle_row(kept, draft, &mut memo, *key)?;
    }
    Ok(())
}

/// Settles all waiting rows, article by article with parents first. Then each row meets the rule.
pub fn settle(alloc: Global, kept: &Kept, draft: &mut Draft) -> Result<(), NoMemory>
    requires children { AreChildrenIndexed kept.now.rules.links (children_found kept.now.index draft.old.index) (rows_in kept.now.held.rows.rows draft.old.rows) }
    requires parents { AreParentsIndexed kept.now.rules.links (parents_found kept.now.index draft.old.index) (rows_in kept.now.held.rows.rows draft.old.rows) }
    requires reached { AreReached kept.now.rules.links (children_found kept.now.index draft.old.index) (keys_of draft.old.waiting.values.rows) (keys_of draft.old.waiting.rows.rows) }
    requires apart { NoneFollowsItself kept.now.rules.links }
    requires order { ParentsComeFirst kept.now.rules.links kept.now.rules.order }
    requires met { AllMeet kept.now.rules.links (rows_in kept.now.held.rows.rows draft.old.rows) (marks_in kept.now.held.marks.rows draft.old.marks.rows) (pends kept.now.rules.order (keys_of draft.old.waiting.rows.rows)) }
    ensures rows { draft.new.rows ≡ draft.old.rows }
    ensures index { draft.new.index ≡ draft.old.index }
    ensures ok { OnOk result ((key : OneKey) → Meets kept.now.rules.links (rows_in kept.now.held.rows.rows draft.old.rows) (marks_in kept.now.held.marks.rows draft.new.marks.rows) key) }
{
    for article in kept.rules.order.as_slice() {
        settle_article(alloc, kept, draft, *article)?;
    }
    Ok(())
}
