//! Who has which row.
ghost use Rattle.std.specs.Prelude.{◌≡◌, ◌≤◌, ◌+◌, ◌*◌, ℕ, [], All, length, IfOk, IsOk, OnOk, OnErr};
ghost use Rattle.merge_schema.specs.Partition.{is_in_at};
ghost use Rattle.merge_part.specs.Live.{live_rows, live_after_all};
ghost use Rattle.merge_part.specs.Moves.{AreMoves};
ghost use Rattle.merge_part.specs.Taking.{FitsArticle, EachRowOnce, living};
ghost use Rattle.merge_table.specs.Edits.{IsReady};
ghost use Rattle.merge_types.specs.RowKeys.{key_cmp};
ghost use Rattle.std.specs.List.Sorted.{IsStrictlySortedBy};
ghost use Rattle.std.specs.Map.{keys_of};
ghost use Rattle.merge_types.specs.declared.row_key.RowKey.{RowKey as OneKey};
ghost use Rattle.merge_part.specs.Draft.{rows_in, marks_of, marks_in, mark_edit, mark_edits};
ghost use Rattle.merge_join.specs.Entries.{entry_cmp};
ghost use Rattle.merge_part.specs.Index.{AreDrafted, children_found};
ghost use Rattle.merge_part.specs.Waiting.{AreReached};
ghost use Rattle.merge_part.specs.Rule.{Meets};
ghost use Rattle.merge_part.specs.Settling.{AllMeet, pends, ParentsComeFirst, NoneFollowsItself};
ghost use Rattle.merge_schema.specs.Valid.{IsValid};
ghost use Rattle.merge_schema.specs.ValidityLaws.{FiltersFit};
ghost use Rattle.merge_part.specs.View.{live_in, live_after_plan, IsCompact, IsCompactFor, IsPrepared};

use crate::change::{Moves, RowChange};
use crate::draft::{Draft, Held, RowEdit, marks_held};
use crate::index::{DraftIndexes, Indexes};
use crate::keeping::Kept;
use crate::link::{Rules, links_of};
use crate::moves::moves_of;
use crate::settling::settle;
use crate::sites::Sites;
use crate::subscribers::place_of;
use crate::taking::take_up_all;
use merge_join::{JoinChange, JoinIndex};
use merge_schema::Publication;
use merge_table::{Edit, Table};
use merge_types::{Listing, NoMemory, RowId, RowKey, SiteId, Steps};
use std::alloc::Global;
use std::marker::Model;
use std::sync::ledger::Ledger;

/// The live rows, and in the partition of which subscribers each of them is.
///
/// A question costs the logarithm of the number of rows. A change costs that for its row, for each
/// link of its article, and for each child that it reaches: the children by a value that the row
/// had or gets in a column by which they follow it, and all its children where it enters a
/// partition or leaves one, unless other rows by the same value give them the same. In a step the
/// children of a value are reached once, and what its parents give is worked out once: as another
/// child shows it, or with a look at each parent.
#[derive(Drop)]
pub struct Membership {
    alloc: Global,
    publication: Publication,
    kept: Kept,
}

impl Model for Membership {
    ghost use Rattle.std.specs.Coded.{codes};
    ghost use Rattle.merge_part.specs.View.{View, IsSound, filter_code};

    ghost Value = { View };

    ghost coded = { Prim.hlevel (codes, filter_code) };

    ghost view = { λ m. record { publication = m.publication; rules = m.kept.rules; index = m.kept.index; held = m.kept.held } };

    ghost invariant = { λ m. IsSound (record { publication = m.publication; rules = m.kept.rules; index = m.kept.index; held = m.kept.held }) };
}

/// The changes of a step, for which a membership has taken the memory.
#[derive(Drop)]
pub struct MembershipPlan {
    rows: Vec<RowEdit>,
    marks: Vec<Edit<RowKey, Sites>>,
    children: Vec<JoinChange>,
    parents: Vec<JoinChange>,
}

impl Model for MembershipPlan {
    ghost use Rattle.merge_part.specs.View.{Plan};

    ghost Value = { Plan };

    ghost view = { λ p. record { rows = p.rows.items; marks = p.marks.items; children = p.children.items; parents = p.parents.items } };
}

impl MembershipPlan {
    // No change.
    fn none(alloc: Global) -> Self
        ensures rows { result.rows ≡ [] }
        ensures marks { result.marks ≡ [] }
        ensures children { result.children ≡ [] }
        ensures parents { result.parents ≡ [] }
    {
        MembershipPlan {
            rows: Vec::new(alloc),
            marks: Vec::new(alloc),
            children: Vec::new(alloc),
            parents: Vec::new(alloc),
        }
    }
}

impl Membership {
    /// No rows of a publication that is valid, however many resolvers are handed in.
    pub fn new(alloc: Global, publication: &Publication) -> Result<Membership, NoMemory>
        requires { (resolvers : ℕ) × IsValid resolvers publication.now }
        ensures publication { IfOk result (λ membership. membership.publication ≡ publication.now) }
        ensures live { IfOk result (λ membership. live_in membership ≡ []) }
    {
        let links = links_of(alloc, publication)?;
        let order = publication.evaluation_order(alloc)?;
        Ok(Membership {
            alloc,
            publication: publication.copy()?,
            kept: Kept {
                rules: Rules { links, order },
                index: Indexes {
                    children: JoinIndex::new(alloc),
                    parents: JoinIndex::new(alloc),
                },
                held: Held {
                    rows: Table::new(alloc),
                    marks: Table::new(alloc),
                },
            },
        })
    }

    /// The publication. Its filters fit its articles.
    pub fn publication(&self) -> &Publication
        ensures publication { result.now ≡ self.now.publication }
        ensures filters { FiltersFit result.now }
    {
        &self.publication
    }

    /// Takes the memory for the changes, and gives the moves that they make and the plan. The rows
    /// stay as they are. Room for a plan that was never made does not add to the room for this one.
    /// It takes a step for each subscription and row that changes and lives afterwards, at most.
    pub fn prepare<L: Ledger>(
        &mut self,
        changes: &[RowChange],
        steps: &mut Steps<L>,
    ) -> Result<(Moves, MembershipPlan), NoMemory>
        requires fits { All (FitsArticle self.old.publication) changes.now }
        requires once { EachRowOnce changes.now }
        ensures moves { IfOk result (λ prepared. AreMoves self.old.publication (live_rows (live_in self.old)) (live_rows (live_after_all (live_in self.old) changes.now)) prepared.0) }
        ensures plan { IfOk result (λ prepared. live_after_plan self.new prepared.1 ≡ live_after_all (live_in self.old) changes.now) }
        ensures ready { IfOk result (λ prepared. IsPrepared self.new prepared.1) }
        ensures compact { IfOk result (λ prepared. IsCompactFor self.new prepared.1) }
        ensures publication { self.new.publication ≡ self.old.publication }
        ensures live { live_in self.new ≡ live_in self.old }
        ensures cost { steps.new ≤ steps.old + length self.old.publication.subscriptions * living changes.now }

        // What takes no memory is not refused.
        ensures nothing { changes.now ≡ [] → IsOk result }
    {
        if changes.is_empty() {
            sweep_if_due(&mut self.kept);
            return Ok((Listing::empty(self.alloc), MembershipPlan::none(self.alloc)));
        }
        let taken = take_up_all(self.alloc, &self.publication, &self.kept, changes, steps)?;
        let draft = settled(self.alloc, &self.kept, taken)?;
        let subscriptions = self.publication.subscriptions.as_slice();
        let moves = moves_of(self.alloc, subscriptions, &self.kept.held, &draft.marks)?;
        let plan = planned(self.alloc, &mut self.kept, draft)?;
        Ok((Listing::new(moves), plan))
    }

    /// Makes the changes of a plan, which is the last one that was prepared. No memory is taken,
    /// and spare memory goes back once it is the most.
    pub fn make(&mut self, plan: MembershipPlan)
        requires { IsPrepared self.old plan }
        ensures publication { self.new.publication ≡ self.old.publication }
        ensures live { live_in self.new ≡ live_after_plan self.old plan }
        ensures compact { IsCompact self.new }
    {
        let MembershipPlan {
            rows,
            marks,
            children,
            parents,
        } = plan;
        self.kept.index.children.settle(children);
        self.kept.index.parents.settle(parents);
        self.kept.held.rows.apply_and_sweep(rows);
        self.kept.held.marks.apply_and_sweep(marks);
    }

    /// Makes the changes, and gives the moves that they make: each row that entered the partition
    /// of a site or left it, by article, row and site, each once. After a refusal the rows are as
    /// before. It takes a step for each subscription and row that changes and lives afterwards, at
    /// most.
    pub fn update<L: Ledger>(
        &mut self,
        changes: &[RowChange],
        steps: &mut Steps<L>,
    ) -> Result<Moves, NoMemory>
        requires fits { All (FitsArticle self.old.publication) changes.now }
        requires once { EachRowOnce changes.now }
        ensures moves { IfOk result (λ moves. AreMoves self.old.publication (live_rows (live_in self.old)) (live_rows (live_in self.new)) moves) }
        ensures ok { OnOk result (live_in self.new ≡ live_after_all (live_in self.old) changes.now) }
        ensures err { OnErr result (live_in self.new ≡ live_in self.old) }
        ensures compact { OnOk result (IsCompact self.new) }
        ensures publication { self.new.publication ≡ self.old.publication }
        ensures cost { steps.new ≤ steps.old + length self.old.publication.subscriptions * living changes.now }

        // What takes no memory is not refused.
        ensures nothing { changes.now ≡ [] → IsOk result }
    {
        let (moves, plan) = self.prepare(changes, steps)?;
        self.make(plan);
        Ok(moves)
    }

    /// Whether the row is live and in the partition of the site. A site that does not subscribe
    /// has none.
    pub fn is_in(&self, article: u8, row: RowId, site: SiteId) -> bool
        ensures { result ≡ is_in_at self.now.publication site (live_rows (live_in self.now)) article row }
    {
        self.kept.held.rows.is_ordered();
        match place_of(self.publication.subscriptions.as_slice(), site) {
            Some(place) => marks_held(&self.kept.held.marks, &RowKey { article, row }).contains(
                place,
            ),
            None => false,
        }
    }
}

// The draft of the changes that were taken up, with each row marked by the rule.
fn settled(alloc: Global, kept: &Kept, taken: Draft) -> Result<Draft, NoMemory>
    requires drafted { AreDrafted kept.now.rules.links kept.now.index taken.index (rows_in kept.now.held.rows.rows taken.rows) }
    requires apart { NoneFollowsItself kept.now.rules.links }
    requires order { ParentsComeFirst kept.now.rules.links kept.now.rules.order }
    requires marks { taken.marks.rows ≡ [] }
    requires reached { AreReached kept.now.rules.links (children_found kept.now.index taken.index) (keys_of taken.waiting.values.rows) (keys_of taken.waiting.rows.rows) }
    requires met { AllMeet kept.now.rules.links (rows_in kept.now.held.rows.rows taken.rows) (marks_of kept.now.held.marks.rows) (pends kept.now.rules.order (keys_of taken.waiting.rows.rows)) }
    ensures rows { IfOk result (λ draft. draft.rows ≡ taken.rows) }
    ensures index { IfOk result (λ draft. draft.index ≡ taken.index) }
    ensures met { IfOk result (λ draft. (key : OneKey) → Meets kept.now.rules.links (rows_in kept.now.held.rows.rows taken.rows) (marks_in kept.now.held.marks.rows draft.marks.rows) key) }
    ensures drafted { IfOk result (λ draft. IsStrictlySortedBy key_cmp (keys_of draft.marks.rows)) }
    ensures ordered { IsStrictlySortedBy key_cmp (keys_of kept.now.held.rows.rows) }
    ensures marked { IsStrictlySortedBy key_cmp (keys_of kept.now.held.marks.rows) }
{
    let mut draft = taken;
    kept.held.rows.is_ordered();
    kept.held.marks.is_ordered();
    settle(alloc, kept, &mut draft)?;
    draft.marks.is_ordered();
    Ok(draft)
}

// Lets go of the room for plans that were never made, where it is the most.
fn sweep_if_due(kept: &mut Kept)
    ensures rules { kept.new.rules ≡ kept.old.rules }
    ensures rows { kept.new.held.rows.rows ≡ kept.old.held.rows.rows }
    ensures marks { kept.new.held.marks.rows ≡ kept.old.held.marks.rows }
    ensures children { kept.new.index.children.set ≡ kept.old.index.children.set }
    ensures parents { kept.new.index.parents.set ≡ kept.old.index.parents.set }
    ensures rows_room { length kept.new.held.rows.slots ≤ 2 * length kept.new.held.rows.rows }
    ensures marks_room { length kept.new.held.marks.slots ≤ 2 * length kept.new.held.marks.rows }
    ensures children_room { length kept.new.index.children.room ≤ 2 * length kept.new.index.children.set }
    ensures parents_room { length kept.new.index.parents.room ≤ 2 * length kept.new.index.parents.set }
{
    kept.held.rows.sweep_if_due();
    kept.held.marks.sweep_if_due();
    kept.index.children.sweep_if_due();
    kept.index.parents.sweep_if_due();
}

// What a draft changes, with the memory for it taken.
fn planned(alloc: Global, kept: &mut Kept, draft: Draft) -> Result<MembershipPlan, NoMemory>
    ensures rules { kept.new.rules ≡ kept.old.rules }
    ensures rows { kept.new.held.rows.rows ≡ kept.old.held.rows.rows }
    ensures marks { kept.new.held.marks.rows ≡ kept.old.held.marks.rows }
    ensures children { kept.new.index.children.set ≡ kept.old.index.children.set }
    ensures parents { kept.new.index.parents.set ≡ kept.old.index.parents.set }
    ensures edits { IfOk result (λ plan. plan.rows ≡ draft.rows) }
    ensures marked { IfOk result (λ plan. plan.marks ≡ mark_edits draft.marks.rows) }
    ensures as_children { IfOk result (λ plan. plan.children ≡ draft.index.children.changes.items) }
    ensures as_parents { IfOk result (λ plan. plan.parents ≡ draft.index.parents.changes.items) }
    ensures rows_ready { IfOk result (λ plan. IsReady key_cmp kept.new.held.rows.slots plan.rows) }
    ensures marks_ready { IfOk result (λ plan. IsReady key_cmp kept.new.held.marks.slots plan.marks) }
    ensures children_ready { IfOk result (λ plan. IsReady entry_cmp kept.new.index.children.room plan.children) }
    ensures parents_ready { IfOk result (λ plan. IsReady entry_cmp kept.new.index.parents.room plan.parents) }
    ensures rows_room { IfOk result (λ plan. length kept.new.held.rows.slots ≤ 2 * length kept.new.held.rows.rows + length plan.rows) }
    ensures marks_room { IfOk result (λ plan. length kept.new.held.marks.slots ≤ 2 * length kept.new.held.marks.rows + length plan.marks) }
    ensures children_room { IfOk result (λ plan. length kept.new.index.children.room ≤ 2 * length kept.new.index.children.set + length plan.children) }
    ensures parents_room { IfOk result (λ plan. length kept.new.index.parents.room ≤ 2 * length kept.new.index.parents.set + length plan.parents) }
{
    sweep_if_due(kept);
    let marks = mark_edits(alloc, &draft.marks)?;
    let Draft { rows, index, .. } = draft;
    let DraftIndexes { children, parents } = index;
    let rows = rows.into_edits();
    let children = children.into_changes();
    let parents = parents.into_changes();
    kept.held.rows.prepare(&rows)?;
    kept.held.marks.prepare(&marks)?;
    kept.index.children.prepare(&children)?;
    kept.index.parents.prepare(&parents)?;
    Ok(MembershipPlan {
        rows,
        marks,
        children,
        parents,
    })
}

// The changes by which the drafted marks take their place.
fn mark_edits(
    alloc: Global,
    drafted: &Table<RowKey, Sites>,
) -> Result<Vec<Edit<RowKey, Sites>>, NoMemory>
    ensures { IfOk result (λ edits. edits.items ≡ mark_edits drafted.now.rows) }
{
    let mut edits = Vec::new(alloc);
    for (key, sites) in drafted.iter() {
        edits.push(mark_edit(*key, *sites))?;
    }
    Ok(edits)
}

// The change after which the row has this mark, or none if it is empty.
fn mark_edit(key: RowKey, sites: Sites) -> Edit<RowKey, Sites>
    ensures { result ≡ mark_edit key sites }
{
    if sites.0 == 0 {
        Edit::Take(key)
    } else {
        Edit::Put(key, sites)
    }
}
