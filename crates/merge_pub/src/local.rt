//! A change at the publisher itself.
ghost use Rattle.std.specs.Prelude.{◌≡◌, ◌⊎◌, ◌≤◌, ◌<◌, ◌+◌, [], true, None, Ok, Err, Some, IfOk, IfErr, OnOk, length};
ghost use Rattle.std.specs.Option.{option_copied};
ghost use Rattle.merge_types.specs.Limits.{number_limit};
ghost use Rattle.merge_units.specs.Changes.{ColumnsAscend};
ghost use Rattle.merge_batch.specs.Articles.{has_article};
ghost use Rattle.merge_batch.specs.LocalChanges.{article_of, settings_of, version_after};
ghost use Rattle.merge_batch.specs.declared.refusal.Refusal.{Refusal as OneRefusal};
ghost use Rattle.merge_batch.specs.declared.refusal.Refusal.TheVariants.{NoMemory as no_memory};
ghost use Rattle.merge_change.specs.Allowed.{CanBeAsked, FitsHeld, HasIdentity, IsAllowed, IsNewAt};
ghost use Rattle.merge_model.specs.Judge.ByNumbers.{by_numbers};
ghost use Rattle.merge_model.specs.Tables.Publications.{rules_of};
ghost use Rattle.merge_model.specs.Publisher.PublisherLocal.{local};
ghost use Rattle.merge_pub.specs.After.{after};
ghost use Rattle.merge_ident.specs.Books.{IsReady};
ghost use Rattle.merge_steps.specs.Drawing.{Draws, KeepsHeld, drawn_by};
ghost use Rattle.merge_pub.specs.Held.{IsDrafted, publication_of, tables_of};
ghost use Rattle.merge_steps.specs.Keeps.{AreHeard, HaveColumns};
ghost use Rattle.merge_pub.specs.Local.{Refuses, changed_version, held_version, rows_refusal, versions_after};
ghost use Rattle.merge_pub.specs.Refused.{RefusesAs};

use crate::closing::{counters_go_on, later};
use crate::publisher::Publisher;
use merge_batch::Refusal;
use merge_change::{Making, check_change, key_of, version_after};
use merge_conflict::ConflictPlan;
use merge_ident::{RangeBook, Ranges};
use merge_schema::Publication;
use merge_steps::{Besides, Draft, Draw, draw_value};
use merge_table::Table;
use merge_types::{Change, Dot, Listing, Moment, NoMemory, RowId, RowKey, SiteId, Steps, Value};
use merge_units::{PublisherRow, Version};
use std::alloc::Global;
use std::sync::ledger::Ledger;

// The version of a row that is held.
fn held_version(rows: &Table<RowKey, PublisherRow>, key: RowKey) -> Option<&Version>
    ensures { option_copied result ≡ held_version rows.now.rows key }
{
    match rows.get(&key) {
        Some(row) => Some(&row.version),
        None => None,
    }
}

// Refuses a change of the rows that are held.
fn check_rows(
    publication: &Publication,
    rows: &Table<RowKey, PublisherRow>,
    change: &Change,
    dot: Dot,
) -> Result<(), Refusal>
    requires low { 1 ≤ dot.number }
    requires high { dot.number < number_limit }
    requires asked { CanBeAsked publication.now change.now (changed_version dot change.now rows.now.rows) }
    ensures allowed { OnOk result (IsAllowed publication.now change.now (changed_version dot change.now rows.now.rows)) }
    ensures ok { OnOk result (rows_refusal publication.now dot change.now rows.now.rows ≡ None) }
    ensures err { IfErr result (λ refusal. rows_refusal publication.now dot change.now rows.now.rows ≡ Some refusal) }
{
    let _ = rows.iter();
    check_change(
        publication,
        change,
        held_version(rows, key_of(dot, change)),
        rows.len(),
    )
}

// The version that the row of a change gets, with its row.
fn versions_after(
    alloc: Global,
    publication: &Publication,
    rows: &Table<RowKey, PublisherRow>,
    change: &Change,
    dot: Dot,
    identity: &Value,
) -> Result<Vec<(RowKey, Version)>, NoMemory>
    requires low { 1 ≤ dot.number }
    requires high { dot.number < number_limit }
    requires asked { CanBeAsked publication.now change.now (changed_version dot change.now rows.now.rows) }
    requires allowed { IsAllowed publication.now change.now (changed_version dot change.now rows.now.rows) }
    requires new { IsNewAt dot (changed_version dot change.now rows.now.rows) }
    requires value { HasIdentity publication.now change.now identity.now }
    ensures versions { IfOk result (λ versions. versions.items ≡ versions_after publication.now dot identity.now change.now rows.now.rows) }
    ensures fit { IfOk result (λ versions. FitsHeld publication.now (article_of change.now) (version_after publication.now dot identity.now change.now (changed_version dot change.now rows.now.rows))) }
{
    let key = key_of(dot, change);
    let making = Making {
        change,
        dot,
        identity: identity.clone()?,
    };
    let mut versions = Vec::new(alloc);
    if let Some(version) = version_after(alloc, publication, &making, held_version(rows, key))? {
        versions.push((key, version))?;
    }
    Ok(versions)
}

// What a change makes of the rows and the ranges that are held: the version of its row, and its
// identity value.
fn change_row(
    alloc: Global,
    publication: &Publication,
    rows: &Table<RowKey, PublisherRow>,
    book: &mut RangeBook,
    held: &Table<u8, Ranges>,
    change: &Change,
    dot: Dot,
) -> Result<(Vec<(RowKey, Version)>, Draw), Refusal>
    requires low { 1 ≤ dot.number }
    requires high { dot.number < number_limit }
    requires asked { CanBeAsked publication.now change.now (changed_version dot change.now rows.now.rows) }
    requires new { IsNewAt dot (changed_version dot change.now rows.now.rows) }
    requires rules { book.old.rules ≡ rules_of publication.now }
    requires columns { HaveColumns publication.now held.now.rows }
    requires heard { AreHeard book.old.grants held.now.rows }
    ensures allowed { OnOk result (rows_refusal publication.now dot change.now rows.now.rows ≡ None) }
    ensures draws { IfOk result (λ w. Draws publication.now change.now book.old.grants held.now.rows (Ok (drawn_by book.old.grants held.now.rows w.1))) }
    ensures versions { IfOk result (λ w. w.0.items ≡ versions_after publication.now dot w.1.value change.now rows.now.rows) }
    ensures fit { IfOk result (λ w. FitsHeld publication.now (article_of change.now) (version_after publication.now dot w.1.value change.now (changed_version dot change.now rows.now.rows))) }
    ensures ready { IfOk result (λ w. IsReady book.new w.1.grants) }
    ensures keeps { IfOk result (λ w. KeepsHeld book.old.grants held.now.rows w.1) }
    ensures refused { IfErr result (λ refusal. Refuses publication.now dot change.now rows.now.rows book.old.grants held.now.rows refusal) }
    ensures same { book.new.grants ≡ book.old.grants }
    ensures rules { book.new.rules ≡ book.old.rules }
{
    check_rows(publication, rows, change, dot)?;
    let drawn = draw_value(alloc, publication, book, held, change)?;
    let versions = versions_after(alloc, publication, rows, change, dot, &drawn.value)?;
    Ok((versions, drawn))
}

// What a change does besides giving its row a version.
fn besides_of(
    alloc: Global,
    changes: u64,
    conflict_count: u64,
    latest: Moment,
    drawn: Draw,
) -> Besides
    ensures { result ≡ record { changes = changes; conflict_count = conflict_count; latest = latest; sites = []; conflicts = record { rows = [] }; grants = drawn.grants; held = drawn.held } }
{
    Besides {
        changes,
        conflict_count,
        latest,
        sites: Listing::empty(alloc),
        conflicts: ConflictPlan {
            rows: Listing::empty(alloc),
        },
        grants: drawn.grants,
        held: drawn.held,
    }
}

impl Publisher {
    /// Works out a change of a row, and gives its row. The change's article exists, and its
    /// columns ascend. The filter of each subscription is evaluated once, at most.
    pub fn draft_local<L: Ledger>(
        &mut self,
        now: Moment,
        change: &Change,
        steps: &mut Steps<L>,
    ) -> Result<(Draft, RowId), Refusal>
        requires place { has_article (publication_of self.old) (article_of change.now) ≡ true }
        requires ascend { ColumnsAscend (settings_of change.now) }
        ensures made { IfOk result (λ d. local (publication_of self.old) (by_numbers (tables_of self.old)) now change.now (tables_of self.old) ≡ Ok (after d.0.changes (tables_of self.old), d.1)) }
        ensures ready { IfOk result (λ d. IsDrafted self.new d.0) }
        ensures refused { (refusal : OneRefusal) → result ≡ Err refusal → (refusal ≡ no_memory) ⊎ (local (publication_of self.old) (by_numbers (tables_of self.old)) now change.now (tables_of self.old) ≡ Err refusal) }
        ensures refuses { RefusesAs (local (publication_of self.old) (by_numbers (tables_of self.old)) now change.now (tables_of self.old)) result }
        ensures same { tables_of self.new ≡ tables_of self.old }
        ensures publication { publication_of self.new ≡ publication_of self.old }
        ensures cost { steps.new ≤ steps.old + length (publication_of self.old).subscriptions }
    {
        counters_go_on(self.changes, self.gens.last_closed(), self.conflict_count)?;
        let dot = Dot {
            site: SiteId(0),
            number: self.changes + 1,
        };
        let (versions, drawn) = change_row(
            self.alloc,
            self.membership.publication(),
            &self.rows,
            &mut self.grants,
            &self.held,
            change,
            dot,
        )?;
        let latest = later(now, self.latest);
        let besides = besides_of(self.alloc, dot.number, self.conflict_count, latest, drawn);
        let draft = self.draft_versions(versions, &[], 0, besides, steps)?;
        Ok((draft, key_of(dot, change).row))
    }
}
