//! A step of the publisher is committed, and only then put in place.
ghost use Rattle.std.specs.Prelude.{◌≡◌, ◌≤◌, Bool, IfErr, IfOk, IsOk, OnErr, OnOk, Result as OneResult, false, true};
ghost use Rattle.merge_batch.specs.declared.refusal.Refusal.{Refusal as OneRefusal};
ghost use Rattle.merge_conflict.specs.Table as conflicts;
ghost use Rattle.merge_gens.specs.Plan.{IsPrepared};
ghost use Rattle.merge_ident.specs.Books as grants;
ghost use Rattle.merge_keeper.specs.Edits.{ArePublisherShort};
ghost use Rattle.merge_model.specs.World.Calls.{Called, RefusesOnlyAs};
ghost use Rattle.merge_model.specs.Tables.{PublisherTables};
ghost use Rattle.merge_pub.specs.After.{after};
ghost use Rattle.merge_pub.specs.Held.{IsDrafted, publication_of, tables_of};
ghost use Rattle.merge_pub.specs.PurgeDrafts.{after_purge};
ghost use Rattle.merge_world.specs.Printable.{AreLostPrintable, ArePrintable};
ghost use Rattle.merge_site.specs.Calls.{StopsAs, WorkedOut};
ghost use Rattle.merge_site.specs.Kept.{LeadTo};
ghost use Rattle.merge_site.specs.Publishers.{AreKeyed, AreStoredAs, FitFields, IsKeptPublisher, after_forgetting, records_of, tables_after_draft};

use crate::committing::commit;
use crate::copies::copies_of;
use crate::grants::{fit_grants, granted_by};
use crate::lists::{Forgets, closing_changes, conflict_changes, held_puts, were_received};
use crate::places::fit_places;
use crate::short::are_short;
use merge_batch::Refusal;
use merge_gens::Closing;
use merge_keeper::PublisherChanges;
use merge_ports::{EntryEdit, Keeper};
use merge_pub::{Publisher, PurgeDraft};
use merge_steps::{Changes, Draft};
use merge_types::NoMemory;
use std::alloc::Global;

// A step's changes as its commit has them.
fn stored_changes(
    alloc: Global,
    kept: &[Closing],
    changes: &Changes,
    forgets: Option<Forgets>,
) -> Result<PublisherChanges, NoMemory>
    ensures { IfOk result (λ stored. AreStoredAs kept.now forgets changes.now stored) }
{
    Ok(PublisherChanges {
        changes: changes.changes,
        filling: changes.gens.filling,
        conflict_count: changes.conflict_count,
        latest: changes.latest,
        rows: copies_of(alloc, changes.rows.as_slice())?,
        mappings: copies_of(alloc, changes.mappings.as_slice())?,
        closings: closing_changes(alloc, kept, changes.gens.closings.as_slice(), forgets)?,
        conflicts: conflict_changes(alloc, changes.conflicts.rows.as_slice())?,
        grants: granted_by(alloc, changes.grants.as_slice())?,
        held: held_puts(alloc, changes.held.as_slice())?,
        sites: copies_of(alloc, changes.sites.as_slice())?,
    })
}

// Refuses changes that have no record.
fn check_stored(changes: &PublisherChanges) -> Result<(), NoMemory>
    ensures fit { OnOk result (FitFields changes.now) }
    ensures short { OnOk result (ArePublisherShort changes.now) }
{
    let rows = changes.rows.as_slice();
    let conflicts = changes.conflicts.as_slice();
    fit_places(rows);
    fit_places(changes.mappings.as_slice());
    fit_places(changes.closings.as_slice());
    fit_places(conflicts);
    fit_places(changes.sites.as_slice());
    fit_grants(changes.grants.as_slice());
    if are_short(rows) && are_short(conflicts) && were_received(changes.held.as_slice()) {
        Ok(())
    } else {
        Err(NoMemory)
    }
}

// The edits of a step's commit.
fn edits_of(
    alloc: Global,
    publisher: &Publisher,
    changes: &Changes,
    forgets: Option<Forgets>,
) -> Result<Vec<EntryEdit>, NoMemory>
    requires gens { IsPrepared publisher.now.gens changes.now.gens }
    requires conflicts { conflicts.IsReady publisher.now.conflicts changes.now.conflicts }
    requires grants { grants.IsReady publisher.now.grants changes.now.grants }
    requires keyed { AreKeyed (tables_of publisher.now) }
    requires printable { ArePrintable (λ row. row.version) (tables_of publisher.now).rows }
    requires lost { AreLostPrintable (tables_of publisher.now).conflicts }
    ensures lead { IfOk result (λ edits. LeadTo edits.items (records_of (tables_of publisher.now)) (records_of (after_forgetting forgets changes.now (tables_of publisher.now)))) }
    ensures keyed { OnOk result (AreKeyed (after_forgetting forgets changes.now (tables_of publisher.now))) }
    ensures printable { OnOk result (ArePrintable (λ row. row.version) (after_forgetting forgets changes.now (tables_of publisher.now)).rows) }
    ensures lost { OnOk result (AreLostPrintable (after_forgetting forgets changes.now (tables_of publisher.now)).conflicts) }
{
    let _ = publisher.grants();
    let stored = stored_changes(alloc, publisher.closings(), changes, forgets)?;
    check_stored(&stored)?;
    let edits = stored.edits(alloc)?;
    Ok(edits)
}

// Commits the changes of a step. They are still to be put in place.
fn commit_changes<K: Keeper>(
    alloc: Global,
    keeper: &mut K,
    publisher: &Publisher,
    changes: &Changes,
    forgets: Option<Forgets>,
) -> Result<(), Refusal>
    requires gens { IsPrepared publisher.now.gens changes.now.gens }
    requires conflicts { conflicts.IsReady publisher.now.conflicts changes.now.conflicts }
    requires grants { grants.IsReady publisher.now.grants changes.now.grants }
    requires kept { IsKeptPublisher (tables_of publisher.now) (K.told keeper.old) }
    ensures ok { OnOk result (IsKeptPublisher (after_forgetting forgets changes.now (tables_of publisher.now)) (K.told keeper.new)) }
    ensures err { OnErr result (IsKeptPublisher (tables_of publisher.now) (K.told keeper.new)) }
    ensures count { OnOk result (K.count keeper.new ≡ K.count keeper.old) }
    ensures later { K.count keeper.old ≤ K.count keeper.new }
    ensures why { IfErr result (λ why. StopsAs why (K.count keeper.old) (K.count keeper.new)) }
{
    let edits = edits_of(alloc, publisher, changes, forgets)?;
    commit(keeper, &edits)?;
    Ok(())
}

/// Commits the changes of a draft, and puts them in place. After the commit nothing can fail, and
/// before it nothing has changed.
pub(crate) fn commit_and_settle<K: Keeper>(
    alloc: Global,
    keeper: &mut K,
    publisher: &mut Publisher,
    draft: Draft,
) -> Result<(), Refusal>
    requires drafted { IsDrafted publisher.old draft }
    requires kept { IsKeptPublisher (tables_of publisher.old) (K.told keeper.old) }
    ensures ok { OnOk result (tables_of publisher.new ≡ after draft.changes (tables_of publisher.old)) }
    ensures err { OnErr result (tables_of publisher.new ≡ tables_of publisher.old) }
    ensures kept { IsKeptPublisher (tables_of publisher.new) (K.told keeper.new) }
    ensures publication { publication_of publisher.new ≡ publication_of publisher.old }
    ensures count { OnOk result (K.count keeper.new ≡ K.count keeper.old) }
    ensures later { K.count keeper.old ≤ K.count keeper.new }
    ensures why { IfErr result (λ why. StopsAs why (K.count keeper.old) (K.count keeper.new)) }
{
    commit_changes(alloc, keeper, publisher, &draft.changes, None)?;
    publisher.settle(draft);
    Ok(())
}

/// The same of a purge, which also forgets closed generations.
pub(crate) fn commit_and_purge<K: Keeper>(
    alloc: Global,
    keeper: &mut K,
    publisher: &mut Publisher,
    purge: PurgeDraft,
) -> Result<(), Refusal>
    requires drafted { IsDrafted publisher.old purge.draft }
    requires kept { IsKeptPublisher (tables_of publisher.old) (K.told keeper.old) }
    ensures ok { OnOk result (tables_of publisher.new ≡ after_purge purge (tables_of publisher.old)) }
    ensures err { OnErr result (tables_of publisher.new ≡ tables_of publisher.old) }
    ensures kept { IsKeptPublisher (tables_of publisher.new) (K.told keeper.new) }
    ensures publication { publication_of publisher.new ≡ publication_of publisher.old }
    ensures count { OnOk result (K.count keeper.new ≡ K.count keeper.old) }
    ensures later { K.count keeper.old ≤ K.count keeper.new }
    ensures why { IfErr result (λ why. StopsAs why (K.count keeper.old) (K.count keeper.new)) }
{
    let forgets = Some(Forgets::Before(purge.cutoff));
    commit_changes(alloc, keeper, publisher, &purge.draft.changes, forgets)?;
    publisher.settle_purge(purge);
    Ok(())
}

/// Ends a call whose step was worked out: where it changes a record it is committed, and then put in
/// place.
pub(crate) fn finish<K: Keeper, A: Drop>(
    alloc: Global,
    keeper: &mut K,
    publisher: &mut Publisher,
    worked: Result<(Draft, A), Refusal>,
    commits: bool,
) -> Result<A, Refusal>
    requires drafted { IfOk worked (λ made. IsDrafted publisher.old made.0) }
    requires still { IfOk worked (λ made. commits ≡ false → after made.0.changes (tables_of publisher.old) ≡ tables_of publisher.old) }
    requires kept { IsKeptPublisher (tables_of publisher.old) (K.told keeper.old) }
    ensures called { (by : OneResult (PublisherTables × A) OneRefusal) (of : A → Bool) → WorkedOut (tables_after_draft (tables_of publisher.old)) by worked → IfOk worked (λ made. commits ≡ true → of made.1 ≡ true)
        → Called by of (tables_of publisher.old) (tables_of publisher.new) (K.count keeper.old) (K.count keeper.new) result }
    ensures worked { OnOk result (IsOk worked) }
    ensures kept { IsKeptPublisher (tables_of publisher.new) (K.told keeper.new) }
    ensures publication { publication_of publisher.new ≡ publication_of publisher.old }

    // Where nothing is committed nothing else refuses it.
    ensures nothing { commits ≡ false → RefusesOnlyAs worked result }
{
    let (draft, answer) = worked?;
    if commits {
        commit_and_settle(alloc, keeper, publisher, draft)?;
        return Ok(answer);
    }
    Ok(answer)
}
