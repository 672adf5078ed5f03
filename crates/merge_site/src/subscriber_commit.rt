//! A step of a subscriber is committed, and only then put in place.
ghost use Rattle.std.specs.Prelude.{◌≡◌, ◌≤◌, ◌⊎◌, Bool, Err, IfErr, IfOk, Ok, OnErr, OnOk, Option, Result as OneResult, Some, false, true};
ghost use Rattle.merge_batch.specs.declared.refusal.Refusal.{Refusal as OneRefusal};
ghost use Rattle.merge_conflict.specs.Table as conflicts;
ghost use Rattle.merge_gens.specs.Plan.{IsPrepared};
ghost use Rattle.merge_keeper.specs.Edits.{AreSubscriberShort};
ghost use Rattle.merge_keeper.specs.Stored.{FitSubscriber};
ghost use Rattle.merge_model.specs.World.Calls.{Called, RefusesOnlyAs, message_commits, message_or_none};
ghost use Rattle.merge_model.specs.Tables.{SubscriberTables};
ghost use Rattle.merge_sub.specs.Drafts.{IsDrafted, IsDraftedIfAny, after, drafted, drafted_if_any};
ghost use Rattle.merge_sub.specs.Held.{tables_of};
ghost use Rattle.merge_sub.specs.declared.changes.Draft.{Draft as OneDraft};
ghost use Rattle.merge_world.specs.Printable.{AreLostPrintable, ArePrintable};
ghost use Rattle.merge_site.specs.Calls.{StopsAs, WorkedOut};
ghost use Rattle.merge_site.specs.Kept.{LeadTo};
ghost use Rattle.merge_site.specs.Subscribers.{AreKeyed, AreStoredAs, IsKeptSubscriber, records_of};

use crate::committing::commit;
use crate::copies::copies_of;
use crate::lists::{closing_changes, conflict_changes, held_puts, up_to, were_received};
use crate::places::fit_places;
use crate::short::are_short;
use merge_batch::Refusal;
use merge_gens::Closing;
use merge_keeper::SubscriberChanges;
use merge_ports::{EntryEdit, Keeper};
use merge_sub::{Changes, Draft, Subscriber};
use merge_types::NoMemory;
use std::alloc::Global;

// A step's changes as its commit has them.
fn stored_changes(
    alloc: Global,
    kept: &[Closing],
    changes: &Changes,
) -> Result<SubscriberChanges, NoMemory>
    ensures { IfOk result (λ stored. AreStoredAs kept.now changes.now stored) }
{
    let state = changes.state;
    let forgets = up_to(changes.done);
    Ok(SubscriberChanges {
        changes: state.changes,
        filling: changes.gens.filling,
        conflict_count: state.conflict_count,
        latest: state.latest,
        seq: state.seq,
        outstanding: state.outstanding,
        received: state.received,
        watermark: state.watermark,
        is_joined: state.is_joined,
        rows: copies_of(alloc, changes.rows.as_slice())?,
        closings: closing_changes(alloc, kept, changes.gens.closings.as_slice(), forgets)?,
        conflicts: conflict_changes(alloc, changes.conflicts.rows.as_slice())?,
        held: held_puts(alloc, changes.held.as_slice())?,
    })
}

// Refuses changes that have no record.
fn check_stored(changes: &SubscriberChanges) -> Result<(), NoMemory>
    ensures fit { OnOk result (FitSubscriber changes.now) }
    ensures short { OnOk result (AreSubscriberShort changes.now) }
{
    let rows = changes.rows.as_slice();
    let closings = changes.closings.as_slice();
    let conflicts = changes.conflicts.as_slice();
    fit_places(rows);
    fit_places(closings);
    fit_places(conflicts);
    if are_short(rows) && are_short(conflicts) && were_received(changes.held.as_slice()) {
        Ok(())
    } else {
        Err(NoMemory)
    }
}

// The edits of a step's commit.
fn edits_of(
    alloc: Global,
    subscriber: &Subscriber,
    changes: &Changes,
) -> Result<Vec<EntryEdit>, NoMemory>
    requires gens { IsPrepared subscriber.now.gens changes.now.gens }
    requires conflicts { conflicts.IsReady subscriber.now.conflicts changes.now.conflicts }
    requires keyed { AreKeyed (tables_of subscriber.now) }
    requires printable { ArePrintable (λ row. row.version) (tables_of subscriber.now).rows }
    requires lost { AreLostPrintable (tables_of subscriber.now).conflicts }
    ensures lead { IfOk result (λ edits. LeadTo edits.items (records_of (tables_of subscriber.now)) (records_of (after changes.now (tables_of subscriber.now)))) }
    ensures keyed { OnOk result (AreKeyed (after changes.now (tables_of subscriber.now))) }
    ensures printable { OnOk result (ArePrintable (λ row. row.version) (after changes.now (tables_of subscriber.now)).rows) }
    ensures lost { OnOk result (AreLostPrintable (after changes.now (tables_of subscriber.now)).conflicts) }
{
    let stored = stored_changes(alloc, subscriber.closings(), changes)?;
    check_stored(&stored)?;
    let edits = stored.edits(alloc, subscriber.site())?;
    Ok(edits)
}

/// Commits the changes of a draft, and puts them in place. After the commit nothing can fail, and
/// before it nothing has changed.
pub(crate) fn commit_and_settle<K: Keeper>(
    alloc: Global,
    keeper: &mut K,
    subscriber: &mut Subscriber,
    draft: Draft,
) -> Result<(), Refusal>
    requires drafted { IsDrafted subscriber.old draft }
    requires kept { IsKeptSubscriber (tables_of subscriber.old) (K.told keeper.old) }
    ensures ok { OnOk result (tables_of subscriber.new ≡ after draft.changes (tables_of subscriber.old)) }
    ensures err { OnErr result (tables_of subscriber.new ≡ tables_of subscriber.old) }
    ensures kept { IsKeptSubscriber (tables_of subscriber.new) (K.told keeper.new) }
    ensures publication { subscriber.new.publication ≡ subscriber.old.publication }
    ensures site { subscriber.new.site ≡ subscriber.old.site }
    ensures count { OnOk result (K.count keeper.new ≡ K.count keeper.old) }
    ensures later { K.count keeper.old ≤ K.count keeper.new }
    ensures why { IfErr result (λ why. StopsAs why (K.count keeper.old) (K.count keeper.new)) }
{
    let edits = edits_of(alloc, subscriber, &draft.changes)?;
    commit(keeper, &edits)?;
    subscriber.settle(draft);
    Ok(())
}

/// Ends a call whose step was worked out: where it changes a record it is committed, and then put in
/// place.
pub(crate) fn finish<K: Keeper, A: Drop>(
    alloc: Global,
    keeper: &mut K,
    subscriber: &mut Subscriber,
    worked: Result<(Draft, A), Refusal>,
    commits: bool,
) -> Result<A, Refusal>
    requires drafted { IfOk worked (λ made. IsDrafted subscriber.old made.0) }
    requires still { IfOk worked (λ made. commits ≡ false → after made.0.changes (tables_of subscriber.old) ≡ tables_of subscriber.old) }
    requires kept { IsKeptSubscriber (tables_of subscriber.old) (K.told keeper.old) }
    ensures called { (by : OneResult (SubscriberTables × A) OneRefusal) (of : A → Bool) → WorkedOut (drafted (tables_of subscriber.old)) by worked → IfOk worked (λ made. commits ≡ true → of made.1 ≡ true)
        → Called by of (tables_of subscriber.old) (tables_of subscriber.new) (K.count keeper.old) (K.count keeper.new) result }
    ensures kept { IsKeptSubscriber (tables_of subscriber.new) (K.told keeper.new) }
    ensures publication { subscriber.new.publication ≡ subscriber.old.publication }
    ensures site { subscriber.new.site ≡ subscriber.old.site }

    // Where nothing is committed nothing else refuses it.
    ensures nothing { commits ≡ false → RefusesOnlyAs worked result }
{
    let (draft, answer) = worked?;
    if commits {
        commit_and_settle(alloc, keeper, subscriber, draft)?;
        return Ok(answer);
    }
    Ok(answer)
}

// Commits a message that was made, and gives it.
fn finish_made<K: Keeper, A: Drop>(
    alloc: Global,
    keeper: &mut K,
    subscriber: &mut Subscriber,
    draft: Draft,
    message: A,
) -> Result<Option<A>, Refusal>
    requires drafted { IsDrafted subscriber.old draft }
    requires kept { IsKeptSubscriber (tables_of subscriber.old) (K.told keeper.old) }
    ensures called { (by : OneResult (Option (SubscriberTables × A)) OneRefusal) → by ≡ Ok (Some (after draft.changes (tables_of subscriber.old), message))
        → Called (message_or_none (tables_of subscriber.old) by) message_commits (tables_of subscriber.old) (tables_of subscriber.new) (K.count keeper.old) (K.count keeper.new) result }
    ensures kept { IsKeptSubscriber (tables_of subscriber.new) (K.told keeper.new) }
    ensures publication { subscriber.new.publication ≡ subscriber.old.publication }
    ensures site { subscriber.new.site ≡ subscriber.old.site }
{
    commit_and_settle(alloc, keeper, subscriber, draft)?;
    Ok(Some(message))
}

/// The same of a message, where there may be none to make. One that is made takes a number, which is
/// a change of a record.
pub(crate) fn finish_message<K: Keeper, A: Drop>(
    alloc: Global,
    keeper: &mut K,
    subscriber: &mut Subscriber,
    worked: Result<Option<(Draft, A)>, Refusal>,
) -> Result<Option<A>, Refusal>
    requires drafted { IfOk worked (λ made. IsDraftedIfAny subscriber.old made) }
    requires kept { IsKeptSubscriber (tables_of subscriber.old) (K.told keeper.old) }
    ensures called { (by : OneResult (Option (SubscriberTables × A)) OneRefusal) → WorkedOut (drafted_if_any (tables_of subscriber.old)) by worked
        → Called (message_or_none (tables_of subscriber.old) by) message_commits (tables_of subscriber.old) (tables_of subscriber.new) (K.count keeper.old) (K.count keeper.new) result }
    ensures kept { IsKeptSubscriber (tables_of subscriber.new) (K.told keeper.new) }
    ensures publication { subscriber.new.publication ≡ subscriber.old.publication }
    ensures site { subscriber.new.site ≡ subscriber.old.site }

    // Where no message was made nothing else refuses it.
    ensures nothing { (why : OneRefusal) → result ≡ Err why → (worked ≡ Err why) ⊎ ((made : OneDraft × A) × (worked ≡ Ok (Some made))) }
{
    match worked? {
        None => Ok(None),
        Some((draft, message)) => finish_made(alloc, keeper, subscriber, draft, message),
    }
}
