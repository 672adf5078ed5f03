//! A subscriber is made anew.
ghost use Rattle.std.specs.Prelude.{◌≡◌, ◌+◌, ◌++◌, ◌<◌, ◌⊎◌, ◌^◌, Err, IfOk, Ok, length};
ghost use Rattle.merge_types.specs.Limits.{counter_limit};
ghost use Rattle.merge_batch.specs.declared.refusal.Refusal.{Refusal as OneRefusal};
ghost use Rattle.merge_batch.specs.declared.refusal.Refusal.TheVariants.{NoMemory as no_memory};
ghost use Rattle.merge_conflict.specs.Rising.{AreRising};
ghost use Rattle.merge_model.specs.Judge.ByNumbers.{by_rows};
ghost use Rattle.merge_model.specs.Subscriber.Reinit.{reinitialise, tables_made_anew};
ghost use Rattle.merge_model.specs.Subscriber.{subscriber_at_moment, subscriber_closed};
ghost use Rattle.merge_sub.specs.Anew.{dropped_entries, dropped_rows, lost_from, lost_row};
ghost use Rattle.merge_sub.specs.Drafts.{IsDrafted, after, drafted};
ghost use Rattle.merge_sub.specs.Held.{AreNumbered, tables_of};

use crate::changes::RowEdit;
use crate::generations::add_takes;
use crate::still::later;
use crate::upload::unsent_items;
use crate::{Changes, Draft, State, Subscriber};
use merge_batch::{Refusal, UploadItem, UploadItems};
use merge_conflict::{ConflictKind, ConflictRow, ConflictRows, Verdict};
use merge_gens::IndexChanges;
use merge_table::{Edit, Table};
use merge_types::{Listing, Moment, NoMemory, RowKey, SiteId};
use merge_units::SubscriberRow;
use std::alloc::Global;

/// How rows are discarded: by which site, and when.
#[derive(Clone, Copy, Debug)]
pub struct Discarding {
    pub site: SiteId,
    pub latest: Moment,
}

impl Subscriber {
    /// Works out that the site begins anew: what it had not sent is kept in its conflict table, its
    /// rows are dropped, and it is to join again. Gives how many rows were discarded. Its identity
    /// ranges and its numbers stay.
    pub fn draft_anew(&mut self, now: Moment) -> Result<(Draft, u64), Refusal>
        ensures made { IfOk result (λ made. reinitialise (by_rows (tables_of self.old)) now (tables_of self.old) ≡ Ok (drafted (tables_of self.old) made)) }
        ensures ready { IfOk result (λ made. IsDrafted self.new made.0) }
        ensures refused { (refusal : OneRefusal) → result ≡ Err refusal → (refusal ≡ no_memory) ⊎ (reinitialise (by_rows (tables_of self.old)) now (tables_of self.old) ≡ Err refusal) }
        ensures same { tables_of self.new ≡ tables_of self.old }
        ensures publication { self.new.publication ≡ self.old.publication }
    {
        self.check_counters()?;
        let open = self.gens.last_closed() + 1;
        let items = unsent_items(
            self.alloc,
            &self.unsent,
            &self.rows,
            self.state.received,
            open,
        )?;
        let latest = later(now, self.state.latest);
        let discarding = Discarding {
            site: self.site,
            latest,
        };
        let lost = lost_rows(self.alloc, items, discarding, self.state.conflict_count)?;
        let count = lost.len() as u64;
        let _ = self.conflicts.rows();
        Ok((self.draft_emptied(lost, now)?, count))
    }
}

// The own versions that are discarded, numbered behind a number.
fn lost_rows(
    alloc: Global,
    items: UploadItems,
    discarding: Discarding,
    number: u64,
) -> Result<ConflictRows, NoMemory>
    requires low { number < counter_limit }
    requires few { length items < 2 ^ 63 }
    ensures lost { IfOk result (λ lost. lost ≡ lost_from discarding (number + 1) items) }
    ensures few { IfOk result (λ lost. length lost < 2 ^ 63) }
{
    let mut lost = Listing::empty(alloc);
    let mut number = number;
    for item in items.into_vec() {
        number += 1;
        lost.push(lost_row(discarding, number, item))?;
    }
    Ok(lost)
}

fn lost_row(discarding: Discarding, number: u64, item: UploadItem) -> ConflictRow
    ensures { result ≡ lost_row discarding number item }
{
    let UploadItem {
        article,
        row,
        version,
        ..
    } = item;
    ConflictRow {
        number,
        article,
        row,
        kind: ConflictKind::Discarded,
        losing: version,
        from: discarding.site,
        verdict: Verdict::Discarded,
        moment: discarding.latest,
    }
}

// Every row is dropped.
fn dropped_rows(
    alloc: Global,
    rows: &Table<RowKey, SubscriberRow>,
) -> Result<Listing<RowEdit>, NoMemory>
    ensures { IfOk result (λ edits. edits ≡ dropped_rows rows.now.rows) }
{
    let mut edits = Listing::empty(alloc);
    for (key, _) in rows.iter() {
        edits.push(Edit::Take(*key))?;
    }
    Ok(edits)
}

// No row keeps a generation.
fn dropped_entries(
    alloc: Global,
    rows: &Table<RowKey, SubscriberRow>,
) -> Result<IndexChanges, NoMemory>
    ensures { IfOk result (λ changes. changes ≡ dropped_entries rows.now.rows) }
{
    let mut changes = Listing::empty(alloc);
    for (key, row) in rows.iter() {
        add_takes(&mut changes, *key, row.generations.as_slice())?;
    }
    Ok(changes)
}

impl Subscriber {
    // The draft of a site that begins anew.
    fn draft_emptied(&mut self, lost: ConflictRows, now: Moment) -> Result<Draft, NoMemory>
        requires conflicts { self.old.state.conflict_count < counter_limit }
        requires closed { self.old.gens.book.filling.last_closed < counter_limit }
        requires few { length lost < 2 ^ 63 }
        requires rising { AreRising (self.old.conflicts.rows ++ lost) }
        requires numbered { AreNumbered (self.old.state.conflict_count + length lost) (self.old.conflicts.rows ++ lost) }
        ensures made { IfOk result (λ draft. after draft.changes (tables_of self.old) ≡ tables_made_anew lost (subscriber_closed (subscriber_at_moment now (tables_of self.old)))) }
        ensures ready { IfOk result (λ draft. IsDrafted self.new draft) }
        ensures same { tables_of self.new ≡ tables_of self.old }
        ensures publication { self.new.publication ≡ self.old.publication }
    {
        let (last, gens) = self.gens.prepare_close(Moment(self.state.changes))?;
        let state = State {
            conflict_count: self.state.conflict_count + lost.len() as u64,
            latest: later(now, self.state.latest),
            outstanding: None,
            received: last,
            watermark: 0,
            is_joined: false,
            ..self.state
        };
        let index = dropped_entries(self.alloc, &self.rows)?;
        let rows = dropped_rows(self.alloc, &self.rows)?;
        let conflicts = self.conflicts.prepare(lost)?;
        let changes = Changes {
            state,
            gens,
            done: Some(last),
            rows,
            held: Listing::empty(self.alloc),
            conflicts,
        };
        let draft = self.prepare(changes, index)?;
        Ok(draft)
    }
}
