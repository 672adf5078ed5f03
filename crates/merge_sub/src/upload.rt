//! What a site sends: the rows that it changed in generations that the publisher has not taken.
ghost use Rattle.std.specs.List.Sorted.{IsStrictlySortedBy};
ghost use Rattle.std.specs.List.{cons_option};
ghost use Rattle.std.specs.Map.{keys_of};
ghost use Rattle.std.specs.Prelude.{◌≡◌, ◌+◌, ◌++◌, ◌<◌, ◌≤◌, ◌⊎◌, ◌^◌, [], Err, IfOk, Ok, OnOk, filter_map, length, unwrap_or};
ghost use Rattle.merge_types.specs.Limits.{counter_limit};
ghost use Rattle.merge_types.specs.RowKeys.{key_cmp};
ghost use Rattle.merge_batch.specs.declared.refusal.Refusal.{Refusal as OneRefusal};
ghost use Rattle.merge_batch.specs.declared.refusal.Refusal.TheVariants.{NoMemory as no_memory};
ghost use Rattle.merge_gens.specs.Book.{closed_now, moment_of};
ghost use Rattle.merge_model.specs.Judge.ByNumbers.{by_rows, last_between};
ghost use Rattle.merge_model.specs.Publisher.PublisherDownload.{batch_end};
ghost use Rattle.merge_model.specs.Subscriber.Sending.{make_upload, upload_sent};
ghost use Rattle.merge_model.specs.Subscriber.{subscriber_at_moment, subscriber_closed};
ghost use Rattle.merge_sub.specs.Drafts.{IsDrafted, IsDraftedIfAny, drafted, drafted_if_any};
ghost use Rattle.merge_sub.specs.Held.{AreIndexed, tables_of};
ghost use Rattle.merge_sub.specs.Sent.{AreChanged, AreKeeping, changed_count, item_at};

use crate::generations::behind;
use crate::still::{later, still};
use crate::{Draft, State, Subscriber};
use merge_batch::{Outstanding, Refusal, Upload, UploadItem, UploadItems};
use merge_gens::{GenerationBook, GenerationIndex, sort_rows};
use merge_table::Table;
use merge_types::limits::{GENERATION_LIMIT, ITEM_LIMIT};
use merge_types::{Listing, Moment, NoMemory, RowKey};
use merge_units::SubscriberRow;
use std::alloc::Global;

impl Subscriber {
    /// Works out an upload of what is unsent, for which the open generation closes. None where
    /// nothing is unsent.
    #[tactic(auto, using(crate::proofs::Uploading::none_sent, crate::proofs::Uploading::some_sent))]
    pub fn draft_upload(&mut self, now: Moment) -> Result<Option<(Draft, Upload)>, Refusal>
        ensures made { IfOk result (λ made. make_upload (by_rows (tables_of self.old)) now (tables_of self.old) ≡ Ok (drafted_if_any (tables_of self.old) made)) }
        ensures ready { IfOk result (λ made. IsDraftedIfAny self.new made) }
        ensures refused { (refusal : OneRefusal) → result ≡ Err refusal → (refusal ≡ no_memory) ⊎ (make_upload (by_rows (tables_of self.old)) now (tables_of self.old) ≡ Err refusal) }
        ensures same { tables_of self.new ≡ tables_of self.old }
        ensures publication { self.new.publication ≡ self.old.publication }
    {
        self.check_sending()?;
        let end = self.gens.last_closed() + 1;
        let unsent = changed_between(
            self.alloc,
            &self.unsent,
            &self.rows,
            self.state.received,
            end,
        )?;
        if unsent.is_empty() {
            return Ok(None);
        }
        let made = self.draft_batch(now)?;
        Ok(Some(made))
    }

    // The upload of the first of what is unsent, once the open generation has closed.
    fn draft_batch(&mut self, now: Moment) -> Result<(Draft, Upload), NoMemory>
        requires seq { self.old.state.seq < counter_limit }
        requires closed { self.old.gens.book.filling.last_closed < counter_limit }
        ensures made { IfOk result (λ made. drafted (tables_of self.old) made ≡ upload_sent (by_rows (tables_of self.old)) (subscriber_closed (subscriber_at_moment now (tables_of self.old)))) }
        ensures ready { IfOk result (λ made. IsDrafted self.new made.0) }
        ensures same { tables_of self.new ≡ tables_of self.old }
        ensures publication { self.new.publication ≡ self.old.publication }
    {
        let (last, gens) = self.gens.prepare_close(Moment(self.state.changes))?;
        let from = self.state.received;
        let (to, keys) = batch(self.alloc, &self.unsent, &self.rows, from, last)?;
        let items = upload_items(self.alloc, &self.rows, &keys, from, to)?;
        let through = through(&self.gens, self.state.changes, to);
        let seq = self.state.seq + 1;
        let upload = Upload {
            site: self.site,
            seq,
            from,
            to,
            through,
            items,
        };
        let state = State {
            latest: later(now, self.state.latest),
            seq,
            outstanding: Some((seq, Outstanding::Upload { from, to })),
            ..self.state
        };
        let _ = self.conflicts.rows();
        Ok((still(self.alloc, state, gens), upload))
    }
}

// The rows that keep a generation from one on, below another. The time grows with these. The index
// has a generation at the number behind it.
fn keeping(
    alloc: Global,
    index: &GenerationIndex,
    rows: &Table<RowKey, SubscriberRow>,
    first: u64,
    end: u64,
) -> Result<Vec<RowKey>, NoMemory>
    requires { AreIndexed rows.now.rows index.now.entries }
    ensures { IfOk result (λ keys. AreKeeping rows.now.rows first end keys.items) }
{
    let mut keys = Vec::new(alloc);
    index.between(first, end, &mut keys)?;
    sort_rows(&mut keys);
    rows.is_ordered();
    Ok(keys)
}

// The rows that keep a generation behind one, up to another.
fn changed_between(
    alloc: Global,
    index: &GenerationIndex,
    rows: &Table<RowKey, SubscriberRow>,
    from: u64,
    to: u64,
) -> Result<Vec<RowKey>, NoMemory>
    requires { AreIndexed rows.now.rows index.now.entries }
    ensures { IfOk result (λ keys. AreChanged rows.now.rows from to keys.items) }
{
    keeping(alloc, index, rows, behind(from)?, behind(to)?)
}

// The rows that keep a generation up to one.
pub(crate) fn changed_up_to(
    alloc: Global,
    index: &GenerationIndex,
    rows: &Table<RowKey, SubscriberRow>,
    to: u64,
) -> Result<Vec<RowKey>, NoMemory>
    requires { AreIndexed rows.now.rows index.now.entries }
    ensures { IfOk result (λ keys. AreKeeping rows.now.rows 0 (to + 1) keys.items) }
{
    keeping(alloc, index, rows, 0, behind(to)?)
}

// The end of the batch behind a generation, where this is the last closed one, and its rows.
#[tactic(auto, using(crate::proofs::Batches::batch_begins, crate::proofs::Batches::batch_goes_on, crate::proofs::Batches::batch_stops, crate::proofs::Batches::batch_ends))]
fn batch(
    alloc: Global,
    index: &GenerationIndex,
    rows: &Table<RowKey, SubscriberRow>,
    from: u64,
    last: u64,
) -> Result<(u64, Vec<RowKey>), NoMemory>
    requires indexed { AreIndexed rows.now.rows index.now.entries }
    requires low { last ≤ counter_limit }
    ensures end { IfOk result (λ batch. batch.0 ≡ batch_end (changed_count rows.now.rows from) from last) }
    ensures up { IfOk result (λ batch. from ≤ batch.0) }
    ensures rows { IfOk result (λ batch. AreChanged rows.now.rows from batch.0 batch.1.items) }
{
    let mut to = from;
    let mut keys = changed_between(alloc, index, rows, from, from)?;
    while to < last && to - from < GENERATION_LIMIT {
        let more = changed_between(alloc, index, rows, from, to + 1)?;
        if more.len() > ITEM_LIMIT {
            return Ok((to, keys));
        }
        to += 1;
        keys = more;
    }
    Ok((to, keys))
}

// The number of the last change in a generation, once the open one has closed.
#[tactic(auto, using(crate::proofs::Closed::through_closed, crate::proofs::Closed::through_open))]
fn through(gens: &GenerationBook, changes: u64, to: u64) -> u64
    requires { gens.now.book.filling.last_closed < counter_limit }
    ensures { result ≡ unwrap_or (moment_of (closed_now gens.now.book (record { 0 = changes })).closings to) 0 }
{
    let _ = gens.closings();
    if to == gens.last_closed() + 1 && gens.filled() > 0 {
        return changes;
    }
    match gens.closed_at(to) {
        Some(number) => number,
        None => 0,
    }
}

// The rows as they are now, each with the last generation of the batch in which it was changed.
fn upload_items(
    alloc: Global,
    rows: &Table<RowKey, SubscriberRow>,
    keys: &[RowKey],
    from: u64,
    to: u64,
) -> Result<UploadItems, NoMemory>
    ensures { IfOk result (λ items. items ≡ filter_map (item_at rows.now.rows from to) keys.now) }
{
    let mut items = Listing::empty(alloc);
    for key in keys {
        let item = upload_item(rows, *key, from, to)?;
        add_item(&mut items, item)?;
    }
    Ok(items)
}

// What would be sent of all that is unsent, by article and row. The time grows with these rows: no
// other is looked at.
pub(crate) fn unsent_items(
    alloc: Global,
    index: &GenerationIndex,
    rows: &Table<RowKey, SubscriberRow>,
    from: u64,
    to: u64,
) -> Result<UploadItems, NoMemory>
    requires { AreIndexed rows.now.rows index.now.entries }
    ensures items { IfOk result (λ items. items ≡ filter_map (item_at rows.now.rows from to) (keys_of rows.now.rows)) }
    ensures few { IfOk result (λ items. length items < 2 ^ 63) }
    ensures ordered { OnOk result (IsStrictlySortedBy key_cmp (keys_of rows.now.rows)) }
{
    let keys = changed_between(alloc, index, rows, from, to)?;
    let items = upload_items(alloc, rows, &keys, from, to)?;
    // A table has fewer rows than 2^63.
    let _ = rows.iter();
    Ok(items)
}

// Adds an item, where there is one.
fn add_item(items: &mut UploadItems, item: Option<UploadItem>) -> Result<(), NoMemory>
    ensures { OnOk result (items.new ≡ items.old ++ cons_option item []) }
{
    if let Some(item) = item {
        items.push(item)?;
    }
    Ok(())
}

// The row at a key, where it was changed between.
fn upload_item(
    rows: &Table<RowKey, SubscriberRow>,
    key: RowKey,
    from: u64,
    to: u64,
) -> Result<Option<UploadItem>, NoMemory>
    ensures { IfOk result (λ item. item ≡ item_at rows.now.rows from to key) }
{
    let Some(row) = rows.get(&key) else {
        return Ok(None);
    };
    let Some(generation) = last_between(from, to, row.generations.as_slice()) else {
        return Ok(None);
    };
    Ok(Some(UploadItem {
        article: key.article,
        row: key.row,
        generation,
        version: row.version.clone()?,
    }))
}

// The last of these generations that is behind one, up to another.
pub(crate) fn last_between(from: u64, to: u64, generations: &[u64]) -> Option<u64>
    ensures { result ≡ last_between from to generations.now }
{
    let mut last = None;
    for generation in generations {
        if from < *generation && *generation <= to {
            last = Some(*generation);
        }
    }
    last
}
