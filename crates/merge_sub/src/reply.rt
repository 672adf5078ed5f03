//! A reply is taken.
ghost use Rattle.std.specs.Prelude.{◌≡◌, ◌≤◌, ◌++◌, ◌⊎◌, Err, IfErr, IfOk, IsOk, None, Ok, OnOk, Some, false, filter, All, filter_map, map, nat_le, nat_lt, true};
ghost use Rattle.std.specs.List.{flat_map};
ghost use Rattle.merge_batch.specs.Replies.{grant_fits, ranged_fits};
ghost use Rattle.merge_batch.specs.declared.refusal.Refusal.{Refusal as OneRefusal};
ghost use Rattle.merge_batch.specs.declared.refusal.Refusal.TheVariants.{NoMemory as no_memory};
ghost use Rattle.merge_batch.specs.declared.reply.Joined.{Joined as OneJoined};
ghost use Rattle.merge_batch.specs.declared.reply.Reply.TheVariants.{Joined as a_joined};
ghost use Rattle.merge_model.specs.Judge.ByNumbers.{by_rows};
ghost use Rattle.merge_batch.specs.declared.request.Outstanding.{Outstanding as OneMessage};
ghost use Rattle.merge_model.specs.World.Calls.{RefusesOnlyAs, reply_commits};
ghost use Rattle.merge_model.specs.World.Faults.{heard_by, reply_fault};
ghost use Rattle.merge_model.specs.Subscriber.Taking.{after_reply, take_reply, with_grants};
ghost use Rattle.merge_model.specs.Tables.{SubscriberTables};
ghost use Rattle.merge_model.specs.declared.outcome.Taken.{Taken as OneTaken};
ghost use Rattle.merge_sub.specs.Drafts.{IsDrafted, IsDraftedIfNeeded, after, after_if_any};
ghost use Rattle.merge_sub.specs.Held.{tables_of};
ghost use Rattle.merge_sub.specs.Local.{take_entry};
ghost use Rattle.merge_sub.specs.Taking.{AreOrders, answered, at_state, entries_let_go, granted, heard_in, is_unsent_at, kept_above, let_go, order_of, ordered, with_orders};

use crate::changes::{RangesEdit, RowEdit};
use crate::generations::{entry_behind, kept_by};
use crate::still::{later, still};
use crate::upload::changed_up_to;
use crate::{Changes, Draft, State, Subscriber};
use merge_batch::{
    Act, DownloadItem, HeardRanges, Outstanding, RangeGrant, Ranged, Refusal, Reply, Standing,
    reply_fault,
};
use merge_gens::IndexChanges;
use merge_ident::{Range, Ranges};
use merge_model::Taken;
use merge_table::{Edit, Table};
use merge_types::{Listing, Moment, NoMemory, RowKey};
use merge_units::{Body, SubscriberRow, Version};
use std::alloc::Global;

// The ranges that a reply is held against.
#[derive(Drop)]
struct Heard<'a>(&'a Table<u8, Ranges>);

impl HeardRanges for Heard<'_> {
    ghost use Rattle.std.specs.Prelude.{option_map};
    ghost use Rattle.merge_ident.specs.Holders.{Holder};
    ghost use Rattle.merge_model.specs.Tables.Keys.{at_number};

    ghost heard = { λ h. λ article. option_map (λ (holder : Holder). holder.have) (at_number h.0.now.rows article) };

    fn have(&self, article: u8) -> Option<u64> {
        match self.0.get(&article) {
            Some(ranges) => Some(ranges.holding().have),
            None => None,
        }
    }
}

impl Subscriber {
    /// Works out what a reply does. It acts where it answers the outstanding message, and there is no
    /// draft where it does nothing: where it is a refusal, or answers another message.
    pub fn draft_reply(
        &mut self,
        reply: &Reply,
        now: Moment,
    ) -> Result<(Option<Draft>, Taken), Refusal>
        ensures made { IfOk result (λ made. take_reply self.old.publication (by_rows (tables_of self.old)) now reply.now (tables_of self.old) ≡ Ok (after_if_any made.0 (tables_of self.old), made.1)) }
        ensures ready { IfOk result (λ made. IsDraftedIfNeeded self.new made.0) }
        ensures refused { (refusal : OneRefusal) → result ≡ Err refusal → (refusal ≡ no_memory) ⊎ (take_reply self.old.publication (by_rows (tables_of self.old)) now reply.now (tables_of self.old) ≡ Err refusal) }
        ensures same { tables_of self.new ≡ tables_of self.old }
        ensures publication { self.new.publication ≡ self.old.publication }

        // Where it does nothing there is no draft, and no memory is taken; nor is it for a join's reply.
        ensures none { IfOk result (λ made. reply_commits reply.now made.1 ≡ false → made.0 ≡ None) }
        ensures nothing { (s : SubscriberTables) (taken : OneTaken) → take_reply self.old.publication (by_rows (tables_of self.old)) now reply.now (tables_of self.old) ≡ Ok (s, taken) → reply_commits reply.now taken ≡ false → IsOk result }
        ensures joined { (joined : OneJoined) → reply.now ≡ a_joined joined → RefusesOnlyAs (take_reply self.old.publication (by_rows (tables_of self.old)) now reply.now (tables_of self.old)) result }
    {
        let Some(seq) = reply.seq() else {
            return Ok((None, Taken::Acted));
        };
        let Some((own, sent)) = self.state.outstanding else {
            return Ok((
                None,
                Taken::Missed {
                    seq,
                    outstanding: 0,
                },
            ));
        };
        if own != seq {
            return Ok((
                None,
                Taken::Missed {
                    seq,
                    outstanding: own,
                },
            ));
        }
        self.check_reply(sent, reply)?;
        let latest = later(now, self.state.latest);
        let draft = self.draft_answer(reply, latest)?;
        Ok((Some(draft), Taken::Acted))
    }

    // The reply does not fit the message that it answers.
    fn check_reply(&self, sent: Outstanding, reply: &Reply) -> Result<(), Refusal>
        ensures ok { OnOk result (reply_fault self.now.publication sent reply.now (tables_of self.now) ≡ None) }
        ensures err { IfErr result (λ refusal. reply_fault self.now.publication sent reply.now (tables_of self.now) ≡ Some refusal) }
    {
        let own = Standing {
            site: self.site,
            changes: self.state.changes,
            closed: self.gens.last_closed(),
            received: self.state.received,
        };
        match reply_fault(&self.publication, &own, &Heard(&self.held), sent, reply) {
            Some(broken) => Err(Refusal::BadBatch {
                item: broken.item,
                rule: broken.rule,
            }),
            None => Ok(()),
        }
    }

    // The draft of a reply that fits.
    fn draft_answer(&mut self, reply: &Reply, latest: Moment) -> Result<Draft, NoMemory>
        requires fits { (sent : OneMessage) × (reply_fault self.old.publication sent reply.now (tables_of self.old) ≡ None) }
        ensures made { IfOk result (λ draft. after draft.changes (tables_of self.old) ≡ after_reply (by_rows (tables_of self.old)) reply.now (answered latest (tables_of self.old))) }
        ensures ready { IfOk result (λ draft. IsDrafted self.new draft) }
        ensures same { tables_of self.new ≡ tables_of self.old }
        ensures publication { self.new.publication ≡ self.old.publication }
        ensures joined { (joined : OneJoined) → reply.now ≡ a_joined joined → IsOk result }
    {
        let state = State {
            latest,
            outstanding: None,
            ..self.state
        };
        match reply {
            Reply::Joined(_) => self.draft_state(State {
                is_joined: true,
                ..state
            }),
            Reply::Uploaded(uploaded) => self.draft_received(
                State {
                    received: uploaded.received,
                    ..state
                },
                &[],
            ),
            Reply::Ranged(ranged) => self.draft_ranged(state, ranged),
            Reply::Downloaded(downloaded) => self.draft_received(
                State {
                    received: downloaded.received,
                    watermark: downloaded.to,
                    ..state
                },
                downloaded.items.as_slice(),
            ),
            Reply::Refused { .. } => self.draft_state(state),
        }
    }

    // No list changes.
    #[tactic(auto, unfolding(merge_table::specs::Edits::IsReady))]
    fn draft_state(&mut self, state: State) -> Result<Draft, NoMemory>
        requires changes { state.changes ≡ self.old.state.changes }
        requires conflicts { state.conflict_count ≡ self.old.state.conflict_count }
        requires received { state.received ≡ self.old.state.received }
        ensures made { IfOk result (λ draft. after draft.changes (tables_of self.old) ≡ at_state state (tables_of self.old)) }
        ensures ready { IfOk result (λ draft. IsDrafted self.new draft) }
        ensures same { tables_of self.new ≡ tables_of self.old }
        ensures publication { self.new.publication ≡ self.old.publication }

        // What takes no memory is not refused.
        ensures nothing { IsOk result }
    {
        let (_, gens) = self.gens.prepare(&[])?;
        let _ = self.conflicts.rows();
        Ok(still(self.alloc, state, gens))
    }

    // The site takes its ranges over.
    fn draft_ranged(&mut self, state: State, ranged: &Ranged) -> Result<Draft, NoMemory>
        requires changes { state.changes ≡ self.old.state.changes }
        requires conflicts { state.conflict_count ≡ self.old.state.conflict_count }
        requires received { state.received ≡ self.old.state.received }
        requires fits { ranged_fits (heard_by (tables_of self.old)) ranged.now ≡ true }
        ensures made { IfOk result (λ draft. after draft.changes (tables_of self.old) ≡ with_grants ranged.now (at_state state (tables_of self.old))) }
        ensures ready { IfOk result (λ draft. IsDrafted self.new draft) }
        ensures same { tables_of self.new ≡ tables_of self.old }
        ensures publication { self.new.publication ≡ self.old.publication }
    {
        let held = received_ranges(self.alloc, &self.held, ranged.grants.as_slice())?;
        let (_, gens) = self.gens.prepare(&[])?;
        let _ = self.conflicts.rows();
        let conflicts = self.conflicts.prepare(Listing::empty(self.alloc))?;
        let changes = Changes {
            state,
            gens,
            done: None,
            rows: Listing::empty(self.alloc),
            held,
            conflicts,
        };
        let draft = self.prepare(changes, Listing::empty(self.alloc))?;
        Ok(draft)
    }

    // What the publisher has taken is let go, and after that the rows are as it orders.
    fn draft_received(&mut self, state: State, items: &[DownloadItem]) -> Result<Draft, NoMemory>
        requires changes { state.changes ≡ self.old.state.changes }
        requires conflicts { state.conflict_count ≡ self.old.state.conflict_count }
        requires onward { self.old.state.received ≤ state.received }
        requires closed { state.received ≤ self.old.gens.book.filling.last_closed }
        requires orders { AreOrders self.old.publication (tables_of self.old) items.now }
        ensures made { IfOk result (λ draft. after draft.changes (tables_of self.old) ≡ with_orders items.now state (tables_of self.old)) }
        ensures ready { IfOk result (λ draft. IsDrafted self.new draft) }
        ensures same { tables_of self.new ≡ tables_of self.old }
        ensures publication { self.new.publication ≡ self.old.publication }
    {
        let received = state.received;
        let keys = changed_up_to(self.alloc, &self.unsent, &self.rows, received)?;
        let index = entries_let_go(self.alloc, &self.rows, &keys, received)?;
        let mut rows = rows_let_go(self.alloc, &self.rows, &keys, received)?;
        add_orders(self.alloc, &mut rows, &self.rows, items, received)?;
        let (_, gens) = self.gens.prepare(&[])?;
        let _ = self.conflicts.rows();
        let conflicts = self.conflicts.prepare(Listing::empty(self.alloc))?;
        let changes = Changes {
            state,
            gens,
            done: Some(received),
            rows,
            held: Listing::empty(self.alloc),
            conflicts,
        };
        let draft = self.prepare(changes, index)?;
        Ok(draft)
    }
}

// The ranges with those that were granted.
fn received_ranges(
    alloc: Global,
    held: &Table<u8, Ranges>,
    grants: &[RangeGrant],
) -> Result<Listing<RangesEdit>, NoMemory>
    requires { All (λ grant. grant_fits (heard_in held.now.rows) grant ≡ true) grants.now }
    ensures { IfOk result (λ edits. edits ≡ filter_map (granted held.now.rows) grants.now) }
{
    let mut edits = Listing::empty(alloc);
    for grant in grants {
        if let Some(edit) = granted(held, grant) {
            edits.push(edit)?;
        }
    }
    Ok(edits)
}

// The ranges of an article with the one that was granted.
fn granted(held: &Table<u8, Ranges>, grant: &RangeGrant) -> Option<RangesEdit>
    requires { grant_fits (heard_in held.now.rows) grant.now ≡ true }
    ensures { result ≡ granted held.now.rows grant.now }
{
    let ranges = held.get(&grant.article)?;
    let mut more = *ranges;
    let range = Range {
        begin: grant.begin,
        end: grant.end,
    };
    more.receive(grant.number, range);
    Some(Edit::Put(grant.article, more))
}

// The rows let their generations up to one go.
fn rows_let_go(
    alloc: Global,
    rows: &Table<RowKey, SubscriberRow>,
    keys: &[RowKey],
    received: u64,
) -> Result<Listing<RowEdit>, NoMemory>
    ensures { IfOk result (λ edits. edits ≡ filter_map (let_go rows.now.rows received) keys.now) }
{
    let mut edits = Listing::empty(alloc);
    for key in keys {
        if let Some(edit) = let_go(alloc, rows, key, received)? {
            edits.push(edit)?;
        }
    }
    Ok(edits)
}

fn let_go(
    alloc: Global,
    rows: &Table<RowKey, SubscriberRow>,
    key: &RowKey,
    received: u64,
) -> Result<Option<RowEdit>, NoMemory>
    ensures { IfOk result (λ edit. edit ≡ let_go rows.now.rows received key.now) }
{
    match rows.get(key) {
        Some(row) => Ok(Some(Edit::Put(*key, kept_above(alloc, row, received)?))),
        None => Ok(None),
    }
}

// The row without the generations up to one.
fn kept_above(alloc: Global, row: &SubscriberRow, received: u64) -> Result<SubscriberRow, NoMemory>
    ensures { IfOk result (λ kept. kept ≡ kept_above received row.now) }
{
    Ok(SubscriberRow {
        version: row.version.clone()?,
        generations: above(alloc, row.generations.as_slice(), received)?,
    })
}

// The generations above one.
fn above(alloc: Global, generations: &[u64], received: u64) -> Result<Listing<u64>, NoMemory>
    ensures { IfOk result (λ above. above ≡ filter (λ generation. nat_lt received generation) generations.now) }
{
    let mut above = Listing::empty(alloc);
    for generation in generations {
        if *generation > received {
            above.push(*generation)?;
        }
    }
    Ok(above)
}

// And are found by them no more.
fn entries_let_go(
    alloc: Global,
    rows: &Table<RowKey, SubscriberRow>,
    keys: &[RowKey],
    received: u64,
) -> Result<IndexChanges, NoMemory>
    ensures { IfOk result (λ changes. changes ≡ flat_map (entries_let_go rows.now.rows received) keys.now) }
{
    let mut changes = Listing::empty(alloc);
    for key in keys {
        add_let_go(&mut changes, rows, key, received)?;
    }
    Ok(changes)
}

fn add_let_go(
    changes: &mut IndexChanges,
    rows: &Table<RowKey, SubscriberRow>,
    key: &RowKey,
    received: u64,
) -> Result<(), NoMemory>
    ensures { OnOk result (changes.new ≡ changes.old ++ entries_let_go rows.now.rows received key.now) }
{
    add_takes_up_to(changes, *key, kept_by(rows, *key), received)
}

// The row loses those of the generations that stand up to one.
fn add_takes_up_to(
    changes: &mut IndexChanges,
    key: RowKey,
    generations: &[u64],
    received: u64,
) -> Result<(), NoMemory>
    ensures { OnOk result (changes.new ≡ changes.old ++ map (take_entry key) (filter (λ generation. nat_le generation received) generations.now)) }
{
    for generation in generations {
        if *generation <= received {
            changes.push(Edit::Take(entry_behind(*generation, key)?))?;
        }
    }
    Ok(())
}

// The orders, but for those of rows with a change that the publisher has not taken.
fn add_orders(
    alloc: Global,
    edits: &mut Listing<RowEdit>,
    rows: &Table<RowKey, SubscriberRow>,
    items: &[DownloadItem],
    received: u64,
) -> Result<(), NoMemory>
    ensures { OnOk result (edits.new ≡ edits.old ++ filter_map (order_of rows.now.rows received) items.now) }
{
    for item in items {
        if let Some(edit) = order_of(alloc, rows, item, received)? {
            edits.push(edit)?;
        }
    }
    Ok(())
}

fn order_of(
    alloc: Global,
    rows: &Table<RowKey, SubscriberRow>,
    item: &DownloadItem,
    received: u64,
) -> Result<Option<RowEdit>, NoMemory>
    ensures { IfOk result (λ edit. edit ≡ order_of rows.now.rows received item.now) }
{
    let key = RowKey {
        article: item.article,
        row: item.row,
    };
    if is_unsent_at(rows, key, received) {
        return Ok(None);
    }
    Ok(Some(ordered(alloc, key, &item.act)?))
}

// Whether the row has a change that the publisher has not taken.
fn is_unsent_at(rows: &Table<RowKey, SubscriberRow>, key: RowKey, received: u64) -> bool
    ensures { result ≡ is_unsent_at rows.now.rows received key }
{
    kept_by(rows, key)
        .iter()
        .any(|generation| *generation > received)
}

// What becomes of a row by an order.
fn ordered(alloc: Global, key: RowKey, act: &Act) -> Result<RowEdit, NoMemory>
    ensures { IfOk result (λ edit. edit ≡ ordered key act.now) }
{
    match act {
        Act::Put { lineage, live } => {
            let version = Version {
                lineage: lineage.clone()?,
                body: Body::Live(live.clone()?),
            };
            let generations = Listing::empty(alloc);
            Ok(Edit::Put(
                key,
                SubscriberRow {
                    version,
                    generations,
                },
            ))
        }
        Act::RemoveDeleted | Act::RemoveLeft => Ok(Edit::Take(key)),
    }
}
