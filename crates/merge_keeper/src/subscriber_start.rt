//! A start of a subscriber: one pass over the entries of its store.
ghost use Rattle.std.specs.Prelude.{◌≡◌, ◌<◌, ◌+◌, ◌++◌, ◌∷◌, [], ◌==◌, true, false, count_by, ℕ, IfOk, OnOk};
ghost use Rattle.std.specs.List.{list_all};
ghost use Rattle.merge_types.specs.Limits.{number_limit};
ghost use Rattle.merge_ident.specs.Holders.{AreKept};
ghost use Rattle.merge_keeper.specs.Counts.{count_at};
ghost use Rattle.merge_keeper.specs.Start.{Gives, last_conflict, loaded_behind, one_loaded};
ghost use Rattle.merge_keeper.specs.SubscriberStart.{subscriber_first_state, closing_is_sound, first_missing, generation_in, has_closings, has_space, held_is_sound, is_sound, last_number, limit_of, loading_of_subscriber, message_of, no_state, outstanding_of, next_behind_entry, reading_of, row_is_sound, state_is_sound, subscriber_loaded, tables_with, talk_is_sound, with_record, CanAdd, GoesOn};

use crate::counts::Counts;
use crate::start::{
    StartFault, are_kept, conflict_is_sound, identity_at, is_counter, last_conflict, row_was_made,
    version_is_sound, with_held,
};
use crate::subscriber_record::record_in;
use crate::{Front, SubscriberRecord, SubscriberState, SubscriberStored, Talk};
use merge_batch::Outstanding;
use merge_conflict::ConflictRows;
use merge_gens::{Closing, Closings, Filling};
use merge_ident::Ranges;
use merge_ports::{Entries, EntryKey};
use merge_record::{Field, HeldRanges};
use merge_schema::Publication;
use merge_table::Rows;
use merge_types::limits::ENTRY_LIMIT;
use merge_types::{Listing, Moment, NoMemory, Octets, RowKey, SiteId};
use merge_units::SubscriberRow;
use std::alloc::Global;

// The tables so far, and how many entries stand in each generation of them that is not received.
#[derive(Debug, Drop)]
pub struct SubscriberSoFar {
    tables: SubscriberStored,
    counts: Counts,
}

// The generation in the key of a closed one.
fn generation_in(alloc: Global, key: &EntryKey) -> Result<Option<u64>, NoMemory>
    ensures { IfOk result (λ generation. generation ≡ generation_in key.now) }
{
    if key.table == 4 {
        return u64::read(alloc, key.key.as_slice());
    }
    Ok(None)
}

// The generation behind one, where that is the one, and is at most the last.
fn passed(last: u64, next: u64, generation: Option<u64>) -> u64
    requires { last < number_limit }
    ensures { result ≡ next_behind_entry last next generation }
{
    match generation {
        Some(generation) if generation == next && generation <= last => next + 1,
        _ => next,
    }
}

// The first generation from one on, up to the last, that has no key.
fn first_missing(alloc: Global, last: u64, from: u64, entries: &Entries) -> Result<u64, NoMemory>
    requires { last < number_limit }
    ensures { IfOk result (λ missing. missing ≡ first_missing last from entries.now) }
{
    let mut next = from;
    for (key, _) in entries.iter() {
        next = passed(last, next, generation_in(alloc, key)?);
    }
    Ok(next)
}

#[tactic(auto, unfolding(crate::specs::SubscriberStart::talk_is_sound))]
fn talk_is_sound(talk: Talk) -> bool
    ensures { result ≡ talk_is_sound talk }
{
    let is_told = if talk.outstanding == 0 {
        talk.kind == 0
    } else {
        0 < talk.kind
    };
    is_counter(talk.seq) && is_told
}

#[tactic(auto, unfolding(crate::specs::SubscriberStart::state_is_sound))]
fn state_is_sound(site: SiteId, last: u64, state: &SubscriberState) -> bool
    ensures { result ≡ state_is_sound site last state.now }
{
    state.front.site == site.0
        && is_counter(state.front.changes)
        && is_counter(state.front.last_closed)
        && is_counter(state.front.conflicts)
        && state.front.filled < ENTRY_LIMIT
        && state.front.conflicts <= last
        && talk_is_sound(state.talk)
        && state.talk.received <= state.front.last_closed
}

// Whether each closed generation that is not received is there.
fn has_closings(alloc: Global, entries: &Entries, state: &SubscriberState) -> Result<bool, NoMemory>
    requires closed { state.now.front.last_closed < number_limit }
    requires received { state.now.talk.received < number_limit }
    ensures { IfOk result (λ has. has ≡ has_closings entries.now state.now) }
{
    let last = state.front.last_closed;
    let missing = first_missing(alloc, last, state.talk.received + 1, entries)?;
    Ok(last < missing)
}

fn limit_of(tables: &SubscriberStored, generation: u64) -> u64
    ensures { result ≡ limit_of tables.now generation }
{
    if generation <= tables.filling.last_closed {
        ENTRY_LIMIT
    } else {
        tables.filling.filled
    }
}

fn has_space(so_far: &SubscriberSoFar, generation: u64) -> bool
    requires { GoesOn so_far.now }
    ensures { result ≡ has_space so_far.now.tables generation }
{
    if generation <= so_far.tables.received {
        return true;
    }
    generation.saturating_sub(1) <= so_far.tables.filling.last_closed
        && so_far.counts.of(generation) < limit_of(&so_far.tables, generation)
}

// Whether each generation has space for the row.
fn have_space(so_far: &SubscriberSoFar, generations: &[u64]) -> bool
    requires { GoesOn so_far.now }
    ensures { result ≡ list_all (has_space so_far.now.tables) generations.now }
{
    generations
        .iter()
        .all(|generation| has_space(so_far, *generation))
}

#[tactic(auto, unfolding(crate::specs::SubscriberStart::row_is_sound))]
fn row_is_sound(
    publication: &Publication,
    so_far: &SubscriberSoFar,
    key: RowKey,
    row: &SubscriberRow,
) -> bool
    requires { GoesOn so_far.now }
    ensures { result ≡ row_is_sound publication.now so_far.now.tables key row.now }
{
    let tables = &so_far.tables;
    version_is_sound(publication, key.article, &row.version)
        && row_was_made(tables.site, tables.changes, key, &row.version)
        && have_space(so_far, row.generations.as_slice())
}

// The number of the last change in the generations so far.
fn last_number(closings: &[Closing]) -> u64
    ensures { result ≡ last_number closings.now }
{
    match closings.last() {
        None => 0,
        Some(closing) => closing.moment.0,
    }
}

#[tactic(auto, unfolding(crate::specs::SubscriberStart::closing_is_sound))]
fn closing_is_sound(tables: &SubscriberStored, closing: Closing) -> bool
    ensures { result ≡ closing_is_sound tables.now closing }
{
    tables.received < closing.generation
        && closing.generation <= tables.filling.last_closed
        && last_number(tables.closings.as_slice()) <= closing.moment.0
        && closing.moment.0 <= tables.changes
}

#[tactic(auto, unfolding(crate::specs::SubscriberStart::held_is_sound))]
fn held_is_sound(publication: &Publication, article: u8, held: &HeldRanges) -> bool
    ensures test { result ≡ held_is_sound publication.now article held.now }
    ensures kept { result ≡ true → AreKept held.now.ranges held.now.next }
{
    identity_at(publication, article).is_some()
        && are_kept(held.ranges.as_slice(), held.next)
        && 0 < held.have
}

// Whether a record keeps the rules behind those before it.
fn is_sound(publication: &Publication, so_far: &SubscriberSoFar, read: &SubscriberRecord) -> bool
    requires { GoesOn so_far.now }
    ensures test { result ≡ is_sound publication.now so_far.now.tables read.now }
    ensures room { result ≡ true → CanAdd read.now }
{
    let tables = &so_far.tables;
    match read {
        SubscriberRecord::State(_) => false,
        SubscriberRecord::Row(key, row) => row_is_sound(publication, so_far, *key, row),
        SubscriberRecord::Closed(closing) => closing_is_sound(tables, *closing),
        SubscriberRecord::Lost(row) => {
            let before = tables.conflicts.len() as u64;
            conflict_is_sound(publication, before, tables.conflict_count, row)
        }
        SubscriberRecord::Held(article, held) => held_is_sound(publication, *article, held),
    }
}

// Counts the generations of a row that are not received.
fn count_all(counts: &mut Counts, received: u64, generations: &[u64]) -> Result<(), NoMemory>
    ensures { OnOk result ((g : ℕ) → received < g → count_at counts.new g ≡ count_at counts.old g + count_by (λ other. g == other) generations.now) }
{
    for generation in generations {
        if received < *generation {
            counts.add(*generation)?;
        }
    }
    Ok(())
}

// Takes in a row.
#[tactic(auto, using(crate::proofs::Counted::subscriber_row_counted))]
fn add_row(so_far: &mut SubscriberSoFar, key: RowKey, row: SubscriberRow) -> Result<(), NoMemory>
    requires on { GoesOn so_far.old }
    ensures tables { OnOk result (so_far.new.tables ≡ record so_far.old.tables { rows = so_far.old.tables.rows ++ (key, row) ∷ [] }) }
    ensures on { OnOk result (GoesOn so_far.new) }
{
    count_all(
        &mut so_far.counts,
        so_far.tables.received,
        row.generations.as_slice(),
    )?;
    so_far.tables.rows.push((key, row))
}

// Takes in a record that keeps the rules.
fn add(
    alloc: Global,
    publication: &Publication,
    so_far: &mut SubscriberSoFar,
    read: SubscriberRecord,
) -> Result<(), NoMemory>
    requires on { GoesOn so_far.old }
    requires room { CanAdd read }
    ensures tables { OnOk result (so_far.new.tables ≡ with_record publication.now so_far.old.tables read) }
    ensures on { OnOk result (GoesOn so_far.new) }
{
    match read {
        SubscriberRecord::State(_) => Ok(()),
        SubscriberRecord::Row(key, row) => add_row(so_far, key, row),
        SubscriberRecord::Closed(closing) => so_far.tables.closings.push(closing),
        SubscriberRecord::Lost(row) => so_far.tables.conflicts.push(row),
        SubscriberRecord::Held(article, held) => {
            let all = so_far.tables.held.as_slice();
            so_far.tables.held = with_held(alloc, publication, all, article, &held)?;
            Ok(())
        }
    }
}

// Takes in the entry behind those so far.
fn take_in(
    alloc: Global,
    publication: &Publication,
    so_far: &mut SubscriberSoFar,
    key: &EntryKey,
    value: &Octets,
) -> Result<(), StartFault>
    requires on { GoesOn so_far.old }
    ensures given { Gives (λ u. so_far.new.tables) result (one_loaded (loading_of_subscriber publication.now) so_far.old.tables (key.now, value.now)) }
    ensures on { OnOk result (GoesOn so_far.new) }
{
    match record_in(alloc, key, value.as_slice())? {
        None => Err(StartFault::Damaged(key.clone()?)),
        Some(read) => {
            if !is_sound(publication, so_far, &read) {
                return Err(StartFault::Damaged(key.clone()?));
            }
            add(alloc, publication, so_far, read)?;
            Ok(())
        }
    }
}

// Takes in all entries that are left.
fn take_all(
    alloc: Global,
    publication: &Publication,
    so_far: &mut SubscriberSoFar,
    entries: Rows<'_, EntryKey, Octets>,
) -> Result<(), StartFault>
    requires on { GoesOn so_far.old }
    ensures given { Gives (λ u. so_far.new.tables) result (loaded_behind (loading_of_subscriber publication.now) so_far.old.tables entries.entry) }
{
    for (key, value) in entries {
        take_in(alloc, publication, so_far, key, value)?;
    }
    Ok(())
}

fn message_of(talk: Talk) -> Outstanding
    ensures { result ≡ message_of talk }
{
    match talk.kind {
        1 => Outstanding::Join,
        2 => Outstanding::Upload {
            from: talk.from,
            to: talk.to,
        },
        3 => Outstanding::Ranges,
        _ => Outstanding::Download { from: talk.from },
    }
}

fn outstanding_of(talk: Talk) -> Option<(u64, Outstanding)>
    ensures { result ≡ outstanding_of talk }
{
    if talk.kind == 0 {
        return None;
    }
    Some((talk.outstanding, message_of(talk)))
}

fn tables_with(
    alloc: Global,
    site: SiteId,
    held: Listing<(u8, Ranges)>,
    state: &SubscriberState,
) -> SubscriberStored
    ensures { result ≡ tables_with site held state.now }
{
    SubscriberStored {
        site,
        changes: state.front.changes,
        filling: Filling {
            last_closed: state.front.last_closed,
            filled: state.front.filled,
        },
        closings: Closings::empty(alloc),
        conflict_count: state.front.conflicts,
        latest: Moment(state.front.latest),
        seq: state.talk.seq,
        outstanding: outstanding_of(state.talk),
        received: state.talk.received,
        watermark: state.talk.watermark,
        is_joined: state.talk.phase == 2,
        rows: Listing::empty(alloc),
        conflicts: ConflictRows::empty(alloc),
        held,
    }
}

// The state of a site that has committed nothing.
fn no_state(site: SiteId) -> SubscriberState
    ensures { result ≡ no_state site }
{
    let front = Front {
        site: site.0,
        changes: 0,
        last_closed: 0,
        filled: 0,
        conflicts: 0,
        latest: 0,
    };
    let talk = Talk {
        seq: 0,
        outstanding: 0,
        from: 0,
        to: 0,
        received: 0,
        watermark: 0,
        kind: 0,
        phase: 1,
    };
    SubscriberState { front, talk }
}

// The state of the first entry.
#[tactic(auto, unfolding(crate::specs::SubscriberStart::state_is_sound))]
fn first_state(
    alloc: Global,
    site: SiteId,
    entries: &Entries,
    key: &EntryKey,
    value: &Octets,
) -> Result<SubscriberState, StartFault>
    ensures given { Gives (λ state. state) result (subscriber_first_state site entries.now key.now (reading_of (key.now, value.now))) }
    ensures small { IfOk result (λ state. state.front.changes < number_limit) }
{
    if let Some(SubscriberRecord::State(state)) = record_in(alloc, key, value.as_slice())? {
        let last = last_conflict(alloc, entries)?;
        if state_is_sound(site, last, &state) && has_closings(alloc, entries, &state)? {
            return Ok(state);
        }
    }
    Err(StartFault::Damaged(key.clone()?))
}

// The tables of the entries behind a state.
fn start_behind(
    alloc: Global,
    publication: &Publication,
    tables: SubscriberStored,
    entries: Rows<'_, EntryKey, Octets>,
) -> Result<SubscriberStored, StartFault>
    requires rows { tables.rows ≡ [] }
    requires small { tables.changes < number_limit }
    ensures { Gives (λ t. t) result (loaded_behind (loading_of_subscriber publication.now) tables entries.entry) }
{
    let counts = Counts::new(alloc);
    let mut so_far = SubscriberSoFar { tables, counts };
    take_all(alloc, publication, &mut so_far, entries)?;
    Ok(so_far.tables)
}

/// The tables of a subscriber's store, or the first entry that breaks a rule. `held` is what the
/// site holds of the ranges of all identity articles before any was received. The work grows with
/// the entries and the logarithm of the generations.
pub fn start_subscriber(
    alloc: Global,
    publication: &Publication,
    site: SiteId,
    held: Listing<(u8, Ranges)>,
    entries: &Entries,
) -> Result<SubscriberStored, StartFault>
    ensures { Gives (λ t. t) result (subscriber_loaded publication.now site held entries.now) }
{
    let mut rest = entries.iter();
    match rest.next() {
        None => Ok(tables_with(alloc, site, held, &no_state(site))),
        Some((key, value)) => {
            let state = first_state(alloc, site, entries, key, value)?;
            start_behind(
                alloc,
                publication,
                tables_with(alloc, site, held, &state),
                rest,
            )
        }
    }
}
