//! A start of the publisher: one pass over the entries of its store.
ghost use Rattle.std.specs.Prelude.{◌≡◌, ◌<◌, ◌++◌, ◌∷◌, [], true, false, IfOk, OnOk};
ghost use Rattle.merge_types.specs.Limits.{number_limit};
ghost use Rattle.merge_ident.specs.Holders.{AreKept};
ghost use Rattle.merge_ident.specs.Stored.{can_follow};
ghost use Rattle.merge_keeper.specs.Grants.{grants_in};
ghost use Rattle.merge_keeper.specs.Start.{Gives, last_conflict, loaded_behind, one_loaded, own_grants};
ghost use Rattle.merge_keeper.specs.PublisherStart.{publisher_first_state, closing_is_sound, grant_is_sound, has_space, is_held, is_sound, limit_of, loading_of_publisher, move_is_sound, no_state, own_is_sound, publisher_loaded, reading_of, row_is_sound, site_is_sound, state_is_sound, tables_of, tables_with, with_record, CanAdd, GoesOn, is_indexed};

use crate::counts::Counts;
use crate::grants::GrantsSoFar;
use crate::publisher_record::record_in;
use crate::start::{
    StartFault, are_kept, conflict_is_sound, holds_last, identity_at, is_counter, last_conflict,
    last_own, own_count, own_grants, row_was_made, version_is_sound, with_held,
};
use crate::{Front, PublisherRecord, PublisherStored};
use merge_batch::{has_article, is_site};
use merge_conflict::ConflictRows;
use merge_gens::{Closing, Closings, Filling, Mapping, RowSite, SiteState};
use merge_ident::{Grant, Grants, Range, Ranges};
use merge_ports::{Entries, EntryKey};
use merge_record::HeldRanges;
use merge_schema::Publication;
use merge_table::Rows;
use merge_types::limits::ENTRY_LIMIT;
use merge_types::{Listing, Moment, NoMemory, Octets, RowKey, SiteId};
use merge_units::PublisherRow;
use std::alloc::Global;

const PUBLISHER: SiteId = SiteId(0);

const NO_STATE: Front = Front {
    site: 0,
    changes: 0,
    last_closed: 0,
    filled: 0,
    conflicts: 0,
    latest: 0,
};

// The tables so far, how many entries stand in each generation of them, and their grants.
#[derive(Debug, Drop)]
pub struct PublisherSoFar {
    tables: PublisherStored,
    counts: Counts,
    grants: GrantsSoFar,
}

#[tactic(auto, unfolding(crate::specs::PublisherStart::state_is_sound))]
fn state_is_sound(last: u64, state: Front) -> bool
    ensures { result ≡ state_is_sound last state }
{
    state.site == 0
        && is_counter(state.changes)
        && is_counter(state.last_closed)
        && is_counter(state.conflicts)
        && state.filled < ENTRY_LIMIT
        && state.conflicts <= last
}

fn limit_of(tables: &PublisherStored, generation: u64) -> u64
    ensures { result ≡ limit_of tables.now generation }
{
    if generation <= tables.filling.last_closed {
        ENTRY_LIMIT
    } else {
        tables.filling.filled
    }
}

fn has_space(so_far: &PublisherSoFar, generation: u64) -> bool
    requires { GoesOn so_far.now }
    ensures { result ≡ has_space (tables_of so_far.now) generation }
{
    generation.saturating_sub(1) <= so_far.tables.filling.last_closed
        && so_far.counts.of(generation) < limit_of(&so_far.tables, generation)
}

#[tactic(auto, unfolding(crate::specs::PublisherStart::own_is_sound))]
fn own_is_sound(
    publication: &Publication,
    owns: &[(u8, Range)],
    article: u8,
    held: &HeldRanges,
) -> bool
    ensures test { result ≡ own_is_sound publication.now owns.now article held.now }
    ensures kept { result ≡ true → AreKept held.now.ranges held.now.next }
{
    identity_at(publication, article).is_some()
        && are_kept(held.ranges.as_slice(), held.next)
        && 0 < held.have
        && held.have == own_count(article, owns)
        && holds_last(last_own(article, owns), held.ranges.as_slice())
}

fn is_held(held: &[(u8, Ranges)], article: u8) -> bool
    ensures { result ≡ is_held held.now article }
{
    held.iter()
        .any(|place| place.0 == article && 0 < place.1.holding().have)
}

#[tactic(auto, unfolding(crate::specs::PublisherStart::grant_is_sound))]
fn grant_is_sound(publication: &Publication, so_far: &PublisherSoFar, grant: Grant) -> bool
    requires { GoesOn so_far.now }
    ensures test { result ≡ grant_is_sound publication.now (tables_of so_far.now) grant }
    ensures follows { result ≡ true → can_follow (grants_in so_far.now.grants) grant ≡ true }
{
    identity_at(publication, grant.article).is_some()
        && is_site(publication, grant.site)
        && so_far.grants.can_follow(grant)
        && (grant.site.0 != 0 || is_held(so_far.tables.held.as_slice(), grant.article))
}

#[tactic(auto, unfolding(crate::specs::PublisherStart::site_is_sound))]
fn site_is_sound(publication: &Publication, last_closed: u64, site: u16, state: SiteState) -> bool
    ensures { result ≡ site_is_sound publication.now last_closed site state }
{
    publication.is_subscription(SiteId(site))
        && is_counter(state.joined_at)
        && is_counter(state.received)
        && is_counter(state.received_number)
        && is_counter(state.seen)
        && state.watermark <= last_closed
}

#[tactic(auto, unfolding(crate::specs::PublisherStart::row_is_sound))]
fn row_is_sound(
    publication: &Publication,
    so_far: &PublisherSoFar,
    key: RowKey,
    row: &PublisherRow,
) -> bool
    requires { GoesOn so_far.now }
    ensures { result ≡ row_is_sound publication.now (tables_of so_far.now) key row.now }
{
    version_is_sound(publication, key.article, &row.version)
        && row_was_made(PUBLISHER, so_far.tables.changes, key, &row.version)
        && has_space(so_far, row.changed)
}

#[tactic(auto, unfolding(crate::specs::PublisherStart::move_is_sound))]
fn move_is_sound(
    publication: &Publication,
    so_far: &PublisherSoFar,
    place: RowSite,
    mapping: Mapping,
) -> bool
    requires { GoesOn so_far.now }
    ensures { result ≡ move_is_sound publication.now (tables_of so_far.now) place mapping }
{
    has_article(publication, place.key.article)
        && publication.is_subscription(SiteId(place.site))
        && has_space(so_far, mapping.generation)
}

#[tactic(auto, unfolding(crate::specs::PublisherStart::closing_is_sound))]
fn closing_is_sound(last_closed: u64, closing: Closing) -> bool
    ensures { result ≡ closing_is_sound last_closed closing }
{
    0 < closing.generation && closing.generation <= last_closed
}

// Whether a record keeps the rules behind those before it.
fn is_sound(
    publication: &Publication,
    owns: &[(u8, Range)],
    so_far: &PublisherSoFar,
    read: &PublisherRecord,
) -> bool
    requires { GoesOn so_far.now }
    ensures test { result ≡ is_sound publication.now owns.now (tables_of so_far.now) read.now }
    ensures room { result ≡ true → CanAdd (tables_of so_far.now) read.now }
{
    let tables = &so_far.tables;
    match read {
        PublisherRecord::State(_) => false,
        PublisherRecord::Row(key, row) => row_is_sound(publication, so_far, *key, row),
        PublisherRecord::Mapped(place, mapping) => {
            move_is_sound(publication, so_far, *place, *mapping)
        }
        PublisherRecord::Closed(closing) => closing_is_sound(tables.filling.last_closed, *closing),
        PublisherRecord::Lost(row) => {
            let before = tables.conflicts.len() as u64;
            conflict_is_sound(publication, before, tables.conflict_count, row)
        }
        PublisherRecord::Held(article, held) => own_is_sound(publication, owns, *article, held),
        PublisherRecord::Granted(grant) => grant_is_sound(publication, so_far, *grant),
        PublisherRecord::Subscribed(site, state) => {
            site_is_sound(publication, tables.filling.last_closed, *site, *state)
        }
    }
}

// Takes in a row.
#[tactic(auto, using(crate::proofs::Counted::row_counted))]
fn add_row(so_far: &mut PublisherSoFar, key: RowKey, row: PublisherRow) -> Result<(), NoMemory>
    requires on { GoesOn so_far.old }
    ensures tables { OnOk result (tables_of so_far.new ≡ record (tables_of so_far.old) { rows = so_far.old.tables.rows ++ (key, row) ∷ [] }) }
    ensures on { OnOk result (GoesOn so_far.new) }
{
    so_far.counts.add(row.changed)?;
    so_far.tables.rows.push((key, row))
}

// Takes in a mapping.
#[tactic(auto, using(crate::proofs::Counted::move_counted))]
fn add_move(so_far: &mut PublisherSoFar, place: RowSite, mapping: Mapping) -> Result<(), NoMemory>
    requires on { GoesOn so_far.old }
    ensures tables { OnOk result (tables_of so_far.new ≡ record (tables_of so_far.old) { mappings = so_far.old.tables.mappings ++ (place, mapping) ∷ [] }) }
    ensures on { OnOk result (GoesOn so_far.new) }
{
    so_far.counts.add(mapping.generation)?;
    so_far.tables.mappings.push((place, mapping))
}

// Takes in a record that no index takes up.
fn add_unindexed(
    alloc: Global,
    publication: &Publication,
    tables: &mut PublisherStored,
    read: PublisherRecord,
) -> Result<(), NoMemory>
    requires room { CanAdd tables.old read }
    requires unindexed { is_indexed read ≡ false }
    ensures { OnOk result (tables.new ≡ with_record publication.now tables.old read) }
{
    match read {
        PublisherRecord::Closed(closing) => tables.closings.push(closing),
        PublisherRecord::Lost(row) => tables.conflicts.push(row),
        PublisherRecord::Held(article, held) => {
            tables.held = with_held(alloc, publication, tables.held.as_slice(), article, &held)?;
            Ok(())
        }
        PublisherRecord::Subscribed(site, state) => tables.sites.push((site, state)),
        PublisherRecord::State(_)
        | PublisherRecord::Row(..)
        | PublisherRecord::Mapped(..)
        | PublisherRecord::Granted(_) => Ok(()),
    }
}

// Takes in a record that keeps the rules.
fn add(
    alloc: Global,
    publication: &Publication,
    so_far: &mut PublisherSoFar,
    read: PublisherRecord,
) -> Result<(), NoMemory>
    requires on { GoesOn so_far.old }
    requires room { CanAdd (tables_of so_far.old) read }
    ensures tables { OnOk result (tables_of so_far.new ≡ with_record publication.now (tables_of so_far.old) read) }
    ensures on { OnOk result (GoesOn so_far.new) }
{
    match read {
        PublisherRecord::Row(key, row) => add_row(so_far, key, row),
        PublisherRecord::Mapped(place, mapping) => add_move(so_far, place, mapping),
        PublisherRecord::Granted(grant) => so_far.grants.add(grant),
        read => add_unindexed(alloc, publication, &mut so_far.tables, read),
    }
}

// Takes in the entry behind those so far.
fn take_in(
    alloc: Global,
    publication: &Publication,
    owns: &[(u8, Range)],
    so_far: &mut PublisherSoFar,
    key: &EntryKey,
    value: &Octets,
) -> Result<(), StartFault>
    requires on { GoesOn so_far.old }
    ensures given { Gives (λ u. tables_of so_far.new) result (one_loaded (loading_of_publisher publication.now owns.now) (tables_of so_far.old) (key.now, value.now)) }
    ensures on { OnOk result (GoesOn so_far.new) }
{
    match record_in(alloc, key, value.as_slice())? {
        None => Err(StartFault::Damaged(key.clone()?)),
        Some(read) => {
            if !is_sound(publication, owns, so_far, &read) {
                return Err(StartFault::Damaged(key.clone()?));
            }
            add(alloc, publication, so_far, read)?;
            Ok(())
        }
    }
}

// Takes in all entries that are left.
fn take_all(
    alloc: Global,
    publication: &Publication,
    owns: &[(u8, Range)],
    so_far: &mut PublisherSoFar,
    entries: Rows<'_, EntryKey, Octets>,
) -> Result<(), StartFault>
    requires on { GoesOn so_far.old }
    ensures given { Gives (λ u. tables_of so_far.new) result (loaded_behind (loading_of_publisher publication.now owns.now) (tables_of so_far.old) entries.entry) }
{
    for (key, value) in entries {
        take_in(alloc, publication, owns, so_far, key, value)?;
    }
    Ok(())
}

fn tables_with(alloc: Global, held: Listing<(u8, Ranges)>, state: Front) -> PublisherStored
    ensures { result ≡ tables_with held state }
{
    PublisherStored {
        changes: state.changes,
        filling: Filling {
            last_closed: state.last_closed,
            filled: state.filled,
        },
        closings: Closings::empty(alloc),
        conflict_count: state.conflicts,
        latest: Moment(state.latest),
        rows: Listing::empty(alloc),
        mappings: Listing::empty(alloc),
        conflicts: ConflictRows::empty(alloc),
        grants: Grants::empty(alloc),
        held,
        sites: Listing::empty(alloc),
    }
}

// The state of the first entry.
#[tactic(auto, unfolding(crate::specs::PublisherStart::state_is_sound))]
fn first_state(
    alloc: Global,
    last: u64,
    key: &EntryKey,
    value: &Octets,
) -> Result<Front, StartFault>
    ensures given { Gives (λ state. state) result (publisher_first_state last key.now (reading_of (key.now, value.now))) }
    ensures small { IfOk result (λ state. state.changes < number_limit) }
{
    match record_in(alloc, key, value.as_slice())? {
        Some(PublisherRecord::State(state)) if state_is_sound(last, state) => Ok(state),
        _ => Err(StartFault::Damaged(key.clone()?)),
    }
}

// The tables with the grants of their index.
fn all_tables(alloc: Global, so_far: PublisherSoFar) -> Result<PublisherStored, NoMemory>
    ensures { IfOk result (λ tables. tables ≡ tables_of so_far) }
{
    let PublisherSoFar {
        mut tables,
        grants,
        ..
    } = so_far;
    tables.grants = grants.list(alloc)?;
    Ok(tables)
}

// The tables of the entries behind a state.
fn start_behind(
    alloc: Global,
    publication: &Publication,
    owns: &[(u8, Range)],
    tables: PublisherStored,
    entries: Rows<'_, EntryKey, Octets>,
) -> Result<PublisherStored, StartFault>
    requires rows { tables.rows ≡ [] }
    requires mappings { tables.mappings ≡ [] }
    requires grants { tables.grants ≡ [] }
    requires small { tables.changes < number_limit }
    ensures { Gives (λ t. t) result (loaded_behind (loading_of_publisher publication.now owns.now) tables entries.entry) }
{
    let mut so_far = PublisherSoFar {
        tables,
        counts: Counts::new(alloc),
        grants: GrantsSoFar::new(alloc),
    };
    take_all(alloc, publication, owns, &mut so_far, entries)?;
    Ok(all_tables(alloc, so_far)?)
}

/// The tables of the publisher's store, or the first entry that breaks a rule. `held` is what the
/// publisher holds of the ranges of all identity articles before any was received. The work grows
/// with the entries, and the logarithm of the generations and of the grants.
pub fn start_publisher(
    alloc: Global,
    publication: &Publication,
    held: Listing<(u8, Ranges)>,
    entries: &Entries,
) -> Result<PublisherStored, StartFault>
    ensures { Gives (λ t. t) result (publisher_loaded publication.now held entries.now) }
{
    let mut rest = entries.iter();
    match rest.next() {
        None => Ok(tables_with(alloc, held, NO_STATE)),
        Some((key, value)) => {
            let owns = own_grants(alloc, entries)?;
            let last = last_conflict(alloc, entries)?;
            let state = first_state(alloc, last, key, value)?;
            start_behind(
                alloc,
                publication,
                &owns,
                tables_with(alloc, held, state),
                rest,
            )
        }
    }
}
