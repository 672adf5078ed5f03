//! The records of the publisher, by their tables.
ghost use Rattle.std.specs.Prelude.{◌≡◌, IfOk, option_map};
ghost use Rattle.std.specs.Int.{w8, w16, w64};
ghost use Rattle.merge_record.specs.Reading.{number_at};
ghost use Rattle.merge_record.specs.Rows.{publisher_row_at};
ghost use Rattle.merge_record.specs.Tables.{row_key_at, row_site_at, mapping_at, grant_key_at, range_at, held_at, site_state_at};
ghost use Rattle.merge_keeper.specs.Start.{conflict_reading, pair_reading};
ghost use Rattle.merge_keeper.specs.declared.publisher_record.PublisherRecord.TheVariants.{Lost as lost};
ghost use Rattle.merge_keeper.specs.PublisherStart.{closing_record, grant_record, held_record, mapping_record, range_reading, reading_in, row_record, site_record, state_reading};

use crate::start::{read_conflict, read_pair};
use crate::{Front, PublisherState};
use merge_conflict::ConflictRow;
use merge_gens::{Closing, Mapping, RowSite, SiteState};
use merge_ident::{Grant, Range};
use merge_ports::EntryKey;
use merge_record::{Field, GrantKey, HeldRanges};
use merge_types::{Moment, NoMemory, RowKey};
use merge_units::PublisherRow;
use std::alloc::Global;

/// A record that was read.
#[derive(Debug, Drop)]
pub enum PublisherRecord {
    State(Front),
    Row(RowKey, PublisherRow),
    Mapped(RowSite, Mapping),
    Closed(Closing),
    Lost(ConflictRow),
    Held(u8, HeldRanges),
    Granted(Grant),
    Subscribed(u16, SiteState),
}

// The state has the empty key.
fn state_record(
    alloc: Global,
    key: &[u8],
    value: &[u8],
) -> Result<Option<PublisherRecord>, NoMemory>
    ensures { IfOk result (λ read. read ≡ state_reading key.now value.now) }
{
    match key {
        [] => match PublisherState::read(alloc, value)? {
            Some(state) => Ok(Some(PublisherRecord::State(state.0))),
            None => Ok(None),
        },
        _ => Ok(None),
    }
}

fn row_record(alloc: Global, key: &[u8], value: &[u8]) -> Result<Option<PublisherRecord>, NoMemory>
    ensures { IfOk result (λ read. read ≡ option_map row_record (pair_reading row_key_at publisher_row_at key.now value.now)) }
{
    match read_pair::<RowKey, PublisherRow>(alloc, key, value)? {
        Some((key, row)) => Ok(Some(PublisherRecord::Row(key, row))),
        None => Ok(None),
    }
}

fn mapping_record(
    alloc: Global,
    key: &[u8],
    value: &[u8],
) -> Result<Option<PublisherRecord>, NoMemory>
    ensures { IfOk result (λ read. read ≡ option_map mapping_record (pair_reading row_site_at mapping_at key.now value.now)) }
{
    match read_pair::<RowSite, Mapping>(alloc, key, value)? {
        Some((place, mapping)) => Ok(Some(PublisherRecord::Mapped(place, mapping))),
        None => Ok(None),
    }
}

fn closing_record(
    alloc: Global,
    key: &[u8],
    value: &[u8],
) -> Result<Option<PublisherRecord>, NoMemory>
    ensures { IfOk result (λ read. read ≡ option_map closing_record (pair_reading (number_at w64) (number_at w64) key.now value.now)) }
{
    match read_pair::<u64, u64>(alloc, key, value)? {
        Some((generation, moment)) => Ok(Some(PublisherRecord::Closed(Closing {
            generation,
            moment: Moment(moment),
        }))),
        None => Ok(None),
    }
}

fn conflict_record(
    alloc: Global,
    key: &[u8],
    value: &[u8],
) -> Result<Option<PublisherRecord>, NoMemory>
    ensures { IfOk result (λ read. read ≡ option_map lost (conflict_reading key.now value.now)) }
{
    match read_conflict(alloc, key, value)? {
        Some(row) => Ok(Some(PublisherRecord::Lost(row))),
        None => Ok(None),
    }
}

fn held_record(alloc: Global, key: &[u8], value: &[u8]) -> Result<Option<PublisherRecord>, NoMemory>
    ensures { IfOk result (λ read. read ≡ option_map held_record (pair_reading (number_at w8) held_at key.now value.now)) }
{
    match read_pair::<u8, HeldRanges>(alloc, key, value)? {
        Some((article, held)) => Ok(Some(PublisherRecord::Held(article, held))),
        None => Ok(None),
    }
}

fn grant_record(
    alloc: Global,
    key: &[u8],
    value: &[u8],
) -> Result<Option<PublisherRecord>, NoMemory>
    ensures { IfOk result (λ read. read ≡ option_map grant_record (pair_reading grant_key_at range_at key.now value.now)) }
{
    match read_pair::<GrantKey, Range>(alloc, key, value)? {
        Some((key, range)) => Ok(Some(PublisherRecord::Granted(Grant {
            article: key.article,
            site: key.site,
            number: key.number,
            range,
        }))),
        None => Ok(None),
    }
}

// A key of one byte is an article's.
fn range_record(
    alloc: Global,
    key: &[u8],
    value: &[u8],
) -> Result<Option<PublisherRecord>, NoMemory>
    ensures { IfOk result (λ read. read ≡ range_reading key.now value.now) }
{
    match key {
        [_] => held_record(alloc, key, value),
        _ => grant_record(alloc, key, value),
    }
}

fn site_record(alloc: Global, key: &[u8], value: &[u8]) -> Result<Option<PublisherRecord>, NoMemory>
    ensures { IfOk result (λ read. read ≡ option_map site_record (pair_reading (number_at w16) site_state_at key.now value.now)) }
{
    match read_pair::<u16, SiteState>(alloc, key, value)? {
        Some((site, state)) => Ok(Some(PublisherRecord::Subscribed(site, state))),
        None => Ok(None),
    }
}

/// The record of an entry, and none where it has no reading.
#[tactic(auto, unfolding(crate::specs::PublisherStart::reading_in))]
pub(crate) fn record_in(
    alloc: Global,
    key: &EntryKey,
    value: &[u8],
) -> Result<Option<PublisherRecord>, NoMemory>
    ensures { IfOk result (λ read. read ≡ reading_in key.now.table key.now.key value.now) }
{
    let bytes = key.key.as_slice();
    match key.table {
        1 => state_record(alloc, bytes, value),
        2 => row_record(alloc, bytes, value),
        3 => mapping_record(alloc, bytes, value),
        4 => closing_record(alloc, bytes, value),
        5 => conflict_record(alloc, bytes, value),
        6 => range_record(alloc, bytes, value),
        7 => site_record(alloc, bytes, value),
        _ => Ok(None),
    }
}
