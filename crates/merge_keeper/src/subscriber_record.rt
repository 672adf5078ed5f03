//! The records of a subscriber, by their tables.
ghost use Rattle.std.specs.Prelude.{◌≡◌, IfOk, option_map};
ghost use Rattle.std.specs.Int.{w8, w64};
ghost use Rattle.merge_record.specs.Reading.{number_at};
ghost use Rattle.merge_record.specs.Rows.{subscriber_row_at};
ghost use Rattle.merge_record.specs.Tables.{row_key_at, held_at};
ghost use Rattle.merge_keeper.specs.Start.{conflict_reading, pair_reading};
ghost use Rattle.merge_keeper.specs.declared.subscriber_record.SubscriberRecord.TheVariants.{Lost as lost};
ghost use Rattle.merge_keeper.specs.SubscriberStart.{closing_record, held_record, reading_in, row_record, state_reading};

use crate::SubscriberState;
use crate::start::{read_conflict, read_pair};
use merge_conflict::ConflictRow;
use merge_gens::Closing;
use merge_ports::EntryKey;
use merge_record::{Field, HeldRanges};
use merge_types::{Moment, NoMemory, RowKey};
use merge_units::SubscriberRow;
use std::alloc::Global;

/// A record that was read.
#[derive(Debug, Drop)]
pub enum SubscriberRecord {
    State(SubscriberState),
    Row(RowKey, SubscriberRow),
    Closed(Closing),
    Lost(ConflictRow),
    Held(u8, HeldRanges),
}

// The state has the empty key.
fn state_record(
    alloc: Global,
    key: &[u8],
    value: &[u8],
) -> Result<Option<SubscriberRecord>, NoMemory>
    ensures { IfOk result (λ read. read ≡ state_reading key.now value.now) }
{
    match key {
        [] => match SubscriberState::read(alloc, value)? {
            Some(state) => Ok(Some(SubscriberRecord::State(state))),
            None => Ok(None),
        },
        _ => Ok(None),
    }
}

fn row_record(alloc: Global, key: &[u8], value: &[u8]) -> Result<Option<SubscriberRecord>, NoMemory>
    ensures { IfOk result (λ read. read ≡ option_map row_record (pair_reading row_key_at subscriber_row_at key.now value.now)) }
{
    match read_pair::<RowKey, SubscriberRow>(alloc, key, value)? {
        Some((key, row)) => Ok(Some(SubscriberRecord::Row(key, row))),
        None => Ok(None),
    }
}

fn closing_record(
    alloc: Global,
    key: &[u8],
    value: &[u8],
) -> Result<Option<SubscriberRecord>, NoMemory>
    ensures { IfOk result (λ read. read ≡ option_map closing_record (pair_reading (number_at w64) (number_at w64) key.now value.now)) }
{
    match read_pair::<u64, u64>(alloc, key, value)? {
        Some((generation, number)) => Ok(Some(SubscriberRecord::Closed(Closing {
            generation,
            moment: Moment(number),
        }))),
        None => Ok(None),
    }
}

fn conflict_record(
    alloc: Global,
    key: &[u8],
    value: &[u8],
) -> Result<Option<SubscriberRecord>, NoMemory>
    ensures { IfOk result (λ read. read ≡ option_map lost (conflict_reading key.now value.now)) }
{
    match read_conflict(alloc, key, value)? {
        Some(row) => Ok(Some(SubscriberRecord::Lost(row))),
        None => Ok(None),
    }
}

fn held_record(
    alloc: Global,
    key: &[u8],
    value: &[u8],
) -> Result<Option<SubscriberRecord>, NoMemory>
    ensures { IfOk result (λ read. read ≡ option_map held_record (pair_reading (number_at w8) held_at key.now value.now)) }
{
    match read_pair::<u8, HeldRanges>(alloc, key, value)? {
        Some((article, held)) => Ok(Some(SubscriberRecord::Held(article, held))),
        None => Ok(None),
    }
}

/// The record of an entry, and none where it has no reading.
#[tactic(auto, unfolding(crate::specs::SubscriberStart::reading_in))]
pub(crate) fn record_in(
    alloc: Global,
    key: &EntryKey,
    value: &[u8],
) -> Result<Option<SubscriberRecord>, NoMemory>
    ensures { IfOk result (λ read. read ≡ reading_in key.now.table key.now.key value.now) }
{
    let bytes = key.key.as_slice();
    match key.table {
        1 => state_record(alloc, bytes, value),
        2 => row_record(alloc, bytes, value),
        4 => closing_record(alloc, bytes, value),
        5 => conflict_record(alloc, bytes, value),
        6 => held_record(alloc, bytes, value),
        _ => Ok(None),
    }
}
