//! Whether a site takes a step, and a local change.
ghost use Rattle.std.specs.Prelude.{◌≡◌, ◌+◌, ◌-◌, ◌<◌, ◌^◌, IfErr, None, OnOk, Some, max, min, pos};
ghost use Rattle.std.specs.List.{fold};
ghost use Rattle.std.specs.Option.{option_copied};
ghost use Rattle.merge_types.specs.Limits.{counter_limit};
ghost use Rattle.merge_types.specs.declared.identifiers.Dot.{Dot};
ghost use Rattle.merge_types.specs.declared.values.Value.TheVariants.{Int as WholeNumber};
ghost use Rattle.merge_batch.specs.LocalChanges.{change_refusal, counter_end, length_after, long_row, tracking_at, version_after};
ghost use Rattle.merge_units.specs.Changes.{cells_after};
ghost use Rattle.merge_units.specs.Length as rows;
ghost use Rattle.merge_units.specs.Version.{cells_of};
ghost use Rattle.merge_change.specs.Allowed.{CanBeAsked, FitsColumns, IsAllowed, IsUpdatable};

use crate::refusal::{check_count, check_identity, check_row, check_types, check_values};
use crate::settings::{article_of, settings_of};
use crate::{article, length};
use merge_batch::Refusal;
use merge_schema::Publication;
use merge_types::limits::{COUNTER_LIMIT, ROW_LIMIT};
use merge_types::{Change, Setting};
use merge_units::{Body, Version};

/// Refuses a step where one of the site's counters stands at its limit, with the greatest of them.
pub fn check_counters(counters: &[u64]) -> Result<(), Refusal>
    ensures below { OnOk result (fold max 0 counters.now < counter_limit) }
    ensures ok { OnOk result (counter_end counters.now ≡ None) }
    ensures err { IfErr result (λ refusal. counter_end counters.now ≡ Some refusal) }
{
    let greatest = greatest(counters);
    if greatest >= COUNTER_LIMIT {
        return Err(Refusal::CounterEnd { value: greatest });
    }
    Ok(())
}

// The greatest of the counters, 0 where there are none.
fn greatest(counters: &[u64]) -> u64
    ensures { result ≡ fold max 0 counters.now }
{
    let mut greatest = 0;
    for counter in counters {
        greatest = greatest.max(*counter);
    }
    greatest
}

/// Refuses a change by the first rule that it breaks: the row of an update or a delete does not
/// live here, the identity column is set, a value is neither Null nor of its column's type, a value
/// has more than 4,000 bytes, the row would have more than 8,000, or an insert would make one row
/// more than the 200,000 that a site may hold. `rows` is how many it holds. Takes no memory.
pub fn check_change(
    publication: &Publication,
    change: &Change,
    held: Option<&Version>,
    rows: usize,
) -> Result<(), Refusal>
    requires asked { CanBeAsked publication.now change.now (option_copied held) }
    requires rows { rows + 1 < 2 ^ 64 }
    ensures allowed { OnOk result (IsAllowed publication.now change.now (option_copied held.entry)) }
    ensures ok { OnOk result ((dot : Dot) → change_refusal publication.now dot change.now (option_copied held.entry) rows ≡ None) }
    ensures err { IfErr result (λ refusal. (dot : Dot) → change_refusal publication.now dot change.now (option_copied held.entry) rows ≡ Some refusal) }
{
    check_row(change, held)?;
    let place = article_of(change);
    let settings = settings_of(change);
    check_identity(publication, place, settings)?;
    check_types(publication, place, settings)?;
    check_values(settings)?;
    check_length(publication, change, held)?;
    check_count(change, rows)
}

// The row that the change would make is too long.
fn check_length(
    publication: &Publication,
    change: &Change,
    held: Option<&Version>,
) -> Result<(), Refusal>
    requires asked { CanBeAsked publication.now change.now (option_copied held) }
    requires columns { FitsColumns publication.now change.now (option_copied held) }
    ensures ok { OnOk result ((dot : Dot) → long_row (version_after publication.now dot (WholeNumber (pos 0)) change.now (option_copied held.entry)) ≡ None) }
    ensures err { IfErr result (λ refusal. (dot : Dot) → long_row (version_after publication.now dot (WholeNumber (pos 0)) change.now (option_copied held.entry)) ≡ Some refusal) }
{
    let length = length_after(publication, change, held);
    if length > ROW_LIMIT {
        return Err(Refusal::RowTooLong { length });
    }
    Ok(())
}

// How many bytes the row that the change would make has.
fn length_after(publication: &Publication, change: &Change, held: Option<&Version>) -> u64
    requires asked { CanBeAsked publication.now change.now (option_copied held) }
    requires columns { FitsColumns publication.now change.now (option_copied held) }
    ensures { (dot : Dot) → result ≡ length_after (version_after publication.now dot (WholeNumber (pos 0)) change.now (option_copied held.entry)) }
{
    match change {
        Change::Insert { article, values } => {
            length::new_length(publication, *article, values.as_slice())
        }
        Change::Update {
            article,
            values,
            ..
        } => match held {
            Some(version) => live_length(publication, *article, version, values.as_slice()),
            None => 0,
        },
        Change::Delete { .. } => 0,
    }
}

// How many bytes a row has after an update.
fn live_length(publication: &Publication, place: u8, version: &Version, settings: &[Setting]) -> u64
    requires fits { IsUpdatable publication.now place settings.now version.now }
    ensures { (dot : Dot) → result ≡ rows.stored_length (cells_after (tracking_at publication.now place) dot settings.now (cells_of version.now.body)) }
{
    match &version.body {
        Body::Live(cells) => length::length_after(
            cells.as_slice(),
            settings,
            article::tracking(publication, place),
        ),
        Body::Dead(_) => 0,
    }
}
