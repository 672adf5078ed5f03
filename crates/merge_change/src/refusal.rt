//! The refusals of a local change, each on its own.
ghost use Rattle.std.specs.Prelude.{◌≡◌, ◌==◌, ◌+◌, ◌<◌, ◌^◌, false, true, IfErr, None, OnOk, Some, find, nat_lt, not};
ghost use Rattle.std.specs.List.{list_any};
ghost use Rattle.std.specs.Option.{option_copied};
ghost use Rattle.merge_types.specs.Fitting.{content_length};
ghost use Rattle.merge_types.specs.Limits.{value_limit};
ghost use Rattle.merge_batch.specs.LocalChanges.{fits_type, identity_column, lives, long_value, no_row, sets_identity, too_many_rows, types_at, wrong_type};

use crate::article;
use merge_batch::Refusal;
use merge_schema::Publication;
use merge_types::limits::{ROWS_LIMIT, VALUE_LIMIT};
use merge_types::{Change, Setting};
use merge_units::Version;

// The row of an update or a delete does not live here.
pub fn check_row(change: &Change, held: Option<&Version>) -> Result<(), Refusal>
    ensures ok { OnOk result (no_row change.now (option_copied held.entry) ≡ None) }
    ensures err { IfErr result (λ refusal. no_row change.now (option_copied held.entry) ≡ Some refusal) }
{
    match change {
        Change::Insert { .. } => Ok(()),
        Change::Update { .. } => check_lives(held),
        Change::Delete { .. } => check_lives(held),
    }
}

// The row does not live here.
fn check_lives(held: Option<&Version>) -> Result<(), Refusal>
    ensures ok { OnOk result (lives (option_copied held.entry) ≡ true) }
    ensures err { IfErr result (λ refusal. (refusal ≡ Refusal.NoRow) × (lives (option_copied held.entry) ≡ false)) }
{
    match held {
        Some(version) if version.is_live() => Ok(()),
        _ => Err(Refusal::NoRow),
    }
}

// The identity column is set.
pub fn check_identity(
    publication: &Publication,
    place: u8,
    settings: &[Setting],
) -> Result<(), Refusal>
    ensures ok { OnOk result (sets_identity settings.now (identity_column publication.now place) ≡ None) }
    ensures err { IfErr result (λ refusal. sets_identity settings.now (identity_column publication.now place) ≡ Some refusal) }
{
    match article::identity_column(publication, place) {
        Some(column) => check_unset(settings, column),
        None => Ok(()),
    }
}

// A column is set that is not for the user to set.
fn check_unset(settings: &[Setting], column: u8) -> Result<(), Refusal>
    ensures ok { OnOk result (sets_identity settings.now (Some column) ≡ None) }
    ensures err { IfErr result (λ refusal. sets_identity settings.now (Some column) ≡ Some refusal) }
{
    if is_set(settings, column) {
        return Err(Refusal::IdentityColumn { column });
    }
    Ok(())
}

// Whether a column is set.
fn is_set(settings: &[Setting], column: u8) -> bool
    ensures { result ≡ list_any (λ setting. setting.column == column) settings.now }
{
    settings.iter().any(|setting| setting.column == column)
}

// A value is neither Null nor of its column's type.
pub fn check_types(
    publication: &Publication,
    place: u8,
    settings: &[Setting],
) -> Result<(), Refusal>
    ensures ok { OnOk result (wrong_type (types_at publication.now place) settings.now ≡ None) }
    ensures err { IfErr result (λ refusal. wrong_type (types_at publication.now place) settings.now ≡ Some refusal) }
{
    match wrong_setting(publication, place, settings) {
        Some(setting) => Err(Refusal::WrongType {
            column: setting.column,
        }),
        None => Ok(()),
    }
}

// The first value that is neither Null nor of its column's type.
fn wrong_setting<'a>(
    publication: &Publication,
    place: u8,
    settings: &'a [Setting],
) -> Option<&'a Setting>
    ensures { option_copied result ≡ find (λ setting. not (fits_type (types_at publication.now place) setting)) settings.now }
{
    settings
        .iter()
        .find(|setting| !fits_type(publication, place, setting))
}

// Whether the column is there, and the value is Null or of its type. A day that the calendar does not
// have is of none.
fn fits_type(publication: &Publication, place: u8, setting: &Setting) -> bool
    ensures { result ≡ fits_type (types_at publication.now place) setting.now }
{
    match article::column_type(publication, place, setting.column) {
        Some(ty) => setting.value.has_type(ty) && setting.value.is_proper(),
        None => false,
    }
}

// A value is too long.
pub fn check_values(settings: &[Setting]) -> Result<(), Refusal>
    ensures ok { OnOk result (long_value settings.now ≡ None) }
    ensures err { IfErr result (λ refusal. long_value settings.now ≡ Some refusal) }
{
    match long_setting(settings) {
        Some(setting) => Err(Refusal::RowTooLong {
            length: setting.value.content_len() as u64,
        }),
        None => Ok(()),
    }
}

// The first value that is too long.
fn long_setting(settings: &[Setting]) -> Option<&Setting>
    ensures { option_copied result ≡ find (λ setting. nat_lt value_limit (content_length setting.value)) settings.now }
{
    settings
        .iter()
        .find(|setting| setting.value.content_len() > VALUE_LIMIT)
}

// One more row would be too many.
pub fn check_count(change: &Change, rows: usize) -> Result<(), Refusal>
    requires { rows + 1 < 2 ^ 64 }
    ensures ok { OnOk result (too_many_rows change.now rows ≡ None) }
    ensures err { IfErr result (λ refusal. too_many_rows change.now rows ≡ Some refusal) }
{
    match change {
        Change::Insert { .. } if rows + 1 > ROWS_LIMIT => Err(Refusal::TooManyRows {
            count: rows as u64 + 1,
        }),
        _ => Ok(()),
    }
}
