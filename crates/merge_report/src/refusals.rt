//! Refusals, by their numbers and words.
ghost use Rattle.std.specs.Prelude.{◌≡◌, ◌++◌, ◌∷◌, [], List, ℕ, OnOk, drop, option_copied, string_bytes};
ghost use Rattle.std.specs.Fmt.{signed_decimal};
ghost use Rattle.merge_model.specs.Script.Text.{refusal_words};
ghost use Rattle.merge_report.specs.Words.{name_of_column, first_word, spaced_words};

use crate::lines::{add_field, add_pair};
use crate::names::column_name;
use merge_batch::Refusal;
use merge_types::{Column, NoMemory};

/// The number of a refusal and what it says, without its fields.
pub fn phrase(refusal: &Refusal) -> &'static str
    ensures { (column : ℕ → List ℕ) → result.now ≡ first_word (refusal_words column refusal.now) }
{
    match refusal {
        Refusal::UnknownSite { .. } => "refused 1 unknown site",
        Refusal::Expired { .. } => "refused 2 expired",
        Refusal::Stale { .. } => "refused 3 stale",
        Refusal::Gap { .. } => "refused 4 gap",
        Refusal::BadBatch { .. } => "refused 5 bad batch",
        Refusal::WrongWatermark { .. } => "refused 6 wrong watermark",
        Refusal::StoreFault => "refused 7 store fault",
        Refusal::NoRow => "refused 8 no row",
        Refusal::WrongType { .. } => "refused 9 wrong type",
        Refusal::RowTooLong { .. } => "refused 10 row too long",
        Refusal::IdentityUsedUp { .. } => "refused 11 identity used up",
        Refusal::TooManyRows { .. } => "refused 12 too many rows",
        Refusal::IdentityColumn { .. } => "refused 13 identity column",
        Refusal::Damaged { .. } => "refused 14 damaged",
        Refusal::Joining => "refused 15 joining",
        Refusal::CounterEnd { .. } => "refused 16 counter end",
        Refusal::NotJoined => "refused 17 not joined",
        Refusal::UnknownName { .. } => "refused 18 name",
        Refusal::NoMemory => "no memory",
    }
}

// Adds what a column is called: its name, or its place where no columns are given.
fn add_column(text: &mut String, columns: Option<&[Column]>, place: u8) -> Result<(), NoMemory>
    ensures { OnOk result (string_bytes text.new ≡ string_bytes text.old ++ (32 ∷ name_of_column (option_copied columns.entry) place)) }
{
    match columns {
        Some(columns) => write!(text, " {}", column_name(columns, place))?,
        None => write!(text, " {place}")?,
    }
    Ok(())
}

// Adds where a range ends, with a blank before it.
fn add_end(text: &mut String, end: i64) -> Result<(), NoMemory>
    ensures { OnOk result (string_bytes text.new ≡ string_bytes text.old ++ spaced_words (signed_decimal end ∷ [])) }
{
    write!(text, " {end}")?;
    Ok(())
}

// Adds a name with a blank before it.
fn add_name(text: &mut String, name: &str) -> Result<(), NoMemory>
    ensures { OnOk result (string_bytes text.new ≡ string_bytes text.old ++ spaced_words (name.now ∷ [])) }
{
    write!(text, " {name}")?;
    Ok(())
}

/// Adds the fields of a refusal, with a blank before each.
pub fn add_fields(
    text: &mut String,
    columns: Option<&[Column]>,
    refusal: &Refusal,
) -> Result<(), NoMemory>
    ensures { OnOk result (string_bytes text.new ≡ string_bytes text.old ++ spaced_words (drop 1 (refusal_words (name_of_column (option_copied columns.entry)) refusal.now))) }
{
    match refusal {
        Refusal::UnknownSite { site } => add_field(text, u64::from(site.0)),
        Refusal::Expired { last_sync, now } => add_pair(text, last_sync.0, now.0),
        Refusal::Stale { seq, joined_at } => add_pair(text, *seq, *joined_at),
        Refusal::Gap { from, received } => add_pair(text, *from, *received),
        Refusal::BadBatch { item, rule } => add_pair(text, *item, u64::from(*rule)),
        Refusal::WrongWatermark { from, last } => add_pair(text, *from, *last),
        Refusal::WrongType { column } | Refusal::IdentityColumn { column } => {
            add_column(text, columns, *column)
        }
        Refusal::RowTooLong { length } => add_field(text, *length),
        Refusal::IdentityUsedUp { end } => add_end(text, *end),
        Refusal::TooManyRows { count } => add_field(text, *count),
        Refusal::Damaged { table, .. } => add_field(text, u64::from(*table)),
        Refusal::CounterEnd { value } => add_field(text, *value),
        Refusal::UnknownName { name } => add_name(text, name.as_str()),
        Refusal::StoreFault
        | Refusal::NoRow
        | Refusal::Joining
        | Refusal::NotJoined
        | Refusal::NoMemory => Ok(()),
    }
}
