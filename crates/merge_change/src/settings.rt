//! What a change says.
ghost use Rattle.std.specs.Prelude.{◌≡◌, ◌≤◌, ◌<◌};
ghost use Rattle.std.specs.Option.{option_copied};
ghost use Rattle.merge_types.specs.Limits.{number_limit};
ghost use Rattle.merge_units.specs.Changes.{set_value};
ghost use Rattle.merge_batch.specs.LocalChanges.{article_of, key_of, settings_of};

use merge_types::{Change, Dot, RowId, RowKey, Setting, Value};

/// The row that a change is about: an insert makes the row that its dot names.
pub fn key_of(dot: Dot, change: &Change) -> RowKey
    requires low { 1 ≤ dot.number }
    requires high { dot.number < number_limit }
    ensures { result ≡ key_of dot change.now }
{
    match change {
        Change::Insert { article, .. } => RowKey {
            article: *article,
            row: RowId::of(dot),
        },
        Change::Update { article, row, .. } | Change::Delete { article, row } => RowKey {
            article: *article,
            row: *row,
        },
    }
}

// The place of the change's article.
pub fn article_of(change: &Change) -> u8
    ensures { result ≡ article_of change.now }
{
    match change {
        Change::Insert { article, .. } => *article,
        Change::Update { article, .. } => *article,
        Change::Delete { article, .. } => *article,
    }
}

// The columns that the change sets.
pub fn settings_of(change: &Change) -> &[Setting]
    ensures { result.now ≡ settings_of change.now }
{
    match change {
        Change::Insert { values, .. } => values.as_slice(),
        Change::Update { values, .. } => values.as_slice(),
        Change::Delete { .. } => &[],
    }
}

// The value that a column is set to, where it is set.
pub fn set_value(settings: &[Setting], column: usize) -> Option<&Value>
    ensures { option_copied result ≡ set_value settings.now column }
{
    match settings
        .iter()
        .find(|setting| setting.column as usize == column)
    {
        Some(setting) => Some(&setting.value),
        None => None,
    }
}
