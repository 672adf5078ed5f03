//! How long the row is that a change would make.
ghost use Rattle.std.specs.Prelude.{◌≡◌, ◌-◌, ◌^◌, ℕ, map, min, pos, true};
ghost use Rattle.std.specs.List.{enumerate_from};
ghost use Rattle.std.specs.Option.{option_copied};
ghost use Rattle.merge_types.specs.Length.{row_length, stored_length};
ghost use Rattle.merge_types.specs.declared.identifiers.Dot.{Dot};
ghost use Rattle.merge_types.specs.declared.values.Value.TheVariants.{Int as WholeNumber};
ghost use Rattle.merge_units.specs.Changes.{cell_after, cells_after, value_after};
ghost use Rattle.merge_units.specs.Length as rows;
ghost use Rattle.merge_units.specs.Version.{FitsTracking};
ghost use Rattle.merge_batch.specs.LocalChanges.{new_value, new_values};

use crate::article;
use crate::settings::set_value;
use merge_schema::Publication;
use merge_types::{Setting, Tracking, Value};
use merge_units::Cell;

// How many bytes a whole number takes.
const IDENTITY_LENGTH: u64 = 9;

// How many bytes the values of a new row take.
pub fn new_length(publication: &Publication, place: u8, settings: &[Setting]) -> u64
    ensures { result ≡ min (row_length (new_values publication.now place (WholeNumber (pos 0)) settings.now)) (2 ^ 64 - 1) }
{
    let identity = article::identity_column(publication, place);
    let mut total = 0u64;
    for column in 0..article::column_count(publication, place) {
        total = total.saturating_add(new_value_length(identity, settings, column));
    }
    total
}

// How many bytes a value of a new row takes.
fn new_value_length(identity: Option<u8>, settings: &[Setting], column: usize) -> u64
    ensures { result ≡ stored_length (new_value identity (WholeNumber (pos 0)) settings.now column) }
{
    match identity {
        Some(place) if column == place as usize => IDENTITY_LENGTH,
        _ => match set_value(settings, column) {
            Some(value) => value.stored_len(),
            None => Value::Null.stored_len(),
        },
    }
}

// How many bytes the values of a row take after an update.
pub fn length_after(cells: &[Cell], settings: &[Setting], tracking: Tracking) -> u64
    requires { FitsTracking tracking cells.now }
    ensures { (dot : Dot) → result ≡ min (rows.stored_length (cells_after tracking dot settings.now cells.now)) (2 ^ 64 - 1) }
{
    match tracking {
        Tracking::Row => values_length(cells[0].values.as_slice(), settings),
        Tracking::ByColumn => cells_length(cells, settings),
    }
}

// The same, of the values of the one cell.
fn values_length(values: &[Value], settings: &[Setting]) -> u64
    ensures { result ≡ min (row_length (map (value_after settings.now) (enumerate_from 0 values.now))) (2 ^ 64 - 1) }
{
    let mut total = 0u64;
    for (column, value) in values.iter().enumerate() {
        total = total.saturating_add(value_length(value, settings, column));
    }
    total
}

// How many bytes a value takes after an update.
fn value_length(value: &Value, settings: &[Setting], column: usize) -> u64
    ensures { result ≡ stored_length (value_after settings.now (column, value.now)) }
{
    match set_value(settings, column) {
        Some(value) => value.stored_len(),
        None => value.stored_len(),
    }
}

// The same, of cells that have a value each.
fn cells_length(cells: &[Cell], settings: &[Setting]) -> u64
    ensures { (dot : Dot) → result ≡ min (rows.stored_length (map (cell_after dot settings.now) (enumerate_from 0 cells.now))) (2 ^ 64 - 1) }
{
    let mut total = 0u64;
    for (column, cell) in cells.iter().enumerate() {
        total = total.saturating_add(cell_length(cell, settings, column));
    }
    total
}

// How many bytes a cell takes after an update.
fn cell_length(cell: &Cell, settings: &[Setting], column: usize) -> u64
    ensures { (dot : Dot) → result ≡ min (row_length (cell_after dot settings.now (column, cell.now)).values) (2 ^ 64 - 1) }
{
    match set_value(settings, column) {
        Some(value) => value.stored_len(),
        None => cell.values.stored_len(),
    }
}
