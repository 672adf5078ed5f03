//! The values of the column that an article names for its resolver.
ghost use Rattle.std.specs.Prelude.{◌≡◌, slice_get};
ghost use Rattle.std.specs.Option.{option_copied};
ghost use Rattle.merge_resolve.specs.Columns.{cell_value, value_in, body_value};

use crate::CaseKind;
use merge_types::Value;
use merge_units::{Body, Cell};

/// The value of the column, where a case of this kind names one that the body has.
pub fn body_value(kind: CaseKind, body: &Body, column: Option<u8>) -> Option<&Value>
    ensures { option_copied result ≡ body_value kind body.now column }
{
    match (body, column) {
        (Body::Live(cells), Some(column)) => value_in(kind, cells.as_slice(), column as usize),
        _ => None,
    }
}

/// The value of a column, where the cells have it.
pub fn value_in(kind: CaseKind, cells: &[Cell], column: usize) -> Option<&Value>
    ensures { option_copied result ≡ value_in kind cells.now column }
{
    match kind {
        CaseKind::ByRow => cell_value(cells.get(0), column),
        CaseKind::ByColumn => cell_value(cells.get(column), 0),
        CaseKind::Delete => None,
    }
}

fn cell_value(cell: Option<&Cell>, at: usize) -> Option<&Value>
    ensures { option_copied result ≡ cell_value (option_copied cell.entry) at }
{
    match cell {
        Some(cell) => cell.values.as_slice().get(at),
        None => None,
    }
}
