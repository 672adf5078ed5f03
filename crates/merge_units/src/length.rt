//! How much rows have.
ghost use Rattle.std.specs.Prelude.{◌≡◌, ◌-◌, ◌^◌, min};
ghost use Rattle.merge_units.specs.Length.{stored_length};

use crate::Cell;

/// How many bytes the values of a row take where they are stored, as far as a `u64` goes.
pub fn stored_length(cells: &[Cell]) -> u64
    ensures { result ≡ min (stored_length cells.now) (2 ^ 64 - 1) }
{
    let mut total = 0u64;
    for cell in cells {
        total = total.saturating_add(cell.values.stored_len());
    }
    total
}
