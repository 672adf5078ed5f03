//! The order of rows in a message.
ghost use Rattle.std.specs.Prelude.{◌≡◌};
ghost use Rattle.merge_batch.specs.Search.{is_below};

use merge_types::RowId;

// Whether a row comes before another, by article and identifier.
pub fn is_below(row: (u8, RowId), other: (u8, RowId)) -> bool
    ensures { result ≡ is_below (row.0, row.1.0) (other.0, other.1.0) }
{
    row.0 < other.0 || row.0 == other.0 && row.1.0 < other.1.0
}
