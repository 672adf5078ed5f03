//! The change that made a row.
ghost use Rattle.std.specs.Prelude.{◌≡◌};
ghost use Rattle.merge_batch.specs.Makers.{maker_of};

use merge_types::{Dot, RowId};

/// The change that makes the row, none where no change makes it.
pub fn maker(row: RowId) -> Option<Dot>
    ensures { result ≡ maker_of row.0 }
{
    row.maker()
}
