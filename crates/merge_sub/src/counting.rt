//! How many rows are unsent, counted with no memory by the entries of the index.
ghost use Rattle.std.specs.Prelude.{◌≡◌, ◌==◌, ◌+◌, ◌<◌, ◌^◌, cond};
ghost use Rattle.merge_sub.specs.Held.{AreIndexed};
ghost use Rattle.merge_sub.specs.Sent.{changed_count, is_last};

use crate::generations::kept_by;
use crate::upload::last_between;
use merge_gens::{GenerationIndex, IndexEntry};
use merge_table::Table;
use merge_types::RowKey;
use merge_units::SubscriberRow;

// How many rows keep a generation behind one, up to another. A row is counted at the last of those
// that it keeps.
#[tactic(auto, using(crate::proofs::Counted::begin_counting, crate::proofs::Counted::go_on_counting, crate::proofs::Counted::end_counting))]
pub(crate) fn count_changed(
    index: &GenerationIndex,
    rows: &Table<RowKey, SubscriberRow>,
    from: u64,
    to: u64,
) -> u64
    requires indexed { AreIndexed rows.now.rows index.now.entries }
    requires low { from + 2 < 2 ^ 64 }
    ensures { result ≡ changed_count rows.now.rows from to }
{
    let mut count = 0;
    for (entry, _) in index.entries_from(from + 2) {
        count = one_more(count, is_last(rows, entry, from, to));
    }
    rows.is_ordered();
    count
}

fn one_more(count: u64, passes: bool) -> u64
    requires { count < 2 ^ 63 }
    ensures { result ≡ cond passes (count + 1) count }
{
    if passes { count + 1 } else { count }
}

// Whether the entry is that of the last of its row's generations behind one, up to another.
fn is_last(rows: &Table<RowKey, SubscriberRow>, entry: &IndexEntry, from: u64, to: u64) -> bool
    ensures { result ≡ is_last rows.now.rows from to entry.now }
{
    match last_between(from, to, kept_by(rows, entry.key)) {
        Some(last) => is_next(entry.generation, last),
        None => false,
    }
}

fn is_next(next: u64, number: u64) -> bool
    ensures { result ≡ (next == number + 1) }
{
    next > number && next - number == 1
}
