//! A walk through the mappings of a site by generation.
ghost use Rattle.std.specs.Prelude.{◌≡◌, ◌++◌, ◌&&◌, ◌==◌, not, OnOk};
ghost use Rattle.merge_steps.specs.MoveWalks.{is_within, keys_in_walk};

use crate::site_moves::MoveEntry;
use merge_table::Table;
use merge_types::{NoMemory, RowId, RowKey};

/// Adds the rows that moved last for a site in the generations from one on, up to another where one
/// is given, behind a list. After a refusal some of them were added. The time grows with these rows,
/// and with the logarithm of all entries.
pub fn add_moved(
    moved: &Table<MoveEntry, ()>,
    site: u16,
    first: u64,
    to: Option<u64>,
    keys: &mut Vec<RowKey>,
) -> Result<(), NoMemory>
    ensures { OnOk result (keys.new.items ≡ keys.old.items ++ keys_in_walk site first to moved.now.rows) }
{
    let start = MoveEntry {
        site,
        generation: first,
        key: RowKey {
            article: 0,
            row: RowId(0),
        },
    };
    for (entry, _) in moved.range(start..) {
        if is_past(entry, site, to) {
            return Ok(());
        }
        keys.push(entry.key)?;
    }
    Ok(())
}

// Whether an entry stands behind those of the site up to a generation.
fn is_past(entry: &MoveEntry, site: u16, to: Option<u64>) -> bool
    ensures { result ≡ not ((entry.now.site == site) && is_within to entry.now.generation) }
{
    entry.site != site || !comes_within(entry.generation, to)
}

// Whether a generation comes before the end, where there is one.
fn comes_within(generation: u64, to: Option<u64>) -> bool
    ensures { result ≡ is_within to generation }
{
    match to {
        Some(to) => generation <= to,
        None => true,
    }
}
