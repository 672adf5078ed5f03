//! What stays, and what a purge takes.
ghost use Rattle.std.specs.Prelude.{◌≡◌};
ghost use Rattle.merge_steps.specs.Purging.{gone_if, is_old_at, is_old_mapping, is_old_row, take_if};

use merge_gens::{GenerationBook, IndexEntry, Mapping, MoveKind, RowSite};
use merge_table::Edit;
use merge_types::{Moment, RowKey};
use merge_units::PublisherRow;

/// What stays, by the moment before which a generation is old.
#[derive(Clone, Copy)]
pub struct Staying<'a> {
    pub gens: &'a GenerationBook,
    pub cutoff: Moment,
}

impl Staying<'_> {
    // Whether a generation closed before the moment.
    fn is_old(&self, generation: u64) -> bool
        ensures { result ≡ is_old_at self.now.gens.now.book.closings self.now.cutoff generation }
    {
        match self.gens.closed_at(generation) {
            Some(moment) => moment < self.cutoff.0,
            None => false,
        }
    }

    // Whether the row died in a generation that closed before the moment.
    fn is_old_row(&self, key: RowKey, row: &PublisherRow) -> bool
        ensures { result ≡ is_old_row self.now.gens.now.book.closings self.now.cutoff (key, row.now) }
    {
        let _ = key;
        !row.version.is_live() && self.is_old(row.changed)
    }

    // Whether the mapping says that a row left in such a generation.
    fn is_old_mapping(&self, place: RowSite, mapping: Mapping) -> bool
        ensures { result ≡ is_old_mapping self.now.gens.now.book.closings self.now.cutoff (place, mapping) }
    {
        let _ = place;
        mapping.kind == MoveKind::Left && self.is_old(mapping.generation)
    }

    /// The entry of the row in the index, where the row goes.
    pub fn entry(&self, key: RowKey, row: &PublisherRow) -> Option<IndexEntry>
        ensures { result ≡ gone_if (is_old_row self.now.gens.now.book.closings self.now.cutoff) (key, row.now) }
    {
        if self.is_old_row(key, row) {
            return Some(IndexEntry {
                generation: row.changed,
                key,
            });
        }
        None
    }

    /// The edit that takes the mapping, where it goes.
    pub fn take(&self, place: RowSite, mapping: Mapping) -> Option<Edit<RowSite, Mapping>>
        ensures { result ≡ take_if (is_old_mapping self.now.gens.now.book.closings self.now.cutoff) (place, mapping) }
    {
        if self.is_old_mapping(place, mapping) {
            return Some(Edit::Take(place));
        }
        None
    }
}
