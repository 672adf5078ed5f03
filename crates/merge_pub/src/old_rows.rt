//! The tombstones that are old, found by the generations of their last changes.
ghost use Rattle.std.specs.Prelude.{◌≡◌, IfOk, filter_map, map};
ghost use Rattle.std.specs.List.Sorted.{IsStrictlySortedBy};
ghost use Rattle.std.specs.Map.{keys_of};
ghost use Rattle.merge_types.specs.RowKeys.{key_cmp};
ghost use Rattle.merge_table.specs.declared.edit.Edit.TheVariants.{Take};
ghost use Rattle.merge_pub.specs.Held.{tables_of};
ghost use Rattle.merge_steps.specs.OldSpans.{HasChanged};
ghost use Rattle.merge_steps.specs.Purging.{gone_at, gone_if, is_old_row, take_row};

use crate::publisher::Publisher;
use merge_gens::{IndexChange, IndexEntry, sort_rows};
use merge_steps::{Span, Staying, old_span, push_some};
use merge_table::Edit;
use merge_types::{Listing, Moment, NoMemory, RowKey};
use merge_units::PublisherRow;
use std::alloc::Global;

impl Publisher {
    // All rows.
    fn all_rows(&self) -> Result<Vec<RowKey>, NoMemory>
        ensures { IfOk result (λ keys. keys.items ≡ keys_of (tables_of self.now).rows) }
    {
        let mut keys = Vec::new(self.alloc);
        for (key, _) in self.rows.iter() {
            keys.push(*key)?;
        }
        Ok(keys)
    }

    // The rows that changed last in these generations. Generations are numbered from 1, but what is
    // held does not say so: were there a generation 0, this would be all rows.
    fn rows_within(&self, span: Span) -> Result<Vec<RowKey>, NoMemory>
        ensures { IfOk result (λ keys. HasChanged (tables_of self.now).rows span keys.items) }
    {
        if span.first == 0 {
            let keys = self.all_rows()?;
            return Ok(keys);
        }
        let mut keys = Vec::new(self.alloc);
        self.changed.between(span.first - 1, span.last, &mut keys)?;
        Ok(keys)
    }

    // The same by article and row, each once.
    fn sorted_within(&self, span: Span) -> Result<Vec<RowKey>, NoMemory>
        ensures ascending { IfOk result (λ keys. IsStrictlySortedBy key_cmp keys.items) }
        ensures all { IfOk result (λ keys. HasChanged (tables_of self.now).rows span keys.items) }
    {
        let mut keys = self.rows_within(span)?;
        sort_rows(&mut keys);
        Ok(keys)
    }

    // The entry of a row in the index, where the row is an old tombstone.
    fn gone_at(&self, staying: &Staying<'_>, key: RowKey) -> Option<IndexEntry>
        ensures { result ≡ gone_at staying.now.gens.now.book.closings staying.now.cutoff (tables_of self.now).rows key }
    {
        match self.rows.get(&key) {
            Some(row) => staying.entry(key, row),
            None => None,
        }
    }

    // The entries of those of these rows that are old tombstones.
    fn gone_among(
        &self,
        staying: &Staying<'_>,
        keys: &[RowKey],
    ) -> Result<Listing<IndexEntry>, NoMemory>
        ensures { IfOk result (λ gone. gone ≡ filter_map (gone_at staying.now.gens.now.book.closings staying.now.cutoff (tables_of self.now).rows) keys.now) }
    {
        let mut gone = Listing::empty(self.alloc);
        for key in keys {
            push_some(&mut gone, self.gone_at(staying, *key))?;
        }
        Ok(gone)
    }

    // The entries of all tombstones of rows that died in a generation that closed before the moment.
    // The time grows with the rows that changed last in these generations.
    pub(crate) fn gone_entries(&self, cutoff: Moment) -> Result<Listing<IndexEntry>, NoMemory>
        ensures { IfOk result (λ gone. gone ≡ filter_map (gone_if (is_old_row (tables_of self.now).gens.closings cutoff)) (tables_of self.now).rows) }
    {
        self.rows.is_ordered();
        let keys = self.sorted_within(old_span(&self.gens, cutoff))?;
        let staying = Staying {
            gens: &self.gens,
            cutoff,
        };
        let gone = self.gone_among(&staying, &keys)?;
        Ok(gone)
    }
}

/// The edits that take the rows of these entries.
pub fn row_takes(
    alloc: Global,
    gone: &[IndexEntry],
) -> Result<Listing<Edit<RowKey, PublisherRow>>, NoMemory>
    ensures { IfOk result (λ edits. edits ≡ map take_row gone.now) }
{
    let mut edits = Listing::empty(alloc);
    for entry in gone {
        edits.push(Edit::Take(entry.key))?;
    }
    Ok(edits)
}

/// The edits that take these entries.
pub fn entry_takes(alloc: Global, gone: &[IndexEntry]) -> Result<Listing<IndexChange>, NoMemory>
    ensures { IfOk result (λ edits. edits ≡ map (λ entry. Take entry) gone.now) }
{
    let mut edits = Listing::empty(alloc);
    for entry in gone {
        edits.push(Edit::Take(*entry))?;
    }
    Ok(edits)
}
