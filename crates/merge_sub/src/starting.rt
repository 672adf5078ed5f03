//! What is kept of a subscriber, and how it begins with what was kept.
ghost use Rattle.std.specs.Prelude.{◌≡◌, IfOk, OnOk, map, ℕ};
ghost use Rattle.std.specs.FinSet as set;
ghost use Rattle.merge_schema.specs.Valid.{IsValid};
ghost use Rattle.merge_gens.specs.Index.{entries_after_all};
ghost use Rattle.merge_sub.specs.Held.{tables_of};
ghost use Rattle.merge_sub.specs.Local.{put_entry};
ghost use Rattle.merge_sub.specs.Restoring.{CanStand, rows_puts, tables_in};

use crate::generations::behind;
use crate::{State, Subscriber};
use merge_change::table_of;
use merge_conflict::{ConflictRows, ConflictTable};
use merge_gens::{Closing, Closings, Filling, GenerationBook, GenerationIndex};
use merge_ident::Ranges;
use merge_schema::Publication;
use merge_types::{Listing, Moment, NoMemory, RowKey, SiteId};
use merge_units::SubscriberRow;
use std::alloc::Global;

/// What is kept of a subscriber, as the tables of its store have it. Rows and ranges stand in the
/// order of their keys, conflicts by number.
#[derive(Debug, Drop)]
pub struct Kept {
    pub site: SiteId,
    pub state: State,
    pub filling: Filling,
    /// The closed generations that are kept, with the numbers of the last changes in them.
    pub closings: Closings,
    pub rows: Listing<(RowKey, SubscriberRow)>,
    pub conflicts: ConflictRows,
    /// The ranges of each article with an identity column.
    pub held: Listing<(u8, Ranges)>,
}

impl Subscriber {
    /// The site with the tables that were kept. The time grows with these, and with the logarithm of
    /// the number of rows.
    pub fn restore(
        alloc: Global,
        publication: Publication,
        kept: Kept,
    ) -> Result<Subscriber, NoMemory>
        requires valid { (resolvers : ℕ) × IsValid resolvers publication }
        requires stands { CanStand publication (tables_in kept) }
        ensures tables { IfOk result (λ subscriber. tables_of subscriber ≡ tables_in kept) }
        ensures publication { IfOk result (λ subscriber. subscriber.publication ≡ publication) }
    {
        let Kept {
            site,
            state,
            filling,
            closings,
            rows,
            conflicts,
            held,
        } = kept;
        let unsent = index_of(alloc, rows.as_slice())?;
        let rows = table_of(alloc, rows)?;
        let held = table_of(alloc, held)?;
        Ok(Subscriber {
            alloc,
            publication,
            site,
            state,
            gens: GenerationBook::restore(filling, closings),
            rows,
            unsent,
            conflicts: ConflictTable::restore(conflicts),
            held,
        })
    }

    /// That a subscriber can be restored with the tables of this one. It is a fact for proofs, and
    /// does nothing.
    pub fn can_stand(&self)
        ensures valid { (resolvers : ℕ) × IsValid resolvers self.now.publication }
        ensures stands { CanStand self.now.publication (tables_of self.now) }
    {
        self.rows.is_ordered();
        self.held.is_ordered();
        let _ = self.gens.closings();
        let _ = self.conflicts.rows();
    }

    /// The closed generations that are kept, in ascending order.
    pub fn closings(&self) -> &[Closing]
        ensures { result.now ≡ (tables_of self.now).gens.closings }
    {
        self.gens.closings()
    }

    /// The greatest moment that a call was given that was not refused.
    pub fn latest(&self) -> Moment
        ensures { result ≡ (tables_of self.now).latest }
    {
        self.state.latest
    }
}

// The rows by the generations that they keep.
fn index_of(alloc: Global, rows: &[(RowKey, SubscriberRow)]) -> Result<GenerationIndex, NoMemory>
    ensures { IfOk result (λ index. index.entries ≡ entries_after_all set.empty (rows_puts rows.now)) }
{
    let mut index = GenerationIndex::new(alloc);
    for (key, row) in rows {
        add_row(&mut index, *key, row.generations.as_slice())?;
    }
    Ok(index)
}

// The row is found by these generations.
fn add_row(index: &mut GenerationIndex, key: RowKey, generations: &[u64]) -> Result<(), NoMemory>
    ensures { OnOk result (index.new.entries ≡ entries_after_all index.old.entries (map (put_entry key) generations.now)) }
{
    for generation in generations {
        index.put(behind(*generation)?, key)?;
    }
    Ok(())
}
