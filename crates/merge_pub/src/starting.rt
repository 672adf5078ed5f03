//! What is kept of a publisher, and how it begins with what was kept.
ghost use Rattle.std.specs.Prelude.{◌≡◌, ℕ, IfOk};
ghost use Rattle.merge_schema.specs.Valid.{IsValid};
ghost use Rattle.merge_pub.specs.Held.{IsSound, publication_of, tables_of};
ghost use Rattle.merge_pub.specs.Restoring.{CanStand, held_with, tables_in};

use crate::beginning::rules_of;
use crate::indexes::{Indexes, indexes_of};
use crate::publisher::Publisher;
use crate::tables::{KeyedTables, Tables, tables_of};
use merge_conflict::ConflictRows;
use merge_gens::{Closings, Filling, Mapping, RowSite, SiteState};
use merge_ident::{Grants, Ranges};
use merge_schema::Publication;
use merge_types::{Listing, Moment, NoMemory, RowKey, Steps};
use merge_units::PublisherRow;
use std::alloc::Global;
use std::sync::ledger::Ledger;

/// What is kept of a publisher, as the tables of its store have it. Rows, mappings, ranges and sites
/// stand in the order of their keys, conflicts by number, and grants by article and begin.
#[derive(Debug, Drop)]
pub struct Kept {
    pub changes: u64,
    pub filling: Filling,
    /// The closed generations that are kept, with the moments at which they closed.
    pub closings: Closings,
    pub conflict_count: u64,
    pub latest: Moment,
    pub rows: Listing<(RowKey, PublisherRow)>,
    pub mappings: Listing<(RowSite, Mapping)>,
    pub conflicts: ConflictRows,
    pub grants: Grants,
    /// The publisher's own ranges of each article with an identity column.
    pub held: Listing<(u8, Ranges)>,
    pub sites: Listing<(u16, SiteState)>,
}

impl Publisher {
    /// The publisher with the tables that were kept. All rows come into the partitions in one step,
    /// so that the time grows with the rows and those of them that follow one another, with the
    /// mappings, and with the logarithm of these.
    pub fn restore<L: Ledger>(
        alloc: Global,
        publication: &Publication,
        kept: Kept,
        steps: &mut Steps<L>,
    ) -> Result<Publisher, NoMemory>
        requires valid { (resolvers : ℕ) × IsValid resolvers publication.now }
        requires stands { CanStand publication.now (tables_in kept) }
        ensures tables { IfOk result (λ publisher. tables_of publisher ≡ tables_in kept) }
        ensures publication { IfOk result (λ publisher. publication_of publisher ≡ publication.now) }
    {
        let rules = rules_of(alloc, publication)?;
        let rows = kept.rows.as_slice();
        let mappings = kept.mappings.as_slice();
        let indexes = indexes_of(alloc, publication, rows, mappings, steps)?;
        let tables = tables_of(alloc, rules, kept)?;
        Ok(Publisher::joined(alloc, indexes, tables))
    }

    // The publisher with these tables and what finds their rows.
    fn joined(alloc: Global, indexes: Indexes, tables: Tables) -> Publisher
        requires { IsSound (held_with indexes tables) }
        ensures { result ≡ held_with indexes tables }
    {
        let Indexes {
            membership,
            changed,
            moved,
        } = indexes;
        let Tables {
            keyed,
            gens,
            conflicts,
            grants,
            changes,
            conflict_count,
            latest,
        } = tables;
        let KeyedTables {
            rows,
            mappings,
            sites,
            held,
        } = keyed;
        Publisher {
            alloc,
            membership,
            changed,
            moved,
            rows,
            mappings,
            sites,
            held,
            gens,
            conflicts,
            grants,
            changes,
            conflict_count,
            latest,
        }
    }
}
