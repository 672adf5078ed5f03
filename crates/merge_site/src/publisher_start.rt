//! A publisher starts with the tables of its store.
ghost use Rattle.std.specs.Prelude.{◌≡◌, ◌≤◌, ℕ, IfErr, IfOk, Ok};
ghost use Rattle.merge_batch.specs.declared.refusal.Refusal.TheVariants.{NoMemory as no_memory};
ghost use Rattle.merge_keeper.specs.PublisherStart.{publisher_loaded};
ghost use Rattle.merge_model.specs.Publisher.{new_holders};
ghost use Rattle.merge_pub.specs.Held.{publication_of, tables_of};
ghost use Rattle.merge_pub.specs.Restoring.{CanStand, tables_in};
ghost use Rattle.merge_schema.specs.Valid.{IsValid};
ghost use Rattle.merge_site.specs.Kept.{IsKept};
ghost use Rattle.merge_site.specs.Loading.{IsRead, LoadsNot};
ghost use Rattle.merge_site.specs.Publishers.{IsKeptPublisher, publisher_stored, records_of, stored_tables};

use crate::beginning::NotStarted;
use crate::publisher::KeptPublisher;
use crate::restarting::load_publisher;
use merge_batch::Refusal;
use merge_keeper::PublisherStored;
use merge_ports::Keeper;
use merge_pub::{Kept, Publisher};
use merge_schema::Publication;
use merge_types::{NoMemory, Steps};
use std::alloc::Global;
use std::marker::Brand;
use std::sync::ledger::{Blank, Ledger};

// What is kept of a publisher whose tables are stored so.
fn kept_of(tables: PublisherStored) -> Kept
    ensures { tables_in result ≡ stored_tables tables }
{
    Kept {
        changes: tables.changes,
        filling: tables.filling,
        closings: tables.closings,
        conflict_count: tables.conflict_count,
        latest: tables.latest,
        rows: tables.rows,
        mappings: tables.mappings,
        conflicts: tables.conflicts,
        grants: tables.grants,
        held: tables.held,
        sites: tables.sites,
    }
}

// The publisher with the tables of a store, with a counter in the ledger that the blank opens.
fn restored<L: Ledger>(
    alloc: Global,
    publication: &Publication,
    tables: PublisherStored,
    blank: Blank,
) -> Result<Publisher, NoMemory>
    requires name { blank.name ≡ L.name }
    requires parts { blank.parts ≡ L.parts }
    requires some { 1 ≤ blank.parts }
    requires valid { (resolvers : ℕ) × IsValid resolvers publication.now }
    requires stands { CanStand publication.now (stored_tables tables) }
    ensures tables { IfOk result (λ p. tables_of p ≡ stored_tables tables) }
    ensures publication { IfOk result (λ p. publication_of p ≡ publication.now) }
{
    let mut steps = Steps::<L>::new(blank);
    Publisher::restore(alloc, publication, kept_of(tables), &mut steps)
}

impl<K: Keeper> KeptPublisher<K> {
    /// The publisher of the tables that its store has. A store with no entry is that of a publisher
    /// of no rows. Refused are a store that cannot be read, one that is damaged, with the key of its
    /// first entry that has no reading or breaks a rule, and want of memory. The time grows with the
    /// entries and the logarithm of their number, with the rows that follow one another, and with
    /// the square of the grants.
    pub fn start(
        alloc: Global,
        keeper: K,
        publication: &Publication,
    ) -> Result<KeptPublisher<K>, NotStarted<K>>
        requires { (resolvers : ℕ) × IsValid resolvers publication.now }
        ensures tables { IfOk result (λ p. IsRead (publisher_loaded publication.now (new_holders publication.now)) (K.told keeper) (Ok (publisher_stored p.tables))) }
        ensures kept { IfOk result (λ p. IsKept (records_of p.tables) (K.told keeper)) }
        ensures publication { IfOk result (λ p. p.publication ≡ publication.now) }
        ensures faults { IfOk result (λ p. p.faults ≡ K.count keeper) }
        ensures err { IfErr result (λ n. LoadsNot (publisher_loaded publication.now (new_holders publication.now)) (K.told keeper) n.why (K.count keeper) (K.count n.keeper)) }
        ensures back { IfErr result (λ n. (K.told n.keeper ≡ K.told keeper) × (K.count keeper ≤ K.count n.keeper)) }
    {
        let mut keeper = keeper;
        match load_publisher(alloc, &mut keeper, publication) {
            Ok(tables) => Self::resume(alloc, keeper, publication, tables),
            Err(why) => Err(NotStarted { keeper, why }),
        }
    }

    // The same, with the tables that its store has.
    fn resume(
        alloc: Global,
        keeper: K,
        publication: &Publication,
        tables: PublisherStored,
    ) -> Result<KeptPublisher<K>, NotStarted<K>>
        requires valid { (resolvers : ℕ) × IsValid resolvers publication.now }
        requires stands { CanStand publication.now (stored_tables tables) }
        requires kept { IsKeptPublisher (stored_tables tables) (K.told keeper) }
        ensures tables { IfOk result (λ p. p.tables ≡ stored_tables tables) }
        ensures publication { IfOk result (λ p. p.publication ≡ publication.now) }
        ensures faults { IfOk result (λ p. p.faults ≡ K.count keeper) }
        ensures err { IfErr result (λ n. (n.why ≡ no_memory) × (n.keeper ≡ keeper)) }
    {
        match restored::<Brand>(alloc, publication, tables, Blank::new(1)) {
            Ok(publisher) => Ok(KeptPublisher {
                alloc,
                keeper,
                publisher,
            }),
            Err(NoMemory) => Err(NotStarted {
                keeper,
                why: Refusal::NoMemory,
            }),
        }
    }
}
