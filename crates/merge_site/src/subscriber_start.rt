//! A subscriber starts with the tables of its store.
ghost use Rattle.std.specs.Prelude.{◌≡◌, ◌<◌, ◌≤◌, ◌^◌, ◌⊎◌, ℕ, IfErr, IfOk, Ok, OnOk, false, true};
ghost use Rattle.merge_batch.specs.declared.refusal.Refusal.TheVariants.{NoMemory as no_memory, UnknownSite as unknown_site};
ghost use Rattle.merge_keeper.specs.SubscriberStart.{subscriber_loaded};
ghost use Rattle.merge_model.specs.Publisher.{new_holders};
ghost use Rattle.merge_schema.specs.Places.{is_subscription};
ghost use Rattle.merge_schema.specs.Valid.{IsValid};
ghost use Rattle.merge_sub.specs.Restoring.{CanStand, tables_in};
ghost use Rattle.merge_site.specs.Kept.{IsKept};
ghost use Rattle.merge_site.specs.Loading.{IsRead, LoadsNot};
ghost use Rattle.merge_site.specs.Subscribers.{IsKeptSubscriber, records_of, stored_tables, subscriber_stored};

use crate::beginning::NotStarted;
use crate::restarting::load_subscriber;
use crate::subscriber::KeptSubscriber;
use merge_batch::Refusal;
use merge_keeper::SubscriberStored;
use merge_ports::Keeper;
use merge_schema::Publication;
use merge_sub::{Kept, State, Subscriber};
use merge_types::{NoMemory, SiteId};
use std::alloc::Global;

// That a site's number takes two bytes. It is a fact for proofs.
fn number_fits(site: SiteId)
    ensures { site.0 < 2 ^ 16 }
{
    let _ = site.0;
}

// Refuses a site that is no subscription.
fn check_subscription(publication: &Publication, site: SiteId) -> Result<(), Refusal>
    ensures ok { OnOk result (is_subscription publication.now site.0 ≡ true) }
    ensures err { IfErr result (λ why. (why ≡ unknown_site site) × (is_subscription publication.now site.0 ≡ false)) }
{
    if publication.is_subscription(site) {
        Ok(())
    } else {
        Err(Refusal::UnknownSite { site })
    }
}

// What is kept of a subscriber whose tables are stored so.
fn kept_of(tables: SubscriberStored) -> Kept
    ensures { tables_in result ≡ stored_tables tables }
{
    let state = State {
        changes: tables.changes,
        conflict_count: tables.conflict_count,
        latest: tables.latest,
        seq: tables.seq,
        outstanding: tables.outstanding,
        received: tables.received,
        watermark: tables.watermark,
        is_joined: tables.is_joined,
    };
    Kept {
        site: tables.site,
        state,
        filling: tables.filling,
        closings: tables.closings,
        rows: tables.rows,
        conflicts: tables.conflicts,
        held: tables.held,
    }
}

impl<K: Keeper> KeptSubscriber<K> {
    /// The site of the tables that its store has. A store with no entry is that of a site that has
    /// committed nothing, and has not joined. A site that is no subscription is refused before the
    /// store is asked for anything, and takes no memory. Else refused are a store that cannot be
    /// read, one that is damaged, with the key of its first entry that has no reading or breaks a
    /// rule, and want of memory. The time grows with the subscriptions, with the entries, and with
    /// the logarithm of the number of rows.
    pub fn start(
        alloc: Global,
        keeper: K,
        publication: Publication,
        site: SiteId,
    ) -> Result<KeptSubscriber<K>, NotStarted<K>>
        requires { (resolvers : ℕ) × IsValid resolvers publication }
        ensures subscribes { OnOk result (is_subscription publication site.0 ≡ true) }
        ensures tables { IfOk result (λ s. IsRead (subscriber_loaded publication site (new_holders publication)) (K.told keeper) (Ok (subscriber_stored s.tables))) }
        ensures kept { IfOk result (λ s. IsKept (records_of s.tables) (K.told keeper)) }
        ensures site { IfOk result (λ s. s.tables.site ≡ site) }
        ensures publication { IfOk result (λ s. s.publication ≡ publication) }
        ensures faults { IfOk result (λ s. s.faults ≡ K.count keeper) }

        // It is exactly a site that is no subscription that is refused as unknown.
        ensures err { IfErr result (λ n. (n.why ≡ unknown_site site) × (is_subscription publication site.0 ≡ false) × (n.keeper ≡ keeper)
            ⊎ (is_subscription publication site.0 ≡ true) × LoadsNot (subscriber_loaded publication site (new_holders publication)) (K.told keeper) n.why (K.count keeper) (K.count n.keeper)) }
        ensures back { IfErr result (λ n. (K.told n.keeper ≡ K.told keeper) × (K.count keeper ≤ K.count n.keeper)) }
    {
        match check_subscription(&publication, site) {
            Ok(()) => Self::load(alloc, keeper, publication, site),
            Err(why) => Err(NotStarted { keeper, why }),
        }
    }

    // The same, with no look at the subscriptions.
    fn load(
        alloc: Global,
        keeper: K,
        publication: Publication,
        site: SiteId,
    ) -> Result<KeptSubscriber<K>, NotStarted<K>>
        requires { (resolvers : ℕ) × IsValid resolvers publication }
        ensures tables { IfOk result (λ s. IsRead (subscriber_loaded publication site (new_holders publication)) (K.told keeper) (Ok (subscriber_stored s.tables))) }
        ensures kept { IfOk result (λ s. IsKept (records_of s.tables) (K.told keeper)) }
        ensures site { IfOk result (λ s. s.tables.site ≡ site) }
        ensures publication { IfOk result (λ s. s.publication ≡ publication) }
        ensures faults { IfOk result (λ s. s.faults ≡ K.count keeper) }
        ensures err { IfErr result (λ n. LoadsNot (subscriber_loaded publication site (new_holders publication)) (K.told keeper) n.why (K.count keeper) (K.count n.keeper)) }
        ensures back { IfErr result (λ n. (K.told n.keeper ≡ K.told keeper) × (K.count keeper ≤ K.count n.keeper)) }
    {
        let mut keeper = keeper;
        match load_subscriber(alloc, &mut keeper, &publication, site) {
            Ok(tables) => {
                number_fits(site);
                Self::resume(alloc, keeper, publication, tables)
            }
            Err(why) => Err(NotStarted { keeper, why }),
        }
    }

    // The same, with the tables that its store has.
    fn resume(
        alloc: Global,
        keeper: K,
        publication: Publication,
        tables: SubscriberStored,
    ) -> Result<KeptSubscriber<K>, NotStarted<K>>
        requires valid { (resolvers : ℕ) × IsValid resolvers publication }
        requires stands { CanStand publication (stored_tables tables) }
        requires kept { IsKeptSubscriber (stored_tables tables) (K.told keeper) }
        ensures tables { IfOk result (λ s. s.tables ≡ stored_tables tables) }
        ensures publication { IfOk result (λ s. s.publication ≡ publication) }
        ensures faults { IfOk result (λ s. s.faults ≡ K.count keeper) }
        ensures err { IfErr result (λ n. (n.why ≡ no_memory) × (n.keeper ≡ keeper)) }
    {
        match Subscriber::restore(alloc, publication, kept_of(tables)) {
            Ok(subscriber) => Ok(KeptSubscriber {
                alloc,
                keeper,
                subscriber,
            }),
            Err(NoMemory) => Err(NotStarted {
                keeper,
                why: Refusal::NoMemory,
            }),
        }
    }
}
