//! A subscriber starts at its store.
ghost use Rattle.std.specs.Prelude.{◌≡◌, IfErr, IfOk, Ok, OnErr, OnOk, ℕ, true};
ghost use Rattle.merge_keeper.specs.SubscriberStart.{subscriber_loaded};
ghost use Rattle.merge_model.specs.Publisher.{new_holders};
ghost use Rattle.merge_ports.specs.Opened.{SameElsewhere};
ghost use Rattle.merge_schema.specs.Places.{is_subscription};
ghost use Rattle.merge_schema.specs.Valid.{IsValid};
ghost use Rattle.merge_site.specs.Loading.{IsRead};
ghost use Rattle.merge_site.specs.Subscribers.{subscriber_stored};
ghost use Rattle.merge_sync.specs.Stores.{IsUnstarted};

use crate::stop::{Stop, unopened, unstarted};
use merge_ports::Outside;
use merge_schema::Publication;
use merge_site::{KeptSubscriber, NotStarted};
use merge_types::{SiteId, Words};
use std::alloc::Global;

/// Starts a subscriber with what its store has. Where it does not start, its keeper is given back.
pub(crate) fn start<E: Outside>(
    alloc: Global,
    outside: &mut E,
    store: &Words,
    publication: Publication,
    site: SiteId,
) -> Result<KeptSubscriber<E::Keep>, Stop>
    requires { (resolvers : ℕ) × IsValid resolvers publication }
    ensures subscribes { OnOk result (is_subscription publication site.0 ≡ true) }
    ensures tables { IfOk result (λ s. IsRead (subscriber_loaded publication site (new_holders publication)) (E.told outside.old site store.now) (Ok (subscriber_stored s.tables))) }
    ensures site { IfOk result (λ s. s.tables.site ≡ site) }
    ensures publication { IfOk result (λ s. s.publication ≡ publication) }
    ensures faults { IfOk result (λ s. s.faults ≡ 0) }
    ensures room { OnOk result (E.HasRoom outside.new site store.now) }
    ensures stores { OnOk result ((E.counts outside.new).stores ≡ (E.counts outside.old).stores) }
    ensures links { (E.counts outside.new).links ≡ (E.counts outside.old).links }
    ensures stop { IfErr result (λ stop. IsUnstarted publication site stop (E.told outside.old site store.now) (E.counts outside.old).stores (E.counts outside.new).stores) }
    ensures same { OnErr result (E.told outside.new site store.now ≡ E.told outside.old site store.now) }
    ensures others { SameElsewhere site store.now (E.told outside.old) (E.told outside.new) }
{
    let keeper = match outside.keeper(site, store) {
        Ok(keeper) => keeper,
        Err(fault) => return Err(unopened(fault)),
    };
    match KeptSubscriber::start(alloc, keeper, publication, site) {
        Ok(subscriber) => Ok(subscriber),
        Err(NotStarted { keeper, why }) => {
            outside.keeper_back(site, store, keeper);
            Err(unstarted(why))
        }
    }
}
