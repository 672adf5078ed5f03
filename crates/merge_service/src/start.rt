//! The publisher starts at its store.
ghost use Rattle.std.specs.Prelude.{◌≡◌, IfErr, IfOk, Ok, OnErr, OnOk, ℕ};
ghost use Rattle.merge_keeper.specs.PublisherStart.{publisher_loaded};
ghost use Rattle.merge_model.specs.Publisher.{new_holders};
ghost use Rattle.merge_ports.specs.Opened.{SameElsewhere};
ghost use Rattle.merge_schema.specs.Valid.{IsValid};
ghost use Rattle.merge_site.specs.Loading.{IsRead};
ghost use Rattle.merge_site.specs.Publishers.{publisher_stored};
ghost use Rattle.merge_service.specs.Stores.{IsUnstarted};

use crate::stop::{Stop, unopened, unstarted};
use merge_ports::Outside;
use merge_schema::Publication;
use merge_site::{KeptPublisher, NotStarted};
use merge_types::{SiteId, Words};
use std::alloc::Global;

/// Starts the publisher with what its store has. Where it does not start, its keeper is given back.
pub(crate) fn start<E: Outside>(
    alloc: Global,
    outside: &mut E,
    site: SiteId,
    store: &Words,
    publication: &Publication,
) -> Result<KeptPublisher<E::Keep>, Stop>
    requires { (resolvers : ℕ) × IsValid resolvers publication.now }
    ensures tables { IfOk result (λ p. IsRead (publisher_loaded publication.now (new_holders publication.now)) (E.told outside.old site store.now) (Ok (publisher_stored p.tables))) }
    ensures publication { IfOk result (λ p. p.publication ≡ publication.now) }
    ensures room { OnOk result (E.HasRoom outside.new site store.now) }
    ensures stop { IfErr result (λ stop. IsUnstarted publication.now stop (E.told outside.old site store.now) (E.counts outside.old).stores (E.counts outside.new).stores) }
    ensures same { OnErr result (E.told outside.new site store.now ≡ E.told outside.old site store.now) }
    ensures others { SameElsewhere site store.now (E.told outside.old) (E.told outside.new) }
{
    let keeper = match outside.keeper(site, store) {
        Ok(keeper) => keeper,
        Err(fault) => return Err(unopened(fault)),
    };
    match KeptPublisher::start(alloc, keeper, publication) {
        Ok(publisher) => Ok(publisher),
        Err(NotStarted { keeper, why }) => {
            outside.keeper_back(site, store, keeper);
            Err(unstarted(why))
        }
    }
}
