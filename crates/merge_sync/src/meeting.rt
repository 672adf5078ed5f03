//! A session of a subscriber that starts at its store.
ghost use Rattle.std.specs.Prelude.{◌≡◌, ℕ};
ghost use Rattle.merge_ports.specs.Opened.{SameElsewhere};
ghost use Rattle.merge_schema.specs.Valid.{IsValid};
ghost use Rattle.merge_wire.specs.Written.{IsVisible};
ghost use Rattle.merge_sync.specs.Ends.{Meets};
ghost use Rattle.merge_sync.specs.Stops.{met_by};

use crate::start::start;
use crate::stop::{Stop, undone};
use merge_agent::{Done, SessionFault, session};
use merge_outside::CommandOutside;
use merge_ports::Outside;
use merge_schema::Publication;
use merge_types::{SiteId, Words};
use std::alloc::Global;

// What came of a session.
fn ending_of(met: Result<Done, SessionFault>) -> Result<Done, Stop>
    ensures { result ≡ met_by met }
{
    match met {
        Ok(done) => Ok(done),
        Err(fault) => Err(undone(fault)),
    }
}

/// A subscriber starts at its store, and has a session over a link to an address, at the moments of a
/// clock. The keeper and the link are given back. Nothing is sent where the subscriber does not start.
pub(crate) fn meet<E: CommandOutside>(
    alloc: Global,
    outside: &mut E,
    publication: &Publication,
    site: SiteId,
    store: &Words,
    address: &Words,
) -> Result<Done, Stop>
    requires valid { (resolvers : ℕ) × IsValid resolvers publication.now }
    requires visible { IsVisible address.now }
    ensures meets { Meets address.now publication.now site (record {
      stored = E.told outside.old site store.now;
      responses = (E.offers outside.old).responses;
      moments = (E.offers outside.old).moments;
      was_carried = (E.offers outside.old).exchanges;
      was_peer = (E.offers outside.old).peer;
      stores = (E.counts outside.old).stores;
      links = (E.counts outside.old).links;
      kept = E.told outside.new site store.now;
      carried = (E.offers outside.new).exchanges;
      peer = (E.offers outside.new).peer;
      stores_after = (E.counts outside.new).stores;
      links_after = (E.counts outside.new).links;
    }) result }
    ensures others { SameElsewhere site store.now (E.told outside.old) (E.told outside.new) }
{
    let own = publication.copy()?;
    // The outside says nothing of what its stores leave of its offers, so the clock and the link are
    // opened before the keeper, and the link is given back behind it.
    let mut clock = outside.clock();
    let mut link = outside.link(address)?;
    let mut subscriber = match start(alloc, outside, store, own, site) {
        Ok(subscriber) => subscriber,
        Err(stop) => {
            outside.link_back(link);
            return Err(stop);
        }
    };
    let met = session(alloc, &mut subscriber, &mut link, address, &mut clock);
    outside.keeper_back(site, store, subscriber.into_keeper());
    outside.link_back(link);
    ending_of(met)
}
