//! A session, and what is written of it.
ghost use Rattle.std.specs.Prelude.{◌≡◌, ℕ};
ghost use Rattle.merge_ports.specs.Opened.{SameElsewhere};
ghost use Rattle.merge_schema.specs.Valid.{IsValid};
ghost use Rattle.merge_wire.specs.Written.{IsVisible};
ghost use Rattle.merge_sync.specs.Ends.{Ends};

use crate::meeting::meet;
use crate::stop::Stop;
use crate::writing::write_done;
use merge_outside::CommandOutside;
use merge_ports::{Outside, Sink};
use merge_schema::Publication;
use merge_types::{SiteId, Words};
use std::alloc::Global;

/// A subscriber starts at its store and has a session with the publisher at an address. Where it is
/// done its line is written, and else nothing.
pub fn sync<O: Sink, E: CommandOutside>(
    alloc: Global,
    outside: &mut E,
    publication: &Publication,
    site: SiteId,
    store: &Words,
    address: &Words,
    output: &mut O,
) -> Result<(), Stop>
    requires valid { (resolvers : ℕ) × IsValid resolvers publication.now }
    requires visible { IsVisible address.now }
    ensures ends { Ends address.now publication.now site (record {
      stored = E.told outside.old site store.now;
      responses = (E.offers outside.old).responses;
      moments = (E.offers outside.old).moments;
      was_carried = (E.offers outside.old).exchanges;
      was_peer = (E.offers outside.old).peer;
      stores = (E.counts outside.old).stores;
      links = (E.counts outside.old).links;
      kept = E.told outside.new site store.now;
      carried = (E.offers outside.new).exchanges;
      peer = (E.offers outside.new).peer;
      stores_after = (E.counts outside.new).stores;
      links_after = (E.counts outside.new).links;
    }) (O.written output.old) (O.written output.new) (O.count output.old) (O.count output.new) result }
    ensures others { SameElsewhere site store.now (E.told outside.old) (E.told outside.new) }
{
    let done = meet(alloc, outside, publication, site, store, address)?;
    write_done(alloc, publication, &done, output)?;
    Ok(())
}
