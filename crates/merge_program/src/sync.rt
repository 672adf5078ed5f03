//! A subscriber meets its publisher.
ghost use Rattle.std.specs.Prelude.{◌≡◌, IfErr, IfOk, List, OnOk, Option, ℕ, false, true};
ghost use Rattle.merge_ports.specs.Opened.{SameElsewhere};
ghost use Rattle.merge_schema.specs.Places.{is_subscription};
ghost use Rattle.merge_schema.specs.Valid.{IsValid};
ghost use Rattle.merge_wire.specs.Written.{IsVisible};
ghost use Rattle.merge_program.specs.Files.{HasSubscription, IsUnsubscribed};
ghost use Rattle.merge_program.specs.Stopping.{synced_by};
ghost use Rattle.merge_program.specs.Syncing.{SyncEnds};
ghost use Rattle.merge_program.specs.declared.ending.Ending.TheVariants as ending;

use crate::command::Place;
use crate::ending::Ending;
use crate::files::{publication_in, read_file};
use merge_outside::CommandOutside;
use merge_ports::{Outside, Sink};
use merge_schema::Publication;
use merge_sync::{Stop, sync as hold};
use merge_types::{SiteId, Words};
use std::alloc::Global;

// How a run ends by how its session went.
fn ending_of(synced: Result<(), Stop>) -> Ending
    ensures { result ≡ synced_by synced }
{
    match synced {
        Ok(()) => Ending::Done,
        Err(Stop::UnknownSite) => Ending::UnknownSite,
        Err(Stop::StoreFault) => Ending::StoreFault,
        Err(Stop::Damaged { table, key }) => Ending::Damaged { table, key },
        Err(Stop::LinkFault) => Ending::LinkFault,
        Err(Stop::Expired { last_sync, now }) => Ending::Expired { last_sync, now },
        Err(Stop::BadReply { place }) => Ending::BadReply { place },
        Err(Stop::Refused { number }) => Ending::Declined { number },
        Err(Stop::WriteFault) => Ending::WriteFault,
        Err(Stop::NoMemory) => Ending::NoMemory,
    }
}

// Refuses a site that is no subscription.
fn check_subscription(publication: &Publication, site: SiteId) -> Result<(), Ending>
    ensures ok { OnOk result (is_subscription publication.now site.0 ≡ true) }
    ensures err { IfErr result (λ why. (why ≡ ending.UnknownSite) × (is_subscription publication.now site.0 ≡ false)) }
{
    if publication.is_subscription(site) {
        Ok(())
    } else {
        Err(Ending::UnknownSite)
    }
}

// Reads the publication's file, and looks for the subscription.
fn read_subscribed<E: CommandOutside>(
    alloc: Global,
    place: &Place,
    resolvers: usize,
    outside: &mut E,
) -> Result<Publication, Ending>
    ensures subscribed { IfOk result (λ publication. HasSubscription ((E.offers outside.old).texts place.now.publication) resolvers place.now.site publication) }
    ensures valid { IfOk result (λ publication. IsValid resolvers publication) }
    ensures ends { IfErr result (λ ending. IsUnsubscribed ending ((E.offers outside.old).texts place.now.publication) resolvers place.now.site (E.counts outside.old).texts (E.counts outside.new).texts) }
    ensures offers { E.offers outside.new ≡ E.offers outside.old }
    ensures told { E.told outside.new ≡ E.told outside.old }
    ensures stores { (E.counts outside.new).stores ≡ (E.counts outside.old).stores }
    ensures links { (E.counts outside.new).links ≡ (E.counts outside.old).links }
{
    let text = read_file(alloc, outside, &place.publication)?;
    let publication = publication_in(alloc, text.as_slice(), resolvers)?;
    check_subscription(&publication, place.site)?;
    Ok(publication)
}

/// The subscriber of a place meets the publisher at an address. The publication's file is read whole
/// first; then the site starts at its store, and has its session, each step at the moment of the clock.
/// Where it is done its line is written. Its keeper and its link are given back.
pub fn sync<O: Sink, E: CommandOutside>(
    alloc: Global,
    place: &Place,
    address: &Words,
    resolvers: usize,
    output: &mut O,
    outside: &mut E,
) -> Ending
    requires { IsVisible address.now }
    ensures ends { (input : Option (List ℕ)) (reads failed : ℕ) → SyncEnds result place.now address.now resolvers (record {
      input = input;
      offers = E.offers outside.old;
      behind = E.offers outside.new;
      stored = E.told outside.old;
      kept = E.told outside.new;
      was = O.written output.old;
      written = O.written output.new;
      old = E.counts outside.old;
      new = E.counts outside.new;
      writes = O.count output.old;
      refused = O.count output.new;
      reads = reads;
      failed = failed;
    }) }
    ensures others { SameElsewhere place.now.site place.now.store (E.told outside.old) (E.told outside.new) }
{
    match read_subscribed(alloc, place, resolvers, outside) {
        Ok(publication) => {
            let synced = hold(
                alloc,
                outside,
                &publication,
                place.site,
                &place.store,
                address,
                output,
            );
            ending_of(synced)
        }
        Err(ending) => ending,
    }
}
