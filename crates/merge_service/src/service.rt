//! A day at a publisher's store, and what is written of it.
ghost use Rattle.std.specs.Prelude.{◌≡◌, ◌≤◌, ◌⊎◌, Ok, OnOk, Some, ℕ};
ghost use Rattle.std.specs.declared.option.Option.{Option};
ghost use Rattle.merge_keeper.specs.PublisherStart.{publisher_loaded};
ghost use Rattle.merge_model.specs.Publisher.{new_holders};
ghost use Rattle.merge_ports.specs.Entries.{Map};
ghost use Rattle.merge_ports.specs.Opened.{SameElsewhere};
ghost use Rattle.merge_resolve.specs.Asked.{says_at};
ghost use Rattle.merge_schema.specs.Valid.{IsValid};
ghost use Rattle.merge_schema.specs.declared.publication.Publication.{Publication as OnePublication};
ghost use Rattle.merge_site.specs.Loading.{IsRead};
ghost use Rattle.merge_site.specs.Publishers.{publisher_stored};
ghost use Rattle.merge_service.specs.Ends.{Ends};

use crate::opening::open_day;
use crate::start::start;
use crate::stop::Stop;
use crate::writing::write_summary;
use merge_link::Clock;
use merge_outside::CommandOutside;
use merge_ports::{Outside, Sink};
use merge_resolve::Handed;
use merge_schema::Publication;
use merge_serve::{Door, Doors};
use merge_site::{DraftingSite, KeptPublisher};
use merge_types::{SiteId, Words};
use std::alloc::Global;
use std::sync::Wait;
use std::thread::Threads;

/// By how many workers a publisher serves, and how many requests.
#[derive(Clone, Copy, Debug, PartialEq, Eq)]
pub struct Hours {
    pub workers: u16,
    pub requests: u64,
}

// The same of a publisher that has started.
fn serve_kept<R: Threads + Wait + Sync, O: Sink, E: Outside, T: Doors, C: Clock + Send>(
    rt: &R,
    alloc: Global,
    outside: &mut E,
    doors: &mut T,
    kept: KeptPublisher<E::Keep>,
    site: SiteId,
    store: &Words,
    address: &Words,
    hours: Hours,
    clock: C,
    resolvers: Vec<Handed>,
    output: &mut O,
) -> Result<(), Stop>
where
    E::Keep: Send,
    T::Opened: Send,
    <T::Opened as Door>::Input: Send,
    <T::Opened as Door>::Output: Send,
    requires room { E.HasRoom outside.old site store.now }
    requires workers { (1 ≤ hours.workers) × (hours.workers ≤ 16) }
    ensures asked { T.asked doors.new ≡ Some address.now }
    ensures ends { (publication : OnePublication) (stored : Option Map) (stores : ℕ) → kept.publication ≡ publication → IsRead (publisher_loaded publication (new_holders publication)) stored (Ok (publisher_stored kept.tables))
        → Ends publication (says_at (λ r. says r) resolvers.items) hours.workers hours.requests (record {
          stored = stored;
          kept = E.told outside.new site store.now;
          handed = T.handed doors.new;
          stores = stores;
          stores_after = (E.counts outside.new).stores;
          doors = T.count doors.old;
          doors_after = T.count doors.new;
        }) (O.written output.old) (O.written output.new) (O.count output.old) (O.count output.new) result }
    ensures others { SameElsewhere site store.now (E.told outside.old) (E.told outside.new) }
{
    let publisher = DraftingSite::new(kept, resolvers);
    let opened = open_day(
        rt,
        alloc,
        doors,
        publisher,
        address,
        hours.workers,
        hours.requests,
        clock,
    );
    let (publisher, ended) = opened;
    outside.keeper_back(site, store, publisher.into_keeper());
    match ended {
        Ok(journal) => write_summary(alloc, &journal, output),
        Err(stop) => Err(stop),
    }
}

/// The publisher starts at its store and serves over a door, with its resolvers, until so many
/// connections were accepted or the door failed. The door and the keeper are given back. Where all were
/// accepted the summary of the journal is written, and else nothing. No door is opened but at the
/// address. It may wait.
pub fn serve_store<R: Threads + Wait + Sync, O: Sink, E: CommandOutside, T: Doors>(
    rt: &R,
    alloc: Global,
    outside: &mut E,
    doors: &mut T,
    publication: &Publication,
    site: SiteId,
    store: &Words,
    address: &Words,
    hours: Hours,
    resolvers: Vec<Handed>,
    output: &mut O,
) -> Result<(), Stop>
where
    E::Keep: Send,
    E::Timer: Send,
    T::Opened: Send,
    <T::Opened as Door>::Input: Send,
    <T::Opened as Door>::Output: Send,
    requires valid { (resolvers : ℕ) × IsValid resolvers publication.now }
    requires workers { (1 ≤ hours.workers) × (hours.workers ≤ 16) }
    ensures asked { (T.asked doors.new ≡ Some address.now) ⊎ (doors.new ≡ doors.old) }
    ensures reached { OnOk result (T.asked doors.new ≡ Some address.now) }
    ensures ends { Ends publication.now (says_at (λ r. says r) resolvers.items) hours.workers hours.requests (record {
      stored = E.told outside.old site store.now;
      kept = E.told outside.new site store.now;
      handed = T.handed doors.new;
      stores = (E.counts outside.old).stores;
      stores_after = (E.counts outside.new).stores;
      doors = T.count doors.old;
      doors_after = T.count doors.new;
    }) (O.written output.old) (O.written output.new) (O.count output.old) (O.count output.new) result }
    ensures others { SameElsewhere site store.now (E.told outside.old) (E.told outside.new) }
{
    let clock = outside.clock();
    match start(alloc, outside, site, store, publication) {
        Ok(kept) => serve_kept(
            rt, alloc, outside, doors, kept, site, store, address, hours, clock, resolvers, output,
        ),
        Err(stop) => Err(stop),
    }
}
