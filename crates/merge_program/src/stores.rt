//! The sites of a publication, each at its store of an outside.
ghost use Rattle.std.specs.Prelude.{◌≡◌, ◌+◌, ◌++◌, ◌∷◌, ◌<◌, [], IfErr, IfOk, List, OnOk, map, sum_by, vec_capacity, vec_len, ℕ};
ghost use Rattle.merge_types.specs.declared.identifiers.SiteId.{SiteId as Site};
ghost use Rattle.merge_ports.specs.Opened.{SameElsewhere};
ghost use Rattle.merge_schema.specs.Places.{is_subscription};
ghost use Rattle.merge_schema.specs.Valid.{IsValid};
ghost use Rattle.merge_model.specs.Tables.Publications.{by_site};
ghost use Rattle.merge_model.specs.World.Events.{is_site};
ghost use Rattle.merge_site.specs.Beginning.{IsEmptyStore};
ghost use Rattle.merge_world.specs.Views.{faults_of, site_of};
ghost use Rattle.merge_program.specs.Elsewhere.{SameAtOthers};
ghost use Rattle.merge_program.specs.GivenBack.{AreToldBack, AscendAbove};
ghost use Rattle.merge_command.specs.Alone.{fresh_publisher};
ghost use Rattle.merge_program.specs.Stores.{AreEmptyStores, AreRooms, IsUnstarted, IsUnstartedAt, RoseBy, fresh_subscriber, fresh_subscribers, untold_publisher, untold_subscriber};

use crate::ending::{Ending, stopped, unopened};
use merge_ports::Outside;
use merge_schema::{Publication, Subscription};
use merge_site::{KeptPublisher, KeptSubscriber, NotStarted};
use merge_table::Table;
use merge_types::{NoMemory, SiteId, Words};
use std::alloc::Global;

/// The publisher.
pub const PUBLISHER: SiteId = SiteId(0);

/// The path of stores for which the program names none.
pub fn no_path(alloc: Global) -> Words
    ensures { result ≡ [] }
{
    Words::new(String::new(alloc))
}

// The subscriptions by their sites.
fn by_site(alloc: Global, publication: &Publication) -> Result<Table<u16, Subscription>, NoMemory>
    ensures { IfOk result (λ table. table.rows ≡ by_site publication.now) }
{
    let mut subscriptions = Table::new(alloc);
    for subscription in publication.subscriptions.as_slice() {
        subscriptions.insert(subscription.site.0, subscription.clone()?)?;
    }
    Ok(subscriptions)
}

// Starts the publisher. Where it does not start, its keeper is given back.
fn start_publisher<E: Outside>(
    alloc: Global,
    outside: &mut E,
    path: &Words,
    publication: &Publication,
) -> Result<KeptPublisher<E::Keep>, Ending>
    requires { (resolvers : ℕ) × IsValid resolvers publication.now }
    ensures fresh { IfOk result (λ publisher. untold_publisher publisher ≡ fresh_publisher publication.now) }
    ensures room { OnOk result (E.HasRoom outside.new (record { 0 = 0 }) path.now) }
    ensures still { (s : Site) (p : List ℕ) → E.HasRoom outside.old s p → E.HasRoom outside.new s p }
    ensures kept { OnOk result ((E.counts outside.new).stores ≡ (E.counts outside.old).stores) }
    ensures ends { IfErr result (λ ending. IsUnstartedAt ending (E.told outside.old (record { 0 = 0 }) path.now) (E.counts outside.old).stores (E.counts outside.new).stores) }
    ensures empty { OnOk result (IsEmptyStore (E.told outside.old (record { 0 = 0 }) path.now)) }
    ensures others { SameElsewhere (record { 0 = 0 }) path.now (E.told outside.old) (E.told outside.new) }
{
    let keeper = match outside.keeper(PUBLISHER, path) {
        Ok(keeper) => keeper,
        Err(fault) => return Err(unopened(fault)),
    };
    match KeptPublisher::new(alloc, keeper, publication) {
        Ok(publisher) => Ok(publisher),
        Err(NotStarted { keeper, why }) => {
            outside.keeper_back(PUBLISHER, path, keeper);
            Err(stopped(why))
        }
    }
}

// Starts a subscriber. Where it does not start, its keeper is given back.
fn start_subscriber<E: Outside>(
    alloc: Global,
    outside: &mut E,
    path: &Words,
    publication: &Publication,
    site: SiteId,
) -> Result<KeptSubscriber<E::Keep>, Ending>
    requires { (resolvers : ℕ) × IsValid resolvers publication.now }
    ensures fresh { IfOk result (λ subscriber. untold_subscriber subscriber ≡ fresh_subscriber publication.now site) }
    ensures room { OnOk result (E.HasRoom outside.new site path.now) }
    ensures still { (s : Site) (p : List ℕ) → E.HasRoom outside.old s p → E.HasRoom outside.new s p }
    ensures kept { OnOk result ((E.counts outside.new).stores ≡ (E.counts outside.old).stores) }
    ensures ends { IfErr result (λ ending. IsUnstartedAt ending (E.told outside.old site path.now) (E.counts outside.old).stores (E.counts outside.new).stores) }
    ensures empty { OnOk result (IsEmptyStore (E.told outside.old site path.now)) }
    ensures others { SameElsewhere site path.now (E.told outside.old) (E.told outside.new) }
{
    let publication = publication.copy()?;
    let keeper = match outside.keeper(site, path) {
        Ok(keeper) => keeper,
        Err(fault) => return Err(unopened(fault)),
    };
    match KeptSubscriber::new(alloc, keeper, publication, site) {
        Ok(subscriber) => Ok(subscriber),
        Err(NotStarted { keeper, why }) => {
            outside.keeper_back(site, path, keeper);
            Err(stopped(why))
        }
    }
}

/// Makes room for one more.
pub fn make_room<T: Drop>(list: &mut Vec<T>) -> Result<(), NoMemory>
    ensures items { list.new.items ≡ list.old.items }
    ensures room { OnOk result (vec_len list.new < vec_capacity list.new) }
{
    list.reserve(1)?;
    Ok(())
}

/// Puts one more, for which there is room.
pub fn put<T: Drop>(list: &mut Vec<T>, item: T)
    requires { vec_len list.old < vec_capacity list.old }
    ensures { list.new.items ≡ list.old.items ++ item ∷ [] }
{
    if let Err(_) = list.push(item) {}
}

// Starts the subscribers by their sites, up to one that does not start.
fn start_subscribers<E: Outside>(
    alloc: Global,
    outside: &mut E,
    path: &Words,
    publication: &Publication,
    subscribers: &mut Vec<KeptSubscriber<E::Keep>>,
) -> Result<(), Ending>
    requires valid { (resolvers : ℕ) × IsValid resolvers publication.now }
    requires none { subscribers.old.items ≡ [] }
    ensures fresh { OnOk result (map untold_subscriber subscribers.new.items ≡ fresh_subscribers publication.now) }
    ensures rooms { AreRooms (E.HasRoom outside.new) path.now (map site_of subscribers.new.items) }
    ensures still { (s : Site) (p : List ℕ) → E.HasRoom outside.old s p → E.HasRoom outside.new s p }
    ensures kept { OnOk result ((E.counts outside.new).stores ≡ (E.counts outside.old).stores) }
    ensures ends { IfErr result (λ ending. IsUnstarted (λ s. is_subscription publication.now s.0) (λ s. E.told outside.old s path.now) ending (E.counts outside.old).stores (E.counts outside.new).stores) }
    ensures empty { OnOk result (AreEmptyStores (λ s. is_subscription publication.now s.0) (λ s. E.told outside.old s path.now)) }
    ensures others { SameAtOthers path.now (E.told outside.old) (E.told outside.new) }
{
    let subscriptions = by_site(alloc, publication)?;
    for (_, subscription) in subscriptions.iter() {
        make_room(subscribers)?;
        let site = subscription.site;
        let subscriber = start_subscriber(alloc, outside, path, publication, site)?;
        put(subscribers, subscriber);
    }
    Ok(())
}

/// Gives the keepers of sites back. Their stores are told as they tell them.
pub fn give_back<E: Outside>(
    outside: &mut E,
    path: &Words,
    publisher: KeptPublisher<E::Keep>,
    subscribers: Vec<KeptSubscriber<E::Keep>>,
)
    requires room { E.HasRoom outside.old (record { 0 = 0 }) path.now }
    requires rooms { AreRooms (E.HasRoom outside.old) path.now (map site_of subscribers.items) }
    ensures rose { RoseBy (publisher.faults + sum_by faults_of subscribers.items) (E.counts outside.old).stores (E.counts outside.new).stores }
    ensures told { AscendAbove 0 (map site_of subscribers.items) → AreToldBack (E.told outside.new) path.now publisher subscribers.items }
    ensures others { SameAtOthers path.now (E.told outside.old) (E.told outside.new) }
{
    outside.keeper_back(PUBLISHER, path, publisher.into_keeper());
    for subscriber in subscribers {
        let site = subscriber.site();
        outside.keeper_back(site, path, subscriber.into_keeper());
    }
}

/// Starts the sites of a publication that have done nothing yet, the publisher first and then the
/// subscribers by their sites. Where one does not start, all keepers are given back.
pub fn start<E: Outside>(
    alloc: Global,
    outside: &mut E,
    path: &Words,
    publication: &Publication,
) -> Result<(KeptPublisher<E::Keep>, Vec<KeptSubscriber<E::Keep>>), Ending>
    requires { (resolvers : ℕ) × IsValid resolvers publication.now }
    ensures publisher { IfOk result (λ sites. untold_publisher sites.0 ≡ fresh_publisher publication.now) }
    ensures subscribers { IfOk result (λ sites. map untold_subscriber sites.1.items ≡ fresh_subscribers publication.now) }
    ensures room { OnOk result (E.HasRoom outside.new (record { 0 = 0 }) path.now) }
    ensures rooms { IfOk result (λ sites. AreRooms (E.HasRoom outside.new) path.now (map site_of sites.1.items)) }
    ensures kept { OnOk result ((E.counts outside.new).stores ≡ (E.counts outside.old).stores) }
    ensures ends { IfErr result (λ ending. IsUnstarted (is_site publication.now) (λ s. E.told outside.old s path.now) ending (E.counts outside.old).stores (E.counts outside.new).stores) }
    ensures empty { OnOk result (AreEmptyStores (is_site publication.now) (λ s. E.told outside.old s path.now)) }
    ensures others { SameAtOthers path.now (E.told outside.old) (E.told outside.new) }
{
    let publisher = start_publisher(alloc, outside, path, publication)?;
    let mut subscribers = Vec::new(alloc);
    match start_subscribers(alloc, outside, path, publication, &mut subscribers) {
        Ok(()) => Ok((publisher, subscribers)),
        Err(ending) => {
            give_back(outside, path, publisher, subscribers);
            Err(ending)
        }
    }
}
