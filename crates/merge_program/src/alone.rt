//! One site at its store, while all others are elsewhere.
ghost use Rattle.std.specs.Prelude.{◌≡◌, ◌∷◌, [], IfErr, IfOk, Ok, OnOk, ℕ, true};
ghost use Rattle.merge_keeper.specs.PublisherStart.{publisher_loaded};
ghost use Rattle.merge_keeper.specs.SubscriberStart.{subscriber_loaded};
ghost use Rattle.merge_model.specs.Publisher.{new_holders};
ghost use Rattle.merge_ports.specs.Opened.{SameElsewhere};
ghost use Rattle.merge_schema.specs.Places.{is_subscription};
ghost use Rattle.merge_schema.specs.Valid.{IsValid};
ghost use Rattle.merge_site.specs.Kept.{IsKept};
ghost use Rattle.merge_site.specs.Loading.{IsRead};
ghost use Rattle.merge_site.specs.Publishers.{publisher_stored, records_of};
ghost use Rattle.merge_site.specs.Subscribers.{subscriber_stored};
ghost use Rattle.merge_program.specs.Opening.{IsUnopened};
ghost use Rattle.merge_program.specs.Sited.{PublisherRead, SubscriberKept, SubscriberRead};
ghost use Rattle.merge_program.specs.Stores.{RoseBy};

use crate::ending::{Ending, stopped, unopened};
use crate::stores::{make_room, put};
use merge_command::Elsewhere;
use merge_ports::Outside;
use merge_schema::Publication;
use merge_site::{KeptPublisher, KeptSubscriber, NotStarted};
use merge_types::{Moment, SiteId, Words};
use merge_world::{Seen, Sites};
use std::alloc::Global;

/// The publisher, and no subscriber.
pub type PublisherAlone<K> = Sites<KeptPublisher<K>, KeptSubscriber<K>>;

/// A subscriber, and a publisher that is elsewhere.
pub type SubscriberAlone<K> = Sites<Elsewhere, KeptSubscriber<K>>;

// Starts the publisher with what its store has. Where it does not start, its keeper is given back.
fn start_publisher<E: Outside>(
    alloc: Global,
    outside: &mut E,
    path: &Words,
    publication: &Publication,
    site: SiteId,
) -> Result<KeptPublisher<E::Keep>, Ending>
    requires { (resolvers : ℕ) × IsValid resolvers publication.now }
    ensures tables { IfOk result (λ p. IsRead (publisher_loaded publication.now (new_holders publication.now)) (E.told outside.old site path.now) (Ok (publisher_stored p.tables))) }
    ensures publication { IfOk result (λ p. p.publication ≡ publication.now) }
    ensures faults { IfOk result (λ p. p.faults ≡ 0) }
    ensures room { OnOk result (E.HasRoom outside.new site path.now) }
    ensures kept { OnOk result ((E.counts outside.new).stores ≡ (E.counts outside.old).stores) }
    ensures ends { IfErr result (λ ending. IsUnopened (publisher_loaded publication.now (new_holders publication.now)) ending (E.told outside.old site path.now) (E.told outside.new site path.now)
        (E.counts outside.old).stores (E.counts outside.new).stores) }
    ensures others { SameElsewhere site path.now (E.told outside.old) (E.told outside.new) }
{
    let keeper = match outside.keeper(site, path) {
        Ok(keeper) => keeper,
        Err(fault) => return Err(unopened(fault)),
    };
    match KeptPublisher::start(alloc, keeper, publication) {
        Ok(publisher) => Ok(publisher),
        Err(NotStarted { keeper, why }) => {
            outside.keeper_back(site, path, keeper);
            Err(stopped(why))
        }
    }
}

// Starts a subscriber with what its store has. Where it does not start, its keeper is given back.
fn start_subscriber<E: Outside>(
    alloc: Global,
    outside: &mut E,
    path: &Words,
    publication: Publication,
    site: SiteId,
) -> Result<KeptSubscriber<E::Keep>, Ending>
    requires valid { (resolvers : ℕ) × IsValid resolvers publication }
    requires subscribes { is_subscription publication site.0 ≡ true }
    ensures tables { IfOk result (λ s. IsRead (subscriber_loaded publication site (new_holders publication)) (E.told outside.old site path.now) (Ok (subscriber_stored s.tables))) }
    ensures site { IfOk result (λ s. s.tables.site ≡ site) }
    ensures publication { IfOk result (λ s. s.publication ≡ publication) }
    ensures faults { IfOk result (λ s. s.faults ≡ 0) }
    ensures room { OnOk result (E.HasRoom outside.new site path.now) }
    ensures kept { OnOk result ((E.counts outside.new).stores ≡ (E.counts outside.old).stores) }
    ensures ends { IfErr result (λ ending. IsUnopened (subscriber_loaded publication site (new_holders publication)) ending (E.told outside.old site path.now) (E.told outside.new site path.now)
        (E.counts outside.old).stores (E.counts outside.new).stores) }
    ensures others { SameElsewhere site path.now (E.told outside.old) (E.told outside.new) }
{
    let keeper = match outside.keeper(site, path) {
        Ok(keeper) => keeper,
        Err(fault) => return Err(unopened(fault)),
    };
    match KeptSubscriber::start(alloc, keeper, publication, site) {
        Ok(subscriber) => Ok(subscriber),
        Err(NotStarted { keeper, why }) => {
            outside.keeper_back(site, path, keeper);
            Err(stopped(why))
        }
    }
}

/// Starts the publisher with what its store has. Where it does not start, its keeper is given back.
pub fn open_publisher<E: Outside>(
    alloc: Global,
    outside: &mut E,
    path: &Words,
    publication: &Publication,
    site: SiteId,
) -> Result<PublisherAlone<E::Keep>, Ending>
    requires { (resolvers : ℕ) × IsValid resolvers publication.now }
    ensures read { IfOk result (λ sites. PublisherRead publication.now (E.told outside.old site path.now) (⟦<Sites<KeptPublisher<E::Keep>, KeptSubscriber<E::Keep>> as Seen>⟧.seen sites)) }
    ensures room { OnOk result (E.HasRoom outside.new site path.now) }
    ensures kept { OnOk result ((E.counts outside.new).stores ≡ (E.counts outside.old).stores) }
    ensures ends { IfErr result (λ ending. IsUnopened (publisher_loaded publication.now (new_holders publication.now)) ending (E.told outside.old site path.now) (E.told outside.new site path.now)
        (E.counts outside.old).stores (E.counts outside.new).stores) }
    ensures others { SameElsewhere site path.now (E.told outside.old) (E.told outside.new) }
{
    let publisher = start_publisher(alloc, outside, path, publication, site)?;
    let subscribers = Vec::new(alloc);
    let pool = Vec::new(alloc);
    Ok(Sites {
        publisher,
        subscribers,
        pool,
        moment: Moment(0),
    })
}

/// Starts a subscriber with what its store has. Where it does not start, its keeper is given back.
pub fn open_subscriber<E: Outside>(
    alloc: Global,
    outside: &mut E,
    path: &Words,
    publication: &Publication,
    site: SiteId,
) -> Result<SubscriberAlone<E::Keep>, Ending>
    requires valid { (resolvers : ℕ) × IsValid resolvers publication.now }
    requires subscribes { is_subscription publication.now site.0 ≡ true }
    ensures read { IfOk result (λ sites. SubscriberRead publication.now site (E.told outside.old site path.now) (⟦<Sites<Elsewhere, KeptSubscriber<E::Keep>> as Seen>⟧.seen sites)) }
    ensures room { OnOk result (E.HasRoom outside.new site path.now) }
    ensures kept { OnOk result ((E.counts outside.new).stores ≡ (E.counts outside.old).stores) }
    ensures ends { IfErr result (λ ending. IsUnopened (subscriber_loaded publication.now site (new_holders publication.now)) ending (E.told outside.old site path.now) (E.told outside.new site path.now)
        (E.counts outside.old).stores (E.counts outside.new).stores) }
    ensures others { SameElsewhere site path.now (E.told outside.old) (E.told outside.new) }
{
    let elsewhere = Elsewhere::new(alloc, publication.copy()?);
    let own = publication.copy()?;
    let mut subscribers = Vec::new(alloc);
    make_room(&mut subscribers)?;
    let subscriber = start_subscriber(alloc, outside, path, own, site)?;
    put(&mut subscribers, subscriber);
    let pool = Vec::new(alloc);
    Ok(Sites {
        publisher: elsewhere,
        subscribers,
        pool,
        moment: Moment(0),
    })
}

/// Gives the publisher's keeper back.
pub fn close_publisher<E: Outside>(
    outside: &mut E,
    path: &Words,
    site: SiteId,
    sites: PublisherAlone<E::Keep>,
)
    requires room { E.HasRoom outside.old site path.now }
    requires alone { (⟦<Sites<KeptPublisher<E::Keep>, KeptSubscriber<E::Keep>> as Seen>⟧.seen sites).sites ≡ [] }
    ensures kept { IsKept (records_of (⟦<Sites<KeptPublisher<E::Keep>, KeptSubscriber<E::Keep>> as Seen>⟧.seen sites).publisher) (E.told outside.new site path.now) }
    ensures few { RoseBy (⟦<Sites<KeptPublisher<E::Keep>, KeptSubscriber<E::Keep>> as Seen>⟧.seen sites).faults (E.counts outside.old).stores (E.counts outside.new).stores }
    ensures others { SameElsewhere site path.now (E.told outside.old) (E.told outside.new) }
{
    let Sites { publisher, .. } = sites;
    outside.keeper_back(site, path, publisher.into_keeper());
}

/// Gives the subscriber's keeper back.
pub fn close_subscriber<E: Outside>(
    outside: &mut E,
    path: &Words,
    site: SiteId,
    sites: SubscriberAlone<E::Keep>,
)
    requires room { E.HasRoom outside.old site path.now }
    requires alone { (⟦<Sites<Elsewhere, KeptSubscriber<E::Keep>> as Seen>⟧.seen sites).sites ≡ site.0 ∷ [] }
    ensures kept { SubscriberKept site (⟦<Sites<Elsewhere, KeptSubscriber<E::Keep>> as Seen>⟧.seen sites) (E.told outside.new site path.now) }
    ensures few { RoseBy (⟦<Sites<Elsewhere, KeptSubscriber<E::Keep>> as Seen>⟧.seen sites).faults (E.counts outside.old).stores (E.counts outside.new).stores }
    ensures others { SameElsewhere site path.now (E.told outside.old) (E.told outside.new) }
{
    let Sites {
        mut subscribers,
        ..
    } = sites;
    if let Some(subscriber) = subscribers.pop() {
        outside.keeper_back(site, path, subscriber.into_keeper());
    }
}
