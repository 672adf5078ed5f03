//! Sites that begin at empty stores, of which a call may fail, and sites that start again.
use super::edits::{SITE, publication};
use crate::same::same;
use merge_batch::Refusal;
use merge_keeper::MemoryKeeper;
use merge_ports::{Entries, Keeper};
use merge_site::{KeptPublisher, KeptSubscriber, NotStarted};
use merge_types::{Listing, NoMemory, SiteId};
use std::alloc::Global;
use std::process::Abort;
use std::test::Fail;

/// A call of a site's keeper, by its number. Loads and commits count from 0.
#[derive(Clone, Copy, Debug)]
pub struct Call {
    pub site: SiteId,
    pub number: u64,
}

/// Two sites.
pub type Both = (KeptPublisher<MemoryKeeper>, KeptSubscriber<MemoryKeeper>);

// The keeper of a site with an empty store, of which the call fails where it is its own.
fn keeper(alloc: Global, failing: Option<Call>, site: SiteId) -> Result<MemoryKeeper, NoMemory> {
    let mut calls = Listing::empty(alloc);
    if let Some(call) = failing {
        if call.site.0 == site.0 {
            calls.push(call.number)?;
        }
    }
    let entries = Entries::empty(alloc);
    Ok(MemoryKeeper::new(alloc, entries, calls, Listing::empty(alloc)))
}

fn begun_publisher(
    alloc: Global,
    failing: Option<Call>,
) -> Result<KeptPublisher<MemoryKeeper>, Fail> {
    let publication = publication(alloc)?;
    let keeper = keeper(alloc, failing, SiteId(0))?;
    match KeptPublisher::new(alloc, keeper, &publication) {
        Ok(publisher) => Ok(publisher),
        Err(_) => Err(Fail::from("no publisher")),
    }
}

fn begun_subscriber(
    alloc: Global,
    failing: Option<Call>,
) -> Result<KeptSubscriber<MemoryKeeper>, Fail> {
    let publication = publication(alloc)?;
    let keeper = keeper(alloc, failing, SITE)?;
    match KeptSubscriber::new(alloc, keeper, publication, SITE) {
        Ok(subscriber) => Ok(subscriber),
        Err(_) => Err(Fail::from("no subscriber")),
    }
}

/// A keeper of these entries, of which no call fails.
pub fn keeper_of(alloc: Global, entries: Entries) -> MemoryKeeper {
    MemoryKeeper::new(alloc, entries, Listing::empty(alloc), Listing::empty(alloc))
}

fn started_publisher(alloc: Global, entries: Entries) -> Result<KeptPublisher<MemoryKeeper>, Fail> {
    let publication = publication(alloc)?;
    match KeptPublisher::start(alloc, keeper_of(alloc, entries), &publication) {
        Ok(publisher) => Ok(publisher),
        Err(_) => Err(Fail::from("no publisher")),
    }
}

fn started_subscriber(
    alloc: Global,
    entries: Entries,
) -> Result<KeptSubscriber<MemoryKeeper>, Fail> {
    let publication = publication(alloc)?;
    match KeptSubscriber::start(alloc, keeper_of(alloc, entries), publication, SITE) {
        Ok(subscriber) => Ok(subscriber),
        Err(_) => Err(Fail::from("no subscriber")),
    }
}

/// Two values, where the second one was made. It drops a value of a type that it does not know:
/// where the type of a site is known, the proof of its drop goes through all its tables.
pub fn beside<A: Drop, B>(first: A, made: Result<B, Fail>) -> Result<(A, B), Fail> {
    match made {
        Ok(second) => Ok((first, second)),
        Err(fail) => Err(fail),
    }
}

/// Two sites that hold nothing.
pub fn begun(alloc: Global, failing: Option<Call>) -> Result<Both, Fail> {
    beside(
        begun_publisher(alloc, failing)?,
        begun_subscriber(alloc, failing),
    )
}

/// Two sites that start with what their keepers hold.
pub fn started(alloc: Global, there: Entries, here: Entries) -> Result<Both, Fail> {
    beside(
        started_publisher(alloc, there)?,
        started_subscriber(alloc, here),
    )
}

// Sites that are no subscription: the publisher's, and the first behind the last one.
const UNKNOWN: &[SiteId] = &[SiteId(0), SiteId(3)];

// Why a site did not start, with its keeper. A site that did is of a type that it does not know.
fn unstarted<T: Drop>(
    started: Result<T, NotStarted<MemoryKeeper>>,
) -> Result<NotStarted<MemoryKeeper>, Fail> {
    match started {
        Ok(_) => Err(Fail::from("a site that is no subscription")),
        Err(unstarted) => Ok(unstarted),
    }
}

/// A site that is no subscription is refused, and its keeper, of which the first call would fail, is
/// not called.
pub fn refuse_unknown<R: Abort>(rt: &R, alloc: Global) -> Result<(), Fail> {
    for site in UNKNOWN {
        let first = Call {
            site: *site,
            number: 0,
        };
        let keeper = keeper(alloc, Some(first), *site)?;
        let publication = publication(alloc)?;
        let started = KeptSubscriber::start(alloc, keeper, publication, *site);
        let NotStarted { keeper, why } = unstarted(started)?;
        same(rt, &why, &Refusal::UnknownSite { site: *site });
        same(rt, &keeper.faults(), &0);
    }
    Ok(())
}
