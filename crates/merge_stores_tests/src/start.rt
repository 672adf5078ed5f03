//! Stores that break one rule each.
use crate::same::{same, same_in};
use merge_ident::Ranges;
use merge_keeper::{StartFault, start_publisher, start_subscriber};
use merge_ports::{Entries, EntryKey};
use merge_schema::{Article, Identity, Publication, Subscription, SubscriptionKind};
use merge_types::{Column, ColumnType, HostName, Listing, Octets, SiteId, Tracking, Words};
use std::alloc::{AllocError, Global};
use std::process::Abort;
use std::test::Fail;

// One column, an Int that is its identity column.
fn article(alloc: Global) -> Result<Article, Fail> {
    let mut columns = Listing::empty(alloc);
    columns.push(Column {
        name: Words::of(alloc, "qty")?,
        ty: ColumnType::Int,
    })?;
    Ok(Article {
        name: Words::of(alloc, "item")?,
        columns,
        tracking: Tracking::ByColumn,
        filter: None,
        joins: Listing::empty(alloc),
        identity: Some(Identity {
            column: 0,
            seed: 1,
            range: 10,
            pub_range: 10,
            threshold: 80,
            greatest: 100,
        }),
        resolver: 0,
        resolver_column: None,
    })
}

fn subscription(alloc: Global) -> Result<Subscription, Fail> {
    Ok(Subscription {
        site: SiteId(1),
        host: HostName(Words::of(alloc, "h1")?),
        kind: SubscriptionKind::Server,
        priority: 0,
    })
}

// The article, to which site 1 subscribes.
fn publication(alloc: Global) -> Result<Publication, Fail> {
    let mut publication = Publication {
        name: Words::of(alloc, "first")?,
        retention_days: 14,
        conflict_retention_days: 14,
        articles: Listing::empty(alloc),
        subscriptions: Listing::empty(alloc),
    };
    publication.articles.push(article(alloc)?)?;
    publication.subscriptions.push(subscription(alloc)?)?;
    Ok(publication)
}

// The state of the publisher: 1 change, generation 1 closed, nothing in the open one, 1 conflict.
const STATE: [u8; 43] = [
    1, 0, 0, 0, 0, 0, 0, 0, 0, 0, 1, 0, 0, 0, 0, 0, 0, 0, 1, 0, 0, 0, 0, 0, 0, 0, 0, 0, 0, 0, 0, 0,
    0, 0, 1, 0, 0, 0, 0, 0, 0, 0, 0,
];

const ROW_KEY: [u8; 17] = [0, 0, 0, 0, 0, 0, 0, 0x80, 0, 0x80, 0, 0, 0, 0, 0, 0, 1];

// The row that its change makes, with the value 7.
const ROW: [u8; 41] = [
    1, 0, 0, 0, 0, 0, 0, 0, 0, 0, 1, // the lineage
    1, 1, 0, 0, 0, 0, 0, 0, 0, 0, 0, 1, 1, 1, 0, 0, 0, 0, 0, 0, 0, 7, // one cell with one Int
    0, 0, 0, 0, 0, 0, 0, 1, // the generation of its last change
];

// The row moved into the partition of site 1.
const MOVE_KEY: [u8; 19] = [
    0, 0, 0, 0, 0, 0, 0, 0x80, 0, 0x80, 0, 0, 0, 0, 0, 0, 1, 0, 1,
];

const MOVE: [u8; 9] = [1, 0, 0, 0, 0, 0, 0, 0, 1];

const ONE: [u8; 8] = [0, 0, 0, 0, 0, 0, 0, 1];

// A version of a row that was deleted.
const CONFLICT: [u8; 51] = [
    0, 0, 0, 0, 0, 0, 0, 0x80, 0, 0x80, 0, 0, 0, 0, 0, 0, 1, 1, 0, 0, 1, 0, 0, 0, 0, 0, 0, 0, 0, 1,
    0, 0, 0, 0, 0, 0, 0, 0, 0, 1, 2, 0, 0, 0, 0, 0, 0, 0, 0, 0, 1,
];

// The publisher holds its one range, from 1 to 10, of which no value is used.
const HELD: [u8; 41] = [
    0, 0, 0, 0, 0, 0, 0, 1, 0, 0, 0, 0, 0, 0, 0, 10, 1, 0, 0, 0, 0, 0, 0, 0, 1, 0, 0, 0, 0, 0, 0,
    0, 10, 0, 0, 0, 0, 0, 0, 0, 1,
];

const GRANT_KEY: [u8; 11] = [0, 0, 0, 0, 0, 0, 0, 0, 0, 0, 1];

const GRANT: [u8; 16] = [0, 0, 0, 0, 0, 0, 0, 1, 0, 0, 0, 0, 0, 0, 0, 10];

// The state of subscriber 1 with one change, in generation 1, which is closed and not received.
const SITE_STATE: [u8; 93] = [
    2, 0, 1, 0, 0, 0, 0, 0, 0, 0, 1, 0, 0, 0, 0, 0, 0, 0, 1, 0, 0, 0, 0, 0, 0, 0, 0, 0, 0, 0, 0, 0,
    0, 0, 0, 0, 0, 0, 0, 0, 0, 0, 0, 0, 0, 0, 0, 0, 0, 0, 0, 0, 0, 0, 0, 0, 0, 0, 0, 0, 0, 0, 0, 0,
    0, 0, 0, 0, 0, 0, 0, 0, 0, 0, 0, 0, 0, 0, 0, 0, 0, 0, 0, 0, 0, 0, 0, 0, 0, 0, 0, 0, 2,
];

// One byte of a store that is another one: the table of its entry, how long the key is, whether the
// byte is in the key, its place, and what it becomes.
#[derive(Clone, Copy, Debug)]
struct Change(u8, usize, bool, usize, u8);

const NO_CHANGE: Change = Change(0, 0, false, 0, 0);

fn changed(alloc: Global, bytes: &[u8], at: usize, byte: u8) -> Result<Octets, AllocError> {
    let mut bytes = bytes.to_vec(alloc)?;
    if let Some(place) = bytes.get_mut(at) {
        *place = byte;
    }
    Ok(Listing::new(bytes))
}

// An entry of a store: its table, its key and its value.
type Part = (u8, &'static [u8], &'static [u8]);

fn put(alloc: Global, entries: &mut Entries, change: Change, part: &Part) -> Result<(), Fail> {
    let (table, key, value) = *part;
    let is_here = change.0 == table && change.1 == key.len();
    let place = if is_here && change.2 {
        changed(alloc, key, change.3, change.4)?
    } else {
        Listing::new(key.to_vec(alloc)?)
    };
    let content = if is_here && !change.2 {
        changed(alloc, value, change.3, change.4)?
    } else {
        Listing::new(value.to_vec(alloc)?)
    };
    entries.insert(EntryKey { table, key: place }, content)?;
    Ok(())
}

const PUBLISHER: &[Part] = &[
    (1, &[], &STATE),
    (2, &ROW_KEY, &ROW),
    (3, &MOVE_KEY, &MOVE),
    (4, &ONE, &[0; 8]),
    (5, &ONE, &CONFLICT),
    (6, &[0], &HELD),
    (6, &GRANT_KEY, &GRANT),
    (7, &[0, 1], &[0; 48]),
];

const SUBSCRIBER: &[Part] = &[(1, &[], &SITE_STATE), (4, &ONE, &ONE), (6, &[0], &HELD)];

fn store(alloc: Global, parts: &[Part], change: Change) -> Result<Entries, Fail> {
    let mut entries = Entries::empty(alloc);
    for part in parts {
        put(alloc, &mut entries, change, part)?;
    }
    Ok(entries)
}

fn held(alloc: Global) -> Result<Listing<(u8, Ranges)>, Fail> {
    let mut held = Listing::empty(alloc);
    held.push((0, Ranges::new(80)))?;
    Ok(held)
}

// What a start says of its store: the table and the length of the key of the entry that is named,
// where one is.
#[derive(Clone, Copy, Debug, PartialEq, Eq)]
enum Said {
    Loads,
    Damaged(u8, usize),
    Fails,
}

fn told<T: Drop>(start: &Result<T, StartFault>) -> Said {
    match start {
        Ok(_) => Said::Loads,
        Err(StartFault::Damaged(key)) => Said::Damaged(key.table, key.key.len()),
        Err(_) => Said::Fails,
    }
}

// What a start of a site says of a store. Site 0 is the publisher.
fn site_said(alloc: Global, site: SiteId, store: &Entries) -> Result<Said, Fail> {
    let publication = publication(alloc)?;
    let held = held(alloc)?;
    match site.0 {
        0 => Ok(told(&start_publisher(alloc, &publication, held, store))),
        _ => Ok(told(&start_subscriber(alloc, &publication, site, held, store))),
    }
}

// What a start of the publisher says of its store with this change.
fn publisher_said(alloc: Global, change: Change) -> Result<Said, Fail> {
    let store = store(alloc, PUBLISHER, change)?;
    site_said(alloc, SiteId(0), &store)
}

// What a start of subscriber 1 says of its store with this change.
fn subscriber_said(alloc: Global, change: Change) -> Result<Said, Fail> {
    let store = store(alloc, SUBSCRIBER, change)?;
    site_said(alloc, SiteId(1), &store)
}

#[test]
fn stores_that_break_no_rule_load(rt: HostRuntime) -> Result<(), Fail> {
    same(&rt, &publisher_said(rt.alloc(), NO_CHANGE)?, &Said::Loads);
    same(&rt, &subscriber_said(rt.alloc(), NO_CHANGE)?, &Said::Loads);
    Ok(())
}

const PUBLISHER_CASES: &[(&str, Change, Said)] = &[
    (
        "a third kind of move",
        Change(3, 19, false, 0, 3),
        Said::Damaged(3, 19),
    ),
    (
        "another site",
        Change(1, 0, false, 2, 1),
        Said::Damaged(1, 0),
    ),
    (
        "2^62 changes",
        Change(1, 0, false, 3, 0x40),
        Said::Damaged(1, 0),
    ),
    (
        "an article that is not there",
        Change(2, 17, true, 0, 1),
        Said::Damaged(2, 17),
    ),
    (
        "a top that is not known",
        Change(2, 17, false, 22, 2),
        Said::Damaged(2, 17),
    ),
    (
        "a change that was not made",
        Change(2, 17, false, 10, 2),
        Said::Damaged(2, 17),
    ),
    (
        "a generation behind the open one",
        Change(2, 17, false, 40, 3),
        Said::Damaged(2, 17),
    ),
    (
        "a generation that is not closed",
        Change(4, 8, true, 7, 2),
        Said::Damaged(4, 8),
    ),
    (
        "an entry in the open one, which has none",
        Change(2, 17, false, 40, 2),
        Said::Damaged(2, 17),
    ),
    (
        "the first number is not 1",
        Change(5, 8, true, 7, 2),
        Said::Damaged(5, 8),
    ),
    (
        "the numbers end below the counter",
        Change(1, 0, false, 34, 2),
        Said::Damaged(1, 0),
    ),
    (
        "the first number is not 1",
        Change(6, 11, true, 10, 2),
        Said::Damaged(6, 11),
    ),
    (
        "the next value is in no range",
        Change(6, 1, false, 40, 11),
        Said::Damaged(6, 1),
    ),
    (
        "more ranges than were granted",
        Change(6, 1, false, 7, 2),
        Said::Damaged(6, 1),
    ),
    (
        "a watermark of a generation not closed",
        Change(7, 2, false, 39, 2),
        Said::Damaged(7, 2),
    ),
];

#[test]
fn each_rule_names_its_entry_at_the_publisher(rt: HostRuntime) -> Result<(), Fail> {
    for (shows, change, expected) in PUBLISHER_CASES {
        same_in(&rt, &publisher_said(rt.alloc(), *change)?, expected, &shows);
    }
    Ok(())
}

const SUBSCRIBER_CASES: &[(&str, Change, Said)] = &[
    (
        "another site",
        Change(1, 0, false, 2, 2),
        Said::Damaged(1, 0),
    ),
    (
        "generation 2 is not there",
        Change(1, 0, false, 18, 2),
        Said::Damaged(1, 0),
    ),
    (
        "a change that was not made",
        Change(4, 8, false, 7, 2),
        Said::Damaged(4, 8),
    ),
    (
        "a generation not closed was received",
        Change(1, 0, false, 82, 2),
        Said::Damaged(1, 0),
    ),
    (
        "a message of no kind",
        Change(1, 0, false, 58, 1),
        Said::Damaged(1, 0),
    ),
];

#[test]
fn each_rule_names_its_entry_at_a_subscriber(rt: HostRuntime) -> Result<(), Fail> {
    for (shows, change, expected) in SUBSCRIBER_CASES {
        same_in(
            &rt,
            &subscriber_said(rt.alloc(), *change)?,
            expected,
            &shows,
        );
    }
    Ok(())
}

fn parts_of(site: SiteId) -> &'static [Part] {
    match site.0 {
        0 => PUBLISHER,
        _ => SUBSCRIBER,
    }
}

// A site's store in which the part at this place has another value, or is left out where there is none.
fn damaged(
    alloc: Global,
    site: SiteId,
    place: usize,
    value: Option<&'static [u8]>,
) -> Result<Entries, Fail> {
    let mut entries = Entries::empty(alloc);
    for (at, part) in parts_of(site).iter().enumerate() {
        if at != place {
            put(alloc, &mut entries, NO_CHANGE, part)?;
        } else if let Some(value) = value {
            put(alloc, &mut entries, NO_CHANGE, &(part.0, part.1, value))?;
        }
    }
    Ok(entries)
}

// What is named where the value of a part is cut: its key. Without a grant that can be read the
// publisher has received a range more than it was granted, which the record in front of it says.
fn cut_said(part: &Part) -> Said {
    let (table, key, _) = *part;
    if key.len() == GRANT_KEY.len() {
        Said::Damaged(6, 1)
    } else {
        Said::Damaged(table, key.len())
    }
}

// Cuts the value of a site's part at each length.
fn cut(
    rt: &impl Abort,
    alloc: Global,
    site: SiteId,
    place: usize,
    part: &Part,
) -> Result<(), Fail> {
    let value = part.2;
    for length in 0..value.len() {
        let store = damaged(alloc, site, place, Some(&value[..length]))?;
        same_in(
            rt,
            &site_said(alloc, site, &store)?,
            &cut_said(part),
            &length,
        );
    }
    Ok(())
}

#[test]
fn a_record_that_is_cut_names_its_entry_at_the_publisher(rt: HostRuntime) -> Result<(), Fail> {
    for (place, part) in PUBLISHER.iter().enumerate() {
        cut(&rt, rt.alloc(), SiteId(0), place, part)?;
    }
    Ok(())
}

#[test]
fn a_record_that_is_cut_names_its_entry_at_a_subscriber(rt: HostRuntime) -> Result<(), Fail> {
    for (place, part) in SUBSCRIBER.iter().enumerate() {
        cut(&rt, rt.alloc(), SiteId(1), place, part)?;
    }
    Ok(())
}

// What is said of the publisher's store without the part at each place.
const PUBLISHER_WITHOUT: [Said; 8] = [
    Said::Damaged(2, 17), // the state: the first entry is no state
    Said::Loads,
    Said::Loads,
    Said::Loads,
    Said::Damaged(1, 0), // the conflict: the numbers end below the counter
    Said::Damaged(6, 11), // the ranges that are held: its own grant is held by no record
    Said::Damaged(6, 1), // the grant: more ranges than were granted
    Said::Loads,
];

// And of the subscriber's: the state, the closed generation, which was not received, and the ranges.
const SUBSCRIBER_WITHOUT: [Said; 3] = [Said::Damaged(4, 8), Said::Damaged(1, 0), Said::Loads];

#[test]
fn a_record_that_is_not_there_is_missed_at_the_publisher(rt: HostRuntime) -> Result<(), Fail> {
    for (place, expected) in PUBLISHER_WITHOUT.iter().enumerate() {
        let store = damaged(rt.alloc(), SiteId(0), place, None)?;
        same_in(
            &rt,
            &site_said(rt.alloc(), SiteId(0), &store)?,
            expected,
            &place,
        );
    }
    Ok(())
}

#[test]
fn a_record_that_is_not_there_is_missed_at_a_subscriber(rt: HostRuntime) -> Result<(), Fail> {
    for (place, expected) in SUBSCRIBER_WITHOUT.iter().enumerate() {
        let store = damaged(rt.alloc(), SiteId(1), place, None)?;
        same_in(
            &rt,
            &site_said(rt.alloc(), SiteId(1), &store)?,
            expected,
            &place,
        );
    }
    Ok(())
}
