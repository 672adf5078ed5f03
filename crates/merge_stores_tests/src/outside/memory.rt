//! The outside in memory.
use super::{numbers, octets, put};
use crate::same::{same, same_in};
use merge_keeper::{MemoryKeeper, Stop};
use merge_link::{Clock, Link, LinkFault};
use merge_outside::{CommandOutside, MemoryCommands, MemoryText, read_response};
use merge_ports::{Counts, Entries, KeepFault, Keeper, MemoryOutside, OpenFault, Outside, Source};
use merge_table::Table;
use merge_types::{Listing, Moment, SiteId, Words};
use std::alloc::Global;
use std::test::Fail;

type Tried = MemoryCommands<MemoryKeeper>;

// An outside with an empty store of site 1. The calls of its keeper and the openings with these
// numbers fail, and a commit stops behind its edits.
fn outside(
    alloc: Global,
    failing_calls: &[u64],
    stops: &[u64],
    failing_openings: &[u64],
) -> Result<Tried, Fail> {
    let mut listed = Listing::empty(alloc);
    for call in stops {
        listed.push(Stop {
            call: *call,
            is_after: true,
        })?;
    }
    let failing = numbers(alloc, failing_calls)?;
    let keeper = MemoryKeeper::new(alloc, Entries::empty(alloc), failing, listed);
    let mut stores = Table::new(alloc);
    stores.insert(1, keeper)?;
    let openings = numbers(alloc, failing_openings)?;
    Ok(MemoryCommands::new(alloc, MemoryOutside::new(stores, openings)))
}

// Opens a store and gives it back.
fn opening(
    alloc: Global,
    outside: &mut Tried,
    site: u16,
    path: &str,
) -> Result<Option<OpenFault>, Fail> {
    let path = Words::of(alloc, path)?;
    match outside.keeper(SiteId(site), &path) {
        Ok(keeper) => {
            outside.keeper_back(SiteId(site), &path, keeper);
            Ok(None)
        }
        Err(fault) => Ok(Some(fault)),
    }
}

// A site, a path, how the opening of its store fails, and the faults of stores so far. The third
// opening is listed.
const OPENINGS: &[(u16, &str, Option<OpenFault>, u64)] = &[
    (1, "", None, 0),
    (1, "", None, 0),
    (1, "", Some(OpenFault::Failed), 1),
    (2, "", Some(OpenFault::Failed), 2),
    (1, "store", Some(OpenFault::Failed), 3),
    (1, "", None, 3),
];

#[test]
fn openings_of_stores(rt: HostRuntime) -> Result<(), Fail> {
    let mut outside = outside(rt.alloc(), &[], &[], &[2])?;
    for (site, path, fault, faults) in OPENINGS {
        let found = opening(rt.alloc(), &mut outside, *site, path)?;
        assert_eq!(rt; found, *fault, "{site} {path}");
        assert_eq!(rt; outside.faults().stores, *faults, "{site} {path}");
    }
    Ok(())
}

// How many entries a keeper loads behind a commit that puts one, and why one of both calls failed.
fn step<K: Keeper>(
    alloc: Global,
    keeper: &mut K,
    key: u8,
) -> Result<Result<usize, KeepFault>, Fail> {
    let edits = put(alloc, key, 7)?;
    let committed = keeper.commit(&edits);
    let loaded = keeper.load();
    match (committed, loaded) {
        (Ok(()), Ok(entries)) => Ok(Ok(entries.len())),
        (Err(fault), _) => Ok(Err(fault)),
        (_, Err(fault)) => Ok(Err(fault)),
    }
}

// The steps of a keeper, each a commit and a load, whose commit of the second and load of the third
// are listed, and that stops at the commit of the fifth.
const STEPS: &[(u8, Result<usize, KeepFault>, u64)] = &[
    (1, Ok(1), 0),
    (2, Err(KeepFault::Failed), 1),
    (3, Err(KeepFault::Failed), 2),
    (4, Ok(3), 2),
    (5, Err(KeepFault::Failed), 4),
    (6, Err(KeepFault::Failed), 6),
];

#[test]
fn faults_of_a_keeper_are_counted_as_it_is_given_back(rt: HostRuntime) -> Result<(), Fail> {
    let mut outside = outside(rt.alloc(), &[2, 5], &[8], &[])?;
    let path = Words::of(rt.alloc(), "")?;
    let mut keeper = outside.keeper(SiteId(1), &path)?;
    for (key, answer, faults) in STEPS {
        same_in(&rt, &step(rt.alloc(), &mut keeper, *key)?, answer, &key);
        same_in(&rt, &keeper.faults(), faults, &key);
    }
    same(&rt, &outside.faults().stores, &0);
    outside.keeper_back(SiteId(1), &path, keeper);
    same(&rt, &outside.faults().stores, &6);
    // a keeper with faults is not handed out again, and has what its stop left
    let fault = opening(rt.alloc(), &mut outside, 1, "")?;
    same(&rt, &fault, &Some(OpenFault::Failed));
    let Some(keeper) = outside.stores.stores.take(&1) else {
        return Err(Fail::from("the keeper was not given back"));
    };
    same(&rt, &keeper.left().len(), &4);
    Ok(())
}

// An outside with the text `abc` at the path `a`, whose second read fails.
fn with_text(alloc: Global) -> Result<Tried, Fail> {
    let mut outside = outside(alloc, &[], &[], &[])?;
    outside.texts.push(MemoryText {
        path: Words::of(alloc, "a")?,
        bytes: octets(alloc, b"abc")?,
        failing: numbers(alloc, &[1])?,
    })?;
    outside.failing_texts = numbers(alloc, &[1])?;
    Ok(outside)
}

// Opens a text, reads so many bytes of it at the most, and gives it back.
fn reading(
    alloc: Global,
    outside: &mut Tried,
    path: &str,
    limit: usize,
) -> Result<Option<OpenFault>, Fail> {
    let path = Words::of(alloc, path)?;
    match outside.text(&path) {
        Ok(mut text) => {
            let is_read = read_response(alloc, &mut text, limit).is_ok();
            let is_counted = text.faults() == 1;
            outside.text_back(text);
            if is_read == is_counted {
                return Err(Fail::from("a read fails just where it is counted"));
            }
            Ok(None)
        }
        Err(fault) => Ok(Some(fault)),
    }
}

// A path, how many bytes are read, how the opening fails, and the faults of texts so far. The second
// opening is listed. Reading behind the third byte is a second read, which fails.
const TEXTS: &[(&str, usize, Option<OpenFault>, u64)] = &[
    ("a", 3, None, 0),
    ("a", 3, Some(OpenFault::Failed), 1),
    ("b", 3, Some(OpenFault::Failed), 2),
    ("a", 4, None, 3),
    ("a", 3, None, 3),
];

#[test]
fn faults_of_texts(rt: HostRuntime) -> Result<(), Fail> {
    let mut outside = with_text(rt.alloc())?;
    for (path, limit, fault, faults) in TEXTS {
        let found = reading(rt.alloc(), &mut outside, path, *limit)?;
        assert_eq!(rt; found, *fault, "{path} {limit}");
        assert_eq!(rt; outside.faults().texts, *faults, "{path} {limit}");
    }
    Ok(())
}

// Asks over a link until a call fails, and gives it back.
fn asking(alloc: Global, outside: &mut Tried) -> Result<(), Fail> {
    let address = Words::of(alloc, "publisher:7000")?;
    let mut link = outside.link(&address)?;
    for _ in 0..10 {
        if link.ask(b"request") == Err(LinkFault::Failed) {
            break;
        }
    }
    outside.link_back(link);
    Ok(())
}

#[test]
fn the_first_link_gets_the_responses(rt: HostRuntime) -> Result<(), Fail> {
    let mut outside = outside(rt.alloc(), &[], &[], &[])?;
    for response in [b"one".as_slice(), b"two", b"three"] {
        outside.responses.push(octets(rt.alloc(), response)?)?;
    }
    outside.failing_asks = numbers(rt.alloc(), &[2])?;
    for (faults, exchanges) in [(1, 2), (2, 0)] {
        asking(rt.alloc(), &mut outside)?;
        same(&rt, &outside.faults().links, &faults);
        same_in(&rt, &outside.exchanges.len(), &exchanges, &faults);
    }
    Ok(())
}

#[test]
fn the_first_clock_gets_the_moments(rt: HostRuntime) -> Result<(), Fail> {
    let mut outside = outside(rt.alloc(), &[], &[], &[])?;
    outside.moments.push(Moment(5))?;
    outside.moments.push(Moment(6))?;
    for moments in [[5, 6, 6], [0, 0, 0]] {
        let mut clock = outside.clock();
        for moment in moments {
            same(&rt, &clock.now(), &Moment(moment));
        }
    }
    let none = Counts {
        texts: 0,
        stores: 0,
        links: 0,
    };
    same(&rt, &outside.faults(), &none);
    Ok(())
}
