//! The program's outside, over files in the folder of the test. No peer is asked.
use super::put;
use crate::same::{same, same_in};
use merge_link::{Clock, Link, LinkFault};
use merge_outside::{CommandOutside, RealOutside, Waits, read_response};
use merge_ports::{Keeper, OpenFault, Outside};
use merge_types::{Moment, SiteId, Words};
use std::alloc::Global;
use std::fs;
use std::test::Fail;
use std::time::Duration;

// How many entries a keeper loads, and how many behind a commit that puts one.
fn step<K: Keeper>(alloc: Global, keeper: &mut K, key: u8) -> Result<(usize, usize), Fail> {
    let before = keeper.load()?.len();
    let edits = put(alloc, key, 7)?;
    keeper.commit(&edits)?;
    Ok((before, keeper.load()?.len()))
}

// Opens a store, makes one step and gives it back.
fn visit(
    alloc: Global,
    outside: &mut RealOutside,
    site: u16,
    path: &str,
    key: u8,
) -> Result<(usize, usize), Fail> {
    let path = Words::of(alloc, path)?;
    let mut keeper = outside.keeper(SiteId(site), &path)?;
    let entries = step(alloc, &mut keeper, key)?;
    outside.keeper_back(SiteId(site), &path, keeper);
    Ok(entries)
}

// A site, a path, a key that is put, and the numbers of entries before and behind it.
const VISITS: &[(u16, &str, u8, (usize, usize))] = &[
    (1, "", 1, (0, 1)),
    (1, "kept.db", 1, (0, 1)),
    (2, "", 5, (0, 1)),
    (1, "", 2, (1, 2)),
    (1, "", 2, (2, 2)),
    (1, "kept.db", 2, (1, 2)),
    // a file is found again whatever its site
    (2, "kept.db", 3, (2, 3)),
];

#[test]
fn stores_are_found_again(rt: HostRuntime) -> Result<(), Fail> {
    for name in ["kept.db", "kept.db-wal"] {
        let _ = fs::remove_file(&rt, name);
    }
    let mut outside = RealOutside::new(rt);
    for (site, path, key, entries) in VISITS {
        let found = visit(rt.alloc(), &mut outside, *site, path, *key)?;
        assert_eq!(rt; found, *entries, "{site} {path} {key}");
    }
    same(&rt, &outside.faults().stores, &0);
    Ok(())
}

fn opening(
    alloc: Global,
    outside: &mut RealOutside,
    path: &str,
) -> Result<Option<OpenFault>, Fail> {
    let path = Words::of(alloc, path)?;
    Ok(outside.keeper(SiteId(1), &path).err())
}

#[test]
fn stores_that_are_no_files_are_faults(rt: HostRuntime) -> Result<(), Fail> {
    fs::write(
        &rt,
        "no-store.db",
        "no database at all, but a text of some length",
    )?;
    let mut outside = RealOutside::new(rt);
    for (path, faults) in [("no-such-folder/store.db", 1), ("no-store.db", 2), (".", 3)] {
        let fault = opening(rt.alloc(), &mut outside, path)?;
        same_in(&rt, &fault, &Some(OpenFault::Failed), &path);
        same_in(&rt, &outside.faults().stores, &faults, &path);
    }
    Ok(())
}

#[test]
fn a_text_is_read_and_one_that_is_not_there_is_a_fault(rt: HostRuntime) -> Result<(), Fail> {
    fs::write(&rt, "read.txt", "abc")?;
    let mut outside = RealOutside::new(rt);
    let mut text = outside.text(&Words::of(rt.alloc(), "read.txt")?)?;
    let bytes = read_response(rt.alloc(), &mut text, 10)?;
    outside.text_back(text);
    same(&rt, &bytes.as_slice(), &b"abc".as_slice());
    same(&rt, &outside.faults().texts, &0);
    let fault = outside.text(&Words::of(rt.alloc(), "no-such.txt")?).err();
    same(&rt, &fault, &Some(OpenFault::Failed));
    same(&rt, &outside.faults().texts, &1);
    Ok(())
}

#[test]
fn a_link_to_what_is_no_address_fails(rt: HostRuntime) -> Result<(), Fail> {
    let mut outside = RealOutside::new(rt);
    let mut link = outside.link(&Words::of(rt.alloc(), "nowhere")?)?;
    for faults in [1, 2] {
        same(&rt, &link.ask(b"request").err(), &Some(LinkFault::Failed));
        same(&rt, &link.faults(), &faults);
    }
    outside.link_back(link);
    same(&rt, &outside.faults().links, &2);
    Ok(())
}

#[test]
fn the_clock_is_of_this_century(rt: HostRuntime) -> Result<(), Fail> {
    let mut clock = RealOutside::new(rt).clock();
    // the first second of 2020
    assert!(rt; clock.now() >= Moment(1_577_836_800));
    Ok(())
}

#[test]
fn a_link_waits_half_a_minute_and_then_five(rt: HostRuntime) {
    let waits = Waits::usual();
    same(&rt, &waits.to_connect, &Duration::from_secs(30));
    same(&rt, &waits.to_answer, &Duration::from_secs(300));
}
