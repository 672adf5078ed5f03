use crate::same::{same, same_in};
use merge_gens::Filling;
use merge_ident::{Grant, Range, Ranges};
use merge_keeper::{
    ConflictValue, MemoryKeeper, PublisherChanges, PublisherState, Stop, SubscriberChanges,
    SubscriberState,
};
use merge_ports::{Entries, EntryEdit, KeepFault, Keeper};
use merge_record::Field;
use merge_table::Edit;
use merge_types::{Listing, Moment, Octets, SiteId};
use std::alloc::{AllocError, Global};
use std::test::Fail;

fn octets(alloc: Global, bytes: &[u8]) -> Result<Octets, AllocError> {
    Ok(Listing::new(bytes.to_vec(alloc)?))
}

// A commit that puts one entry.
fn put(alloc: Global, key: u8, value: u8) -> Result<Vec<EntryEdit>, AllocError> {
    let mut edits = Vec::new(alloc);
    edits.push(EntryEdit {
        table: 2,
        key: octets(alloc, &[key])?,
        value: Some(octets(alloc, &[value])?),
    })?;
    Ok(edits)
}

fn keeper(alloc: Global, failing: &[u64], stops: &[Stop]) -> Result<MemoryKeeper, AllocError> {
    let failing = Listing::new(failing.to_vec(alloc)?);
    let stops = Listing::new(stops.to_vec(alloc)?);
    Ok(MemoryKeeper::new(alloc, Entries::empty(alloc), failing, stops))
}

// Why a commit that puts one entry is refused, if it is.
fn commit_fault(
    alloc: Global,
    keeper: &mut MemoryKeeper,
    key: u8,
    value: u8,
) -> Result<Option<KeepFault>, Fail> {
    let edits = put(alloc, key, value)?;
    match keeper.commit(&edits) {
        Ok(()) => Ok(None),
        Err(fault) => Ok(Some(fault)),
    }
}

const COMMITS: &[(u8, u8, Option<KeepFault>)] = &[
    (1, 7, None),
    (2, 8, None),
    (3, 9, Some(KeepFault::Failed)),
];

#[test]
fn commits_are_loaded(rt: HostRuntime) -> Result<(), Fail> {
    let alloc = rt.alloc();
    let mut keeper = keeper(alloc, &[2], &[])?;
    for (key, value, fault) in COMMITS {
        same_in(
            &rt,
            &commit_fault(alloc, &mut keeper, *key, *value)?,
            fault,
            &key,
        );
    }
    same(&rt, &keeper.load()?.len(), &2);
    same(&rt, &keeper.faults(), &1);
    same(&rt, &keeper.left().len(), &2);
    Ok(())
}

const STOPS: &[(&str, bool, usize)] = &[
    ("before the second commit", false, 1),
    ("after the second commit", true, 2),
];

#[test]
fn a_stop_leaves_the_map_before_or_after(rt: HostRuntime) -> Result<(), Fail> {
    let alloc = rt.alloc();
    for (shows, is_after, left) in STOPS {
        let stop = Stop {
            call: 1,
            is_after: *is_after,
        };
        let mut keeper = keeper(alloc, &[], &[stop])?;
        same(&rt, &commit_fault(alloc, &mut keeper, 1, 7)?, &None);
        same(
            &rt,
            &commit_fault(alloc, &mut keeper, 2, 8)?,
            &Some(KeepFault::Failed),
        );
        assert!(rt; keeper.load().is_err());
        same(&rt, &keeper.faults(), &2);
        same_in(&rt, &keeper.left().len(), left, &shows);
    }
    Ok(())
}

fn zeros(alloc: Global, length: usize) -> Result<Vec<u8>, Fail> {
    let mut bytes = Vec::new(alloc);
    for _ in 0..length {
        bytes.push(0)?;
    }
    Ok(bytes)
}

// So many bytes, each 0 but those at these places.
fn bytes(alloc: Global, length: usize, places: &[(usize, u8)]) -> Result<Vec<u8>, Fail> {
    let mut bytes = zeros(alloc, length)?;
    for (at, byte) in places {
        if let Some(place) = bytes.get_mut(*at) {
            *place = *byte;
        }
    }
    Ok(bytes)
}

fn is_read<T: Field>(alloc: Global, bytes: &[u8]) -> Result<bool, Fail> {
    Ok(T::read(alloc, bytes)?.is_some())
}

// Whether a front of the bytes is a record.
fn is_cut<T: Field>(alloc: Global, bytes: &[u8]) -> Result<bool, Fail> {
    for length in 0..bytes.len() {
        if is_read::<T>(alloc, &bytes[..length])? {
            return Ok(true);
        }
    }
    Ok(false)
}

// Whether the bytes are a record, and none of their fronts and no longer bytes are.
fn is_whole<T: Field>(alloc: Global, length: usize, places: &[(usize, u8)]) -> Result<bool, Fail> {
    let mut bytes = bytes(alloc, length, places)?;
    let is_whole = is_read::<T>(alloc, &bytes)? && !is_cut::<T>(alloc, &bytes)?;
    bytes.push(0)?;
    Ok(is_whole && !is_read::<T>(alloc, &bytes)?)
}

#[test]
fn states_are_read_whole(rt: HostRuntime) -> Result<(), Fail> {
    assert!(rt; is_whole::<PublisherState>(rt.alloc(), 43, &[(0, 1)])?);
    assert!(rt; is_whole::<SubscriberState>(rt.alloc(), 93, &[(0, 2), (92, 1)])?);
    Ok(())
}

// The version of a row that was deleted, behind article, row, kind, site, verdict and moment.
const CONFLICT: &[(usize, u8)] = &[(17, 1), (20, 1), (29, 1), (39, 9), (40, 2), (50, 9)];

#[test]
fn conflicts_are_read_whole(rt: HostRuntime) -> Result<(), Fail> {
    assert!(rt; is_whole::<ConflictValue>(rt.alloc(), 51, CONFLICT)?);
    Ok(())
}

#[test]
fn the_state_of_the_other_kind_of_site_is_none(rt: HostRuntime) -> Result<(), Fail> {
    let state = bytes(rt.alloc(), 43, &[(0, 2)])?;
    assert!(rt; !is_read::<PublisherState>(rt.alloc(), &state)?);
    Ok(())
}

const NO_STATES: &[(&str, &[(usize, u8)])] = &[
    ("a third phase", &[(0, 2), (92, 3)]),
    (
        "a join that asks from a generation",
        &[(0, 2), (66, 5), (91, 1), (92, 1)],
    ),
];

#[test]
fn what_breaks_the_grammar_is_no_state(rt: HostRuntime) -> Result<(), Fail> {
    for (shows, places) in NO_STATES {
        let state = bytes(rt.alloc(), 93, places)?;
        assert!(rt; !is_read::<SubscriberState>(rt.alloc(), &state)?, "{shows}");
    }
    Ok(())
}

// Whether the edits are of these tables, in this order.
fn are_of(edits: &[EntryEdit], tables: &[u8]) -> bool {
    edits.len() == tables.len() && (0..edits.len()).all(|at| edits[at].table == tables[at])
}

#[test]
fn a_step_of_the_publisher_puts_its_state_first(rt: HostRuntime) -> Result<(), Fail> {
    let alloc = rt.alloc();
    let grant = Grant {
        article: 0,
        site: SiteId(1),
        number: 1,
        range: Range { begin: 1, end: 10 },
    };
    let mut changes = PublisherChanges {
        changes: 0,
        filling: Filling {
            last_closed: 3,
            filled: 0,
        },
        conflict_count: 0,
        latest: Moment(9),
        rows: Listing::empty(alloc),
        mappings: Listing::empty(alloc),
        closings: Listing::empty(alloc),
        conflicts: Listing::empty(alloc),
        grants: Listing::empty(alloc),
        held: Listing::empty(alloc),
        sites: Listing::empty(alloc),
    };
    changes.closings.push(Edit::Put(3, Moment(9)))?;
    changes.closings.push(Edit::Take(1))?;
    changes.grants.push(grant)?;
    changes.held.push((0, Ranges::new(80)))?;
    changes.sites.push(Edit::Take(2))?;
    let edits = changes.edits(alloc)?;
    assert!(rt; are_of(&edits, &[1, 4, 4, 6, 6, 7]));
    Ok(())
}

#[test]
fn a_step_of_a_subscriber_puts_its_state_first(rt: HostRuntime) -> Result<(), Fail> {
    let alloc = rt.alloc();
    let mut changes = SubscriberChanges {
        changes: 2,
        filling: Filling {
            last_closed: 1,
            filled: 0,
        },
        conflict_count: 0,
        latest: Moment(9),
        seq: 1,
        outstanding: None,
        received: 0,
        watermark: 0,
        is_joined: true,
        rows: Listing::empty(alloc),
        closings: Listing::empty(alloc),
        conflicts: Listing::empty(alloc),
        held: Listing::empty(alloc),
    };
    changes.closings.push(Edit::Put(1, Moment(2)))?;
    let edits = changes.edits(alloc, SiteId(1))?;
    assert!(rt; are_of(&edits, &[1, 4]));
    Ok(())
}
