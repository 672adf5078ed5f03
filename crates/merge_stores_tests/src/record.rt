ghost use Rattle.std.specs.Prelude.{IfOk};
ghost use Rattle.merge_record.specs.Rows.{IsShortPublisherRow};

use crate::same::same;
use merge_gens::{Mapping, RowSite, SiteState};
use merge_ident::Range;
use merge_lineage::Lineage;
use merge_record::{Field, GrantKey, HeldRanges};
use merge_types::{Dot, Listing, NoMemory, RowId, RowKey, SiteId, Value};
use merge_units::{Body, Cell, PublisherRow, SubscriberRow, Version};
use std::alloc::Global;
use std::test::Fail;

// The row of one column that the publisher's first change makes, with the value 7.
const FIRST_ROW: [u8; 41] = [
    1, 0, 0, 0, 0, 0, 0, 0, 0, 0, 1, // the lineage
    1, 1, 0, 0, 0, 0, 0, 0, 0, 0, 0, 1, 1, 1, 0, 0, 0, 0, 0, 0, 0, 7, // one cell with one Int
    0, 0, 0, 0, 0, 0, 0, 1, // the generation of its last change
];

fn first_row(alloc: Global) -> Result<PublisherRow, NoMemory>
    ensures { IfOk result IsShortPublisherRow }
{
    let top = Dot {
        site: SiteId(0),
        number: 1,
    };
    let lineage = Lineage::new(alloc).advance(top)?;
    let mut values = Listing::empty(alloc);
    values.push(Value::Int(7))?;
    let mut cells = Listing::empty(alloc);
    cells.push(Cell { top, values })?;
    let version = Version {
        lineage,
        body: Body::Live(cells),
    };
    Ok(PublisherRow {
        version,
        changed: 1,
    })
}

// Its key: article 0, and the row that the publisher's first change made.
const FIRST_KEY: [u8; 17] = [0, 0, 0, 0, 0, 0, 0, 0x80, 0, 0x80, 0, 0, 0, 0, 0, 0, 1];

#[test]
fn the_first_row_is_written(rt: HostRuntime) -> Result<(), Fail> {
    let row = first_row(rt.alloc())?;
    let octets = row.write(rt.alloc())?;
    same(&rt, &octets.as_slice(), &FIRST_ROW.as_slice());
    Ok(())
}

#[test]
fn its_key_is_written(rt: HostRuntime) -> Result<(), Fail> {
    let made = Dot {
        site: SiteId(0),
        number: 1,
    };
    let key = RowKey {
        article: 0,
        row: RowId::of(made),
    };
    let octets = key.write(rt.alloc())?;
    same(&rt, &octets.as_slice(), &FIRST_KEY.as_slice());
    Ok(())
}

// Whether the bytes are a record, and none of their fronts and no longer bytes are.
fn is_cut_nowhere<T: Field>(alloc: Global, bytes: &[u8]) -> Result<bool, Fail> {
    for length in 0..bytes.len() {
        if T::read(alloc, &bytes[..length])?.is_some() {
            return Ok(false);
        }
    }
    let mut longer = bytes.to_vec(alloc)?;
    longer.push(0)?;
    Ok(T::read(alloc, bytes)?.is_some() && T::read(alloc, &longer)?.is_none())
}

// A row that was deleted, before its generation.
const DEAD: [u8; 22] = [
    1, 0, 3, 0, 0, 0, 0, 0, 0, 0, 9, 2, 0, 3, 0, 0, 0, 0, 0, 0, 0, 9,
];

// That row with these numbers behind it: none, or one and a generation.
fn dead(alloc: Global, numbers: &[u64]) -> Result<Vec<u8>, Fail> {
    let mut bytes = DEAD.to_vec(alloc)?;
    for number in numbers {
        bytes.extend_from_slice(&number.to_be_bytes())?;
    }
    Ok(bytes)
}

// What a site holds of so many ranges.
fn held<const N: usize>(ranges: u8) -> [u8; N] {
    let mut held = [0; N];
    if let Some(count) = held.get_mut(16) {
        *count = ranges;
    }
    held
}

// Whether a record of each kind is cut nowhere.
fn kind_is_cut_nowhere(alloc: Global, kind: u8) -> Result<bool, Fail> {
    match kind {
        0 => is_cut_nowhere::<PublisherRow>(alloc, FIRST_ROW.as_slice()),
        1 => is_cut_nowhere::<SubscriberRow>(alloc, &dead(alloc, &[0])?),
        2 => is_cut_nowhere::<SubscriberRow>(alloc, &dead(alloc, &[1, 5])?),
        3 => is_cut_nowhere::<RowKey>(alloc, &[7; 17]),
        4 => is_cut_nowhere::<RowSite>(alloc, &[7; 19]),
        5 => is_cut_nowhere::<Mapping>(alloc, &[2; 9]),
        6 => is_cut_nowhere::<GrantKey>(alloc, &[7; 11]),
        7 => is_cut_nowhere::<Range>(alloc, &[7; 16]),
        8 => is_cut_nowhere::<SiteState>(alloc, &[7; 48]),
        _ => is_cut_nowhere::<HeldRanges>(alloc, &held::<41>(1)),
    }
}

#[test]
fn records_are_read_whole(rt: HostRuntime) -> Result<(), Fail> {
    for kind in 0..10 {
        assert!(rt; kind_is_cut_nowhere(rt.alloc(), kind)?, "{kind}");
    }
    Ok(())
}

fn is_read<T: Field>(alloc: Global, bytes: &[u8]) -> Result<bool, Fail> {
    Ok(T::read(alloc, bytes)?.is_some())
}

#[test]
fn what_breaks_the_grammar_is_no_record(rt: HostRuntime) -> Result<(), Fail> {
    // A third kind of move, and a third range.
    assert!(rt; !is_read::<Mapping>(rt.alloc(), &[3; 9])?);
    assert!(rt; !is_read::<HeldRanges>(rt.alloc(), &held::<73>(3))?);
    Ok(())
}

// Of two sites of a lineage the second is not above the first.
const SITES: [u8; 32] = [
    2, 0, 3, 0, 0, 0, 0, 0, 0, 0, 9, 0, 3, 0, 0, 0, 0, 0, 0, 0, 9, 2, 0, 3, 0, 0, 0, 0, 0, 0, 0, 9,
];

#[test]
fn sites_that_do_not_ascend_are_no_version(rt: HostRuntime) -> Result<(), Fail> {
    assert!(rt; !is_read::<Version>(rt.alloc(), SITES.as_slice())?);
    Ok(())
}

// A Bit of 2, a Day behind the year 9999, a Text that is no UTF-8, and an eighth kind of value.
const NO_VALUES: &[&[u8]] = &[&[2, 2], &[4, 0, 0x2C, 0xC0, 0xA1], &[3, 0, 1, 0xFF], &[7]];

#[test]
fn other_bytes_are_no_value(rt: HostRuntime) -> Result<(), Fail> {
    for bytes in NO_VALUES {
        assert!(rt; !is_read::<Value>(rt.alloc(), bytes)?, "{bytes:?}");
    }
    Ok(())
}
