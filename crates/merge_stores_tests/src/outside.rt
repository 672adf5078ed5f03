//! Each call once, and each kind of failure that the outside can be given.
mod memory;
mod real;

use crate::same::same_in;
use merge_link::LinkFault;
use merge_outside::read_response;
use merge_ports::{EntryEdit, MemorySource, Short, Source};
use merge_types::{Listing, Octets};
use std::alloc::{AllocError, Global};
use std::test::Fail;

fn octets(alloc: Global, bytes: &[u8]) -> Result<Octets, AllocError> {
    Ok(Listing::new(bytes.to_vec(alloc)?))
}

fn numbers(alloc: Global, numbers: &[u64]) -> Result<Listing<u64>, AllocError> {
    Ok(Listing::new(numbers.to_vec(alloc)?))
}

// A commit that puts one entry.
fn put(alloc: Global, key: u8, value: u8) -> Result<Vec<EntryEdit>, AllocError> {
    let mut edits = Vec::new(alloc);
    edits.push(EntryEdit {
        table: 2,
        key: octets(alloc, &[key])?,
        value: Some(octets(alloc, &[value])?),
    })?;
    Ok(edits)
}

// A source of so many bytes.
fn source(alloc: Global, length: usize, failing: &[u64]) -> Result<MemorySource, Fail> {
    let mut bytes = Octets::empty(alloc);
    for _ in 0..length {
        bytes.push(b'x')?;
    }
    Ok(MemorySource::new(bytes, numbers(alloc, failing)?))
}

// How many bytes a source has, the limit, and how many are read.
const RESPONSES: &[(usize, usize, usize)] = &[
    (0, 10, 0),
    (9, 10, 9),
    (10, 10, 10),
    (11, 10, 10),
    (11, 0, 0),
    (9000, 10_000, 9000),
    (9000, 8999, 8999),
];

#[test]
fn responses_are_read_to_their_end_or_a_limit(rt: HostRuntime) -> Result<(), Fail> {
    for (length, limit, wanted) in RESPONSES {
        let mut source = Short {
            port: source(rt.alloc(), *length, &[])?,
            most: 1000,
        };
        let bytes = read_response(rt.alloc(), &mut source, *limit)?;
        assert_eq!(rt; bytes.len(), *wanted, "{length} {limit}");
        assert_eq!(rt; source.port.taken, *wanted, "{length} {limit}");
    }
    Ok(())
}

#[test]
fn each_failing_read_ends_a_response(rt: HostRuntime) -> Result<(), Fail> {
    // 9,000 bytes are three pieces, and a fourth read finds the end
    for failing in 0..4 {
        let mut source = source(rt.alloc(), 9000, &[failing])?;
        let fault = read_response(rt.alloc(), &mut source, 10_000).err();
        same_in(&rt, &fault, &Some(LinkFault::Failed), &failing);
        same_in(&rt, &source.faults(), &1, &failing);
    }
    Ok(())
}
