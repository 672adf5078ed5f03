use crate::same::{same, same_in};
use merge_ports::{
    Failed, MemorySink, MemorySource, ReadFault, Reading, Short, Sink, Source, Writing, read_whole,
    write_whole,
};
use merge_types::{Listing, Octets};
use std::alloc::Global;
use std::io;
use std::io::Read;
use std::test::Fail;

fn octets(alloc: Global, bytes: &[u8]) -> Result<Octets, Fail> {
    Ok(Listing::new(bytes.to_vec(alloc)?))
}

fn calls(alloc: Global, failing: &[u64]) -> Result<Listing<u64>, Fail> {
    Ok(Listing::new(failing.to_vec(alloc)?))
}

#[test]
fn reads_to_the_end(rt: HostRuntime) -> Result<(), Fail> {
    let input = octets(rt.alloc(), b"abcde")?;
    let port = MemorySource::new(input, calls(rt.alloc(), &[])?);
    let mut source = Short { port, most: 2 };
    let read = read_whole(rt.alloc(), &mut source, 5)?;
    same(&rt, &read.as_slice(), &b"abcde".as_slice());
    same(&rt, &source.port.calls, &4);
    same(&rt, &source.faults(), &0);
    Ok(())
}

#[test]
fn each_failing_read_ends_the_reading(rt: HostRuntime) -> Result<(), Fail> {
    for failing in 0..4 {
        let input = octets(rt.alloc(), b"abcde")?;
        let port = MemorySource::new(input, calls(rt.alloc(), &[failing])?);
        let mut source = Short { port, most: 2 };
        let fault = read_whole(rt.alloc(), &mut source, 5).err();
        same_in(&rt, &fault, &Some(ReadFault::Failed), &failing);
        same_in(&rt, &source.faults(), &1, &failing);
    }
    Ok(())
}

#[test]
fn each_failing_write_leaves_a_front(rt: HostRuntime) -> Result<(), Fail> {
    for (failing, written) in [(0, b"".as_slice()), (1, b"ab"), (2, b"abcd"), (3, b"abcde")] {
        let port = MemorySink::new(rt.alloc(), calls(rt.alloc(), &[failing])?);
        let mut sink = Short { port, most: 2 };
        let result = write_whole(&mut sink, b"abcde");
        same_in(&rt, &result.is_ok(), &(failing == 3), &failing);
        same_in(&rt, &sink.port.bytes.as_slice(), &written, &failing);
        same_in(&rt, &(sink.faults() == 0), &(failing == 3), &failing);
    }
    Ok(())
}

#[test]
fn streams_of_std_are_ports(rt: HostRuntime) -> Result<(), Fail> {
    let mut source = Reading::new(b"abc".as_slice());
    let read = read_whole(rt.alloc(), &mut source, 5)?;
    let mut sink = Writing::new(Vec::new(rt.alloc()));
    same(&rt, &write_whole(&mut sink, read.as_slice()), &Ok(()));
    same(&rt, &sink.inner.as_slice(), &b"abc".as_slice());
    same(&rt, &(source.faults(), sink.faults()), &(0, 0));
    let mut room = [0];
    let mut full = Writing::new(room.as_mut_slice());
    same(&rt, &write_whole(&mut full, b"xy"), &Err(Failed));
    same(&rt, &full.faults(), &1);
    Ok(())
}

// Gives one byte at a call, and is interrupted at the third.
#[derive(Drop)]
struct InterruptedAtTheThird(usize);

impl Read for InterruptedAtTheThird {
    fn read(&mut self, buf: &mut [u8]) -> io::Result<usize> {
        self.0 = self.0.saturating_add(1);
        if self.0 == 3 {
            return Err(io::Error::from(io::ErrorKind::Interrupted));
        }
        if buf.is_empty() {
            return Ok(0);
        }
        buf[0] = b'x';
        Ok(1)
    }
}

#[test]
fn an_interrupted_read_is_a_fault(rt: HostRuntime) -> Result<(), Fail> {
    let mut source = Reading::new(InterruptedAtTheThird(0));
    let fault = read_whole(rt.alloc(), &mut source, 5).err();
    same(&rt, &fault, &Some(ReadFault::Failed));
    same(&rt, &(source.faults(), source.inner.0), &(1, 3));
    Ok(())
}
