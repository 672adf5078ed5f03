//! A source and a sink over memory, which fail at the calls that they are told.
ghost use Rattle.std.specs.Prelude.{◌≡◌, ◌++◌, ◌+◌, ◌-◌, ◌≤◌, ◌<◌, [], true, length, Some, take, drop, min, is_err, IsErr, IfOk, OnOk, OnErr};
ghost use Rattle.std.specs.Io.{ReadsAtMost};
ghost use Rattle.std.specs.Io.KnownBytes.{ReadConsumes, WriteAppends};
ghost use Rattle.merge_ports.specs.Faults.{HasCause, is_listed, one_more};

use crate::{Failed, Sink, Source};
use merge_types::{Listing, Octets};
use std::alloc::Global;

/// A source over a byte string. The calls whose numbers are listed, counted from 0, fail.
#[derive(Debug, Drop)]
pub struct MemorySource {
    pub bytes: Octets,
    /// How many of the bytes were read.
    pub taken: usize,
    pub failing: Listing<u64>,
    /// How many calls there were.
    pub calls: u64,
    pub faults: u64,
}

impl MemorySource {
    /// A source of which nothing was read yet.
    pub fn new(bytes: Octets, failing: Listing<u64>) -> Self
        ensures { result ≡ record { bytes = bytes; taken = 0; failing = failing; calls = 0; faults = 0 } }
    {
        MemorySource {
            bytes,
            taken: 0,
            failing,
            calls: 0,
            faults: 0,
        }
    }
}

// Copies as many bytes as fit from the front of one slice to the front of another.
fn copy_front(from: &[u8], to: &mut [u8]) -> usize
    ensures count { result ≡ min (length from.now) (length to.old) }
    ensures same { take result to.new ≡ take result from.now }
{
    let count = from.len().min(to.len());
    to[..count].copy_from_slice(&from[..count]);
    count
}

impl Source for MemorySource {
    ghost left = { λ s. Some (drop s.taken s.bytes) };

    ghost count = { λ s. s.faults };

    fn read(&mut self, piece: &mut [u8]) -> Result<usize, Failed>
        ensures bound { ReadsAtMost result piece.new }
        ensures bytes { ReadConsumes (Some (drop self.old.taken self.old.bytes)) (Some (drop self.new.taken self.new.bytes)) result piece.new }
        ensures cause { HasCause self.old.faults self.new.faults result }
        ensures failed { is_err result ≡ is_listed self.old.failing self.old.calls }
        ensures most { IfOk result (λ taken. taken ≡ min (length self.old.bytes - self.old.taken) (length piece.old)) }
        ensures ok { IfOk result (λ taken. self.new ≡ record self.old { taken = self.old.taken + taken; calls = one_more self.old.calls }) }
        ensures err { OnErr result (self.new ≡ record self.old { calls = one_more self.old.calls; faults = one_more self.old.faults }) }
    {
        let call = self.calls;
        self.calls = self.calls.saturating_add(1);
        if self.failing.as_slice().contains(&call) {
            self.faults = self.faults.saturating_add(1);
            return Err(Failed);
        }
        if self.taken >= self.bytes.len() {
            return Ok(0);
        }
        let taken = copy_front(&self.bytes.as_slice()[self.taken..], piece);
        self.taken += taken;
        Ok(taken)
    }

    fn faults(&self) -> u64 {
        self.faults
    }
}

/// A sink that keeps what is written. The calls whose numbers are listed, counted from 0, fail, and
/// so does a call for which there is no memory.
#[derive(Debug, Drop)]
pub struct MemorySink {
    pub bytes: Octets,
    pub failing: Listing<u64>,
    /// How many calls there were.
    pub calls: u64,
    pub faults: u64,
}

impl MemorySink {
    /// A sink to which nothing was written yet.
    pub fn new(alloc: Global, failing: Listing<u64>) -> Self
        ensures { result ≡ record { bytes = []; failing = failing; calls = 0; faults = 0 } }
    {
        MemorySink {
            bytes: Octets::empty(alloc),
            failing,
            calls: 0,
            faults: 0,
        }
    }
}

impl Sink for MemorySink {
    ghost written = { λ s. Some s.bytes };

    ghost count = { λ s. s.faults };

    fn write(&mut self, piece: &[u8]) -> Result<usize, Failed>
        ensures bound { IfOk result (λ taken. taken ≤ length piece.now) }
        ensures some { 0 < length piece.now → IfOk result (λ taken. 0 < taken) }
        ensures bytes { WriteAppends (Some self.old.bytes) (Some self.new.bytes) result piece.now }
        ensures cause { HasCause self.old.faults self.new.faults result }
        ensures failed { is_listed self.old.failing self.old.calls ≡ true → IsErr result }
        ensures whole { IfOk result (λ taken. taken ≡ length piece.now) }
        ensures ok { OnOk result (self.new ≡ record self.old { bytes = self.old.bytes ++ piece.now; calls = one_more self.old.calls }) }
        ensures err { OnErr result (self.new ≡ record self.old { calls = one_more self.old.calls; faults = one_more self.old.faults }) }
    {
        let call = self.calls;
        self.calls = self.calls.saturating_add(1);
        if self.failing.as_slice().contains(&call) || self.bytes.extend(piece).is_err() {
            self.faults = self.faults.saturating_add(1);
            return Err(Failed);
        }
        Ok(piece.len())
    }

    fn faults(&self) -> u64 {
        self.faults
    }
}
