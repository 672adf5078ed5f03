//! Doors in memory, for tests.
ghost use Rattle.std.specs.Prelude.{◌≡◌, ◌+◌, ◌||◌, [], drop, is_err, length, nat_le, option_map, slice_get, None, Some, IfOk, IfSome, OnErr, OnOk};
ghost use Rattle.merge_ports.specs.Faults.{HasCause, is_listed, one_more};
ghost use Rattle.merge_desk.specs.Views.{seat_noted};
ghost use Rattle.merge_serve.specs.Attending.{traffic};
ghost use Rattle.merge_serve.specs.Closing.{IsFresh, IsServed};

use crate::connection::Connection;
use crate::door::Door;
use crate::doors::Doors;
use merge_desk::Seat;
use merge_ports::{Failed, MemorySink, MemorySource, OpenFault, Sink, Source};
use merge_types::{Listing, Octets, Words};
use std::alloc::Global;
use std::mem;
use std::snapshot::Snapshot;
use std::sync::ledger::Ledger;

/// A connection that is to come: the bytes that it brings, and the numbers of the reads and of the
/// writes that fail, counted from 0.
#[derive(Debug, Drop)]
pub struct Caller {
    pub bytes: Octets,
    pub failing_reads: Listing<u64>,
    pub failing_writes: Listing<u64>,
}

impl Caller {
    /// One that brings nothing.
    pub fn silent(alloc: Global) -> Self
        ensures { result ≡ record { bytes = []; failing_reads = []; failing_writes = [] } }
    {
        Caller {
            bytes: Octets::empty(alloc),
            failing_reads: Listing::empty(alloc),
            failing_writes: Listing::empty(alloc),
        }
    }
}

/// A door whose connections are those of a list. The calls whose numbers are listed, counted from 0,
/// fail, and so does each call behind the end of the list.
#[derive(Drop)]
pub struct MemoryDoor {
    pub callers: Vec<Caller>,
    /// How many connections were handed out.
    pub given: usize,
    pub failing: Listing<u64>,
    /// How many calls there were.
    pub calls: u64,
    pub faults: u64,
    pub alloc: Global,
}

impl MemoryDoor {
    /// A door that handed out no connection yet.
    pub fn new(alloc: Global, callers: Vec<Caller>, failing: Listing<u64>) -> Self
        ensures { result ≡ record { callers = callers; given = 0; failing = failing; calls = 0; faults = 0; alloc = alloc } }
    {
        MemoryDoor {
            callers,
            given: 0,
            failing,
            calls: 0,
            faults: 0,
            alloc,
        }
    }
}

impl Door for MemoryDoor {
    type Input = MemorySource;

    type Output = MemorySink;

    ghost handed = { λ d. Some d.given };

    ghost count = { λ d. d.faults };

    fn accept(&mut self) -> Result<Connection<MemorySource, MemorySink>, Failed>
        ensures fresh { IfOk result (λ c. IsFresh
            (traffic (⟦<MemorySource as Source>⟧.left c.first_input.value) (⟦<MemorySink as Sink>⟧.written c.first_output.value) c.first_input.value.faults c.first_output.value.faults)
            (traffic (⟦<MemorySource as Source>⟧.left c.input) (⟦<MemorySink as Sink>⟧.written c.output) c.input.faults c.output.faults)) }
        ensures handed { OnOk result (Some self.new.given ≡ option_map (λ n. n + 1) (Some self.old.given)) }
        ensures same { OnErr result (Some self.new.given ≡ Some self.old.given) }
        ensures cause { HasCause self.old.faults self.new.faults result }
        ensures failed { is_err result ≡ is_listed self.old.failing self.old.calls || nat_le (length self.old.callers.items) self.old.given }
        ensures input { IfOk result (λ c. IfSome (slice_get self.old.callers.items self.old.given) (λ caller.
            c.input ≡ record { bytes = caller.bytes; taken = 0; failing = caller.failing_reads; calls = 0; faults = 0 })) }
        ensures output { IfOk result (λ c. IfSome (slice_get self.old.callers.items self.old.given) (λ caller.
            c.output ≡ record { bytes = []; failing = caller.failing_writes; calls = 0; faults = 0 })) }
        ensures ok { OnOk result (self.new ≡ record self.old { callers = self.new.callers; given = self.old.given + 1; calls = one_more self.old.calls }) }
        ensures waiting { drop self.new.given self.new.callers.items ≡ drop self.new.given self.old.callers.items }
        ensures err { OnErr result (self.new ≡ record self.old { calls = one_more self.old.calls; faults = one_more self.old.faults }) }
    {
        let call = self.calls;
        self.calls = self.calls.saturating_add(1);
        if self.failing.as_slice().contains(&call) || self.given >= self.callers.len() {
            self.faults = self.faults.saturating_add(1);
            return Err(Failed);
        }
        let silent = Caller::silent(self.alloc);
        let Caller {
            bytes,
            failing_reads,
            failing_writes,
        } = mem::replace(&mut self.callers[self.given], silent);
        self.given += 1;
        let source = MemorySource::new(bytes, failing_reads);
        let sink = MemorySink::new(self.alloc, failing_writes);
        Ok(Connection::new(source, sink))
    }

    fn close<L: Ledger, M: Ledger>(
        connection: Connection<MemorySource, MemorySink>,
        seat: &mut Seat<L, M>,
    )
        requires { IsServed
            (traffic (⟦<MemorySource as Source>⟧.left connection.first_input.value) (⟦<MemorySink as Sink>⟧.written connection.first_output.value) connection.first_input.value.faults connection.first_output.value.faults)
            (traffic (⟦<MemorySource as Source>⟧.left connection.input) (⟦<MemorySink as Sink>⟧.written connection.output) connection.input.faults connection.output.faults)
            seat.old }
        ensures { seat.new ≡ seat_noted seat.old }
    {
        let _halves = connection.into_halves(seat);
    }

    fn faults(&self) -> u64 {
        self.faults
    }
}

/// Opens doors in memory at any address. The first gets the callers, and later ones get none.
#[derive(Drop)]
pub struct MemoryDoors {
    pub callers: Vec<Caller>,
    /// How many connections the door handed out that was given back last.
    pub handed: usize,
    pub faults: u64,
    pub alloc: Global,
    asked: Option<Snapshot<Words>>,
}

impl MemoryDoors {
    /// These have opened no door yet.
    pub fn new(alloc: Global, callers: Vec<Caller>) -> Self
        ensures { result ≡ record { callers = callers; handed = 0; faults = 0; alloc = alloc; asked = None } }
    {
        MemoryDoors {
            callers,
            handed: 0,
            faults: 0,
            alloc,
            asked: None,
        }
    }
}

impl Doors for MemoryDoors {
    type Opened = MemoryDoor;

    ghost handed = { λ d. Some d.handed };

    ghost count = { λ d. d.faults };

    ghost asked = { λ d. option_map (λ s. s.value) d.asked };

    fn door(&mut self, address: &Words) -> Result<MemoryDoor, OpenFault> {
        self.asked = Some(Snapshot::of(address));
        let callers = mem::replace(&mut self.callers, Vec::new(self.alloc));
        Ok(MemoryDoor::new(self.alloc, callers, Listing::empty(self.alloc)))
    }

    fn door_back(&mut self, door: MemoryDoor) {
        self.handed = door.given;
        self.faults = self.faults.saturating_add(door.faults);
    }
}
