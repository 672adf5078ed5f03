//! A caller's place at a desk.
ghost use Rattle.std.specs.Prelude.{◌≡◌, ◌≤◌, length};
ghost use Rattle.merge_desk.specs.Views.{seat_noted};

use crate::mark::Mark;
use std::marker::Model;
use std::snapshot::Snapshot;
use std::sync::ledger::{Ledger, Share};

// What the marks and the shares of a seat were as its last connection was closed. Contracts alone see
// it.
#[derive(Drop)]
pub(crate) struct LastClosed<L: Ledger, M: Ledger> {
    told: Snapshot<Vec<Mark>>,
    calls: Snapshot<Share<L>>,
    faults: Snapshot<Share<M>>,
}

impl<L: Ledger, M: Ledger> LastClosed<L, M> {
    pub(crate) fn of(told: &Vec<Mark>, calls: &Share<L>, faults: &Share<M>) -> Self
        ensures told { result.told.value ≡ told.now }
        ensures calls { result.calls.value ≡ calls.now }
        ensures faults { result.faults.value ≡ faults.now }
    {
        LastClosed {
            told: Snapshot::of(told),
            calls: Snapshot::of(calls),
            faults: Snapshot::of(faults),
        }
    }
}

/// A caller's place at the desk: its number, and the marks of the calls that were answered. It holds
/// a share of the ledger of calls and one of the ledger of store faults. Contracts alone see what all
/// three were as the last connection was closed that was served from it.
#[derive(Drop)]
pub struct Seat<L: Ledger, M: Ledger> {
    pub(crate) number: u16,
    pub(crate) told: Vec<Mark>,
    pub(crate) calls: Share<L>,
    pub(crate) faults: Share<M>,
    pub(crate) closed: LastClosed<L, M>,
}

impl<L: Ledger, M: Ledger> Model for Seat<L, M> {
    ghost use Rattle.std.specs.Prelude.{◌≤◌, length};
    ghost use Rattle.merge_desk.specs.Views.{SeatView};

    ghost Value = { SeatView };

    ghost view = { λ s. record { number = s.number; told = s.told.items; calls = s.calls.amount; faults = s.faults.amount; call_parts = s.calls.parts; fault_parts = s.faults.parts; closed_told = s.closed.told.value.items; closed_calls = s.closed.calls.value.amount; closed_faults = s.closed.faults.value.amount } };

    ghost invariant = { λ s. (1 ≤ s.calls.parts) × (1 ≤ s.faults.parts) × (length s.told.items ≤ s.calls.amount) };
}

impl<L: Ledger, M: Ledger> Seat<L, M> {
    pub fn number(&self) -> u16
        ensures { result ≡ self.now.number }
    {
        self.number
    }

    /// The marks of the calls that were answered, in order.
    pub fn told(&self) -> &[Mark]
        ensures { result.now ≡ self.now.told }
    {
        &self.told
    }

    /// Notes the seat as it is when one of its connections is closed. Who serves connections from it
    /// also notes it before the first. It takes no memory.
    pub fn note_close(&mut self)
        ensures { self.new ≡ seat_noted self.old }
    {
        self.closed = LastClosed::of(&self.told, &self.calls, &self.faults);
    }

    // Its shares of calls and of faults. No more marks were told than calls were made.
    pub(crate) fn into_shares(self) -> (Share<L>, Share<M>)
        ensures calls { (result.0.amount ≡ self.calls) × (result.0.parts ≡ self.call_parts) }
        ensures faults { (result.1.amount ≡ self.faults) × (result.1.parts ≡ self.fault_parts) }
        ensures few { length self.told ≤ self.calls }
    {
        let Seat {
            number: _,
            told: _,
            calls,
            faults,
            closed: _,
        } = self;
        (calls, faults)
    }
}
