//! The end of a desk.
ghost use Rattle.std.specs.List.{sum_by};
ghost use Rattle.std.specs.Prelude.{◌≡◌, ◌+◌, ◌≤◌, IfErr, IfOk, List, OnOk, length};
ghost use Rattle.merge_desk.specs.Comparing.{AllToldAsKept};
ghost use Rattle.merge_desk.specs.Ending.{IsDiffering};
ghost use Rattle.merge_desk.specs.Views.{AreToldInCalls, IsJournal, seat_call_parts, seat_calls, seat_fault_parts, seat_faults};

use crate::comparing::{Difference, compare_all};
use crate::entry::Entry;
use crate::opening::Opening;
use crate::seat::Seat;
use crate::state::DeskState;
use merge_draft::DraftingPublisher;
use std::marker::Model;
use std::sync::ledger::{Ledger, Share};

/// The journal of a desk whose seats were all told what it has of them, which contracts see as the list
/// of its entries. It is made where such a desk ends, and nowhere else.
#[derive(Drop)]
pub struct Journal {
    entries: Vec<Entry>,
}

impl Model for Journal {
    ghost use Rattle.std.specs.Prelude.{List};
    ghost use Rattle.merge_desk.specs.declared.entry.Entry.{Entry};

    ghost Value = { List Entry };

    ghost view = { λ j. j.entries.items };
}

impl Journal {
    /// The entries in order.
    pub fn entries(&self) -> &[Entry]
        ensures { result.now ≡ self.now }
    {
        self.entries.as_slice()
    }
}

/// What a desk leaves whose seats were told what the journal has of them.
#[derive(Drop)]
pub struct Closed<P: DraftingPublisher, N: Ledger> {
    pub journal: Journal,
    pub publisher: P,
    /// What calls have spent.
    pub permits: Share<N>,
}

/// What a desk leaves whose journal has something else than a seat was told: where they differ, and
/// the journal.
#[derive(Drop)]
pub struct Differs<P: DraftingPublisher, N: Ledger> {
    pub difference: Difference,
    pub journal: Vec<Entry>,
    pub publisher: P,
    /// What calls have spent.
    pub permits: Share<N>,
}

// Gathers the shares of all seats.
fn gather<L: Ledger, M: Ledger>(all: &mut Share<L>, broken: &mut Share<M>, seats: Vec<Seat<L, M>>)
    ensures calls { (all.new.parts ≡ all.old.parts + sum_by seat_call_parts seats.items) × (all.new.amount ≡ all.old.amount + sum_by seat_calls seats.items) }
    ensures faults { (broken.new.parts ≡ broken.old.parts + sum_by seat_fault_parts seats.items) × (broken.new.amount ≡ broken.old.amount + sum_by seat_faults seats.items) }
    ensures told { AreToldInCalls seats.items }
{
    for seat in seats {
        let (calls, faults) = seat.into_shares();
        all.merge(calls);
        broken.merge(faults);
    }
}

impl<P: DraftingPublisher, L: Ledger, M: Ledger, N: Ledger, O: Opening> DeskState<P, L, M, N, O> {
    // The journal and the publisher, where all seats are back.
    pub(crate) fn end(self, seats: Vec<Seat<L, M>>) -> Result<Closed<P, N>, Differs<P, N>>
        requires calls { sum_by seat_call_parts seats.items ≡ L.parts }
        requires faults { sum_by seat_fault_parts seats.items ≡ M.parts }
        ensures journal { IfOk result (λ closed. IsJournal O.publication O.says O.tables closed.journal (P.view closed.publisher).tables) }
        ensures told { IfOk result (λ closed. AllToldAsKept closed.journal seats.items) }
        ensures calls { IfOk result (λ closed. length closed.journal ≡ sum_by seat_calls seats.items) }
        ensures few { OnOk result (AreToldInCalls seats.items) }
        ensures paid { IfOk result (λ closed. length closed.journal ≤ closed.permits.amount) }
        ensures faults { IfOk result (λ closed. O.count + sum_by seat_faults seats.items ≤ (P.view closed.publisher).faults) }
        ensures differs { IfErr result (λ d. IsDiffering O.publication O.says O.tables d.journal.items (P.view d.publisher).tables seats.items d.difference) }
        ensures spent { IfErr result (λ d. length d.journal.items ≤ d.permits.amount) }
        ensures own { IfOk result (λ closed. closed.journal ≡ self.journal) }
        ensures torn { IfErr result (λ d. d.journal.items ≡ self.journal) }
        ensures broken { IfErr result (λ d. O.count + sum_by seat_faults seats.items ≤ (P.view d.publisher).faults) }
    {
        let DeskState {
            alloc: _,
            publisher,
            journal,
            mut calls,
            mut faults,
            permits,
            no_calls: mut all,
            no_faults: mut broken,
            of: _,
        } = self;
        let compared = compare_all(&seats, &journal);
        gather(&mut all, &mut broken, seats);
        calls.audit(&mut all);
        faults.audit(&mut broken);
        match compared {
            Ok(()) => Ok(Closed {
                journal: Journal { entries: journal },
                publisher,
                permits,
            }),
            Err(difference) => Err(Differs {
                difference,
                journal,
                publisher,
                permits,
            }),
        }
    }
}
