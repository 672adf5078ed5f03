//! A publisher behind a lock.
ghost use Rattle.std.specs.List.{sum_by};
ghost use Rattle.std.specs.Prelude.{◌≡◌, ◌+◌, ◌≤◌, ◌++◌, ◌∷◌, [], ℕ, Err, IfErr, IfOk, OnErr, OnOk, length, map};
ghost use Rattle.merge_json.specs.Sendable.{IsSendableReply, IsSendableRequest};
ghost use Rattle.merge_desk.specs.Comparing.{AllToldAsKept};
ghost use Rattle.merge_desk.specs.Ending.{IsDiffering};
ghost use Rattle.merge_desk.specs.Marks.{mark_on};
ghost use Rattle.merge_desk.specs.Views.{AreToldInCalls, IsJournal, IsNotedAs, numbers_from, seat_call_parts, seat_calls, seat_fault_parts, seat_faults, seat_number};
ghost use Rattle.merge_desk.specs.declared.fault.DeskFault.TheVariants as fault;

use crate::ending::{Closed, Differs};
use crate::entry::Receipt;
use crate::fault::DeskFault;
use crate::mark::Mark;
use crate::opening::Opening;
use crate::seat::{LastClosed, Seat};
use crate::state::DeskState;
use merge_batch::Request;
use merge_draft::DraftingPublisher;
use merge_types::{Moment, NoMemory};
use std::alloc::Global;
use std::marker::PhantomData;
use std::sync::ledger::{Blank, Ledger, Share};
use std::sync::{Mutex, Wait};

/// A publisher that callers share, each from a seat of its own.
#[derive(Drop)]
pub struct Desk<P: DraftingPublisher, L: Ledger, M: Ledger, N: Ledger, O: Opening> {
    state: Mutex<DeskState<P, L, M, N, O>>,
}

/// A desk that could not begin for want of memory.
#[derive(Drop)]
pub struct DeskStart<P: DraftingPublisher> {
    pub publisher: P,
}

// The seats, each with a part of both ledgers, and the last with what is left.
fn make_seats<L: Ledger, M: Ledger>(
    alloc: Global,
    seats: u16,
    calls: Share<L>,
    faults: Share<M>,
) -> Result<Vec<Seat<L, M>>, NoMemory>
    requires some { 1 ≤ seats }
    requires parts { (seats ≤ calls.parts) × (seats ≤ faults.parts) }
    requires none { (calls.amount ≡ 0) × (faults.amount ≡ 0) }
    ensures numbers { IfOk result (λ made. map seat_number made.items ≡ numbers_from 1 seats) }
    ensures none { IfOk result (λ made. (sum_by seat_calls made.items ≡ 0) × (sum_by seat_faults made.items ≡ 0)) }
    ensures parts { IfOk result (λ made. (sum_by seat_call_parts made.items ≡ calls.parts) × (sum_by seat_fault_parts made.items ≡ faults.parts)) }
{
    let mut made = Vec::new(alloc);
    let mut call_rest = calls;
    let mut fault_rest = faults;
    for number in 1..seats {
        let told = Vec::new(alloc);
        let closed = LastClosed::of(&told, &call_rest, &fault_rest);
        let seat = Seat {
            number,
            told,
            calls: call_rest.split_off(1, 0),
            faults: fault_rest.split_off(1, 0),
            closed,
        };
        made.push(seat)?;
    }
    let told = Vec::new(alloc);
    let closed = LastClosed::of(&told, &call_rest, &fault_rest);
    let last = Seat {
        number: seats,
        told,
        calls: call_rest,
        faults: fault_rest,
        closed,
    };
    made.push(last)?;
    Ok(made)
}

impl<P: DraftingPublisher, L: Ledger, M: Ledger, N: Ledger, O: Opening> Desk<P, L, M, N, O> {
    /// A desk of this publisher, and its seats, numbered from 1. What calls spend is gathered in the
    /// share of permits.
    #[tactic(auto, using(crate::proofs::Entries::decided_none))]
    pub fn start(
        alloc: Global,
        publisher: P,
        seats: u16,
        calls: Blank,
        faults: Blank,
        permits: Share<N>,
    ) -> Result<(Desk<P, L, M, N, O>, Vec<Seat<L, M>>), DeskStart<P>>
        requires seats { (1 ≤ seats) × (seats ≤ 16) }
        requires publication { O.publication ≡ (P.view publisher).publication }
        requires tables { O.tables ≡ (P.view publisher).tables }
        requires says { O.says ≡ (P.view publisher).says }
        requires count { O.count ≡ (P.view publisher).faults }
        requires calls { (calls.name ≡ L.name) × (calls.parts ≡ L.parts) × (seats ≤ calls.parts) }
        requires faults { (faults.name ≡ M.name) × (faults.parts ≡ M.parts) × (seats ≤ faults.parts) }
        ensures numbers { IfOk result (λ r. map seat_number r.1.items ≡ numbers_from 1 seats) }
        ensures parts { IfOk result (λ r. (sum_by seat_call_parts r.1.items ≡ L.parts) × (sum_by seat_fault_parts r.1.items ≡ M.parts)) }
        ensures none { IfOk result (λ r. (sum_by seat_calls r.1.items ≡ 0) × (sum_by seat_faults r.1.items ≡ 0)) }
        ensures err { IfErr result (λ start. start.publisher ≡ publisher) }
    {
        let (call_book, mut call_rest) = calls.open::<L>();
        let (fault_book, mut fault_rest) = faults.open::<M>();
        let no_calls = call_rest.empty();
        let no_faults = fault_rest.empty();
        let Ok(made) = make_seats(alloc, seats, call_rest, fault_rest) else {
            return Err(DeskStart { publisher });
        };
        let state = DeskState {
            alloc,
            publisher,
            journal: Vec::new(alloc),
            calls: call_book,
            faults: fault_book,
            permits,
            no_calls,
            no_faults,
            of: PhantomData,
        };
        let desk = Desk {
            state: Mutex::new(state),
        };
        Ok((desk, made))
    }

    /// Takes the lock, makes one step, for a permit, and puts its mark into the seat. It may wait.
    pub fn call<R: Wait>(
        &self,
        rt: &R,
        seat: &mut Seat<L, M>,
        permit: Share<N>,
        now: Moment,
        request: &Request,
    ) -> Result<Receipt, DeskFault>
        requires permit { permit.amount ≡ 1 }
        requires sendable { IsSendableRequest request.now }
        ensures calls { OnOk result ((seat.new.calls ≡ seat.old.calls + 1) × (seat.new.faults ≡ seat.old.faults)) }
        ensures told { IfOk result (λ r. seat.new.told ≡ seat.old.told ++ r.mark ∷ []) }
        ensures mark { IfOk result (λ r. r.mark ≡ mark_on r.place now request.now r.reply) }
        ensures sendable { IfOk result (λ r. IsSendableReply r.reply) }
        ensures place { IfOk result (λ r. length seat.new.told ≤ r.place) }
        ensures fault { (n : ℕ) → result ≡ Err (fault.StoreFault n) → (seat.new.faults ≡ seat.old.faults + 1) × (seat.new.calls ≡ seat.old.calls) }
        ensures counted { (n : ℕ) → result ≡ Err (fault.StoreFault n) → O.count + seat.new.faults ≤ n }
        ensures memory { result ≡ Err fault.NoMemory → seat.new ≡ seat.old }
        ensures err { OnErr result (seat.new.told ≡ seat.old.told) }
        ensures same { (seat.new.number ≡ seat.old.number) × (seat.new.call_parts ≡ seat.old.call_parts) × (seat.new.fault_parts ≡ seat.old.fault_parts) }
        ensures noted { IsNotedAs seat.old seat.new }
    {
        let Seat {
            number,
            told,
            calls,
            faults,
            closed: _,
        } = seat;
        told.reserve(1)?;
        let receipt = self
            .state
            .lock(rt)
            .step_with(*number, calls, faults, permit, now, request)?;
        told.push_reserved(receipt.mark);
        Ok(receipt)
    }

    /// Ends the desk, with all its seats: what each was told is held against the journal. It takes no
    /// memory.
    pub fn close(self, seats: Vec<Seat<L, M>>) -> Result<Closed<P, N>, Differs<P, N>>
        requires calls { sum_by seat_call_parts seats.items ≡ L.parts }
        requires faults { sum_by seat_fault_parts seats.items ≡ M.parts }
        ensures journal { IfOk result (λ closed. IsJournal O.publication O.says O.tables closed.journal (P.view closed.publisher).tables) }
        ensures told { IfOk result (λ closed. AllToldAsKept closed.journal seats.items) }
        ensures calls { IfOk result (λ closed. length closed.journal ≡ sum_by seat_calls seats.items) }
        ensures few { OnOk result (AreToldInCalls seats.items) }
        ensures paid { IfOk result (λ closed. length closed.journal ≤ closed.permits.amount) }
        ensures faults { IfOk result (λ closed. O.count + sum_by seat_faults seats.items ≤ (P.view closed.publisher).faults) }
        ensures differs { IfErr result (λ d. IsDiffering O.publication O.says O.tables d.journal.items (P.view d.publisher).tables seats.items d.difference) }
        ensures spent { IfErr result (λ d. length d.journal.items ≤ d.permits.amount) }
        ensures broken { IfErr result (λ d. O.count + sum_by seat_faults seats.items ≤ (P.view d.publisher).faults) }
    {
        let Desk { state } = self;
        state.into_inner().end(seats)
    }
}
