//! What the lock of a desk holds.
ghost use Rattle.std.specs.Prelude.{◌≡◌, ◌+◌, ◌<◌, ◌≤◌, ◌++◌, ◌∷◌, [], ℕ, Err, IfOk, OnErr, OnOk, length};
ghost use Rattle.merge_json.specs.Sendable.{IsSendableReply, IsSendableRequest};
ghost use Rattle.merge_model.specs.World.Calls.{result_of_request};
ghost use Rattle.merge_desk.specs.Marks.{mark_on};
ghost use Rattle.merge_desk.specs.Replay.{entry_decisions, entry_tallies, tables_and_reply};
ghost use Rattle.merge_desk.specs.declared.fault.DeskFault.TheVariants as fault;

use crate::entry::{Entry, Receipt};
use crate::fault::DeskFault;
use crate::mark::mark_on;
use crate::opening::Opening;
use crate::seat::Seat;
use crate::working::{Worked, put, work_out};
use merge_batch::Request;
use merge_draft::DraftingPublisher;
use merge_ports::KeepFault;
use merge_types::Moment;
use std::alloc::Global;
use std::marker::{Model, PhantomData};
use std::sync::ledger::{Book, Ledger, Share};

/// A publisher and the journal of what it answered since the opening.
#[derive(Drop)]
pub struct DeskState<P: DraftingPublisher, L: Ledger, M: Ledger, N: Ledger, O: Opening> {
    pub(crate) alloc: Global,
    pub(crate) publisher: P,
    pub(crate) journal: Vec<Entry>,
    pub(crate) calls: Book<L>,
    pub(crate) faults: Book<M>,
    // What calls have spent.
    pub(crate) permits: Share<N>,
    // Shares of nothing, in which those of the seats are gathered at the end.
    pub(crate) no_calls: Share<L>,
    pub(crate) no_faults: Share<M>,
    pub(crate) of: PhantomData<O>,
}

impl<P: DraftingPublisher, L: Ledger, M: Ledger, N: Ledger, O: Opening> Model
    for DeskState<P, L, M, N, O> {
    ghost use Rattle.std.specs.Prelude.{◌≡◌};
    ghost use Rattle.merge_desk.specs.Views.{DeskView, IsKeptDesk};

    ghost Value = { DeskView };

    ghost view = { λ d. record { tables = (P.view d.publisher).tables; tallies = (P.view d.publisher).tallies; store_faults = (P.view d.publisher).faults; journal = d.journal.items; calls = d.calls.total; faults = d.faults.total } };

    ghost invariant = { λ d. IsKeptDesk O.publication O.tables O.says O.count (P.view d.publisher) d.journal.items d.calls.total d.faults.total d.permits.amount
        × (d.no_calls.parts ≡ 0) × (d.no_calls.amount ≡ 0) × (d.no_faults.parts ≡ 0) × (d.no_faults.amount ≡ 0) };
}

impl<P: DraftingPublisher, L: Ledger, M: Ledger, N: Ledger, O: Opening> DeskState<P, L, M, N, O> {
    /// Answers a request and adds its entry to the journal, for a permit, or answers a fault and adds
    /// none.
    pub fn step(
        &mut self,
        seat: &mut Seat<L, M>,
        permit: Share<N>,
        now: Moment,
        request: &Request,
    ) -> Result<Receipt, DeskFault>
        requires permit { permit.amount ≡ 1 }
        requires sendable { IsSendableRequest request.now }
        ensures reply { IfOk result (λ r. (self.new.tables, r.reply) ≡ tables_and_reply self.old.tables (result_of_request O.publication O.says self.old.tallies now request.now self.old.tables)) }
        ensures entry { IfOk result (λ r. self.new.journal ≡ self.old.journal ++ record {
          seat = seat.old.number;
          moment = now;
          request = request.now;
          decisions = entry_decisions O.publication O.says self.old.tallies now request.now self.old.tables;
          mark = r.mark;
        } ∷ []) }
        ensures asked { OnOk result (self.new.tallies ≡ entry_tallies O.publication O.says self.old.tallies now request.now self.old.tables) }
        ensures mark { IfOk result (λ r. r.mark ≡ mark_on r.place now request.now r.reply) }
        ensures sendable { IfOk result (λ r. IsSendableReply r.reply) }
        ensures place { IfOk result (λ r. r.place ≡ length self.new.journal) }
        ensures calls { OnOk result ((seat.new.calls ≡ seat.old.calls + 1) × (seat.new.faults ≡ seat.old.faults)) }
        ensures same { (seat.new.number ≡ seat.old.number) × (seat.new.told ≡ seat.old.told) × (seat.new.call_parts ≡ seat.old.call_parts) × (seat.new.fault_parts ≡ seat.old.fault_parts) }
        ensures fault { (n : ℕ) → result ≡ Err (fault.StoreFault n) → (n ≡ self.new.store_faults) × (self.old.store_faults + 1 ≤ n) × (seat.new.faults ≡ seat.old.faults + 1) × (seat.new.calls ≡ seat.old.calls) }
        ensures counted { (n : ℕ) → result ≡ Err (fault.StoreFault n) → O.count + seat.new.faults ≤ n }
        ensures memory { result ≡ Err fault.NoMemory → seat.new ≡ seat.old }
        ensures err { OnErr result ((self.new.tables ≡ self.old.tables) × (self.new.journal ≡ self.old.journal)) }
    {
        self.step_with(
            seat.number,
            &mut seat.calls,
            &mut seat.faults,
            permit,
            now,
            request,
        )
    }

    // The same, with the shares of a seat.
    pub(crate) fn step_with(
        &mut self,
        number: u16,
        calls: &mut Share<L>,
        faults: &mut Share<M>,
        permit: Share<N>,
        now: Moment,
        request: &Request,
    ) -> Result<Receipt, DeskFault>
        requires parts { (0 < calls.old.parts) × (0 < faults.old.parts) }
        requires permit { permit.amount ≡ 1 }
        requires sendable { IsSendableRequest request.now }
        ensures reply { IfOk result (λ r. (self.new.tables, r.reply) ≡ tables_and_reply self.old.tables (result_of_request O.publication O.says self.old.tallies now request.now self.old.tables)) }
        ensures entry { IfOk result (λ r. self.new.journal ≡ self.old.journal ++ record {
          seat = number;
          moment = now;
          request = request.now;
          decisions = entry_decisions O.publication O.says self.old.tallies now request.now self.old.tables;
          mark = r.mark;
        } ∷ []) }
        ensures asked { OnOk result (self.new.tallies ≡ entry_tallies O.publication O.says self.old.tallies now request.now self.old.tables) }
        ensures mark { IfOk result (λ r. r.mark ≡ mark_on r.place now request.now r.reply) }
        ensures sendable { IfOk result (λ r. IsSendableReply r.reply) }
        ensures place { IfOk result (λ r. r.place ≡ length self.new.journal) }
        ensures calls { OnOk result ((calls.new.amount ≡ calls.old.amount + 1) × (faults.new.amount ≡ faults.old.amount)) }
        ensures above { IfOk result (λ r. calls.new.amount ≤ r.place) }
        ensures parts { (calls.new.parts ≡ calls.old.parts) × (faults.new.parts ≡ faults.old.parts) }
        ensures fault { (n : ℕ) → result ≡ Err (fault.StoreFault n) → (n ≡ self.new.store_faults) × (self.old.store_faults + 1 ≤ n) × (faults.new.amount ≡ faults.old.amount + 1) × (calls.new.amount ≡ calls.old.amount) }
        ensures counted { (n : ℕ) → result ≡ Err (fault.StoreFault n) → O.count + faults.new.amount ≤ n }
        ensures memory { result ≡ Err fault.NoMemory → (faults.new.amount ≡ faults.old.amount) × (calls.new.amount ≡ calls.old.amount) }
        ensures err { OnErr result ((self.new.tables ≡ self.old.tables) × (self.new.journal ≡ self.old.journal)) }
    {
        let worked = work_out(self.alloc, &mut self.publisher, now, request)?;
        let Worked {
            work,
            reply,
            decisions,
        } = worked;
        self.journal.reserve(1)?;
        let place = self.journal.len() as u64 + 1;
        let mark = mark_on(self.alloc, place, now, request, &reply)?;
        let request = request.clone()?;
        let entry = Entry {
            seat: number,
            moment: now,
            request,
            decisions,
            mark,
        };
        match put(&mut self.publisher, work) {
            Ok(()) => {
                self.journal.push_reserved(entry);
                self.permits.merge(permit);
                self.calls.add(calls, 1);
                self.calls.audit(calls);
                Ok(Receipt { place, reply, mark })
            }
            Err(KeepFault::Failed) => {
                self.faults.add(faults, 1);
                self.faults.audit(faults);
                Err(DeskFault::StoreFault {
                    count: self.publisher.faults(),
                })
            }
            Err(KeepFault::NoMemory) => Err(DeskFault::NoMemory),
        }
    }
}
