//! What the desk answers to a request.
ghost use Rattle.std.specs.Prelude.{◌≡◌};
ghost use Rattle.merge_desk.specs.Views.{IsNotedAs};
ghost use Rattle.merge_json.specs.Sendable.{IsSendableReply, IsSendableRequest};
ghost use Rattle.merge_serve.specs.Answers.{IsReplied, Tells};
ghost use Rattle.merge_serve.specs.Closing.{IsLater};

use crate::answer::{Answer, Bare};
use merge_batch::{Reply, Request};
use merge_desk::{Desk, DeskFault, Opening, Seat};
use merge_draft::DraftingPublisher;
use merge_json::write_reply;
use merge_types::{Moment, NoMemory};
use std::alloc::Global;
use std::sync::Wait;
use std::sync::ledger::{Ledger, Share};

// The answer of a reply, or none for want of memory.
fn told(alloc: Global, reply: Reply) -> Answer
    requires { IsSendableReply reply }
    ensures { Tells reply result }
{
    match write_reply(alloc, &reply) {
        Ok(body) => Answer::Told { reply, body },
        Err(NoMemory) => Answer::Bare(Bare::NoMemory),
    }
}

/// Brings a request to the desk from a seat, for a permit, and makes the body of the reply behind the desk's lock.
/// It may wait.
#[tactic(auto, using(crate::proofs::Replied::called_by, crate::proofs::Replied::replied_by, crate::proofs::Replied::later_called, crate::proofs::Replied::later_faulted))]
pub(crate) fn bring<R: Wait, P: DraftingPublisher, L: Ledger, M: Ledger, N: Ledger, O: Opening>(
    rt: &R,
    alloc: Global,
    desk: &Desk<P, L, M, N, O>,
    seat: &mut Seat<L, M>,
    permit: Share<N>,
    now: Moment,
    request: &Request,
) -> Answer
    requires permit { permit.amount ≡ 1 }
    requires sendable { IsSendableRequest request.now }
    ensures replied { IsReplied now request.now seat.old seat.new result }
    ensures grown { IsLater seat.old seat.new }
    ensures noted { IsNotedAs seat.old seat.new }
{
    match desk.call(rt, seat, permit, now, request) {
        Ok(receipt) => told(alloc, receipt.reply),
        Err(DeskFault::StoreFault { .. }) => Answer::Bare(Bare::StoreFault),
        Err(DeskFault::NoMemory) => Answer::Bare(Bare::NoMemory),
    }
}
