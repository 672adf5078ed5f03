//! One connection is served.
ghost use Rattle.std.specs.Prelude.{◌≡◌, ◌≤◌, IfOk, OnErr};
ghost use Rattle.merge_desk.specs.Views.{IsNotedAs};
ghost use Rattle.merge_ports.specs.Faults.{Rose};
ghost use Rattle.merge_serve.specs.Attending.{IsAttended, IsDue, Responds, traffic};
ghost use Rattle.merge_serve.specs.Closing.{IsLater};

use crate::answer::Answer;
use crate::asking::{Unasked, read_asked};
use crate::gate::Gate;
use crate::replying::bring;
use merge_desk::{Desk, Opening, Seat};
use merge_draft::DraftingPublisher;
use merge_ports::{Failed, Sink, Source};
use merge_types::Moment;
use merge_wire::write_message;
use std::alloc::Global;
use std::sync::Wait;
use std::sync::ledger::{Ledger, Share};

/// How a connection was served.
#[derive(Clone, Copy, Debug, PartialEq, Eq)]
pub enum Attended {
    /// A response with this status was written.
    Answered { status: u16 },
    ReadFault,
    WriteFault,
}

// Reads one request and gets its answer.
fn answer_of<
    R: Wait,
    P: DraftingPublisher,
    L: Ledger,
    M: Ledger,
    N: Ledger,
    O: Opening,
    I: Source,
    G: Gate,
>(
    rt: &R,
    alloc: Global,
    desk: &Desk<P, L, M, N, O>,
    seat: &mut Seat<L, M>,
    permit: Share<N>,
    number: u64,
    input: &mut I,
    now: Moment,
    gate: &G,
) -> Result<Answer, Failed>
    requires { permit.amount ≡ 1 }
    ensures due { IfOk result (IsDue now (I.left input.old) (I.left input.new) (I.count input.old) (I.count input.new) seat.old seat.new) }
    ensures failed { OnErr result (Rose (I.count input.old) (I.count input.new) × (seat.new ≡ seat.old)) }
    ensures later { I.count input.old ≤ I.count input.new }
    ensures grown { IsLater seat.old seat.new }
    ensures noted { IsNotedAs seat.old seat.new }
{
    match read_asked(alloc, input) {
        Ok(request) => {
            gate.before(number);
            Ok(bring(rt, alloc, desk, seat, permit, now, &request))
        }
        Err(Unasked::Declined(why)) => Ok(Answer::Bare(why)),
        Err(Unasked::ReadFault) => Err(Failed),
    }
}

// Writes the response.
#[tactic(auto, using(crate::proofs::Replied::writable))]
fn respond<O: Sink>(alloc: Global, output: &mut O, answer: Answer) -> Attended
    ensures responds { Responds (O.written output.old) (O.written output.new) (O.count output.old) (O.count output.new) answer result }
    ensures later { O.count output.old ≤ O.count output.new }
{
    let response = answer.into_response(alloc);
    match write_message(output, &response) {
        Ok(()) => Attended::Answered {
            status: response.status,
        },
        Err(_) => Attended::WriteFault,
    }
}

/// Serves a connection: reads and decodes one request, passes the gate, calls the desk, for the
/// connection's permit, and then encodes the reply and writes the response. What is no request is
/// answered without the desk. A response for want of memory is written without memory. It may wait.
#[tactic(auto, using(crate::proofs::Replied::attended_by))]
pub fn attend<
    R: Wait,
    P: DraftingPublisher,
    L: Ledger,
    M: Ledger,
    N: Ledger,
    O: Opening,
    I: Source,
    W: Sink,
    G: Gate,
>(
    rt: &R,
    alloc: Global,
    desk: &Desk<P, L, M, N, O>,
    seat: &mut Seat<L, M>,
    permit: Share<N>,
    number: u64,
    input: &mut I,
    output: &mut W,
    now: Moment,
    gate: &G,
) -> Attended
    requires { permit.amount ≡ 1 }
    ensures attended { IsAttended now (traffic (I.left input.old) (W.written output.old) (I.count input.old) (W.count output.old))
        (traffic (I.left input.new) (W.written output.new) (I.count input.new) (W.count output.new)) seat.old seat.new result }
    ensures grown { IsLater seat.old seat.new }
    ensures noted { IsNotedAs seat.old seat.new }
{
    match answer_of(rt, alloc, desk, seat, permit, number, input, now, gate) {
        Ok(answer) => {
            let attended = respond(alloc, output, answer);
            gate.answered(number);
            attended
        }
        Err(Failed) => Attended::ReadFault,
    }
}
