//! A request is worked out, and put in place.
ghost use Rattle.std.specs.Prelude.{◌≡◌, ◌≤◌, ◌+◌, Err, IfOk, IfSome, OnErr, OnOk, ℕ};
ghost use Rattle.merge_batch.specs.Refusals.{reply_to};
ghost use Rattle.merge_json.specs.Sendable.{IsSendableReply};
ghost use Rattle.merge_model.specs.World.Calls.{result_of_request};
ghost use Rattle.merge_ports.specs.declared.keeper.KeepFault.TheVariants.{Failed};
ghost use Rattle.merge_desk.specs.Replay.{asked_if_made, decisions_if_made, entry_decisions, entry_tallies, reply_of_refusal, tables_and_reply};
ghost use Rattle.merge_desk.specs.Working.{left_by};

use merge_batch::{Refusal, Reply, Request};
use merge_draft::{Drafted, DraftingPublisher};
use merge_json::form_laws;
use merge_ports::KeepFault;
use merge_types::{Listing, Moment, NoMemory};
use merge_units::Decision;
use std::alloc::Global;

/// A request that was answered: what is to be put in place, the reply, and the decisions on its
/// conflicts. Of one that was refused nothing is to be put in place.
#[derive(Drop)]
pub(crate) struct Worked<W: Drop> {
    pub work: Option<W>,
    pub reply: Reply,
    pub decisions: Listing<Decision>,
}

// The reply that tells a refusal.
fn telling(alloc: Global, refusal: &Refusal) -> Result<Reply, NoMemory>
    ensures told { IfOk result (λ reply. reply ≡ reply_of_refusal refusal.now) }
    ensures sendable { IfOk result IsSendableReply }
{
    form_laws();
    match refusal.reply(alloc)? {
        Some(reply) => Ok(reply),
        None => Err(NoMemory),
    }
}

/// Works a request out. What refuses it is told in a reply.
pub(crate) fn work_out<P: DraftingPublisher>(
    alloc: Global,
    publisher: &mut P,
    now: Moment,
    request: &Request,
) -> Result<Worked<P::Work>, NoMemory>
    ensures left { IfOk result (λ w. left_by P.after w.work (P.view publisher.old).tables w.reply ≡ tables_and_reply (P.view publisher.old).tables (result_of_request (P.view publisher.old).publication (P.view publisher.old).says (P.view publisher.old).tallies now request.now (P.view publisher.old).tables)) }
    ensures decisions { IfOk result (λ w. w.decisions ≡ entry_decisions (P.view publisher.old).publication (P.view publisher.old).says (P.view publisher.old).tallies now request.now (P.view publisher.old).tables) }
    ensures asked { OnOk result ((P.view publisher.new).tallies ≡ entry_tallies (P.view publisher.old).publication (P.view publisher.old).says (P.view publisher.old).tallies now request.now (P.view publisher.old).tables) }
    ensures ready { IfOk result (λ w. IfSome w.work (λ work. P.IsReady publisher.new work)) }
    ensures sendable { IfOk result (λ w. IsSendableReply w.reply) }
    ensures steady { (k n : ℕ) (asked : _) → (P.view publisher.new).says k n asked ≡ (P.view publisher.old).says k n asked }
    ensures tables { (P.view publisher.new).tables ≡ (P.view publisher.old).tables }
    ensures publication { (P.view publisher.new).publication ≡ (P.view publisher.old).publication }
    ensures faults { (P.view publisher.new).faults ≡ (P.view publisher.old).faults }
{
    match publisher.draft(now, request) {
        Ok(
            Drafted {
                work,
                reply,
                decisions,
            },
        ) => Ok(Worked {
            work: Some(work),
            reply,
            decisions,
        }),
        Err(Refusal::NoMemory) => Err(NoMemory),
        Err(refusal) => Ok(Worked {
            work: None,
            reply: telling(alloc, &refusal)?,
            decisions: Listing::empty(alloc),
        }),
    }
}

/// Puts what was worked out in place.
pub(crate) fn put<P: DraftingPublisher>(
    publisher: &mut P,
    work: Option<P::Work>,
) -> Result<(), KeepFault>
    requires { IfSome work (λ work. P.IsReady publisher.old work) }
    ensures ok { (reply : _) → OnOk result (left_by P.after work (P.view publisher.old).tables reply ≡ ((P.view publisher.new).tables, reply)) }
    ensures err { OnErr result ((P.view publisher.new).tables ≡ (P.view publisher.old).tables) }
    ensures tallies { (P.view publisher.new).tallies ≡ (P.view publisher.old).tallies }
    ensures later { (P.view publisher.old).faults ≤ (P.view publisher.new).faults }
    ensures fault { result ≡ Err Failed → (P.view publisher.old).faults + 1 ≤ (P.view publisher.new).faults }
    ensures steady { (k n : ℕ) (asked : _) → (P.view publisher.new).says k n asked ≡ (P.view publisher.old).says k n asked }
    ensures publication { (P.view publisher.new).publication ≡ (P.view publisher.old).publication }
{
    match work {
        Some(work) => publisher.settle(work),
        None => Ok(()),
    }
}
