//! A request in one call.
ghost use Rattle.std.specs.Prelude.{◌≡◌, ℕ};
ghost use Rattle.merge_model.specs.World.Calls.{Called, Counted, questions_on, request_commits, result_of_request};

use crate::drafting::{Drafted, DraftingPublisher};
use merge_batch::{Refusal, Reply, Request};
use merge_ports::KeepFault;
use merge_types::Moment;

/// Works a request out and puts it in place.
pub fn handle<P: DraftingPublisher>(
    publisher: &mut P,
    now: Moment,
    request: &Request,
) -> Result<Reply, Refusal>
    ensures called { Called (result_of_request (P.view publisher.old).publication (P.view publisher.old).says (P.view publisher.old).tallies now request.now (P.view publisher.old).tables)
        (request_commits (P.view publisher.old).publication now request.now (P.view publisher.old).tables) (P.view publisher.old).tables (P.view publisher.new).tables (P.view publisher.old).faults (P.view publisher.new).faults result }
    ensures counted { Counted (result_of_request (P.view publisher.old).publication (P.view publisher.old).says (P.view publisher.old).tallies now request.now (P.view publisher.old).tables)
        (questions_on (P.view publisher.old).publication now request.now (P.view publisher.old).tables) (P.view publisher.old).tallies (P.view publisher.new).tallies result }
    ensures steady { (k n : ℕ) (asked : _) → (P.view publisher.new).says k n asked ≡ (P.view publisher.old).says k n asked }
    ensures publication { (P.view publisher.new).publication ≡ (P.view publisher.old).publication }
{
    let Drafted {
        work,
        reply,
        decisions: _,
    } = publisher.draft(now, request)?;
    match publisher.settle(work) {
        Ok(()) => Ok(reply),
        Err(KeepFault::Failed) => Err(Refusal::StoreFault),
        Err(KeepFault::NoMemory) => Err(Refusal::NoMemory),
    }
}
