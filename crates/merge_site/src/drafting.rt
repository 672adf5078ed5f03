//! A request of a site is worked out at the publisher, with what its commit needs to know.
ghost use Rattle.std.specs.Prelude.{◌≡◌, ◌≤◌, ◌+◌, ℕ, [], Err, IfOk, OnOk, map, take};
ghost use Rattle.merge_batch.specs.declared.refusal.Refusal.{Refusal as OneRefusal};
ghost use Rattle.merge_batch.specs.declared.reply.Reply.TheVariants as a_reply;
ghost use Rattle.merge_batch.specs.declared.request.Request.TheVariants.{Download as a_download, Join as a_join, Ranges as a_range_ask, Upload as an_upload};
ghost use Rattle.merge_draft.specs.Drafting.{decisions_on};
ghost use Rattle.merge_model.specs.Laws.{AreSorted};
ghost use Rattle.merge_model.specs.World.Calls.{questions_on, request_commits, result_of_request};
ghost use Rattle.merge_model.specs.World.{Saying};
ghost use Rattle.merge_pub.specs.Held.{publication_of, tables_of};
ghost use Rattle.merge_resolve.specs.Asked.{says_at, tallies_after};
ghost use Rattle.merge_site.specs.Drafting.{IsFit, IsWorked, drafted_as, upload_drafted};
ghost use Rattle.merge_site.specs.Evaluations.{most_evaluations};
ghost use Rattle.merge_world.specs.Printable.{ArePrintable};

use crate::handling::ranges_commit;
use crate::request_draft::RequestDraft;
use merge_batch::{
    Download, Downloaded, Join, Joined, RangeAsk, Ranged, Refusal, Reply, Request, Upload,
};
use merge_draft::Drafted;
use merge_pub::{Publisher, UploadDraft};
use merge_resolve::Handed;
use merge_steps::Draft;
use merge_types::{Listing, Moment, Steps};
use std::alloc::Global;
use std::sync::ledger::Ledger;

// A join that was worked out. It has no conflicts.
fn join_drafted(
    alloc: Global,
    worked: Result<(Draft, Joined), Refusal>,
    commits: bool,
) -> Result<Drafted<RequestDraft>, Refusal>
    ensures { result ≡ drafted_as (λ told. a_reply.Joined told) commits worked }
{
    match worked {
        Ok((draft, told)) => Ok(Drafted {
            work: RequestDraft { draft, commits },
            reply: Reply::Joined(told),
            decisions: Listing::empty(alloc),
        }),
        Err(why) => Err(why),
    }
}

// A request for ranges that was worked out. It has no conflicts.
fn ranges_drafted(
    alloc: Global,
    worked: Result<(Draft, Ranged), Refusal>,
    commits: bool,
) -> Result<Drafted<RequestDraft>, Refusal>
    ensures { result ≡ drafted_as (λ told. a_reply.Ranged told) commits worked }
{
    match worked {
        Ok((draft, told)) => Ok(Drafted {
            work: RequestDraft { draft, commits },
            reply: Reply::Ranged(told),
            decisions: Listing::empty(alloc),
        }),
        Err(why) => Err(why),
    }
}

// A request for a download that was worked out. It has no conflicts.
fn download_drafted(
    alloc: Global,
    worked: Result<(Draft, Downloaded), Refusal>,
    commits: bool,
) -> Result<Drafted<RequestDraft>, Refusal>
    ensures { result ≡ drafted_as (λ told. a_reply.Downloaded told) commits worked }
{
    match worked {
        Ok((draft, told)) => Ok(Drafted {
            work: RequestDraft { draft, commits },
            reply: Reply::Downloaded(told),
            decisions: Listing::empty(alloc),
        }),
        Err(why) => Err(why),
    }
}

// An upload that was worked out, with what was decided on its conflicts.
fn upload_drafted(
    worked: Result<UploadDraft, Refusal>,
    commits: bool,
) -> Result<Drafted<RequestDraft>, Refusal>
    ensures { result ≡ upload_drafted commits worked }
{
    match worked {
        Ok(upload) => Ok(Drafted {
            work: RequestDraft {
                draft: upload.draft,
                commits,
            },
            reply: Reply::Uploaded(upload.told),
            decisions: upload.decisions,
        }),
        Err(why) => Err(why),
    }
}

// A site joins.
fn draft_join(
    alloc: Global,
    publisher: &mut Publisher,
    now: Moment,
    m: &Join,
) -> Result<Drafted<RequestDraft>, Refusal>
    ensures worked { (says : Saying) (tallies : _) → IsWorked (result_of_request (publication_of publisher.old) says tallies now (a_join m.now) (tables_of publisher.old)) [] (request_commits (publication_of publisher.old) now (a_join m.now) (tables_of publisher.old)) (tables_of publisher.old) result }
    ensures ready { IfOk result (λ d. IsFit publisher.new d.work) }
    ensures same { tables_of publisher.new ≡ tables_of publisher.old }
    ensures publication { publication_of publisher.new ≡ publication_of publisher.old }
{
    publisher.sorted();
    let commits = publisher.commits_join(now, m);
    let worked = publisher.draft_join(now, m);
    join_drafted(alloc, worked, commits)
}

// A site asks for identity ranges.
fn draft_ranges(
    alloc: Global,
    publisher: &mut Publisher,
    now: Moment,
    m: &RangeAsk,
) -> Result<Drafted<RequestDraft>, Refusal>
    ensures worked { (says : Saying) (tallies : _) → IsWorked (result_of_request (publication_of publisher.old) says tallies now (a_range_ask m.now) (tables_of publisher.old)) [] (request_commits (publication_of publisher.old) now (a_range_ask m.now) (tables_of publisher.old)) (tables_of publisher.old) result }
    ensures ready { IfOk result (λ d. IsFit publisher.new d.work) }
    ensures same { tables_of publisher.new ≡ tables_of publisher.old }
    ensures publication { publication_of publisher.new ≡ publication_of publisher.old }
{
    publisher.sorted();
    let worked = publisher.draft_ranges(now, m);
    let commits = ranges_commit(publisher, now, &worked);
    ranges_drafted(alloc, worked, commits)
}

// A site asks for the rows that were touched.
fn draft_download(
    alloc: Global,
    publisher: &mut Publisher,
    now: Moment,
    m: &Download,
) -> Result<Drafted<RequestDraft>, Refusal>
    requires { ArePrintable (λ row. row.version) (tables_of publisher.old).rows }
    ensures worked { (says : Saying) (tallies : _) → IsWorked (result_of_request (publication_of publisher.old) says tallies now (a_download m.now) (tables_of publisher.old)) [] (request_commits (publication_of publisher.old) now (a_download m.now) (tables_of publisher.old)) (tables_of publisher.old) result }
    ensures ready { IfOk result (λ d. IsFit publisher.new d.work) }
    ensures same { tables_of publisher.new ≡ tables_of publisher.old }
    ensures publication { publication_of publisher.new ≡ publication_of publisher.old }
{
    publisher.sorted();
    let commits = publisher.commits_download(now, m);
    let worked = publisher.draft_download(now, m);
    download_drafted(alloc, worked, commits)
}

// A site uploads rows. The counter counts the evaluations of filters. Without a condition this would
// be taken for a function that makes resolvers.
fn draft_upload<L: Ledger>(
    publisher: &mut Publisher,
    resolvers: &mut Vec<Handed>,
    now: Moment,
    m: &Upload,
    steps: &mut Steps<L>,
) -> Result<Drafted<RequestDraft>, Refusal>
    requires { AreSorted (tables_of publisher.old) }
    ensures worked { IsWorked (result_of_request (publication_of publisher.old) (says_at (λ r. says r) resolvers.old.items) (map (λ r. tally_of r) resolvers.old.items) now (an_upload m.now) (tables_of publisher.old)) (decisions_on (publication_of publisher.old) (says_at (λ r. says r) resolvers.old.items) (map (λ r. tally_of r) resolvers.old.items) now (an_upload m.now) (tables_of publisher.old)) (request_commits (publication_of publisher.old) now (an_upload m.now) (tables_of publisher.old)) (tables_of publisher.old) result }
    ensures asked { OnOk result (map (λ r. tally_of r) resolvers.new.items ≡ tallies_after (map (λ r. tally_of r) resolvers.old.items) (questions_on (publication_of publisher.old) now (an_upload m.now) (tables_of publisher.old))) }
    ensures some { (n : ℕ) × (map (λ r. tally_of r) resolvers.new.items ≡ tallies_after (map (λ r. tally_of r) resolvers.old.items) (take n (questions_on (publication_of publisher.old) now (an_upload m.now) (tables_of publisher.old)))) }
    ensures none { (refusal : OneRefusal) → result_of_request (publication_of publisher.old) (says_at (λ r. says r) resolvers.old.items) (map (λ r. tally_of r) resolvers.old.items) now (an_upload m.now) (tables_of publisher.old) ≡ Err refusal → map (λ r. tally_of r) resolvers.new.items ≡ map (λ r. tally_of r) resolvers.old.items }
    ensures steady { (k n : ℕ) (asked : _) → says_at (λ r. says r) resolvers.new.items k n asked ≡ says_at (λ r. says r) resolvers.old.items k n asked }
    ensures ready { IfOk result (λ d. IsFit publisher.new d.work) }
    ensures same { tables_of publisher.new ≡ tables_of publisher.old }
    ensures publication { publication_of publisher.new ≡ publication_of publisher.old }
    ensures cost { steps.new ≤ steps.old + most_evaluations (publication_of publisher.old) (an_upload m.now) }
{
    let commits = publisher.commits_upload(now, m);
    let worked = publisher.draft_upload(resolvers, now, m, steps);
    upload_drafted(worked, commits)
}

/// Works a request out, with the decisions of the resolvers on its conflicts. The publisher's rows
/// can all be printed, and so can those of the reply. The counter counts the evaluations of filters.
pub(crate) fn draft_request<L: Ledger>(
    alloc: Global,
    publisher: &mut Publisher,
    resolvers: &mut Vec<Handed>,
    now: Moment,
    request: &Request,
    steps: &mut Steps<L>,
) -> Result<Drafted<RequestDraft>, Refusal>
    requires { ArePrintable (λ row. row.version) (tables_of publisher.old).rows }
    ensures worked { IsWorked (result_of_request (publication_of publisher.old) (says_at (λ r. says r) resolvers.old.items) (map (λ r. tally_of r) resolvers.old.items) now request.now (tables_of publisher.old)) (decisions_on (publication_of publisher.old) (says_at (λ r. says r) resolvers.old.items) (map (λ r. tally_of r) resolvers.old.items) now request.now (tables_of publisher.old)) (request_commits (publication_of publisher.old) now request.now (tables_of publisher.old)) (tables_of publisher.old) result }
    ensures asked { OnOk result (map (λ r. tally_of r) resolvers.new.items ≡ tallies_after (map (λ r. tally_of r) resolvers.old.items) (questions_on (publication_of publisher.old) now request.now (tables_of publisher.old))) }
    ensures some { (n : ℕ) × (map (λ r. tally_of r) resolvers.new.items ≡ tallies_after (map (λ r. tally_of r) resolvers.old.items) (take n (questions_on (publication_of publisher.old) now request.now (tables_of publisher.old)))) }
    ensures none { (refusal : OneRefusal) → result_of_request (publication_of publisher.old) (says_at (λ r. says r) resolvers.old.items) (map (λ r. tally_of r) resolvers.old.items) now request.now (tables_of publisher.old) ≡ Err refusal → map (λ r. tally_of r) resolvers.new.items ≡ map (λ r. tally_of r) resolvers.old.items }
    ensures steady { (k n : ℕ) (asked : _) → says_at (λ r. says r) resolvers.new.items k n asked ≡ says_at (λ r. says r) resolvers.old.items k n asked }
    ensures ready { IfOk result (λ d. IsFit publisher.new d.work) }
    ensures same { tables_of publisher.new ≡ tables_of publisher.old }
    ensures publication { publication_of publisher.new ≡ publication_of publisher.old }
    ensures cost { steps.new ≤ steps.old + most_evaluations (publication_of publisher.old) request.now }
{
    match request {
        Request::Join(m) => draft_join(alloc, publisher, now, m),
        Request::Upload(m) => {
            publisher.sorted();
            draft_upload(publisher, resolvers, now, m, steps)
        }
        Request::Ranges(m) => draft_ranges(alloc, publisher, now, m),
        Request::Download(m) => draft_download(alloc, publisher, now, m),
    }
}
