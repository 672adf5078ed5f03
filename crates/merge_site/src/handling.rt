//! The publisher answers the requests of sites.
ghost use Rattle.std.specs.List.{list_any};
ghost use Rattle.std.specs.Prelude.{◌≡◌, ◌≤◌, ◌+◌, ◌||◌, ℕ, IfOk, map};
ghost use Rattle.merge_batch.specs.declared.request.Request.TheVariants.{Download as a_download, Join as a_join, Ranges as a_range_ask, Upload as an_upload};
ghost use Rattle.merge_model.specs.Judge.ByNumbers.{by_numbers};
ghost use Rattle.merge_model.specs.Laws.{AreSorted};
ghost use Rattle.merge_model.specs.World.Calls.{Counted, is_later, is_new_grant, questions_on, request_commits, result_of_request};
ghost use Rattle.merge_model.specs.Publisher.PublisherDownload.{download};
ghost use Rattle.merge_model.specs.Publisher.PublisherJoin.{join};
ghost use Rattle.merge_model.specs.Publisher.PublisherRanges.{ranges};
ghost use Rattle.merge_pub.specs.Held.{tables_of};
ghost use Rattle.merge_pub.specs.Uploaded.{asked_on, upload_by};
ghost use Rattle.merge_resolve.specs.Asked.{says_at};
ghost use Rattle.merge_site.specs.Evaluations.{most_evaluations};
ghost use Rattle.merge_site.specs.Publishers.{told_alone};
ghost use Rattle.merge_world.specs.Views.{PublisherCall};

use crate::publisher::KeptPublisher;
use crate::publisher_commit::finish;
use merge_batch::{
    Download, Downloaded, Join, Joined, RangeAsk, Ranged, Refusal, Reply, Request, Upload, Uploaded,
};
use merge_ports::Keeper;
use merge_pub::{Publisher, UploadDraft};
use merge_resolve::Handed;
use merge_steps::Draft;
use merge_types::{Moment, Steps};
use std::marker::Brand;
use std::sync::ledger::{Blank, Ledger};

/// Whether a request for ranges changes a record, where it was worked out.
pub(crate) fn ranges_commit(
    publisher: &Publisher,
    now: Moment,
    worked: &Result<(Draft, Ranged), Refusal>,
) -> bool
    ensures { IfOk worked.now (λ made. result ≡ (is_later now (tables_of publisher.now).latest || list_any (λ plan. is_new_grant plan.answer) made.0.changes.grants)) }
{
    match worked {
        Ok((draft, _)) => publisher.commits_ranges(now, draft),
        Err(_) => false,
    }
}

// An upload that was worked out, with what is told to the site. What was decided is not needed.
fn told_alone(drafted: Result<UploadDraft, Refusal>) -> Result<(Draft, Uploaded), Refusal>
    ensures { result ≡ told_alone drafted }
{
    match drafted {
        Ok(drafted) => Ok((drafted.draft, drafted.told)),
        Err(why) => Err(why),
    }
}

impl<K: Keeper> KeptPublisher<K> {
    // A site joins.
    fn handle_join(&mut self, now: Moment, m: &Join) -> Result<Joined, Refusal>
        ensures called { PublisherCall (join self.old.publication now m.now self.old.tables) (request_commits self.old.publication now (a_join m.now) self.old.tables) self.old self.new result }
        ensures publication { self.new.publication ≡ self.old.publication }
    {
        self.publisher.sorted();
        let commits = self.publisher.commits_join(now, m);
        let worked = self.publisher.draft_join(now, m);
        finish(
            self.alloc,
            &mut self.keeper,
            &mut self.publisher,
            worked,
            commits,
        )
    }

    // A site asks for identity ranges.
    fn handle_ranges(&mut self, now: Moment, m: &RangeAsk) -> Result<Ranged, Refusal>
        ensures called { PublisherCall (ranges self.old.publication (by_numbers self.old.tables) now m.now self.old.tables) (request_commits self.old.publication now (a_range_ask m.now) self.old.tables) self.old self.new result }
        ensures publication { self.new.publication ≡ self.old.publication }
    {
        self.publisher.sorted();
        let worked = self.publisher.draft_ranges(now, m);
        let commits = ranges_commit(&self.publisher, now, &worked);
        finish(
            self.alloc,
            &mut self.keeper,
            &mut self.publisher,
            worked,
            commits,
        )
    }

    // A site asks for the rows that were touched.
    fn handle_download(&mut self, now: Moment, m: &Download) -> Result<Downloaded, Refusal>
        ensures called { PublisherCall (download self.old.publication (by_numbers self.old.tables) now m.now self.old.tables) (request_commits self.old.publication now (a_download m.now) self.old.tables) self.old self.new result }
        ensures publication { self.new.publication ≡ self.old.publication }
    {
        self.publisher.sorted();
        let commits = self.publisher.commits_download(now, m);
        let worked = self.publisher.draft_download(now, m);
        finish(
            self.alloc,
            &mut self.keeper,
            &mut self.publisher,
            worked,
            commits,
        )
    }

    // That the lists ascend. It is a fact for proofs, and does nothing.
    fn sorted(&self)
        ensures { AreSorted self.now.tables }
    {
        self.publisher.sorted();
    }

    // A site uploads rows. The counter counts the evaluations of filters. Without a condition this
    // would be taken for a function that makes resolvers.
    fn handle_upload<L: Ledger>(
        &mut self,
        resolvers: &mut Vec<Handed>,
        now: Moment,
        m: &Upload,
        steps: &mut Steps<L>,
    ) -> Result<Uploaded, Refusal>
        requires { AreSorted self.old.tables }
        ensures called { PublisherCall (upload_by self.old.publication (says_at (λ r. says r) resolvers.old.items) (map (λ r. tally_of r) resolvers.old.items) now m.now self.old.tables) (request_commits self.old.publication now (an_upload m.now) self.old.tables) self.old self.new result }
        ensures counted { Counted (upload_by self.old.publication (says_at (λ r. says r) resolvers.old.items) (map (λ r. tally_of r) resolvers.old.items) now m.now self.old.tables)
            (asked_on self.old.publication now m.now self.old.tables) (map (λ r. tally_of r) resolvers.old.items) (map (λ r. tally_of r) resolvers.new.items) result }
        ensures publication { self.new.publication ≡ self.old.publication }
        ensures steady { (k n : ℕ) (asked : _) → says_at (λ r. says r) resolvers.new.items k n asked ≡ says_at (λ r. says r) resolvers.old.items k n asked }
        ensures cost { steps.new ≤ steps.old + most_evaluations self.old.publication (an_upload m.now) }
    {
        let commits = self.publisher.commits_upload(now, m);
        let drafted = self.publisher.draft_upload(resolvers, now, m, steps);
        let worked = told_alone(drafted);
        finish(
            self.alloc,
            &mut self.keeper,
            &mut self.publisher,
            worked,
            commits,
        )
    }

    /// Answers a request, with the decisions of the resolvers on its conflicts.
    pub fn handle(
        &mut self,
        resolvers: &mut Vec<Handed>,
        now: Moment,
        request: &Request,
    ) -> Result<Reply, Refusal>
        ensures called { PublisherCall (result_of_request self.old.publication (says_at (λ r. says r) resolvers.old.items) (map (λ r. tally_of r) resolvers.old.items) now request.now self.old.tables)
            (request_commits self.old.publication now request.now self.old.tables) self.old self.new result }
        ensures counted { Counted (result_of_request self.old.publication (says_at (λ r. says r) resolvers.old.items) (map (λ r. tally_of r) resolvers.old.items) now request.now self.old.tables)
            (questions_on self.old.publication now request.now self.old.tables) (map (λ r. tally_of r) resolvers.old.items) (map (λ r. tally_of r) resolvers.new.items) result }
        ensures publication { self.new.publication ≡ self.old.publication }
        ensures steady { (k n : ℕ) (asked : _) → says_at (λ r. says r) resolvers.new.items k n asked ≡ says_at (λ r. says r) resolvers.old.items k n asked }
    {
        self.handle_in_ledger::<Brand>(resolvers, now, request, Blank::new(1))
    }

    // The same, with a counter in the ledger that the blank opens.
    fn handle_in_ledger<L: Ledger>(
        &mut self,
        resolvers: &mut Vec<Handed>,
        now: Moment,
        request: &Request,
        blank: Blank,
    ) -> Result<Reply, Refusal>
        requires name { blank.name ≡ L.name }
        requires parts { blank.parts ≡ L.parts }
        requires some { 1 ≤ blank.parts }
        ensures called { PublisherCall (result_of_request self.old.publication (says_at (λ r. says r) resolvers.old.items) (map (λ r. tally_of r) resolvers.old.items) now request.now self.old.tables)
            (request_commits self.old.publication now request.now self.old.tables) self.old self.new result }
        ensures counted { Counted (result_of_request self.old.publication (says_at (λ r. says r) resolvers.old.items) (map (λ r. tally_of r) resolvers.old.items) now request.now self.old.tables)
            (questions_on self.old.publication now request.now self.old.tables) (map (λ r. tally_of r) resolvers.old.items) (map (λ r. tally_of r) resolvers.new.items) result }
        ensures publication { self.new.publication ≡ self.old.publication }
        ensures steady { (k n : ℕ) (asked : _) → says_at (λ r. says r) resolvers.new.items k n asked ≡ says_at (λ r. says r) resolvers.old.items k n asked }
    {
        let mut steps = Steps::<L>::new(blank);
        self.handle_in_steps(resolvers, now, request, &mut steps)
    }

    /// The same, and the caller's counter counts the evaluations of filters: of an upload one for
    /// each subscription and each of its items, at most, and of other requests none.
    pub fn handle_in_steps<L: Ledger>(
        &mut self,
        resolvers: &mut Vec<Handed>,
        now: Moment,
        request: &Request,
        steps: &mut Steps<L>,
    ) -> Result<Reply, Refusal>
        ensures called { PublisherCall (result_of_request self.old.publication (says_at (λ r. says r) resolvers.old.items) (map (λ r. tally_of r) resolvers.old.items) now request.now self.old.tables)
            (request_commits self.old.publication now request.now self.old.tables) self.old self.new result }
        ensures counted { Counted (result_of_request self.old.publication (says_at (λ r. says r) resolvers.old.items) (map (λ r. tally_of r) resolvers.old.items) now request.now self.old.tables)
            (questions_on self.old.publication now request.now self.old.tables) (map (λ r. tally_of r) resolvers.old.items) (map (λ r. tally_of r) resolvers.new.items) result }
        ensures publication { self.new.publication ≡ self.old.publication }
        ensures steady { (k n : ℕ) (asked : _) → says_at (λ r. says r) resolvers.new.items k n asked ≡ says_at (λ r. says r) resolvers.old.items k n asked }
        ensures cost { steps.new ≤ steps.old + most_evaluations self.old.publication request.now }
    {
        match request {
            Request::Join(m) => Ok(Reply::Joined(self.handle_join(now, m)?)),
            Request::Upload(m) => {
                self.sorted();
                let told = self.handle_upload(resolvers, now, m, steps)?;
                Ok(Reply::Uploaded(told))
            }
            Request::Ranges(m) => Ok(Reply::Ranged(self.handle_ranges(now, m)?)),
            Request::Download(m) => Ok(Reply::Downloaded(self.handle_download(now, m)?)),
        }
    }
}
