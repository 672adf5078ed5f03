//! A publisher that holds its resolvers, and answers a request in two calls.
use crate::held_publisher::HeldPublisher;
use crate::publisher::KeptPublisher;
use crate::request_draft::RequestDraft;
use merge_batch::{Refusal, Request};
use merge_draft::{Drafted, DraftingPublisher};
use merge_ports::{KeepFault, Keeper};
use merge_resolve::{Handed, Resolver};
use merge_types::{Moment, Steps};
use std::marker::Brand;
use std::sync::ledger::{Blank, Ledger};

/// A kept publisher with its resolvers.
#[derive(Drop)]
pub struct DraftingSite<K: Keeper> {
    site: HeldPublisher<K>,
    resolvers: Vec<Handed>,
}

impl<K: Keeper> DraftingSite<K> {
    ghost use Rattle.std.specs.Prelude.{◌≡◌, ◌≤◌, ◌+◌, IfOk, map, ℕ};
    ghost use Rattle.merge_pub.specs.Held.{publication_of, tables_of};
    ghost use Rattle.merge_resolve.specs.Asked.{says_at};
    ghost use Rattle.merge_site.specs.Drafting.{IsFit, IsRequestDrafted};
    ghost use Rattle.merge_site.specs.Evaluations.{most_evaluations};
    ghost use Rattle.merge_site.specs.Publishers.{IsKeptPublisher};

    /// Of a kept publisher and the resolvers that decide its conflicts, by their places.
    pub fn new(site: KeptPublisher<K>, resolvers: Vec<Handed>) -> DraftingSite<K>
        ensures publication { publication_of result.site.held ≡ site.publication }
        ensures tables { tables_of result.site.held ≡ site.tables }
        ensures faults { result.site.faults ≡ site.faults }
        ensures resolvers { result.resolvers ≡ resolvers }
    {
        DraftingSite {
            site: HeldPublisher::of(site),
            resolvers,
        }
    }

    /// Stops the site, and gives its keeper back with the records of its tables.
    pub fn into_keeper(self) -> K
        ensures kept { IsKeptPublisher (tables_of self.site.held) (K.told result) }
        ensures faults { K.count result ≡ self.site.faults }
    {
        self.site.into_keeper()
    }

    // Works a request out, with a counter in the ledger that the blank opens.
    fn draft_in_ledger<L: Ledger>(
        &mut self,
        now: Moment,
        request: &Request,
        blank: Blank,
    ) -> Result<Drafted<RequestDraft>, Refusal>
        requires name { blank.name ≡ L.name }
        requires parts { blank.parts ≡ L.parts }
        requires some { 1 ≤ blank.parts }
        ensures drafted { IsRequestDrafted (publication_of self.old.site.held) (says_at (λ r. (Resolver-box r).says r.value) self.old.resolvers.items) (map (λ r. (Resolver-box r).tally_of r.value) self.old.resolvers.items) (map (λ r. (Resolver-box r).tally_of r.value) self.new.resolvers.items) now request.now (tables_of self.old.site.held) result }
        ensures steady { (k n : ℕ) (asked : _) → says_at (λ r. (Resolver-box r).says r.value) self.new.resolvers.items k n asked ≡ says_at (λ r. (Resolver-box r).says r.value) self.old.resolvers.items k n asked }
        ensures ready { IfOk result (λ d. IsFit self.new.site.held d.work) }
        ensures same { tables_of self.new.site.held ≡ tables_of self.old.site.held }
        ensures publication { publication_of self.new.site.held ≡ publication_of self.old.site.held }
        ensures faults { self.new.site.faults ≡ self.old.site.faults }
    {
        let mut steps = Steps::<L>::new(blank);
        self.draft_in_steps(now, request, &mut steps)
    }

    /// Works a request out, as `draft` of `DraftingPublisher` does, and the caller's counter counts
    /// the evaluations of filters: of an upload one for each subscription and each of its items, at
    /// most, and of other requests none.
    pub fn draft_in_steps<L: Ledger>(
        &mut self,
        now: Moment,
        request: &Request,
        steps: &mut Steps<L>,
    ) -> Result<Drafted<RequestDraft>, Refusal>
        ensures drafted { IsRequestDrafted (publication_of self.old.site.held) (says_at (λ r. (Resolver-box r).says r.value) self.old.resolvers.items) (map (λ r. (Resolver-box r).tally_of r.value) self.old.resolvers.items) (map (λ r. (Resolver-box r).tally_of r.value) self.new.resolvers.items) now request.now (tables_of self.old.site.held) result }
        ensures steady { (k n : ℕ) (asked : _) → says_at (λ r. (Resolver-box r).says r.value) self.new.resolvers.items k n asked ≡ says_at (λ r. (Resolver-box r).says r.value) self.old.resolvers.items k n asked }
        ensures ready { IfOk result (λ d. IsFit self.new.site.held d.work) }
        ensures same { tables_of self.new.site.held ≡ tables_of self.old.site.held }
        ensures publication { publication_of self.new.site.held ≡ publication_of self.old.site.held }
        ensures faults { self.new.site.faults ≡ self.old.site.faults }
        ensures cost { steps.new ≤ steps.old + most_evaluations (publication_of self.old.site.held) request.now }
    {
        self.site.draft(&mut self.resolvers, now, request, steps)
    }
}

impl<K: Keeper> DraftingPublisher for DraftingSite<K> {
    ghost use Rattle.std.specs.Prelude.{◌≡◌, ◌≤◌, ◌+◌, Err, IsOk, OnErr, OnOk, false, map, true, ℕ};
    ghost use Rattle.merge_ports.specs.declared.keeper.KeepFault.TheVariants.{Failed, NoMemory};
    ghost use Rattle.merge_pub.specs.After.{after};
    ghost use Rattle.merge_pub.specs.Held.{publication_of, tables_of};
    ghost use Rattle.merge_resolve.specs.Asked.{says_at};
    ghost use Rattle.merge_site.specs.Drafting.{IsFit};

    type Work = RequestDraft;

    ghost view = { λ s. record { publication = publication_of s.site.held; tables = tables_of s.site.held; faults = s.site.faults; says = says_at (λ r. (Resolver-box r).says r.value) s.resolvers.items; tallies = map (λ r. (Resolver-box r).tally_of r.value) s.resolvers.items } };

    ghost after = { λ work p. after work.draft.changes p };

    ghost commits = { λ work. work.commits };

    ghost IsReady = { λ s work. IsFit s.site.held work };

    fn draft(&mut self, now: Moment, request: &Request) -> Result<Drafted<RequestDraft>, Refusal> {
        self.draft_in_ledger::<Brand>(now, request, Blank::new(1))
    }

    // The clauses of the trait, written out: where a condition of a method stands in its trait alone,
    // no crate above may pass this publisher on from a function that takes resolvers.
    fn settle(&mut self, work: RequestDraft) -> Result<(), KeepFault>
        requires { IsFit self.old.site.held work }
        ensures ok { OnOk result (tables_of self.new.site.held ≡ after work.draft.changes (tables_of self.old.site.held)) }
        ensures err { OnErr result (tables_of self.new.site.held ≡ tables_of self.old.site.held) }
        ensures later { self.old.site.faults ≤ self.new.site.faults }
        ensures fault { result ≡ Err Failed → (self.old.site.faults + 1 ≤ self.new.site.faults) × (work.commits ≡ true) }
        ensures count { OnOk result (self.new.site.faults ≡ self.old.site.faults) }
        ensures starved { result ≡ Err NoMemory → self.new.site.faults ≡ self.old.site.faults }
        ensures tallies { map (λ r. (Resolver-box r).tally_of r.value) self.new.resolvers.items ≡ map (λ r. (Resolver-box r).tally_of r.value) self.old.resolvers.items }
        ensures steady { (k n : ℕ) (asked : _) → says_at (λ r. (Resolver-box r).says r.value) self.new.resolvers.items k n asked ≡ says_at (λ r. (Resolver-box r).says r.value) self.old.resolvers.items k n asked }
        ensures publication { publication_of self.new.site.held ≡ publication_of self.old.site.held }
        ensures nothing { work.commits ≡ false → IsOk result }
    {
        self.site.settle(work)
    }

    fn faults(&self) -> u64 {
        self.site.faults()
    }
}
