//! A kept publisher that shows all that it holds, so that contracts can say which drafts fit it.
ghost use Rattle.std.specs.Prelude.{◌≡◌, ◌≢◌, ◌≤◌, ◌+◌, ℕ, Err, IfOk, IsOk, OnErr, OnOk, false, map, true};
ghost use Rattle.merge_batch.specs.declared.refusal.Refusal.TheVariants.{StoreFault as store_fault};
ghost use Rattle.merge_ports.specs.declared.keeper.KeepFault.TheVariants.{Failed, NoMemory};
ghost use Rattle.merge_pub.specs.After.{after};
ghost use Rattle.merge_pub.specs.Held.{IsDrafted, publication_of, tables_of};
ghost use Rattle.merge_resolve.specs.Asked.{says_at};
ghost use Rattle.merge_site.specs.Drafting.{IsFit, IsRequestDrafted};
ghost use Rattle.merge_site.specs.Evaluations.{most_evaluations};
ghost use Rattle.merge_site.specs.Publishers.{IsKeptPublisher};

use crate::drafting::draft_request;
use crate::publisher::KeptPublisher;
use crate::publisher_commit::commit_and_settle;
use crate::request_draft::RequestDraft;
use merge_batch::{Refusal, Request};
use merge_draft::Drafted;
use merge_ports::{KeepFault, Keeper};
use merge_pub::Publisher;
use merge_resolve::Handed;
use merge_steps::Draft;
use merge_types::{Moment, Steps};
use std::alloc::Global;
use std::marker::Model;
use std::sync::ledger::Ledger;

/// A publisher with a keeper of its records, of which contracts see all that it holds.
#[derive(Drop)]
pub(crate) struct HeldPublisher<K: Keeper> {
    alloc: Global,
    keeper: K,
    publisher: Publisher,
}

impl<K: Keeper> Model for HeldPublisher<K> {
    ghost use Rattle.std.specs.Coded.{codes};
    ghost use Rattle.merge_part.specs.View.{filter_code};
    ghost use Rattle.merge_gens.specs.Index.{index_code};
    ghost use Rattle.merge_pub.specs.Held.{tables_of};
    ghost use Rattle.merge_site.specs.Drafting.{HeldView};
    ghost use Rattle.merge_site.specs.Publishers.{IsKeptPublisher};

    ghost Value = { HeldView };

    ghost coded = { Prim.hlevel (codes, filter_code, index_code) };

    ghost view = { λ p. record { held = p.publisher; faults = K.count p.keeper } };

    ghost invariant = { λ p. IsKeptPublisher (tables_of p.publisher) (K.told p.keeper) };
}

// Why a commit was not made.
fn fault_of(why: Refusal) -> KeepFault
    ensures failed { result ≡ Failed → why ≡ store_fault }
    ensures starved { result ≡ NoMemory → why ≢ store_fault }
{
    match why {
        Refusal::StoreFault => KeepFault::Failed,
        _ => KeepFault::NoMemory,
    }
}

impl<K: Keeper> HeldPublisher<K> {
    /// Of a kept publisher.
    pub(crate) fn of(site: KeptPublisher<K>) -> HeldPublisher<K>
        ensures publication { publication_of result.held ≡ site.publication }
        ensures tables { tables_of result.held ≡ site.tables }
        ensures faults { result.faults ≡ site.faults }
    {
        let KeptPublisher {
            alloc,
            keeper,
            publisher,
        } = site;
        HeldPublisher {
            alloc,
            keeper,
            publisher,
        }
    }

    /// The keeper, which has the records of the tables.
    pub(crate) fn into_keeper(self) -> K
        ensures kept { IsKeptPublisher (tables_of self.held) (K.told result) }
        ensures faults { K.count result ≡ self.faults }
    {
        self.keeper
    }

    /// Works a request out, with the decisions of the resolvers on its conflicts. The counter counts
    /// the evaluations of filters.
    pub(crate) fn draft<L: Ledger>(
        &mut self,
        resolvers: &mut Vec<Handed>,
        now: Moment,
        request: &Request,
        steps: &mut Steps<L>,
    ) -> Result<Drafted<RequestDraft>, Refusal>
        ensures drafted { IsRequestDrafted (publication_of self.old.held) (says_at (λ r. says r) resolvers.old.items) (map (λ r. tally_of r) resolvers.old.items) (map (λ r. tally_of r) resolvers.new.items) now request.now (tables_of self.old.held) result }
        ensures steady { (k n : ℕ) (asked : _) → says_at (λ r. says r) resolvers.new.items k n asked ≡ says_at (λ r. says r) resolvers.old.items k n asked }
        ensures ready { IfOk result (λ d. IsFit self.new.held d.work) }
        ensures same { tables_of self.new.held ≡ tables_of self.old.held }
        ensures publication { publication_of self.new.held ≡ publication_of self.old.held }
        ensures faults { self.new.faults ≡ self.old.faults }
        ensures cost { steps.new ≤ steps.old + most_evaluations (publication_of self.old.held) request.now }
    {
        draft_request(
            self.alloc,
            &mut self.publisher,
            resolvers,
            now,
            request,
            steps,
        )
    }

    // Commits a draft, and puts it in place.
    fn commit(&mut self, draft: Draft) -> Result<(), KeepFault>
        requires { IsDrafted self.old.held draft }
        ensures ok { OnOk result (tables_of self.new.held ≡ after draft.changes (tables_of self.old.held)) }
        ensures err { OnErr result (tables_of self.new.held ≡ tables_of self.old.held) }
        ensures later { self.old.faults ≤ self.new.faults }
        ensures fault { result ≡ Err Failed → self.old.faults + 1 ≤ self.new.faults }
        ensures count { OnOk result (self.new.faults ≡ self.old.faults) }
        ensures starved { result ≡ Err NoMemory → self.new.faults ≡ self.old.faults }
        ensures publication { publication_of self.new.held ≡ publication_of self.old.held }
    {
        match commit_and_settle(self.alloc, &mut self.keeper, &mut self.publisher, draft) {
            Ok(()) => Ok(()),
            Err(why) => Err(fault_of(why)),
        }
    }

    /// Commits what was worked out where it changes a record, and puts it in place.
    pub(crate) fn settle(&mut self, work: RequestDraft) -> Result<(), KeepFault>
        requires { IsFit self.old.held work }
        ensures ok { OnOk result (tables_of self.new.held ≡ after work.draft.changes (tables_of self.old.held)) }
        ensures err { OnErr result (tables_of self.new.held ≡ tables_of self.old.held) }
        ensures later { self.old.faults ≤ self.new.faults }
        ensures fault { result ≡ Err Failed → (self.old.faults + 1 ≤ self.new.faults) × (work.commits ≡ true) }
        ensures count { OnOk result (self.new.faults ≡ self.old.faults) }
        ensures starved { result ≡ Err NoMemory → self.new.faults ≡ self.old.faults }
        ensures publication { publication_of self.new.held ≡ publication_of self.old.held }

        // What commits nothing is not refused.
        ensures nothing { work.commits ≡ false → IsOk result }
    {
        let RequestDraft { draft, commits } = work;
        if commits {
            return self.commit(draft);
        }
        Ok(())
    }

    /// How often the store failed.
    pub(crate) fn faults(&self) -> u64
        ensures { result ≡ self.now.faults }
    {
        self.keeper.faults()
    }
}
