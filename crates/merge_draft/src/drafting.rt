//! What answers requests in two calls.
use merge_batch::{Refusal, Reply, Request};
use merge_ports::KeepFault;
use merge_types::{Listing, Moment};
use merge_units::Decision;

/// A request that was worked out: what is to be put in place, its reply, and what the decisions on
/// its conflicts count as, in the order of its items.
#[derive(Drop)]
pub struct Drafted<W: Drop> {
    pub work: W,
    pub reply: Reply,
    pub decisions: Listing<Decision>,
}

/// A publisher that holds its resolvers, and answers a request in two calls. The first works it out
/// and takes all memory, and the second commits what changes and puts it in place. What stands
/// between the two may still fail, and then nothing has changed.
pub trait DraftingPublisher: Drop {
    ghost use Rattle.std.specs.Prelude.{◌≡◌, ◌≤◌, ◌+◌, ◌⊎◌, Bool, Err, IfOk, IsOk, List, OnErr, OnOk, Ok, false, take, true, ℕ};
    ghost use Rattle.merge_batch.specs.declared.refusal.Refusal.{Refusal as OneRefusal};
    ghost use Rattle.merge_batch.specs.declared.refusal.Refusal.TheVariants.{NoMemory as no_memory};
    ghost use Rattle.merge_json.specs.Sendable.{IsSendableReply};
    ghost use Rattle.merge_model.specs.World.Calls.{questions_on, request_commits, result_of_request};
    ghost use Rattle.merge_model.specs.Tables.{PublisherTables};
    ghost use Rattle.merge_ports.specs.declared.keeper.KeepFault.TheVariants.{Failed, NoMemory};
    ghost use Rattle.merge_resolve.specs.Asked.{tallies_after};
    ghost use Rattle.merge_draft.specs.Drafting.{DraftingView, decisions_on, result_with_decisions};

    /// What is to be put in place.
    type Work: Drop;

    ghost view: { Self → DraftingView };

    /// The tables, once it is put in place.
    ghost after: { Self.Work → PublisherTables → PublisherTables };

    /// Whether it changes a record.
    ghost commits: { Self.Work → Bool };

    /// The publisher has the memory for it.
    ghost IsReady: { Self → Self.Work → Type 0 };

    /// Works a request out. No table changes.
    fn draft(&mut self, now: Moment, request: &Request) -> Result<Drafted<Self::Work>, Refusal>
        ensures made { IfOk result (λ d. result_with_decisions (view self.old).publication now request.now d.decisions (view self.old).tables ≡ Ok (after d.work (view self.old).tables, d.reply)) }
        ensures decisions { IfOk result (λ d. d.decisions ≡ decisions_on (view self.old).publication (view self.old).says (view self.old).tallies now request.now (view self.old).tables) }
        ensures ready { IfOk result (λ d. IsReady self.new d.work) }
        ensures commits { IfOk result (λ d. commits d.work ≡ true → request_commits (view self.old).publication now request.now (view self.old).tables d.reply ≡ true) }
        ensures sendable { IfOk result (λ d. IsSendableReply d.reply) }
        ensures refused { (refusal : OneRefusal) → result ≡ Err refusal → (refusal ≡ no_memory)
            ⊎ (result_of_request (view self.old).publication (view self.old).says (view self.old).tallies now request.now (view self.old).tables ≡ Err refusal) }

        // Each resolver is asked all its questions where the request is made, none where it is
        // refused, and else the first few.
        ensures asked { OnOk result ((view self.new).tallies ≡ tallies_after (view self.old).tallies (questions_on (view self.old).publication now request.now (view self.old).tables)) }
        ensures some { (n : ℕ) × ((view self.new).tallies ≡ tallies_after (view self.old).tallies (take n (questions_on (view self.old).publication now request.now (view self.old).tables))) }
        ensures none { (refusal : OneRefusal) → result_of_request (view self.old).publication (view self.old).says (view self.old).tallies now request.now (view self.old).tables ≡ Err refusal
            → (view self.new).tallies ≡ (view self.old).tallies }
        ensures steady { (k n : ℕ) (asked : _) → (view self.new).says k n asked ≡ (view self.old).says k n asked }
        ensures tables { (view self.new).tables ≡ (view self.old).tables }
        ensures publication { (view self.new).publication ≡ (view self.old).publication }
        ensures faults { (view self.new).faults ≡ (view self.old).faults };

    /// Commits what was worked out where it changes a record, and puts it in place. A commit that
    /// failed is counted and told, and so is only tried while the count can rise.
    fn settle(&mut self, work: Self::Work) -> Result<(), KeepFault>
        requires { IsReady self.old work }
        ensures ok { OnOk result ((view self.new).tables ≡ after work (view self.old).tables) }
        ensures err { OnErr result ((view self.new).tables ≡ (view self.old).tables) }
        ensures later { (view self.old).faults ≤ (view self.new).faults }
        ensures fault { result ≡ Err Failed → ((view self.old).faults + 1 ≤ (view self.new).faults) × (commits work ≡ true) }
        ensures count { OnOk result ((view self.new).faults ≡ (view self.old).faults) }
        ensures starved { result ≡ Err NoMemory → (view self.new).faults ≡ (view self.old).faults }
        ensures tallies { (view self.new).tallies ≡ (view self.old).tallies }
        ensures steady { (k n : ℕ) (asked : _) → (view self.new).says k n asked ≡ (view self.old).says k n asked }
        ensures publication { (view self.new).publication ≡ (view self.old).publication }

        // What commits nothing is not refused.
        ensures nothing { commits work ≡ false → IsOk result };

    /// How often the store failed.
    fn faults(&self) -> u64
        ensures { result ≡ (view self.now).faults };
}
