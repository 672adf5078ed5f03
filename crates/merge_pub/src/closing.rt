//! The open generation closes.
ghost use Rattle.std.specs.Prelude.{◌≡◌, ◌<◌, ◌⊎◌, ◌∷◌, [], None, Some, Ok, Err, IfOk, IfErr, OnOk};
ghost use Rattle.merge_types.specs.Limits.{counter_limit};
ghost use Rattle.merge_batch.specs.LocalChanges.{counter_end};
ghost use Rattle.merge_batch.specs.declared.refusal.Refusal.{Refusal as OneRefusal};
ghost use Rattle.merge_batch.specs.declared.refusal.Refusal.TheVariants.{NoMemory as no_memory};
ghost use Rattle.merge_model.specs.Publisher.{close_generation, later};
ghost use Rattle.merge_model.specs.World.Calls.{RefusesOnlyAs};
ghost use Rattle.merge_pub.specs.After.{after};
ghost use Rattle.merge_pub.specs.Held.{IsDrafted, publication_of, tables_of};
ghost use Rattle.merge_pub.specs.Refused.{RefusesAs};

use crate::publisher::Publisher;
use merge_batch::Refusal;
use merge_change::check_counters;
use merge_conflict::ConflictPlan;
use merge_gens::{GenerationPlan, IndexPlan};
use merge_steps::{Changes, Draft, IndexChanges};
use merge_types::{Listing, Moment};
use std::alloc::Global;

/// Refuses a step where a counter of the publisher stands at its limit.
pub fn counters_go_on(changes: u64, last_closed: u64, conflict_count: u64) -> Result<(), Refusal>
    ensures ok { OnOk result (counter_end (changes ∷ last_closed ∷ conflict_count ∷ []) ≡ None) }
    ensures err { IfErr result (λ refusal. counter_end (changes ∷ last_closed ∷ conflict_count ∷ []) ≡ Some refusal) }
    ensures changes_low { OnOk result (changes < counter_limit) }
    ensures closed_low { OnOk result (last_closed < counter_limit) }
    ensures conflicts_low { OnOk result (conflict_count < counter_limit) }
{
    check_counters(&[changes, last_closed, conflict_count])
}

/// The greater moment.
pub fn later(one: Moment, other: Moment) -> Moment
    ensures { result ≡ later one other }
{
    Moment(one.0.max(other.0))
}

/// A draft that changes no row.
pub fn still(
    alloc: Global,
    changes: u64,
    conflict_count: u64,
    latest: Moment,
    gens: GenerationPlan,
) -> Draft
    ensures changes { result.changes ≡ record { changes = changes; conflict_count = conflict_count; latest = latest; gens = gens; rows = []; mappings = []; sites = []; conflicts = record { rows = [] }; grants = []; held = [] } }
    ensures plan { result.plan ≡ None }
    ensures changed { result.index.changed.changes ≡ [] }
    ensures moved { result.index.moved ≡ [] }
{
    Draft {
        changes: Changes {
            changes,
            conflict_count,
            latest,
            gens,
            rows: Listing::empty(alloc),
            mappings: Listing::empty(alloc),
            sites: Listing::empty(alloc),
            conflicts: ConflictPlan {
                rows: Listing::empty(alloc),
            },
            grants: Listing::empty(alloc),
            held: Listing::empty(alloc),
        },
        plan: None,
        index: IndexChanges {
            changed: IndexPlan {
                changes: Listing::empty(alloc),
            },
            moved: Listing::empty(alloc),
        },
    }
}

impl Publisher {
    /// Works out a closing of the open generation, and gives the last closed one afterwards.
    #[tactic(auto, unfolding(merge_table::specs::Edits::IsReady))]
    pub fn draft_close(&mut self, now: Moment) -> Result<(Draft, u64), Refusal>
        ensures made { IfOk result (λ d. close_generation now (tables_of self.old) ≡ Ok (after d.0.changes (tables_of self.old), d.1)) }
        ensures ready { IfOk result (λ d. IsDrafted self.new d.0) }
        ensures refused { (refusal : OneRefusal) → result ≡ Err refusal → (refusal ≡ no_memory) ⊎ (close_generation now (tables_of self.old) ≡ Err refusal) }
        ensures refuses { RefusesAs (close_generation now (tables_of self.old)) result }
        ensures same { tables_of self.new ≡ tables_of self.old }
        ensures publication { publication_of self.new ≡ publication_of self.old }

        // Where nothing is filled it takes no memory.
        ensures nothing { (tables_of self.old).gens.filling.filled ≡ 0 → RefusesOnlyAs (close_generation now (tables_of self.old)) result }
    {
        counters_go_on(self.changes, self.gens.last_closed(), self.conflict_count)?;
        let latest = later(now, self.latest);
        let (last, gens) = self.gens.prepare_close(latest)?;
        let draft = still(self.alloc, self.changes, self.conflict_count, latest, gens);
        Ok((draft, last))
    }
}
