//! What several calls begin with, and the draft of a step that changes no list.
ghost use Rattle.std.specs.Prelude.{◌≡◌, ◌<◌, [], IfErr, None, OnOk, Some};
ghost use Rattle.merge_types.specs.Limits.{counter_limit};
ghost use Rattle.merge_model.specs.Publisher as tables;
ghost use Rattle.merge_model.specs.Tables.Refusals.{counter_end};
ghost use Rattle.merge_model.specs.Subscriber.Sending.{sending_refusal};
ghost use Rattle.merge_model.specs.Subscriber.{subscriber_counters};
ghost use Rattle.merge_sub.specs.Held.{tables_of};

use crate::{Changes, Draft, State, Subscriber};
use merge_batch::Refusal;
use merge_change::check_counters;
use merge_conflict::ConflictPlan;
use merge_gens::{GenerationPlan, IndexPlan};
use merge_types::{Listing, Moment};
use std::alloc::Global;

// The greater moment.
pub(crate) fn later(one: Moment, other: Moment) -> Moment
    ensures { result ≡ tables.later one other }
{
    Moment(one.0.max(other.0))
}

// The draft of a step that changes no row, no range and no conflict.
pub(crate) fn still(alloc: Global, state: State, gens: GenerationPlan) -> Draft
    ensures changes { result.changes ≡ record { state = state; gens = gens; done = None; rows = []; held = []; conflicts = record { rows = [] } } }
    ensures index { result.index.changes ≡ [] }
{
    Draft {
        changes: Changes {
            state,
            gens,
            done: None,
            rows: Listing::empty(alloc),
            held: Listing::empty(alloc),
            conflicts: ConflictPlan {
                rows: Listing::empty(alloc),
            },
        },
        index: IndexPlan {
            changes: Listing::empty(alloc),
        },
    }
}

impl Subscriber {
    // A counter stands at its limit.
    pub(crate) fn check_counters(&self) -> Result<(), Refusal>
        ensures ok { OnOk result (counter_end (subscriber_counters (tables_of self.now)) ≡ None) }
        ensures err { IfErr result (λ refusal. counter_end (subscriber_counters (tables_of self.now)) ≡ Some refusal) }
        ensures changes { OnOk result (self.now.state.changes < counter_limit) }
        ensures closed { OnOk result (self.now.gens.book.filling.last_closed < counter_limit) }
        ensures seq { OnOk result (self.now.state.seq < counter_limit) }
        ensures conflicts { OnOk result (self.now.state.conflict_count < counter_limit) }
    {
        check_counters(&[
            self.state.changes,
            self.gens.last_closed(),
            self.state.seq,
            self.state.conflict_count,
        ])
    }

    // The site has not joined, or a counter stands at its limit.
    pub(crate) fn check_sending(&self) -> Result<(), Refusal>
        ensures ok { OnOk result (sending_refusal (tables_of self.now) ≡ None) }
        ensures err { IfErr result (λ refusal. sending_refusal (tables_of self.now) ≡ Some refusal) }
        ensures seq { OnOk result (self.now.state.seq < counter_limit) }
        ensures closed { OnOk result (self.now.gens.book.filling.last_closed < counter_limit) }
    {
        if !self.state.is_joined {
            return Err(Refusal::Joining);
        }
        self.check_counters()
    }
}
