//! The open generation closes.
ghost use Rattle.std.specs.Prelude.{◌≡◌, ◌⊎◌, Err, IfOk, Ok};
ghost use Rattle.merge_batch.specs.declared.refusal.Refusal.{Refusal as OneRefusal};
ghost use Rattle.merge_batch.specs.declared.refusal.Refusal.TheVariants.{NoMemory as no_memory};
ghost use Rattle.merge_model.specs.Subscriber.{close_subscriber_generation};
ghost use Rattle.merge_model.specs.World.Calls.{RefusesOnlyAs};
ghost use Rattle.merge_sub.specs.Drafts.{IsDrafted, drafted};
ghost use Rattle.merge_sub.specs.Held.{tables_of};

use crate::still::{later, still};
use crate::{Draft, State, Subscriber};
use merge_batch::Refusal;
use merge_types::Moment;

impl Subscriber {
    /// Works out a closing of the open generation, and gives the last closed one afterwards.
    #[tactic(auto, unfolding(merge_table::specs::Edits::IsReady))]
    pub fn draft_close(&mut self, now: Moment) -> Result<(Draft, u64), Refusal>
        ensures made { IfOk result (λ made. close_subscriber_generation now (tables_of self.old) ≡ Ok (drafted (tables_of self.old) made)) }
        ensures ready { IfOk result (λ made. IsDrafted self.new made.0) }
        ensures refused { (refusal : OneRefusal) → result ≡ Err refusal → (refusal ≡ no_memory) ⊎ (close_subscriber_generation now (tables_of self.old) ≡ Err refusal) }
        ensures same { tables_of self.new ≡ tables_of self.old }
        ensures publication { self.new.publication ≡ self.old.publication }

        // Where nothing is filled it takes no memory.
        ensures nothing { (tables_of self.old).gens.filling.filled ≡ 0 → RefusesOnlyAs (close_subscriber_generation now (tables_of self.old)) result }
    {
        self.check_counters()?;
        let state = State {
            latest: later(now, self.state.latest),
            ..self.state
        };
        let (last, gens) = self.gens.prepare_close(Moment(self.state.changes))?;
        let _ = self.conflicts.rows();
        Ok((still(self.alloc, state, gens), last))
    }
}
