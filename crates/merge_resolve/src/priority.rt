//! The priority of the sites decides, or the subscriber wins whatever the priorities are.
ghost use Rattle.std.specs.Prelude.{◌≡◌, ℕ, ◌+◌, ◌-◌, ◌^◌, min, IfOk, IsOk};
ghost use Rattle.merge_units.specs.declared.result.Decision.TheVariants as decided;
ghost use Rattle.merge_resolve.specs.declared.choice.ResolverChoice.TheVariants as choice;
ghost use Rattle.merge_resolve.specs.Choices.{rule_of};
ghost use Rattle.merge_resolve.specs.Rules.{take_if, by_priority};

use crate::{ConflictCase, Resolver};
use merge_types::NoMemory;
use merge_units::Decision;
use std::alloc::Global;

/// Takes the subscriber's version exactly where its priority is greater.
#[derive(Debug, Drop)]
pub struct Priority {
    asked: u64,
}

/// Always takes the subscriber's version.
#[derive(Debug, Drop)]
pub struct SubscriberWins {
    asked: u64,
}

impl Priority {
    /// Never asked.
    pub fn new() -> Self
        ensures fresh { result ≡ record { asked = 0 } }
        ensures means { (n : ℕ) (asked : _) → ⟦<Priority as Resolver>⟧.says result n asked ≡ rule_of choice.Priority asked }
    {
        Priority { asked: 0 }
    }
}

impl SubscriberWins {
    /// Never asked.
    pub fn new() -> Self
        ensures fresh { result ≡ record { asked = 0 } }
        ensures means { (n : ℕ) (asked : _) → ⟦<SubscriberWins as Resolver>⟧.says result n asked ≡ rule_of choice.SubscriberWins asked }
    {
        SubscriberWins { asked: 0 }
    }
}

impl Resolver for Priority {
    ghost use Rattle.merge_resolve.specs.Rules.{by_priority};

    ghost says = { λ it n asked. by_priority asked };

    ghost tally_of = { λ it. it.asked };

    fn decide(&mut self, _alloc: Global, case: &ConflictCase) -> Result<Decision, NoMemory>
        ensures decision { IfOk result (λ decision. decision ≡ rule_of choice.Priority case.now) }
        ensures counted { self.new.asked ≡ min (self.old.asked + 1) (2 ^ 64 - 1) }

        // No memory is taken.
        ensures free { IsOk result }
    {
        self.asked = self.asked.saturating_add(1);
        Ok(by_priority(case))
    }

    fn tally(&self) -> u64 {
        self.asked
    }
}

impl Resolver for SubscriberWins {
    ghost use Rattle.merge_units.specs.declared.result.Decision.TheVariants.{TakeSubscriber};

    ghost says = { λ it n asked. TakeSubscriber };

    ghost tally_of = { λ it. it.asked };

    fn decide(&mut self, _alloc: Global, _case: &ConflictCase) -> Result<Decision, NoMemory>
        ensures decision { IfOk result (λ decision. decision ≡ decided.TakeSubscriber) }
        ensures counted { self.new.asked ≡ min (self.old.asked + 1) (2 ^ 64 - 1) }

        // No memory is taken.
        ensures free { IsOk result }
    {
        self.asked = self.asked.saturating_add(1);
        Ok(Decision::TakeSubscriber)
    }

    fn tally(&self) -> u64 {
        self.asked
    }
}

/// What `Priority` decides. The other rules fall back on it.
pub fn by_priority(case: &ConflictCase) -> Decision
    ensures { result ≡ by_priority case.now }
{
    take_if(case.incoming_priority > case.publisher_priority)
}

/// The subscriber's version where it is the better one.
pub fn take_if(better: bool) -> Decision
    ensures { result ≡ take_if better }
{
    if better {
        Decision::TakeSubscriber
    } else {
        Decision::KeepPublisher
    }
}
