//! The version with the greater value wins, or the one with the smaller.
ghost use Rattle.std.specs.Prelude.{◌≡◌, ℕ, ◌+◌, ◌-◌, ◌^◌, min, int_lt, IfOk, IsOk};
ghost use Rattle.merge_resolve.specs.declared.choice.ResolverChoice.TheVariants as choice;
ghost use Rattle.merge_resolve.specs.Choices.{rule_of};
ghost use Rattle.std.specs.Option.{option_copied};
ghost use Rattle.merge_resolve.specs.Extremes.{beats, decision_by_extreme, answer_on_both, extreme_decision};

use crate::priority::{by_priority, take_if};
use crate::values::body_value;
use crate::{ConflictCase, Resolver};
use merge_types::{NoMemory, Value};
use merge_units::Decision;
use std::alloc::Global;

/// Takes the side with the greater value of the column that the article names.
#[derive(Debug, Drop)]
pub struct Maximum {
    asked: u64,
}

/// Takes the side with the smaller value of the column that the article names.
#[derive(Debug, Drop)]
pub struct Minimum {
    asked: u64,
}

/// Which of two values is the better one.
#[derive(Clone, Copy, Debug, PartialEq, Eq)]
pub enum Extreme {
    Greatest,
    Least,
}

impl Maximum {
    /// Never asked.
    pub fn new() -> Self
        ensures fresh { result ≡ record { asked = 0 } }
        ensures means { (n : ℕ) (asked : _) → ⟦<Maximum as Resolver>⟧.says result n asked ≡ rule_of choice.Maximum asked }
    {
        Maximum { asked: 0 }
    }
}

impl Minimum {
    /// Never asked.
    pub fn new() -> Self
        ensures fresh { result ≡ record { asked = 0 } }
        ensures means { (n : ℕ) (asked : _) → ⟦<Minimum as Resolver>⟧.says result n asked ≡ rule_of choice.Minimum asked }
    {
        Minimum { asked: 0 }
    }
}

impl Resolver for Maximum {
    ghost use Rattle.merge_resolve.specs.declared.extremes.Extreme.TheVariants.{Greatest};
    ghost use Rattle.merge_resolve.specs.Extremes.{extreme_decision};

    ghost says = { λ it n asked. extreme_decision Greatest asked };

    ghost tally_of = { λ it. it.asked };

    fn decide(&mut self, _alloc: Global, case: &ConflictCase) -> Result<Decision, NoMemory>
        ensures decision { IfOk result (λ decision. decision ≡ rule_of choice.Maximum case.now) }
        ensures counted { self.new.asked ≡ min (self.old.asked + 1) (2 ^ 64 - 1) }

        // No memory is taken.
        ensures free { IsOk result }
    {
        self.asked = self.asked.saturating_add(1);
        Ok(decision_by(Extreme::Greatest, case))
    }

    fn tally(&self) -> u64 {
        self.asked
    }
}

impl Resolver for Minimum {
    ghost use Rattle.merge_resolve.specs.declared.extremes.Extreme.TheVariants.{Least};
    ghost use Rattle.merge_resolve.specs.Extremes.{extreme_decision};

    ghost says = { λ it n asked. extreme_decision Least asked };

    ghost tally_of = { λ it. it.asked };

    fn decide(&mut self, _alloc: Global, case: &ConflictCase) -> Result<Decision, NoMemory>
        ensures decision { IfOk result (λ decision. decision ≡ rule_of choice.Minimum case.now) }
        ensures counted { self.new.asked ≡ min (self.old.asked + 1) (2 ^ 64 - 1) }

        // No memory is taken.
        ensures free { IsOk result }
    {
        self.asked = self.asked.saturating_add(1);
        Ok(decision_by(Extreme::Least, case))
    }

    fn tally(&self) -> u64 {
        self.asked
    }
}

// What the rule decides.
fn decision_by(extreme: Extreme, case: &ConflictCase) -> Decision
    ensures { result ≡ extreme_decision extreme case.now }
{
    let ours = body_value(case.kind, &case.publisher, case.column);
    let theirs = body_value(case.kind, &case.incoming, case.column);
    match judged(extreme, ours, theirs) {
        Some(decision) => decision,
        None => by_priority(case),
    }
}

fn judged(extreme: Extreme, ours: Option<&Value>, theirs: Option<&Value>) -> Option<Decision>
    ensures { result ≡ answer_on_both (decision_by_extreme extreme) (option_copied ours.entry) (option_copied theirs.entry) }
{
    match (ours, theirs) {
        (Some(ours), Some(theirs)) => picked(extreme, ours, theirs),
        _ => None,
    }
}

// The side with the better value, where both may be compared.
fn picked(extreme: Extreme, ours: &Value, theirs: &Value) -> Option<Decision>
    ensures { result ≡ decision_by_extreme extreme ours.now theirs.now }
{
    match (ours, theirs) {
        (Value::Null, Value::Null) => Some(Decision::KeepPublisher),
        (Value::Null, Value::Int(_) | Value::Day(_)) => Some(Decision::TakeSubscriber),
        (Value::Int(_) | Value::Day(_), Value::Null) => Some(Decision::KeepPublisher),
        (Value::Int(our), Value::Int(their)) => Some(take_if(beats(extreme, *our, *their))),
        (Value::Day(our), Value::Day(their)) => {
            Some(take_if(beats(extreme, *our as i64, *their as i64)))
        }
        _ => None,
    }
}

// Whether their value is the better one.
fn beats(extreme: Extreme, our: i64, their: i64) -> bool
    ensures { result ≡ beats extreme our their }
{
    match extreme {
        Extreme::Greatest => our < their,
        Extreme::Least => their < our,
    }
}
