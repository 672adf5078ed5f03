//! What decides a conflict.
ghost use Rattle.std.specs.Prelude.{◌≡◌, ℕ, ◌+◌, ◌-◌, ◌^◌, min, IfOk};

use crate::ConflictCase;
use merge_types::NoMemory;
use merge_units::Decision;
use std::alloc::Global;

/// Decides conflicts. What it decides may depend on how often it was asked, and on nothing else
/// but the case.
pub trait Resolver: Drop {
    ghost use Rattle.std.specs.Prelude.{ℕ};
    ghost use Rattle.merge_resolve.specs.declared.case.ConflictCase.{ConflictCase};
    ghost use Rattle.merge_units.specs.declared.result.Decision.{Decision};

    /// The decision on a case when asked so often before.
    ghost says: { Self → ℕ → ConflictCase → Decision };

    /// How often it was asked.
    ghost tally_of: { Self → ℕ };

    /// Decides a case. It counts as asked also where memory is wanting.
    fn decide(&mut self, alloc: Global, case: &ConflictCase) -> Result<Decision, NoMemory>
        ensures decision { IfOk result (λ decision. decision ≡ says self.old (tally_of self.old) case.now) }
        ensures counted { tally_of self.new ≡ min (tally_of self.old + 1) (2 ^ 64 - 1) }

        // No call changes what it says.
        ensures steady { (n : ℕ) (asked : _) → says self.new n asked ≡ says self.old n asked };

    /// How often it was asked, as far as a `u64` goes.
    fn tally(&self) -> u64
        ensures { result ≡ tally_of self.now };
}

/// A resolver that is handed in.
pub type Handed = Box<dyn Resolver + Send>;
