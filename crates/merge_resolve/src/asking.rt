//! Asking the resolvers of a list.
ghost use Rattle.std.specs.Prelude.{◌≡◌, ◌<◌, ◌+◌, ◌^◌, ◌-◌, ℕ, min, IfOk, length, slice_index, map, Some};
ghost use Rattle.merge_resolve.specs.Asked.{says_at, tallies_after_question};
ghost use Rattle.merge_resolve.specs.Changes.{ChangesAt};

use crate::{ConflictCase, Handed};
use merge_types::{ColumnType, Listing, NoMemory};
use merge_units::{Decision, Sides};
use std::alloc::Global;

/// A conflict, the place of its resolver in the list that was handed in, and by what a decision on
/// it counts.
#[derive(Debug, Drop)]
pub struct Question {
    pub place: u8,
    pub case: ConflictCase,
    /// The side of each cell.
    pub sides: Sides,
    /// The types of the article's columns.
    pub types: ColumnTypes,
    /// The place of its identity column.
    pub identity: Option<u8>,
}

/// The types of columns, in order.
pub type ColumnTypes = Listing<ColumnType>;

/// Asks the resolver once.
pub fn ask(resolver: &mut Handed, alloc: Global, case: &ConflictCase) -> Result<Decision, NoMemory>
    ensures decision { IfOk result (λ decision. decision ≡ says resolver.old (tally_of resolver.old) case.now) }
    ensures counted { tally_of resolver.new ≡ min (tally_of resolver.old + 1) (2 ^ 64 - 1) }
    ensures steady { (n : ℕ) (asked : _) → says resolver.new n asked ≡ says resolver.old n asked }
{
    resolver.decide(alloc, case)
}

/// Asks the resolver at a place once, and no other.
pub fn ask_at(
    alloc: Global,
    resolvers: &mut Vec<Handed>,
    at: usize,
    case: &ConflictCase,
) -> Result<Decision, NoMemory>
    requires { at < length resolvers.old.items }
    ensures decision { IfOk result (λ decision. Some decision ≡ says_at (λ r. says r) resolvers.old.items at (slice_index (map (λ r. tally_of r) resolvers.old.items) at) case.now) }
    ensures tallies { map (λ r. tally_of r) resolvers.new.items ≡ tallies_after_question (map (λ r. tally_of r) resolvers.old.items) at }
    ensures steady { (k n : ℕ) (asked : _) → says_at (λ r. says r) resolvers.new.items k n asked ≡ says_at (λ r. says r) resolvers.old.items k n asked }
    ensures len { length resolvers.new.items ≡ length resolvers.old.items }
    ensures others { ChangesAt
        (λ r s. (tally_of s ≡ min (tally_of r + 1) (2 ^ 64 - 1)) × ((n : ℕ) (asked : _) → says s n asked ≡ says r n asked))
        resolvers.old.items resolvers.new.items at }
{
    let resolver = &mut resolvers[at];
    ask(resolver, alloc, case)
}
