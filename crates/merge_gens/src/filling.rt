//! How entries fill generations.
ghost use Rattle.std.specs.Prelude.{◌≡◌, ◌+◌, ◌≤◌, ◌<◌, IfOk, IsOk};
ghost use Rattle.merge_types.specs.Limits.{entry_limit};
ghost use Rattle.merge_gens.specs.Filling.{generation_of, generations_of, filled_by, filling_after_close, FillsOneByOne};

use merge_types::limits::ENTRY_LIMIT;
use merge_types::{Exact, NoMemory};
use std::alloc::Global;

/// Where a site stands in its generations, which are numbered from 1. The open generation is the
/// one behind the last closed.
#[derive(Clone, Copy, Debug, PartialEq, Eq)]
pub struct Filling {
    /// The last closed generation, and 0 before the first has closed.
    pub last_closed: u64,
    /// How many entries the open generation holds.
    pub filled: u64,
}

impl Exact for Filling {
    ghost use Rattle.std.proofs.Common.{rules};

    ghost exact = { Prim.search rules };
}

impl Filling {
    /// That entries fill generations one after another, of which the other contracts give the sum.
    pub fn fills_one_by_one(self)
        requires { self.filled < entry_limit }
        ensures { FillsOneByOne self }
    {}

    // The generation of each of so many entries, in the order in which they are added.
    pub(crate) fn generations(self, alloc: Global, count: u64) -> Result<Vec<u64>, NoMemory>
        requires open { self.filled < entry_limit }
        requires fits { self.last_closed + count < u64.MAX }
        ensures generations { IfOk result (λ generations. generations.items ≡ generations_of self count) }
        ensures nothing { count ≡ 0 → IsOk result }
    {
        let mut generations = Vec::new(alloc);
        generations.reserve(count as usize)?;
        for number in 0..count {
            generations.push_reserved(self.last_closed + 1 + (self.filled + number) / ENTRY_LIMIT);
        }
        Ok(generations)
    }

    // After so many entries.
    pub(crate) fn filled_by(self, count: u64) -> Filling
        requires open { self.filled < entry_limit }
        requires fits { self.last_closed + count < u64.MAX }
        ensures { result ≡ filled_by self count }
    {
        let rest = self.filled + count % ENTRY_LIMIT;
        Filling {
            last_closed: self.last_closed + count / ENTRY_LIMIT + rest / ENTRY_LIMIT,
            filled: rest % ENTRY_LIMIT,
        }
    }

    // After a closing of the open generation.
    pub(crate) fn closed(self) -> Filling
        requires fits { self.last_closed < u64.MAX }
        ensures { result ≡ filling_after_close self }
    {
        if self.filled == 0 {
            return self;
        }
        Filling {
            last_closed: self.last_closed + 1,
            filled: 0,
        }
    }
}
