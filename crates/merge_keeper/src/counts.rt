//! How many entries stand in each generation.
ghost use Rattle.std.specs.Prelude.{◌≡◌, ◌+◌, ◌==◌, if◌then◌else◌, ℕ, OnOk};
ghost use Rattle.merge_keeper.specs.Counts.{count_at};

use merge_table::Table;
use merge_types::NoMemory;
use std::alloc::Global;

/// The counts, of generations that have an entry.
#[derive(Debug, Drop)]
pub struct Counts {
    counts: Table<u64, u64>,
}

impl Counts {
    pub(crate) fn new(alloc: Global) -> Counts
        ensures { (generation : ℕ) → count_at result generation ≡ 0 }
    {
        Counts {
            counts: Table::new(alloc),
        }
    }

    pub(crate) fn of(&self, generation: u64) -> u64
        ensures { result ≡ count_at self.now generation }
    {
        match self.counts.get(&generation) {
            None => 0,
            Some(count) => *count,
        }
    }

    /// One entry more.
    #[tactic(auto, using(crate::proofs::Counted::at_more))]
    pub(crate) fn add(&mut self, generation: u64) -> Result<(), NoMemory>
        ensures { OnOk result ((other : ℕ) → count_at self.new other ≡ (if other == generation then count_at self.old other + 1 else count_at self.old other)) }
    {
        // No memory has as many entries as a u64 can count.
        let Some(count) = self.of(generation).checked_add(1) else {
            return Err(NoMemory);
        };
        self.counts.insert(generation, count)?;
        Ok(())
    }
}
