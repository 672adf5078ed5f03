//! The memory for a step is taken.
ghost use Rattle.std.specs.Prelude.{◌≡◌, IfOk};
ghost use Rattle.merge_gens.specs.Index.{entries_after_all};
ghost use Rattle.merge_gens.specs.Plan.{IsPrepared};
ghost use Rattle.merge_conflict.specs.Table as conflicts;
ghost use Rattle.merge_sub.specs.Drafts.{IsDrafted, after};
ghost use Rattle.merge_sub.specs.Held.{IsSound, tables_of};

use crate::{Changes, Draft, Subscriber};
use merge_gens::IndexChanges;
use merge_types::NoMemory;

impl Subscriber {
    // Takes the memory for changes of rows and ranges, after that for generations and conflicts.
    pub(crate) fn prepare(
        &mut self,
        changes: Changes,
        index: IndexChanges,
    ) -> Result<Draft, NoMemory>
        requires gens { IsPrepared self.old.gens changes.gens }
        requires conflicts { conflicts.IsReady self.old.conflicts changes.conflicts }
        requires sound { IsSound self.old.publication (after changes (tables_of self.old)) (entries_after_all self.old.unsent.entries index) }
        ensures changes { IfOk result (λ draft. draft.changes ≡ changes) }
        ensures ready { IfOk result (λ draft. IsDrafted self.new draft) }
        ensures same { tables_of self.new ≡ tables_of self.old }
        ensures publication { self.new.publication ≡ self.old.publication }
    {
        self.rows.prepare(changes.rows.as_slice())?;
        self.held.prepare(changes.held.as_slice())?;
        let index = self.unsent.prepare(index)?;
        Ok(Draft { changes, index })
    }
}
