//! Rows get versions.
ghost use Rattle.std.specs.Prelude.{◌≡◌, ◌≤◌, ◌<◌, ◌+◌, ◌*◌, map, length, IfOk};
ghost use Rattle.std.specs.Ordering.{nat_cmp};
ghost use Rattle.merge_types.specs.RowKeys.{key_cmp};
ghost use Rattle.merge_table.specs.Edits.{IsReady};
ghost use Rattle.merge_gens.specs.Moves.{row_site_cmp};
ghost use Rattle.merge_ident.specs.Books as granting;
ghost use Rattle.merge_conflict.specs.Table as losing;
ghost use Rattle.std.specs.List.{AllByRecursion};
ghost use Rattle.merge_types.specs.Limits.{counter_limit};
ghost use Rattle.merge_part.specs.Taking.{EachRowOnce, living};
ghost use Rattle.merge_pub.specs.Held.{IsDrafted, publication_of, tables_of};
ghost use Rattle.merge_pub.specs.Making.{IsMade, with_besides};
ghost use Rattle.merge_steps.specs.Keeps.{FitsHere, KeepsRules};
ghost use Rattle.merge_steps.specs.MoveEntries.{move_entry_cmp};
ghost use Rattle.merge_steps.specs.Step.{Subscribes, changing};
ghost use Rattle.merge_steps.specs.Working as work;

use crate::publisher::Publisher;
use merge_gens::{GenerationPlan, Mapping, RowSite};
use merge_steps::{Besides, Changes, Draft, IndexChanges, MoveEntry, draft_step};
use merge_table::{Edit, Table};
use merge_types::{Listing, NoMemory, RowKey, Steps};
use merge_units::{PublisherRow, Version};
use std::sync::ledger::Ledger;

/// Takes the memory for edits of rows and mappings.
pub(crate) fn make_room(
    rows: &mut Table<RowKey, PublisherRow>,
    mappings: &mut Table<RowSite, Mapping>,
    moved: &mut Table<MoveEntry, ()>,
    row_edits: &[Edit<RowKey, PublisherRow>],
    mapping_edits: &[Edit<RowSite, Mapping>],
    moved_edits: &[Edit<MoveEntry, ()>],
) -> Result<(), NoMemory>
    ensures rows { IfOk result (λ _. IsReady key_cmp rows.new.slots row_edits.now) }
    ensures mappings { IfOk result (λ _. IsReady row_site_cmp mappings.new.slots mapping_edits.now) }
    ensures moved { IfOk result (λ _. IsReady move_entry_cmp moved.new.slots moved_edits.now) }
    ensures same_rows { rows.new.rows ≡ rows.old.rows }
    ensures same_mappings { mappings.new.rows ≡ mappings.old.rows }
    ensures same_moved { moved.new.rows ≡ moved.old.rows }
{
    rows.prepare(row_edits)?;
    mappings.prepare(mapping_edits)?;
    moved.prepare(moved_edits)?;
    Ok(())
}

// The changes with those of rows, mappings and generations.
fn changes_of(
    besides: Besides,
    rows: Listing<Edit<RowKey, PublisherRow>>,
    mappings: Listing<Edit<RowSite, Mapping>>,
    gens: GenerationPlan,
) -> Changes
    ensures { result ≡ record { changes = besides.changes; conflict_count = besides.conflict_count; latest = besides.latest; gens = gens; rows = rows; mappings = mappings; sites = besides.sites; conflicts = besides.conflicts; grants = besides.grants; held = besides.held } }
{
    Changes {
        changes: besides.changes,
        conflict_count: besides.conflict_count,
        latest: besides.latest,
        gens,
        rows,
        mappings,
        sites: besides.sites,
        conflicts: besides.conflicts,
        grants: besides.grants,
        held: besides.held,
    }
}

impl Publisher {
    /// Works out that rows get versions, where a site sent the rows that acted.
    pub fn draft_versions<L: Ledger>(
        &mut self,
        versions: Vec<(RowKey, Version)>,
        acted: &[RowKey],
        site: u16,
        besides: Besides,
        steps: &mut Steps<L>,
    ) -> Result<Draft, NoMemory>
        requires rows { AllByRecursion (FitsHere self.old.membership.publication besides.changes) versions.items }
        requires once { EachRowOnce (map work.row_change versions.items) }
        requires subscribes { Subscribes self.old.membership.publication acted.now site }
        requires low { self.old.gens.book.filling.last_closed < counter_limit }
        requires few { length versions.items < counter_limit }
        requires keeps { KeepsRules self.old.membership.publication (with_besides besides (tables_of self.old)) }
        requires conflicts { losing.IsReady self.old.conflicts besides.conflicts }
        requires grants { granting.IsReady self.old.grants besides.grants }
        ensures made { IfOk result (λ d. IsMade self.old.membership.publication (changing versions.items acted.now site) (tables_of self.old) besides d.changes) }
        ensures ready { IfOk result (λ d. IsDrafted self.new d) }
        ensures same { tables_of self.new ≡ tables_of self.old }
        ensures publication { publication_of self.new ≡ publication_of self.old }
        ensures cost { steps.new ≤ steps.old + length (publication_of self.old).subscriptions * living (map work.row_change versions.items) }
    {
        self.moved.is_ordered();
        let worked = draft_step(
            self.alloc,
            &mut self.membership,
            &mut self.gens,
            &self.rows,
            &self.mappings,
            versions,
            acted,
            site,
            besides.latest,
            steps,
        )?;
        make_room(
            &mut self.rows,
            &mut self.mappings,
            &mut self.moved,
            worked.rows.as_slice(),
            worked.mappings.as_slice(),
            worked.moved.as_slice(),
        )?;
        self.sites.prepare(besides.sites.as_slice())?;
        self.held.prepare(besides.held.as_slice())?;
        let changed = self.changed.prepare(worked.index)?;
        Ok(Draft {
            changes: changes_of(besides, worked.rows, worked.mappings, worked.gens),
            plan: Some(worked.plan),
            index: IndexChanges {
                changed,
                moved: worked.moved,
            },
        })
    }
}
