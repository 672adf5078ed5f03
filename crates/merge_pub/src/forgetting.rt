//! Drafts that take tombstones and mappings.
ghost use Rattle.std.specs.Prelude.{◌≡◌, [], IfOk, None};
ghost use Rattle.std.specs.Ordering.{nat_cmp};
ghost use Rattle.merge_types.specs.RowKeys.{key_cmp};
ghost use Rattle.merge_table.specs.Edits.{rows_after_all};
ghost use Rattle.merge_gens.specs.Moves.{row_site_cmp};
ghost use Rattle.merge_pub.specs.After.{after};
ghost use Rattle.merge_pub.specs.Forgetting.{LeavesAll};
ghost use Rattle.merge_pub.specs.Held.{IsDrafted, publication_of, tables_of};

use crate::closing::still;
use crate::publisher::Publisher;
use crate::versions::make_room;
use merge_gens::{GenerationPlan, IndexChange, Mapping, RowSite, SiteState};
use merge_steps::{Draft, IndexChanges, moved_edits};
use merge_table::Edit;
use merge_types::{Listing, Moment, NoMemory, RowKey};
use merge_units::PublisherRow;
use std::alloc::Global;

// Edits of rows, after which the live rows are what they were, with those of the index of rows, of
// mappings at places of their own, and of what is remembered of sites.
#[derive(Drop)]
pub struct Forgetting {
    pub rows: Listing<Edit<RowKey, PublisherRow>>,
    pub entries: Listing<IndexChange>,
    pub mappings: Listing<Edit<RowSite, Mapping>>,
    pub sites: Listing<Edit<u16, SiteState>>,
}

// A draft that makes these edits, with those that follow in the indexes.
fn forget_draft(
    alloc: Global,
    changes: u64,
    conflict_count: u64,
    latest: Moment,
    gens: GenerationPlan,
    rows: Listing<Edit<RowKey, PublisherRow>>,
    mappings: Listing<Edit<RowSite, Mapping>>,
    sites: Listing<Edit<u16, SiteState>>,
    index: IndexChanges,
) -> Draft
    ensures changes { result.changes ≡ record { changes = changes; conflict_count = conflict_count; latest = latest; gens = gens; rows = rows; mappings = mappings; sites = sites; conflicts = record { rows = [] }; grants = []; held = [] } }
    ensures plan { result.plan ≡ None }
    ensures index { result.index ≡ index }
{
    let mut draft = still(alloc, changes, conflict_count, latest, gens);
    draft.changes.rows = rows;
    draft.changes.mappings = mappings;
    draft.changes.sites = sites;
    draft.index = index;
    draft
}

impl Publisher {
    // A draft with these edits, of which it takes the memory.
    #[tactic(auto, unfolding(merge_table::specs::Edits::IsReady))]
    pub(crate) fn draft_forgetting(
        &mut self,
        latest: Moment,
        edits: Forgetting,
    ) -> Result<Draft, NoMemory>
        requires { LeavesAll self.old edits }
        ensures made { IfOk result (λ d. after d.changes (tables_of self.old) ≡ record (tables_of self.old) { latest = latest; rows = rows_after_all key_cmp (tables_of self.old).rows edits.rows; mappings = rows_after_all row_site_cmp (tables_of self.old).mappings edits.mappings; sites = rows_after_all nat_cmp (tables_of self.old).sites edits.sites }) }
        ensures ready { IfOk result (λ d. IsDrafted self.new d) }
        ensures same { tables_of self.new ≡ tables_of self.old }
        ensures publication { publication_of self.new ≡ publication_of self.old }
    {
        self.mappings.is_ordered();
        self.moved.is_ordered();
        let moved = moved_edits(self.alloc, &self.mappings, edits.mappings.as_slice())?;
        make_room(
            &mut self.rows,
            &mut self.mappings,
            &mut self.moved,
            edits.rows.as_slice(),
            edits.mappings.as_slice(),
            moved.as_slice(),
        )?;
        self.sites.prepare(edits.sites.as_slice())?;
        let changed = self.changed.prepare(edits.entries)?;
        let (_, gens) = self.gens.prepare(&[])?;
        Ok(forget_draft(
            self.alloc,
            self.changes,
            self.conflict_count,
            latest,
            gens,
            edits.rows,
            edits.mappings,
            edits.sites,
            IndexChanges { changed, moved },
        ))
    }
}
