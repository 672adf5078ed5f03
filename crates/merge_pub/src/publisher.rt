//! The publisher.
ghost use Rattle.std.specs.Prelude.{◌≡◌, ◌*◌, ◌≤◌, OnSome, Option, length};
ghost use Rattle.merge_table.specs.Edits.{IsReady, rows_after_all};
ghost use Rattle.merge_gens.specs.Entries.{entry_cmp};
ghost use Rattle.merge_gens.specs.Index.{IsCompact as IsCompactIndex, entries_after_all};
ghost use Rattle.merge_part.specs.View.{IsCompact as IsCompactView, live_in};
ghost use Rattle.merge_steps.specs.MoveEntries.{move_entry_cmp};
ghost use Rattle.merge_pub.specs.After.{after};
ghost use Rattle.merge_pub.specs.Held.{IsAnyPrepared, IsCompact, IsDrafted, live_after_any, publication_of, tables_of};

use merge_conflict::ConflictTable;
use merge_gens::{GenerationBook, GenerationIndex, Mapping, RowSite, SiteState};
use merge_ident::{RangeBook, Ranges};
use merge_part::{Membership, MembershipPlan};
use merge_schema::Publication;
use merge_steps::{Changes, Draft, IndexChanges, MoveEntry};
use merge_table::Table;
use merge_types::{Moment, RowKey};
use merge_units::PublisherRow;
use std::alloc::Global;
use std::marker::Model;

/// The publisher's tables, with what finds their rows: which live row is in whose partition, the
/// rows by the generations of their last changes, and each site's mappings by theirs.
#[derive(Drop)]
pub struct Publisher {
    pub(crate) alloc: Global,
    pub(crate) membership: Membership,
    pub(crate) changed: GenerationIndex,
    pub(crate) moved: Table<MoveEntry, ()>,
    pub(crate) rows: Table<RowKey, PublisherRow>,
    pub(crate) mappings: Table<RowSite, Mapping>,
    pub(crate) sites: Table<u16, SiteState>,
    pub(crate) held: Table<u8, Ranges>,
    pub(crate) gens: GenerationBook,
    pub(crate) conflicts: ConflictTable,
    pub(crate) grants: RangeBook,
    pub(crate) changes: u64,
    pub(crate) conflict_count: u64,
    pub(crate) latest: Moment,
}

impl Model for Publisher {
    ghost use Rattle.std.specs.Coded.{codes};
    ghost use Rattle.merge_part.specs.View.{filter_code};
    ghost use Rattle.merge_gens.specs.Index.{index_code};
    ghost use Rattle.merge_pub.specs.Held.{Held, IsSound};

    ghost Value = { Held };

    ghost coded = { Prim.hlevel (codes, filter_code, index_code) };

    ghost view = { λ p. record { changes = p.changes; conflict_count = p.conflict_count; latest = p.latest; gens = p.gens; rows = p.rows; mappings = p.mappings; sites = p.sites; conflicts = p.conflicts; grants = p.grants; held = p.held; membership = p.membership; changed = p.changed; moved = p.moved } };

    ghost invariant = { λ p. IsSound (record { changes = p.changes; conflict_count = p.conflict_count; latest = p.latest; gens = p.gens; rows = p.rows; mappings = p.mappings; sites = p.sites; conflicts = p.conflicts; grants = p.grants; held = p.held; membership = p.membership; changed = p.changed; moved = p.moved }) };
}

impl Publisher {
    /// The publication.
    pub fn publication(&self) -> &Publication
        ensures { result.now ≡ publication_of self.now }
    {
        self.membership.publication()
    }

    /// Makes the changes of a draft, which is the last one that was made. No memory is taken, and
    /// spare memory goes back once it is the most.
    pub fn settle(&mut self, draft: Draft)
        requires { IsDrafted self.old draft }
        ensures tables { tables_of self.new ≡ after draft.changes (tables_of self.old) }
        ensures publication { publication_of self.new ≡ publication_of self.old }
        ensures compact { IsCompact self.new }
        ensures members { OnSome draft.plan (IsCompactView self.new.membership) }
    {
        let Draft {
            changes,
            plan,
            index,
        } = draft;
        make_plan(&mut self.membership, plan);
        make_entries(&mut self.changed, &mut self.moved, index);
        let Changes {
            changes,
            conflict_count,
            latest,
            gens,
            rows,
            mappings,
            sites,
            conflicts,
            grants,
            held,
        } = changes;
        self.rows.apply_and_sweep(rows.into_vec());
        self.mappings.apply_and_sweep(mappings.into_vec());
        self.sites.apply(sites.into_vec());
        self.held.apply(held.into_vec());
        self.gens.settle(gens);
        self.conflicts.settle(conflicts);
        self.grants.settle_all(grants.as_slice());
        self.changes = changes;
        self.conflict_count = conflict_count;
        self.latest = latest;
    }
}

// Makes the changes of a plan, where there is one.
fn make_plan(membership: &mut Membership, plan: Option<MembershipPlan>)
    requires { IsAnyPrepared membership.old plan }
    ensures publication { membership.new.publication ≡ membership.old.publication }
    ensures live { live_in membership.new ≡ live_after_any membership.old plan }
    ensures compact { OnSome plan (IsCompactView membership.new) }
{
    if let Some(plan) = plan {
        membership.make(plan);
    }
}

// Makes the changes of the indexes.
fn make_entries(
    changed: &mut GenerationIndex,
    moved: &mut Table<MoveEntry, ()>,
    index: IndexChanges,
)
    requires changed { IsReady entry_cmp changed.old.slots index.changed.changes }
    requires moved { IsReady move_entry_cmp moved.old.slots index.moved }
    ensures changed { changed.new.entries ≡ entries_after_all changed.old.entries index.changed.changes }
    ensures moved { moved.new.rows ≡ rows_after_all move_entry_cmp moved.old.rows index.moved }
    ensures compact { IsCompactIndex changed.new }
    ensures spare { length moved.new.slots ≤ 2 * length moved.new.rows }
{
    let IndexChanges {
        changed: plan,
        moved: edits,
    } = index;
    changed.settle(plan);
    moved.apply_and_sweep(edits.into_vec());
}
