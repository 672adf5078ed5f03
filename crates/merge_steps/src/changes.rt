//! The changes of a step.
use crate::site_moves::MoveEntry;
use merge_conflict::ConflictPlan;
use merge_gens::{GenerationPlan, IndexPlan, Mapping, RowSite, SiteState};
use merge_ident::{GrantPlans, Ranges};
use merge_part::MembershipPlan;
use merge_table::Edit;
use merge_types::{Listing, Moment, RowKey};
use merge_units::PublisherRow;

/// What a step makes of the tables.
#[derive(Drop)]
pub struct Changes {
    pub changes: u64,
    pub conflict_count: u64,
    pub latest: Moment,
    pub gens: GenerationPlan,
    pub rows: Listing<Edit<RowKey, PublisherRow>>,
    pub mappings: Listing<Edit<RowSite, Mapping>>,
    pub sites: Listing<Edit<u16, SiteState>>,
    pub conflicts: ConflictPlan,
    pub grants: GrantPlans,
    pub held: Listing<Edit<u8, Ranges>>,
}

/// What a step makes of the tables, but for the rows, the mappings and the generations. The memory
/// for what is lost and granted is taken.
#[derive(Drop)]
pub struct Besides {
    pub changes: u64,
    pub conflict_count: u64,
    pub latest: Moment,
    pub sites: Listing<Edit<u16, SiteState>>,
    pub conflicts: ConflictPlan,
    pub grants: GrantPlans,
    pub held: Listing<Edit<u8, Ranges>>,
}

/// What follows in the indexes: the rows by the generations of their last changes, and the mappings
/// of each site by theirs.
#[derive(Drop)]
pub struct IndexChanges {
    pub changed: IndexPlan,
    pub moved: Listing<Edit<MoveEntry, ()>>,
}

/// The changes of a step, with those of what is held beside the tables. The memory for them is
/// taken.
#[derive(Drop)]
pub struct Draft {
    pub changes: Changes,
    pub plan: Option<MembershipPlan>,
    pub index: IndexChanges,
}
