//! The changes of a step.
use crate::State;
use merge_conflict::ConflictPlan;
use merge_gens::{GenerationPlan, IndexPlan};
use merge_ident::Ranges;
use merge_table::Edit;
use merge_types::{Listing, RowKey};
use merge_units::SubscriberRow;

/// A change of a row.
pub type RowEdit = Edit<RowKey, SubscriberRow>;

/// A change of the ranges of an article.
pub type RangesEdit = Edit<u8, Ranges>;

/// What a step makes of the tables, which is what a keeper commits.
#[derive(Drop)]
pub struct Changes {
    pub state: State,
    pub gens: GenerationPlan,
    /// The kept generations up to this one are forgotten.
    pub done: Option<u64>,
    pub rows: Listing<RowEdit>,
    pub held: Listing<RangesEdit>,
    /// The rows that are added to the conflict table.
    pub conflicts: ConflictPlan,
}

/// The changes of a step, with those of what is held beside the tables.
#[derive(Drop)]
pub struct Draft {
    pub changes: Changes,
    pub index: IndexPlan,
}
