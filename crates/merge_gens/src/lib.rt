//! Generations: how a site's entries fill them, what is kept of the closed ones, and when a site has expired.
#![tactic(auto)]

mod book;
mod closings;
mod filling;
mod index;
pub mod laws;
mod moves;
mod plan;
mod retention;
mod sites;

pub use book::GenerationBook;
pub use closings::{Closing, Closings};
pub use filling::Filling;
pub use index::{GenerationIndex, IndexChange, IndexChanges, IndexEntry, IndexPlan, sort_rows};
pub use moves::{Mapping, MoveKind, RowSite};
pub use plan::{
    GenerationAnswer, GenerationAnswers, GenerationChange, GenerationPlan, Generations,
};
pub use retention::expired;
pub use sites::{Marks, SiteState};
