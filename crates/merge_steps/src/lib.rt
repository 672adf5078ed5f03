//! The steps of a publisher over what it holds, as values: which entries a step makes, which edits they
//! are, what an item of an upload does, and which identity value a new row takes.
#![tactic(auto)]

mod acting;
mod changes;
mod drawing;
mod edits;
mod entries;
mod holding;
mod lists;
mod meeting;
mod move_walk;
mod old_spans;
mod seeing;
mod site_moves;
mod staying;
mod step;

pub use acting::{Acting, Arrival, act_on_all, acts_in, is_made_by, key_of_item};
pub use changes::{Besides, Changes, Draft, IndexChanges};
pub use drawing::{Draw, draw_value};
pub use edits::{live_values, move_entry, moved_edits};
pub use holding::Holding;
pub use lists::push_some;
pub use move_walk::add_moved;
pub use old_spans::{Span, old_span};
pub use seeing::site_edits;
pub use site_moves::MoveEntry;
pub use staying::Staying;
pub use step::{Worked, draft_step};
