//! Who decides a conflict: objects that are handed in, and five rules to choose from.
#![tactic(auto)]

mod additive;
mod asking;
mod case;
mod choice;
mod counted;
mod extremes;
mod laws;
mod priorities;
mod priority;
mod question;
mod resolver;
mod typed;
mod values;

pub use additive::Additive;
pub use asking::{ColumnTypes, Question, ask, ask_at};
pub use case::{CaseKind, ConflictCase, Places};
pub use choice::ResolverChoice;
pub use counted::counted_decision;
pub use extremes::{Maximum, Minimum};
pub use laws::{asking_law, counted_laws};
pub use priorities::{incoming_priority, publisher_priority};
pub use priority::{Priority, SubscriberWins};
pub use question::Meeting;
pub use resolver::{Handed, Resolver};
