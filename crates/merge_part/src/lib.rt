//! Which rows stand in the partition of which subscriber, kept as rows change.
//!
//! A step goes in this order, over a draft beside what is kept (`draft`, `keeping`):
//!
//! 1. `taking` takes each change up: its row's filters are evaluated (`filtering`), its values enter
//!    the indexes of joins (`entering`, `index`), and it waits, as do the children that it reaches by
//!    its old values and its new ones (`waiting`). They need not where other rows give them what it
//!    gives (`covering`).
//! 2. `settling` marks the waiting rows anew, article by article with parents first, by their filters
//!    and their parents' marks (`joined`), which another child may show (`siblings`). Where a row's marks change, its children wait too.
//! 3. `moves` gives what has changed of the marks.
//! 4. `membership` takes the memory (`prepare`), and puts the draft in place without memory (`make`).
#![tactic(auto)]

mod change;
mod content;
mod covering;
mod draft;
mod entering;
mod filtering;
mod index;
mod joined;
mod keeping;
mod link;
mod membership;
mod moves;
mod settling;
mod siblings;
mod sites;
mod subscribers;
mod taking;
mod waiting;

pub use change::{Move, Moves, RowChange};
pub use membership::{Membership, MembershipPlan};
