//! Identity ranges: which values of an identity column a site may give to its new rows.
//!
//! The publisher keeps a book of all ranges that it granted. A subscriber holds at most two
//! ranges of an article, as in SQL Server's merge replication.
#![tactic(auto)]

mod asks;
mod book;
mod grants;
mod halving;
pub mod laws;
mod ranges;
mod seen_grants;
mod slots;

pub use book::RangeBook;
pub use grants::{
    Answer, Ask, Grant, GrantAnswer, GrantPlan, GrantPlans, Grants, IdentityFault, Range, Rule,
    Rules,
};
pub use ranges::{Holding, IdentityUsedUp, RangeEvent, Ranges};
pub use seen_grants::{End, LastGrant, SeenGrants, Taker};
