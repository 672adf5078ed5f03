//! Versions of a row: what two of them are to each other, and what becomes of them.
#![tactic(auto)]

mod case;
mod conditions;
mod laws;
mod length;
mod local_change;
mod result;
mod site_row;
mod version;

pub use case::{Case, Side, Sides, classify};
pub use conditions::{
    can_change, fits_bodies, fits_decision, fits_tracking, have_equal_counts, is_new_where_decided,
};
pub use laws::{case_laws, kept_laws, result_laws};
pub use length::stored_length;
pub use local_change::{change, insert, remove};
pub use result::{Decision, apply};
pub use site_row::{PublisherRow, SubscriberRow};
pub use version::{Body, Cell, Cells, Version, any_new};
