//! The records of a site's store as bytes: how each is written, and how it is read back.
#![tactic(auto)]

mod field;
mod laws;
mod many;
mod numbers;
mod places;
mod ranges;
mod rows;
mod stop;
mod values;
mod versions;

pub use field::Field;
pub use laws::{key_records, row_records, value_records};
pub use ranges::{GrantKey, HeldRanges};
pub use rows::numbers_ascend;
pub use stop::Stop;
