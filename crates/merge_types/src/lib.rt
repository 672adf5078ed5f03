//! Identifiers, texts, values and lists that every layer speaks of.
#![tactic(auto)]

mod changes;
mod fault;
mod fitting;
mod identifiers;
pub mod limits;
mod listing;
mod literal;
mod names;
mod row_key;
mod steps;
mod values;
mod words;

pub use changes::{Change, Setting, Settings, Tracking};
pub use fault::NoMemory;
pub use identifiers::{Dot, HostName, Moment, RowId, SiteId};
pub use listing::{Exact, Listing, Octets};
pub use literal::{read_day, read_decimal, read_guid, read_int};
pub use names::{Shown, begins_name, continues_name, is_name};
pub use row_key::RowKey;
pub use steps::Steps;
pub use values::{Column, ColumnType, Value, Values};
pub use words::{Words, words_are_utf8};
