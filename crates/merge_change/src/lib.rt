//! What is alike at the publisher and at a subscriber: when a site refuses a local change, the version
//! of the row after it, and the tables that a site was kept with.
#![tactic(auto)]

mod article;
mod checks;
mod kept;
mod length;
mod refusal;
mod settings;
mod version;

pub use article::{identity_column, tracking};
pub use checks::{check_change, check_counters};
pub use kept::table_of;
pub use settings::key_of;
pub use version::{Making, version_after};
