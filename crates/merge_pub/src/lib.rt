//! The publisher over the tables: each of its steps is worked out first, with all memory taken, and
//! then put in place.
#![tactic(auto)]

mod batch_walk;
mod beginning;
mod closing;
mod committing;
mod downloading;
mod forgetting;
mod indexes;
mod joining;
mod keeping;
mod local;
mod old_mappings;
mod old_rows;
mod publisher;
mod purging;
mod ranging;
mod site;
mod site_drafts;
mod standing;
mod starting;
mod tables;
mod telling;
mod touches;
mod uploading;
mod versions;

pub use publisher::Publisher;
pub use purging::PurgeDraft;
pub use starting::Kept;
pub use uploading::UploadDraft;
