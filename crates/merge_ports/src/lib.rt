//! What the program is joined to, as traits: where bytes come from and where they go, and what keeps
//! the records of sites. Each object may tell its content, and counts its faults.
#![tactic(auto)]

mod entry;
mod keeper;
mod memory;
mod memory_outside;
mod outside;
mod ports;
mod short;
mod streams;
mod whole;

pub use entry::{Entries, EntryEdit, EntryKey};
pub use keeper::{KeepFault, Keeper};
pub use memory::{MemorySink, MemorySource};
pub use memory_outside::MemoryOutside;
pub use outside::{Counts, OpenFault, Outside};
pub use ports::{Failed, Sink, Source};
pub use short::Short;
pub use streams::{Reading, Writing};
pub use whole::{ReadFault, read_whole, write_whole};
