//! A publisher that works a request out, and then puts it in place.
#![tactic(auto)]

mod drafting;
mod handling;
mod laws;

pub use drafting::{Drafted, DraftingPublisher};
pub use handling::handle;
pub use laws::decided_laws;
