//! One site of a publication is changed by the lines of a script, and shown, while all others are elsewhere.
#![tactic(auto)]

mod elsewhere;
mod events;
mod lines;
mod show;
mod stop;
mod writing;

pub use elsewhere::Elsewhere;
pub use events::is_taken;
pub use lines::change_lines;
pub use show::show_rows;
pub use stop::{Stop, Unwritten};
