//! A script is played line by line on the sites of a publication.
#![tactic(auto)]

mod lines;
mod stop;

pub use lines::play_lines;
pub use stop::Stop;
