//! The text of the input of `play`: the publication and the script, the script's lines, and a line's words.
#![tactic(auto)]

mod input;
mod lines;
mod names;
mod words;

pub use input::{bar_cuts_its_input, cut_input};
pub use lines::{cut_line, is_text};
pub use merge_types::is_name;
pub use merge_types::limits::NAME_LIMIT;
pub use names::{decimals_are_read_as_printed, read_decimal};
pub use words::{is_quiet, split_words, words_part_their_line};
