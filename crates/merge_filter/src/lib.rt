//! The filter language of publications: which rows of an article a subscriber gets.
#![tactic(auto)]

mod datum;
mod evaluation;
mod fault;
mod filters;
mod form;
mod kind;
mod laws;
mod names;
mod parsing;
mod pieces;
mod quoted;
mod tokens;
mod tree;
mod types;
mod word;

pub use evaluation::{Truth, eval};
pub use fault::FilterFault;
pub use filters::Filter;
pub use laws::bracketed_names_are_words;
pub use parsing::parse;
pub use types::{are_alike, column_type};
