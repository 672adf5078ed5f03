//! What holds of the reading of scripts. These functions do nothing: their contracts are the laws.
ghost use Rattle.merge_model.specs.Script.Grammar.{ReadsEvents, ReadsLines};
ghost use Rattle.merge_model.specs.Script.Literals.{ReadsLiterals, ReadsRows};
ghost use Rattle.merge_model.specs.Script.Reading.{FindsFirstFault};

/// A text is read as a value exactly where it is a literal of it, and as a row exactly where it
/// names the row.
pub fn literals_are_read_exactly()
    ensures values { ReadsLiterals }
    ensures rows { ReadsRows }
{}

/// Words are read as an event exactly where they are the words of it, and a line exactly where it
/// is a text of such words.
pub fn events_are_read_exactly()
    ensures words { ReadsEvents }
    ensures lines { ReadsLines }
{}

/// The fault of a script is that of its first line that is no event, and its events are those of
/// the lines before that line.
pub fn reading_stops_at_the_first_fault()
    ensures { FindsFirstFault }
{}
