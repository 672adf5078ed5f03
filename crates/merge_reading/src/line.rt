//! What a line says.
ghost use Rattle.std.specs.Prelude.{◌≡◌, IfOk, map};
ghost use Rattle.merge_script.specs.Words.{is_quiet_by};
ghost use Rattle.merge_model.specs.Script.Reading.{line_of};

use crate::events::event;
use crate::stop::Stop;
use merge_model::Line;
use merge_script::{is_text, split_words};
use merge_types::NoMemory;
use std::alloc::Global;

// Whether words ask for nothing: there is none, or the first begins a comment.
fn is_quiet(words: &[&[u8]]) -> bool
    ensures { result ≡ is_quiet_by (map (λ w. w.now) words.now) }
{
    match words {
        [] => true,
        [first, ..] => first.first() == Some(&b'#'),
    }
}

/// What a line of a script says: nothing, an event, or no event, with the number of its first
/// wrong word.
pub fn read_line(alloc: Global, line: &[u8]) -> Result<Line, NoMemory>
    ensures { IfOk result (λ said. said ≡ line_of line.now) }
{
    if !is_text(line) {
        return Ok(Line::NoEvent(0));
    }
    let words = split_words(alloc, line)?;
    if is_quiet(words.as_slice()) {
        return Ok(Line::Quiet);
    }
    match event(alloc, words.as_slice()) {
        Ok(event) => Ok(Line::Event(event)),
        Err(Stop::Memory) => Err(NoMemory),
        Err(Stop::Wrong(number)) => Ok(Line::NoEvent(number)),
    }
}
