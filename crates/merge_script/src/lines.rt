//! The lines of a text.
ghost use Rattle.std.specs.Prelude.{◌≡◌, ◌≤◌, ◌<◌, ◌∷◌, ◌↔◌, length, IsTrue};
ghost use Rattle.std.specs.List.{after_first, position_or_len};
ghost use Rattle.std.specs.Str.{IsUtf8, is_utf8};
ghost use Rattle.std.specs.Str.Lines.{strip_carriage_return};
ghost use Rattle.merge_script.specs.Lines.{is_line_feed, lines_of};

use std::str;

// Where the first line feed of a text is, or the text's length where there is none.
pub(crate) fn line_end(text: &[u8]) -> usize
    ensures within { result ≤ length text.now }
    ensures value { position_or_len is_line_feed text.now ≡ result }
{
    for (i, byte) in text.iter().enumerate() {
        if *byte == b'\n' {
            return i;
        }
    }
    text.len()
}

// A line without the carriage return at its end.
pub(crate) fn without_return(line: &[u8]) -> &[u8]
    ensures { result.now ≡ strip_carriage_return line.now }
{
    if !line.is_empty() && line[line.len() - 1] == b'\r' {
        return line.split_at(line.len() - 1).0;
    }
    line
}

/// The first line of a text, without its end, and the text behind it.
#[tactic(auto, using(crate::proofs::Parts::first_line, crate::proofs::Parts::only_line, crate::proofs::Parts::text_behind, crate::proofs::Parts::nothing_behind))]
pub fn cut_line(text: &[u8]) -> (&[u8], &[u8])
    requires { 0 < length text.now }
    ensures line { lines_of text.now ≡ result.0.now ∷ lines_of result.1.now }
    ensures behind { after_first is_line_feed text.now ≡ result.1.now }
    ensures less { length result.1.now < length text.now }
{
    let end = line_end(text);
    if end == text.len() {
        return (text, text.split_at(end).1);
    }
    (
        without_return(text.split_at(end).0),
        text.split_at(end + 1).1,
    )
}

/// Whether a line is UTF-8.
pub fn is_text(line: &[u8]) -> bool
    ensures value { result ≡ is_utf8 line.now }
    ensures text { IsTrue result ↔ IsUtf8 line.now }
{
    str::from_utf8(line).is_ok()
}
