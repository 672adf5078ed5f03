//! The words of a line.
ghost use Rattle.std.specs.Prelude.{ℕ, List, ◌≡◌, ◌≤◌, ◌<◌, ◌+◌, ◌∷◌, ◌++◌, [], length, take, drop, map, IfOk, OnOk};
ghost use Rattle.merge_script.specs.Parting.{IsParted};
ghost use Rattle.merge_script.specs.Words.{is_blank, is_parting, place_behind, parts_from, words_of, with_word, is_quiet_by, is_quiet_line};
ghost use Rattle.merge_script.specs.declared.words.Place.TheVariants.{Outside};

use crate::lines::is_text;
use merge_types::NoMemory;
use std::alloc::Global;

// Where in a line a byte stands: outside of double quotes, inside, or inside behind a backslash.
#[derive(Clone, Copy)]
enum Place {
    Outside,
    Inside,
    Escaped,
}

fn is_blank(byte: u8) -> bool
    ensures { result ≡ is_blank byte }
{
    byte == b' ' || byte == b'\t'
}

// Whether a byte at a place parts two words.
fn is_parting(place: Place, byte: u8) -> bool
    ensures { result ≡ is_parting place byte }
{
    match place {
        Place::Outside => is_blank(byte),
        Place::Inside | Place::Escaped => false,
    }
}

// The place behind a byte at a place.
fn place_behind(place: Place, byte: u8) -> Place
    ensures { result ≡ place_behind place byte }
{
    match (place, byte) {
        (Place::Outside, b'"') => Place::Inside,
        (Place::Outside, _) => Place::Outside,
        (Place::Inside, b'"') => Place::Outside,
        (Place::Inside, b'\\') => Place::Escaped,
        (Place::Inside | Place::Escaped, _) => Place::Inside,
    }
}

// Where the first part of a text ends: at a parting blank, or with the text.
fn part_end(text: &[u8]) -> usize
    ensures within { result ≤ length text.now }
    ensures cut { result < length text.now → parts_from Outside text.now ≡ take result text.now ∷ parts_from Outside (drop (result + 1) text.now) }
    ensures whole { result ≡ length text.now → parts_from Outside text.now ≡ text.now ∷ [] }
{
    let mut place = Place::Outside;
    for (i, byte) in text.iter().enumerate() {
        if is_parting(place, *byte) {
            return i;
        }
        place = place_behind(place, *byte);
    }
    text.len()
}

// What is before the first parting blank of a text, and what is behind it.
#[tactic(auto, using(crate::proofs::WordParts::first_word, crate::proofs::WordParts::only_word))]
fn cut_part(text: &[u8]) -> (&[u8], &[u8])
    requires { 0 < length text.now }
    ensures word { words_of text.now ≡ with_word result.0.now (words_of result.1.now) }
    ensures less { length result.1.now < length text.now }
{
    let end = part_end(text);
    if end == text.len() {
        return (text, text.split_at(end).1);
    }
    (text.split_at(end).0, text.split_at(end + 1).1)
}

// Adds a part that is not empty.
fn add_word<'a>(words: &mut Vec<&'a [u8]>, part: &'a [u8]) -> Result<(), NoMemory>
    ensures { OnOk result (map (λ w. w.now) words.new.items ≡ map (λ w. w.now) words.old.items ++ with_word part.now []) }
{
    if !part.is_empty() {
        words.push(part)?;
    }
    Ok(())
}

/// The words of a line. Spaces and tabs part them outside of double quotes. Inside of quotes a
/// backslash takes the next byte with it, and a quote that is never closed goes to the line's end.
pub fn split_words<'a>(alloc: Global, line: &'a [u8]) -> Result<Vec<&'a [u8]>, NoMemory>
    ensures { IfOk result (λ words. map (λ w. w.now) words.items ≡ words_of line.now) }
{
    let mut words = Vec::new(alloc);
    let mut rest = line;
    while !rest.is_empty() {
        let (part, more) = cut_part(rest);
        add_word(&mut words, part)?;
        rest = more;
    }
    Ok(words)
}

// Whether a line has no word, or its first word begins with `#`.
fn begins_quiet(line: &[u8]) -> bool
    ensures { result ≡ is_quiet_by (words_of line.now) }
{
    for byte in line {
        if !is_blank(*byte) {
            return *byte == b'#';
        }
    }
    true
}

/// The words of a line and the blanks between them, in order, are the line. Each word has a byte and
/// no blank outside of its quotes, and is followed by a blank or by nothing. No other words do this.
pub fn words_part_their_line()
    ensures parted { (line : List ℕ) → IsParted line (words_of line) }
    ensures alone { (line : List ℕ) (words : List (List ℕ)) → IsParted line words → words ≡ words_of line }
{}

/// Whether a line asks for nothing: it has no word, or its first word begins with `#`. A line that
/// is not UTF-8 is never quiet.
pub fn is_quiet(line: &[u8]) -> bool
    ensures { result ≡ is_quiet_line line.now }
{
    is_text(line) && begins_quiet(line)
}
