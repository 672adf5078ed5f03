//! Texts in quotes.
ghost use Rattle.std.specs.Prelude.{◌≡◌, ℕ, ◌<◌, List, [], ◌∷◌, ◌++◌, false, IfOk, IfSome, IfNone, OnOk, option_map, string_bytes, IsUtf8};
ghost use Rattle.hex.specs.Hex.{hex_digit_value};
ghost use Rattle.std.specs.Fmt.{digit_glyph};
ghost use Rattle.merge_types.specs.Quoted.{quoted, IsQuoted, Spells, piece_at, escape_at, long_at, plain_meaning, letter_meaning, digits_meaning};
ghost use Rattle.merge_types.specs.Meaning.{meaning_bytes};

use crate::{NoMemory, Words};
use std::alloc::Global;
use std::fmt;

/// A text in quotes, with its escapes: `"` and `\\` behind a backslash, U+000A, U+000D and U+0009 as
/// `\n`, `\r` and `\t`, and each other control character below U+0020 and U+007F as `\u00XX`.
#[derive(Clone, Copy)]
pub struct Quoted<'a>(pub &'a str);

impl fmt::Display for Quoted<'_> {
    ghost use Rattle.std.specs.Prelude.{Some};
    ghost use Rattle.merge_types.specs.Quoted.{quoted};

    ghost output = { λ text. Some (quoted text.0.now) };

    fn fmt<W: fmt::Write>(&self, f: &mut fmt::Formatter<W>) -> fmt::Result {
        f.write_str("\"")?;
        for c in self.0.chars() {
            Escaped(c).fmt(f)?;
        }
        f.write_str("\"")
    }
}

// A character as it stands in a text in quotes.
#[derive(Clone, Copy)]
struct Escaped(char);

impl fmt::Display for Escaped {
    ghost use Rattle.std.specs.Prelude.{Some};
    ghost use Rattle.merge_types.specs.Quoted.{escaped_character};

    ghost output = { λ c. Some (escaped_character c.0) };

    fn fmt<W: fmt::Write>(&self, f: &mut fmt::Formatter<W>) -> fmt::Result {
        match self.0 {
            '"' => f.write_str("\\\""),
            '\\' => f.write_str("\\\\"),
            '\n' => f.write_str("\\n"),
            '\r' => f.write_str("\\r"),
            '\t' => f.write_str("\\t"),
            c @ ('\0'..='\u{1f}' | '\u{7f}') => {
                let high = hex_digit((c as u32 / 16) as u8);
                let low = hex_digit((c as u32 % 16) as u8);
                write!(f, "\\u00{high}{low}")
            }
            c => f.write_char(c),
        }
    }
}

/// The text in quotes.
pub fn print(alloc: Global, text: &str) -> Result<Words, NoMemory>
    ensures { IfOk result (λ words. words ≡ quoted text.now) }
{
    let text = Quoted(text);
    Ok(Words::new(format!(in alloc; "{text}")?))
}

fn hex_digit(value: u8) -> char
    requires { value < 16 }
    ensures { result ≡ digit_glyph false value }
{
    (if value < 10 {
        b'0' + value
    } else {
        b'a' + value - 10
    }) as char
}

/// The text that a literal in quotes means.
pub fn read(alloc: Global, text: &[u8]) -> Result<Option<Words>, NoMemory>
    ensures some { IfOk result (λ read. IfSome read (IsQuoted text.now)) }
    ensures none { IfOk result (λ read. IfNone read ((bytes : List ℕ) → IsQuoted text.now bytes → ⊥)) }
{
    match between_quotes(text) {
        None => Ok(None),
        Some(inner) => read_inner(alloc, inner),
    }
}

fn between_quotes(text: &[u8]) -> Option<&[u8]>
    ensures some { IfSome result (λ inner. text.now ≡ 34 ∷ (inner.now ++ 34 ∷ [])) }
    ensures none { IfNone result ((inner : List ℕ) → text.now ≡ 34 ∷ (inner ++ 34 ∷ []) → ⊥) }
{
    match text {
        [b'"', inner @ .., b'"'] => Some(inner),
        _ => None,
    }
}

// The text that is spelled between the quotes.
fn read_inner(alloc: Global, inner: &[u8]) -> Result<Option<Words>, NoMemory>
    ensures some { IfOk result (λ read. IfSome read (λ bytes. Spells inner.now bytes × IsUtf8 bytes)) }
    ensures none { IfOk result (λ read. IfNone read ((bytes : List ℕ) → Spells inner.now bytes → IsUtf8 bytes → ⊥)) }
{
    let Some(bytes) = unescape(alloc, inner)? else {
        return Ok(None);
    };
    match String::from_utf8(bytes) {
        Ok(text) => Ok(Some(Words::new(text))),
        Err(_) => Ok(None),
    }
}

// The bytes that the pieces mean, which need be no text in UTF-8.
fn unescape(alloc: Global, inner: &[u8]) -> Result<Option<Vec<u8>>, NoMemory>
    ensures some { IfOk result (λ read. IfSome read (λ bytes. Spells inner.now bytes.items)) }
    ensures none { IfOk result (λ read. IfNone read ((bytes : List ℕ) → Spells inner.now bytes → ⊥)) }
{
    let mut bytes = Vec::new(alloc);
    let mut rest = inner;
    while !rest.is_empty() {
        let Some((meaning, after)) = piece_of(rest) else {
            return Ok(None);
        };
        push_meaning(&mut bytes, meaning)?;
        rest = after;
    }
    Ok(Some(bytes))
}

// What a piece means.
#[derive(Clone, Copy)]
enum Meaning {
    Byte(u8),
    Character(char),
}

fn push_meaning(bytes: &mut Vec<u8>, meaning: Meaning) -> Result<(), NoMemory>
    ensures { OnOk result (bytes.new.items ≡ bytes.old.items ++ meaning_bytes meaning) }
{
    match meaning {
        Meaning::Byte(byte) => bytes.push(byte)?,
        Meaning::Character(c) => {
            let mut buffer = [0; 4];
            bytes.extend_from_slice(c.encode_utf8(&mut buffer).as_bytes())?;
        }
    }
    Ok(())
}

// The first piece, and what is behind it.
#[tactic(auto, unfolding(crate::specs::Quoted::piece_at))]
fn piece_of(inner: &[u8]) -> Option<(Meaning, &[u8])>
    ensures { option_map (λ x. (meaning_bytes x.0, x.1.now)) result ≡ piece_at inner.now }
{
    match inner {
        [b'\\', rest @ ..] => escape_of(rest),
        [byte, rest @ ..] => Some((Meaning::Byte(plain_of(*byte)?), rest)),
        [] => None,
    }
}

#[tactic(auto, unfolding(crate::specs::Quoted::escape_at))]
fn escape_of(inner: &[u8]) -> Option<(Meaning, &[u8])>
    ensures { option_map (λ x. (meaning_bytes x.0, x.1.now)) result ≡ escape_at inner.now }
{
    match inner {
        [b'u', rest @ ..] => long_of(rest),
        [letter, rest @ ..] => Some((Meaning::Byte(letter_of(*letter)?), rest)),
        [] => None,
    }
}

#[tactic(auto, unfolding(crate::specs::Quoted::long_at))]
fn long_of(inner: &[u8]) -> Option<(Meaning, &[u8])>
    ensures { option_map (λ x. (meaning_bytes x.0, x.1.now)) result ≡ long_at inner.now }
{
    match inner {
        [a, b, c, d, rest @ ..] => Some((Meaning::Character(character(*a, *b, *c, *d)?), rest)),
        _ => None,
    }
}

fn plain_of(byte: u8) -> Option<u8>
    ensures { result ≡ plain_meaning byte }
{
    match byte {
        0..=31 | b'"' | b'\\' => None,
        _ => Some(byte),
    }
}

fn letter_of(letter: u8) -> Option<u8>
    ensures { result ≡ letter_meaning letter }
{
    match letter {
        b'"' | b'\\' => Some(letter),
        b'n' => Some(b'\n'),
        b'r' => Some(b'\r'),
        b't' => Some(b'\t'),
        _ => None,
    }
}

fn character(first: u8, second: u8, third: u8, fourth: u8) -> Option<char>
    ensures { result ≡ digits_meaning first second third fourth }
{
    let high = digit(first)? * 16 + digit(second)?;
    let low = digit(third)? * 16 + digit(fourth)?;
    char::from_u32(high * 256 + low)
}

fn digit(code: u8) -> Option<u32>
    ensures value { result ≡ hex_digit_value code }
    ensures bound { IfSome result (λ value. value < 16) }
{
    match code {
        b'0'..=b'9' => Some((code - b'0') as u32),
        b'a'..=b'f' => Some((code - b'a' + 10) as u32),
        b'A'..=b'F' => Some((code - b'A' + 10) as u32),
        _ => None,
    }
}
