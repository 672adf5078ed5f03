//! Kinds of words, and how long a word is.
ghost use Rattle.std.specs.Prelude.{◌≡◌, ◌≤◌, ◌<◌, ◌+◌, length, drop, take_while};
ghost use Rattle.std.specs.Char.{is_ascii_digit, is_ascii_hexdigit};
ghost use Rattle.merge_types.specs.Names.{continues_name};
ghost use Rattle.merge_filter.specs.Runs.{is_blank, behind_blanks, kind_of, begins_with, quoted_len, mark_len, bracketed_len, run_len};

use merge_types::{begins_name, continues_name};

/// What the first byte of a word says of it.
#[derive(Clone, Copy, Debug, PartialEq, Eq)]
pub enum Kind {
    /// A keyword or a name.
    Name,
    /// A whole number.
    Number,
    /// Hexadecimal digits behind `0x`.
    Hex,
    /// A text in single quotes.
    Quoted,
    /// A name in brackets.
    Bracketed,
    /// A sign or a parenthesis.
    Mark,
}

fn is_blank(byte: u8) -> bool
    ensures { result ≡ is_blank byte }
{
    byte == b' ' || byte == b'\t' || byte == b'\r' || byte == b'\n'
}

fn blank_len(bytes: &[u8]) -> usize
    ensures count { result ≡ length (take_while is_blank bytes.now) }
    ensures within { result ≤ length bytes.now }
{
    bytes.iter().take_while(|b| is_blank(**b)).count()
}

/// The bytes behind the blanks at the front.
pub fn behind_blanks(bytes: &[u8]) -> &[u8]
    ensures value { result.now ≡ behind_blanks bytes.now }
    ensures shorter { length result.now ≤ length bytes.now }
{
    &bytes[blank_len(bytes)..]
}

/// The bytes behind a word of this length and the blanks behind it.
pub fn behind_word(bytes: &[u8], len: usize) -> &[u8]
    requires { len ≤ length bytes.now }
    ensures value { result.now ≡ behind_blanks (drop len bytes.now) }
    ensures shorter { length result.now + len ≤ length bytes.now }
{
    behind_blanks(&bytes[len..])
}

fn name_len(bytes: &[u8]) -> usize
    ensures count { result ≡ length (take_while continues_name bytes.now) }
    ensures within { result ≤ length bytes.now }
{
    bytes.iter().take_while(|b| continues_name(**b)).count()
}

fn digit_len(bytes: &[u8]) -> usize
    ensures count { result ≡ length (take_while is_ascii_digit bytes.now) }
    ensures within { result ≤ length bytes.now }
{
    bytes.iter().take_while(|b| b.is_ascii_digit()).count()
}

fn hex_len(bytes: &[u8]) -> usize
    ensures count { result ≡ length (take_while is_ascii_hexdigit bytes.now) }
    ensures within { result ≤ length bytes.now }
{
    bytes.iter().take_while(|b| b.is_ascii_hexdigit()).count()
}

/// The kind of the word at the front.
pub fn kind_of(bytes: &[u8]) -> Kind
    ensures { result ≡ kind_of bytes.now }
{
    match bytes {
        [b'0', b'x', ..] => Kind::Hex,
        [b'\'', ..] => Kind::Quoted,
        [b'[', ..] => Kind::Bracketed,
        [b'-', ..] => Kind::Number,
        [byte, ..] if byte.is_ascii_digit() => Kind::Number,
        [byte, ..] if begins_name(*byte) => Kind::Name,
        _ => Kind::Mark,
    }
}

fn begins_with(bytes: &[u8], byte: u8) -> bool
    ensures { result ≡ begins_with byte bytes.now }
{
    matches!(bytes, [first, ..] if *first == byte)
}

// Behind an opening quote: how many bytes the text still has, with its closing quote.
fn quoted_len(bytes: &[u8]) -> usize
    ensures count { result ≡ quoted_len bytes.now }
    ensures within { result ≤ length bytes.now }
{
    let mut rest = bytes;
    loop {
        match rest {
            [] => return bytes.len(),
            [b'\'', b'\'', after @ ..] => rest = after,
            [b'\'', after @ ..] => return bytes.len() - after.len(),
            [_, after @ ..] => rest = after,
        }
    }
}

fn bracketed_len(bytes: &[u8]) -> usize
    ensures count { result ≡ bracketed_len bytes.now }
    ensures within { result ≤ length bytes.now }
{
    let len = name_len(bytes);
    if begins_with(&bytes[len..], b']') {
        len + 1
    } else {
        len
    }
}

fn mark_len(first: u8, rest: &[u8]) -> usize
    ensures count { result ≡ mark_len first rest.now }
    ensures some { 1 ≤ result }
    ensures within { result ≤ length rest.now + 1 }
{
    match (first, rest) {
        (b'<', [b'=' | b'>', ..]) | (b'>', [b'=', ..]) => 2,
        _ => 1,
    }
}

/// How long the word at the front is, which has this kind.
pub fn run_len(kind: Kind, bytes: &[u8]) -> usize
    ensures count { result ≡ run_len kind bytes.now }
    ensures some { 0 < length bytes.now → 1 ≤ result }
    ensures within { kind ≡ kind_of bytes.now → result ≤ length bytes.now }
{
    let [first, rest @ ..] = bytes else {
        return 0;
    };
    match kind {
        Kind::Name => name_len(rest) + 1,
        Kind::Number => digit_len(rest) + 1,
        Kind::Hex => match rest {
            [_, digits @ ..] => hex_len(digits) + 2,
            [] => 2,
        },
        Kind::Quoted => quoted_len(rest) + 1,
        Kind::Bracketed => bracketed_len(rest) + 1,
        Kind::Mark => mark_len(*first, rest),
    }
}
