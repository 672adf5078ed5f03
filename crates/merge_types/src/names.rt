//! Names, and how notes show what may be none.
ghost use Rattle.std.specs.Prelude.{◌≡◌};
ghost use Rattle.std.specs.List.{list_all};
ghost use Rattle.merge_types.specs.Names.{begins_name, continues_name, is_name_text};

use crate::Words;
use crate::limits::NAME_LIMIT;
use crate::literal::Quoted;
use std::fmt;

/// Whether a byte may begin a name: an ASCII letter or `_`.
pub fn begins_name(byte: u8) -> bool
    ensures { result ≡ begins_name byte }
{
    byte.is_ascii_alphabetic() || byte == b'_'
}

/// Whether a byte may stand in a name behind the first: an ASCII letter, a digit or `_`.
pub fn continues_name(byte: u8) -> bool
    ensures { result ≡ continues_name byte }
{
    byte.is_ascii_alphanumeric() || byte == b'_'
}

fn continue_name(bytes: &[u8]) -> bool
    ensures { result ≡ list_all continues_name bytes.now }
{
    bytes.iter().all(|byte| continues_name(*byte))
}

/// Whether a text is a name: an ASCII letter or `_`, and then letters, digits or `_`, up to the limit.
pub fn is_name(text: &[u8]) -> bool
    ensures { result ≡ is_name_text text.now }
{
    match text {
        [] => false,
        [first, rest @ ..] => {
            begins_name(*first) && continue_name(rest) && text.len() <= NAME_LIMIT
        }
    }
}

/// A key or a name as notes show it: a name as it is, and every other text as a literal in quotes
/// with escapes, since it may hold a line end or a terminal's escape.
#[derive(Clone, Copy, Debug)]
pub struct Shown<'a>(&'a str);

impl Words {
    /// The text as notes show a key or a name.
    pub fn shown(&self) -> Shown<'_>
        ensures { result.0.now ≡ self.now }
    {
        Shown(self.as_str())
    }
}

impl fmt::Display for Shown<'_> {
    ghost use Rattle.std.specs.Prelude.{Some};
    ghost use Rattle.merge_types.specs.Names.{shown_text};

    ghost output = { λ text. Some (shown_text text.0.now) };

    fn fmt<W: fmt::Write>(&self, f: &mut fmt::Formatter<W>) -> fmt::Result {
        if is_name(self.0.as_bytes()) {
            f.write_str(self.0)
        } else {
            Quoted(self.0).fmt(f)
        }
    }
}
