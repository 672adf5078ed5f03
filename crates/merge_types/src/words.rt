//! Texts, which contracts see as their bytes.
ghost use Rattle.std.specs.Prelude.{◌≡◌, ◌↔◌, [], length, IsTrue, IfOk, IsUtf8, string_bytes};

use crate::{Exact, NoMemory};
use std::alloc::{AllocError, Global};
use std::cmp::Ordering;
use std::fmt;
use std::marker::Model;

/// A text in UTF-8.
#[derive(Debug, Drop)]
pub struct Words {
    text: String,
}

impl Model for Words {
    ghost use Rattle.std.specs.Prelude.{ℕ, List, string_bytes};

    ghost Value = { List ℕ };

    ghost view = { λ w. string_bytes w.text };
}

impl Words {
    /// The text of a string, with no memory taken.
    pub fn new(text: String) -> Self
        ensures { result ≡ string_bytes text }
    {
        Words { text }
    }

    /// A copy of a text.
    pub fn of(alloc: Global, text: &str) -> Result<Self, NoMemory>
        ensures { IfOk result (λ words. words ≡ text.now) }
    {
        Ok(Words {
            text: String::from_str(alloc, text)?,
        })
    }

    /// The string back, with no memory taken.
    pub fn into_string(self) -> String
        ensures { string_bytes result ≡ self }
    {
        self.text
    }

    /// The text as a slice.
    pub fn as_str(&self) -> &str
        ensures text { result.now ≡ self.now }
        ensures utf8 { IsUtf8 self.now }
    {
        self.text.as_str()
    }

    /// How many bytes the text has.
    pub fn len(&self) -> usize
        ensures { result ≡ length self.now }
    {
        self.text.len()
    }

    /// Whether the text has no bytes.
    pub fn is_empty(&self) -> bool
        ensures { IsTrue result ↔ (self.now ≡ []) }
    {
        self.text.is_empty()
    }
}

/// Every text is in UTF-8.
pub fn words_are_utf8(words: &Words)
    ensures { IsUtf8 words.now }
{
    let _ = words.as_str();
}

impl fmt::Display for Words {
    ghost use Rattle.std.specs.Prelude.{Some};

    ghost output = { λ words. Some words };

    fn fmt<W: fmt::Write>(&self, f: &mut fmt::Formatter<W>) -> fmt::Result {
        f.write_str(self.text.as_str())
    }
}

impl Clone for Words {
    ghost use Rattle.std.specs.Prelude.{◌≡◌};

    ghost is_clone = { λ old new. new ≡ old };

    fn clone(&self) -> Result<Words, AllocError> {
        Ok(Words {
            text: self.text.clone()?,
        })
    }
}

impl Exact for Words {
    ghost exact = { λ value copy same. same };
}

impl PartialEq for Words {
    ghost use Rattle.std.specs.Prelude.{nat_eq};
    ghost use Rattle.std.specs.Cmp.Lexicographic.{pointwise, nat_list_eq_equiv};
    ghost use Rattle.std.specs.Cmp.{partial_equiv_from_equiv};

    ghost eq = { pointwise nat_eq };

    ghost laws = { partial_equiv_from_equiv nat_list_eq_equiv };

    fn eq(&self, other: &Words) -> bool {
        self.text.as_str() == other.text.as_str()
    }
}

impl Eq for Words {
    ghost use Rattle.std.specs.Cmp.Lexicographic.{nat_list_eq_equiv};

    ghost laws = { nat_list_eq_equiv };
}

impl PartialOrd for Words {
    ghost use Rattle.std.specs.Prelude.{Some};
    ghost use Rattle.std.specs.Ordering.{nat_cmp};
    ghost use Rattle.std.specs.Cmp.Lexicographic.{slice_cmp, texts_po};

    ghost partial_cmp = { λ a b. Some (slice_cmp nat_cmp a b) };

    ghost laws = { texts_po };

    fn partial_cmp(&self, other: &Words) -> Option<Ordering> {
        Some(self.cmp(other))
    }
}

/// Texts are ordered by their bytes.
impl Ord for Words {
    ghost use Rattle.std.proofs.Common.{refl};
    ghost use Rattle.std.specs.Ordering.{nat_cmp};
    ghost use Rattle.std.specs.Cmp.Lexicographic.{slice_cmp, nat_list_cmp_total, texts_ties};

    ghost cmp = { slice_cmp nat_cmp };

    ghost total = { nat_list_cmp_total };

    ghost matches_partial_cmp = { λ a b. refl };

    ghost matches_eq = { texts_ties };

    fn cmp(&self, other: &Words) -> Ordering {
        self.text.as_str().cmp(other.text.as_str())
    }
}
