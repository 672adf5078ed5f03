//! A text as words.
ghost use Rattle.std.specs.Prelude.{◌≡◌, IfOk, IfErr};
ghost use Rattle.merge_filter.specs.Words.{AreAllWords, IsBadToken};
ghost use Rattle.merge_filter.specs.Tokens.{IsRefusedToken};

use crate::kind::{behind_blanks, behind_word, kind_of, run_len};
use crate::pieces::word_of;
use crate::word::Word;
use merge_types::NoMemory;
use std::alloc::{AllocFailed, Global};

/// The words of a text, and the places where they begin.
#[derive(Debug, Drop)]
pub struct Tokens {
    pub words: Vec<Word>,
    pub places: Vec<usize>,
}

/// Why a text has no words.
#[derive(Debug, Drop)]
pub enum TokenFault {
    NoMemory,
    /// At this place no word can be read.
    BadToken(usize),
}

impl From<NoMemory> for TokenFault {
    ghost use Rattle.merge_filter.specs.declared.tokens.TokenFault.TheVariants.{NoMemory as Lacking};
    ghost use Rattle.std.specs.Prelude.{◌≡◌};

    ghost from_gives = { λ _ e. e ≡ Lacking };

    fn from(_: NoMemory) -> TokenFault {
        TokenFault::NoMemory
    }
}

impl<T: Drop> From<AllocFailed<T>> for TokenFault {
    ghost use Rattle.merge_filter.specs.declared.tokens.TokenFault.TheVariants.{NoMemory as Lacking};
    ghost use Rattle.std.specs.Prelude.{◌≡◌};

    ghost from_gives = { λ _ e. e ≡ Lacking };

    fn from(_: AllocFailed<T>) -> TokenFault {
        TokenFault::NoMemory
    }
}

/// The words of a text.
pub fn tokens_of(alloc: Global, text: &[u8]) -> Result<Tokens, TokenFault>
    ensures ok { IfOk result (λ tokens. AreAllWords text.now tokens.words.items tokens.places.items) }
    ensures err { IfErr result (IsRefusedToken text.now) }
{
    let mut words = Vec::new(alloc);
    let mut places = Vec::new(alloc);
    let mut rest = behind_blanks(text);
    while !rest.is_empty() {
        let kind = kind_of(rest);
        let len = run_len(kind, rest);
        let place = text.len() - rest.len();
        match word_of(alloc, kind, place, &rest[..len])? {
            Some(word) => {
                words.push(word)?;
                places.push(place)?;
                rest = behind_word(rest, len);
            }
            None => return Err(TokenFault::BadToken(place)),
        }
    }
    Ok(Tokens { words, places })
}
