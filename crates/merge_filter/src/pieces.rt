//! What the bytes of one word say.
ghost use Rattle.std.specs.Prelude.{◌≡◌, ◌≤◌, ℕ, ℤ, List, length, take, true, IfOk, IfSome, IfNone, MatchOption, FitsSigned, option_map};
ghost use Rattle.std.specs.Int.{w64};
ghost use Rattle.std.specs.Fmt.{signed_decimal};
ghost use Rattle.std.specs.Str.{IsUtf8};
ghost use Rattle.merge_filter.specs.Words.{is_same_word, keyword_of, mark_of, IsTextWord, Spells};
ghost use Rattle.merge_filter.specs.declared.word.Word.{Word};
ghost use Rattle.merge_filter.specs.declared.kind.Kind.TheVariants as kinds;

use crate::kind::Kind;
use crate::quoted::unquoted;
use crate::word::{Sign, Word};
use hex::FromHexError;
use merge_types::limits::NAME_LIMIT;
use merge_types::{NoMemory, Octets, Words, is_name, read_day, read_guid, read_int};
use std::alloc::Global;
use std::str;

fn is_same_word(piece: &[u8], word: &[u8]) -> bool
    ensures { result ≡ is_same_word piece.now word.now }
{
    piece.eq_ignore_ascii_case(word)
}

fn keyword_of(piece: &[u8]) -> Option<Word>
    ensures { result ≡ keyword_of piece.now }
{
    if is_same_word(piece, b"AND") {
        Some(Word::And)
    } else if is_same_word(piece, b"OR") {
        Some(Word::Or)
    } else if is_same_word(piece, b"NOT") {
        Some(Word::Not)
    } else if is_same_word(piece, b"IS") {
        Some(Word::Is)
    } else if is_same_word(piece, b"NULL") {
        Some(Word::Null)
    } else if is_same_word(piece, b"HOST_NAME") {
        Some(Word::HostName)
    } else if is_same_word(piece, b"DATE") {
        Some(Word::Date)
    } else if is_same_word(piece, b"GUID") {
        Some(Word::Guid)
    } else if is_same_word(piece, b"BIT") {
        Some(Word::Bit)
    } else {
        None
    }
}

fn octets_of(alloc: Global, bytes: &[u8]) -> Result<Octets, NoMemory>
    ensures { IfOk result (λ octets. octets ≡ bytes.now) }
{
    Ok(Octets::new(Vec::from_slice(alloc, bytes)?))
}

fn named(alloc: Global, piece: &[u8]) -> Result<Option<Word>, NoMemory>
    ensures { IfOk result (λ o. MatchOption o ((word : Word) → Spells kinds.Name 0 piece.now word → ⊥) (Spells kinds.Name 0 piece.now)) }
{
    if piece.len() > NAME_LIMIT {
        return Ok(None);
    }
    match keyword_of(piece) {
        Some(word) => Ok(Some(word)),
        None => Ok(Some(Word::Name(octets_of(alloc, piece)?))),
    }
}

fn bracketed(alloc: Global, piece: &[u8]) -> Result<Option<Word>, NoMemory>
    ensures { IfOk result (λ o. MatchOption o ((word : Word) → Spells kinds.Bracketed 0 piece.now word → ⊥) (Spells kinds.Bracketed 0 piece.now)) }
{
    match piece {
        [b'[', name @ .., b']'] if is_name(name) => Ok(Some(Word::Name(octets_of(alloc, name)?))),
        _ => Ok(None),
    }
}

fn mark_of(place: usize, piece: &[u8]) -> Option<Word>
    ensures { result ≡ mark_of place piece.now }
{
    match piece {
        [b'('] => Some(Word::Open),
        [b')'] => Some(Word::Close),
        [b'='] => Some(Word::Sign(Sign::Equal, place)),
        [b'<'] => Some(Word::Sign(Sign::Less, place)),
        [b'>'] => Some(Word::Sign(Sign::Greater, place)),
        [b'<', b'>'] => Some(Word::Sign(Sign::Unequal, place)),
        [b'<', b'='] => Some(Word::Sign(Sign::AtMost, place)),
        [b'>', b'='] => Some(Word::Sign(Sign::AtLeast, place)),
        _ => None,
    }
}

fn number_of(piece: &[u8]) -> Option<Word>
    ensures { MatchOption result ((word : Word) → Spells kinds.Number 0 piece.now word → ⊥) (Spells kinds.Number 0 piece.now) }
{
    match read_int(piece) {
        Some(number) => Some(Word::Int(number)),
        None => None,
    }
}

fn bytes_of(alloc: Global, piece: &[u8]) -> Result<Option<Word>, NoMemory>
    requires { 2 ≤ length piece.now }
    ensures { IfOk result (λ o. MatchOption o ((word : Word) → Spells kinds.Hex 0 piece.now word → ⊥) (Spells kinds.Hex 0 piece.now)) }
{
    match hex::decode(alloc, &piece[2..]) {
        Ok(bytes) => Ok(Some(Word::Bytes(Octets::new(bytes)))),
        Err(FromHexError::OutOfMemory) => Err(NoMemory),
        Err(_) => Ok(None),
    }
}

// The word of a text in quotes, from its bytes.
fn text_word(alloc: Global, bytes: &[u8]) -> Result<Option<Word>, NoMemory>
    ensures { IfOk result (λ o. MatchOption o (IsUtf8 bytes.now → ⊥) (IsTextWord bytes.now)) }
{
    match str::from_utf8(bytes) {
        Ok(text) => {
            let words = Words::of(alloc, text)?;
            Ok(Some(Word::Text(words, read_day(bytes), read_guid(bytes))))
        }
        Err(_) => Ok(None),
    }
}

fn text_of(alloc: Global, piece: &[u8]) -> Result<Option<Word>, NoMemory>
    ensures { IfOk result (λ o. MatchOption o ((word : Word) → Spells kinds.Quoted 0 piece.now word → ⊥) (Spells kinds.Quoted 0 piece.now)) }
{
    match unquoted(alloc, piece)? {
        Some(bytes) => text_word(alloc, &bytes),
        None => Ok(None),
    }
}

/// The word that the bytes are, at a place of the text, if they are one of their kind.
pub fn word_of(
    alloc: Global,
    kind: Kind,
    place: usize,
    piece: &[u8],
) -> Result<Option<Word>, NoMemory>
    requires { kind ≡ kinds.Hex → 2 ≤ length piece.now }
    ensures { IfOk result (λ o. MatchOption o ((word : Word) → Spells kind place piece.now word → ⊥) (Spells kind place piece.now)) }
{
    match kind {
        Kind::Name => named(alloc, piece),
        Kind::Number => Ok(number_of(piece)),
        Kind::Hex => bytes_of(alloc, piece),
        Kind::Quoted => text_of(alloc, piece),
        Kind::Bracketed => bracketed(alloc, piece),
        Kind::Mark => Ok(mark_of(place, piece)),
    }
}
