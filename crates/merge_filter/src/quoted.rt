//! Texts in single quotes.
ghost use Rattle.std.specs.Prelude.{◌≡◌, IfOk, option_map};
ghost use Rattle.merge_filter.specs.Quoting.{content_of, behind_quote, quoted_content};

use merge_types::NoMemory;
use std::alloc::Global;

// The bytes of a text, from what stands behind its opening quote.
fn content_of(alloc: Global, body: &[u8]) -> Result<Option<Vec<u8>>, NoMemory>
    ensures { IfOk result (λ o. option_map (λ v. v.items) o ≡ content_of body.now) }
{
    let mut bytes = Vec::new(alloc);
    let mut rest = body;
    loop {
        match rest {
            [b'\''] => return Ok(Some(bytes)),
            [b'\'', b'\'', after @ ..] => {
                bytes.push(b'\'')?;
                rest = after;
            }
            [] | [b'\'', ..] => return Ok(None),
            [byte, after @ ..] => {
                bytes.push(*byte)?;
                rest = after;
            }
        }
    }
}

// What stands behind an opening quote.
fn behind_quote(piece: &[u8]) -> Option<&[u8]>
    ensures { option_map (λ body. body.now) result ≡ behind_quote piece.now }
{
    match piece {
        [b'\'', body @ ..] => Some(body),
        _ => None,
    }
}

/// The bytes of a text in quotes.
pub fn unquoted(alloc: Global, piece: &[u8]) -> Result<Option<Vec<u8>>, NoMemory>
    ensures { IfOk result (λ o. option_map (λ bytes. bytes.items) o ≡ quoted_content piece.now) }
{
    match behind_quote(piece) {
        Some(body) => content_of(alloc, body),
        None => Ok(None),
    }
}
