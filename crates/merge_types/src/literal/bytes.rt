//! Bytes as hexadecimal digits.
ghost use Rattle.std.specs.Prelude.{◌≡◌, ℕ, List, IfOk, IfSome, IfNone};
ghost use Rattle.merge_types.specs.Literal.{IsBytesText, bytes_text};

use crate::{Listing, NoMemory, Octets, Words};
use hex::FromHexError;
use std::alloc::Global;

/// `x` and two digits in lower case for each byte.
pub fn print(alloc: Global, bytes: &[u8]) -> Result<Words, NoMemory>
    ensures text { IfOk result (λ words. words ≡ bytes_text bytes.now) }
    ensures reads_back { IfOk result (λ words. IsBytesText words bytes.now) }
{
    let mut out = String::from_str(alloc, "x")?;
    let digits = hex::encode(alloc, bytes)?;
    out.push_str(digits.as_str())?;
    Ok(Words::new(out))
}

/// The bytes that `x` and pairs of digits stand for.
pub fn read(alloc: Global, text: &[u8]) -> Result<Option<Octets>, NoMemory>
    ensures some { IfOk result (λ read. IfSome read (IsBytesText text.now)) }
    ensures none { IfOk result (λ read. IfNone read ((bytes : List ℕ) → IsBytesText text.now bytes → ⊥)) }
{
    let [b'x', digits @ ..] = text else {
        return Ok(None);
    };
    match hex::decode(alloc, digits) {
        Ok(bytes) => Ok(Some(Listing::new(bytes))),
        Err(FromHexError::OutOfMemory) => Err(NoMemory),
        Err(_) => Ok(None),
    }
}
