//! Identifiers of 128 bits, as UUIDs (RFC 9562).
ghost use Rattle.std.specs.Prelude.{◌≡◌, ℕ, ◌^◌, ◌<◌, IfOk, IfSome, IfNone};
ghost use Rattle.merge_types.specs.Guid.{IsGuidText, guid_text};

use crate::{NoMemory, Words};
use std::alloc::Global;
use std::str;
use uuid::Uuid;

/// The 36 characters, in lower case.
pub fn print(alloc: Global, number: u128) -> Result<Words, NoMemory>
    ensures { IfOk result (λ words. words ≡ guid_text number) }
{
    let uuid = Uuid::from_u128(number);
    let mut buffer = Uuid::encode_buffer();
    let text = uuid.hyphenated().encode_lower(&mut buffer);
    Words::of(alloc, text)
}

/// The number of the 36 characters, in either case.
pub fn read_guid(text: &[u8]) -> Option<u128>
    ensures some { IfSome result (IsGuidText text.now) }
    ensures none { IfNone result ((number : ℕ) → IsGuidText text.now number → ⊥) }
{
    let mut lower = [0; 36];
    if text.len() != lower.len() {
        return None;
    }
    lower.copy_from_slice(text);
    lower.make_ascii_lowercase();
    match str::from_utf8(&lower) {
        Ok(text) => read_lower(text),
        Err(_) => None,
    }
}

// The text is what the number that it parses to is printed as.
fn read_lower(text: &str) -> Option<u128>
    ensures some { IfSome result (λ number. text.now ≡ guid_text number) }
    ensures none { IfNone result ((number : ℕ) → number < 2 ^ 128 → text.now ≡ guid_text number → ⊥) }
{
    let Ok(uuid) = Uuid::parse_str(text) else {
        return None;
    };
    let number = uuid.as_u128();
    let again = Uuid::from_u128(number);
    let mut buffer = Uuid::encode_buffer();
    if again.hyphenated().encode_lower(&mut buffer) == text {
        Some(number)
    } else {
        None
    }
}
