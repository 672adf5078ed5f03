//! Whole numbers as decimals.
ghost use Rattle.std.specs.Prelude.{◌≡◌, ◌<◌, ◌^◌, ℕ, ℤ, IfOk, IfSome, IfNone, FitsSigned};
ghost use Rattle.std.specs.Int.{w64};
ghost use Rattle.std.specs.Fmt.{decimal, signed_decimal};

use crate::{NoMemory, Words};
use itoa::Buffer;
use std::alloc::Global;
use std::str;

/// The number that a decimal writes, with `-` or nothing before it. There is no leading zero and
/// no `-0`, and the number fits an `i64`.
pub fn read_int(text: &[u8]) -> Option<i64>
    ensures some { IfSome result (λ number. text.now ≡ signed_decimal number) }
    ensures none { IfNone result ((number : ℤ) → FitsSigned w64 number → text.now ≡ signed_decimal number → ⊥) }
{
    match str::from_utf8(text) {
        Ok(text) => int_of(text),
        Err(_) => None,
    }
}

// A decimal is what the number that it parses to is printed as.
fn int_of(text: &str) -> Option<i64>
    ensures some { IfSome result (λ number. text.now ≡ signed_decimal number) }
    ensures none { IfNone result ((number : ℤ) → FitsSigned w64 number → text.now ≡ signed_decimal number → ⊥) }
{
    let Ok(number) = text.parse::<i64>() else {
        return None;
    };
    let mut buffer = Buffer::new();
    if buffer.format(number) == text {
        Some(number)
    } else {
        None
    }
}

/// The number that a decimal writes. There is no sign and no leading zero, and the number fits a
/// `u64`.
pub fn read_decimal(text: &[u8]) -> Option<u64>
    ensures some { IfSome result (λ number. text.now ≡ decimal number) }
    ensures none { IfNone result ((number : ℕ) → number < 2 ^ 64 → text.now ≡ decimal number → ⊥) }
{
    match str::from_utf8(text) {
        Ok(text) => decimal_of(text),
        Err(_) => None,
    }
}

fn decimal_of(text: &str) -> Option<u64>
    ensures some { IfSome result (λ number. text.now ≡ decimal number) }
    ensures none { IfNone result ((number : ℕ) → number < 2 ^ 64 → text.now ≡ decimal number → ⊥) }
{
    let Ok(number) = text.parse::<u64>() else {
        return None;
    };
    let mut buffer = Buffer::new();
    if buffer.format(number) == text {
        Some(number)
    } else {
        None
    }
}

/// The decimal of a number.
pub fn print(alloc: Global, number: i64) -> Result<Words, NoMemory>
    ensures { IfOk result (λ words. words ≡ signed_decimal number) }
{
    let mut buffer = Buffer::new();
    Words::of(alloc, buffer.format(number))
}
