//! Values as literals.
ghost use Rattle.std.specs.Prelude.{◌≡◌, Bool, IfOk, IfSome, IfNone, codes};
ghost use Rattle.merge_types.specs.declared.values.Value.{Value as AnyValue};
ghost use Rattle.merge_types.specs.Literal.{IsLiteral, IsProper, bit_text, printed};

mod bytes;
mod day;
pub mod guid;
mod number;
mod quoted;

use crate::{NoMemory, Value, Words};
pub use day::read_day;
pub use guid::read_guid;
pub use number::{read_decimal, read_int};
pub(crate) use quoted::Quoted;
use std::alloc::Global;

impl Value {
    /// The value that a literal stands for, and none for any other text.
    pub fn read(alloc: Global, text: &[u8]) -> Result<Option<Value>, NoMemory>
        ensures some { IfOk result (λ read. IfSome read (IsLiteral text.now)) }
        ensures none { IfOk result (λ read. IfNone read ((value : AnyValue) → IsLiteral text.now value → ⊥)) }
        ensures one { (value other : AnyValue) → IsLiteral text.now value → IsLiteral text.now other → value ≡ other }
    {
        read_literal(alloc, text)
    }

    /// The value as a literal.
    pub fn text(&self, alloc: Global) -> Result<Words, NoMemory>
        requires { IsProper self.now }
        ensures text { IfOk result (λ words. words ≡ printed self.now) }
        ensures reads_back { IfOk result (λ words. IsLiteral words self.now) }
    {
        match self {
            Value::Null => Words::of(alloc, "null"),
            Value::Int(number) => number::print(alloc, *number),
            Value::Bit(bit) => print_bit(alloc, *bit),
            Value::Text(words) => quoted::print(alloc, words.as_str()),
            Value::Day(day) => day::print(alloc, *day),
            Value::Guid(number) => guid::print(alloc, *number),
            Value::Bytes(octets) => bytes::print(alloc, octets.as_slice()),
        }
    }
}

fn print_bit(alloc: Global, bit: bool) -> Result<Words, NoMemory>
    ensures { IfOk result (λ words. words ≡ bit_text bit) }
{
    Words::of(alloc, if bit { "true" } else { "false" })
}

// Each type has its own reader, which is exact, so that the order of the readers does not count.
fn read_literal(alloc: Global, text: &[u8]) -> Result<Option<Value>, NoMemory>
    ensures some { IfOk result (λ read. IfSome read (IsLiteral text.now)) }
    ensures none { IfOk result (λ read. IfNone read ((value : AnyValue) → IsLiteral text.now value → ⊥)) }
{
    if let Some(value) = read_word(text) {
        return Ok(Some(value));
    }
    if let Some(number) = read_int(text) {
        return Ok(Some(Value::Int(number)));
    }
    if let Some(day) = day::read_day(text) {
        return Ok(Some(Value::Day(day)));
    }
    if let Some(number) = guid::read_guid(text) {
        return Ok(Some(Value::Guid(number)));
    }
    if let Some(words) = quoted::read(alloc, text)? {
        return Ok(Some(Value::Text(words)));
    }
    match bytes::read(alloc, text)? {
        Some(octets) => Ok(Some(Value::Bytes(octets))),
        None => Ok(None),
    }
}

// The values that are written as words.
fn read_word(text: &[u8]) -> Option<Value>
    ensures some { IfSome result (IsLiteral text.now) }
    ensures null { IfNone result (text.now ≡ codes "null" → ⊥) }
    ensures bit { IfNone result ((bit : Bool) → text.now ≡ bit_text bit → ⊥) }
{
    match text {
        b"null" => Some(Value::Null),
        b"true" => Some(Value::Bit(true)),
        b"false" => Some(Value::Bit(false)),
        _ => None,
    }
}
