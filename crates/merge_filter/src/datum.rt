//! Values as they are compared.
ghost use Rattle.std.specs.Prelude.{◌≡◌};
ghost use Rattle.merge_filter.specs.Eval.{value_seen, order_of};

use merge_types::Value;
use std::cmp::Ordering;

/// A value whose text or bytes are borrowed.
#[derive(Clone, Copy)]
pub enum Datum<'a> {
    Null,
    Int(i64),
    Bit(bool),
    Text(&'a [u8]),
    Day(i32),
    Guid(u128),
    Bytes(&'a [u8]),
}

/// A value as it is compared.
pub fn datum_of(value: &Value) -> Datum<'_>
    ensures { value_seen result ≡ value.now }
{
    match value {
        Value::Null => Datum::Null,
        Value::Int(number) => Datum::Int(*number),
        Value::Bit(bit) => Datum::Bit(*bit),
        Value::Text(words) => Datum::Text(words.as_str().as_bytes()),
        Value::Day(day) => Datum::Day(*day),
        Value::Guid(guid) => Datum::Guid(*guid),
        Value::Bytes(octets) => Datum::Bytes(octets.as_slice()),
    }
}

/// How two values of one type stand to each other. None where a value is Null.
pub fn order_of(left: Datum<'_>, right: Datum<'_>) -> Option<Ordering>
    ensures { result ≡ order_of (value_seen left.entry) (value_seen right.entry) }
{
    match (left, right) {
        (Datum::Int(a), Datum::Int(b)) => Some(a.cmp(&b)),
        (Datum::Bit(a), Datum::Bit(b)) => Some(a.cmp(&b)),
        (Datum::Text(a), Datum::Text(b)) => Some(a.cmp(b)),
        (Datum::Day(a), Datum::Day(b)) => Some(a.cmp(&b)),
        (Datum::Guid(a), Datum::Guid(b)) => Some(a.cmp(&b)),
        (Datum::Bytes(a), Datum::Bytes(b)) => Some(a.cmp(b)),
        _ => None,
    }
}
