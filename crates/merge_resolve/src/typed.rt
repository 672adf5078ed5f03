//! What the types of values give. These functions do nothing: their contracts are what is known of values at hand.
ghost use Rattle.std.specs.Prelude.{◌≡◌, ◌^◌, nat_lt, true};
ghost use Rattle.std.specs.Str.{is_utf8};
ghost use Rattle.merge_resolve.specs.ValueTypes.{is_i32, is_i64, is_typed, are_typed};

use merge_types::{Value, Words, words_are_utf8};

/// All of these values are of their types.
pub fn values_are_typed(values: &[Value])
    ensures { are_typed values.now ≡ true }
{
    for at in 0..values.len() {
        value_is_typed(&values[at]);
    }
}

fn value_is_typed(value: &Value)
    ensures { is_typed value.now ≡ true }
{
    match value {
        Value::Int(number) => int_is_typed(*number),
        Value::Text(words) => text_is_typed(words),
        Value::Day(day) => day_is_typed(*day),
        Value::Guid(guid) => guid_is_typed(*guid),
        _ => {}
    }
}

fn int_is_typed(number: i64)
    ensures { is_i64 number ≡ true }
{}

fn day_is_typed(day: i32)
    ensures { is_i32 day ≡ true }
{}

fn guid_is_typed(guid: u128)
    ensures { nat_lt guid (2 ^ 128) ≡ true }
{}

fn text_is_typed(words: &Words)
    ensures { is_utf8 words.now ≡ true }
{
    words_are_utf8(words);
}
