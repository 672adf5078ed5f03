//! Values of columns.
ghost use Rattle.std.specs.Prelude.{◌≡◌, ◌<◌, ◌^◌, ◌++◌, true, length, FitsSigned, OnOk};
ghost use Rattle.std.specs.Int.{w64};
ghost use Rattle.std.specs.Str.{is_utf8};
ghost use Rattle.merge_types.specs.declared.values.Value.TheVariants.{Int};
ghost use Rattle.merge_record.specs.Reading.{Gives, string_at};
ghost use Rattle.merge_record.specs.Codec.{string_bytes_of};
ghost use Rattle.merge_record.specs.Versions.{bit_at, text_at, day_at, tagged_at, value_bytes};

use crate::field::{put, put_byte};
use crate::{Field, Stop};
use merge_types::limits::{FIRST_DAY, LAST_DAY};
use merge_types::{Listing, NoMemory, Octets, Value, Words};
use std::alloc::Global;
use std::str;

#[tactic(auto, unfolding(crate::specs::Versions::bit_at))]
fn take_bit(bytes: &[u8]) -> Result<(bool, &[u8]), Stop>
    ensures { Gives (λ x. (x.0, x.1.now)) result (bit_at bytes.now) }
{
    match bytes {
        [0, rest @ ..] => Ok((false, rest)),
        [1, rest @ ..] => Ok((true, rest)),
        _ => Err(Stop::Broken),
    }
}

// A length in two bytes, and so many bytes.
fn take_string(alloc: Global, bytes: &[u8]) -> Result<(&[u8], &[u8]), Stop>
    ensures { Gives (λ x. (x.0.now, x.1.now)) result (string_at bytes.now) }
{
    let (len, rest) = u16::take(alloc, bytes)?;
    let len = len as usize;
    if rest.len() < len {
        return Err(Stop::Broken);
    }
    Ok(rest.split_at(len))
}

fn take_octets(alloc: Global, bytes: &[u8]) -> Result<(Octets, &[u8]), Stop>
    ensures { Gives (λ x. (x.0, x.1.now)) result (string_at bytes.now) }
{
    let (text, rest) = take_string(alloc, bytes)?;
    Ok((Listing::new(Vec::from_slice(alloc, text)?), rest))
}

#[tactic(auto, unfolding(crate::specs::Versions::text_at))]
fn take_text(alloc: Global, bytes: &[u8]) -> Result<(Words, &[u8]), Stop>
    ensures { Gives (λ x. (x.0, x.1.now)) result (text_at bytes.now) }
{
    let (text, rest) = take_string(alloc, bytes)?;
    match str::from_utf8(text) {
        Ok(text) => Ok((Words::of(alloc, text)?, rest)),
        Err(_) => Err(Stop::Broken),
    }
}

#[tactic(auto, unfolding(crate::specs::Versions::day_at))]
fn take_day(alloc: Global, bytes: &[u8]) -> Result<(i32, &[u8]), Stop>
    ensures { Gives (λ x. (x.0, x.1.now)) result (day_at bytes.now) }
{
    let (day, rest) = i32::take(alloc, bytes)?;
    if FIRST_DAY <= day && day <= LAST_DAY {
        return Ok((day, rest));
    }
    Err(Stop::Broken)
}

#[tactic(auto, unfolding(crate::specs::Versions::tagged_at))]
fn take_tagged(alloc: Global, tag: u8, bytes: &[u8]) -> Result<(Value, &[u8]), Stop>
    ensures { Gives (λ x. (x.0, x.1.now)) result (tagged_at tag bytes.now) }
{
    match tag {
        0 => Ok((Value::Null, bytes)),
        1 => {
            let (number, rest) = i64::take(alloc, bytes)?;
            Ok((Value::Int(number), rest))
        }
        2 => {
            let (bit, rest) = take_bit(bytes)?;
            Ok((Value::Bit(bit), rest))
        }
        3 => {
            let (words, rest) = take_text(alloc, bytes)?;
            Ok((Value::Text(words), rest))
        }
        4 => {
            let (day, rest) = take_day(alloc, bytes)?;
            Ok((Value::Day(day), rest))
        }
        5 => {
            let (guid, rest) = u128::take(alloc, bytes)?;
            Ok((Value::Guid(guid), rest))
        }
        6 => {
            let (octets, rest) = take_octets(alloc, bytes)?;
            Ok((Value::Bytes(octets), rest))
        }
        _ => Err(Stop::Broken),
    }
}

fn put_string(out: &mut Vec<u8>, bytes: &[u8]) -> Result<(), NoMemory>
    requires { length bytes.now < 2 ^ 16 }
    ensures { OnOk result (out.new.items ≡ out.old.items ++ string_bytes_of bytes.now) }
{
    put(out, &(bytes.len() as u16).to_be_bytes())?;
    put(out, bytes)
}

// The text of words is UTF-8.
fn put_text(out: &mut Vec<u8>, words: &Words) -> Result<(), NoMemory>
    requires { length words.now < 2 ^ 16 }
    ensures fits { is_utf8 words.now ≡ true }
    ensures bytes { OnOk result (out.new.items ≡ out.old.items ++ string_bytes_of words.now) }
{
    let text = words.as_str();
    put_string(out, text.as_bytes())
}

fn put_int(out: &mut Vec<u8>, number: i64) -> Result<(), NoMemory>
    ensures fits { FitsSigned w64 number }
    ensures bytes { OnOk result (out.new.items ≡ out.old.items ++ value_bytes (Int number)) }
{
    put_byte(out, 1)?;
    put(out, &number.to_be_bytes())
}

impl Field for Value {
    ghost use Rattle.merge_record.specs.Versions.{value_at, value_bytes, IsValue, IsShortValue};

    ghost spelling = { value_bytes };

    ghost reading = { value_at };

    ghost IsSpelled = { IsValue };

    ghost IsShort = { IsShortValue };

    fn put(&self, out: &mut Vec<u8>) -> Result<(), NoMemory> {
        match self {
            Value::Null => put_byte(out, 0),
            Value::Int(number) => put_int(out, *number),
            Value::Bit(bit) => put(out, &[2, u8::from(*bit)]),
            Value::Text(words) => {
                put_byte(out, 3)?;
                put_text(out, words)
            }
            Value::Day(day) => {
                put_byte(out, 4)?;
                put(out, &day.to_be_bytes())
            }
            Value::Guid(guid) => {
                put_byte(out, 5)?;
                put(out, &guid.to_be_bytes())
            }
            Value::Bytes(octets) => {
                put_byte(out, 6)?;
                put_string(out, octets.as_slice())
            }
        }
    }

    #[tactic(auto, unfolding(crate::specs::Versions::value_at))]
    fn take(alloc: Global, bytes: &[u8]) -> Result<(Value, &[u8]), Stop> {
        let (tag, rest) = u8::take(alloc, bytes)?;
        take_tagged(alloc, tag, rest)
    }
}
