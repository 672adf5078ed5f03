//! Values of columns.
ghost use Rattle.std.specs.Prelude.{option_map};
ghost use Rattle.serde_json.specs.View.{view, items_view, number_view};
ghost use Rattle.merge_json.specs.Outcomes.{Gives};
ghost use Rattle.merge_json.specs.Reading.{each_at};
ghost use Rattle.merge_json.specs.Values.{bytes_at, day_at, guid_at, tagged_at, tag_at, count_of, int_at, value_at};

use crate::stop::Stop;
use crate::texts::{day, guid, text};
use hex::FromHexError;
use merge_types::{Listing, Value as Datum, Words};
use serde_json::{Number, Value};
use std::alloc::Global;

#[tactic(auto, unfolding(crate::specs::Values::guid_at))]
fn guid_value(value: &Value) -> Result<Datum, Stop>
    ensures { Gives (λ v. v) result (guid_at (view value.now)) }
{
    let number = guid(text(value)?)?;
    Ok(Datum::Guid(number))
}

#[tactic(auto, unfolding(crate::specs::Values::day_at))]
fn day_value(value: &Value) -> Result<Datum, Stop>
    ensures { Gives (λ v. v) result (day_at (view value.now)) }
{
    let day = day(text(value)?)?;
    Ok(Datum::Day(day))
}

#[tactic(auto, unfolding(crate::specs::Values::bytes_at))]
fn bytes_value(alloc: Global, value: &Value) -> Result<Datum, Stop>
    ensures { Gives (λ v. v) result (bytes_at (view value.now)) }
{
    let text = text(value)?;
    match hex::decode(alloc, text.as_bytes()) {
        Ok(bytes) => Ok(Datum::Bytes(Listing::new(bytes))),
        Err(FromHexError::OutOfMemory) => Err(Stop::Memory),
        Err(_) => Err(Stop::Broken),
    }
}

#[tactic(auto, unfolding(crate::specs::Values::count_of))]
fn count(value: &Value) -> Result<usize, Stop>
    ensures { Gives (λ n. n) result (count_of (view value.now)) }
{
    match value.as_object() {
        Some(members) => Ok(members.len()),
        None => Err(Stop::Broken),
    }
}

fn tag(
    alloc: Global,
    bytes: Option<&Value>,
    day: Option<&Value>,
    guid: Option<&Value>,
) -> Result<Datum, Stop>
    ensures { Gives (λ v. v) result (tag_at (option_map (λ v. view v.now) bytes.entry) (option_map (λ v. view v.now) day.entry) (option_map (λ v. view v.now) guid.entry)) }
{
    match (bytes, day, guid) {
        (Some(value), _, _) => bytes_value(alloc, value),
        (None, Some(value), _) => day_value(value),
        (None, None, Some(value)) => guid_value(value),
        (None, None, None) => Err(Stop::Broken),
    }
}

// A value whose type is told by the one key of an object.
#[tactic(auto, unfolding(crate::specs::Values::tagged_at))]
fn tagged(alloc: Global, value: &Value) -> Result<Datum, Stop>
    ensures { Gives (λ v. v) result (tagged_at (view value.now)) }
{
    if count(value)? == 1 {
        tag(
            alloc,
            value.get("bytes"),
            value.get("day"),
            value.get("guid"),
        )
    } else {
        Err(Stop::Broken)
    }
}

#[tactic(auto, unfolding(crate::specs::Values::int_at))]
fn int(number: &Number) -> Result<Datum, Stop>
    ensures { Gives (λ v. v) result (int_at (number_view number.now)) }
{
    match number.as_i64() {
        Some(number) => Ok(Datum::Int(number)),
        None => Err(Stop::Broken),
    }
}

#[tactic(auto, unfolding(crate::specs::Values::value_at))]
fn datum(alloc: Global, value: &Value) -> Result<Datum, Stop>
    ensures { Gives (λ v. v) result (value_at (view value.now)) }
{
    match value {
        Value::Null => Ok(Datum::Null),
        Value::Bool(bit) => Ok(Datum::Bit(*bit)),
        Value::Number(number) => int(number),
        Value::String(text) => Ok(Datum::Text(Words::of(alloc, text.as_str())?)),
        Value::Array(_) => Err(Stop::Broken),
        Value::Object(_) => tagged(alloc, value),
    }
}

pub(crate) fn data(alloc: Global, values: &[Value]) -> Result<Vec<Datum>, Stop>
    ensures { Gives (λ v. v.items) result (each_at value_at (items_view values.now)) }
{
    let mut data = Vec::new(alloc);
    for value in values {
        data.push(datum(alloc, value)?)?;
    }
    Ok(data)
}
