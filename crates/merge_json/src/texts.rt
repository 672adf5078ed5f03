//! Texts, and the identifiers and days that they write.
ghost use Rattle.serde_json.specs.Find.{as_str};
ghost use Rattle.serde_json.specs.View.{view};
ghost use Rattle.merge_json.specs.Days.{day_of};
ghost use Rattle.merge_json.specs.Outcomes.{Gives};
ghost use Rattle.merge_json.specs.Values.{guid_of};

use crate::stop::Stop;
use merge_types::{read_day, read_guid};
use serde_json::Value;

// The text of a JSON string.
pub(crate) fn text(value: &Value) -> Result<&str, Stop>
    ensures { Gives (λ s. s.now) result (as_str (view value.now)) }
{
    match value.as_str() {
        Some(text) => Ok(text),
        None => Err(Stop::Broken),
    }
}

// The number of an identifier.
pub(crate) fn guid(text: &str) -> Result<u128, Stop>
    ensures { Gives (λ n. n) result (guid_of text.now) }
{
    match read_guid(text.as_bytes()) {
        Some(number) => Ok(number),
        None => Err(Stop::Broken),
    }
}

pub(crate) fn day(text: &str) -> Result<i32, Stop>
    ensures { Gives (λ z. z) result (day_of text.now) }
{
    match read_day(text.as_bytes()) {
        Some(day) => Ok(day),
        None => Err(Stop::Broken),
    }
}
