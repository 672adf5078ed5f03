//! Bodies of messages as JSON values.
ghost use Rattle.std.specs.Prelude.{◌≡◌, ◌≤◌, true, false, IfOk, Some, string_bytes};
ghost use Rattle.std.specs.Str.{is_utf8};
ghost use Rattle.serde_json.specs.Data.{depth};
ghost use Rattle.serde_json.specs.View.{view};
ghost use Rattle.serde_json.specs.Read as json;
ghost use Rattle.serde_json.specs.Read.{max_depth};
ghost use Rattle.serde_json.specs.Written.{compact_text, has_float};
ghost use Rattle.merge_json.specs.Outcomes.{Gives};
ghost use Rattle.merge_json.specs.Bodies.{data_at};

use crate::stop::Stop;
use merge_types::{NoMemory, Octets};
use serde_json::Value;
use std::alloc::Global;
use std::str;

// The compact text of a value.
#[tactic(auto, unfolding(crate::specs::Bodies::data_at))]
pub(crate) fn write(alloc: Global, value: &Value) -> Result<Octets, NoMemory>
    requires plain { has_float (view value.now) ≡ false }
    requires flat { depth (view value.now) ≤ max_depth }
    ensures text { IfOk result (λ body. body ≡ compact_text (view value.now)) }
    ensures reads_back { IfOk result (λ body. data_at body ≡ Some (view value.now)) }
{
    let text = value.to_string(alloc)?;
    Ok(octets(text))
}

// The bytes of a text.
fn octets(text: String) -> Octets
    ensures bytes { result ≡ string_bytes text }
    ensures text { is_utf8 (string_bytes text) ≡ true }
{
    let _text = text.as_str();
    Octets::new(text.into_bytes())
}

// The value of a body, which is a text in UTF-8.
#[tactic(auto, unfolding(crate::specs::Bodies::data_at))]
pub(crate) fn read(alloc: Global, body: &[u8]) -> Result<Value, Stop>
    ensures { Gives view result (data_at body.now) }
{
    match str::from_utf8(body) {
        Ok(text) => read_text(alloc, text),
        Err(_) => Err(Stop::Broken),
    }
}

fn read_text(alloc: Global, text: &str) -> Result<Value, Stop>
    ensures { Gives view result (json.read text.now) }
{
    match Value::from_str(alloc, text) {
        Ok(value) => Ok(value),
        Err(e) => Err(if e.is_memory() {
            Stop::Memory
        } else {
            Stop::Broken
        }),
    }
}
