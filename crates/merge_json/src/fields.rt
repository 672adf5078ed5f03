//! Members of objects, and values of the plain kinds.
ghost use Rattle.std.specs.Prelude.{◌≡◌, ℕ, IfSome, option_map};
ghost use Rattle.serde_json.specs.Find.{get, as_array};
ghost use Rattle.serde_json.specs.View.{view, items_view};
ghost use Rattle.merge_json.specs.Outcomes.{Gives};
ghost use Rattle.merge_json.specs.Reading.{whole_at, below_at, signed_at, bit_at};
ghost use Rattle.merge_json.specs.Rows.{site_at};

use crate::stop::Stop;
use merge_types::SiteId;
use serde_json::Value;

// The member with a key.
pub(crate) fn member<'a>(value: &'a Value, key: &str) -> Result<&'a Value, Stop>
    ensures { Gives (λ v. view v.now) result (get key.now (view value.now)) }
{
    match value.get(key) {
        Some(found) => Ok(found),
        None => Err(Stop::Broken),
    }
}

#[tactic(auto, unfolding(crate::specs::Reading::whole_at))]
pub(crate) fn whole(value: &Value) -> Result<u64, Stop>
    ensures { Gives (λ n. n) result (whole_at (view value.now)) }
{
    match value.as_u64() {
        Some(number) => Ok(number),
        None => Err(Stop::Broken),
    }
}

#[tactic(auto, unfolding(crate::specs::Reading::below_at))]
pub(crate) fn byte(value: &Value) -> Result<u8, Stop>
    ensures { Gives (λ n. n) result (below_at 256 (view value.now)) }
{
    let number = whole(value)?;
    if number < 256 {
        Ok(number as u8)
    } else {
        Err(Stop::Broken)
    }
}

#[tactic(auto, unfolding(crate::specs::Reading::below_at))]
pub(crate) fn short(value: &Value) -> Result<u16, Stop>
    ensures { Gives (λ n. n) result (below_at 65_536 (view value.now)) }
{
    let number = whole(value)?;
    if number < 65_536 {
        Ok(number as u16)
    } else {
        Err(Stop::Broken)
    }
}

#[tactic(auto, unfolding(crate::specs::Rows::site_at))]
pub(crate) fn site(value: &Value) -> Result<SiteId, Stop>
    ensures { Gives (λ s. s) result (site_at (view value.now)) }
{
    let number = short(value)?;
    Ok(SiteId(number))
}

#[tactic(auto, unfolding(crate::specs::Reading::signed_at))]
pub(crate) fn signed(value: &Value) -> Result<i64, Stop>
    ensures { Gives (λ z. z) result (signed_at (view value.now)) }
{
    match value.as_i64() {
        Some(number) => Ok(number),
        None => Err(Stop::Broken),
    }
}

#[tactic(auto, unfolding(crate::specs::Reading::bit_at))]
pub(crate) fn bit(value: &Value) -> Result<bool, Stop>
    ensures { Gives (λ b. b) result (bit_at (view value.now)) }
{
    match value.as_bool() {
        Some(bit) => Ok(bit),
        None => Err(Stop::Broken),
    }
}

// The members of a list.
pub(crate) fn list(value: &Value) -> Result<&[Value], Stop>
    ensures { Gives (λ vs. items_view vs.now) result (as_array (view value.now)) }
{
    match value.as_array() {
        Some(values) => Ok(values.as_slice()),
        None => Err(Stop::Broken),
    }
}
