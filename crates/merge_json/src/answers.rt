//! Answers to joins, uploads and requests for ranges, and refusals.
ghost use Rattle.std.specs.Prelude.{◌≡◌, option_map};
ghost use Rattle.serde_json.specs.View.{view, items_view};
ghost use Rattle.merge_json.specs.Outcomes.{Gives};
ghost use Rattle.merge_json.specs.Reading.{whole_at, each_at};
ghost use Rattle.merge_json.specs.Replies.{joined_at, uploaded_at, grant_at, ended_at, ranged_at, field_count, refused_of, refused_at};

use crate::fields::{byte, list, member, signed, whole};
use crate::stop::Stop;
use merge_batch::{Ended, Joined, RangeGrant, Ranged, Reply, Uploaded};
use merge_types::Listing;
use serde_json::Value;
use std::alloc::Global;

#[tactic(auto, unfolding(crate::specs::Replies::joined_at))]
pub(crate) fn joined(value: &Value) -> Result<Joined, Stop>
    ensures { Gives (λ j. j) result (joined_at (view value.now)) }
{
    let seq = whole(member(value, "seq")?)?;
    Ok(Joined { seq })
}

#[tactic(auto, unfolding(crate::specs::Replies::uploaded_at))]
pub(crate) fn uploaded(value: &Value) -> Result<Uploaded, Stop>
    ensures { Gives (λ u. u) result (uploaded_at (view value.now)) }
{
    let seq = whole(member(value, "seq")?)?;
    let received = whole(member(value, "received")?)?;
    Ok(Uploaded { seq, received })
}

#[tactic(auto, unfolding(crate::specs::Replies::grant_at))]
fn grant(value: &Value) -> Result<RangeGrant, Stop>
    ensures { Gives (λ g. g) result (grant_at (view value.now)) }
{
    let article = byte(member(value, "article")?)?;
    let number = whole(member(value, "number")?)?;
    let begin = signed(member(value, "begin")?)?;
    let end = signed(member(value, "end")?)?;
    Ok(RangeGrant {
        article,
        number,
        begin,
        end,
    })
}

fn grants(alloc: Global, values: &[Value]) -> Result<Vec<RangeGrant>, Stop>
    ensures { Gives (λ v. v.items) result (each_at grant_at (items_view values.now)) }
{
    let mut grants = Vec::new(alloc);
    for value in values {
        grants.push(grant(value)?)?;
    }
    Ok(grants)
}

#[tactic(auto, unfolding(crate::specs::Replies::ended_at))]
fn one_ended(value: &Value) -> Result<Ended, Stop>
    ensures { Gives (λ e. e) result (ended_at (view value.now)) }
{
    let article = byte(member(value, "article")?)?;
    let next = whole(member(value, "next")?)?;
    let greatest = signed(member(value, "greatest")?)?;
    Ok(Ended {
        article,
        next,
        greatest,
    })
}

fn ended(alloc: Global, values: &[Value]) -> Result<Vec<Ended>, Stop>
    ensures { Gives (λ v. v.items) result (each_at ended_at (items_view values.now)) }
{
    let mut ended = Vec::new(alloc);
    for value in values {
        ended.push(one_ended(value)?)?;
    }
    Ok(ended)
}

#[tactic(auto, unfolding(crate::specs::Replies::ranged_at))]
pub(crate) fn ranged(alloc: Global, value: &Value) -> Result<Ranged, Stop>
    ensures { Gives (λ r. r) result (ranged_at (view value.now)) }
{
    let seq = whole(member(value, "seq")?)?;
    let grants = grants(alloc, list(member(value, "grants")?)?)?;
    let ended = ended(alloc, list(member(value, "ended")?)?)?;
    Ok(Ranged {
        seq,
        grants: Listing::new(grants),
        ended: Listing::new(ended),
    })
}

fn numbers(alloc: Global, values: &[Value]) -> Result<Vec<u64>, Stop>
    ensures { Gives (λ v. v.items) result (each_at whole_at (items_view values.now)) }
{
    let mut numbers = Vec::new(alloc);
    for value in values {
        numbers.push(whole(value)?)?;
    }
    Ok(numbers)
}

// How many fields a refusal has that is told, by its number.
fn field_count(number: u8) -> Option<usize>
    ensures { result ≡ field_count number }
{
    match number {
        1 | 12 | 16 => Some(1),
        2..=6 => Some(2),
        17 => Some(0),
        _ => None,
    }
}

fn refusal(number: u8, values: Vec<u64>) -> Result<Reply, Stop>
    ensures { Gives (λ r. r) result (refused_of number values.items) }
{
    if field_count(number) == Some(values.len()) {
        Ok(Reply::Refused {
            number,
            values: Listing::new(values),
        })
    } else {
        Err(Stop::Broken)
    }
}

#[tactic(auto, unfolding(crate::specs::Replies::refused_at))]
pub(crate) fn refused(alloc: Global, value: &Value) -> Result<Reply, Stop>
    ensures { Gives (λ r. r) result (refused_at (view value.now)) }
{
    let number = byte(member(value, "refused")?)?;
    let values = numbers(alloc, list(member(value, "values")?)?)?;
    refusal(number, values)
}
