//! Joins, requests for ranges and requests for downloads.
ghost use Rattle.serde_json.specs.View.{view, items_view};
ghost use Rattle.merge_json.specs.Outcomes.{Gives};
ghost use Rattle.merge_json.specs.Reading.{each_at};
ghost use Rattle.merge_json.specs.Requests.{join_at, download_at, want_at, ask_at};

use crate::fields::{bit, byte, list, member, site, whole};
use crate::stop::Stop;
use merge_batch::{Download, Join, RangeAsk, Want};
use merge_types::Listing;
use serde_json::Value;
use std::alloc::Global;

#[tactic(auto, unfolding(crate::specs::Requests::join_at))]
pub(crate) fn join(value: &Value) -> Result<Join, Stop>
    ensures { Gives (λ j. j) result (join_at (view value.now)) }
{
    let site = site(member(value, "site")?)?;
    let seq = whole(member(value, "seq")?)?;
    let generation = whole(member(value, "generation")?)?;
    let number = whole(member(value, "number")?)?;
    Ok(Join {
        site,
        seq,
        generation,
        number,
    })
}

#[tactic(auto, unfolding(crate::specs::Requests::download_at))]
pub(crate) fn download(value: &Value) -> Result<Download, Stop>
    ensures { Gives (λ w. w) result (download_at (view value.now)) }
{
    let site = site(member(value, "site")?)?;
    let seq = whole(member(value, "seq")?)?;
    let from = whole(member(value, "from")?)?;
    Ok(Download { site, seq, from })
}

#[tactic(auto, unfolding(crate::specs::Requests::want_at))]
fn want(value: &Value) -> Result<Want, Stop>
    ensures { Gives (λ w. w) result (want_at (view value.now)) }
{
    let article = byte(member(value, "article")?)?;
    let have = whole(member(value, "have")?)?;
    let due = bit(member(value, "due")?)?;
    Ok(Want { article, have, due })
}

fn wants(alloc: Global, values: &[Value]) -> Result<Vec<Want>, Stop>
    ensures { Gives (λ v. v.items) result (each_at want_at (items_view values.now)) }
{
    let mut wants = Vec::new(alloc);
    for value in values {
        wants.push(want(value)?)?;
    }
    Ok(wants)
}

#[tactic(auto, unfolding(crate::specs::Requests::ask_at))]
pub(crate) fn ask(alloc: Global, value: &Value) -> Result<RangeAsk, Stop>
    ensures { Gives (λ a. a) result (ask_at (view value.now)) }
{
    let site = site(member(value, "site")?)?;
    let seq = whole(member(value, "seq")?)?;
    let wants = wants(alloc, list(member(value, "wants")?)?)?;
    Ok(RangeAsk {
        site,
        seq,
        wants: Listing::new(wants),
    })
}
