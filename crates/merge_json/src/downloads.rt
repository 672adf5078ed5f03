//! Answers to requests for downloads.
ghost use Rattle.std.specs.Prelude.{Some, None};
ghost use Rattle.serde_json.specs.View.{view, items_view};
ghost use Rattle.merge_json.specs.Outcomes.{Gives, GivesAt};
ghost use Rattle.merge_json.specs.Reading.{numbered_at};
ghost use Rattle.merge_json.specs.Replies.{act_of, act_at, download_item_at, downloaded_head_at, downloaded_at};

use crate::BodyFault;
use crate::fields::{byte, list, member, whole};
use crate::rows::{cells, lineage, row};
use crate::stop::Stop;
use merge_batch::{Act, DownloadItem, Downloaded};
use merge_types::Listing;
use serde_json::Value;
use std::alloc::Global;

fn put(alloc: Global, dots: &Value, live: &Value) -> Result<Act, Stop>
    ensures { Gives (λ a. a) result (act_of (Some (view dots.now)) (Some (view live.now)) None) }
{
    let lineage = lineage(alloc, dots)?;
    let live = Listing::new(cells(alloc, list(live)?)?);
    Ok(Act::Put { lineage, live })
}

fn removal(value: &Value) -> Result<Act, Stop>
    ensures { Gives (λ a. a) result (act_of None None (Some (view value.now))) }
{
    match whole(value)? {
        1 => Ok(Act::RemoveDeleted),
        5 => Ok(Act::RemoveLeft),
        _ => Err(Stop::Broken),
    }
}

#[tactic(auto, unfolding(crate::specs::Replies::act_at))]
fn act(alloc: Global, value: &Value) -> Result<Act, Stop>
    ensures { Gives (λ a. a) result (act_at (view value.now)) }
{
    match (value.get("lineage"), value.get("live"), value.get("remove")) {
        (Some(dots), Some(live), None) => put(alloc, dots, live),
        (None, None, Some(kind)) => removal(kind),
        _ => Err(Stop::Broken),
    }
}

#[tactic(auto, unfolding(crate::specs::Replies::download_item_at))]
fn item(alloc: Global, value: &Value) -> Result<DownloadItem, Stop>
    ensures { Gives (λ i. i) result (download_item_at (view value.now)) }
{
    let article = byte(member(value, "article")?)?;
    let row = row(member(value, "row")?)?;
    let act = act(alloc, value)?;
    Ok(DownloadItem { article, row, act })
}

fn items(alloc: Global, values: &[Value]) -> Result<Vec<DownloadItem>, BodyFault>
    ensures { GivesAt (λ v. v.items) result (numbered_at download_item_at 1 (items_view values.now)) }
{
    let mut items = Vec::new(alloc);
    for value in values {
        match item(alloc, value) {
            Ok(item) => items.push(item)?,
            Err(Stop::Memory) => return Err(BodyFault::NoMemory),
            Err(Stop::Broken) => {
                let place = items.len() as u64 + 1;
                return Err(BodyFault::BadBody { place });
            }
        }
    }
    Ok(items)
}

// All of a download but its items.
#[derive(Clone, Copy)]
pub(crate) struct Head {
    seq: u64,
    from: u64,
    to: u64,
    last: u64,
    received: u64,
}

#[tactic(auto, unfolding(crate::specs::Replies::downloaded_head_at))]
fn head_of(value: &Value) -> Result<Head, Stop>
    ensures { Gives (λ h. h) result (downloaded_head_at (view value.now)) }
{
    let seq = whole(member(value, "seq")?)?;
    let from = whole(member(value, "from")?)?;
    let to = whole(member(value, "to")?)?;
    let last = whole(member(value, "last")?)?;
    let received = whole(member(value, "received")?)?;
    Ok(Head {
        seq,
        from,
        to,
        last,
        received,
    })
}

#[tactic(auto, unfolding(crate::specs::Replies::downloaded_at))]
pub(crate) fn downloaded(alloc: Global, value: &Value) -> Result<Downloaded, BodyFault>
    ensures { GivesAt (λ w. w) result (downloaded_at (view value.now)) }
{
    let head = head_of(value)?;
    let values = list(member(value, "items")?)?;
    let items = items(alloc, values)?;
    Ok(Downloaded {
        seq: head.seq,
        from: head.from,
        to: head.to,
        last: head.last,
        received: head.received,
        items: Listing::new(items),
    })
}
