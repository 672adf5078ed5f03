//! Uploads.
ghost use Rattle.std.specs.Prelude.{Some, None};
ghost use Rattle.serde_json.specs.View.{view, items_view};
ghost use Rattle.merge_json.specs.Outcomes.{Gives, GivesAt};
ghost use Rattle.merge_json.specs.Reading.{numbered_at};
ghost use Rattle.merge_json.specs.Requests.{body_of, body_at, upload_item_at, upload_front_at, upload_at};

use crate::BodyFault;
use crate::fields::{byte, list, member, site, whole};
use crate::rows::{cells, dot, lineage, row};
use crate::stop::Stop;
use merge_batch::{Upload, UploadItem};
use merge_types::{Listing, SiteId};
use merge_units::{Body, Version};
use serde_json::Value;
use std::alloc::Global;

fn live(alloc: Global, value: &Value) -> Result<Body, Stop>
    ensures { Gives (λ b. b) result (body_of (Some (view value.now)) None) }
{
    let cells = cells(alloc, list(value)?)?;
    Ok(Body::Live(Listing::new(cells)))
}

fn dead(value: &Value) -> Result<Body, Stop>
    ensures { Gives (λ b. b) result (body_of None (Some (view value.now))) }
{
    let top = dot(value)?;
    Ok(Body::Dead(top))
}

#[tactic(auto, unfolding(crate::specs::Requests::body_at))]
fn body(alloc: Global, value: &Value) -> Result<Body, Stop>
    ensures { Gives (λ b. b) result (body_at (view value.now)) }
{
    match (value.get("live"), value.get("dead")) {
        (Some(cells), None) => live(alloc, cells),
        (None, Some(top)) => dead(top),
        _ => Err(Stop::Broken),
    }
}

#[tactic(auto, unfolding(crate::specs::Requests::upload_item_at))]
fn item(alloc: Global, value: &Value) -> Result<UploadItem, Stop>
    ensures { Gives (λ i. i) result (upload_item_at (view value.now)) }
{
    let article = byte(member(value, "article")?)?;
    let row = row(member(value, "row")?)?;
    let generation = whole(member(value, "generation")?)?;
    let lineage = lineage(alloc, member(value, "lineage")?)?;
    let body = body(alloc, value)?;
    Ok(UploadItem {
        article,
        row,
        generation,
        version: Version { lineage, body },
    })
}

fn items(alloc: Global, values: &[Value]) -> Result<Vec<UploadItem>, BodyFault>
    ensures { GivesAt (λ v. v.items) result (numbered_at upload_item_at 1 (items_view values.now)) }
{
    let mut items = Vec::new(alloc);
    for value in values {
        match item(alloc, value) {
            Ok(item) => items.push(item)?,
            Err(Stop::Memory) => return Err(BodyFault::NoMemory),
            Err(Stop::Broken) => {
                let place = items.len() as u64 + 1;
                return Err(BodyFault::BadBody { place });
            }
        }
    }
    Ok(items)
}

// All of an upload but its items.
#[derive(Clone, Copy)]
pub(crate) struct Front {
    site: SiteId,
    seq: u64,
    from: u64,
    to: u64,
    through: u64,
}

#[tactic(auto, unfolding(crate::specs::Requests::upload_front_at))]
fn front_of(value: &Value) -> Result<Front, Stop>
    ensures { Gives (λ f. f) result (upload_front_at (view value.now)) }
{
    let site = site(member(value, "site")?)?;
    let seq = whole(member(value, "seq")?)?;
    let from = whole(member(value, "from")?)?;
    let to = whole(member(value, "to")?)?;
    let through = whole(member(value, "through")?)?;
    Ok(Front {
        site,
        seq,
        from,
        to,
        through,
    })
}

#[tactic(auto, unfolding(crate::specs::Requests::upload_at))]
pub(crate) fn upload(alloc: Global, value: &Value) -> Result<Upload, BodyFault>
    ensures { GivesAt (λ u. u) result (upload_at (view value.now)) }
{
    let front = front_of(value)?;
    let values = list(member(value, "items")?)?;
    let items = items(alloc, values)?;
    Ok(Upload {
        site: front.site,
        seq: front.seq,
        from: front.from,
        to: front.to,
        through: front.through,
        items: Listing::new(items),
    })
}
