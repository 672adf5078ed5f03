//! Requests as JSON values.
ghost use Rattle.std.specs.Prelude.{◌≡◌, ℕ, All, IfOk, Ok, Some, codes};
ghost use Rattle.std.specs.List.{AllByRecursion};
ghost use Rattle.serde_json.specs.Data.{object, member, no_members};
ghost use Rattle.serde_json.specs.View.{view};
ghost use Rattle.merge_batch.specs.Heads.{kind_of};
ghost use Rattle.merge_units.specs.declared.version.Body.TheVariants.{Live, Dead};
ghost use Rattle.merge_json.specs.Requests.{join_at, download_at, want_at, ask_at, upload_item_at, upload_at, request_at};
ghost use Rattle.merge_json.specs.Sendable.{HasProperDays, IsProperItem, IsSendableRequest};
ghost use Rattle.merge_json.specs.Written.{ReadsBack, whole, list_of};
ghost use Rattle.merge_json.specs.WrittenRequests.{join_data, download_data, want_data, ask_data, upload_item_data, upload_data, request_data};

use crate::written::{cells_value, dot_value, lineage_value, row_value};
use merge_batch::{Download, Join, RangeAsk, Request, Upload, UploadItem, Want};
use merge_types::{Dot, NoMemory};
use merge_units::{Body, Cell};
use serde_json::{Value, json};
use std::alloc::{AllocError, Global};

fn join_value(alloc: Global, join: &Join) -> Result<Value, AllocError>
    ensures told { IfOk result (λ v. view v ≡ join_data join.now) }
    ensures again { IfOk result (λ v. join_at (join_data join.now) ≡ Some join.now) }
{
    let site = join.site.0;
    let seq = join.seq;
    let generation = join.generation;
    let number = join.number;
    json!(in alloc; {"generation": generation, "number": number, "seq": seq, "site": site})
}

fn download_value(alloc: Global, download: &Download) -> Result<Value, AllocError>
    ensures told { IfOk result (λ v. view v ≡ download_data download.now) }
    ensures again { IfOk result (λ v. download_at (download_data download.now) ≡ Some download.now) }
{
    let site = download.site.0;
    let seq = download.seq;
    let from = download.from;
    json!(in alloc; {"from": from, "seq": seq, "site": site})
}

fn want_value(alloc: Global, want: &Want) -> Result<Value, AllocError>
    ensures told { IfOk result (λ v. view v ≡ want_data want.now) }
    ensures again { IfOk result (λ v. want_at (want_data want.now) ≡ Some want.now) }
{
    let article = want.article;
    let have = want.have;
    let due = want.due;
    json!(in alloc; {"article": article, "due": due, "have": have})
}

fn wants_value(alloc: Global, wants: &[Want]) -> Result<Value, AllocError>
    ensures told { IfOk result (λ v. view v ≡ list_of want_data wants.now) }
    ensures again { IfOk result (λ v. AllByRecursion (ReadsBack want_at want_data) wants.now) }
{
    let mut values = Vec::new(alloc);
    for want in wants {
        values.push(want_value(alloc, want)?)?;
    }
    Ok(Value::Array(values))
}

fn ask_value(alloc: Global, ask: &RangeAsk) -> Result<Value, AllocError>
    ensures told { IfOk result (λ v. view v ≡ ask_data ask.now) }
    ensures again { IfOk result (λ v. ask_at (ask_data ask.now) ≡ Some ask.now) }
{
    let listed = ask.wants.as_slice();
    let wants = wants_value(alloc, listed)?;
    let value = ask_object(alloc, ask.seq, ask.site.0, wants)?;
    Ok(value)
}

fn ask_object(alloc: Global, seq: u64, site: u16, wants: Value) -> Result<Value, AllocError>
    ensures { IfOk result (λ v. view v ≡ object (member (codes "seq") (whole seq) (member (codes "site") (whole site) (member (codes "wants") (view wants) no_members)))) }
{
    json!(in alloc; {"seq": seq, "site": site, "wants": wants})
}

fn live_value(alloc: Global, item: &UploadItem, cells: &[Cell]) -> Result<Value, NoMemory>
    requires proper { All HasProperDays cells.now }
    requires lives { item.now.version.body ≡ Live cells.now }
    ensures told { IfOk result (λ v. view v ≡ upload_item_data item.now) }
    ensures again { IfOk result (λ v. upload_item_at (upload_item_data item.now) ≡ Some item.now) }
{
    let lineage = lineage_value(alloc, &item.version.lineage)?;
    let live = cells_value(alloc, cells)?;
    let row = row_value(alloc, item.row)?;
    let article = item.article;
    let generation = item.generation;
    let value = live_object(alloc, article, generation, lineage, live, row)?;
    Ok(value)
}

fn live_object(
    alloc: Global,
    article: u8,
    generation: u64,
    lineage: Value,
    live: Value,
    row: Value,
) -> Result<Value, AllocError>
    ensures { IfOk result (λ v. view v ≡ object (member (codes "article") (whole article) (member (codes "generation") (whole generation) (member (codes "lineage") (view lineage) (member (codes "live") (view live) (member (codes "row") (view row) no_members)))))) }
{
    json!(in alloc; {"article": article, "generation": generation, "lineage": lineage, "live": live, "row": row})
}

fn dead_value(alloc: Global, item: &UploadItem, top: Dot) -> Result<Value, NoMemory>
    requires { item.now.version.body ≡ Dead top }
    ensures told { IfOk result (λ v. view v ≡ upload_item_data item.now) }
    ensures again { IfOk result (λ v. upload_item_at (upload_item_data item.now) ≡ Some item.now) }
{
    let dead = dot_value(alloc, top)?;
    let lineage = lineage_value(alloc, &item.version.lineage)?;
    let row = row_value(alloc, item.row)?;
    let article = item.article;
    let generation = item.generation;
    let value = dead_object(alloc, article, dead, generation, lineage, row)?;
    Ok(value)
}

fn dead_object(
    alloc: Global,
    article: u8,
    dead: Value,
    generation: u64,
    lineage: Value,
    row: Value,
) -> Result<Value, AllocError>
    ensures { IfOk result (λ v. view v ≡ object (member (codes "article") (whole article) (member (codes "dead") (view dead) (member (codes "generation") (whole generation) (member (codes "lineage") (view lineage) (member (codes "row") (view row) no_members)))))) }
{
    json!(in alloc; {"article": article, "dead": dead, "generation": generation, "lineage": lineage, "row": row})
}

fn item_value(alloc: Global, item: &UploadItem) -> Result<Value, NoMemory>
    requires { IsProperItem item.now }
    ensures told { IfOk result (λ v. view v ≡ upload_item_data item.now) }
    ensures again { IfOk result (λ v. upload_item_at (upload_item_data item.now) ≡ Some item.now) }
{
    match &item.version.body {
        Body::Live(cells) => live_value(alloc, item, cells.as_slice()),
        Body::Dead(top) => dead_value(alloc, item, *top),
    }
}

fn items_value(alloc: Global, items: &[UploadItem]) -> Result<Value, NoMemory>
    requires { All IsProperItem items.now }
    ensures told { IfOk result (λ v. view v ≡ list_of upload_item_data items.now) }
    ensures again { IfOk result (λ v. AllByRecursion (ReadsBack upload_item_at upload_item_data) items.now) }
{
    let mut values = Vec::new(alloc);
    for item in items {
        values.push(item_value(alloc, item)?)?;
    }
    Ok(Value::Array(values))
}

fn upload_value(alloc: Global, upload: &Upload) -> Result<Value, NoMemory>
    requires { All IsProperItem upload.now.items }
    ensures told { IfOk result (λ v. view v ≡ upload_data upload.now) }
    ensures again { IfOk result (λ v. upload_at (upload_data upload.now) ≡ Ok upload.now) }
{
    let listed = upload.items.as_slice();
    let items = items_value(alloc, listed)?;
    let from = upload.from;
    let seq = upload.seq;
    let site = upload.site.0;
    let through = upload.through;
    let to = upload.to;
    let value = upload_object(alloc, from, items, seq, site, through, to)?;
    Ok(value)
}

fn upload_object(
    alloc: Global,
    from: u64,
    items: Value,
    seq: u64,
    site: u16,
    through: u64,
    to: u64,
) -> Result<Value, AllocError>
    ensures { IfOk result (λ v. view v ≡ object (member (codes "from") (whole from) (member (codes "items") (view items) (member (codes "seq") (whole seq) (member (codes "site") (whole site) (member (codes "through") (whole through) (member (codes "to") (whole to) no_members))))))) }
{
    json!(in alloc; {"from": from, "items": items, "seq": seq, "site": site, "through": through, "to": to})
}

pub(crate) fn request_value(alloc: Global, request: &Request) -> Result<Value, NoMemory>
    requires { IsSendableRequest request.now }
    ensures told { IfOk result (λ v. view v ≡ request_data request.now) }
    ensures again { IfOk result (λ v. request_at (kind_of request.now) (request_data request.now) ≡ Ok request.now) }
{
    match request {
        Request::Join(join) => Ok(join_value(alloc, join)?),
        Request::Upload(upload) => Ok(upload_value(alloc, upload)?),
        Request::Ranges(ask) => Ok(ask_value(alloc, ask)?),
        Request::Download(download) => Ok(download_value(alloc, download)?),
    }
}
