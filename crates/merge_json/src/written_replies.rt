//! Replies as JSON values.
ghost use Rattle.std.specs.Prelude.{◌≡◌, ℕ, All, IfOk, Ok, Some, codes, length};
ghost use Rattle.std.specs.List.{AllByRecursion};
ghost use Rattle.serde_json.specs.Data.{object, member, no_members};
ghost use Rattle.serde_json.specs.View.{view};
ghost use Rattle.merge_batch.specs.Heads.{answered_kind};
ghost use Rattle.merge_batch.specs.declared.reply.Act.TheVariants as order;
ghost use Rattle.merge_batch.specs.declared.reply.Reply.TheVariants as told_reply;
ghost use Rattle.merge_json.specs.Reading.{whole_at};
ghost use Rattle.merge_json.specs.Replies.{joined_at, uploaded_at, grant_at, ended_at, ranged_at, download_item_at, downloaded_at, refused_at, reply_at, field_count, remove_of};
ghost use Rattle.merge_json.specs.Sendable.{HasProperDays, IsProperOrder, IsSendableReply};
ghost use Rattle.merge_json.specs.Written.{ReadsBack, whole, list_of};
ghost use Rattle.merge_json.specs.WrittenReplies.{joined_data, uploaded_data, grant_data, ended_data, ranged_data, download_item_data, downloaded_data, refused_data, reply_data};

use crate::written::{cells_value, lineage_value, row_value};
use merge_batch::{
    Act, DownloadItem, Downloaded, Ended, Joined, RangeGrant, Ranged, Reply, Uploaded,
};
use merge_lineage::Lineage;
use merge_types::NoMemory;
use merge_units::Cell;
use serde_json::{Value, json};
use std::alloc::{AllocError, Global};

fn joined_value(alloc: Global, joined: &Joined) -> Result<Value, AllocError>
    ensures told { IfOk result (λ v. view v ≡ joined_data joined.now) }
    ensures again { IfOk result (λ v. joined_at (joined_data joined.now) ≡ Some joined.now) }
{
    let seq = joined.seq;
    json!(in alloc; {"seq": seq})
}

fn uploaded_value(alloc: Global, uploaded: &Uploaded) -> Result<Value, AllocError>
    ensures told { IfOk result (λ v. view v ≡ uploaded_data uploaded.now) }
    ensures again { IfOk result (λ v. uploaded_at (uploaded_data uploaded.now) ≡ Some uploaded.now) }
{
    let received = uploaded.received;
    let seq = uploaded.seq;
    json!(in alloc; {"received": received, "seq": seq})
}

fn grant_value(alloc: Global, grant: &RangeGrant) -> Result<Value, AllocError>
    ensures told { IfOk result (λ v. view v ≡ grant_data grant.now) }
    ensures again { IfOk result (λ v. grant_at (grant_data grant.now) ≡ Some grant.now) }
{
    let article = grant.article;
    let begin = grant.begin;
    let end = grant.end;
    let number = grant.number;
    json!(in alloc; {"article": article, "begin": begin, "end": end, "number": number})
}

fn grants_value(alloc: Global, grants: &[RangeGrant]) -> Result<Value, AllocError>
    ensures told { IfOk result (λ v. view v ≡ list_of grant_data grants.now) }
    ensures again { IfOk result (λ v. AllByRecursion (ReadsBack grant_at grant_data) grants.now) }
{
    let mut values = Vec::new(alloc);
    for grant in grants {
        values.push(grant_value(alloc, grant)?)?;
    }
    Ok(Value::Array(values))
}

fn one_ended_value(alloc: Global, ended: &Ended) -> Result<Value, AllocError>
    ensures told { IfOk result (λ v. view v ≡ ended_data ended.now) }
    ensures again { IfOk result (λ v. ended_at (ended_data ended.now) ≡ Some ended.now) }
{
    let article = ended.article;
    let greatest = ended.greatest;
    let next = ended.next;
    json!(in alloc; {"article": article, "greatest": greatest, "next": next})
}

fn ended_value(alloc: Global, all: &[Ended]) -> Result<Value, AllocError>
    ensures told { IfOk result (λ v. view v ≡ list_of ended_data all.now) }
    ensures again { IfOk result (λ v. AllByRecursion (ReadsBack ended_at ended_data) all.now) }
{
    let mut values = Vec::new(alloc);
    for ended in all {
        values.push(one_ended_value(alloc, ended)?)?;
    }
    Ok(Value::Array(values))
}

fn ranged_value(alloc: Global, ranged: &Ranged) -> Result<Value, AllocError>
    ensures told { IfOk result (λ v. view v ≡ ranged_data ranged.now) }
    ensures again { IfOk result (λ v. ranged_at (ranged_data ranged.now) ≡ Some ranged.now) }
{
    let none_left = ranged.ended.as_slice();
    let granted = ranged.grants.as_slice();
    let ended = ended_value(alloc, none_left)?;
    let grants = grants_value(alloc, granted)?;
    let seq = ranged.seq;
    let value = ranged_object(alloc, ended, grants, seq)?;
    Ok(value)
}

fn ranged_object(alloc: Global, ended: Value, grants: Value, seq: u64) -> Result<Value, AllocError>
    ensures { IfOk result (λ v. view v ≡ object (member (codes "ended") (view ended) (member (codes "grants") (view grants) (member (codes "seq") (whole seq) no_members)))) }
{
    json!(in alloc; {"ended": ended, "grants": grants, "seq": seq})
}

fn put_value(
    alloc: Global,
    item: &DownloadItem,
    dots: &Lineage,
    cells: &[Cell],
) -> Result<Value, NoMemory>
    requires proper { All HasProperDays cells.now }
    requires put { item.now.act ≡ order.Put dots.now cells.now }
    ensures told { IfOk result (λ v. view v ≡ download_item_data item.now) }
    ensures again { IfOk result (λ v. download_item_at (download_item_data item.now) ≡ Some item.now) }
{
    let lineage = lineage_value(alloc, dots)?;
    let live = cells_value(alloc, cells)?;
    let row = row_value(alloc, item.row)?;
    let value = put_object(alloc, item.article, lineage, live, row)?;
    Ok(value)
}

fn put_object(
    alloc: Global,
    article: u8,
    lineage: Value,
    live: Value,
    row: Value,
) -> Result<Value, AllocError>
    ensures { IfOk result (λ v. view v ≡ object (member (codes "article") (whole article) (member (codes "lineage") (view lineage) (member (codes "live") (view live) (member (codes "row") (view row) no_members))))) }
{
    json!(in alloc; {"article": article, "lineage": lineage, "live": live, "row": row})
}

// A removal by a tombstone of a type.
fn removal_value(alloc: Global, item: &DownloadItem, kind: u8) -> Result<Value, NoMemory>
    requires { remove_of kind ≡ Some item.now.act }
    ensures told { IfOk result (λ v. view v ≡ download_item_data item.now) }
    ensures again { IfOk result (λ v. download_item_at (download_item_data item.now) ≡ Some item.now) }
{
    let row = row_value(alloc, item.row)?;
    let value = removal_object(alloc, item.article, kind, row)?;
    Ok(value)
}

fn removal_object(alloc: Global, article: u8, remove: u8, row: Value) -> Result<Value, AllocError>
    ensures { IfOk result (λ v. view v ≡ object (member (codes "article") (whole article) (member (codes "remove") (whole remove) (member (codes "row") (view row) no_members)))) }
{
    json!(in alloc; {"article": article, "remove": remove, "row": row})
}

fn item_value(alloc: Global, item: &DownloadItem) -> Result<Value, NoMemory>
    requires { IsProperOrder item.now }
    ensures told { IfOk result (λ v. view v ≡ download_item_data item.now) }
    ensures again { IfOk result (λ v. download_item_at (download_item_data item.now) ≡ Some item.now) }
{
    match &item.act {
        Act::Put { lineage, live } => put_value(alloc, item, lineage, live.as_slice()),
        Act::RemoveDeleted => removal_value(alloc, item, 1),
        Act::RemoveLeft => removal_value(alloc, item, 5),
    }
}

fn items_value(alloc: Global, items: &[DownloadItem]) -> Result<Value, NoMemory>
    requires { All IsProperOrder items.now }
    ensures told { IfOk result (λ v. view v ≡ list_of download_item_data items.now) }
    ensures again { IfOk result (λ v. AllByRecursion (ReadsBack download_item_at download_item_data) items.now) }
{
    let mut values = Vec::new(alloc);
    for item in items {
        values.push(item_value(alloc, item)?)?;
    }
    Ok(Value::Array(values))
}

fn downloaded_value(alloc: Global, downloaded: &Downloaded) -> Result<Value, NoMemory>
    requires { All IsProperOrder downloaded.now.items }
    ensures told { IfOk result (λ v. view v ≡ downloaded_data downloaded.now) }
    ensures again { IfOk result (λ v. downloaded_at (downloaded_data downloaded.now) ≡ Ok downloaded.now) }
{
    let listed = downloaded.items.as_slice();
    let items = items_value(alloc, listed)?;
    let from = downloaded.from;
    let last = downloaded.last;
    let received = downloaded.received;
    let seq = downloaded.seq;
    let to = downloaded.to;
    let value = downloaded_object(alloc, from, items, last, received, seq, to)?;
    Ok(value)
}

fn downloaded_object(
    alloc: Global,
    from: u64,
    items: Value,
    last: u64,
    received: u64,
    seq: u64,
    to: u64,
) -> Result<Value, AllocError>
    ensures { IfOk result (λ v. view v ≡ object (member (codes "from") (whole from) (member (codes "items") (view items) (member (codes "last") (whole last) (member (codes "received") (whole received) (member (codes "seq") (whole seq) (member (codes "to") (whole to) no_members))))))) }
{
    json!(in alloc; {"from": from, "items": items, "last": last, "received": received, "seq": seq, "to": to})
}

#[tactic(auto, unfolding(crate::specs::Reading::whole_at))]
fn number_value(number: u64) -> Value
    ensures told { view result ≡ whole number }
    ensures again { whole_at (whole number) ≡ Some number }
{
    Value::from(number)
}

fn numbers_value(alloc: Global, numbers: &[u64]) -> Result<Value, AllocError>
    ensures told { IfOk result (λ v. view v ≡ list_of whole numbers.now) }
    ensures again { IfOk result (λ v. AllByRecursion (ReadsBack whole_at whole) numbers.now) }
{
    let mut values = Vec::new(alloc);
    for number in numbers {
        values.push(number_value(*number))?;
    }
    Ok(Value::Array(values))
}

fn refused_value(alloc: Global, number: u8, fields: &[u64]) -> Result<Value, AllocError>
    requires { field_count number ≡ Some (length fields.now) }
    ensures told { IfOk result (λ v. view v ≡ refused_data number fields.now) }
    ensures again { IfOk result (λ v. refused_at (refused_data number fields.now) ≡ Some (told_reply.Refused number fields.now)) }
{
    let values = numbers_value(alloc, fields)?;
    let value = refused_object(alloc, number, values)?;
    Ok(value)
}

fn refused_object(alloc: Global, number: u8, values: Value) -> Result<Value, AllocError>
    ensures { IfOk result (λ v. view v ≡ object (member (codes "refused") (whole number) (member (codes "values") (view values) no_members))) }
{
    json!(in alloc; {"refused": number, "values": values})
}

pub(crate) fn reply_value(alloc: Global, reply: &Reply) -> Result<Value, NoMemory>
    requires { IsSendableReply reply.now }
    ensures told { IfOk result (λ v. view v ≡ reply_data reply.now) }
    ensures again { IfOk result (λ v. reply_at (answered_kind reply.now) (reply_data reply.now) ≡ Ok reply.now) }
{
    match reply {
        Reply::Joined(joined) => Ok(joined_value(alloc, joined)?),
        Reply::Uploaded(uploaded) => Ok(uploaded_value(alloc, uploaded)?),
        Reply::Ranged(ranged) => Ok(ranged_value(alloc, ranged)?),
        Reply::Downloaded(downloaded) => Ok(downloaded_value(alloc, downloaded)?),
        Reply::Refused { number, values } => {
            Ok(refused_value(alloc, *number, values.as_slice())?)
        }
    }
}
