//! Whether a reply fits the message that it answers.
ghost use Rattle.std.specs.Prelude.{◌≡◌};
ghost use Rattle.std.specs.List.{list_all};
ghost use Rattle.std.specs.Option.{option_copied};
ghost use Rattle.merge_batch.specs.Search.{broken_by_items};
ghost use Rattle.merge_batch.specs.Makers.{maker_of};
ghost use Rattle.merge_batch.specs.Replies.{uploaded_fits, grant_fits, ranged_fits, interval_fits, received_fits, downloaded_fits, row_rises, was_made, act_fits, maker_fits, item_fits, item_rules, broken_by_misfit, broken_by_download, broken_by_reply};

use crate::article::{cells_fit_article, has_article};
use crate::distinct::articles_differ;
use crate::lineage::{each_has_top, is_well_formed, knows_tops};
use crate::maker::maker;
use crate::order::is_below;
use crate::{
    Act, BrokenRule, DownloadItem, Downloaded, HeardRanges, Outstanding, RangeGrant, Ranged, Reply,
    Standing, Uploaded,
};
use merge_schema::Publication;
use merge_types::limits::{GENERATION_LIMIT, ITEM_LIMIT, NUMBER_LIMIT};
use merge_types::{Dot, RowId};

/// What does not fit in the reply to the outstanding message: the reply as a whole, or its first
/// such item. A reply of another kind does not fit, and a refusal fits each message. The rule is 0.
/// None where the reply fits. It takes no memory.
#[tactic(auto, unfolding(crate::specs::Replies::broken_by_reply))]
pub fn reply_fault<R: HeardRanges>(
    publication: &Publication,
    own: &Standing,
    ranges: &R,
    message: Outstanding,
    reply: &Reply,
) -> Option<BrokenRule>
    ensures { result ≡ broken_by_reply publication.now own.now (R.heard ranges.now) message reply.now }
{
    match (message, reply) {
        (_, Reply::Refused { .. }) => None,
        (Outstanding::Join, Reply::Joined(_)) => None,
        (Outstanding::Upload { to, .. }, Reply::Uploaded(uploaded)) => {
            misfit(uploaded_fits(own, to, uploaded))
        }
        (Outstanding::Ranges, Reply::Ranged(ranged)) => misfit(ranged_fits(ranges, ranged)),
        (Outstanding::Download { from }, Reply::Downloaded(downloaded)) => {
            download_fault(publication, own, from, downloaded)
        }
        _ => misfit(false),
    }
}

// What there is to say of the reply as a whole.
fn misfit(fits: bool) -> Option<BrokenRule>
    ensures { result ≡ broken_by_misfit fits }
{
    if fits {
        return None;
    }
    Some(BrokenRule { item: 0, rule: 0 })
}

fn uploaded_fits(own: &Standing, to: u64, uploaded: &Uploaded) -> bool
    ensures { result ≡ uploaded_fits own.now to uploaded.now }
{
    to <= uploaded.received && own.received <= uploaded.received && uploaded.received <= own.closed
}

fn ranged_fits<R: HeardRanges>(ranges: &R, ranged: &Ranged) -> bool
    ensures { result ≡ ranged_fits (R.heard ranges.now) ranged.now }
{
    let grants = ranged.grants.as_slice();
    each_grant_fits(ranges, grants) && articles_differ(grants)
}

fn each_grant_fits<R: HeardRanges>(ranges: &R, grants: &[RangeGrant]) -> bool
    ensures { result ≡ list_all (grant_fits (R.heard ranges.now)) grants.now }
{
    grants.iter().all(|grant| grant_fits(ranges, grant))
}

// Whether the grant has a value, and is the next one of an article that was asked for.
fn grant_fits<R: HeardRanges>(ranges: &R, grant: &RangeGrant) -> bool
    ensures { result ≡ grant_fits (R.heard ranges.now) grant.now }
{
    match ranges.have(grant.article) {
        Some(have) => have < grant.number && grant.number - have == 1 && grant.begin <= grant.end,
        None => false,
    }
}

// What does not fit in a reply to a download that began at `from`.
fn download_fault(
    publication: &Publication,
    own: &Standing,
    from: u64,
    downloaded: &Downloaded,
) -> Option<BrokenRule>
    ensures { result ≡ broken_by_download publication.now own.now from downloaded.now }
{
    if !downloaded_fits(own, from, downloaded) {
        return misfit(false);
    }
    items_fault(publication, own, downloaded.items.as_slice())
}

fn downloaded_fits(own: &Standing, from: u64, downloaded: &Downloaded) -> bool
    ensures { result ≡ downloaded_fits own.now from downloaded.now }
{
    interval_fits(from, downloaded)
        && received_fits(own, downloaded)
        && downloaded.items.len() <= ITEM_LIMIT
}

fn interval_fits(from: u64, downloaded: &Downloaded) -> bool
    ensures { result ≡ interval_fits from downloaded.now }
{
    downloaded.from == from
        && downloaded.from <= downloaded.to
        && downloaded.to <= downloaded.last
        && downloaded.last < NUMBER_LIMIT
        && downloaded.to - downloaded.from <= GENERATION_LIMIT
        && (downloaded.last <= downloaded.from || downloaded.from < downloaded.to)
}

fn received_fits(own: &Standing, downloaded: &Downloaded) -> bool
    ensures { result ≡ received_fits own.now downloaded.now }
{
    own.received <= downloaded.received && downloaded.received <= own.closed
}

// The first item that does not fit.
fn items_fault(
    publication: &Publication,
    own: &Standing,
    items: &[DownloadItem],
) -> Option<BrokenRule>
    ensures { result ≡ broken_by_items (item_rules publication.now own.now) items.now }
{
    let mut before = None;
    for (at, item) in items.iter().enumerate() {
        if !item_fits(publication, own, before, item) {
            return Some(BrokenRule {
                item: at as u64 + 1,
                rule: 0,
            });
        }
        before = Some(item);
    }
    None
}

fn item_fits(
    publication: &Publication,
    own: &Standing,
    before: Option<&DownloadItem>,
    item: &DownloadItem,
) -> bool
    ensures { result ≡ item_fits publication.now own.now (option_copied before.entry) item.now }
{
    row_rises(before, item)
        && act_fits(publication, own, item.article, &item.act)
        && maker_fits(own, item.row)
}

fn row_rises(before: Option<&DownloadItem>, item: &DownloadItem) -> bool
    ensures { result ≡ row_rises (option_copied before.entry) item.now }
{
    match before {
        None => true,
        Some(before) => is_below(row_of(before), row_of(item)),
    }
}

fn row_of(item: &DownloadItem) -> (u8, RowId)
    ensures { result ≡ (item.now.article, item.now.row) }
{
    (item.article, item.row)
}

fn act_fits(publication: &Publication, own: &Standing, article: u8, act: &Act) -> bool
    ensures { result ≡ act_fits publication.now own.now article act.now }
{
    match act {
        Act::Put { lineage, live } => {
            let cells = live.as_slice();
            cells_fit_article(publication, article, cells)
                && is_well_formed(publication, lineage)
                && each_has_top(publication, cells)
                && knows_tops(lineage, cells)
                && were_made(own, lineage.dots())
        }
        Act::RemoveDeleted | Act::RemoveLeft => has_article(publication, article),
    }
}

fn were_made(own: &Standing, dots: &[Dot]) -> bool
    ensures { result ≡ list_all (was_made own.now) dots.now }
{
    dots.iter().all(|dot| was_made(own, *dot))
}

// Whether the change is not one of the site itself that it did not make.
fn was_made(own: &Standing, dot: Dot) -> bool
    ensures { result ≡ was_made own.now dot }
{
    dot.site.0 != own.site.0 || dot.number <= own.changes
}

fn maker_fits(own: &Standing, row: RowId) -> bool
    ensures { result ≡ maker_fits own.now (maker_of row.0) }
{
    match maker(row) {
        Some(maker) => was_made(own, maker),
        None => true,
    }
}
