//! Whether an upload is valid.
ghost use Rattle.std.specs.Prelude.{◌≡◌};
ghost use Rattle.std.specs.List.{list_all};
ghost use Rattle.std.specs.Option.{option_copied};
ghost use Rattle.merge_batch.specs.Search.{first_broken, broken_by_items};
ghost use Rattle.merge_batch.specs.Makers.{maker_of};
ghost use Rattle.merge_batch.specs.Known.{received_of, received_number_of, seen_of};
ghost use Rattle.merge_batch.specs.Uploads.{numbers_go_on, row_rises, lineage_fits, tops_are_known, maker_is_heard_of, has_maker, was_seen, lineage_is_honest, identity_value, was_granted_to, is_kept, identity_is_right, upload_rules, item_rules, broken_by_upload};

use crate::article::{fits_article, value_at};
use crate::lineage::{has_pair_of, has_tops, is_well_formed};
use crate::maker::maker;
use crate::order::is_below;
use crate::{BrokenRule, Holdings, Upload, UploadItem};
use merge_lineage::Lineage;
use merge_schema::Publication;
use merge_types::limits::{GENERATION_LIMIT, ITEM_LIMIT, NUMBER_LIMIT};
use merge_types::{Dot, RowId, SiteId, Value};
use merge_units::Body;

/// What an upload breaks: a rule of the message, else the first item that breaks a rule of items.
/// None where the upload is valid. It takes no memory.
#[tactic(auto, unfolding(crate::specs::Uploads::broken_by_upload))]
pub fn upload_fault<H: Holdings>(
    publication: &Publication,
    holdings: &H,
    upload: &Upload,
) -> Option<BrokenRule>
    ensures { result ≡ broken_by_upload publication.now (H.known holdings.now) upload.now }
{
    match message_rule(holdings, upload) {
        Some(rule) => Some(BrokenRule { item: 0, rule }),
        None => items_fault(publication, holdings, upload),
    }
}

// The first rule that the message as a whole breaks.
fn message_rule<H: Holdings>(holdings: &H, upload: &Upload) -> Option<u8>
    ensures { result ≡ first_broken (upload_rules (H.known holdings.now) upload.now) }
{
    if upload.from >= upload.to {
        Some(1)
    } else if upload.to - upload.from > GENERATION_LIMIT {
        Some(2)
    } else if upload.items.len() > ITEM_LIMIT {
        Some(3)
    } else if !numbers_go_on(holdings, upload) {
        Some(4)
    } else {
        None
    }
}

// Whether both numbers can be, and the last change number does not fall in a batch that acts.
fn numbers_go_on<H: Holdings>(holdings: &H, upload: &Upload) -> bool
    ensures { result ≡ numbers_go_on (H.known holdings.now) upload.now }
{
    upload.to < NUMBER_LIMIT
        && upload.through < NUMBER_LIMIT
        && (upload.to <= received(holdings, upload.site)
            || received_number(holdings, upload.site) <= upload.through)
}

fn received<H: Holdings>(holdings: &H, site: SiteId) -> u64
    ensures { result ≡ received_of (H.known holdings.now) site.0 }
{
    match holdings.state(site) {
        Some(state) => state.received,
        None => 0,
    }
}

fn received_number<H: Holdings>(holdings: &H, site: SiteId) -> u64
    ensures { result ≡ received_number_of (H.known holdings.now) site.0 }
{
    match holdings.state(site) {
        Some(state) => state.received_number,
        None => 0,
    }
}

fn seen<H: Holdings>(holdings: &H, site: SiteId) -> u64
    ensures { result ≡ seen_of (H.known holdings.now) site.0 }
{
    match holdings.state(site) {
        Some(state) => state.seen,
        None => 0,
    }
}

// The first item that breaks a rule.
fn items_fault<H: Holdings>(
    publication: &Publication,
    holdings: &H,
    upload: &Upload,
) -> Option<BrokenRule>
    ensures { result ≡ broken_by_items (item_rules publication.now (H.known holdings.now) upload.now) upload.now.items }
{
    let items = upload.items.as_slice();
    let mut before = None;
    for (at, item) in items.iter().enumerate() {
        if let Some(rule) = item_rule(publication, holdings, upload, before, item) {
            return Some(BrokenRule {
                item: at as u64 + 1,
                rule,
            });
        }
        before = Some(item);
    }
    None
}

// The first rule that an item breaks.
fn item_rule<H: Holdings>(
    publication: &Publication,
    holdings: &H,
    upload: &Upload,
    before: Option<&UploadItem>,
    item: &UploadItem,
) -> Option<u8>
    ensures { result ≡ first_broken (item_rules publication.now (H.known holdings.now) upload.now (option_copied before.entry) item.now) }
{
    if !row_rises(before, item) {
        Some(5)
    } else if !fits_article(publication, item.article, &item.version.body) {
        Some(6)
    } else if !lineage_fits(publication, upload, item) {
        Some(7)
    } else if item.generation <= upload.from || item.generation > upload.to {
        Some(8)
    } else if !tops_are_known(publication, item) {
        Some(9)
    } else if !has_maker(publication, holdings, upload, item) {
        Some(10)
    } else if !lineage_is_honest(holdings, upload, item) {
        Some(11)
    } else if !identity_is_right(publication, holdings, item) {
        Some(12)
    } else {
        None
    }
}

fn row_rises(before: Option<&UploadItem>, item: &UploadItem) -> bool
    ensures { result ≡ row_rises (option_copied before.entry) item.now }
{
    match before {
        None => true,
        Some(before) => is_below(row_of(before), row_of(item)),
    }
}

fn row_of(item: &UploadItem) -> (u8, RowId)
    ensures { result ≡ (item.now.article, item.now.row) }
{
    (item.article, item.row)
}

fn lineage_fits(publication: &Publication, upload: &Upload, item: &UploadItem) -> bool
    ensures { result ≡ lineage_fits publication.now upload.now item.now }
{
    let lineage = &item.version.lineage;
    is_well_formed(publication, lineage) && has_pair_of(lineage, upload.site)
}

fn tops_are_known(publication: &Publication, item: &UploadItem) -> bool
    ensures { result ≡ tops_are_known publication.now item.now }
{
    has_tops(publication, &item.version.body) && !item.version.has_news_over(&item.version)
}

fn has_maker<H: Holdings>(
    publication: &Publication,
    holdings: &H,
    upload: &Upload,
    item: &UploadItem,
) -> bool
    ensures { result ≡ has_maker publication.now (H.known holdings.now) upload.now item.now }
{
    match maker(item.row) {
        Some(maker) => maker_is_heard_of(publication, holdings, upload.site, maker),
        None => false,
    }
}

fn maker_is_heard_of<H: Holdings>(
    publication: &Publication,
    holdings: &H,
    uploader: SiteId,
    maker: Dot,
) -> bool
    ensures { result ≡ maker_is_heard_of publication.now (H.known holdings.now) uploader.0 maker }
{
    if maker.site.0 == 0 {
        return maker.number <= holdings.changes();
    }
    publication.is_subscription(maker.site)
        && (maker.site.0 == uploader.0 || maker.number <= received_number(holdings, maker.site))
}

fn lineage_is_honest<H: Holdings>(holdings: &H, upload: &Upload, item: &UploadItem) -> bool
    ensures { result ≡ lineage_is_honest (H.known holdings.now) upload.now item.now }
{
    were_seen(holdings, upload.site, item.version.lineage.dots())
}

fn were_seen<H: Holdings>(holdings: &H, uploader: SiteId, dots: &[Dot]) -> bool
    ensures { result ≡ list_all (was_seen (H.known holdings.now) uploader.0) dots.now }
{
    dots.iter().all(|dot| was_seen(holdings, uploader, *dot))
}

fn was_seen<H: Holdings>(holdings: &H, uploader: SiteId, dot: Dot) -> bool
    ensures { result ≡ was_seen (H.known holdings.now) uploader.0 dot }
{
    if dot.site.0 == 0 {
        return dot.number <= holdings.changes();
    }
    dot.site.0 == uploader.0 || dot.number <= seen(holdings, dot.site)
}

// Whether the identity value was granted to the row's maker, and is that of the row that is held.
fn identity_is_right<H: Holdings>(
    publication: &Publication,
    holdings: &H,
    item: &UploadItem,
) -> bool
    ensures { result ≡ identity_is_right publication.now (H.known holdings.now) item.now }
{
    match identity_value(publication, item.article, &item.version.body) {
        Some(value) => {
            was_granted(holdings, item, value)
                && is_kept(value, holdings.identity(item.article, item.row))
        }
        None => true,
    }
}

/// The identity value of a live row, where its article has an identity column. None where the row was
/// deleted.
pub fn identity_value(publication: &Publication, place: u8, body: &Body) -> Option<i64>
    ensures { result ≡ identity_value publication.now place body.now }
{
    let article = publication.article_at(place)?;
    let identity = article.identity?;
    match body {
        Body::Live(cells) => match value_at(cells.as_slice(), identity.column as usize) {
            Some(Value::Int(value)) => Some(*value),
            _ => None,
        },
        Body::Dead(_) => None,
    }
}

fn was_granted<H: Holdings>(holdings: &H, item: &UploadItem, value: i64) -> bool
    ensures { result ≡ was_granted_to (H.known holdings.now) item.now.article value (maker_of item.now.row.0) }
{
    match maker(item.row) {
        Some(maker) => holdings.has_granted(item.article, maker.site, value),
        None => false,
    }
}

fn is_kept(value: i64, held: Option<i64>) -> bool
    ensures { result ≡ is_kept value held }
{
    match held {
        Some(held) => held == value,
        None => true,
    }
}
