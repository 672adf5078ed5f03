//! Whether a join and a range request are valid.
ghost use Rattle.std.specs.Prelude.{◌≡◌};
ghost use Rattle.std.specs.List.{list_all};
ghost use Rattle.merge_batch.specs.Asks.{join_numbers_fit, broken_by_join, has_identity, want_fits, wants_fit, broken_by_ranges};

use crate::distinct::articles_differ;
use crate::{BrokenRule, Holdings, Join, RangeAsk, Want};
use merge_schema::Publication;
use merge_types::SiteId;
use merge_types::limits::NUMBER_LIMIT;

/// What a join breaks. None where the join is valid. It takes no memory.
#[tactic(auto, unfolding(crate::specs::Asks::broken_by_join))]
pub fn join_fault(join: &Join) -> Option<BrokenRule>
    ensures { result ≡ broken_by_join join.now }
{
    if join_numbers_fit(join) {
        return None;
    }
    Some(BrokenRule { item: 0, rule: 4 })
}

fn join_numbers_fit(join: &Join) -> bool
    ensures { result ≡ join_numbers_fit join.now }
{
    join.seq < NUMBER_LIMIT && join.generation < NUMBER_LIMIT && join.number < NUMBER_LIMIT
}

/// What a range request breaks. None where the request is valid. It takes no memory.
#[tactic(auto, unfolding(crate::specs::Asks::broken_by_ranges))]
pub fn ranges_fault<H: Holdings>(
    publication: &Publication,
    holdings: &H,
    ask: &RangeAsk,
) -> Option<BrokenRule>
    ensures { result ≡ broken_by_ranges publication.now (H.known holdings.now) ask.now }
{
    if wants_fit(publication, holdings, ask) {
        return None;
    }
    Some(BrokenRule { item: 0, rule: 13 })
}

fn wants_fit<H: Holdings>(publication: &Publication, holdings: &H, ask: &RangeAsk) -> bool
    ensures { result ≡ wants_fit publication.now (H.known holdings.now) ask.now }
{
    let wants = ask.wants.as_slice();
    each_want_fits(publication, holdings, ask.site, wants) && articles_differ(wants)
}

fn each_want_fits<H: Holdings>(
    publication: &Publication,
    holdings: &H,
    site: SiteId,
    wants: &[Want],
) -> bool
    ensures { result ≡ list_all (want_fits publication.now (H.known holdings.now) site.0) wants.now }
{
    wants
        .iter()
        .all(|want| want_fits(publication, holdings, site, *want))
}

fn want_fits<H: Holdings>(publication: &Publication, holdings: &H, site: SiteId, want: Want) -> bool
    ensures { result ≡ want_fits publication.now (H.known holdings.now) site.0 want }
{
    has_identity(publication, want.article) && want.have <= holdings.granted(want.article, site)
}

// Whether the article exists and has an identity column.
fn has_identity(publication: &Publication, place: u8) -> bool
    ensures { result ≡ has_identity publication.now place }
{
    match publication.article_at(place) {
        Some(article) => article.identity.is_some(),
        None => false,
    }
}
