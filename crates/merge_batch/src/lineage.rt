//! What is asked of the lineage of a row.
ghost use Rattle.std.specs.Prelude.{◌≡◌};
ghost use Rattle.std.specs.List.{list_all};
ghost use Rattle.merge_units.specs.declared.version.Body.TheVariants.{Live};
ghost use Rattle.merge_batch.specs.Lineages.{is_site, is_change_number, is_pair, is_well_formed, has_pair_of, is_top, has_top, has_tops, knows_tops};

use merge_lineage::Lineage;
use merge_schema::Publication;
use merge_types::limits::NUMBER_LIMIT;
use merge_types::{Dot, SiteId};
use merge_units::{Body, Cell, any_new};

/// Whether the site is the publisher, or subscribes.
pub fn is_site(publication: &Publication, site: SiteId) -> bool
    ensures { result ≡ is_site publication.now site.0 }
{
    site.0 == 0 || publication.is_subscription(site)
}

fn is_pair(publication: &Publication, dot: Dot) -> bool
    ensures { result ≡ is_pair publication.now dot }
{
    is_site(publication, dot.site) && 0 < dot.number && dot.number < NUMBER_LIMIT
}

// Whether each site is the publisher or subscribes, and has a number that a change can have. That
// the sites ascend holds of every lineage.
pub fn is_well_formed(publication: &Publication, lineage: &Lineage) -> bool
    ensures { result ≡ is_well_formed publication.now lineage.now }
{
    pairs_fit(publication, lineage.dots())
}

fn pairs_fit(publication: &Publication, dots: &[Dot]) -> bool
    ensures { result ≡ list_all (is_pair publication.now) dots.now }
{
    dots.iter().all(|dot| is_pair(publication, *dot))
}

// Whether the site has a pair.
pub fn has_pair_of(lineage: &Lineage, site: SiteId) -> bool
    ensures { result ≡ has_pair_of site.0 lineage.now }
{
    lineage.dots().iter().any(|dot| dot.site.0 == site.0)
}

// Whether each top is a change of the publisher or of a subscription.
pub fn has_tops(publication: &Publication, body: &Body) -> bool
    ensures { result ≡ has_tops publication.now body.now }
{
    match body {
        Body::Live(cells) => each_has_top(publication, cells.as_slice()),
        Body::Dead(top) => is_top(publication, *top),
    }
}

// The same, of live cells.
pub fn each_has_top(publication: &Publication, cells: &[Cell]) -> bool
    ensures { result ≡ list_all (has_top publication.now) cells.now }
{
    cells.iter().all(|cell| is_top(publication, cell.top))
}

fn is_top(publication: &Publication, dot: Dot) -> bool
    ensures { result ≡ is_top publication.now dot }
{
    is_site(publication, dot.site) && dot.number > 0
}

/// Whether the lineage knows each top of live cells.
pub fn knows_tops(lineage: &Lineage, cells: &[Cell]) -> bool
    ensures { result ≡ knows_tops lineage.now (Live cells.now) }
{
    !any_new(lineage, cells)
}
