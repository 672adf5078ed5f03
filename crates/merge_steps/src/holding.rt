//! What the publisher holds, as the rules of an upload ask for it.
ghost use Rattle.std.specs.Prelude.{◌≡◌};
ghost use Rattle.merge_steps.specs.Uploading.{identity_held};

use merge_batch::{Holdings, identity_value};
use merge_gens::SiteState;
use merge_ident::RangeBook;
use merge_schema::Publication;
use merge_table::Table;
use merge_types::{RowId, RowKey, SiteId};
use merge_units::PublisherRow;

/// The tables of the publisher that the rules of an upload ask for.
#[derive(Clone, Copy)]
pub struct Holding<'a> {
    pub publication: &'a Publication,
    pub changes: u64,
    pub rows: &'a Table<RowKey, PublisherRow>,
    pub sites: &'a Table<u16, SiteState>,
    pub grants: &'a RangeBook,
}

impl Holdings for Holding<'_> {
    ghost use Rattle.merge_steps.specs.Uploading.{known_of};

    ghost known = { λ holding. known_of holding.publication.now holding.changes holding.rows.now.rows holding.sites.now.rows holding.grants.now.grants };

    fn changes(&self) -> u64 {
        self.changes
    }

    fn state(&self, site: SiteId) -> Option<SiteState> {
        self.sites.get(&site.0).copied()
    }

    fn identity(&self, article: u8, row: RowId) -> Option<i64> {
        identity_held(self.publication, self.rows, article, row)
    }

    fn has_granted(&self, article: u8, site: SiteId, value: i64) -> bool {
        self.grants.has_granted(article, site, value)
    }

    fn granted(&self, article: u8, site: SiteId) -> u64 {
        self.grants.granted(article, site)
    }
}

// The identity value of the live row that is held.
fn identity_held(
    publication: &Publication,
    rows: &Table<RowKey, PublisherRow>,
    article: u8,
    row: RowId,
) -> Option<i64>
    ensures { result ≡ identity_held publication.now rows.now.rows article row.0 }
{
    match rows.get(&RowKey { article, row }) {
        Some(held) => identity_value(publication, article, &held.version.body),
        None => None,
    }
}
