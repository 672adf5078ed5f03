//! What a publisher tells of itself.
ghost use Rattle.std.specs.Prelude.{◌≡◌, IfOk, filter, length};
ghost use Rattle.std.specs.Map.{keys_of};
ghost use Rattle.merge_gens.specs.Book as gens;
ghost use Rattle.merge_model.specs.Tables.Keys.{at_number, has_key};
ghost use Rattle.merge_model.specs.Publisher.PublisherDownload.{inside_keys};
ghost use Rattle.merge_model.specs.World.Reports.{partition_rows};
ghost use Rattle.merge_pub.specs.Held.{publication_of, tables_of};

use crate::publisher::Publisher;
use merge_conflict::ConflictRow;
use merge_gens::{Closing, Filling, SiteState};
use merge_table::Table;
use merge_types::{Listing, NoMemory, RowKey, SiteId};
use merge_units::PublisherRow;

impl Publisher {
    /// The rows, also those that were deleted.
    pub fn rows(&self) -> &Table<RowKey, PublisherRow>
        ensures { result.now.rows ≡ (tables_of self.now).rows }
    {
        &self.rows
    }

    /// The rows of a site's partition, by article and row. The time grows with all rows.
    pub fn partition(&self, site: SiteId) -> Result<Listing<RowKey>, NoMemory>
        ensures { IfOk result (λ rows. rows ≡ partition_rows (publication_of self.now) site (tables_of self.now)) }
    {
        self.rows.is_ordered();
        let inside = self.rows_inside(site)?;
        Ok(inside)
    }

    // Those of all rows that are in the site's partition.
    fn rows_inside(&self, site: SiteId) -> Result<Listing<RowKey>, NoMemory>
        ensures { IfOk result (λ rows. rows ≡ filter (has_key (inside_keys (publication_of self.now) site (tables_of self.now))) (keys_of (tables_of self.now).rows)) }
    {
        let mut inside = Listing::empty(self.alloc);
        for (key, _) in self.rows.iter() {
            if self.has_row(site, *key) {
                inside.push(*key)?;
            }
        }
        Ok(inside)
    }

    /// The versions that lost, by number.
    pub fn conflicts(&self) -> &[ConflictRow]
        ensures { result.now ≡ (tables_of self.now).conflicts }
    {
        self.conflicts.rows()
    }

    /// How the generations are filled.
    pub fn filling(&self) -> Filling
        ensures { result ≡ (tables_of self.now).gens.filling }
    {
        Filling {
            last_closed: self.gens.last_closed(),
            filled: self.gens.filled(),
        }
    }

    /// How many closed generations are kept.
    pub fn kept(&self) -> u64
        ensures { result ≡ length (tables_of self.now).gens.closings }
    {
        self.gens.kept()
    }

    /// The closed generations that are kept, in ascending order.
    pub fn closings(&self) -> &[Closing]
        ensures closings { result.now ≡ (tables_of self.now).gens.closings }
        ensures sound { gens.IsSound (tables_of self.now).gens }
    {
        self.gens.closings()
    }

    /// What is remembered of a site, nothing where it never joined.
    pub fn site_state(&self, site: SiteId) -> Option<SiteState>
        ensures { result ≡ at_number (tables_of self.now).sites site.0 }
    {
        self.sites.get(&site.0).copied()
    }
}
