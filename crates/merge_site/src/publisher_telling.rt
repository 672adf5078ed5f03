//! What a publisher that has a keeper tells of itself.
ghost use Rattle.std.specs.Prelude.{◌≡◌, IfOk, length};
ghost use Rattle.merge_model.specs.Tables.Keys.{at_number};
ghost use Rattle.merge_model.specs.World.Reports.{partition_rows};
ghost use Rattle.merge_world.specs.Printable.{AreLostPrintable, ArePrintable};

use crate::publisher::KeptPublisher;
use merge_conflict::ConflictRow;
use merge_gens::{Filling, SiteState};
use merge_ident::Grant;
use merge_ports::Keeper;
use merge_schema::Publication;
use merge_table::Table;
use merge_types::{Listing, NoMemory, RowKey, SiteId};
use merge_units::PublisherRow;

impl<K: Keeper> KeptPublisher<K> {
    /// The publication.
    pub fn publication(&self) -> &Publication
        ensures { result.now ≡ self.now.publication }
    {
        self.publisher.publication()
    }

    /// The rows, also those that were deleted.
    pub fn rows(&self) -> &Table<RowKey, PublisherRow>
        ensures rows { result.now.rows ≡ self.now.tables.rows }
        ensures printable { ArePrintable (λ row. row.version) result.now.rows }
    {
        self.publisher.rows()
    }

    /// The rows of a site's partition.
    pub fn partition(&self, site: SiteId) -> Result<Listing<RowKey>, NoMemory>
        ensures { IfOk result (λ rows. rows ≡ partition_rows self.now.publication site self.now.tables) }
    {
        self.publisher.partition(site)
    }

    /// The versions that lost, by number.
    pub fn conflicts(&self) -> &[ConflictRow]
        ensures conflicts { result.now ≡ self.now.tables.conflicts }
        ensures printable { AreLostPrintable result.now }
    {
        self.publisher.conflicts()
    }

    /// The ranges that were granted, by article and begin.
    pub fn grants(&self) -> &[Grant]
        ensures { result.now ≡ self.now.tables.grants }
    {
        self.publisher.grants()
    }

    /// How the generations are filled.
    pub fn filling(&self) -> Filling
        ensures { result ≡ self.now.tables.gens.filling }
    {
        self.publisher.filling()
    }

    /// How many closed generations are kept.
    pub fn kept(&self) -> u64
        ensures { result ≡ length self.now.tables.gens.closings }
    {
        self.publisher.kept()
    }

    /// What is remembered of a site, nothing where it never joined.
    pub fn site_state(&self, site: SiteId) -> Option<SiteState>
        ensures { result ≡ at_number self.now.tables.sites site.0 }
    {
        self.publisher.site_state(site)
    }

    /// How often the store failed.
    pub fn faults(&self) -> u64
        ensures { result ≡ self.now.faults }
    {
        self.keeper.faults()
    }
}
