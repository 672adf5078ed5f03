//! Kept sites are sites of a world.
use crate::publisher::KeptPublisher;
use crate::subscriber::KeptSubscriber;
use merge_batch::{Download, Join, RangeAsk, Refusal, Reply, Request, Upload};
use merge_conflict::ConflictRow;
use merge_gens::{Filling, Marks, SiteState};
use merge_ident::{Grant, Ranges};
use merge_model::{Forgotten, Taken};
use merge_ports::Keeper;
use merge_resolve::Handed;
use merge_schema::Publication;
use merge_table::Table;
use merge_types::{Change, Listing, Moment, NoMemory, RowId, RowKey, SiteId};
use merge_units::{PublisherRow, SubscriberRow};
use merge_world::{PublisherSite, SubscriberSite};

impl<K: Keeper> PublisherSite for KeptPublisher<K> {
    ghost use Rattle.merge_site.specs.Damages.{IsPublisherDamage};

    ghost view = { λ p. p };

    ghost Damage = { IsPublisherDamage };

    fn local(&mut self, now: Moment, change: &Change) -> Result<RowId, Refusal> {
        self.local(now, change)
    }

    fn close_generation(&mut self, now: Moment) -> Result<u64, Refusal> {
        self.close_generation(now)
    }

    fn handle(
        &mut self,
        resolvers: &mut Vec<Handed>,
        now: Moment,
        request: &Request,
    ) -> Result<Reply, Refusal> {
        self.handle(resolvers, now, request)
    }

    fn purge(&mut self, now: Moment) -> Result<Forgotten, Refusal> {
        self.purge(now)
    }

    fn restart(&mut self) -> Result<(), Refusal> {
        self.restart()
    }

    fn publication(&self) -> &Publication {
        self.publication()
    }

    fn rows(&self) -> &Table<RowKey, PublisherRow> {
        self.rows()
    }

    fn partition(&self, site: SiteId) -> Result<Listing<RowKey>, NoMemory> {
        self.partition(site)
    }

    fn conflicts(&self) -> &[ConflictRow] {
        self.conflicts()
    }

    fn grants(&self) -> &[Grant] {
        self.grants()
    }

    fn filling(&self) -> Filling {
        self.filling()
    }

    fn kept(&self) -> u64 {
        self.kept()
    }

    fn site_state(&self, site: SiteId) -> Option<SiteState> {
        self.site_state(site)
    }
}

impl<K: Keeper> SubscriberSite for KeptSubscriber<K> {
    ghost use Rattle.merge_site.specs.Damages.{IsSubscriberDamage};

    ghost view = { λ s. s };

    ghost Damage = { IsSubscriberDamage };

    fn local(&mut self, now: Moment, change: &Change) -> Result<RowId, Refusal> {
        self.local(now, change)
    }

    fn close_generation(&mut self, now: Moment) -> Result<u64, Refusal> {
        self.close_generation(now)
    }

    fn make_join(&mut self) -> Result<Option<Join>, Refusal> {
        self.make_join()
    }

    fn make_upload(&mut self, now: Moment) -> Result<Option<Upload>, Refusal> {
        self.make_upload(now)
    }

    fn make_ranges(&mut self) -> Result<Option<RangeAsk>, Refusal> {
        self.make_ranges()
    }

    fn make_ask(&mut self) -> Result<Download, Refusal> {
        self.make_ask()
    }

    fn take_reply(&mut self, now: Moment, reply: &Reply) -> Result<Taken, Refusal> {
        self.take_reply(now, reply)
    }

    fn reinitialise(&mut self, now: Moment) -> Result<u64, Refusal> {
        self.reinitialise(now)
    }

    fn restart(&mut self) -> Result<(), Refusal> {
        self.restart()
    }

    fn site(&self) -> SiteId {
        self.site()
    }

    fn is_joined(&self) -> bool {
        self.is_joined()
    }

    fn rows(&self) -> &Table<RowKey, SubscriberRow> {
        self.rows()
    }

    fn conflicts(&self) -> &[ConflictRow] {
        self.conflicts()
    }

    fn held(&self) -> &Table<u8, Ranges> {
        self.held()
    }

    fn marks(&self) -> Marks {
        self.marks()
    }

    fn unsent(&self) -> u64 {
        self.unsent()
    }
}
