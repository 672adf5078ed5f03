//! What a world needs of its sites.
use merge_batch::{Download, Join, RangeAsk, Refusal, Reply, Request, Upload};
use merge_conflict::ConflictRow;
use merge_gens::{Filling, Marks, SiteState};
use merge_ident::{Grant, Ranges};
use merge_model::{Forgotten, Taken};
use merge_resolve::Handed;
use merge_schema::Publication;
use merge_table::Table;
use merge_types::{Change, Listing, Moment, NoMemory, RowId, RowKey, SiteId};
use merge_units::{PublisherRow, SubscriberRow};

/// The publisher's site.
pub trait PublisherSite: Drop {
    ghost use Rattle.std.specs.Prelude.{◌≡◌, ℕ, Err, IfOk, List, Ok, length, map, true};
    ghost use Rattle.merge_batch.specs.Articles.{has_article};
    ghost use Rattle.merge_batch.specs.LocalChanges.{article_of, settings_of};
    ghost use Rattle.merge_batch.specs.declared.refusal.Refusal.TheVariants.{Damaged};
    ghost use Rattle.merge_resolve.specs.Asked.{says_at};
    ghost use Rattle.merge_units.specs.Changes.{ColumnsAscend};
    ghost use Rattle.merge_model.specs.Judge.ByNumbers.{by_numbers};
    ghost use Rattle.merge_model.specs.World.Calls.{Counted, always_commits, closing_commits, questions_on, request_commits, result_of_request};
    ghost use Rattle.merge_model.specs.Tables.Keys.{at_number};
    ghost use Rattle.merge_model.specs.Publisher.{close_generation};
    ghost use Rattle.merge_model.specs.Publisher.PublisherLocal.{local};
    ghost use Rattle.merge_model.specs.Publisher.PublisherPurge.{purge};
    ghost use Rattle.merge_model.specs.World.Reports.{partition_rows};
    ghost use Rattle.merge_world.specs.Printable.{AreLostPrintable, ArePrintable};
    ghost use Rattle.merge_world.specs.Restarts.{RestartEnds};
    ghost use Rattle.merge_world.specs.Views.{PublisherCall, PublisherView};

    ghost view: { Self → PublisherView };

    /// That the record with this key is damaged in the site's store.
    ghost Damage: { Self → ℕ → List ℕ → Type 0 };

    /// A local change. It gives the row that was changed.
    fn local(&mut self, now: Moment, change: &Change) -> Result<RowId, Refusal>
        requires place { has_article (view self.old).publication (article_of change.now) ≡ true }
        requires ascend { ColumnsAscend (settings_of change.now) }
        ensures called { PublisherCall (local (view self.old).publication (by_numbers (view self.old).tables) now change.now (view self.old).tables) always_commits (view self.old) (view self.new) result }
        ensures publication { (view self.new).publication ≡ (view self.old).publication };

    /// Closes the open generation, and gives the last closed one.
    fn close_generation(&mut self, now: Moment) -> Result<u64, Refusal>
        ensures called { PublisherCall (close_generation now (view self.old).tables) (closing_commits now (view self.old).tables.latest (view self.old).tables.gens) (view self.old) (view self.new) result }
        ensures publication { (view self.new).publication ≡ (view self.old).publication };

    /// Answers a request, with the decisions of the resolvers on its conflicts.
    fn handle(
        &mut self,
        resolvers: &mut Vec<Handed>,
        now: Moment,
        request: &Request,
    ) -> Result<Reply, Refusal>
        ensures called { PublisherCall (result_of_request (view self.old).publication (says_at (λ r. says r) resolvers.old.items) (map (λ r. tally_of r) resolvers.old.items) now request.now (view self.old).tables)
            (request_commits (view self.old).publication now request.now (view self.old).tables) (view self.old) (view self.new) result }
        ensures counted { Counted (result_of_request (view self.old).publication (says_at (λ r. says r) resolvers.old.items) (map (λ r. tally_of r) resolvers.old.items) now request.now (view self.old).tables)
            (questions_on (view self.old).publication now request.now (view self.old).tables) (map (λ r. tally_of r) resolvers.old.items) (map (λ r. tally_of r) resolvers.new.items) result }
        ensures publication { (view self.new).publication ≡ (view self.old).publication }
        ensures steady { (k n : ℕ) (asked : _) → says_at (λ r. says r) resolvers.new.items k n asked ≡ says_at (λ r. says r) resolvers.old.items k n asked };

    /// Forgets what is old.
    fn purge(&mut self, now: Moment) -> Result<Forgotten, Refusal>
        ensures called { PublisherCall (Ok (purge (view self.old).publication now (view self.old).tables)) always_commits (view self.old) (view self.new) result }
        ensures publication { (view self.new).publication ≡ (view self.old).publication };

    /// Stops, and starts from what is kept. A store that cannot be read, or damaged records, end it.
    fn restart(&mut self) -> Result<(), Refusal>
        ensures restarted { RestartEnds (view self.old).tables (view self.new).tables (view self.old).faults (view self.new).faults result }
        ensures damaged { (table : ℕ) (key : List ℕ) → result ≡ Err (Damaged table key) → Damage self.new table key }
        ensures publication { (view self.new).publication ≡ (view self.old).publication };

    fn publication(&self) -> &Publication
        ensures { result.now ≡ (view self.now).publication };

    fn rows(&self) -> &Table<RowKey, PublisherRow>
        ensures rows { result.now.rows ≡ (view self.now).tables.rows }
        ensures printable { ArePrintable (λ row. row.version) result.now.rows };

    /// The rows of a site's partition.
    fn partition(&self, site: SiteId) -> Result<Listing<RowKey>, NoMemory>
        ensures { IfOk result (λ rows. rows ≡ partition_rows (view self.now).publication site (view self.now).tables) };

    fn conflicts(&self) -> &[ConflictRow]
        ensures conflicts { result.now ≡ (view self.now).tables.conflicts }
        ensures printable { AreLostPrintable result.now };

    fn grants(&self) -> &[Grant]
        ensures { result.now ≡ (view self.now).tables.grants };

    /// How the generations are filled.
    fn filling(&self) -> Filling
        ensures { result ≡ (view self.now).tables.gens.filling };

    /// How many closed generations are kept.
    fn kept(&self) -> u64
        ensures { result ≡ length (view self.now).tables.gens.closings };

    /// What is remembered of a site.
    fn site_state(&self, site: SiteId) -> Option<SiteState>
        ensures { result ≡ at_number (view self.now).tables.sites site.0 };
}

/// A subscriber's site.
pub trait SubscriberSite: Drop {
    ghost use Rattle.std.specs.Prelude.{◌≡◌, ℕ, Err, List, true};
    ghost use Rattle.merge_batch.specs.Articles.{has_article};
    ghost use Rattle.merge_batch.specs.LocalChanges.{article_of, settings_of};
    ghost use Rattle.merge_batch.specs.declared.refusal.Refusal.TheVariants.{Damaged};
    ghost use Rattle.merge_model.specs.Judge.ByNumbers.{by_rows};
    ghost use Rattle.merge_model.specs.World.Calls.{always_commits, closing_commits, message_commits, message_or_none, reply_commits};
    ghost use Rattle.merge_model.specs.Subscriber.Reinit.{reinitialise};
    ghost use Rattle.merge_model.specs.World.Reports.{marks_of, unsent_count};
    ghost use Rattle.merge_model.specs.Subscriber.Sending.{make_ask, make_join, make_ranges, make_upload};
    ghost use Rattle.merge_model.specs.Subscriber.{close_subscriber_generation, subscriber_local};
    ghost use Rattle.merge_model.specs.Subscriber.Taking.{take_reply};
    ghost use Rattle.merge_units.specs.Changes.{ColumnsAscend};
    ghost use Rattle.merge_world.specs.Printable.{AreLostPrintable, ArePrintable};
    ghost use Rattle.merge_world.specs.Restarts.{RestartEnds};
    ghost use Rattle.merge_world.specs.Views.{SubscriberCall, SubscriberView};

    ghost view: { Self → SubscriberView };

    /// That the record with this key is damaged in the site's store.
    ghost Damage: { Self → ℕ → List ℕ → Type 0 };

    /// A local change. It gives the row that was changed.
    fn local(&mut self, now: Moment, change: &Change) -> Result<RowId, Refusal>
        requires place { has_article (view self.old).publication (article_of change.now) ≡ true }
        requires ascend { ColumnsAscend (settings_of change.now) }
        ensures called { SubscriberCall (subscriber_local (view self.old).publication now change.now (view self.old).tables) always_commits (view self.old) (view self.new) result }
        ensures publication { (view self.new).publication ≡ (view self.old).publication }
        ensures site { (view self.new).tables.site ≡ (view self.old).tables.site };

    /// Closes the open generation, and gives the last closed one.
    fn close_generation(&mut self, now: Moment) -> Result<u64, Refusal>
        ensures called { SubscriberCall (close_subscriber_generation now (view self.old).tables) (closing_commits now (view self.old).tables.latest (view self.old).tables.gens) (view self.old) (view self.new) result }
        ensures publication { (view self.new).publication ≡ (view self.old).publication }
        ensures site { (view self.new).tables.site ≡ (view self.old).tables.site };

    /// A join, where the site has not joined.
    fn make_join(&mut self) -> Result<Option<Join>, Refusal>
        ensures called { SubscriberCall (message_or_none (view self.old).tables (make_join (view self.old).tables)) message_commits (view self.old) (view self.new) result }
        ensures publication { (view self.new).publication ≡ (view self.old).publication }
        ensures site { (view self.new).tables.site ≡ (view self.old).tables.site };

    /// The changes that were not sent, where there are any.
    fn make_upload(&mut self, now: Moment) -> Result<Option<Upload>, Refusal>
        ensures called { SubscriberCall (message_or_none (view self.old).tables (make_upload (by_rows (view self.old).tables) now (view self.old).tables)) message_commits (view self.old) (view self.new) result }
        ensures publication { (view self.new).publication ≡ (view self.old).publication }
        ensures site { (view self.new).tables.site ≡ (view self.old).tables.site };

    /// What asks for identity ranges, where an article has them.
    fn make_ranges(&mut self) -> Result<Option<RangeAsk>, Refusal>
        ensures called { SubscriberCall (message_or_none (view self.old).tables (make_ranges (view self.old).tables)) message_commits (view self.old) (view self.new) result }
        ensures publication { (view self.new).publication ≡ (view self.old).publication }
        ensures site { (view self.new).tables.site ≡ (view self.old).tables.site };

    /// What asks for the rows that changed.
    fn make_ask(&mut self) -> Result<Download, Refusal>
        ensures called { SubscriberCall (make_ask (view self.old).tables) always_commits (view self.old) (view self.new) result }
        ensures publication { (view self.new).publication ≡ (view self.old).publication }
        ensures site { (view self.new).tables.site ≡ (view self.old).tables.site };

    /// Takes a reply.
    fn take_reply(&mut self, now: Moment, reply: &Reply) -> Result<Taken, Refusal>
        ensures called { SubscriberCall (take_reply (view self.old).publication (by_rows (view self.old).tables) now reply.now (view self.old).tables) (reply_commits reply.now) (view self.old) (view self.new) result }
        ensures publication { (view self.new).publication ≡ (view self.old).publication }
        ensures site { (view self.new).tables.site ≡ (view self.old).tables.site };

    /// Begins anew, and gives how many rows were discarded.
    fn reinitialise(&mut self, now: Moment) -> Result<u64, Refusal>
        ensures called { SubscriberCall (reinitialise (by_rows (view self.old).tables) now (view self.old).tables) always_commits (view self.old) (view self.new) result }
        ensures publication { (view self.new).publication ≡ (view self.old).publication }
        ensures site { (view self.new).tables.site ≡ (view self.old).tables.site };

    /// Stops, and starts from what is kept. A store that cannot be read, or damaged records, end it.
    fn restart(&mut self) -> Result<(), Refusal>
        ensures restarted { RestartEnds (view self.old).tables (view self.new).tables (view self.old).faults (view self.new).faults result }
        ensures damaged { (table : ℕ) (key : List ℕ) → result ≡ Err (Damaged table key) → Damage self.new table key }
        ensures publication { (view self.new).publication ≡ (view self.old).publication }
        ensures site { (view self.new).tables.site ≡ (view self.old).tables.site };

    fn site(&self) -> SiteId
        ensures { result ≡ (view self.now).tables.site };

    /// Whether the site has joined.
    fn is_joined(&self) -> bool
        ensures { result ≡ (view self.now).tables.is_joined };

    fn rows(&self) -> &Table<RowKey, SubscriberRow>
        ensures rows { result.now.rows ≡ (view self.now).tables.rows }
        ensures printable { ArePrintable (λ row. row.version) result.now.rows };

    fn conflicts(&self) -> &[ConflictRow]
        ensures conflicts { result.now ≡ (view self.now).tables.conflicts }
        ensures printable { AreLostPrintable result.now };

    /// The identity ranges that are held, by article.
    fn held(&self) -> &Table<u8, Ranges>
        ensures { result.now.rows ≡ (view self.now).tables.held };

    /// How far the site is.
    fn marks(&self) -> Marks
        ensures { result ≡ marks_of (view self.now).tables };

    /// How many rows have a change that was not sent.
    fn unsent(&self) -> u64
        ensures { result ≡ unsent_count (view self.now).tables };
}
