//! A subscriber with a keeper of its records.
ghost use Rattle.std.specs.Prelude.{◌≡◌, ◌≤◌, ◌||◌, ℕ, Err, IfErr, IfOk, IsOk, List, Ok, OnOk, false, nat_lt, true};
ghost use Rattle.merge_units.specs.Changes.{ColumnsAscend};
ghost use Rattle.merge_batch.specs.Articles.{has_article};
ghost use Rattle.merge_batch.specs.LocalChanges.{article_of, settings_of};
ghost use Rattle.merge_model.specs.Judge.ByNumbers.{by_rows};
ghost use Rattle.merge_batch.specs.declared.refusal.Refusal.TheVariants.{Damaged, NoMemory as no_memory};
ghost use Rattle.merge_model.specs.World.Calls.{RefusesOnlyAs, always_commits, closing_commits, is_later, message_commits, message_or_none, reply_commits};
ghost use Rattle.merge_model.specs.Subscriber.Reinit.{reinitialise};
ghost use Rattle.merge_model.specs.World.Reports.{marks_of, unsent_count};
ghost use Rattle.merge_model.specs.Subscriber.Sending.{make_ask, make_join, make_ranges, make_upload};
ghost use Rattle.merge_model.specs.Subscriber.{close_subscriber_generation, empty_subscriber, subscriber_local};
ghost use Rattle.merge_model.specs.Subscriber.Taking.{take_reply};
ghost use Rattle.merge_model.specs.Tables.{SubscriberTables};
ghost use Rattle.merge_model.specs.declared.outcome.Taken.{Taken as OneTaken};
ghost use Rattle.merge_schema.specs.Valid.{IsValid};
ghost use Rattle.merge_sub.specs.Held.{tables_of};
ghost use Rattle.merge_world.specs.Printable.{AreLostPrintable, ArePrintable};
ghost use Rattle.merge_world.specs.Restarts.{RestartEnds};
ghost use Rattle.merge_world.specs.Views.{SubscriberCall};
ghost use Rattle.merge_site.specs.Beginning.{IsEmptyStore, StartsNot};
ghost use Rattle.merge_site.specs.Damages.{IsSubscriberDamage};

use crate::beginning::{NotStarted, check_empty};
use crate::restarting::load_subscriber;
use crate::subscriber_commit::{finish, finish_message};
use merge_batch::{Download, Join, RangeAsk, Refusal, Reply, Upload};
use merge_conflict::ConflictRow;
use merge_gens::Marks;
use merge_ident::Ranges;
use merge_model::Taken;
use merge_ports::Keeper;
use merge_schema::Publication;
use merge_sub::Subscriber;
use merge_table::Table;
use merge_types::{Change, Moment, NoMemory, RowId, RowKey, SiteId};
use merge_units::SubscriberRow;
use std::alloc::Global;
use std::marker::Model;

/// A subscriber whose tables outlive it: what it changes is first committed at its keeper, and then
/// changed here.
#[derive(Drop)]
pub struct KeptSubscriber<K: Keeper> {
    pub(crate) alloc: Global,
    pub(crate) keeper: K,
    pub(crate) subscriber: Subscriber,
}

impl<K: Keeper> Model for KeptSubscriber<K> {
    ghost use Rattle.std.specs.Coded.{codes};
    ghost use Rattle.merge_filter.specs.Code.{syntax_code};
    ghost use Rattle.merge_sub.specs.Held.{tables_of};
    ghost use Rattle.merge_world.specs.Views.{SubscriberView};
    ghost use Rattle.merge_site.specs.Subscribers.{IsKeptSubscriber};

    ghost Value = { SubscriberView };

    ghost coded = { Prim.hlevel (codes, syntax_code) };

    ghost view = { λ s. record { publication = s.subscriber.publication; tables = tables_of s.subscriber; faults = K.count s.keeper; told = K.told s.keeper } };

    ghost invariant = { λ s. IsKeptSubscriber (tables_of s.subscriber) (K.told s.keeper) };
}

// Whether a closing changes a record: the moment moves, or the open generation has an entry.
fn closing_commits(subscriber: &Subscriber, now: Moment) -> bool
    ensures { result ≡ (is_later now (tables_of subscriber.now).latest || nat_lt 0 (tables_of subscriber.now).gens.filling.filled) }
{
    now.0 > subscriber.latest().0 || subscriber.marks().filled > 0
}

// Whether a reply changes a record: it acts, and is no refusal.
fn reply_commits(reply: &Reply, taken: Taken) -> bool
    ensures { result ≡ reply_commits reply.now taken }
{
    match reply {
        Reply::Refused { .. } => false,
        _ => taken == Taken::Acted,
    }
}

impl<K: Keeper> KeptSubscriber<K> {
    /// A site that has not joined, at a store that has no entry.
    pub fn new(
        alloc: Global,
        keeper: K,
        publication: Publication,
        site: SiteId,
    ) -> Result<KeptSubscriber<K>, NotStarted<K>>
        requires { (resolvers : ℕ) × IsValid resolvers publication }
        ensures tables { IfOk result (λ s. s.tables ≡ empty_subscriber publication site) }
        ensures publication { IfOk result (λ s. s.publication ≡ publication) }
        ensures faults { IfOk result (λ s. s.faults ≡ K.count keeper) }
        ensures empty { OnOk result (IsEmptyStore (K.told keeper)) }
        ensures err { IfErr result (λ n. StartsNot n.why (K.told keeper) (K.count keeper) (K.count n.keeper)) }
        ensures back { IfErr result (λ n. (K.told n.keeper ≡ K.told keeper) × (K.count keeper ≤ K.count n.keeper)) }
    {
        let mut keeper = keeper;
        match check_empty(&mut keeper) {
            Ok(()) => Self::begin(alloc, keeper, publication, site),
            Err(why) => Err(NotStarted { keeper, why }),
        }
    }

    // The same, at a store that was seen to be empty.
    fn begin(
        alloc: Global,
        keeper: K,
        publication: Publication,
        site: SiteId,
    ) -> Result<KeptSubscriber<K>, NotStarted<K>>
        requires valid { (resolvers : ℕ) × IsValid resolvers publication }
        requires empty { IsEmptyStore (K.told keeper) }
        ensures tables { IfOk result (λ s. s.tables ≡ empty_subscriber publication site) }
        ensures publication { IfOk result (λ s. s.publication ≡ publication) }
        ensures faults { IfOk result (λ s. s.faults ≡ K.count keeper) }
        ensures err { IfErr result (λ n. (n.why ≡ no_memory) × (n.keeper ≡ keeper)) }
    {
        match Subscriber::new(alloc, publication, site) {
            Ok(subscriber) => Ok(KeptSubscriber {
                alloc,
                keeper,
                subscriber,
            }),
            Err(NoMemory) => Err(NotStarted {
                keeper,
                why: Refusal::NoMemory,
            }),
        }
    }

    /// A local change. It gives the row that was changed.
    pub fn local(&mut self, now: Moment, change: &Change) -> Result<RowId, Refusal>
        requires place { has_article self.old.publication (article_of change.now) ≡ true }
        requires ascend { ColumnsAscend (settings_of change.now) }
        ensures called { SubscriberCall (subscriber_local self.old.publication now change.now self.old.tables) always_commits self.old self.new result }
        ensures publication { self.new.publication ≡ self.old.publication }
        ensures site { self.new.tables.site ≡ self.old.tables.site }
    {
        let worked = self.subscriber.draft_local(change, now);
        finish(
            self.alloc,
            &mut self.keeper,
            &mut self.subscriber,
            worked,
            true,
        )
    }

    /// Closes the open generation, and gives the last closed one.
    pub fn close_generation(&mut self, now: Moment) -> Result<u64, Refusal>
        ensures called { SubscriberCall (close_subscriber_generation now self.old.tables) (closing_commits now self.old.tables.latest self.old.tables.gens) self.old self.new result }
        ensures publication { self.new.publication ≡ self.old.publication }
        ensures site { self.new.tables.site ≡ self.old.tables.site }

        // One that commits nothing takes no memory.
        ensures nothing { (is_later now self.old.tables.latest || nat_lt 0 self.old.tables.gens.filling.filled) ≡ false → RefusesOnlyAs (close_subscriber_generation now self.old.tables) result }
    {
        let commits = closing_commits(&self.subscriber, now);
        let worked = self.subscriber.draft_close(now);
        finish(
            self.alloc,
            &mut self.keeper,
            &mut self.subscriber,
            worked,
            commits,
        )
    }

    /// A join, where the site has not joined.
    pub fn make_join(&mut self) -> Result<Option<Join>, Refusal>
        ensures called { SubscriberCall (message_or_none self.old.tables (make_join self.old.tables)) message_commits self.old self.new result }
        ensures publication { self.new.publication ≡ self.old.publication }
        ensures site { self.new.tables.site ≡ self.old.tables.site }

        // Where the site has joined it takes no memory.
        ensures nothing { self.old.tables.is_joined ≡ true → RefusesOnlyAs (make_join self.old.tables) result }
    {
        let worked = self.subscriber.draft_join();
        finish_message(self.alloc, &mut self.keeper, &mut self.subscriber, worked)
    }

    /// The changes that were not sent, where there are any.
    pub fn make_upload(&mut self, now: Moment) -> Result<Option<Upload>, Refusal>
        ensures called { SubscriberCall (message_or_none self.old.tables (make_upload (by_rows self.old.tables) now self.old.tables)) message_commits self.old self.new result }
        ensures publication { self.new.publication ≡ self.old.publication }
        ensures site { self.new.tables.site ≡ self.old.tables.site }
    {
        let worked = self.subscriber.draft_upload(now);
        finish_message(self.alloc, &mut self.keeper, &mut self.subscriber, worked)
    }

    /// What asks for identity ranges, where an article has them.
    pub fn make_ranges(&mut self) -> Result<Option<RangeAsk>, Refusal>
        ensures called { SubscriberCall (message_or_none self.old.tables (make_ranges self.old.tables)) message_commits self.old self.new result }
        ensures publication { self.new.publication ≡ self.old.publication }
        ensures site { self.new.tables.site ≡ self.old.tables.site }
    {
        let worked = self.subscriber.draft_ranges();
        finish_message(self.alloc, &mut self.keeper, &mut self.subscriber, worked)
    }

    /// What asks for the rows that changed.
    pub fn make_ask(&mut self) -> Result<Download, Refusal>
        ensures called { SubscriberCall (make_ask self.old.tables) always_commits self.old self.new result }
        ensures publication { self.new.publication ≡ self.old.publication }
        ensures site { self.new.tables.site ≡ self.old.tables.site }
    {
        let worked = self.subscriber.draft_ask();
        finish(
            self.alloc,
            &mut self.keeper,
            &mut self.subscriber,
            worked,
            true,
        )
    }

    /// Takes a reply.
    pub fn take_reply(&mut self, now: Moment, reply: &Reply) -> Result<Taken, Refusal>
        ensures called { SubscriberCall (take_reply self.old.publication (by_rows self.old.tables) now reply.now self.old.tables) (reply_commits reply.now) self.old self.new result }
        ensures publication { self.new.publication ≡ self.old.publication }
        ensures site { self.new.tables.site ≡ self.old.tables.site }

        // One that changes no record takes no memory.
        ensures nothing { (s : SubscriberTables) (taken : OneTaken) → take_reply self.old.publication (by_rows self.old.tables) now reply.now self.old.tables ≡ Ok (s, taken) → reply_commits reply.now taken ≡ false → IsOk result }
    {
        let (draft, taken) = self.subscriber.draft_reply(reply, now)?;
        let acts = reply_commits(reply, taken);
        match draft {
            None => Ok(taken),
            Some(draft) => finish(
                self.alloc,
                &mut self.keeper,
                &mut self.subscriber,
                Ok((draft, taken)),
                acts,
            ),
        }
    }

    /// Begins anew, and gives how many rows were discarded.
    pub fn reinitialise(&mut self, now: Moment) -> Result<u64, Refusal>
        ensures called { SubscriberCall (reinitialise (by_rows self.old.tables) now self.old.tables) always_commits self.old self.new result }
        ensures publication { self.new.publication ≡ self.old.publication }
        ensures site { self.new.tables.site ≡ self.old.tables.site }
    {
        let worked = self.subscriber.draft_anew(now);
        finish(
            self.alloc,
            &mut self.keeper,
            &mut self.subscriber,
            worked,
            true,
        )
    }

    /// Reads the records that are kept, and tests that they load. The site goes on with the tables
    /// that it has, which are those that were committed. Where the store is told to have failed, or a
    /// record to be damaged, the caller has lost it.
    pub fn restart(&mut self) -> Result<(), Refusal>
        ensures restarted { RestartEnds self.old.tables self.new.tables self.old.faults self.new.faults result }
        ensures damaged { (table : ℕ) (key : List ℕ) → result ≡ Err (Damaged table key) → IsSubscriberDamage self.new table key }
        ensures publication { self.new.publication ≡ self.old.publication }
        ensures site { self.new.tables.site ≡ self.old.tables.site }
    {
        let _ = load_subscriber(
            self.alloc,
            &mut self.keeper,
            self.subscriber.publication(),
            self.subscriber.site(),
        )?;
        Ok(())
    }

    /// The publication.
    pub fn publication(&self) -> &Publication
        ensures { result.now ≡ self.now.publication }
    {
        self.subscriber.publication()
    }

    pub fn site(&self) -> SiteId
        ensures { result ≡ self.now.tables.site }
    {
        self.subscriber.site()
    }

    /// Whether the site has joined.
    pub fn is_joined(&self) -> bool
        ensures { result ≡ self.now.tables.is_joined }
    {
        self.subscriber.is_joined()
    }

    pub fn rows(&self) -> &Table<RowKey, SubscriberRow>
        ensures rows { result.now.rows ≡ self.now.tables.rows }
        ensures printable { ArePrintable (λ row. row.version) result.now.rows }
    {
        self.subscriber.rows()
    }

    /// The own versions that were discarded, by number.
    pub fn conflicts(&self) -> &[ConflictRow]
        ensures conflicts { result.now ≡ self.now.tables.conflicts }
        ensures printable { AreLostPrintable result.now }
    {
        self.subscriber.conflicts()
    }

    /// The identity ranges that are held, by article.
    pub fn held(&self) -> &Table<u8, Ranges>
        ensures { result.now.rows ≡ self.now.tables.held }
    {
        self.subscriber.held()
    }

    /// How far the site is.
    pub fn marks(&self) -> Marks
        ensures { result ≡ marks_of self.now.tables }
    {
        self.subscriber.marks()
    }

    /// How many rows have a change that was not sent.
    pub fn unsent(&self) -> u64
        ensures { result ≡ unsent_count self.now.tables }
    {
        self.subscriber.unsent()
    }

    /// How many changes the site made.
    pub fn changes(&self) -> u64
        ensures { result ≡ self.now.tables.changes }
    {
        self.subscriber.changes()
    }

    /// How often the store failed.
    pub fn faults(&self) -> u64
        ensures { result ≡ self.now.faults }
    {
        self.keeper.faults()
    }
}
