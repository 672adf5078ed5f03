//! A publisher with a keeper of its records.
ghost use Rattle.std.specs.Prelude.{◌≡◌, ◌≤◌, ◌+◌, ◌||◌, ℕ, Err, IfErr, IfOk, List, Ok, OnOk, false, length, nat_lt, true};
ghost use Rattle.merge_units.specs.Changes.{ColumnsAscend};
ghost use Rattle.merge_batch.specs.Articles.{has_article};
ghost use Rattle.merge_batch.specs.LocalChanges.{article_of, settings_of};
ghost use Rattle.merge_batch.specs.declared.refusal.Refusal.TheVariants.{Damaged, NoMemory as no_memory};
ghost use Rattle.merge_model.specs.Judge.ByNumbers.{by_numbers};
ghost use Rattle.merge_model.specs.World.Calls.{RefusesOnlyAs, always_commits, closing_commits, is_later};
ghost use Rattle.merge_model.specs.Publisher.{close_generation, empty_publisher};
ghost use Rattle.merge_model.specs.Publisher.PublisherLocal.{local};
ghost use Rattle.merge_model.specs.Publisher.PublisherPurge.{purge};
ghost use Rattle.merge_schema.specs.Valid.{IsValid};
ghost use Rattle.merge_pub.specs.Held.{tables_of};
ghost use Rattle.merge_world.specs.Restarts.{RestartEnds};
ghost use Rattle.merge_world.specs.Views.{PublisherCall};
ghost use Rattle.merge_site.specs.Beginning.{IsEmptyStore, StartsNot};
ghost use Rattle.merge_site.specs.Damages.{IsPublisherDamage};

use crate::beginning::{NotStarted, check_empty};
use crate::publisher_commit::{commit_and_purge, finish};
use crate::restarting::load_publisher;
use merge_batch::Refusal;
use merge_model::Forgotten;
use merge_ports::Keeper;
use merge_pub::Publisher;
use merge_schema::Publication;
use merge_types::{Change, Moment, NoMemory, RowId, Steps};
use std::alloc::Global;
use std::marker::{Brand, Model};
use std::sync::ledger::{Blank, Ledger};

/// A publisher whose tables outlive it: what it changes is first committed at its keeper, and then
/// changed here.
#[derive(Drop)]
pub struct KeptPublisher<K: Keeper> {
    pub(crate) alloc: Global,
    pub(crate) keeper: K,
    pub(crate) publisher: Publisher,
}

impl<K: Keeper> Model for KeptPublisher<K> {
    ghost use Rattle.std.specs.Coded.{codes};
    ghost use Rattle.merge_filter.specs.Code.{syntax_code};
    ghost use Rattle.merge_pub.specs.Held.{publication_of, tables_of};
    ghost use Rattle.merge_world.specs.Views.{PublisherView};
    ghost use Rattle.merge_site.specs.Publishers.{IsKeptPublisher};

    ghost Value = { PublisherView };

    ghost coded = { Prim.hlevel (codes, syntax_code) };

    ghost view = { λ p. record { publication = publication_of p.publisher; tables = tables_of p.publisher; faults = K.count p.keeper; told = K.told p.keeper } };

    ghost invariant = { λ p. IsKeptPublisher (tables_of p.publisher) (K.told p.keeper) };
}

// Whether a closing changes a record: the moment moves, or the open generation has an entry.
fn closing_commits(publisher: &Publisher, now: Moment) -> bool
    ensures { result ≡ (is_later now (tables_of publisher.now).latest || nat_lt 0 (tables_of publisher.now).gens.filling.filled) }
{
    now.0 > publisher.latest().0 || publisher.filled() > 0
}

impl<K: Keeper> KeptPublisher<K> {
    /// A publisher of no rows, at a store that has no entry.
    pub fn new(
        alloc: Global,
        keeper: K,
        publication: &Publication,
    ) -> Result<KeptPublisher<K>, NotStarted<K>>
        requires { (resolvers : ℕ) × IsValid resolvers publication.now }
        ensures tables { IfOk result (λ p. p.tables ≡ empty_publisher publication.now) }
        ensures publication { IfOk result (λ p. p.publication ≡ publication.now) }
        ensures faults { IfOk result (λ p. p.faults ≡ K.count keeper) }
        ensures empty { OnOk result (IsEmptyStore (K.told keeper)) }
        ensures err { IfErr result (λ n. StartsNot n.why (K.told keeper) (K.count keeper) (K.count n.keeper)) }
        ensures back { IfErr result (λ n. (K.told n.keeper ≡ K.told keeper) × (K.count keeper ≤ K.count n.keeper)) }
    {
        let mut keeper = keeper;
        match check_empty(&mut keeper) {
            Ok(()) => Self::begin(alloc, keeper, publication),
            Err(why) => Err(NotStarted { keeper, why }),
        }
    }

    // The same, at a store that was seen to be empty.
    fn begin(
        alloc: Global,
        keeper: K,
        publication: &Publication,
    ) -> Result<KeptPublisher<K>, NotStarted<K>>
        requires valid { (resolvers : ℕ) × IsValid resolvers publication.now }
        requires empty { IsEmptyStore (K.told keeper) }
        ensures tables { IfOk result (λ p. p.tables ≡ empty_publisher publication.now) }
        ensures publication { IfOk result (λ p. p.publication ≡ publication.now) }
        ensures faults { IfOk result (λ p. p.faults ≡ K.count keeper) }
        ensures err { IfErr result (λ n. (n.why ≡ no_memory) × (n.keeper ≡ keeper)) }
    {
        match Publisher::new(alloc, publication) {
            Ok(publisher) => Ok(KeptPublisher {
                alloc,
                keeper,
                publisher,
            }),
            Err(NoMemory) => Err(NotStarted {
                keeper,
                why: Refusal::NoMemory,
            }),
        }
    }

    /// A local change. It gives the row that was changed.
    pub fn local(&mut self, now: Moment, change: &Change) -> Result<RowId, Refusal>
        requires place { has_article self.old.publication (article_of change.now) ≡ true }
        requires ascend { ColumnsAscend (settings_of change.now) }
        ensures called { PublisherCall (local self.old.publication (by_numbers self.old.tables) now change.now self.old.tables) always_commits self.old self.new result }
        ensures publication { self.new.publication ≡ self.old.publication }
    {
        self.local_in_ledger::<Brand>(now, change, Blank::new(1))
    }

    // The same, with a counter in the ledger that the blank opens.
    fn local_in_ledger<L: Ledger>(
        &mut self,
        now: Moment,
        change: &Change,
        blank: Blank,
    ) -> Result<RowId, Refusal>
        requires place { has_article self.old.publication (article_of change.now) ≡ true }
        requires ascend { ColumnsAscend (settings_of change.now) }
        requires name { blank.name ≡ L.name }
        requires parts { blank.parts ≡ L.parts }
        requires some { 1 ≤ blank.parts }
        ensures called { PublisherCall (local self.old.publication (by_numbers self.old.tables) now change.now self.old.tables) always_commits self.old self.new result }
        ensures publication { self.new.publication ≡ self.old.publication }
    {
        let mut steps = Steps::<L>::new(blank);
        self.local_in_steps(now, change, &mut steps)
    }

    /// The same, and the caller's counter counts the evaluations of filters: one for each
    /// subscription, at most.
    pub fn local_in_steps<L: Ledger>(
        &mut self,
        now: Moment,
        change: &Change,
        steps: &mut Steps<L>,
    ) -> Result<RowId, Refusal>
        requires place { has_article self.old.publication (article_of change.now) ≡ true }
        requires ascend { ColumnsAscend (settings_of change.now) }
        ensures called { PublisherCall (local self.old.publication (by_numbers self.old.tables) now change.now self.old.tables) always_commits self.old self.new result }
        ensures publication { self.new.publication ≡ self.old.publication }
        ensures cost { steps.new ≤ steps.old + length self.old.publication.subscriptions }
    {
        let worked = self.publisher.draft_local(now, change, steps);
        finish(
            self.alloc,
            &mut self.keeper,
            &mut self.publisher,
            worked,
            true,
        )
    }

    /// Closes the open generation, and gives the last closed one.
    pub fn close_generation(&mut self, now: Moment) -> Result<u64, Refusal>
        ensures called { PublisherCall (close_generation now self.old.tables) (closing_commits now self.old.tables.latest self.old.tables.gens) self.old self.new result }
        ensures publication { self.new.publication ≡ self.old.publication }

        // One that commits nothing takes no memory.
        ensures nothing { (is_later now self.old.tables.latest || nat_lt 0 self.old.tables.gens.filling.filled) ≡ false → RefusesOnlyAs (close_generation now self.old.tables) result }
    {
        let commits = closing_commits(&self.publisher, now);
        let worked = self.publisher.draft_close(now);
        finish(
            self.alloc,
            &mut self.keeper,
            &mut self.publisher,
            worked,
            commits,
        )
    }

    /// Forgets what is old: the tombstones of rows, the mappings of rows that left a partition, and
    /// the closed generations. It is committed also where nothing is old, since the moment is kept.
    pub fn purge(&mut self, now: Moment) -> Result<Forgotten, Refusal>
        ensures called { PublisherCall (Ok (purge self.old.publication now self.old.tables)) always_commits self.old self.new result }
        ensures publication { self.new.publication ≡ self.old.publication }
    {
        let (purge, forgotten) = self.publisher.draft_purge(now)?;
        commit_and_purge(self.alloc, &mut self.keeper, &mut self.publisher, purge)?;
        Ok(forgotten)
    }

    /// Reads the records that are kept, and tests that they load. The site goes on with the tables
    /// that it has, which are those that were committed. Where the store is told to have failed, or a
    /// record to be damaged, the caller has lost it.
    pub fn restart(&mut self) -> Result<(), Refusal>
        ensures restarted { RestartEnds self.old.tables self.new.tables self.old.faults self.new.faults result }
        ensures damaged { (table : ℕ) (key : List ℕ) → result ≡ Err (Damaged table key) → IsPublisherDamage self.new table key }
        ensures publication { self.new.publication ≡ self.old.publication }
    {
        let _ = load_publisher(self.alloc, &mut self.keeper, self.publisher.publication())?;
        Ok(())
    }
}
