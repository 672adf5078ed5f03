//! A change of a row.
ghost use Rattle.std.specs.Ordering.{nat_cmp};
ghost use Rattle.std.specs.Prelude.{◌≡◌, ◌<◌, ◌⊎◌, [], Err, IfErr, IfOk, None, Ok, OnOk, Some, true};
ghost use Rattle.std.specs.Option.{option_copied};
ghost use Rattle.merge_types.specs.Limits.{counter_limit, entry_limit};
ghost use Rattle.merge_types.specs.declared.changes.Change.TheVariants.{Insert as AnInsert};
ghost use Rattle.merge_table.specs.Edits.{rows_after_all};
ghost use Rattle.merge_gens.specs.Index.{entries_after_all};
ghost use Rattle.merge_units.specs.Changes.{ColumnsAscend};
ghost use Rattle.merge_batch.specs.Articles.{has_article};
ghost use Rattle.merge_batch.specs.LocalChanges.{article_of, settings_of, version_after};
ghost use Rattle.merge_batch.specs.declared.refusal.Refusal.{Refusal as OneRefusal};
ghost use Rattle.merge_batch.specs.declared.refusal.Refusal.TheVariants.{NoMemory as no_memory};
ghost use Rattle.merge_change.specs.Allowed.{CanBeAsked, FitsHeld, HasIdentity, IsAllowed, IsNewAt};
ghost use Rattle.merge_model.specs.Subscriber.{subscriber_drawn, subscriber_local, subscriber_local_refusal, subscriber_next_dot, subscriber_version_at};
ghost use Rattle.merge_sub.specs.Drafts.{IsDrafted, after, drafted};
ghost use Rattle.merge_sub.specs.Held.{AreRanged, IsSound, tables_of};
ghost use Rattle.merge_sub.specs.Local.{IsChanged, changed_key, with_change};

use crate::changes::RangesEdit;
use crate::generations::{kept_by, reindexing, with_open};
use crate::still::later;
use crate::{Changes, Draft, State, Subscriber};
use merge_batch::Refusal;
use merge_change::{Making, check_change, key_of, version_after};
use merge_gens::IndexChanges;
use merge_table::Edit;
use merge_types::{Change, Dot, Listing, Moment, NoMemory, RowId, RowKey, Value};
use merge_units::{SubscriberRow, Version};

impl Subscriber {
    /// Works out a change that the site makes, and gives its row.
    pub fn draft_local(&mut self, change: &Change, now: Moment) -> Result<(Draft, RowId), Refusal>
        requires place { has_article self.old.publication (article_of change.now) ≡ true }
        requires ascend { ColumnsAscend (settings_of change.now) }
        ensures made { IfOk result (λ made. subscriber_local self.old.publication now change.now (tables_of self.old) ≡ Ok (drafted (tables_of self.old) made)) }
        ensures ready { IfOk result (λ made. IsDrafted self.new made.0) }
        ensures refused { (refusal : OneRefusal) → result ≡ Err refusal → (refusal ≡ no_memory) ⊎ (subscriber_local self.old.publication now change.now (tables_of self.old) ≡ Err refusal) }
        ensures same { tables_of self.new ≡ tables_of self.old }
        ensures publication { self.new.publication ≡ self.old.publication }
    {
        self.check_local(change)?;
        let (identity, held) = self.draw(change)?;
        let (key, row, index) = self.change_row(change, identity)?;
        let latest = later(now, self.state.latest);
        let draft = self.draft_row(key, row, index, held, latest)?;
        Ok((draft, key.row))
    }

    // Whether the site takes the change.
    fn check_local(&self, change: &Change) -> Result<(), Refusal>
        requires place { has_article self.now.publication (article_of change.now) ≡ true }
        requires ascend { ColumnsAscend (settings_of change.now) }
        ensures ok { OnOk result (subscriber_local_refusal self.now.publication change.now (tables_of self.now) ≡ None) }
        ensures err { IfErr result (λ refusal. subscriber_local_refusal self.now.publication change.now (tables_of self.now) ≡ Some refusal) }
        ensures allowed { OnOk result (IsAllowed self.now.publication change.now (subscriber_version_at (tables_of self.now) (changed_key (tables_of self.now) change.now))) }
        ensures changes { OnOk result (self.now.state.changes < counter_limit) }
        ensures closed { OnOk result (self.now.gens.book.filling.last_closed < counter_limit) }
        ensures unfilled { OnOk result (self.now.gens.book.filling.filled < entry_limit) }
    {
        if !self.state.is_joined {
            return Err(Refusal::Joining);
        }
        self.check_counters()?;
        let held = self.version_for(change);
        // A table has fewer rows than 2^63.
        let _ = self.rows.iter();
        let _ = self.gens.filled();
        check_change(&self.publication, change, held, self.rows.len())
    }

    // The dot of the next change.
    fn next_dot(&self) -> Dot
        requires { self.now.state.changes < counter_limit }
        ensures { result ≡ subscriber_next_dot (tables_of self.now) }
    {
        Dot {
            site: self.site,
            number: self.state.changes + 1,
        }
    }

    // The version of the row that the change is about, where it is held.
    fn version_for(&self, change: &Change) -> Option<&Version>
        requires changes { self.now.state.changes < counter_limit }
        requires place { has_article self.now.publication (article_of change.now) ≡ true }
        requires ascend { ColumnsAscend (settings_of change.now) }
        ensures version { option_copied result ≡ subscriber_version_at (tables_of self.now) (changed_key (tables_of self.now) change.now) }
        ensures asked { CanBeAsked self.now.publication change.now (option_copied result) }
        ensures new { IsNewAt (subscriber_next_dot (tables_of self.now)) (option_copied result) }
    {
        let _ = &self.publication;
        self.version_held(change)
    }

    // The same, without what it says of the version.
    fn version_held(&self, change: &Change) -> Option<&Version>
        requires { self.now.state.changes < counter_limit }
        ensures { option_copied result ≡ subscriber_version_at (tables_of self.now) (changed_key (tables_of self.now) change.now) }
    {
        match self.rows.get(&key_of(self.next_dot(), change)) {
            Some(row) => Some(&row.version),
            None => None,
        }
    }

    // The identity value of a new row, which is Null where its article has no identity column, and
    // the change of the ranges that it is taken from.
    fn draw(&self, change: &Change) -> Result<(Value, Listing<RangesEdit>), Refusal>
        ensures drawn { IfOk result (λ drawn. subscriber_drawn (tables_of self.now) change.now ≡ Ok (drawn.0, rows_after_all nat_cmp self.now.held.rows drawn.1)) }
        ensures refused { (refusal : OneRefusal) → result ≡ Err refusal → (refusal ≡ no_memory) ⊎ (subscriber_drawn (tables_of self.now) change.now ≡ Err refusal) }
        ensures identity { IfOk result (λ drawn. HasIdentity self.now.publication change.now drawn.0) }
        ensures ranged { IfOk result (λ drawn. AreRanged self.now.publication (rows_after_all nat_cmp self.now.held.rows drawn.1)) }
    {
        let _ = &self.publication;
        let drawn = self.draw_for(change)?;
        Ok(drawn)
    }

    // The same, without what it says of the articles.
    fn draw_for(&self, change: &Change) -> Result<(Value, Listing<RangesEdit>), Refusal>
        ensures drawn { IfOk result (λ drawn. subscriber_drawn (tables_of self.now) change.now ≡ Ok (drawn.0, rows_after_all nat_cmp self.now.held.rows drawn.1)) }
        ensures refused { (refusal : OneRefusal) → result ≡ Err refusal → (refusal ≡ no_memory) ⊎ (subscriber_drawn (tables_of self.now) change.now ≡ Err refusal) }
    {
        match change {
            Change::Insert { article, .. } => self.draw_value(*article),
            _ => Ok((Value::Null, Listing::empty(self.alloc))),
        }
    }

    // The same, for a new row of an article, whatever it sets.
    fn draw_value(&self, article: u8) -> Result<(Value, Listing<RangesEdit>), Refusal>
        ensures drawn { IfOk result (λ drawn. subscriber_drawn (tables_of self.now) (AnInsert article []) ≡ Ok (drawn.0, rows_after_all nat_cmp self.now.held.rows drawn.1)) }
        ensures refused { (refusal : OneRefusal) → result ≡ Err refusal → (refusal ≡ no_memory) ⊎ (subscriber_drawn (tables_of self.now) (AnInsert article []) ≡ Err refusal) }
    {
        let mut edits = Listing::empty(self.alloc);
        let Some(ranges) = self.held.get(&article) else {
            return Ok((Value::Null, edits));
        };
        let mut left = *ranges;
        match left.take() {
            Ok(value) => {
                edits.push(Edit::Put(article, left))?;
                Ok((Value::Int(value), edits))
            }
            Err(used_up) => Err(Refusal::IdentityUsedUp { end: used_up.end }),
        }
    }

    // The row after the change, with its key and what it changes of the index.
    fn change_row(
        &self,
        change: &Change,
        identity: Value,
    ) -> Result<(RowKey, SubscriberRow, IndexChanges), Refusal>
        requires changes { self.now.state.changes < counter_limit }
        requires closed { self.now.gens.book.filling.last_closed < counter_limit }
        requires place { has_article self.now.publication (article_of change.now) ≡ true }
        requires ascend { ColumnsAscend (settings_of change.now) }
        requires allowed { IsAllowed self.now.publication change.now (subscriber_version_at (tables_of self.now) (changed_key (tables_of self.now) change.now)) }
        ensures row { IfOk result (λ row. IsChanged self.now.publication (tables_of self.now) change.now identity row.0 row.1 row.2) }
        ensures refused { (refusal : OneRefusal) → result ≡ Err refusal → refusal ≡ no_memory }
    {
        let key = key_of(self.next_dot(), change);
        let version = self.next_version(change, identity)?;
        let kept = kept_by(&self.rows, key);
        let generations = with_open(self.alloc, kept, self.gens.last_closed() + 1)?;
        let index = reindexing(self.alloc, key, kept, generations.as_slice())?;
        Ok((
            key,
            SubscriberRow {
                version,
                generations,
            },
            index,
        ))
    }

    // The version after the change. An update or a delete of a row that is not held is refused
    // before it comes here.
    fn next_version(&self, change: &Change, identity: Value) -> Result<Version, Refusal>
        requires changes { self.now.state.changes < counter_limit }
        requires place { has_article self.now.publication (article_of change.now) ≡ true }
        requires ascend { ColumnsAscend (settings_of change.now) }
        requires allowed { IsAllowed self.now.publication change.now (subscriber_version_at (tables_of self.now) (changed_key (tables_of self.now) change.now)) }
        ensures version { IfOk result (λ version. version_after self.now.publication (subscriber_next_dot (tables_of self.now)) identity change.now (subscriber_version_at (tables_of self.now) (changed_key (tables_of self.now) change.now)) ≡ Some version) }
        ensures fits { IfOk result (λ version. HasIdentity self.now.publication change.now identity → FitsHeld self.now.publication (article_of change.now) (Some version)) }
        ensures refused { (refusal : OneRefusal) → result ≡ Err refusal → refusal ≡ no_memory }
    {
        let making = Making {
            change,
            dot: self.next_dot(),
            identity,
        };
        let held = self.version_for(change);
        match version_after(self.alloc, &self.publication, &making, held)? {
            Some(version) => Ok(version),
            None => Err(Refusal::NoRow),
        }
    }

    // The draft of a change of one row.
    fn draft_row(
        &mut self,
        key: RowKey,
        row: SubscriberRow,
        index: IndexChanges,
        held: Listing<RangesEdit>,
        latest: Moment,
    ) -> Result<Draft, NoMemory>
        requires changes { self.old.state.changes < counter_limit }
        requires closed { self.old.gens.book.filling.last_closed < counter_limit }
        requires sound { IsSound self.old.publication (with_change key row (rows_after_all nat_cmp self.old.held.rows held) latest (tables_of self.old)) (entries_after_all self.old.unsent.entries index) }
        ensures made { IfOk result (λ draft. after draft.changes (tables_of self.old) ≡ with_change key row (rows_after_all nat_cmp self.old.held.rows held) latest (tables_of self.old)) }
        ensures ready { IfOk result (λ draft. IsDrafted self.new draft) }
        ensures same { tables_of self.new ≡ tables_of self.old }
        ensures publication { self.new.publication ≡ self.old.publication }
    {
        let state = State {
            changes: self.state.changes + 1,
            latest,
            ..self.state
        };
        let (_, gens) = self.gens.prepare_enter(1, Moment(state.changes))?;
        let mut rows = Listing::empty(self.alloc);
        rows.push(Edit::Put(key, row))?;
        let _ = self.conflicts.rows();
        let conflicts = self.conflicts.prepare(Listing::empty(self.alloc))?;
        let changes = Changes {
            state,
            gens,
            done: None,
            rows,
            held,
            conflicts,
        };
        self.prepare(changes, index)
    }
}
