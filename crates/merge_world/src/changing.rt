//! Events that change a row.
ghost use Rattle.std.specs.Prelude.{◌≡◌};
ghost use Rattle.merge_batch.specs.LocalChanges.{article_of, is_insert};
ghost use Rattle.merge_model.specs.World.Events.{change_answer, refused_change};
ghost use Rattle.merge_model.specs.declared.event.Event.TheVariants as event;
ghost use Rattle.merge_model.specs.declared.outcome.Outcome.TheVariants as outcome;
ghost use Rattle.merge_world.specs.Happenings.{ChangeIsAnswered, Happened};
ghost use Rattle.merge_world.specs.Naming.{IsPlaced};
ghost use Rattle.merge_world.specs.Views.{IsOrdered};

use crate::naming::{delete_change, insert_change, update_change};
use crate::sites::{PublisherSite, SubscriberSite};
use crate::world::{Seen, Sites};
use merge_batch::Refusal;
use merge_model::{Answer, NamedValues, Outcome};
use merge_types::{Change, RowId, SiteId, Words};
use std::alloc::Global;

fn article_of(change: &Change) -> u8
    ensures { result ≡ article_of change.now }
{
    match change {
        Change::Insert { article, .. } => *article,
        Change::Update { article, .. } => *article,
        Change::Delete { article, .. } => *article,
    }
}

fn is_insert(change: &Change) -> bool
    ensures { result ≡ is_insert change.now }
{
    match change {
        Change::Insert { .. } => true,
        Change::Update { .. } => false,
        Change::Delete { .. } => false,
    }
}

fn refused_change(change: &Change, refusal: Refusal) -> Answer
    ensures { result ≡ refused_change change.now refusal }
{
    match refusal {
        Refusal::NoMemory => Answer::Refused(Refusal::NoMemory),
        refusal => Answer::RefusedIn {
            article: article_of(change),
            refusal,
        },
    }
}

// What the outcome of a local change is answered.
fn change_answer(change: &Change, outcome: Outcome) -> Answer
    ensures { result ≡ change_answer change.now outcome }
{
    match outcome {
        Outcome::Made(row) => made_answer(change, row),
        Outcome::Refuses(refusal) => refused_change(change, refusal),
        _ => Answer::Fine,
    }
}

fn made_answer(change: &Change, row: RowId) -> Answer
    ensures { result ≡ change_answer change.now (outcome.Made row) }
{
    if is_insert(change) {
        Answer::RowMade(row)
    } else {
        Answer::Fine
    }
}

impl<P: PublisherSite, S: SubscriberSite> Sites<P, S> {
    // A local change with places for names.
    fn change(&mut self, site: SiteId, change: &Change) -> Answer
        requires ordered { IsOrdered (⟦<Sites<P, S> as Seen>⟧.seen self.old) }
        requires placed { IsPlaced (⟦<Sites<P, S> as Seen>⟧.seen self.old).publication change.now }
        ensures { ChangeIsAnswered site change.now (⟦<Sites<P, S> as Seen>⟧.seen self.old) (⟦<Sites<P, S> as Seen>⟧.seen self.new) result }
    {
        change_answer(change, self.make(site, change))
    }

    /// A site makes a row.
    pub fn insert_event(
        &mut self,
        alloc: Global,
        site: SiteId,
        article: &Words,
        values: &NamedValues,
    ) -> Answer
        requires { IsOrdered (⟦<Sites<P, S> as Seen>⟧.seen self.old) }
        ensures { (h : _) → Happened (event.Insert site article.now values.now) (⟦<Sites<P, S> as Seen>⟧.seen self.old) (⟦<Sites<P, S> as Seen>⟧.seen self.new) h h result }
    {
        match self.check_site(site) {
            Ok(()) => match insert_change(
                alloc,
                self.publisher.publication(),
                article,
                values.as_slice(),
            ) {
                Ok(change) => self.change(site, &change),
                Err(refusal) => Answer::Refused(refusal),
            },
            Err(refusal) => Answer::Refused(refusal),
        }
    }

    /// A site changes a row.
    pub fn update_event(
        &mut self,
        alloc: Global,
        site: SiteId,
        article: &Words,
        row: RowId,
        values: &NamedValues,
    ) -> Answer
        requires { IsOrdered (⟦<Sites<P, S> as Seen>⟧.seen self.old) }
        ensures { (h : _) → Happened (event.Update site article.now row values.now) (⟦<Sites<P, S> as Seen>⟧.seen self.old) (⟦<Sites<P, S> as Seen>⟧.seen self.new) h h result }
    {
        match self.check_site(site) {
            Ok(()) => match update_change(
                alloc,
                self.publisher.publication(),
                article,
                row,
                values.as_slice(),
            ) {
                Ok(change) => self.change(site, &change),
                Err(refusal) => Answer::Refused(refusal),
            },
            Err(refusal) => Answer::Refused(refusal),
        }
    }

    /// A site deletes a row.
    pub fn delete_event(&mut self, site: SiteId, article: &Words, row: RowId) -> Answer
        requires { IsOrdered (⟦<Sites<P, S> as Seen>⟧.seen self.old) }
        ensures { (h : _) → Happened (event.Delete site article.now row) (⟦<Sites<P, S> as Seen>⟧.seen self.old) (⟦<Sites<P, S> as Seen>⟧.seen self.new) h h result }
    {
        match self.check_site(site) {
            Ok(()) => match delete_change(self.publisher.publication(), article, row) {
                Ok(change) => self.change(site, &change),
                Err(refusal) => Answer::Refused(refusal),
            },
            Err(refusal) => Answer::Refused(refusal),
        }
    }
}
