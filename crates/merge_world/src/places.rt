//! Subscribers by their sites, and room for messages.
ghost use Rattle.std.specs.Prelude.{◌≡◌, ◌<◌, ◌+◌, ◌-◌, ◌++◌, ◌∷◌, ◌==◌, [], None, IfSome, OnOk, length, option_copied, option_map, position, vec_len, vec_capacity};
ghost use Rattle.merge_model.specs.declared.outcome.Outcome.TheVariants.{Posted};
ghost use Rattle.merge_world.specs.Sessions.{joined_at, unsent_at, watermark_at};
ghost use Rattle.merge_world.specs.Views.{IsOrdered, tables_at};

use crate::pool::put;
use crate::sites::{PublisherSite, SubscriberSite};
use crate::world::{Seen, Sites};
use merge_gens::Marks;
use merge_model::{Letter, Message, Outcome};
use merge_types::{NoMemory, SiteId};

/// The place of the subscriber of a site, where only the subscribers are at hand.
pub(crate) fn place_in<S: SubscriberSite>(subscribers: &Vec<S>, site: SiteId) -> Option<usize>
    ensures place { result ≡ position (λ s. (S.view s).tables.site.0 == site.0) subscribers.now.items }
    ensures within { IfSome result (λ place. place < length subscribers.now.items) }
{
    subscribers
        .iter()
        .position(|subscriber| subscriber.site().0 == site.0)
}

impl<P: PublisherSite, S: SubscriberSite> Sites<P, S> {
    /// The place of the subscriber of a site.
    pub(crate) fn place_of(&self, site: SiteId) -> Option<usize>
        ensures place { result ≡ position (λ s. (S.view s).tables.site.0 == site.0) self.now.subscribers.items }
        ensures within { IfSome result (λ place. place < length self.now.subscribers.items) }
    {
        place_in(&self.subscribers, site)
    }

    /// Makes room for a message.
    pub(crate) fn make_room(&mut self) -> Result<(), NoMemory>
        ensures same { ⟦<Sites<P, S> as Seen>⟧.seen self.new ≡ ⟦<Sites<P, S> as Seen>⟧.seen self.old }
        ensures room { OnOk result (vec_len self.new.pool < vec_capacity self.new.pool) }
    {
        self.pool.reserve(1)?;
        Ok(())
    }

    /// Adds a message, for which there is room.
    pub(crate) fn post(&mut self, site: SiteId, message: Message) -> Outcome
        requires { vec_len self.old.pool < vec_capacity self.old.pool }
        ensures pool { ⟦<Sites<P, S> as Seen>⟧.seen self.new ≡ record (⟦<Sites<P, S> as Seen>⟧.seen self.old) { pool = self.old.pool.items ++ record { site = site; message = message } ∷ [] } }
        ensures number { result ≡ Posted (length self.old.pool.items + 1) }
    {
        let number = self.pool.len() as u64 + 1;
        put(&mut self.pool, Letter { site, message });
        Outcome::Posted(number)
    }

    /// The subscriber of a site.
    pub(crate) fn subscriber(&self, site: SiteId) -> Option<&S>
        requires { IsOrdered (⟦<Sites<P, S> as Seen>⟧.seen self.now) }
        ensures { option_map (λ s. (S.view s).tables) (option_copied result) ≡ tables_at (⟦<Sites<P, S> as Seen>⟧.seen self.now) site }
    {
        match self.place_of(site) {
            Some(place) => Some(&self.subscribers[place]),
            None => None,
        }
    }

    /// Whether the site has joined, or is no subscriber's.
    pub(crate) fn is_joined(&self, site: SiteId) -> bool
        requires { IsOrdered (⟦<Sites<P, S> as Seen>⟧.seen self.now) }
        ensures { result ≡ joined_at (tables_at (⟦<Sites<P, S> as Seen>⟧.seen self.now) site) }
    {
        match self.subscriber(site) {
            Some(subscriber) => subscriber.is_joined(),
            None => true,
        }
    }

    /// How many generations may be unsent, as far as they can be counted.
    pub(crate) fn unsent_generations(&self, site: SiteId) -> Option<u64>
        requires { IsOrdered (⟦<Sites<P, S> as Seen>⟧.seen self.now) }
        ensures some { IfSome result (λ most. most ≡ unsent_at (tables_at (⟦<Sites<P, S> as Seen>⟧.seen self.now) site)) }
        ensures none { result ≡ None → 0 < unsent_at (tables_at (⟦<Sites<P, S> as Seen>⟧.seen self.now) site) }
    {
        match self.subscriber(site) {
            Some(subscriber) => generations_between(&subscriber.marks()),
            None => Some(0),
        }
    }

    /// Up to where the site holds the publisher's generations.
    pub(crate) fn watermark(&self, site: SiteId) -> u64
        requires { IsOrdered (⟦<Sites<P, S> as Seen>⟧.seen self.now) }
        ensures { result ≡ watermark_at (tables_at (⟦<Sites<P, S> as Seen>⟧.seen self.now) site) }
    {
        match self.subscriber(site) {
            Some(subscriber) => subscriber.marks().watermark,
            None => 0,
        }
    }
}

// The generations behind those that were received, with two more.
fn generations_between(marks: &Marks) -> Option<u64>
    ensures some { IfSome result (λ most. most ≡ marks.now.closed + 2 - marks.now.received) }
    ensures none { result ≡ None → 0 < marks.now.closed + 2 - marks.now.received }
{
    let received = marks.received;
    match marks.closed.checked_add(2) {
        Some(end) => Some(end.saturating_sub(received)),
        None => None,
    }
}
