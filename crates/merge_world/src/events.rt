//! Events, but for local changes and reports.
ghost use Rattle.std.specs.Prelude.{◌≡◌, ◌+◌, ◌<◌, ◌^◌, IfErr, OnOk, false, true};
ghost use Rattle.merge_batch.specs.declared.refusal.Refusal.TheVariants as refusal;
ghost use Rattle.merge_model.specs.World.Events.{is_site, outcome_answer};
ghost use Rattle.merge_model.specs.declared.event.Event.TheVariants as event;
ghost use Rattle.merge_schema.specs.Places.{is_subscription};
ghost use Rattle.merge_world.specs.Happenings.{Happened, send_event};
ghost use Rattle.merge_world.specs.Views.{IsOrdered, handed_view};

use crate::sending::Sending;
use crate::session::Ended;
use crate::sites::{PublisherSite, SubscriberSite};
use crate::world::{Seen, Sites};
use merge_batch::Refusal;
use merge_model::{Answer, Outcome, Taken};
use merge_resolve::Handed;
use merge_types::{Moment, SiteId};

/// What an outcome is answered, with the number of the message that was delivered.
pub(crate) fn answer_of(number: u64, outcome: Outcome) -> Answer
    ensures { result ≡ outcome_answer number outcome }
{
    match outcome {
        Outcome::Passed => Answer::Fine,
        Outcome::Made(row) => Answer::RowMade(row),
        Outcome::Closes(generation) => Answer::ClosedAt(generation),
        Outcome::Posted(posted) => Answer::Sent(posted),
        Outcome::NoPost => Answer::Nothing,
        Outcome::Took(Taken::Acted) => Answer::Applied,
        Outcome::Took(Taken::Missed { seq, outstanding }) => Answer::Ignored { seq, outstanding },
        Outcome::NoLetter => Answer::NoMessage(number),
        Outcome::Discards(rows) => Answer::Discarded(rows),
        Outcome::Forgot(forgotten) => Answer::Purged {
            tombstones: forgotten.tombstones,
            mappings: forgotten.mappings,
            generations: forgotten.generations,
        },
        Outcome::Refuses(refusal) => Answer::Refused(refusal),
    }
}

impl<P: PublisherSite, S: SubscriberSite> Sites<P, S> {
    // Refuses a site that does not subscribe.
    pub(crate) fn check_subscriber(&self, site: SiteId) -> Result<(), Refusal>
        ensures ok { OnOk result (is_subscription (⟦<Sites<P, S> as Seen>⟧.seen self.now).publication site.0 ≡ true) }
        ensures err { IfErr result (λ why. (why ≡ refusal.UnknownSite site) × (is_subscription (⟦<Sites<P, S> as Seen>⟧.seen self.now).publication site.0 ≡ false)) }
    {
        if self.publisher.publication().is_subscription(site) {
            Ok(())
        } else {
            Err(Refusal::UnknownSite { site })
        }
    }

    // Refuses a site that is neither the publisher nor subscribes.
    pub(crate) fn check_site(&self, site: SiteId) -> Result<(), Refusal>
        ensures ok { OnOk result (is_site (⟦<Sites<P, S> as Seen>⟧.seen self.now).publication site ≡ true) }
        ensures err { IfErr result (λ why. (why ≡ refusal.UnknownSite site) × (is_site (⟦<Sites<P, S> as Seen>⟧.seen self.now).publication site ≡ false)) }
    {
        if site.0 == 0 {
            return Ok(());
        }
        self.check_subscriber(site)
    }

    /// The moment moves.
    pub fn wait_event(&mut self, seconds: u32) -> Answer
        requires { self.old.moment.0 + seconds < 2 ^ 64 }
        ensures { (h : _) → Happened (event.Wait seconds) (⟦<Sites<P, S> as Seen>⟧.seen self.old) (⟦<Sites<P, S> as Seen>⟧.seen self.new) h h result }
    {
        let moment = self.moment.0 + seconds as u64;
        self.moment = Moment(moment);
        Answer::Now(moment)
    }

    /// A site closes its open generation.
    pub fn close_event(&mut self, site: SiteId) -> Answer
        requires { IsOrdered (⟦<Sites<P, S> as Seen>⟧.seen self.old) }
        ensures { (h : _) → Happened (event.Close site) (⟦<Sites<P, S> as Seen>⟧.seen self.old) (⟦<Sites<P, S> as Seen>⟧.seen self.new) h h result }
    {
        match self.check_site(site) {
            Ok(()) => answer_of(0, self.close(site)),
            Err(refusal) => Answer::Refused(refusal),
        }
    }

    /// A subscriber makes a message.
    pub fn send_event(&mut self, site: SiteId, sending: Sending) -> Answer
        requires { IsOrdered (⟦<Sites<P, S> as Seen>⟧.seen self.old) }
        ensures { (h : _) → Happened (send_event sending site) (⟦<Sites<P, S> as Seen>⟧.seen self.old) (⟦<Sites<P, S> as Seen>⟧.seen self.new) h h result }
    {
        match self.check_subscriber(site) {
            Ok(()) => answer_of(0, self.send(site, sending)),
            Err(refusal) => Answer::Refused(refusal),
        }
    }

    /// A subscriber begins anew.
    pub fn reinit_event(&mut self, site: SiteId) -> Answer
        requires { IsOrdered (⟦<Sites<P, S> as Seen>⟧.seen self.old) }
        ensures { (h : _) → Happened (event.Reinit site) (⟦<Sites<P, S> as Seen>⟧.seen self.old) (⟦<Sites<P, S> as Seen>⟧.seen self.new) h h result }
    {
        match self.check_subscriber(site) {
            Ok(()) => answer_of(0, self.make_anew(site)),
            Err(refusal) => Answer::Refused(refusal),
        }
    }

    /// The publisher forgets what is old.
    pub fn purge_event(&mut self) -> Answer
        ensures { (h : _) → Happened event.Purge (⟦<Sites<P, S> as Seen>⟧.seen self.old) (⟦<Sites<P, S> as Seen>⟧.seen self.new) h h result }
    {
        answer_of(0, self.forget())
    }

    /// A message comes to where it goes.
    pub fn deliver_event(&mut self, resolvers: &mut Vec<Handed>, number: u64) -> Answer
        requires { IsOrdered (⟦<Sites<P, S> as Seen>⟧.seen self.old) }
        ensures { Happened (event.Deliver number) (⟦<Sites<P, S> as Seen>⟧.seen self.old) (⟦<Sites<P, S> as Seen>⟧.seen self.new)
            (handed_view (λ r. says r) (λ r. tally_of r) resolvers.old.items) (handed_view (λ r. says r) (λ r. tally_of r) resolvers.new.items) result }
    {
        answer_of(number, self.deliver(resolvers, number))
    }

    /// A whole session of a subscriber.
    pub fn sync_event(&mut self, resolvers: &mut Vec<Handed>, site: SiteId) -> Answer
        requires { IsOrdered (⟦<Sites<P, S> as Seen>⟧.seen self.old) }
        ensures { Happened (event.Sync site) (⟦<Sites<P, S> as Seen>⟧.seen self.old) (⟦<Sites<P, S> as Seen>⟧.seen self.new)
            (handed_view (λ r. says r) (λ r. tally_of r) resolvers.old.items) (handed_view (λ r. says r) (λ r. tally_of r) resolvers.new.items) result }
    {
        match self.check_subscriber(site) {
            Ok(()) => self.sync(resolvers, site),
            Err(refusal) => Answer::Refused(refusal),
        }
    }

    // A session of a site that subscribes.
    fn sync(&mut self, resolvers: &mut Vec<Handed>, site: SiteId) -> Answer
        requires ordered { IsOrdered (⟦<Sites<P, S> as Seen>⟧.seen self.old) }
        requires subscriber { is_subscription (⟦<Sites<P, S> as Seen>⟧.seen self.old).publication site.0 ≡ true }
        ensures { Happened (event.Sync site) (⟦<Sites<P, S> as Seen>⟧.seen self.old) (⟦<Sites<P, S> as Seen>⟧.seen self.new)
            (handed_view (λ r. says r) (λ r. tally_of r) resolvers.old.items) (handed_view (λ r. says r) (λ r. tally_of r) resolvers.new.items) result }
    {
        let Ended {
            uploads,
            downloads,
            stop,
        } = self.session(resolvers, site);
        match stop {
            None => Answer::Done {
                uploads,
                downloads,
                watermark: self.watermark(site),
            },
            Some(refusal) => Answer::Stopped {
                uploads,
                downloads,
                refusal,
            },
        }
    }
}
