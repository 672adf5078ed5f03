//! Local changes, closings, purges, and subscribers that begin anew.
ghost use Rattle.std.specs.Prelude.{◌≡◌};
ghost use Rattle.merge_model.specs.World.Steps.{CloseAt, Forget, Make, MakeAnew};
ghost use Rattle.merge_world.specs.Naming.{IsPlaced};
ghost use Rattle.merge_world.specs.Views.{Does, IsOrdered};

use crate::sites::{PublisherSite, SubscriberSite};
use crate::world::{Seen, Sites};
use merge_batch::Refusal;
use merge_model::Outcome;
use merge_types::{Change, SiteId};

impl<P: PublisherSite, S: SubscriberSite> Sites<P, S> {
    /// A local change at a site, of which 0 is the publisher.
    pub fn make(&mut self, site: SiteId, change: &Change) -> Outcome
        requires ordered { IsOrdered (⟦<Sites<P, S> as Seen>⟧.seen self.old) }
        requires placed { IsPlaced (⟦<Sites<P, S> as Seen>⟧.seen self.old).publication change.now }
        ensures { Does (Make site change.now) (⟦<Sites<P, S> as Seen>⟧.seen self.old) (⟦<Sites<P, S> as Seen>⟧.seen self.new) result }
    {
        if site.0 == 0 {
            self.make_at_publisher(change)
        } else {
            self.make_at_subscriber(site, change)
        }
    }

    fn make_at_publisher(&mut self, change: &Change) -> Outcome
        requires { IsPlaced (⟦<Sites<P, S> as Seen>⟧.seen self.old).publication change.now }
        ensures { Does (Make (record { 0 = 0 }) change.now) (⟦<Sites<P, S> as Seen>⟧.seen self.old) (⟦<Sites<P, S> as Seen>⟧.seen self.new) result }
    {
        match self.publisher.local(self.moment, change) {
            Ok(row) => Outcome::Made(row),
            Err(refusal) => Outcome::Refuses(refusal),
        }
    }

    fn make_at_subscriber(&mut self, site: SiteId, change: &Change) -> Outcome
        requires ordered { IsOrdered (⟦<Sites<P, S> as Seen>⟧.seen self.old) }
        requires placed { IsPlaced (⟦<Sites<P, S> as Seen>⟧.seen self.old).publication change.now }
        requires subscriber { ¬ (site.0 ≡ 0) }
        ensures { Does (Make site change.now) (⟦<Sites<P, S> as Seen>⟧.seen self.old) (⟦<Sites<P, S> as Seen>⟧.seen self.new) result }
    {
        let moment = self.moment;
        match self.place_of(site) {
            None => Outcome::Refuses(Refusal::UnknownSite { site }),
            Some(place) => match self.subscribers[place].local(moment, change) {
                Ok(row) => Outcome::Made(row),
                Err(refusal) => Outcome::Refuses(refusal),
            },
        }
    }

    /// Closes the open generation of a site.
    pub fn close(&mut self, site: SiteId) -> Outcome
        requires { IsOrdered (⟦<Sites<P, S> as Seen>⟧.seen self.old) }
        ensures { Does (CloseAt site) (⟦<Sites<P, S> as Seen>⟧.seen self.old) (⟦<Sites<P, S> as Seen>⟧.seen self.new) result }
    {
        if site.0 == 0 {
            self.close_publisher()
        } else {
            self.close_subscriber(site)
        }
    }

    fn close_publisher(&mut self) -> Outcome
        ensures { Does (CloseAt (record { 0 = 0 })) (⟦<Sites<P, S> as Seen>⟧.seen self.old) (⟦<Sites<P, S> as Seen>⟧.seen self.new) result }
    {
        match self.publisher.close_generation(self.moment) {
            Ok(generation) => Outcome::Closes(generation),
            Err(refusal) => Outcome::Refuses(refusal),
        }
    }

    fn close_subscriber(&mut self, site: SiteId) -> Outcome
        requires ordered { IsOrdered (⟦<Sites<P, S> as Seen>⟧.seen self.old) }
        requires subscriber { ¬ (site.0 ≡ 0) }
        ensures { Does (CloseAt site) (⟦<Sites<P, S> as Seen>⟧.seen self.old) (⟦<Sites<P, S> as Seen>⟧.seen self.new) result }
    {
        let moment = self.moment;
        match self.place_of(site) {
            None => Outcome::Refuses(Refusal::UnknownSite { site }),
            Some(place) => match self.subscribers[place].close_generation(moment) {
                Ok(generation) => Outcome::Closes(generation),
                Err(refusal) => Outcome::Refuses(refusal),
            },
        }
    }

    /// A subscriber begins anew.
    pub fn make_anew(&mut self, site: SiteId) -> Outcome
        requires { IsOrdered (⟦<Sites<P, S> as Seen>⟧.seen self.old) }
        ensures { Does (MakeAnew site) (⟦<Sites<P, S> as Seen>⟧.seen self.old) (⟦<Sites<P, S> as Seen>⟧.seen self.new) result }
    {
        let moment = self.moment;
        match self.place_of(site) {
            None => Outcome::Refuses(Refusal::UnknownSite { site }),
            Some(place) => match self.subscribers[place].reinitialise(moment) {
                Ok(rows) => Outcome::Discards(rows),
                Err(refusal) => Outcome::Refuses(refusal),
            },
        }
    }

    /// The publisher forgets what is old.
    pub fn forget(&mut self) -> Outcome
        ensures { Does Forget (⟦<Sites<P, S> as Seen>⟧.seen self.old) (⟦<Sites<P, S> as Seen>⟧.seen self.new) result }
    {
        match self.publisher.purge(self.moment) {
            Ok(forgotten) => Outcome::Forgot(forgotten),
            Err(refusal) => Outcome::Refuses(refusal),
        }
    }
}
