//! Sessions.
ghost use Rattle.std.specs.Prelude.{◌≡◌, ◌≤◌, ◌<◌, ◌+◌, ◌-◌, ℕ};
ghost use Rattle.merge_world.specs.Sessions.{AllDownloads, AllRanges, AllUploads, Downloads, Joins, Ranges, SitesGo, SitesSync, Uploads, one_if};
ghost use Rattle.merge_world.specs.Views.{IsOrdered, handed_view};

use crate::exchange::{Exchanged, Span, one_if};
use crate::sending::Sending;
use crate::sites::{PublisherSite, SubscriberSite};
use crate::world::{Seen, Sites};
use merge_batch::Refusal;
use merge_resolve::Handed;
use merge_types::SiteId;
use merge_types::limits::NUMBER_LIMIT;

// How many messages of one kind were answered, and the refusal that ended the session.
#[derive(Debug, Drop)]
struct Turns {
    count: u64,
    stop: Option<Refusal>,
}

/// How many messages of a session were answered, and the refusal that ended it.
#[derive(Debug, Drop)]
pub struct Ended {
    pub uploads: u64,
    pub downloads: u64,
    pub stop: Option<Refusal>,
}

impl<P: PublisherSite, S: SubscriberSite> Sites<P, S> {
    // A site that has not joined joins.
    fn join(&mut self, resolvers: &mut Vec<Handed>, site: SiteId) -> Option<Refusal>
        requires { IsOrdered (⟦<Sites<P, S> as Seen>⟧.seen self.old) }
        ensures { SitesGo site Joins (⟦<Sites<P, S> as Seen>⟧.seen self.old) (⟦<Sites<P, S> as Seen>⟧.seen self.new)
            (handed_view (λ r. says r) (λ r. tally_of r) resolvers.old.items) (handed_view (λ r. says r) (λ r. tally_of r) resolvers.new.items) 0 0 0 0 result }
    {
        if self.is_joined(site) {
            return None;
        }
        match self.exchange(resolvers, site, Sending::Join) {
            Exchanged::Taken(_) => None,
            Exchanged::Answered(_, stop) => stop,
            Exchanged::Unanswered(stop) => stop,
        }
    }

    // Uploads until there is none to make, and at most so many.
    fn uploading(&mut self, resolvers: &mut Vec<Handed>, site: SiteId, most: u64) -> Turns
        requires { IsOrdered (⟦<Sites<P, S> as Seen>⟧.seen self.old) }
        ensures { SitesGo site (Uploads most) (⟦<Sites<P, S> as Seen>⟧.seen self.old) (⟦<Sites<P, S> as Seen>⟧.seen self.new)
            (handed_view (λ r. says r) (λ r. tally_of r) resolvers.old.items) (handed_view (λ r. says r) (λ r. tally_of r) resolvers.new.items) 0 0 result.count 0 result.stop }
    {
        let mut count = 0u64;
        for at in 0..most {
            let _turn = at;
            match self.exchange(resolvers, site, Sending::Upload) {
                Exchanged::Taken(_) => count += 1,
                Exchanged::Answered(_, stop) => {
                    return Turns {
                        count: count + 1,
                        stop,
                    };
                }
                Exchanged::Unanswered(stop) => return Turns { count, stop },
            }
        }
        Turns { count, stop: None }
    }

    // All uploads.
    fn all_uploads(&mut self, resolvers: &mut Vec<Handed>, site: SiteId) -> Turns
        requires { IsOrdered (⟦<Sites<P, S> as Seen>⟧.seen self.old) }
        ensures { SitesGo site AllUploads (⟦<Sites<P, S> as Seen>⟧.seen self.old) (⟦<Sites<P, S> as Seen>⟧.seen self.new)
            (handed_view (λ r. says r) (λ r. tally_of r) resolvers.old.items) (handed_view (λ r. says r) (λ r. tally_of r) resolvers.new.items) 0 0 result.count 0 result.stop }
    {
        match self.unsent_generations(site) {
            Some(most) => self.uploading(resolvers, site, most),
            None => Turns {
                count: 0,
                stop: Some(Refusal::NoMemory),
            },
        }
    }

    // Requests for ranges until an answer has no grant, and at most so many.
    fn asking_ranges(
        &mut self,
        resolvers: &mut Vec<Handed>,
        site: SiteId,
        most: u64,
    ) -> Option<Refusal>
        requires { IsOrdered (⟦<Sites<P, S> as Seen>⟧.seen self.old) }
        ensures { (x y : ℕ) → SitesGo site (Ranges most) (⟦<Sites<P, S> as Seen>⟧.seen self.old) (⟦<Sites<P, S> as Seen>⟧.seen self.new)
            (handed_view (λ r. says r) (λ r. tally_of r) resolvers.old.items) (handed_view (λ r. says r) (λ r. tally_of r) resolvers.new.items) x y x y result }
    {
        for at in 0..most {
            let _turn = at;
            match self.exchange(resolvers, site, Sending::Ranges) {
                Exchanged::Taken(_) => {
                    if !self.grants() {
                        return None;
                    }
                }
                Exchanged::Answered(_, stop) => return stop,
                Exchanged::Unanswered(stop) => return stop,
            }
        }
        None
    }

    // All requests for ranges.
    fn all_ranges(&mut self, resolvers: &mut Vec<Handed>, site: SiteId) -> Option<Refusal>
        requires { IsOrdered (⟦<Sites<P, S> as Seen>⟧.seen self.old) }
        ensures { (x y : ℕ) → SitesGo site AllRanges (⟦<Sites<P, S> as Seen>⟧.seen self.old) (⟦<Sites<P, S> as Seen>⟧.seen self.new)
            (handed_view (λ r. says r) (λ r. tally_of r) resolvers.old.items) (handed_view (λ r. says r) (λ r. tally_of r) resolvers.new.items) x y x y result }
    {
        let most = self.publisher.grants().len() as u64 + 4;
        self.asking_ranges(resolvers, site, most)
    }

    // Downloads until the site asked from the target on, and at most so many.
    fn downloading(
        &mut self,
        resolvers: &mut Vec<Handed>,
        site: SiteId,
        most: u64,
        target: u64,
    ) -> Turns
        requires { IsOrdered (⟦<Sites<P, S> as Seen>⟧.seen self.old) }
        ensures ran { (x y : ℕ) → SitesGo site (Downloads most target) (⟦<Sites<P, S> as Seen>⟧.seen self.old) (⟦<Sites<P, S> as Seen>⟧.seen self.new)
            (handed_view (λ r. says r) (λ r. tally_of r) resolvers.old.items) (handed_view (λ r. says r) (λ r. tally_of r) resolvers.new.items) x y x (y + result.count) result.stop }
        ensures few { result.count ≤ most }
    {
        let mut count = 0u64;
        for at in 0..most {
            let _turn = at;
            match self.exchange(resolvers, site, Sending::Download) {
                Exchanged::Taken(brings) => {
                    count += one_if(brings);
                    if self.is_past(target) {
                        return Turns { count, stop: None };
                    }
                }
                Exchanged::Answered(brings, stop) => {
                    let last = one_if(brings);
                    return Turns {
                        count: count + last,
                        stop,
                    };
                }
                Exchanged::Unanswered(stop) => return Turns { count, stop },
            }
        }
        Turns { count, stop: None }
    }

    // All downloads. The first answer tells the last closed generation, from which the site asks last.
    fn all_downloads(&mut self, resolvers: &mut Vec<Handed>, site: SiteId) -> Turns
        requires { IsOrdered (⟦<Sites<P, S> as Seen>⟧.seen self.old) }
        ensures { (x : ℕ) → SitesGo site AllDownloads (⟦<Sites<P, S> as Seen>⟧.seen self.old) (⟦<Sites<P, S> as Seen>⟧.seen self.new)
            (handed_view (λ r. says r) (λ r. tally_of r) resolvers.old.items) (handed_view (λ r. says r) (λ r. tally_of r) resolvers.new.items) x 0 x result.count result.stop }
    {
        match self.exchange(resolvers, site, Sending::Download) {
            Exchanged::Taken(brings) => match self.downloads_left() {
                None => Turns {
                    count: one_if(brings),
                    stop: None,
                },
                Some(span) => self.more_downloads(resolvers, site, brings, span),
            },
            Exchanged::Answered(brings, stop) => Turns {
                count: one_if(brings),
                stop,
            },
            Exchanged::Unanswered(stop) => Turns { count: 0, stop },
        }
    }

    // The downloads behind the first answer.
    fn more_downloads(
        &mut self,
        resolvers: &mut Vec<Handed>,
        site: SiteId,
        brings: bool,
        span: Span,
    ) -> Turns
        requires ordered { IsOrdered (⟦<Sites<P, S> as Seen>⟧.seen self.old) }
        requires beyond { span.from < span.last }
        ensures { (x : ℕ) → SitesGo site (Downloads (span.last + 1 - span.from) span.last) (⟦<Sites<P, S> as Seen>⟧.seen self.old) (⟦<Sites<P, S> as Seen>⟧.seen self.new)
            (handed_view (λ r. says r) (λ r. tally_of r) resolvers.old.items) (handed_view (λ r. says r) (λ r. tally_of r) resolvers.new.items) x (one_if brings) x result.count result.stop }
    {
        if span.last >= NUMBER_LIMIT {
            return Turns {
                count: one_if(brings),
                stop: Some(Refusal::NoMemory),
            };
        }
        let most = span.last + 1 - span.from;
        let Turns { count, stop } = self.downloading(resolvers, site, most, span.last);
        Turns {
            count: one_if(brings) + count,
            stop,
        }
    }

    /// A session of a subscriber: it joins where it has not, uploads, asks for ranges, and downloads.
    /// It ends with the first refusal.
    pub fn session(&mut self, resolvers: &mut Vec<Handed>, site: SiteId) -> Ended
        requires { IsOrdered (⟦<Sites<P, S> as Seen>⟧.seen self.old) }
        ensures { SitesSync site (⟦<Sites<P, S> as Seen>⟧.seen self.old) (⟦<Sites<P, S> as Seen>⟧.seen self.new)
            (handed_view (λ r. says r) (λ r. tally_of r) resolvers.old.items) (handed_view (λ r. says r) (λ r. tally_of r) resolvers.new.items) result.uploads result.downloads result.stop }
    {
        if let Some(refusal) = self.join(resolvers, site) {
            return Ended {
                uploads: 0,
                downloads: 0,
                stop: Some(refusal),
            };
        }
        let Turns {
            count: uploads,
            stop,
        } = self.all_uploads(resolvers, site);
        if let Some(refusal) = stop {
            return Ended {
                uploads,
                downloads: 0,
                stop: Some(refusal),
            };
        }
        if let Some(refusal) = self.all_ranges(resolvers, site) {
            return Ended {
                uploads,
                downloads: 0,
                stop: Some(refusal),
            };
        }
        let Turns {
            count: downloads,
            stop,
        } = self.all_downloads(resolvers, site);
        Ended {
            uploads,
            downloads,
            stop,
        }
    }
}
