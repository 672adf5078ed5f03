//! The events of one site.
ghost use Rattle.std.specs.Prelude.{◌≡◌, IfSome, None, false};
ghost use Rattle.merge_model.specs.Script.Proper.{IsProperAnswer};
ghost use Rattle.merge_world.specs.Views.{IsOrdered};
ghost use Rattle.merge_command.specs.Clocked.{EventIsTaken, IsIdle};
ghost use Rattle.merge_command.specs.Taken.{is_taken};

use merge_link::Clock;
use merge_model::{Answer, Event};
use merge_types::SiteId;
use merge_world::{PublisherSite, Seen, Sites, SubscriberSite};
use std::alloc::Global;

/// Whether an event is one of a site that stands alone: a local change, a closing, a new beginning or
/// a report of this site, and at the publisher a purge. Messages, sessions, waits, restarts and
/// partitions are none.
pub fn is_taken(here: SiteId, event: &Event) -> bool
    ensures { result ≡ is_taken here event.now }
{
    match event {
        Event::Insert { site, .. } => site.0 == here.0,
        Event::Update { site, .. } => site.0 == here.0,
        Event::Delete { site, .. } => site.0 == here.0,
        Event::Close(site) => site.0 == here.0,
        Event::Reinit(site) => site.0 == here.0,
        Event::Purge => here.0 == 0,
        Event::Show { site, .. } => site.0 == here.0,
        Event::Conflicts(site) => site.0 == here.0,
        Event::Ranges(site) => site.0 == here.0,
        Event::Generations(site) => site.0 == here.0,
        Event::Count(site) => site.0 == here.0,
        Event::Wait(_) => false,
        Event::Sync(_) => false,
        Event::SendJoin(_) => false,
        Event::SendUpload(_) => false,
        Event::SendRanges(_) => false,
        Event::SendDownload(_) => false,
        Event::Deliver(_) => false,
        Event::Restart(_) => false,
        Event::Partition(_) => false,
    }
}

// Does what an event says at the next moment of the clock, where it is one of the site, and gives what
// it is answered. None, with nothing done, for every other event.
pub(crate) fn happen<P: PublisherSite, S: SubscriberSite, C: Clock>(
    alloc: Global,
    sites: &mut Sites<P, S>,
    here: SiteId,
    clock: &mut C,
    event: &Event,
) -> Option<Answer>
    requires { IsOrdered (⟦<Sites<P, S> as Seen>⟧.seen sites.old) }
    ensures took { IfSome result (λ answer. EventIsTaken here event.now (⟦<Sites<P, S> as Seen>⟧.seen sites.old) (⟦<Sites<P, S> as Seen>⟧.seen sites.new) (C.told clock.old) (C.told clock.new) answer) }
    ensures foreign { result ≡ None → is_taken here event.now ≡ false }
    ensures idle { result ≡ None → IsIdle (⟦<Sites<P, S> as Seen>⟧.seen sites.old) (⟦<Sites<P, S> as Seen>⟧.seen sites.new) (C.told clock.old) (C.told clock.new) }
    ensures printable { IfSome result IsProperAnswer }
{
    if !is_taken(here, event) {
        return None;
    }
    sites.moment = clock.now();
    match event {
        Event::Insert {
            site,
            article,
            values,
        } => Some(sites.insert_event(alloc, *site, article, values)),
        Event::Update {
            site,
            article,
            row,
            values,
        } => Some(sites.update_event(alloc, *site, article, *row, values)),
        Event::Delete { site, article, row } => Some(sites.delete_event(*site, article, *row)),
        Event::Close(site) => Some(sites.close_event(*site)),
        Event::Reinit(site) => Some(sites.reinit_event(*site)),
        Event::Purge => Some(sites.purge_event()),
        Event::Show { site, article } => Some(sites.show_event(alloc, *site, article)),
        Event::Conflicts(site) => Some(sites.conflicts_event(alloc, *site)),
        Event::Ranges(site) => Some(sites.ranges_event(alloc, *site)),
        Event::Generations(site) => Some(sites.generations_event(alloc, *site)),
        Event::Count(site) => Some(sites.count_event(alloc, *site)),
        _ => None,
    }
}
