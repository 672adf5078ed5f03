//! One event of a script.
ghost use Rattle.std.specs.Prelude.{◌≡◌, ◌≤◌, ◌+◌, ◌^◌, ℕ, Err, IfOk, List};
ghost use Rattle.merge_types.specs.declared.identifiers.SiteId.{SiteId};
ghost use Rattle.merge_batch.specs.declared.refusal.Refusal.TheVariants.{Damaged};
ghost use Rattle.merge_model.specs.Script.Proper.{IsProperAnswer};
ghost use Rattle.merge_model.specs.declared.event.Event.TheVariants.{Restart};
ghost use Rattle.merge_world.specs.Happenings.{Proceeds, seconds_of};
ghost use Rattle.merge_world.specs.Views.{IsOrdered, handed_view};

use crate::reports::Report;
use crate::sending::Sending;
use crate::sites::{PublisherSite, SubscriberSite};
use crate::world::{Seen, Sites};
use merge_batch::Refusal;
use merge_model::{Answer, Event};
use merge_resolve::Handed;
use std::alloc::Global;

impl<P: PublisherSite, S: SubscriberSite> Sites<P, S> {
    /// What an event does to all sites, and what it is answered. An error ends the run: at a restart
    /// the store cannot be read, or records are damaged. The moment must have room for an event.
    pub fn step(
        &mut self,
        alloc: Global,
        resolvers: &mut Vec<Handed>,
        event: &Event,
    ) -> Result<Answer, Refusal>
        requires ordered { IsOrdered (⟦<Sites<P, S> as Seen>⟧.seen self.old) }
        requires clock { self.old.moment.0 + 2 ^ 32 ≤ 2 ^ 64 }
        ensures happened { Proceeds event.now (⟦<Sites<P, S> as Seen>⟧.seen self.old) (⟦<Sites<P, S> as Seen>⟧.seen self.new)
            (handed_view (λ r. says r) (λ r. tally_of r) resolvers.old.items) (handed_view (λ r. says r) (λ r. tally_of r) resolvers.new.items) result }
        ensures damaged { (site : SiteId) (table : ℕ) (key : List ℕ) → event.now ≡ Restart site → result ≡ Err (Damaged table key) → ⟦<Sites<P, S> as Seen>⟧.IsDamaged self.new site table key }
        ensures printable { IfOk result IsProperAnswer }
    {
        match event {
            Event::Wait(seconds) => Ok(self.wait_event(*seconds)),
            Event::Insert {
                site,
                article,
                values,
            } => Ok(self.insert_event(alloc, *site, article, values)),
            Event::Update {
                site,
                article,
                row,
                values,
            } => Ok(self.update_event(alloc, *site, article, *row, values)),
            Event::Delete { site, article, row } => Ok(self.delete_event(*site, article, *row)),
            Event::Close(site) => Ok(self.close_event(*site)),
            Event::Sync(site) => Ok(self.sync_event(resolvers, *site)),
            Event::SendJoin(site) => Ok(self.send_event(*site, Sending::Join)),
            Event::SendUpload(site) => Ok(self.send_event(*site, Sending::Upload)),
            Event::SendRanges(site) => Ok(self.send_event(*site, Sending::Ranges)),
            Event::SendDownload(site) => Ok(self.send_event(*site, Sending::Download)),
            Event::Deliver(number) => Ok(self.deliver_event(resolvers, *number)),
            Event::Reinit(site) => Ok(self.reinit_event(*site)),
            Event::Purge => Ok(self.purge_event()),
            Event::Restart(site) => self.restart_event(*site),
            Event::Show { site, article } => Ok(self.show_event(alloc, *site, article)),
            Event::Partition(site) => Ok(self.partition_event(*site)),
            Event::Conflicts(site) => Ok(self.conflicts_event(alloc, *site)),
            Event::Ranges(site) => Ok(self.ranges_event(alloc, *site)),
            Event::Generations(site) => Ok(self.generations_event(alloc, *site)),
            Event::Count(site) => Ok(self.count_event(alloc, *site)),
        }
    }
}

/// By how many seconds an event moves the moment.
pub fn seconds_of(event: &Event) -> u32
    ensures { result ≡ seconds_of event.now }
{
    match event {
        Event::Wait(seconds) => *seconds,
        _ => 0,
    }
}
