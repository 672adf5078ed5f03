//! A run over the script.
ghost use Rattle.std.specs.Prelude.{◌≡◌, ◌≤◌, ◌<◌, ◌+◌, ◌^◌, IfOk, OnErr, OnOk};
ghost use Rattle.merge_make.specs.Publication.{made_publication};
ghost use Rattle.merge_make.specs.Runs.{MadeInPart, StepDone, StepInPart, Summed};
ghost use Rattle.merge_world.specs.Views.{IsOrdered, handed_view};

use crate::script::Script;
use crate::step::Step;
use crate::tally::Tally;
use merge_resolve::Handed;
use merge_types::{NoMemory, Octets};
use merge_world::{PublisherSite, Seen, Sites, SubscriberSite};
use std::alloc::Global;

// Makes the event of a step happen, and adds its answer.
fn play_step<P: PublisherSite, S: SubscriberSite>(
    alloc: Global,
    sites: &mut Sites<P, S>,
    resolvers: &mut Vec<Handed>,
    step: Step,
    tally: &mut Tally,
) -> Result<(), NoMemory>
    requires ordered { IsOrdered (⟦<Sites<P, S> as Seen>⟧.seen sites.old) }
    requires clock { sites.old.moment.0 + 2 ^ 32 ≤ 2 ^ 64 }
    requires made { (⟦<Sites<P, S> as Seen>⟧.seen sites.old).publication ≡ made_publication }
    requires room { tally.old.refusals < 2 ^ 32 }
    ensures done { OnOk result (StepDone step (⟦<Sites<P, S> as Seen>⟧.seen sites.old) (⟦<Sites<P, S> as Seen>⟧.seen sites.new)
        (handed_view (λ r. says r) (λ r. tally_of r) resolvers.old.items) (handed_view (λ r. says r) (λ r. tally_of r) resolvers.new.items) tally.old tally.new) }
    ensures part { OnErr result (StepInPart step (⟦<Sites<P, S> as Seen>⟧.seen sites.old) (⟦<Sites<P, S> as Seen>⟧.seen sites.new)
        (handed_view (λ r. says r) (λ r. tally_of r) resolvers.old.items) (handed_view (λ r. says r) (λ r. tally_of r) resolvers.new.items)) }
    ensures stays { (⟦<Sites<P, S> as Seen>⟧.seen sites.new).sites ≡ (⟦<Sites<P, S> as Seen>⟧.seen sites.old).sites }
{
    let event = step.event(alloc)?;
    match sites.step(alloc, resolvers, &event) {
        Ok(answer) => tally.add(alloc, sites.publisher.publication(), &event, &answer),
        // Only a restart ends a run, and the script has none.
        Err(_) => unreachable!(),
    }
}

/// Plays the script for so many customers on sites of its publication, and gives the summary of the
/// answers: the line `made N events E refused F`, how many rows each site has, and how many conflicts
/// the publisher lists.
pub fn play_script<P: PublisherSite, S: SubscriberSite>(
    alloc: Global,
    sites: &mut Sites<P, S>,
    resolvers: &mut Vec<Handed>,
    customers: u16,
) -> Result<Octets, NoMemory>
    requires ordered { IsOrdered (⟦<Sites<P, S> as Seen>⟧.seen sites.old) }
    requires clock { sites.old.moment.0 + 2 ^ 32 ≤ 2 ^ 64 }
    requires made { (⟦<Sites<P, S> as Seen>⟧.seen sites.old).publication ≡ made_publication }
    ensures summed { IfOk result (Summed customers (⟦<Sites<P, S> as Seen>⟧.seen sites.old) (⟦<Sites<P, S> as Seen>⟧.seen sites.new)
        (handed_view (λ r. says r) (λ r. tally_of r) resolvers.old.items) (handed_view (λ r. says r) (λ r. tally_of r) resolvers.new.items)) }
    ensures part { OnErr result (MadeInPart customers (⟦<Sites<P, S> as Seen>⟧.seen sites.old) (⟦<Sites<P, S> as Seen>⟧.seen sites.new)
        (handed_view (λ r. says r) (λ r. tally_of r) resolvers.old.items) (handed_view (λ r. says r) (λ r. tally_of r) resolvers.new.items)) }
    ensures stays { (⟦<Sites<P, S> as Seen>⟧.seen sites.new).sites ≡ (⟦<Sites<P, S> as Seen>⟧.seen sites.old).sites }
{
    let mut tally = Tally::new(alloc);
    for step in Script::new(customers) {
        play_step(alloc, sites, resolvers, step, &mut tally)?;
    }
    tally.summary(alloc, customers)
}
