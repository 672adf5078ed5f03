//! The script that is made for a number of customers is played, and summed up.
ghost use Rattle.std.specs.Prelude.{◌≡◌, [], IfErr, IfOk, OnOk, map, ℕ};
ghost use Rattle.merge_model.specs.World.Events.{is_site};
ghost use Rattle.merge_make.specs.Publication.{made_publication};
ghost use Rattle.merge_world.specs.Views.{handed_view, site_of};
ghost use Rattle.merge_program.specs.Elsewhere.{SameAtOthers};
ghost use Rattle.merge_program.specs.Fresh.{fresh_view};
ghost use Rattle.merge_program.specs.Making.{IsSummary, IsUnmade, MakeEnds, WriteEnds};
ghost use Rattle.merge_command.specs.Alone.{fresh_publisher};
ghost use Rattle.merge_program.specs.Stores.{AreEmptyStores, AreRooms, RoseBy, at_no_path, fresh_subscribers, untold_publisher, untold_subscriber};

use crate::ending::Ending;
use crate::stores::{give_back, no_path, start};
use merge_make::{made, play_script};
use merge_model::steps_that_fail_show;
use merge_ports::{Outside, Sink, write_whole};
use merge_promises::all_promises_hold;
use merge_resolve::Handed;
use merge_site::{KeptPublisher, KeptSubscriber};
use merge_types::{Moment, NoMemory, Octets, Words};
use merge_world::{PublisherSite, Seen, Sites, SubscriberSite};
use std::alloc::Global;

// Plays the script on sites that have done nothing, and sums up its answers. What is said of the
// faults of their stores holds of every count that rose with them.
fn make_on<P: PublisherSite, S: SubscriberSite>(
    alloc: Global,
    sites: &mut Sites<P, S>,
    resolvers: &mut Vec<Handed>,
    customers: u16,
) -> Result<Octets, NoMemory>
    requires fresh { ⟦<Sites<P, S> as Seen>⟧.seen sites.old ≡ fresh_view made_publication }
    ensures summary { IfOk result (λ text. (before after : ℕ) → RoseBy (⟦<Sites<P, S> as Seen>⟧.seen sites.new).faults before after
        → IsSummary customers (handed_view (λ r. says r) (λ r. tally_of r) resolvers.old.items) before after text) }
    ensures stays { (⟦<Sites<P, S> as Seen>⟧.seen sites.new).sites ≡ (⟦<Sites<P, S> as Seen>⟧.seen sites.old).sites }
{
    all_promises_hold();
    steps_that_fail_show();
    play_script(alloc, sites, resolvers, customers)
}

// The same on the sites that were started for it, whose keepers are given back.
fn make_started<E: Outside>(
    alloc: Global,
    started: (KeptPublisher<E::Keep>, Vec<KeptSubscriber<E::Keep>>),
    resolvers: &mut Vec<Handed>,
    customers: u16,
    outside: &mut E,
    path: &Words,
) -> Result<Octets, NoMemory>
    requires publisher { untold_publisher started.0 ≡ fresh_publisher made_publication }
    requires subscribers { map untold_subscriber started.1.items ≡ fresh_subscribers made_publication }
    requires room { E.HasRoom outside.old (record { 0 = 0 }) path.now }
    requires rooms { AreRooms (E.HasRoom outside.old) path.now (map site_of started.1.items) }
    ensures summary { IfOk result (IsSummary customers (handed_view (λ r. says r) (λ r. tally_of r) resolvers.old.items) (E.counts outside.old).stores (E.counts outside.new).stores) }
    ensures others { SameAtOthers path.now (E.told outside.old) (E.told outside.new) }
{
    let (publisher, subscribers) = started;
    let mut sites = Sites {
        publisher,
        subscribers,
        pool: Vec::new(alloc),
        moment: Moment(0),
    };
    let text = make_on(alloc, &mut sites, resolvers, customers);
    let Sites {
        publisher,
        subscribers,
        ..
    } = sites;
    give_back(outside, path, publisher, subscribers);
    text
}

// The same on the sites of the script's publication, each at its store.
fn summary<E: Outside>(
    alloc: Global,
    customers: u16,
    resolvers: &mut Vec<Handed>,
    outside: &mut E,
) -> Result<Octets, Ending>
    ensures summary { IfOk result (IsSummary customers (handed_view (λ r. says r) (λ r. tally_of r) resolvers.old.items) (E.counts outside.old).stores (E.counts outside.new).stores) }
    ensures unmade { IfErr result (λ ending. IsUnmade ending (at_no_path (E.told outside.old)) (E.counts outside.old).stores (E.counts outside.new).stores) }
    ensures empty { OnOk result (AreEmptyStores (is_site made_publication) (at_no_path (E.told outside.old))) }
    ensures others { SameAtOthers [] (E.told outside.old) (E.told outside.new) }
{
    let publication = made(alloc)?;
    let path = no_path(alloc);
    let started = start(alloc, outside, &path, &publication)?;
    let text = make_started(alloc, started, resolvers, customers, outside, &path)?;
    Ok(text)
}

// Writes a text whole.
fn write_text<O: Sink>(output: &mut O, text: &[u8]) -> Ending
    ensures { WriteEnds result text.now (O.written output.old) (O.written output.new) (O.count output.old) (O.count output.new) }
{
    match write_whole(output, text) {
        Ok(()) => Ending::Done,
        Err(_) => Ending::WriteFault,
    }
}

/// Plays the script for so many customers on sites of its publication, each at its store, and writes
/// the summary of its answers: nothing of it where there is none, and a front where a write fails.
pub fn make<O: Sink, E: Outside>(
    alloc: Global,
    customers: u16,
    resolvers: &mut Vec<Handed>,
    output: &mut O,
    outside: &mut E,
) -> Ending
    ensures ends { MakeEnds result customers (handed_view (λ r. says r) (λ r. tally_of r) resolvers.old.items)
        (record { was = O.written output.old; written = O.written output.new; before = (E.counts outside.old).stores; after = (E.counts outside.new).stores })
        (at_no_path (E.told outside.old)) (O.count output.old) (O.count output.new) }
    ensures others { SameAtOthers [] (E.told outside.old) (E.told outside.new) }
{
    match summary(alloc, customers, resolvers, outside) {
        Ok(text) => write_text(output, text.as_slice()),
        Err(ending) => ending,
    }
}
