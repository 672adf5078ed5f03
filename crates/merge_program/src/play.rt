//! A publication and a script are played.
ghost use Rattle.std.specs.Prelude.{◌≡◌, ◌⊎◌, ◌≤◌, [], Option, length, map, true, ℕ};
ghost use Rattle.merge_types.specs.declared.identifiers.SiteId.{SiteId as Site};
ghost use Rattle.merge_ports.specs.Entries.{Map};
ghost use Rattle.merge_script.specs.Lines.{lines_of};
ghost use Rattle.merge_schema.specs.Valid.{IsValid};
ghost use Rattle.merge_model.specs.World.Events.{is_site};
ghost use Rattle.merge_world.specs.Views.{handed_view, site_of};
ghost use Rattle.merge_program.specs.Elsewhere.{SameAtOthers};
ghost use Rattle.merge_program.specs.Endings.{status_of};
ghost use Rattle.merge_program.specs.Headline.{AnsweredInPart, InputEnds, PlayEnds, WrittenInPart};
ghost use Rattle.merge_program.specs.Statuses.{is_silent};
ghost use Rattle.merge_command.specs.Alone.{fresh_publisher};
ghost use Rattle.merge_program.specs.Stores.{AreEmptyStores, AreRooms, at_no_path, fresh_subscribers, untold_publisher, untold_subscriber};
ghost use Rattle.merge_types.specs.Limits.{input_limit};

use crate::ending::{Ending, refused};
use crate::script::play_on;
use crate::stores::{give_back, no_path, start};
use merge_ports::{Outside, Sink};
use merge_resolve::Handed;
use merge_schema::{Publication, read};
use merge_script::cut_input;
use merge_site::{KeptPublisher, KeptSubscriber};
use merge_types::{Moment, Words};
use merge_world::Sites;
use std::alloc::Global;

// Plays a script on the sites that were started for it, at stores that were empty, and gives their
// keepers back.
fn play_started<O: Sink, E: Outside>(
    alloc: Global,
    started: (KeptPublisher<E::Keep>, Vec<KeptSubscriber<E::Keep>>),
    resolvers: &mut Vec<Handed>,
    script: &[u8],
    output: &mut O,
    outside: &mut E,
    path: &Words,
) -> Ending
    requires publisher { untold_publisher started.0 ≡ fresh_publisher started.0.publication }
    requires subscribers { map untold_subscriber started.1.items ≡ fresh_subscribers started.0.publication }
    requires valid { (resolvers : ℕ) × IsValid resolvers started.0.publication }
    requires room { E.HasRoom outside.old (record { 0 = 0 }) path.now }
    requires rooms { AreRooms (E.HasRoom outside.old) path.now (map site_of started.1.items) }
    requires short { length script.now ≤ input_limit }
    ensures ends { (stored : Site → Option Map) → AreEmptyStores (is_site started.0.publication) stored
        → PlayEnds result started.0.publication (handed_view (λ r. says r) (λ r. tally_of r) resolvers.old.items) (lines_of script.now)
        (record { was = O.written output.old; written = O.written output.new; before = (E.counts outside.old).stores; after = (E.counts outside.new).stores })
        stored (λ s. E.told outside.new s path.now) (O.count output.old) (O.count output.new) }
    ensures part { AnsweredInPart started.0.publication (handed_view (λ r. says r) (λ r. tally_of r) resolvers.old.items) (lines_of script.now)
        (record { was = O.written output.old; written = O.written output.new; before = (E.counts outside.old).stores; after = (E.counts outside.new).stores }) }
    ensures others { SameAtOthers path.now (E.told outside.old) (E.told outside.new) }
{
    let (publisher, subscribers) = started;
    let mut sites = Sites {
        publisher,
        subscribers,
        pool: Vec::new(alloc),
        moment: Moment(0),
    };
    let ending = play_on(alloc, &mut sites, resolvers, script, output);
    let Sites {
        publisher,
        subscribers,
        ..
    } = sites;
    give_back(outside, path, publisher, subscribers);
    ending
}

// Plays a script on the sites of a publication, each at its store.
fn play_publication<O: Sink, E: Outside>(
    alloc: Global,
    publication: &Publication,
    resolvers: &mut Vec<Handed>,
    script: &[u8],
    output: &mut O,
    outside: &mut E,
) -> Ending
    requires valid { (resolvers : ℕ) × IsValid resolvers publication.now }
    requires short { length script.now ≤ input_limit }
    ensures ends { PlayEnds result publication.now (handed_view (λ r. says r) (λ r. tally_of r) resolvers.old.items) (lines_of script.now)
        (record { was = O.written output.old; written = O.written output.new; before = (E.counts outside.old).stores; after = (E.counts outside.new).stores })
        (at_no_path (E.told outside.old)) (at_no_path (E.told outside.new)) (O.count output.old) (O.count output.new) }
    ensures part { (O.written output.new ≡ O.written output.old) ⊎ AnsweredInPart publication.now (handed_view (λ r. says r) (λ r. tally_of r) resolvers.old.items) (lines_of script.now)
        (record { was = O.written output.old; written = O.written output.new; before = (E.counts outside.old).stores; after = (E.counts outside.new).stores }) }
    ensures others { SameAtOthers [] (E.told outside.old) (E.told outside.new) }
{
    let path = no_path(alloc);
    match start(alloc, outside, &path, publication) {
        Ok(started) => play_started(alloc, started, resolvers, script, output, outside, &path),
        Err(ending) => ending,
    }
}

/// Plays an input that was read whole: a publication, a line of three dashes and a script.
pub fn play_input<O: Sink, E: Outside>(
    alloc: Global,
    input: &[u8],
    resolvers: &mut Vec<Handed>,
    output: &mut O,
    outside: &mut E,
) -> Ending
    requires { length input.now ≤ input_limit }
    ensures ends { InputEnds result (handed_view (λ r. says r) (λ r. tally_of r) resolvers.old.items) input.now
        (record { was = O.written output.old; written = O.written output.new; before = (E.counts outside.old).stores; after = (E.counts outside.new).stores })
        (at_no_path (E.told outside.old)) (at_no_path (E.told outside.new)) (O.count output.old) (O.count output.new) }
    ensures part { WrittenInPart (handed_view (λ r. says r) (λ r. tally_of r) resolvers.old.items) input.now
        (record { was = O.written output.old; written = O.written output.new; before = (E.counts outside.old).stores; after = (E.counts outside.new).stores }) }
    ensures silent { is_silent (status_of result) ≡ true → O.written output.new ≡ O.written output.old }
    ensures others { SameAtOthers [] (E.told outside.old) (E.told outside.new) }
{
    let (publication, script) = cut_input(input);
    match read(alloc, publication, resolvers.len()) {
        Ok(publication) => {
            play_publication(alloc, &publication, resolvers, script, output, outside)
        }
        Err(fault) => refused(fault),
    }
}
