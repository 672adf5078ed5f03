//! A script is played on sites that have done nothing.
ghost use Rattle.std.specs.Prelude.{◌≡◌, ◌≤◌, List, None, Option, length, ℕ};
ghost use Rattle.merge_types.specs.declared.identifiers.SiteId.{SiteId as Site};
ghost use Rattle.merge_ports.specs.Entries.{Map};
ghost use Rattle.merge_script.specs.Lines.{lines_of};
ghost use Rattle.merge_schema.specs.Valid.{IsValid};
ghost use Rattle.merge_model.specs.World.Events.{is_site};
ghost use Rattle.merge_world.specs.Views.{handed_view};
ghost use Rattle.merge_program.specs.Stopping.{played_by};
ghost use Rattle.merge_program.specs.Fresh.{fresh_view};
ghost use Rattle.merge_program.specs.Headline.{AnsweredInPart, PlayEnds};
ghost use Rattle.merge_program.specs.Sited.{IsDamageAt, LoadsAt};
ghost use Rattle.merge_program.specs.Stores.{AreEmptyStores, RoseBy};
ghost use Rattle.merge_types.specs.Limits.{input_limit};

use crate::ending::{Ending, stopped};
use merge_model::steps_that_fail_show;
use merge_play::{Stop, play_lines};
use merge_ports::Sink;
use merge_promises::all_promises_hold;
use merge_resolve::Handed;
use merge_stored::typed_runs_load;
use merge_typed::script_events_are_typed;
use merge_world::{PublisherSite, Seen, Sites, SubscriberSite};
use std::alloc::Global;

// How a run ends by how its script was played.
fn ending_of(played: Result<(), Stop>) -> Ending
    ensures { result ≡ played_by played }
{
    match played {
        Ok(()) => Ending::Done,
        Err(Stop::NoEvent { line, word }) => Ending::NoEvent { line, word },
        Err(Stop::WriteFault) => Ending::WriteFault,
        Err(Stop::Ended(why)) => stopped(why),
        Err(Stop::NoMemory) => Ending::NoMemory,
    }
}

/// Plays a script on sites that have done nothing, of a publication that a file can say. What is
/// said of the faults of their stores holds of every count that rose with them, and what is said of
/// their stores of all that were empty, and are told behind the script with the records that are
/// damaged, or are not told where the records of the tables load.
pub fn play_on<P: PublisherSite, S: SubscriberSite, O: Sink>(
    alloc: Global,
    sites: &mut Sites<P, S>,
    resolvers: &mut Vec<Handed>,
    script: &[u8],
    output: &mut O,
) -> Ending
    requires fresh { ⟦<Sites<P, S> as Seen>⟧.seen sites.old ≡ fresh_view (⟦<Sites<P, S> as Seen>⟧.seen sites.old).publication }
    requires valid { (resolvers : ℕ) × IsValid resolvers (⟦<Sites<P, S> as Seen>⟧.seen sites.old).publication }
    requires short { length script.now ≤ input_limit }
    ensures ends { (before after : ℕ) → RoseBy (⟦<Sites<P, S> as Seen>⟧.seen sites.new).faults before after
        → (stored kept : Site → Option Map) → AreEmptyStores (is_site (⟦<Sites<P, S> as Seen>⟧.seen sites.old).publication) stored
        → ((site : Site) (table : ℕ) (key : List ℕ) → ⟦<Sites<P, S> as Seen>⟧.IsDamaged sites.new site table key → IsDamageAt (⟦<Sites<P, S> as Seen>⟧.seen sites.old).publication site (kept site) table key
        × (LoadsAt (⟦<Sites<P, S> as Seen>⟧.seen sites.old).publication site (⟦<Sites<P, S> as Seen>⟧.seen sites.new) → kept site ≡ None))
        → PlayEnds result (⟦<Sites<P, S> as Seen>⟧.seen sites.old).publication (handed_view (λ r. says r) (λ r. tally_of r) resolvers.old.items) (lines_of script.now)
        (record { was = O.written output.old; written = O.written output.new; before = before; after = after }) stored kept (O.count output.old) (O.count output.new) }
    ensures part { (before after : ℕ) → RoseBy (⟦<Sites<P, S> as Seen>⟧.seen sites.new).faults before after
        → AnsweredInPart (⟦<Sites<P, S> as Seen>⟧.seen sites.old).publication (handed_view (λ r. says r) (λ r. tally_of r) resolvers.old.items) (lines_of script.now)
        (record { was = O.written output.old; written = O.written output.new; before = before; after = after }) }
    ensures stays { (⟦<Sites<P, S> as Seen>⟧.seen sites.new).sites ≡ (⟦<Sites<P, S> as Seen>⟧.seen sites.old).sites }
    ensures alike { (⟦<Sites<P, S> as Seen>⟧.seen sites.new).publications ≡ (⟦<Sites<P, S> as Seen>⟧.seen sites.old).publications }
    ensures publication { (⟦<Sites<P, S> as Seen>⟧.seen sites.new).publication ≡ (⟦<Sites<P, S> as Seen>⟧.seen sites.old).publication }
{
    all_promises_hold();
    steps_that_fail_show();
    script_events_are_typed();
    typed_runs_load();
    let played = play_lines(alloc, sites, resolvers, script, output);
    ending_of(played)
}
