//! The lines of a script, one after the other.
ghost use Rattle.std.specs.Io.KnownBytes.{Appends};
ghost use Rattle.std.specs.Prelude.{◌≡◌, ◌≤◌, ◌<◌, ◌+◌, ◌^◌, ◌⊎◌, Err, None, OnErr, OnOk, Some, ℕ, List, length};
ghost use Rattle.merge_types.specs.declared.identifiers.SiteId.{SiteId};
ghost use Rattle.merge_batch.specs.declared.refusal.Refusal.{Refusal as Refused};
ghost use Rattle.merge_batch.specs.declared.refusal.Refusal.TheVariants.{Damaged};
ghost use Rattle.merge_ports.specs.Faults.{Rose};
ghost use Rattle.merge_ports.specs.Parts.{AppendsFront};
ghost use Rattle.merge_script.specs.Lines.{lines_of};
ghost use Rattle.merge_model.specs.Script.Play.{names_of};
ghost use Rattle.merge_model.specs.Script.Reading.{fault_of, line_of};
ghost use Rattle.merge_model.specs.Script.Text.{text_of};
ghost use Rattle.merge_model.specs.declared.event.Event.TheVariants.{Restart};
ghost use Rattle.merge_model.specs.declared.event.Line.TheVariants.{Event as Does, NoEvent};
ghost use Rattle.merge_play.specs.Played.{LineAnswered, LineEnds, LineInPart, Played, PlayedInPart, PlayedToRestart};
ghost use Rattle.merge_play.specs.declared.stop.Stop.TheVariants as stop;
ghost use Rattle.merge_model.specs.Script.Proper.{IsProperAnswer};
ghost use Rattle.merge_world.specs.Restarts.{IsLost};
ghost use Rattle.merge_world.specs.Views.{IsOrdered, handed_view, world_of};
ghost use Rattle.merge_types.specs.Limits.{input_limit, number_limit};

use crate::stop::Stop;
use merge_model::{Answer, Event, Line};
use merge_ports::{Sink, write_whole};
use merge_reading::read_line;
use merge_report::text_of;
use merge_resolve::Handed;
use merge_schema::Publication;
use merge_script::cut_line;
use merge_world::{PublisherSite, Seen, Sites, SubscriberSite, seconds_of};
use std::alloc::Global;

// Writes the text of an answer.
fn write_answer<O: Sink>(
    alloc: Global,
    publication: &Publication,
    answer: &Answer,
    output: &mut O,
) -> Result<(), Stop>
    requires { IsProperAnswer answer.now }
    ensures ok { OnOk result (Appends (O.written output.old) (O.written output.new) (text_of (names_of publication.now) answer.now)) }
    ensures part { OnErr result ((O.written output.new ≡ O.written output.old) ⊎ AppendsFront (O.written output.old) (O.written output.new) (text_of (names_of publication.now) answer.now)) }
    ensures no_event { (line word : ℕ) → result ≡ Err (stop.NoEvent line word) → ⊥ }
    ensures write { result ≡ Err stop.WriteFault → Rose (O.count output.old) (O.count output.new) }
    ensures ended { (why : Refused) → result ≡ Err (stop.Ended why) → ⊥ }
    ensures writes { O.count output.old ≤ O.count output.new }
{
    let text = text_of(alloc, publication, answer)?;
    write_whole(output, text.as_str().as_bytes())?;
    Ok(())
}

// Makes the step of an event, and writes its answer.
fn play_event<P: PublisherSite, S: SubscriberSite, O: Sink>(
    alloc: Global,
    sites: &mut Sites<P, S>,
    resolvers: &mut Vec<Handed>,
    event: &Event,
    output: &mut O,
) -> Result<(), Stop>
    requires ordered { IsOrdered (⟦<Sites<P, S> as Seen>⟧.seen sites.old) }
    requires early { sites.old.moment.0 + 2 ^ 32 ≤ 2 ^ 64 }
    ensures ok { OnOk result (LineAnswered (Does event.now) (⟦<Sites<P, S> as Seen>⟧.seen sites.old) (⟦<Sites<P, S> as Seen>⟧.seen sites.new)
        (handed_view (λ r. says r) (λ r. tally_of r) resolvers.old.items) (handed_view (λ r. says r) (λ r. tally_of r) resolvers.new.items) (O.written output.old) (O.written output.new)) }
    ensures part { OnErr result (LineInPart (Does event.now) (⟦<Sites<P, S> as Seen>⟧.seen sites.old) (⟦<Sites<P, S> as Seen>⟧.seen sites.new)
        (handed_view (λ r. says r) (λ r. tally_of r) resolvers.old.items) (handed_view (λ r. says r) (λ r. tally_of r) resolvers.new.items) (O.written output.old) (O.written output.new)) }
    ensures soon { OnOk result (sites.new.moment.0 < sites.old.moment.0 + 2 ^ 32) }
    ensures no_event { (line word : ℕ) → result ≡ Err (stop.NoEvent line word) → ⊥ }
    ensures write { result ≡ Err stop.WriteFault → Rose (O.count output.old) (O.count output.new) }
    ensures ended { (why : Refused) → result ≡ Err (stop.Ended why) → LineEnds (Does event.now) (⟦<Sites<P, S> as Seen>⟧.seen sites.old) (⟦<Sites<P, S> as Seen>⟧.seen sites.new) why (O.written output.old) (O.written output.new) }
    ensures damaged { (site : SiteId) (table : ℕ) (key : List ℕ) → event.now ≡ Restart site → result ≡ Err (stop.Ended (Damaged table key)) → ⟦<Sites<P, S> as Seen>⟧.IsDamaged sites.new site table key }
    ensures later { (⟦<Sites<P, S> as Seen>⟧.seen sites.old).faults ≤ (⟦<Sites<P, S> as Seen>⟧.seen sites.new).faults }
    ensures stays { (⟦<Sites<P, S> as Seen>⟧.seen sites.new).sites ≡ (⟦<Sites<P, S> as Seen>⟧.seen sites.old).sites }
    ensures alike { (⟦<Sites<P, S> as Seen>⟧.seen sites.new).publications ≡ (⟦<Sites<P, S> as Seen>⟧.seen sites.old).publications }
    ensures publication { (⟦<Sites<P, S> as Seen>⟧.seen sites.new).publication ≡ (⟦<Sites<P, S> as Seen>⟧.seen sites.old).publication }
    ensures writes { O.count output.old ≤ O.count output.new }
{
    let _ = seconds_of(event);
    match sites.step(alloc, resolvers, event) {
        Ok(answer) => write_answer(alloc, sites.publisher.publication(), &answer, output),
        Err(refusal) => Err(Stop::Ended(refusal)),
    }
}

// Reads the line with a number, and plays the event that it says.
fn play_line<P: PublisherSite, S: SubscriberSite, O: Sink>(
    alloc: Global,
    sites: &mut Sites<P, S>,
    resolvers: &mut Vec<Handed>,
    number: u64,
    line: &[u8],
    output: &mut O,
) -> Result<(), Stop>
    requires ordered { IsOrdered (⟦<Sites<P, S> as Seen>⟧.seen sites.old) }
    requires early { sites.old.moment.0 + 2 ^ 32 ≤ 2 ^ 64 }
    ensures ok { OnOk result (LineAnswered (line_of line.now) (⟦<Sites<P, S> as Seen>⟧.seen sites.old) (⟦<Sites<P, S> as Seen>⟧.seen sites.new)
        (handed_view (λ r. says r) (λ r. tally_of r) resolvers.old.items) (handed_view (λ r. says r) (λ r. tally_of r) resolvers.new.items) (O.written output.old) (O.written output.new)) }
    ensures part { OnErr result (LineInPart (line_of line.now) (⟦<Sites<P, S> as Seen>⟧.seen sites.old) (⟦<Sites<P, S> as Seen>⟧.seen sites.new)
        (handed_view (λ r. says r) (λ r. tally_of r) resolvers.old.items) (handed_view (λ r. says r) (λ r. tally_of r) resolvers.new.items) (O.written output.old) (O.written output.new)) }
    ensures soon { OnOk result (sites.new.moment.0 < sites.old.moment.0 + 2 ^ 32) }
    ensures no_event { (at word : ℕ) → result ≡ Err (stop.NoEvent at word) → (at ≡ number) × (line_of line.now ≡ NoEvent word) }
    ensures write { result ≡ Err stop.WriteFault → Rose (O.count output.old) (O.count output.new) }
    ensures ended { (why : Refused) → result ≡ Err (stop.Ended why) → LineEnds (line_of line.now) (⟦<Sites<P, S> as Seen>⟧.seen sites.old) (⟦<Sites<P, S> as Seen>⟧.seen sites.new) why (O.written output.old) (O.written output.new) }
    ensures damaged { (site : SiteId) (table : ℕ) (key : List ℕ) → line_of line.now ≡ Does (Restart site) → result ≡ Err (stop.Ended (Damaged table key)) → ⟦<Sites<P, S> as Seen>⟧.IsDamaged sites.new site table key }
    ensures later { (⟦<Sites<P, S> as Seen>⟧.seen sites.old).faults ≤ (⟦<Sites<P, S> as Seen>⟧.seen sites.new).faults }
    ensures stays { (⟦<Sites<P, S> as Seen>⟧.seen sites.new).sites ≡ (⟦<Sites<P, S> as Seen>⟧.seen sites.old).sites }
    ensures alike { (⟦<Sites<P, S> as Seen>⟧.seen sites.new).publications ≡ (⟦<Sites<P, S> as Seen>⟧.seen sites.old).publications }
    ensures publication { (⟦<Sites<P, S> as Seen>⟧.seen sites.new).publication ≡ (⟦<Sites<P, S> as Seen>⟧.seen sites.old).publication }
    ensures writes { O.count output.old ≤ O.count output.new }
{
    match read_line(alloc, line)? {
        Line::Quiet => Ok(()),
        Line::Event(event) => play_event(alloc, sites, resolvers, &event, output),
        Line::NoEvent(word) => Err(Stop::NoEvent { line: number, word }),
    }
}

/// Plays the lines of a script on sites, and writes each answer before it looks at the next line.
///
/// The first line that is no event ends it, and so do a restart whose store cannot be read or is
/// damaged, an answer that cannot be written, and want of memory for an answer's text.
pub fn play_lines<P: PublisherSite, S: SubscriberSite, O: Sink>(
    alloc: Global,
    sites: &mut Sites<P, S>,
    resolvers: &mut Vec<Handed>,
    script: &[u8],
    output: &mut O,
) -> Result<(), Stop>
    requires ordered { IsOrdered (⟦<Sites<P, S> as Seen>⟧.seen sites.old) }
    requires early { sites.old.moment.0 ≤ number_limit }
    requires short { length script.now ≤ input_limit }
    ensures whole { OnOk result (fault_of (lines_of script.now) ≡ None) }
    ensures done { OnOk result (Played (lines_of script.now) (⟦<Sites<P, S> as Seen>⟧.seen sites.old) (⟦<Sites<P, S> as Seen>⟧.seen sites.new)
        (handed_view (λ r. says r) (λ r. tally_of r) resolvers.old.items) (handed_view (λ r. says r) (λ r. tally_of r) resolvers.new.items) (O.written output.old) (O.written output.new)) }
    ensures no_event { (line word : ℕ) → result ≡ Err (stop.NoEvent line word) → fault_of (lines_of script.now) ≡ Some (line, word) }
    ensures before { (line word : ℕ) → result ≡ Err (stop.NoEvent line word) → Played (lines_of script.now) (⟦<Sites<P, S> as Seen>⟧.seen sites.old) (⟦<Sites<P, S> as Seen>⟧.seen sites.new)
        (handed_view (λ r. says r) (λ r. tally_of r) resolvers.old.items) (handed_view (λ r. says r) (λ r. tally_of r) resolvers.new.items) (O.written output.old) (O.written output.new) }
    ensures part { PlayedInPart (lines_of script.now) (⟦<Sites<P, S> as Seen>⟧.seen sites.old) (⟦<Sites<P, S> as Seen>⟧.seen sites.new)
        (handed_view (λ r. says r) (λ r. tally_of r) resolvers.old.items) (handed_view (λ r. says r) (λ r. tally_of r) resolvers.new.items) (O.written output.old) (O.written output.new) }
    ensures write { result ≡ Err stop.WriteFault → Rose (O.count output.old) (O.count output.new) }
    ensures ended { (why : Refused) → result ≡ Err (stop.Ended why) → IsLost why (⟦<Sites<P, S> as Seen>⟧.seen sites.old).faults (⟦<Sites<P, S> as Seen>⟧.seen sites.new).faults }
    ensures restart { (why : Refused) → result ≡ Err (stop.Ended why) → (cut : PlayedToRestart (lines_of script.now) (⟦<Sites<P, S> as Seen>⟧.seen sites.old) (handed_view (λ r. says r) (λ r. tally_of r) resolvers.old.items) why
        (⟦<Sites<P, S> as Seen>⟧.seen sites.new).faults (O.written output.old) (O.written output.new))
        × ((table : ℕ) (key : List ℕ) → why ≡ Damaged table key → ⟦<Sites<P, S> as Seen>⟧.IsDamaged sites.new cut.site table key)
        × ((tallies : List ℕ) → world_of (⟦<Sites<P, S> as Seen>⟧.seen sites.new) tallies ≡ world_of cut.last tallies) }
    ensures later { (⟦<Sites<P, S> as Seen>⟧.seen sites.old).faults ≤ (⟦<Sites<P, S> as Seen>⟧.seen sites.new).faults }
    ensures stays { (⟦<Sites<P, S> as Seen>⟧.seen sites.new).sites ≡ (⟦<Sites<P, S> as Seen>⟧.seen sites.old).sites }
    ensures alike { (⟦<Sites<P, S> as Seen>⟧.seen sites.new).publications ≡ (⟦<Sites<P, S> as Seen>⟧.seen sites.old).publications }
    ensures publication { (⟦<Sites<P, S> as Seen>⟧.seen sites.new).publication ≡ (⟦<Sites<P, S> as Seen>⟧.seen sites.old).publication }
    ensures writes { O.count output.old ≤ O.count output.new }
{
    let mut rest = script;
    let mut number = 1u64;
    while !rest.is_empty() {
        let (line, more) = cut_line(rest);
        play_line(alloc, sites, resolvers, number, line, output)?;
        rest = more;
        number += 1;
    }
    Ok(())
}
