//! The lines of a script that changes one site, one after the other.
ghost use Rattle.std.specs.Prelude.{◌≡◌, ◌≤◌, Err, None, OnErr, OnOk, Some, false, length, true, ℕ};
ghost use Rattle.merge_ports.specs.Faults.{Rose};
ghost use Rattle.merge_script.specs.Lines.{lines_of};
ghost use Rattle.merge_model.specs.Script.Reading.{line_of};
ghost use Rattle.merge_model.specs.declared.event.Line.TheVariants.{Event as Does, NoEvent};
ghost use Rattle.merge_world.specs.Views.{IsOrdered};
ghost use Rattle.merge_command.specs.Changed.{Changed, ChangedInPart, LineAnswered, LineInPart};
ghost use Rattle.merge_command.specs.Taken.{halt_by, halt_of, is_halt, is_taken};
ghost use Rattle.merge_command.specs.declared.stop.Stop.{Stop as Stopped};
ghost use Rattle.merge_command.specs.declared.stop.Stop.TheVariants as stop;
ghost use Rattle.merge_command.specs.declared.stop.Unwritten.TheVariants as unwritten;
ghost use Rattle.merge_types.specs.Limits.{input_limit};

use crate::events::happen;
use crate::stop::Stop;
use crate::writing::write_answer;
use merge_link::Clock;
use merge_model::{Event, Line};
use merge_ports::Sink;
use merge_reading::read_line;
use merge_script::cut_line;
use merge_types::SiteId;
use merge_world::{PublisherSite, Seen, Sites, SubscriberSite};
use std::alloc::Global;

// Does what the event of the line with a number says, and writes its answer.
fn change_event<P: PublisherSite, S: SubscriberSite, C: Clock, O: Sink>(
    alloc: Global,
    sites: &mut Sites<P, S>,
    here: SiteId,
    clock: &mut C,
    number: u64,
    event: &Event,
    output: &mut O,
) -> Result<(), Stop>
    requires { IsOrdered (⟦<Sites<P, S> as Seen>⟧.seen sites.old) }
    ensures ok { OnOk result (LineAnswered here (Does event.now) (⟦<Sites<P, S> as Seen>⟧.seen sites.old) (⟦<Sites<P, S> as Seen>⟧.seen sites.new) (C.told clock.old) (C.told clock.new) (O.written output.old) (O.written output.new)) }
    ensures part { OnErr result (LineInPart here (Does event.now) (⟦<Sites<P, S> as Seen>⟧.seen sites.old) (⟦<Sites<P, S> as Seen>⟧.seen sites.new) (C.told clock.old) (C.told clock.new) (O.written output.old) (O.written output.new)) }
    ensures no_event { (line word : ℕ) → result ≡ Err (stop.NoEvent line word) → ⊥ }
    ensures not_taken { (line : ℕ) → result ≡ Err (stop.NotTaken line) → (line ≡ number) × (is_taken here event.now ≡ false) }
    ensures write { result ≡ Err (stop.Unwritten unwritten.WriteFault) → Rose (O.count output.old) (O.count output.new) }
    ensures writes { O.count output.old ≤ O.count output.new }
{
    match happen(alloc, sites, here, clock, event) {
        Some(answer) => Ok(write_answer(alloc, sites.publisher.publication(), &answer, output)?),
        None => Err(Stop::NotTaken { line: number }),
    }
}

// Reads the line with a number, and does what it says.
fn change_line<P: PublisherSite, S: SubscriberSite, C: Clock, O: Sink>(
    alloc: Global,
    sites: &mut Sites<P, S>,
    here: SiteId,
    clock: &mut C,
    number: u64,
    line: &[u8],
    output: &mut O,
) -> Result<(), Stop>
    requires { IsOrdered (⟦<Sites<P, S> as Seen>⟧.seen sites.old) }
    ensures ok { OnOk result (LineAnswered here (line_of line.now) (⟦<Sites<P, S> as Seen>⟧.seen sites.old) (⟦<Sites<P, S> as Seen>⟧.seen sites.new) (C.told clock.old) (C.told clock.new) (O.written output.old) (O.written output.new)) }
    ensures part { OnErr result (LineInPart here (line_of line.now) (⟦<Sites<P, S> as Seen>⟧.seen sites.old) (⟦<Sites<P, S> as Seen>⟧.seen sites.new) (C.told clock.old) (C.told clock.new) (O.written output.old) (O.written output.new)) }
    ensures halted { (why : Stopped) → result ≡ Err why → is_halt why ≡ true → halt_by here number (line_of line.now) None ≡ Some why }
    ensures write { result ≡ Err (stop.Unwritten unwritten.WriteFault) → Rose (O.count output.old) (O.count output.new) }
    ensures writes { O.count output.old ≤ O.count output.new }
{
    match read_line(alloc, line)? {
        Line::Quiet => Ok(()),
        Line::Event(event) => change_event(alloc, sites, here, clock, number, &event, output),
        Line::NoEvent(word) => Err(Stop::NoEvent { line: number, word }),
    }
}

/// Does what the lines of a script say at one site, each event at the next moment of a clock, and
/// writes each answer before it looks at the next line.
///
/// The sites are the one that is here and what stands for the others. The first line that is no
/// event, or whose event is none of the site (`is_taken`), ends it. So do an answer that cannot be
/// written, and want of memory for a line or an answer's text.
pub fn change_lines<P: PublisherSite, S: SubscriberSite, C: Clock, O: Sink>(
    alloc: Global,
    sites: &mut Sites<P, S>,
    here: SiteId,
    clock: &mut C,
    script: &[u8],
    output: &mut O,
) -> Result<(), Stop>
    requires ordered { IsOrdered (⟦<Sites<P, S> as Seen>⟧.seen sites.old) }
    requires short { length script.now ≤ input_limit }
    ensures whole { OnOk result (halt_of here (lines_of script.now) ≡ None) }
    ensures done { OnOk result (Changed here (lines_of script.now) (⟦<Sites<P, S> as Seen>⟧.seen sites.old) (⟦<Sites<P, S> as Seen>⟧.seen sites.new) (C.told clock.old) (C.told clock.new) (O.written output.old) (O.written output.new)) }
    ensures halted { (why : Stopped) → result ≡ Err why → is_halt why ≡ true → halt_of here (lines_of script.now) ≡ Some why }
    ensures before { (why : Stopped) → result ≡ Err why → is_halt why ≡ true → Changed here (lines_of script.now) (⟦<Sites<P, S> as Seen>⟧.seen sites.old) (⟦<Sites<P, S> as Seen>⟧.seen sites.new) (C.told clock.old) (C.told clock.new) (O.written output.old) (O.written output.new) }
    ensures part { ChangedInPart here (lines_of script.now) (⟦<Sites<P, S> as Seen>⟧.seen sites.old) (⟦<Sites<P, S> as Seen>⟧.seen sites.new) (C.told clock.old) (C.told clock.new) (O.written output.old) (O.written output.new) }
    ensures write { result ≡ Err (stop.Unwritten unwritten.WriteFault) → Rose (O.count output.old) (O.count output.new) }
    ensures writes { O.count output.old ≤ O.count output.new }
{
    let mut rest = script;
    let mut number = 1u64;
    while !rest.is_empty() {
        let (line, more) = cut_line(rest);
        change_line(alloc, sites, here, clock, number, line, output)?;
        rest = more;
        number += 1;
    }
    Ok(())
}
