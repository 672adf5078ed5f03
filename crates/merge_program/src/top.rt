//! The top call.
ghost use Rattle.std.specs.Prelude.{◌≡◌, ◌≢◌, [], IfSome, false, true, ℕ};
ghost use Rattle.merge_world.specs.Views.{handed_view};
ghost use Rattle.merge_program.specs.Commands.{IsMeant, command_of, reads_input};
ghost use Rattle.merge_program.specs.Elsewhere.{ChangesItsOwn, SameAtOthers};
ghost use Rattle.merge_program.specs.Endings.{status_of};
ghost use Rattle.merge_program.specs.Headline.{PlayRunEnds, WrittenInPart};
ghost use Rattle.merge_program.specs.Making.{IsMade};
ghost use Rattle.merge_program.specs.Statuses.{CommandEnds, IsNoted, Tells, is_silent};
ghost use Rattle.merge_program.specs.Stores.{at_no_path};

use crate::change::change;
use crate::command::{Command, command_of};
use crate::ending::{Ending, Status, unread};
use crate::make::make;
use crate::notes::tell;
use crate::play::play_input;
use crate::show::show;
use crate::sync::sync;
use merge_outside::CommandOutside;
use merge_ports::{Outside, Sink, Source, read_whole};
use merge_resolve::Handed;
use merge_types::limits::INPUT_LIMIT;
use merge_types::{NoMemory, Words};
use std::alloc::Global;

/// What the program is joined to.
#[derive(Drop)]
pub struct Host<I: Source, O: Sink, N: Sink, E: CommandOutside> {
    pub input: I,
    pub output: O,
    /// What an ending is told to, in a line.
    pub notes: N,
    /// The stores of sites, the files and the clock.
    pub outside: E,
}

// Reads the input and plays it.
fn read_and_play<I: Source, O: Sink, E: Outside>(
    alloc: Global,
    input: &mut I,
    output: &mut O,
    outside: &mut E,
    resolvers: &mut Vec<Handed>,
) -> Ending
    ensures ends { PlayRunEnds result (I.left input.old) (handed_view (λ r. says r) (λ r. tally_of r) resolvers.old.items)
        (record { was = O.written output.old; written = O.written output.new; before = (E.counts outside.old).stores; after = (E.counts outside.new).stores })
        (at_no_path (E.told outside.old)) (at_no_path (E.told outside.new)) (O.count output.old) (O.count output.new) (I.count input.old) (I.count input.new) }
    ensures part { IfSome (I.left input.old) (λ input. WrittenInPart (handed_view (λ r. says r) (λ r. tally_of r) resolvers.old.items) input
        (record { was = O.written output.old; written = O.written output.new; before = (E.counts outside.old).stores; after = (E.counts outside.new).stores })) }
    ensures silent { is_silent (status_of result) ≡ true → O.written output.new ≡ O.written output.old }
    ensures counted { result ≢ Ending.ReadFault → I.count input.new ≡ I.count input.old }
    ensures others { SameAtOthers [] (E.told outside.old) (E.told outside.new) }
{
    match read_whole(alloc, input, INPUT_LIMIT) {
        Ok(input) => play_input(alloc, input.as_slice(), resolvers, output, outside),
        Err(fault) => unread(fault),
    }
}

// Does what a command says.
fn obey<I: Source, O: Sink, E: CommandOutside>(
    alloc: Global,
    command: &Command,
    input: &mut I,
    output: &mut O,
    outside: &mut E,
    resolvers: &mut Vec<Handed>,
) -> Ending
    requires { IsMeant command.now }
    ensures ends { CommandEnds (Some command.now) result (handed_view (λ r. says r) (λ r. tally_of r) resolvers.old.items)
        (record {
          input = I.left input.old;
          offers = E.offers outside.old;
          behind = E.offers outside.new;
          stored = E.told outside.old;
          kept = E.told outside.new;
          was = O.written output.old;
          written = O.written output.new;
          old = E.counts outside.old;
          new = E.counts outside.new;
          writes = O.count output.old;
          refused = O.count output.new;
          reads = I.count input.old;
          failed = I.count input.new;
        }) }
    ensures played { command.now ≡ Command.Play → IfSome (I.left input.old) (λ input. WrittenInPart (handed_view (λ r. says r) (λ r. tally_of r) resolvers.old.items) input
        (record { was = O.written output.old; written = O.written output.new; before = (E.counts outside.old).stores; after = (E.counts outside.new).stores })) }
    ensures silent { is_silent (status_of result) ≡ true → O.written output.new ≡ O.written output.old }
    ensures counted { result ≢ Ending.ReadFault → I.count input.new ≡ I.count input.old }
    ensures unread { reads_input (Some command.now) ≡ false → input.new ≡ input.old }
    ensures others { ChangesItsOwn (Some command.now) (E.told outside.old) (E.told outside.new) }
{
    let count = resolvers.len();
    match command {
        Command::Play => read_and_play(alloc, input, output, outside, resolvers),
        Command::Make(customers) => make(alloc, *customers, resolvers, output, outside),
        Command::Change(place) => change(alloc, place, count, input, output, outside),
        Command::Show { place, article } => show(alloc, place, article, count, output, outside),
        Command::Sync { place, address } => sync(alloc, place, address, count, output, outside),
    }
}

// Does all that the program does but to tell of it.
fn work<I: Source, O: Sink, E: CommandOutside>(
    alloc: Global,
    words: &[Words],
    input: &mut I,
    output: &mut O,
    outside: &mut E,
    resolvers: &mut Vec<Handed>,
) -> Ending
    ensures ends { CommandEnds (command_of words.now) result (handed_view (λ r. says r) (λ r. tally_of r) resolvers.old.items)
        (record {
          input = I.left input.old;
          offers = E.offers outside.old;
          behind = E.offers outside.new;
          stored = E.told outside.old;
          kept = E.told outside.new;
          was = O.written output.old;
          written = O.written output.new;
          old = E.counts outside.old;
          new = E.counts outside.new;
          writes = O.count output.old;
          refused = O.count output.new;
          reads = I.count input.old;
          failed = I.count input.new;
        }) }
    ensures played { command_of words.now ≡ Some Command.Play → IfSome (I.left input.old) (λ input. WrittenInPart (handed_view (λ r. says r) (λ r. tally_of r) resolvers.old.items) input
        (record { was = O.written output.old; written = O.written output.new; before = (E.counts outside.old).stores; after = (E.counts outside.new).stores })) }
    ensures silent { is_silent (status_of result) ≡ true → O.written output.new ≡ O.written output.old }
    ensures counted { result ≢ Ending.ReadFault → I.count input.new ≡ I.count input.old }
    ensures unread { reads_input (command_of words.now) ≡ false → input.new ≡ input.old }
    ensures others { ChangesItsOwn (command_of words.now) (E.told outside.old) (E.told outside.new) }
{
    match command_of(words) {
        Ok(Some(command)) => obey(alloc, &command, input, output, outside, resolvers),
        Ok(None) => Ending::Usage,
        Err(NoMemory) => Ending::NoMemory,
    }
}

/// Does all that the program does, and answers its exit status. The clauses that speak of the
/// input, the files, the stores and the answers hold where the host tells them.
///
/// The words are looked at first. `play` reads the input whole, then comes its publication, then its
/// sites start at their stores, and then the script is played line by line. `make` starts the sites
/// of its own publication at their stores, plays the script that it makes, and writes the summary of
/// the answers, which is a function of their texts. `change` and `show` read a publication's file, and
/// `change` then the input; then one site starts at its store, and is changed line by line, or its
/// rows are shown. `sync` reads the file too; then the site starts at its store, and has its session
/// over a link of the outside, step by step; where it is done its line is written. The first cause that
/// is met gives the status. Want of memory may come at any time.
pub fn run<I: Source, O: Sink, N: Sink, E: CommandOutside>(
    alloc: Global,
    words: &[Words],
    host: &mut Host<I, O, N, E>,
    resolvers: &mut Vec<Handed>,
) -> Status
    ensures statuses { Tells result.0 (command_of words.now) (handed_view (λ r. says r) (λ r. tally_of r) resolvers.old.items)
        (record {
          input = I.left host.old.input;
          offers = E.offers host.old.outside;
          behind = E.offers host.new.outside;
          stored = E.told host.old.outside;
          kept = E.told host.new.outside;
          was = O.written host.old.output;
          written = O.written host.new.output;
          old = E.counts host.old.outside;
          new = E.counts host.new.outside;
          writes = O.count host.old.output;
          refused = O.count host.new.output;
          reads = I.count host.old.input;
          failed = I.count host.new.input;
        }) }
    ensures part { command_of words.now ≡ Some Command.Play → IfSome (I.left host.old.input) (λ input. WrittenInPart (handed_view (λ r. says r) (λ r. tally_of r) resolvers.old.items) input
        (record { was = O.written host.old.output; written = O.written host.new.output; before = (E.counts host.old.outside).stores; after = (E.counts host.new.outside).stores })) }
    ensures made { (customers : ℕ) → command_of words.now ≡ Some (Command.Make customers) → IsMade result.0 customers (handed_view (λ r. says r) (λ r. tally_of r) resolvers.old.items)
        (record { was = O.written host.old.output; written = O.written host.new.output; before = (E.counts host.old.outside).stores; after = (E.counts host.new.outside).stores }) }
    ensures noted { IsNoted result.0 (command_of words.now) (handed_view (λ r. says r) (λ r. tally_of r) resolvers.old.items)
        (record {
          input = I.left host.old.input;
          offers = E.offers host.old.outside;
          behind = E.offers host.new.outside;
          stored = E.told host.old.outside;
          kept = E.told host.new.outside;
          was = O.written host.old.output;
          written = O.written host.new.output;
          old = E.counts host.old.outside;
          new = E.counts host.new.outside;
          writes = O.count host.old.output;
          refused = O.count host.new.output;
          reads = I.count host.old.input;
          failed = I.count host.new.input;
        })
        (N.written host.old.notes) (N.written host.new.notes) (N.count host.old.notes) (N.count host.new.notes) }
    ensures unread { reads_input (command_of words.now) ≡ false → host.new.input ≡ host.old.input }
    ensures others { ChangesItsOwn (command_of words.now) (E.told host.old.outside) (E.told host.new.outside) }
{
    let ending = work(
        alloc,
        words,
        &mut host.input,
        &mut host.output,
        &mut host.outside,
        resolvers,
    );
    tell(alloc, &ending, &mut host.notes);
    ending.status()
}
