//! All commands, those that may wait too.
ghost use Rattle.std.specs.Prelude.{◌≡◌, ◌⊎◌, IfSome, None, Some, false, length, ℕ};
ghost use Rattle.merge_ports.specs.Opened.{SameElsewhere};
ghost use Rattle.merge_resolve.specs.Asked.{says_at};
ghost use Rattle.merge_world.specs.Views.{handed_view};
ghost use Rattle.merge_program.specs.Commands.{command_of, reads_input};
ghost use Rattle.merge_program.specs.Elsewhere.{ChangesItsOwn};
ghost use Rattle.merge_program.specs.Headline.{WrittenInPart};
ghost use Rattle.merge_program.specs.Making.{IsMade};
ghost use Rattle.merge_program.specs.Orders.{order_of};
ghost use Rattle.merge_program.specs.Serving.{TellsServed, publisher_site};
ghost use Rattle.merge_program.specs.Statuses.{IsNoted, Tells};
ghost use Rattle.merge_program.specs.declared.command.Command.TheVariants as command;
ghost use Rattle.merge_program.specs.declared.order.Order.{Order as OneOrder};

use crate::ending::{Ending, Status};
use crate::finish::Finish;
use crate::order::order_of;
use crate::serve::serve;
use crate::top::{Host, run};
use merge_outside::CommandOutside;
use merge_ports::{Outside, Sink, Source};
use merge_resolve::Handed;
use merge_serve::{Door, Doors};
use merge_types::{NoMemory, Words};
use std::alloc::Global;
use std::sync::Wait;
use std::thread::Threads;

/// Does all that the program does, and answers its exit status. Words that tell a publisher to serve
/// are obeyed in threads, and it may wait for them. All other words are those of `run`, whose clauses
/// hold of them.
///
/// To serve, the publication's file is read; then the publisher starts at its store, and then its door
/// is opened. The door and the store are given back, and the summary of the journal is written where
/// all requests were accepted. The first cause that is met gives the status.
pub fn perform<R: Threads + Wait + Sync, I: Source, O: Sink, N: Sink, E: CommandOutside, T: Doors>(
    rt: &R,
    alloc: Global,
    words: &[Words],
    host: &mut Host<I, O, N, E>,
    doors: &mut T,
    resolvers: &mut Vec<Handed>,
) -> Status
where
    E::Keep: Send,
    E::Timer: Send,
    T::Opened: Send,
    <T::Opened as Door>::Input: Send,
    <T::Opened as Door>::Output: Send,
    ensures statuses { order_of words.now ≡ None → Tells result.0 (command_of words.now) (handed_view (λ r. says r) (λ r. tally_of r) resolvers.old.items)
        (record {
          input = I.left host.old.input;
          offers = E.offers host.old.outside;
          behind = E.offers host.new.outside;
          stored = E.told host.old.outside;
          kept = E.told host.new.outside;
          was = O.written host.old.output;
          written = O.written host.new.output;
          old = E.counts host.old.outside;
          new = E.counts host.new.outside;
          writes = O.count host.old.output;
          refused = O.count host.new.output;
          reads = I.count host.old.input;
          failed = I.count host.new.input;
        }) }
    ensures part { order_of words.now ≡ None → command_of words.now ≡ Some command.Play → IfSome (I.left host.old.input) (λ input. WrittenInPart (handed_view (λ r. says r) (λ r. tally_of r) resolvers.old.items) input
        (record { was = O.written host.old.output; written = O.written host.new.output; before = (E.counts host.old.outside).stores; after = (E.counts host.new.outside).stores })) }
    ensures made { (customers : ℕ) → order_of words.now ≡ None → command_of words.now ≡ Some (command.Make customers) → IsMade result.0 customers (handed_view (λ r. says r) (λ r. tally_of r) resolvers.old.items)
        (record { was = O.written host.old.output; written = O.written host.new.output; before = (E.counts host.old.outside).stores; after = (E.counts host.new.outside).stores }) }
    ensures noted { order_of words.now ≡ None → IsNoted result.0 (command_of words.now) (handed_view (λ r. says r) (λ r. tally_of r) resolvers.old.items)
        (record {
          input = I.left host.old.input;
          offers = E.offers host.old.outside;
          behind = E.offers host.new.outside;
          stored = E.told host.old.outside;
          kept = E.told host.new.outside;
          was = O.written host.old.output;
          written = O.written host.new.output;
          old = E.counts host.old.outside;
          new = E.counts host.new.outside;
          writes = O.count host.old.output;
          refused = O.count host.new.output;
          reads = I.count host.old.input;
          failed = I.count host.new.input;
        })
        (N.written host.old.notes) (N.written host.new.notes) (N.count host.old.notes) (N.count host.new.notes) }
    ensures asked { (order : OneOrder) → order_of words.now ≡ Some order → (T.asked doors.new ≡ Some order.address) ⊎ (doors.new ≡ doors.old) }
    ensures reached { (order : OneOrder) → order_of words.now ≡ Some order → result.0 ≡ 0 → T.asked doors.new ≡ Some order.address }
    ensures served { (order : OneOrder) → order_of words.now ≡ Some order → TellsServed result.0 order (length resolvers.old.items) (says_at (λ r. says r) resolvers.old.items)
        (record {
          input = I.left host.old.input;
          offers = E.offers host.old.outside;
          behind = E.offers host.new.outside;
          stored = E.told host.old.outside;
          kept = E.told host.new.outside;
          was = O.written host.old.output;
          written = O.written host.new.output;
          old = E.counts host.old.outside;
          new = E.counts host.new.outside;
          writes = O.count host.old.output;
          refused = O.count host.new.output;
          reads = I.count host.old.input;
          failed = I.count host.new.input;
        })
        (record { handed = T.handed doors.new; before = T.count doors.old; after = T.count doors.new })
        (N.written host.old.notes) (N.written host.new.notes) (N.count host.old.notes) (N.count host.new.notes) }
    ensures unread { order_of words.now ≡ None → reads_input (command_of words.now) ≡ false → host.new.input ≡ host.old.input }
    ensures unasked { (order : OneOrder) → order_of words.now ≡ Some order → host.new.input ≡ host.old.input }
    ensures closed { order_of words.now ≡ None → doors.new ≡ doors.old }
    ensures others { order_of words.now ≡ None → ChangesItsOwn (command_of words.now) (E.told host.old.outside) (E.told host.new.outside) }
    ensures elsewhere { (order : OneOrder) → order_of words.now ≡ Some order → SameElsewhere publisher_site order.store (E.told host.old.outside) (E.told host.new.outside) }
{
    match order_of(words) {
        Ok(Some(order)) => {
            let finish = serve(
                rt,
                alloc,
                &order,
                resolvers,
                &mut host.output,
                &mut host.outside,
                doors,
            );
            finish.tell(alloc, &mut host.notes);
            finish.status()
        }
        Ok(None) => run(alloc, words, host, resolvers),
        Err(NoMemory) => {
            let finish = Finish::Ended(Ending::NoMemory);
            finish.tell(alloc, &mut host.notes);
            finish.status()
        }
    }
}
