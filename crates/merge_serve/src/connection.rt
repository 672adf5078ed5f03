//! Connections.
ghost use Rattle.std.specs.Prelude.{◌≡◌};
ghost use Rattle.merge_desk.specs.Views.{seat_noted};
ghost use Rattle.merge_serve.specs.Attending.{traffic};
ghost use Rattle.merge_serve.specs.Closing.{IsServed};

use merge_desk::Seat;
use merge_ports::{Sink, Source};
use std::snapshot::Snapshot;
use std::sync::ledger::Ledger;

// It cannot be dropped, so that no half can be moved out of a connection but by `into_halves`.
struct Unspent;

/// A connection of two halves: where its bytes come from and where they go. It is spent by
/// `into_halves` alone, as a door closes it. Contracts alone see both halves as they were when it
/// began.
pub struct Connection<I, O> {
    pub input: I,
    pub output: O,
    first_input: Snapshot<I>,
    first_output: Snapshot<O>,
    unspent: Unspent,
}

impl<I, O> Connection<I, O> {
    /// A connection of these halves, which begins now.
    pub fn new(input: I, output: O) -> Self
        ensures input { result.input ≡ input }
        ensures output { result.output ≡ output }
        ensures first_input { result.first_input.value ≡ input }
        ensures first_output { result.first_output.value ≡ output }
    {
        let first_input = Snapshot::of(&input);
        let first_output = Snapshot::of(&output);
        Connection {
            input,
            output,
            first_input,
            first_output,
            unspent: Unspent,
        }
    }
}

impl<I: Source, O: Sink> Connection<I, O> {
    /// The halves back, for a door that closes the connection, which was served from this seat: the seat
    /// is noted. No other call spends a connection. It takes no memory.
    pub fn into_halves<L: Ledger, M: Ledger>(self, seat: &mut Seat<L, M>) -> (I, O)
        requires { IsServed
            (traffic (I.left self.first_input.value) (O.written self.first_output.value) (I.count self.first_input.value) (O.count self.first_output.value))
            (traffic (I.left self.input) (O.written self.output) (I.count self.input) (O.count self.output))
            seat.old }
        ensures halves { result ≡ (self.input, self.output) }
        ensures noted { seat.new ≡ seat_noted seat.old }
    {
        let Connection {
            input,
            output,
            first_input: _,
            first_output: _,
            unspent: Unspent,
        } = self;
        seat.note_close();
        (input, output)
    }
}
