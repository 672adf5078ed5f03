//! Where connections come from.
ghost use Rattle.std.specs.Prelude.{◌≡◌, ◌+◌, ℕ, IfOk, OnErr, OnOk, option_map};
ghost use Rattle.std.specs.declared.option.Option.{Option};
ghost use Rattle.merge_ports.specs.Faults.{HasCause};
ghost use Rattle.merge_desk.specs.Views.{seat_noted};
ghost use Rattle.merge_serve.specs.Attending.{traffic};
ghost use Rattle.merge_serve.specs.Closing.{IsFresh, IsServed};

use crate::connection::Connection;
use merge_desk::Seat;
use merge_ports::{Failed, Sink, Source};
use std::sync::ledger::Ledger;

/// Where connections come from, and where they end. Its connections cannot be dropped, so that each is
/// closed, under the condition of `close`.
pub trait Door {
    type Input: Source;

    type Output: Sink;

    /// How many connections were handed out, where the door tells it.
    ghost handed: { Self → Option ℕ };

    /// How often a call has failed. It never falls, and stays once it is the greatest u64.
    ghost count: { Self → ℕ };

    /// The next connection, of which nothing was read or written yet. It may wait for the peer.
    fn accept(&mut self) -> Result<Connection<Self::Input, Self::Output>, Failed>
        ensures fresh { IfOk result (λ c. IsFresh
            (traffic (Self.Input.left c.first_input.value) (Self.Output.written c.first_output.value) (Self.Input.count c.first_input.value) (Self.Output.count c.first_output.value))
            (traffic (Self.Input.left c.input) (Self.Output.written c.output) (Self.Input.count c.input) (Self.Output.count c.output))) }
        ensures handed { OnOk result (handed self.new ≡ option_map (λ n. n + 1) (handed self.old)) }
        ensures same { OnErr result (handed self.new ≡ handed self.old) }
        ensures cause { HasCause (count self.old) (count self.new) result };

    /// Ends a connection, and notes the seat. Unless a read or a write of it failed, the whole response to
    /// what came was written, with a call of the desk of its own where the desk answered. It takes no
    /// memory.
    fn close<L: Ledger, M: Ledger>(
        connection: Connection<Self::Input, Self::Output>,
        seat: &mut Seat<L, M>,
    )
        requires { IsServed
            (traffic (Self.Input.left connection.first_input.value) (Self.Output.written connection.first_output.value) (Self.Input.count connection.first_input.value) (Self.Output.count connection.first_output.value))
            (traffic (Self.Input.left connection.input) (Self.Output.written connection.output) (Self.Input.count connection.input) (Self.Output.count connection.output))
            seat.old }
        ensures { seat.new ≡ seat_noted seat.old };

    /// How often a call has failed.
    fn faults(&self) -> u64
        ensures { result ≡ count self.now };
}
