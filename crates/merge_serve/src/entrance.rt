//! What workers take connections from.
ghost use Rattle.std.specs.Prelude.{◌≡◌, ◌<◌, ◌≤◌, ◌+◌, IfSome, IfNone, OnSome, option_map};
ghost use Rattle.merge_serve.specs.Attending.{traffic};
ghost use Rattle.merge_serve.specs.Closing.{IsFresh};

use crate::connection::Connection;
use crate::door::Door;
use merge_link::Clock;
use merge_types::Moment;
use std::marker::{Brand, Model, PhantomData};
use std::sync::ledger::{Book, Ledger, Share};

/// Names how many connections are taken at most. Contracts alone see it, and no code stores it.
pub trait Quota {
    ghost use Rattle.std.specs.Prelude.{ℕ};

    ghost requests: { ℕ };
}

impl Quota for Brand {
    ghost requests = { 0 };
}

/// A connection that was taken, its number, counted from 1, the moment, and a permit for one call of the
/// desk.
pub(crate) struct Taken<I, O, N: Ledger> {
    pub connection: Connection<I, O>,
    pub number: u64,
    pub now: Moment,
    pub permit: Share<N>,
}

/// A door and a clock, behind the one lock of the workers, with how many permits were given, and the
/// parts for those that are still to be given.
pub(crate) struct Entrance<D: Door, C: Clock, N: Ledger, Q: Quota> {
    pub door: D,
    pub clock: C,
    pub accepted: u64,
    pub given: Book<N>,
    pub parts: Share<N>,
    pub of: PhantomData<Q>,
}

impl<D: Door, C: Clock, N: Ledger, Q: Quota> Model for Entrance<D, C, N, Q> {
    ghost use Rattle.merge_serve.specs.Entering.{EntranceView, IsCounted};

    ghost Value = { EntranceView };

    ghost view = { λ e. record { handed = D.handed e.door; faults = D.count e.door; accepted = e.accepted } };

    ghost invariant = { λ e. IsCounted Q.requests (D.handed e.door) e.accepted e.given.total e.parts.parts e.parts.amount };
}

impl<D: Door, C: Clock, N: Ledger, Q: Quota> Entrance<D, C, N, Q> {
    pub(crate) fn new(door: D, clock: C, given: Book<N>, parts: Share<N>) -> Self
        requires unopened { IfSome (D.handed door) (λ n. n ≡ 0) }
        requires ungiven { given.total ≡ 0 }
        requires room { (Q.requests ≤ parts.parts) × (parts.amount ≡ 0) }
        ensures { result ≡ record { handed = D.handed door; faults = D.count door; accepted = 0 } }
    {
        Entrance {
            door,
            clock,
            accepted: 0,
            given,
            parts,
            of: PhantomData,
        }
    }

    // The next connection. None once enough were taken, or where the door has failed.
    pub(crate) fn next(&mut self, requests: u64) -> Option<Taken<D::Input, D::Output, N>>
        requires { requests ≡ Q.requests }
        ensures fresh { IfSome result (λ taken. IsFresh
            (traffic (D.Input.left taken.connection.first_input.value) (D.Output.written taken.connection.first_output.value) (D.Input.count taken.connection.first_input.value) (D.Output.count taken.connection.first_output.value))
            (traffic (D.Input.left taken.connection.input) (D.Output.written taken.connection.output) (D.Input.count taken.connection.input) (D.Output.count taken.connection.output))) }
        ensures some { OnSome result (self.new.accepted ≡ self.old.accepted + 1) }
        ensures permit { IfSome result (λ taken. taken.permit.amount ≡ 1) }
        ensures number { IfSome result (λ taken. taken.number ≡ self.new.accepted) }
        ensures none { IfNone result (self.new.accepted < requests → 0 < self.new.faults) }
        ensures same { IfNone result (self.new.accepted ≡ self.old.accepted) }
    {
        if self.accepted >= requests || self.door.faults() > 0 {
            return None;
        }
        let Ok(connection) = self.door.accept() else {
            return None;
        };
        self.accepted += 1;
        self.given.add(&mut self.parts, 1);
        let permit = self.parts.split_off(1, 1);
        let now = self.clock.now();
        Some(Taken {
            connection,
            number: self.accepted,
            now,
            permit,
        })
    }
}
