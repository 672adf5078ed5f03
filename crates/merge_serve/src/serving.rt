//! A desk is open for so many connections.
ghost use Rattle.std.specs.List.{sum_by};
ghost use Rattle.std.specs.Prelude.{◌≡◌, ◌<◌, ◌≤◌, ℕ, IfSome, length, map, slice_index_or};
ghost use Rattle.merge_desk.specs.Views.{SeatView, seat_call_parts, seat_fault_parts, seat_number};
ghost use Rattle.merge_serve.specs.Attending.{traffic};
ghost use Rattle.merge_serve.specs.Closing.{IsFresh, IsLater, WasClosedAs};

use crate::attending::attend;
use crate::door::Door;
use crate::entrance::{Entrance, Quota, Taken};
use crate::gate::Gate;
use merge_desk::{Desk, Opening, Seat};
use merge_draft::DraftingPublisher;
use merge_link::Clock;
use std::alloc::Global;
use std::marker::Brand;
use std::sync::ledger::{Book, Ledger, Share};
use std::sync::{Mutex, Wait};
use std::thread;
use std::thread::Threads;

/// What serving leaves: the seats, how many connections were accepted, the door, and the book of the
/// permits that were given.
pub struct Served<D: Door, L: Ledger, M: Ledger, N: Ledger> {
    pub seats: Vec<Seat<L, M>>,
    pub accepted: u64,
    pub door: D,
    pub given: Book<N>,
}

// Serves a connection and closes it.
#[tactic(auto, using(crate::proofs::Ends::closed_noted, crate::proofs::Ends::later_noted))]
fn serve_one<
    R: Wait,
    P: DraftingPublisher,
    L: Ledger,
    M: Ledger,
    N: Ledger,
    O: Opening,
    D: Door,
    G: Gate,
>(
    rt: &R,
    alloc: Global,
    desk: &Desk<P, L, M, N, O>,
    seat: &mut Seat<L, M>,
    taken: Taken<D::Input, D::Output, N>,
    gate: &G,
)
    requires fresh { IsFresh
        (traffic (D.Input.left taken.connection.first_input.value) (D.Output.written taken.connection.first_output.value) (D.Input.count taken.connection.first_input.value) (D.Output.count taken.connection.first_output.value))
        (traffic (D.Input.left taken.connection.input) (D.Output.written taken.connection.output) (D.Input.count taken.connection.input) (D.Output.count taken.connection.output)) }
    requires permit { taken.permit.amount ≡ 1 }
    requires noted { WasClosedAs seat.old seat.old }
    ensures noted { WasClosedAs seat.new seat.new }
    ensures grown { IsLater seat.old seat.new }
{
    let Taken {
        mut connection,
        number,
        now,
        permit,
    } = taken;
    attend(
        rt,
        alloc,
        desk,
        seat,
        permit,
        number,
        &mut connection.input,
        &mut connection.output,
        now,
        gate,
    );
    D::close(connection, seat);
}

// The next connection, which is waited for under the lock of the entrance.
fn take<R: Wait, D: Door, C: Clock, N: Ledger, Q: Quota>(
    rt: &R,
    entrance: &Mutex<Entrance<D, C, N, Q>>,
    requests: u64,
) -> Option<Taken<D::Input, D::Output, N>>
    requires { requests ≡ Q.requests }
    ensures permit { IfSome result (λ taken. taken.permit.amount ≡ 1) }
    ensures fresh { IfSome result (λ taken. IsFresh
        (traffic (D.Input.left taken.connection.first_input.value) (D.Output.written taken.connection.first_output.value) (D.Input.count taken.connection.first_input.value) (D.Output.count taken.connection.first_output.value))
        (traffic (D.Input.left taken.connection.input) (D.Output.written taken.connection.output) (D.Input.count taken.connection.input) (D.Output.count taken.connection.output))) }
{
    entrance.lock(rt).next(requests)
}

// A worker serves one connection after the other from its seat.
#[tactic(auto, using(crate::proofs::Ends::closed_noted, crate::proofs::Ends::later_noted, crate::proofs::Ends::later_then, crate::proofs::Replied::later_same))]
fn work<
    R: Wait,
    P: DraftingPublisher,
    L: Ledger,
    M: Ledger,
    N: Ledger,
    O: Opening,
    D: Door,
    C: Clock,
    Q: Quota,
    G: Gate,
>(
    rt: &R,
    alloc: Global,
    desk: &Desk<P, L, M, N, O>,
    seat: &mut Seat<L, M>,
    entrance: &Mutex<Entrance<D, C, N, Q>>,
    requests: u64,
    gate: &G,
)
    requires { requests ≡ Q.requests }
    ensures grown { IsLater seat.old seat.new }
{
    seat.note_close();
    for _ in 0..requests {
        match take(rt, entrance, requests) {
            Some(taken) => {
                serve_one::<R, P, L, M, N, O, D, G>(rt, alloc, desk, seat, taken, gate);
            }
            None => return,
        }
    }
}

// Serves what is still wanting.
#[tactic(auto, using(crate::proofs::Ends::closed_noted, crate::proofs::Ends::later_noted, crate::proofs::Ends::later_then, crate::proofs::Replied::later_same))]
fn work_rest<
    R: Wait,
    P: DraftingPublisher,
    L: Ledger,
    M: Ledger,
    N: Ledger,
    O: Opening,
    D: Door,
    C: Clock,
    Q: Quota,
    G: Gate,
>(
    rt: &R,
    alloc: Global,
    desk: &Desk<P, L, M, N, O>,
    seat: &mut Seat<L, M>,
    entrance: &mut Entrance<D, C, N, Q>,
    requests: u64,
    gate: &G,
)
    requires { requests ≡ Q.requests }
    ensures grown { IsLater seat.old seat.new }
    ensures whole { entrance.new.accepted < requests → 0 < entrance.new.faults }
{
    seat.note_close();
    for _ in 0..requests {
        match entrance.next(requests) {
            Some(taken) => {
                serve_one::<R, P, L, M, N, O, D, G>(rt, alloc, desk, seat, taken, gate);
            }
            None => return,
        }
    }
}

// One worker for each seat, in threads of their own.
fn work_all<
    R: Threads + Wait + Sync,
    P: DraftingPublisher + Send,
    L: Ledger + Send + Sync,
    M: Ledger + Send + Sync,
    N: Ledger + Send + Sync,
    O: Opening + Send + Sync,
    D: Door + Send,
    C: Clock + Send,
    Q: Quota + Send + Sync,
    G: Gate + Sync,
>(
    rt: &R,
    alloc: Global,
    desk: &Desk<P, L, M, N, O>,
    seats: &mut [Seat<L, M>],
    entrance: &Mutex<Entrance<D, C, N, Q>>,
    requests: u64,
    gate: &G,
)
where
    P::Work: Send,
    D::Input: Send,
    D::Output: Send,
    requires some { 0 < length seats.old }
    requires quota { requests ≡ Q.requests }
    ensures length { length seats.new ≡ length seats.old }
    ensures grown { (i : ℕ) (d : SeatView) → i < length seats.old → IsLater (slice_index_or seats.old i d) (slice_index_or seats.new i d) }
{
    thread::for_each_mut(
        rt,
        seats,
        seats.len(),
        &|_, seat: &mut Seat<L, M>|
            requires { requests ≡ Q.requests }
            ensures { IsLater seat.entry.now seat.exit.now }
        { work(rt, alloc, desk, seat, entrance, requests, gate) },
    );
}

// Serves by all seats, and then what is wanting by the first.
fn serve_within<
    R: Threads + Wait + Sync,
    P: DraftingPublisher + Send,
    L: Ledger + Send + Sync,
    M: Ledger + Send + Sync,
    N: Ledger + Send + Sync,
    O: Opening + Send + Sync,
    D: Door + Send,
    C: Clock + Send,
    Q: Quota + Send + Sync,
    G: Gate + Sync,
>(
    rt: &R,
    alloc: Global,
    desk: &Desk<P, L, M, N, O>,
    seats: &mut [Seat<L, M>],
    requests: u64,
    door: D,
    clock: C,
    gate: &G,
    given: Book<N>,
    parts: Share<N>,
) -> (u64, D, Book<N>)
where
    P::Work: Send,
    D::Input: Send,
    D::Output: Send,
    requires some { 0 < length seats.old }
    requires quota { requests ≡ Q.requests }
    requires unopened { IfSome (D.handed door) (λ n. n ≡ 0) }
    requires ungiven { given.total ≡ 0 }
    requires room { (Q.requests ≤ parts.parts) × (parts.amount ≡ 0) }
    ensures length { length seats.new ≡ length seats.old }
    ensures grown { (i : ℕ) (d : SeatView) → i < length seats.old → IsLater (slice_index_or seats.old i d) (slice_index_or seats.new i d) }
    ensures few { result.0 ≤ requests }
    ensures handed { IfSome (D.handed result.1) (λ n. n ≡ result.0) }
    ensures whole { result.0 < requests → 0 < D.count result.1 }
    ensures paid { result.2.total ≡ result.0 }
{
    let shared: Mutex<Entrance<D, C, N, Q>> = Mutex::new(Entrance::new(door, clock, given, parts));
    work_all(rt, alloc, desk, seats, &shared, requests, gate);
    let mut entrance = shared.into_inner();
    work_rest(
        rt,
        alloc,
        desk,
        &mut seats[0],
        &mut entrance,
        requests,
        gate,
    );
    let Entrance {
        door,
        clock: _,
        accepted,
        given,
        parts: _,
        of: _,
    } = entrance;
    (accepted, door, given)
}

/// Serves connections of a door until so many were accepted or the door failed: a worker for each
/// seat, and then the caller what is still wanting. Each connection is served and closed by one
/// worker, and gets a permit for one call of the desk. Its moment is the clock's as it was accepted, of
/// which no clause tells. It may wait.
pub fn serve<
    R: Threads + Wait + Sync,
    P: DraftingPublisher + Send,
    L: Ledger + Send + Sync,
    M: Ledger + Send + Sync,
    N: Ledger + Send + Sync,
    O: Opening + Send + Sync,
    D: Door + Send,
    C: Clock + Send,
    G: Gate + Sync,
>(
    rt: &R,
    alloc: Global,
    desk: &Desk<P, L, M, N, O>,
    seats: Vec<Seat<L, M>>,
    requests: u64,
    door: D,
    clock: C,
    gate: &G,
    given: Book<N>,
    parts: Share<N>,
) -> Served<D, L, M, N>
where
    P::Work: Send,
    D::Input: Send,
    D::Output: Send,
    requires some { 0 < length seats.items }
    requires unopened { IfSome (D.handed door) (λ n. n ≡ 0) }
    requires unfailed { D.count door ≡ 0 }
    requires ungiven { given.total ≡ 0 }
    requires room { (requests ≤ parts.parts) × (parts.amount ≡ 0) }
    ensures few { result.accepted ≤ requests }
    ensures handed { IfSome (D.handed result.door) (λ n. n ≡ result.accepted) }
    ensures whole { result.accepted < requests → 0 < D.count result.door }
    ensures paid { result.given.total ≡ result.accepted }
    ensures length { length result.seats.items ≡ length seats.items }
    ensures seats { (i : ℕ) (d : SeatView) → i < length seats.items → IsLater (slice_index_or seats.items i d) (slice_index_or result.seats.items i d) }
    ensures numbers { map seat_number result.seats.items ≡ map seat_number seats.items }
    ensures calls { sum_by seat_call_parts result.seats.items ≡ sum_by seat_call_parts seats.items }
    ensures faults { sum_by seat_fault_parts result.seats.items ≡ sum_by seat_fault_parts seats.items }
{
    let mut seats = seats;
    let (accepted, door, given) = serve_within::<R, P, L, M, N, O, D, C, Brand, G>(
        rt,
        alloc,
        desk,
        seats.as_mut_slice(),
        requests,
        door,
        clock,
        gate,
        given,
        parts,
    );
    Served {
        seats,
        accepted,
        door,
        given,
    }
}
