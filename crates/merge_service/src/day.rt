//! A desk from its start to its end.
ghost use Rattle.std.specs.List.{sum_by};
ghost use Rattle.std.specs.Prelude.{◌≡◌, ◌≤◌, IfSome};
ghost use Rattle.merge_desk.specs.Views.{seat_call_parts, seat_fault_parts};
ghost use Rattle.merge_service.specs.Days.{IsClosing, IsOutcome};
ghost use Rattle.merge_service.specs.declared.day.Outcome.TheVariants as outcome;

use merge_desk::{Closed, Desk, DeskStart, Difference, Differs, Journal, Opening, Seat};
use merge_draft::DraftingPublisher;
use merge_link::Clock;
use merge_serve::{Door, OpenGate, Served, serve};
use std::alloc::Global;
use std::sync::Wait;
use std::sync::ledger::{Blank, Book, Ledger};
use std::thread::Threads;

/// How a desk ended.
#[derive(Drop)]
pub enum Outcome {
    /// Memory was wanting for it.
    Unstarted,
    /// So many connections were accepted.
    Closed { journal: Journal, accepted: u64 },
    /// A seat was told something else than the journal has of it.
    Differs(Difference),
}

/// What a desk leaves.
pub(crate) struct Day<P: DraftingPublisher, D: Door> {
    pub publisher: P,
    pub door: D,
    pub outcome: Outcome,
}

// What is left of a desk whose seats were told what its journal has. No more permits were spent than
// were given.
fn closed_day<P: DraftingPublisher, N: Ledger>(
    closed: Closed<P, N>,
    accepted: u64,
    given: Book<N>,
) -> (P, Outcome)
    ensures tables { (P.view result.0).tables ≡ (P.view closed.publisher).tables }
    ensures ended { result.1 ≡ outcome.Closed closed.journal accepted }
    ensures paid { closed.permits.amount ≤ given.total }
{
    let Closed {
        journal,
        publisher,
        permits,
    } = closed;
    let mut given = given;
    let mut spent = permits;
    given.audit(&mut spent);
    (publisher, Outcome::Closed { journal, accepted })
}

// The same of one of which a seat was told something else.
fn torn_day<P: DraftingPublisher, N: Ledger>(differs: Differs<P, N>, given: Book<N>) -> (P, Outcome)
    ensures tables { (P.view result.0).tables ≡ (P.view differs.publisher).tables }
    ensures ended { result.1 ≡ outcome.Differs differs.difference }
    ensures paid { differs.permits.amount ≤ given.total }
{
    let Differs {
        difference,
        journal: _,
        publisher,
        permits,
    } = differs;
    let mut given = given;
    let mut spent = permits;
    given.audit(&mut spent);
    (publisher, Outcome::Differs(difference))
}

// Closes a desk with all its seats, behind so many connections, for each of which a permit was given.
fn close_day<P: DraftingPublisher, L: Ledger, M: Ledger, N: Ledger, O: Opening>(
    desk: Desk<P, L, M, N, O>,
    seats: Vec<Seat<L, M>>,
    accepted: u64,
    given: Book<N>,
) -> (P, Outcome)
    requires calls { sum_by seat_call_parts seats.items ≡ L.parts }
    requires faults { sum_by seat_fault_parts seats.items ≡ M.parts }
    requires paid { given.total ≡ accepted }
    ensures { IsClosing O.publication O.says O.tables seats.items accepted (P.view result.0).tables result.1 }
{
    match desk.close(seats) {
        Ok(closed) => closed_day(closed, accepted, given),
        Err(differs) => torn_day(differs, given),
    }
}

/// A desk of this publisher serves connections of a door, in a thread for each seat, until so many
/// were accepted or the door failed, and is closed. No more calls are answered than connections were
/// accepted. It may wait.
pub(crate) fn hold_day<
    R: Threads + Wait + Sync,
    P: DraftingPublisher + Send,
    L: Ledger + Send + Sync,
    M: Ledger + Send + Sync,
    N: Ledger + Send + Sync,
    O: Opening + Send + Sync,
    D: Door + Send,
    C: Clock + Send,
>(
    rt: &R,
    alloc: Global,
    publisher: P,
    workers: u16,
    requests: u64,
    door: D,
    clock: C,
    calls: Blank,
    faults: Blank,
    permits: Blank,
) -> Day<P, D>
where
    P::Work: Send,
    D::Input: Send,
    D::Output: Send,
    requires workers { (1 ≤ workers) × (workers ≤ 16) }
    requires publication { O.publication ≡ (P.view publisher).publication }
    requires tables { O.tables ≡ (P.view publisher).tables }
    requires says { O.says ≡ (P.view publisher).says }
    requires count { O.count ≡ (P.view publisher).faults }
    requires calls { (calls.name ≡ L.name) × (calls.parts ≡ L.parts) × (workers ≤ calls.parts) }
    requires faults { (faults.name ≡ M.name) × (faults.parts ≡ M.parts) × (workers ≤ faults.parts) }
    requires permits { (permits.name ≡ N.name) × (permits.parts ≡ N.parts) × (requests ≤ permits.parts) }
    requires unopened { IfSome (D.handed door) (λ n. n ≡ 0) }
    requires unfailed { D.count door ≡ 0 }
    ensures { IsOutcome (P.view publisher).publication (P.view publisher).says (P.view publisher).tables (P.view result.publisher).tables workers requests (D.handed result.door) (D.count result.door) result.outcome }
{
    let (given, mut parts) = permits.open::<N>();
    let spent = parts.empty();
    let (desk, seats) = match Desk::<P, L, M, N, O>::start(
        alloc, publisher, workers, calls, faults, spent,
    ) {
        Ok(opened) => opened,
        Err(DeskStart { publisher }) => {
            return Day {
                publisher,
                door,
                outcome: Outcome::Unstarted,
            };
        }
    };
    let served = serve(
        rt, alloc, &desk, seats, requests, door, clock, &OpenGate, given, parts,
    );
    let Served {
        seats,
        accepted,
        door,
        given,
    } = served;
    let closed = close_day(desk, seats, accepted, given);
    let (publisher, outcome) = closed;
    Day {
        publisher,
        door,
        outcome,
    }
}
