//! Two threads with a seat each of one desk, and calls from one seat whose store fails.
ghost use Rattle.std.specs.List.{sum_by};
ghost use Rattle.std.specs.Prelude.{◌≡◌, ◌≤◌, ◌<◌, ◌+◌, ℕ, IfSome, None, length, slice_index_or};
ghost use Rattle.merge_json.specs.Sendable.{IsSendableRequest};
ghost use Rattle.merge_model.specs.Publisher.{empty_publisher};
ghost use Rattle.merge_desk.specs.Replay.{no_publication};
ghost use Rattle.merge_desk.specs.Views.{SeatView, seat_call_parts, seat_fault_parts};

use crate::nobody::Nobody;
use crate::same::same;
use crate::serve::kept;
use crate::service::TWO_SITES;
use merge_batch::{Join, Kind, Reply, Request};
use merge_desk::{Closed, Desk, DeskFault, Journal, Opening, Receipt, Seat, summary};
use merge_draft::DraftingPublisher;
use merge_ports::Keeper;
use merge_resolve::Handed;
use merge_site::{DraftingSite, KeptPublisher};
use merge_types::{Moment, SiteId};
use std::alloc::Global;
use std::marker::{Brand, Model};
use std::process::Abort;
use std::sync::ledger::{Blank, Ledger, Share};
use std::sync::{Mutex, Wait};
use std::test::*;
use std::thread;
use std::thread::Threads;

fn join(site: u16, seq: u64) -> Request
    ensures { IsSendableRequest result }
{
    Request::Join(Join {
        site: SiteId(site),
        seq,
        generation: 0,
        number: 0,
    })
}

const ASKED: [u8; 32] = [
    0x0c, 0x60, 0xfc, 0xbb, 0x6e, 0xcb, 0x5c, 0xe5, 0xb3, 0xd0, 0xed, 0xd9, 0xcd, 0xd2, 0x72, 0x3c,
    0x1b, 0xae, 0x90, 0xde, 0x16, 0x00, 0x47, 0x60, 0xd7, 0xbf, 0x5d, 0xf8, 0x2e, 0x4e, 0x3f, 0x87,
];

const TOLD: [u8; 32] = [
    0xd1, 0xf3, 0x10, 0x6b, 0x81, 0xd3, 0xd6, 0xcd, 0x4a, 0xc8, 0x1a, 0xc9, 0xa3, 0x89, 0xf6, 0x50,
    0x40, 0xf5, 0x5d, 0x06, 0x99, 0x43, 0xd6, 0x25, 0x62, 0xb4, 0x15, 0x27, 0x7c, 0xd1, 0x84, 0x7c,
];

// Permits for so many calls.
#[derive(Drop)]
struct Till<N: Ledger> {
    left: u64,
    permits: Share<N>,
}

impl<N: Ledger> Model for Till<N> {
    ghost use Rattle.std.specs.Prelude.{◌≡◌, ℕ};

    ghost Value = { ℕ };

    ghost view = { λ t. t.left };

    ghost invariant = { λ t. (t.permits.parts ≡ t.left) × (t.permits.amount ≡ t.left) };
}

impl<N: Ledger> Till<N> {
    fn next(&mut self) -> Option<Share<N>>
        ensures { IfSome result (λ permit. permit.amount ≡ 1) }
    {
        if self.left > 0 {
            self.left -= 1;
            return Some(self.permits.split_off(1, 1));
        }
        None
    }
}

fn take<R: Wait, N: Ledger>(rt: &R, till: &Mutex<Till<N>>) -> Option<Share<N>>
    ensures { IfSome result (λ permit. permit.amount ≡ 1) }
{
    till.lock(rt).next()
}

// A site's requests, one after the other.
fn work<R: Wait, L: Ledger, M: Ledger, N: Ledger, O: Opening>(
    rt: &R,
    desk: &Desk<Nobody, L, M, N, O>,
    seat: &mut Seat<L, M>,
    till: &Mutex<Till<N>>,
)
    ensures parts { (seat.new.call_parts ≡ seat.old.call_parts) × (seat.new.fault_parts ≡ seat.old.fault_parts) }
{
    for seq in 0..50u64 {
        match take(rt, till) {
            Some(permit) => {
                let _receipt = desk.call(rt, seat, permit, Moment(seq), &join(7, seq));
            }
            None => return,
        }
    }
}

fn all<
    L: Ledger + Send + Sync,
    M: Ledger + Send + Sync,
    N: Ledger + Send + Sync,
    O: Opening + Send + Sync,
    R: Threads + Wait + Sync,
>(rt: &R, desk: &Desk<Nobody, L, M, N, O>, seats: &mut [Seat<L, M>], till: &Mutex<Till<N>>)
    ensures length { length seats.new ≡ length seats.old }
    ensures parts { (i : ℕ) (d : SeatView) → i < length seats.old → ((slice_index_or seats.new i d).call_parts ≡ (slice_index_or seats.old i d).call_parts) × ((slice_index_or seats.new i d).fault_parts ≡ (slice_index_or seats.old i d).fault_parts) }
{
    thread::for_each_mut(
        rt,
        seats,
        2,
        &|_, seat: &mut Seat<L, M>|
            ensures { (seat.exit.now.call_parts ≡ seat.entry.now.call_parts) × (seat.exit.now.fault_parts ≡ seat.entry.now.fault_parts) }
        { work(rt, desk, seat, till) },
    );
}

fn serve<
    L: Ledger + Send + Sync,
    M: Ledger + Send + Sync,
    N: Ledger + Send + Sync,
    O: Opening + Send + Sync,
    R: Threads + Wait + Sync,
>(
    rt: &R,
    desk: &Desk<Nobody, L, M, N, O>,
    seats: Vec<Seat<L, M>>,
    till: &Mutex<Till<N>>,
) -> Vec<Seat<L, M>>
    ensures calls { sum_by seat_call_parts result.items ≡ sum_by seat_call_parts seats.items }
    ensures faults { sum_by seat_fault_parts result.items ≡ sum_by seat_fault_parts seats.items }
{
    let mut seats = seats;
    all(rt, desk, seats.as_mut_slice(), till);
    seats
}

// What a day of a desk leaves.
#[derive(Drop)]
struct Left {
    journal: Journal,
    publisher: Nobody,
}

fn day<
    L: Ledger + Send + Sync,
    M: Ledger + Send + Sync,
    N: Ledger + Send + Sync,
    O: Opening + Send + Sync,
    R: Threads + Wait + Abort + Sync,
>(
    rt: &R,
    alloc: Global,
    publisher: Nobody,
    calls: Blank,
    faults: Blank,
    permits: Blank,
) -> Result<Left, Fail>
    requires publication { O.publication ≡ no_publication }
    requires tables { O.tables ≡ empty_publisher no_publication }
    requires says { O.says ≡ (λ place tally asked. None) }
    requires count { O.count ≡ 0 }
    requires calls { (calls.name ≡ L.name) × (calls.parts ≡ L.parts) × (2 ≤ calls.parts) }
    requires faults { (faults.name ≡ M.name) × (faults.parts ≡ M.parts) × (2 ≤ faults.parts) }
    requires permits { (permits.name ≡ N.name) × (permits.parts ≡ N.parts) × (permits.parts ≡ 100) }
{
    let (mut given, mut rest) = permits.open::<N>();
    let spent = rest.empty();
    given.add(&mut rest, 100);
    let till = Mutex::new(Till {
        left: 100,
        permits: rest,
    });
    let Ok((desk, seats)) = Desk::<Nobody, L, M, N, O>::start(
        alloc, publisher, 2, calls, faults, spent,
    ) else {
        return Err(Fail::new("no memory for a desk"));
    };
    let seats = serve(rt, &desk, seats, &till);
    let Ok(closed) = desk.close(seats) else {
        return Err(Fail::new("the journal differs"));
    };
    let Closed {
        journal,
        publisher,
        permits: _,
    } = closed;
    Ok(Left { journal, publisher })
}

#[test]
fn two_threads_are_answered_in_journal_order(rt: HostRuntime) -> Result<(), Fail> {
    let calls = Blank::new(2);
    let faults = Blank::new(2);
    let nobody = Nobody { asked: 0 };
    let permits = Blank::new(100);
    let left = day::<Brand, Brand, Brand, Brand, _>(
        &rt,
        rt.alloc(),
        nobody,
        calls,
        faults,
        permits,
    )?;
    same(&rt, &left.publisher.asked, &100);
    same(&rt, &left.journal.entries().len(), &100);
    let mut place = 0u64;
    let mut first = 0u64;
    for entry in left.journal.entries() {
        place = place.wrapping_add(1);
        same(&rt, &entry.mark.place, &place);
        same(&rt, &entry.mark.digest, &TOLD);
        assert!(rt; entry.mark.refused && entry.mark.kind == Kind::Join);
        if entry.request.seq() == 1 {
            same(&rt, &entry.mark.asked, &ASKED);
        }
        if entry.seat == 1 {
            first = first.wrapping_add(1);
        }
    }
    same(&rt, &first, &50);
    let told = summary(rt.alloc(), &left.journal)?;
    same(
        &rt,
        &told.as_str(),
        &"calls 100 joins 100 uploads 0 ranges 0 downloads 0 refused 100\n",
    );
    Ok(())
}

// What a call is answered: a join, with the place of its entry, or something else.
#[derive(Clone, Copy, Debug, PartialEq, Eq)]
enum Heard {
    Joined { place: u64, seq: u64 },
    StoreFault { count: u64 },
    Another,
}

fn heard_of(receipt: &Receipt) -> Heard {
    match &receipt.reply {
        Reply::Joined(joined) => Heard::Joined {
            place: receipt.place,
            seq: joined.seq,
        },
        _ => Heard::Another,
    }
}

// What the first join of a site is answered.
fn call_one<R: Wait, P: DraftingPublisher, L: Ledger, M: Ledger, N: Ledger, O: Opening>(
    rt: &R,
    desk: &Desk<P, L, M, N, O>,
    seat: &mut Seat<L, M>,
    permit: Share<N>,
    site: u16,
) -> Heard
    requires { permit.amount ≡ 1 }
{
    match desk.call(rt, seat, permit, Moment(7), &join(site, 1)) {
        Ok(receipt) => heard_of(&receipt),
        Err(DeskFault::StoreFault { count }) => Heard::StoreFault { count },
        Err(DeskFault::NoMemory) => Heard::Another,
    }
}

// The first joins of these sites, one after the other from the one seat of a desk, are answered so.
fn call_each<R: Wait + Abort, P: DraftingPublisher, L: Ledger, M: Ledger, N: Ledger, O: Opening>(
    rt: &R,
    alloc: Global,
    publisher: P,
    rows: &[(u16, Heard)],
    calls: Blank,
    faults: Blank,
    permits: Blank,
) -> Result<(), Fail>
    requires publication { O.publication ≡ (P.view publisher).publication }
    requires tables { O.tables ≡ (P.view publisher).tables }
    requires says { O.says ≡ (P.view publisher).says }
    requires count { O.count ≡ (P.view publisher).faults }
    requires calls { (calls.name ≡ L.name) × (calls.parts ≡ L.parts) × (1 ≤ calls.parts) }
    requires faults { (faults.name ≡ M.name) × (faults.parts ≡ M.parts) × (1 ≤ faults.parts) }
    requires permits { (permits.name ≡ N.name) × (permits.parts ≡ N.parts) × (permits.parts ≡ 3) }
{
    let (mut given, mut rest) = permits.open::<N>();
    let spent = rest.empty();
    given.add(&mut rest, 3);
    let mut till = Till {
        left: 3,
        permits: rest,
    };
    let Ok((desk, mut seats)) = Desk::<P, L, M, N, O>::start(
        alloc, publisher, 1, calls, faults, spent,
    ) else {
        return Err(Fail::new("no memory for a desk"));
    };
    let Some(mut seat) = seats.pop() else {
        return Err(Fail::new("no seat"));
    };
    for (site, wanted) in rows {
        match till.next() {
            Some(permit) => same(rt, &call_one(rt, &desk, &mut seat, permit, *site), wanted),
            None => return Err(Fail::new("no permit")),
        }
    }
    Ok(())
}

fn call_anew<R: Wait + Abort, P: DraftingPublisher>(
    rt: &R,
    alloc: Global,
    publisher: P,
    rows: &[(u16, Heard)],
) -> Result<(), Fail> {
    call_each::<_, P, Brand, Brand, Brand, Brand>(
        rt,
        alloc,
        publisher,
        rows,
        Blank::new(1),
        Blank::new(1),
        Blank::new(3),
    )
}

// The same of a publisher at a store.
fn call_stored<R: Wait + Abort, K: Keeper>(
    rt: &R,
    alloc: Global,
    kept: KeptPublisher<K>,
    resolvers: Vec<Handed>,
    rows: &[(u16, Heard)],
) -> Result<(), Fail> {
    call_anew(rt, alloc, DraftingSite::new(kept, resolvers), rows)
}

// Each site that joins, and what it is answered where the keeper's third call fails: the calls are the
// load, and a commit for each join.
const JOINS: &[(u16, Heard)] = &[
    (1, Heard::Joined { place: 1, seq: 1 }),
    (2, Heard::StoreFault { count: 1 }),
    (2, Heard::Joined { place: 2, seq: 1 }),
];

#[test]
fn a_call_whose_commit_fails_has_no_receipt(rt: HostRuntime) -> Result<(), Fail> {
    let site = kept(rt.alloc(), 2, TWO_SITES)?;
    call_stored(&rt, rt.alloc(), site, Vec::new(rt.alloc()), JOINS)
}
