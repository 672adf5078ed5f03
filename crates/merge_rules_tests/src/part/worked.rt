//! Filters and moves that are worked out by hand.
ghost use Rattle.std.specs.Prelude.{◌≡◌, ◌≤◌, ◌+◌, ◌*◌, length, None};
ghost use Rattle.merge_part.specs.Taking.{count_if_some};

use super::trial::Cell::{Int, Null, Text};
use super::trial::{Line, are_fit, change_of};
use crate::same::same;
use merge_gens::MoveKind;
use merge_part::{Membership, Move, Moves};
use merge_schema::{SchemaFault, read};
use merge_types::{Listing, NoMemory, RowId, SiteId, Steps};
use std::alloc::Global;
use std::marker::Brand;
use std::sync::ledger::{Blank, Ledger};
use std::test::Fail;

const CUSTOMER: u8 = 0;

const ORDERS: u8 = 1;

const LINE: u8 = 2;

const NORTH: SiteId = SiteId(1);

const SOUTH: SiteId = SiteId(2);

// Makes one change, and gives its moves. It takes a step for each subscription at most, and none
// where the row goes.
fn moves_of<L: Ledger>(
    alloc: Global,
    membership: &mut Membership,
    line: Line,
    steps: &mut Steps<L>,
) -> Result<Moves, NoMemory>
    ensures publication { membership.new.publication ≡ membership.old.publication }
    ensures cost { steps.new ≤ steps.old + length membership.old.publication.subscriptions * count_if_some line.2 }
{
    let changes = [change_of(alloc, line)?];
    if !are_fit(membership.publication(), &changes) {
        return Ok(Listing::empty(alloc));
    }
    membership.update(&changes, steps)
}

// Whether the customer without a region is in the partition of the host `north`, and the one there.
fn filtered<L: Ledger>(
    alloc: Global,
    text: &[u8],
    blank: Blank,
) -> Result<(bool, bool), SchemaFault>
    requires name { blank.name ≡ L.name }
    requires parts { blank.parts ≡ L.parts }
    requires some { 1 ≤ blank.parts }
{
    let mut steps = Steps::<L>::new(blank);
    let publication = read(alloc, text, 5)?;
    let mut membership = Membership::new(alloc, &publication)?;
    let nowhere = Line(CUSTOMER, 1, Some((Int(1), Null)));
    let there = Line(CUSTOMER, 2, Some((Int(2), Text("north"))));
    moves_of(alloc, &mut membership, nowhere, &mut steps)?;
    moves_of(alloc, &mut membership, there, &mut steps)?;
    Ok((
        membership.is_in(CUSTOMER, RowId(1), NORTH),
        membership.is_in(CUSTOMER, RowId(2), NORTH),
    ))
}

const EQUAL: &str = r#"name = "p"
article = [{ name = "customer", filter = "region = HOST_NAME()", column = [{ name = "id", type = "int" }, { name = "region", type = "text" }] }]
subscription = [{ site = 1, host = "north" }]
"#;

const UNEQUAL: &str = r#"name = "p"
article = [{ name = "customer", filter = "NOT region = HOST_NAME()", column = [{ name = "id", type = "int" }, { name = "region", type = "text" }] }]
subscription = [{ site = 1, host = "north" }]
"#;

const NOWHERE: &str = r#"name = "p"
article = [{ name = "customer", filter = "region IS NULL", column = [{ name = "id", type = "int" }, { name = "region", type = "text" }] }]
subscription = [{ site = 1, host = "north" }]
"#;

fn inside(alloc: Global, text: &[u8]) -> Result<(bool, bool), SchemaFault> {
    filtered::<Brand>(alloc, text, Blank::new(1))
}

// A filter that is neither true nor false of a row does not have it in, nor does its negation.
#[test]
fn filters(rt: HostRuntime) -> Result<(), Fail> {
    let alloc = rt.alloc();
    same(&rt, &inside(alloc, EQUAL.as_bytes())?, &(false, true));
    same(&rt, &inside(alloc, UNEQUAL.as_bytes())?, &(false, false));
    same(&rt, &inside(alloc, NOWHERE.as_bytes())?, &(true, false));
    Ok(())
}

const CHAIN: &str = r#"name = "p"
article = [{ name = "customer", filter = "region = HOST_NAME()", column = [{ name = "id", type = "int" }, { name = "region", type = "text" }] }, { name = "orders", column = [{ name = "id", type = "int" }, { name = "cust", type = "int" }], join = [{ column = "cust", parent = "customer", parent_column = "id" }] }, { name = "line", column = [{ name = "ord", type = "int" }, { name = "qty", type = "int" }], join = [{ column = "ord", parent = "orders", parent_column = "id" }] }]
subscription = [{ site = 1, host = "north" }, { site = 2, host = "south" }]
"#;

fn one_move(article: u8, row: u128, site: SiteId, kind: MoveKind) -> Move {
    Move {
        article,
        row: RowId(row),
        site,
        kind,
    }
}

// A customer, an order of it and a line of that enter the partition of one site.
fn enter<L: Ledger>(
    alloc: Global,
    membership: &mut Membership,
    steps: &mut Steps<L>,
) -> Result<bool, NoMemory>
    ensures { membership.new.publication ≡ membership.old.publication }
{
    let first = moves_of(
        alloc,
        membership,
        Line(CUSTOMER, 1, Some((Int(1), Text("north")))),
        steps,
    )?;
    let second = moves_of(
        alloc,
        membership,
        Line(ORDERS, 2, Some((Int(10), Int(1)))),
        steps,
    )?;
    let third = moves_of(
        alloc,
        membership,
        Line(LINE, 3, Some((Int(10), Int(5)))),
        steps,
    )?;
    Ok(
        first.as_slice() == [one_move(CUSTOMER, 1, NORTH, MoveKind::Entered)].as_slice()
            && second.as_slice() == [one_move(ORDERS, 2, NORTH, MoveKind::Entered)].as_slice()
            && third.as_slice() == [one_move(LINE, 3, NORTH, MoveKind::Entered)].as_slice(),
    )
}

// The customer moves to the other region, and its order and line follow: for two evaluations at most.
fn change_region<L: Ledger>(
    alloc: Global,
    membership: &mut Membership,
    steps: &mut Steps<L>,
) -> Result<bool, NoMemory>
    requires { length membership.old.publication.subscriptions ≡ 2 }
    ensures { steps.new ≤ steps.old + 2 }
{
    let moves = moves_of(
        alloc,
        membership,
        Line(CUSTOMER, 1, Some((Int(1), Text("south")))),
        steps,
    )?;
    Ok(
        moves.as_slice()
            == [
                one_move(CUSTOMER, 1, NORTH, MoveKind::Left),
                one_move(CUSTOMER, 1, SOUTH, MoveKind::Entered),
                one_move(ORDERS, 2, NORTH, MoveKind::Left),
                one_move(ORDERS, 2, SOUTH, MoveKind::Entered),
                one_move(LINE, 3, NORTH, MoveKind::Left),
                one_move(LINE, 3, SOUTH, MoveKind::Entered),
            ]
            .as_slice(),
    )
}

// A line that changes in no column by which it follows moves nowhere.
fn change_quantity<L: Ledger>(
    alloc: Global,
    membership: &mut Membership,
    steps: &mut Steps<L>,
) -> Result<bool, NoMemory> {
    let moves = moves_of(
        alloc,
        membership,
        Line(LINE, 3, Some((Int(10), Int(8)))),
        steps,
    )?;
    let is_north = membership.is_in(LINE, RowId(3), NORTH);
    let is_south = membership.is_in(LINE, RowId(3), SOUTH);
    Ok(moves.as_slice().is_empty() && !is_north && is_south)
}

// The customer goes, and its order and line leave with it: for no evaluation. It is done in two
// calls, and the first of them leaves the rows where they are.
fn delete<L: Ledger>(
    alloc: Global,
    membership: &mut Membership,
    steps: &mut Steps<L>,
) -> Result<bool, NoMemory>
    ensures { steps.new ≤ steps.old }
{
    let changes = [change_of(alloc, Line(CUSTOMER, 1, None))?];
    if !are_fit(membership.publication(), &changes) {
        return Ok(false);
    }
    let (moves, plan) = membership.prepare(&changes, steps)?;
    let was_south = membership.is_in(LINE, RowId(3), SOUTH);
    membership.make(plan);
    let is_south = membership.is_in(LINE, RowId(3), SOUTH);
    let left = [
        one_move(CUSTOMER, 1, SOUTH, MoveKind::Left),
        one_move(ORDERS, 2, SOUTH, MoveKind::Left),
        one_move(LINE, 3, SOUTH, MoveKind::Left),
    ];
    Ok(moves.as_slice() == left.as_slice() && was_south && !is_south)
}

fn chain<L: Ledger>(alloc: Global, blank: Blank) -> Result<bool, SchemaFault>
    requires name { blank.name ≡ L.name }
    requires parts { blank.parts ≡ L.parts }
    requires some { 1 ≤ blank.parts }
{
    let mut steps = Steps::<L>::new(blank);
    let publication = read(alloc, CHAIN.as_bytes(), 5)?;
    let mut membership = Membership::new(alloc, &publication)?;
    if publication.subscriptions.len() != 2 {
        return Ok(false);
    }
    let enters = enter(alloc, &mut membership, &mut steps)?;
    let follows = change_region(alloc, &mut membership, &mut steps)?;
    let stays = change_quantity(alloc, &mut membership, &mut steps)?;
    let leaves = delete(alloc, &mut membership, &mut steps)?;
    Ok(enters && follows && stays && leaves)
}

fn chain_holds(alloc: Global) -> Result<bool, SchemaFault> {
    chain::<Brand>(alloc, Blank::new(1))
}

#[test]
fn moves_along_a_chain(rt: HostRuntime) -> Result<(), Fail> {
    assert!(rt; chain_holds(rt.alloc())?);
    Ok(())
}
