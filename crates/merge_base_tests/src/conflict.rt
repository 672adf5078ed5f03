//! A table with rows of rising numbers and moments.
ghost use Rattle.std.specs.Prelude.{◌≡◌};

use crate::same::same;
use merge_conflict::{
    Conflict, ConflictKind, ConflictRow, ConflictRows, ConflictTable, Verdict, are_rising,
    losing_rows,
};
use merge_lineage::Lineage;
use merge_types::{Dot, Moment, RowId, SiteId, Tracking, Values};
use merge_units::{Body, Cells, Decision, Version};
use std::alloc::Global;
use std::process::Abort;
use std::test::Fail;

fn row(alloc: Global, number: u64, moment: u64) -> ConflictRow
    ensures { result.number ≡ number }
{
    ConflictRow {
        number,
        article: 0,
        row: RowId(1),
        kind: ConflictKind::DeleteWins,
        losing: Version {
            lineage: Lineage::new(alloc),
            body: Body::Dead(Dot {
                site: SiteId(1),
                number: 1,
            }),
        },
        from: SiteId(1),
        verdict: Verdict::Publisher,
        moment: Moment(moment),
    }
}

fn numbers(alloc: Global, rows: &[ConflictRow]) -> Result<Vec<u64>, Fail> {
    let mut numbers = Vec::new(alloc);
    for row in rows {
        numbers.push(row.number)?;
    }
    Ok(numbers)
}

#[test]
fn adds_in_two_calls_and_trims(rt: HostRuntime) -> Result<(), Fail> {
    let mut stored = ConflictRows::empty(rt.alloc());
    for (number, moment) in [(1, 10), (2, 30)] {
        stored.push(row(rt.alloc(), number, moment))?;
    }
    assert!(rt; are_rising(stored.as_slice()));
    let mut table = ConflictTable::restore(stored);
    same(&rt, &table.trim(Moment(10)), &0);
    same(&rt, &table.trim(Moment(11)), &1);
    same(
        &rt,
        &numbers(rt.alloc(), table.rows())?.as_slice(),
        &[2].as_slice(),
    );
    Ok(())
}

#[test]
fn adds(rt: HostRuntime) -> Result<(), Fail> {
    let mut table = ConflictTable::new(rt.alloc());
    table.add(row(rt.alloc(), 1, 10))?;
    let mut rows = ConflictRows::empty(rt.alloc());
    rows.push(row(rt.alloc(), 2, 10))?;
    rows.push(row(rt.alloc(), 3, 20))?;
    let plan = table.prepare(rows)?;
    same(
        &rt,
        &numbers(rt.alloc(), table.rows())?.as_slice(),
        &[1].as_slice(),
    );
    table.settle(plan);
    same(
        &rt,
        &numbers(rt.alloc(), table.rows())?.as_slice(),
        &[1, 2, 3].as_slice(),
    );
    for row in table.rows() {
        same(&rt, &row.clone()?.verdict, &Verdict::Publisher);
    }
    Ok(())
}

const CONFLICT: Conflict = Conflict {
    number: 5,
    article: 0,
    row: RowId(1),
    tracking: Tracking::Row,
    site: SiteId(7),
    moment: Moment(9),
};

// A version that lives, with no cell.
fn live(alloc: Global) -> Version {
    Version {
        lineage: Lineage::new(alloc),
        body: Body::Live(Cells::empty(alloc)),
    }
}

// What loses of an update and a delete: its kind, its site, and who wins.
const LOSERS: &[(bool, ConflictKind, SiteId, Verdict)] = &[
    (
        false,
        ConflictKind::UpdateWins,
        SiteId(7),
        Verdict::Publisher,
    ),
    (
        true,
        ConflictKind::DeleteWins,
        SiteId(0),
        Verdict::Subscriber,
    ),
];

// The one row that loses, where the publisher's update meets a delete.
fn loser(alloc: Global, is_taken: bool) -> Result<ConflictRow, Fail> {
    let ours = live(alloc);
    let theirs = row(alloc, 1, 10).losing;
    let decision = if is_taken {
        Decision::TakeSubscriber
    } else {
        Decision::KeepPublisher
    };
    let rows = losing_rows(alloc, &CONFLICT, &ours, &theirs, &decision)?;
    match rows.as_slice() {
        [row] => Ok(row.clone()?),
        _ => Err(Fail::from("not one row")),
    }
}

#[test]
fn losers_are_kept(rt: HostRuntime) -> Result<(), Fail> {
    for (is_taken, kind, from, verdict) in LOSERS {
        let row = loser(rt.alloc(), *is_taken)?;
        same(
            &rt,
            &(row.kind, row.from, row.verdict),
            &(*kind, *from, *verdict),
        );
    }
    Ok(())
}

// Where other values are decided both lose, the publisher's first.
#[test]
fn both_lose_to_other_values(rt: HostRuntime) -> Result<(), Fail> {
    let ours = live(rt.alloc());
    let custom = Decision::Custom(Values::empty(rt.alloc()));
    let rows = losing_rows(rt.alloc(), &CONFLICT, &ours, &ours, &custom)?;
    same(&rt, &rows.len(), &2);
    let told = [(5, SiteId(0)), (6, SiteId(7))];
    for (row, (number, from)) in rows.as_slice().iter().zip(&told) {
        same(&rt, &(row.number, row.from), &(*number, *from));
        same(&rt, &row.kind, &ConflictKind::RowUpdate);
    }
    Ok(())
}

#[test]
fn kinds_have_numbers(rt: HostRuntime) {
    let kind = ConflictKind::RowUpdate;
    same(&rt, &ConflictKind::of_number(kind.number()), &Some(kind));
}
