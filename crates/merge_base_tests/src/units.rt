//! Versions of rows, with the cases and results that the rules give.
use crate::same::same;
use merge_lineage::{Lineage, are_ascending};
use merge_types::{Dot, Octets, Setting, SiteId, Tracking, Value, Values};
use merge_units::{
    Body, Case, Cell, Cells, Decision, Side, Version, apply, can_change, change, classify,
    fits_bodies, fits_decision, fits_tracking, have_equal_counts, insert, is_new_where_decided,
    remove, stored_length,
};
use std::alloc::Global;
use std::test::Fail;

// A change that both sides know, one of the publisher, one of a client, and the publisher's next.
const OLD: Dot = Dot {
    site: SiteId(0),
    number: 1,
};

const OURS: Dot = Dot {
    site: SiteId(0),
    number: 2,
};

const THEIRS: Dot = Dot {
    site: SiteId(1),
    number: 1,
};

const NEXT: Dot = Dot {
    site: SiteId(0),
    number: 3,
};

// A body that stands in a table.
#[derive(Clone, Copy)]
enum Given {
    // Cells with one number each, by their tops.
    Live(&'static [(Dot, i64)]),
    // Cells with so many bytes each, by their tops.
    Long(&'static [Dot], usize),
    Dead(Dot),
}

fn one_value(alloc: Global, value: Value) -> Result<Values, Fail> {
    let mut values = Values::empty(alloc);
    values.push(value)?;
    Ok(values)
}

fn numbers(alloc: Global, list: &[(Dot, i64)]) -> Result<Cells, Fail> {
    let mut cells = Cells::empty(alloc);
    for (top, number) in list {
        let values = one_value(alloc, Value::Int(*number))?;
        cells.push(Cell { top: *top, values })?;
    }
    Ok(cells)
}

fn long_cells(alloc: Global, tops: &[Dot], count: usize) -> Result<Cells, Fail> {
    let mut cells = Cells::empty(alloc);
    for top in tops {
        let bytes = Octets::new(vec![in alloc; 0; count]?);
        let values = one_value(alloc, Value::Bytes(bytes))?;
        cells.push(Cell { top: *top, values })?;
    }
    Ok(cells)
}

fn body(alloc: Global, given: Given) -> Result<Body, Fail> {
    match given {
        Given::Live(list) => Ok(Body::Live(numbers(alloc, list)?)),
        Given::Long(tops, count) => Ok(Body::Live(long_cells(alloc, tops, count)?)),
        Given::Dead(top) => Ok(Body::Dead(top)),
    }
}

fn lineage(alloc: Global, known: &[Dot]) -> Result<Lineage, Fail> {
    if !are_ascending(known) {
        return Err(Fail::from("sites do not ascend"));
    }
    Ok(Lineage::restore(known.to_vec(alloc)?))
}

fn version(alloc: Global, known: &[Dot], given: Given) -> Result<Version, Fail> {
    let lineage = lineage(alloc, known)?;
    let body = body(alloc, given)?;
    Ok(Version { lineage, body })
}

// The publisher's version and the client's, which know what these two know.
fn ours(alloc: Global, given: Given) -> Result<Version, Fail> {
    version(alloc, &[OURS], given)
}

fn theirs(alloc: Global, given: Given) -> Result<Version, Fail> {
    version(alloc, &[OLD, THEIRS], given)
}

// A case, with the side of each cell.
#[derive(Clone, Copy)]
enum Told {
    Nothing,
    Take,
    Unite,
    Merge(&'static [Side]),
    Conflict(&'static [Side]),
    LifeConflict,
}

fn is_told(case: &Case, told: Told) -> bool {
    match (case, told) {
        (Case::Nothing, Told::Nothing) => true,
        (Case::Take, Told::Take) => true,
        (Case::Unite, Told::Unite) => true,
        (Case::Merge(sides), Told::Merge(wanted)) => sides.as_slice() == wanted,
        (Case::Conflict(sides), Told::Conflict(wanted)) => sides.as_slice() == wanted,
        (Case::LifeConflict, Told::LifeConflict) => true,
        _ => false,
    }
}

const CASES: &[(&str, Given, Given, Told)] = &[
    (
        "only the publisher has news",
        Given::Live(&[(OURS, 0), (OLD, 0)]),
        Given::Live(&[(OLD, 1), (OLD, 1)]),
        Told::Nothing,
    ),
    (
        "only the client has news",
        Given::Live(&[(OLD, 0), (OLD, 0)]),
        Given::Live(&[(OLD, 1), (THEIRS, 1)]),
        Told::Take,
    ),
    (
        "news in two cells",
        Given::Live(&[(OURS, 0), (OLD, 0)]),
        Given::Live(&[(OLD, 1), (THEIRS, 1)]),
        Told::Merge(&[Side::Publisher, Side::Incoming]),
    ),
    (
        "news in one cell",
        Given::Live(&[(OURS, 0), (OLD, 0)]),
        Given::Live(&[(THEIRS, 1), (OLD, 1)]),
        Told::Conflict(&[Side::Both, Side::Neither]),
    ),
    (
        "news of the client in one of the publisher's two cells",
        Given::Live(&[(OURS, 0), (OURS, 0)]),
        Given::Live(&[(OLD, 1), (THEIRS, 1)]),
        Told::Conflict(&[Side::Publisher, Side::Both]),
    ),
    (
        "two deletes",
        Given::Dead(OURS),
        Given::Dead(THEIRS),
        Told::Unite,
    ),
    (
        "a delete comes to an update",
        Given::Live(&[(OURS, 0)]),
        Given::Dead(THEIRS),
        Told::LifeConflict,
    ),
    (
        "an update comes to a delete",
        Given::Dead(OURS),
        Given::Live(&[(THEIRS, 1)]),
        Told::LifeConflict,
    ),
    // A cell of 3,965 bytes is stored in 3,968, and two of these in 7,936.
    (
        "long cells at the limit",
        Given::Long(&[OURS, OLD], 3965),
        Given::Long(&[OLD, THEIRS], 3965),
        Told::Merge(&[Side::Publisher, Side::Incoming]),
    ),
    (
        "long cells above the limit conflict everywhere",
        Given::Long(&[OURS, OLD], 3966),
        Given::Long(&[OLD, THEIRS], 3965),
        Told::Conflict(&[Side::Both, Side::Both]),
    ),
];

// What the client's version is to the publisher's.
fn case_of(alloc: Global, publisher: &Version, incoming: &Version) -> Result<Case, Fail> {
    if !have_equal_counts(&publisher.body, &incoming.body) {
        return Err(Fail::from("not as many cells"));
    }
    Ok(classify(alloc, publisher, incoming)?)
}

fn is_case(alloc: Global, publisher: Given, incoming: Given, told: Told) -> Result<bool, Fail> {
    let publisher = ours(alloc, publisher)?;
    let incoming = theirs(alloc, incoming)?;
    let case = case_of(alloc, &publisher, &incoming)?;
    Ok(is_told(&case, told))
}

#[test]
fn each_case_is_told(rt: HostRuntime) -> Result<(), Fail> {
    for (shows, publisher, incoming, told) in CASES {
        assert!(rt;
            is_case(rt.alloc(), *publisher, *incoming, *told)?,
            "{shows}"
        );
    }
    Ok(())
}

fn is_number(cell: &Cell, wanted: (Dot, i64)) -> bool {
    match cell.values.as_slice() {
        [Value::Int(number)] => cell.top == wanted.0 && *number == wanted.1,
        _ => false,
    }
}

fn are_numbers(cells: &[Cell], wanted: &[(Dot, i64)]) -> bool {
    cells.len() == wanted.len() && (0..cells.len()).all(|at| is_number(&cells[at], wanted[at]))
}

// Whether a version has this body, and knows these changes.
fn is_version(version: &Version, known: &[Dot], wanted: Given) -> bool {
    let is_body = match (&version.body, wanted) {
        (Body::Live(cells), Given::Live(list)) => are_numbers(cells.as_slice(), list),
        (Body::Dead(top), Given::Dead(change)) => *top == change,
        _ => false,
    };
    is_body && version.lineage.dots() == known
}

// A decision that stands in a table: of values it brings the number 9.
#[derive(Clone, Copy)]
enum Choice {
    Keep,
    Take,
    Nine,
}

fn decision(alloc: Global, choice: Choice) -> Result<Decision, Fail> {
    match choice {
        Choice::Keep => Ok(Decision::KeepPublisher),
        Choice::Take => Ok(Decision::TakeSubscriber),
        Choice::Nine => Ok(Decision::Custom(one_value(alloc, Value::Int(9))?)),
    }
}

// What two versions become by a decision.
fn decide(
    alloc: Global,
    publisher: &Version,
    incoming: &Version,
    decision: &Decision,
) -> Result<Version, Fail> {
    if !have_equal_counts(&publisher.body, &incoming.body) {
        return Err(Fail::from("not as many cells"));
    }
    let case = classify(alloc, publisher, incoming)?;
    if !fits_decision(&case, &publisher.body, decision)
        || !is_new_where_decided(&publisher.lineage, &incoming.lineage, decision, NEXT)
    {
        return Err(Fail::from("the decision does not fit"));
    }
    Ok(apply(alloc, publisher, incoming, decision, NEXT)?)
}

// The same, where the case is told beforehand.
fn settle(
    alloc: Global,
    publisher: &Version,
    incoming: &Version,
    decision: &Decision,
) -> Result<Version, Fail> {
    let case = case_of(alloc, publisher, incoming)?;
    if !fits_bodies(&case, &publisher.body, &incoming.body, decision)
        || !is_new_where_decided(&publisher.lineage, &incoming.lineage, decision, NEXT)
    {
        return Err(Fail::from("the decision does not fit"));
    }
    Ok(case.apply(alloc, publisher, incoming, decision, NEXT)?)
}

// Two bodies, a decision, the publisher's last change that is known afterwards, and the body that
// they become.
#[derive(Clone, Copy)]
struct Merge {
    shows: &'static str,
    bodies: (Given, Given),
    choice: Choice,
    knows: Dot,
    becomes: Given,
}

// A cell that both changed, one of the publisher's changes, and one of the client's.
const PUBLISHER_CELLS: Given = Given::Live(&[(OURS, 0), (OURS, 0), (OLD, 0)]);

const INCOMING_CELLS: Given = Given::Live(&[(THEIRS, 1), (OLD, 1), (THEIRS, 1)]);

const MERGES: &[Merge] = &[
    Merge {
        shows: "the publisher's cell is kept",
        bodies: (PUBLISHER_CELLS, INCOMING_CELLS),
        choice: Choice::Keep,
        knows: OURS,
        becomes: Given::Live(&[(OURS, 0), (OURS, 0), (THEIRS, 1)]),
    },
    Merge {
        shows: "the client's cell is taken",
        bodies: (PUBLISHER_CELLS, INCOMING_CELLS),
        choice: Choice::Take,
        knows: OURS,
        becomes: Given::Live(&[(THEIRS, 1), (OURS, 0), (THEIRS, 1)]),
    },
    Merge {
        shows: "a decided value is a change",
        bodies: (PUBLISHER_CELLS, INCOMING_CELLS),
        choice: Choice::Nine,
        knows: NEXT,
        becomes: Given::Live(&[(NEXT, 9), (OURS, 0), (THEIRS, 1)]),
    },
    Merge {
        shows: "nothing new comes in",
        bodies: (
            Given::Live(&[(OURS, 0), (OLD, 0)]),
            Given::Live(&[(OLD, 1), (OLD, 1)]),
        ),
        choice: Choice::Keep,
        knows: OURS,
        becomes: Given::Live(&[(OURS, 0), (OLD, 0)]),
    },
    Merge {
        shows: "all that is new comes in",
        bodies: (
            Given::Live(&[(OLD, 0), (OLD, 0)]),
            Given::Live(&[(OLD, 1), (THEIRS, 1)]),
        ),
        choice: Choice::Keep,
        knows: OURS,
        becomes: Given::Live(&[(OLD, 1), (THEIRS, 1)]),
    },
    Merge {
        shows: "each side has a new cell",
        bodies: (
            Given::Live(&[(OURS, 0), (OLD, 0)]),
            Given::Live(&[(OLD, 1), (THEIRS, 1)]),
        ),
        choice: Choice::Keep,
        knows: OURS,
        becomes: Given::Live(&[(OURS, 0), (THEIRS, 1)]),
    },
    Merge {
        shows: "one cell conflicts, and no other is new",
        bodies: (
            Given::Live(&[(OURS, 0), (OLD, 0)]),
            Given::Live(&[(THEIRS, 1), (OLD, 1)]),
        ),
        choice: Choice::Keep,
        knows: OURS,
        becomes: Given::Live(&[(OURS, 0), (OLD, 0)]),
    },
    Merge {
        shows: "of two deletes the publisher's stays",
        bodies: (Given::Dead(OURS), Given::Dead(THEIRS)),
        choice: Choice::Keep,
        knows: OURS,
        becomes: Given::Dead(OURS),
    },
    Merge {
        shows: "an update stays against a delete",
        bodies: (Given::Live(&[(OURS, 0)]), Given::Dead(THEIRS)),
        choice: Choice::Keep,
        knows: OURS,
        becomes: Given::Live(&[(OURS, 0)]),
    },
    Merge {
        shows: "a delete is taken for an update",
        bodies: (Given::Live(&[(OURS, 0)]), Given::Dead(THEIRS)),
        choice: Choice::Take,
        knows: OURS,
        becomes: Given::Dead(THEIRS),
    },
];

// Whether the bodies become so, by both calls, and by a copy of the decision.
fn is_merged(alloc: Global, merge: &Merge) -> Result<bool, Fail> {
    let publisher = ours(alloc, merge.bodies.0)?;
    let incoming = theirs(alloc, merge.bodies.1)?;
    let choice = decision(alloc, merge.choice)?;
    let decided = decide(alloc, &publisher, &incoming, &choice)?;
    let settled = settle(alloc, &publisher, &incoming, &choice.clone()?)?;
    let known = [merge.knows, THEIRS];
    Ok(is_version(&decided, &known, merge.becomes) && is_version(&settled, &known, merge.becomes))
}

#[test]
fn each_merge_has_its_cells(rt: HostRuntime) -> Result<(), Fail> {
    for merge in MERGES {
        let shows = merge.shows;
        assert!(rt; is_merged(rt.alloc(), merge)?, "{shows}");
    }
    Ok(())
}

fn pair(alloc: Global, first: i64, second: Value) -> Result<Values, Fail> {
    let mut values = one_value(alloc, Value::Int(first))?;
    values.push(second)?;
    Ok(values)
}

// Whether a version has one cell with two numbers, which this change set last.
fn is_row(version: &Version, top: Dot, numbers: (i64, i64)) -> bool {
    match &version.body {
        Body::Live(cells) => match cells.as_slice() {
            [cell] => cell.top == top && are_pair(cell.values.as_slice(), numbers),
            _ => false,
        },
        Body::Dead(_) => false,
    }
}

fn are_pair(values: &[Value], numbers: (i64, i64)) -> bool {
    match values {
        [Value::Int(first), Value::Int(second)] => (*first, *second) == numbers,
        _ => false,
    }
}

#[test]
fn an_insert_has_its_change_as_top(rt: HostRuntime) -> Result<(), Fail> {
    let alloc = rt.alloc();
    let values = pair(alloc, 4, Value::Int(5))?;
    let columns = insert(alloc, NEXT, values.clone()?, Tracking::ByColumn)?;
    let wanted = Given::Live(&[(NEXT, 4), (NEXT, 5)]);
    assert!(rt; is_version(&columns, &[NEXT], wanted));
    let row = insert(alloc, NEXT, values, Tracking::Row)?;
    assert!(rt; is_row(&row, NEXT, (4, 5)));
    Ok(())
}

fn setting(column: u8, number: i64) -> Setting {
    Setting {
        column,
        value: Value::Int(number),
    }
}

// What becomes of a row with these cells, at the publisher, by the next change.
fn update(
    alloc: Global,
    cells: Cells,
    edits: &[Setting],
    tracking: Tracking,
) -> Result<Version, Fail> {
    let lineage = lineage(alloc, &[OURS])?;
    if !can_change(cells.as_slice(), edits, tracking) || lineage.knows(NEXT) {
        return Err(Fail::from("the edits cannot come"));
    }
    let body = Body::Live(cells);
    let version = Version { lineage, body };
    Ok(change(alloc, &version, NEXT, edits, tracking)?)
}

#[test]
fn an_update_sets_its_columns(rt: HostRuntime) -> Result<(), Fail> {
    let alloc = rt.alloc();
    let cells = numbers(alloc, &[(OURS, 4), (OLD, 4), (OLD, 4)])?;
    let edits = [setting(0, 4), setting(2, 5)];
    let after = update(alloc, cells, &edits, Tracking::ByColumn)?;
    let wanted = Given::Live(&[(NEXT, 4), (OLD, 4), (NEXT, 5)]);
    assert!(rt; is_version(&after, &[NEXT], wanted));
    Ok(())
}

// A row with a number, which has 9 bytes, and a Null, which has 1.
fn row_cells(alloc: Global) -> Result<Cells, Fail> {
    let values = pair(alloc, 4, Value::Null)?;
    let mut cells = Cells::empty(alloc);
    cells.push(Cell { top: OLD, values })?;
    Ok(cells)
}

#[test]
fn with_row_tracking_one_cell_has_all(rt: HostRuntime) -> Result<(), Fail> {
    let cells = row_cells(rt.alloc())?;
    same(&rt, &stored_length(cells.as_slice()), &10);
    assert!(rt; fits_tracking(cells.as_slice(), Tracking::Row));
    let after = update(rt.alloc(), cells, &[setting(1, 7)], Tracking::Row)?;
    assert!(rt; is_row(&after, NEXT, (4, 7)));
    Ok(())
}

#[test]
fn a_delete_leaves_its_change(rt: HostRuntime) -> Result<(), Fail> {
    let version = ours(rt.alloc(), Given::Live(&[(OURS, 0)]))?;
    assert!(rt; version.is_live());
    assert!(rt; !version.lineage.knows(NEXT));
    let after = remove(&version, NEXT)?;
    assert!(rt; is_version(&after, &[NEXT], Given::Dead(NEXT)));
    Ok(())
}
