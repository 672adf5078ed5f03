//! What each rule decides on a few cases, and an object of the tests' own that is asked in turn.
ghost use Rattle.std.specs.Prelude.{◌≡◌, ◌≤◌, IfOk, length};
ghost use Rattle.merge_resolve.specs.Questions.{sides_of_case};

use crate::same::{same, same_in};
use merge_lineage::Lineage;
use merge_resolve::{
    Additive, CaseKind, ConflictCase, Handed, Maximum, Meeting, Minimum, Places, Priority,
    Question, Resolver, ResolverChoice, SubscriberWins, ask_at, counted_decision,
    incoming_priority, publisher_priority,
};
use merge_schema::{Article, Publication, Subscription, SubscriptionKind, Tracking};
use merge_types::{
    Column, ColumnType, Dot, HostName, Listing, Moment, NoMemory, RowId, SiteId, Value, Values,
    Words,
};
use merge_units::{Body, Case, Cell, Cells, Decision, Side, Sides, Version};
use std::alloc::Global;
use std::test::Fail;

const DOT: Dot = Dot {
    site: SiteId(1),
    number: 1,
};

// A value that stands in a table.
#[derive(Clone, Copy)]
enum Given {
    Null,
    Int(i64),
    Day(i32),
    Guid(u128),
}

impl Given {
    fn value(self) -> Value {
        match self {
            Given::Null => Value::Null,
            Given::Int(number) => Value::Int(number),
            Given::Day(day) => Value::Day(day),
            Given::Guid(identifier) => Value::Guid(identifier),
        }
    }
}

// A conflict in the values of the resolver's column, whether the incoming priority is the greater
// one, and what the greatest value, the smallest value and the sum decide.
#[derive(Clone, Copy)]
struct Sample {
    shows: &'static str,
    kind: CaseKind,
    values: (Given, Given),
    higher: bool,
    rules: (Expected, Expected, Expected),
}

#[derive(Clone, Copy)]
enum Expected {
    Keep,
    Take,
    Sum(Given),
}

// A conflict of 1 at the publisher with 2 in one column, at equal priorities.
const PLAIN: Sample = Sample {
    shows: "a greater value comes in to one column",
    kind: CaseKind::ByColumn,
    values: (Given::Int(1), Given::Int(2)),
    higher: false,
    rules: (Expected::Take, Expected::Keep, Expected::Sum(Given::Int(3))),
};

fn cell(alloc: Global, values: &[Given]) -> Result<Cell, Fail> {
    let mut copies = Values::empty(alloc);
    for value in values {
        copies.push(value.value())?;
    }
    Ok(Cell {
        top: DOT,
        values: copies,
    })
}

// With row tracking one cell, with column tracking two.
fn body(alloc: Global, kind: CaseKind, first: Given, second: Given) -> Result<Body, Fail> {
    let mut cells = Cells::empty(alloc);
    if kind == CaseKind::ByRow {
        cells.push(cell(alloc, &[first, second])?)?;
    } else {
        cells.push(cell(alloc, &[first])?)?;
        cells.push(cell(alloc, &[second])?)?;
    }
    Ok(Body::Live(cells))
}

// What comes in: of an update and a delete the delete.
fn incoming(alloc: Global, sample: &Sample) -> Result<Body, Fail> {
    if sample.kind == CaseKind::Delete {
        Ok(Body::Dead(DOT))
    } else {
        body(alloc, sample.kind, sample.values.1, Given::Int(2))
    }
}

fn case(alloc: Global, sample: &Sample) -> Result<ConflictCase, Fail> {
    let mut cells = Places::empty(alloc);
    cells.push(0)?;
    Ok(ConflictCase {
        article: 0,
        row: RowId(1),
        kind: sample.kind,
        site: SiteId(7),
        publisher: body(alloc, sample.kind, sample.values.0, Given::Int(1))?,
        incoming: incoming(alloc, sample)?,
        cells,
        publisher_priority: 5,
        incoming_priority: if sample.higher { 6 } else { 5 },
        column: Some(0),
        moment: Moment(9),
    })
}

// A sum stands first, and with row tracking the other column of the side that wins by priority
// behind it.
fn is_sum(values: &[Value], sum: Given, sample: &Sample) -> bool {
    let other = Value::Int(if sample.higher { 2 } else { 1 });
    let sum = sum.value();
    match values {
        [first] => sample.kind == CaseKind::ByColumn && *first == sum,
        [first, second] => sample.kind == CaseKind::ByRow && *first == sum && *second == other,
        _ => false,
    }
}

fn is_expected(decision: &Decision, expected: Expected, sample: &Sample) -> bool {
    match (decision, expected) {
        (Decision::KeepPublisher, Expected::Keep) => true,
        (Decision::TakeSubscriber, Expected::Take) => true,
        (Decision::Custom(values), Expected::Sum(sum)) => is_sum(values.as_slice(), sum, sample),
        _ => false,
    }
}

const SAMPLES: &[Sample] = &[
    PLAIN,
    Sample {
        shows: "a greater value comes in to a row",
        kind: CaseKind::ByRow,
        values: (Given::Int(1), Given::Int(5)),
        higher: false,
        rules: (Expected::Take, Expected::Keep, Expected::Sum(Given::Int(6))),
    },
    Sample {
        shows: "a smaller value comes in with the greater priority",
        kind: CaseKind::ByRow,
        values: (Given::Int(5), Given::Int(1)),
        higher: true,
        rules: (Expected::Keep, Expected::Take, Expected::Sum(Given::Int(6))),
    },
    Sample {
        shows: "equal values stay",
        kind: CaseKind::ByColumn,
        values: (Given::Int(5), Given::Int(5)),
        higher: true,
        rules: (
            Expected::Keep,
            Expected::Keep,
            Expected::Sum(Given::Int(10)),
        ),
    },
    Sample {
        shows: "a value comes to a Null",
        kind: CaseKind::ByColumn,
        values: (Given::Null, Given::Int(5)),
        higher: false,
        rules: (Expected::Take, Expected::Take, Expected::Sum(Given::Int(5))),
    },
    Sample {
        shows: "a Null comes to a value",
        kind: CaseKind::ByRow,
        values: (Given::Int(5), Given::Null),
        higher: true,
        rules: (Expected::Keep, Expected::Keep, Expected::Sum(Given::Int(5))),
    },
    Sample {
        shows: "a Null comes to a Null",
        kind: CaseKind::ByColumn,
        values: (Given::Null, Given::Null),
        higher: true,
        rules: (Expected::Keep, Expected::Keep, Expected::Sum(Given::Null)),
    },
    Sample {
        shows: "days are compared and have no sum",
        kind: CaseKind::ByColumn,
        values: (Given::Day(3), Given::Day(9)),
        higher: false,
        rules: (Expected::Take, Expected::Keep, Expected::Keep),
    },
    Sample {
        shows: "values of two types are decided by priority",
        kind: CaseKind::ByColumn,
        values: (Given::Int(3), Given::Day(9)),
        higher: true,
        rules: (Expected::Take, Expected::Take, Expected::Take),
    },
    Sample {
        shows: "identifiers are decided by priority",
        kind: CaseKind::ByRow,
        values: (Given::Guid(1), Given::Guid(2)),
        higher: false,
        rules: (Expected::Keep, Expected::Keep, Expected::Keep),
    },
    Sample {
        shows: "a sum above the numbers is decided by priority",
        kind: CaseKind::ByRow,
        values: (Given::Int(i64::MAX), Given::Int(1)),
        higher: true,
        rules: (Expected::Keep, Expected::Take, Expected::Take),
    },
    Sample {
        shows: "a sum below the numbers is decided by priority",
        kind: CaseKind::ByColumn,
        values: (Given::Int(i64::MIN), Given::Int(-1)),
        higher: false,
        rules: (Expected::Take, Expected::Keep, Expected::Keep),
    },
    Sample {
        shows: "a delete with the greater priority comes in",
        kind: CaseKind::Delete,
        values: (Given::Int(1), Given::Int(5)),
        higher: true,
        rules: (Expected::Take, Expected::Take, Expected::Take),
    },
    Sample {
        shows: "a delete with an equal priority stays out",
        kind: CaseKind::Delete,
        values: (Given::Int(1), Given::Int(5)),
        higher: false,
        rules: (Expected::Keep, Expected::Keep, Expected::Keep),
    },
];

// Whether a rule decides the sample so.
fn decides<R: Resolver>(
    alloc: Global,
    mut rule: R,
    sample: &Sample,
    expected: Expected,
) -> Result<bool, Fail> {
    let asked = case(alloc, sample)?;
    let decision = rule.decide(alloc, &asked)?;
    Ok(is_expected(&decision, expected, sample))
}

#[test]
fn the_greatest_and_the_smallest_value_and_the_sum_decide(rt: HostRuntime) -> Result<(), Fail> {
    let alloc = rt.alloc();
    for sample in SAMPLES {
        let (maximum, minimum, additive) = sample.rules;
        let shows = sample.shows;
        assert!(rt; decides(alloc, Maximum::new(), sample, maximum)?, "{shows}");
        assert!(rt; decides(alloc, Minimum::new(), sample, minimum)?, "{shows}");
        assert!(rt;
            decides(alloc, Additive::new(), sample, additive)?,
            "{shows}"
        );
    }
    Ok(())
}

#[test]
fn the_priority_and_the_subscriber_decide(rt: HostRuntime) -> Result<(), Fail> {
    let alloc = rt.alloc();
    for sample in SAMPLES {
        let by_priority = if sample.higher {
            Expected::Take
        } else {
            Expected::Keep
        };
        let shows = sample.shows;
        assert!(rt;
            decides(alloc, Priority::new(), sample, by_priority)?,
            "{shows}"
        );
        assert!(rt;
            decides(alloc, SubscriberWins::new(), sample, Expected::Take)?,
            "{shows}"
        );
    }
    Ok(())
}

// Keeps the publisher's at its first question, and takes the subscriber's from then on.
#[derive(Debug, Drop)]
struct Turncoat {
    asked: u64,
}

impl Resolver for Turncoat {
    ghost use Rattle.std.specs.Prelude.{nat_lt};
    ghost use Rattle.merge_resolve.specs.Rules.{take_if};

    ghost says = { λ it n asked. take_if (nat_lt 0 n) };

    ghost tally_of = { λ it. it.asked };

    fn decide(&mut self, _alloc: Global, _case: &ConflictCase) -> Result<Decision, NoMemory> {
        let decision = if self.asked > 0 {
            Decision::TakeSubscriber
        } else {
            Decision::KeepPublisher
        };
        self.asked = self.asked.saturating_add(1);
        Ok(decision)
    }

    fn tally(&self) -> u64 {
        self.asked
    }
}

// Priority, and behind it the one that changes its mind.
fn handed(alloc: Global) -> Result<Vec<Handed>, Fail> {
    let mut resolvers: Vec<Handed> = Vec::new(alloc);
    resolvers.push(Box::new(alloc, Priority::new())?)?;
    resolvers.push(Box::new(alloc, Turncoat { asked: 0 })?)?;
    Ok(resolvers)
}

// Whether the one question at this place is answered so.
fn is_told(
    alloc: Global,
    resolvers: &mut Vec<Handed>,
    place: u8,
    told: Expected,
) -> Result<bool, Fail> {
    if place as usize >= resolvers.len() {
        return Ok(false);
    }
    let asked = case(alloc, &PLAIN)?;
    let decision = ask_at(alloc, resolvers, place as usize, &asked)?;
    Ok(is_expected(&decision, told, &PLAIN))
}

const TURNS: &[(u8, Expected)] = &[
    (1, Expected::Keep),
    (0, Expected::Keep),
    (1, Expected::Take),
];

#[test]
fn asks_in_turn(rt: HostRuntime) -> Result<(), Fail> {
    let mut resolvers = handed(rt.alloc())?;
    for (place, told) in TURNS {
        assert!(rt; is_told(rt.alloc(), &mut resolvers, *place, *told)?);
    }
    let tallies = match resolvers.as_slice() {
        [first, second] => Some((first.tally(), second.tally())),
        _ => None,
    };
    same(&rt, &tallies, &Some((1, 2)));
    Ok(())
}

// What a list of so many values, each of them 42, counts as where both sides changed the first of
// two columns, with this identity column.
fn is_counted(
    alloc: Global,
    count: u8,
    identity: Option<u8>,
    told: Expected,
) -> Result<bool, Fail> {
    let asked = case(alloc, &PLAIN)?;
    let mut values = Values::empty(alloc);
    for _ in 0..count {
        values.push(Value::Int(42))?;
    }
    let decision = Decision::Custom(values);
    let types = [ColumnType::Int, ColumnType::Int];
    let sides = [Side::Both, Side::Neither];
    let counted = counted_decision(alloc, &types, identity, &sides, &asked, decision)?;
    Ok(is_expected(&counted, told, &PLAIN))
}

const LISTS: &[(&str, u8, Option<u8>, Expected)] = &[
    ("one value", 1, None, Expected::Sum(Given::Int(42))),
    (
        "a value of an identity column",
        1,
        Some(0),
        Expected::Sum(Given::Int(1)),
    ),
    ("a value too many", 2, None, Expected::Keep),
];

#[test]
fn lists_count_where_they_fit(rt: HostRuntime) -> Result<(), Fail> {
    for (shows, count, identity, told) in LISTS {
        assert!(rt;
            is_counted(rt.alloc(), *count, *identity, *told)?,
            "{shows}"
        );
    }
    Ok(())
}

fn article(alloc: Global) -> Result<Article, Fail> {
    let mut columns = Listing::empty(alloc);
    for name in ["id", "total"] {
        columns.push(Column {
            name: Words::of(alloc, name)?,
            ty: ColumnType::Int,
        })?;
    }
    Ok(Article {
        name: Words::of(alloc, "orders")?,
        columns,
        tracking: Tracking::ByColumn,
        filter: None,
        joins: Listing::empty(alloc),
        identity: None,
        resolver: ResolverChoice::Additive.place(),
        resolver_column: Some(1),
    })
}

// A version that no site has changed.
fn version(alloc: Global, body: Body) -> Version {
    Version {
        lineage: Lineage::new(alloc),
        body,
    }
}

// Both sides changed the second of two cells.
fn one_conflict(alloc: Global) -> Result<Case, Fail>
    ensures { IfOk result (λ case. length (sides_of_case case) ≤ 256) }
{
    let mut sides = Sides::empty(alloc);
    sides.push(Side::Neither)?;
    sides.push(Side::Both)?;
    Ok(Case::Conflict(sides))
}

// What is asked of the article's resolver where the two versions conflict so.
fn asked(alloc: Global, conflict: &Case) -> Result<Question, Fail>
    requires { length (sides_of_case conflict.now) ≤ 256 }
{
    let meeting = Meeting {
        article: 0,
        row: RowId(1),
        site: SiteId(7),
        publisher_priority: 5,
        incoming_priority: 6,
        moment: Moment(9),
    };
    let article = article(alloc)?;
    let publisher = version(
        alloc,
        body(alloc, CaseKind::ByColumn, Given::Int(1), Given::Int(1))?,
    );
    let incoming = version(
        alloc,
        body(alloc, CaseKind::ByColumn, Given::Int(2), Given::Int(2))?,
    );
    Ok(meeting.question(alloc, &article, &publisher, &incoming, conflict)?)
}

#[test]
fn a_question_is_built_from_its_article(rt: HostRuntime) -> Result<(), Fail> {
    let conflict = one_conflict(rt.alloc())?;
    let question = asked(rt.alloc(), &conflict)?;
    let types = [ColumnType::Int, ColumnType::Int];
    for (holds, what) in [
        (
            question.place == ResolverChoice::Additive.place(),
            "the resolver of the article",
        ),
        (question.case.kind == CaseKind::ByColumn, "its tracking"),
        (
            question.case.cells.as_slice() == [1].as_slice(),
            "the cell that both changed",
        ),
        (
            question.sides.as_slice() == [Side::Neither, Side::Both].as_slice(),
            "the sides",
        ),
        (
            question.types.as_slice() == types.as_slice(),
            "the types of its columns",
        ),
    ] {
        assert!(rt; holds, "{what}");
    }
    Ok(())
}

#[test]
fn a_question_of_a_delete_names_no_cell(rt: HostRuntime) -> Result<(), Fail> {
    let question = asked(rt.alloc(), &Case::LifeConflict)?;
    same(&rt, &question.case.kind, &CaseKind::Delete);
    same(&rt, &question.case.cells.len(), &0);
    Ok(())
}

fn subscription(
    alloc: Global,
    site: u16,
    kind: SubscriptionKind,
    priority: u16,
) -> Result<Subscription, Fail> {
    Ok(Subscription {
        site: SiteId(site),
        host: HostName(Words::of(alloc, "host")?),
        kind,
        priority,
    })
}

// Site 1 is a client, and site 2 a server.
fn publication(alloc: Global) -> Result<Publication, Fail> {
    let mut subscriptions = Listing::empty(alloc);
    subscriptions.push(subscription(alloc, 1, SubscriptionKind::Client, 0)?)?;
    subscriptions.push(subscription(alloc, 2, SubscriptionKind::Server, 300)?)?;
    Ok(Publication {
        name: Words::of(alloc, "sales")?,
        retention_days: 14,
        conflict_retention_days: 14,
        articles: Listing::empty(alloc),
        subscriptions,
    })
}

// The priorities of the publisher's version, which the site deleted: beside a version that does not
// know the delete, and beside one that does.
fn priorities(alloc: Global, publication: &Publication, site: SiteId) -> Result<(u16, u16), Fail> {
    let top = Dot { site, number: 1 };
    let publisher = version(alloc, Body::Dead(top));
    let mut incoming = version(alloc, Body::Dead(top));
    let before = publisher_priority(publication, &publisher, &incoming);
    if incoming.lineage.knows(top) {
        return Err(Fail::from("a version that no site has changed knows a change"));
    }
    incoming.lineage = incoming.lineage.advance(top)?;
    let after = publisher_priority(publication, &publisher, &incoming);
    Ok((before, after))
}

// A change that the incoming version knows has no weight.
#[test]
fn priorities_of_both_sides(rt: HostRuntime) -> Result<(), Fail> {
    let publication = publication(rt.alloc())?;
    same(&rt, &incoming_priority(&publication, SiteId(1)), &0);
    same(&rt, &incoming_priority(&publication, SiteId(2)), &300);
    for (site, weight) in [(0, 10000), (1, 10000), (2, 300)] {
        let told = priorities(rt.alloc(), &publication, SiteId(site))?;
        same_in(&rt, &told, &(weight, 0), &site);
    }
    Ok(())
}
