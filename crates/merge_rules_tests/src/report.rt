//! Answers of a publication with the articles `item` and `tag`.
ghost use Rattle.std.specs.Prelude.{IfOk};
ghost use Rattle.merge_model.specs.Script.Proper.{AreProper, IsProperAnswer, IsProperBody};

use crate::same::same;
use merge_batch::Refusal;
use merge_conflict::{ConflictKind, ConflictRow, Verdict};
use merge_gens::{Filling, Marks, SiteState};
use merge_ident::{Grant, Range, Ranges};
use merge_lineage::Lineage;
use merge_model::{Answer, HeldRanges, ShownRow, SiteStanding};
use merge_report::{text_of, texts_of};
use merge_schema::{Article, Publication};
use merge_types::{
    Column, ColumnType, Dot, Listing, Moment, RowId, RowKey, SiteId, Tracking, Value, Values, Words,
};
use merge_units::{Body, Cell, Cells, Version};
use std::alloc::Global;
use std::test::Fail;

const ONE: SiteId = SiteId(1);

// The row that the publisher's first change made.
const ROW: RowId = RowId(0x8000_8000_0000_0000_0001);

fn article(alloc: Global, name: &str, column: &str) -> Result<Article, Fail> {
    let mut columns = Listing::empty(alloc);
    columns.push(Column {
        name: Words::of(alloc, column)?,
        ty: ColumnType::Int,
    })?;
    Ok(Article {
        name: Words::of(alloc, name)?,
        columns,
        tracking: Tracking::Row,
        filter: None,
        joins: Listing::empty(alloc),
        identity: None,
        resolver: 0,
        resolver_column: None,
    })
}

fn publication(alloc: Global) -> Result<Publication, Fail> {
    let mut articles = Listing::empty(alloc);
    articles.push(article(alloc, "item", "quantity")?)?;
    articles.push(article(alloc, "tag", "label")?)?;
    Ok(Publication {
        name: Words::of(alloc, "shop")?,
        retention_days: 14,
        conflict_retention_days: 14,
        articles,
        subscriptions: Listing::empty(alloc),
    })
}

// Whether an answer has this text.
fn says(alloc: Global, answer: &Answer, text: &str) -> Result<bool, Fail>
    requires { IsProperAnswer answer.now }
{
    let publication = publication(alloc)?;
    Ok(text_of(alloc, &publication, answer)?.as_str() == text)
}

// Answers that hold no list and no name, by a number for each.
fn answer(number: u8) -> Answer
    ensures { IsProperAnswer result }
{
    match number {
        0 => Answer::Now(60),
        1 => Answer::RowMade(ROW),
        2 => Answer::ClosedAt(2),
        3 => Answer::Discarded(3),
        4 => Answer::Purged {
            tombstones: 1,
            mappings: 2,
            generations: 3,
        },
        5 => Answer::Sent(4),
        6 => Answer::Nothing,
        7 => Answer::NoMessage(9),
        8 => Answer::Applied,
        9 => Answer::Ignored {
            seq: 3,
            outstanding: 0,
        },
        10 => Answer::Done {
            uploads: 1,
            downloads: 2,
            watermark: 7,
        },
        _ => Answer::Fine,
    }
}

const ANSWERS: &[(u8, &str)] = &[
    (0, "now 60\n"),
    (1, "row 00000000-0000-8000-8000-000000000001\n"),
    (2, "closed 2\n"),
    (3, "discarded 3\n"),
    (4, "purged 1 2 3\n"),
    (5, "message 4\n"),
    (6, "nothing\n"),
    (7, "no message 9\n"),
    (8, "applied\n"),
    (9, "ignored 3 0\n"),
    (10, "done 1 2 7\n"),
    (11, "ok\n"),
];

#[test]
fn answers(rt: HostRuntime) -> Result<(), Fail> {
    for (number, text) in ANSWERS {
        assert!(rt; says(rt.alloc(), &answer(*number), text)?, "{text}");
    }
    Ok(())
}

// A refusal of a change of the second article.
fn of_change(refusal: Refusal) -> Answer
    ensures { IsProperAnswer result }
{
    Answer::RefusedIn {
        article: 1,
        refusal,
    }
}

fn refusal(number: u8) -> Answer
    ensures { IsProperAnswer result }
{
    match number {
        0 => Answer::Refused(Refusal::UnknownSite { site: ONE }),
        1 => of_change(Refusal::WrongType { column: 0 }),
        2 => of_change(Refusal::IdentityUsedUp { end: 20 }),
        3 => Answer::Stopped {
            uploads: 1,
            downloads: 0,
            refusal: Refusal::Gap {
                from: 3,
                received: 2,
            },
        },
        _ => of_change(Refusal::NoMemory),
    }
}

const REFUSALS: &[(u8, &str)] = &[
    (0, "refused 1 unknown site 1\n"),
    (1, "refused 9 wrong type label\n"),
    (2, "refused 11 identity used up 20\n"),
    (3, "stopped 1 0 refused 4 gap 3 2\n"),
    (4, "no memory\n"),
];

#[test]
fn refusals(rt: HostRuntime) -> Result<(), Fail> {
    for (number, text) in REFUSALS {
        assert!(rt; says(rt.alloc(), &refusal(*number), text)?, "{text}");
    }
    Ok(())
}

#[test]
fn a_refusal_of_a_name(rt: HostRuntime) -> Result<(), Fail> {
    let name = Words::of(rt.alloc(), "size")?;
    let answer = of_change(Refusal::UnknownName { name });
    assert!(rt; says(rt.alloc(), &answer, "refused 18 name size\n")?);
    Ok(())
}

fn shown(alloc: Global, number: i64) -> Result<ShownRow, Fail>
    ensures { IfOk result (λ row. AreProper row.values) }
{
    let mut values = Values::empty(alloc);
    values.push(Value::Int(number))?;
    values.push(Value::Null)?;
    Ok(ShownRow { row: ROW, values })
}

#[test]
fn rows(rt: HostRuntime) -> Result<(), Fail> {
    let alloc = rt.alloc();
    let mut rows = Listing::empty(alloc);
    rows.push(shown(alloc, -7)?)?;
    let text = "00000000-0000-8000-8000-000000000001 -7 null\nrows 1\n";
    assert!(rt; says(alloc, &Answer::Rows(rows), text)?);
    Ok(())
}

#[test]
fn partitions(rt: HostRuntime) -> Result<(), Fail> {
    let key = RowKey {
        article: 1,
        row: ROW,
    };
    let keys = Listing::new([key].to_vec(rt.alloc())?);
    let text = "tag 00000000-0000-8000-8000-000000000001\nrows 1\n";
    assert!(rt; says(rt.alloc(), &Answer::Partition(keys), text)?);
    Ok(())
}

#[test]
fn counts(rt: HostRuntime) -> Result<(), Fail> {
    let counts = Listing::new([3, 0].to_vec(rt.alloc())?);
    assert!(rt; says(rt.alloc(), &Answer::Counts(counts), "item 3\ntag 0\n")?);
    Ok(())
}

fn lost(alloc: Global, number: u64, body: Body) -> Result<ConflictRow, Fail>
    requires { IsProperBody body }
    ensures { IfOk result (λ row. IsProperBody row.losing.body) }
{
    Ok(ConflictRow {
        number,
        article: 0,
        row: ROW,
        kind: ConflictKind::DeleteWins,
        losing: Version {
            lineage: Lineage::new(alloc),
            body,
        },
        from: ONE,
        verdict: Verdict::Publisher,
        moment: Moment(60),
    })
}

fn live(alloc: Global) -> Result<Body, Fail>
    ensures { IfOk result IsProperBody }
{
    let mut cells = Cells::empty(alloc);
    cells.push(Cell {
        top: Dot {
            site: ONE,
            number: 2,
        },
        values: shown(alloc, 5)?.values,
    })?;
    Ok(Body::Live(cells))
}

#[test]
fn conflicts(rt: HostRuntime) -> Result<(), Fail> {
    let alloc = rt.alloc();
    let mut rows = Listing::empty(alloc);
    rows.push(lost(alloc, 1, live(alloc)?)?)?;
    let dead = Body::Dead(Dot {
        site: ONE,
        number: 3,
    });
    rows.push(lost(alloc, 2, dead)?)?;
    let text = "1 item 00000000-0000-8000-8000-000000000001 3 1 publisher 60 live 5 null\n\
                2 item 00000000-0000-8000-8000-000000000001 3 1 publisher 60 dead\n\
                conflicts 2\n";
    assert!(rt; says(alloc, &Answer::Conflicts(rows), text)?);
    Ok(())
}

const RANGE: Range = Range { begin: 11, end: 20 };

#[test]
fn grants(rt: HostRuntime) -> Result<(), Fail> {
    let grant = Grant {
        article: 0,
        site: ONE,
        number: 1,
        range: RANGE,
    };
    let grants = Listing::new([grant].to_vec(rt.alloc())?);
    let text = "item 1 1 11 20\nranges 1\n";
    assert!(rt; says(rt.alloc(), &Answer::Grants(grants), text)?);
    Ok(())
}

#[test]
fn held_ranges(rt: HostRuntime) -> Result<(), Fail> {
    let mut ranges = Ranges::new(80);
    ranges.receive(1, RANGE);
    let mut holders = Listing::empty(rt.alloc());
    holders.push(HeldRanges { article: 0, ranges })?;
    let text = "item 1 11 20 - -\nranges 1\n";
    assert!(rt; says(rt.alloc(), &Answer::Held(holders), text)?);
    Ok(())
}

const JOINED: SiteStanding = SiteStanding {
    site: ONE,
    state: Some(SiteState {
        joined_at: 1,
        received: 2,
        received_number: 3,
        seen: 4,
        watermark: 5,
        last_sync: 60,
    }),
};

const FRESH: SiteStanding = SiteStanding {
    site: SiteId(2),
    state: None,
};

#[test]
fn generations_of_the_publisher(rt: HostRuntime) -> Result<(), Fail> {
    let answer = Answer::OfPublisher {
        filling: Filling {
            last_closed: 7,
            filled: 8,
        },
        kept: 6,
        sites: Listing::new([JOINED, FRESH].to_vec(rt.alloc())?),
    };
    let text = "closed 7 open 8 kept 6\n\
                1 joined 1 received 2 number 3 watermark 5 synced 60\n\
                2 fresh\n";
    assert!(rt; says(rt.alloc(), &answer, text)?);
    Ok(())
}

#[test]
fn generations_of_a_subscriber(rt: HostRuntime) -> Result<(), Fail> {
    let answer = Answer::OfSubscriber {
        marks: Marks {
            closed: 1,
            filled: 2,
            received: 3,
            watermark: 4,
            seq: 5,
            outstanding: 6,
        },
        unsent: 7,
    };
    let text = "closed 1 open 2 received 3 watermark 4 seq 5 outstanding 6 unsent 7\n";
    assert!(rt; says(rt.alloc(), &answer, text)?);
    Ok(())
}

#[test]
fn all_answers(rt: HostRuntime) -> Result<(), Fail> {
    let alloc = rt.alloc();
    let answers = [Answer::Fine, Answer::Sent(1)];
    let text = texts_of(alloc, &publication(alloc)?, answers.as_slice())?;
    same(&rt, &text.as_str(), &"ok\nmessage 1\n");
    Ok(())
}
