//! Changes of a publication with an article that has an identity column, and one by column.
ghost use Rattle.std.specs.Prelude.{◌≡◌, ◌≤◌, IfOk, IsTrue, ℕ, true, None, Some};
ghost use Rattle.merge_schema.specs.Valid.{IsValid};
ghost use Rattle.merge_units.specs.Changes.{ColumnsAscend};
ghost use Rattle.merge_batch.specs.Articles.{has_article};
ghost use Rattle.merge_batch.specs.LocalChanges.{article_of, settings_of};
ghost use Rattle.merge_change.specs.Allowed.{CanBeAsked, FitsHeld};

use crate::same::same;
use merge_batch::Refusal;
use merge_change::{Making, check_change, check_counters, key_of, version_after};
use merge_schema::{Publication, read};
use merge_types::{
    Change, Dot, Listing, NoMemory, RowId, RowKey, Setting, Settings, SiteId, Value, Words,
};
use merge_units::{Body, Version};
use std::alloc::Global;
use std::test::Fail;

const TICKET: u8 = 0;

const ITEM: u8 = 1;

const PUBLICATION: &str = r#"name = "p"
article = [{ name = "ticket", column = [{ name = "no", type = "int", identity = { range = 10, pub_range = 10 } }, { name = "note", type = "text" }] }, { name = "item", tracking = "column", column = [{ name = "qty", type = "int" }, { name = "note", type = "text" }] }]
subscription = [{ site = 1, host = "h" }]
"#;

// The place of the change's article.
fn article_of(change: &Change) -> u8
    ensures { result ≡ article_of change.now }
{
    match change {
        Change::Insert { article, .. } => *article,
        Change::Update { article, .. } => *article,
        Change::Delete { article, .. } => *article,
    }
}

// The columns that the change sets.
fn settings_of(change: &Change) -> &[Setting]
    ensures { result.now ≡ settings_of change.now }
{
    match change {
        Change::Insert { values, .. } => values.as_slice(),
        Change::Update { values, .. } => values.as_slice(),
        Change::Delete { .. } => &[],
    }
}

// Whether a change may be asked for: its article exists, and it sets one column at most.
fn can_be_asked(publication: &Publication, change: &Change) -> bool
    ensures place { IsTrue result → has_article publication.now (article_of change.now) ≡ true }
    ensures ascend { IsTrue result → ColumnsAscend (settings_of change.now) }
{
    publication.article_at(article_of(change)).is_some() && settings_of(change).len() <= 1
}

fn setting(alloc: Global, column: u8, value: Value) -> Result<Settings, NoMemory> {
    let mut settings = Listing::empty(alloc);
    settings.push(Setting { column, value })?;
    Ok(settings)
}

// An insert that sets one column.
fn insert(alloc: Global, article: u8, column: u8, value: Value) -> Result<Change, NoMemory> {
    let values = setting(alloc, column, value)?;
    Ok(Change::Insert { article, values })
}

fn text(alloc: Global, length: usize) -> Result<Value, NoMemory> {
    let mut bytes = String::new(alloc);
    for _ in 0..length {
        bytes.push('x')?;
    }
    Ok(Value::Text(Words::new(bytes)))
}

// Why a change is refused where no row is held.
fn refusal(publication: &Publication, change: &Change, rows: usize) -> Result<Option<Refusal>, Fail>
    requires valid { (resolvers : ℕ) × IsValid resolvers publication.now }
    requires rows { rows ≤ 200000 }
{
    if !can_be_asked(publication, change) {
        return Err(Fail::from("no such article"));
    }
    match check_change(publication, change, None, rows) {
        Ok(()) => Ok(None),
        Err(refusal) => Ok(Some(refusal)),
    }
}

// A value that stands in a table.
#[derive(Clone, Copy, Debug)]
enum Given {
    Null,
    Bit,
    // So many letters.
    Text(usize),
}

// A new row with this value in a column, where there are so many rows.
#[derive(Clone, Copy, Debug)]
struct NewRow {
    article: u8,
    column: u8,
    value: Given,
    rows: usize,
}

fn value(alloc: Global, given: Given) -> Result<Value, NoMemory> {
    match given {
        Given::Null => Ok(Value::Null),
        Given::Bit => Ok(Value::Bit(true)),
        Given::Text(length) => text(alloc, length),
    }
}

// The words of the refusal of an insert, or `ok`.
fn answer(alloc: Global, publication: &Publication, given: &NewRow) -> Result<String, Fail>
    requires valid { (resolvers : ℕ) × IsValid resolvers publication.now }
{
    if given.rows > 200_000 {
        return Err(Fail::from("more rows than there can be"));
    }
    let value = value(alloc, given.value)?;
    let change = insert(alloc, given.article, given.column, value)?;
    match refusal(publication, &change, given.rows)? {
        None => Ok(String::from_str(alloc, "ok")?),
        Some(refusal) => Ok(format!(in alloc; "{refusal}")?),
    }
}

const NEW_ROWS: &[(NewRow, &str)] = &[
    (
        NewRow {
            article: TICKET,
            column: 1,
            value: Given::Text(4000),
            rows: 199_999,
        },
        "ok",
    ),
    (
        NewRow {
            article: TICKET,
            column: 1,
            value: Given::Text(4000),
            rows: 200_000,
        },
        "too many rows 200001",
    ),
    (
        NewRow {
            article: TICKET,
            column: 0,
            value: Given::Bit,
            rows: 0,
        },
        "identity column 0",
    ),
    (
        NewRow {
            article: ITEM,
            column: 0,
            value: Given::Text(4001),
            rows: 0,
        },
        "wrong type 0",
    ),
    (
        NewRow {
            article: ITEM,
            column: 7,
            value: Given::Null,
            rows: 0,
        },
        "wrong type 7",
    ),
    (
        NewRow {
            article: ITEM,
            column: 1,
            value: Given::Text(4001),
            rows: 200_000,
        },
        "row too long 4001",
    ),
];

#[test]
fn first_rule_that_is_broken(rt: HostRuntime) -> Result<(), Fail> {
    let publication = read(rt.alloc(), PUBLICATION.as_bytes(), 5)?;
    for (given, words) in NEW_ROWS {
        let told = answer(rt.alloc(), &publication, given)?;
        assert_eq!(rt; told.as_str(), *words, "{given:?}");
    }
    Ok(())
}

#[test]
fn no_row_is_deleted(rt: HostRuntime) -> Result<(), Fail> {
    let publication = read(rt.alloc(), PUBLICATION.as_bytes(), 5)?;
    let delete = Change::Delete {
        article: ITEM,
        row: RowId(1),
    };
    same(
        &rt,
        &refusal(&publication, &delete, 0)?,
        &Some(Refusal::NoRow),
    );
    Ok(())
}

#[test]
fn counters_end(rt: HostRuntime) -> Result<(), Fail> {
    let end = 1 << 61;
    same(&rt, &check_counters(&[end - 1, 0]).is_ok(), &true);
    match check_counters(&[3, end, end + 5]) {
        Ok(()) => same(&rt, &true, &false),
        Err(refusal) => same(&rt, &refusal, &Refusal::CounterEnd { value: end + 5 }),
    }
    Ok(())
}

const FIRST: Dot = Dot {
    site: SiteId(1),
    number: 1,
};

#[test]
fn rows_of_changes(rt: HostRuntime) -> Result<(), Fail> {
    let change = insert(rt.alloc(), ITEM, 0, Value::Null)?;
    let made = RowKey {
        article: ITEM,
        row: RowId(0x1_8000_8000_0000_0000_0001),
    };
    same(&rt, &key_of(FIRST, &change), &made);
    let other = RowKey {
        article: TICKET,
        row: RowId(1),
    };
    let delete = Change::Delete {
        article: other.article,
        row: other.row,
    };
    same(&rt, &key_of(FIRST, &delete), &other);
    Ok(())
}
