//! Publication texts with several tables: what the later steps tell, what there may be too many of, and the order of articles.
use crate::same::same;
use crate::schema::{ITEM, QTY, SITE, TOP, answer, text_of};
use merge_schema::read;
use merge_types::NoMemory;
use std::alloc::Global;
use std::test::Fail;

// Later steps, over two articles `a` (columns `i` int, `t` text) and `b` (columns `i` int, `d` day).
const A: &str = r#"[[article]]
name = "a"
column = [{ name = "i", type = "int" }, { name = "t", type = "text" }]
"#;

const B: &str = r#"[[article]]
name = "b"
column = [{ name = "i", type = "int" }, { name = "d", type = "day" }]
"#;

// Joins by their columns `i`.
const BY_A: &str = r#"join = [{ column = "i", parent = "a", parent_column = "i" }]"#;

const BY_B: &str = r#"join = [{ column = "i", parent = "b", parent_column = "i" }]"#;

const PAIRS: &[(&str, &str, &str)] = &[
    ("ok", "", BY_A),
    (
        "ok",
        BY_B,
        r#"resolver = "minimum"
resolver_column = "d""#,
    ),
    (
        "join types a",
        r#"join = [{ column = "t", parent = "b", parent_column = "i" }]"#,
        "",
    ),
    (
        "join types b",
        "",
        r#"join = [{ column = "i", parent = "a", parent_column = "i" }, { column = "d", parent = "a", parent_column = "i" }]"#,
    ),
    ("join cycle a", BY_B, BY_A),
    ("join cycle b", "", BY_B),
    ("join cycle b", BY_B, BY_B),
    (
        "join types b",
        BY_A,
        r#"join = [{ column = "d", parent = "a", parent_column = "i" }]"#,
    ),
    (
        "bad value resolver_column",
        r#"resolver = "maximum"
resolver_column = "t""#,
        "",
    ),
    (
        "bad value resolver_column",
        "",
        r#"resolver = "additive"
resolver_column = "d""#,
    ),
    (
        "unknown article c",
        r#"join = [{ column = "x", parent = "b", parent_column = "i" }]"#,
        r#"join = [{ column = "i", parent = "c", parent_column = "i" }]"#,
    ),
    (
        "bad value column",
        r#"join = [{ column = "i", parent = "b", parent_column = "x" }]"#,
        r#"join = [{ column = "x", parent = "a", parent_column = "i" }]"#,
    ),
    (
        "bad value parent_column",
        r#"resolver_column = "x""#,
        r#"join = [{ column = "i", parent = "a", parent_column = "d" }]"#,
    ),
    (
        "bad value resolver_column",
        r#"filter = "x""#,
        r#"resolver = "additive"
resolver_column = "d""#,
    ),
    (
        "bad value filter",
        r#"join = [{ column = "t", parent = "b", parent_column = "i" }]"#,
        r#"filter = "t = 1""#,
    ),
    ("bad value tracking", "tracking = 1", ""),
];

#[test]
fn later_steps(rt: HostRuntime) -> Result<(), Fail> {
    for (expected, first, second) in PAIRS {
        let told = answer(rt.alloc(), &[TOP, A, first, "\n", B, second, "\n"])?;
        assert_eq!(rt; told.as_str(), *expected, "{first}{second}");
    }
    Ok(())
}

// An article that comes twice is told before what is wrong with another one.
#[test]
fn an_article_comes_twice(rt: HostRuntime) -> Result<(), Fail> {
    let told = answer(rt.alloc(), &[TOP, B, A, r#"filter = "x""#, "\n", B])?;
    same(&rt, &told.as_str(), &"duplicate b");
    Ok(())
}

// So many tables, each numbered.
fn repeated(alloc: Global, count: usize, before: &str, behind: &str) -> Result<String, NoMemory> {
    let mut text = String::new(alloc);
    for place in 0..count {
        let number = place + 1;
        text.push_str(before)?;
        text.push_str(format!(in alloc; "{number}")?.as_str())?;
        text.push_str(behind)?;
    }
    Ok(text)
}

// The answer for these parts and so many numbered tables behind them.
fn numbered(
    alloc: Global,
    parts: &[&str],
    count: usize,
    before: &str,
    behind: &str,
) -> Result<String, NoMemory> {
    let head = text_of(alloc, parts)?;
    let tables = repeated(alloc, count, before, behind)?;
    answer(alloc, &[head.as_str(), tables.as_str()])
}

const LIMITS: &[(&str, &[&str], usize, &str, &str)] = &[
    (
        "ok",
        &[TOP],
        32,
        r#"[[article]]
name = "a"#,
        ONE_BIT,
    ),
    (
        "too many article 33",
        &[TOP],
        33,
        r#"[[article]]
name = "a"#,
        ONE_BIT,
    ),
    (
        "ok",
        &[TOP, ITEM],
        64,
        r#"[[article.column]]
name = "c"#,
        r#""
type = "bit"
"#,
    ),
    (
        "too many column 65",
        &[TOP, ITEM],
        65,
        r#"[[article.column]]
name = "c"#,
        r#""
type = "bit"
"#,
    ),
    (
        "ok",
        &[TOP, ITEM, QTY],
        63,
        "[[subscription]]\nsite = ",
        r#"
host = "h"
"#,
    ),
    (
        "too many subscription 64",
        &[TOP, ITEM, QTY],
        64,
        "[[subscription]]\nsite = ",
        r#"
host = "h"
"#,
    ),
    ("ok", &[TOP, A, B], 8, JOIN, "\n"),
    ("too many join 9", &[TOP, A, B], 9, JOIN, "\n"),
];

const ONE_BIT: &str = r#""
column = [{ name = "c", type = "bit" }]
"#;

// A number behind it is a comment.
const JOIN: &str = r#"[[article.join]]
column = "i"
parent = "a"
parent_column = "i"
#"#;

#[test]
fn limits(rt: HostRuntime) -> Result<(), Fail> {
    for (expected, parts, count, before, behind) in LIMITS {
        let told = numbered(rt.alloc(), parts, *count, before, behind)?;
        same(&rt, &told.as_str(), expected);
    }
    Ok(())
}

// The answer for a piece so many times between two texts, and these parts behind.
fn filled(
    alloc: Global,
    before: &[&str],
    piece: &str,
    count: usize,
    behind: &[&str],
) -> Result<String, NoMemory> {
    let mut text = text_of(alloc, before)?;
    for _ in 0..count {
        text.push_str(piece)?;
    }
    let rest = text_of(alloc, behind)?;
    answer(alloc, &[text.as_str(), rest.as_str()])
}

const LONG_TEXTS: &[(&str, &[&str], &str, usize, &[&str])] = &[
    (
        "ok",
        &[TOP, ITEM, r#"filter = "qty = 1"#],
        " ",
        3993,
        &["\"\n", QTY, SITE],
    ),
    (
        "bad value filter",
        &[TOP, ITEM, r#"filter = "qty = 1"#],
        " ",
        3994,
        &["\"\n", QTY, SITE],
    ),
    ("ok", &[TOP, ITEM, QTY, HOST], " ", 128, &["\"\n"]),
    (
        "bad value host",
        &[TOP, ITEM, QTY, HOST],
        " ",
        129,
        &["\"\n"],
    ),
    ("ok", &[r#"name = ""#], "a", 64, &["\"\n", ITEM, QTY]),
    (
        "bad value name",
        &[r#"name = ""#],
        "a",
        65,
        &["\"\n", ITEM, QTY],
    ),
];

const HOST: &str = r#"[[subscription]]
site = 1
host = ""#;

#[test]
fn long_texts(rt: HostRuntime) -> Result<(), Fail> {
    for (expected, before, piece, count, behind) in LONG_TEXTS {
        let told = filled(rt.alloc(), before, piece, *count, behind)?;
        same(&rt, &told.as_str(), expected);
    }
    Ok(())
}

const C: &str = r#"[[article]]
name = "c"
column = [{ name = "i", type = "int" }]
"#;

const ORDERS: &[(&str, &str, [u8; 3])] = &[
    (BY_B, BY_A, [2, 1, 0]),
    (
        BY_A,
        r#"join = [{ column = "i", parent = "c", parent_column = "i" }, { column = "i", parent = "a", parent_column = "i" }]"#,
        [2, 0, 1],
    ),
];

// A chain of three, and an article with two joins.
#[test]
fn orders(rt: HostRuntime) -> Result<(), Fail> {
    let alloc = rt.alloc();
    for (first, second, expected) in ORDERS {
        let text = text_of(alloc, &[TOP, C, first, "\n", B, second, "\n", A])?;
        let publication = read(alloc, text.as_bytes(), 5)?;
        assert!(rt; publication.articles.len() <= 32);
        let order = publication.evaluation_order(alloc)?;
        same(&rt, &order.as_slice(), &expected.as_slice());
    }
    Ok(())
}
