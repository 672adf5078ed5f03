//! Publication texts with their answers. Expected answers are worked out from docs/use/publication-file.md.
mod several;
mod shop;

use crate::same::{same, same_in};
use merge_schema::read;
use merge_types::{NoMemory, SiteId};
use std::alloc::Global;
use std::test::Fail;

pub(crate) const TOP: &str = r#"name = "p"
"#;

pub(crate) const ITEM: &str = r#"[[article]]
name = "item"
"#;

pub(crate) const QTY: &str = r#"[[article.column]]
name = "qty"
type = "int"
"#;

pub(crate) const SITE: &str = r#"[[subscription]]
site = 1
host = "h"
"#;

pub(crate) fn text_of(alloc: Global, parts: &[&str]) -> Result<String, NoMemory> {
    let mut text = String::new(alloc);
    for part in parts {
        text.push_str(part)?;
    }
    Ok(text)
}

// The words of the refusal, or `ok`.
pub(crate) fn answer(alloc: Global, parts: &[&str]) -> Result<String, NoMemory> {
    let text = text_of(alloc, parts)?;
    match read(alloc, text.as_bytes(), 5) {
        Ok(_) => Ok(String::from_str(alloc, "ok")?),
        Err(fault) => Ok(format!(in alloc; "{fault}")?),
    }
}

// The answer for the article `item` with these keys and the column `qty`, in a whole publication.
fn article(alloc: Global, keys: &str) -> Result<String, NoMemory> {
    answer(alloc, &[TOP, ITEM, keys, "\n", QTY, SITE])
}

const TOPS: &[(&str, &str)] = &[
    ("ok", r#"name = "p""#),
    (
        "ok",
        r#"retention_days = 1
name = "_""#,
    ),
    (
        "ok",
        r#"name = "p"
retention_days = 3650
conflict_retention_days = 3650"#,
    ),
    ("not toml", "name = p"),
    (
        "not toml",
        r#"name = "p"
name = "p""#,
    ),
    (
        "not toml",
        r#"name = "p"
retention_days = 9223372036854775808"#,
    ),
    ("missing name", "retention_days = 0"),
    ("bad value name", "name = 1"),
    ("bad value name", r#"name = """#),
    ("bad value name", r#"name = "1a""#),
    ("bad value name", r#"name = "a-b""#),
    (
        "bad value retention_days",
        r#"name = "p"
retention_days = 0"#,
    ),
    (
        "bad value retention_days",
        r#"name = "p"
retention_days = 3651"#,
    ),
    (
        "bad value retention_days",
        r#"name = "p"
retention_days = -1"#,
    ),
    (
        "bad value retention_days",
        r#"name = "p"
retention_days = 1.0"#,
    ),
    (
        "bad value retention_days",
        r#"name = "p"
retention_days = "1""#,
    ),
    (
        "bad value conflict_retention_days",
        r#"name = "p"
conflict_retention_days = 0"#,
    ),
    (
        "bad value conflict_retention_days",
        r#"name = "p"
conflict_retention_days = 3651"#,
    ),
    (
        "bad value colour",
        r#"name = "p"
colour = 1"#,
    ),
    (
        "bad value Name",
        r#"Name = 1
name = "p""#,
    ),
    ("bad value a", "b = 1\na = 1\nname = 1"),
    (
        "bad value retention_days",
        r#"name = "p"
conflict_retention_days = 0
retention_days = 0"#,
    ),
];

#[test]
fn top_keys(rt: HostRuntime) -> Result<(), Fail> {
    for (expected, top) in TOPS {
        let told = answer(rt.alloc(), &[top, "\n", ITEM, QTY, SITE])?;
        same_in(&rt, &told.as_str(), expected, &top);
    }
    Ok(())
}

const WHOLE: &[(&str, &str)] = &[
    (
        "bad value identity",
        r#"name = "a"
[[article]]
name = "item"
column = [{ name = "c", type = "int", identity = { range = 1, pub_range = 1 } }, { name = "d", type = "int", identity = { range = 0 } }]"#,
    ),
    ("missing article", r#"name = "a""#),
    (
        "bad value article",
        r#"name = "a"
article = []"#,
    ),
    (
        "bad value article",
        r#"name = "a"
article = 1"#,
    ),
    (
        "bad value article",
        r#"name = "a"
article = [1]"#,
    ),
    (
        "bad value article",
        r#"name = "a"
[article]
name = "item""#,
    ),
    (
        "bad value subscription",
        r#"name = "a"
subscription = 1
[[article]]"#,
    ),
    (
        "missing name",
        r#"name = "a"
[[article]]"#,
    ),
    (
        "missing column",
        r#"name = "a"
[[article]]
name = "item""#,
    ),
    (
        "bad value column",
        r#"name = "a"
[[article]]
name = "item"
column = []"#,
    ),
    (
        "bad value column",
        r#"name = "a"
[[article]]
name = "item"
column = [1]"#,
    ),
    (
        "missing name",
        r#"name = "a"
[[article]]
name = "item"
[[article.column]]"#,
    ),
    (
        "missing type",
        r#"name = "a"
[[article]]
name = "item"
[[article.column]]
name = "c""#,
    ),
    (
        "bad value type",
        r#"name = "a"
[[article]]
name = "item"
[[article.column]]
name = "c"
type = "real""#,
    ),
    (
        "bad value null",
        r#"name = "a"
[[article]]
name = "item"
[[article.column]]
null = 1"#,
    ),
    (
        "duplicate c",
        r#"name = "a"
[[article]]
name = "item"
[[article.column]]
name = "c"
type = "bit"
[[article.column]]
name = "c"
type = "int""#,
    ),
    (
        "ok",
        r#"name = "a"
subscription = []
[[article]]
name = "item"
join = []
[[article.column]]
name = "c"
type = "guid""#,
    ),
    (
        "bad value column",
        r#"name = "p"
[[article]]
name = "item"
column = 1"#,
    ),
    (
        "bad value name",
        "name = 1\narticle = [1, 2, 3, 4, 5, 6, 7, 8, 9, 10, 11, 12, 13, 14, 15, 16, 17, 18, 19, 20, 21, 22, 23, 24, 25, 26, 27, 28, 29, 30, 31, 32, 33]",
    ),
    (
        "too many article 33",
        r#"name = "p"
article = [1, 2, 3, 4, 5, 6, 7, 8, 9, 10, 11, 12, 13, 14, 15, 16, 17, 18, 19, 20, 21, 22, 23, 24, 25, 26, 27, 28, 29, 30, 31, 32, 33]"#,
    ),
];

#[test]
fn tables(rt: HostRuntime) -> Result<(), Fail> {
    for (expected, text) in WHOLE {
        let told = answer(rt.alloc(), &[text, "\n"])?;
        same_in(&rt, &told.as_str(), expected, &text);
    }
    Ok(())
}

const ARTICLES: &[(&str, &str)] = &[
    (
        "ok",
        r#"tracking = "row"
resolver = "subscriber""#,
    ),
    (
        "ok",
        r#"tracking = "column"
filter = "qty = 1""#,
    ),
    (
        "ok",
        r#"resolver = "maximum"
resolver_column = "qty""#,
    ),
    (
        "ok",
        r#"resolver = "additive"
resolver_column = "qty""#,
    ),
    ("ok", r#"resolver_column = "qty""#),
    ("bad value tracking", r#"tracking = "cell""#),
    ("bad value tracking", "tracking = 1"),
    ("bad value filter", "filter = 1"),
    ("bad value filter", r#"filter = "x = 1""#),
    ("bad value filter", r#"filter = "qty = 'a'""#),
    ("bad value filter", r#"filter = """#),
    ("bad value resolver", r#"resolver = "handler5""#),
    ("bad value resolver", r#"resolver = "Priority""#),
    ("bad value resolver", "resolver = 0"),
    ("missing resolver_column", r#"resolver = "maximum""#),
    ("missing resolver_column", r#"resolver = "minimum""#),
    ("missing resolver_column", r#"resolver = "additive""#),
    ("bad value resolver_column", "resolver_column = 1"),
    ("bad value resolver_column", r#"resolver_column = "far""#),
    ("bad value join", "join = 1"),
    ("bad value join", "join = [1]"),
    ("missing column", "join = [{}]"),
    ("missing parent", r#"join = [{ column = "qty" }]"#),
    (
        "missing parent_column",
        r#"join = [{ column = "qty", parent = "item" }]"#,
    ),
    (
        "bad value parent",
        r#"join = [{ column = "qty", parent = 1 }]"#,
    ),
    (
        "unknown article far",
        r#"join = [{ column = "qty", parent = "far", parent_column = "x" }]"#,
    ),
    (
        "bad value column",
        r#"join = [{ column = "far", parent = "item", parent_column = "qty" }]"#,
    ),
    (
        "bad value parent_column",
        r#"join = [{ column = "qty", parent = "item", parent_column = "far" }]"#,
    ),
    (
        "join cycle item",
        r#"join = [{ column = "qty", parent = "item", parent_column = "qty" }]"#,
    ),
    (
        "bad value filter",
        r#"filter = "x"
join = [{ column = "qty", parent = "item", parent_column = "qty" }]"#,
    ),
];

#[test]
fn article_keys(rt: HostRuntime) -> Result<(), Fail> {
    for (expected, keys) in ARTICLES {
        let told = article(rt.alloc(), keys)?;
        same_in(&rt, &told.as_str(), expected, &keys);
    }
    Ok(())
}

const IDENTITIES: &[(&str, &str)] = &[
    ("ok", "range = 1, pub_range = 1000000000"),
    (
        "ok",
        "range = 2, pub_range = 3, seed = 9, threshold = 100, greatest = 9",
    ),
    ("bad value extra", "extra = 1"),
    ("missing range", "pub_range = 0"),
    ("missing pub_range", "range = 1"),
    ("bad value range", "range = 0, pub_range = 3"),
    ("bad value range", "range = 1000000001, pub_range = 3"),
    ("bad value range", r#"range = "2", pub_range = 3"#),
    ("bad value pub_range", "range = 2, pub_range = 0"),
    ("bad value pub_range", "range = 2, pub_range = 1000000001"),
    ("bad value seed", "range = 2, pub_range = 3, seed = 0"),
    ("bad value seed", "range = 0, pub_range = 3, seed = -1"),
    (
        "bad value threshold",
        "range = 2, pub_range = 3, threshold = 0",
    ),
    (
        "bad value threshold",
        "range = 2, pub_range = 3, threshold = 101",
    ),
    (
        "bad value greatest",
        "range = 2, pub_range = 3, greatest = 0",
    ),
    (
        "bad value greatest",
        "range = 2, pub_range = 3, seed = 9, greatest = 8",
    ),
    ("ok", "range = 2, pub_range = 3, seed = 9223372036854775807"),
    (
        "not toml",
        "range = 2, pub_range = 3, greatest = 9223372036854775808",
    ),
    (
        "bad value threshold",
        "range = 2, pub_range = 3, threshold = true, greatest = 0",
    ),
];

#[test]
fn identity_keys(rt: HostRuntime) -> Result<(), Fail> {
    for (expected, keys) in IDENTITIES {
        let told = answer(
            rt.alloc(),
            &[TOP, ITEM, QTY, "identity = { ", keys, " }\n", SITE],
        )?;
        same_in(&rt, &told.as_str(), expected, &keys);
    }
    Ok(())
}

const SUBSCRIPTIONS: &[(&str, &str)] = &[
    (
        "ok",
        r#"site = 63
host = """#,
    ),
    (
        "ok",
        r#"site = 1
host = "h"
kind = "server"
priority = 9999"#,
    ),
    (
        "ok",
        r#"site = 1
host = "h"
kind = "client""#,
    ),
    ("missing site", "host = 1"),
    ("missing host", "site = 1"),
    (
        "bad value site",
        r#"site = 0
host = "h""#,
    ),
    (
        "bad value site",
        r#"site = 64
host = "h""#,
    ),
    (
        "bad value site",
        r#"site = "1"
host = "h""#,
    ),
    ("bad value host", "site = 1\nhost = 1"),
    (
        "bad value kind",
        r#"site = 1
host = "h"
kind = "Server""#,
    ),
    (
        "bad value kind",
        r#"site = 1
host = "h"
kind = 1"#,
    ),
    (
        "bad value priority",
        r#"site = 1
host = "h"
priority = 0"#,
    ),
    (
        "bad value priority",
        r#"site = 1
host = "h"
kind = "client"
priority = 1"#,
    ),
    (
        "bad value priority",
        r#"site = 1
host = "h"
kind = "server"
priority = 10000"#,
    ),
    (
        "bad value priority",
        r#"site = 1
host = "h"
kind = "server"
priority = -1"#,
    ),
    (
        "bad value priority",
        r#"site = 1
host = "h"
kind = "server"
priority = "1""#,
    ),
    ("bad value port", "site = 0\nport = 1"),
    ("bad value site", "site = 0\nhost = 1"),
    (
        "duplicate 7",
        r#"site = 7
host = "h"
[[subscription]]
site = 7
host = "h""#,
    ),
    (
        "duplicate 2",
        r#"site = 1
host = "h"
[[subscription]]
site = 2
host = "h"
[[subscription]]
site = 2
host = "h"
[[subscription]]
site = 1
host = "h""#,
    ),
    (
        "ok",
        r#"site = 7
host = "h"
[[subscription]]
site = 8
host = "h""#,
    ),
];

#[test]
fn subscription_keys(rt: HostRuntime) -> Result<(), Fail> {
    for (expected, keys) in SUBSCRIPTIONS {
        let told = answer(
            rt.alloc(),
            &[TOP, ITEM, QTY, "[[subscription]]\n", keys, "\n"],
        )?;
        same_in(&rt, &told.as_str(), expected, &keys);
    }
    Ok(())
}

#[test]
fn handlers(rt: HostRuntime) -> Result<(), Fail> {
    let alloc = rt.alloc();
    let text = text_of(
        alloc,
        &[
            TOP,
            ITEM,
            r#"resolver = "handler15"
"#,
            QTY,
        ],
    )?;
    for (resolvers, expected) in [(15, None), (16, Some(15))] {
        let place = match read(alloc, text.as_bytes(), resolvers) {
            Ok(publication) => match publication.articles.as_slice().get(0) {
                Some(article) => Some(article.resolver),
                None => None,
            },
            Err(_) => None,
        };
        same(&rt, &place, &expected);
    }
    Ok(())
}

const QUOTED: &[(&str, &str)] = &[
    (r#"bad value "a\nb""#, r#""a\nb" = 1"#),
    (r#"bad value "a-b""#, "a-b = 1"),
    (r#"bad value """#, r#""" = 1"#),
    (
        r#"unknown article "\u001b[0m""#,
        r#"join = [{ column = "qty", parent = "\u001b[0m", parent_column = "x" }]"#,
    ),
];

#[test]
fn keys_that_are_no_names_are_told_in_quotes(rt: HostRuntime) -> Result<(), Fail> {
    for (expected, keys) in QUOTED {
        let told = article(rt.alloc(), keys)?;
        same_in(&rt, &told.as_str(), expected, &keys);
    }
    Ok(())
}

const NUMBERS: &[(u8, &str)] = &[
    (2, r#"resolver = "maximum""#),
    (3, "tracking = 1"),
    (
        5,
        r#"join = [{ column = "qty", parent = "far", parent_column = "x" }]"#,
    ),
    (
        6,
        r#"join = [{ column = "qty", parent = "item", parent_column = "qty" }]"#,
    ),
];

// The number of the fault of the article `item` with these keys.
fn number(alloc: Global, keys: &str) -> Result<Option<u8>, NoMemory> {
    let text = text_of(alloc, &[TOP, ITEM, keys, "\n", QTY])?;
    match read(alloc, text.as_bytes(), 5) {
        Ok(_) => Ok(None),
        Err(fault) => Ok(fault.number()),
    }
}

#[test]
fn faults_have_numbers(rt: HostRuntime) -> Result<(), Fail> {
    for (expected, keys) in NUMBERS {
        same_in(&rt, &number(rt.alloc(), keys)?, &Some(*expected), &keys);
    }
    Ok(())
}

#[test]
fn articles_and_sites_are_looked_up(rt: HostRuntime) -> Result<(), Fail> {
    let alloc = rt.alloc();
    let text = text_of(alloc, &[TOP, ITEM, QTY, SITE])?;
    let publication = read(alloc, text.as_bytes(), 5)?;
    assert!(rt; publication.article_at(1).is_none());
    let first = publication.article_at(0).ok_or("no article")?;
    same(&rt, &first.name.as_str(), &"item");
    assert!(rt; publication.is_subscription(SiteId(1)) && !publication.is_subscription(SiteId(0)));
    Ok(())
}
