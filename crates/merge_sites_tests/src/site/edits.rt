//! The publication of the two sites, and local changes of its rows.
ghost use Rattle.std.specs.Prelude.{◌≡◌, IfOk, IsTrue, true};
ghost use Rattle.merge_units.specs.Changes.{ColumnsAscend};
ghost use Rattle.merge_batch.specs.Articles.{has_article};
ghost use Rattle.merge_batch.specs.LocalChanges.{article_of, settings_of};
ghost use Rattle.merge_schema.specs.Valid.{IsValid};

use merge_schema::{Publication, SchemaFault, read};
use merge_types::{
    Change, Listing, NoMemory, RowId, RowKey, Setting, Settings, SiteId, Value, Words,
};
use std::alloc::Global;
use std::test::Fail;

/// The subscriber of the tests.
pub const SITE: SiteId = SiteId(1);

// Customers go to the site of their region. Tickets are numbered, two numbers a range, and go to
// each site. Of the second site no test has tables: it never joins.
const PUBLICATION: &[u8] =
    b"name = \"shop\"\nretention_days = 1\narticle = [{ name = \"customer\", filter = \"region = HOST_NAME()\", column = [{ name = \"region\", type = \"text\" }, { name = \"rating\", type = \"int\" }] }, { name = \"ticket\", column = [{ name = \"no\", type = \"int\", identity = { range = 2, pub_range = 2, threshold = 100 } }, { name = \"note\", type = \"int\" }] }]\nsubscription = [{ site = 1, host = \"north\" }, { site = 2, host = \"south\" }]\n";

pub const CUSTOMERS: u8 = 0;

pub const TICKETS: u8 = 1;

// The rows that the publisher made first and second, and those that the site made by its first and
// its second change.
pub const NORTHERN: RowKey = RowKey {
    article: CUSTOMERS,
    row: RowId(0x0000_8000_8000_0000_0000_0001),
};

pub const SOUTHERN: RowKey = RowKey {
    article: CUSTOMERS,
    row: RowId(0x0000_8000_8000_0000_0000_0002),
};

pub const TICKET: RowKey = RowKey {
    article: TICKETS,
    row: RowId(0x0001_8000_8000_0000_0000_0001),
};

pub const SECOND_TICKET: RowKey = RowKey {
    article: TICKETS,
    row: RowId(0x0001_8000_8000_0000_0000_0002),
};

pub fn publication(alloc: Global) -> Result<Publication, Fail>
    ensures { IfOk result (λ publication. IsValid 1 publication) }
{
    publication_of(alloc, PUBLICATION)
}

/// The publication of a file.
pub fn publication_of(alloc: Global, file: &[u8]) -> Result<Publication, Fail>
    ensures { IfOk result (λ publication. IsValid 1 publication) }
{
    match read(alloc, file, 1) {
        Ok(publication) => Ok(publication),
        Err(SchemaFault::NoMemory) => Err(Fail::from("no memory")),
        Err(_) => Err(Fail::from("no publication")),
    }
}

/// What a column is set to: the region of a customer, or the second column of either article; and of
/// other publications a first column of numbers, or a second one of texts.
#[derive(Clone, Copy, Debug)]
pub enum Put {
    Region(&'static str),
    Second(i64),
    First(i64),
    Note(&'static str),
}

/// A local change.
#[derive(Clone, Copy, Debug)]
pub enum Edit {
    Insert(u8, Put),
    Update(RowKey, Put),
    Delete(RowKey),
}

fn setting(alloc: Global, put: Put) -> Result<Setting, NoMemory> {
    match put {
        Put::Region(region) => Ok(Setting {
            column: 0,
            value: Value::Text(Words::of(alloc, region)?),
        }),
        Put::Second(number) => Ok(Setting {
            column: 1,
            value: Value::Int(number),
        }),
        Put::First(number) => Ok(Setting {
            column: 0,
            value: Value::Int(number),
        }),
        Put::Note(note) => Ok(Setting {
            column: 1,
            value: Value::Text(Words::of(alloc, note)?),
        }),
    }
}

fn settings(alloc: Global, put: Put) -> Result<Settings, NoMemory> {
    let mut settings = Listing::empty(alloc);
    settings.push(setting(alloc, put)?)?;
    Ok(settings)
}

pub fn change_of(alloc: Global, edit: Edit) -> Result<Change, NoMemory> {
    match edit {
        Edit::Insert(article, put) => Ok(Change::Insert {
            article,
            values: settings(alloc, put)?,
        }),
        Edit::Update(key, put) => Ok(Change::Update {
            article: key.article,
            row: key.row,
            values: settings(alloc, put)?,
        }),
        Edit::Delete(key) => Ok(Change::Delete {
            article: key.article,
            row: key.row,
        }),
    }
}

// The place of the change's article.
fn article_of(change: &Change) -> u8
    ensures { result ≡ article_of change.now }
{
    match change {
        Change::Insert { article, .. } => *article,
        Change::Update { article, .. } => *article,
        Change::Delete { article, .. } => *article,
    }
}

// The columns that the change sets.
fn settings_of(change: &Change) -> &[Setting]
    ensures { result.now ≡ settings_of change.now }
{
    match change {
        Change::Insert { values, .. } => values.as_slice(),
        Change::Update { values, .. } => values.as_slice(),
        Change::Delete { .. } => &[],
    }
}

/// Whether a change may be asked for: its article exists, and it sets one column at most.
pub fn can_be_asked(publication: &Publication, change: &Change) -> bool
    ensures place { IsTrue result → has_article publication.now (article_of change.now) ≡ true }
    ensures ascend { IsTrue result → ColumnsAscend (settings_of change.now) }
{
    publication.article_at(article_of(change)).is_some() && settings_of(change).len() <= 1
}
