//! What reports tell of the rows of a table.
ghost use Rattle.std.specs.List.{flat_map};
ghost use Rattle.std.specs.Prelude.{◌≡◌, ◌≤◌, ◌++◌, ◌∷◌, [], IfOk, OnOk, count_by};
ghost use Rattle.merge_model.specs.Publisher.Entries.{live_row};
ghost use Rattle.merge_model.specs.World.Reports.{counts_of, is_of_article, shown_rows};
ghost use Rattle.merge_types.specs.declared.values.Value.{Value as OneValue};
ghost use Rattle.merge_units.specs.declared.version.Cell.{Cell as OneCell};
ghost use Rattle.merge_model.specs.declared.answer.Answer.TheVariants.{Rows};
ghost use Rattle.merge_model.specs.Script.Proper.{IsProperAnswer};
ghost use Rattle.merge_world.specs.Printable.{ArePrintable};
ghost use Rattle.merge_world.specs.Reports.{live_in, row_if_alive};

use merge_model::ShownRow;
use merge_schema::Publication;
use merge_table::Table;
use merge_types::{Listing, NoMemory, RowId, RowKey, Value};
use merge_units::{Body, Cell, PublisherRow, SubscriberRow, Version};
use std::alloc::Global;

/// A row of a table, which has a version.
pub(crate) trait Versioned: Drop {
    ghost use Rattle.std.specs.Prelude.{◌≡◌};
    ghost use Rattle.merge_units.specs.declared.version.Version.{Version as OneVersion};

    ghost version_of: { Self → OneVersion };

    fn version(&self) -> &Version
        ensures { result.now ≡ version_of self.now };
}

impl Versioned for PublisherRow {
    ghost version_of = { λ row. row.version };

    fn version(&self) -> &Version {
        &self.version
    }
}

impl Versioned for SubscriberRow {
    ghost version_of = { λ row. row.version };

    fn version(&self) -> &Version {
        &self.version
    }
}

/// The live rows of an article, with their values.
pub(crate) fn shown<R: Versioned>(
    alloc: Global,
    rows: &Table<RowKey, R>,
    article: u8,
) -> Result<Listing<ShownRow>, NoMemory>
    ensures shown { IfOk result (λ shown. shown ≡ shown_rows article (live_in (λ row. R.version_of row) rows.now.rows)) }
    ensures printable { ArePrintable (λ row. R.version_of row) rows.now.rows → IfOk result (λ shown. IsProperAnswer (Rows shown)) }
{
    let mut shown = Listing::empty(alloc);
    for (key, row) in rows.iter() {
        add_row(alloc, &mut shown, article, *key, &row.version().body)?;
    }
    Ok(shown)
}

// A row, where it lives and is of the article.
fn add_row(
    alloc: Global,
    shown: &mut Listing<ShownRow>,
    article: u8,
    key: RowKey,
    body: &Body,
) -> Result<(), NoMemory>
    ensures { OnOk result (shown.new ≡ shown.old ++ shown_rows article (row_if_alive (live_row key body.now))) }
{
    match body {
        Body::Live(cells) => {
            if key.article == article {
                push_row(alloc, shown, key.row, cells.as_slice())
            } else {
                Ok(())
            }
        }
        Body::Dead(_) => Ok(()),
    }
}

fn push_row(
    alloc: Global,
    shown: &mut Listing<ShownRow>,
    row: RowId,
    cells: &[Cell],
) -> Result<(), NoMemory>
    ensures { OnOk result (shown.new ≡ shown.old ++ record { row = row; values = flat_map (λ (cell : OneCell). cell.values) cells.now } ∷ []) }
{
    let values = values_of(alloc, cells)?;
    shown.push(ShownRow { row, values })
}

// The values of cells, one behind the other.
fn values_of(alloc: Global, cells: &[Cell]) -> Result<Listing<Value>, NoMemory>
    ensures { IfOk result (λ values. values ≡ flat_map (λ (cell : OneCell). cell.values) cells.now) }
{
    let mut values = Listing::empty(alloc);
    for cell in cells {
        add_values(&mut values, cell.values.as_slice())?;
    }
    Ok(values)
}

fn add_values(values: &mut Listing<Value>, more: &[Value]) -> Result<(), NoMemory>
    ensures { OnOk result (values.new ≡ values.old ++ more.now) }
{
    for value in more {
        values.push(value.clone()?)?;
    }
    Ok(())
}

/// How many live rows each article has.
pub(crate) fn counts<R: Versioned>(
    alloc: Global,
    publication: &Publication,
    rows: &Table<RowKey, R>,
) -> Result<Listing<u64>, NoMemory>
    ensures { IfOk result (λ counts. counts ≡ counts_of publication.now (live_in (λ row. R.version_of row) rows.now.rows)) }
{
    let mut counts = Listing::empty(alloc);
    for article in 0..publication.articles.len() {
        counts.push(count(rows, article))?;
    }
    Ok(counts)
}

// How many live rows one article has.
fn count<R: Versioned>(rows: &Table<RowKey, R>, article: usize) -> u64
    ensures { result ≡ count_by (is_of_article article) (live_in (λ row. R.version_of row) rows.now.rows) }
{
    let mut count = 0u64;
    for (key, row) in rows.iter() {
        count += one_of(article, *key, &row.version().body);
    }
    count
}

// 1 for a live row of the article.
fn one_of(article: usize, key: RowKey, body: &Body) -> u64
    ensures { result ≡ count_by (is_of_article article) (row_if_alive (live_row key body.now)) }
{
    match body {
        Body::Live(_) => {
            if key.article as usize == article {
                1
            } else {
                0
            }
        }
        Body::Dead(_) => 0,
    }
}
