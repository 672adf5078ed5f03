//! Whether rows fit their article.
ghost use Rattle.std.specs.Prelude.{◌≡◌, length, slice_get};
ghost use Rattle.std.specs.Option.{option_copied};
ghost use Rattle.merge_batch.specs.Articles.{values_fit, cells_fit_tracking, row_values, is_set, identity_is_set, cells_fit, body_fits, has_article, fits_article};

use merge_schema::{Article, Identity, Publication};
use merge_types::limits::ROW_LIMIT;
use merge_types::{Column, Tracking, Value};
use merge_units::{Body, Cell, fits_tracking, stored_length};

/// Whether the article exists.
pub fn has_article(publication: &Publication, place: u8) -> bool
    ensures { result ≡ has_article publication.now place }
{
    publication.article_at(place).is_some()
}

/// Whether the article exists and the row fits it.
pub fn fits_article(publication: &Publication, place: u8, body: &Body) -> bool
    ensures { result ≡ fits_article publication.now place body.now }
{
    match publication.article_at(place) {
        Some(article) => body_fits(body, article),
        None => false,
    }
}

// The same, of live cells.
pub fn cells_fit_article(publication: &Publication, place: u8, cells: &[Cell]) -> bool
    ensures { result ≡ fits_article publication.now place (Body.Live cells.now) }
{
    match publication.article_at(place) {
        Some(article) => cells_fit(article, cells),
        None => false,
    }
}

fn body_fits(body: &Body, article: &Article) -> bool
    ensures { result ≡ body_fits body.now article.now }
{
    match body {
        Body::Live(cells) => cells_fit(article, cells.as_slice()),
        Body::Dead(_) => true,
    }
}

fn cells_fit(article: &Article, cells: &[Cell]) -> bool
    ensures { result ≡ cells_fit article.now cells.now }
{
    cells_fit_tracking(article.tracking, cells)
        && values_fit(article.columns.as_slice(), cells)
        && stored_length(cells) <= ROW_LIMIT
        && identity_is_set(article.identity, cells)
}

fn cells_fit_tracking(tracking: Tracking, cells: &[Cell]) -> bool
    ensures { result ≡ cells_fit_tracking tracking cells.now }
{
    fits_tracking(cells, tracking)
}

// Whether the cells have one value for each column, that fits it.
fn values_fit(columns: &[Column], cells: &[Cell]) -> bool
    ensures { result ≡ values_fit columns.now (row_values cells.now) }
{
    let mut rest = columns;
    for cell in cells {
        let count = cell.values.len();
        if count > rest.len() {
            return false;
        }
        let (here, after) = rest.split_at(count);
        if !each_fits(here, cell.values.as_slice()) {
            return false;
        }
        rest = after;
    }
    rest.is_empty()
}

// Whether there is one value for each column, that fits it.
fn each_fits(columns: &[Column], values: &[Value]) -> bool
    ensures { result ≡ values_fit columns.now values.now }
{
    if columns.len() != values.len() {
        return false;
    }
    for at in 0..columns.len() {
        if !values[at].fits(columns[at].ty) {
            return false;
        }
    }
    true
}

// Whether the value of the identity column is there, where there is such a column.
fn identity_is_set(identity: Option<Identity>, cells: &[Cell]) -> bool
    ensures { result ≡ identity_is_set identity (row_values cells.now) }
{
    match identity {
        None => true,
        Some(identity) => is_set(value_at(cells, identity.column as usize)),
    }
}

fn is_set(value: Option<&Value>) -> bool
    ensures { result ≡ is_set (option_copied value.entry) }
{
    match value {
        None => false,
        Some(Value::Null) => false,
        Some(_) => true,
    }
}

// The value of a column, where the cells have it.
pub fn value_at(cells: &[Cell], column: usize) -> Option<&Value>
    ensures { option_copied result ≡ slice_get (row_values cells.now) column }
{
    let mut left = column;
    for cell in cells {
        let count = cell.values.len();
        if left < count {
            return value_of(cell, left);
        }
        left -= count;
    }
    None
}

// The value at a place of a cell.
fn value_of(cell: &Cell, place: usize) -> Option<&Value>
    ensures { option_copied result ≡ slice_get cell.now.values place }
{
    cell.values.as_slice().get(place)
}
