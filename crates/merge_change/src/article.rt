//! What the publication says of an article.
ghost use Rattle.std.specs.Prelude.{◌≡◌, length, slice_get, option_map};
ghost use Rattle.merge_batch.specs.LocalChanges.{identity_column, tracking_at, types_at};

use merge_schema::{Article, Publication};
use merge_types::{ColumnType, Tracking};

/// How versions of the article's rows are compared: as rows where there is no such article.
pub fn tracking(publication: &Publication, place: u8) -> Tracking
    ensures { result ≡ tracking_at publication.now place }
{
    match publication.article_at(place) {
        Some(article) => article.tracking,
        None => Tracking::Row,
    }
}

// How many columns the article has.
pub fn column_count(publication: &Publication, place: u8) -> usize
    ensures { result ≡ length (types_at publication.now place) }
{
    match publication.article_at(place) {
        Some(article) => article.columns.len(),
        None => 0,
    }
}

// The type of a column, where the article has it.
pub fn column_type(publication: &Publication, place: u8, column: u8) -> Option<ColumnType>
    ensures { result ≡ slice_get (types_at publication.now place) column }
{
    match publication.article_at(place) {
        Some(article) => type_at(article, column),
        None => None,
    }
}

// The type of a column of the article.
fn type_at(article: &Article, column: u8) -> Option<ColumnType>
    ensures { result ≡ option_map (λ column. column.ty) (slice_get article.now.columns column) }
{
    match article.columns.as_slice().get(column as usize) {
        Some(column) => Some(column.ty),
        None => None,
    }
}

/// The identity column of an article, by its place, where the article exists and has one.
pub fn identity_column(publication: &Publication, place: u8) -> Option<u8>
    ensures { result ≡ identity_column publication.now place }
{
    match publication.article_at(place) {
        Some(article) => match article.identity {
            Some(identity) => Some(identity.column),
            None => None,
        },
        None => None,
    }
}
