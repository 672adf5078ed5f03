//! The names of articles and columns, by their places.
ghost use Rattle.std.specs.Prelude.{◌≡◌};
ghost use Rattle.merge_model.specs.Script.Play.{article_name};
ghost use Rattle.merge_batch.specs.LocalChanges.{columns_at};
ghost use Rattle.merge_report.specs.Words.{name_in};

use merge_schema::Publication;
use merge_types::Column;

/// The name of the article at a place, and no character where there are not so many.
pub fn article_name(publication: &Publication, place: usize) -> &str
    ensures { result.now ≡ article_name publication.now place }
{
    match publication.articles.as_slice().get(place) {
        Some(article) => article.name.as_str(),
        None => "",
    }
}

/// The columns of the article at a place, and none where there are not so many articles.
pub fn columns_at(publication: &Publication, place: u8) -> &[Column]
    ensures { result.now ≡ columns_at publication.now place }
{
    match publication.article_at(place) {
        Some(article) => article.columns.as_slice(),
        None => &[],
    }
}

/// The name of the column at a place, and no character where there are not so many.
pub fn column_name(columns: &[Column], place: u8) -> &str
    ensures { result.now ≡ name_in columns.now place }
{
    match columns.get(place as usize) {
        Some(column) => column.name.as_str(),
        None => "",
    }
}
