//! Names in a publication file.
ghost use Rattle.std.specs.Prelude.{◌≡◌, ◌<◌, ◌≤◌, ◌^◌, All, IfSome, Ok, bytes_eq, decimal, find, length, map, option_copied};
ghost use Rattle.merge_schema.specs.Checks.{article_names, column_names, site_names, distinct};
ghost use Rattle.merge_schema.specs.Lookups.{stands_in, first_repeated, column_place, draft_place, has_column, columns_named, found};
ghost use Rattle.merge_schema.specs.Steps.{Gives};
ghost use Rattle.merge_schema.specs.declared.draft.ArticleDraft.{ArticleDraft};

use crate::draft::ArticleDraft;
use crate::fault::SchemaFault;
use crate::publication::Subscription;
use merge_types::{Column, Listing, Words};
use std::alloc::Global;

pub fn stands_in(names: &[Words], name: &str) -> bool
    ensures { result ≡ stands_in names.now name.now }
{
    names.iter().any(|other| other.as_str() == name)
}

// The first name that stood before.
fn first_repeated(names: &[Words]) -> Option<&Words>
    ensures { option_copied result ≡ first_repeated names.now }
{
    for (place, name) in names.iter().enumerate() {
        if stands_in(&names[..place], name.as_str()) {
            return Some(name);
        }
    }
    None
}

/// Refuses the first name that stood before.
pub fn distinct(names: &[Words]) -> Result<(), SchemaFault>
    ensures { Gives (λ x. x) result (distinct names.now) }
{
    match first_repeated(names) {
        None => Ok(()),
        Some(name) => Err(SchemaFault::Duplicate {
            name: name.clone()?,
        }),
    }
}

pub fn article_names(
    alloc: Global,
    articles: &[ArticleDraft],
) -> Result<Listing<Words>, SchemaFault>
    ensures { Gives (λ x. x) result (Ok (article_names articles.now)) }
{
    let mut names = Listing::empty(alloc);
    for article in articles {
        names.push(article.name.clone()?)?;
    }
    Ok(names)
}

pub fn column_names(alloc: Global, columns: &[Column]) -> Result<Listing<Words>, SchemaFault>
    ensures { Gives (λ x. x) result (Ok (column_names columns.now)) }
{
    let mut names = Listing::empty(alloc);
    for column in columns {
        names.push(column.name.clone()?)?;
    }
    Ok(names)
}

// The name of a site is its decimal.
fn site_name(alloc: Global, subscription: &Subscription) -> Result<Words, SchemaFault>
    ensures { Gives (λ x. x) result (Ok (decimal subscription.now.site.0)) }
{
    let site = subscription.site.0;
    Ok(Words::new(format!(in alloc; "{site}")?))
}

pub fn site_names(
    alloc: Global,
    subscriptions: &[Subscription],
) -> Result<Listing<Words>, SchemaFault>
    ensures { Gives (λ x. x) result (Ok (site_names subscriptions.now)) }
{
    let mut names = Listing::empty(alloc);
    for subscription in subscriptions {
        names.push(site_name(alloc, subscription)?)?;
    }
    Ok(names)
}

/// The place of the column with this name.
pub fn column_place(columns: &[Column], name: &str) -> Option<usize>
    ensures place { result ≡ column_place columns.now name.now }
    ensures within { IfSome result (λ place. place < length columns.now) }
{
    columns
        .iter()
        .position(|column| column.name.as_str() == name)
}

pub fn has_column(columns: &[Column], name: &str) -> bool
    ensures { result ≡ has_column columns.now name.now }
{
    column_place(columns, name).is_some()
}

/// The place of the article with this name.
pub fn draft_place(articles: &[ArticleDraft], name: &str) -> Option<usize>
    ensures place { result ≡ draft_place articles.now name.now }
    ensures within { IfSome result (λ place. place < length articles.now) }
{
    articles
        .iter()
        .position(|article| article.name.as_str() == name)
}

// The article with this name.
fn draft_named<'a>(articles: &'a [ArticleDraft], name: &str) -> Option<&'a ArticleDraft>
    ensures { option_copied result ≡ find (λ (article : ArticleDraft). bytes_eq article.name name.now) articles.now }
{
    articles
        .iter()
        .find(|article| article.name.as_str() == name)
}

/// The columns of the article with this name.
pub fn columns_named<'a>(articles: &'a [ArticleDraft], name: &str) -> &'a [Column]
    ensures columns { result.now ≡ columns_named articles.now name.now }
    ensures few { All (λ (article : ArticleDraft). length article.columns ≤ 64) articles.now → length result.now ≤ 64 }
{
    match draft_named(articles, name) {
        None => &[],
        Some(article) => article.columns.as_slice(),
    }
}

/// A place that was found, as a small number.
pub fn found(place: Option<usize>) -> u8
    requires { IfSome place (λ place. place < 256) }
    ensures { result ≡ found place }
{
    match place {
        None => 0,
        Some(place) => place as u8,
    }
}
