//! What is asked of the names in a publication file.
ghost use Rattle.std.specs.Prelude.{◌≡◌, find, not, option_copied};
ghost use Rattle.std.specs.List.{list_any};
ghost use Rattle.merge_schema.specs.declared.draft.JoinDraft.{JoinDraft};
ghost use Rattle.merge_schema.specs.declared.fault.SchemaFault.TheVariants.{BadValue};
ghost use Rattle.merge_schema.specs.Checks.{distinct_columns, parents_known, lacks_column, lacks_parent_column, lacks_resolver_column, lacks_named, is_compared, is_added, is_identity, can_decide, decides_by, cannot_decide, names_checked};
ghost use Rattle.merge_schema.specs.Lookups.{stands_in};
ghost use Rattle.merge_schema.specs.Steps.{Gives, every, refused_if};

use crate::draft::{ArticleDraft, Draft, JoinDraft};
use crate::fault::SchemaFault;
use crate::file_values::bad_value;
use crate::names::{
    article_names, column_names, column_place, columns_named, distinct, has_column, site_names,
    stands_in,
};
use crate::publication::Identity;
use merge_filter::column_type;
use merge_types::{ColumnType, Words};
use std::alloc::Global;

fn distinct_columns(alloc: Global, articles: &[ArticleDraft]) -> Result<(), SchemaFault>
    ensures { Gives (λ x. x) result (every distinct_columns articles.now) }
{
    for article in articles {
        let names = column_names(alloc, article.columns.as_slice())?;
        distinct(names.as_slice())?;
    }
    Ok(())
}

// The first join whose parent is no article.
fn first_orphan<'a>(names: &[Words], joins: &'a [JoinDraft]) -> Option<&'a JoinDraft>
    ensures { option_copied result ≡ find (λ (join : JoinDraft). not (stands_in names.now join.parent)) joins.now }
{
    joins
        .iter()
        .find(|join| !stands_in(names, join.parent.as_str()))
}

fn parents_known(names: &[Words], article: &ArticleDraft) -> Result<(), SchemaFault>
    ensures { Gives (λ x. x) result (parents_known names.now article.now) }
{
    match first_orphan(names, article.joins.as_slice()) {
        None => Ok(()),
        Some(join) => Err(SchemaFault::UnknownArticle {
            name: join.parent.clone()?,
        }),
    }
}

fn all_parents_known(names: &[Words], articles: &[ArticleDraft]) -> Result<(), SchemaFault>
    ensures { Gives (λ x. x) result (every (parents_known names.now) articles.now) }
{
    for article in articles {
        parents_known(names, article)?;
    }
    Ok(())
}

fn lacks_column(article: &ArticleDraft) -> bool
    ensures { result ≡ lacks_column article.now }
{
    let columns = article.columns.as_slice();
    let joins = article.joins.as_slice();
    joins
        .iter()
        .any(|join| !has_column(columns, join.column.as_str()))
}

fn lacks_parent_column(articles: &[ArticleDraft], article: &ArticleDraft) -> bool
    ensures { result ≡ lacks_parent_column articles.now article.now }
{
    let joins = article.joins.as_slice();
    joins.iter().any(|join| {
        !has_column(
            columns_named(articles, join.parent.as_str()),
            join.parent_column.as_str(),
        )
    })
}

fn lacks_resolver_column(article: &ArticleDraft) -> bool
    ensures { result ≡ lacks_resolver_column article.now }
{
    match &article.resolver_column {
        None => false,
        Some(name) => !has_column(article.columns.as_slice(), name.as_str()),
    }
}

fn is_compared(ty: Option<ColumnType>) -> bool
    ensures { result ≡ is_compared ty }
{
    match ty {
        Some(ColumnType::Int) | Some(ColumnType::Day) => true,
        _ => false,
    }
}

fn is_added(ty: Option<ColumnType>) -> bool
    ensures { result ≡ is_added ty }
{
    match ty {
        Some(ColumnType::Int) => true,
        _ => false,
    }
}

fn is_identity(identity: Option<Identity>, place: usize) -> bool
    ensures { result ≡ is_identity identity place }
{
    match identity {
        None => false,
        Some(identity) => identity.column as usize == place,
    }
}

// Whether a resolver can decide by a column of this type.
fn can_decide(resolver: u8, ty: Option<ColumnType>, of_identity: bool) -> bool
    ensures { result ≡ can_decide resolver ty of_identity }
{
    if resolver == 1 || resolver == 2 {
        is_compared(ty)
    } else if resolver == 3 {
        is_added(ty) && !of_identity
    } else {
        true
    }
}

fn cannot_decide(article: &ArticleDraft) -> bool
    ensures { result ≡ cannot_decide article.now }
{
    match &article.resolver_column {
        None => false,
        Some(name) => {
            let columns = article.columns.as_slice();
            let place = column_place(columns, name.as_str()).unwrap_or(0);
            let of_identity = is_identity(article.identity, place);
            !can_decide(article.resolver, column_type(columns, place), of_identity)
        }
    }
}

fn refused_if(alloc: Global, refused: bool, key: &str) -> Result<(), SchemaFault>
    ensures { Gives (λ x. x) result (refused_if refused (BadValue key.now)) }
{
    if refused {
        Err(bad_value(alloc, key))
    } else {
        Ok(())
    }
}

fn some_lacks_column(articles: &[ArticleDraft]) -> bool
    ensures { result ≡ list_any lacks_column articles.now }
{
    articles.iter().any(|article| lacks_column(article))
}

fn some_lacks_parent_column(articles: &[ArticleDraft]) -> bool
    ensures { result ≡ list_any (lacks_parent_column articles.now) articles.now }
{
    articles
        .iter()
        .any(|article| lacks_parent_column(articles, article))
}

fn some_lacks_resolver_column(articles: &[ArticleDraft]) -> bool
    ensures { result ≡ list_any lacks_resolver_column articles.now }
{
    articles
        .iter()
        .any(|article| lacks_resolver_column(article))
}

fn some_cannot_decide(articles: &[ArticleDraft]) -> bool
    ensures { result ≡ list_any cannot_decide articles.now }
{
    articles.iter().any(|article| cannot_decide(article))
}

/// Refuses a name that is given twice, that names nothing, or that does not fit.
#[tactic(auto, unfolding(crate::specs::Checks::names_checked))]
pub fn names_checked(alloc: Global, draft: &Draft) -> Result<(), SchemaFault>
    ensures { Gives (λ x. x) result (names_checked draft.now) }
{
    let articles = draft.articles.as_slice();
    let names = article_names(alloc, articles)?;
    let sites = site_names(alloc, draft.subscriptions.as_slice())?;
    distinct(names.as_slice())?;
    distinct_columns(alloc, articles)?;
    distinct(sites.as_slice())?;
    all_parents_known(names.as_slice(), articles)?;
    refused_if(alloc, some_lacks_column(articles), "column")?;
    refused_if(alloc, some_lacks_parent_column(articles), "parent_column")?;
    refused_if(
        alloc,
        some_lacks_resolver_column(articles),
        "resolver_column",
    )?;
    refused_if(alloc, some_cannot_decide(articles), "resolver_column")
}
