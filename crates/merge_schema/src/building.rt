//! The publication that a checked file makes: names become places, and texts become filters.
ghost use Rattle.std.specs.Prelude.{◌≡◌, ◌≢◌, ◌≤◌, All, IfOk, IfErr, codes, length, map, option_map};
ghost use Rattle.merge_schema.specs.declared.draft.ArticleDraft.{ArticleDraft};
ghost use Rattle.merge_schema.specs.declared.fault.SchemaFault.TheVariants.{BadValue, NoMemory};
ghost use Rattle.merge_schema.specs.Answers.{IsCheckedAnswer};
ghost use Rattle.merge_schema.specs.Building.{placed_join, placed_article, IsFilterOf, IsNoFilter, IsPlaced, HasNoFilter, ArePlaced, publication_of, HasFewPlaces};
ghost use Rattle.merge_schema.specs.Lookups.{column_place, found};
ghost use Rattle.merge_schema.specs.Steps.{Gives, UnlessMemory};
ghost use Rattle.merge_schema.specs.Valid.{FilterFits};
ghost use Rattle.merge_schema.specs.declared.publication.Article.{Article};

use crate::draft::{ArticleDraft, Draft, JoinDraft};
use crate::fault::SchemaFault;
use crate::file_values::bad_value;
use crate::joins::joins_checked;
use crate::names::{column_place, columns_named, draft_place, found};
use crate::publication::{Article, JoinFilter, Publication};
use merge_filter::{Filter, FilterFault, parse};
use merge_types::{Column, Listing, Words};
use std::alloc::Global;

// The filter of a text.
fn filter_of(
    alloc: Global,
    columns: &[Column],
    text: &Option<Words>,
) -> Result<Option<Filter>, SchemaFault>
    ensures filter { IfOk result (λ filter. IsFilterOf columns.now text.now filter) }
    ensures fits { IfOk result (λ filter. FilterFits filter (length columns.now)) }
    ensures fault { IfErr result (λ e. e ≢ NoMemory → IsNoFilter columns.now text.now × (e ≡ BadValue (codes "filter"))) }
{
    match text {
        None => Ok(None),
        Some(text) => match parse(alloc, text.as_str().as_bytes(), columns) {
            Ok(filter) => Ok(Some(filter)),
            Err(FilterFault::NoMemory) => Err(SchemaFault::NoMemory),
            Err(_) => Err(bad_value(alloc, "filter")),
        },
    }
}

fn placed_join(articles: &[ArticleDraft], columns: &[Column], join: &JoinDraft) -> JoinFilter
    requires few { HasFewPlaces articles.now }
    requires own { length columns.now ≤ 64 }
    ensures { result ≡ placed_join articles.now columns.now join.now }
{
    let parent_columns = columns_named(articles, join.parent.as_str());
    JoinFilter {
        column: found(column_place(columns, join.column.as_str())),
        parent: found(draft_place(articles, join.parent.as_str())),
        parent_column: found(column_place(parent_columns, join.parent_column.as_str())),
    }
}

fn placed_joins(
    alloc: Global,
    articles: &[ArticleDraft],
    columns: &[Column],
    joins: &[JoinDraft],
) -> Result<Listing<JoinFilter>, SchemaFault>
    requires few { HasFewPlaces articles.now }
    requires own { length columns.now ≤ 64 }
    ensures { Gives (λ x. x) result (Ok (map (placed_join articles.now columns.now) joins.now)) }
{
    let mut placed = Listing::empty(alloc);
    for join in joins {
        placed.push(placed_join(articles, columns, join))?;
    }
    Ok(placed)
}

fn placed_column(columns: &[Column], name: &Option<Words>) -> Option<u8>
    requires { length columns.now ≤ 64 }
    ensures { result ≡ option_map (λ name. found (column_place columns.now name)) name.now }
{
    match name {
        None => None,
        Some(name) => Some(found(column_place(columns, name.as_str()))),
    }
}

// An article of the file, with its filter.
fn placed_article(
    alloc: Global,
    articles: &[ArticleDraft],
    draft: &ArticleDraft,
    filter: Option<Filter>,
) -> Result<Article, SchemaFault>
    requires few { HasFewPlaces articles.now }
    requires own { length draft.now.columns ≤ 64 }
    ensures { Gives (λ x. x) result (Ok (placed_article articles.now draft.now filter)) }
{
    let columns = draft.columns.as_slice();
    let joins = placed_joins(alloc, articles, columns, draft.joins.as_slice())?;
    Ok(Article {
        name: draft.name.clone()?,
        columns: draft.columns.clone()?,
        tracking: draft.tracking,
        filter,
        joins,
        identity: draft.identity,
        resolver: draft.resolver,
        resolver_column: placed_column(columns, &draft.resolver_column),
    })
}

fn article_of(
    alloc: Global,
    articles: &[ArticleDraft],
    draft: &ArticleDraft,
) -> Result<Article, SchemaFault>
    requires few { HasFewPlaces articles.now }
    requires own { length draft.now.columns ≤ 64 }
    ensures article { IfOk result (λ article. IsPlaced articles.now draft.now article) }
    ensures fits { IfOk result (λ article. FilterFits article.filter (length article.columns)) }
    ensures fault { IfErr result (λ e. e ≢ NoMemory → IsNoFilter draft.now.columns draft.now.filter × (e ≡ BadValue (codes "filter"))) }
{
    let filter = filter_of(alloc, draft.columns.as_slice(), &draft.filter)?;
    placed_article(alloc, articles, draft, filter)
}

fn articles_of(alloc: Global, drafts: &[ArticleDraft]) -> Result<Listing<Article>, SchemaFault>
    requires { HasFewPlaces drafts.now }
    ensures articles { UnlessMemory (ArePlaced drafts.now) result }
    ensures fits { IfOk result (λ articles. All (λ (article : Article). FilterFits article.filter (length article.columns)) articles) }
{
    let mut articles = Listing::empty(alloc);
    for draft in drafts {
        articles.push(article_of(alloc, drafts, draft)?)?;
    }
    Ok(articles)
}

/// The publication of a file whose names were checked.
pub fn publication_of(alloc: Global, draft: Draft) -> Result<Publication, SchemaFault>
    requires { HasFewPlaces draft.articles }
    ensures publication { UnlessMemory (IsCheckedAnswer draft) result }
    ensures fits { IfOk result (λ publication. All (λ (article : Article). FilterFits article.filter (length article.columns)) publication.articles) }
{
    let articles = articles_of(alloc, draft.articles.as_slice())?;
    joins_checked(alloc, articles.as_slice())?;
    Ok(Publication {
        name: draft.name,
        retention_days: draft.retention_days,
        conflict_retention_days: draft.conflict_retention_days,
        articles,
        subscriptions: draft.subscriptions,
    })
}
