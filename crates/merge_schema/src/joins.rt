//! Joins between articles: their types, and the articles that they lead to.
ghost use Rattle.std.specs.Prelude.{◌≡◌, ◌==◌, ◌||◌, IfOk, length, map, slice_get, slice_index_or, false, not};
ghost use Rattle.std.specs.List.{list_any};
ghost use Rattle.merge_schema.specs.declared.publication.Article.{Article};
ghost use Rattle.merge_schema.specs.Ancestors.{columns_if, is_unlike, joins_alike, leads_to, descendants_within, is_ancestor, no_own_ancestor, joins_checked};
ghost use Rattle.merge_schema.specs.Steps.{Gives, every};

use crate::fault::SchemaFault;
use crate::publication::{Article, JoinFilter};
use merge_filter::{are_alike, column_type};
use merge_types::{Column, Listing, NoMemory};
use std::alloc::Global;

// The columns of the article at a place.
fn columns_at(articles: &[Article], place: usize) -> &[Column]
    ensures { result.now ≡ columns_if (slice_get articles.now place) }
{
    match articles.get(place) {
        None => &[],
        Some(article) => article.columns.as_slice(),
    }
}

fn is_unlike(articles: &[Article], article: &Article, join: &JoinFilter) -> bool
    ensures { result ≡ is_unlike articles.now article.now join.now }
{
    let parent = columns_at(articles, join.parent as usize);
    !are_alike(
        column_type(article.columns.as_slice(), join.column as usize),
        column_type(parent, join.parent_column as usize),
    )
}

fn has_unlike(articles: &[Article], article: &Article) -> bool
    ensures { result ≡ list_any (is_unlike articles.now article.now) article.now.joins }
{
    let joins = article.joins.as_slice();
    joins.iter().any(|join| is_unlike(articles, article, join))
}

fn joins_alike(articles: &[Article], article: &Article) -> Result<(), SchemaFault>
    ensures { Gives (λ x. x) result (joins_alike articles.now article.now) }
{
    if has_unlike(articles, article) {
        Err(SchemaFault::JoinTypes {
            article: article.name.clone()?,
        })
    } else {
        Ok(())
    }
}

fn all_joins_alike(articles: &[Article]) -> Result<(), SchemaFault>
    ensures { Gives (λ x. x) result (every (joins_alike articles.now) articles.now) }
{
    for article in articles {
        joins_alike(articles, article)?;
    }
    Ok(())
}

/// Whether the article at a place is marked.
pub fn mark(marks: &[bool], place: usize) -> bool
    ensures { result ≡ slice_index_or marks.now place false }
{
    match marks.get(place) {
        Some(mark) => *mark,
        None => false,
    }
}

// Whether some join leads to the article at a place, or to one that is marked.
fn leads_to(place: usize, marks: &[bool], joins: &[JoinFilter]) -> bool
    ensures { result ≡ leads_to place marks.now joins.now }
{
    joins.iter().any(|join| join.parent as usize == place || mark(marks, join.parent as usize))
}

// The articles from which a join leads to the article at a place, or to one that is marked.
fn step_back(
    alloc: Global,
    articles: &[Article],
    place: usize,
    marks: &[bool],
) -> Result<Listing<bool>, NoMemory>
    ensures { IfOk result (λ stepped. stepped ≡ map (λ (article : Article). leads_to place marks.now article.joins) articles.now) }
{
    let mut stepped = Listing::empty(alloc);
    for article in articles {
        stepped.push(leads_to(place, marks, article.joins.as_slice()))?;
    }
    Ok(stepped)
}

/// For each article, whether joins lead from it to the article at a place.
pub fn descendants(
    alloc: Global,
    articles: &[Article],
    place: usize,
) -> Result<Listing<bool>, NoMemory>
    ensures { IfOk result (λ marks. marks ≡ descendants_within (length articles.now) articles.now place) }
{
    let mut marks = Listing::empty(alloc);
    for _ in 0..articles.len() {
        marks = step_back(alloc, articles, place, marks.as_slice())?;
    }
    Ok(marks)
}

// Whether an article is an ancestor of another.
fn is_ancestor(
    alloc: Global,
    articles: &[Article],
    ancestor: usize,
    place: usize,
) -> Result<bool, NoMemory>
    ensures { IfOk result (λ is. is ≡ is_ancestor articles.now ancestor place) }
{
    let marks = descendants(alloc, articles, ancestor)?;
    Ok(mark(marks.as_slice(), place))
}

fn no_own_ancestor(alloc: Global, articles: &[Article]) -> Result<(), SchemaFault>
    ensures { Gives (λ x. x) result (no_own_ancestor articles.now 0 articles.now) }
{
    for (place, article) in articles.iter().enumerate() {
        if is_ancestor(alloc, articles, place, place)? {
            return Err(SchemaFault::JoinCycle {
                article: article.name.clone()?,
            });
        }
    }
    Ok(())
}

/// Refuses a join of unlike types, and an article that is its own ancestor.
#[tactic(auto, unfolding(crate::specs::Ancestors::joins_checked))]
pub fn joins_checked(alloc: Global, articles: &[Article]) -> Result<(), SchemaFault>
    ensures { Gives (λ x. x) result (joins_checked articles.now) }
{
    all_joins_alike(articles)?;
    no_own_ancestor(alloc, articles)
}
