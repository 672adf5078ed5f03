//! Partitions computed anew from the live rows, by the rule alone. It is for the tests.
ghost use Rattle.std.specs.Prelude.{length};
ghost use Rattle.merge_schema.specs.Valid.{FilterFits};
ghost use Rattle.merge_schema.specs.ValidityLaws.{FiltersFit};

use merge_filter::{Truth, eval};
use merge_gens::MoveKind;
use merge_part::Move;
use merge_schema::{Article, JoinFilter, Publication};
use merge_types::{HostName, NoMemory, RowId, SiteId, Steps, Value, Values};
use std::alloc::Global;
use std::sync::ledger::Ledger;

/// A live row, with its article's place.
#[derive(Drop)]
pub struct LiveRow {
    pub article: u8,
    pub row: RowId,
    pub values: Values,
}

/// A row in the partition of a site.
#[derive(Clone, Copy, Debug, PartialEq, Eq, PartialOrd, Ord)]
pub struct Place {
    pub article: u8,
    pub row: RowId,
    pub site: SiteId,
}

// Whether the row's filter is true of it at the host.
fn passes<L: Ledger>(
    article: &Article,
    host: &HostName,
    row: &LiveRow,
    steps: &mut Steps<L>,
) -> bool
    requires { FilterFits article.now.filter (length row.now.values) }
{
    match &article.filter {
        Some(filter) => eval(filter, row.values.as_slice(), host, steps) == Truth::True,
        None => false,
    }
}

// Whether the other row is a parent of the row by the join: their values are equal and not Null.
fn is_parent(join: &JoinFilter, row: &LiveRow, parent: &LiveRow) -> bool {
    let child_value = row.values.as_slice().get(join.column as usize);
    let parent_value = parent.values.as_slice().get(join.parent_column as usize);
    match (child_value, parent_value) {
        (Some(Value::Null), _) => false,
        (Some(value), Some(other)) => parent.article == join.parent && value == other,
        _ => false,
    }
}

// Whether a parent by the join is among the live rows that are inside.
fn has_parent(live: &[LiveRow], inside: &[bool], row: &LiveRow, join: &JoinFilter) -> bool {
    for (parent, is_inside) in live.iter().zip(inside.iter()) {
        if *is_inside && is_parent(join, row, parent) {
            return true;
        }
    }
    false
}

// Whether the row belongs, where these live rows are inside.
fn belongs<L: Ledger>(
    publication: &Publication,
    host: &HostName,
    live: &[LiveRow],
    inside: &[bool],
    row: &LiveRow,
    steps: &mut Steps<L>,
) -> bool
    requires { FiltersFit publication.now }
{
    let articles = publication.articles.as_slice();
    if row.article as usize >= articles.len() {
        return false;
    }
    let article = &articles[row.article as usize];
    if row.values.len() != article.columns.len() {
        return false;
    }
    let joins = article.joins.as_slice();
    let is_whole = article.filter.is_none() && joins.is_empty();
    is_whole || passes(article, host, row, steps) || follows(live, inside, row, joins)
}

// Whether one of the joins has a parent of the row that is inside.
fn follows(live: &[LiveRow], inside: &[bool], row: &LiveRow, joins: &[JoinFilter]) -> bool {
    for join in joins {
        if has_parent(live, inside, row, join) {
            return true;
        }
    }
    false
}

// Which live rows belong, where these are inside.
fn next_inside<L: Ledger>(
    alloc: Global,
    publication: &Publication,
    host: &HostName,
    live: &[LiveRow],
    inside: &[bool],
    steps: &mut Steps<L>,
) -> Result<Vec<bool>, NoMemory>
    requires { FiltersFit publication.now }
{
    let mut next = Vec::new(alloc);
    for row in live {
        next.push(belongs(publication, host, live, inside, row, steps))?;
    }
    Ok(next)
}

// Which live rows are in the partition at the host: none at first, and then those that belong, until
// each row had its turn to bring others.
fn inside_at<L: Ledger>(
    alloc: Global,
    publication: &Publication,
    host: &HostName,
    live: &[LiveRow],
    steps: &mut Steps<L>,
) -> Result<Vec<bool>, NoMemory>
    requires { FiltersFit publication.now }
{
    let mut inside = Vec::new(alloc);
    for _ in live {
        inside = next_inside(alloc, publication, host, live, &inside, steps)?;
    }
    Ok(inside)
}

// Adds the live rows that are inside.
fn push_inside(
    site: SiteId,
    live: &[LiveRow],
    inside: &[bool],
    places: &mut Vec<Place>,
) -> Result<(), NoMemory> {
    for (row, is_inside) in live.iter().zip(inside.iter()) {
        if *is_inside {
            places.push(Place {
                article: row.article,
                row: row.row,
                site,
            })?;
        }
    }
    Ok(())
}

/// The partitions of all sites.
pub fn partitions<L: Ledger>(
    alloc: Global,
    publication: &Publication,
    live: &[LiveRow],
    steps: &mut Steps<L>,
) -> Result<Vec<Place>, NoMemory>
    requires { FiltersFit publication.now }
{
    let mut places = Vec::new(alloc);
    for subscription in publication.subscriptions.as_slice() {
        let inside = inside_at(alloc, publication, &subscription.host, live, steps)?;
        push_inside(subscription.site, live, &inside, &mut places)?;
    }
    Ok(places)
}

// Adds a move of this kind for each place of the one partitions that is not of the others.
fn push_moves(
    places: &[Place],
    others: &[Place],
    kind: MoveKind,
    moves: &mut Vec<Move>,
) -> Result<(), NoMemory> {
    for place in places {
        if !others.contains(place) {
            moves.push(Move {
                article: place.article,
                row: place.row,
                site: place.site,
                kind,
            })?;
        }
    }
    Ok(())
}

/// The differences of the partitions, by article, row and site.
pub fn differences(
    alloc: Global,
    before: &[Place],
    after: &[Place],
) -> Result<Vec<Move>, NoMemory> {
    let mut moves = Vec::new(alloc);
    push_moves(before, after, MoveKind::Left, &mut moves)?;
    push_moves(after, before, MoveKind::Entered, &mut moves)?;
    moves.sort_unstable();
    Ok(moves)
}
