//! What is asked about a conflict of a row.
ghost use Rattle.std.specs.Prelude.{◌≡◌, ◌≤◌, IfOk, length, map, filter_map};
ghost use Rattle.std.specs.List.{enumerate_from};
ghost use Rattle.merge_types.specs.declared.values.Column.{Column};
ghost use Rattle.merge_resolve.specs.Questions.{kind_of, sides_of_case, both_place, conflicting_places, asked_of, case_asked, question_asked};

use crate::{CaseKind, ColumnTypes, ConflictCase, Places, Question};
use merge_schema::Article;
use merge_types::{Column, Moment, NoMemory, RowId, SiteId, Tracking};
use merge_units::{Case, Side, Sides, Version};
use std::alloc::Global;

/// Where and when two versions of a row met, and with which priorities.
#[derive(Clone, Copy, Debug)]
pub struct Meeting {
    pub article: u8,
    pub row: RowId,
    /// The site whose version comes in.
    pub site: SiteId,
    pub publisher_priority: u16,
    pub incoming_priority: u16,
    pub moment: Moment,
}

impl Meeting {
    /// What the article's resolver is asked about these two versions, of which this is the case.
    pub fn question(
        &self,
        alloc: Global,
        article: &Article,
        publisher: &Version,
        incoming: &Version,
        case: &Case,
    ) -> Result<Question, NoMemory>
        requires { length (sides_of_case case.now) ≤ 256 }
        ensures { IfOk result (λ question. question ≡ question_asked self.now (asked_of article.now) publisher.now.body incoming.now.body case.now) }
    {
        let sides = sides_of_case(alloc, case)?;
        let asked = ConflictCase {
            article: self.article,
            row: self.row,
            kind: kind_of(article.tracking, case),
            site: self.site,
            publisher: publisher.body.clone()?,
            incoming: incoming.body.clone()?,
            cells: Places::new(both_places(alloc, sides.as_slice())?),
            publisher_priority: self.publisher_priority,
            incoming_priority: self.incoming_priority,
            column: article.resolver_column,
            moment: self.moment,
        };
        Ok(Question {
            place: article.resolver,
            case: asked,
            sides,
            types: types_of(alloc, article.columns.as_slice())?,
            identity: identity_column(article),
        })
    }
}

fn kind_of(tracking: Tracking, case: &Case) -> CaseKind
    ensures { result ≡ kind_of tracking case.now }
{
    match (case, tracking) {
        (Case::LifeConflict, _) => CaseKind::Delete,
        (_, Tracking::Row) => CaseKind::ByRow,
        (_, Tracking::ByColumn) => CaseKind::ByColumn,
    }
}

fn sides_of_case(alloc: Global, case: &Case) -> Result<Sides, NoMemory>
    ensures { IfOk result (λ sides. sides ≡ sides_of_case case.now) }
{
    match case {
        Case::Conflict(sides) => Ok(sides.clone()?),
        _ => Ok(Sides::empty(alloc)),
    }
}

// The places of the conflicting cells.
fn both_places(alloc: Global, sides: &[Side]) -> Result<Vec<u8>, NoMemory>
    requires { length sides.now ≤ 256 }
    ensures { IfOk result (λ places. places.items ≡ filter_map both_place (enumerate_from 0 sides.now)) }
{
    let mut places = Vec::new(alloc);
    for at in 0..sides.len() {
        if matches!(sides[at], Side::Both) {
            places.push(at as u8)?;
        }
    }
    Ok(places)
}

fn types_of(alloc: Global, columns: &[Column]) -> Result<ColumnTypes, NoMemory>
    ensures { IfOk result (λ types. types ≡ map (λ (column : Column). column.ty) columns.now) }
{
    let mut types = ColumnTypes::empty(alloc);
    for column in columns {
        types.push(column.ty)?;
    }
    Ok(types)
}

fn identity_column(article: &Article) -> Option<u8>
    ensures { result ≡ (asked_of article.now).identity }
{
    match article.identity {
        Some(identity) => Some(identity.column),
        None => None,
    }
}
