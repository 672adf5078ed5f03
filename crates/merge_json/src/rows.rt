//! Changes, lineages, identifiers and cells of rows.
ghost use Rattle.serde_json.specs.View.{view, items_view};
ghost use Rattle.merge_json.specs.Outcomes.{Gives};
ghost use Rattle.merge_json.specs.Reading.{each_at};
ghost use Rattle.merge_json.specs.Rows.{pair_at, dot_at, lineage_at, row_at, cell_at};

use crate::fields::{list, member, site, whole};
use crate::stop::Stop;
use crate::texts::{guid, text};
use crate::values::data;
use merge_lineage::{Lineage, are_ascending};
use merge_types::{Dot, Listing, RowId};
use merge_units::Cell;
use serde_json::Value;
use std::alloc::Global;

#[tactic(auto, unfolding(crate::specs::Rows::dot_at))]
pub(crate) fn dot(value: &Value) -> Result<Dot, Stop>
    ensures { Gives (λ d. d) result (dot_at (view value.now)) }
{
    let values = list(value)?;
    pair(values)
}

fn pair(values: &[Value]) -> Result<Dot, Stop>
    ensures { Gives (λ d. d) result (pair_at (items_view values.now)) }
{
    let [a, b] = values else {
        return Err(Stop::Broken);
    };
    let site = site(a)?;
    let number = whole(b)?;
    Ok(Dot { site, number })
}

fn dots(alloc: Global, values: &[Value]) -> Result<Vec<Dot>, Stop>
    ensures { Gives (λ v. v.items) result (each_at dot_at (items_view values.now)) }
{
    let mut dots = Vec::new(alloc);
    for value in values {
        dots.push(dot(value)?)?;
    }
    Ok(dots)
}

#[tactic(auto, unfolding(crate::specs::Rows::lineage_at))]
pub(crate) fn lineage(alloc: Global, value: &Value) -> Result<Lineage, Stop>
    ensures { Gives (λ l. l) result (lineage_at (view value.now)) }
{
    let dots = dots(alloc, list(value)?)?;
    if are_ascending(dots.as_slice()) {
        Ok(Lineage::restore(dots))
    } else {
        Err(Stop::Broken)
    }
}

#[tactic(auto, unfolding(crate::specs::Rows::row_at))]
pub(crate) fn row(value: &Value) -> Result<RowId, Stop>
    ensures { Gives (λ r. r) result (row_at (view value.now)) }
{
    let number = guid(text(value)?)?;
    Ok(RowId(number))
}

#[tactic(auto, unfolding(crate::specs::Rows::cell_at))]
fn cell(alloc: Global, value: &Value) -> Result<Cell, Stop>
    ensures { Gives (λ c. c) result (cell_at (view value.now)) }
{
    let top = dot(member(value, "top")?)?;
    let values = data(alloc, list(member(value, "values")?)?)?;
    Ok(Cell {
        top,
        values: Listing::new(values),
    })
}

pub(crate) fn cells(alloc: Global, values: &[Value]) -> Result<Vec<Cell>, Stop>
    ensures { Gives (λ v. v.items) result (each_at cell_at (items_view values.now)) }
{
    let mut cells = Vec::new(alloc);
    for value in values {
        cells.push(cell(alloc, value)?)?;
    }
    Ok(cells)
}
