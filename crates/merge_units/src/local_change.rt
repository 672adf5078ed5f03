//! What a local change makes of a row.
ghost use Rattle.std.specs.Prelude.{◌≡◌, false, true, ◌∷◌, [], IfOk, length, map};
ghost use Rattle.std.specs.List.{enumerate_from};
ghost use Rattle.merge_lineage.specs.Lineage.{knows};
ghost use Rattle.merge_units.specs.Length.{value_count};
ghost use Rattle.merge_units.specs.Version.{is_live, cells_of, FitsTracking};
ghost use Rattle.merge_units.specs.Changes.{new_cells, new_row, value_after, cell_after, cells_after, changed, removed, AscendBelow};

use crate::{Body, Cell, Cells, Version};
use merge_lineage::Lineage;
use merge_types::{Dot, NoMemory, Setting, Tracking, Value, Values};
use std::alloc::Global;

/// The version that an insert of these values makes, by the change with this dot.
pub fn insert(
    alloc: Global,
    dot: Dot,
    values: Values,
    tracking: Tracking,
) -> Result<Version, NoMemory>
    ensures { IfOk result (λ version. version ≡ new_row dot values tracking) }
{
    let mut dots = Vec::with_capacity(alloc, 1)?;
    dots.push(dot)?;
    let lineage = Lineage::restore(dots);
    let body = Body::Live(new_cells(alloc, dot, values, tracking)?);
    Ok(Version { lineage, body })
}

// A list of one cell, with memory for no more.
fn one_cell(alloc: Global, cell: Cell) -> Result<Cells, NoMemory>
    ensures { IfOk result (λ cells. cells ≡ cell ∷ []) }
{
    let mut cells = Vec::with_capacity(alloc, 1)?;
    cells.push(cell)?;
    Ok(Cells::new(cells))
}

// The cells of a new row.
fn new_cells(alloc: Global, dot: Dot, values: Values, tracking: Tracking) -> Result<Cells, NoMemory>
    ensures { IfOk result (λ cells. cells ≡ new_cells tracking dot values) }
{
    match tracking {
        Tracking::Row => one_cell(alloc, Cell { top: dot, values }),
        Tracking::ByColumn => Ok(Cells::new(new_columns(alloc, dot, values.into_vec())?)),
    }
}

fn new_columns(alloc: Global, dot: Dot, values: Vec<Value>) -> Result<Vec<Cell>, NoMemory>
    ensures { IfOk result (λ cells. cells.items ≡ map (λ value. record { top = dot; values = value ∷ [] }) values.items) }
{
    let mut cells = Vec::with_capacity(alloc, values.len())?;
    for value in values {
        cells.push(column_cell(alloc, dot, value)?)?;
    }
    Ok(cells)
}

/// The version after an update of these columns by the change with this dot.
/// An update with equal values is a change too.
pub fn change(
    alloc: Global,
    version: &Version,
    dot: Dot,
    edits: &[Setting],
    tracking: Tracking,
) -> Result<Version, NoMemory>
    requires live { is_live version.now.body ≡ true }
    requires new { knows version.now.lineage dot ≡ false }
    requires tracking { FitsTracking tracking (cells_of version.now.body) }
    requires places { AscendBelow (value_count (cells_of version.now.body)) edits.now }
    ensures { IfOk result (λ after. after ≡ changed version.now dot edits.now tracking) }
{
    let lineage = version.lineage.advance(dot)?;
    match &version.body {
        Body::Live(cells) => {
            let body = Body::Live(cells_after(alloc, cells.as_slice(), dot, edits, tracking)?);
            Ok(Version { lineage, body })
        }
        Body::Dead(_) => unreachable!(),
    }
}

/// The version after a delete by the change with this dot.
pub fn remove(version: &Version, dot: Dot) -> Result<Version, NoMemory>
    requires live { is_live version.now.body ≡ true }
    requires new { knows version.now.lineage dot ≡ false }
    ensures { IfOk result (λ after. after ≡ removed version.now dot) }
{
    let lineage = version.lineage.advance(dot)?;
    let body = Body::Dead(dot);
    Ok(Version { lineage, body })
}

// The cells after an update.
fn cells_after(
    alloc: Global,
    cells: &[Cell],
    dot: Dot,
    edits: &[Setting],
    tracking: Tracking,
) -> Result<Cells, NoMemory>
    requires tracking { FitsTracking tracking cells.now }
    requires places { AscendBelow (value_count cells.now) edits.now }
    ensures { IfOk result (λ after. after ≡ cells_after tracking dot edits.now cells.now) }
{
    match tracking {
        Tracking::Row => {
            let values = Values::new(values_after(alloc, cells[0].values.as_slice(), edits)?);
            one_cell(alloc, Cell { top: dot, values })
        }
        Tracking::ByColumn => Ok(Cells::new(columns_after(alloc, cells, dot, edits)?)),
    }
}

// The values of a row after an update.
fn values_after(alloc: Global, values: &[Value], edits: &[Setting]) -> Result<Vec<Value>, NoMemory>
    requires { AscendBelow (length values.now) edits.now }
    ensures { IfOk result (λ after. after.items ≡ map (value_after edits.now) (enumerate_from 0 values.now)) }
{
    let mut after = values.to_vec(alloc)?;
    for edit in edits {
        after[edit.column as usize] = edit.value.clone()?;
    }
    Ok(after)
}

// The cells of the columns after an update.
fn columns_after(
    alloc: Global,
    cells: &[Cell],
    dot: Dot,
    edits: &[Setting],
) -> Result<Vec<Cell>, NoMemory>
    requires { AscendBelow (length cells.now) edits.now }
    ensures { IfOk result (λ after. after.items ≡ map (cell_after dot edits.now) (enumerate_from 0 cells.now)) }
{
    let mut after = cells.to_vec(alloc)?;
    for edit in edits {
        after[edit.column as usize] = column_cell(alloc, dot, edit.value.clone()?)?;
    }
    Ok(after)
}

// The cell of a column that is set.
fn column_cell(alloc: Global, dot: Dot, value: Value) -> Result<Cell, NoMemory>
    ensures { IfOk result (λ cell. cell ≡ record { top = dot; values = value ∷ [] }) }
{
    let mut values = Vec::with_capacity(alloc, 1)?;
    values.push(value)?;
    Ok(Cell {
        top: dot,
        values: Values::new(values),
    })
}
