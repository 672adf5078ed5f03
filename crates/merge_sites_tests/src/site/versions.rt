//! What versions of rows have in forged messages.
use merge_lineage::{Lineage, are_ascending};
use merge_types::{Dot, NoMemory, SiteId, Value, Values, Words};
use merge_units::{Cell, Cells};
use std::alloc::Global;
use std::test::Fail;

/// A change: its site and its number there.
pub type Made = (u16, u64);

pub fn dot(made: Made) -> Dot {
    Dot {
        site: SiteId(made.0),
        number: made.1,
    }
}

/// The lineage that knows these changes.
pub fn lineage(alloc: Global, known: &[Made]) -> Result<Lineage, Fail> {
    let mut dots = Vec::new(alloc);
    for made in known {
        dots.push(dot(*made))?;
    }
    if !are_ascending(dots.as_slice()) {
        return Err(Fail::from("sites do not ascend"));
    }
    Ok(Lineage::restore(dots))
}

fn one_cell(alloc: Global, top: Made, values: Values) -> Result<Cells, NoMemory> {
    let mut cells = Cells::empty(alloc);
    cells.push(Cell {
        top: dot(top),
        values,
    })?;
    Ok(cells)
}

/// A ticket of this number, whose values the change set.
pub fn ticket(alloc: Global, top: Made, number: i64) -> Result<Cells, NoMemory> {
    let mut values = Values::empty(alloc);
    values.push(Value::Int(number))?;
    values.push(Value::Int(5))?;
    one_cell(alloc, top, values)
}

/// A customer of the north, whose values the change set.
pub fn customer(alloc: Global, top: Made) -> Result<Cells, NoMemory> {
    let mut values = Values::empty(alloc);
    values.push(Value::Text(Words::of(alloc, "north")?))?;
    values.push(Value::Null)?;
    one_cell(alloc, top, values)
}
