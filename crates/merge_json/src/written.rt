//! Changes, values and cells as JSON values.
ghost use Rattle.std.specs.Prelude.{◌≡◌, All, IfOk, Some, codes, string_bytes};
ghost use Rattle.std.specs.List.{AllByRecursion};
ghost use Rattle.hex.specs.Hex.{encode_lower};
ghost use Rattle.serde_json.specs.Data.{object, member, no_members};
ghost use Rattle.serde_json.specs.View.{view};
ghost use Rattle.merge_types.specs.declared.values.Value.TheVariants as datum;
ghost use Rattle.merge_types.specs.Literal.{IsProper, printed as printed_text};
ghost use Rattle.merge_json.specs.Rows.{dot_at, lineage_at, row_at, cell_at};
ghost use Rattle.merge_json.specs.Values.{value_at};
ghost use Rattle.merge_json.specs.Written.{ReadsBack, list_of, dot_data, guid_data, tagged_data, value_data, cell_data};
ghost use Rattle.merge_json.specs.Sendable.{HasProperDays};

use merge_lineage::Lineage;
use merge_types::{Dot, NoMemory, RowId, Value as Datum};
use merge_units::Cell;
use serde_json::{Value, json};
use std::alloc::{AllocError, Global};

pub(crate) fn dot_value(alloc: Global, dot: Dot) -> Result<Value, AllocError>
    ensures told { IfOk result (λ v. view v ≡ dot_data dot) }
    ensures again { IfOk result (λ v. dot_at (dot_data dot) ≡ Some dot) }
{
    let site = dot.site.0;
    let number = dot.number;
    json!(in alloc; [site, number])
}

fn dots_value(alloc: Global, dots: &[Dot]) -> Result<Value, AllocError>
    ensures told { IfOk result (λ v. view v ≡ list_of dot_data dots.now) }
    ensures again { IfOk result (λ v. AllByRecursion (ReadsBack dot_at dot_data) dots.now) }
{
    let mut values = Vec::new(alloc);
    for dot in dots {
        values.push(dot_value(alloc, *dot)?)?;
    }
    Ok(Value::Array(values))
}

#[tactic(auto, unfolding(crate::specs::Rows::lineage_at))]
pub(crate) fn lineage_value(alloc: Global, lineage: &Lineage) -> Result<Value, AllocError>
    ensures told { IfOk result (λ v. view v ≡ list_of dot_data lineage.now) }
    ensures again { IfOk result (λ v. lineage_at (list_of dot_data lineage.now) ≡ Some lineage.now) }
{
    let value = dots_value(alloc, lineage.dots())?;
    Ok(value)
}

pub(crate) fn row_value(alloc: Global, row: RowId) -> Result<Value, NoMemory>
    ensures told { IfOk result (λ v. view v ≡ guid_data row.0) }
    ensures again { IfOk result (λ v. row_at (guid_data row.0) ≡ Some row) }
{
    let words = row.text(alloc)?;
    Ok(Value::String(words.into_string()))
}

fn day_value(alloc: Global, text: String) -> Result<Value, AllocError>
    ensures { IfOk result (λ v. view v ≡ tagged_data (codes "day") (string_bytes text)) }
{
    json!(in alloc; {"day": text})
}

fn guid_value(alloc: Global, number: u128) -> Result<Value, NoMemory>
    ensures told { IfOk result (λ v. view v ≡ value_data (datum.Guid number)) }
    ensures again { IfOk result (λ v. value_at (value_data (datum.Guid number)) ≡ Some (datum.Guid number)) }
{
    let words = RowId(number).text(alloc)?;
    let value = guid_object(alloc, words.into_string())?;
    Ok(value)
}

fn guid_object(alloc: Global, text: String) -> Result<Value, AllocError>
    ensures { IfOk result (λ v. view v ≡ tagged_data (codes "guid") (string_bytes text)) }
{
    json!(in alloc; {"guid": text})
}

fn bytes_value(alloc: Global, bytes: &[u8]) -> Result<Value, AllocError>
    ensures told { IfOk result (λ v. view v ≡ tagged_data (codes "bytes") (encode_lower bytes.now)) }
    ensures again { IfOk result (λ v. value_at (value_data (datum.Bytes bytes.now)) ≡ Some (datum.Bytes bytes.now)) }
{
    let text = hex::encode(alloc, bytes)?;
    let value = text_value(alloc, text)?;
    Ok(value)
}

fn text_value(alloc: Global, text: String) -> Result<Value, AllocError>
    ensures { IfOk result (λ v. view v ≡ tagged_data (codes "bytes") (string_bytes text)) }
{
    json!(in alloc; {"bytes": text})
}

fn printed(alloc: Global, datum: &Datum) -> Result<String, NoMemory>
    requires { IsProper datum.now }
    ensures { IfOk result (λ text. string_bytes text ≡ printed_text datum.now) }
{
    let words = datum.text(alloc)?;
    Ok(words.into_string())
}

fn datum_value(alloc: Global, datum: &Datum) -> Result<Value, NoMemory>
    requires { IsProper datum.now }
    ensures told { IfOk result (λ v. view v ≡ value_data datum.now) }
    ensures again { IfOk result (λ v. value_at (value_data datum.now) ≡ Some datum.now) }
{
    match datum {
        Datum::Null => Ok(Value::Null),
        Datum::Int(number) => Ok(Value::from(*number)),
        Datum::Bit(bit) => Ok(Value::Bool(*bit)),
        Datum::Text(words) => Ok(Value::try_from_str(alloc, words.as_str())?),
        Datum::Day(_) => Ok(day_value(alloc, printed(alloc, datum)?)?),
        Datum::Guid(number) => Ok(guid_value(alloc, *number)?),
        Datum::Bytes(octets) => Ok(bytes_value(alloc, octets.as_slice())?),
    }
}

fn datums_value(alloc: Global, datums: &[Datum]) -> Result<Value, NoMemory>
    requires { All IsProper datums.now }
    ensures told { IfOk result (λ v. view v ≡ list_of value_data datums.now) }
    ensures again { IfOk result (λ v. AllByRecursion (ReadsBack value_at value_data) datums.now) }
{
    let mut values = Vec::new(alloc);
    for datum in datums {
        values.push(datum_value(alloc, datum)?)?;
    }
    Ok(Value::Array(values))
}

fn cell_value(alloc: Global, cell: &Cell) -> Result<Value, NoMemory>
    requires { HasProperDays cell.now }
    ensures told { IfOk result (λ v. view v ≡ cell_data cell.now) }
    ensures again { IfOk result (λ v. cell_at (cell_data cell.now) ≡ Some cell.now) }
{
    let top = dot_value(alloc, cell.top)?;
    let listed = cell.values.as_slice();
    let values = datums_value(alloc, listed)?;
    let value = cell_object(alloc, top, values)?;
    Ok(value)
}

fn cell_object(alloc: Global, top: Value, values: Value) -> Result<Value, AllocError>
    ensures { IfOk result (λ v. view v ≡ object (member (codes "top") (view top) (member (codes "values") (view values) no_members))) }
{
    json!(in alloc; {"top": top, "values": values})
}

pub(crate) fn cells_value(alloc: Global, cells: &[Cell]) -> Result<Value, NoMemory>
    requires { All HasProperDays cells.now }
    ensures told { IfOk result (λ v. view v ≡ list_of cell_data cells.now) }
    ensures again { IfOk result (λ v. AllByRecursion (ReadsBack cell_at cell_data) cells.now) }
{
    let mut values = Vec::new(alloc);
    for cell in cells {
        values.push(cell_value(alloc, cell)?)?;
    }
    Ok(Value::Array(values))
}
