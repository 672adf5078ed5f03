//! Rows: those of an article with their values, those of a partition, and how many there are.
ghost use Rattle.std.specs.Prelude.{◌≡◌, ◌++◌, All, OnOk, string_bytes};
ghost use Rattle.std.specs.List.{flat_map};
ghost use Rattle.merge_types.specs.Literal.{IsProper};
ghost use Rattle.merge_model.specs.Script.Play.{names_of};
ghost use Rattle.merge_model.specs.Script.Text.{counts_from, member_line, partition_text, row_line, rows_text};
ghost use Rattle.merge_model.specs.declared.answer.ShownRow.{ShownRow as Shown};
ghost use Rattle.merge_model.specs.Script.Proper.{AreProper};
ghost use Rattle.merge_report.specs.Words.{value_word};

use crate::names::article_name;
use merge_model::ShownRow;
use merge_schema::Publication;
use merge_types::{NoMemory, RowKey, Value};
use std::alloc::Global;

// Adds a blank and a value.
fn add_value(alloc: Global, text: &mut String, value: &Value) -> Result<(), NoMemory>
    requires { IsProper value.now }
    ensures { OnOk result (string_bytes text.new ≡ string_bytes text.old ++ value_word value.now) }
{
    write!(text, " {}", value.text(alloc)?)?;
    Ok(())
}

/// Adds values, with a blank before each.
pub fn add_values(alloc: Global, text: &mut String, values: &[Value]) -> Result<(), NoMemory>
    requires { AreProper values.now }
    ensures { OnOk result (string_bytes text.new ≡ string_bytes text.old ++ flat_map value_word values.now) }
{
    for value in values {
        add_value(alloc, text, value)?;
    }
    Ok(())
}

// Adds the line of a row: its identifier and its values.
fn add_row(alloc: Global, text: &mut String, row: &ShownRow) -> Result<(), NoMemory>
    requires { AreProper row.now.values }
    ensures { OnOk result (string_bytes text.new ≡ string_bytes text.old ++ row_line row.now) }
{
    write!(text, "{}", row.row.text(alloc)?)?;
    add_values(alloc, text, row.values.as_slice())?;
    writeln!(text)?;
    Ok(())
}

/// Adds the rows of an article, and how many they are.
pub fn add_rows(alloc: Global, text: &mut String, rows: &[ShownRow]) -> Result<(), NoMemory>
    requires { All (λ (row : Shown). AreProper row.values) rows.now }
    ensures { OnOk result (string_bytes text.new ≡ string_bytes text.old ++ rows_text rows.now) }
{
    for row in rows {
        add_row(alloc, text, row)?;
    }
    writeln!(text, "rows {}", rows.len())?;
    Ok(())
}

// Adds the line of a row of a partition: its article and its identifier.
fn add_member(
    alloc: Global,
    text: &mut String,
    publication: &Publication,
    row: &RowKey,
) -> Result<(), NoMemory>
    ensures { OnOk result (string_bytes text.new ≡ string_bytes text.old ++ member_line (names_of publication.now) row.now) }
{
    let article = article_name(publication, row.article as usize);
    writeln!(text, "{article} {}", row.row.text(alloc)?)?;
    Ok(())
}

/// Adds the rows of a partition, and how many they are.
pub fn add_partition(
    alloc: Global,
    text: &mut String,
    publication: &Publication,
    rows: &[RowKey],
) -> Result<(), NoMemory>
    ensures { OnOk result (string_bytes text.new ≡ string_bytes text.old ++ partition_text (names_of publication.now) rows.now) }
{
    for row in rows {
        add_member(alloc, text, publication, row)?;
    }
    writeln!(text, "rows {}", rows.len())?;
    Ok(())
}

/// Adds how many rows each article has.
pub fn add_counts(
    text: &mut String,
    publication: &Publication,
    counts: &[u64],
) -> Result<(), NoMemory>
    ensures { OnOk result (string_bytes text.new ≡ string_bytes text.old ++ counts_from (names_of publication.now) 0 counts.now) }
{
    for (place, count) in counts.iter().enumerate() {
        writeln!(text, "{} {count}", article_name(publication, place))?;
    }
    Ok(())
}
