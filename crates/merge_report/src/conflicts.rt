//! Versions that lost.
ghost use Rattle.std.specs.Prelude.{◌≡◌, ◌++◌, All, OnOk, string_bytes};
ghost use Rattle.merge_model.specs.Script.Play.{names_of};
ghost use Rattle.merge_model.specs.Script.Text.{body_words, conflict_line, conflicts_text, joined_words, verdict_text};
ghost use Rattle.merge_conflict.specs.declared.row.ConflictRow.{ConflictRow as Lost};
ghost use Rattle.merge_units.specs.declared.version.Cell.{Cell as ACell};
ghost use Rattle.merge_model.specs.Script.Proper.{AreProper, IsProperBody};
ghost use Rattle.merge_report.specs.Words.{cells_text, lost_words, reason_words, spaced_words};

use crate::names::article_name;
use crate::rows::add_values;
use merge_conflict::{ConflictRow, Verdict};
use merge_schema::Publication;
use merge_types::NoMemory;
use merge_units::{Body, Cell};
use std::alloc::Global;

fn verdict_word(verdict: Verdict) -> &'static str
    ensures { result.now ≡ verdict_text verdict }
{
    match verdict {
        Verdict::Publisher => "publisher",
        Verdict::Subscriber => "subscriber",
        Verdict::Custom => "custom",
        Verdict::Purged => "purged",
        Verdict::Discarded => "discarded",
    }
}

// Adds the values of cells, with a blank before each.
fn add_cells(alloc: Global, text: &mut String, cells: &[Cell]) -> Result<(), NoMemory>
    requires { All (λ (cell : ACell). AreProper cell.values) cells.now }
    ensures { OnOk result (string_bytes text.new ≡ string_bytes text.old ++ cells_text cells.now) }
{
    for cell in cells {
        add_values(alloc, text, cell.values.as_slice())?;
    }
    Ok(())
}

// Adds the words of a body, with a blank before each.
fn add_body(alloc: Global, text: &mut String, body: &Body) -> Result<(), NoMemory>
    requires { IsProperBody body.now }
    ensures { OnOk result (string_bytes text.new ≡ string_bytes text.old ++ spaced_words (body_words body.now)) }
{
    match body {
        Body::Live(cells) => {
            write!(text, " live")?;
            add_cells(alloc, text, cells.as_slice())?;
        }
        Body::Dead(_) => write!(text, " dead")?,
    }
    Ok(())
}

// Adds the number of a conflict, and the row.
fn add_lost_row(
    alloc: Global,
    text: &mut String,
    publication: &Publication,
    row: &ConflictRow,
) -> Result<(), NoMemory>
    ensures { OnOk result (string_bytes text.new ≡ string_bytes text.old ++ joined_words (lost_words (names_of publication.now) row.now)) }
{
    let article = article_name(publication, row.article as usize);
    write!(text, "{} {article} {}", row.number, row.row.text(alloc)?)?;
    Ok(())
}

// Adds why, from where and when a version lost, with a blank before each word.
fn add_reason(text: &mut String, row: &ConflictRow) -> Result<(), NoMemory>
    ensures { OnOk result (string_bytes text.new ≡ string_bytes text.old ++ spaced_words (reason_words row.now)) }
{
    let verdict = verdict_word(row.verdict);
    write!(text, " {} {} {verdict}", row.kind.number(), row.from.0)?;
    write!(text, " {}", row.moment.0)?;
    Ok(())
}

// Adds the line of a version that lost.
fn add_conflict(
    alloc: Global,
    text: &mut String,
    publication: &Publication,
    row: &ConflictRow,
) -> Result<(), NoMemory>
    requires { IsProperBody row.now.losing.body }
    ensures { OnOk result (string_bytes text.new ≡ string_bytes text.old ++ conflict_line (names_of publication.now) row.now) }
{
    add_lost_row(alloc, text, publication, row)?;
    add_reason(text, row)?;
    add_body(alloc, text, &row.losing.body)?;
    writeln!(text)?;
    Ok(())
}

/// Adds versions that lost, and how many they are.
pub fn add_conflicts(
    alloc: Global,
    text: &mut String,
    publication: &Publication,
    rows: &[ConflictRow],
) -> Result<(), NoMemory>
    requires { All (λ (row : Lost). IsProperBody row.losing.body) rows.now }
    ensures { OnOk result (string_bytes text.new ≡ string_bytes text.old ++ conflicts_text (names_of publication.now) rows.now) }
{
    for row in rows {
        add_conflict(alloc, text, publication, row)?;
    }
    writeln!(text, "conflicts {}", rows.len())?;
    Ok(())
}
