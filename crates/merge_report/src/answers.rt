//! The text of an answer.
ghost use Rattle.std.specs.Prelude.{◌≡◌, ◌++◌, ◌∷◌, [], All, IfOk, OnOk, None, codes, option_copied, string_bytes};
ghost use Rattle.std.specs.Fmt.{decimal};
ghost use Rattle.merge_types.specs.Rows.{row_text};
ghost use Rattle.merge_model.specs.Script.Play.{names_of};
ghost use Rattle.merge_model.specs.Script.Text.{line, refusal_words, text_of, texts_of};
ghost use Rattle.merge_model.specs.Script.Proper.{IsProperAnswer};
ghost use Rattle.merge_report.specs.Words.{name_of_column};

use crate::conflicts::add_conflicts;
use crate::generations::{add_publisher, add_subscriber};
use crate::lines::{add_number, add_numbers, add_three, add_word};
use crate::names::columns_at;
use crate::ranges::{add_grants, add_holders};
use crate::refusals::{add_fields, phrase};
use crate::rows::{add_counts, add_partition, add_rows};
use merge_batch::Refusal;
use merge_model::Answer;
use merge_schema::Publication;
use merge_types::{Column, NoMemory, RowId, Words};
use std::alloc::Global;

// Adds the line of a refusal. Columns are told by their places where none are given.
fn add_refused(
    text: &mut String,
    columns: Option<&[Column]>,
    refusal: &Refusal,
) -> Result<(), NoMemory>
    ensures { OnOk result (string_bytes text.new ≡ string_bytes text.old ++ line (refusal_words (name_of_column (option_copied columns.entry)) refusal.now)) }
{
    write!(text, "{}", phrase(refusal))?;
    add_fields(text, columns, refusal)?;
    writeln!(text)?;
    Ok(())
}

// Adds the line of a row that was made.
fn add_made(alloc: Global, text: &mut String, row: RowId) -> Result<(), NoMemory>
    ensures { OnOk result (string_bytes text.new ≡ string_bytes text.old ++ line (codes "row" ∷ row_text row.0 ∷ [])) }
{
    writeln!(text, "row {}", row.text(alloc)?)?;
    Ok(())
}

// Adds the line of a session that a refusal ended.
fn add_stopped(
    text: &mut String,
    uploads: u64,
    downloads: u64,
    refusal: &Refusal,
) -> Result<(), NoMemory>
    ensures { OnOk result (string_bytes text.new ≡ string_bytes text.old ++ line (codes "stopped" ∷ decimal uploads ∷ decimal downloads ∷ refusal_words (name_of_column None) refusal.now)) }
{
    write!(text, "stopped {uploads} {downloads} ")?;
    add_refused(text, None, refusal)
}

// Adds the text of an answer.
fn add_answer(
    alloc: Global,
    text: &mut String,
    publication: &Publication,
    answer: &Answer,
) -> Result<(), NoMemory>
    requires { IsProperAnswer answer.now }
    ensures { OnOk result (string_bytes text.new ≡ string_bytes text.old ++ text_of (names_of publication.now) answer.now) }
{
    match answer {
        Answer::Now(moment) => add_number(text, "now", *moment),
        Answer::RowMade(row) => add_made(alloc, text, *row),
        Answer::Fine => add_word(text, "ok"),
        Answer::ClosedAt(generation) => add_number(text, "closed", *generation),
        Answer::Done {
            uploads,
            downloads,
            watermark,
        } => add_three(text, "done", *uploads, *downloads, *watermark),
        Answer::Stopped {
            uploads,
            downloads,
            refusal,
        } => add_stopped(text, *uploads, *downloads, refusal),
        Answer::Sent(number) => add_number(text, "message", *number),
        Answer::Nothing => add_word(text, "nothing"),
        Answer::Applied => add_word(text, "applied"),
        Answer::Ignored { seq, outstanding } => add_numbers(text, "ignored", *seq, *outstanding),
        Answer::NoMessage(number) => add_number(text, "no message", *number),
        Answer::Discarded(rows) => add_number(text, "discarded", *rows),
        Answer::Purged {
            tombstones,
            mappings,
            generations,
        } => add_three(text, "purged", *tombstones, *mappings, *generations),
        Answer::Rows(rows) => add_rows(alloc, text, rows.as_slice()),
        Answer::Partition(rows) => add_partition(alloc, text, publication, rows.as_slice()),
        Answer::Counts(counts) => add_counts(text, publication, counts.as_slice()),
        Answer::Conflicts(rows) => add_conflicts(alloc, text, publication, rows.as_slice()),
        Answer::Grants(grants) => add_grants(text, publication, grants.as_slice()),
        Answer::Held(holders) => add_holders(text, publication, holders.as_slice()),
        Answer::OfPublisher {
            filling,
            kept,
            sites,
        } => add_publisher(text, *filling, *kept, sites.as_slice()),
        Answer::OfSubscriber { marks, unsent } => add_subscriber(text, *marks, *unsent),
        Answer::Refused(refusal) => add_refused(text, None, refusal),
        Answer::RefusedIn { article, refusal } => {
            add_refused(text, Some(columns_at(publication, *article)), refusal)
        }
    }
}

/// The text of an answer: its lines, each with its end. Articles and columns are called by their
/// names in the publication.
pub fn text_of(alloc: Global, publication: &Publication, answer: &Answer) -> Result<Words, NoMemory>
    requires { IsProperAnswer answer.now }
    ensures { IfOk result (λ text. text ≡ text_of (names_of publication.now) answer.now) }
{
    let mut text = String::new(alloc);
    add_answer(alloc, &mut text, publication, answer)?;
    Ok(Words::new(text))
}

/// The texts of answers, one behind the other.
pub fn texts_of(
    alloc: Global,
    publication: &Publication,
    answers: &[Answer],
) -> Result<Words, NoMemory>
    requires { All IsProperAnswer answers.now }
    ensures { IfOk result (λ text. text ≡ texts_of (names_of publication.now) answers.now) }
{
    let mut text = String::new(alloc);
    for answer in answers {
        add_answer(alloc, &mut text, publication, answer)?;
    }
    Ok(Words::new(text))
}
