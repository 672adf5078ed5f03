//! What is printed of a journal.
ghost use Rattle.std.specs.Prelude.{◌≡◌, ◌++◌, IfOk, OnOk, count_by, string_bytes};
ghost use Rattle.merge_desk.specs.Summary.{counts_line, is_of, is_refusal, summary_text};

use crate::ending::Journal;
use crate::entry::Entry;
use merge_batch::Kind;
use merge_types::{NoMemory, Words};
use std::alloc::Global;

// Whether the entry's request is of this kind.
fn is_of(kind: Kind, entry: &Entry) -> bool
    ensures { result ≡ is_of kind entry.now }
{
    entry.request.kind() == kind
}

// How many entries have a request of this kind.
fn count_of(journal: &[Entry], kind: Kind) -> usize
    ensures count { result ≡ count_by (is_of kind) journal.now }
{
    let mut count = 0;
    for entry in journal {
        if is_of(kind, entry) {
            count += 1;
        }
    }
    count
}

// How many entries have a reply that is a refusal.
fn count_refused(journal: &[Entry]) -> usize
    ensures count { result ≡ count_by is_refusal journal.now }
{
    let mut count = 0;
    for entry in journal {
        if entry.mark.refused {
            count += 1;
        }
    }
    count
}

// Adds the counts in one line.
fn add_counts(
    text: &mut String,
    calls: u64,
    joins: u64,
    uploads: u64,
    ranges: u64,
    downloads: u64,
    refused: u64,
) -> Result<(), NoMemory>
    ensures { OnOk result (string_bytes text.new ≡ string_bytes text.old ++ counts_line calls joins uploads ranges downloads refused) }
{
    write!(text, "calls {calls} joins {joins} uploads {uploads}")?;
    writeln!(
        text,
        " ranges {ranges} downloads {downloads} refused {refused}"
    )?;
    Ok(())
}

/// How many calls the journal has, how many of each kind, and how many were refused.
pub fn summary(alloc: Global, journal: &Journal) -> Result<Words, NoMemory>
    ensures { IfOk result (λ text. text ≡ summary_text journal.now) }
{
    let entries = journal.entries();
    let mut text = String::new(alloc);
    add_counts(
        &mut text,
        entries.len() as u64,
        count_of(entries, Kind::Join) as u64,
        count_of(entries, Kind::Upload) as u64,
        count_of(entries, Kind::Ranges) as u64,
        count_of(entries, Kind::Download) as u64,
        count_refused(entries) as u64,
    )?;
    Ok(Words::new(text))
}
