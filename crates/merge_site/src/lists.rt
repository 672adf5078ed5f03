//! What a step adds to lists and forgets of them, as changes at numbers.
ghost use Rattle.std.specs.List.{AllByRecursion};
ghost use Rattle.std.specs.Prelude.{◌≡◌, ◌++◌, ◌<◌, ◌^◌, map, true, IfOk, OnOk};
ghost use Rattle.merge_keeper.specs.Entries.{closing_pair, was_received};
ghost use Rattle.merge_site.specs.Lists.{closing_changes, closing_put, closing_takes, closing_takes_by, conflict_put, held_changes, stays, up_to};

use merge_conflict::ConflictRow;
use merge_gens::Closing;
use merge_ident::Ranges;
use merge_table::Edit;
use merge_types::{Listing, Moment, NoMemory};
use std::alloc::Global;

/// Which closed generations a step forgets.
#[derive(Clone, Copy)]
pub(crate) enum Forgets {
    /// Those up to one, which the publisher has taken.
    UpTo(u64),
    /// Those that closed before a moment, which are old.
    Before(Moment),
}

/// Changes of the closed generations that are kept.
pub(crate) type ClosingEdits = Listing<Edit<u64, Moment>>;

// Puts the generations that close.
fn put_closings(edits: &mut ClosingEdits, closed: &[Closing]) -> Result<(), NoMemory>
    ensures { OnOk result (edits.new ≡ edits.old ++ map closing_put closed.now) }
{
    for closing in closed {
        edits.push(Edit::Put(closing.generation, closing.moment))?;
    }
    Ok(())
}

/// The generations up to one, where there is one.
pub(crate) fn up_to(done: Option<u64>) -> Option<Forgets>
    ensures { result ≡ up_to done }
{
    done.map(Forgets::UpTo)
}

// Whether a generation stays.
fn stays(forgets: Forgets, closing: &Closing) -> bool
    ensures { result ≡ stays forgets (closing_pair closing.now) }
{
    match forgets {
        Forgets::UpTo(generation) => closing.generation > generation,
        Forgets::Before(cutoff) => closing.moment.0 >= cutoff.0,
    }
}

// Takes the generations that do not stay.
fn take_closings(
    edits: &mut ClosingEdits,
    closings: &[Closing],
    forgets: Forgets,
) -> Result<(), NoMemory>
    ensures { OnOk result (edits.new ≡ edits.old ++ closing_takes_by forgets closings.now) }
{
    for closing in closings {
        if !stays(forgets, closing) {
            edits.push(Edit::Take(closing.generation))?;
        }
    }
    Ok(())
}

// The same, where any are forgotten.
fn take_closings_if_any(
    edits: &mut ClosingEdits,
    closings: &[Closing],
    forgets: Option<Forgets>,
) -> Result<(), NoMemory>
    ensures { OnOk result (edits.new ≡ edits.old ++ closing_takes forgets closings.now) }
{
    match forgets {
        None => Ok(()),
        Some(forgets) => take_closings(edits, closings, forgets),
    }
}

/// The changes by which generations close behind those that are kept, and some of both are
/// forgotten, where the step forgets any.
pub(crate) fn closing_changes(
    alloc: Global,
    kept: &[Closing],
    closed: &[Closing],
    forgets: Option<Forgets>,
) -> Result<ClosingEdits, NoMemory>
    ensures { IfOk result (λ edits. edits ≡ closing_changes kept.now closed.now forgets) }
{
    let mut edits = Listing::empty(alloc);
    put_closings(&mut edits, closed)?;
    take_closings_if_any(&mut edits, kept, forgets)?;
    take_closings_if_any(&mut edits, closed, forgets)?;
    Ok(edits)
}

/// The changes that add rows of the conflict table.
pub(crate) fn conflict_changes(
    alloc: Global,
    rows: &[ConflictRow],
) -> Result<Listing<Edit<u64, ConflictRow>>, NoMemory>
    ensures { IfOk result (λ edits. edits ≡ map conflict_put rows.now) }
{
    let mut edits = Listing::empty(alloc);
    for row in rows {
        edits.push(Edit::Put(row.number, row.clone()?))?;
    }
    Ok(edits)
}

/// The ranges of articles that are put, where none are taken away.
pub(crate) fn held_puts(
    alloc: Global,
    edits: &[Edit<u8, Ranges>],
) -> Result<Listing<(u8, Ranges)>, NoMemory>
    ensures { IfOk result (λ puts. held_changes puts ≡ edits.now) }
{
    let mut puts = Listing::empty(alloc);
    for edit in edits {
        match edit {
            Edit::Put(article, ranges) => puts.push((*article, *ranges))?,
            Edit::Take(_) => return Err(NoMemory),
        }
    }
    Ok(puts)
}

/// Whether a range was received of each article.
pub(crate) fn were_received(held: &[(u8, Ranges)]) -> bool
    ensures { result ≡ true → AllByRecursion (λ p. (p.0 < 2 ^ 8) × (was_received p ≡ true)) held.now }
{
    for (article, ranges) in held {
        let _article = *article;
        if ranges.holding().have == 0 {
            return false;
        }
    }
    true
}
