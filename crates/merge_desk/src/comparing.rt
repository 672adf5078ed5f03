//! What seats were told is held against the journal.
ghost use Rattle.std.specs.Prelude.{◌≡◌, ◌∷◌, [], List, IfErr, IfOk, OnOk};
ghost use Rattle.merge_desk.specs.Comparing.{AllToldAsKept, FirstDiffer, FirstDiffering, kept_marks};
ghost use Rattle.merge_desk.specs.declared.mark.Mark.{Mark as OneMark};

use crate::entry::Entry;
use crate::mark::{Mark, missing};
use crate::seat::Seat;
use std::sync::ledger::Ledger;

// Two marks that differ: one that was told, and one that is kept.
#[derive(Clone, Copy)]
struct MarkDifference {
    told: Mark,
    kept: Mark,
}

/// The first seat that was told something else than the journal has of it, and the first two marks
/// that differ. In place of a mark that there is not stands one with place 0. It is made where a desk
/// ends, and nowhere else.
#[derive(Clone, Copy, Debug, PartialEq, Eq)]
pub struct Difference {
    pub(crate) seat: u16,
    pub(crate) told: Mark,
    pub(crate) kept: Mark,
}

impl Difference {
    /// The number of the seat.
    pub fn seat(&self) -> u16
        ensures { result ≡ self.now.seat }
    {
        self.seat
    }

    pub fn told(&self) -> &Mark
        ensures { result.now ≡ self.now.told }
    {
        &self.told
    }

    pub fn kept(&self) -> &Mark
        ensures { result.now ≡ self.now.kept }
    {
        &self.kept
    }
}

// What was told behind a mark that is kept, where the first that was told is that mark.
fn behind<'a>(told: &'a [Mark], kept: &Mark) -> Result<&'a [Mark], MarkDifference>
    ensures ok { IfOk result (λ rest. told.now ≡ kept.now ∷ rest.now) }
    ensures err { IfErr result (λ d. (more : List OneMark) → FirstDiffer told.now (kept.now ∷ more) d.told d.kept) }
{
    match told.split_first() {
        None => Err(MarkDifference {
            told: missing(kept),
            kept: *kept,
        }),
        Some((mark, rest)) => {
            if *mark == *kept {
                Ok(rest)
            } else {
                Err(MarkDifference {
                    told: *mark,
                    kept: *kept,
                })
            }
        }
    }
}

// Nothing more is kept.
fn check_end(told: &[Mark]) -> Result<(), MarkDifference>
    ensures ok { OnOk result (told.now ≡ []) }
    ensures err { IfErr result (λ d. FirstDiffer told.now [] d.told d.kept) }
{
    match told.first() {
        None => Ok(()),
        Some(mark) => Err(MarkDifference {
            told: *mark,
            kept: missing(mark),
        }),
    }
}

// Compares what a seat was told with the marks that the journal has of it.
fn compare(number: u16, told: &[Mark], journal: &[Entry]) -> Result<(), MarkDifference>
    ensures ok { OnOk result (told.now ≡ kept_marks number journal.now) }
    ensures err { IfErr result (λ d. FirstDiffer told.now (kept_marks number journal.now) d.told d.kept) }
{
    let mut rest = told;
    for entry in journal {
        if entry.seat == number {
            rest = behind(rest, &entry.mark)?;
        }
    }
    check_end(rest)
}

/// Compares what each seat was told with the marks that the journal has of it.
pub(crate) fn compare_all<L: Ledger, M: Ledger>(
    seats: &[Seat<L, M>],
    journal: &[Entry],
) -> Result<(), Difference>
    ensures ok { OnOk result (AllToldAsKept journal.now seats.now) }
    ensures err { IfErr result (λ d. FirstDiffering journal.now seats.now d.seat d.told d.kept) }
{
    for seat in seats {
        if let Err(MarkDifference { told, kept }) = compare(seat.number(), seat.told(), journal) {
            return Err(Difference {
                seat: seat.number(),
                told,
                kept,
            });
        }
    }
    Ok(())
}
