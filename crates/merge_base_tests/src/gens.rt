//! The happy path of each call, with figures from the rules.
ghost use Rattle.std.specs.Prelude.{◌≡◌, IfOk};

use crate::same::{same, same_in};
use merge_gens::{
    Closing, Filling, GenerationAnswer, GenerationBook, GenerationChange, GenerationIndex,
    IndexChange, IndexEntry, expired, sort_rows,
};
use merge_types::{Listing, Moment, RowId, RowKey};
use std::alloc::Global;
use std::test::Fail;

// A generation and the moment at which it closed.
type Closed = (u64, u64);

fn are_closed(closings: &[Closing], wanted: &[Closed]) -> bool {
    closings.len() == wanted.len()
        && (0..closings.len()).all(|at| is_closed(closings[at], wanted[at]))
}

fn is_closed(closing: Closing, wanted: Closed) -> bool {
    (closing.generation, closing.moment.0) == wanted
}

// A change of a book.
#[derive(Clone, Copy)]
enum Step {
    // So many entries are added, at a moment.
    Enter(u16, u64),
    Close(u64),
    Purge(u64),
    Forget(u64),
}

// The last generation of those that the entries got, the last closed one, or how many are forgotten.
fn told(book: &mut GenerationBook, step: Step) -> Result<u64, Fail> {
    if book.last_closed() >= 100 {
        return Err(Fail::from("too many generations"));
    }
    match step {
        Step::Enter(count, moment) => {
            let generations = book.enter(u64::from(count), Moment(moment))?;
            if generations.len() != usize::from(count) {
                return Err(Fail::from("not a generation for each entry"));
            }
            Ok(generations.last().copied().unwrap_or(0))
        }
        Step::Close(moment) => Ok(book.close(Moment(moment))?),
        Step::Purge(cutoff) => Ok(book.purge(Moment(cutoff))),
        Step::Forget(up_to) => Ok(book.forget(up_to)),
    }
}

// A step, what is told of it, and the book afterwards: the last closed generation, the entries of
// the open one, and what is kept.
type Played = (Step, u64, u64, u64, &'static [Closed]);

fn is_played(book: &mut GenerationBook, played: &Played) -> Result<bool, Fail> {
    let (step, answer, last_closed, filled, kept) = *played;
    let told = told(book, step)?;
    Ok(told == answer && stands(book, last_closed, filled, kept))
}

fn stands(book: &GenerationBook, last_closed: u64, filled: u64, kept: &[Closed]) -> bool {
    book.last_closed() == last_closed
        && book.filled() == filled
        && book.kept() == kept.len() as u64
        && are_closed(book.closings(), kept)
}

// A thousand entries close a generation, and each entry has the generation that was open.
const FILLS: &[Played] = &[
    (Step::Enter(999, 7), 1, 0, 999, &[]),
    (Step::Enter(1000, 7), 1, 1, 0, &[(1, 7)]),
    (Step::Enter(1001, 7), 2, 1, 1, &[(1, 7)]),
    (Step::Enter(2001, 7), 3, 2, 1, &[(1, 7), (2, 7)]),
];

#[test]
fn entries_fill_generations(rt: HostRuntime) -> Result<(), Fail> {
    for played in FILLS {
        let mut book = GenerationBook::new(rt.alloc());
        let filled = played.3;
        assert!(rt; is_played(&mut book, played)?, "{filled}");
    }
    Ok(())
}

// An empty generation does not close, a purge forgets what closed before its moment, and a
// subscriber forgets what the publisher has taken.
const STEPS: &[(&str, Played)] = &[
    ("nothing to close", (Step::Close(3), 0, 0, 0, &[])),
    ("an entry", (Step::Enter(1, 4), 1, 0, 1, &[])),
    ("a generation closes", (Step::Close(5), 1, 1, 0, &[(1, 5)])),
    ("none closed before", (Step::Purge(5), 0, 1, 0, &[(1, 5)])),
    ("one closed before", (Step::Purge(6), 1, 1, 0, &[])),
    (
        "entries of two generations",
        (Step::Enter(1001, 7), 3, 2, 1, &[(2, 7)]),
    ),
    (
        "the next closes",
        (Step::Close(9), 3, 3, 0, &[(2, 7), (3, 9)]),
    ),
    ("one was taken", (Step::Forget(2), 1, 3, 0, &[(3, 9)])),
    ("it is forgotten", (Step::Forget(2), 0, 3, 0, &[(3, 9)])),
];

#[test]
fn a_book_goes_on_step_by_step(rt: HostRuntime) -> Result<(), Fail> {
    let mut book = GenerationBook::new(rt.alloc());
    for (shows, played) in STEPS {
        assert!(rt; is_played(&mut book, played)?, "{shows}");
    }
    Ok(())
}

fn closings(alloc: Global, list: &[Closed]) -> Result<Listing<Closing>, Fail> {
    let mut closings = Listing::empty(alloc);
    for (generation, moment) in list {
        closings.push(Closing {
            generation: *generation,
            moment: Moment(*moment),
        })?;
    }
    Ok(closings)
}

fn can_restore(alloc: Global, filling: Filling, list: &[Closed]) -> Result<bool, Fail> {
    let closings = closings(alloc, list)?;
    Ok(GenerationBook::can_restore(filling, closings.as_slice()))
}

// A book that was stored so.
fn restored(alloc: Global, filling: Filling, list: &[Closed]) -> Result<GenerationBook, Fail>
    ensures { IfOk result (λ restored. restored.book.filling ≡ filling) }
{
    let closings = closings(alloc, list)?;
    if !GenerationBook::can_restore(filling, closings.as_slice()) {
        return Err(Fail::from("a book that is not sound"));
    }
    Ok(GenerationBook::restore(filling, closings))
}

// Whether a book can have these parts: its last closed generation, the entries of the open one, and
// what is kept.
const STORED: &[(bool, (u64, u64), &[Closed])] = &[
    (true, (5, 999), &[(3, 9), (5, 8)]),
    (false, (4, 999), &[(3, 9), (5, 8)]),
    (false, (5, 1000), &[(3, 9), (5, 8)]),
    (false, (9, 0), &[(5, 8), (5, 9)]),
];

// A start asks before it restores a book.
#[test]
fn unsound_books_are_told(rt: HostRuntime) -> Result<(), Fail> {
    for (sound, (last_closed, filled), list) in STORED {
        let filling = Filling {
            last_closed: *last_closed,
            filled: *filled,
        };
        assert_eq!(rt;
            can_restore(rt.alloc(), filling, list)?,
            *sound,
            "{filling:?}"
        );
    }
    Ok(())
}

// A cutoff, the last generation that closed before it, and how many did.
const CUTOFFS: &[(u64, Option<u64>, u64)] = &[(4, None, 0), (8, Some(3), 3), (10, Some(4), 4)];

// A generation, and when it closed.
const CLOSED: &[(u64, Option<u64>)] = &[(1, Some(4)), (3, Some(7)), (5, None)];

fn closed_book(alloc: Global) -> Result<GenerationBook, Fail> {
    let filling = Filling {
        last_closed: 4,
        filled: 0,
    };
    restored(alloc, filling, &[(1, 4), (2, 4), (3, 7), (4, 9)])
}

// A purge is known before it is made.
#[test]
fn closings_are_found_by_moment(rt: HostRuntime) -> Result<(), Fail> {
    let book = closed_book(rt.alloc())?;
    for (cutoff, last, count) in CUTOFFS {
        let told = (
            book.last_before(Moment(*cutoff)),
            book.count_before(Moment(*cutoff)),
        );
        same_in(&rt, &told, &(*last, *count), &cutoff);
    }
    Ok(())
}

#[test]
fn closings_are_found_by_generation(rt: HostRuntime) -> Result<(), Fail> {
    let book = closed_book(rt.alloc())?;
    for (generation, moment) in CLOSED {
        same_in(&rt, &book.closed_at(*generation), moment, &generation);
    }
    Ok(())
}

fn are_told(answers: &[GenerationAnswer]) -> bool {
    match answers {
        [
            GenerationAnswer::Entered(generations),
            GenerationAnswer::Closed(last),
        ] => { generations.as_slice() == [3, 4].as_slice() && *last == 4 }
        _ => false,
    }
}

// A book that was stored goes on where it stood, and its changes can be made in two calls.
#[test]
fn a_plan_is_settled(rt: HostRuntime) -> Result<(), Fail> {
    let filling = Filling {
        last_closed: 2,
        filled: 999,
    };
    let mut book = restored(rt.alloc(), filling, &[(2, 9)])?;
    let changes = [
        GenerationChange::Enter {
            count: 2,
            moment: Moment(10),
        },
        GenerationChange::Close { moment: Moment(11) },
    ];
    let (answers, plan) = book.prepare(&changes)?;
    assert!(rt; are_told(answers.as_slice()));
    assert!(rt; stands(&book, 2, 999, &[(2, 9)]));
    book.settle(plan);
    assert!(rt; stands(&book, 4, 0, &[(2, 9), (3, 10), (4, 11)]));
    Ok(())
}

const EXPIRIES: &[(u64, u64, u32, bool)] = &[
    (5, 604_805, 7, false),
    (5, 604_806, 7, true),
    (9, 5, 0, false),
    (0, u64::MAX, u32::MAX, true),
];

// A site has expired once more than the retention has passed.
#[test]
fn a_site_expires_behind_the_retention(rt: HostRuntime) {
    for (last, now, days, expect) in EXPIRIES {
        same(&rt, &expired(Moment(*last), Moment(*now), *days), expect);
    }
}

// A row by article and identifier.
type Row = (u8, u128);

fn key(row: Row) -> RowKey {
    RowKey {
        article: row.0,
        row: RowId(row.1),
    }
}

fn is_row(key: RowKey, row: Row) -> bool {
    (key.article, key.row.0) == row
}

fn are_rows(keys: &[RowKey], rows: &[Row]) -> bool {
    keys.len() == rows.len() && (0..keys.len()).all(|at| is_row(keys[at], rows[at]))
}

fn index(alloc: Global, entries: &[(u64, Row)]) -> Result<GenerationIndex, Fail> {
    let mut index = GenerationIndex::new(alloc);
    for (generation, row) in entries {
        index.put(*generation, key(*row))?;
    }
    Ok(index)
}

// Whether these are the rows with a generation behind one, up to another.
fn are_between(
    alloc: Global,
    index: &GenerationIndex,
    interval: (u64, u64),
    rows: &[Row],
) -> Result<bool, Fail> {
    let mut found = Vec::new(alloc);
    index.between(interval.0, interval.1, &mut found)?;
    sort_rows(&mut found);
    Ok(are_rows(&found, rows))
}

const ENTRIES: &[(u64, Row)] = &[(5, (1, 8)), (6, (1, 8)), (6, (0, 9))];

const INTERVALS: &[((u64, u64), &[Row])] = &[
    ((4, 6), &[(0, 9), (1, 8)]),
    ((4, 5), &[(1, 8)]),
    ((5, u64::MAX), &[(0, 9), (1, 8)]),
    ((6, 9), &[]),
];

// A row is found once, at each of its generations, and the lower end is outside.
#[test]
fn rows_are_found_by_generation(rt: HostRuntime) -> Result<(), Fail> {
    let index = index(rt.alloc(), ENTRIES)?;
    for (interval, rows) in INTERVALS {
        assert!(rt;
            are_between(rt.alloc(), &index, *interval, rows)?,
            "{interval:?}"
        );
    }
    Ok(())
}

// A row is given at each of its generations from one on.
#[test]
fn entries_are_given_from_a_generation(rt: HostRuntime) -> Result<(), Fail> {
    let index = index(rt.alloc(), ENTRIES)?;
    let mut found = Listing::empty(rt.alloc());
    for (entry, _) in index.entries_from(6) {
        found.push(entry.key)?;
    }
    assert!(rt; are_rows(found.as_slice(), &[(0, 9), (1, 8)]));
    Ok(())
}

// Gives a row another generation.
fn pass(
    alloc: Global,
    index: &mut GenerationIndex,
    row: Row,
    from: u64,
    to: u64,
) -> Result<(), Fail> {
    let mut changes = Listing::empty(alloc);
    changes.push(IndexChange::Take(IndexEntry {
        generation: from,
        key: key(row),
    }))?;
    let entry = IndexEntry {
        generation: to,
        key: key(row),
    };
    changes.push(IndexChange::Put(entry, ()))?;
    let plan = index.prepare(changes)?;
    index.settle(plan);
    Ok(())
}

#[test]
fn entries_are_replaced(rt: HostRuntime) -> Result<(), Fail> {
    let alloc = rt.alloc();
    let mut index = index(alloc, ENTRIES)?;
    pass(alloc, &mut index, (1, 8), 6, 7)?;
    assert!(rt; are_between(alloc, &index, (5, 6), &[(0, 9)])?);
    pass(alloc, &mut index, (0, 9), 6, 7)?;
    assert!(rt; are_between(alloc, &index, (5, 6), &[])?);
    assert!(rt; are_between(alloc, &index, (6, 7), &[(0, 9), (1, 8)])?);
    Ok(())
}

// The rows of two indexes go behind one another, and are sorted once.
#[test]
fn two_indexes_share_a_list(rt: HostRuntime) -> Result<(), Fail> {
    let alloc = rt.alloc();
    let changed = index(alloc, &[(3, (2, 1))])?;
    let moved = index(alloc, &[(2, (2, 1)), (3, (1, 7))])?;
    let mut rows = Vec::new(alloc);
    changed.between(0, 3, &mut rows)?;
    moved.between(0, 3, &mut rows)?;
    assert!(rt; are_rows(&rows, &[(2, 1), (2, 1), (1, 7)]));
    sort_rows(&mut rows);
    assert!(rt; are_rows(&rows, &[(1, 7), (2, 1)]));
    Ok(())
}
