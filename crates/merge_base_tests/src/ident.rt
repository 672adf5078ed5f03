ghost use Rattle.std.specs.Prelude.{◌≡◌, ◌≤ℤ◌, pos, IfOk, IsSome};
ghost use Rattle.merge_ident.specs.Answers.{rule_of};
ghost use Rattle.merge_ident.specs.Holders.{HasValues};

use crate::same::same;
use merge_ident::{
    Answer, Ask, Grant, GrantAnswer, Holding, IdentityFault, IdentityUsedUp, Range, RangeBook,
    Ranges, Rule, SeenGrants,
};
use merge_types::{Listing, NoMemory, SiteId};
use std::alloc::{AllocError, Global};
use std::process::Abort;
use std::test::Fail;

// A book with one article, whose ranges have two values each.
fn book(alloc: Global, seed: i64, greatest: i64) -> Result<RangeBook, AllocError>
    requires seed { pos 1 ≤ℤ seed }
    requires greatest { pos 1 ≤ℤ greatest }
    ensures { IfOk result (λ book. IsSome (rule_of book.rules 0)) }
{
    let rule = Rule {
        article: 0,
        seed,
        range: 2,
        pub_range: 2,
        greatest,
    };
    let mut rules = Vec::new(alloc);
    rules.push(rule)?;
    Ok(RangeBook::new(alloc, Listing::new(rules)))
}

fn granted(number: u64, begin: i64, end: i64) -> Answer {
    Ok(GrantAnswer::Granted {
        number,
        range: Range { begin, end },
    })
}

fn kept(number: u64, begin: i64, end: i64) -> Answer {
    Ok(GrantAnswer::Kept {
        number,
        range: Range { begin, end },
    })
}

fn grant_of(site: u16, number: u64, begin: i64, end: i64) -> Grant {
    Grant {
        article: 0,
        site: SiteId(site),
        number,
        range: Range { begin, end },
    }
}

#[test]
fn grants_in_turn(rt: HostRuntime) -> Result<(), Fail> {
    let mut book = book(rt.alloc(), 1, 8)?;
    let turns = [
        (1, 0, true, granted(1, 1, 2)),
        (1, 0, true, kept(1, 1, 2)),
        (1, 1, false, Ok(GrantAnswer::NotDue)),
        (1, 1, true, granted(2, 3, 4)),
        (0, 0, true, granted(1, 5, 6)),
        (1, 3, true, Err(IdentityFault::TooMany { granted: 2 })),
        (1, 2, true, granted(3, 7, 8)),
        (1, 1, true, kept(2, 3, 4)),
        (
            1,
            3,
            true,
            Err(IdentityFault::NoRange {
                next: 9,
                greatest: 8,
            }),
        ),
    ];
    for (site, have, due, answer) in turns {
        same(&rt, &book.grant(SiteId(site), 0, have, due), &answer);
    }
    let grants = [
        grant_of(1, 1, 1, 2),
        grant_of(1, 2, 3, 4),
        grant_of(0, 1, 5, 6),
        grant_of(1, 3, 7, 8),
    ];
    same(&rt, &book.grants(), &grants.as_slice());
    same(
        &rt,
        &(book.granted(0, SiteId(1)), book.granted(0, SiteId(2))),
        &(3, 0),
    );
    for (site, value, granted) in [
        (1, 0, false),
        (1, 1, true),
        (1, 4, true),
        (1, 5, false),
        (0, 6, true),
        (1, 7, true),
        (1, 9, false),
    ] {
        same(&rt, &book.has_granted(0, SiteId(site), value), &granted);
    }
    assert!(rt; !book.has_granted(1, SiteId(1), 1));
    assert!(rt; book.has_rule(0));
    assert!(rt; !book.has_rule(1));
    Ok(())
}

#[test]
fn ends_at_the_greatest_number(rt: HostRuntime) -> Result<(), Fail> {
    let mut book = book(rt.alloc(), i64::MAX - 1, i64::MAX)?;
    same(
        &rt,
        &book.grant(SiteId(1), 0, 0, true),
        &granted(1, i64::MAX - 1, i64::MAX),
    );
    same(
        &rt,
        &book.grant(SiteId(1), 0, 1, true),
        &Err(IdentityFault::NoRange {
            next: 1 << 63,
            greatest: i64::MAX,
        }),
    );
    Ok(())
}

#[test]
fn plans_the_asks_of_a_step(rt: HostRuntime) -> Result<(), Fail> {
    let mut book = book(rt.alloc(), 1, 8)?;
    let ask = Ask {
        site: SiteId(1),
        article: 0,
        have: 0,
        due: true,
    };
    let plans = book.prepare_all(&[ask, ask, Ask { have: 1, ..ask }])?;
    same(&rt, &book.grants().len(), &0);
    let answers = [granted(1, 1, 2), kept(1, 1, 2), granted(2, 3, 4)];
    for (planned, answer) in plans.as_slice().iter().zip(answers) {
        same(&rt, &planned.answer, &answer);
    }
    book.settle_all(plans.as_slice());
    same(&rt, &book.grants().len(), &2);
    Ok(())
}

// A range of one value, at an end of the integers.
fn only(value: i64) -> Range
    ensures { HasValues result }
{
    Range {
        begin: value,
        end: value,
    }
}

#[test]
fn takes_what_was_received(rt: HostRuntime) -> Result<(), Fail> {
    let mut ranges = Ranges::new(80);
    same(&rt, &ranges.take(), &Err(IdentityUsedUp { end: 0 }));
    ranges.receive(1, Range { begin: 1, end: 5 });
    assert!(rt; ranges.due());
    ranges.receive(2, only(i64::MAX));
    for value in [1, 2, 3, 4] {
        assert!(rt; !ranges.due());
        same(&rt, &ranges.take(), &Ok(value));
    }
    assert!(rt; ranges.due());
    ranges.receive(3, only(i64::MIN));
    let holding = Holding {
        have: 3,
        next: Some(i64::MAX),
        first: Some(only(i64::MAX)),
        second: Some(only(i64::MIN)),
    };
    same(&rt, &ranges.holding(), &holding);
    same(&rt, &ranges.take(), &Ok(i64::MAX));
    same(&rt, &ranges.take(), &Ok(i64::MIN));
    same(&rt, &ranges.take(), &Err(IdentityUsedUp { end: i64::MIN }));
    Ok(())
}

// Ranges that were kept, as a start restores them once it has asked.
fn restored(
    rt: &impl Abort,
    threshold: u8,
    have: u64,
    last_end: i64,
    held: &[Range],
    next: i64,
) -> Ranges
    ensures { result.have ≡ have }
{
    assert!(rt; Ranges::can_restore(held, next));
    Ranges::restore(threshold, have, last_end, held, next)
}

#[test]
fn restores_what_was_kept(rt: HostRuntime) {
    let held = [Range { begin: 3, end: 4 }, Range { begin: 5, end: 6 }];
    let mut ranges = restored(&rt, 100, 3, 6, &held, 4);
    let mut after = ranges;
    same(&rt, &after.take(), &Ok(4));
    after.receive(4, Range { begin: 9, end: 9 });
    same(&rt, &after.take(), &Ok(5));
    same(&rt, &ranges.next(), &Ok(4));
    ranges = after;
    same(&rt, &ranges.next(), &Ok(6));
    same(&rt, &ranges.last_end(), &9);
}

// A start asks before it restores.
#[test]
fn unsound_ranges_are_told(rt: HostRuntime) {
    let range = Range { begin: 3, end: 4 };
    assert!(rt; Ranges::can_restore(&[], 0));
    assert!(rt; !Ranges::can_restore(&[], 1));
    assert!(rt; Ranges::can_restore(&[range, only(7)], 4));
    assert!(rt; !Ranges::can_restore(&[range, only(7)], 5));
    assert!(rt; !Ranges::can_restore(&[range, range, range], 3));
    assert!(rt; !Ranges::can_restore(&[Range { begin: 4, end: 3 }], 4));
}

// The widest range has 2^64 values, and a count of 2^64 - 1 is as good as any.
#[test]
fn bears_the_widest_range(rt: HostRuntime) {
    let widest = Range {
        begin: i64::MIN,
        end: i64::MAX,
    };
    let held = [widest, only(0)];
    for (threshold, next, due) in [
        (1, i64::MIN, false),
        (50, -1, false),
        (50, 0, true),
        (100, i64::MAX, false),
    ] {
        let ranges = restored(&rt, threshold, u64::MAX, 0, &held, next);
        same(&rt, &ranges.due(), &due);
        same(&rt, &ranges.next(), &Ok(next));
    }
}

// The place of the first grant that cannot follow those before it, as a start seeks it.
fn first_bad(alloc: Global, grants: &[Grant]) -> Result<Option<usize>, NoMemory> {
    let mut seen = SeenGrants::new(alloc);
    for (at, grant) in grants.iter().enumerate() {
        if !seen.can_follow(*grant) {
            return Ok(Some(at));
        }
        seen.add(*grant)?;
    }
    Ok(None)
}

// The first grant is told that breaks what a book's grants have, with those before it.
#[test]
fn the_first_bad_grant_is_told(rt: HostRuntime) {
    let good = [
        grant_of(0, 1, 5, 6),
        grant_of(1, 1, 1, 2),
        grant_of(1, 2, 3, 4),
        grant_of(1, 3, 7, 8),
    ];
    same(&rt, &first_bad(rt.alloc(), &good), &Ok(None));
    for (bad, place) in [
        ([grant_of(0, 1, 5, 6), grant_of(1, 1, 6, 7)], 1),
        ([grant_of(1, 1, 5, 6), grant_of(1, 2, 1, 2)], 1),
        ([grant_of(1, 1, 5, 6), grant_of(1, 3, 7, 8)], 1),
        ([grant_of(1, 2, 5, 6), grant_of(1, 3, 7, 8)], 0),
        ([grant_of(1, 1, 6, 5), grant_of(1, 2, 7, 8)], 0),
        ([grant_of(1, 1, 0, 5), grant_of(1, 2, 7, 8)], 0),
    ] {
        same(&rt, &first_bad(rt.alloc(), &bad), &Ok(Some(place)));
    }
}
