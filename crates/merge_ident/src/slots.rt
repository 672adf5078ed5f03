//! The two ranges of a site as they are kept.
ghost use Rattle.std.specs.Prelude.{◌≡◌, ◌+◌, ◌<◌, pos, ◌+ℤ◌, ◌≤ℤ◌, ◌-ℤ◌, ◌↔◌, IsTrue, All, nat_lt, slice_get};
ghost use Rattle.std.specs.Option.{option_map};
ghost use Rattle.merge_ident.specs.Grants.{natural};
ghost use Rattle.merge_ident.specs.Holders.{answer_by_held, held_after_take, held_after_receive, held_from, is_due_by, size_of, next_of, range_of, HasValues, AreHeld, AreKept, IsNextIn};
ghost use Rattle.merge_ident.specs.Slots.{held_in, AreSlots};

use crate::{IdentityUsedUp, Range};

/// No range, one, or two. Of the first so many values were used.
#[derive(Clone, Copy, Debug, PartialEq, Eq)]
pub enum Slots {
    Empty,
    One {
        range: Range,
        used: u64,
    },
    Two {
        first: Range,
        used: u64,
        second: Range,
    },
}

/// The next value.
pub fn next(slots: Slots, last_end: i64) -> Result<i64, IdentityUsedUp>
    requires { AreSlots slots }
    ensures { result ≡ answer_by_held last_end (held_in slots) }
{
    match slots {
        Slots::Empty => Err(IdentityUsedUp { end: last_end }),
        Slots::One { range, used } => Ok(value(range, used)),
        Slots::Two { first, used, .. } => Ok(value(first, used)),
    }
}

// The value of a range behind so many.
fn value(range: Range, used: u64) -> i64
    requires { used < size_of range }
    ensures { result ≡ range.begin +ℤ pos used }
{
    (range.begin as i128 + used as i128) as i64
}

/// The slots without the next value.
pub fn without_next(slots: Slots) -> Slots
    requires { AreSlots slots }
    ensures held { held_in result ≡ held_after_take (held_in slots) }
    ensures fit { AreSlots result }
{
    match slots {
        Slots::Empty => Slots::Empty,
        Slots::One { range, used } if has_more(range, used) => Slots::One {
            range,
            used: used + 1,
        },
        Slots::One { .. } => Slots::Empty,
        Slots::Two {
            first,
            used,
            second,
        } if has_more(first, used) => Slots::Two {
            first,
            used: used + 1,
            second,
        },
        Slots::Two { second, .. } => Slots::One {
            range: second,
            used: 0,
        },
    }
}

// Whether a range has a value behind the next one.
fn has_more(range: Range, used: u64) -> bool
    requires { HasValues range }
    ensures { result ≡ nat_lt (used + 1) (size_of range) }
{
    (used as u128 + 1) < size(range)
}

/// The slots with one more range.
pub fn with_range(slots: Slots, range: Range) -> Slots
    requires slots { AreSlots slots }
    requires range { HasValues range }
    ensures held { held_in result ≡ held_after_receive (held_in slots) range }
    ensures fit { AreSlots result }
{
    match slots {
        Slots::Empty => Slots::One { range, used: 0 },
        Slots::One { range: first, used } => Slots::Two {
            first,
            used,
            second: range,
        },
        Slots::Two { second, .. } => Slots::Two {
            first: second,
            used: 0,
            second: range,
        },
    }
}

/// The slots of the ranges that were kept, with the next value of the first one.
pub fn of(held: &[Range], next: i64) -> Slots
    requires { AreKept held.now next }
    ensures held { held_in result ≡ held_from held.now next }
    ensures fit { AreSlots result }
{
    match held {
        [] => Slots::Empty,
        [range] => Slots::One {
            range: *range,
            used: used(*range, next),
        },
        [first, second, ..] => Slots::Two {
            first: *first,
            used: used(*first, next),
            second: *second,
        },
    }
}

/// Whether each range has values.
pub fn have_values(held: &[Range]) -> bool
    ensures { IsTrue result ↔ All HasValues held.now }
{
    held.iter().all(|range| range.begin <= range.end)
}

/// Whether the next value lies in the first range, or is 0 where there is none.
pub fn is_next_in(held: &[Range], next: i64) -> bool
    ensures { IsTrue result ↔ IsNextIn held.now next }
{
    match held {
        [] => next == 0,
        [first, ..] => first.begin <= next && next <= first.end,
    }
}

// How many values a range has: up to 2^64.
fn size(range: Range) -> u128
    requires { HasValues range }
    ensures { result ≡ size_of range }
{
    (range.end as i128 + 1 - range.begin as i128) as u128
}

// How many values of a range come before the next one.
fn used(range: Range, next: i64) -> u64
    requires from { range.begin ≤ℤ next }
    requires to { next ≤ℤ range.end }
    ensures used { result ≡ natural (next -ℤ range.begin) }
    ensures some { result < size_of range }
{
    (next as i128 - range.begin as i128) as u64
}

/// Whether another range is due.
pub fn is_due(slots: Slots, threshold: u8) -> bool
    requires { AreSlots slots }
    ensures { result ≡ is_due_by threshold (held_in slots) }
{
    match slots {
        Slots::Empty | Slots::One { .. } => true,
        Slots::Two { first, used, .. } => threshold as u128 * size(first) <= used as u128 * 100,
    }
}

/// The next value and both ranges.
pub fn parts(slots: Slots) -> (Option<i64>, Option<Range>, Option<Range>)
    requires { AreSlots slots }
    ensures next { result.0 ≡ option_map next_of (slice_get (held_in slots) 0) }
    ensures first { result.1 ≡ option_map range_of (slice_get (held_in slots) 0) }
    ensures second { result.2 ≡ option_map range_of (slice_get (held_in slots) 1) }
    ensures fit { AreHeld (held_in slots) }
{
    match slots {
        Slots::Empty => (None, None, None),
        Slots::One { range, used } => (Some(value(range, used)), Some(range), None),
        Slots::Two {
            first,
            used,
            second,
        } => (Some(value(first, used)), Some(first), Some(second)),
    }
}
