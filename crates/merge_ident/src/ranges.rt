//! The ranges of an article that a site holds.
ghost use Rattle.std.specs.Prelude.{◌≡◌, ◌+◌, ◌↔◌, IsTrue};
ghost use Rattle.merge_ident.specs.Holders.{new_holder, held_from, answer_to_take, after_take, after_receive, is_due, holding_of, HasValues, AreKept, AreHeld};

use crate::Range;
use crate::slots::{self, Slots};
use merge_types::Exact;
use std::marker::Model;
use thiserror::Error;

/// No value is left. `end` is the end of the last range that was received, or 0.
#[derive(Clone, Copy, Debug, PartialEq, Eq, Error)]
#[error("identity used up {end}")]
pub struct IdentityUsedUp {
    pub end: i64,
}

/// What is told of the ranges that a site holds.
#[derive(Clone, Copy, Debug, PartialEq, Eq)]
pub struct Holding {
    pub have: u64,
    pub next: Option<i64>,
    pub first: Option<Range>,
    pub second: Option<Range>,
}

/// A call that changes the ranges of a site.
#[derive(Clone, Copy, Debug, PartialEq, Eq)]
pub enum RangeEvent {
    Take,
    Receive { number: u64, range: Range },
}

/// The ranges of an article that a site received and still holds, two at most. What several calls
/// will answer is worked out on a copy.
#[derive(Clone, Copy, Debug, PartialEq, Eq)]
pub struct Ranges {
    threshold: u8,
    have: u64,
    last_end: i64,
    slots: Slots,
}

impl Model for Ranges {
    ghost use Rattle.std.proofs.Common.{ap};
    ghost use Rattle.merge_ident.specs.declared.slots.Slots.{Slots as TheSlots};
    ghost use Rattle.merge_ident.specs.Holders.{Holder};
    ghost use Rattle.merge_ident.specs.Slots.{held_in, slots_from, slots_back, AreSlots};

    ghost Value = { Holder };

    ghost view = { λ r. record { threshold = r.threshold; have = r.have; last_end = r.last_end; held = held_in r.slots } };

    ghost invariant = { λ r. AreSlots r.slots };

    ghost inverse = { λ h. record { threshold = h.threshold; have = h.have; last_end = h.last_end; slots = slots_from h.held } };

    ghost inverse_ok = { λ r held. ap (λ (s : TheSlots). record { threshold = r.threshold; have = r.have; last_end = r.last_end; slots = s }) (slots_back r.slots) };
}

impl Exact for Ranges {
    ghost use Rattle.std.proofs.Common.{rules};

    ghost exact = { Prim.search rules };
}

impl Ranges {
    /// No range yet. The threshold is in hundredths of a range.
    pub fn new(threshold: u8) -> Self
        ensures { result ≡ new_holder threshold }
    {
        Ranges {
            threshold,
            have: 0,
            last_end: 0,
            slots: Slots::Empty,
        }
    }

    /// Whether ranges can be held with this next value: there are two at most, each has a value,
    /// and the next value lies in the first, or is 0 where none is held.
    pub fn can_restore(held: &[Range], next: i64) -> bool
        ensures { IsTrue result ↔ AreKept held.now next }
    {
        held.len() <= 2 && slots::have_values(held) && slots::is_next_in(held, next)
    }

    /// The ranges as they were kept: how many were received, the end of the last one, those that
    /// are held, and the next value, 0 where none is held.
    pub fn restore(threshold: u8, have: u64, last_end: i64, held: &[Range], next: i64) -> Self
        requires { AreKept held.now next }
        ensures { result ≡ record { threshold = threshold; have = have; last_end = last_end; held = held_from held.now next } }
    {
        Ranges {
            threshold,
            have,
            last_end,
            slots: slots::of(held, next),
        }
    }

    /// The value that `take` would give.
    pub fn next(&self) -> Result<i64, IdentityUsedUp>
        ensures { result ≡ answer_to_take self.now }
    {
        slots::next(self.slots, self.last_end)
    }

    /// The next value of the ranges that were received.
    pub fn take(&mut self) -> Result<i64, IdentityUsedUp>
        ensures value { result ≡ answer_to_take self.old }
        ensures after { self.new ≡ after_take self.old }
    {
        let value = slots::next(self.slots, self.last_end)?;
        self.slots = slots::without_next(self.slots);
        Ok(value)
    }

    /// Whether the site asks for another range.
    pub fn due(&self) -> bool
        ensures { result ≡ is_due self.now }
    {
        slots::is_due(self.slots, self.threshold)
    }

    /// Takes over a range that was granted. The first of two that are held is dropped, with its
    /// unused values.
    pub fn receive(&mut self, number: u64, range: Range)
        requires number { number ≡ self.old.have + 1 }
        requires range { HasValues range }
        ensures { self.new ≡ after_receive self.old range }
    {
        self.have = number;
        self.last_end = range.end;
        self.slots = slots::with_range(self.slots, range);
    }

    /// How many ranges were received, the next value, and the ranges that are held.
    pub fn holding(&self) -> Holding
        ensures holding { result ≡ holding_of self.now }
        ensures fit { AreHeld self.now.held }
    {
        let (next, first, second) = slots::parts(self.slots);
        Holding {
            have: self.have,
            next,
            first,
            second,
        }
    }

    /// The end of the last range that was received, or 0.
    pub fn last_end(&self) -> i64
        ensures { result ≡ self.now.last_end }
    {
        self.last_end
    }
}
