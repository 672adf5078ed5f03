//! What tells the moment.
ghost use Rattle.std.specs.Prelude.{◌≡◌, ◌+◌, ◌<◌, ◌≤◌, Some, IfSome, drop, length, option_map};
ghost use Rattle.std.specs.declared.option.Option.{Option};
ghost use Rattle.merge_link.specs.Moments.{Moments, later_moments, next_moment};

use merge_types::{Listing, Moment};

/// A clock. It never fails, and its moments need not rise.
pub trait Clock: Drop {
    /// The moments that are to come, where the clock tells them.
    ghost told: { Self → Option Moments };

    /// The moment now.
    fn now(&mut self) -> Moment
        ensures moment { IfSome (told self.old) (λ moments. result ≡ next_moment moments) }
        ensures later { told self.new ≡ option_map later_moments (told self.old) };
}

/// A clock that gives the moments of a list. Behind its end it gives the last one again, or 0 where
/// the list has none.
#[derive(Debug, Drop)]
pub struct MemoryClock {
    pub moments: Listing<Moment>,
    /// How many of the moments were given.
    pub given: usize,
    /// The moment that was given last, or 0.
    pub last: Moment,
}

impl MemoryClock {
    /// A clock that gave no moment yet.
    pub fn new(moments: Listing<Moment>) -> Self
        ensures { result ≡ record { moments = moments; given = 0; last = record { 0 = 0 } } }
    {
        MemoryClock {
            moments,
            given: 0,
            last: Moment(0),
        }
    }
}

impl Clock for MemoryClock {
    ghost told = { λ c. Some (record { coming = drop c.given c.moments; last = c.last }) };

    fn now(&mut self) -> Moment
        ensures moment { IfSome (Some (record { coming = drop self.old.given self.old.moments; last = self.old.last })) (λ moments. result ≡ next_moment moments) }
        ensures later { Some (record { coming = drop self.new.given self.new.moments; last = self.new.last }) ≡ option_map later_moments (Some (record { coming = drop self.old.given self.old.moments; last = self.old.last })) }
        ensures next { self.old.given < length self.old.moments → self.new ≡ record self.old { given = self.old.given + 1; last = result } }
        ensures end { length self.old.moments ≤ self.old.given → self.new ≡ self.old }
        ensures again { length self.old.moments ≤ self.old.given → result ≡ self.old.last }
    {
        if let Some(moment) = self.moments.as_slice().get(self.given) {
            self.last = *moment;
            self.given += 1;
        }
        self.last
    }
}
