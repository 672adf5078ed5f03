//! The system's clock.
ghost use Rattle.std.specs.Prelude.{◌≡◌};

use merge_link::Clock;
use merge_types::Moment;
use std::rt::Clock as HostClock;

/// The system's clock, in whole seconds since 1970. It tells nothing of the moments to come.
#[derive(Drop)]
pub struct SystemClock {
    rt: HostRuntime,
    // The moment that was given last, or 0.
    last: Moment,
}

impl SystemClock {
    /// A clock that gave no moment yet.
    pub fn new(rt: HostRuntime) -> Self
        ensures { result ≡ record { rt = rt; last = record { 0 = 0 } } }
    {
        SystemClock {
            rt,
            last: Moment(0),
        }
    }
}

impl Clock for SystemClock {
    ghost use Rattle.std.specs.Prelude.{None};

    ghost told = { λ c. None };

    // Where the system has no time to give, the last moment is given again.
    fn now(&mut self) -> Moment
        ensures kept { self.new ≡ record self.old { last = result } }
    {
        if let Ok(since) = self.rt.since_1970() {
            self.last = Moment(since.as_secs());
        }
        self.last
    }
}
