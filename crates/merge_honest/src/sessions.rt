//! Laws on how sessions end.
ghost use Rattle.merge_honest.specs.Finished.{FailingSessionFinishes, FailingSessionSettles, SessionFinishes};
ghost use Rattle.merge_laws.specs.Laws.{OfEveryValidRun};

use crate::expected::honest_requests_are_taken;

/// A session of a subscriber that has not joined, or that has joined and is not expired, is refused for
/// one of these alone: a counter of the publisher or of the site has come to its end, or the new rows of
/// an upload of the site would be too many. Each is so in the model in which the session stopped.
pub fn sessions_finish()
    ensures { OfEveryValidRun SessionFinishes }
{
    honest_requests_are_taken();
}

/// A session in which steps may fail, for want of memory or by a fault of the store, ends as one in which
/// none fails, or is refused with that. One that ends with nothing refused leaves its site settled.
pub fn sessions_in_which_steps_fail_finish()
    ensures ends { OfEveryValidRun FailingSessionFinishes }
    ensures settled { OfEveryValidRun FailingSessionSettles }
{
    sessions_finish();
}
