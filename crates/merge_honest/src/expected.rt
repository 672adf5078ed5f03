//! What a request may be refused for, and that each other is taken.
ghost use Rattle.merge_honest.specs.Delivered.{FirstReasonIsTold, NoneIsRefusedFor, is_unexpected};
ghost use Rattle.merge_honest.specs.Taken.{HonestAreTaken};
ghost use Rattle.merge_laws.specs.Laws.{OfEveryValidRun};

use crate::items::identity_values_are_right;

/// A delivery of a request of the pool is refused for one of these alone, whatever happened before:
/// its site has expired, it was made before its site's last join, its new rows would be too many, or
/// a counter of the publisher has come to its end. It tells the first reason that holds. A step that
/// fails is answered with want of memory or a fault of the store instead (`steps_that_fail_show` in
/// merge_model).
pub fn requests_are_refused_for_little()
    ensures few { OfEveryValidRun (NoneIsRefusedFor is_unexpected) }
    ensures first { FirstReasonIsTold }
{
    identity_values_are_right();
}

/// Each of these reasons is told exactly where its condition holds and that of none before it does, in
/// this order: expiry, of every request but a join; a later join, and of a join one that is later
/// still; too many new rows, of an upload; and a counter's end. Where none holds the request is
/// answered, however late it comes and however often.
pub fn honest_requests_are_taken()
    ensures { OfEveryValidRun HonestAreTaken }
{
    identity_values_are_right();
}
