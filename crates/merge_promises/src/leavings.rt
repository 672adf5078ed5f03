//! A law on lines that say that a row left.
ghost use Rattle.merge_promises.specs.Leavings.{ActionLeavingsWereSeen, RunLeavingsWereSeen};

/// Each line of the history that says that a row left a site's partition was written by a step that saw
/// it: behind the step the row is outside of the partition, and before it the row was inside, or the step
/// delivered an upload of this very site and an item of the row acted. So it is of each line by itself, also
/// where two say the same: its own step had no other than older lines.
pub fn leavings_were_seen()
    ensures runs { RunLeavingsWereSeen }
    ensures actions { ActionLeavingsWereSeen }
{}
