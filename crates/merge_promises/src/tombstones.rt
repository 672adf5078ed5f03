//! Laws on deleted rows and mappings that a purge drops.
ghost use Rattle.merge_laws.specs.Laws.{OfEveryValidActions, OfEveryValidRun};
ghost use Rattle.merge_promises.specs.Tombstones.{AcceptedAreNeverNew, HeldAreNeverNew, LeavingsArePassed, TombstonesArePassed};

use merge_actions::promises_hold_of_actions;
use merge_laws::promises_hold;

/// A deleted row that a purge drops, each joined site has passed that is not expired: it has asked for
/// what lies above the generation in which the row changed last, or that had closed as it last joined,
/// with no row. So it holds no such row, but where it changed the row and the publisher has not taken the
/// change, or where it is still to be told that the row left, which the purge leaves to be told.
pub fn tombstones_are_passed()
    ensures runs { OfEveryValidRun (λ publication says m. TombstonesArePassed publication m) }
    ensures actions { OfEveryValidActions (λ publication says m. TombstonesArePassed publication m) }
{
    promises_hold();
    promises_hold_of_actions();
}

/// A mapping that a purge drops says that a row left a site's partition, and each joined site has passed
/// it that is not expired, this one too: it has asked for what lies above the generation in which the row
/// left, or that had closed as it last joined, with no row. So the mapping is owed to none. Where the row
/// is outside of its partition a site holds no such row, but where it changed the row and the publisher
/// has not taken the change, or where it is still to be told.
pub fn leavings_are_passed()
    ensures runs { OfEveryValidRun (λ publication says m. LeavingsArePassed publication m) }
    ensures actions { OfEveryValidActions (λ publication says m. LeavingsArePassed publication m) }
{
    promises_hold();
    promises_hold_of_actions();
}

/// No row that the publisher holds, and none of which it ever accepted a change, is made again by what
/// a subscriber still sends of it, however late it comes and whether or not the subscriber is expired.
/// So where a purge dropped the row, a change of it that was still to be sent is passed over.
pub fn purged_rows_are_never_new()
    ensures held { OfEveryValidRun (λ publication says m. HeldAreNeverNew m) }
    ensures accepted { OfEveryValidRun (λ publication says m. AcceptedAreNeverNew m) }
    ensures held_by_actions { OfEveryValidActions (λ publication says m. HeldAreNeverNew m) }
    ensures accepted_by_actions { OfEveryValidActions (λ publication says m. AcceptedAreNeverNew m) }
{}
