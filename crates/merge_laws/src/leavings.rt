//! Laws on rows that left a partition.
ghost use Rattle.merge_laws.specs.Laws.{OfEveryValidRun};
ghost use Rattle.merge_laws.specs.Laws.Leavings.{JoinsTakeNothingOwed, LeavingsAreSeen, PurgesTakeNothingOwed};

/// A step of the publisher tells that a row left a site's partition only where the step found it
/// inside before and outside afterwards, or where an item of the site's own upload acted on it and it
/// is outside afterwards.
pub fn rows_leave_where_a_step_saw_it()
    ensures { LeavingsAreSeen }
{}

/// What a purge takes, tombstones and mappings, is owed to no joined site that is not expired: each
/// row that was touched for the site above its watermark stays touched in the same generation, and
/// is to be held as before. What a join forgets is owed to none either: for other sites all stays,
/// and the site that joins holds no row.
pub fn purges_and_joins_take_nothing_owed()
    ensures purges { OfEveryValidRun (λ publication says m. PurgesTakeNothingOwed publication m) }
    ensures joins { OfEveryValidRun (λ publication says m. JoinsTakeNothingOwed publication m) }
{}
