//! A law on rows that were purged.
ghost use Rattle.merge_owed.specs.Purged.{KnownIsWithin, LackedWerePurged, OfEveryPurgingRun, PurgedWereTaken};

/// A row that the publisher lacks, and of which it accepted a change, was purged: a purge came among the
/// events, the row was deleted then, its last change stood in an old generation, and behind the purge it
/// was gone. So what a site knows of a row is known to the publisher's version of it, but for the site's
/// own changes that are not accepted, or the row was purged so. And the rows that the history has as
/// purged, which `no_change_is_lost` excepts, are just those that a purge took.
pub fn accepted_changes_are_known_or_purged()
    ensures lacked { OfEveryPurgingRun LackedWerePurged }
    ensures within { OfEveryPurgingRun KnownIsWithin }
    ensures taken { OfEveryPurgingRun PurgedWereTaken }
{}
