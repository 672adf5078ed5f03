//! A law on the bound of a session's range requests.
ghost use Rattle.merge_laws.specs.Laws.{OfEveryValidRun};
ghost use Rattle.merge_owed.specs.Ranges.{RangesAreEnough};

/// The bound on a session's range requests is never what ends it, where a publication can be said by
/// a file: with any greater bound the session goes the same way. Of each article the ranges that
/// were granted and not heard of come first, one in each reply, and then at most two more are
/// granted before none is due.
pub fn range_requests_are_enough()
    ensures { OfEveryValidRun RangesAreEnough }
{}
