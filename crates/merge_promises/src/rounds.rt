//! The laws that rounds settle all sites.
ghost use Rattle.merge_laws.specs.Laws.{OfEveryValidActions, OfEveryValidRun};
ghost use Rattle.merge_promises.specs.SpacedRounds.{SpacedRoundsSettle};
ghost use Rattle.merge_promises.specs.Syncs.{FailingRoundSettles, FailingTwoRoundsSettle, TwoRoundsSettle};

/// Where a publication can be said by a file: when every subscriber has a session that nothing refuses,
/// joined or not, and then every one has another, in whatever order and with nothing else between, every
/// subscriber is settled, whatever happened before. The first session of a site takes up what it changed,
/// which unsettles those before it; in the second round nobody has anything to send. So it is of the model
/// in which no step fails (`plain`), and of that in which steps may fail, whichever these are (`failing`):
/// a session in which one fails is one that something refused.
pub fn two_rounds_settle_all_sites()
    ensures plain { OfEveryValidRun TwoRoundsSettle }
    ensures failing { OfEveryValidRun FailingTwoRoundsSettle }
{}

/// Where a publication can be said by a file: when every subscriber has completed an upload, and then every
/// one a download, in whatever order, and nothing else happens from the first to the last, every subscriber is
/// settled, whatever happened before and whichever steps may fail. An upload is completed where the site has
/// joined and nothing is refused until there is none to make, and a download where nothing is refused until
/// the site has asked from the publisher's last generation. So no step of those fails that are completed.
pub fn rounds_in_which_steps_may_fail_settle_all_sites()
    ensures runs { OfEveryValidRun FailingRoundSettles }
    ensures actions { OfEveryValidActions FailingRoundSettles }
{}

/// Where a publication can be said by a file: over two lists of actions, one behind the other, at which no site
/// changes a row and none is made anew, when every subscriber has joined and has nothing to send at some place of
/// the first list, and then every one holds all that the publisher has, which has nothing open, at some place of
/// the second, every subscriber is settled at the end that is not expired there. Each has a place of its own, and
/// beside them reports, waits, closings and purges may come, messages that are made, delivered late, again or
/// never, and sessions that break off; whichever steps may fail.
pub fn rounds_beside_other_steps_settle_all_sites()
    ensures runs { OfEveryValidRun SpacedRoundsSettle }
    ensures actions { OfEveryValidActions SpacedRoundsSettle }
{}
