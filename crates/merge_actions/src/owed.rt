//! Values, bodies, reports and range requests.
ghost use Rattle.merge_laws.specs.Laws.{OfEveryActions, OfEveryValidActions};
ghost use Rattle.merge_owed.specs.Chains.{TopsAreInChains};
ghost use Rattle.merge_owed.specs.Forgotten.{JoinsForgetByLines, PublisherTellsDone, PurgesCountByLines, PurgesForgetByLines, SubscribersTellMade, TombstonesAreOldByLines};
ghost use Rattle.merge_owed.specs.Identity.{TakenStandsForGoodByActions, ValuesWereTaken};
ghost use Rattle.merge_owed.specs.Mappings.{KeptOrWentByActions, OfEveryGoingActions, ToldAreKeptOrGone};
ghost use Rattle.merge_owed.specs.Purged.{KnownIsWithin, LackedWerePurged, OfEveryPurgingActions, PurgedWereTaken};
ghost use Rattle.merge_owed.specs.Ranges.{RangesAreEnough};
ghost use Rattle.merge_owed.specs.Values.{ValuesStandForGoodByActions};

/// Whatever actions came and come, where a publication can be said by a file: the value that an insert
/// took for its identity column is the value that its row has, for good, and a live version has no
/// other; what made a cell is in its chain; and cells of a row with one top have the same values at
/// each place, for good.
pub fn actions_keep_values()
    ensures stay { OfEveryValidActions TakenStandsForGoodByActions }
    ensures taken { OfEveryValidActions ValuesWereTaken }
    ensures tops { OfEveryValidActions TopsAreInChains }
    ensures values { OfEveryValidActions ValuesStandForGoodByActions }
{}

/// Whatever actions came: what a join and a purge forget is what the last lines say, and so are the
/// counts that come of a purge which does not fail. The numbers in reports are what the history says,
/// and the bound on a session's range requests is never what ends it.
pub fn actions_forget_by_lines()
    ensures joins { OfEveryActions (λ publication says m. JoinsForgetByLines m) }
    ensures purges { OfEveryValidActions PurgesForgetByLines }
    ensures tombstones { OfEveryValidActions TombstonesAreOldByLines }
    ensures counts { OfEveryValidActions PurgesCountByLines }
    ensures publisher { OfEveryValidActions PublisherTellsDone }
    ensures subscribers { OfEveryValidActions SubscribersTellMade }
    ensures ranges { OfEveryValidActions RangesAreEnough }
{}

/// A row that the publisher lacks, and of which it accepted a change, was purged: a purge came among the
/// actions, the row was deleted then, its last change stood in an old generation, and behind the purge
/// it was gone. So what a site knows of a row is known to the publisher's version of it, but for the
/// site's own changes that are not accepted, or the row was purged so. And the rows that the history
/// has as purged are just those that a purge took.
pub fn actions_purge_what_is_lacking()
    ensures lacked { OfEveryPurgingActions LackedWerePurged }
    ensures within { OfEveryPurgingActions KnownIsWithin }
    ensures taken { OfEveryPurgingActions PurgedWereTaken }
{}

/// A mapping that is kept after some actions, and no longer after others, went by one of these as it
/// was kept: a purge took it, and it said that the row left in an old generation; or a join took it,
/// which was of its site and acted, and it said that the row left; or its row came back into the
/// partition; or its row moved on, of which another mapping tells. And so it is of each move that a
/// line of the history tells.
pub fn actions_take_mappings()
    ensures kept { OfEveryValidActions KeptOrWentByActions }
    ensures told { OfEveryGoingActions ToldAreKeptOrGone }
{}
