//! What numbers, mappings and lineages say, and what is forgotten.
ghost use Rattle.merge_actions.specs.Actions.{PurgesTakeThePast};
ghost use Rattle.merge_laws.specs.Facts.Knowledge.{KnownWereMade, MadeAreNumbered};
ghost use Rattle.merge_laws.specs.Laws.LastLines.{ChangedIsLastChange, LeftByLine, MappingIsLastLine, TouchedInsideByLine, TouchedOutsideByLine};
ghost use Rattle.merge_laws.specs.Laws.{ActedIsDone, ClosingsKeepTheLast, GapIsDone, JoinedTakesActed, KnowsOnlyMade, OfEveryActions, OfEveryValidActions, ReceivedIsDone, ReceivedNumberIsDone, SubscribersDecideAlike, TakesOnlyClosed, UnmetIsDone, UploadsTellTheLast};
ghost use Rattle.merge_laws.specs.Laws.Leavings.{JoinsTakeNothingOwed, PurgesTakeNothingOwed};
ghost use Rattle.merge_laws.specs.Facts.Watermarks.{WatermarksAreHeld};

/// Whatever actions came: the numbers that the publisher keeps of a site say which of its generations
/// and changes have acted, its mappings are what the last lines say, a subscriber decides as its
/// changes do, and no version knows a change that was not made.
pub fn actions_keep_numbers_and_lines()
    ensures received { OfEveryActions (λ publication says m. ReceivedIsDone m) }
    ensures acted { OfEveryActions (λ publication says m. ActedIsDone m) }
    ensures gap { OfEveryActions (λ publication says m. GapIsDone m) }
    ensures closed { OfEveryActions (λ publication says m. TakesOnlyClosed m) }
    ensures joined { OfEveryActions (λ publication says m. JoinedTakesActed m) }
    ensures number { OfEveryActions (λ publication says m. ReceivedNumberIsDone m) }
    ensures unmet { OfEveryActions (λ publication says m. UnmetIsDone m) }
    ensures kept { OfEveryActions (λ publication says m. ClosingsKeepTheLast m) }
    ensures told { OfEveryActions (λ publication says m. UploadsTellTheLast m) }
    ensures subscribers { OfEveryActions (λ publication says m. SubscribersDecideAlike m) }
    ensures mappings { OfEveryActions (λ publication says m. MappingIsLastLine m) }
    ensures changes { OfEveryActions (λ publication says m. ChangedIsLastChange m) }
    ensures has_left { OfEveryActions (λ publication says m. LeftByLine m) }
    ensures touch_inside { OfEveryActions (λ publication says m. TouchedInsideByLine m) }
    ensures touch_outside { OfEveryActions (λ publication says m. TouchedOutsideByLine m) }
    ensures numbered { OfEveryActions (λ publication says m. MadeAreNumbered m) }
    ensures known { OfEveryActions (λ publication says m. KnownWereMade m) }
    ensures lineages { OfEveryActions (λ publication says m. KnowsOnlyMade m) }
{}

/// What a purge takes after whatever actions is needed by no joined site that is not expired, nor owed
/// to one; what a join forgets is owed to none; and the watermark that the publisher keeps of a joined
/// site is no more than the site's own.
pub fn actions_take_nothing_owed()
    ensures old { OfEveryActions PurgesTakeThePast }
    ensures purges { OfEveryValidActions (λ publication says m. PurgesTakeNothingOwed publication m) }
    ensures joins { OfEveryValidActions (λ publication says m. JoinsTakeNothingOwed publication m) }
    ensures watermarks { OfEveryActions (λ publication says m. WatermarksAreHeld m) }
{}
