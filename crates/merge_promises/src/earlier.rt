//! A law on the earlier changes of a row.
ghost use Rattle.merge_laws.specs.Laws.{OfEveryValidActions, OfEveryValidRun};
ghost use Rattle.merge_promises.specs.Earlier.{EveryKnowsEarlier, HeldKnowEarlier};

/// Where a version of a row knows a change of it, it knows each earlier one that the same site made of
/// the row, unless that was given up: at every site, in messages and in conflict tables. What a site gives
/// up it discards as it is made anew, so what it makes of the row afterwards does not come from it. A
/// version that a site holds knows just those that were not given up.
pub fn earlier_changes_are_known()
    ensures every { OfEveryValidRun (λ publication says m. EveryKnowsEarlier m) }
    ensures held { OfEveryValidRun (λ publication says m. HeldKnowEarlier m) }
    ensures every_by_actions { OfEveryValidActions (λ publication says m. EveryKnowsEarlier m) }
    ensures held_by_actions { OfEveryValidActions (λ publication says m. HeldKnowEarlier m) }
{}
