//! How actions are decided, and what the laws on them rest on.
ghost use Rattle.merge_laws.specs.Laws.Deciding.{CasesDecideAlike, EachStepAlike};
ghost use Rattle.merge_laws.specs.Laws.{OfEveryActions, OfEveryValidActions};
ghost use Rattle.merge_laws.specs.Laws.RestsOn.{AcceptedIsKnown, ChainsAreAccounted, HeldWereGranted, KnownIsAccepted, MomentsAreInStep, ReceivedIsInStep, RepliesAreTrue, SitesAreEqual};
ghost use Rattle.merge_model.specs.Laws.Bridge.{PublisherDecidesAlike};
ghost use Rattle.merge_model.specs.Laws.Promises.{AllStand};

/// Where a publication can be said by a file, lineages decide as histories do, whatever actions came:
/// each lineage stands for what its version knows, the publisher decides by its numbers and mappings
/// as the history does, and so is each case and each step.
pub fn actions_decide_as_histories_do()
    ensures stand { OfEveryValidActions (λ publication says m. AllStand m) }
    ensures publisher { OfEveryValidActions (λ publication says m. PublisherDecidesAlike m) }
    ensures cases { OfEveryValidActions (λ publication says m. CasesDecideAlike m) }
    ensures steps { OfEveryValidActions EachStepAlike }
{}

/// Parts of the invariant on which other laws rest, each a fact of every list of actions.
pub fn actions_keep_what_laws_rest_on()
    ensures accepted { OfEveryValidActions (λ publication says m. KnownIsAccepted m) }
    ensures known { OfEveryValidActions (λ publication says m. AcceptedIsKnown m) }
    ensures chains { OfEveryValidActions (λ publication says m. ChainsAreAccounted publication m) }
    ensures equal { OfEveryValidActions (λ publication says m. SitesAreEqual publication m) }
    ensures replies { OfEveryValidActions (λ publication says m. RepliesAreTrue publication m) }
    ensures moments { OfEveryValidActions (λ publication says m. MomentsAreInStep m) }
    ensures received { OfEveryActions (λ publication says m. ReceivedIsInStep m) }
    ensures held { OfEveryValidActions (λ publication says m. HeldWereGranted m) }
{}
