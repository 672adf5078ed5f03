//! What the laws rest on.
ghost use Rattle.merge_laws.specs.Laws.{OfEveryModel, OfEveryValidRun};
ghost use Rattle.merge_laws.specs.Laws.RestsOn.{AcceptedIsKnown, ChainsAreAccounted, HeldWereGranted, KnownIsAccepted, MomentsAreInStep, ReceivedIsInStep, RepliesAreTrue, SitesAreEqual};

/// Parts of the invariant on which other laws rest, each a fact of every run. That what is known is
/// closed backwards is said by `known_changes_were_made`.
pub fn runs_keep_what_laws_rest_on()
    ensures accepted { OfEveryValidRun (λ publication says m. KnownIsAccepted m) }
    ensures known { OfEveryValidRun (λ publication says m. AcceptedIsKnown m) }
    ensures chains { OfEveryValidRun (λ publication says m. ChainsAreAccounted publication m) }
    ensures equal { OfEveryValidRun (λ publication says m. SitesAreEqual publication m) }
    ensures replies { OfEveryValidRun (λ publication says m. RepliesAreTrue publication m) }
    ensures moments { OfEveryValidRun (λ publication says m. MomentsAreInStep m) }
    ensures received { OfEveryModel ReceivedIsInStep }
    ensures held { OfEveryValidRun (λ publication says m. HeldWereGranted m) }
{}
