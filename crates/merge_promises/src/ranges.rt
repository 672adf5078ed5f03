//! A law on the identity ranges that sites hold and are told of.
ghost use Rattle.merge_laws.specs.Laws.{OfEveryValidActions, OfEveryValidRun};
ghost use Rattle.merge_promises.specs.GrantedRanges.{HeldRangesWereGranted, ToldRangesWereGranted};

/// Each range of an article that a site holds, the publisher or a subscriber, is one that just one grant
/// gives to this very site, from the same value to the same value. So is each that a reply tells a site
/// of, however late it comes.
pub fn held_ranges_were_granted()
    ensures held { OfEveryValidRun (λ publication says m. HeldRangesWereGranted m) }
    ensures told { OfEveryValidRun (λ publication says m. ToldRangesWereGranted m) }
    ensures held_by_actions { OfEveryValidActions (λ publication says m. HeldRangesWereGranted m) }
    ensures told_by_actions { OfEveryValidActions (λ publication says m. ToldRangesWereGranted m) }
{}
