//! What holds of every lineage. These functions do nothing: their contracts are the laws.
ghost use Rattle.merge_lineage.specs.Laws.{AscendingIsTested, NumbersDetermine, KnowsTheEarlier, CoversByKnowing, CoversItself, CoversAlong, CoversBothWays, JoinedJoins, JoinIsOne, JoinCoversBoth, JoinIsLeast, JoinKnows, JoinIsAssociative, JoinIsCommutative, JoinIsIdempotent, AdvanceKnows};

/// A lineage is its numbers, and knowing rises with the numbers.
pub fn knowing_laws()
    ensures tested { AscendingIsTested }
    ensures numbers { NumbersDetermine }
    ensures earlier { KnowsTheEarlier }
    ensures advance { AdvanceKnows }
{}

/// Covering is an order.
pub fn cover_laws()
    ensures knowing { CoversByKnowing }
    ensures itself { CoversItself }
    ensures along { CoversAlong }
    ensures both_ways { CoversBothWays }
{}

/// A join is the least lineage that covers both.
pub fn join_laws()
    ensures joins { JoinedJoins }
    ensures one { JoinIsOne }
    ensures covers { JoinCoversBoth }
    ensures least { JoinIsLeast }
    ensures knows { JoinKnows }
    ensures associative { JoinIsAssociative }
    ensures commutative { JoinIsCommutative }
    ensures idempotent { JoinIsIdempotent }
{}
