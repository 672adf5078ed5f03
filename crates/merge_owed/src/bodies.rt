//! Laws on bodies: their chains, and the values of their cells.
ghost use Rattle.merge_laws.specs.Laws.{OfEveryValidRun};
ghost use Rattle.merge_owed.specs.Chains.{TopsAreInChains};
ghost use Rattle.merge_owed.specs.Values.{ValuesStandForGood};

/// The change that last set a cell is one that the cell descends from, place by place, in every
/// version: at each site, in each message and in each conflict table. A live version has a cell and
/// a chain for each place of its article, and a deleted row descends from its delete. So a cell that
/// came to another place, or from another side than its chain, would show.
pub fn tops_are_in_chains()
    ensures { OfEveryValidRun TopsAreInChains }
{}

/// Cells of a row with one top have the same values at each place, for good: of any two live versions,
/// one now and one now or behind whatever happens afterwards, at whatever sites, in messages or in
/// conflict tables. So the values of a cell are those that the change made which is its top, or that a
/// decision gave, whose change is its top; nothing else sets a value.
pub fn values_stand_by_their_tops()
    ensures { OfEveryValidRun ValuesStandForGood }
{}
