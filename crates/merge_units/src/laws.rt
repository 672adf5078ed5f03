//! What holds of every merge. These functions do nothing: their contracts are the laws.
ghost use Rattle.merge_units.specs.Laws.{CaseByKnowing, CoveredHasNoNews, EqualIsNothing, CoveredIsNothing, CoveringIsTaken, CellsBySide, DecidedValuesStand, RowsStayInLimit, ResultKnowsItsTops, ChangeKnowsItsTops, InsertKnowsItsTops, ResultFits, ChangeFits, InsertFits};

/// What a version that knows all of another is to it.
pub fn case_laws()
    ensures knowing { CaseByKnowing }
    ensures no_news { CoveredHasNoNews }
    ensures equal { EqualIsNothing }
    ensures covered { CoveredIsNothing }
    ensures covering { CoveringIsTaken }
{}

/// Where each cell of a merge comes from.
pub fn result_laws()
    ensures cells { CellsBySide }
    ensures decided { DecidedValuesStand }
    ensures limit { RowsStayInLimit }
{}

/// What versions keep through merges and local changes.
pub fn kept_laws()
    ensures result_tops { ResultKnowsItsTops }
    ensures change_tops { ChangeKnowsItsTops }
    ensures insert_tops { InsertKnowsItsTops }
    ensures result_fits { ResultFits }
    ensures change_fits { ChangeFits }
    ensures insert_fits { InsertFits }
{}
