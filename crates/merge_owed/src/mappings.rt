//! A law on the mappings that the publisher keeps of rows and sites.
ghost use Rattle.merge_laws.specs.Laws.{OfEveryValidRun};
ghost use Rattle.merge_owed.specs.Mappings.{KeptOrWent, OfEveryGoingRun, ToldAreKeptOrGone};

/// A mapping that the publisher keeps no longer went in one of four ways. A purge took it, and it said
/// that the row left in an old generation. Or a join took it, which was of its site and acted, and it
/// said that the row left. Or its row came back: it said that the row left, the row was outside the
/// partition as the step began, and is inside behind it. Or its row moved on: another move of the row
/// and the site is told, which says where the row is. So it is of each mapping that is kept at some
/// time, whatever comes afterwards, and of each move that a line of the history tells.
pub fn mappings_go_by_what_took_them()
    ensures kept { OfEveryValidRun KeptOrWent }
    ensures told { OfEveryGoingRun ToldAreKeptOrGone }
{}
