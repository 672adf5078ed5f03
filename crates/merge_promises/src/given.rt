//! Laws on the values that changes and decisions give.
ghost use Rattle.merge_laws.specs.Laws.{OfEveryValidActions};
ghost use Rattle.merge_promises.specs.Given.{DecisionsAreAnswers, DecisionsGive, PublisherGives, SubscribersGive};
ghost use Rattle.merge_promises.specs.GivenForGood.{DecisionsStand, GivenStandsHere, GivenStandsThere};

use merge_actions::actions_keep_values;

/// What a change gives and what a decision does, behind each step of any world, by whatever its sites
/// decide. A change that the publisher or a subscriber makes gives its row what it says. With column
/// tracking the cell of each column that it names has the named value alone, and the change as its top,
/// and each other cell is what it was; with row tracking the one cell has the change as its top, the
/// named values, and what the row had in the other columns. A new row has Null where no value is named,
/// and the value that was drawn in its identity column. An upload that acts leaves of each row that an
/// item of it meets what was decided: each cell is that of the side by which it goes, in a conflict the
/// winner's, or it has decided values, dealt out to the conflicting cells in order, with the decision as
/// its top. And each conflict is decided by what the resolver says of that very conflict.
pub fn changes_and_decisions_give_values()
    ensures publisher { PublisherGives }
    ensures subscribers { SubscribersGive }
    ensures decisions { DecisionsGive }
    ensures answers { DecisionsAreAnswers }
{}

/// These values stand for good. Behind whatever actions, where a publication can be said by a file, a site
/// makes a change: then in each version of its row behind whatever happens afterwards, at whatever sites, in
/// messages or in conflict tables, a cell at a place that the change set, and whose top it is, has the values
/// that the change gave. And so has a cell that an upload decided, whose top the decision is, the values that
/// were decided for it.
pub fn given_values_stand()
    ensures publisher { OfEveryValidActions GivenStandsHere }
    ensures subscribers { OfEveryValidActions GivenStandsThere }
    ensures decisions { OfEveryValidActions DecisionsStand }
{
    actions_keep_values();
}
