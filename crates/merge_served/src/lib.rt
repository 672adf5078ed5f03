//! A publisher that served has the tables of a world of sites. These functions do nothing: their
//! contracts are the laws.
#![tactic(auto)]

ghost use Rattle.std.specs.Prelude.{All};
ghost use Rattle.merge_resolve.specs.Asked.{says_at};
ghost use Rattle.merge_model.specs.Script.Resolvers.{rules_say};
ghost use Rattle.merge_served.specs.Served.{JournalsAreRuns, RequestsTellDecisions, ServedJournalsHavePromises, ServedWorldsHavePromises};
ghost use Rattle.merge_served.specs.Tallies.{DecisionsAreTheSameAtAnyTallies, SaysItsRule, SaysTheSameAtAnyTally};
ghost use Rattle.merge_served.specs.Told.{RepliesAreOneThreads};

use merge_resolve::Handed;

/// Where a publisher serves and does nothing else while the sites of a world act, in any order and
/// whatever steps fail, the replay of its journal gives its tables in that world: one request after the
/// other, each answered at its moment with its decisions. Moments of a journal may fall, since the
/// publisher takes the last one that it took for an earlier one.
pub fn journals_are_runs()
    ensures { JournalsAreRuns }
{}

/// So where the requests of a journal are messages that such sites made, and the publication can be
/// said by a file, all promises hold of the model of the same actions, where the same steps fail: the
/// same comes of them, and it has the tables behind the journal.
pub fn served_worlds_have_promises()
    ensures { ServedWorldsHavePromises }
{}

/// The rules that come with the product say the same at their places, however often they were asked.
pub fn rules_say_the_same_at_any_tally()
    ensures { SaysTheSameAtAnyTally rules_say }
{}

/// So do any resolvers that are handed in of which each says what one of these rules says, as `new` of
/// each of the five that the program makes ensures.
pub fn resolvers_by_rules_say_the_same_at_any_tally(resolvers: &[Handed])
    requires { All (λ r. SaysItsRule (says r)) resolvers.now }
    ensures { SaysTheSameAtAnyTally (says_at (λ r. says r) resolvers.now) }
{}

/// Where resolvers say the same, however often they were asked, the decisions on the conflicts of a
/// request are the same, whatever the tallies are.
pub fn decisions_are_the_same_at_any_tallies()
    ensures { DecisionsAreTheSameAtAnyTallies }
{}

/// Then the decisions of a journal that such resolvers made are those of a world in which the publisher
/// takes the same requests at the same moments.
pub fn requests_tell_decisions()
    ensures { RequestsTellDecisions }
{}

/// So all promises hold of the tables to which a journal leads that such resolvers decided, at whatever
/// tallies, where its requests are messages that sites of a world made, and the publisher takes each at
/// the moment at which it does in that world.
pub fn served_journals_have_promises()
    ensures { ServedJournalsHavePromises }
{}

/// Where a desk was closed, each reply that a seat was told is that of one thread, which answers the
/// requests of the journal in their order, unless two bodies have one SHA-256: the request and the
/// reply have the digests of those of an entry of the seat, at its place and its moment.
pub fn replies_are_those_of_one_thread()
    ensures { RepliesAreOneThreads }
{}
