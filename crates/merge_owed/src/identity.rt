//! The law on the identity values of rows.
ghost use Rattle.merge_laws.specs.Laws.{OfEveryValidRun};
ghost use Rattle.merge_owed.specs.Identity.{TakenStandsForGood, ValuesWereTaken};

/// The value that an insert took for its identity column is the value that its row has, for good: each
/// live version of the row has it, at every site, in every message however late that comes, and in
/// every conflict table, whatever changes, merges and decisions come afterwards. And a live version
/// has no other: its value is the one that the change took which made its row.
pub fn identity_values_stay()
    ensures stay { OfEveryValidRun TakenStandsForGood }
    ensures taken { OfEveryValidRun ValuesWereTaken }
{}
