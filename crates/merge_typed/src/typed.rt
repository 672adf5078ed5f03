//! Laws on values and moments.
ghost use Rattle.merge_typed.specs.Laws.{MessagesAreTyped, OfEveryTypedRun, TablesAreTyped};
ghost use Rattle.merge_typed.specs.Scripts.{ScriptsAreTyped};

/// The values, moments and ranges in the tables of each site are those of their types.
pub fn tables_are_typed()
    ensures { OfEveryTypedRun TablesAreTyped }
{}

/// And so are those in each message, on its way or delivered.
pub fn messages_are_typed()
    ensures { OfEveryTypedRun MessagesAreTyped }
{}

/// The events of a script are typed, where it has at most 2^32 lines.
pub fn script_events_are_typed()
    ensures { ScriptsAreTyped }
{}
