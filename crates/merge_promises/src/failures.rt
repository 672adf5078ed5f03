//! A law on steps that fail.
ghost use Rattle.merge_model.specs.History.Model.{model};
ghost use Rattle.merge_model.specs.World.Events.{machine};
ghost use Rattle.merge_promises.specs.Failures.{RefusedKeepHistory, RefusedKeepTables, RefusedOnlyAsk};

use merge_model::refusals_change_nothing;

/// A step that fails changes no table, at whatever world, with whatever steps still to fail: where it is
/// answered with want of memory, with a fault of the store, or with whatever other refusal, the tables of
/// all sites, the messages and the moment are those before, and so is the history. Of the questions of an
/// upload the first few may have been asked already, and only the tallies of resolvers tell.
pub fn refused_steps_keep_tables()
    ensures machine { RefusedOnlyAsk machine }
    ensures model { RefusedOnlyAsk model }
    ensures tables { RefusedKeepTables }
    ensures history { RefusedKeepHistory }
{
    refusals_change_nothing();
}
