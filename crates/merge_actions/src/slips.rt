//! What the machine does, and what fails.
ghost use Rattle.merge_actions.specs.Actions.{FailuresShowInOutcomes, MachineDoesAlike, NoActionFails, TablesAlikeBehindActions};
ghost use Rattle.merge_model.specs.World.Events.{machine};
ghost use Rattle.merge_model.specs.History.Model.{model};

/// Where a publication can be said by a file, the same comes of each action of the machine, which has
/// tables alone, as of the model, which decides by histories, where the same steps fail; and the
/// machine has the model's tables.
pub fn machine_acts_as_the_model()
    ensures outcomes { MachineDoesAlike }
    ensures tables { TablesAlikeBehindActions }
{}

/// Where no step fails, actions do what they do where none can; and a step that fails shows in its
/// outcome, so that they do so too where no outcome tells of want of memory or of a fault of the store.
pub fn actions_that_fail_show()
    ensures machine { NoActionFails machine }
    ensures model { NoActionFails model }
    ensures machine_shows { FailuresShowInOutcomes machine }
    ensures model_shows { FailuresShowInOutcomes model }
{}
