//! What holds of runs in which steps may fail. These functions do nothing: their contracts are the laws.
ghost use Rattle.merge_model.specs.Laws.Quiet.{QuietClosings, QuietReplies, QuietRequests, QuietSubscriberClosings};
ghost use Rattle.merge_model.specs.Laws.SlipLaws.{CallsAreSteps, FailuresShow, FailuresShowInModel, NoneFails, NoneFailsInModel};

/// Where no step fails, a run is that of a world in which none can.
pub fn steps_without_slips_are_plain()
    ensures machine { NoneFails }
    ensures model { NoneFailsInModel }
{}

/// A step that fails shows in the answer to its event: where no answer tells of want of memory or of a
/// fault of the store, a run is that of a world in which no step can fail, and so determined by its events
/// and by what the resolvers decide.
pub fn steps_that_fail_show()
    ensures machine { FailuresShow }
    ensures model { FailuresShowInModel }
{}

/// A call of the publisher that meets its contract is a step of a world that may fail.
pub fn calls_are_steps()
    ensures { CallsAreSteps }
{}

/// A call that commits nothing leaves the tables of its site as they are, so a site may leave the store alone.
pub fn quiet_calls_change_nothing()
    ensures requests { QuietRequests }
    ensures closings { QuietClosings }
    ensures subscriber_closings { QuietSubscriberClosings }
    ensures replies { QuietReplies }
{}
