//! A worked run in which steps fail.
ghost use Rattle.merge_schema.specs.Valid.{IsValid};
ghost use Rattle.merge_worked.specs.StepsFail.{IsPlayedWith, IsToldWith, publication, slips, steps_fail as steps_fail_worked};

/// Steps fail at the publisher and at a subscriber, by faults of the store and by want of memory, in
/// sessions too: a join that is not taken, one whose answer is not, an upload that is answered and
/// not taken, and a reply that is not. What failed left all tables as they were, so each next session
/// does what is left, and the last one ends as if nothing had failed. The publication is valid with
/// the program's five resolvers.
pub fn steps_fail()
    ensures valid { IsValid 5 publication }
    ensures machine { IsPlayedWith slips steps_fail_worked }
    ensures model { IsToldWith slips steps_fail_worked }
{}
