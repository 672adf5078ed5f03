//! Changes of a book, and the plan of the changes of one step.
ghost use Rattle.std.specs.Prelude.{◌≡◌, ◌<◌, [], IfOk, IsOk};
ghost use Rattle.merge_types.specs.Limits.{entry_limit};
ghost use Rattle.merge_gens.specs.Plan.{filling_after, closing_moment, answer_of, answers_of, book_after_all, book_of, IsAllowed, AreAllowed};

use crate::closings::add_closings;
use crate::{Closings, Filling};
use merge_types::{Exact, Listing, Moment, NoMemory};
use std::alloc::Global;

/// A change of a book.
#[derive(Clone, Copy, Debug, PartialEq, Eq)]
pub enum GenerationChange {
    /// So many entries are added.
    Enter { count: u64, moment: Moment },
    /// The open generation closes where it has an entry.
    Close { moment: Moment },
}

impl Exact for GenerationChange {
    ghost use Rattle.std.proofs.Common.{rules};

    ghost exact = { Prim.search rules };
}

impl GenerationChange {
    // Where the filling stands afterwards, and what is answered.
    fn make(self, alloc: Global, filling: Filling) -> Result<(Filling, GenerationAnswer), NoMemory>
        requires unfilled { filling.filled < entry_limit }
        requires allowed { IsAllowed filling self }
        ensures filling { IfOk result (λ made. made.0 ≡ filling_after filling self) }
        ensures answer { IfOk result (λ made. made.1 ≡ answer_of filling self) }
    {
        match self {
            GenerationChange::Enter { count, .. } => {
                let generations = filling.generations(alloc, count)?;
                Ok((
                    filling.filled_by(count),
                    GenerationAnswer::Entered(Listing::new(generations)),
                ))
            }
            GenerationChange::Close { .. } => {
                let after = filling.closed();
                Ok((after, GenerationAnswer::Closed(after.last_closed)))
            }
        }
    }

    // What the generations keep that close.
    fn moment(self) -> Moment
        ensures { result ≡ closing_moment self }
    {
        match self {
            GenerationChange::Enter { moment, .. } => moment,
            GenerationChange::Close { moment } => moment,
        }
    }
}

/// What a change of a book answers.
#[derive(Debug, Drop)]
pub enum GenerationAnswer {
    /// The generation of each entry that was added.
    Entered(Generations),
    /// The last closed generation.
    Closed(u64),
}

/// Generations, by their numbers.
pub type Generations = Listing<u64>;

/// The answers of several changes.
pub type GenerationAnswers = Listing<GenerationAnswer>;

/// What changes of a book come to.
#[derive(Debug, Drop)]
pub struct GenerationPlan {
    /// Where the filling stood when the plan was made.
    pub before: Filling,
    /// Where the filling stands afterwards.
    pub filling: Filling,
    /// The generations that close, in ascending order.
    pub closings: Closings,
}

impl GenerationPlan {
    // The plan of these changes, and what each answers.
    pub(crate) fn of_changes(
        alloc: Global,
        filling: Filling,
        changes: &[GenerationChange],
    ) -> Result<(GenerationAnswers, GenerationPlan), NoMemory>
        requires unfilled { filling.filled < entry_limit }
        requires allowed { AreAllowed filling changes.now }
        ensures answers { IfOk result (λ planned. planned.0 ≡ answers_of filling changes.now) }
        ensures nothing { changes.now ≡ [] → IsOk result }
        ensures before { IfOk result (λ planned. planned.1.before ≡ filling) }
        ensures plan { IfOk result (λ planned. book_of planned.1 ≡ book_after_all (record { filling = filling; closings = [] }) changes.now) }
    {
        let mut answers = Listing::empty(alloc);
        let mut closings = Vec::new(alloc);
        let mut reached = filling;
        for change in changes {
            let (after, answer) = change.make(alloc, reached)?;
            add_closings(
                &mut closings,
                reached.last_closed,
                after.last_closed,
                change.moment(),
            )?;
            answers.push(answer)?;
            reached = after;
        }
        let plan = GenerationPlan {
            before: filling,
            filling: reached,
            closings: Listing::new(closings),
        };
        Ok((answers, plan))
    }
}
