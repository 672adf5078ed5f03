//! What holds of all questions. These functions do nothing: their contracts are the laws.
ghost use Rattle.merge_resolve.specs.AskingLaws.{CountsItsQuestions};
ghost use Rattle.merge_resolve.specs.CountedLaws.{CountedFits, CountedStaysInLimit};

/// Each resolver of a list is asked its own questions, each once.
pub fn asking_law()
    ensures { CountsItsQuestions }
{}

/// What a decision counts as may be applied, and no row passes its limit by it.
pub fn counted_laws()
    ensures fits { CountedFits }
    ensures limit { CountedStaysInLimit }
{}
