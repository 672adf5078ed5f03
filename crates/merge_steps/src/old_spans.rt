//! Between which generations all lies that is old.
ghost use Rattle.std.specs.Prelude.{◌≡◌};
ghost use Rattle.std.specs.Option.{option_copied};
ghost use Rattle.merge_steps.specs.OldSpans.{IsSpan, span_by, span_of};

use merge_gens::{Closing, GenerationBook};
use merge_types::Moment;

/// The generations from one on, up to another.
#[derive(Clone, Copy)]
pub struct Span {
    pub first: u64,
    pub last: u64,
}

/// Generations among which all stand that closed before the moment: from the first that is kept, up
/// to the last one that did.
pub fn old_span(gens: &GenerationBook, cutoff: Moment) -> Span
    ensures span { result ≡ span_of gens.now.book.closings cutoff }
    ensures within { IsSpan gens.now.book.closings cutoff result }
{
    span_by(gens.closings().first(), gens.last_before(cutoff))
}

// From the one to the other, where there are both.
fn span_by(first: Option<&Closing>, last: Option<u64>) -> Span
    ensures { result ≡ span_by (option_copied first.entry) last }
{
    match first {
        Some(first) => match last {
            Some(last) => Span {
                first: first.generation,
                last,
            },
            None => Span { first: 1, last: 0 },
        },
        None => Span { first: 1, last: 0 },
    }
}
