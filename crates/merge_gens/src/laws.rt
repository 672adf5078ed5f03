//! What follows where moments do not fall. These functions do nothing: their contracts are the laws.
ghost use Rattle.std.specs.Prelude.{◌≡◌, ◌≤◌, ℕ, All};
ghost use Rattle.merge_types.specs.declared.Moment.{Moment as OneMoment};
ghost use Rattle.merge_gens.specs.declared.filling.Filling.{Filling};
ghost use Rattle.merge_gens.specs.Book.{Book, IsSound, NeverFall, moved_to, book_after_purge, book_after_forgetting, forgotten_if_any, last_before};

/// Where moments do not fall, a purge forgets the generations up to the last one that closed
/// before its cutoff.
pub fn a_purge_forgets_up_to_the_last()
    ensures { (book : Book) (cutoff : OneMoment) → IsSound book → NeverFall book.closings
        → book_after_purge book cutoff ≡ forgotten_if_any book (last_before cutoff book.closings) }
{}

/// Moments that do not fall still do not as generations close at a moment that is not below them,
/// and as generations are forgotten.
pub fn moments_stay_in_order()
    ensures moved { (book : Book) (filling : Filling) (moment : OneMoment) → NeverFall book.closings
        → All (λ c. c.moment.0 ≤ moment.0) book.closings → NeverFall (moved_to book filling moment).closings }
    ensures purged { (book : Book) (cutoff : OneMoment) → NeverFall book.closings → NeverFall (book_after_purge book cutoff).closings }
    ensures forgotten { (book : Book) (up_to : ℕ) → NeverFall book.closings → NeverFall (book_after_forgetting book up_to).closings }
{}
