//! What holds of every list of calls.
ghost use Rattle.std.specs.Prelude.{◌≡◌, ◌≤◌, ◌↔◌, ◌++◌, ◌∷◌, ℕ, ℤ, IsTrue, List, []};
ghost use Rattle.merge_ident.specs.declared.grants.Grant.{Grant};
ghost use Rattle.merge_ident.specs.declared.ranges.RangeEvent.{RangeEvent};
ghost use Rattle.merge_ident.specs.Grants.{AreGrants};
ghost use Rattle.merge_ident.specs.Histories.{history_after, holder_of};
ghost use Rattle.merge_ident.specs.Holders.{Holder, new_holder, AreHeld};
ghost use Rattle.merge_ident.specs.Runs.{after_all, times_taken, times_received, ranges_of, AreApart, EventsFit};
ghost use Rattle.merge_ident.specs.Stored.{can_follow};

/// Over every list of takes and receives, a value is taken at most as often as ranges with it
/// were held at first or received since. So where no value is in two of these ranges, none is
/// taken twice, and each value that is taken is in one of them.
pub fn values_are_taken_once()
    ensures at_most { (holder : Holder) (events : List RangeEvent) → AreHeld holder.held → EventsFit holder.have events
        → (value : ℤ) → times_taken value holder events ≤ times_received value (ranges_of holder events) }
    ensures once { (holder : Holder) (events : List RangeEvent) → AreHeld holder.held → EventsFit holder.have events
        → AreApart (ranges_of holder events) → (value : ℤ) → times_taken value holder events ≤ 1 }
    ensures received { (holder : Holder) (events : List RangeEvent) → AreHeld holder.held → EventsFit holder.have events
        → (value : ℤ) → 1 ≤ times_taken value holder events → 1 ≤ times_received value (ranges_of holder events) }
{}

/// After every list of takes and receives, a site holds what follows from its history: of the
/// last two ranges that it received, those with a value that was not used.
pub fn what_is_held_follows_from_the_history()
    ensures { (threshold : ℕ) (events : List RangeEvent) → EventsFit 0 events
        → after_all (new_holder threshold) events ≡ holder_of threshold (history_after [] events) }
{}

/// A grant can follow those of a book exactly where they are grants of a book with it too. So a
/// start, which asks this of one stored grant after another, tells the first one that is bad.
pub fn books_go_on_by_what_can_follow()
    ensures none { AreGrants [] }
    ensures next { (before : List Grant) (grant : Grant) → AreGrants before
        → IsTrue (can_follow before grant) ↔ AreGrants (before ++ grant ∷ []) }
{}
