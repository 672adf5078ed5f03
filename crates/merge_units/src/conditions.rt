//! The tests of what the calls here ask of their caller.
ghost use Rattle.std.specs.Prelude.{◌≡◌, ◌<◌, IsTrue, ◌↔◌, All, length};
ghost use Rattle.merge_units.specs.Length.{value_count};
ghost use Rattle.merge_units.specs.Version.{HaveEqualCounts, FitsTracking};
ghost use Rattle.merge_units.specs.Results.{taken_count, FitsDecision, FitsMerge, FitsBodies, IsNewWhereDecided};
ghost use Rattle.merge_units.specs.Changes.{ColumnsAscend, AscendBelow};

use crate::result::{taken, values_of};
use crate::{Body, Case, Cell, Decision, Side};
use merge_lineage::Lineage;
use merge_types::{Dot, Setting, Tracking, Value};

/// Whether two bodies have as many cells, where both live.
pub fn have_equal_counts(ours: &Body, theirs: &Body) -> bool
    ensures { IsTrue result ↔ HaveEqualCounts ours.now theirs.now }
{
    match (ours, theirs) {
        (Body::Live(ours), Body::Live(theirs)) => ours.len() == theirs.len(),
        _ => true,
    }
}

/// Whether these can be the cells of a row with this tracking.
pub fn fits_tracking(cells: &[Cell], tracking: Tracking) -> bool
    ensures { IsTrue result ↔ FitsTracking tracking cells.now }
{
    match tracking {
        Tracking::Row => cells.len() == 1,
        Tracking::ByColumn => cells.iter().all(|cell| cell.values.len() == 1),
    }
}

/// Whether these edits can come for a row with these cells and this tracking.
pub fn can_change(cells: &[Cell], edits: &[Setting], tracking: Tracking) -> bool
    ensures { IsTrue result ↔ (FitsTracking tracking cells.now × AscendBelow (value_count cells.now) edits.now) }
{
    fits_tracking(cells, tracking) && ascend_below(edits, column_count(cells, tracking))
}

// How many columns a row has.
fn column_count(cells: &[Cell], tracking: Tracking) -> usize
    requires { FitsTracking tracking cells.now }
    ensures { result ≡ value_count cells.now }
{
    match tracking {
        Tracking::Row => cells[0].values.len(),
        Tracking::ByColumn => cells.len(),
    }
}

// Whether the columns of these edits ascend and are places of a row with so many values.
fn ascend_below(edits: &[Setting], count: usize) -> bool
    ensures { IsTrue result ↔ AscendBelow count edits.now }
{
    columns_ascend(edits) && columns_are_below(edits, count)
}

fn columns_ascend(edits: &[Setting]) -> bool
    ensures { IsTrue result ↔ ColumnsAscend edits.now }
{
    for at in 1..edits.len() {
        if edits[at].column <= edits[at - 1].column {
            return false;
        }
    }
    true
}

fn columns_are_below(edits: &[Setting], count: usize) -> bool
    ensures { IsTrue result ↔ All (λ edit. edit.column < count) edits.now }
{
    edits.iter().all(|edit| (edit.column as usize) < count)
}

/// Whether the decision may come for this case of a row with this body at the publisher.
pub fn fits_decision(case: &Case, publisher: &Body, decision: &Decision) -> bool
    ensures { IsTrue result ↔ FitsDecision case.now publisher.now decision.now }
{
    match (case, publisher, decision) {
        (Case::Conflict(sides), Body::Live(cells), Decision::Custom(values)) => {
            are_taken(
                values.as_slice(),
                sides.as_slice(),
                cells.as_slice(),
                decision,
            )
        }
        (_, _, Decision::Custom(_)) => false,
        (_, _, Decision::KeepPublisher | Decision::TakeSubscriber) => true,
    }
}

/// Whether the decision may bring this dot to a merge of versions with these lineages.
pub fn is_new_where_decided(
    publisher: &Lineage,
    incoming: &Lineage,
    decision: &Decision,
    dot: Dot,
) -> bool
    ensures { IsTrue result ↔ IsNewWhereDecided publisher.now incoming.now decision.now dot }
{
    match decision {
        Decision::Custom(_) => !publisher.knows(dot) && !incoming.knows(dot),
        Decision::KeepPublisher | Decision::TakeSubscriber => true,
    }
}

/// Whether the decision may come for this case of two bodies: the test for `Case::apply`.
pub fn fits_bodies(case: &Case, publisher: &Body, incoming: &Body, decision: &Decision) -> bool
    ensures { IsTrue result ↔ FitsBodies case.now publisher.now incoming.now decision.now }
{
    match (case, publisher, incoming) {
        (Case::Merge(sides) | Case::Conflict(sides), Body::Live(ours), Body::Live(theirs)) => {
            fits_merge(
                sides.as_slice(),
                ours.as_slice(),
                theirs.as_slice(),
                decision,
            )
        }
        (Case::Merge(_) | Case::Conflict(_), _, _) => false,
        _ => true,
    }
}

fn fits_merge(sides: &[Side], ours: &[Cell], theirs: &[Cell], decision: &Decision) -> bool
    ensures { IsTrue result ↔ FitsMerge sides.now ours.now theirs.now decision.now }
{
    sides.len() == ours.len()
        && sides.len() == theirs.len()
        && are_taken(values_of(decision), sides, ours, decision)
}

// Whether the conflicting cells take all of these values, and no more.
fn are_taken(values: &[Value], sides: &[Side], cells: &[Cell], decision: &Decision) -> bool
    ensures { IsTrue result ↔ (length values.now ≡ taken_count decision.now sides.now cells.now) }
{
    let mut left = values.len();
    for at in 0..sides.len().min(cells.len()) {
        let count = taken(decision, sides[at], &cells[at]);
        if left < count {
            return false;
        }
        left -= count;
    }
    left == 0
}
