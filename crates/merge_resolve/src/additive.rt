//! The sum of both values wins.
ghost use Rattle.std.specs.Prelude.{◌≡◌, ℕ, ◌<◌, ◌+ℤ◌, ◌==◌, IfOk, length, slice_set, map, if◌then◌else◌, Some, None};
ghost use Rattle.std.specs.List.{list_any};
ghost use Rattle.merge_resolve.specs.declared.choice.ResolverChoice.TheVariants as choice;
ghost use Rattle.merge_resolve.specs.Choices.{rule_of};
ghost use Rattle.std.specs.Option.{option_copied};
ghost use Rattle.merge_units.specs.Version.{cells_of};
ghost use Rattle.merge_units.specs.Results.{winner_body};
ghost use Rattle.merge_resolve.specs.Extremes.{answer_on_both};
ghost use Rattle.merge_resolve.specs.Columns.{value_in, first_values};
ghost use Rattle.merge_resolve.specs.Sums.{is_i64, int_sum, sum_of, cell_of, column_after, with_sum, is_in_conflict, sum_decision, additive_decision};

use crate::counted::is_by_row;
use crate::priority::by_priority;
use crate::values::{body_value, value_in};
use crate::{CaseKind, ConflictCase, Resolver};
use merge_types::{NoMemory, Value, Values};
use merge_units::{Body, Cell, Decision};
use std::alloc::Global;

/// Gives the column that the article names the sum of both values.
#[derive(Debug, Drop)]
pub struct Additive {
    asked: u64,
}

impl Additive {
    /// Never asked.
    pub fn new() -> Self
        ensures fresh { result ≡ record { asked = 0 } }
        ensures means { (n : ℕ) (asked : _) → ⟦<Additive as Resolver>⟧.says result n asked ≡ rule_of choice.Additive asked }
    {
        Additive { asked: 0 }
    }
}

impl Resolver for Additive {
    ghost use Rattle.merge_resolve.specs.Sums.{additive_decision};

    ghost says = { λ it n asked. additive_decision asked };

    ghost tally_of = { λ it. it.asked };

    fn decide(&mut self, alloc: Global, case: &ConflictCase) -> Result<Decision, NoMemory> {
        self.asked = self.asked.saturating_add(1);
        additive_decision(alloc, case)
    }

    fn tally(&self) -> u64 {
        self.asked
    }
}

// What the rule decides.
fn additive_decision(alloc: Global, case: &ConflictCase) -> Result<Decision, NoMemory>
    ensures { IfOk result (λ decision. decision ≡ additive_decision case.now) }
{
    let ours = body_value(case.kind, &case.publisher, case.column);
    let theirs = body_value(case.kind, &case.incoming, case.column);
    match (case.column, both_sum(ours, theirs)) {
        (Some(column), Some(sum)) => summed(alloc, case, column, &sum),
        _ => Ok(by_priority(case)),
    }
}

fn both_sum(ours: Option<&Value>, theirs: Option<&Value>) -> Option<Value>
    ensures { result ≡ answer_on_both sum_of (option_copied ours.entry) (option_copied theirs.entry) }
{
    match (ours, theirs) {
        (Some(ours), Some(theirs)) => sum_of(ours, theirs),
        _ => None,
    }
}

// The sum, where there is one. A Null counts as absent.
fn sum_of(ours: &Value, theirs: &Value) -> Option<Value>
    ensures { result ≡ sum_of ours.now theirs.now }
{
    match (ours, theirs) {
        (Value::Null, Value::Null) => Some(Value::Null),
        (Value::Int(our), Value::Null) => Some(Value::Int(*our)),
        (Value::Null, Value::Int(their)) => Some(Value::Int(*their)),
        (Value::Int(our), Value::Int(their)) => int_sum(*our, *their),
        _ => None,
    }
}

fn int_sum(our: i64, their: i64) -> Option<Value>
    ensures { result ≡ int_sum our their }
{
    match our.checked_add(their) {
        Some(sum) => Some(Value::Int(sum)),
        None => None,
    }
}

// The decision where there is a sum.
fn summed(alloc: Global, case: &ConflictCase, column: u8, sum: &Value) -> Result<Decision, NoMemory>
    ensures { IfOk result (λ decision. decision ≡ sum_decision case.now column sum.now) }
{
    if !is_in_conflict(case.kind, case.cells.as_slice(), column) {
        return Ok(by_priority(case));
    }
    let winner = match by_priority(case) {
        Decision::TakeSubscriber => &case.incoming,
        _ => &case.publisher,
    };
    Ok(Decision::Custom(with_sum(alloc, case, cells_of(winner), column, sum)?))
}

// Whether the column is in a conflicting cell.
fn is_in_conflict(kind: CaseKind, cells: &[u8], column: u8) -> bool
    ensures { result ≡ is_in_conflict kind cells.now column }
{
    let cell = if is_by_row(kind) { 0 } else { column };
    cells.iter().any(|place| *place == cell)
}

fn cells_of(body: &Body) -> &[Cell]
    ensures { result.now ≡ cells_of body.now }
{
    match body {
        Body::Live(cells) => cells.as_slice(),
        Body::Dead(_) => &[],
    }
}

// The values of the conflicting cells, with the sum in its column.
fn with_sum(
    alloc: Global,
    case: &ConflictCase,
    winner: &[Cell],
    column: u8,
    sum: &Value,
) -> Result<Values, NoMemory>
    ensures { IfOk result (λ values. values ≡ with_sum case.now winner.now column sum.now) }
{
    if is_by_row(case.kind) {
        Ok(Values::new(row_with_sum(alloc, winner, column, sum)?))
    } else {
        let cells = case.cells.as_slice();
        Ok(Values::new(columns_with_sum(alloc, case.kind, cells, winner, column, sum)?))
    }
}

// The values of the one cell.
fn row_with_sum(
    alloc: Global,
    winner: &[Cell],
    column: u8,
    sum: &Value,
) -> Result<Vec<Value>, NoMemory>
    ensures { IfOk result (λ values. values.items ≡ slice_set (first_values winner.now) column sum.now) }
{
    let mut values = first_values(winner).to_vec(alloc)?;
    if (column as usize) < values.len() {
        values[column as usize] = sum.clone()?;
    }
    Ok(values)
}

fn first_values(cells: &[Cell]) -> &[Value]
    ensures { result.now ≡ first_values cells.now }
{
    match cells.get(0) {
        Some(cell) => cell.values.as_slice(),
        None => &[],
    }
}

// The values of the conflicting columns.
fn columns_with_sum(
    alloc: Global,
    kind: CaseKind,
    cells: &[u8],
    winner: &[Cell],
    column: u8,
    sum: &Value,
) -> Result<Vec<Value>, NoMemory>
    ensures { IfOk result (λ values. values.items ≡ map (column_after kind winner.now column sum.now) cells.now) }
{
    let mut values = Vec::new(alloc);
    for place in cells {
        values.push(column_after(kind, winner, column, sum, *place)?)?;
    }
    Ok(values)
}

// The value that the column at a place gets.
fn column_after(
    kind: CaseKind,
    winner: &[Cell],
    column: u8,
    sum: &Value,
    place: u8,
) -> Result<Value, NoMemory>
    ensures { IfOk result (λ value. value ≡ column_after kind winner.now column sum.now place) }
{
    if place == column {
        return Ok(sum.clone()?);
    }
    match value_in(kind, winner, place as usize) {
        Some(value) => Ok(value.clone()?),
        None => Ok(Value::Null),
    }
}
