//! What a decision counts as.
ghost use Rattle.std.specs.Prelude.{◌≡◌, ◌-◌, ◌^◌, ◌==◌, ◌&&◌, IsTrue, false, None, IsOk, min, nat_le, IfOk, length, if◌then◌else◌, slice_set, slice_get};
ghost use Rattle.std.specs.Option.{option_copied};
ghost use Rattle.merge_types.specs.Fitting.{fits_column};
ghost use Rattle.merge_types.specs.Length.{row_length};
ghost use Rattle.merge_resolve.specs.Counted.{is_custom, is_by_row, fits_place, fit_all, fit_columns, own_placed, with_own_value, with_own, side_length, kept_length, is_short_row, is_within, counted_list, counted_decision};

use crate::typed::values_are_typed;
use crate::values::body_value;
use crate::{CaseKind, ConflictCase};
use merge_types::limits::ROW_LIMIT;
use merge_types::{ColumnType, NoMemory, Value, Values};
use merge_units::{Body, Cell, Decision, Side};
use std::alloc::Global;

/// What the decision counts as, for an article with columns of these types and perhaps an identity
/// column, and cells that are new on these sides.
pub fn counted_decision(
    alloc: Global,
    types: &[ColumnType],
    identity: Option<u8>,
    sides: &[Side],
    case: &ConflictCase,
    decision: Decision,
) -> Result<Decision, NoMemory>
    ensures counted { IfOk result (λ counted. counted ≡ counted_decision types.now identity sides.now case.now decision) }

    // Without a list no memory is taken, nor where no identity column keeps its value.
    ensures free { is_custom decision ≡ false → IsOk result }
    ensures plain { identity ≡ None → IsOk result }
{
    match decision {
        Decision::KeepPublisher => Ok(Decision::KeepPublisher),
        Decision::TakeSubscriber => Ok(Decision::TakeSubscriber),
        Decision::Custom(values) => counted_list(alloc, types, identity, sides, case, values),
    }
}

fn counted_list(
    alloc: Global,
    types: &[ColumnType],
    identity: Option<u8>,
    sides: &[Side],
    case: &ConflictCase,
    values: Values,
) -> Result<Decision, NoMemory>
    ensures counted { IfOk result (λ counted. counted ≡ counted_list types.now identity sides.now case.now case.now.publisher case.now.incoming values) }
    ensures plain { identity ≡ None → IsOk result }
{
    match (&case.publisher, &case.incoming) {
        (Body::Live(ours), Body::Live(theirs)) => {
            let cells = case.cells.as_slice();
            if !fit_columns(case.kind, types, cells, values.as_slice()) {
                return Ok(Decision::KeepPublisher);
            }
            let own = body_value(case.kind, &case.publisher, identity);
            let kept = with_own(alloc, case, identity, own, values)?;
            if !is_within(sides, ours.as_slice(), theirs.as_slice(), kept.as_slice()) {
                return Ok(Decision::KeepPublisher);
            }
            Ok(Decision::Custom(kept))
        }
        _ => Ok(Decision::KeepPublisher),
    }
}

// Whether a list has a value for each column.
pub fn is_by_row(kind: CaseKind) -> bool
    ensures { result ≡ is_by_row kind }
{
    matches!(kind, CaseKind::ByRow)
}

// Whether the values are as many as are asked for, and fit.
fn fit_columns(kind: CaseKind, types: &[ColumnType], cells: &[u8], values: &[Value]) -> bool
    ensures fit { result ≡ fit_columns kind types.now cells.now values.now }
    ensures counted { IsTrue result → is_by_row kind ≡ false → length cells.now ≡ length values.now }
{
    if is_by_row(kind) {
        fit_row(types, values)
    } else {
        fit_places(types, cells, values)
    }
}

fn fit_row(types: &[ColumnType], values: &[Value]) -> bool
    ensures { result ≡ fit_all fits_column types.now values.now }
{
    if types.len() != values.len() {
        return false;
    }
    for at in 0..types.len() {
        if !values[at].fits(types[at]) {
            return false;
        }
    }
    true
}

fn fit_places(types: &[ColumnType], cells: &[u8], values: &[Value]) -> bool
    ensures fit { result ≡ fit_all (fits_place types.now) cells.now values.now }
    ensures counted { IsTrue result → length cells.now ≡ length values.now }
{
    if cells.len() != values.len() {
        return false;
    }
    for at in 0..cells.len() {
        if !fits_place(types, cells[at], &values[at]) {
            return false;
        }
    }
    true
}

fn fits_place(types: &[ColumnType], place: u8, value: &Value) -> bool
    ensures { result ≡ fits_place types.now place value.now }
{
    match types.get(place as usize) {
        Some(ty) => value.fits(*ty),
        None => false,
    }
}

// The values with the identity column's own one.
fn with_own(
    alloc: Global,
    case: &ConflictCase,
    identity: Option<u8>,
    own: Option<&Value>,
    values: Values,
) -> Result<Values, NoMemory>
    requires { is_by_row case.now.kind ≡ false → length case.now.cells ≡ length values }
    ensures kept { IfOk result (λ kept. kept ≡ with_own case.now identity (option_copied own.entry) values) }
    ensures plain { identity ≡ None → IsOk result }
{
    match (identity, own) {
        (Some(identity), Some(own)) => {
            with_own_value(
                alloc,
                case.kind,
                case.cells.as_slice(),
                identity,
                own,
                values,
            )
        }
        _ => Ok(values),
    }
}

fn with_own_value(
    alloc: Global,
    kind: CaseKind,
    cells: &[u8],
    identity: u8,
    own: &Value,
    values: Values,
) -> Result<Values, NoMemory>
    requires { is_by_row kind ≡ false → length cells.now ≡ length values }
    ensures { IfOk result (λ kept. kept ≡ with_own_value kind cells.now identity own.now values) }
{
    if is_by_row(kind) {
        let mut row = values.into_vec();
        if (identity as usize) < row.len() {
            row[identity as usize] = own.clone()?;
        }
        return Ok(Values::new(row));
    }
    Ok(Values::new(own_placed(alloc, identity, own, cells, values.as_slice())?))
}

fn own_placed(
    alloc: Global,
    identity: u8,
    own: &Value,
    cells: &[u8],
    values: &[Value],
) -> Result<Vec<Value>, NoMemory>
    requires { length cells.now ≡ length values.now }
    ensures { IfOk result (λ kept. kept.items ≡ own_placed identity own.now cells.now values.now) }
{
    let mut kept = Vec::new(alloc);
    for at in 0..cells.len() {
        kept.push(own_or_decided(cells[at] == identity, own, &values[at])?)?;
    }
    Ok(kept)
}

fn own_or_decided(is_own: bool, own: &Value, value: &Value) -> Result<Value, NoMemory>
    ensures { IfOk result (λ kept. kept ≡ (if is_own then own.now else value.now)) }
{
    if is_own {
        Ok(own.clone()?)
    } else {
        Ok(value.clone()?)
    }
}

// Whether the row that the values give is within its limit. They are of their types.
fn is_within(sides: &[Side], ours: &[Cell], theirs: &[Cell], values: &[Value]) -> bool
    ensures { result ≡ is_within sides.now ours.now theirs.now values.now }
{
    values_are_typed(values);
    is_short_row(sides, ours, theirs, values)
}

fn is_short_row(sides: &[Side], ours: &[Cell], theirs: &[Cell], values: &[Value]) -> bool
    ensures { result ≡ is_short_row sides.now ours.now theirs.now values.now }
{
    if sides.len() != ours.len() {
        return false;
    }
    if sides.len() != theirs.len() {
        return false;
    }
    let kept = kept_length(sides, ours, theirs);
    values_length(values).saturating_add(kept) <= ROW_LIMIT
}

// The bytes of the cells that do not conflict.
fn kept_length(sides: &[Side], ours: &[Cell], theirs: &[Cell]) -> u64
    requires here { length sides.now ≡ length ours.now }
    requires there { length sides.now ≡ length theirs.now }
    ensures { result ≡ min (kept_length sides.now ours.now theirs.now) (2 ^ 64 - 1) }
{
    let mut total = 0u64;
    for at in 0..sides.len() {
        total = total.saturating_add(side_length(sides[at], &ours[at], &theirs[at]));
    }
    total
}

fn side_length(side: Side, our: &Cell, their: &Cell) -> u64
    ensures { result ≡ min (side_length side our.now their.now) (2 ^ 64 - 1) }
{
    match side {
        Side::Both => 0,
        Side::Incoming => their.values.stored_len(),
        Side::Neither | Side::Publisher => our.values.stored_len(),
    }
}

fn values_length(values: &[Value]) -> u64
    ensures { result ≡ min (row_length values.now) (2 ^ 64 - 1) }
{
    let mut total = 0u64;
    for value in values {
        total = total.saturating_add(value.stored_len());
    }
    total
}
