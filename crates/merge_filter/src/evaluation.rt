//! What a filter says of a row.
ghost use Rattle.std.specs.Prelude.{◌≡◌, ◌+◌, ◌≤◌, length};
ghost use Rattle.merge_filter.specs.Syntax.{syntax};
ghost use Rattle.merge_filter.specs.Eval.{truth, truth_of, value_of, value_seen, is_null, holds, truth_of_comparison, width, operand_width, not_of, and_of, or_of};

use crate::datum::{Datum, datum_of, order_of};
use crate::filters::Filter;
use crate::tree::{Node, Operand};
use crate::word::Sign;
use merge_types::{HostName, Steps, Value};
use std::cmp::Ordering;
use std::sync::ledger::Ledger;

/// A truth value of SQL's three-valued logic.
#[derive(Clone, Copy, Debug, PartialEq, Eq)]
pub enum Truth {
    True,
    False,
    Unknown,
}

fn datum_in<'a>(operand: &'a Operand, row: &'a [Value], host: &'a HostName) -> Datum<'a>
    requires { operand_width operand.now ≤ length row.now }
    ensures { value_seen result ≡ value_of operand.now row.now host.now }
{
    match operand {
        Operand::Column(column) => datum_of(&row[*column]),
        Operand::Host => Datum::Text(host.0.as_str().as_bytes()),
        Operand::Literal(value) => datum_of(value),
    }
}

fn truth_of(holds: bool) -> Truth
    ensures { result ≡ truth_of holds }
{
    if holds { Truth::True } else { Truth::False }
}

fn holds(sign: Sign, order: Ordering) -> bool
    ensures { result ≡ holds sign order }
{
    match sign {
        Sign::Equal => order.is_eq(),
        Sign::Unequal => order.is_ne(),
        Sign::Less => order.is_lt(),
        Sign::AtMost => order.is_le(),
        Sign::Greater => order.is_gt(),
        Sign::AtLeast => order.is_ge(),
    }
}

fn compared(left: Datum<'_>, sign: Sign, right: Datum<'_>) -> Truth
    ensures { result ≡ truth_of_comparison (value_seen left.entry) sign (value_seen right.entry) }
{
    match order_of(left, right) {
        Some(order) => truth_of(holds(sign, order)),
        None => Truth::Unknown,
    }
}

fn is_null(value: &Value) -> bool
    ensures { result ≡ is_null value.now }
{
    matches!(value, Value::Null)
}

fn not_of(part: Truth) -> Truth
    ensures { result ≡ not_of part }
{
    match part {
        Truth::True => Truth::False,
        Truth::False => Truth::True,
        Truth::Unknown => Truth::Unknown,
    }
}

fn and_of(left: Truth, right: Truth) -> Truth
    ensures { result ≡ and_of left right }
{
    match (left, right) {
        (Truth::False, _) | (_, Truth::False) => Truth::False,
        (Truth::True, Truth::True) => Truth::True,
        _ => Truth::Unknown,
    }
}

fn or_of(left: Truth, right: Truth) -> Truth
    ensures { result ≡ or_of left right }
{
    match (left, right) {
        (Truth::True, _) | (_, Truth::True) => Truth::True,
        (Truth::False, Truth::False) => Truth::False,
        _ => Truth::Unknown,
    }
}

/// What a tree says of a row.
pub fn node_truth(node: &Node, row: &[Value], host: &HostName) -> Truth
    requires { width (syntax node.now) ≤ length row.now }
    ensures { result ≡ truth (syntax node.now) row.now host.now }
{
    match node {
        Node::Or(left, right) => match node_truth(left, row, host) {
            Truth::True => Truth::True,
            open => or_of(open, node_truth(right, row, host)),
        },
        Node::And(left, right) => match node_truth(left, row, host) {
            Truth::False => Truth::False,
            open => and_of(open, node_truth(right, row, host)),
        },
        Node::Not(part) => not_of(node_truth(part, row, host)),
        Node::Compare(left, sign, _, right) => {
            compared(datum_in(left, row, host), *sign, datum_in(right, row, host))
        }
        Node::IsNull(column) => truth_of(is_null(&row[*column])),
        Node::IsNotNull(column) => truth_of(!is_null(&row[*column])),
    }
}

/// What the filter says of a row at a host of this name. A row passes only where this is `True`.
/// It takes one step, and the row has at least as many values as the filter's columns ask for.
pub fn eval<L: Ledger>(
    filter: &Filter,
    row: &[Value],
    host: &HostName,
    steps: &mut Steps<L>,
) -> Truth
    requires { width filter.now ≤ length row.now }
    ensures value { result ≡ truth filter.now row.now host.now }
    ensures cost { steps.new ≡ steps.old + 1 }
{
    steps.tick();
    filter.truth(row, host)
}
