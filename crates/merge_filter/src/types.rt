//! The types of operands.
ghost use Rattle.std.specs.Prelude.{◌≡◌};
ghost use Rattle.merge_filter.specs.Syntax.{syntax};
ghost use Rattle.merge_filter.specs.Types.{value_type, column_type, operand_type, are_alike, unlike_sign};

use crate::tree::{Node, Operand};
use merge_types::{Column, ColumnType, Value};

fn value_type(value: &Value) -> Option<ColumnType>
    ensures { result ≡ value_type value.now }
{
    match value {
        Value::Null => None,
        Value::Int(_) => Some(ColumnType::Int),
        Value::Bit(_) => Some(ColumnType::Bit),
        Value::Text(_) => Some(ColumnType::Text),
        Value::Day(_) => Some(ColumnType::Day),
        Value::Guid(_) => Some(ColumnType::Guid),
        Value::Bytes(_) => Some(ColumnType::Bytes),
    }
}

/// The type of the column at a place.
pub fn column_type(columns: &[Column], place: usize) -> Option<ColumnType>
    ensures { result ≡ column_type columns.now place }
{
    match columns.get(place) {
        Some(column) => Some(column.ty),
        None => None,
    }
}

fn operand_type(columns: &[Column], operand: &Operand) -> Option<ColumnType>
    ensures { result ≡ operand_type columns.now operand.now }
{
    match operand {
        Operand::Column(place) => column_type(columns, *place),
        Operand::Host => Some(ColumnType::Text),
        Operand::Literal(value) => value_type(value),
    }
}

/// Whether both types are known and one.
pub fn are_alike(left: Option<ColumnType>, right: Option<ColumnType>) -> bool
    ensures { result ≡ are_alike left right }
{
    match (left, right) {
        (Some(ColumnType::Int), Some(ColumnType::Int)) => true,
        (Some(ColumnType::Bit), Some(ColumnType::Bit)) => true,
        (Some(ColumnType::Text), Some(ColumnType::Text)) => true,
        (Some(ColumnType::Day), Some(ColumnType::Day)) => true,
        (Some(ColumnType::Guid), Some(ColumnType::Guid)) => true,
        (Some(ColumnType::Bytes), Some(ColumnType::Bytes)) => true,
        _ => false,
    }
}

/// The place of the first sign whose operands have unlike types.
pub fn unlike_sign(columns: &[Column], node: &Node) -> Option<usize>
    ensures { result ≡ unlike_sign columns.now (syntax node.now) }
{
    match node {
        Node::Or(left, right) | Node::And(left, right) => match unlike_sign(columns, left) {
            Some(place) => Some(place),
            None => unlike_sign(columns, right),
        },
        Node::Not(part) => unlike_sign(columns, part),
        Node::Compare(left, _, place, right) => {
            if are_alike(operand_type(columns, left), operand_type(columns, right)) {
                None
            } else {
                Some(*place)
            }
        }
        Node::IsNull(_) | Node::IsNotNull(_) => None,
    }
}
