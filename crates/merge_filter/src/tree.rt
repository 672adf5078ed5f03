//! The tree of a filter.
ghost use Rattle.std.specs.Prelude.{◌≡◌, IfOk};
ghost use Rattle.merge_filter.specs.Syntax.{syntax};

use crate::word::Sign;
use merge_types::Value;
use std::alloc::{AllocError, Global};

/// What is compared. A column goes by its place in the row.
#[derive(Debug, Drop)]
pub enum Operand {
    Column(usize),
    Host,
    Literal(Value),
}

/// A filter's tree. A comparison knows where its sign stands in the text.
#[derive(Drop)]
pub enum Node {
    Or(Box<Node>, Box<Node>),
    And(Box<Node>, Box<Node>),
    Not(Box<Node>),
    Compare(Operand, Sign, usize, Operand),
    IsNull(usize),
    IsNotNull(usize),
}

impl Clone for Operand {
    ghost use Rattle.std.specs.Prelude.{◌≡◌};

    ghost is_clone = { λ old new. new ≡ old };

    fn clone(&self) -> Result<Operand, AllocError> {
        match self {
            Operand::Column(column) => Ok(Operand::Column(*column)),
            Operand::Host => Ok(Operand::Host),
            Operand::Literal(value) => Ok(Operand::Literal(value.clone()?)),
        }
    }
}

/// A tree of the same syntax.
pub fn copied(alloc: Global, node: &Node) -> Result<Node, AllocError>
    ensures { IfOk result (λ copy. syntax copy ≡ syntax node.now) }
{
    match node {
        Node::Or(left, right) => Ok(Node::Or(
            Box::new(alloc, copied(alloc, left)?)?,
            Box::new(alloc, copied(alloc, right)?)?,
        )),
        Node::And(left, right) => Ok(Node::And(
            Box::new(alloc, copied(alloc, left)?)?,
            Box::new(alloc, copied(alloc, right)?)?,
        )),
        Node::Not(part) => Ok(Node::Not(Box::new(alloc, copied(alloc, part)?)?)),
        Node::Compare(left, sign, place, right) => {
            Ok(Node::Compare(left.clone()?, *sign, *place, right.clone()?))
        }
        Node::IsNull(column) => Ok(Node::IsNull(*column)),
        Node::IsNotNull(column) => Ok(Node::IsNotNull(*column)),
    }
}
