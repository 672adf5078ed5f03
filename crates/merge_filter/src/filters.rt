//! Filters, which contracts see as their syntax trees.
ghost use Rattle.std.specs.Prelude.{◌≡◌, ◌≤◌, length, IfOk};
ghost use Rattle.merge_filter.specs.Syntax.{syntax};
ghost use Rattle.merge_filter.specs.Eval.{truth, width};

use crate::evaluation::{Truth, node_truth};
use crate::tree::{Node, copied};
use merge_types::{Exact, HostName, NoMemory, Value};
use std::alloc::{AllocError, Global};
use std::marker::Model;

/// A filter. One comes of `parse` or of a clone alone, and it only shows what it says of a row.
#[derive(Drop)]
pub struct Filter {
    alloc: Global,
    node: Node,
}

impl Model for Filter {
    ghost use Rattle.merge_filter.specs.Syntax.{Syntax, syntax};
    ghost use Rattle.merge_filter.specs.Code.{syntax_code};

    ghost Value = { Syntax };

    ghost coded = { syntax_code };

    ghost view = { λ f. syntax f.node };
}

impl Filter {
    /// The filter of a tree.
    pub(crate) fn new(alloc: Global, node: Node) -> Filter
        ensures { result ≡ syntax node }
    {
        Filter { alloc, node }
    }

    /// An equal filter.
    pub fn copy(&self) -> Result<Filter, NoMemory>
        ensures { IfOk result (λ copy. copy ≡ self.now) }
    {
        Ok(self.clone()?)
    }

    /// What the filter says of a row.
    pub(crate) fn truth(&self, row: &[Value], host: &HostName) -> Truth
        requires { width self.now ≤ length row.now }
        ensures { result ≡ truth self.now row.now host.now }
    {
        node_truth(&self.node, row, host)
    }
}

impl Clone for Filter {
    ghost use Rattle.std.specs.Prelude.{◌≡◌};

    ghost is_clone = { λ old new. new ≡ old };

    fn clone(&self) -> Result<Filter, AllocError> {
        Ok(Filter {
            alloc: self.alloc,
            node: copied(self.alloc, &self.node)?,
        })
    }
}

impl Exact for Filter {
    ghost exact = { λ value copy same. same };
}
