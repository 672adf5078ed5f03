//! What an index is a set of.
ghost use Rattle.std.specs.Prelude.{◌≡◌};

use merge_table::{Edit, TableKey};
use merge_types::{Exact, RowId, Value};
use std::alloc::AllocError;

/// A child, and the value that it has by a join. Entries are ordered by value, by join and by child.
#[derive(Debug, Drop, PartialEq, Eq, PartialOrd, Ord)]
pub struct JoinEntry {
    pub value: Value,
    /// The number of the join.
    pub join: usize,
    pub child: RowId,
}

/// A change of an index: an entry that is put in, or taken out.
pub type JoinChange = Edit<JoinEntry, ()>;

impl Clone for JoinEntry {
    ghost is_clone = { λ old new. new ≡ old };

    fn clone(&self) -> Result<JoinEntry, AllocError> {
        Ok(JoinEntry {
            value: self.value.clone()?,
            join: self.join,
            child: self.child,
        })
    }
}

impl Exact for JoinEntry {
    ghost exact = { λ value copy same. same };
}

impl TableKey for JoinEntry {
    ghost use Rattle.merge_join.specs.Entries.{entry_exact};

    ghost equal_is_same = { entry_exact };

    ghost clone_is_same = { λ old new same. same };
}
