//! Local changes, as a user asks for them.
use crate::{Exact, Listing, RowId, Value};
use std::alloc::AllocError;

/// Whether versions of a row are compared as a whole or by column.
#[derive(Clone, Copy, Debug, PartialEq, Eq)]
pub enum Tracking {
    Row,
    ByColumn,
}

/// A column, by its place, and the value that it gets.
#[derive(Debug, Drop, PartialEq, Eq)]
pub struct Setting {
    pub column: u8,
    pub value: Value,
}

/// The columns that a change sets.
pub type Settings = Listing<Setting>;

/// A change of one row. An article is named by its place in the publication.
#[derive(Debug, Drop, PartialEq, Eq)]
pub enum Change {
    Insert {
        article: u8,
        values: Settings,
    },
    Update {
        article: u8,
        row: RowId,
        values: Settings,
    },
    Delete {
        article: u8,
        row: RowId,
    },
}

impl Clone for Setting {
    ghost use Rattle.std.specs.Prelude.{◌≡◌};

    ghost is_clone = { λ old new. new ≡ old };

    fn clone(&self) -> Result<Setting, AllocError> {
        Ok(Setting {
            column: self.column,
            value: self.value.clone()?,
        })
    }
}

impl Exact for Setting {
    ghost exact = { λ value copy same. same };
}

impl Clone for Change {
    ghost use Rattle.std.specs.Prelude.{◌≡◌};

    ghost is_clone = { λ old new. new ≡ old };

    fn clone(&self) -> Result<Change, AllocError> {
        match self {
            Change::Insert { article, values } => Ok(Change::Insert {
                article: *article,
                values: values.clone()?,
            }),
            Change::Update {
                article,
                row,
                values,
            } => Ok(Change::Update {
                article: *article,
                row: *row,
                values: values.clone()?,
            }),
            Change::Delete { article, row } => Ok(Change::Delete {
                article: *article,
                row: *row,
            }),
        }
    }
}

impl Exact for Change {
    ghost exact = { λ value copy same. same };
}

impl Exact for Tracking {
    ghost use Rattle.std.proofs.Common.{rules};

    ghost exact = { Prim.search rules };
}
