//! Columns and their values.
ghost use Rattle.std.specs.Prelude.{◌≡◌, ◌-◌, ◌^◌, min};
ghost use Rattle.merge_types.specs.Length.{stored_length, weight, row_length, row_weight};

use crate::{Exact, Listing, Octets, Words};
use std::alloc::AllocError;

/// The type of a column.
#[derive(Clone, Copy, Debug, PartialEq, Eq, PartialOrd, Ord)]
pub enum ColumnType {
    Int,
    Bit,
    Text,
    Day,
    Guid,
    Bytes,
}

/// A column of an article.
#[derive(Debug, Drop, PartialEq, Eq)]
pub struct Column {
    pub name: Words,
    pub ty: ColumnType,
}

/// A value of a column. A day counts from 1970-01-01, and is proper in the years 0001 to 9999
/// (`is_proper`).
///
/// Values are ordered by type, in the order of the variants, and then by what they hold: texts and
/// bytes by their bytes.
#[derive(Debug, Drop, PartialEq, Eq, PartialOrd, Ord)]
pub enum Value {
    Null,
    Int(i64),
    Bit(bool),
    Text(Words),
    Day(i32),
    Guid(u128),
    Bytes(Octets),
}

/// A list of values.
pub type Values = Listing<Value>;

impl Value {
    /// How many bytes the value takes where it is stored.
    pub fn stored_len(&self) -> u64
        ensures { result ≡ stored_length self.now }
    {
        match self {
            Value::Null => 1,
            Value::Int(_) => 9,
            Value::Bit(_) => 2,
            Value::Text(words) => 3 + words.as_str().len() as u64,
            Value::Day(_) => 5,
            Value::Guid(_) => 17,
            Value::Bytes(octets) => 3 + octets.as_slice().len() as u64,
        }
    }

    /// The same, with a Null counted as 0.
    pub fn weight(&self) -> u64
        ensures { result ≡ weight self.now }
    {
        match self {
            Value::Null => 0,
            _ => self.stored_len(),
        }
    }
}

impl Listing<Value> {
    /// How many bytes the values take where they are stored, as far as a `u64` goes.
    pub fn stored_len(&self) -> u64
        ensures { result ≡ min (row_length self.now) (2 ^ 64 - 1) }
    {
        let mut total = 0u64;
        for value in self.as_slice() {
            total = total.saturating_add(value.stored_len());
        }
        total
    }

    /// The same, with each Null counted as 0.
    pub fn weight(&self) -> u64
        ensures { result ≡ min (row_weight self.now) (2 ^ 64 - 1) }
    {
        let mut total = 0u64;
        for value in self.as_slice() {
            total = total.saturating_add(value.weight());
        }
        total
    }
}

impl Clone for Value {
    ghost use Rattle.std.specs.Prelude.{◌≡◌};

    ghost is_clone = { λ old new. new ≡ old };

    fn clone(&self) -> Result<Value, AllocError> {
        match self {
            Value::Null => Ok(Value::Null),
            Value::Int(number) => Ok(Value::Int(*number)),
            Value::Bit(bit) => Ok(Value::Bit(*bit)),
            Value::Text(words) => Ok(Value::Text(words.clone()?)),
            Value::Day(day) => Ok(Value::Day(*day)),
            Value::Guid(guid) => Ok(Value::Guid(*guid)),
            Value::Bytes(octets) => Ok(Value::Bytes(octets.clone()?)),
        }
    }
}

impl Exact for Value {
    ghost exact = { λ value copy same. same };
}

impl Clone for Column {
    ghost use Rattle.std.specs.Prelude.{◌≡◌};

    ghost is_clone = { λ old new. new ≡ old };

    fn clone(&self) -> Result<Column, AllocError> {
        Ok(Column {
            name: self.name.clone()?,
            ty: self.ty,
        })
    }
}

impl Exact for Column {
    ghost exact = { λ value copy same. same };
}

impl Exact for ColumnType {
    ghost use Rattle.std.proofs.Common.{rules};

    ghost exact = { Prim.search rules };
}
