//! Whether values fit columns.
ghost use Rattle.std.specs.Prelude.{◌≡◌, ◌↔◌, IsTrue};
ghost use Rattle.merge_types.specs.Day.{IsDay, is_day};
ghost use Rattle.merge_types.specs.Literal.{IsProper};
ghost use Rattle.merge_types.specs.Fitting.{has_type, content_length, is_short, is_proper, fits_column};

use crate::limits::{FIRST_DAY, LAST_DAY, VALUE_LIMIT};
use crate::{ColumnType, Value};

impl Value {
    /// Whether a column of the type may hold the value, as far as types go: a Null fits each.
    #[tactic(auto, unfolding(crate::specs::Fitting::has_type))]
    pub fn has_type(&self, ty: ColumnType) -> bool
        ensures { result ≡ has_type ty self.now }
    {
        matches!(
            (ty, self),
            (_, Value::Null)
                | (ColumnType::Int, Value::Int(_))
                | (ColumnType::Bit, Value::Bit(_))
                | (ColumnType::Text, Value::Text(_))
                | (ColumnType::Day, Value::Day(_))
                | (ColumnType::Guid, Value::Guid(_))
                | (ColumnType::Bytes, Value::Bytes(_))
        )
    }

    /// How many bytes a text or bytes have. A value of another type has none.
    pub fn content_len(&self) -> usize
        ensures { result ≡ content_length self.now }
    {
        match self {
            Value::Text(words) => words.len(),
            Value::Bytes(octets) => octets.len(),
            _ => 0,
        }
    }

    /// Whether the content is within the limit for texts and bytes.
    pub fn is_short(&self) -> bool
        ensures { result ≡ is_short self.now }
    {
        self.content_len() <= VALUE_LIMIT
    }

    /// Whether a row may hold the value: a day lies in the years 0001 to 9999.
    pub fn is_proper(&self) -> bool
        ensures value { result ≡ is_proper self.now }
        ensures proper { IsTrue result ↔ IsProper self.now }
    {
        match self {
            Value::Day(day) => is_proper_day(*day),
            _ => true,
        }
    }

    /// Whether a column of the type may hold the value: it has the type, is short and is proper.
    pub fn fits(&self, ty: ColumnType) -> bool
        ensures value { result ≡ fits_column ty self.now }
        ensures proper { IsTrue result → IsProper self.now }
    {
        self.has_type(ty) && self.is_short() && self.is_proper()
    }
}

fn is_proper_day(day: i32) -> bool
    ensures value { result ≡ is_day day }
    ensures proper { IsTrue result ↔ IsDay day }
{
    FIRST_DAY <= day && day <= LAST_DAY
}
