//! The words of a filter.
use merge_types::{Octets, Words};

/// A comparison sign.
#[derive(Clone, Copy, Debug, PartialEq, Eq)]
pub enum Sign {
    Equal,
    Unequal,
    Less,
    AtMost,
    Greater,
    AtLeast,
}

/// One word.
#[derive(Debug, Drop)]
pub enum Word {
    And,
    Or,
    Not,
    Is,
    Null,
    HostName,
    Date,
    Guid,
    Bit,
    Open,
    Close,
    /// A sign, and its place in the text.
    Sign(Sign, usize),
    Name(Octets),
    Int(i64),
    /// A text, and the day and the identifier that it is a literal of.
    Text(Words, Option<i32>, Option<u128>),
    Bytes(Octets),
}
