//! Why a text is no publication.
ghost use Rattle.std.specs.Prelude.{◌≡◌};
ghost use Rattle.merge_schema.specs.Faults.{number_of};

use merge_types::{NoMemory, Words};
use std::alloc::{AllocError, AllocFailed};
use std::error::Error;
use std::fmt;

/// Why a text is no publication. Each but the first and the last names the key or the name that is
/// wrong. What is told and is no name is shown in quotes with escapes.
#[derive(Debug, Drop, PartialEq, Eq)]
pub enum SchemaFault {
    /// The text is no TOML document.
    NotToml,
    /// A table lacks a key that it must have.
    Missing { key: Words },
    /// A key is unknown, or its value is of another type, out of range, or names nothing that fits.
    BadValue { key: Words },
    /// Two articles, two columns of an article or two sites have this name.
    Duplicate { name: Words },
    /// A join's parent is no article.
    UnknownArticle { name: Words },
    /// The joins lead from this article back to itself.
    JoinCycle { article: Words },
    /// A join of this article compares columns of unlike types.
    JoinTypes { article: Words },
    /// The array at this key has so many tables, which is more than it may have.
    TooMany { what: Words, number: u64 },
    NoMemory,
}

impl fmt::Display for SchemaFault {
    ghost use Rattle.std.specs.Prelude.{Some};
    ghost use Rattle.merge_schema.specs.Faults.{words_of};

    ghost output = { λ fault. Some (words_of fault) };

    // The words are proved, so they are written here and not by a macro.
    fn fmt<W: fmt::Write>(&self, f: &mut fmt::Formatter<W>) -> fmt::Result {
        match self {
            SchemaFault::NotToml => f.write_str("not toml"),
            SchemaFault::Missing { key } => write!(f, "missing {}", key.shown()),
            SchemaFault::BadValue { key } => write!(f, "bad value {}", key.shown()),
            SchemaFault::Duplicate { name } => write!(f, "duplicate {}", name.as_str()),
            SchemaFault::UnknownArticle { name } => write!(f, "unknown article {}", name.shown()),
            SchemaFault::JoinCycle { article } => write!(f, "join cycle {}", article.shown()),
            SchemaFault::JoinTypes { article } => write!(f, "join types {}", article.shown()),
            SchemaFault::TooMany { what, number } => {
                let what = what.shown();
                write!(f, "too many {what} {number}")
            }
            SchemaFault::NoMemory => f.write_str("no memory"),
        }
    }
}

impl Error for SchemaFault {}

impl SchemaFault {
    /// The number under which notes tell the fault, and none for want of memory, which is no fault
    /// of the text.
    pub fn number(&self) -> Option<u8>
        ensures { result ≡ number_of self.now }
    {
        match self {
            SchemaFault::NotToml => Some(1),
            SchemaFault::Missing { .. } => Some(2),
            SchemaFault::BadValue { .. } => Some(3),
            SchemaFault::Duplicate { .. } => Some(4),
            SchemaFault::UnknownArticle { .. } => Some(5),
            SchemaFault::JoinCycle { .. } => Some(6),
            SchemaFault::JoinTypes { .. } => Some(7),
            SchemaFault::TooMany { .. } => Some(8),
            SchemaFault::NoMemory => None,
        }
    }
}

impl From<NoMemory> for SchemaFault {
    ghost use Rattle.std.specs.Prelude.{◌≡◌};
    ghost use Rattle.merge_schema.specs.declared.fault.SchemaFault.TheVariants.{NoMemory as Lacking};

    ghost from_gives = { λ _ e. e ≡ Lacking };

    fn from(_: NoMemory) -> SchemaFault {
        SchemaFault::NoMemory
    }
}

impl From<AllocError> for SchemaFault {
    ghost use Rattle.std.specs.Prelude.{◌≡◌};
    ghost use Rattle.merge_schema.specs.declared.fault.SchemaFault.TheVariants.{NoMemory as Lacking};

    ghost from_gives = { λ _ e. e ≡ Lacking };

    fn from(_: AllocError) -> SchemaFault {
        SchemaFault::NoMemory
    }
}

impl<T: Drop> From<AllocFailed<T>> for SchemaFault {
    ghost use Rattle.std.specs.Prelude.{◌≡◌};
    ghost use Rattle.merge_schema.specs.declared.fault.SchemaFault.TheVariants.{NoMemory as Lacking};

    ghost from_gives = { λ _ e. e ≡ Lacking };

    fn from(_: AllocFailed<T>) -> SchemaFault {
        SchemaFault::NoMemory
    }
}
