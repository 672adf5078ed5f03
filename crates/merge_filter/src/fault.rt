//! Why a text is no filter.
ghost use Rattle.std.specs.Prelude.{◌≡◌};
ghost use Rattle.merge_filter.specs.Faults.{number_of};

use merge_types::NoMemory;
use thiserror::Error;

/// Why a text is no filter. Each place is a byte's in the text.
#[derive(Clone, Copy, Debug, PartialEq, Eq, Error)]
pub enum FilterFault {
    /// No word can be read there.
    #[error("bad token at {place}")]
    BadToken { place: usize },
    /// No filter goes on with the word that begins there, or with the end of the text.
    #[error("bad form at {place}")]
    BadForm { place: usize },
    /// The name that begins there is no column.
    #[error("unknown column at {place}")]
    UnknownColumn { place: usize },
    /// The operands of the sign there have unlike types.
    #[error("type mismatch at {place}")]
    TypeMismatch { place: usize },
    /// More than 32 levels are open.
    #[error("too deep")]
    TooDeep,
    #[error("no memory")]
    NoMemory,
}

impl FilterFault {
    /// The number of the fault in the filter language, and none for want of memory, which is no fault
    /// of the text. A publication is refused for its filter without it.
    pub fn number(&self) -> Option<u8>
        ensures { result ≡ number_of self.now }
    {
        match self {
            FilterFault::BadToken { .. } => Some(1),
            FilterFault::BadForm { .. } => Some(2),
            FilterFault::UnknownColumn { .. } => Some(3),
            FilterFault::TypeMismatch { .. } => Some(4),
            FilterFault::TooDeep => Some(5),
            FilterFault::NoMemory => None,
        }
    }
}

impl From<NoMemory> for FilterFault {
    ghost use Rattle.std.specs.Prelude.{◌≡◌};
    ghost use Rattle.merge_filter.specs.declared.fault.FilterFault.TheVariants.{NoMemory as Lacking};

    ghost from_gives = { λ _ e. e ≡ Lacking };

    fn from(_: NoMemory) -> FilterFault {
        FilterFault::NoMemory
    }
}
