//! Why a script was not played to its end.
use merge_batch::Refusal;
use merge_ports::Failed;
use merge_types::NoMemory;

/// Why a script was not played to its end.
#[derive(Debug, Drop)]
pub enum Stop {
    /// A line is no event: the first one that is none by its number from 1, and the number of its
    /// first wrong word, 0 where the line is no text.
    NoEvent { line: u64, word: u64 },
    /// An answer could not be written.
    WriteFault,
    /// A site did not start again: its store could not be read, or its records are damaged.
    Ended(Refusal),
    NoMemory,
}

impl From<NoMemory> for Stop {
    ghost use Rattle.std.specs.Prelude.{◌≡◌};
    ghost use Rattle.merge_play.specs.declared.stop.Stop.TheVariants.{NoMemory as no_memory};

    ghost from_gives = { λ _ stop. stop ≡ no_memory };

    fn from(_: NoMemory) -> Self {
        Stop::NoMemory
    }
}

impl From<Failed> for Stop {
    ghost use Rattle.std.specs.Prelude.{◌≡◌};
    ghost use Rattle.merge_play.specs.declared.stop.Stop.TheVariants.{WriteFault as write_fault};

    ghost from_gives = { λ _ stop. stop ≡ write_fault };

    fn from(_: Failed) -> Self {
        Stop::WriteFault
    }
}
