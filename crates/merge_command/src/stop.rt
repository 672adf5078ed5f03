//! Why an answer was not written, and why a script was not taken to its end.
use merge_ports::Failed;
use merge_types::NoMemory;

/// Why an answer was not written whole.
#[derive(Clone, Copy, Debug, PartialEq, Eq)]
pub enum Unwritten {
    WriteFault,
    NoMemory,
}

impl From<NoMemory> for Unwritten {
    ghost use Rattle.std.specs.Prelude.{◌≡◌};
    ghost use Rattle.merge_command.specs.declared.stop.Unwritten.TheVariants.{NoMemory as no_memory};

    ghost from_gives = { λ _ fault. fault ≡ no_memory };

    fn from(_: NoMemory) -> Self {
        Unwritten::NoMemory
    }
}

impl From<Failed> for Unwritten {
    ghost use Rattle.std.specs.Prelude.{◌≡◌};
    ghost use Rattle.merge_command.specs.declared.stop.Unwritten.TheVariants.{WriteFault as write_fault};

    ghost from_gives = { λ _ fault. fault ≡ write_fault };

    fn from(_: Failed) -> Self {
        Unwritten::WriteFault
    }
}

/// Why a script was not taken to its end.
#[derive(Clone, Copy, Debug, PartialEq, Eq)]
pub enum Stop {
    /// A line is no event: the first one that is none by its number from 1, and the number of its
    /// first wrong word, 0 where the line is no text.
    NoEvent { line: u64, word: u64 },
    /// The event of a line, by its number from 1, is not one of the site.
    NotTaken { line: u64 },
    /// An answer was not written whole, or memory was wanting for a line.
    Unwritten(Unwritten),
}

impl From<Unwritten> for Stop {
    ghost use Rattle.std.specs.Prelude.{◌≡◌};
    ghost use Rattle.merge_command.specs.declared.stop.Stop.TheVariants.{Unwritten as unwritten};

    ghost from_gives = { λ fault stop. stop ≡ unwritten fault };

    fn from(fault: Unwritten) -> Self {
        Stop::Unwritten(fault)
    }
}

impl From<NoMemory> for Stop {
    ghost use Rattle.std.specs.Prelude.{◌≡◌};
    ghost use Rattle.merge_command.specs.declared.stop.Stop.TheVariants.{Unwritten as unwritten};
    ghost use Rattle.merge_command.specs.declared.stop.Unwritten.TheVariants.{NoMemory as no_memory};

    ghost from_gives = { λ _ stop. stop ≡ unwritten no_memory };

    fn from(_: NoMemory) -> Self {
        Stop::Unwritten(Unwritten::NoMemory)
    }
}
