//! A source of bytes and a sink for bytes.
ghost use Rattle.std.specs.Prelude.{◌≡◌, ◌≤◌, ◌<◌, List, ℕ, length, IfOk};
ghost use Rattle.std.specs.Io.{ReadsAtMost};
ghost use Rattle.std.specs.Io.KnownBytes.{ReadConsumes, WriteAppends};
ghost use Rattle.std.specs.declared.option.Option.{Option};
ghost use Rattle.merge_ports.specs.Faults.{HasCause};

use thiserror::Error;

/// A call failed, and the object's count of faults rose.
#[derive(Clone, Copy, Debug, PartialEq, Eq, Error)]
#[error("failed")]
pub struct Failed;

/// Where bytes come from.
pub trait Source {
    /// The bytes that are left, where the source tells them.
    ghost left: { Self → Option (List ℕ) };

    /// How often a call has failed. It never falls, and stays once it is the greatest u64.
    ghost count: { Self → ℕ };

    /// Fills the front of a piece, and answers with how many bytes it took. A piece with room gets
    /// none only at the end. After a fault what was left is still left.
    fn read(&mut self, piece: &mut [u8]) -> Result<usize, Failed>
        ensures bound { ReadsAtMost result piece.new }
        ensures bytes { ReadConsumes (left self.old) (left self.new) result piece.new }
        ensures cause { HasCause (count self.old) (count self.new) result };

    /// How often a call has failed.
    fn faults(&self) -> u64
        ensures { result ≡ count self.now };
}

/// Where bytes go.
pub trait Sink {
    /// The bytes that were written, where the sink tells them.
    ghost written: { Self → Option (List ℕ) };

    /// How often a call has failed. It never falls, and stays once it is the greatest u64.
    ghost count: { Self → ℕ };

    /// Takes bytes from the front of a piece, at least one where there is one, and answers with how
    /// many. After a fault nothing more is written than before.
    fn write(&mut self, piece: &[u8]) -> Result<usize, Failed>
        ensures bound { IfOk result (λ taken. taken ≤ length piece.now) }
        ensures some { 0 < length piece.now → IfOk result (λ taken. 0 < taken) }
        ensures bytes { WriteAppends (written self.old) (written self.new) result piece.now }
        ensures cause { HasCause (count self.old) (count self.new) result };

    /// How often a call has failed.
    fn faults(&self) -> u64
        ensures { result ≡ count self.now };
}
