//! A whole input, and a whole answer.
ghost use Rattle.std.specs.Prelude.{◌≡◌, ◌+◌, ◌≤◌, ◌<◌, length, OnOk, OnErr, IfOk, IfSome};
ghost use Rattle.std.specs.Io.KnownBytes.{Appends, IsAtEnd};
ghost use Rattle.merge_ports.specs.Faults.{HasCause, Rose};
ghost use Rattle.merge_ports.specs.Parts.{AppendsFront, ConsumesAtMost};

use crate::{Failed, Sink, Source};
use merge_types::{NoMemory, Octets};
use std::alloc::Global;
use thiserror::Error;

/// Why an input was not read whole.
#[derive(Clone, Copy, Debug, PartialEq, Eq, Error)]
pub enum ReadFault {
    #[error("read fault")]
    Failed,
    #[error("input too long")]
    TooLong,
    #[error("no memory")]
    NoMemory,
}

impl From<NoMemory> for ReadFault {
    ghost use Rattle.std.specs.Prelude.{◌≡◌};
    ghost use Rattle.merge_ports.specs.declared.whole.ReadFault.TheVariants.{NoMemory as no_memory};

    ghost from_gives = { λ _ fault. fault ≡ no_memory };

    fn from(_: NoMemory) -> Self {
        ReadFault::NoMemory
    }
}

impl From<Failed> for ReadFault {
    ghost use Rattle.std.specs.Prelude.{◌≡◌};
    ghost use Rattle.merge_ports.specs.declared.whole.ReadFault.TheVariants.{Failed as failed};

    ghost from_gives = { λ _ fault. fault ≡ failed };

    fn from(_: Failed) -> Self {
        ReadFault::Failed
    }
}

/// Reads a source to its end. One that has more bytes than the limit is refused, and at most 4096
/// bytes behind the limit are taken. A fault is answered as one.
pub fn read_whole<S: Source>(
    alloc: Global,
    source: &mut S,
    limit: usize,
) -> Result<Octets, ReadFault>
    ensures whole { IfOk result (λ input. IfSome (S.left source.old) (λ left. input ≡ left)) }
    ensures end { OnOk result (IsAtEnd (S.left source.new)) }
    ensures fits { IfOk result (λ input. length input ≤ limit) }
    ensures long { result ≡ Err ReadFault.TooLong → IfSome (S.left source.old) (λ left. limit < length left) }
    ensures failed { result ≡ Err ReadFault.Failed → Rose (S.count source.old) (S.count source.new) }
    ensures few { ConsumesAtMost (limit + 4096) (S.left source.old) (S.left source.new) }
    ensures later { S.count source.old ≤ S.count source.new }
    ensures kept { OnOk result (S.count source.new ≡ S.count source.old) }
    ensures counted { (result ≡ Err ReadFault.Failed → ⊥) → S.count source.new ≡ S.count source.old }
{
    let mut input = Octets::empty(alloc);
    let mut piece = [0; 4096];
    'pieces: loop {
        let taken = source.read(&mut piece)?;
        if taken == 0 {
            return Ok(input);
        }
        if taken > limit - input.len() {
            return Err(ReadFault::TooLong);
        }
        input.extend(&piece[..taken])?;
    }
}

/// Writes a piece to its end. After a fault a front of the piece is written.
pub fn write_whole<S: Sink>(sink: &mut S, piece: &[u8]) -> Result<(), Failed>
    ensures whole { OnOk result (Appends (S.written sink.old) (S.written sink.new) piece.now) }
    ensures front { OnErr result (AppendsFront (S.written sink.old) (S.written sink.new) piece.now) }
    ensures cause { HasCause (S.count sink.old) (S.count sink.new) result }
{
    let mut at = 0;
    while at < piece.len() {
        at += sink.write(&piece[at..])?;
    }
    Ok(())
}
