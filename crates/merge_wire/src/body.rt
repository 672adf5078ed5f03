//! The body of a message.
ghost use Rattle.std.specs.Prelude.{◌≡◌, ◌≤◌, length as count, Err, IfOk, IfErr};
ghost use Rattle.std.specs.Io.KnownBytes.{Consumes};
ghost use Rattle.merge_ports.specs.Parts.{ConsumesFront};
ghost use Rattle.merge_wire.specs.Faults.{IsBodyFault};

use crate::WireFault;
use crate::gathered::Gathered;
use merge_ports::Source;
use merge_types::Octets;
use std::alloc::Global;

// Reads so many bytes and none behind them. The memory taken grows with the bytes that come, and not
// with the length that was told.
pub fn read_body<S: Source>(alloc: Global, source: &mut S, length: u64) -> Result<Octets, WireFault>
    ensures whole { IfOk result (λ body. count body ≡ length) }
    ensures taken { IfOk result (λ body. Consumes (S.left source.old) (S.left source.new) body) }
    ensures fault { IfErr result (IsBodyFault length (S.left source.old) (S.left source.new) (S.count source.old) (S.count source.new)) }
    ensures front { ConsumesFront (S.left source.old) (S.left source.new) }
    ensures later { S.count source.old ≤ S.count source.new }
    ensures kept { (result ≡ Err WireFault.ReadFault → ⊥) → S.count source.new ≡ S.count source.old }
{
    let mut body = Gathered::none(alloc);
    let mut piece = [0; 4096];
    'pieces: loop {
        let missing = length - body.len() as u64;
        if missing == 0 {
            return Ok(body.into_octets());
        }
        let wanted = missing.min(4096) as usize;
        let taken = source.read(&mut piece[..wanted])?;
        if taken == 0 {
            return Err(WireFault::Ended);
        }
        body = body.with(alloc, &piece[..taken])?;
    }
}
