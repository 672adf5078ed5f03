//! The bytes of a response.
ghost use Rattle.std.specs.Prelude.{◌≡◌, ◌≤◌, ◌<◌, length, OnOk, IfOk};
ghost use Rattle.std.specs.Io.KnownBytes.{Consumes, IsAtEnd};
ghost use Rattle.merge_ports.specs.Faults.{Rose};
ghost use Rattle.merge_ports.specs.Parts.{ConsumesFront};

use merge_link::LinkFault;
use merge_ports::Source;
use merge_types::Octets;
use std::alloc::Global;

/// Reads a source to its end, or to so many bytes where it has more: the others are left. The memory
/// that it takes grows with the bytes that came.
pub fn read_response<S: Source>(
    alloc: Global,
    source: &mut S,
    limit: usize,
) -> Result<Octets, LinkFault>
    ensures front { IfOk result (λ bytes. Consumes (S.left source.old) (S.left source.new) bytes) }
    ensures fits { IfOk result (λ bytes. length bytes ≤ limit) }
    ensures end { IfOk result (λ bytes. length bytes < limit → IsAtEnd (S.left source.new)) }
    ensures failed { result ≡ Err LinkFault.Failed → Rose (S.count source.old) (S.count source.new) }
    ensures taken { ConsumesFront (S.left source.old) (S.left source.new) }
    ensures later { S.count source.old ≤ S.count source.new }
    ensures kept { OnOk result (S.count source.new ≡ S.count source.old) }
    ensures starved { result ≡ Err LinkFault.NoMemory → S.count source.new ≡ S.count source.old }
{
    let mut bytes = Octets::empty(alloc);
    let mut piece = [0; 4096];
    'pieces: while bytes.len() < limit {
        let room = piece.len().min(limit - bytes.len());
        let Ok(taken) = source.read(&mut piece[..room]) else {
            return Err(LinkFault::Failed);
        };
        if taken == 0 {
            return Ok(bytes);
        }
        bytes.extend(&piece[..taken])?;
    }
    Ok(bytes)
}
