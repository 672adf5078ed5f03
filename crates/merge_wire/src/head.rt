//! The head of a request.
ghost use Rattle.std.specs.Prelude.{◌≡◌, ◌≤◌, ◌⊎◌, [], ◌∷◌, length, Err, IfOk, IfErr, IfSome, IfNone, IsErr};
ghost use Rattle.std.specs.Io.KnownBytes.{Consumes, Keeps};
ghost use Rattle.httparse.specs.Grammar.{HasNoRequest};
ghost use Rattle.httparse.specs.Spans.{IsRequestOf, IsRequestWithin};
ghost use Rattle.merge_ports.specs.Parts.{ConsumesFront};
ghost use Rattle.merge_wire.specs.Faults.{IsHeadFault, IsByteFault};
ghost use Rattle.merge_wire.specs.Heads.{head_limit, line_limit, lines as line_count, CanBecomeRequest, NoRequestCan};

use crate::WireFault;
use crate::gathered::Gathered;
use crate::lines::{LINE_LIMIT, lines};
use crate::message::HEAD_LIMIT;
use crate::target::can_become_request;
use httparse::Status;
use httparse::spans::{HeaderSpan, RequestSpans, parse_request};
use merge_ports::Source;
use merge_types::Octets;
use std::alloc::Global;

// Reads a head and no byte behind it.
#[tactic(auto, using(crate::proofs::HeadLemmas::no_empty, crate::proofs::HeadLemmas::empty_hopeful, crate::proofs::LineEnds::empty_few))]
pub fn read_head<S: Source>(
    alloc: Global,
    source: &mut S,
    fields: &mut [HeaderSpan; 32],
) -> Result<(Octets, RequestSpans), WireFault>
    ensures head { IfOk result (λ x. IsRequestOf x.0 fields.new x.1) }
    ensures within { IfOk result (λ x. IsRequestWithin x.0 fields.new x.1) }
    ensures whole { IfOk result (λ x. x.1.len ≡ length x.0) }
    ensures limit { IfOk result (λ x. length x.0 ≤ head_limit) }
    ensures taken { IfOk result (λ x. Consumes (S.left source.old) (S.left source.new) x.0) }
    ensures fault { IfErr result (IsHeadFault (S.left source.old) (S.left source.new) (S.count source.old) (S.count source.new)) }
    ensures front { ConsumesFront (S.left source.old) (S.left source.new) }
    ensures later { S.count source.old ≤ S.count source.new }
    ensures kept { (result ≡ Err WireFault.ReadFault → ⊥) → S.count source.new ≡ S.count source.old }
{
    let mut head = Gathered::none(alloc);
    for _ in 0..HEAD_LIMIT {
        let byte = next(source)?;
        head = head.with(alloc, &[byte])?;
        if let Some(spans) = head_of(head.as_slice(), fields)? {
            return Ok((head.into_octets(), spans));
        }
    }
    Err(WireFault::BadHead)
}

// The head at the front of the bytes, and none where more bytes can bring one.
fn head_of(bytes: &[u8], fields: &mut [HeaderSpan; 32]) -> Result<Option<RequestSpans>, WireFault>
    ensures some { IfOk result (λ found. IfSome found (IsRequestOf bytes.now fields.new)) }
    ensures within { IfOk result (λ found. IfSome found (IsRequestWithin bytes.now fields.new)) }
    ensures none { IfOk result (λ found. IfNone found (HasNoRequest bytes.now)) }
    ensures hopeful { IfOk result (λ found. IfNone found (CanBecomeRequest bytes.now)) }
    ensures few { IfOk result (λ found. IfNone found (line_count bytes.now ≤ line_limit)) }
    ensures bad { IfErr result (λ e. (e ≡ WireFault.BadHead) × NoRequestCan bytes.now) }
{
    match parse_request(bytes, fields) {
        Ok(Status::Complete(spans)) => Ok(Some(spans)),
        Ok(Status::Partial) => {
            if lines(bytes) > LINE_LIMIT {
                return Err(WireFault::BadHead);
            }
            if can_become_request(bytes) {
                Ok(None)
            } else {
                Err(WireFault::BadHead)
            }
        }
        Err(_) => Err(WireFault::BadHead),
    }
}

// The next byte.
fn next<S: Source>(source: &mut S) -> Result<u8, WireFault>
    ensures taken { IfOk result (λ byte. Consumes (S.left source.old) (S.left source.new) (byte ∷ [])) }
    ensures left { IsErr result → Keeps (S.left source.old) (S.left source.new) }
    ensures fault { IfErr result (IsByteFault (S.left source.new) (S.count source.old) (S.count source.new)) }
    ensures later { S.count source.old ≤ S.count source.new }
    ensures kept { (result ≡ Err WireFault.ReadFault → ⊥) → S.count source.new ≡ S.count source.old }
{
    let mut piece = [0];
    let taken = source.read(&mut piece)?;
    if taken == 0 {
        return Err(WireFault::Ended);
    }
    Ok(piece[0])
}
