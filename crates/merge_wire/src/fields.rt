//! The length that the fields of a head give its body.
ghost use Rattle.std.specs.Prelude.{◌≡◌, ◌≤◌, ◌<◌, ℕ, List, length as count, map, All, IfOk, IfErr};
ghost use Rattle.httparse.specs.Spans.{IsHeaderWithin, header_bytes};
ghost use Rattle.merge_wire.specs.Fields.{HasLength, IsSeen, IsLengthFault, behind, body_limit};

use crate::WireFault;
use crate::message::BODY_LIMIT;
use httparse::spans::HeaderSpan;
use merge_types::read_decimal;

// What the fields so far say of the length.
#[derive(Clone, Copy, Debug, PartialEq, Eq)]
enum Length {
    Missing,
    Found(u64),
    Bad,
}

// The length of the body that comes behind a head.
pub fn body_length(head: &[u8], spans: &[HeaderSpan]) -> Result<u64, WireFault>
    requires { All (IsHeaderWithin (count head.now)) spans.now }
    ensures ok { IfOk result (λ n. HasLength n (map (header_bytes head.now) spans.now) × (n ≤ body_limit)) }
    ensures fault { IfErr result (IsLengthFault (map (header_bytes head.now) spans.now)) }
{
    match length_of(head, spans) {
        Length::Found(length) => {
            if length <= BODY_LIMIT {
                Ok(length)
            } else {
                Err(WireFault::TooLong { length })
            }
        }
        Length::Missing => Err(WireFault::BadLength),
        Length::Bad => Err(WireFault::BadLength),
    }
}

fn length_of(head: &[u8], spans: &[HeaderSpan]) -> Length
    requires { All (IsHeaderWithin (count head.now)) spans.now }
    ensures { IsSeen result (map (header_bytes head.now) spans.now) }
{
    let mut seen = Length::Missing;
    for span in spans {
        seen = next(seen, span.name.of(head), span.value.of(head));
    }
    seen
}

// One field more.
fn next(seen: Length, name: &[u8], value: &[u8]) -> Length
    ensures { (fields : List (List ℕ × List ℕ)) → IsSeen seen fields → IsSeen result (behind fields (name.now, value.now)) }
{
    if name.eq_ignore_ascii_case(b"transfer-encoding") {
        return Length::Bad;
    }
    if !name.eq_ignore_ascii_case(b"content-length") {
        return seen;
    }
    match seen {
        Length::Missing => match read_decimal(value) {
            Some(length) => Length::Found(length),
            None => Length::Bad,
        },
        Length::Found(_) => Length::Bad,
        Length::Bad => Length::Bad,
    }
}
