//! Several fields of one kind, one behind the other.
ghost use Rattle.std.specs.Prelude.{◌≡◌, ◌++◌, ◌^◌, OnOk};
ghost use Rattle.std.specs.Int.{w8};
ghost use Rattle.std.specs.List.{flat_map, AllByRecursion};
ghost use Rattle.merge_record.specs.Codec.{AreCounted, counted_bytes};
ghost use Rattle.merge_record.specs.Reading.{Gives, many_at};

use crate::{Field, Stop};
use merge_types::NoMemory;
use std::alloc::Global;

/// Writes each member.
pub(crate) fn put_many<T: Field>(out: &mut Vec<u8>, members: &[T]) -> Result<(), NoMemory>
    requires { AllByRecursion T.IsShort members.now }
    ensures fits { OnOk result (AllByRecursion T.IsSpelled members.now) }
    ensures bytes { OnOk result (out.new.items ≡ out.old.items ++ flat_map T.spelling members.now) }
{
    for member in members {
        member.put(out)?;
    }
    Ok(())
}

/// Writes a count in one byte, and each member.
pub(crate) fn put_counted<T: Field>(out: &mut Vec<u8>, members: &[T]) -> Result<(), NoMemory>
    requires { AreCounted (2 ^ 8) T.IsShort members.now }
    ensures fits { OnOk result (AreCounted (2 ^ 8) T.IsSpelled members.now) }
    ensures bytes { OnOk result (out.new.items ≡ out.old.items ++ counted_bytes w8 T.spelling members.now) }
{
    (members.len() as u8).put(out)?;
    put_many(out, members)
}

/// Reads so many members.
pub(crate) fn take_many<T: Field>(
    alloc: Global,
    count: u64,
    bytes: &[u8],
) -> Result<(Vec<T>, &[u8]), Stop>
    ensures { Gives (λ x. (x.0.items, x.1.now)) result (many_at T.reading count bytes.now) }
{
    let mut members = Vec::new(alloc);
    let mut rest = bytes;
    for _ in 0..count {
        let (member, behind) = T::take(alloc, rest)?;
        members.push(member)?;
        rest = behind;
    }
    Ok((members, rest))
}
