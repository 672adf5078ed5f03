//! What a record is made of: fields, each of which has one spelling.
ghost use Rattle.std.specs.Prelude.{◌≡◌, ◌++◌, ◌∷◌, [], IfOk, OnOk};
ghost use Rattle.merge_record.specs.Reading.{Gives, whole_of};
ghost use Rattle.merge_record.specs.Codec.{IsRecord};

use crate::stop::Stop;
use merge_types::{Listing, NoMemory, Octets};
use std::alloc::Global;

// As many bytes as most records have, so that they are written with no move to more memory.
const USUAL_LENGTH: usize = 128;

/// A field of a record, or a whole one. It is written in one way, and read back from there: what
/// holds of both together is said by the laws of this crate.
pub trait Field: Drop {
    ghost use Rattle.std.specs.Prelude.{ℕ, List};
    ghost use Rattle.merge_record.specs.Reading.{Reader};

    /// The bytes of a value.
    ghost spelling: { Self → List ℕ };

    /// What stands at the front of bytes.
    ghost reading: { Reader Self };

    /// What a value has whose bytes are read back.
    ghost IsSpelled: { Self → Type 0 };

    /// Each count and length fits its field: what a caller has to see to.
    ghost IsShort: { Self → Type 0 };

    /// Writes the value behind what is there.
    fn put(&self, out: &mut Vec<u8>) -> Result<(), NoMemory>
        requires { IsShort self.now }
        ensures fits { OnOk result (IsSpelled self.now) }
        ensures bytes { OnOk result (out.new.items ≡ out.old.items ++ spelling self.now) };

    /// Reads a value from the front, and gives the bytes behind it.
    fn take(alloc: Global, bytes: &[u8]) -> Result<(Self, &[u8]), Stop>
        ensures { Gives (λ x. (x.0, x.1.now)) result (reading bytes.now) };

    /// The record of the value.
    final fn write(&self, alloc: Global) -> Result<Octets, NoMemory>
        requires { IsShort self.now }
        ensures { IfOk result (λ octets. IsRecord spelling IsSpelled octets self.now) }
    {
        let mut out = Vec::with_capacity(alloc, USUAL_LENGTH)?;
        self.put(&mut out)?;
        Ok(Listing::new(out))
    }

    /// The value of a record, and none for bytes that are no record.
    final fn read(alloc: Global, bytes: &[u8]) -> Result<Option<Self>, NoMemory>
        ensures { IfOk result (λ read. read ≡ whole_of (reading bytes.now)) }
    {
        match Self::take(alloc, bytes) {
            Ok((value, [])) => Ok(Some(value)),
            Ok(_) | Err(Stop::Broken) => Ok(None),
            Err(Stop::NoMemory) => Err(NoMemory),
        }
    }
}

/// Writes bytes behind what is there.
pub(crate) fn put(out: &mut Vec<u8>, bytes: &[u8]) -> Result<(), NoMemory>
    ensures { OnOk result (out.new.items ≡ out.old.items ++ bytes.now) }
{
    out.extend_from_slice(bytes)?;
    Ok(())
}

/// Writes one byte behind what is there.
pub(crate) fn put_byte(out: &mut Vec<u8>, byte: u8) -> Result<(), NoMemory>
    ensures { OnOk result (out.new.items ≡ out.old.items ++ byte ∷ []) }
{
    out.push(byte)?;
    Ok(())
}

/// Two fields, one behind the other.
impl<A: Field, B: Field> Field for (A, B) {
    ghost use Rattle.std.specs.Prelude.{◌++◌};
    ghost use Rattle.merge_record.specs.Reading.{pair_at};

    ghost spelling = { λ p. A.spelling p.0 ++ B.spelling p.1 };

    ghost reading = { pair_at A.reading B.reading };

    ghost IsSpelled = { λ p. A.IsSpelled p.0 × B.IsSpelled p.1 };

    ghost IsShort = { λ p. A.IsShort p.0 × B.IsShort p.1 };

    fn put(&self, out: &mut Vec<u8>) -> Result<(), NoMemory> {
        self.0.put(out)?;
        self.1.put(out)
    }

    fn take(alloc: Global, bytes: &[u8]) -> Result<((A, B), &[u8]), Stop> {
        let (first, rest) = A::take(alloc, bytes)?;
        let (second, rest) = B::take(alloc, rest)?;
        Ok(((first, second), rest))
    }
}
