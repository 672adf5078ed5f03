//! Numbers, the highest byte first.
use crate::field::{put, put_byte};
use crate::{Field, Stop};
use merge_types::NoMemory;
use std::alloc::Global;

impl Field for u8 {
    ghost use Rattle.std.specs.Prelude.{◌^◌};
    ghost use Rattle.std.specs.Int.{w8, to_be_bytes};
    ghost use Rattle.merge_record.specs.Reading.{number_at};
    ghost use Rattle.merge_record.specs.Codec.{IsBelow};

    ghost spelling = { to_be_bytes w8 };

    ghost reading = { number_at w8 };

    ghost IsSpelled = { IsBelow (2 ^ 8) };

    ghost IsShort = { λ _. Unit {0} };

    fn put(&self, out: &mut Vec<u8>) -> Result<(), NoMemory> {
        let [byte] = self.to_be_bytes();
        put_byte(out, byte)
    }

    fn take(_: Global, bytes: &[u8]) -> Result<(u8, &[u8]), Stop> {
        match bytes.split_first_chunk::<1>() {
            Some((front, rest)) => Ok((u8::from_be_bytes(*front), rest)),
            None => Err(Stop::Broken),
        }
    }
}

impl Field for u16 {
    ghost use Rattle.std.specs.Prelude.{◌^◌};
    ghost use Rattle.std.specs.Int.{w16, to_be_bytes};
    ghost use Rattle.merge_record.specs.Reading.{number_at};
    ghost use Rattle.merge_record.specs.Codec.{IsBelow};

    ghost spelling = { to_be_bytes w16 };

    ghost reading = { number_at w16 };

    ghost IsSpelled = { IsBelow (2 ^ 16) };

    ghost IsShort = { λ _. Unit {0} };

    fn put(&self, out: &mut Vec<u8>) -> Result<(), NoMemory> {
        put(out, &self.to_be_bytes())
    }

    fn take(_: Global, bytes: &[u8]) -> Result<(u16, &[u8]), Stop> {
        match bytes.split_first_chunk::<2>() {
            Some((front, rest)) => Ok((u16::from_be_bytes(*front), rest)),
            None => Err(Stop::Broken),
        }
    }
}

impl Field for u64 {
    ghost use Rattle.std.specs.Prelude.{◌^◌};
    ghost use Rattle.std.specs.Int.{w64, to_be_bytes};
    ghost use Rattle.merge_record.specs.Reading.{number_at};
    ghost use Rattle.merge_record.specs.Codec.{IsBelow};

    ghost spelling = { to_be_bytes w64 };

    ghost reading = { number_at w64 };

    ghost IsSpelled = { IsBelow (2 ^ 64) };

    ghost IsShort = { λ _. Unit {0} };

    fn put(&self, out: &mut Vec<u8>) -> Result<(), NoMemory> {
        put(out, &self.to_be_bytes())
    }

    fn take(_: Global, bytes: &[u8]) -> Result<(u64, &[u8]), Stop> {
        match bytes.split_first_chunk::<8>() {
            Some((front, rest)) => Ok((u64::from_be_bytes(*front), rest)),
            None => Err(Stop::Broken),
        }
    }
}

impl Field for u128 {
    ghost use Rattle.std.specs.Prelude.{◌^◌};
    ghost use Rattle.std.specs.Int.{w128, to_be_bytes};
    ghost use Rattle.merge_record.specs.Reading.{number_at};
    ghost use Rattle.merge_record.specs.Codec.{IsBelow};

    ghost spelling = { to_be_bytes w128 };

    ghost reading = { number_at w128 };

    ghost IsSpelled = { IsBelow (2 ^ 128) };

    ghost IsShort = { λ _. Unit {0} };

    fn put(&self, out: &mut Vec<u8>) -> Result<(), NoMemory> {
        put(out, &self.to_be_bytes())
    }

    fn take(_: Global, bytes: &[u8]) -> Result<(u128, &[u8]), Stop> {
        match bytes.split_first_chunk::<16>() {
            Some((front, rest)) => Ok((u128::from_be_bytes(*front), rest)),
            None => Err(Stop::Broken),
        }
    }
}

impl Field for i32 {
    ghost use Rattle.std.specs.Prelude.{FitsSigned};
    ghost use Rattle.std.specs.Int.{w32};
    ghost use Rattle.merge_record.specs.Reading.{signed_at};
    ghost use Rattle.merge_record.specs.Codec.{signed_bytes};

    ghost spelling = { signed_bytes w32 };

    ghost reading = { signed_at w32 };

    ghost IsSpelled = { FitsSigned w32 };

    ghost IsShort = { λ _. Unit {0} };

    fn put(&self, out: &mut Vec<u8>) -> Result<(), NoMemory> {
        put(out, &self.to_be_bytes())
    }

    fn take(_: Global, bytes: &[u8]) -> Result<(i32, &[u8]), Stop> {
        match bytes.split_first_chunk::<4>() {
            Some((front, rest)) => Ok((i32::from_be_bytes(*front), rest)),
            None => Err(Stop::Broken),
        }
    }
}

impl Field for i64 {
    ghost use Rattle.std.specs.Prelude.{FitsSigned};
    ghost use Rattle.std.specs.Int.{w64};
    ghost use Rattle.merge_record.specs.Reading.{signed_at};
    ghost use Rattle.merge_record.specs.Codec.{signed_bytes};

    ghost spelling = { signed_bytes w64 };

    ghost reading = { signed_at w64 };

    ghost IsSpelled = { FitsSigned w64 };

    ghost IsShort = { λ _. Unit {0} };

    fn put(&self, out: &mut Vec<u8>) -> Result<(), NoMemory> {
        put(out, &self.to_be_bytes())
    }

    fn take(_: Global, bytes: &[u8]) -> Result<(i64, &[u8]), Stop> {
        match bytes.split_first_chunk::<8>() {
            Some((front, rest)) => Ok((i64::from_be_bytes(*front), rest)),
            None => Err(Stop::Broken),
        }
    }
}
