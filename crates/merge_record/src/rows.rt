//! Rows of both kinds of site.
ghost use Rattle.std.specs.Prelude.{◌≡◌, ◌++◌, true, OnOk};
ghost use Rattle.std.specs.Int.{w64, to_be_bytes};
ghost use Rattle.merge_record.specs.Codec.{counted_bytes};
ghost use Rattle.merge_record.specs.Reading.{Gives};
ghost use Rattle.merge_record.specs.Rows.{AreGenerations, ascend_behind, generations_at, numbers_ascend};

use crate::many::{put_many, take_many};
use crate::{Field, Stop};
use merge_types::{Listing, NoMemory};
use merge_units::{PublisherRow, SubscriberRow, Version};
use std::alloc::Global;

impl Field for PublisherRow {
    ghost use Rattle.merge_record.specs.Rows.{publisher_row_at, publisher_row_bytes, IsPublisherRow, IsShortPublisherRow};

    ghost spelling = { publisher_row_bytes };

    ghost reading = { publisher_row_at };

    ghost IsSpelled = { IsPublisherRow };

    ghost IsShort = { IsShortPublisherRow };

    fn put(&self, out: &mut Vec<u8>) -> Result<(), NoMemory> {
        self.version.put(out)?;
        self.changed.put(out)
    }

    #[tactic(auto, unfolding(crate::specs::Rows::publisher_row_at))]
    fn take(alloc: Global, bytes: &[u8]) -> Result<(PublisherRow, &[u8]), Stop> {
        let (version, rest) = Version::take(alloc, bytes)?;
        let (changed, rest) = u64::take(alloc, rest)?;
        Ok((PublisherRow { version, changed }, rest))
    }
}

/// Whether the numbers ascend.
pub fn numbers_ascend(numbers: &[u64]) -> bool
    ensures { result ≡ numbers_ascend numbers.now }
{
    match numbers.split_first() {
        None => true,
        Some((first, rest)) => ascend_behind(*first, rest),
    }
}

// Whether the numbers ascend, and all are above this one.
fn ascend_behind(number: u64, numbers: &[u64]) -> bool
    ensures { result ≡ ascend_behind number numbers.now }
{
    let mut last = number;
    for number in numbers {
        if *number <= last {
            return false;
        }
        last = *number;
    }
    true
}

// Writes a count in eight bytes, and each generation.
fn put_generations(out: &mut Vec<u8>, generations: &[u64]) -> Result<(), NoMemory>
    requires { numbers_ascend generations.now ≡ true }
    ensures fits { OnOk result (AreGenerations generations.now) }
    ensures bytes { OnOk result (out.new.items ≡ out.old.items ++ counted_bytes w64 (to_be_bytes w64) generations.now) }
{
    (generations.len() as u64).put(out)?;
    put_many(out, generations)
}

#[tactic(auto, unfolding(crate::specs::Rows::generations_at))]
fn take_generations(alloc: Global, bytes: &[u8]) -> Result<(Listing<u64>, &[u8]), Stop>
    ensures { Gives (λ x. (x.0, x.1.now)) result (generations_at bytes.now) }
{
    let (count, rest) = u64::take(alloc, bytes)?;
    let (generations, rest) = take_many(alloc, count, rest)?;
    if numbers_ascend(&generations) {
        return Ok((Listing::new(generations), rest));
    }
    Err(Stop::Broken)
}

impl Field for SubscriberRow {
    ghost use Rattle.merge_record.specs.Rows.{subscriber_row_at, subscriber_row_bytes, IsSubscriberRow, IsShortSubscriberRow};

    ghost spelling = { subscriber_row_bytes };

    ghost reading = { subscriber_row_at };

    ghost IsSpelled = { IsSubscriberRow };

    ghost IsShort = { IsShortSubscriberRow };

    fn put(&self, out: &mut Vec<u8>) -> Result<(), NoMemory> {
        self.version.put(out)?;
        put_generations(out, self.generations.as_slice())
    }

    #[tactic(auto, unfolding(crate::specs::Rows::subscriber_row_at))]
    fn take(alloc: Global, bytes: &[u8]) -> Result<(SubscriberRow, &[u8]), Stop> {
        let (version, rest) = Version::take(alloc, bytes)?;
        let (generations, rest) = take_generations(alloc, rest)?;
        let row = SubscriberRow {
            version,
            generations,
        };
        Ok((row, rest))
    }
}
