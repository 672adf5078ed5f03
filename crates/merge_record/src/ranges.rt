//! Ranges of identity values: those that are granted, and those that a site holds.
ghost use Rattle.std.specs.Prelude.{◌≡◌, ◌≤◌, ◌++◌, length, FitsSigned, OnOk};
ghost use Rattle.std.specs.Int.{w8, w64};
ghost use Rattle.merge_record.specs.Codec.{counted_bytes, signed_bytes};
ghost use Rattle.merge_record.specs.Reading.{Gives};
ghost use Rattle.merge_record.specs.Tables.{AreRanges, range_bytes, ranges_at};

use crate::many::{put_counted, take_many};
use crate::{Field, Stop};
use merge_ident::Range;
use merge_types::{Exact, Listing, NoMemory, SiteId};
use std::alloc::Global;

/// Which grant: the article, the site that it is granted to, and its number there, from 1 on.
#[derive(Clone, Copy, Debug, PartialEq, Eq, PartialOrd, Ord)]
pub struct GrantKey {
    pub article: u8,
    pub site: SiteId,
    pub number: u64,
}

/// What a site holds of the ranges of an article.
#[derive(Debug, Drop, PartialEq, Eq)]
pub struct HeldRanges {
    /// How many ranges the site received.
    pub have: u64,
    /// The end of the last of them.
    pub last_end: i64,
    /// Those with values that it may use, at most two.
    pub ranges: Listing<Range>,
    /// The next value, 0 where none is held.
    pub next: i64,
}

impl Exact for GrantKey {
    ghost use Rattle.std.proofs.Common.{rules};

    ghost exact = { Prim.search rules };
}

impl Field for GrantKey {
    ghost use Rattle.merge_record.specs.Tables.{grant_key_at, grant_key_bytes, IsGrantKey};

    ghost spelling = { grant_key_bytes };

    ghost reading = { grant_key_at };

    ghost IsSpelled = { IsGrantKey };

    ghost IsShort = { λ _. Unit {0} };

    fn put(&self, out: &mut Vec<u8>) -> Result<(), NoMemory> {
        (self.article, (self.site.0, self.number)).put(out)
    }

    #[tactic(auto, unfolding(crate::specs::Tables::grant_key_at))]
    fn take(alloc: Global, bytes: &[u8]) -> Result<(GrantKey, &[u8]), Stop> {
        let (article, rest) = u8::take(alloc, bytes)?;
        let (site, rest) = u16::take(alloc, rest)?;
        let (number, rest) = u64::take(alloc, rest)?;
        let key = GrantKey {
            article,
            site: SiteId(site),
            number,
        };
        Ok((key, rest))
    }
}

impl Field for Range {
    ghost use Rattle.merge_record.specs.Tables.{range_at, range_bytes, IsRange};

    ghost spelling = { range_bytes };

    ghost reading = { range_at };

    ghost IsSpelled = { IsRange };

    ghost IsShort = { λ _. Unit {0} };

    fn put(&self, out: &mut Vec<u8>) -> Result<(), NoMemory> {
        (self.begin, self.end).put(out)
    }

    #[tactic(auto, unfolding(crate::specs::Tables::range_at))]
    fn take(alloc: Global, bytes: &[u8]) -> Result<(Range, &[u8]), Stop> {
        let (begin, rest) = i64::take(alloc, bytes)?;
        let (end, rest) = i64::take(alloc, rest)?;
        Ok((Range { begin, end }, rest))
    }
}

// Writes the ranges, and the next value.
fn put_next(out: &mut Vec<u8>, ranges: &[Range], next: i64) -> Result<(), NoMemory>
    requires { length ranges.now ≤ 2 }
    ensures fits { OnOk result (AreRanges ranges.now × FitsSigned w64 next) }
    ensures bytes { OnOk result (out.new.items ≡ out.old.items ++ (counted_bytes w8 range_bytes ranges.now ++ signed_bytes w64 next)) }
{
    put_counted(out, ranges)?;
    next.put(out)
}

// Writes all but how many were received.
fn put_ranges(out: &mut Vec<u8>, held: &HeldRanges) -> Result<(), NoMemory>
    requires { length held.now.ranges ≤ 2 }
    ensures fits { OnOk result (FitsSigned w64 held.now.last_end × (AreRanges held.now.ranges × FitsSigned w64 held.now.next)) }
    ensures bytes { OnOk result (out.new.items ≡ out.old.items ++ (signed_bytes w64 held.now.last_end ++ (counted_bytes w8 range_bytes held.now.ranges ++ signed_bytes w64 held.now.next))) }
{
    held.last_end.put(out)?;
    put_next(out, held.ranges.as_slice(), held.next)
}

#[tactic(auto, unfolding(crate::specs::Tables::ranges_at))]
fn take_ranges(alloc: Global, bytes: &[u8]) -> Result<(Listing<Range>, &[u8]), Stop>
    ensures { Gives (λ x. (x.0, x.1.now)) result (ranges_at bytes.now) }
{
    let (count, rest) = u8::take(alloc, bytes)?;
    let (ranges, rest) = take_many::<Range>(alloc, count.into(), rest)?;
    if ranges.len() <= 2 {
        return Ok((Listing::new(ranges), rest));
    }
    Err(Stop::Broken)
}

impl Field for HeldRanges {
    ghost use Rattle.merge_record.specs.Tables.{held_at, held_bytes, IsHeld, IsShortHeld};

    ghost spelling = { held_bytes };

    ghost reading = { held_at };

    ghost IsSpelled = { IsHeld };

    ghost IsShort = { IsShortHeld };

    fn put(&self, out: &mut Vec<u8>) -> Result<(), NoMemory> {
        self.have.put(out)?;
        put_ranges(out, self)?;
        Ok(())
    }

    #[tactic(auto, unfolding(crate::specs::Tables::held_at))]
    fn take(alloc: Global, bytes: &[u8]) -> Result<(HeldRanges, &[u8]), Stop> {
        let (have, rest) = u64::take(alloc, bytes)?;
        let (last_end, rest) = i64::take(alloc, rest)?;
        let (ranges, rest) = take_ranges(alloc, rest)?;
        let (next, rest) = i64::take(alloc, rest)?;
        let held = HeldRanges {
            have,
            last_end,
            ranges,
            next,
        };
        Ok((held, rest))
    }
}
