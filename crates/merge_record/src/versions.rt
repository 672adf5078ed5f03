//! Versions of rows, and what they are made of.
ghost use Rattle.std.specs.Prelude.{◌≡◌, ◌++◌, OnOk};
ghost use Rattle.merge_units.specs.declared.version.Body.TheVariants.{Dead};
ghost use Rattle.merge_record.specs.Reading.{Gives};
ghost use Rattle.merge_record.specs.Versions.{body_bytes, body_tagged_at, IsBody};

use crate::field::put_byte;
use crate::many::{put_counted, take_many};
use crate::{Field, Stop};
use merge_lineage::{Lineage, are_ascending};
use merge_types::{Dot, Listing, NoMemory, SiteId};
use merge_units::{Body, Cell, Version};
use std::alloc::Global;

impl Field for Dot {
    ghost use Rattle.merge_record.specs.Versions.{dot_at, dot_bytes, IsDot};

    ghost spelling = { dot_bytes };

    ghost reading = { dot_at };

    ghost IsSpelled = { IsDot };

    ghost IsShort = { λ _. Unit {0} };

    fn put(&self, out: &mut Vec<u8>) -> Result<(), NoMemory> {
        self.site.0.put(out)?;
        self.number.put(out)
    }

    #[tactic(auto, unfolding(crate::specs::Versions::dot_at))]
    fn take(alloc: Global, bytes: &[u8]) -> Result<(Dot, &[u8]), Stop> {
        let (site, rest) = u16::take(alloc, bytes)?;
        let (number, rest) = u64::take(alloc, rest)?;
        let dot = Dot {
            site: SiteId(site),
            number,
        };
        Ok((dot, rest))
    }
}

impl Field for Lineage {
    ghost use Rattle.merge_record.specs.Versions.{lineage_at, lineage_bytes, IsLineage, IsShortLineage};

    ghost spelling = { lineage_bytes };

    ghost reading = { lineage_at };

    ghost IsSpelled = { IsLineage };

    ghost IsShort = { IsShortLineage };

    fn put(&self, out: &mut Vec<u8>) -> Result<(), NoMemory> {
        put_counted(out, self.dots())?;
        Ok(())
    }

    #[tactic(auto, unfolding(crate::specs::Versions::lineage_at))]
    fn take(alloc: Global, bytes: &[u8]) -> Result<(Lineage, &[u8]), Stop> {
        let (count, rest) = u8::take(alloc, bytes)?;
        let (dots, rest) = take_many::<Dot>(alloc, count.into(), rest)?;
        if are_ascending(&dots) {
            return Ok((Lineage::restore(dots), rest));
        }
        Err(Stop::Broken)
    }
}

impl Field for Cell {
    ghost use Rattle.merge_record.specs.Versions.{cell_at, cell_bytes, IsCell, IsShortCell};

    ghost spelling = { cell_bytes };

    ghost reading = { cell_at };

    ghost IsSpelled = { IsCell };

    ghost IsShort = { IsShortCell };

    fn put(&self, out: &mut Vec<u8>) -> Result<(), NoMemory> {
        self.top.put(out)?;
        put_counted(out, self.values.as_slice())
    }

    #[tactic(auto, unfolding(crate::specs::Versions::cell_at))]
    fn take(alloc: Global, bytes: &[u8]) -> Result<(Cell, &[u8]), Stop> {
        let (top, rest) = Dot::take(alloc, bytes)?;
        let (count, rest) = u8::take(alloc, rest)?;
        let (values, rest) = take_many(alloc, count.into(), rest)?;
        let cell = Cell {
            top,
            values: Listing::new(values),
        };
        Ok((cell, rest))
    }
}

#[tactic(auto, unfolding(crate::specs::Versions::body_tagged_at))]
fn take_tagged(alloc: Global, tag: u8, bytes: &[u8]) -> Result<(Body, &[u8]), Stop>
    ensures { Gives (λ x. (x.0, x.1.now)) result (body_tagged_at tag bytes.now) }
{
    match tag {
        1 => {
            let (count, rest) = u8::take(alloc, bytes)?;
            let (cells, rest) = take_many(alloc, count.into(), rest)?;
            Ok((Body::Live(Listing::new(cells)), rest))
        }
        2 => {
            let (dot, rest) = Dot::take(alloc, bytes)?;
            Ok((Body::Dead(dot), rest))
        }
        _ => Err(Stop::Broken),
    }
}

fn put_dead(out: &mut Vec<u8>, dot: Dot) -> Result<(), NoMemory>
    ensures fits { OnOk result (IsBody (Dead dot)) }
    ensures bytes { OnOk result (out.new.items ≡ out.old.items ++ body_bytes (Dead dot)) }
{
    put_byte(out, 2)?;
    dot.put(out)
}

impl Field for Body {
    ghost use Rattle.merge_record.specs.Versions.{body_at, body_bytes, IsBody, IsShortBody};

    ghost spelling = { body_bytes };

    ghost reading = { body_at };

    ghost IsSpelled = { IsBody };

    ghost IsShort = { IsShortBody };

    fn put(&self, out: &mut Vec<u8>) -> Result<(), NoMemory> {
        match self {
            Body::Live(cells) => {
                put_byte(out, 1)?;
                put_counted(out, cells.as_slice())
            }
            Body::Dead(dot) => put_dead(out, *dot),
        }
    }

    #[tactic(auto, unfolding(crate::specs::Versions::body_at))]
    fn take(alloc: Global, bytes: &[u8]) -> Result<(Body, &[u8]), Stop> {
        let (tag, rest) = u8::take(alloc, bytes)?;
        take_tagged(alloc, tag, rest)
    }
}

impl Field for Version {
    ghost use Rattle.merge_record.specs.Versions.{version_at, version_bytes, IsVersion, IsShortVersion};

    ghost spelling = { version_bytes };

    ghost reading = { version_at };

    ghost IsSpelled = { IsVersion };

    ghost IsShort = { IsShortVersion };

    fn put(&self, out: &mut Vec<u8>) -> Result<(), NoMemory> {
        self.lineage.put(out)?;
        self.body.put(out)
    }

    #[tactic(auto, unfolding(crate::specs::Versions::version_at))]
    fn take(alloc: Global, bytes: &[u8]) -> Result<(Version, &[u8]), Stop> {
        let (lineage, rest) = Lineage::take(alloc, bytes)?;
        let (body, rest) = Body::take(alloc, rest)?;
        Ok((Version { lineage, body }, rest))
    }
}
