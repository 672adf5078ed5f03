//! Rows and sites, moves of rows, and subscriptions.
ghost use Rattle.std.specs.Prelude.{◌≡◌};
ghost use Rattle.merge_record.specs.Reading.{Gives};
ghost use Rattle.merge_record.specs.Tables.{kind_at, kind_number};

use crate::field::put;
use crate::{Field, Stop};
use merge_gens::{Mapping, MoveKind, RowSite, SiteState};
use merge_types::{NoMemory, RowId, RowKey};
use std::alloc::Global;

impl Field for RowKey {
    ghost use Rattle.merge_record.specs.Tables.{row_key_at, row_key_bytes, IsRowKey};

    ghost spelling = { row_key_bytes };

    ghost reading = { row_key_at };

    ghost IsSpelled = { IsRowKey };

    ghost IsShort = { λ _. Unit {0} };

    fn put(&self, out: &mut Vec<u8>) -> Result<(), NoMemory> {
        (self.article, self.row.0).put(out)
    }

    #[tactic(auto, unfolding(crate::specs::Tables::row_key_at))]
    fn take(alloc: Global, bytes: &[u8]) -> Result<(RowKey, &[u8]), Stop> {
        let (article, rest) = u8::take(alloc, bytes)?;
        let (row, rest) = u128::take(alloc, rest)?;
        let key = RowKey {
            article,
            row: RowId(row),
        };
        Ok((key, rest))
    }
}

impl Field for RowSite {
    ghost use Rattle.merge_record.specs.Tables.{row_site_at, row_site_bytes, IsRowSite};

    ghost spelling = { row_site_bytes };

    ghost reading = { row_site_at };

    ghost IsSpelled = { IsRowSite };

    ghost IsShort = { λ _. Unit {0} };

    fn put(&self, out: &mut Vec<u8>) -> Result<(), NoMemory> {
        (self.key, self.site).put(out)
    }

    #[tactic(auto, unfolding(crate::specs::Tables::row_site_at))]
    fn take(alloc: Global, bytes: &[u8]) -> Result<(RowSite, &[u8]), Stop> {
        let (key, rest) = RowKey::take(alloc, bytes)?;
        let (site, rest) = u16::take(alloc, rest)?;
        Ok((RowSite { key, site }, rest))
    }
}

#[tactic(auto, unfolding(crate::specs::Tables::kind_at))]
fn take_kind(bytes: &[u8]) -> Result<(MoveKind, &[u8]), Stop>
    ensures { Gives (λ x. (x.0, x.1.now)) result (kind_at bytes.now) }
{
    match bytes {
        [1, rest @ ..] => Ok((MoveKind::Entered, rest)),
        [2, rest @ ..] => Ok((MoveKind::Left, rest)),
        _ => Err(Stop::Broken),
    }
}

fn kind_number(kind: MoveKind) -> u8
    ensures { result ≡ kind_number kind }
{
    match kind {
        MoveKind::Entered => 1,
        MoveKind::Left => 2,
    }
}

impl Field for Mapping {
    ghost use Rattle.merge_record.specs.Tables.{mapping_at, mapping_bytes, IsMapping};

    ghost spelling = { mapping_bytes };

    ghost reading = { mapping_at };

    ghost IsSpelled = { IsMapping };

    ghost IsShort = { λ _. Unit {0} };

    fn put(&self, out: &mut Vec<u8>) -> Result<(), NoMemory> {
        put(out, &[kind_number(self.kind)])?;
        self.generation.put(out)
    }

    #[tactic(auto, unfolding(crate::specs::Tables::mapping_at))]
    fn take(alloc: Global, bytes: &[u8]) -> Result<(Mapping, &[u8]), Stop> {
        let (kind, rest) = take_kind(bytes)?;
        let (generation, rest) = u64::take(alloc, rest)?;
        Ok((Mapping { kind, generation }, rest))
    }
}

impl Field for SiteState {
    ghost use Rattle.merge_record.specs.Tables.{site_state_at, site_state_bytes, IsSiteState};

    ghost spelling = { site_state_bytes };

    ghost reading = { site_state_at };

    ghost IsSpelled = { IsSiteState };

    ghost IsShort = { λ _. Unit {0} };

    fn put(&self, out: &mut Vec<u8>) -> Result<(), NoMemory> {
        let last = (self.seen, (self.watermark, self.last_sync));
        (
            self.joined_at,
            (self.received, (self.received_number, last)),
        )
            .put(out)
    }

    #[tactic(auto, unfolding(crate::specs::Tables::site_state_at))]
    fn take(alloc: Global, bytes: &[u8]) -> Result<(SiteState, &[u8]), Stop> {
        let (joined_at, rest) = u64::take(alloc, bytes)?;
        let (received, rest) = u64::take(alloc, rest)?;
        let (received_number, rest) = u64::take(alloc, rest)?;
        let (seen, rest) = u64::take(alloc, rest)?;
        let (watermark, rest) = u64::take(alloc, rest)?;
        let (last_sync, rest) = u64::take(alloc, rest)?;
        let state = SiteState {
            joined_at,
            received,
            received_number,
            seen,
            watermark,
            last_sync,
        };
        Ok((state, rest))
    }
}
