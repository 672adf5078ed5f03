//! What the sites have after an upload.
ghost use Rattle.std.specs.Prelude.{◌≡◌, ℕ, IfOk};
ghost use Rattle.std.specs.List.Sorted.{IsStrictlySortedBy};
ghost use Rattle.std.specs.Map.{keys_of};
ghost use Rattle.std.specs.Ordering.{nat_cmp};
ghost use Rattle.merge_table.specs.Edits.{rows_after_all};
ghost use Rattle.merge_steps.specs.Uploading.{put_all, seen_by, seen_with, sites_with, state_with};

use crate::acting::{Arrival, acts_in};
use merge_batch::{Upload, UploadItem};
use merge_gens::SiteState;
use merge_table::{Edit, Table};
use merge_types::{Listing, NoMemory, SiteId};
use std::alloc::Global;

// The greater of a number, and that of a site in the lineage of an item that acts.
fn seen_with(arrival: Arrival, site: u16, most: u64, item: &UploadItem) -> u64
    ensures { result ≡ seen_with arrival site most item.now }
{
    if acts_in(arrival, item) {
        most.max(item.version.lineage.number_of(SiteId(site)))
    } else {
        most
    }
}

// The greatest number of a site that is met, once the items have acted.
#[tactic(auto, unfolding(crate::specs::Uploading::seen_by))]
fn seen_by(arrival: Arrival, items: &[UploadItem], site: u16, seen: u64) -> u64
    ensures { result ≡ seen_by arrival items.now site seen }
{
    let mut most = seen;
    for item in items {
        most = seen_with(arrival, site, most, item);
    }
    most
}

// What is remembered of a site after the upload.
fn state_with(arrival: Arrival, upload: &Upload, site: u16, state: SiteState) -> SiteState
    ensures { result ≡ state_with arrival upload.now site state }
{
    let seen = seen_by(arrival, upload.items.as_slice(), site, state.seen);
    if site == upload.site.0 {
        SiteState {
            joined_at: state.joined_at,
            received: upload.to,
            received_number: upload.through,
            seen,
            watermark: state.watermark,
            last_sync: state.last_sync,
        }
    } else {
        SiteState {
            joined_at: state.joined_at,
            received: state.received,
            received_number: state.received_number,
            seen,
            watermark: state.watermark,
            last_sync: state.last_sync,
        }
    }
}

/// What the upload makes of all that is remembered of sites: one edit for each of them.
pub fn site_edits(
    alloc: Global,
    sites: &Table<u16, SiteState>,
    arrival: Arrival,
    upload: &Upload,
) -> Result<Listing<Edit<u16, SiteState>>, NoMemory>
    ensures edits { IfOk result (λ edits. edits ≡ put_all (sites_with arrival upload.now sites.now.rows)) }
    ensures after { IfOk result (λ edits. rows_after_all nat_cmp sites.now.rows edits ≡ sites_with arrival upload.now sites.now.rows) }
{
    let edits = state_edits(alloc, sites, arrival, upload)?;
    Ok(edits)
}

// The edits, one for each site.
fn state_edits(
    alloc: Global,
    sites: &Table<u16, SiteState>,
    arrival: Arrival,
    upload: &Upload,
) -> Result<Listing<Edit<u16, SiteState>>, NoMemory>
    ensures edits { IfOk result (λ edits. edits ≡ put_all (sites_with arrival upload.now sites.now.rows)) }
    ensures ordered { IsStrictlySortedBy nat_cmp (keys_of sites.now.rows) }
{
    let mut edits = Listing::empty(alloc);
    for (site, state) in sites.iter() {
        edits.push(Edit::Put(*site, state_with(arrival, upload, *site, *state)))?;
    }
    Ok(edits)
}
