//! An outside whose stores are keepers that it is given by site.
ghost use Rattle.std.specs.Prelude.{◌≡◌, IsTrue, true};
ghost use Rattle.std.specs.List.Sorted.{IsStrictlySortedBy};
ghost use Rattle.std.specs.Map.{keys_of, lookup};
ghost use Rattle.merge_table.specs.Contents.{has_room};
ghost use Rattle.std.specs.BTreeMap.{is_at};
ghost use Rattle.std.specs.Ordering.{nat_cmp};
ghost use Rattle.merge_ports.specs.Stores.{has_no_path, is_fresh};

use crate::{Counts, Keeper, OpenFault, Outside};
use merge_table::Table;
use merge_types::{Listing, SiteId, Words};

/// Hands out the keepers that it is given, each by its site and the empty path. An opening fails
/// where its number, counted from 0, is listed; where no keeper of the site is there; and where a
/// call of the keeper has failed, since an opened keeper has no faults yet.
#[derive(Drop)]
pub struct MemoryOutside<K: Drop> {
    pub stores: Table<u16, K>,
    pub failing: Listing<u64>,
    /// How many openings there were.
    pub calls: u64,
    pub counts: Counts,
}

impl<K: Keeper> MemoryOutside<K> {
    /// An outside with these keepers, of which none was opened yet.
    pub fn new(stores: Table<u16, K>, failing: Listing<u64>) -> Self
        ensures { result ≡ record { stores = stores; failing = failing; calls = 0; counts = record { texts = 0; stores = 0; links = 0 } } }
    {
        MemoryOutside {
            stores,
            failing,
            calls: 0,
            counts: Counts {
                texts: 0,
                stores: 0,
                links: 0,
            },
        }
    }
}

// Whether a site's keeper is there, and none of its calls has failed.
fn is_fresh<K: Keeper>(stores: &Table<u16, K>, site: SiteId) -> bool
    ensures fresh { result ≡ is_fresh K.count (lookup (is_at (nat_cmp site.0)) stores.now.rows) }
    ensures room { result ≡ true → IsTrue (has_room nat_cmp stores.now.slots site.0) }
    ensures ordered { IsStrictlySortedBy nat_cmp (keys_of stores.now.rows) }
{
    match stores.get(&site.0) {
        Some(keeper) => keeper.faults() == 0,
        None => false,
    }
}

fn has_no_path(path: &Words) -> bool
    ensures { result ≡ has_no_path path.now }
{
    match path.as_str().as_bytes() {
        [] => true,
        _ => false,
    }
}

impl<K: Keeper> Outside for MemoryOutside<K> {
    ghost use Rattle.std.specs.Prelude.{IfErr, IfOk, List, OnErr, OnOk, Some, is_err, ℕ};
    ghost use Rattle.std.specs.Map.{remove_entry};
    ghost use Rattle.std.specs.BTreeMap.{insert_entry};
    ghost use Rattle.merge_types.specs.declared.identifiers.SiteId.{SiteId as Site};
    ghost use Rattle.merge_ports.specs.Faults.{one_more};
    ghost use Rattle.merge_ports.specs.Opened.{HasStoreCause, SameElsewhere, with_faults};
    ghost use Rattle.merge_ports.specs.Stores.{told_in, HasPlace, opening_fails};
    ghost use Rattle.merge_ports.specs.declared.outside.OpenFault.TheVariants.{Failed as failed};

    type Keep = K;

    ghost told = { λ o. told_in K.told o.stores.rows };

    ghost HasRoom = { λ o. HasPlace o.stores.slots };

    ghost counts = { λ o. o.counts };

    fn keeper(&mut self, site: SiteId, path: &Words) -> Result<K, OpenFault>
        ensures fails { is_err result ≡ opening_fails K.count self.old.failing self.old.calls path.now (lookup (is_at (nat_cmp site.0)) self.old.stores.rows) }
        ensures fault { IfErr result (λ fault. fault ≡ failed) }
        ensures map { IfOk result (λ keeper. K.told keeper ≡ told_in K.told self.old.stores.rows site path.now) }
        ensures fresh { IfOk result (λ keeper. K.count keeper ≡ 0) }
        ensures open { OnOk result (HasPlace self.new.stores.slots site path.now) }
        ensures others { SameElsewhere site path.now (told_in K.told self.old.stores.rows) (told_in K.told self.new.stores.rows) }
        ensures err { OnErr result (told_in K.told self.new.stores.rows site path.now ≡ told_in K.told self.old.stores.rows site path.now) }
        ensures still { (s : Site) (p : List ℕ) → HasPlace self.old.stores.slots s p → HasPlace self.new.stores.slots s p }
        ensures cause { HasStoreCause self.old.counts self.new.counts result }
        ensures given { IfOk result (λ keeper. lookup (is_at (nat_cmp site.0)) self.old.stores.rows ≡ Some keeper) }
        ensures left { OnOk result (self.new.stores.rows ≡ remove_entry (is_at (nat_cmp site.0)) self.old.stores.rows) }
        ensures stays { OnErr result (self.new.stores ≡ self.old.stores) }
        ensures slots { self.new.stores.slots ≡ self.old.stores.slots }
        ensures rest { self.new ≡ record self.old { stores = self.new.stores; calls = one_more self.old.calls; counts = self.new.counts } }
        ensures kept { OnOk result (self.new.counts ≡ self.old.counts) }
        ensures counted { OnErr result (self.new.counts ≡ with_faults 1 self.old.counts) }
    {
        let call = self.calls;
        self.calls = self.calls.saturating_add(1);
        let is_listed = self.failing.as_slice().contains(&call);
        if !is_listed && has_no_path(path) && is_fresh(&self.stores, site) {
            if let Some(keeper) = self.stores.take(&site.0) {
                return Ok(keeper);
            }
        }
        self.counts.stores = self.counts.stores.saturating_add(1);
        Err(OpenFault::Failed)
    }

    fn keeper_back(&mut self, site: SiteId, _path: &Words, keeper: K)
        requires { HasPlace self.old.stores.slots site _path.now }
        ensures map { told_in K.told self.new.stores.rows site _path.now ≡ K.told keeper }
        ensures others { SameElsewhere site _path.now (told_in K.told self.old.stores.rows) (told_in K.told self.new.stores.rows) }
        ensures still { (s : Site) (p : List ℕ) → HasPlace self.old.stores.slots s p → HasPlace self.new.stores.slots s p }
        ensures put { self.new.stores.rows ≡ insert_entry nat_cmp self.old.stores.rows site.0 keeper }
        ensures slots { self.new.stores.slots ≡ self.old.stores.slots }
        ensures rest { self.new ≡ record self.old { stores = self.new.stores; counts = with_faults (K.count keeper) self.old.counts } }
    {
        let faults = keeper.faults();
        self.counts.stores = self.counts.stores.saturating_add(faults);
        self.stores.put(&site.0, keeper);
    }

    fn faults(&self) -> Counts {
        self.counts
    }
}
