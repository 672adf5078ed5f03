//! Keepers that are kept while their stores are not open.
ghost use Rattle.std.specs.Prelude.{◌≡◌, ◌<◌, IfOk, IfSome, OnOk, length, position, None, true};
ghost use Rattle.merge_outside.specs.Slots.{is_slot, kept_in, HasSlot, KeepsSlots, KeepsOthers};
ghost use Rattle.merge_types.specs.declared.identifiers.SiteId.{SiteId as Site};
ghost use Rattle.std.specs.Prelude.{List, ℕ};

use merge_types::{NoMemory, SiteId, Words};
use std::alloc::Global;
use std::mem;

/// The place of a store's keeper while the store is not open.
#[derive(Drop)]
pub(crate) struct Slot<K: Drop> {
    pub(crate) site: SiteId,
    pub(crate) path: Words,
    pub(crate) kept: Option<K>,
}

fn place_of<K: Drop>(slots: &[Slot<K>], site: SiteId, path: &Words) -> Option<usize>
    ensures place { result ≡ position (is_slot site path.now) slots.now }
    ensures within { IfSome result (λ place. place < length slots.now) }
{
    slots.iter().position(|slot| slot.site.0 == site.0 && slot.path.as_str() == path.as_str())
}

#[tactic(auto, using(crate::proofs::Kept::own_slot))]
fn empty_slot<K: Drop>(alloc: Global, site: SiteId, path: &Words) -> Result<Slot<K>, NoMemory>
    ensures own { IfOk result (λ slot. is_slot site path.now slot ≡ true) }
    ensures empty { IfOk result (λ slot. slot.kept ≡ None) }
{
    Ok(Slot {
        site,
        path: Words::of(alloc, path.as_str())?,
        kept: None,
    })
}

/// Makes an empty slot for a store that has none.
pub(crate) fn make_slot<K: Drop>(
    alloc: Global,
    slots: &mut Vec<Slot<K>>,
    site: SiteId,
    path: &Words,
) -> Result<(), NoMemory>
    ensures room { OnOk result (HasSlot slots.new.items site path.now) }
    ensures kept { (s : Site) (p : List ℕ) → kept_in slots.new.items s p ≡ kept_in slots.old.items s p }
    ensures still { KeepsSlots slots.old.items slots.new.items }
{
    if place_of(slots, site, path).is_none() {
        let slot = empty_slot(alloc, site, path)?;
        slots.push(slot)?;
    }
    Ok(())
}

/// Puts into the slot of a store what is kept of it from now on, and gives what was kept.
pub(crate) fn replace_kept<K: Drop>(
    slots: &mut Vec<Slot<K>>,
    site: SiteId,
    path: &Words,
    kept: Option<K>,
) -> Option<K>
    requires { HasSlot slots.old.items site path.now }
    ensures before { result ≡ kept_in slots.old.items site path.now }
    ensures after { kept_in slots.new.items site path.now ≡ kept }
    ensures others { KeepsOthers site path.now slots.old.items slots.new.items }
    ensures still { KeepsSlots slots.old.items slots.new.items }
{
    match place_of(slots, site, path) {
        Some(place) => mem::replace(&mut slots[place].kept, kept),
        None => unreachable!(),
    }
}
