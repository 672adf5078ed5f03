//! The program's outside.
ghost use Rattle.std.specs.Prelude.{◌≡◌, ◌*◌, [], Some, None, IfOk, IsErrOf, IsOk, OnErr, OnOk, option_map};
ghost use Rattle.std.specs.Duration.{as_nanos};
ghost use Rattle.merge_ports.specs.Opened.{HasStoreCause, SameElsewhere, with_faults};
ghost use Rattle.merge_ports.specs.declared.outside.OpenFault.TheVariants.{Failed as failed};
ghost use Rattle.merge_outside.specs.Offers.{HasTextCause, nothing_told, with_text_faults};
ghost use Rattle.merge_outside.specs.Slots.{HasSlot, KeepsOthers, KeepsSlots, kept_in, told_in, told_or, told_unkept};

use crate::clock::SystemClock;
use crate::commands::CommandOutside;
use crate::slots::{Slot, make_slot, replace_kept};
use crate::store::RealStore;
use crate::tcp::{TcpLink, Waits};
use crate::text::{FileText, open_text};
use merge_link::Link;
use merge_ports::{Counts, KeepFault, Keeper, OpenFault, Outside, Source};
use merge_types::{NoMemory, SiteId, Words};
use std::alloc::Global;
use std::snapshot::Snapshot;

/// The files, the clock and the network of the system.
///
/// A store with the empty path is in memory, and starts empty. Every other is the file at its path,
/// which is made where there is none. A file that another process holds cannot be opened.
#[derive(Drop)]
pub struct RealOutside {
    rt: HostRuntime,
    alloc: Global,
    slots: Vec<Slot<RealStore>>,
    counts: Counts,
    // The address of the link that was given back last.
    peer: Option<Snapshot<Words>>,
}

impl RealOutside {
    /// An outside that opened nothing yet.
    pub fn new(rt: HostRuntime) -> Self
        ensures runtime { result.rt ≡ rt }
        ensures counts { result.counts ≡ record { texts = 0; stores = 0; links = 0 } }
        ensures none { result.slots.items ≡ [] }
    {
        RealOutside {
            rt,
            alloc: rt.alloc(),
            slots: Vec::new(rt.alloc()),
            counts: Counts {
                texts: 0,
                stores: 0,
                links: 0,
            },
            peer: None,
        }
    }
}

fn file_store(rt: &HostRuntime, path: &Words) -> Result<RealStore, OpenFault>
    ensures told { IfOk result (λ store. ⟦<RealStore as Keeper>⟧.told store ≡ None) }
    ensures fresh { IfOk result (λ store. ⟦<RealStore as Keeper>⟧.count store ≡ 0) }
{
    match RealStore::in_file(rt, path.as_str()) {
        Ok(store) => Ok(store),
        Err(KeepFault::NoMemory) => Err(OpenFault::NoMemory),
        Err(KeepFault::Failed) => Err(OpenFault::Failed),
    }
}

// A store of which nothing is kept.
#[tactic(auto, using(crate::proofs::Kept::unkept_file))]
fn new_store(rt: &HostRuntime, path: &Words) -> Result<RealStore, OpenFault>
    ensures told { IfOk result (λ store. ⟦<RealStore as Keeper>⟧.told store ≡ told_unkept path.now) }
    ensures fresh { IfOk result (λ store. ⟦<RealStore as Keeper>⟧.count store ≡ 0) }
    ensures memory { path.now ≡ [] → IsOk result }
{
    if path.is_empty() {
        return Ok(RealStore::in_memory(rt.alloc()));
    }
    file_store(rt, path)
}

// A store that is kept is handed out while it has no faults, as an opened store must.
fn open_slot(
    rt: &HostRuntime,
    slots: &mut Vec<Slot<RealStore>>,
    site: SiteId,
    path: &Words,
) -> Result<RealStore, OpenFault>
    requires { HasSlot slots.old.items site path.now }
    ensures map { IfOk result (λ store. ⟦<RealStore as Keeper>⟧.told store ≡ told_in ⟦<RealStore as Keeper>⟧.told slots.old.items site path.now) }
    ensures fresh { IfOk result (λ store. ⟦<RealStore as Keeper>⟧.count store ≡ 0) }
    ensures err { OnErr result (kept_in slots.new.items site path.now ≡ kept_in slots.old.items site path.now) }
    ensures memory { path.now ≡ [] → kept_in slots.old.items site path.now ≡ None → IsOk result }
    ensures others { KeepsOthers site path.now slots.old.items slots.new.items }
    ensures still { KeepsSlots slots.old.items slots.new.items }
{
    match replace_kept(slots, site, path, None) {
        None => new_store(rt, path),
        Some(store) if store.faults() == 0 => Ok(store),
        Some(store) => {
            let _ = replace_kept(slots, site, path, Some(store));
            Err(OpenFault::Failed)
        }
    }
}

// What is kept of a store that is given back: a file is closed.
fn kept_of(path: &Words, store: RealStore) -> Option<RealStore>
    ensures { told_or ⟦<RealStore as Keeper>⟧.told (told_unkept path.now) result ≡ ⟦<RealStore as Keeper>⟧.told store }
{
    if store.is_in_file() && !path.is_empty() {
        return None;
    }
    Some(store)
}

impl Outside for RealOutside {
    type Keep = RealStore;

    ghost told = { λ o. told_in ⟦<RealStore as Keeper>⟧.told o.slots.items };

    ghost HasRoom = { λ o. HasSlot o.slots.items };

    ghost counts = { λ o. o.counts };

    fn keeper(&mut self, site: SiteId, path: &Words) -> Result<RealStore, OpenFault>
        ensures map { IfOk result (λ store. ⟦<RealStore as Keeper>⟧.told store ≡ told_in ⟦<RealStore as Keeper>⟧.told self.old.slots.items site path.now) }
        ensures fresh { IfOk result (λ store. ⟦<RealStore as Keeper>⟧.count store ≡ 0) }
        ensures open { OnOk result (HasSlot self.new.slots.items site path.now) }
        ensures others { SameElsewhere site path.now (told_in ⟦<RealStore as Keeper>⟧.told self.old.slots.items) (told_in ⟦<RealStore as Keeper>⟧.told self.new.slots.items) }
        ensures err { OnErr result (told_in ⟦<RealStore as Keeper>⟧.told self.new.slots.items site path.now ≡ told_in ⟦<RealStore as Keeper>⟧.told self.old.slots.items site path.now) }
        ensures still { KeepsSlots self.old.slots.items self.new.slots.items }
        ensures cause { HasStoreCause self.old.counts self.new.counts result }
        ensures memory { path.now ≡ [] → kept_in self.old.slots.items site path.now ≡ None → IsErrOf result failed → ⊥ }
        ensures counted { IsErrOf result failed → self.new.counts ≡ with_faults 1 self.old.counts }
    {
        make_slot(self.alloc, &mut self.slots, site, path)?;
        let opened = open_slot(&self.rt, &mut self.slots, site, path);
        if let Err(OpenFault::Failed) = opened {
            self.counts.stores = self.counts.stores.saturating_add(1);
        }
        opened
    }

    fn keeper_back(&mut self, site: SiteId, path: &Words, keeper: RealStore) {
        self.counts.stores = self.counts.stores.saturating_add(keeper.faults());
        let _ = replace_kept(&mut self.slots, site, path, kept_of(path, keeper));
    }

    fn faults(&self) -> Counts {
        self.counts
    }
}

impl CommandOutside for RealOutside {
    type In = FileText;

    type Line = TcpLink;

    type Timer = SystemClock;

    ghost offers = { λ o. record nothing_told { peer = option_map (λ s. s.value) o.peer } };

    fn text(&mut self, path: &Words) -> Result<FileText, OpenFault>
        ensures fresh { IfOk result (λ text. text.reading.faults ≡ 0) }
        ensures cause { HasTextCause self.old.counts self.new.counts result }
        ensures counted { IsErrOf result failed → self.new.counts ≡ with_text_faults 1 self.old.counts }
        ensures kept { self.new ≡ record self.old { counts = self.new.counts } }
    {
        match open_text(&self.rt, path.as_str()) {
            Ok(text) => Ok(text),
            Err(OpenFault::NoMemory) => Err(OpenFault::NoMemory),
            Err(OpenFault::Failed) => {
                self.counts.texts = self.counts.texts.saturating_add(1);
                Err(OpenFault::Failed)
            }
        }
    }

    fn text_back(&mut self, text: FileText) {
        self.counts.texts = self.counts.texts.saturating_add(text.faults());
    }

    fn link(&mut self, address: &Words) -> Result<TcpLink, NoMemory>
        ensures runtime { IfOk result (λ link. link.rt ≡ self.old.rt) }
        ensures asks { IfOk result (λ link. link.address ≡ address.now) }
        ensures connect { IfOk result (λ link. as_nanos link.waits.to_connect ≡ 30 * 1_000_000_000) }
        ensures answer { IfOk result (λ link. as_nanos link.waits.to_answer ≡ 300 * 1_000_000_000) }
        ensures fresh { IfOk result (λ link. link.faults ≡ 0) }
        ensures kept { self.new ≡ self.old }
    {
        let address = Words::of(self.alloc, address.as_str())?;
        Ok(TcpLink::new(self.rt, address, Waits::usual()))
    }

    fn link_back(&mut self, link: TcpLink) {
        self.counts.links = self.counts.links.saturating_add(link.faults());
        self.peer = Some(Snapshot::of(&link.address));
    }

    fn clock(&mut self) -> SystemClock
        ensures made { result ≡ record { rt = self.old.rt; last = record { 0 = 0 } } }
        ensures kept { self.new ≡ self.old }
    {
        SystemClock::new(self.rt)
    }
}
