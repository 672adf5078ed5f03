//! An outside in memory, for tests of commands.
ghost use Rattle.std.specs.Prelude.{◌≡◌, [], None, Some, true, false, IfOk, IfSome, IsErrOf, IsOk, OnErr, OnOk, is_none, option_copied, option_map};
ghost use Rattle.merge_ports.specs.Faults.{one_more};
ghost use Rattle.merge_ports.specs.declared.outside.OpenFault.TheVariants.{Failed as failed, NoMemory as no_memory};
ghost use Rattle.merge_outside.specs.Offers.{with_link_faults, with_text_faults};
ghost use Rattle.merge_outside.specs.Texts.{bytes_at, source_of, text_at, text_fails};

use crate::commands::CommandOutside;
use merge_link::{Exchange, Link, MemoryClock, MemoryLink};
use merge_ports::{Counts, Keeper, MemoryOutside, MemorySource, OpenFault, Outside, Source};
use merge_types::{Listing, Moment, NoMemory, Octets, SiteId, Words};
use std::alloc::Global;
use std::mem;
use std::snapshot::Snapshot;

/// A text at a path. The reads whose numbers are listed, counted from 0, fail.
#[derive(Debug, Drop)]
pub struct MemoryText {
    pub path: Words,
    pub bytes: Octets,
    pub failing: Listing<u64>,
}

/// An outside whose stores, texts, responses and moments are those that it is given. The openings of
/// texts whose numbers are listed, counted from 0, fail, and so do those of a path that no text has.
/// The first link and the first clock get the responses and the moments, later ones get none.
#[derive(Drop)]
pub struct MemoryCommands<K: Drop> {
    pub stores: MemoryOutside<K>,
    pub texts: Listing<MemoryText>,
    pub failing_texts: Listing<u64>,
    /// How many openings of texts there were.
    pub opened_texts: u64,
    pub responses: Listing<Octets>,
    /// The numbers of the asks that fail, for the first link.
    pub failing_asks: Listing<u64>,
    /// What the link carried that was given back last.
    pub exchanges: Listing<Exchange>,
    pub moments: Listing<Moment>,
    pub alloc: Global,
    /// The address of the link that was given back last.
    pub peer: Option<Snapshot<Words>>,
}

impl<K: Keeper> MemoryCommands<K> {
    /// An outside with these stores, and nothing else.
    pub fn new(alloc: Global, stores: MemoryOutside<K>) -> Self
        ensures { result ≡ record { stores = stores; texts = []; failing_texts = []; opened_texts = 0; responses = []; failing_asks = []; exchanges = []; moments = []; alloc = alloc; peer = None } }
    {
        MemoryCommands {
            stores,
            texts: Listing::empty(alloc),
            failing_texts: Listing::empty(alloc),
            opened_texts: 0,
            responses: Listing::empty(alloc),
            failing_asks: Listing::empty(alloc),
            exchanges: Listing::empty(alloc),
            moments: Listing::empty(alloc),
            alloc,
            peer: None,
        }
    }
}

fn text_at<'a>(texts: &'a [MemoryText], path: &Words) -> Option<&'a MemoryText>
    ensures { option_copied result ≡ text_at texts.now path.now }
{
    texts
        .iter()
        .find(|text| text.path.as_str() == path.as_str())
}

// The text of a list at a path, and none where the list has none.
fn source_at(texts: &[MemoryText], path: &Words) -> Result<Option<MemorySource>, NoMemory>
    ensures left { IfOk result (λ found. IfSome found (λ source. ⟦<MemorySource as Source>⟧.left source ≡ bytes_at texts.now path.now)) }
    ensures fresh { IfOk result (λ found. IfSome found (λ source. source.faults ≡ 0)) }
    ensures found { IfOk result (λ found. found ≡ option_map source_of (text_at texts.now path.now)) }
    ensures lacking { OnErr result (is_none (text_at texts.now path.now) ≡ false) }
{
    match text_at(texts, path) {
        Some(text) => {
            let bytes = text.bytes.clone()?;
            Ok(Some(MemorySource::new(bytes, text.failing.clone()?)))
        }
        None => Ok(None),
    }
}

impl<K: Keeper> Outside for MemoryCommands<K> {
    ghost use Rattle.std.specs.Prelude.{IfErr, List, is_err, ℕ};
    ghost use Rattle.std.specs.Map.{lookup, remove_entry};
    ghost use Rattle.std.specs.BTreeMap.{insert_entry, is_at};
    ghost use Rattle.std.specs.Ordering.{nat_cmp};
    ghost use Rattle.merge_types.specs.declared.identifiers.SiteId.{SiteId as Site};
    ghost use Rattle.merge_ports.specs.Opened.{HasStoreCause, SameElsewhere, with_faults};
    ghost use Rattle.merge_ports.specs.Stores.{HasPlace, opening_fails, told_in};

    type Keep = K;

    ghost told = { λ o. ⟦<MemoryOutside<K> as Outside>⟧.told o.stores };

    ghost HasRoom = { λ o. ⟦<MemoryOutside<K> as Outside>⟧.HasRoom o.stores };

    ghost counts = { λ o. o.stores.counts };

    fn keeper(&mut self, site: SiteId, path: &Words) -> Result<K, OpenFault>
        ensures map { IfOk result (λ keeper. K.told keeper ≡ told_in K.told self.old.stores.stores.rows site path.now) }
        ensures fresh { IfOk result (λ keeper. K.count keeper ≡ 0) }
        ensures open { OnOk result (HasPlace self.new.stores.stores.slots site path.now) }
        ensures others { SameElsewhere site path.now (told_in K.told self.old.stores.stores.rows) (told_in K.told self.new.stores.stores.rows) }
        ensures err { OnErr result (told_in K.told self.new.stores.stores.rows site path.now ≡ told_in K.told self.old.stores.stores.rows site path.now) }
        ensures still { (s : Site) (p : List ℕ) → HasPlace self.old.stores.stores.slots s p → HasPlace self.new.stores.stores.slots s p }
        ensures cause { HasStoreCause self.old.stores.counts self.new.stores.counts result }
        ensures fails { is_err result ≡ opening_fails K.count self.old.stores.failing self.old.stores.calls path.now (lookup (is_at (nat_cmp site.0)) self.old.stores.stores.rows) }
        ensures fault { IfErr result (λ fault. fault ≡ failed) }
        ensures given { IfOk result (λ keeper. lookup (is_at (nat_cmp site.0)) self.old.stores.stores.rows ≡ Some keeper) }
        ensures left { OnOk result (self.new.stores.stores.rows ≡ remove_entry (is_at (nat_cmp site.0)) self.old.stores.stores.rows) }
        ensures stays { OnErr result (self.new.stores.stores ≡ self.old.stores.stores) }
        ensures slots { self.new.stores.stores.slots ≡ self.old.stores.stores.slots }
        ensures calls { self.new.stores ≡ record self.old.stores { stores = self.new.stores.stores; calls = one_more self.old.stores.calls; counts = self.new.stores.counts } }
        ensures kept { OnOk result (self.new.stores.counts ≡ self.old.stores.counts) }
        ensures counted { OnErr result (self.new.stores.counts ≡ with_faults 1 self.old.stores.counts) }
        ensures rest { self.new ≡ record self.old { stores = self.new.stores } }
    {
        self.stores.keeper(site, path)
    }

    fn keeper_back(&mut self, site: SiteId, path: &Words, keeper: K)
        requires { HasPlace self.old.stores.stores.slots site path.now }
        ensures map { told_in K.told self.new.stores.stores.rows site path.now ≡ K.told keeper }
        ensures others { SameElsewhere site path.now (told_in K.told self.old.stores.stores.rows) (told_in K.told self.new.stores.stores.rows) }
        ensures still { (s : Site) (p : List ℕ) → HasPlace self.old.stores.stores.slots s p → HasPlace self.new.stores.stores.slots s p }
        ensures put { self.new.stores.stores.rows ≡ insert_entry nat_cmp self.old.stores.stores.rows site.0 keeper }
        ensures slots { self.new.stores.stores.slots ≡ self.old.stores.stores.slots }
        ensures counts { self.new.stores.counts ≡ with_faults (K.count keeper) self.old.stores.counts }
        ensures rest { self.new ≡ record self.old { stores = record self.old.stores { stores = self.new.stores.stores; counts = self.new.stores.counts } } }
    {
        self.stores.keeper_back(site, path, keeper);
    }

    fn faults(&self) -> Counts {
        self.stores.counts
    }
}

impl<K: Keeper> CommandOutside for MemoryCommands<K> {
    ghost use Rattle.std.specs.Prelude.{Some, drop};

    type In = MemorySource;

    type Line = MemoryLink;

    type Timer = MemoryClock;

    ghost offers = { λ o. record { texts = bytes_at o.texts; responses = Some o.responses; exchanges = Some o.exchanges; moments = Some (record { coming = o.moments; last = record { 0 = 0 } }); peer = option_map (λ s. s.value) o.peer } };

    fn text(&mut self, path: &Words) -> Result<MemorySource, OpenFault>
        ensures tried { OnOk result (text_fails self.old.failing_texts self.old.opened_texts self.old.texts path.now ≡ false) }
        ensures opened { IfOk result (λ source. option_map source_of (text_at self.old.texts path.now) ≡ Some source) }
        ensures kept { OnOk result (self.new ≡ record self.old { opened_texts = one_more self.old.opened_texts }) }
        ensures failed { IsErrOf result failed → text_fails self.old.failing_texts self.old.opened_texts self.old.texts path.now ≡ true }
        ensures counted { IsErrOf result failed → self.new ≡ record self.old { opened_texts = one_more self.old.opened_texts; stores = record self.old.stores { counts = with_text_faults 1 self.old.stores.counts } } }
        ensures lacking { IsErrOf result no_memory → text_fails self.old.failing_texts self.old.opened_texts self.old.texts path.now ≡ false }
        ensures starved { IsErrOf result no_memory → self.new ≡ record self.old { opened_texts = one_more self.old.opened_texts } }
    {
        let call = self.opened_texts;
        self.opened_texts = self.opened_texts.saturating_add(1);
        if !self.failing_texts.as_slice().contains(&call) {
            if let Some(source) = source_at(self.texts.as_slice(), path)? {
                return Ok(source);
            }
        }
        self.stores.counts.texts = self.stores.counts.texts.saturating_add(1);
        Err(OpenFault::Failed)
    }

    fn text_back(&mut self, text: MemorySource)
        ensures kept { self.new ≡ record self.old { stores = record self.old.stores { counts = with_text_faults text.faults self.old.stores.counts } } }
    {
        self.stores.counts.texts = self.stores.counts.texts.saturating_add(text.faults());
    }

    fn link(&mut self, address: &Words) -> Result<MemoryLink, NoMemory>
        ensures ok { IsOk result }
        ensures peer { IfOk result (λ link. option_map (λ s. s.value) link.peer ≡ Some address.now) }
        ensures made { IfOk result (λ link. link ≡ record { responses = self.old.responses; given = 0; exchanges = []; failing = self.old.failing_asks; calls = 0; faults = 0; alloc = self.old.alloc; peer = link.peer }) }
        ensures kept { self.new ≡ record self.old { responses = []; failing_asks = [] } }
    {
        let responses = mem::replace(&mut self.responses, Listing::empty(self.alloc));
        let failing = mem::replace(&mut self.failing_asks, Listing::empty(self.alloc));
        let mut link = MemoryLink::new(self.alloc, responses, failing);
        link.peer = Some(Snapshot::of(address));
        Ok(link)
    }

    fn link_back(&mut self, link: MemoryLink)
        ensures kept { self.new ≡ record self.old { exchanges = link.exchanges; peer = link.peer; stores = record self.old.stores { counts = with_link_faults link.faults self.old.stores.counts } } }
    {
        self.stores.counts.links = self.stores.counts.links.saturating_add(link.faults());
        self.exchanges = link.exchanges;
        self.peer = link.peer;
    }

    fn clock(&mut self) -> MemoryClock
        ensures made { result ≡ record { moments = self.old.moments; given = 0; last = record { 0 = 0 } } }
        ensures kept { self.new ≡ record self.old { moments = [] } }
    {
        MemoryClock::new(mem::replace(&mut self.moments, Listing::empty(self.alloc)))
    }
}
