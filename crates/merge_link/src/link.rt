//! What carries requests to a publisher.
ghost use Rattle.std.specs.Prelude.{◌≡◌, ◌+◌, ◌∷◌, ◌++◌, [], ℕ, List, None, Some, true, false, drop, option_map, IfOk, IsErrOf, OnOk, OnErr};
ghost use Rattle.std.specs.declared.option.Option.{Option};
ghost use Rattle.merge_ports.specs.Faults.{one_more};
ghost use Rattle.merge_link.specs.Carried.{HasLinkCause, before_response, must_fail, with_exchange};
ghost use Rattle.merge_link.specs.declared.link.Exchange.{Exchange as Carried};
ghost use Rattle.merge_link.specs.declared.link.LinkFault.TheVariants.{Failed as failed, NoMemory as no_memory};

use merge_types::{Exact, Listing, NoMemory, Octets, Words};
use std::alloc::{AllocError, Global};
use std::snapshot::Snapshot;
use thiserror::Error;

/// Why a link gave no response.
#[derive(Clone, Copy, Debug, PartialEq, Eq, Error)]
pub enum LinkFault {
    /// The peer could not be reached, or no response came whole, and the link's count of faults rose.
    #[error("link fault")]
    Failed,
    #[error("no memory")]
    NoMemory,
}

impl From<NoMemory> for LinkFault {
    ghost use Rattle.std.specs.Prelude.{◌≡◌};
    ghost use Rattle.merge_link.specs.declared.link.LinkFault.TheVariants.{NoMemory as no_memory};

    ghost from_gives = { λ _ fault. fault ≡ no_memory };

    fn from(_: NoMemory) -> Self {
        LinkFault::NoMemory
    }
}

impl From<AllocError> for LinkFault {
    ghost use Rattle.std.specs.Prelude.{◌≡◌};
    ghost use Rattle.merge_link.specs.declared.link.LinkFault.TheVariants.{NoMemory as no_memory};

    ghost from_gives = { λ _ fault. fault ≡ no_memory };

    fn from(_: AllocError) -> Self {
        LinkFault::NoMemory
    }
}

/// One request, and the response that came to it.
#[derive(Debug, Drop, PartialEq, Eq)]
pub struct Exchange {
    pub request: Octets,
    pub response: Octets,
}

/// What carries requests to a publisher, and its responses back.
pub trait Link {
    /// The responses that are to come, where the link tells them.
    ghost coming: { Self → Option (List (List ℕ)) };

    /// The exchanges so far, where the link tells them.
    ghost exchanges: { Self → Option (List Carried) };

    /// How often a call has failed. It never falls, and stays once it is the greatest u64.
    ghost count: { Self → ℕ };

    /// The address at which it asks, if it has one.
    ghost peer: { Self → Option (List ℕ) };

    /// Sends the bytes of one request, and gives all bytes of its response. They need be no message.
    /// A request that was refused may have come to the peer.
    fn ask(&mut self, request: &[u8]) -> Result<Octets, LinkFault>
        ensures response { IfOk result (λ response. coming self.old ≡ before_response response (coming self.new)) }
        ensures exchange { IfOk result (λ response. exchanges self.new ≡ with_exchange request.now response (exchanges self.old)) }
        ensures waiting { OnErr result (coming self.new ≡ coming self.old) }
        ensures same { OnErr result (exchanges self.new ≡ exchanges self.old) }
        ensures peer { peer self.new ≡ peer self.old }
        ensures cause { HasLinkCause (count self.old) (count self.new) result };

    /// How often a call has failed.
    fn faults(&self) -> u64
        ensures { result ≡ count self.now };
}

/// A link that gives the responses of a list. The calls whose numbers are listed, counted from 0,
/// fail, and so does each call behind the end of the responses.
#[derive(Drop)]
pub struct MemoryLink {
    pub responses: Listing<Octets>,
    /// How many of the responses were given.
    pub given: usize,
    pub exchanges: Listing<Exchange>,
    pub failing: Listing<u64>,
    /// How many calls there were.
    pub calls: u64,
    pub faults: u64,
    pub alloc: Global,
    /// The address at which it asks, if it was given one. It does not look at it.
    pub peer: Option<Snapshot<Words>>,
}

impl MemoryLink {
    /// A link without an address, which was asked nothing yet.
    pub fn new(alloc: Global, responses: Listing<Octets>, failing: Listing<u64>) -> Self
        ensures { result ≡ record { responses = responses; given = 0; exchanges = []; failing = failing; calls = 0; faults = 0; alloc = alloc; peer = None } }
    {
        MemoryLink {
            responses,
            given: 0,
            exchanges: Listing::empty(alloc),
            failing,
            calls: 0,
            faults: 0,
            alloc,
            peer: None,
        }
    }

    // Keeps an exchange.
    fn keep(&mut self, request: &[u8], response: &Octets) -> Result<(), NoMemory>
        ensures ok { OnOk result (self.new ≡ record self.old { exchanges = self.old.exchanges ++ record { request = request.now; response = response.now } ∷ [] }) }
        ensures err { OnErr result (self.new ≡ self.old) }
    {
        let mut kept = Octets::empty(self.alloc);
        kept.extend(request)?;
        self.exchanges.push(Exchange {
            request: kept,
            response: response.clone()?,
        })?;
        Ok(())
    }
}

impl Link for MemoryLink {
    ghost coming = { λ l. Some (drop l.given l.responses) };

    ghost exchanges = { λ l. Some l.exchanges };

    ghost count = { λ l. l.faults };

    ghost peer = { λ l. option_map (λ s. s.value) l.peer };

    fn ask(&mut self, request: &[u8]) -> Result<Octets, LinkFault>
        ensures response { IfOk result (λ response. Some (drop self.old.given self.old.responses) ≡ before_response response (Some (drop self.new.given self.new.responses))) }
        ensures exchange { IfOk result (λ response. Some self.new.exchanges ≡ with_exchange request.now response (Some self.old.exchanges)) }
        ensures waiting { OnErr result (Some (drop self.new.given self.new.responses) ≡ Some (drop self.old.given self.old.responses)) }
        ensures same { OnErr result (Some self.new.exchanges ≡ Some self.old.exchanges) }
        ensures peer { option_map (λ s. s.value) self.new.peer ≡ option_map (λ s. s.value) self.old.peer }
        ensures cause { HasLinkCause self.old.faults self.new.faults result }
        ensures tried { OnOk result (must_fail self.old.failing self.old.calls self.old.responses self.old.given ≡ false) }
        ensures failed { IsErrOf result failed → must_fail self.old.failing self.old.calls self.old.responses self.old.given ≡ true }
        ensures counted { IsErrOf result failed → self.new ≡ record self.old { calls = one_more self.old.calls; faults = one_more self.old.faults } }
        ensures lacking { IsErrOf result no_memory → must_fail self.old.failing self.old.calls self.old.responses self.old.given ≡ false }
        ensures starved { IsErrOf result no_memory → self.new ≡ record self.old { calls = one_more self.old.calls } }
        ensures kept { IfOk result (λ response. self.new ≡ record self.old { given = self.old.given + 1; exchanges = self.old.exchanges ++ record { request = request.now; response = response } ∷ []; calls = one_more self.old.calls }) }
    {
        let call = self.calls;
        self.calls = self.calls.saturating_add(1);
        if self.failing.as_slice().contains(&call) || self.given >= self.responses.len() {
            self.faults = self.faults.saturating_add(1);
            return Err(LinkFault::Failed);
        }
        let response = self.responses.as_slice()[self.given].clone()?;
        self.keep(request, &response)?;
        self.given += 1;
        Ok(response)
    }

    fn faults(&self) -> u64 {
        self.faults
    }
}
