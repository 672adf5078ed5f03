//! What opens stores and takes them back.
ghost use Rattle.std.specs.Prelude.{◌≡◌, ℕ, List, IfOk, OnOk, OnErr};
ghost use Rattle.std.specs.declared.option.Option.{Option};
ghost use Rattle.merge_types.specs.declared.identifiers.SiteId.{SiteId as Site};
ghost use Rattle.merge_ports.specs.Entries.{Map};
ghost use Rattle.merge_ports.specs.Opened.{HasStoreCause, with_faults, SameElsewhere};
ghost use Rattle.merge_ports.specs.declared.outside.Counts.{Counts as Tally};

use crate::Keeper;
use merge_types::{NoMemory, SiteId, Words};
use thiserror::Error;

/// How many faults there were, by kind. A count that is the greatest u64 stays there.
#[derive(Clone, Copy, Debug, PartialEq, Eq)]
pub struct Counts {
    pub texts: u64,
    pub stores: u64,
    pub links: u64,
}

/// Why nothing was opened.
#[derive(Clone, Copy, Debug, PartialEq, Eq, Error)]
pub enum OpenFault {
    /// The count of faults of its kind rose.
    #[error("cannot be opened")]
    Failed,
    #[error("no memory")]
    NoMemory,
}

impl From<NoMemory> for OpenFault {
    ghost use Rattle.std.specs.Prelude.{◌≡◌};
    ghost use Rattle.merge_ports.specs.declared.outside.OpenFault.TheVariants.{NoMemory as no_memory};

    ghost from_gives = { λ _ fault. fault ≡ no_memory };

    fn from(_: NoMemory) -> Self {
        OpenFault::NoMemory
    }
}

/// Opens the stores of sites, and takes their keepers back.
///
/// A store is named by its site and by a path, which is empty where the program names none.
pub trait Outside {
    type Keep: Keeper;

    /// The map of a store that is not open, where the outside tells it.
    ghost told: { Self → Site → List ℕ → Option Map };

    /// Whether there is room for the keeper of a store, which its opening made.
    ghost HasRoom: { Self → Site → List ℕ → Type 0 };

    ghost counts: { Self → Tally };

    /// Opens a store. Its keeper has no faults yet.
    fn keeper(&mut self, site: SiteId, path: &Words) -> Result<Self::Keep, OpenFault>
        ensures map { IfOk result (λ keeper. Self.Keep.told keeper ≡ told self.old site path.now) }
        ensures fresh { IfOk result (λ keeper. Self.Keep.count keeper ≡ 0) }
        ensures open { OnOk result (HasRoom self.new site path.now) }
        ensures others { SameElsewhere site path.now (told self.old) (told self.new) }
        ensures err { OnErr result (told self.new site path.now ≡ told self.old site path.now) }
        ensures still { (s : Site) (p : List ℕ) → HasRoom self.old s p → HasRoom self.new s p }
        ensures cause { HasStoreCause (counts self.old) (counts self.new) result };

    /// Takes a keeper back: the store has its map, and its faults are counted. It takes no memory.
    fn keeper_back(&mut self, site: SiteId, path: &Words, keeper: Self::Keep)
        requires { HasRoom self.old site path.now }
        ensures map { told self.new site path.now ≡ Self.Keep.told keeper }
        ensures others { SameElsewhere site path.now (told self.old) (told self.new) }
        ensures still { (s : Site) (p : List ℕ) → HasRoom self.old s p → HasRoom self.new s p }
        ensures counts { counts self.new ≡ with_faults (Self.Keep.count keeper) (counts self.old) };

    /// How many faults there were.
    fn faults(&self) -> Counts
        ensures { result ≡ counts self.now };
}
