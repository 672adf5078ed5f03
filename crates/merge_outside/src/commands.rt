//! What opens the texts, links and clocks of commands.
ghost use Rattle.std.specs.Prelude.{◌≡◌, ℕ, List, IfOk, IfSome, OnErr, Some, []};
ghost use Rattle.merge_types.specs.declared.identifiers.SiteId.{SiteId as Site};
ghost use Rattle.merge_outside.specs.Offers.{Offers as Offered, HasTextCause, with_text_faults, with_link_faults};

use merge_link::{Clock, Link};
use merge_ports::{OpenFault, Outside, Source};
use merge_types::{NoMemory, Words};

/// Opens what commands need beyond stores: texts, a link and a clock, and takes texts and links back.
///
/// What is opened has no faults yet. Faults of an opened text or link are counted as it is given
/// back. Nothing is said of what the calls on stores leave of the offers, so a caller opens its
/// texts, clock and link before its keepers, and gives the link back behind them.
pub trait CommandOutside: Outside {
    type In: Source + Drop;

    type Line: Link + Drop;

    type Timer: Clock;

    /// What the outside tells of its texts, links and clocks.
    ghost offers: { Self → Offered };

    /// Opens the text at a path, of which nothing is read yet.
    fn text(&mut self, path: &Words) -> Result<Self::In, OpenFault>
        ensures left { IfOk result (λ text. Self.In.left text ≡ (offers self.old).texts path.now) }
        ensures fresh { IfOk result (λ text. Self.In.count text ≡ 0) }
        ensures same { offers self.new ≡ offers self.old }
        ensures stores { Self.told self.new ≡ Self.told self.old }
        ensures still { (s : Site) (p : List ℕ) → Self.HasRoom self.old s p → Self.HasRoom self.new s p }
        ensures cause { HasTextCause (Self.counts self.old) (Self.counts self.new) result };

    /// Takes a text back, and counts its faults. It takes no memory.
    fn text_back(&mut self, text: Self::In)
        ensures same { offers self.new ≡ offers self.old }
        ensures stores { Self.told self.new ≡ Self.told self.old }
        ensures still { (s : Site) (p : List ℕ) → Self.HasRoom self.old s p → Self.HasRoom self.new s p }
        ensures counts { Self.counts self.new ≡ with_text_faults (Self.In.count text) (Self.counts self.old) };

    /// Makes a link to the publisher at an address, which was asked nothing yet. What is no address shows
    /// as it is asked.
    fn link(&mut self, address: &Words) -> Result<Self::Line, NoMemory>
        ensures coming { IfOk result (λ link. Self.Line.coming link ≡ (offers self.old).responses) }
        ensures unasked { IfOk result (λ link. IfSome (Self.Line.exchanges link) (λ exchanges. exchanges ≡ [])) }
        ensures fresh { IfOk result (λ link. Self.Line.count link ≡ 0) }
        ensures peer { IfOk result (λ link. Self.Line.peer link ≡ Some address.now) }
        ensures others { offers self.new ≡ record (offers self.old) { responses = (offers self.new).responses } }
        ensures err { OnErr result (offers self.new ≡ offers self.old) }
        ensures stores { Self.told self.new ≡ Self.told self.old }
        ensures still { (s : Site) (p : List ℕ) → Self.HasRoom self.old s p → Self.HasRoom self.new s p }
        ensures counts { Self.counts self.new ≡ Self.counts self.old };

    /// Takes a link back: its exchanges and its address are told, and its faults are counted. It takes no
    /// memory.
    fn link_back(&mut self, link: Self::Line)
        ensures exchanges { offers self.new ≡ record (offers self.old) { exchanges = Self.Line.exchanges link; peer = Self.Line.peer link } }
        ensures stores { Self.told self.new ≡ Self.told self.old }
        ensures still { (s : Site) (p : List ℕ) → Self.HasRoom self.old s p → Self.HasRoom self.new s p }
        ensures counts { Self.counts self.new ≡ with_link_faults (Self.Line.count link) (Self.counts self.old) };

    /// A clock, which may be dropped.
    fn clock(&mut self) -> Self::Timer
        ensures moments { Self.Timer.told result ≡ (offers self.old).moments }
        ensures others { offers self.new ≡ record (offers self.old) { moments = (offers self.new).moments } }
        ensures stores { Self.told self.new ≡ Self.told self.old }
        ensures still { (s : Site) (p : List ℕ) → Self.HasRoom self.old s p → Self.HasRoom self.new s p }
        ensures counts { Self.counts self.new ≡ Self.counts self.old };
}
