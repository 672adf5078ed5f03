//! Sets of subscribers.
ghost use Rattle.std.specs.Prelude.{◌≡◌, ◌<◌, ◌==◌, ◌||◌, ℕ, true, false, IsTrue};
ghost use Rattle.merge_part.specs.Sites.{has_site};

use merge_types::Exact;

/// A set of subscribers, each by its place in the publication, as the bits of a word.
#[derive(Clone, Copy, Debug, PartialEq, Eq)]
pub struct Sites(pub u64);

impl Exact for Sites {
    ghost use Rattle.std.proofs.Common.{rules};

    ghost exact = { Prim.search rules };
}

impl Sites {
    /// No subscriber.
    pub fn none() -> Self
        ensures is { result ≡ record { 0 = 0 } }
        ensures empty { (place : ℕ) → has_site result place ≡ false }
    {
        Sites(0)
    }

    /// Whether the subscriber at the place is among these.
    pub fn contains(self, place: usize) -> bool
        requires { place < 64 }
        ensures { result ≡ has_site self place }
    {
        (self.0 >> place) & 1 == 1
    }

    /// The subscribers of both sets.
    pub fn union(self, other: Sites) -> Self
        ensures { (place : ℕ) → has_site result place ≡ (has_site self place || has_site other place) }
    {
        Sites(self.0 | other.0)
    }

    /// Whether each subscriber of the other set is among these.
    pub fn covers(self, other: Sites) -> bool
        ensures { IsTrue result → (place : ℕ) → has_site other place ≡ true → has_site self place ≡ true }
    {
        self.0 | other.0 == self.0
    }

    /// The set with one subscriber more.
    pub fn with(self, place: usize) -> Self
        requires { place < 64 }
        ensures { (other : ℕ) → has_site result other ≡ (other == place || has_site self other) }
    {
        Sites(self.0 | (1 << place))
    }
}
