//! The rules that an article may choose.
ghost use Rattle.std.specs.Prelude.{◌≡◌};
ghost use Rattle.merge_resolve.specs.Choices.{place_of};

/// A rule that comes with the product. A program hands its objects in in this order, and its own
/// behind them.
#[derive(Clone, Copy, Debug, PartialEq, Eq)]
pub enum ResolverChoice {
    Priority,
    Maximum,
    Minimum,
    Additive,
    SubscriberWins,
}

impl ResolverChoice {
    /// Its place in the list of resolvers, by which articles name it.
    pub fn place(self) -> u8
        ensures { result ≡ place_of self }
    {
        match self {
            ResolverChoice::Priority => 0,
            ResolverChoice::Maximum => 1,
            ResolverChoice::Minimum => 2,
            ResolverChoice::Additive => 3,
            ResolverChoice::SubscriberWins => 4,
        }
    }
}
