//! Ranges, the grants of them, and what is asked and answered.
use merge_types::{Exact, Listing, NoMemory, SiteId};
use thiserror::Error;

/// The values from one to another, both of them in.
#[derive(Clone, Copy, Debug, PartialEq, Eq)]
pub struct Range {
    pub begin: i64,
    pub end: i64,
}

/// A range that a site got. The grants of an article to a site are numbered from 1.
#[derive(Clone, Copy, Debug, PartialEq, Eq)]
pub struct Grant {
    pub article: u8,
    pub site: SiteId,
    pub number: u64,
    pub range: Range,
}

/// All grants of a book.
pub type Grants = Listing<Grant>;

/// How the values of an article's identity column are given out: from `seed` to `greatest`, in
/// ranges of `range` values for a subscriber and of `pub_range` values for the publisher.
#[derive(Clone, Copy, Debug, PartialEq, Eq)]
pub struct Rule {
    pub article: u8,
    pub seed: i64,
    pub range: u32,
    pub pub_range: u32,
    pub greatest: i64,
}

/// The rules of the articles that have an identity column.
pub type Rules = Listing<Rule>;

/// A site asks for a range of an article. It heard of `have` grants.
#[derive(Clone, Copy, Debug, PartialEq, Eq)]
pub struct Ask {
    pub site: SiteId,
    pub article: u8,
    pub have: u64,
    pub due: bool,
}

/// What a site is told.
#[derive(Clone, Copy, Debug, PartialEq, Eq)]
pub enum GrantAnswer {
    /// The next range of the article is the site's.
    Granted { number: u64, range: Range },
    /// A grant that the site did not hear of.
    Kept { number: u64, range: Range },
    /// The site has heard of all its grants and needs no other.
    NotDue,
}

/// Why a site gets no range.
#[derive(Clone, Copy, Debug, PartialEq, Eq, Error)]
pub enum IdentityFault {
    /// The next range would pass the greatest value. `next` may be 2^63.
    #[error("no range from {next} to {greatest}")]
    NoRange { next: u64, greatest: i64 },
    /// The site says that it heard of more grants than it got.
    #[error("only {granted} granted")]
    TooMany { granted: u64 },
    /// The allocator refused a growth.
    #[error("no memory")]
    NoMemory,
}

impl From<NoMemory> for IdentityFault {
    ghost use Rattle.std.specs.Prelude.{◌≡◌};
    ghost use Rattle.merge_ident.specs.declared.grants.IdentityFault.TheVariants as fault;

    ghost from_gives = { λ _ e. e ≡ fault.NoMemory };

    fn from(_: NoMemory) -> Self {
        IdentityFault::NoMemory
    }
}

/// What a call of the book answers.
pub type Answer = Result<GrantAnswer, IdentityFault>;

/// An ask with its answer, for which a book has taken the memory.
#[derive(Clone, Copy, Debug, PartialEq, Eq)]
pub struct GrantPlan {
    pub ask: Ask,
    pub answer: Answer,
}

/// The asks of one step with their answers, one after the other.
pub type GrantPlans = Listing<GrantPlan>;

impl Exact for Range {
    ghost use Rattle.std.proofs.Common.{rules};

    ghost exact = { Prim.search rules };
}

impl Exact for Grant {
    ghost use Rattle.std.proofs.Common.{rules};

    ghost exact = { Prim.search rules };
}

impl Exact for Rule {
    ghost use Rattle.std.proofs.Common.{rules};

    ghost exact = { Prim.search rules };
}
