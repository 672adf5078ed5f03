//! Grants that were seen, by what finds those that another one meets.
ghost use Rattle.std.specs.Prelude.{◌≡◌, ◌∷◌, ◌++◌, [], List, OnOk, true};
ghost use Rattle.merge_ident.specs.Stored.{can_follow, has_values};
ghost use Rattle.merge_ident.specs.Seen.{IsSeen, ending_from, first_is_behind, fits, is_behind, is_next, last_at, last_of, stretch_of, taker_of};
ghost use Rattle.merge_ident.specs.declared.grants.Grant.{Grant as OneGrant};

use crate::{Grant, Range};
use merge_types::NoMemory;
use std::alloc::Global;
use std::collections::BTreeMap;

/// Where a range of an article ends.
#[derive(Clone, Copy, Debug, PartialEq, Eq, PartialOrd, Ord)]
pub struct End {
    pub article: u8,
    pub end: i64,
}

/// A site that has grants of an article.
#[derive(Clone, Copy, Debug, PartialEq, Eq, PartialOrd, Ord)]
pub struct Taker {
    pub article: u8,
    pub site: u16,
}

/// The number of a grant, and where its range ends.
#[derive(Clone, Copy, Debug, PartialEq, Eq)]
pub struct LastGrant {
    pub number: u64,
    pub end: i64,
}

/// The ranges by article and end, and the last grant of each article to each site. A question and a
/// change cost the logarithm of the number of grants.
#[derive(Debug, Drop)]
pub struct SeenGrants {
    pub ranges: BTreeMap<End, Range>,
    pub lasts: BTreeMap<Taker, LastGrant>,
}

impl SeenGrants {
    /// None yet.
    pub fn new(alloc: Global) -> Self
        ensures { IsSeen result.ranges.entries result.lasts.entries [] }
    {
        SeenGrants {
            ranges: BTreeMap::new(alloc),
            lasts: BTreeMap::new(alloc),
        }
    }

    /// Whether the grant can come behind those that were seen.
    pub fn can_follow(&self, grant: Grant) -> bool
        ensures { (before : List OneGrant) → IsSeen self.now.ranges.entries self.now.lasts.entries before → result ≡ can_follow before grant }
    {
        self.fits(grant)
    }

    /// Takes up a grant that can come behind those that were seen. Once memory was wanting the grants
    /// are to be let go: this one may be taken up in part.
    pub fn add(&mut self, grant: Grant) -> Result<(), NoMemory>
        ensures { OnOk result ((before : List OneGrant) → IsSeen self.old.ranges.entries self.old.lasts.entries before → can_follow before grant ≡ true → IsSeen self.new.ranges.entries self.new.lasts.entries (before ++ grant ∷ [])) }
    {
        self.ranges.insert(end_of(grant), grant.range)?;
        self.lasts.insert(taker_of(grant), last_of(grant))?;
        Ok(())
    }

    fn fits(&self, grant: Grant) -> bool
        ensures { result ≡ fits self.now.ranges.entries self.now.lasts.entries grant }
    {
        has_values(grant) && is_next(grant, self.last(grant)) && self.is_free(grant)
    }

    // The last grant of its article to its site.
    fn last(&self, grant: Grant) -> Option<LastGrant>
        ensures { result ≡ last_at self.now.lasts.entries grant.article grant.site.0 }
    {
        self.lasts.get(&taker_of(grant)).copied()
    }

    // Whether the first range that ends with a value of the grant or behind it is behind it.
    fn is_free(&self, grant: Grant) -> bool
        ensures { result ≡ first_is_behind grant (ending_from grant self.now.ranges.entries) }
    {
        let from = first_of(grant);
        match self.ranges.range(from..).next() {
            Some((end, range)) => is_behind(grant, *end, *range),
            None => true,
        }
    }
}

// The end of the least range that ends with the grant's first value or behind it.
fn first_of(grant: Grant) -> End
    ensures { result ≡ record { article = grant.article; end = grant.range.begin } }
{
    End {
        article: grant.article,
        end: grant.range.begin,
    }
}

fn end_of(grant: Grant) -> End
    ensures { result ≡ (stretch_of grant).0 }
{
    End {
        article: grant.article,
        end: grant.range.end,
    }
}

fn last_of(grant: Grant) -> LastGrant
    ensures { result ≡ last_of grant }
{
    LastGrant {
        number: grant.number,
        end: grant.range.end,
    }
}

fn taker_of(grant: Grant) -> Taker
    ensures { result ≡ taker_of grant }
{
    Taker {
        article: grant.article,
        site: grant.site.0,
    }
}

// Whether the range is of another article, or behind the grant.
fn is_behind(grant: Grant, end: End, range: Range) -> bool
    ensures { result ≡ is_behind grant (end, range) }
{
    end.article != grant.article || grant.range.end < range.begin
}

// Whether the grant has the next number, and begins behind the last one.
fn is_next(grant: Grant, last: Option<LastGrant>) -> bool
    ensures { result ≡ is_next grant last }
{
    match last {
        Some(last) => {
            grant.number != 0 && grant.number - 1 == last.number && last.end < grant.range.begin
        }
        None => grant.number == 1,
    }
}

// Whether the grant has values, from 1 on.
fn has_values(grant: Grant) -> bool
    ensures { result ≡ has_values grant }
{
    1 <= grant.range.begin && grant.range.begin <= grant.range.end
}
