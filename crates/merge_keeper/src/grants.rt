//! The grants of a start so far.
ghost use Rattle.std.specs.Prelude.{◌≡◌, [], true, IfOk, OnOk};
ghost use Rattle.merge_ident.specs.Stored.{can_follow};
ghost use Rattle.merge_keeper.specs.Grants.{begin_of, grants_in, IsIndex};
ghost use Rattle.merge_keeper.specs.Start.{insert_by_begin};

use merge_ident::{Grant, Grants, SeenGrants};
use merge_types::NoMemory;
use std::alloc::Global;
use std::collections::BTreeMap;

/// Where a range of an article begins.
#[derive(Clone, Copy, Debug, PartialEq, Eq, PartialOrd, Ord)]
pub struct Begin {
    pub article: u8,
    pub begin: i64,
}

/// Grants by article and begin, beside what tells whether another one can follow them. A question
/// and a grant more cost the logarithm of their number.
#[derive(Debug, Drop)]
pub struct GrantsSoFar {
    seen: SeenGrants,
    by_begin: BTreeMap<Begin, Grant>,
}

fn begin_of(grant: Grant) -> Begin
    ensures { result ≡ begin_of grant }
{
    Begin {
        article: grant.article,
        begin: grant.range.begin,
    }
}

impl GrantsSoFar {
    pub(crate) fn new(alloc: Global) -> GrantsSoFar
        ensures none { grants_in result ≡ [] }
        ensures index { IsIndex result }
    {
        GrantsSoFar {
            seen: SeenGrants::new(alloc),
            by_begin: BTreeMap::new(alloc),
        }
    }

    pub(crate) fn can_follow(&self, grant: Grant) -> bool
        requires { IsIndex self.now }
        ensures { result ≡ can_follow (grants_in self.now) grant }
    {
        let _ = &self.by_begin;
        self.seen.can_follow(grant)
    }

    /// Takes up a grant that can follow.
    pub(crate) fn add(&mut self, grant: Grant) -> Result<(), NoMemory>
        requires index { IsIndex self.old }
        requires follows { can_follow (grants_in self.old) grant ≡ true }
        ensures grants { OnOk result (grants_in self.new ≡ insert_by_begin (grants_in self.old) grant) }
        ensures index { OnOk result (IsIndex self.new) }
    {
        self.seen.add(grant)?;
        self.by_begin.insert(begin_of(grant), grant)?;
        Ok(())
    }

    /// The grants, by article and begin.
    pub(crate) fn list(&self, alloc: Global) -> Result<Grants, NoMemory>
        ensures { IfOk result (λ grants. grants ≡ grants_in self.now) }
    {
        let mut grants = Grants::empty(alloc);
        for grant in self.by_begin.values() {
            grants.push(*grant)?;
        }
        Ok(grants)
    }
}
