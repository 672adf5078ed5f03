//! Publications: the articles that are published, and who subscribes to them.
ghost use Rattle.std.specs.Prelude.{◌≡◌, IfOk};

use merge_filter::Filter;
use merge_types::{Column, Exact, HostName, Listing, NoMemory, SiteId, Tracking, Words};
use std::alloc::AllocError;

/// Whether a subscriber's versions weigh by a priority of its own.
#[derive(Clone, Copy, Debug, PartialEq, Eq)]
pub enum SubscriptionKind {
    Server,
    Client,
}

/// A subscriber: its site, the host that it runs on, and what its versions weigh in a conflict.
#[derive(Debug, Drop, PartialEq, Eq)]
pub struct Subscription {
    pub site: SiteId,
    pub host: HostName,
    pub kind: SubscriptionKind,
    /// 0 to 9999, and 0 for a client.
    pub priority: u16,
}

/// A join filter: a row follows the live rows of the parent article whose column has the value of
/// its own. Columns are places in their article, and the parent is a place in the publication.
#[derive(Clone, Copy, Debug, PartialEq, Eq)]
pub struct JoinFilter {
    pub column: u8,
    pub parent: u8,
    pub parent_column: u8,
}

/// The identity column of an article, by its place, and the ranges that its values come from.
#[derive(Clone, Copy, Debug, PartialEq, Eq)]
pub struct Identity {
    pub column: u8,
    /// The first value that is granted.
    pub seed: i64,
    /// How many values a subscriber is granted at once.
    pub range: u32,
    /// How many values the publisher is granted at once.
    pub pub_range: u32,
    /// How much of a range is used, in percent, when the next is asked for.
    pub threshold: u8,
    /// The last value that may be granted.
    pub greatest: i64,
}

/// A table that is published.
#[derive(Drop)]
pub struct Article {
    pub name: Words,
    pub columns: Listing<Column>,
    pub tracking: Tracking,
    pub filter: Option<Filter>,
    pub joins: Listing<JoinFilter>,
    pub identity: Option<Identity>,
    /// A place in the list of resolvers.
    pub resolver: u8,
    /// The place of the column by which the resolver decides.
    pub resolver_column: Option<u8>,
}

/// What a publication file says.
#[derive(Drop)]
pub struct Publication {
    pub name: Words,
    pub retention_days: u32,
    pub conflict_retention_days: u32,
    pub articles: Listing<Article>,
    pub subscriptions: Listing<Subscription>,
}

impl Publication {
    /// An equal publication.
    pub fn copy(&self) -> Result<Publication, NoMemory>
        ensures { IfOk result (λ publication. publication ≡ self.now) }
    {
        Ok(self.clone()?)
    }
}

// A copy of a value, where there is one.
fn copy_if_some<T: Exact>(value: &Option<T>) -> Result<Option<T>, AllocError>
    ensures { IfOk result (λ copy. copy ≡ value.now) }
{
    match value {
        None => Ok(None),
        Some(value) => Ok(Some(value.clone()?)),
    }
}

impl Clone for Subscription {
    ghost use Rattle.std.specs.Prelude.{◌≡◌};

    ghost is_clone = { λ old new. new ≡ old };

    fn clone(&self) -> Result<Subscription, AllocError> {
        Ok(Subscription {
            site: self.site,
            host: self.host.clone()?,
            kind: self.kind,
            priority: self.priority,
        })
    }
}

impl Clone for Article {
    ghost use Rattle.std.specs.Prelude.{◌≡◌};

    ghost is_clone = { λ old new. new ≡ old };

    fn clone(&self) -> Result<Article, AllocError> {
        Ok(Article {
            name: self.name.clone()?,
            columns: self.columns.clone()?,
            tracking: self.tracking,
            filter: copy_if_some(&self.filter)?,
            joins: self.joins.clone()?,
            identity: self.identity,
            resolver: self.resolver,
            resolver_column: self.resolver_column,
        })
    }
}

impl Clone for Publication {
    ghost use Rattle.std.specs.Prelude.{◌≡◌};

    ghost is_clone = { λ old new. new ≡ old };

    fn clone(&self) -> Result<Publication, AllocError> {
        Ok(Publication {
            name: self.name.clone()?,
            retention_days: self.retention_days,
            conflict_retention_days: self.conflict_retention_days,
            articles: self.articles.clone()?,
            subscriptions: self.subscriptions.clone()?,
        })
    }
}

impl Exact for Subscription {
    ghost exact = { λ value copy same. same };
}

impl Exact for Article {
    ghost exact = { λ value copy same. same };
}

impl Exact for Publication {
    ghost exact = { λ value copy same. same };
}

impl Exact for SubscriptionKind {
    ghost use Rattle.std.proofs.Common.{rules};

    ghost exact = { Prim.search rules };
}

impl Exact for JoinFilter {
    ghost use Rattle.std.proofs.Common.{rules};

    ghost exact = { Prim.search rules };
}

impl Exact for Identity {
    ghost use Rattle.std.proofs.Common.{rules};

    ghost exact = { Prim.search rules };
}
