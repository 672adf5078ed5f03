//! What the tables of a publication file say, before the names in them are looked up.
use crate::publication::{Identity, Subscription};
use merge_types::{Column, Listing, Tracking, Words};

/// A join filter, by names.
#[derive(Drop)]
pub struct JoinDraft {
    pub column: Words,
    pub parent: Words,
    pub parent_column: Words,
}

/// An article, with its filter as text and its joins and resolver column by name.
#[derive(Drop)]
pub struct ArticleDraft {
    pub name: Words,
    pub tracking: Tracking,
    pub filter: Option<Words>,
    pub resolver: u8,
    pub resolver_column: Option<Words>,
    pub columns: Listing<Column>,
    pub identity: Option<Identity>,
    pub joins: Listing<JoinDraft>,
}

/// A publication file's tables.
#[derive(Drop)]
pub struct Draft {
    pub name: Words,
    pub retention_days: u32,
    pub conflict_retention_days: u32,
    pub articles: Listing<ArticleDraft>,
    pub subscriptions: Listing<Subscription>,
}
