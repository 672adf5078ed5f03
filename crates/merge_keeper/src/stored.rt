//! What the sites store, as lists, and what a step changes of it.
use merge_batch::Outstanding;
use merge_conflict::{ConflictRow, ConflictRows};
use merge_gens::{Closings, Filling, Mapping, RowSite, SiteState};
use merge_ident::{Grants, Ranges};
use merge_table::Edit;
use merge_types::{Listing, Moment, RowKey, SiteId};
use merge_units::{PublisherRow, SubscriberRow};

/// The tables of the publisher. All lists ascend: rows by article and row, mappings by row and site,
/// grants by article and begin, the others by their number, article or site.
#[derive(Debug, Drop)]
pub struct PublisherStored {
    /// How many changes the site made.
    pub changes: u64,
    pub filling: Filling,
    /// The closed generations that are kept, with the moments at which they closed.
    pub closings: Closings,
    /// How many rows were added to the conflict table.
    pub conflict_count: u64,
    /// The greatest moment that a call was given that was not refused.
    pub latest: Moment,
    pub rows: Listing<(RowKey, PublisherRow)>,
    pub mappings: Listing<(RowSite, Mapping)>,
    pub conflicts: ConflictRows,
    pub grants: Grants,
    /// The publisher's own ranges, by article.
    pub held: Listing<(u8, Ranges)>,
    /// The subscribers that ever joined.
    pub sites: Listing<(u16, SiteState)>,
}

/// The tables of a subscriber, in the same orders.
#[derive(Debug, Drop)]
pub struct SubscriberStored {
    pub site: SiteId,
    pub changes: u64,
    pub filling: Filling,
    /// The closed generations above `received`, with the numbers of the last changes in them.
    pub closings: Closings,
    pub conflict_count: u64,
    pub latest: Moment,
    /// The number of the last message that was made.
    pub seq: u64,
    /// The message that is outstanding, with its number.
    pub outstanding: Option<(u64, Outstanding)>,
    /// The last own generation that the publisher has taken.
    pub received: u64,
    /// The last generation of the publisher that is held.
    pub watermark: u64,
    pub is_joined: bool,
    pub rows: Listing<(RowKey, SubscriberRow)>,
    pub conflicts: ConflictRows,
    pub held: Listing<(u8, Ranges)>,
}

/// What a step of the publisher changes: the numbers of its state as they are afterwards, and the
/// changes of each list. Of a closing the moment is put at its generation, and a conflict at its
/// number. Grants are added and ranges that are held are put, and neither is ever taken.
#[derive(Debug, Drop)]
pub struct PublisherChanges {
    pub changes: u64,
    pub filling: Filling,
    pub conflict_count: u64,
    pub latest: Moment,
    pub rows: Listing<Edit<RowKey, PublisherRow>>,
    pub mappings: Listing<Edit<RowSite, Mapping>>,
    pub closings: Listing<Edit<u64, Moment>>,
    pub conflicts: Listing<Edit<u64, ConflictRow>>,
    pub grants: Grants,
    pub held: Listing<(u8, Ranges)>,
    pub sites: Listing<Edit<u16, SiteState>>,
}

/// What a step of a subscriber changes, in the same way.
#[derive(Debug, Drop)]
pub struct SubscriberChanges {
    pub changes: u64,
    pub filling: Filling,
    pub conflict_count: u64,
    pub latest: Moment,
    pub seq: u64,
    pub outstanding: Option<(u64, Outstanding)>,
    pub received: u64,
    pub watermark: u64,
    pub is_joined: bool,
    pub rows: Listing<Edit<RowKey, SubscriberRow>>,
    pub closings: Listing<Edit<u64, Moment>>,
    pub conflicts: Listing<Edit<u64, ConflictRow>>,
    pub held: Listing<(u8, Ranges)>,
}
