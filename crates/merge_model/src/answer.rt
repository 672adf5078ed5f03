//! What the events of a script are answered.
use merge_batch::Refusal;
use merge_conflict::ConflictRow;
use merge_gens::{Filling, Marks, SiteState};
use merge_ident::{Grant, Ranges};
use merge_types::{Listing, RowId, RowKey, SiteId, Value};

/// A live row of an article with its values, in the order of the columns.
#[derive(Debug, Drop)]
pub struct ShownRow {
    pub row: RowId,
    pub values: Listing<Value>,
}

/// The ranges of an article that a subscriber holds.
#[derive(Debug, Drop)]
pub struct HeldRanges {
    pub article: u8,
    pub ranges: Ranges,
}

/// What the publisher knows of a subscription: nothing, where its site never joined.
#[derive(Clone, Copy, Debug, PartialEq, Eq)]
pub struct SiteStanding {
    pub site: SiteId,
    pub state: Option<SiteState>,
}

/// The answer to an event. Articles are named by their places. Numbers stand in the order in which
/// they are printed.
#[derive(Debug, Drop)]
pub enum Answer {
    /// To a wait: the moment, in seconds.
    Now(u64),
    /// To an insert.
    RowMade(RowId),
    /// To an update, a delete and a restart.
    Fine,
    /// To a closing: the last closed generation.
    ClosedAt(u64),
    /// To a session that nothing ended.
    Done {
        /// How many uploads were answered.
        uploads: u64,
        /// How many downloads brought generations.
        downloads: u64,
        watermark: u64,
    },
    /// To a session that a refusal ended.
    Stopped {
        uploads: u64,
        downloads: u64,
        refusal: Refusal,
    },
    /// A message with this number entered the pool.
    Sent(u64),
    /// The site has no such message to make.
    Nothing,
    /// A reply acted.
    Applied,
    /// A reply did nothing: its number and the outstanding one.
    Ignored {
        seq: u64,
        outstanding: u64,
    },
    /// The pool has no message with this number.
    NoMessage(u64),
    /// A site was made anew, and so many rows were discarded.
    Discarded(u64),
    Purged {
        tombstones: u64,
        mappings: u64,
        generations: u64,
    },
    /// The live rows of an article.
    Rows(Listing<ShownRow>),
    /// The rows of a partition.
    Partition(Listing<RowKey>),
    /// How many live rows each article has.
    Counts(Listing<u64>),
    Conflicts(Listing<ConflictRow>),
    /// The ranges that the publisher granted.
    Grants(Listing<Grant>),
    /// The ranges that a subscriber holds.
    Held(Listing<HeldRanges>),
    /// The generations of the publisher: how many closed ones it keeps, and what it knows of each
    /// subscription.
    OfPublisher {
        filling: Filling,
        kept: u64,
        sites: Listing<SiteStanding>,
    },
    /// The generations of a subscriber, and how many of its rows are unsent.
    OfSubscriber {
        marks: Marks,
        unsent: u64,
    },
    Refused(Refusal),
    /// A local change of this article was refused: columns are those of the article.
    RefusedIn {
        article: u8,
        refusal: Refusal,
    },
}
