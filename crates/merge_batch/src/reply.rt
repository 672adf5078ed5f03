//! What the publisher answers.
ghost use Rattle.std.specs.Prelude.{◌≡◌, false, IfOk, IsOk};
ghost use Rattle.std.specs.Option.{option_copied};
ghost use Rattle.merge_units.specs.Version.{cells_of};
ghost use Rattle.merge_batch.specs.Heads.{answered_seq, answered_kind};
ghost use Rattle.merge_batch.specs.Orders.{order_by, is_put};

use crate::Kind;
use merge_lineage::Lineage;
use merge_types::{Exact, Listing, NoMemory, RowId};
use merge_units::{Body, Cells, Version};
use std::alloc::{AllocError, Global};

/// The answer to a message. Each but a refusal carries the sequence number of its message.
#[derive(Debug, Drop)]
pub enum Reply {
    Joined(Joined),
    Uploaded(Uploaded),
    Ranged(Ranged),
    Downloaded(Downloaded),
    /// The number of a refusal, and its fields in order.
    Refused { number: u8, values: Listing<u64> },
}

/// The site has joined.
#[derive(Clone, Copy, Debug, PartialEq, Eq)]
pub struct Joined {
    pub seq: u64,
}

/// The generations of the site up to `received` were taken.
#[derive(Clone, Copy, Debug, PartialEq, Eq)]
pub struct Uploaded {
    pub seq: u64,
    pub received: u64,
}

/// Ranges for the site, and the articles that have none left.
#[derive(Debug, Drop)]
pub struct Ranged {
    pub seq: u64,
    pub grants: RangeGrants,
    pub ended: EndedRanges,
}

/// A range of an article, with its number among the ranges that the site got of it.
#[derive(Clone, Copy, Debug, PartialEq, Eq)]
pub struct RangeGrant {
    /// The place of the article in the publication.
    pub article: u8,
    pub number: u64,
    pub begin: i64,
    pub end: i64,
}

/// The ranges that a site is told of.
pub type RangeGrants = Listing<RangeGrant>;

/// An article whose next range would pass its greatest value. `next` may be 2^63.
#[derive(Clone, Copy, Debug, PartialEq, Eq)]
pub struct Ended {
    /// The place of the article in the publication.
    pub article: u8,
    pub next: u64,
    pub greatest: i64,
}

/// The articles that have no range left.
pub type EndedRanges = Listing<Ended>;

/// What to do with the rows that changed for the site in the generations above `from`, up to `to`.
#[derive(Debug, Drop)]
pub struct Downloaded {
    pub seq: u64,
    pub from: u64,
    pub to: u64,
    /// The last closed generation of the publisher.
    pub last: u64,
    /// The last generation of the site that the publisher took.
    pub received: u64,
    /// By article and row, each row once.
    pub items: DownloadItems,
}

/// What to do with a row.
#[derive(Debug, Drop)]
pub struct DownloadItem {
    /// The place of the article in the publication.
    pub article: u8,
    pub row: RowId,
    pub act: Act,
}

/// The items of a download.
pub type DownloadItems = Listing<DownloadItem>;

/// What a subscriber does with a row.
#[derive(Debug, Drop)]
pub enum Act {
    /// The row lives in the site's partition: this version takes its place.
    Put { lineage: Lineage, live: Cells },
    /// The row was deleted: a tombstone of type 1.
    RemoveDeleted,
    /// The row lives outside the site's partition: a tombstone of type 5.
    RemoveLeft,
}

impl Reply {
    /// The sequence number of the message that is answered. A refusal has none.
    pub fn seq(&self) -> Option<u64>
        ensures { result ≡ answered_seq self.now }
    {
        match self {
            Reply::Joined(joined) => Some(joined.seq),
            Reply::Uploaded(uploaded) => Some(uploaded.seq),
            Reply::Ranged(ranged) => Some(ranged.seq),
            Reply::Downloaded(downloaded) => Some(downloaded.seq),
            Reply::Refused { .. } => None,
        }
    }

    /// The form of the reply: that of the message that it answers, or a refusal.
    pub fn kind(&self) -> Kind
        ensures { result ≡ answered_kind self.now }
    {
        match self {
            Reply::Joined(_) => Kind::Join,
            Reply::Uploaded(_) => Kind::Upload,
            Reply::Ranged(_) => Kind::Ranges,
            Reply::Downloaded(_) => Kind::Download,
            Reply::Refused { .. } => Kind::Refused,
        }
    }
}

impl Act {
    /// What a site does with a row of which the publisher holds this version, if any: whether it is
    /// in the site's partition decides between putting it and removing it.
    pub fn by(alloc: Global, is_in: bool, version: Option<&Version>) -> Result<Act, NoMemory>
        ensures order { IfOk result (λ act. act ≡ order_by is_in (option_copied version.entry)) }

        // What takes no memory is not refused.
        ensures nothing { is_put is_in (option_copied version.entry) ≡ false → IsOk result }
    {
        let Some(version) = version else {
            return Ok(Act::RemoveDeleted);
        };
        if is_in {
            return Ok(Act::Put {
                lineage: version.lineage.clone()?,
                live: cells(alloc, &version.body)?,
            });
        }
        if version.is_live() {
            return Ok(Act::RemoveLeft);
        }
        Ok(Act::RemoveDeleted)
    }
}

// The cells of a row, which are none where it was deleted.
fn cells(alloc: Global, body: &Body) -> Result<Cells, NoMemory>
    ensures { IfOk result (λ cells. cells ≡ cells_of body.now) }
{
    match body {
        Body::Live(cells) => Ok(cells.clone()?),
        Body::Dead(_) => Ok(Listing::empty(alloc)),
    }
}

impl Clone for Reply {
    ghost use Rattle.std.specs.Prelude.{◌≡◌};

    ghost is_clone = { λ old new. new ≡ old };

    fn clone(&self) -> Result<Reply, AllocError> {
        match self {
            Reply::Joined(joined) => Ok(Reply::Joined(*joined)),
            Reply::Uploaded(uploaded) => Ok(Reply::Uploaded(*uploaded)),
            Reply::Ranged(ranged) => Ok(Reply::Ranged(ranged.clone()?)),
            Reply::Downloaded(downloaded) => Ok(Reply::Downloaded(downloaded.clone()?)),
            Reply::Refused { number, values } => Ok(Reply::Refused {
                number: *number,
                values: values.clone()?,
            }),
        }
    }
}

impl Exact for Reply {
    ghost exact = { λ value copy same. same };
}

impl Exact for Joined {
    ghost use Rattle.std.proofs.Common.{rules};

    ghost exact = { Prim.search rules };
}

impl Exact for Uploaded {
    ghost use Rattle.std.proofs.Common.{rules};

    ghost exact = { Prim.search rules };
}

impl Clone for Ranged {
    ghost use Rattle.std.specs.Prelude.{◌≡◌};

    ghost is_clone = { λ old new. new ≡ old };

    fn clone(&self) -> Result<Ranged, AllocError> {
        Ok(Ranged {
            seq: self.seq,
            grants: self.grants.clone()?,
            ended: self.ended.clone()?,
        })
    }
}

impl Exact for Ranged {
    ghost exact = { λ value copy same. same };
}

impl Exact for RangeGrant {
    ghost use Rattle.std.proofs.Common.{rules};

    ghost exact = { Prim.search rules };
}

impl Exact for Ended {
    ghost use Rattle.std.proofs.Common.{rules};

    ghost exact = { Prim.search rules };
}

impl Clone for Downloaded {
    ghost use Rattle.std.specs.Prelude.{◌≡◌};

    ghost is_clone = { λ old new. new ≡ old };

    fn clone(&self) -> Result<Downloaded, AllocError> {
        Ok(Downloaded {
            seq: self.seq,
            from: self.from,
            to: self.to,
            last: self.last,
            received: self.received,
            items: self.items.clone()?,
        })
    }
}

impl Exact for Downloaded {
    ghost exact = { λ value copy same. same };
}

impl Clone for DownloadItem {
    ghost use Rattle.std.specs.Prelude.{◌≡◌};

    ghost is_clone = { λ old new. new ≡ old };

    fn clone(&self) -> Result<DownloadItem, AllocError> {
        Ok(DownloadItem {
            article: self.article,
            row: self.row,
            act: self.act.clone()?,
        })
    }
}

impl Exact for DownloadItem {
    ghost exact = { λ value copy same. same };
}

impl Clone for Act {
    ghost use Rattle.std.specs.Prelude.{◌≡◌};

    ghost is_clone = { λ old new. new ≡ old };

    fn clone(&self) -> Result<Act, AllocError> {
        match self {
            Act::Put { lineage, live } => Ok(Act::Put {
                lineage: lineage.clone()?,
                live: live.clone()?,
            }),
            Act::RemoveDeleted => Ok(Act::RemoveDeleted),
            Act::RemoveLeft => Ok(Act::RemoveLeft),
        }
    }
}

impl Exact for Act {
    ghost exact = { λ value copy same. same };
}
