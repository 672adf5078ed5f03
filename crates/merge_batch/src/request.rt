//! What a subscriber asks of the publisher.
ghost use Rattle.std.specs.Prelude.{◌≡◌};
ghost use Rattle.merge_batch.specs.Heads.{site_of, seq_of, kind_of};

use merge_types::{Exact, Listing, RowId, SiteId};
use merge_units::Version;
use std::alloc::AllocError;

/// A message of a subscriber. Each carries its site and the next sequence number of that site.
#[derive(Debug, Drop)]
pub enum Request {
    Join(Join),
    Upload(Upload),
    Ranges(RangeAsk),
    Download(Download),
}

/// The site begins anew: it holds no row, and what it had not sent is given up.
#[derive(Clone, Copy, Debug, PartialEq, Eq)]
pub struct Join {
    pub site: SiteId,
    pub seq: u64,
    /// The last closed generation of the site.
    pub generation: u64,
    /// The last change number of the site.
    pub number: u64,
}

/// The rows that changed at the site in the generations above `from`, up to `to`.
#[derive(Debug, Drop)]
pub struct Upload {
    pub site: SiteId,
    pub seq: u64,
    pub from: u64,
    pub to: u64,
    /// The last change number of generation `to`.
    pub through: u64,
    /// By article and row, each row once.
    pub items: UploadItems,
}

/// A row as the site has it now, and the last generation of the batch in which it changed there.
#[derive(Debug, Drop)]
pub struct UploadItem {
    /// The place of the article in the publication.
    pub article: u8,
    pub row: RowId,
    pub generation: u64,
    pub version: Version,
}

/// The items of an upload.
pub type UploadItems = Listing<UploadItem>;

/// The site asks for identity ranges of all articles that have an identity column.
#[derive(Debug, Drop)]
pub struct RangeAsk {
    pub site: SiteId,
    pub seq: u64,
    pub wants: Wants,
}

/// How many ranges of an article the site heard of, and whether it is due for another.
#[derive(Clone, Copy, Debug, PartialEq, Eq)]
pub struct Want {
    /// The place of the article in the publication.
    pub article: u8,
    pub have: u64,
    pub due: bool,
}

/// What is wanted of each article.
pub type Wants = Listing<Want>;

/// The site asks for the rows that changed for it at the publisher in the generations above `from`.
#[derive(Clone, Copy, Debug, PartialEq, Eq)]
pub struct Download {
    pub site: SiteId,
    pub seq: u64,
    pub from: u64,
}

/// The form of a reply that is read: that of the request's own kind, or a refusal.
#[derive(Clone, Copy, Debug, PartialEq, Eq)]
pub enum Kind {
    Join,
    Upload,
    Ranges,
    Download,
    Refused,
}

/// The one message of a subscriber that is not answered yet, with what its reply is held against.
#[derive(Clone, Copy, Debug, PartialEq, Eq)]
pub enum Outstanding {
    Join,
    Upload { from: u64, to: u64 },
    Ranges,
    Download { from: u64 },
}

impl Request {
    /// The site that asks.
    pub fn site(&self) -> SiteId
        ensures { result ≡ site_of self.now }
    {
        match self {
            Request::Join(join) => join.site,
            Request::Upload(upload) => upload.site,
            Request::Ranges(ask) => ask.site,
            Request::Download(download) => download.site,
        }
    }

    /// The sequence number of the message among those of its site.
    pub fn seq(&self) -> u64
        ensures { result ≡ seq_of self.now }
    {
        match self {
            Request::Join(join) => join.seq,
            Request::Upload(upload) => upload.seq,
            Request::Ranges(ask) => ask.seq,
            Request::Download(download) => download.seq,
        }
    }

    /// The kind of reply that answers the message, where it is not refused.
    pub fn kind(&self) -> Kind
        ensures { result ≡ kind_of self.now }
    {
        match self {
            Request::Join(_) => Kind::Join,
            Request::Upload(_) => Kind::Upload,
            Request::Ranges(_) => Kind::Ranges,
            Request::Download(_) => Kind::Download,
        }
    }
}

impl Clone for Request {
    ghost use Rattle.std.specs.Prelude.{◌≡◌};

    ghost is_clone = { λ old new. new ≡ old };

    fn clone(&self) -> Result<Request, AllocError> {
        match self {
            Request::Join(join) => Ok(Request::Join(*join)),
            Request::Upload(upload) => Ok(Request::Upload(upload.clone()?)),
            Request::Ranges(ask) => Ok(Request::Ranges(ask.clone()?)),
            Request::Download(download) => Ok(Request::Download(*download)),
        }
    }
}

impl Exact for Request {
    ghost exact = { λ value copy same. same };
}

impl Exact for Join {
    ghost use Rattle.std.proofs.Common.{rules};

    ghost exact = { Prim.search rules };
}

impl Clone for Upload {
    ghost use Rattle.std.specs.Prelude.{◌≡◌};

    ghost is_clone = { λ old new. new ≡ old };

    fn clone(&self) -> Result<Upload, AllocError> {
        Ok(Upload {
            site: self.site,
            seq: self.seq,
            from: self.from,
            to: self.to,
            through: self.through,
            items: self.items.clone()?,
        })
    }
}

impl Exact for Upload {
    ghost exact = { λ value copy same. same };
}

impl Clone for UploadItem {
    ghost use Rattle.std.specs.Prelude.{◌≡◌};

    ghost is_clone = { λ old new. new ≡ old };

    fn clone(&self) -> Result<UploadItem, AllocError> {
        Ok(UploadItem {
            article: self.article,
            row: self.row,
            generation: self.generation,
            version: self.version.clone()?,
        })
    }
}

impl Exact for UploadItem {
    ghost exact = { λ value copy same. same };
}

impl Clone for RangeAsk {
    ghost use Rattle.std.specs.Prelude.{◌≡◌};

    ghost is_clone = { λ old new. new ≡ old };

    fn clone(&self) -> Result<RangeAsk, AllocError> {
        Ok(RangeAsk {
            site: self.site,
            seq: self.seq,
            wants: self.wants.clone()?,
        })
    }
}

impl Exact for RangeAsk {
    ghost exact = { λ value copy same. same };
}

impl Exact for Want {
    ghost use Rattle.std.proofs.Common.{rules};

    ghost exact = { Prim.search rules };
}

impl Exact for Download {
    ghost use Rattle.std.proofs.Common.{rules};

    ghost exact = { Prim.search rules };
}

impl Exact for Kind {
    ghost use Rattle.std.proofs.Common.{rules};

    ghost exact = { Prim.search rules };
}

impl Exact for Outstanding {
    ghost use Rattle.std.proofs.Common.{rules};

    ghost exact = { Prim.search rules };
}
