//! Messages of a publication with one article, that has an identity column.
mod refusals;

use merge_batch::{
    Act, BrokenRule, Download, DownloadItem, DownloadItems, Downloaded, EndedRanges, HeardRanges,
    Holdings, Join, Joined, Kind, Outstanding, RangeAsk, RangeGrant, RangeGrants, Ranged, Reply,
    Request, Standing, Upload, UploadItem, UploadItems, Uploaded, Want, Wants, join_fault,
    ranges_fault, reply_fault, upload_fault,
};
use merge_gens::SiteState;
use merge_ident::{Grant, Range};
use merge_lineage::{Lineage, are_ascending};
use merge_schema::{Article, Identity, Publication, Subscription, SubscriptionKind};
use merge_types::{
    Column, ColumnType, Dot, HostName, Listing, RowId, SiteId, Tracking, Value, Values, Words,
};
use merge_units::{Body, Cell, Cells, Version};
use std::alloc::Global;
use std::test::Fail;

// The publisher made no change, took two generations of site 1 with its first seven changes, and
// granted it one range. Site 1 heard of it, and holds as its own what is asked of it.
struct Tables {
    state: SiteState,
    grant: Grant,
}

const TABLES: Tables = Tables {
    state: SiteState {
        joined_at: 1,
        received: 2,
        received_number: 7,
        seen: 7,
        watermark: 0,
        last_sync: 0,
    },
    grant: Grant {
        article: 0,
        site: SiteId(1),
        number: 1,
        range: Range { begin: 1, end: 10 },
    },
};

const OWN: Standing = Standing {
    site: SiteId(1),
    changes: 8,
    closed: 4,
    received: 2,
};

impl Holdings for Tables {
    ghost use Rattle.std.specs.Prelude.{◌==◌, if◌then◌else◌, Some, None, [], ◌∷◌};

    ghost known = { λ t. record { changes = 0; state = λ site. if site == 1 then Some t.state else None; grants = t.grant ∷ []; identity = λ article row. None } };

    fn changes(&self) -> u64 {
        0
    }

    fn state(&self, site: SiteId) -> Option<SiteState> {
        if site.0 == 1 { Some(self.state) } else { None }
    }

    fn identity(&self, _article: u8, _row: RowId) -> Option<i64> {
        None
    }

    fn has_granted(&self, article: u8, site: SiteId, value: i64) -> bool {
        let grant = self.grant;
        grant.article == article
            && grant.site.0 == site.0
            && grant.range.begin <= value
            && value <= grant.range.end
    }

    fn granted(&self, article: u8, site: SiteId) -> u64 {
        if self.grant.article == article && self.grant.site.0 == site.0 {
            1
        } else {
            0
        }
    }
}

impl HeardRanges for Tables {
    ghost use Rattle.std.specs.Prelude.{◌==◌, if◌then◌else◌, Some, None};

    ghost heard = { λ t article. if article == 0 then Some 1 else None };

    fn have(&self, article: u8) -> Option<u64> {
        if article == 0 { Some(1) } else { None }
    }
}

fn column(alloc: Global, name: &str, ty: ColumnType) -> Result<Column, Fail> {
    Ok(Column {
        name: Words::of(alloc, name)?,
        ty,
    })
}

fn ticket(alloc: Global) -> Result<Article, Fail> {
    let mut columns = Listing::empty(alloc);
    columns.push(column(alloc, "no", ColumnType::Int)?)?;
    columns.push(column(alloc, "note", ColumnType::Text)?)?;
    Ok(Article {
        name: Words::of(alloc, "ticket")?,
        columns,
        tracking: Tracking::Row,
        filter: None,
        joins: Listing::empty(alloc),
        identity: Some(Identity {
            column: 0,
            seed: 1,
            range: 10,
            pub_range: 10,
            threshold: 80,
            greatest: 1000,
        }),
        resolver: 0,
        resolver_column: None,
    })
}

fn publication(alloc: Global) -> Result<Publication, Fail> {
    let mut articles = Listing::empty(alloc);
    articles.push(ticket(alloc)?)?;
    let mut subscriptions = Listing::empty(alloc);
    subscriptions.push(Subscription {
        site: SiteId(1),
        host: HostName(Words::of(alloc, "h1")?),
        kind: SubscriptionKind::Client,
        priority: 0,
    })?;
    Ok(Publication {
        name: Words::of(alloc, "first")?,
        retention_days: 14,
        conflict_retention_days: 14,
        articles,
        subscriptions,
    })
}

// The site's eighth change, which made the ticket of each message, and its ninth, which the ticket's
// version does not know.
const EIGHTH: Dot = Dot {
    site: SiteId(1),
    number: 8,
};

const NINTH: Dot = Dot {
    site: SiteId(1),
    number: 9,
};

// No change has the number 0, and none is of a site that is not there: a lineage knows both.
const NO_CHANGE: Dot = Dot {
    site: SiteId(1),
    number: 0,
};

const NO_SITE: Dot = Dot {
    site: SiteId(500),
    number: 0,
};

fn lineage(alloc: Global) -> Result<Lineage, Fail> {
    let dots = [EIGHTH];
    if !are_ascending(&dots) {
        return Err(Fail::from("sites do not ascend"));
    }
    Ok(Lineage::restore(dots.to_vec(alloc)?))
}

// The cells of a ticket with a number.
fn cells(alloc: Global, top: Dot, number: i64) -> Result<Cells, Fail> {
    let mut values = Values::empty(alloc);
    values.push(Value::Int(number))?;
    values.push(Value::Null)?;
    let mut cells = Cells::empty(alloc);
    cells.push(Cell { top, values })?;
    Ok(cells)
}

// What a version tells of the ticket: the change that set its one cell, and the number there, or the
// change that deleted it.
#[derive(Clone, Copy)]
enum Given {
    Live(Dot, i64),
    Dead(Dot),
}

fn version(alloc: Global, given: Given) -> Result<Version, Fail> {
    let lineage = lineage(alloc)?;
    let body = match given {
        Given::Live(top, number) => Body::Live(cells(alloc, top, number)?),
        Given::Dead(top) => Body::Dead(top),
    };
    Ok(Version { lineage, body })
}

// An upload of the one ticket: its first and its last generation, the last change number, and the
// generation of the ticket.
#[derive(Clone, Copy)]
struct Sent {
    interval: (u64, u64, u64),
    generation: u64,
    ticket: Given,
}

fn upload(alloc: Global, sent: &Sent) -> Result<Upload, Fail> {
    let version = version(alloc, sent.ticket)?;
    let mut items = UploadItems::empty(alloc);
    items.push(UploadItem {
        article: 0,
        row: RowId::of(EIGHTH),
        generation: sent.generation,
        version,
    })?;
    let (from, to, through) = sent.interval;
    Ok(Upload {
        site: SiteId(1),
        seq: 9,
        from,
        to,
        through,
        items,
    })
}

// The place of the item and the rule that are told.
type Broken = Option<(u64, u8)>;

fn is_broken(fault: Option<BrokenRule>, broken: Broken) -> bool {
    match (fault, broken) {
        (Some(rule), Some(told)) => (rule.item, rule.rule) == told,
        (None, None) => true,
        _ => false,
    }
}

const FIVE: Given = Given::Live(EIGHTH, 5);

const SENT: Sent = Sent {
    interval: (2, 4, 9),
    generation: 3,
    ticket: FIVE,
};

const UPLOADS: &[(&str, Sent, Broken)] = &[
    ("no rule", SENT, None),
    (
        "no generation",
        Sent {
            interval: (4, 4, 9),
            generation: 3,
            ticket: FIVE,
        },
        Some((0, 1)),
    ),
    (
        "101 generations",
        Sent {
            interval: (2, 103, 9),
            generation: 3,
            ticket: FIVE,
        },
        Some((0, 2)),
    ),
    (
        "the last change number falls",
        Sent {
            interval: (2, 4, 6),
            generation: 3,
            ticket: FIVE,
        },
        Some((0, 4)),
    ),
    (
        "a generation before the first",
        Sent {
            interval: (2, 4, 9),
            generation: 2,
            ticket: FIVE,
        },
        Some((1, 8)),
    ),
    (
        "a number that was not granted",
        Sent {
            interval: (2, 4, 9),
            generation: 3,
            ticket: Given::Live(EIGHTH, 11),
        },
        Some((1, 12)),
    ),
    (
        "a delete",
        Sent {
            interval: (2, 4, 9),
            generation: 3,
            ticket: Given::Dead(EIGHTH),
        },
        None,
    ),
    (
        "a delete by no change",
        Sent {
            interval: (2, 4, 9),
            generation: 3,
            ticket: Given::Dead(NO_CHANGE),
        },
        Some((1, 9)),
    ),
    (
        "a delete by no change of no site",
        Sent {
            interval: (2, 4, 9),
            generation: 3,
            ticket: Given::Dead(NO_SITE),
        },
        Some((1, 9)),
    ),
    (
        "a cell by no change",
        Sent {
            interval: (2, 4, 9),
            generation: 3,
            ticket: Given::Live(NO_CHANGE, 5),
        },
        Some((1, 9)),
    ),
];

// Whether an upload, and a copy of its request, break this.
fn upload_breaks(
    alloc: Global,
    publication: &Publication,
    sent: &Sent,
    broken: Broken,
) -> Result<bool, Fail> {
    let upload = upload(alloc, sent)?;
    let fault = upload_fault(publication, &TABLES, &upload);
    let copy = Request::Upload(upload).clone()?;
    Ok(is_broken(fault, broken) && copy_breaks(publication, &copy, broken))
}

fn copy_breaks(publication: &Publication, copy: &Request, broken: Broken) -> bool {
    match copy {
        Request::Upload(upload) => { is_broken(upload_fault(publication, &TABLES, upload), broken) }
        _ => false,
    }
}

#[test]
fn uploads(rt: HostRuntime) -> Result<(), Fail> {
    let publication = publication(rt.alloc())?;
    for (shows, sent, broken) in UPLOADS {
        assert!(rt;
            upload_breaks(rt.alloc(), &publication, sent, *broken)?,
            "{shows}"
        );
    }
    Ok(())
}

const JOINS: &[(u64, Broken)] = &[(1, None), ((1 << 62) - 1, None), (1 << 62, Some((0, 4)))];

#[test]
fn joins(rt: HostRuntime) {
    for (number, broken) in JOINS {
        let join = Join {
            site: SiteId(1),
            seq: 1,
            generation: 0,
            number: *number,
        };
        assert!(rt; is_broken(join_fault(&join), *broken), "{number}");
    }
}

const WANTS: &[(u8, u64, Broken)] = &[(0, 1, None), (0, 2, Some((0, 13))), (1, 0, Some((0, 13)))];

// Whether an ask for a range, of an article of which the site heard of so many, breaks this.
fn ask_breaks(
    alloc: Global,
    publication: &Publication,
    article: u8,
    have: u64,
    broken: Broken,
) -> Result<bool, Fail> {
    let mut wants = Wants::empty(alloc);
    wants.push(Want {
        article,
        have,
        due: true,
    })?;
    let ask = RangeAsk {
        site: SiteId(1),
        seq: 9,
        wants,
    };
    Ok(is_broken(ranges_fault(publication, &TABLES, &ask), broken))
}

#[test]
fn range_requests(rt: HostRuntime) -> Result<(), Fail> {
    let publication = publication(rt.alloc())?;
    for (article, have, broken) in WANTS {
        assert!(rt;
            ask_breaks(rt.alloc(), &publication, *article, *have, *broken)?,
            "{article} {have}"
        );
    }
    Ok(())
}

// A reply to the site's ninth message.
#[derive(Clone, Copy)]
enum Answered {
    Joined,
    // Its last generation that was taken.
    Uploaded(u64),
    // The number of the range.
    Ranged(u64),
    // The change that set the ticket, and the last generation of the site that was taken.
    Downloaded(Dot, u64),
    Refused,
}

fn downloaded(alloc: Global, top: Dot, received: u64) -> Result<Downloaded, Fail> {
    let lineage = lineage(alloc)?;
    let live = cells(alloc, top, 5)?;
    let mut items = DownloadItems::empty(alloc);
    items.push(DownloadItem {
        article: 0,
        row: RowId::of(EIGHTH),
        act: Act::Put { lineage, live },
    })?;
    Ok(Downloaded {
        seq: 9,
        from: 3,
        to: 5,
        last: 7,
        received,
        items,
    })
}

fn ranged(alloc: Global, number: u64) -> Result<Ranged, Fail> {
    let mut grants = RangeGrants::empty(alloc);
    grants.push(RangeGrant {
        article: 0,
        number,
        begin: 11,
        end: 20,
    })?;
    Ok(Ranged {
        seq: 9,
        grants,
        ended: EndedRanges::empty(alloc),
    })
}

fn reply(alloc: Global, answered: Answered) -> Result<Reply, Fail> {
    match answered {
        Answered::Joined => Ok(Reply::Joined(Joined { seq: 9 })),
        Answered::Uploaded(received) => Ok(Reply::Uploaded(Uploaded { seq: 9, received })),
        Answered::Ranged(number) => Ok(Reply::Ranged(ranged(alloc, number)?)),
        Answered::Downloaded(top, received) => {
            Ok(Reply::Downloaded(downloaded(alloc, top, received)?))
        }
        Answered::Refused => Ok(Reply::Refused {
            number: 17,
            values: Listing::empty(alloc),
        }),
    }
}

const DOWNLOAD: Outstanding = Outstanding::Download { from: 3 };

const UPLOAD: Outstanding = Outstanding::Upload { from: 2, to: 4 };

const MISFIT: Broken = Some((0, 0));

const BAD_ITEM: Broken = Some((1, 0));

const REPLIES: &[(&str, Outstanding, Answered, Broken)] = &[
    (
        "a download",
        DOWNLOAD,
        Answered::Downloaded(EIGHTH, 2),
        None,
    ),
    (
        "less was taken than the site heard of",
        DOWNLOAD,
        Answered::Downloaded(EIGHTH, 1),
        MISFIT,
    ),
    (
        "more was taken than the site closed",
        DOWNLOAD,
        Answered::Downloaded(EIGHTH, 5),
        MISFIT,
    ),
    (
        "a top that is not known",
        DOWNLOAD,
        Answered::Downloaded(NINTH, 2),
        BAD_ITEM,
    ),
    (
        "a top that is no change",
        DOWNLOAD,
        Answered::Downloaded(NO_CHANGE, 2),
        BAD_ITEM,
    ),
    (
        "the next range",
        Outstanding::Ranges,
        Answered::Ranged(2),
        None,
    ),
    (
        "a range that was heard of",
        Outstanding::Ranges,
        Answered::Ranged(1),
        MISFIT,
    ),
    ("an upload", UPLOAD, Answered::Uploaded(4), None),
    (
        "an upload that was taken before",
        Outstanding::Upload { from: 0, to: 1 },
        Answered::Uploaded(1),
        MISFIT,
    ),
    ("a join", Outstanding::Join, Answered::Joined, None),
    ("a reply to a join", UPLOAD, Answered::Joined, MISFIT),
    ("a refusal", UPLOAD, Answered::Refused, None),
];

// Whether a reply, and its copy, break this.
fn reply_breaks(
    alloc: Global,
    publication: &Publication,
    outstanding: Outstanding,
    answered: Answered,
    broken: Broken,
) -> Result<bool, Fail> {
    let reply = reply(alloc, answered)?;
    let copy = reply.clone()?;
    let fault = reply_fault(publication, &OWN, &TABLES, outstanding, &reply);
    let of_copy = reply_fault(publication, &OWN, &TABLES, outstanding, &copy);
    Ok(is_broken(fault, broken) && is_broken(of_copy, broken))
}

#[test]
fn replies(rt: HostRuntime) -> Result<(), Fail> {
    let publication = publication(rt.alloc())?;
    for (shows, outstanding, answered, broken) in REPLIES {
        assert!(rt;
            reply_breaks(rt.alloc(), &publication, *outstanding, *answered, *broken)?,
            "{shows}"
        );
    }
    Ok(())
}

const HEADS: &[(Answered, Option<u64>, Kind)] = &[
    (Answered::Joined, Some(9), Kind::Join),
    (Answered::Uploaded(4), Some(9), Kind::Upload),
    (Answered::Ranged(2), Some(9), Kind::Ranges),
    (Answered::Refused, None, Kind::Refused),
];

// Whether a reply has this number and kind.
fn is_headed(
    alloc: Global,
    answered: Answered,
    seq: Option<u64>,
    kind: Kind,
) -> Result<bool, Fail> {
    let reply = reply(alloc, answered)?;
    Ok(reply.seq() == seq && reply.kind() == kind)
}

#[test]
fn heads_of_replies(rt: HostRuntime) -> Result<(), Fail> {
    for (answered, seq, kind) in HEADS {
        assert!(rt; is_headed(rt.alloc(), *answered, *seq, *kind)?, "{kind:?}");
    }
    Ok(())
}

fn has_head(request: &Request, seq: u64, kind: Kind) -> bool {
    request.site() == SiteId(1) && request.seq() == seq && request.kind() == kind
}

#[test]
fn heads_of_requests(rt: HostRuntime) -> Result<(), Fail> {
    let upload = Request::Upload(upload(rt.alloc(), &SENT)?);
    let download = Request::Download(Download {
        site: SiteId(1),
        seq: 4,
        from: 3,
    });
    assert!(rt; has_head(&upload, 9, Kind::Upload));
    assert!(rt; has_head(&download, 4, Kind::Download));
    assert!(rt; has_head(&download.clone()?, 4, Kind::Download));
    Ok(())
}

// What the site does with a row.
#[derive(Clone, Copy)]
enum Ordered {
    Put,
    RemoveDeleted,
    RemoveLeft,
}

const ORDERS: &[(&str, bool, Option<Given>, Ordered)] = &[
    ("a row in the partition", true, Some(FIVE), Ordered::Put),
    ("a row outside it", false, Some(FIVE), Ordered::RemoveLeft),
    (
        "a row that was deleted",
        false,
        Some(Given::Dead(EIGHTH)),
        Ordered::RemoveDeleted,
    ),
    ("no row", true, None, Ordered::RemoveDeleted),
];

fn order(alloc: Global, is_in: bool, held: Option<Given>) -> Result<Act, Fail> {
    match held {
        Some(given) => {
            let version = version(alloc, given)?;
            Ok(Act::by(alloc, is_in, Some(&version))?)
        }
        None => Ok(Act::by(alloc, is_in, None)?),
    }
}

fn is_ordered(act: &Act, ordered: Ordered) -> bool {
    match (act, ordered) {
        (Act::Put { lineage, live }, Ordered::Put) => {
            lineage.dots().len() == 1 && live.len() == 1
        }
        (Act::RemoveDeleted, Ordered::RemoveDeleted) => true,
        (Act::RemoveLeft, Ordered::RemoveLeft) => true,
        _ => false,
    }
}

#[test]
fn orders(rt: HostRuntime) -> Result<(), Fail> {
    for (shows, is_in, held, ordered) in ORDERS {
        let act = order(rt.alloc(), *is_in, *held)?;
        assert!(rt; is_ordered(&act, *ordered), "{shows}");
    }
    Ok(())
}
