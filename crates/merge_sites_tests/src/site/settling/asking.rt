//! The requests of a site, and what a publisher with its resolvers is asked.
use super::told::{Told, answer_of, decided_of, told_by};
use crate::same::same_in;
use crate::site::edits::{CUSTOMERS, NORTHERN, SITE, TICKETS};
use crate::site::versions::{customer, lineage};
use merge_batch::{
    Download, Join, RangeAsk, Refusal, Request, Upload, UploadItem, UploadItems, Want, Wants,
};
use merge_draft::{Drafted, DraftingPublisher};
use merge_ports::KeepFault;
use merge_types::{Moment, NoMemory};
use merge_units::{Body, Version};
use std::alloc::Global;
use std::process::Abort;
use std::test::Fail;

/// The moment of each request.
pub const NOW: Moment = Moment(3);

/// A message of the site, in the order in which it sends them.
#[derive(Clone, Copy, Debug)]
pub enum Asks {
    Join,
    Ranges,
    Upload,
    Download,
}

/// A request: what it shows, what it asks, whether its draft is settled, and what that tells, or
/// nothing where the site has not joined.
pub type Row = (&'static str, Asks, bool, Option<Told>);

pub const JOIN: Join = Join {
    site: SITE,
    seq: 1,
    generation: 0,
    number: 0,
};

const DOWNLOAD: Download = Download {
    site: SITE,
    seq: 4,
    from: 0,
};

// The first range of tickets.
fn ranges(alloc: Global) -> Result<RangeAsk, NoMemory> {
    let mut wants = Wants::empty(alloc);
    wants.push(Want {
        article: TICKETS,
        have: 0,
        due: true,
    })?;
    Ok(RangeAsk {
        site: SITE,
        seq: 2,
        wants,
    })
}

// The customer of the north, which the site changed when it knew of the publisher's first change alone.
fn item(alloc: Global) -> Result<UploadItem, Fail> {
    let lineage = lineage(alloc, &[(0, 1), (1, 1)])?;
    let body = Body::Live(customer(alloc, (1, 1))?);
    Ok(UploadItem {
        article: CUSTOMERS,
        row: NORTHERN.row,
        generation: 1,
        version: Version { lineage, body },
    })
}

/// The first generation of the site, with its one change.
pub fn upload(alloc: Global) -> Result<Upload, Fail> {
    let mut items = UploadItems::empty(alloc);
    items.push(item(alloc)?)?;
    Ok(Upload {
        site: SITE,
        seq: 3,
        from: 0,
        to: 1,
        through: 1,
        items,
    })
}

fn request(alloc: Global, asks: Asks) -> Result<Request, Fail> {
    match asks {
        Asks::Join => Ok(Request::Join(JOIN)),
        Asks::Ranges => Ok(Request::Ranges(ranges(alloc)?)),
        Asks::Upload => Ok(Request::Upload(upload(alloc)?)),
        Asks::Download => Ok(Request::Download(DOWNLOAD)),
    }
}

// Drafts a request, and does not settle it.
fn leave<P: DraftingPublisher>(publisher: &mut P, request: &Request) -> Result<Told, Refusal> {
    Ok(told_by(publisher.draft(NOW, request)?))
}

// Drafts a request, and settles it.
fn settle<P: DraftingPublisher>(publisher: &mut P, request: &Request) -> Result<Told, Refusal> {
    let Drafted {
        work,
        reply,
        decisions,
    } = publisher.draft(NOW, request)?;
    match publisher.settle(work) {
        Ok(()) => Ok((answer_of(&reply), decided_of(decisions.as_slice()))),
        Err(KeepFault::Failed) => Err(Refusal::StoreFault),
        Err(KeepFault::NoMemory) => Err(Refusal::NoMemory),
    }
}

// What was told, or nothing where the site has not joined.
fn joined(told: Result<Told, Refusal>) -> Result<Option<Told>, Refusal> {
    match told {
        Ok(told) => Ok(Some(told)),
        Err(Refusal::NotJoined) => Ok(None),
        Err(refusal) => Err(refusal),
    }
}

fn ask<P: DraftingPublisher, R: Abort>(
    rt: &R,
    alloc: Global,
    publisher: &mut P,
    row: &Row,
) -> Result<(), Fail> {
    let (shows, asks, settles, wanted) = row;
    let request = request(alloc, *asks)?;
    let told = if *settles {
        settle(publisher, &request)
    } else {
        leave(publisher, &request)
    };
    same_in(rt, &joined(told)?, wanted, shows);
    Ok(())
}

/// Requests come to a publisher one behind the other, which is given back.
pub fn ask_in_turn<P: DraftingPublisher, R: Abort>(
    rt: &R,
    alloc: Global,
    publisher: P,
    rows: &[Row],
) -> Result<P, Fail> {
    let mut publisher = publisher;
    for row in rows {
        ask(rt, alloc, &mut publisher, row)?;
    }
    Ok(publisher)
}
