//! What a draft answers and decides, in plain values.
use crate::site::edits::SITE;
use merge_batch::{Act, DownloadItem, Downloaded, Joined, RangeGrant, Ranged, Reply, Uploaded};
use merge_draft::Drafted;
use merge_lineage::Lineage;
use merge_types::{Dot, RowId, SiteId, Value};
use merge_units::{Cell, Decision};

/// A customer: the last changes of the publisher and of the site that it knows, the change that set its
/// values, and its rating, where it has one.
#[derive(Clone, Copy, Debug, PartialEq, Eq)]
pub struct Customer {
    pub row: RowId,
    pub knows: (u64, u64),
    pub top: Dot,
    pub rating: Option<i64>,
}

/// A reply: one range that is granted, and a download of one customer, where there are any.
#[derive(Clone, Copy, Debug, PartialEq, Eq)]
pub enum Answer {
    Joined(Joined),
    Uploaded(Uploaded),
    Ranged {
        seq: u64,
        grant: RangeGrant,
    },
    Downloaded {
        seq: u64,
        interval: (u64, u64),
        last: u64,
        received: u64,
        put: Option<Customer>,
    },
    Another,
}

/// What was decided on conflicts: there was none, or one, which the publisher's version or that of the
/// subscriber won.
#[derive(Clone, Copy, Debug, PartialEq, Eq)]
pub enum Decided {
    Nothing,
    Publisher,
    Subscriber,
    Another,
}

/// The answer of a draft, and what was decided.
pub type Told = (Answer, Decided);

fn rating_of(values: &[Value]) -> Option<i64> {
    match values {
        [_, Value::Int(rating)] => Some(*rating),
        _ => None,
    }
}

/// A customer with row tracking, which has one cell.
pub fn customer_of(row: RowId, lineage: &Lineage, cells: &[Cell]) -> Option<Customer> {
    let [cell] = cells else {
        return None;
    };
    Some(Customer {
        row,
        knows: (lineage.number_of(SiteId(0)), lineage.number_of(SITE)),
        top: cell.top,
        rating: rating_of(cell.values.as_slice()),
    })
}

fn put_of(items: &[DownloadItem]) -> Option<Customer> {
    let [item] = items else {
        return None;
    };
    match &item.act {
        Act::Put { lineage, live } => customer_of(item.row, lineage, live.as_slice()),
        Act::RemoveDeleted | Act::RemoveLeft => None,
    }
}

fn ranged(m: &Ranged) -> Answer {
    let [grant] = m.grants.as_slice() else {
        return Answer::Another;
    };
    if m.ended.is_empty() {
        Answer::Ranged {
            seq: m.seq,
            grant: *grant,
        }
    } else {
        Answer::Another
    }
}

fn downloaded(m: &Downloaded) -> Answer {
    Answer::Downloaded {
        seq: m.seq,
        interval: (m.from, m.to),
        last: m.last,
        received: m.received,
        put: put_of(m.items.as_slice()),
    }
}

pub fn answer_of(reply: &Reply) -> Answer {
    match reply {
        Reply::Joined(m) => Answer::Joined(*m),
        Reply::Uploaded(m) => Answer::Uploaded(*m),
        Reply::Ranged(m) => ranged(m),
        Reply::Downloaded(m) => downloaded(m),
        Reply::Refused { .. } => Answer::Another,
    }
}

pub fn decided_of(decisions: &[Decision]) -> Decided {
    match decisions {
        [] => Decided::Nothing,
        [Decision::KeepPublisher] => Decided::Publisher,
        [Decision::TakeSubscriber] => Decided::Subscriber,
        _ => Decided::Another,
    }
}

/// What a draft tells that is not settled.
pub fn told_by<W: Drop>(drafted: Drafted<W>) -> Told {
    (
        answer_of(&drafted.reply),
        decided_of(drafted.decisions.as_slice()),
    )
}
