//! Requests that a publisher drafts, and settles or not: what each draft replies and decides, and what
//! the publisher then has. And calls with a counter of their caller.
mod asking;
mod counted;
mod having;
mod told;

use crate::same::same;
use crate::site::edits::{SITE, TICKETS};
use crate::site::pair::resolvers;
use crate::site::starting::keeper_of;
use asking::{Asks, NOW, Row};
use counted::{drafted_anew, handled_anew};
use having::{Has, Lost, follow};
use merge_batch::{Joined, RangeGrant, Uploaded};
use merge_conflict::{ConflictKind, Verdict};
use merge_gens::{Filling, SiteState};
use merge_ident::{Grant, Range};
use merge_ports::Entries;
use merge_resolve::{Handed, SubscriberWins};
use merge_types::{Dot, RowId, SiteId};
use std::alloc::Global;
use std::test::Fail;
use told::{Answer, Customer, Decided, Told};

// The first row of the publisher.
const ROW: RowId = RowId(0x0000_8000_8000_0000_0000_0001);

// The customer as the publisher has it, and as the site sends it, which knows of the first change.
const OURS: Customer = Customer {
    row: ROW,
    knows: (2, 0),
    top: Dot {
        site: SiteId(0),
        number: 2,
    },
    rating: Some(5),
};

const THEIRS: Customer = Customer {
    row: ROW,
    knows: (1, 1),
    top: Dot {
        site: SITE,
        number: 1,
    },
    rating: None,
};

// What either is once it has won, which knows of all changes.
const OURS_KEPT: Customer = Customer {
    row: ROW,
    knows: (2, 1),
    top: Dot {
        site: SiteId(0),
        number: 2,
    },
    rating: Some(5),
};

const THEIRS_TAKEN: Customer = Customer {
    row: ROW,
    knows: (2, 1),
    top: Dot {
        site: SITE,
        number: 1,
    },
    rating: None,
};

const JOINED: Answer = Answer::Joined(Joined { seq: 1 });

const UPLOADED: Answer = Answer::Uploaded(Uploaded {
    seq: 3,
    received: 1,
});

const RANGED: Told = (
    Answer::Ranged {
        seq: 2,
        grant: RangeGrant {
            article: TICKETS,
            number: 1,
            begin: 1,
            end: 2,
        },
    },
    Decided::Nothing,
);

const KEPT_IS_SENT: Told = (
    Answer::Downloaded {
        seq: 4,
        interval: (0, 2),
        last: 2,
        received: 1,
        put: Some(OURS_KEPT),
    },
    Decided::Nothing,
);

const TAKEN_IS_SENT: Told = (
    Answer::Downloaded {
        seq: 4,
        interval: (0, 2),
        last: 2,
        received: 1,
        put: Some(THEIRS_TAKEN),
    },
    Decided::Nothing,
);

const OURS_IS_SENT: Told = (
    Answer::Downloaded {
        seq: 4,
        interval: (0, 2),
        last: 2,
        received: 0,
        put: Some(OURS),
    },
    Decided::Nothing,
);

const KEPT: &[Row] = &[
    ("a join", Asks::Join, true, Some((JOINED, Decided::Nothing))),
    ("a range", Asks::Ranges, true, Some(RANGED)),
    (
        "an upload",
        Asks::Upload,
        true,
        Some((UPLOADED, Decided::Publisher)),
    ),
    ("a download", Asks::Download, true, Some(KEPT_IS_SENT)),
];

const TAKEN: &[Row] = &[
    ("a join", Asks::Join, true, Some((JOINED, Decided::Nothing))),
    ("a range", Asks::Ranges, true, Some(RANGED)),
    (
        "an upload",
        Asks::Upload,
        true,
        Some((UPLOADED, Decided::Subscriber)),
    ),
    ("a download", Asks::Download, true, Some(TAKEN_IS_SENT)),
];

// Each kind of draft is left once, and what comes behind it is answered as if it had not been.
const LEFT: &[Row] = &[
    (
        "a join that is left",
        Asks::Join,
        false,
        Some((JOINED, Decided::Nothing)),
    ),
    ("a range before a join", Asks::Ranges, false, None),
    ("a join", Asks::Join, true, Some((JOINED, Decided::Nothing))),
    ("a range that is left", Asks::Ranges, false, Some(RANGED)),
    (
        "an upload that is left",
        Asks::Upload,
        false,
        Some((UPLOADED, Decided::Publisher)),
    ),
    (
        "the same upload",
        Asks::Upload,
        false,
        Some((UPLOADED, Decided::Publisher)),
    ),
    (
        "a download that is left",
        Asks::Download,
        false,
        Some(OURS_IS_SENT),
    ),
    ("a download", Asks::Download, true, Some(OURS_IS_SENT)),
];

const GRANT: Grant = Grant {
    article: TICKETS,
    site: SITE,
    number: 1,
    range: Range { begin: 1, end: 2 },
};

// Both generations are closed, and kept.
const FILLING: (Filling, u64) = (
    Filling {
        last_closed: 2,
        filled: 0,
    },
    2,
);

const RECEIVED: SiteState = SiteState {
    joined_at: 1,
    received: 1,
    received_number: 1,
    seen: 1,
    watermark: 0,
    last_sync: 3,
};

const HAS_KEPT: Has = Has {
    customer: Some(OURS_KEPT),
    conflicts: (
        1,
        Some(Lost {
            number: 1,
            kind: ConflictKind::RowUpdate,
            losing: Some(THEIRS),
            from: SITE,
            verdict: Verdict::Publisher,
            moment: NOW,
        }),
    ),
    grants: (1, Some(GRANT)),
    filling: FILLING,
    state: Some(RECEIVED),
};

const HAS_TAKEN: Has = Has {
    customer: Some(THEIRS_TAKEN),
    conflicts: (
        1,
        Some(Lost {
            number: 1,
            kind: ConflictKind::RowUpdate,
            losing: Some(OURS),
            from: SiteId(0),
            verdict: Verdict::Subscriber,
            moment: NOW,
        }),
    ),
    grants: (1, Some(GRANT)),
    filling: FILLING,
    state: Some(RECEIVED),
};

// What a join and a download leave alone.
const HAS_LEFT: Has = Has {
    customer: Some(OURS),
    conflicts: (0, None),
    grants: (0, None),
    filling: FILLING,
    state: Some(SiteState {
        joined_at: 1,
        received: 0,
        received_number: 0,
        seen: 0,
        watermark: 0,
        last_sync: 3,
    }),
};

fn subscriber_wins(alloc: Global) -> Result<Vec<Handed>, Fail> {
    let mut resolvers: Vec<Handed> = Vec::new(alloc);
    resolvers.push(Box::new(alloc, SubscriberWins::new())?)?;
    Ok(resolvers)
}

#[test]
fn drafts_that_are_settled_are_what_the_publisher_has(rt: HostRuntime) -> Result<(), Fail> {
    let alloc = rt.alloc();
    let keeper = keeper_of(alloc, Entries::empty(alloc));
    follow(&rt, alloc, keeper, resolvers(alloc)?, KEPT, &HAS_KEPT)
}

#[test]
fn a_draft_decides_as_its_resolver_does(rt: HostRuntime) -> Result<(), Fail> {
    let alloc = rt.alloc();
    let keeper = keeper_of(alloc, Entries::empty(alloc));
    follow(
        &rt,
        alloc,
        keeper,
        subscriber_wins(alloc)?,
        TAKEN,
        &HAS_TAKEN,
    )
}

#[test]
fn drafts_that_are_not_settled_change_nothing(rt: HostRuntime) -> Result<(), Fail> {
    let alloc = rt.alloc();
    let keeper = keeper_of(alloc, Entries::empty(alloc));
    follow(&rt, alloc, keeper, resolvers(alloc)?, LEFT, &HAS_LEFT)
}

#[test]
fn calls_with_a_counter_are_answered(rt: HostRuntime) -> Result<(), Fail> {
    let (rows, answers) = handled_anew(rt.alloc())?;
    same(&rt, &rows, &(ROW, ROW));
    same(&rt, &answers, &(JOINED, UPLOADED));
    Ok(())
}

#[test]
fn drafts_with_a_counter_are_answered(rt: HostRuntime) -> Result<(), Fail> {
    let (joined, uploaded) = drafted_anew(rt.alloc())?;
    same(&rt, &joined, &(JOINED, Decided::Nothing));
    same(&rt, &uploaded, &(UPLOADED, Decided::Publisher));
    Ok(())
}
