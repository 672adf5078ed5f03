//! What two sites do step by step, and what each step answers.
use super::edits::{CUSTOMERS, Edit, NORTHERN, Put, SECOND_TICKET, SOUTHERN, TICKET, TICKETS};
use super::pair::Sends::{Download, Join, Ranges, Upload};
use super::pair::Step::{Answers, Sends, Takes};
use super::pair::{Here, NO_MESSAGE, Step, There};

/// A day of retention, one more day, and a second behind moment 7.
pub const LATE: u64 = 172808;

/// Each step with its moment, and the number that it answers.
pub const SCRIPT: &[(u64, Step, u64)] = &[
    (
        1,
        Step::There(There::Changes(Edit::Insert(CUSTOMERS, Put::Region("north")))),
        1,
    ),
    (
        1,
        Step::There(There::Changes(Edit::Insert(CUSTOMERS, Put::Region("south")))),
        2,
    ),
    // The first message. A site that has joined does not join again.
    (1, Sends(Join), 1),
    (1, Answers, 1),
    (1, Takes, 1),
    (1, Sends(Join), NO_MESSAGE),
    // One article has ranges, of which one is granted.
    (1, Sends(Ranges), 1),
    (1, Answers, 1),
    (1, Takes, 1),
    // Nothing was changed.
    (2, Sends(Upload), NO_MESSAGE),
    (
        2,
        Step::Here(Here::Changes(Edit::Insert(TICKETS, Put::Second(7)))),
        1,
    ),
    (
        2,
        Step::Here(Here::Changes(Edit::Insert(TICKETS, Put::Second(8)))),
        2,
    ),
    (2, Step::Here(Here::Closes), 1),
    (
        3,
        Step::Here(Here::Changes(Edit::Update(TICKET, Put::Second(9)))),
        1,
    ),
    (3, Step::Here(Here::Changes(Edit::Delete(SECOND_TICKET))), 2),
    // Four changes in two generations.
    (3, Sends(Upload), 4),
    (3, Answers, 2),
    (3, Takes, 1),
    (
        4,
        Step::There(There::Changes(Edit::Update(NORTHERN, Put::Second(5)))),
        1,
    ),
    (4, Step::There(There::Changes(Edit::Delete(SOUTHERN))), 2),
    (4, Step::There(There::Closes), 1),
    // The open generation has no entry, so it stays open.
    (4, Step::There(There::Closes), 1),
    // The customer of the north, the ticket, and the ticket that was deleted before it was sent.
    (5, Sends(Download), 0),
    (5, Answers, 3),
    (5, Takes, 1),
    // Both change the ticket, and the publisher's version wins.
    (
        6,
        Step::There(There::Changes(Edit::Update(TICKET, Put::Second(20)))),
        1,
    ),
    (
        6,
        Step::Here(Here::Changes(Edit::Update(TICKET, Put::Second(21)))),
        1,
    ),
    (6, Sends(Upload), 5),
    (6, Answers, 3),
    (6, Takes, 1),
    // The customer leaves the partition.
    (
        6,
        Step::There(There::Changes(Edit::Update(NORTHERN, Put::Region("south")))),
        1,
    ),
    (
        7,
        Step::Here(Here::Changes(Edit::Update(TICKET, Put::Second(10)))),
        1,
    ),
    // The customer goes, and the ticket comes, which stays as it is, since its change was not sent.
    (7, Sends(Download), 1),
    (7, Answers, 2),
    (7, Takes, 1),
    // Both values of the range were used, so the next one is granted.
    (7, Sends(Ranges), 1),
    (7, Answers, 1),
    (7, Takes, 1),
    // The tombstones of a customer and of a ticket are old, and the ticket's last change was not sent.
    (LATE, Step::There(There::Purges), 2),
    (LATE, Step::Here(Here::BeginsAnew), 1),
    (LATE, Sends(Join), 8),
    (LATE, Answers, 8),
    (LATE, Takes, 1),
    // The ticket as the publisher has it.
    (LATE, Sends(Download), 0),
    (LATE, Answers, 1),
    (LATE, Takes, 1),
    // The seventh change, and the third value.
    (
        LATE,
        Step::Here(Here::Changes(Edit::Insert(TICKETS, Put::Second(11)))),
        7,
    ),
    (LATE, Sends(Upload), 7),
    (LATE, Answers, 5),
    (LATE, Takes, 1),
    // A change that is not sent.
    (
        LATE,
        Step::Here(Here::Changes(Edit::Update(TICKET, Put::Second(12)))),
        1,
    ),
    (LATE, Step::There(There::Restarts), 0),
    (LATE, Step::Here(Here::Restarts), 0),
];
