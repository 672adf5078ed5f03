//! Scripts of two sites, with the answers that are worked out. A message is told with its number among
//! all that were made, what it is, and a number of it (`asked`, `told`).
use super::playing::Line;
use super::playing::Line::{At, Tells};
use super::playing::Step::{BeginsAnew, Delivers, Here, Purges, Sends, There};
use super::reports::Report;
use crate::site::edits::{Edit, Put};
use crate::site::pair::Sends::{Download, Join, Ranges, Upload};
use merge_types::{RowId, RowKey};

/// An article of one number, and one site.
pub const ITEMS: &[u8] =
    b"name = \"first\"\narticle = [{ name = \"item\", column = [{ name = \"qty\", type = \"int\" }] }]\nsubscription = [{ site = 1, host = \"h1\" }]\n";

/// An article of which eight rows are numbered, two numbers a range, and one site.
pub const TICKETS: &[u8] =
    b"name = \"t\"\narticle = [{ name = \"ticket\", column = [{ name = \"no\", type = \"int\", identity = { seed = 1, range = 2, pub_range = 2, threshold = 100, greatest = 8 } }, { name = \"note\", type = \"text\" }] }]\nsubscription = [{ site = 1, host = \"h1\" }]\n";

// The rows that the publisher and the site made first.
const FIRST_THERE: RowKey = RowKey {
    article: 0,
    row: RowId(0x0000_8000_8000_0000_0000_0001),
};

const FIRST_HERE: RowKey = RowKey {
    article: 0,
    row: RowId(0x0001_8000_8000_0000_0000_0001),
};

/// The session of a site that has not joined, where there is nothing to send.
pub const FIRST_SESSION: &[Line] = &[
    At(0, Sends(Join), "message 1 join 1"),
    At(0, Delivers(1), "message 2 joined 1"),
    At(0, Delivers(2), "applied"),
    At(0, Sends(Upload), "nothing"),
    At(0, Sends(Ranges), "nothing"),
    At(0, Sends(Download), "message 3 download 0"),
    At(0, Delivers(3), "message 4 downloaded 0"),
    At(0, Delivers(4), "applied"),
];

/// An upload comes three times, and its reply twice.
pub const SENT_AGAIN: &[Line] = &[
    At(0, Here(Edit::Insert(0, Put::First(5))), "1.1"),
    At(0, Sends(Upload), "message 5 upload 1"),
    At(0, Delivers(5), "message 6 uploaded 1"),
    At(0, Delivers(5), "message 7 uploaded 1"),
    At(0, Delivers(5), "message 8 uploaded 1"),
    At(0, Delivers(8), "applied"),
    // No message is outstanding.
    At(0, Delivers(6), "ignored 3 0"),
    Tells(
        Report::StandingThere,
        "closed 0 open 1 kept 0\njoined 1 received 1 number 1 watermark 0 synced 0\n",
    ),
];

/// The reply of an upload is lost, and comes behind that of a later message, which told of the same
/// generation. The upload comes again behind a change of its row.
pub const LATE_REPLY: &[Line] = &[
    At(0, Here(Edit::Insert(0, Put::First(5))), "1.1"),
    At(0, Sends(Upload), "message 5 upload 1"),
    At(0, Delivers(5), "message 6 uploaded 1"),
    At(0, There(Edit::Update(FIRST_HERE, Put::First(9))), "1.1"),
    At(0, Sends(Download), "message 7 download 0"),
    At(0, Delivers(7), "message 8 downloaded 1"),
    At(0, Delivers(8), "applied"),
    At(0, Delivers(5), "message 9 uploaded 1"),
    At(0, Delivers(6), "ignored 3 0"),
    Tells(Report::RowsThere, "1.1 9\n"),
    Tells(Report::RowsHere, "1.1 9\n"),
];

/// A site begins anew while it waits for a reply.
pub const MADE_ANEW: &[Line] = &[
    At(0, There(Edit::Insert(0, Put::First(1))), "0.1"),
    At(0, Sends(Join), "message 1 join 1"),
    At(0, Delivers(1), "message 2 joined 1"),
    At(0, Delivers(2), "applied"),
    At(0, Sends(Upload), "nothing"),
    At(0, Sends(Ranges), "nothing"),
    At(0, Sends(Download), "message 3 download 0"),
    At(0, Delivers(3), "message 4 downloaded 1"),
    At(0, Delivers(4), "applied"),
    At(0, Sends(Download), "message 5 download 1"),
    At(0, Delivers(5), "message 6 downloaded 0"),
    At(0, Delivers(6), "applied"),
    At(0, Here(Edit::Update(FIRST_THERE, Put::First(2))), "0.1"),
    At(0, Sends(Download), "message 7 download 1"),
    At(0, Delivers(7), "message 8 downloaded 0"),
    At(0, BeginsAnew, "discarded 1"),
    At(0, Delivers(8), "ignored 4 0"),
    At(
        0,
        Here(Edit::Insert(0, Put::First(3))),
        "refused 15 joining",
    ),
    At(0, Sends(Join), "message 9 join 5"),
    At(0, Delivers(9), "message 10 joined 5"),
    At(0, Delivers(10), "applied"),
    At(0, Sends(Upload), "nothing"),
    At(0, Sends(Ranges), "nothing"),
    At(0, Sends(Download), "message 11 download 0"),
    At(0, Delivers(11), "message 12 downloaded 1"),
    At(0, Delivers(12), "applied"),
    At(0, Sends(Download), "message 13 download 1"),
    At(0, Delivers(13), "message 14 downloaded 0"),
    At(0, Delivers(14), "applied"),
    Tells(Report::RowsHere, "0.1 1\n"),
    Tells(Report::LostHere, "1 Discarded 1 0.1 2\n"),
    At(0, Delivers(7), "refused 3 stale 4 5"),
];

/// What a site may not do before it has joined: before its join is answered, and once it has begun anew.
pub const JOINING: &[Line] = &[
    At(
        0,
        Here(Edit::Insert(0, Put::First(1))),
        "refused 15 joining",
    ),
    At(
        0,
        Here(Edit::Update(FIRST_HERE, Put::First(1))),
        "refused 15 joining",
    ),
    At(0, Here(Edit::Delete(FIRST_HERE)), "refused 15 joining"),
    At(0, Sends(Upload), "refused 15 joining"),
    At(0, Sends(Ranges), "refused 15 joining"),
    At(0, Sends(Download), "refused 15 joining"),
    At(0, Sends(Join), "message 1 join 1"),
    At(0, Delivers(1), "message 2 joined 1"),
    At(0, Sends(Download), "refused 15 joining"),
    At(0, Delivers(2), "applied"),
    At(0, Here(Edit::Insert(0, Put::First(1))), "1.1"),
    At(0, BeginsAnew, "discarded 1"),
    At(
        0,
        Here(Edit::Insert(0, Put::First(1))),
        "refused 15 joining",
    ),
    At(
        0,
        Here(Edit::Update(FIRST_HERE, Put::First(1))),
        "refused 15 joining",
    ),
    At(0, Here(Edit::Delete(FIRST_HERE)), "refused 15 joining"),
    At(0, Sends(Upload), "refused 15 joining"),
    At(0, Sends(Ranges), "refused 15 joining"),
    At(0, Sends(Download), "refused 15 joining"),
    At(0, Sends(Join), "message 3 join 2"),
];

/// A site synchronises just before it expires, and then a second too late. The generation of its row
/// closed at 1209600 and is kept for fourteen days and one more.
pub const EXPIRED: &[Line] = &[
    At(0, There(Edit::Insert(0, Put::First(1))), "0.1"),
    At(1209600, Sends(Upload), "nothing"),
    At(1209600, Sends(Ranges), "nothing"),
    At(1209600, Sends(Download), "message 5 download 0"),
    At(1209600, Delivers(5), "message 6 downloaded 1"),
    At(1209600, Delivers(6), "applied"),
    At(1209600, Sends(Download), "message 7 download 1"),
    At(1209600, Delivers(7), "message 8 downloaded 0"),
    At(1209600, Delivers(8), "applied"),
    At(2419201, Sends(Upload), "nothing"),
    At(2419201, Sends(Ranges), "nothing"),
    At(2419201, Sends(Download), "message 9 download 1"),
    At(2419201, Delivers(9), "refused 2 expired 1209600 2419201"),
    At(2505600, Purges, "purged 0 0 0"),
    At(2505601, Purges, "purged 0 0 1"),
    At(2505601, BeginsAnew, "discarded 0"),
    At(2505601, Sends(Join), "message 10 join 6"),
    At(2505601, Delivers(10), "message 11 joined 6"),
    At(2505601, Delivers(11), "applied"),
    At(2505601, Sends(Upload), "nothing"),
    At(2505601, Sends(Ranges), "nothing"),
    At(2505601, Sends(Download), "message 12 download 0"),
    At(2505601, Delivers(12), "message 13 downloaded 1"),
    At(2505601, Delivers(13), "applied"),
    At(2505601, Sends(Download), "message 14 download 1"),
    At(2505601, Delivers(14), "message 15 downloaded 0"),
    At(2505601, Delivers(15), "applied"),
    Tells(Report::RowsHere, "0.1 1\n"),
];

/// Both sites number tickets until the subscriber has no number left, twice: the second time there is
/// none at the publisher either.
pub const USED_UP: &[Line] = &[
    At(0, Sends(Join), "message 1 join 1"),
    At(0, Delivers(1), "message 2 joined 1"),
    At(0, Delivers(2), "applied"),
    At(0, Sends(Upload), "nothing"),
    // A site asks until nothing is granted. It holds two ranges.
    At(0, Sends(Ranges), "message 3 ranges 1"),
    At(0, Delivers(3), "message 4 ranged 1"),
    At(0, Delivers(4), "applied"),
    At(0, Sends(Ranges), "message 5 ranges 1"),
    At(0, Delivers(5), "message 6 ranged 1"),
    At(0, Delivers(6), "applied"),
    At(0, Sends(Ranges), "message 7 ranges 1"),
    At(0, Delivers(7), "message 8 ranged 0"),
    At(0, Delivers(8), "applied"),
    At(0, Sends(Download), "message 9 download 0"),
    At(0, Delivers(9), "message 10 downloaded 0"),
    At(0, Delivers(10), "applied"),
    At(0, Here(Edit::Insert(0, Put::Note("a"))), "1.1"),
    At(0, Here(Edit::Insert(0, Put::Note("a"))), "1.2"),
    At(0, Here(Edit::Insert(0, Put::Note("a"))), "1.3"),
    At(0, Here(Edit::Insert(0, Put::Note("a"))), "1.4"),
    At(
        0,
        Here(Edit::Insert(0, Put::Note("a"))),
        "refused 11 identity used up 4",
    ),
    At(0, There(Edit::Insert(0, Put::Note("b"))), "0.1"),
    Tells(Report::RowsThere, "0.1 5\n"),
    At(0, Sends(Upload), "message 11 upload 4"),
    At(0, Delivers(11), "message 12 uploaded 1"),
    At(0, Delivers(12), "applied"),
    At(0, Sends(Upload), "nothing"),
    At(0, Sends(Ranges), "message 13 ranges 1"),
    At(0, Delivers(13), "message 14 ranged 1"),
    At(0, Delivers(14), "applied"),
    At(0, Sends(Ranges), "message 15 ranges 1"),
    At(0, Delivers(15), "message 16 ranged 0"),
    At(0, Delivers(16), "applied"),
    At(0, Sends(Download), "message 17 download 0"),
    At(0, Delivers(17), "message 18 downloaded 5"),
    At(0, Delivers(18), "applied"),
    At(0, Sends(Download), "message 19 download 1"),
    At(0, Delivers(19), "message 20 downloaded 0"),
    At(0, Delivers(20), "applied"),
    At(0, Here(Edit::Insert(0, Put::Note("a"))), "1.5"),
    At(0, Here(Edit::Insert(0, Put::Note("a"))), "1.6"),
    At(
        0,
        Here(Edit::Insert(0, Put::Note("a"))),
        "refused 11 identity used up 8",
    ),
    At(
        0,
        Here(Edit::Insert(0, Put::First(3))),
        "refused 13 identity column 0",
    ),
    Tells(
        Report::GrantsThere,
        "0 1 1 1 2\n0 1 2 3 4\n0 0 1 5 6\n0 1 3 7 8\n",
    ),
];

/// A request for ranges comes twice, and the site asks once more before it has a reply.
pub const RANGES_AGAIN: &[Line] = &[
    At(0, Sends(Join), "message 1 join 1"),
    At(0, Delivers(1), "message 2 joined 1"),
    At(0, Delivers(2), "applied"),
    At(0, Sends(Ranges), "message 3 ranges 1"),
    At(0, Delivers(3), "message 4 ranged 1"),
    At(0, Delivers(3), "message 5 ranged 1"),
    At(0, Sends(Ranges), "message 6 ranges 1"),
    At(0, Delivers(6), "message 7 ranged 1"),
    At(0, Delivers(7), "applied"),
    Tells(Report::HeldHere, "0 1 2 - - of 1\n"),
    Tells(Report::GrantsThere, "0 1 1 1 2\n"),
    At(0, Delivers(99), "no message"),
];
