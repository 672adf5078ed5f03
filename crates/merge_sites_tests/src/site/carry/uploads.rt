//! Many rows of a site, and how its uploads and downloads are cut: by 1,000 entries in a generation, and
//! by 100 generations and 2,000 rows in a message.
use super::playing::Line::At;
use super::playing::Step::{Delivers, Here, Sends};
use super::playing::{Line, Step};
use crate::site::edits::{Edit, Put};
use crate::site::pair::Sends::{Download, Upload};

/// How many rows the site makes, whether it closes a generation behind each, the last answer, and the
/// script behind that.
pub type Filling = (u64, bool, &'static str, &'static [Line]);

/// The site makes a row.
pub const INSERT: Step = Here(Edit::Insert(0, Put::First(1)));

/// Each behind four messages, of which the last has come.
pub const FILLINGS: &[Filling] = &[
    (
        1000,
        false,
        "1.1000",
        &[
            At(0, Sends(Upload), "message 5 upload 1000"),
            At(0, Delivers(5), "message 6 uploaded 1"),
            At(0, Delivers(6), "applied"),
            At(0, Sends(Upload), "nothing"),
            At(0, Sends(Download), "message 7 download 0"),
            At(0, Delivers(7), "message 8 downloaded 1000"),
            At(0, Delivers(8), "applied"),
            At(0, Sends(Download), "message 9 download 1"),
            At(0, Delivers(9), "message 10 downloaded 0"),
            At(0, Delivers(10), "applied"),
        ],
    ),
    (
        1001,
        false,
        "1.1001",
        &[
            At(0, Sends(Upload), "message 5 upload 1001"),
            At(0, Delivers(5), "message 6 uploaded 2"),
            At(0, Delivers(6), "applied"),
            At(0, Sends(Upload), "nothing"),
            At(0, Sends(Download), "message 7 download 0"),
            At(0, Delivers(7), "message 8 downloaded 1001"),
            At(0, Delivers(8), "applied"),
            At(0, Sends(Download), "message 9 download 2"),
            At(0, Delivers(9), "message 10 downloaded 0"),
            At(0, Delivers(10), "applied"),
        ],
    ),
    (
        2001,
        false,
        "1.2001",
        &[
            At(0, Sends(Upload), "message 5 upload 2000"),
            At(0, Delivers(5), "message 6 uploaded 2"),
            At(0, Delivers(6), "applied"),
            At(0, Sends(Upload), "message 7 upload 1"),
            At(0, Delivers(7), "message 8 uploaded 3"),
            At(0, Delivers(8), "applied"),
            At(0, Sends(Upload), "nothing"),
            At(0, Sends(Download), "message 9 download 0"),
            At(0, Delivers(9), "message 10 downloaded 2000"),
            At(0, Delivers(10), "applied"),
            At(0, Sends(Download), "message 11 download 2"),
            At(0, Delivers(11), "message 12 downloaded 1"),
            At(0, Delivers(12), "applied"),
            At(0, Sends(Download), "message 13 download 3"),
            At(0, Delivers(13), "message 14 downloaded 0"),
            At(0, Delivers(14), "applied"),
        ],
    ),
    (
        100,
        true,
        "closed 100",
        &[
            At(0, Sends(Upload), "message 5 upload 100"),
            At(0, Delivers(5), "message 6 uploaded 100"),
            At(0, Delivers(6), "applied"),
            At(0, Sends(Upload), "nothing"),
            At(0, Sends(Download), "message 7 download 0"),
            At(0, Delivers(7), "message 8 downloaded 100"),
            At(0, Delivers(8), "applied"),
            At(0, Sends(Download), "message 9 download 1"),
            At(0, Delivers(9), "message 10 downloaded 0"),
            At(0, Delivers(10), "applied"),
        ],
    ),
    (
        101,
        true,
        "closed 101",
        &[
            At(0, Sends(Upload), "message 5 upload 100"),
            At(0, Delivers(5), "message 6 uploaded 100"),
            At(0, Delivers(6), "applied"),
            At(0, Sends(Upload), "message 7 upload 1"),
            At(0, Delivers(7), "message 8 uploaded 101"),
            At(0, Delivers(8), "applied"),
            At(0, Sends(Upload), "nothing"),
            At(0, Sends(Download), "message 9 download 0"),
            At(0, Delivers(9), "message 10 downloaded 101"),
            At(0, Delivers(10), "applied"),
            At(0, Sends(Download), "message 11 download 1"),
            At(0, Delivers(11), "message 12 downloaded 0"),
            At(0, Delivers(12), "applied"),
        ],
    ),
];
