//! Why a run of the program ended.
ghost use Rattle.std.specs.Prelude.{◌≡◌};
ghost use Rattle.merge_program.specs.Endings.{ending_of_opening, ending_of_reading, refused_for, status_of, stopped_by, unopened_text};

use merge_batch::Refusal;
use merge_ports::{OpenFault, ReadFault};
use merge_schema::SchemaFault;
use merge_types::{Moment, NoMemory, Octets};

/// The exit status.
#[derive(Clone, Copy, Debug, PartialEq, Eq)]
pub struct Status(pub u8);

/// Why a run of the program ended.
#[derive(Debug, Drop)]
pub enum Ending {
    /// All events were answered.
    Done,
    /// The words are no command.
    Usage,
    /// The publication was refused.
    Refused(SchemaFault),
    /// A line of the script is no event. `word` is the number of its first wrong word, and 0 where
    /// the line is no text.
    NoEvent { line: u64, word: u64 },
    /// The event of a line is none of the site that the script changes.
    NotTaken { line: u64 },
    /// The input or a file could not be read.
    ReadFault,
    WriteFault,
    /// A store could not be opened or read.
    StoreFault,
    /// A stored record has no reading, or breaks the rules of its site.
    Damaged { table: u8, key: Octets },
    NoMemory,
    /// The site is none of the publication.
    UnknownSite,
    /// The article is none of the publication.
    UnknownArticle,
    /// The input or a file has more bytes than the limit.
    TooLong,
    /// The link failed in a session.
    LinkFault,
    /// More than the retention has passed since the subscriber was in step.
    Expired { last_sync: Moment, now: Moment },
    /// A response is no message or does not fit. The place is that of its first bad item, from 1, or 0.
    BadReply { place: u64 },
    /// The session was refused with this number.
    Declined { number: u8 },
}

impl Ending {
    /// The exit status by which it is told.
    pub fn status(&self) -> Status
        ensures { result.0 ≡ status_of self.now }
    {
        Status(match self {
            Ending::Done => 0,
            Ending::Usage => 1,
            Ending::Refused(_) => 2,
            Ending::NotTaken { .. } => 1,
            Ending::NoEvent { .. } => 3,
            Ending::ReadFault => 4,
            Ending::WriteFault => 5,
            Ending::StoreFault => 6,
            Ending::Damaged { .. } => 10,
            Ending::NoMemory => 11,
            Ending::UnknownSite => 12,
            Ending::UnknownArticle => 12,
            Ending::TooLong => 14,
            Ending::LinkFault => 7,
            Ending::Expired { .. } => 8,
            Ending::BadReply { .. } => 9,
            Ending::Declined { .. } => 12,
        })
    }
}

impl From<NoMemory> for Ending {
    ghost use Rattle.std.specs.Prelude.{◌≡◌};
    ghost use Rattle.merge_program.specs.declared.ending.Ending.TheVariants.{NoMemory as no_memory};

    ghost from_gives = { λ _ ending. ending ≡ no_memory };

    fn from(_: NoMemory) -> Self {
        Ending::NoMemory
    }
}

/// How a run ends by a store that cannot be opened.
pub fn unopened(fault: OpenFault) -> Ending
    ensures { result ≡ ending_of_opening fault }
{
    match fault {
        OpenFault::Failed => Ending::StoreFault,
        OpenFault::NoMemory => Ending::NoMemory,
    }
}

/// How a run ends by a file that cannot be opened.
pub fn unopened_text(fault: OpenFault) -> Ending
    ensures { result ≡ unopened_text fault }
{
    match fault {
        OpenFault::Failed => Ending::ReadFault,
        OpenFault::NoMemory => Ending::NoMemory,
    }
}

/// How a run ends by an input or a file that was not read whole.
pub fn unread(fault: ReadFault) -> Ending
    ensures { result ≡ ending_of_reading fault }
{
    match fault {
        ReadFault::Failed => Ending::ReadFault,
        ReadFault::TooLong => Ending::TooLong,
        ReadFault::NoMemory => Ending::NoMemory,
    }
}

/// How a run ends by a text that is no publication.
pub fn refused(fault: SchemaFault) -> Ending
    ensures { result ≡ refused_for fault }
{
    match fault {
        SchemaFault::NoMemory => Ending::NoMemory,
        fault => Ending::Refused(fault),
    }
}

/// How a run ends by a site that does not start. That is for its number, for its store, or for want
/// of memory.
pub fn stopped(why: Refusal) -> Ending
    ensures { result ≡ stopped_by why }
{
    match why {
        Refusal::UnknownSite { .. } => Ending::UnknownSite,
        Refusal::StoreFault => Ending::StoreFault,
        Refusal::Damaged { table, key } => Ending::Damaged { table, key },
        _ => Ending::NoMemory,
    }
}
