//! What the lines of a script say.
use merge_types::{Listing, RowId, SiteId, Value, Words};

/// A column, by its name, and the value that it gets.
#[derive(Debug, Drop)]
pub struct NamedValue {
    pub column: Words,
    pub value: Value,
}

/// Columns with their values, in the order in which they are written.
pub type NamedValues = Listing<NamedValue>;

/// An event of a script. Articles and columns are named as they are written, whether or not the
/// publication has them, and a site is any number.
#[derive(Debug, Drop)]
pub enum Event {
    /// The moment moves by so many seconds.
    Wait(u32),
    /// A local change that makes a row.
    Insert {
        site: SiteId,
        article: Words,
        values: NamedValues,
    },
    /// A local change of a row, which sets at least one column.
    Update {
        site: SiteId,
        article: Words,
        row: RowId,
        values: NamedValues,
    },
    /// A local change that deletes a row.
    Delete {
        site: SiteId,
        article: Words,
        row: RowId,
    },
    /// The site closes its open generation.
    Close(SiteId),
    /// A whole session of the site.
    Sync(SiteId),
    /// The site makes a message, which enters the pool. So do the next three.
    SendJoin(SiteId),
    SendUpload(SiteId),
    SendRanges(SiteId),
    SendDownload(SiteId),
    /// A message of the pool comes to where it goes. It may come again at any time.
    Deliver(u64),
    /// The subscriber is made anew.
    Reinit(SiteId),
    /// The publisher forgets what is old.
    Purge,
    /// The site stops, and starts from what it keeps.
    Restart(SiteId),
    /// Reports: the live rows of an article, and then what the names say.
    Show {
        site: SiteId,
        article: Words,
    },
    Partition(SiteId),
    Conflicts(SiteId),
    Ranges(SiteId),
    Generations(SiteId),
    Count(SiteId),
}

/// What a line of a script says.
#[derive(Debug, Drop)]
pub enum Line {
    /// Nothing: the line is blank or a comment.
    Quiet,
    Event(Event),
    /// No event. The first wrong word is named by its number from 1, and 0 names the line that is
    /// no UTF-8. A word that is missing counts as the one behind the last.
    NoEvent(u64),
}
