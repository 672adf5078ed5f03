//! What comes of a step.
use merge_batch::Refusal;
use merge_types::RowId;

/// What becomes of a reply that comes to its site.
#[derive(Clone, Copy, Debug, PartialEq, Eq)]
pub enum Taken {
    /// It acted: it answers the outstanding message.
    Acted,
    /// It did nothing, since it answers another message.
    Missed {
        /// The number of the message that it answers.
        seq: u64,
        /// The number of the outstanding message, 0 where there is none.
        outstanding: u64,
    },
}

/// How much a purge forgot.
#[derive(Clone, Copy, Debug, PartialEq, Eq)]
pub struct Forgotten {
    pub tombstones: u64,
    /// Rows that left a site's partition.
    pub mappings: u64,
    /// Closed generations of which the moment was kept.
    pub generations: u64,
}

/// What came of a step.
#[derive(Debug, Drop)]
pub enum Outcome {
    /// It changed nothing that is told of.
    Passed,
    /// A local change was made, of this row.
    Made(RowId),
    /// The open generation closed, and this one is the last closed one now.
    Closes(u64),
    /// A message was made, and has this number in the pool.
    Posted(u64),
    /// There was no message to make.
    NoPost,
    /// A reply came to its site.
    Took(Taken),
    /// No message has the number that was given.
    NoLetter,
    /// The subscriber was made anew, and so many rows were discarded.
    Discards(u64),
    Forgot(Forgotten),
    /// The step changed nothing but how often resolvers were asked.
    Refuses(Refusal),
}
