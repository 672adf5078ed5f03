//! The limits of what sites hold and send. `specs/Limits.antt` has the same numbers for contracts.

/// The most bytes that the content of a text, or of bytes, has.
pub const VALUE_LIMIT: usize = 4000;

/// The most bytes that the values of a row take where they are stored.
pub const ROW_LIMIT: u64 = 8000;

/// Two versions of a row that would weigh more than this together conflict in every cell, so that
/// no merge passes `ROW_LIMIT`: what is left of it are the Nulls of 64 columns, the most of a row.
pub const UNITED_LIMIT: u64 = 7936;

/// The most rows of a site, deleted ones whose tombstones it keeps among them.
pub const ROWS_LIMIT: usize = 200_000;

/// How many entries fill a generation. SQL Server's setting for it, `generation_leveling_threshold`
/// of `sp_addmergepublication`, is 1000 by default.
pub const ENTRY_LIMIT: u64 = 1000;

/// The most generations of a batch, as SQL Server's merge agent has it by default on a reliable
/// link (`UploadGenerationsPerBatch` and `DownloadGenerationsPerBatch`).
pub const GENERATION_LIMIT: u64 = 100;

/// The most items of a batch.
pub const ITEM_LIMIT: usize = 2000;

/// Where a counter of a site has come to this, the site takes no further step.
pub const COUNTER_LIMIT: u64 = 1 << 61;

/// The numbers that sites send one another lie below this.
pub const NUMBER_LIMIT: u64 = 1 << 62;

/// The most bytes of a name.
pub const NAME_LIMIT: usize = 64;

/// The most bytes of a filter's text.
pub const FILTER_LIMIT: usize = 4000;

/// The most bytes of a publication with its script, of a file or of an input.
pub const INPUT_LIMIT: usize = 1 << 26;

/// 0001-01-01, counted from 1970-01-01.
pub const FIRST_DAY: i32 = -719_162;

/// 9999-12-31, counted from 1970-01-01.
pub const LAST_DAY: i32 = 2_932_896;
