//! Why a call is refused.
ghost use Rattle.std.specs.Prelude.{◌≡◌, [], IfOk, IsOk};
ghost use Rattle.merge_batch.specs.declared.reply.Reply.TheVariants as told;
ghost use Rattle.merge_batch.specs.Refusals.{number_of, reply_to, told_fields};

use crate::Reply;
use merge_types::{Exact, Listing, Moment, NoMemory, Octets, SiteId, Words};
use std::alloc::{AllocError, Global};
use std::fmt;
use thiserror::Error;

/// The one list of refusals. The answer of a script prints the number and then the words here, but
/// with a column's name in place of its place. Only want of memory is printed without a number, and
/// `Damaged` is no answer: it ends a run.
#[derive(Debug, Drop, PartialEq, Eq, Error)]
pub enum Refusal {
    /// 1: the site is no subscription.
    #[error("unknown site {}", .site.0)]
    UnknownSite { site: SiteId },
    /// 2: more than the retention has passed since the site was in step. Moments are in seconds.
    #[error("expired {} {}", .last_sync.0, .now.0)]
    Expired { last_sync: Moment, now: Moment },
    /// 3: the message was made before the site joined.
    #[error("stale {seq} {joined_at}")]
    Stale { seq: u64, joined_at: u64 },
    /// 4: the batch begins above the last generation that was taken.
    #[error("gap {from} {received}")]
    Gap { from: u64, received: u64 },
    /// 5: the first item that breaks a rule, counted from 1, or 0 for the message, and the rule.
    #[error("bad batch {item} {rule}")]
    BadBatch { item: u64, rule: u8 },
    /// 6: the site asks for what lies above the last closed generation.
    #[error("wrong watermark {from} {last}")]
    WrongWatermark { from: u64, last: u64 },
    /// 7: the keeper's commit failed.
    #[error("store fault")]
    StoreFault,
    /// 8: the row does not live here.
    #[error("no row")]
    NoRow,
    /// 9: the value is neither Null nor of the column's type. The column is named by its place.
    #[error("wrong type {column}")]
    WrongType { column: u8 },
    /// 10: the bytes of a value or of a row, which are too many.
    #[error("row too long {length}")]
    RowTooLong { length: u64 },
    /// 11: no identity value is left. `end` is the end of the last range, or 0.
    #[error("identity used up {end}")]
    IdentityUsedUp { end: i64 },
    /// 12: how many rows the site would hold, which are too many.
    #[error("too many rows {count}")]
    TooManyRows { count: u64 },
    /// 13: the identity column is not for the user to set. The column is named by its place.
    #[error("identity column {column}")]
    IdentityColumn { column: u8 },
    /// 14: a stored record that has no reading, or that breaks a site's rules with the others. The
    /// table is printed by its number, and the key in hexadecimal, with `-` for an empty one.
    #[error("damaged {table} {}", KeyText(.key))]
    Damaged { table: u8, key: Octets },
    /// 15: the subscriber has not joined yet.
    #[error("joining")]
    Joining,
    /// 16: a counter of the site stands at 2^61 or above. `value` is the greatest of them.
    #[error("counter end {value}")]
    CounterEnd { value: u64 },
    /// 17: the publisher knows of no join of the site.
    #[error("not joined")]
    NotJoined,
    /// 18: an article or column of this name does not exist, or the column is named twice.
    #[error("name {}", .name.as_str())]
    UnknownName { name: Words },
    /// The allocator refused a growth. It has no number of its own and counts as 0.
    #[error("no memory")]
    NoMemory,
}

// How a key is printed.
#[derive(Clone, Copy)]
struct KeyText<'a>(&'a Octets);

impl fmt::Display for KeyText<'_> {
    ghost use Rattle.std.specs.Prelude.{Some};
    ghost use Rattle.merge_batch.specs.Refusals.{key_text};

    ghost output = { λ key. Some (key_text key.0.now) };

    fn fmt<W: fmt::Write>(&self, f: &mut fmt::Formatter<W>) -> fmt::Result {
        if self.0.len() == 0 {
            return write!(f, "-");
        }
        for byte in self.0.as_slice() {
            write!(f, "{byte:02x}")?;
        }
        Ok(())
    }
}

impl Refusal {
    /// The number of the refusal from 1 on, 0 for want of memory.
    pub fn number(&self) -> u8
        ensures { result ≡ number_of self.now }
    {
        match self {
            Refusal::UnknownSite { .. } => 1,
            Refusal::Expired { .. } => 2,
            Refusal::Stale { .. } => 3,
            Refusal::Gap { .. } => 4,
            Refusal::BadBatch { .. } => 5,
            Refusal::WrongWatermark { .. } => 6,
            Refusal::StoreFault => 7,
            Refusal::NoRow => 8,
            Refusal::WrongType { .. } => 9,
            Refusal::RowTooLong { .. } => 10,
            Refusal::IdentityUsedUp { .. } => 11,
            Refusal::TooManyRows { .. } => 12,
            Refusal::IdentityColumn { .. } => 13,
            Refusal::Damaged { .. } => 14,
            Refusal::Joining => 15,
            Refusal::CounterEnd { .. } => 16,
            Refusal::NotJoined => 17,
            Refusal::UnknownName { .. } => 18,
            Refusal::NoMemory => 0,
        }
    }

    /// The reply that tells the refusal. None for a refusal that the publisher tells no subscriber:
    /// 7 to 11, 13 to 15, 18 and want of memory. For these, and where a refusal has no fields, no
    /// memory is taken.
    pub fn reply(&self, alloc: Global) -> Result<Option<Reply>, NoMemory>
        ensures told { IfOk result (λ reply. reply ≡ reply_to self.now) }
        ensures untold { reply_to self.now ≡ None → result ≡ Ok None }
        ensures bare { told_fields self.now ≡ Some [] → IsOk result }
    {
        Ok(match self {
            Refusal::UnknownSite { site } => Some(self.told(alloc, &[site.0 as u64])?),
            Refusal::Expired { last_sync, now } => Some(self.told(alloc, &[last_sync.0, now.0])?),
            Refusal::Stale { seq, joined_at } => Some(self.told(alloc, &[*seq, *joined_at])?),
            Refusal::Gap { from, received } => Some(self.told(alloc, &[*from, *received])?),
            Refusal::BadBatch { item, rule } => Some(self.told(alloc, &[*item, *rule as u64])?),
            Refusal::WrongWatermark { from, last } => Some(self.told(alloc, &[*from, *last])?),
            Refusal::TooManyRows { count } => Some(self.told(alloc, &[*count])?),
            Refusal::CounterEnd { value } => Some(self.told(alloc, &[*value])?),
            Refusal::NotJoined => Some(self.told_bare(alloc)),
            _ => None,
        })
    }

    // The reply with the refusal's number alone.
    fn told_bare(&self, alloc: Global) -> Reply
        ensures { result ≡ told.Refused (number_of self.now) [] }
    {
        Reply::Refused {
            number: self.number(),
            values: Listing::empty(alloc),
        }
    }

    // The reply with the refusal's number and these fields.
    fn told(&self, alloc: Global, fields: &[u64]) -> Result<Reply, NoMemory>
        ensures { IfOk result (λ reply. reply ≡ told.Refused (number_of self.now) fields.now) }
    {
        Ok(Reply::Refused {
            number: self.number(),
            values: Listing::new(fields.to_vec(alloc)?),
        })
    }
}

impl From<NoMemory> for Refusal {
    ghost use Rattle.std.specs.Prelude.{◌≡◌};
    ghost use Rattle.merge_batch.specs.declared.refusal.Refusal.TheVariants as refusal;

    ghost from_gives = { λ _ e. e ≡ refusal.NoMemory };

    fn from(_: NoMemory) -> Self {
        Refusal::NoMemory
    }
}

impl Clone for Refusal {
    ghost use Rattle.std.specs.Prelude.{◌≡◌};

    ghost is_clone = { λ old new. new ≡ old };

    fn clone(&self) -> Result<Refusal, AllocError> {
        Ok(match self {
            Refusal::UnknownSite { site } => Refusal::UnknownSite { site: *site },
            Refusal::Expired { last_sync, now } => Refusal::Expired {
                last_sync: *last_sync,
                now: *now,
            },
            Refusal::Stale { seq, joined_at } => Refusal::Stale {
                seq: *seq,
                joined_at: *joined_at,
            },
            Refusal::Gap { from, received } => Refusal::Gap {
                from: *from,
                received: *received,
            },
            Refusal::BadBatch { item, rule } => Refusal::BadBatch {
                item: *item,
                rule: *rule,
            },
            Refusal::WrongWatermark { from, last } => Refusal::WrongWatermark {
                from: *from,
                last: *last,
            },
            Refusal::StoreFault => Refusal::StoreFault,
            Refusal::NoRow => Refusal::NoRow,
            Refusal::WrongType { column } => Refusal::WrongType { column: *column },
            Refusal::RowTooLong { length } => Refusal::RowTooLong { length: *length },
            Refusal::IdentityUsedUp { end } => Refusal::IdentityUsedUp { end: *end },
            Refusal::TooManyRows { count } => Refusal::TooManyRows { count: *count },
            Refusal::IdentityColumn { column } => Refusal::IdentityColumn { column: *column },
            Refusal::Damaged { table, key } => Refusal::Damaged {
                table: *table,
                key: key.clone()?,
            },
            Refusal::Joining => Refusal::Joining,
            Refusal::CounterEnd { value } => Refusal::CounterEnd { value: *value },
            Refusal::NotJoined => Refusal::NotJoined,
            Refusal::UnknownName { name } => Refusal::UnknownName {
                name: name.clone()?,
            },
            Refusal::NoMemory => Refusal::NoMemory,
        })
    }
}

impl Exact for Refusal {
    ghost exact = { λ value copy same. same };
}
