//! Sites, changes, rows and moments.
ghost use Rattle.std.specs.Prelude.{◌≡◌, ◌≢◌, All, ◌<◌, ◌≤◌, ◌+◌, ◌*◌, ◌^◌, ℕ, IfOk, IfSome, IfNone};
ghost use Rattle.merge_types.specs.Limits.{number_limit};
ghost use Rattle.merge_types.specs.Rows.{row_number, row_text, HasFirstPoint, IsDotText, IsMadeBy, IsRowLiteral};

use crate::limits::NUMBER_LIMIT;
use crate::literal::{guid, read_decimal, read_guid};
use crate::{Exact, NoMemory, Words};
use std::alloc::{AllocError, Global};

/// A site. The publisher is 0.
#[derive(Clone, Copy, Debug, PartialEq, Eq, PartialOrd, Ord)]
pub struct SiteId(pub u16);

/// A change, by the site that made it and its number there.
#[derive(Clone, Copy, Debug, PartialEq, Eq, PartialOrd, Ord)]
pub struct Dot {
    pub site: SiteId,
    pub number: u64,
}

/// A row, by a UUID. A site makes one of version 8 (RFC 9562): `custom_a` is the site that made the
/// row, `custom_b` is 0, and `custom_c` is the number of the change there that made it. `maker`
/// answers whether one is of this form.
#[derive(Clone, Copy, Debug, PartialEq, Eq, PartialOrd, Ord)]
pub struct RowId(pub u128);

/// A moment, in seconds.
#[derive(Clone, Copy, Debug, PartialEq, Eq, PartialOrd, Ord)]
pub struct Moment(pub u64);

/// The name of the host that a site says it runs on.
#[derive(Debug, Drop, PartialEq, Eq)]
pub struct HostName(pub Words);

impl Clone for HostName {
    ghost use Rattle.std.specs.Prelude.{◌≡◌};

    ghost is_clone = { λ old new. new ≡ old };

    fn clone(&self) -> Result<HostName, AllocError> {
        Ok(HostName(self.0.clone()?))
    }
}

impl Exact for HostName {
    ghost exact = { λ value copy same. same };
}

impl Exact for SiteId {
    ghost use Rattle.std.proofs.Common.{rules};

    ghost exact = { Prim.search rules };
}

impl Exact for Dot {
    ghost use Rattle.std.proofs.Common.{rules};

    ghost exact = { Prim.search rules };
}

impl Exact for RowId {
    ghost use Rattle.std.proofs.Common.{rules};

    ghost exact = { Prim.search rules };
}

impl Exact for Moment {
    ghost use Rattle.std.proofs.Common.{rules};

    ghost exact = { Prim.search rules };
}

// What one site weighs in an identifier.
const SITE_UNIT: u128 = 1 << 80;

// The version 8 and the variant binary 10, at their places.
const MARKS: u128 = (8 << 76) + (2 << 62);

impl RowId {
    /// The identifier of the row that a change makes.
    pub fn of(dot: Dot) -> Self
        requires low { 1 ≤ dot.number }
        requires high { dot.number < number_limit }
        ensures number { result.0 ≡ row_number dot.site.0 dot.number }
        ensures made { IsMadeBy result.0 dot.site.0 dot.number }
    {
        RowId(dot.site.0 as u128 * SITE_UNIT + MARKS + dot.number as u128)
    }

    /// The change that makes the row with this identifier, and none where no change makes it.
    pub fn maker(&self) -> Option<Dot>
        ensures some { IfSome result (λ dot. IsMadeBy self.now.0 dot.site.0 dot.number) }
        ensures none { IfNone result ((site number : ℕ) → IsMadeBy self.now.0 site number → ⊥) }
        ensures only { IfSome result (λ dot. (site number : ℕ) → IsMadeBy self.now.0 site number → (site ≡ dot.site.0) × (number ≡ dot.number)) }
    {
        let site = self.0 / SITE_UNIT;
        let rest = self.0 % SITE_UNIT;
        if site >= 65536 || rest <= MARKS || rest >= MARKS + NUMBER_LIMIT as u128 {
            return None;
        }
        Some(Dot {
            site: SiteId(site as u16),
            number: (rest - MARKS) as u64,
        })
    }

    /// The row that a text names by its 36 characters, in either case, or as SITE.NUMBER by the
    /// change that makes it. None for every other text, and for an identifier that no change makes.
    pub fn read(text: &[u8]) -> Option<Self>
        ensures some { IfSome result (λ row. IsRowLiteral text.now row.0) }
        ensures none { IfNone result ((row : ℕ) → IsRowLiteral text.now row → ⊥) }
        ensures one { (row other : ℕ) → IsRowLiteral text.now row → IsRowLiteral text.now other → row ≡ other }
    {
        if let Some(number) = read_guid(text) {
            let row = RowId(number);
            return match row.maker() {
                Some(_) => Some(row),
                None => None,
            };
        }
        match read_dot(text) {
            Some(dot) => Some(RowId::of(dot)),
            None => None,
        }
    }

    /// The 36 characters, in lower case.
    pub fn text(&self, alloc: Global) -> Result<Words, NoMemory>
        ensures text { IfOk result (λ words. words ≡ row_text self.now.0) }
        ensures reads_back { IfOk result (λ words. (site number : ℕ) → IsMadeBy self.now.0 site number → IsRowLiteral words self.now.0) }
    {
        guid::print(alloc, self.0)
    }
}

// The change that is written as SITE.NUMBER.
fn read_dot(text: &[u8]) -> Option<Dot>
    ensures some { IfSome result (λ dot. IsDotText text.now dot.site.0 dot.number) }
    ensures none { IfNone result ((site number : ℕ) → IsDotText text.now site number → ⊥) }
{
    let (before, behind) = split_at_point(text)?;
    let site = read_decimal(before)?;
    let number = read_decimal(behind)?;
    if site >= 65536 || number == 0 || number >= NUMBER_LIMIT {
        return None;
    }
    Some(Dot {
        site: SiteId(site as u16),
        number,
    })
}

// What stands before and behind the first point.
fn split_at_point(text: &[u8]) -> Option<(&[u8], &[u8])>
    ensures some { IfSome result (λ x. HasFirstPoint text.now x.0.now x.1.now) }
    ensures none { IfNone result (All (λ b. b ≢ 46) text.now) }
{
    for (i, byte) in text.iter().enumerate() {
        if *byte == b'.' {
            return Some((&text[..i], &text[i + 1..]));
        }
    }
    None
}
