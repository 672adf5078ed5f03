//! Whether other rows give the children of a row what it may give them.
ghost use Rattle.std.specs.Prelude.{◌≡◌, ◌<◌, ◌^◌, ℕ, true, IfOk, IsTrue};
ghost use Rattle.merge_part.specs.Covering.{AnotherGives, IsCovered};
ghost use Rattle.merge_part.specs.Draft.{rows_in, marks_in};
ghost use Rattle.merge_part.specs.Sites.{has_site};

use crate::draft::DraftRows;
use crate::index::entry_for;
use crate::joined::given_by;
use crate::keeping::Kept;
use crate::link::Link;
use crate::sites::Sites;
use merge_join::{JoinEntry, JoinIndex};
use merge_table::{Rows, Table};
use merge_types::{NoMemory, RowId, RowKey, Value};

/// The rows beside one, as a step has them, and the subscribers for whom they are asked.
#[derive(Clone, Copy)]
pub struct Others<'a> {
    pub kept: &'a Kept,
    pub rows: &'a DraftRows,
    pub marks: &'a Table<RowKey, Sites>,
    /// Entries of parents that come.
    pub come: &'a JoinIndex,
    pub key: RowKey,
    pub sites: Sites,
}

// The partitions in which a child with the value has a place by the row, if it is another one.
fn given_by_other(others: &Others<'_>, link: &Link, value: &Value, row: RowId) -> Sites
    ensures { (place : ℕ) → has_site result place ≡ true → AnotherGives (rows_in others.now.kept.now.held.rows.rows others.now.rows.now) (marks_in others.now.kept.now.held.marks.rows others.now.marks.now.rows) others.now.key link.now value.now place }
{
    if row.0 == others.key.row.0 {
        return Sites::none();
    }
    given_by(others.kept, others.rows, others.marks, link, value, row)
}

// What was found, and the partitions in which a child with the value has a place by the others among
// these entries, as far as it takes to find all that is asked for.
fn found_among(
    others: &Others<'_>,
    so_far: Sites,
    entries: Rows<'_, JoinEntry, ()>,
    link: &Link,
    value: &Value,
) -> Sites
    requires { (place : ℕ) → has_site so_far place ≡ true → AnotherGives (rows_in others.now.kept.now.held.rows.rows others.now.rows.now) (marks_in others.now.kept.now.held.marks.rows others.now.marks.now.rows) others.now.key link.now value.now place }
    ensures { (place : ℕ) → has_site result place ≡ true → AnotherGives (rows_in others.now.kept.now.held.rows.rows others.now.rows.now) (marks_in others.now.kept.now.held.marks.rows others.now.marks.now.rows) others.now.key link.now value.now place }
{
    let mut found = so_far;
    for (entry, _) in entries {
        if found.covers(others.sites) {
            return found;
        }
        found = found.union(given_by_other(others, link, value, entry.child));
    }
    found
}

// Whether the others by the value at one link give a child all that is asked for.
fn is_covered(
    others: &Others<'_>,
    number: usize,
    link: &Link,
    value: &Value,
) -> Result<bool, NoMemory>
    requires { number < 2 ^ 63 }
    ensures { IfOk result (λ covered. IsTrue covered → IsCovered (rows_in others.now.kept.now.held.rows.rows others.now.rows.now) (marks_in others.now.kept.now.held.marks.rows others.now.marks.now.rows) others.now.key others.now.sites link.now value.now) }
{
    let held = others.kept.index.parents.children_of(number, value)?;
    let come = others.come.children_of(number, value)?;
    let by_held = found_among(others, Sites::none(), held, link, value);
    let by_all = found_among(others, by_held, come, link, value);
    Ok(by_all.covers(others.sites))
}

/// Whether the others are known to give a child all that is asked for. In a step those of a value are
/// asked once, and noted here.
pub fn are_enough(
    others: &Others<'_>,
    number: usize,
    link: &Link,
    value: &Value,
    asked: &mut Table<JoinEntry, ()>,
) -> Result<bool, NoMemory>
    requires { number < 2 ^ 63 }
    ensures { IfOk result (λ enough. IsTrue enough → IsCovered (rows_in others.now.kept.now.held.rows.rows others.now.rows.now) (marks_in others.now.kept.now.held.marks.rows others.now.marks.now.rows) others.now.key others.now.sites link.now value.now) }
{
    if others.sites.0 == 0 {
        return Ok(true);
    }
    let first = entry_for(number, value, RowId(0))?;
    if asked.insert(first, ())?.is_some() {
        return Ok(false);
    }
    is_covered(others, number, link, value)
}
