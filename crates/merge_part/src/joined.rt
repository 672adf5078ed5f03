//! What a parent gives its children.
ghost use Rattle.std.specs.Prelude.{◌≡◌, ◌<◌, ◌^◌, ℕ, true, length, IfOk, OnOk, option_copied, unwrap_or};
ghost use Rattle.std.specs.List.{list_any};
ghost use Rattle.std.specs.Map.{keys_of};
ghost use Rattle.merge_types.specs.declared.values.Value.TheVariants.{Null};
ghost use Rattle.merge_schema.specs.Partition.{are_joined};
ghost use Rattle.merge_part.specs.Draft.{rows_in, marks_in};
ghost use Rattle.merge_part.specs.declared.link.Link.{Link as OneLink};
ghost use Rattle.merge_part.specs.Index.{AreParentsIndexed, parents_found};
ghost use Rattle.merge_part.specs.Settling.{AllMeet, AreGiven, AreKnown};
ghost use Rattle.merge_part.specs.Waiting.{waits};
ghost use Rattle.merge_part.specs.Rule.{IsAt, is_null, content_value, Reason, gives, row_gives, parent_value, value_at};
ghost use Rattle.merge_part.specs.Sites.{has_site};

use crate::content::Content;
use crate::draft::{Draft, DraftRows, marks_at};
use crate::index::entry_for;
use crate::keeping::Kept;
use crate::link::Link;
use crate::siblings::sites_by_sibling;
use crate::sites::Sites;
use merge_join::JoinEntry;
use merge_table::{Rows, Table};
use merge_types::{NoMemory, RowId, RowKey, Value};

/// Whether a child row with the one value follows a parent row with the other.
pub fn are_joined(child: &Value, parent: &Value) -> bool
    ensures { result ≡ are_joined child.now parent.now }
{
    match (child, parent) {
        (Value::Int(a), Value::Int(b)) => a.cmp(b).is_eq(),
        (Value::Bit(a), Value::Bit(b)) => a.cmp(b).is_eq(),
        (Value::Text(a), Value::Text(b)) => a
            .as_str()
            .as_bytes()
            .cmp(b.as_str().as_bytes())
            .is_eq(),
        (Value::Day(a), Value::Day(b)) => a.cmp(b).is_eq(),
        (Value::Guid(a), Value::Guid(b)) => a.cmp(b).is_eq(),
        (Value::Bytes(a), Value::Bytes(b)) => a.as_slice().cmp(b.as_slice()).is_eq(),
        _ => false,
    }
}

/// Whether a value is Null.
pub fn is_null(value: &Value) -> bool
    ensures { result ≡ is_null value.now }
{
    matches!(value, Value::Null)
}

/// The value in the column, if the row has one.
pub fn value_of(values: &[Value], column: u8) -> Option<&Value>
    ensures { unwrap_or (option_copied result) Null ≡ value_at values.now column }
{
    values.get(column as usize)
}

/// The value in the column, if the row lives and has one.
pub fn content_value<'a>(content: Option<&'a Content>, column: u8) -> Option<&'a Value>
    ensures { unwrap_or (option_copied result) Null ≡ content_value (option_copied content.entry) column }
{
    match content {
        Some(content) => value_of(content.values.as_slice(), column),
        None => None,
    }
}

/// The value by which children follow a row, if the row lives and has one.
pub fn parent_value<'a>(link: &Link, content: Option<&'a Content>) -> Option<&'a Value>
    ensures { unwrap_or (option_copied result) Null ≡ parent_value link.now (option_copied content.entry) }
{
    match content {
        Some(content) => value_of(content.values.as_slice(), link.parent_column),
        None => None,
    }
}

// The partitions in which a parent's child has a place by it.
fn given(value: &Value, link: &Link, content: Option<&Content>, sites: Sites) -> Sites
    ensures { (place : ℕ) → has_site result place ≡ gives value.now link.now (option_copied content.entry) sites place }
{
    match parent_value(link, content) {
        Some(other) if are_joined(value, other) => sites,
        _ => Sites::none(),
    }
}

/// The partitions in which a child with the value has a place by the row with this identifier.
pub fn given_by(
    kept: &Kept,
    rows: &DraftRows,
    marks: &Table<RowKey, Sites>,
    link: &Link,
    value: &Value,
    row: RowId,
) -> Sites
    ensures { (place : ℕ) → has_site result place ≡ row_gives (rows_in kept.now.held.rows.rows rows.now) (marks_in kept.now.held.marks.rows marks.now.rows) value.now link.now place row }
{
    let parent = RowKey {
        article: link.parent,
        row,
    };
    let content = rows.get(&kept.held.rows, &parent);
    given(
        value,
        link,
        content,
        marks_at(&kept.held.marks, marks, &parent),
    )
}

// The partitions in which a child with the value has a place by the parents among these entries.
fn sites_by_parents(
    kept: &Kept,
    draft: &Draft,
    entries: Rows<'_, JoinEntry, ()>,
    link: &Link,
    value: &Value,
) -> Sites
    ensures { (place : ℕ) → has_site result place ≡ list_any (λ entry. row_gives (rows_in kept.now.held.rows.rows draft.now.rows) (marks_in kept.now.held.marks.rows draft.now.marks.rows) value.now link.now place entry.child) (keys_of entries.entry) }
{
    let mut found = Sites::none();
    for (entry, _) in entries {
        let sites = given_by(kept, &draft.rows, &draft.marks, link, value, entry.child);
        found = found.union(sites);
    }
    found
}

// The partitions in which a child with the value has a place by its parents at one link.
fn sites_by_value(
    kept: &Kept,
    draft: &Draft,
    number: usize,
    link: &Link,
    value: &Value,
) -> Result<Sites, NoMemory>
    requires { number < 2 ^ 63 }
    ensures { IfOk result (AreGiven (parents_found kept.now.index draft.now.index) (rows_in kept.now.held.rows.rows draft.now.rows) (marks_in kept.now.held.marks.rows draft.now.marks.rows) number link.now value.now) }
{
    let held = kept.index.parents.children_of(number, value)?;
    let come = draft.index.parents.come.children_of(number, value)?;
    let by_held = sites_by_parents(kept, draft, held, link, value);
    Ok(by_held.union(sites_by_parents(kept, draft, come, link, value)))
}

// The same, as another child shows it, or else by all parents.
fn sites_anew(
    kept: &Kept,
    draft: &Draft,
    number: usize,
    link: &Link,
    value: &Value,
) -> Result<Sites, NoMemory>
    requires number { number < 2 ^ 63 }
    requires link { IsAt kept.now.rules.links number link.now }
    requires met { AllMeet kept.now.rules.links (rows_in kept.now.held.rows.rows draft.now.rows) (marks_in kept.now.held.marks.rows draft.now.marks.rows) (waits (keys_of draft.now.waiting.rows.rows)) }
    ensures { IfOk result (AreGiven (parents_found kept.now.index draft.now.index) (rows_in kept.now.held.rows.rows draft.now.rows) (marks_in kept.now.held.marks.rows draft.now.marks.rows) number link.now value.now) }
{
    match sites_by_sibling(kept, draft, number, link, value)? {
        Some(sites) => Ok(sites),
        None => sites_by_value(kept, draft, number, link, value),
    }
}

/// What was worked out for each value at a link, by the first entry that the value may have.
pub type Memo = Table<JoinEntry, Sites>;

// The same, worked out once for a value.
fn known_sites(
    kept: &Kept,
    draft: &Draft,
    memo: &mut Memo,
    number: usize,
    value: &Value,
) -> Result<Sites, NoMemory>
    requires number { number < length kept.now.rules.links }
    requires met { AllMeet kept.now.rules.links (rows_in kept.now.held.rows.rows draft.now.rows) (marks_in kept.now.held.marks.rows draft.now.marks.rows) (waits (keys_of draft.now.waiting.rows.rows)) }
    ensures known { OnOk result ((article : ℕ) → AreKnown kept.now.rules.links (parents_found kept.now.index draft.now.index) (rows_in kept.now.held.rows.rows draft.now.rows) (marks_in kept.now.held.marks.rows draft.now.marks.rows) article memo.old.rows → AreKnown kept.now.rules.links (parents_found kept.now.index draft.now.index) (rows_in kept.now.held.rows.rows draft.now.rows) (marks_in kept.now.held.marks.rows draft.now.marks.rows) article memo.new.rows) }
    ensures given { IfOk result (λ sites. (article : ℕ) → AreKnown kept.now.rules.links (parents_found kept.now.index draft.now.index) (rows_in kept.now.held.rows.rows draft.now.rows) (marks_in kept.now.held.marks.rows draft.now.marks.rows) article memo.old.rows → (link : OneLink) → IsAt kept.now.rules.links number link → link.child ≡ article → AreGiven (parents_found kept.now.index draft.now.index) (rows_in kept.now.held.rows.rows draft.now.rows) (marks_in kept.now.held.marks.rows draft.now.marks.rows) number link value.now sites) }
{
    let first = entry_for(number, value, RowId(0))?;
    if let Some(sites) = memo.get(&first) {
        return Ok(*sites);
    }
    let link = kept.rules.links.as_slice()[number];
    let sites = sites_anew(kept, draft, number, &link, value)?;
    memo.insert(first, sites)?;
    Ok(sites)
}

// The partitions in which a row with this content has a place by its parents at one link.
fn sites_by_link(
    kept: &Kept,
    draft: &Draft,
    memo: &mut Memo,
    number: usize,
    content: &Content,
) -> Result<Sites, NoMemory>
    requires number { number < length kept.now.rules.links }
    requires met { AllMeet kept.now.rules.links (rows_in kept.now.held.rows.rows draft.now.rows) (marks_in kept.now.held.marks.rows draft.now.marks.rows) (waits (keys_of draft.now.waiting.rows.rows)) }
    ensures known { OnOk result ((article : ℕ) → AreKnown kept.now.rules.links (parents_found kept.now.index draft.now.index) (rows_in kept.now.held.rows.rows draft.now.rows) (marks_in kept.now.held.marks.rows draft.now.marks.rows) article memo.old.rows → AreKnown kept.now.rules.links (parents_found kept.now.index draft.now.index) (rows_in kept.now.held.rows.rows draft.now.rows) (marks_in kept.now.held.marks.rows draft.now.marks.rows) article memo.new.rows) }
    ensures given { IfOk result (λ sites. (article : ℕ) → AreKnown kept.now.rules.links (parents_found kept.now.index draft.now.index) (rows_in kept.now.held.rows.rows draft.now.rows) (marks_in kept.now.held.marks.rows draft.now.marks.rows) article memo.old.rows → (link : OneLink) → IsAt kept.now.rules.links number link → link.child ≡ article → AreGiven (parents_found kept.now.index draft.now.index) (rows_in kept.now.held.rows.rows draft.now.rows) (marks_in kept.now.held.marks.rows draft.now.marks.rows) number link (value_at content.now.values link.column) sites) }
{
    let link = kept.rules.links.as_slice()[number];
    match value_of(content.values.as_slice(), link.column) {
        Some(value) => known_sites(kept, draft, memo, number, value),
        None => Ok(Sites::none()),
    }
}

/// The partitions that a row with this content is in, by its filter and its parents.
pub fn sites_of(
    kept: &Kept,
    draft: &Draft,
    memo: &mut Memo,
    key: RowKey,
    content: &Content,
) -> Result<Sites, NoMemory>
    requires met { AllMeet kept.now.rules.links (rows_in kept.now.held.rows.rows draft.now.rows) (marks_in kept.now.held.marks.rows draft.now.marks.rows) (waits (keys_of draft.now.waiting.rows.rows)) }
    requires parents { AreParentsIndexed kept.now.rules.links (parents_found kept.now.index draft.now.index) (rows_in kept.now.held.rows.rows draft.now.rows) }
    requires known { AreKnown kept.now.rules.links (parents_found kept.now.index draft.now.index) (rows_in kept.now.held.rows.rows draft.now.rows) (marks_in kept.now.held.marks.rows draft.now.marks.rows) key.article memo.old.rows }
    ensures known { OnOk result (AreKnown kept.now.rules.links (parents_found kept.now.index draft.now.index) (rows_in kept.now.held.rows.rows draft.now.rows) (marks_in kept.now.held.marks.rows draft.now.marks.rows) key.article memo.new.rows) }
    ensures reason { IfOk result (λ sites. (place : ℕ) → has_site sites place ≡ true → Reason kept.now.rules.links (rows_in kept.now.held.rows.rows draft.now.rows) (marks_in kept.now.held.marks.rows draft.now.marks.rows) key content.now place) }
    ensures reached { IfOk result (λ sites. (place : ℕ) → Reason kept.now.rules.links (rows_in kept.now.held.rows.rows draft.now.rows) (marks_in kept.now.held.marks.rows draft.now.marks.rows) key content.now place → has_site sites place ≡ true) }
{
    let mut found = content.filtered;
    for (number, link) in kept.rules.links.as_slice().iter().enumerate() {
        if link.child == key.article {
            let sites = sites_by_link(kept, draft, memo, number, content)?;
            found = found.union(sites);
        }
    }
    Ok(found)
}
