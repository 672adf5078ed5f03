//! What the items of an upload do that act, one after the other.
ghost use Rattle.std.specs.Prelude.{◌≡◌, ◌≤◌, ◌<◌, ◌+◌, ◌*◌, ◌++◌, ◌^◌, ◌∷◌, ℕ, List, [], true, false, None, Some, All, IfOk, OnOk, length, map};
ghost use Rattle.std.specs.List.{AllByRecursion};
ghost use Rattle.std.specs.Option.{option_to_list};
ghost use Rattle.merge_types.specs.Limits.{counter_limit, item_limit, number_limit};
ghost use Rattle.merge_resolve.specs.Asked.{says_at};
ghost use Rattle.merge_schema.specs.Valid.{IsValid};
ghost use Rattle.merge_schema.specs.declared.publication.Publication.{Publication as OnePublication};
ghost use Rattle.merge_model.specs.Publisher.Acts.{Unknown, key_of_item, purged_row};
ghost use Rattle.merge_model.specs.Tables.Keys.{row_at};
ghost use Rattle.merge_model.specs.World.{Saying};
ghost use Rattle.merge_steps.specs.Fits.{ItemFits};
ghost use Rattle.merge_steps.specs.Keeps.{RowFits};
ghost use Rattle.merge_steps.specs.Uploading.{AskedSome, Grows, KeepsFits, acts_in, after_act, after_item, after_items, is_made_by, pass_at, question_at, question_in, questions_in, with_parts};

use crate::lists::push_some;
use crate::meeting::meet;
use merge_batch::{UploadItem, maker_of};
use merge_conflict::{ConflictKind, ConflictRow, ConflictRows, Verdict};
use merge_resolve::Handed;
use merge_schema::Publication;
use merge_table::Table;
use merge_types::{Listing, Moment, NoMemory, RowKey, SiteId};
use merge_units::{Decision, PublisherRow, Version};
use std::alloc::Global;

/// Whose upload comes in, how far that site's changes were taken, and the moment.
#[derive(Clone, Copy)]
pub struct Arrival {
    pub site: SiteId,
    /// The last generation of the site that has acted.
    pub received: u64,
    /// The last change number of that generation.
    pub received_number: u64,
    pub moment: Moment,
}

/// What the items of an upload have left that acted so far.
#[derive(Drop)]
pub struct Acting {
    pub versions: Listing<(RowKey, Version)>,
    pub acted: Listing<RowKey>,
    /// The versions that lost.
    pub lost: ConflictRows,
    /// What was decided on the conflicts, as it counts.
    pub decisions: Listing<Decision>,
    /// How many changes the publisher has made.
    pub changes: u64,
    /// How many rows were added to the conflict table.
    pub conflict_count: u64,
}

/// The row of an item.
pub fn key_of_item(item: &UploadItem) -> RowKey
    ensures { result ≡ key_of_item item.now }
{
    RowKey {
        article: item.article,
        row: item.row,
    }
}

/// Whether the item's generation has not acted.
pub fn acts_in(arrival: Arrival, item: &UploadItem) -> bool
    ensures { result ≡ acts_in arrival item.now }
{
    item.generation > arrival.received
}

/// Whether the uploader made the row with a change that has not acted.
pub fn is_made_by(arrival: Arrival, key: RowKey) -> bool
    ensures { result ≡ is_made_by arrival key }
{
    match maker_of(key.row) {
        Some(dot) => dot.site.0 == arrival.site.0 && arrival.received_number < dot.number,
        None => false,
    }
}

impl Acting {
    /// Nothing yet.
    pub fn new(alloc: Global, changes: u64, conflict_count: u64) -> Acting
        ensures { result ≡ record { versions = []; acted = []; lost = []; decisions = []; changes = changes; conflict_count = conflict_count } }
    {
        Acting {
            versions: Listing::empty(alloc),
            acted: Listing::empty(alloc),
            lost: Listing::empty(alloc),
            decisions: Listing::empty(alloc),
            changes,
            conflict_count,
        }
    }

    /// Adds what an item did: the version that its row gets, what lost, what was decided, and how
    /// many changes the publisher made.
    pub fn add(
        &mut self,
        key: RowKey,
        version: Option<(RowKey, Version)>,
        lost: ConflictRows,
        decided: Option<Decision>,
        made: u64,
    ) -> Result<(), NoMemory>
        requires changes { self.old.changes + made < 2 ^ 64 }
        requires lost { self.old.conflict_count + length lost < 2 ^ 64 }
        ensures { OnOk result (self.new ≡ with_parts self.old key version lost decided made) }
    {
        push_some(&mut self.versions, version)?;
        push_some(&mut self.decisions, decided)?;
        self.acted.push(key)?;
        self.changes += made;
        self.conflict_count += lost.len() as u64;
        append(&mut self.lost, lost)
    }
}

// Adds rows behind others.
fn append(rows: &mut ConflictRows, more: ConflictRows) -> Result<(), NoMemory>
    ensures { OnOk result (rows.new ≡ rows.old ++ more) }
{
    for row in more.into_vec() {
        rows.push(row)?;
    }
    Ok(())
}

// The row of a version that comes too late: the tombstone was purged.
fn purged_rows(
    alloc: Global,
    arrival: Arrival,
    number: u64,
    item: &UploadItem,
) -> Result<ConflictRows, NoMemory>
    ensures { IfOk result (λ rows. rows ≡ purged_row number arrival.site arrival.moment (record { key = key_of_item item.now; incoming = item.now.version; fate = Unknown }) ∷ []) }
{
    let mut rows = ConflictRows::empty(alloc);
    rows.push(ConflictRow {
        number,
        article: item.article,
        row: item.row,
        kind: ConflictKind::DeleteWins,
        losing: item.version.clone()?,
        from: arrival.site,
        verdict: Verdict::Purged,
        moment: arrival.moment,
    })?;
    Ok(rows)
}

// The row is new.
fn come_new(
    publication: &Publication,
    arrival: Arrival,
    item: &UploadItem,
    lost: ConflictRows,
    acting: &mut Acting,
) -> Result<(), NoMemory>
    requires item { ItemFits publication.now acting.old.changes item.now }
    requires made { is_made_by arrival (key_of_item item.now) ≡ true }
    requires none { lost ≡ [] }
    requires changes { acting.old.changes < number_limit }
    requires conflicts { acting.old.conflict_count < number_limit }
    ensures passed { OnOk result ((says : Saying) (tallies : List ℕ) → pass_at acting.new tallies ≡ after_act publication.now arrival says (pass_at acting.old tallies) item.now None) }
    ensures grows { OnOk result (Grows acting.old acting.new) }
    ensures fits { OnOk result (KeepsFits publication.now acting.old acting.new) }
{
    let key = key_of_item(item);
    let version = item.version.clone()?;
    acting.add(key, Some((key, version)), lost, None, 0)?;
    Ok(())
}

// The row's tombstone was purged.
fn come_late(
    alloc: Global,
    arrival: Arrival,
    item: &UploadItem,
    acting: &mut Acting,
) -> Result<(), NoMemory>
    requires made { is_made_by arrival (key_of_item item.now) ≡ false }
    requires changes { acting.old.changes < number_limit }
    requires conflicts { acting.old.conflict_count < number_limit }
    ensures passed { OnOk result ((publication : OnePublication) (says : Saying) (tallies : List ℕ) → pass_at acting.new tallies ≡ after_act publication arrival says (pass_at acting.old tallies) item.now None) }
    ensures grows { OnOk result (Grows acting.old acting.new) }
    ensures fits { OnOk result ((publication : OnePublication) → KeepsFits publication acting.old acting.new) }
{
    let lost = purged_rows(alloc, arrival, acting.conflict_count + 1, item)?;
    acting.add(key_of_item(item), None, lost, None, 0)?;
    Ok(())
}

// A version comes in of a row that is not held.
fn come_in(
    alloc: Global,
    publication: &Publication,
    arrival: Arrival,
    item: &UploadItem,
    acting: &mut Acting,
) -> Result<(), NoMemory>
    requires item { ItemFits publication.now acting.old.changes item.now }
    requires changes { acting.old.changes < number_limit }
    requires conflicts { acting.old.conflict_count < number_limit }
    ensures passed { OnOk result ((says : Saying) (tallies : List ℕ) → pass_at acting.new tallies ≡ after_act publication.now arrival says (pass_at acting.old tallies) item.now None) }
    ensures grows { OnOk result (Grows acting.old acting.new) }
    ensures fits { OnOk result (KeepsFits publication.now acting.old acting.new) }
{
    if is_made_by(arrival, key_of_item(item)) {
        come_new(
            publication,
            arrival,
            item,
            ConflictRows::empty(alloc),
            acting,
        )?;
        return Ok(());
    }
    come_late(alloc, arrival, item, acting)?;
    Ok(())
}

// An item acts.
fn act_on(
    alloc: Global,
    publication: &Publication,
    rows: &Table<RowKey, PublisherRow>,
    arrival: Arrival,
    resolvers: &mut Vec<Handed>,
    item: &UploadItem,
    acting: &mut Acting,
) -> Result<(), NoMemory>
    requires valid { (count : ℕ) × IsValid count publication.now }
    requires rows { AllByRecursion (RowFits publication.now acting.old.changes) rows.now.rows }
    requires item { ItemFits publication.now acting.old.changes item.now }
    requires changes { acting.old.changes < number_limit }
    requires conflicts { acting.old.conflict_count < number_limit }
    ensures passed { OnOk result (pass_at acting.new (map (λ r. tally_of r) resolvers.new.items)
        ≡ after_act publication.now arrival (says_at (λ r. says r) resolvers.old.items) (pass_at acting.old (map (λ r. tally_of r) resolvers.old.items)) item.now (row_at rows.now.rows (key_of_item item.now))) }
    ensures grows { OnOk result (Grows acting.old acting.new) }
    ensures fits { OnOk result (KeepsFits publication.now acting.old acting.new) }
    ensures asked { AskedSome (map (λ r. tally_of r) resolvers.old.items) (map (λ r. tally_of r) resolvers.new.items) (option_to_list (question_at publication.now arrival item.now (row_at rows.now.rows (key_of_item item.now)))) }
    ensures steady { (k n : ℕ) (asked : _) → says_at (λ r. says r) resolvers.new.items k n asked ≡ says_at (λ r. says r) resolvers.old.items k n asked }
{
    let key = key_of_item(item);
    match rows.get(&key) {
        Some(held) => {
            meet(
                alloc,
                publication,
                arrival,
                resolvers,
                &held.version,
                item,
                acting,
            )?;
            Ok(())
        }
        None => {
            come_in(alloc, publication, arrival, item, acting)?;
            Ok(())
        }
    }
}

// An item acts, unless its generation has acted.
fn act_if_due(
    alloc: Global,
    publication: &Publication,
    rows: &Table<RowKey, PublisherRow>,
    arrival: Arrival,
    resolvers: &mut Vec<Handed>,
    item: &UploadItem,
    acting: &mut Acting,
) -> Result<(), NoMemory>
    requires valid { (count : ℕ) × IsValid count publication.now }
    requires rows { AllByRecursion (RowFits publication.now acting.old.changes) rows.now.rows }
    requires item { ItemFits publication.now acting.old.changes item.now }
    requires changes { acting.old.changes < number_limit }
    requires conflicts { acting.old.conflict_count < number_limit }
    ensures passed { OnOk result (pass_at acting.new (map (λ r. tally_of r) resolvers.new.items)
        ≡ after_item publication.now rows.now.rows arrival (says_at (λ r. says r) resolvers.old.items) (pass_at acting.old (map (λ r. tally_of r) resolvers.old.items)) item.now) }
    ensures grows { OnOk result (Grows acting.old acting.new) }
    ensures fits { OnOk result (KeepsFits publication.now acting.old acting.new) }
    ensures asked { AskedSome (map (λ r. tally_of r) resolvers.old.items) (map (λ r. tally_of r) resolvers.new.items) (option_to_list (question_in publication.now rows.now.rows arrival item.now)) }
    ensures steady { (k n : ℕ) (asked : _) → says_at (λ r. says r) resolvers.new.items k n asked ≡ says_at (λ r. says r) resolvers.old.items k n asked }
{
    if acts_in(arrival, item) {
        act_on(alloc, publication, rows, arrival, resolvers, item, acting)?;
        return Ok(());
    }
    Ok(())
}

/// The items act that have not, in their order. Where memory is wanting, some first questions were
/// asked, and what is gathered is of no use.
pub fn act_on_all(
    alloc: Global,
    publication: &Publication,
    rows: &Table<RowKey, PublisherRow>,
    arrival: Arrival,
    resolvers: &mut Vec<Handed>,
    items: &[UploadItem],
    acting: &mut Acting,
) -> Result<(), NoMemory>
    requires valid { (count : ℕ) × IsValid count publication.now }
    requires rows { AllByRecursion (RowFits publication.now acting.old.changes) rows.now.rows }
    requires items { All (ItemFits publication.now acting.old.changes) items.now }
    requires few { length items.now ≤ item_limit }
    requires changes { acting.old.changes < counter_limit }
    requires conflicts { acting.old.conflict_count < counter_limit }
    ensures passed { OnOk result (pass_at acting.new (map (λ r. tally_of r) resolvers.new.items)
        ≡ after_items publication.now rows.now.rows arrival (says_at (λ r. says r) resolvers.old.items) (pass_at acting.old (map (λ r. tally_of r) resolvers.old.items)) items.now) }
    ensures rises { OnOk result (acting.old.changes ≤ acting.new.changes) }
    ensures fits { OnOk result (KeepsFits publication.now acting.old acting.new) }
    ensures asked { AskedSome (map (λ r. tally_of r) resolvers.old.items) (map (λ r. tally_of r) resolvers.new.items) (questions_in publication.now rows.now.rows arrival items.now) }
    ensures steady { (k n : ℕ) (asked : _) → says_at (λ r. says r) resolvers.new.items k n asked ≡ says_at (λ r. says r) resolvers.old.items k n asked }
{
    for item in items {
        act_if_due(alloc, publication, rows, arrival, resolvers, item, acting)?;
    }
    Ok(())
}
