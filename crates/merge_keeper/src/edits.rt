//! The edits of a step's commit: its changes, written as records.
ghost use Rattle.std.specs.Prelude.{◌≡◌, ◌++◌, ◌∷◌, [], ◌≤◌, length, true, map, IfOk, OnOk};
ghost use Rattle.std.specs.List.{AllByRecursion};
ghost use Rattle.merge_table.specs.declared.edit.Edit.TheVariants.{Put as put, Take as take};
ghost use Rattle.merge_table.specs.Edits.{key_of as changed_key};
ghost use Rattle.merge_ports.specs.Entries.{change_of};
ghost use Rattle.merge_ident.specs.Holders.{range_of};
ghost use Rattle.merge_record.specs.Versions.{IsShortVersion};
ghost use Rattle.merge_record.specs.Tables.{IsShortHeld};
ghost use Rattle.merge_keeper.specs.declared.stored.PublisherStored.{PublisherStored as Publisher};
ghost use Rattle.merge_keeper.specs.declared.stored.SubscriberStored.{SubscriberStored as Subscriber};
ghost use Rattle.merge_keeper.specs.Encoded.{encoded_edit};
ghost use Rattle.merge_keeper.specs.Entries.{conflict_bytes, held_ranges, in_table, next_held};
ghost use Rattle.merge_keeper.specs.Edits.{ArePublisherShort, AreSubscriberShort, IsShortEdit, head_of_row, list_of_option, publisher_state_of, subscriber_state_of, talk_of_changes};
ghost use Rattle.merge_keeper.specs.States.{is_talk, has_kind};
ghost use Rattle.merge_keeper.specs.Stored.{publisher_edits, subscriber_edits};

use crate::{
    ConflictHead, Front, PublisherChanges, PublisherState, SubscriberChanges, SubscriberState, Talk,
};
use merge_batch::Outstanding;
use merge_conflict::ConflictRow;
use merge_gens::{Mapping, RowSite, SiteState};
use merge_ident::{Grant, Range, Ranges};
use merge_ports::EntryEdit;
use merge_record::{Field, GrantKey, HeldRanges};
use merge_table::Edit;
use merge_types::{Listing, Moment, NoMemory, Octets, RowKey, SiteId};
use merge_units::{PublisherRow, SubscriberRow};
use std::alloc::Global;

/// A change of one record, which is written as an edit of the store.
pub(crate) trait Recorded {
    ghost use Rattle.std.specs.Prelude.{◌≡◌, ℕ, List, IfOk};
    ghost use Rattle.merge_table.specs.declared.edit.Edit.{Edit as Change};
    ghost use Rattle.merge_ports.specs.declared.entry.EntryKey.{EntryKey as Place};
    ghost use Rattle.merge_ports.specs.Entries.{change_of};

    /// The edit, with the bytes of its key and of its value.
    ghost change: { Self → Change Place (List ℕ) };

    /// Each count and length of what is put fits its field.
    ghost IsShort: { Self → Type 0 };

    fn write_edit(&self, alloc: Global) -> Result<EntryEdit, NoMemory>
        requires { IsShort self.now }
        ensures { IfOk result (λ edit. change_of edit ≡ change self.now) };
}

// The edit that puts a value.
fn put_at<K: Field>(alloc: Global, table: u8, key: &K, value: Octets) -> Result<EntryEdit, NoMemory>
    requires { K.IsShort key.now }
    ensures { IfOk result (λ edit. change_of edit ≡ put (in_table table (K.spelling key.now)) value) }
{
    Ok(EntryEdit {
        table,
        key: key.write(alloc)?,
        value: Some(value),
    })
}

// The edit that takes a value away.
fn take_at<K: Field>(alloc: Global, table: u8, key: &K) -> Result<EntryEdit, NoMemory>
    requires { K.IsShort key.now }
    ensures { IfOk result (λ edit. change_of edit ≡ take (in_table table (K.spelling key.now))) }
{
    Ok(EntryEdit {
        table,
        key: key.write(alloc)?,
        value: None,
    })
}

// A change of a table whose keys and values are fields.
fn edit_in<K: Field, V: Field>(
    alloc: Global,
    table: u8,
    edit: &Edit<K, V>,
) -> Result<EntryEdit, NoMemory>
    requires key { K.IsShort (changed_key edit.now) }
    requires value { IsShortEdit V.IsShort edit.now }
    ensures { IfOk result (λ written. change_of written ≡ encoded_edit (λ key. in_table table (K.spelling key)) (λ key value. V.spelling value) edit.now) }
{
    match edit {
        Edit::Put(key, value) => put_at(alloc, table, key, value.write(alloc)?),
        Edit::Take(key) => take_at(alloc, table, key),
    }
}

impl Recorded for Edit<RowKey, PublisherRow> {
    ghost use Rattle.merge_record.specs.Rows.{IsShortPublisherRow};
    ghost use Rattle.merge_keeper.specs.Encoded.{encoded_edit};
    ghost use Rattle.merge_keeper.specs.Edits.{IsShortEdit};
    ghost use Rattle.merge_keeper.specs.Entries.{row_entry_key, publisher_row_value};

    ghost change = { encoded_edit row_entry_key publisher_row_value };

    ghost IsShort = { IsShortEdit IsShortPublisherRow };

    fn write_edit(&self, alloc: Global) -> Result<EntryEdit, NoMemory> {
        edit_in(alloc, 2, self)
    }
}

impl Recorded for Edit<RowKey, SubscriberRow> {
    ghost use Rattle.merge_record.specs.Rows.{IsShortSubscriberRow};
    ghost use Rattle.merge_keeper.specs.Encoded.{encoded_edit};
    ghost use Rattle.merge_keeper.specs.Edits.{IsShortEdit};
    ghost use Rattle.merge_keeper.specs.Entries.{row_entry_key, subscriber_row_value};

    ghost change = { encoded_edit row_entry_key subscriber_row_value };

    ghost IsShort = { IsShortEdit IsShortSubscriberRow };

    fn write_edit(&self, alloc: Global) -> Result<EntryEdit, NoMemory> {
        edit_in(alloc, 2, self)
    }
}

impl Recorded for Edit<RowSite, Mapping> {
    ghost use Rattle.merge_keeper.specs.Encoded.{encoded_edit};
    ghost use Rattle.merge_keeper.specs.Entries.{mapping_key, mapping_value};

    ghost change = { encoded_edit mapping_key mapping_value };

    ghost IsShort = { λ _. Unit {0} };

    fn write_edit(&self, alloc: Global) -> Result<EntryEdit, NoMemory> {
        edit_in(alloc, 3, self)
    }
}

impl Recorded for Edit<u64, Moment> {
    ghost use Rattle.merge_keeper.specs.Encoded.{encoded_edit};
    ghost use Rattle.merge_keeper.specs.Entries.{closing_key, closing_value};

    ghost change = { encoded_edit closing_key closing_value };

    ghost IsShort = { λ _. Unit {0} };

    fn write_edit(&self, alloc: Global) -> Result<EntryEdit, NoMemory> {
        match self {
            Edit::Put(generation, moment) => {
                put_at(alloc, 4, generation, moment.0.write(alloc)?)
            }
            Edit::Take(generation) => take_at(alloc, 4, generation),
        }
    }
}

fn head_of(row: &ConflictRow) -> ConflictHead
    ensures head { result ≡ head_of_row row.now }
    ensures kind { has_kind result ≡ true }
{
    ConflictHead {
        article: row.article,
        row: row.row,
        kind: row.kind.number(),
        from: row.from,
        verdict: row.verdict,
        moment: row.moment,
    }
}

// The record of a row of the conflict table, without its number.
fn conflict_record(alloc: Global, row: &ConflictRow) -> Result<Octets, NoMemory>
    requires { IsShortVersion row.now.losing }
    ensures { IfOk result (λ octets. octets ≡ conflict_bytes row.now) }
{
    let mut out = Vec::new(alloc);
    head_of(row).put(&mut out)?;
    row.losing.put(&mut out)?;
    Ok(Listing::new(out))
}

impl Recorded for Edit<u64, ConflictRow> {
    ghost use Rattle.merge_keeper.specs.Encoded.{encoded_edit};
    ghost use Rattle.merge_keeper.specs.Edits.{IsShortEdit, IsShortLoser};
    ghost use Rattle.merge_keeper.specs.Entries.{conflict_key, conflict_value};

    ghost change = { encoded_edit conflict_key conflict_value };

    ghost IsShort = { IsShortEdit IsShortLoser };

    fn write_edit(&self, alloc: Global) -> Result<EntryEdit, NoMemory> {
        match self {
            Edit::Put(number, row) => put_at(alloc, 5, number, conflict_record(alloc, row)?),
            Edit::Take(number) => take_at(alloc, 5, number),
        }
    }
}

// The next value of the ranges that are held, 0 where there is none.
fn next_held(ranges: &Ranges) -> i64
    ensures { result ≡ next_held ranges.now.held }
{
    ranges.holding().next.unwrap_or(0)
}

fn listed(
    alloc: Global,
    first: Option<Range>,
    second: Option<Range>,
) -> Result<Listing<Range>, NoMemory>
    ensures { IfOk result (λ ranges. ranges ≡ list_of_option first ++ list_of_option second) }
{
    let mut ranges = Listing::empty(alloc);
    if let Some(first) = first {
        ranges.push(first)?;
    }
    if let Some(second) = second {
        ranges.push(second)?;
    }
    Ok(ranges)
}

// The ranges that are held.
fn ranges_held(alloc: Global, ranges: &Ranges) -> Result<Listing<Range>, NoMemory>
    ensures held { IfOk result (λ held. held ≡ map range_of ranges.now.held) }
    ensures two { IfOk result (λ held. length held ≤ 2) }
{
    let holding = ranges.holding();
    listed(alloc, holding.first, holding.second)
}

// What is held of the ranges of an article, as it is stored.
fn held_ranges(alloc: Global, ranges: &Ranges) -> Result<HeldRanges, NoMemory>
    ensures held { IfOk result (λ held. held ≡ held_ranges ranges.now) }
    ensures short { IfOk result (λ held. IsShortHeld held) }
{
    Ok(HeldRanges {
        have: ranges.holding().have,
        last_end: ranges.last_end(),
        ranges: ranges_held(alloc, ranges)?,
        next: next_held(ranges),
    })
}

impl Recorded for (u8, Ranges) {
    ghost use Rattle.merge_keeper.specs.Encoded.{encoded_edit};
    ghost use Rattle.merge_keeper.specs.Entries.{held_key, held_value};
    ghost use Rattle.merge_keeper.specs.Stored.{held_put};

    ghost change = { λ p. encoded_edit held_key held_value (held_put p) };

    ghost IsShort = { λ _. Unit {0} };

    fn write_edit(&self, alloc: Global) -> Result<EntryEdit, NoMemory> {
        let held = held_ranges(alloc, &self.1)?;
        put_at(alloc, 6, &self.0, held.write(alloc)?)
    }
}

impl Recorded for Grant {
    ghost use Rattle.merge_table.specs.declared.edit.Edit.TheVariants.{Put as put};
    ghost use Rattle.merge_keeper.specs.Entries.{grant_key, grant_value};

    ghost change = { λ grant. put (grant_key grant) (grant_value grant) };

    ghost IsShort = { λ _. Unit {0} };

    fn write_edit(&self, alloc: Global) -> Result<EntryEdit, NoMemory> {
        let key = GrantKey {
            article: self.article,
            site: self.site,
            number: self.number,
        };
        put_at(alloc, 6, &key, self.range.write(alloc)?)
    }
}

impl Recorded for Edit<u16, SiteState> {
    ghost use Rattle.merge_keeper.specs.Encoded.{encoded_edit};
    ghost use Rattle.merge_keeper.specs.Entries.{site_key, site_value};

    ghost change = { encoded_edit site_key site_value };

    ghost IsShort = { λ _. Unit {0} };

    fn write_edit(&self, alloc: Global) -> Result<EntryEdit, NoMemory> {
        edit_in(alloc, 7, self)
    }
}

// Adds the edits of a list of changes.
fn add_all<T: Recorded>(
    alloc: Global,
    edits: &mut Vec<EntryEdit>,
    changes: &[T],
) -> Result<(), NoMemory>
    requires { AllByRecursion T.IsShort changes.now }
    ensures { OnOk result (map change_of edits.new.items ≡ map change_of edits.old.items ++ map T.change changes.now) }
{
    for change in changes {
        edits.push(change.write_edit(alloc)?)?;
    }
    Ok(())
}

// The edits of a commit, of which the first puts the state.
fn state_first<S: Field>(alloc: Global, state: &S) -> Result<Vec<EntryEdit>, NoMemory>
    requires { S.IsShort state.now }
    ensures { IfOk result (λ edits. map change_of edits.items ≡ put (in_table 1 []) (S.spelling state.now) ∷ []) }
{
    let mut edits = Vec::new(alloc);
    edits.push(EntryEdit {
        table: 1,
        key: Octets::empty(alloc),
        value: Some(state.write(alloc)?),
    })?;
    Ok(edits)
}

impl PublisherChanges {
    // The state record of the publisher after the step.
    fn state(&self) -> PublisherState
        ensures { result ≡ publisher_state_of self.now }
    {
        PublisherState(Front {
            site: 0,
            changes: self.changes,
            last_closed: self.filling.last_closed,
            filled: self.filling.filled,
            conflicts: self.conflict_count,
            latest: self.latest.0,
        })
    }

    /// The edits of the step's commit, of which the first puts the state.
    pub fn edits(&self, alloc: Global) -> Result<Vec<EntryEdit>, NoMemory>
        requires { ArePublisherShort self.now }
        ensures { IfOk result (λ edits. (t : Publisher) → map change_of edits.items ≡ publisher_edits self.now t) }
    {
        let mut edits = state_first(alloc, &self.state())?;
        add_all(alloc, &mut edits, self.rows.as_slice())?;
        add_all(alloc, &mut edits, self.mappings.as_slice())?;
        add_all(alloc, &mut edits, self.closings.as_slice())?;
        add_all(alloc, &mut edits, self.conflicts.as_slice())?;
        add_all(alloc, &mut edits, self.held.as_slice())?;
        add_all(alloc, &mut edits, self.grants.as_slice())?;
        add_all(alloc, &mut edits, self.sites.as_slice())?;
        Ok(edits)
    }
}

impl SubscriberChanges {
    // The outstanding message in the state record.
    fn talk(&self) -> Talk
        ensures talk { result ≡ talk_of_changes self.now }
        ensures short { is_talk result ≡ true }
    {
        let (outstanding, kind, from, to) = match self.outstanding {
            None => (0, 0, 0, 0),
            Some((number, Outstanding::Join)) => (number, 1, 0, 0),
            Some((number, Outstanding::Upload { from, to })) => (number, 2, from, to),
            Some((number, Outstanding::Ranges)) => (number, 3, 0, 0),
            Some((number, Outstanding::Download { from })) => (number, 4, from, 0),
        };
        Talk {
            seq: self.seq,
            outstanding,
            from,
            to,
            received: self.received,
            watermark: self.watermark,
            kind,
            phase: if self.is_joined { 2 } else { 1 },
        }
    }

    // The state record of the subscriber after the step.
    fn state(&self, site: SiteId) -> SubscriberState
        ensures state { result ≡ subscriber_state_of site self.now }
        ensures short { is_talk result.talk ≡ true }
    {
        let front = Front {
            site: site.0,
            changes: self.changes,
            last_closed: self.filling.last_closed,
            filled: self.filling.filled,
            conflicts: self.conflict_count,
            latest: self.latest.0,
        };
        SubscriberState {
            front,
            talk: self.talk(),
        }
    }

    /// The edits of the commit of a step at this site, of which the first puts the state.
    pub fn edits(&self, alloc: Global, site: SiteId) -> Result<Vec<EntryEdit>, NoMemory>
        requires { AreSubscriberShort self.now }
        ensures { IfOk result (λ edits. (t : Subscriber) → t.site ≡ site → map change_of edits.items ≡ subscriber_edits self.now t) }
    {
        let mut edits = state_first(alloc, &self.state(site))?;
        add_all(alloc, &mut edits, self.rows.as_slice())?;
        add_all(alloc, &mut edits, self.closings.as_slice())?;
        add_all(alloc, &mut edits, self.conflicts.as_slice())?;
        add_all(alloc, &mut edits, self.held.as_slice())?;
        Ok(edits)
    }
}
