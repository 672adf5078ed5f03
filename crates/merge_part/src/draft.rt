//! What rows hold and where they are marked while a step is worked out.
ghost use Rattle.std.specs.Prelude.{◌≡◌, ◌<◌, ◌++◌, ◌∷◌, [], length, slice_index_or, OnOk, OnErr, option_copied};
ghost use Rattle.std.specs.List.Sorted.{IsStrictlySortedBy};
ghost use Rattle.std.specs.Map.{keys_of};
ghost use Rattle.merge_table.specs.declared.edit.Edit.{Edit as OneEdit};
ghost use Rattle.merge_table.specs.Edits.{row_of};
ghost use Rattle.merge_types.specs.RowKeys.{key_cmp};
ghost use Rattle.merge_part.specs.Draft.{rows_in, marks_in, marks_of, edit_to};

use crate::content::Content;
use crate::index::DraftIndexes;
use crate::sites::Sites;
use crate::waiting::Waiting;
use merge_table::{Edit, Table};
use merge_types::{NoMemory, RowKey};
use std::alloc::Global;
use std::marker::Model;

/// What is held of the live rows, and in which partitions they are. A row that is in none has no mark.
#[derive(Drop)]
pub struct Held {
    pub rows: Table<RowKey, Content>,
    pub marks: Table<RowKey, Sites>,
}

/// What is to take the place of what is kept, and the rows that wait to be looked at.
#[derive(Drop)]
pub struct Draft {
    pub rows: DraftRows,
    pub index: DraftIndexes,
    pub marks: Table<RowKey, Sites>,
    pub waiting: Waiting,
}

/// A change of what is held of a row.
pub type RowEdit = Edit<RowKey, Content>;

/// Changes of rows, in order. The last one of each row is found without a look at the others.
#[derive(Drop)]
pub struct DraftRows {
    edits: Vec<RowEdit>,
    places: Table<RowKey, usize>,
}

impl Model for DraftRows {
    ghost use Rattle.std.specs.Prelude.{List};
    ghost use Rattle.merge_table.specs.declared.edit.Edit.{Edit};
    ghost use Rattle.merge_types.specs.declared.row_key.RowKey.{RowKey};
    ghost use Rattle.merge_part.specs.declared.content.Content.{Content};
    ghost use Rattle.merge_part.specs.Places.{ArePlaces};

    ghost Value = { List (Edit RowKey Content) };

    ghost view = { λ d. d.edits.items };

    ghost invariant = { λ d. ArePlaces d.edits.items d.places.rows };
}

impl DraftRows {
    /// No change.
    pub fn new(alloc: Global) -> Self
        ensures { result ≡ [] }
    {
        DraftRows {
            edits: Vec::new(alloc),
            places: Table::new(alloc),
        }
    }

    /// What the row holds after the changes.
    pub fn get<'a>(&'a self, held: &'a Table<RowKey, Content>, key: &RowKey) -> Option<&'a Content>
        ensures { option_copied result ≡ rows_in held.now.rows self.now key.now }
    {
        held.is_ordered();
        let edits = self.edits.as_slice();
        match self.places.get(key) {
            Some(place) => row_at(edits, *place),
            None => held.get(key),
        }
    }

    /// Adds a change.
    pub fn push(&mut self, key: RowKey, content: Option<Content>) -> Result<(), NoMemory>
        ensures ok { OnOk result (self.new ≡ self.old ++ edit_to key content ∷ []) }
        ensures err { OnErr result (self.new ≡ self.old) }
    {
        let place = self.edits.as_slice().len();
        self.places.make_room(key)?;
        self.edits.push(edit_to(key, content))?;
        self.places.put(&key, place);
        Ok(())
    }

    /// The changes, in order.
    pub fn into_edits(self) -> Vec<RowEdit>
        ensures { result.items ≡ self }
    {
        self.edits
    }
}

// The change after which the row holds this.
fn edit_to(key: RowKey, content: Option<Content>) -> RowEdit
    ensures { result ≡ edit_to key content }
{
    match content {
        Some(content) => Edit::Put(key, content),
        None => Edit::Take(key),
    }
}

// What its row holds after the change at the place.
fn row_at(edits: &[RowEdit], place: usize) -> Option<&Content>
    requires { place < length edits.now }
    ensures { (other : OneEdit RowKey Content) → option_copied result ≡ row_of (slice_index_or edits.now place other) }
{
    row_after(&edits[place])
}

/// What the row holds after the change.
pub fn row_after(edit: &RowEdit) -> Option<&Content>
    ensures { option_copied result ≡ row_of edit.now }
{
    match edit {
        Edit::Put(_, content) => Some(content),
        Edit::Take(_) => None,
    }
}

/// The partitions that the row is in, by what is drafted and else by what is held.
pub fn marks_at(held: &Table<RowKey, Sites>, drafted: &Table<RowKey, Sites>, key: &RowKey) -> Sites
    ensures { result ≡ marks_in held.now.rows drafted.now.rows key.now }
{
    match drafted.get(key) {
        Some(sites) => *sites,
        None => marks_held(held, key),
    }
}

/// The partitions that the row is in, by what is held.
pub fn marks_held(held: &Table<RowKey, Sites>, key: &RowKey) -> Sites
    ensures { result ≡ marks_of held.now.rows key.now }
{
    match held.get(key) {
        Some(sites) => *sites,
        None => Sites::none(),
    }
}
