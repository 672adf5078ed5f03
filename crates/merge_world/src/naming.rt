//! Local changes by the places of what they name.
ghost use Rattle.std.specs.BTreeMap.{insert_entry};
ghost use Rattle.std.specs.Ordering.{nat_cmp};
ghost use Rattle.std.specs.Prelude.{◌≡◌, ◌⊎◌, [], IfErr, IfOk, IfSome, Ok, OnOk, Some, bytes_eq, map, position, true};
ghost use Rattle.merge_batch.specs.Articles.{has_article};
ghost use Rattle.merge_batch.specs.LocalChanges.{columns_at};
ghost use Rattle.merge_batch.specs.declared.refusal.Refusal.TheVariants.{NoMemory as no_memory, UnknownName as unknown_name};
ghost use Rattle.merge_model.specs.World.Naming.{article_by, article_place, column_place, delete_by, insert_by, set_at, setting_of, settings_by, update_by, values_at_places};
ghost use Rattle.merge_types.specs.declared.Column.{Column as OneColumn};
ghost use Rattle.merge_units.specs.Changes.{ColumnsAscend};
ghost use Rattle.merge_world.specs.Naming.{IsPlaced, IsUnnamed};

use merge_batch::Refusal;
use merge_model::NamedValue;
use merge_schema::Publication;
use merge_table::Table;
use merge_types::{Change, Column, Listing, NoMemory, RowId, Setting, Settings, Value, Words};
use std::alloc::Global;

/// An insert by places. Where a place does not fit a byte, memory is wanting.
pub fn insert_change(
    alloc: Global,
    publication: &Publication,
    article: &Words,
    values: &[NamedValue],
) -> Result<Change, Refusal>
    ensures named { IfOk result (λ change. insert_by publication.now article.now values.now ≡ Ok change) }
    ensures unnamed { IfErr result (λ why. IsUnnamed (insert_by publication.now article.now values.now) why) }
    ensures placed { IfOk result (λ change. IsPlaced publication.now change) }
{
    let article = article_by(publication, article)?;
    let values = settings_by(alloc, columns_at(publication, article), values)?;
    Ok(Change::Insert { article, values })
}

/// An update by places.
pub fn update_change(
    alloc: Global,
    publication: &Publication,
    article: &Words,
    row: RowId,
    values: &[NamedValue],
) -> Result<Change, Refusal>
    ensures named { IfOk result (λ change. update_by publication.now article.now row values.now ≡ Ok change) }
    ensures unnamed { IfErr result (λ why. IsUnnamed (update_by publication.now article.now row values.now) why) }
    ensures placed { IfOk result (λ change. IsPlaced publication.now change) }
{
    let article = article_by(publication, article)?;
    let values = settings_by(alloc, columns_at(publication, article), values)?;
    Ok(Change::Update {
        article,
        row,
        values,
    })
}

/// A delete by the place of its article.
pub fn delete_change(
    publication: &Publication,
    article: &Words,
    row: RowId,
) -> Result<Change, Refusal>
    ensures named { IfOk result (λ change. delete_by publication.now article.now row ≡ Ok change) }
    ensures unnamed { IfErr result (λ why. IsUnnamed (delete_by publication.now article.now row) why) }
    ensures placed { IfOk result (λ change. IsPlaced publication.now change) }
{
    let article = article_by(publication, article)?;
    Ok(Change::Delete { article, row })
}

/// The place of an article.
pub fn article_by(publication: &Publication, name: &Words) -> Result<u8, Refusal>
    ensures named { IfOk result (λ place. article_by publication.now name.now ≡ Ok place) }
    ensures unnamed { IfErr result (λ why. IsUnnamed (article_by publication.now name.now) why) }
    ensures article { IfOk result (λ place. has_article publication.now place ≡ true) }
{
    match article_place(publication, name) {
        Some(place) => Ok(as_byte(place)?),
        None => Err(unknown(name)),
    }
}

// The place of the article with this name.
fn article_place(publication: &Publication, name: &Words) -> Option<usize>
    ensures place { result ≡ article_place publication.now name.now }
    ensures article { IfSome result (λ place. has_article publication.now place ≡ true) }
{
    publication.article_place(name.as_str())
}

// The columns of the article at a place.
fn columns_at(publication: &Publication, article: u8) -> &[Column]
    ensures { result.now ≡ columns_at publication.now article }
{
    match publication.article_at(article) {
        Some(article) => article.columns.as_slice(),
        None => &[],
    }
}

// Values by the columns that they are given, in the order of these.
fn settings_by(
    alloc: Global,
    columns: &[Column],
    values: &[NamedValue],
) -> Result<Settings, Refusal>
    ensures named { IfOk result (λ settings. settings_by columns.now values.now ≡ Ok settings) }
    ensures unnamed { IfErr result (λ why. IsUnnamed (settings_by columns.now values.now) why) }
    ensures ascend { IfOk result (λ settings. ColumnsAscend settings) }
{
    let places = placed(alloc, columns, values)?;
    Ok(settings_of(alloc, &places)?)
}

// The same as a table.
fn placed(
    alloc: Global,
    columns: &[Column],
    values: &[NamedValue],
) -> Result<Table<u8, Value>, Refusal>
    ensures named { IfOk result (λ places. values_at_places columns.now [] values.now ≡ Ok places.rows) }
    ensures unnamed { IfErr result (λ why. IsUnnamed (values_at_places columns.now [] values.now) why) }
{
    let mut places = Table::new(alloc);
    for named in values {
        set_one(columns, &mut places, named)?;
    }
    Ok(places)
}

// One value more, of a column that has none.
fn set_one(
    columns: &[Column],
    places: &mut Table<u8, Value>,
    named: &NamedValue,
) -> Result<(), Refusal>
    ensures named { OnOk result (set_at places.old.rows named.now (column_place columns.now named.now.column) ≡ Ok places.new.rows) }
    ensures unnamed { IfErr result (λ why. IsUnnamed (set_at places.old.rows named.now (column_place columns.now named.now.column)) why) }
{
    match column_place(columns, &named.column)? {
        Some(place) => set_at(places, place, named),
        None => Err(unknown(&named.column)),
    }
}

// The same where its place is known.
fn set_at(places: &mut Table<u8, Value>, place: u8, named: &NamedValue) -> Result<(), Refusal>
    ensures named { OnOk result (set_at places.old.rows named.now (Some place) ≡ Ok places.new.rows) }
    ensures unnamed { IfErr result (λ why. IsUnnamed (set_at places.old.rows named.now (Some place)) why) }
{
    match places.get(&place) {
        Some(_) => Err(unknown(&named.column)),
        None => Ok(put(places, place, &named.value)?),
    }
}

fn put(places: &mut Table<u8, Value>, place: u8, value: &Value) -> Result<(), NoMemory>
    ensures { OnOk result (places.new.rows ≡ insert_entry nat_cmp places.old.rows place value.now) }
{
    places.insert(place, value.clone()?)?;
    Ok(())
}

// A table of values as settings.
fn settings_of(alloc: Global, places: &Table<u8, Value>) -> Result<Settings, NoMemory>
    ensures settings { IfOk result (λ settings. settings ≡ map setting_of places.now.rows) }
    ensures ascend { IfOk result (λ settings. ColumnsAscend settings) }
{
    let mut settings = Listing::empty(alloc);
    for (column, value) in places.iter() {
        settings.push(Setting {
            column: *column,
            value: value.clone()?,
        })?;
    }
    Ok(settings)
}

// The place of a column.
fn column_place(columns: &[Column], name: &Words) -> Result<Option<u8>, NoMemory>
    ensures { IfOk result (λ place. place ≡ column_place columns.now name.now) }
{
    match position_of(columns, name) {
        Some(place) => Ok(Some(as_byte(place)?)),
        None => Ok(None),
    }
}

fn position_of(columns: &[Column], name: &Words) -> Option<usize>
    ensures { result ≡ position (λ (column : OneColumn). bytes_eq column.name name.now) columns.now }
{
    columns
        .iter()
        .position(|column| column.name.as_str() == name.as_str())
}

// A place as a byte.
fn as_byte(place: usize) -> Result<u8, NoMemory>
    ensures { IfOk result (λ byte. byte ≡ place) }
{
    if place < 256 {
        Ok(place as u8)
    } else {
        Err(NoMemory)
    }
}

// What names nothing, or names a column again.
fn unknown(name: &Words) -> Refusal
    ensures { (result ≡ no_memory) ⊎ (result ≡ unknown_name name.now) }
{
    match name.clone() {
        Ok(name) => Refusal::UnknownName { name },
        Err(_) => Refusal::NoMemory,
    }
}
