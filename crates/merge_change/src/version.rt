//! The version of a row after a local change.
ghost use Rattle.std.specs.Prelude.{◌≡◌, IfOk, IsSome, true, false};
ghost use Rattle.std.specs.List.{enumerate_from};
ghost use Rattle.std.specs.Option.{option_copied};
ghost use Rattle.merge_lineage.specs.Lineage.{knows};
ghost use Rattle.merge_units.specs.Changes.{ColumnsAscend, changed, new_row};
ghost use Rattle.merge_units.specs.Version.{is_live};
ghost use Rattle.merge_batch.specs.LocalChanges.{article_of, new_value, new_values, tracking_at, version_after};
ghost use Rattle.merge_change.specs.Allowed.{CanBeAsked, FitsHeld, HasIdentity, IsAllowed, IsNewAt, IsUpdatable};

use crate::article;
use crate::settings::set_value;
use merge_schema::Publication;
use merge_types::{Change, Dot, NoMemory, Setting, Value, Values};
use merge_units::{Version, change, insert, remove};
use std::alloc::{AllocError, Global};

/// A change that a site makes: its dot, and the identity value of a new row, which is Null where
/// the article has no identity column. An update and a delete ask for no identity value.
#[derive(Drop)]
pub struct Making<'a> {
    pub change: &'a Change,
    pub dot: Dot,
    pub identity: Value,
}

/// The version after a change of the row that is held. An insert makes a new row, whatever is held.
/// There is always one: an update and a delete that are allowed are of a row that is held.
pub fn version_after(
    alloc: Global,
    publication: &Publication,
    making: &Making,
    held: Option<&Version>,
) -> Result<Option<Version>, NoMemory>
    requires asked { CanBeAsked publication.now making.now.change.now (option_copied held) }
    requires allowed { IsAllowed publication.now making.now.change.now (option_copied held) }
    requires new { IsNewAt making.now.dot (option_copied held) }
    ensures version { IfOk result (λ after. after ≡ version_after publication.now making.now.dot making.now.identity making.now.change.now (option_copied held.entry)) }
    ensures there { IfOk result (λ after. IsSome after) }
    ensures fits { IfOk result (λ after. HasIdentity publication.now making.now.change.now making.now.identity → FitsHeld publication.now (article_of making.now.change.now) after) }
{
    let after = next_version(alloc, publication, making, held)?;
    Ok(after)
}

// The same, without what it says of its article.
fn next_version(
    alloc: Global,
    publication: &Publication,
    making: &Making,
    held: Option<&Version>,
) -> Result<Option<Version>, NoMemory>
    requires asked { CanBeAsked publication.now making.now.change.now (option_copied held) }
    requires allowed { IsAllowed publication.now making.now.change.now (option_copied held) }
    requires new { IsNewAt making.now.dot (option_copied held) }
    ensures { IfOk result (λ after. after ≡ version_after publication.now making.now.dot making.now.identity making.now.change.now (option_copied held.entry)) }
{
    match making.change {
        Change::Insert { article, values } => {
            Ok(Some(inserted(alloc, publication, *article, making, values.as_slice())?))
        }
        Change::Update {
            article,
            values,
            ..
        } => match held {
            Some(version) => Ok(Some(updated(
                alloc,
                publication,
                *article,
                making,
                version,
                values.as_slice(),
            )?)),
            None => Ok(None),
        },
        Change::Delete { .. } => match held {
            Some(version) => Ok(Some(remove(version, making.dot)?)),
            None => Ok(None),
        },
    }
}

// The row that an update makes.
fn updated(
    alloc: Global,
    publication: &Publication,
    place: u8,
    making: &Making,
    version: &Version,
    settings: &[Setting],
) -> Result<Version, NoMemory>
    requires live { is_live version.now.body ≡ true }
    requires new { knows version.now.lineage making.now.dot ≡ false }
    requires ascend { ColumnsAscend settings.now }
    requires fits { IsUpdatable publication.now place settings.now version.now }
    ensures { IfOk result (λ after. after ≡ changed version.now making.now.dot settings.now (tracking_at publication.now place)) }
{
    let tracking = article::tracking(publication, place);
    change(alloc, version, making.dot, settings, tracking)
}

// The row that an insert makes.
fn inserted(
    alloc: Global,
    publication: &Publication,
    place: u8,
    making: &Making,
    settings: &[Setting],
) -> Result<Version, NoMemory>
    ensures { IfOk result (λ version. version ≡ new_row making.now.dot (new_values publication.now place making.now.identity settings.now) (tracking_at publication.now place)) }
{
    let values = new_values(alloc, publication, place, &making.identity, settings)?;
    let tracking = article::tracking(publication, place);
    insert(alloc, making.dot, values, tracking)
}

// The values of a new row: the identity value, what is set, and Null.
fn new_values(
    alloc: Global,
    publication: &Publication,
    place: u8,
    identity: &Value,
    settings: &[Setting],
) -> Result<Values, NoMemory>
    ensures { IfOk result (λ values. values ≡ new_values publication.now place identity.now settings.now) }
{
    let identity_column = article::identity_column(publication, place);
    let mut values = Values::empty(alloc);
    for column in 0..article::column_count(publication, place) {
        values.push(new_value(identity_column, identity, settings, column)?)?;
    }
    Ok(values)
}

// The value of a column of a new row.
fn new_value(
    identity_column: Option<u8>,
    identity: &Value,
    settings: &[Setting],
    column: usize,
) -> Result<Value, AllocError>
    ensures { IfOk result (λ value. value ≡ new_value identity_column identity.now settings.now column) }
{
    match identity_column {
        Some(place) if column == place as usize => identity.clone(),
        _ => match set_value(settings, column) {
            Some(value) => value.clone(),
            None => Ok(Value::Null),
        },
    }
}
