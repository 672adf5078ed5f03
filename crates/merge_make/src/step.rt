//! The events of the script, one by one.
ghost use Rattle.std.specs.Prelude.{◌≡◌, ◌+◌, IfOk, pos};
ghost use Rattle.merge_types.specs.declared.values.Value.TheVariants.{Int as int};
ghost use Rattle.merge_make.specs.Events.{customer, event_of_clearing, event_of_credit, event_of_delete, event_of_insert, event_of_move, event_of_update, order, region, row, set};
ghost use Rattle.merge_make.specs.Steps.{event_of};

use merge_model::{Event, NamedValue};
use merge_types::{Dot, Listing, NoMemory, RowId, SiteId, Value, Words};
use std::alloc::Global;

const PUBLISHER: SiteId = SiteId(0);

/// An event of the script, by its kind and its number. Numbers are counted from 0, so that the first
/// customer has the number 0 here, and 1 in the script.
#[derive(Clone, Copy, Debug, PartialEq, Eq)]
pub enum Step {
    /// The publisher inserts a customer.
    Customer(u32),
    /// The publisher inserts an order.
    Order(u32),
    /// A customer's site gives it credit.
    Credit(u32),
    /// The publisher takes a customer's credit back.
    Clear(u32),
    /// The publisher deletes the order that it made with this change.
    Cancel(u32),
    /// The publisher moves a customer to the next region.
    Move(u32),
    /// A session of a site.
    Sync(SiteId),
    /// A site makes an upload.
    Upload(SiteId),
    /// A site counts its rows.
    Count(SiteId),
    /// A site lists its conflicts.
    Conflicts(SiteId),
}

impl Step {
    /// The event.
    pub fn event(self, alloc: Global) -> Result<Event, NoMemory>
        ensures { IfOk result (λ event. event ≡ event_of self) }
    {
        match self {
            Step::Customer(place) => customer(alloc, place),
            Step::Order(place) => order(alloc, place),
            Step::Credit(place) => credited(alloc, place),
            Step::Clear(place) => cleared(alloc, place),
            Step::Cancel(place) => deleted(alloc, place),
            Step::Move(place) => moved(alloc, place),
            Step::Sync(site) => Ok(Event::Sync(site)),
            Step::Upload(site) => Ok(Event::SendUpload(site)),
            Step::Count(site) => Ok(Event::Count(site)),
            Step::Conflicts(site) => Ok(Event::Conflicts(site)),
        }
    }
}

// The row that the publisher makes with the change with a place, counted from 0.
fn row(place: u32) -> RowId
    ensures { result ≡ row (place + 1) }
{
    RowId::of(Dot {
        site: PUBLISHER,
        number: place as u64 + 1,
    })
}

// The number with a place, counted from 0.
fn number(place: u32) -> Value
    ensures { result ≡ int (pos (place + 1)) }
{
    Value::Int(place as i64 + 1)
}

// The region of a number.
fn region(alloc: Global, number: u64) -> Result<Value, NoMemory>
    ensures { IfOk result (λ value. value ≡ region number) }
{
    let text = format!(in alloc; "r{}", number % 3)?;
    Ok(Value::Text(Words::new(text)))
}

// A column and its value.
fn set(alloc: Global, column: &str, value: Value) -> Result<NamedValue, NoMemory>
    ensures { IfOk result (λ named. named ≡ set column.now value) }
{
    Ok(NamedValue {
        column: Words::of(alloc, column)?,
        value,
    })
}

// The publisher makes a row of two columns.
fn inserted(
    alloc: Global,
    article: &str,
    first: NamedValue,
    second: NamedValue,
) -> Result<Event, NoMemory>
    ensures { IfOk result (λ event. event ≡ event_of_insert article.now first second) }
{
    let mut values = Listing::empty(alloc);
    values.push(first)?;
    values.push(second)?;
    Ok(Event::Insert {
        site: PUBLISHER,
        article: Words::of(alloc, article)?,
        values,
    })
}

// A site sets a column of a customer.
fn updated(
    alloc: Global,
    site: SiteId,
    place: u32,
    column: &str,
    value: Value,
) -> Result<Event, NoMemory>
    ensures { IfOk result (λ event. event ≡ event_of_update site (place + 1) column.now value) }
{
    let mut values = Listing::empty(alloc);
    values.push(set(alloc, column, value)?)?;
    Ok(Event::Update {
        site,
        article: Words::of(alloc, "customer")?,
        row: row(place),
        values,
    })
}

fn customer(alloc: Global, place: u32) -> Result<Event, NoMemory>
    ensures { IfOk result (λ event. event ≡ customer (place + 1)) }
{
    let id = set(alloc, "id", number(place))?;
    let region = set(alloc, "region", region(alloc, place as u64 + 1)?)?;
    inserted(alloc, "customer", id, region)
}

fn order(alloc: Global, place: u32) -> Result<Event, NoMemory>
    ensures { IfOk result (λ event. event ≡ order (place + 1)) }
{
    let id = set(alloc, "id", number(place))?;
    let owner = (place as i64 + 1 + 1) / 2;
    let owner = set(alloc, "cust", Value::Int(owner))?;
    inserted(alloc, "orders", id, owner)
}

fn credited(alloc: Global, place: u32) -> Result<Event, NoMemory>
    ensures { IfOk result (λ event. event ≡ event_of_credit (place + 1)) }
{
    let site = SiteId(((place as u64 + 1) % 3 + 1) as u16);
    updated(alloc, site, place, "credit", number(place))
}

fn cleared(alloc: Global, place: u32) -> Result<Event, NoMemory>
    ensures { IfOk result (λ event. event ≡ event_of_clearing (place + 1)) }
{
    updated(alloc, PUBLISHER, place, "credit", Value::Int(0))
}

fn moved(alloc: Global, place: u32) -> Result<Event, NoMemory>
    ensures { IfOk result (λ event. event ≡ event_of_move (place + 1)) }
{
    let region = region(alloc, place as u64 + 1 + 1)?;
    updated(alloc, PUBLISHER, place, "region", region)
}

fn deleted(alloc: Global, place: u32) -> Result<Event, NoMemory>
    ensures { IfOk result (λ event. event ≡ event_of_delete (place + 1)) }
{
    Ok(Event::Delete {
        site: PUBLISHER,
        article: Words::of(alloc, "orders")?,
        row: row(place),
    })
}
