//! Words that name a choice.
ghost use Rattle.std.specs.Prelude.{◌≡◌, ◌<◌, IfSome};
ghost use Rattle.merge_schema.specs.FileTables.{tracking_named, type_named, kind_named, handler_named, resolver_named, if_in_list, needs_column};

use crate::publication::SubscriptionKind;
use merge_types::{ColumnType, Tracking};

pub fn tracking_named(text: &str) -> Option<Tracking>
    ensures { result ≡ tracking_named text.now }
{
    if text == "row" {
        Some(Tracking::Row)
    } else if text == "column" {
        Some(Tracking::ByColumn)
    } else {
        None
    }
}

pub fn type_named(text: &str) -> Option<ColumnType>
    ensures { result ≡ type_named text.now }
{
    if text == "int" {
        Some(ColumnType::Int)
    } else if text == "bit" {
        Some(ColumnType::Bit)
    } else if text == "text" {
        Some(ColumnType::Text)
    } else if text == "day" {
        Some(ColumnType::Day)
    } else if text == "guid" {
        Some(ColumnType::Guid)
    } else if text == "bytes" {
        Some(ColumnType::Bytes)
    } else {
        None
    }
}

pub fn kind_named(text: &str) -> Option<SubscriptionKind>
    ensures { result ≡ kind_named text.now }
{
    if text == "server" {
        Some(SubscriptionKind::Server)
    } else if text == "client" {
        Some(SubscriptionKind::Client)
    } else {
        None
    }
}

fn handler_named(text: &str) -> Option<u8>
    ensures { result ≡ handler_named text.now }
{
    if text == "handler5" {
        Some(5)
    } else if text == "handler6" {
        Some(6)
    } else if text == "handler7" {
        Some(7)
    } else if text == "handler8" {
        Some(8)
    } else if text == "handler9" {
        Some(9)
    } else if text == "handler10" {
        Some(10)
    } else if text == "handler11" {
        Some(11)
    } else if text == "handler12" {
        Some(12)
    } else if text == "handler13" {
        Some(13)
    } else if text == "handler14" {
        Some(14)
    } else if text == "handler15" {
        Some(15)
    } else {
        None
    }
}

fn resolver_named(text: &str) -> Option<u8>
    ensures { result ≡ resolver_named text.now }
{
    if text == "priority" {
        Some(0)
    } else if text == "maximum" {
        Some(1)
    } else if text == "minimum" {
        Some(2)
    } else if text == "additive" {
        Some(3)
    } else if text == "subscriber" {
        Some(4)
    } else {
        handler_named(text)
    }
}

/// The place of a resolver in a list of so many.
pub fn resolver_within(text: &str, resolvers: usize) -> Option<u8>
    ensures place { result ≡ if_in_list resolvers (resolver_named text.now) }
    ensures within { IfSome result (λ place. place < resolvers) }
{
    match resolver_named(text) {
        Some(place) if (place as usize) < resolvers => Some(place),
        _ => None,
    }
}

/// Whether the resolver at a place decides by a column.
pub fn needs_column(resolver: u8) -> bool
    ensures { result ≡ needs_column resolver }
{
    resolver == 1 || resolver == 2 || resolver == 3
}
