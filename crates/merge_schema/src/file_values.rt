//! The values that stand at keys.
ghost use Rattle.std.specs.Prelude.{◌≡◌, ◌≢◌, ◌≤◌, IfOk, List, [], int_le, length, map, option_map, true};
ghost use Rattle.merge_script.specs.Names.{is_name_text};
ghost use Rattle.toml.specs.Data.{get_member};
ghost use Rattle.toml.specs.View.{table_view, view};
ghost use Rattle.merge_schema.specs.declared.fault.SchemaFault.TheVariants.{Missing, BadValue, TooMany, NoMemory};
ghost use Rattle.merge_schema.specs.Steps.{Gives};
ghost use Rattle.merge_schema.specs.FileValues.{or_missing, or_bad, needed, optional, natural, is_table, any_text, some_text, text_within, some_text_within, name_text, integer_from, count_from, as_list, tables_from, one_table};
ghost use Rattle.std.specs.List.{list_all};

use crate::fault::SchemaFault;
use merge_script::is_name;
use merge_types::Words;
use std::alloc::Global;
use toml::{Table, Value};

/// The refusal of a table that lacks a key.
pub fn missing(alloc: Global, key: &str) -> SchemaFault
    ensures { result ≢ NoMemory → result ≡ Missing key.now }
{
    match Words::of(alloc, key) {
        Ok(key) => SchemaFault::Missing { key },
        Err(_) => SchemaFault::NoMemory,
    }
}

/// The refusal of a value, or of an unknown key.
pub fn bad_value(alloc: Global, key: &str) -> SchemaFault
    ensures { result ≢ NoMemory → result ≡ BadValue key.now }
{
    match Words::of(alloc, key) {
        Ok(key) => SchemaFault::BadValue { key },
        Err(_) => SchemaFault::NoMemory,
    }
}

fn too_many(alloc: Global, what: &str, number: usize) -> SchemaFault
    ensures { result ≢ NoMemory → result ≡ TooMany what.now number }
{
    match Words::of(alloc, what) {
        Ok(what) => SchemaFault::TooMany {
            what,
            number: number as u64,
        },
        Err(_) => SchemaFault::NoMemory,
    }
}

/// The value, which the key refuses where there is none.
pub fn fitting<T: Drop>(alloc: Global, value: Option<T>, key: &str) -> Result<T, SchemaFault>
    ensures { Gives (λ x. x) result (or_bad key.now value) }
{
    match value {
        Some(value) => Ok(value),
        None => Err(bad_value(alloc, key)),
    }
}

/// The value at a key.
pub fn value_at<'a>(table: &'a Table, key: &str) -> Option<&'a Value>
    ensures { get_member key.now (table_view table.now) ≡ option_map (λ v. view v.now) result }
{
    table.get(key)
}

// The value at a key that must be there.
fn needed<'a>(alloc: Global, table: &'a Table, key: &str) -> Result<&'a Value, SchemaFault>
    ensures { Gives (λ v. view v.now) result (or_missing key.now (get_member key.now (table_view table.now))) }
{
    match value_at(table, key) {
        Some(value) => Ok(value),
        None => Err(missing(alloc, key)),
    }
}

fn any_text<'a>(alloc: Global, value: &'a Value, key: &str) -> Result<&'a str, SchemaFault>
    ensures { Gives (λ t. t.now) result (any_text key.now (view value.now)) }
{
    match value.as_str() {
        Some(text) => Ok(text),
        None => Err(bad_value(alloc, key)),
    }
}

fn text_within(alloc: Global, value: &Value, key: &str, most: usize) -> Result<Words, SchemaFault>
    ensures text { Gives (λ t. t) result (text_within most key.now (view value.now)) }
    ensures short { IfOk result (λ t. length t ≤ most) }
{
    let text = any_text(alloc, value, key)?;
    if text.len() <= most {
        Ok(Words::of(alloc, text)?)
    } else {
        Err(bad_value(alloc, key))
    }
}

fn name_text(alloc: Global, value: &Value, key: &str) -> Result<Words, SchemaFault>
    ensures text { Gives (λ t. t) result (name_text key.now (view value.now)) }
    ensures named { IfOk result (λ t. is_name_text t ≡ true) }
{
    let text = any_text(alloc, value, key)?;
    if is_name(text.as_bytes()) {
        Ok(Words::of(alloc, text)?)
    } else {
        Err(bad_value(alloc, key))
    }
}

fn integer_from(
    alloc: Global,
    value: &Value,
    key: &str,
    low: i64,
    high: i64,
) -> Result<i64, SchemaFault>
    ensures integer { Gives (λ z. z) result (integer_from low high key.now (view value.now)) }
    ensures within { IfOk result (λ z. (int_le low z ≡ true) × (int_le z high ≡ true)) }
{
    match value.as_integer() {
        Some(number) if low <= number && number <= high => Ok(number),
        _ => Err(bad_value(alloc, key)),
    }
}

// A number from 0 on.
fn natural(number: i64) -> Option<u64>
    ensures { result ≡ natural number }
{
    if number < 0 {
        None
    } else {
        Some(number as u64)
    }
}

/// A number in a range.
pub fn count_from(
    alloc: Global,
    value: &Value,
    key: &str,
    low: u32,
    high: u32,
) -> Result<u32, SchemaFault>
    ensures count { Gives (λ n. n) result (count_from low high key.now (view value.now)) }
    ensures within { IfOk result (λ n. (low ≤ n) × (n ≤ high)) }
{
    let number = fitting(alloc, value.as_integer(), key)?;
    let number = fitting(alloc, natural(number), key)?;
    if low as u64 <= number && number <= high as u64 {
        Ok(number as u32)
    } else {
        Err(bad_value(alloc, key))
    }
}

/// A name that must be there.
pub fn name_at(alloc: Global, table: &Table, key: &str) -> Result<Words, SchemaFault>
    ensures text { Gives (λ t. t) result (needed key.now name_text (table_view table.now)) }
    ensures named { IfOk result (λ t. is_name_text t ≡ true) }
{
    name_text(alloc, needed(alloc, table, key)?, key)
}

/// A text that must be there.
pub fn text_at<'a>(alloc: Global, table: &'a Table, key: &str) -> Result<&'a str, SchemaFault>
    ensures { Gives (λ t. t.now) result (needed key.now any_text (table_view table.now)) }
{
    any_text(alloc, needed(alloc, table, key)?, key)
}

/// A text of at most so many bytes that must be there.
pub fn short_text_at(
    alloc: Global,
    table: &Table,
    key: &str,
    most: usize,
) -> Result<Words, SchemaFault>
    ensures text { Gives (λ t. t) result (needed key.now (text_within most) (table_view table.now)) }
    ensures short { IfOk result (λ t. length t ≤ most) }
{
    text_within(alloc, needed(alloc, table, key)?, key, most)
}

/// A number in a range that must be there.
pub fn count_at(
    alloc: Global,
    table: &Table,
    key: &str,
    low: u32,
    high: u32,
) -> Result<u32, SchemaFault>
    ensures count { Gives (λ n. n) result (needed key.now (count_from low high) (table_view table.now)) }
    ensures within { IfOk result (λ n. (low ≤ n) × (n ≤ high)) }
{
    count_from(alloc, needed(alloc, table, key)?, key, low, high)
}

/// A text, or the default where there is none.
pub fn text_or<'a>(
    alloc: Global,
    table: &'a Table,
    key: &str,
    default: &'a str,
) -> Result<&'a str, SchemaFault>
    ensures { Gives (λ t. t.now) result (optional key.now default.now any_text (table_view table.now)) }
{
    match value_at(table, key) {
        Some(value) => any_text(alloc, value, key),
        None => Ok(default),
    }
}

/// A text, where there is one.
pub fn text_if(alloc: Global, table: &Table, key: &str) -> Result<Option<Words>, SchemaFault>
    ensures { Gives (λ t. t) result (optional key.now None some_text (table_view table.now)) }
{
    match value_at(table, key) {
        Some(value) => {
            let text = any_text(alloc, value, key)?;
            Ok(Some(Words::of(alloc, text)?))
        }
        None => Ok(None),
    }
}

/// A text of at most so many bytes, where there is one.
pub fn short_text_if(
    alloc: Global,
    table: &Table,
    key: &str,
    most: usize,
) -> Result<Option<Words>, SchemaFault>
    ensures { Gives (λ t. t) result (optional key.now None (some_text_within most) (table_view table.now)) }
{
    match value_at(table, key) {
        Some(value) => Ok(Some(text_within(alloc, value, key, most)?)),
        None => Ok(None),
    }
}

/// A number in a range, or the default where there is none.
pub fn count_or(
    alloc: Global,
    table: &Table,
    key: &str,
    default: u32,
    low: u32,
    high: u32,
) -> Result<u32, SchemaFault>
    requires low { low ≤ default }
    requires high { default ≤ high }
    ensures count { Gives (λ n. n) result (optional key.now default (count_from low high) (table_view table.now)) }
    ensures within { IfOk result (λ n. (low ≤ n) × (n ≤ high)) }
{
    match value_at(table, key) {
        Some(value) => count_from(alloc, value, key, low, high),
        None => Ok(default),
    }
}

/// An integer in a range, or the default where there is none.
pub fn integer_or(
    alloc: Global,
    table: &Table,
    key: &str,
    default: i64,
    low: i64,
    high: i64,
) -> Result<i64, SchemaFault>
    requires low { int_le low default ≡ true }
    requires high { int_le default high ≡ true }
    ensures integer { Gives (λ z. z) result (optional key.now default (integer_from low high) (table_view table.now)) }
    ensures within { IfOk result (λ z. (int_le low z ≡ true) × (int_le z high ≡ true)) }
{
    match value_at(table, key) {
        Some(value) => integer_from(alloc, value, key, low, high),
        None => Ok(default),
    }
}

// The elements of an array.
fn elements(value: &Value) -> Option<&[Value]>
    ensures { option_map (λ vs. map view vs.now) result ≡ as_list (view value.now) }
{
    match value.as_array() {
        Some(values) => Some(values.as_slice()),
        None => None,
    }
}

fn are_tables(values: &[Value]) -> bool
    ensures { result ≡ list_all (λ v. is_table (view v)) values.now }
{
    values.iter().all(|value| value.is_table())
}

fn tables_from<'a>(
    alloc: Global,
    value: &'a Value,
    key: &str,
    least: usize,
    most: usize,
) -> Result<&'a [Value], SchemaFault>
    ensures tables { Gives (λ vs. map view vs.now) result (tables_from least most key.now (view value.now)) }
    ensures within { IfOk result (λ vs. (least ≤ length vs.now) × (length vs.now ≤ most)) }
{
    match elements(value) {
        None => Err(bad_value(alloc, key)),
        Some(values) => {
            if values.len() < least {
                Err(bad_value(alloc, key))
            } else if values.len() > most {
                Err(too_many(alloc, key, values.len()))
            } else if are_tables(values) {
                Ok(values)
            } else {
                Err(bad_value(alloc, key))
            }
        }
    }
}

/// An array of one to so many tables that must be there.
pub fn tables_at<'a>(
    alloc: Global,
    table: &'a Table,
    key: &str,
    most: usize,
) -> Result<&'a [Value], SchemaFault>
    ensures tables { Gives (λ vs. map view vs.now) result (needed key.now (tables_from 1 most) (table_view table.now)) }
    ensures within { IfOk result (λ vs. (1 ≤ length vs.now) × (length vs.now ≤ most)) }
{
    tables_from(alloc, needed(alloc, table, key)?, key, 1, most)
}

/// An array of at most so many tables, and none where the key is absent.
pub fn tables_or_none<'a>(
    alloc: Global,
    table: &'a Table,
    key: &str,
    most: usize,
) -> Result<&'a [Value], SchemaFault>
    ensures tables { Gives (λ vs. map view vs.now) result (optional key.now [] (tables_from 0 most) (table_view table.now)) }
    ensures within { IfOk result (λ vs. length vs.now ≤ most) }
{
    match value_at(table, key) {
        Some(value) => tables_from(alloc, value, key, 0, most),
        None => Ok(&[]),
    }
}

/// The table that a value is.
pub fn one_table<'a>(alloc: Global, value: &'a Value, key: &str) -> Result<&'a Table, SchemaFault>
    ensures { Gives (λ t. table_view t.now) result (one_table key.now (view value.now)) }
{
    match value.as_table() {
        Some(table) => Ok(table),
        None => Err(bad_value(alloc, key)),
    }
}
