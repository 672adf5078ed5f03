//! The keys of each table.
ghost use Rattle.std.specs.Prelude.{◌≡◌, option_copied, find, not, string_bytes};
ghost use Rattle.std.specs.BTreeMap.{keys};
ghost use Rattle.toml.specs.View.{table_view};
ghost use Rattle.merge_schema.specs.Keys.{is_key, known_only};
ghost use Rattle.merge_schema.specs.declared.keys.Shape.TheVariants.{Top, Article, Column, Identity, Join, Subscription};
ghost use Rattle.merge_schema.specs.Steps.{Gives};

use crate::fault::SchemaFault;
use crate::file_values::bad_value;
use std::alloc::Global;
use toml::Table;

/// The kinds of tables.
#[derive(Clone, Copy, Debug, PartialEq, Eq)]
pub enum Shape {
    Top,
    Article,
    Column,
    Identity,
    Join,
    Subscription,
}

// Whether the publication's own table may have the key.
fn is_top_key(key: &str) -> bool
    ensures { result ≡ is_key Top key.now }
{
    key == "name"
        || key == "retention_days"
        || key == "conflict_retention_days"
        || key == "article"
        || key == "subscription"
}

// Whether an article may have the key.
fn is_article_key(key: &str) -> bool
    ensures { result ≡ is_key Article key.now }
{
    key == "name"
        || key == "tracking"
        || key == "filter"
        || key == "resolver"
        || key == "resolver_column"
        || key == "column"
        || key == "join"
}

// Whether a column may have the key.
fn is_column_key(key: &str) -> bool
    ensures { result ≡ is_key Column key.now }
{
    key == "name" || key == "type" || key == "identity"
}

// Whether the table of an identity column may have the key.
fn is_identity_key(key: &str) -> bool
    ensures { result ≡ is_key Identity key.now }
{
    key == "seed" || key == "range" || key == "pub_range" || key == "threshold" || key == "greatest"
}

// Whether a join may have the key.
fn is_join_key(key: &str) -> bool
    ensures { result ≡ is_key Join key.now }
{
    key == "column" || key == "parent" || key == "parent_column"
}

// Whether a subscription may have the key.
fn is_subscription_key(key: &str) -> bool
    ensures { result ≡ is_key Subscription key.now }
{
    key == "site" || key == "host" || key == "kind" || key == "priority"
}

// Whether a table of this kind may have the key.
fn is_key(shape: Shape, key: &str) -> bool
    ensures { result ≡ is_key shape key.now }
{
    match shape {
        Shape::Top => is_top_key(key),
        Shape::Article => is_article_key(key),
        Shape::Column => is_column_key(key),
        Shape::Identity => is_identity_key(key),
        Shape::Join => is_join_key(key),
        Shape::Subscription => is_subscription_key(key),
    }
}

// The first key, in byte order, that the table may not have.
fn first_unknown(table: &Table, shape: Shape) -> Option<&String>
    ensures { option_copied result ≡ find (λ k. not (is_key shape (string_bytes k))) (keys table.now) }
{
    table.keys().find(|key| !is_key(shape, key.as_str()))
}

/// Refuses the first key, in byte order, that the table may not have.
pub fn known_only(alloc: Global, table: &Table, shape: Shape) -> Result<(), SchemaFault>
    ensures { Gives (λ x. x) result (known_only shape (table_view table.now)) }
{
    match first_unknown(table, shape) {
        None => Ok(()),
        Some(key) => Err(bad_value(alloc, key.as_str())),
    }
}
