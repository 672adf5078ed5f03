//! The tables of a publication file, before the names in them are looked up.
ghost use Rattle.std.specs.Prelude.{◌≡◌, ◌<◌, ◌≤◌, ◌+◌, ◌⊎◌, All, IfOk, IsSome, true, List, [], map, length, option_map, is_some, Some, None, codes};
ghost use Rattle.toml.specs.View.{table_view, view};
ghost use Rattle.merge_script.specs.Names.{is_name_text};
ghost use Rattle.merge_types.specs.declared.values.ColumnType.TheVariants as types;
ghost use Rattle.merge_types.specs.declared.values.Column.{Column};
ghost use Rattle.merge_schema.specs.declared.draft.ArticleDraft.{ArticleDraft};
ghost use Rattle.merge_schema.specs.declared.publication.SubscriptionKind.TheVariants.{Client};
ghost use Rattle.merge_schema.specs.declared.publication.Subscription.{Subscription};
ghost use Rattle.merge_schema.specs.Valid.{HasValidRanges, HasValidIdentity, IsValidSubscription};
ghost use Rattle.merge_schema.specs.ValidTables.{IsNewIdentity, IsColumnIdentity, IsValidDraft, HasValidTables};
ghost use Rattle.merge_schema.specs.Steps.{Gives};
ghost use Rattle.merge_schema.specs.FileTables.{tracking_at, resolver_at, type_at, kind_at, needs_column, resolver_column, each_table, identity_table, priority_for, identity_of, identity_within, column_of, columns_from, join_of, article_of, subscription_of, draft_of};
ghost use Rattle.merge_schema.specs.FileValues.{optional};

use crate::choices::{kind_named, needs_column, resolver_within, tracking_named, type_named};
use crate::draft::{ArticleDraft, Draft, JoinDraft};
use crate::fault::SchemaFault;
use crate::file_values::{
    bad_value, count_at, count_from, count_or, fitting, integer_or, missing, name_at, one_table,
    short_text_at, short_text_if, tables_at, tables_or_none, text_at, text_if, text_or, value_at,
};
use crate::keys::{Shape, known_only};
use crate::publication::{Identity, Subscription, SubscriptionKind};
use merge_types::limits::FILTER_LIMIT;
use merge_types::{Column, ColumnType, HostName, Listing, SiteId, Tracking, Words};
use std::alloc::Global;
use toml::{Table, Value};

const ARTICLES: usize = 32;

const COLUMNS: usize = 64;

const JOINS: usize = 8;

const SUBSCRIPTIONS: usize = 63;

const HOST_BYTES: usize = 128;

const DAYS: u32 = 3650;

const GREATEST: i64 = i64::MAX;

const RANGE: u32 = 1_000_000_000;

fn tracking_at(alloc: Global, table: &Table) -> Result<Tracking, SchemaFault>
    ensures { Gives (λ x. x) result (tracking_at (table_view table.now)) }
{
    let word = text_or(alloc, table, "tracking", "row")?;
    fitting(alloc, tracking_named(word), "tracking")
}

fn resolver_at(alloc: Global, table: &Table, resolvers: usize) -> Result<u8, SchemaFault>
    ensures resolver { Gives (λ x. x) result (resolver_at resolvers (table_view table.now)) }
    ensures within { IfOk result (λ x. x < resolvers) }
{
    let word = text_or(alloc, table, "resolver", "priority")?;
    match resolver_within(word, resolvers) {
        Some(place) => Ok(place),
        None => Err(bad_value(alloc, "resolver")),
    }
}

fn resolver_column_at(
    alloc: Global,
    table: &Table,
    resolver: u8,
) -> Result<Option<Words>, SchemaFault>
    ensures column { Gives (λ x. x) result (resolver_column resolver (table_view table.now)) }
    ensures needed { IfOk result (λ x. needs_column resolver ≡ true → IsSome x) }
{
    match text_if(alloc, table, "resolver_column")? {
        Some(name) => Ok(Some(name)),
        None => {
            if needs_column(resolver) {
                Err(missing(alloc, "resolver_column"))
            } else {
                Ok(None)
            }
        }
    }
}

fn type_at(alloc: Global, table: &Table) -> Result<ColumnType, SchemaFault>
    ensures { Gives (λ x. x) result (type_at (table_view table.now)) }
{
    let word = text_at(alloc, table, "type")?;
    fitting(alloc, type_named(word), "type")
}

fn kind_at(alloc: Global, table: &Table) -> Result<SubscriptionKind, SchemaFault>
    ensures { Gives (λ x. x) result (kind_at (table_view table.now)) }
{
    let word = text_or(alloc, table, "kind", "client")?;
    fitting(alloc, kind_named(word), "kind")
}

fn identity_at<'a>(
    alloc: Global,
    table: &'a Table,
    ty: ColumnType,
    taken: bool,
) -> Result<Option<&'a Table>, SchemaFault>
    ensures table { Gives (λ x. option_map (λ t. table_view t.now) x) result (optional (codes "identity") None (identity_table ty taken) (table_view table.now)) }
    ensures of_int { IfOk result (λ x. IsSome x → ty ≡ types.Int) }
{
    match value_at(table, "identity") {
        None => Ok(None),
        Some(value) => {
            if ty == ColumnType::Int && !taken {
                Ok(Some(one_table(alloc, value, "identity")?))
            } else {
                Err(bad_value(alloc, "identity"))
            }
        }
    }
}

#[tactic(auto, unfolding(crate::specs::FileTables::identity_of))]
fn identity_of(alloc: Global, table: &Table, column: u8) -> Result<Identity, SchemaFault>
    ensures identity { Gives (λ x. x) result (identity_of column (table_view table.now)) }
    ensures valid { IfOk result (λ x. (x.column ≡ column) × HasValidRanges x) }
{
    known_only(alloc, table, Shape::Identity)?;
    let seed = integer_or(alloc, table, "seed", 1, 1, GREATEST)?;
    let range = count_at(alloc, table, "range", 1, RANGE)?;
    let pub_range = count_at(alloc, table, "pub_range", 1, RANGE)?;
    let threshold = count_or(alloc, table, "threshold", 80, 1, 100)?;
    let greatest = integer_or(alloc, table, "greatest", GREATEST, seed, GREATEST)?;
    Ok(Identity {
        column,
        seed,
        range,
        pub_range,
        threshold: threshold as u8,
        greatest,
    })
}

fn identity_within(
    alloc: Global,
    table: Option<&Table>,
    place: u8,
    so_far: Option<Identity>,
) -> Result<Option<Identity>, SchemaFault>
    ensures identity { Gives (λ x. x) result (identity_within place so_far (option_map (λ t. table_view t.now) table.entry)) }
    ensures valid { IfOk result (λ x. (x ≡ so_far) ⊎ (IsSome table.entry × IsNewIdentity place x)) }
{
    match table {
        Some(table) => Ok(Some(identity_of(alloc, table, place)?)),
        None => Ok(so_far),
    }
}

#[tactic(auto, using(crate::proofs::Identities::brought), unfolding(crate::specs::FileTables::column_of))]
fn column_of(
    alloc: Global,
    table: &Table,
    place: u8,
    so_far: Option<Identity>,
) -> Result<(Column, Option<Identity>), SchemaFault>
    ensures column { Gives (λ x. (x.0, x.1)) result (column_of place so_far (table_view table.now)) }
    ensures named { IfOk result (λ x. is_name_text x.0.name ≡ true) }
    ensures identity { IfOk result (λ x. IsColumnIdentity place x.0 so_far x.1) }
{
    known_only(alloc, table, Shape::Column)?;
    let name = name_at(alloc, table, "name")?;
    let ty = type_at(alloc, table)?;
    let inner = identity_at(alloc, table, ty, so_far.is_some())?;
    let identity = identity_within(alloc, inner, place, so_far)?;
    Ok((Column { name, ty }, identity))
}

fn columns_of(
    alloc: Global,
    values: &[Value],
) -> Result<(Listing<Column>, Option<Identity>), SchemaFault>
    requires { length values.now ≤ 64 }
    ensures columns { Gives (λ x. (x.0, x.1)) result (columns_from 0 None (map view values.now)) }
    ensures long { IfOk result (λ x. length x.0 ≡ length values.now) }
    ensures named { IfOk result (λ x. All (λ (column : Column). is_name_text column.name ≡ true) x.0) }
    ensures valid { IfOk result (λ x. HasValidIdentity x.0 x.1) }
{
    let mut columns = Listing::empty(alloc);
    let mut identity = None;
    let mut place = 0;
    for value in values {
        let table = one_table(alloc, value, "column")?;
        let (column, now) = column_of(alloc, table, place, identity)?;
        columns.push(column)?;
        identity = now;
        place += 1;
    }
    Ok((columns, identity))
}

#[tactic(auto, unfolding(crate::specs::FileTables::join_of))]
fn join_of(alloc: Global, table: &Table) -> Result<JoinDraft, SchemaFault>
    ensures { Gives (λ x. x) result (join_of (table_view table.now)) }
{
    known_only(alloc, table, Shape::Join)?;
    let column = text_at(alloc, table, "column")?;
    let parent = text_at(alloc, table, "parent")?;
    let parent_column = text_at(alloc, table, "parent_column")?;
    Ok(JoinDraft {
        column: Words::of(alloc, column)?,
        parent: Words::of(alloc, parent)?,
        parent_column: Words::of(alloc, parent_column)?,
    })
}

fn joins_of(alloc: Global, values: &[Value]) -> Result<Listing<JoinDraft>, SchemaFault>
    ensures joins { Gives (λ x. x) result (each_table (codes "join") join_of (map view values.now)) }
    ensures long { IfOk result (λ x. length x ≡ length values.now) }
{
    let mut joins = Listing::empty(alloc);
    for value in values {
        let join = join_of(alloc, one_table(alloc, value, "join")?)?;
        joins.push(join)?;
    }
    Ok(joins)
}

#[tactic(auto, unfolding(crate::specs::FileTables::article_of))]
fn article_of(alloc: Global, table: &Table, resolvers: usize) -> Result<ArticleDraft, SchemaFault>
    ensures article { Gives (λ x. x) result (article_of resolvers (table_view table.now)) }
    ensures valid { IfOk result (λ article. IsValidDraft resolvers article) }
{
    known_only(alloc, table, Shape::Article)?;
    let name = name_at(alloc, table, "name")?;
    let tracking = tracking_at(alloc, table)?;
    let filter = short_text_if(alloc, table, "filter", FILTER_LIMIT)?;
    let resolver = resolver_at(alloc, table, resolvers)?;
    let resolver_column = resolver_column_at(alloc, table, resolver)?;
    let column_tables = tables_at(alloc, table, "column", COLUMNS)?;
    let join_tables = tables_or_none(alloc, table, "join", JOINS)?;
    let (columns, identity) = columns_of(alloc, column_tables)?;
    let joins = joins_of(alloc, join_tables)?;
    Ok(ArticleDraft {
        name,
        tracking,
        filter,
        resolver,
        resolver_column,
        columns,
        identity,
        joins,
    })
}

fn articles_of(
    alloc: Global,
    values: &[Value],
    resolvers: usize,
) -> Result<Listing<ArticleDraft>, SchemaFault>
    ensures articles { Gives (λ x. x) result (each_table (codes "article") (article_of resolvers) (map view values.now)) }
    ensures long { IfOk result (λ articles. length articles ≡ length values.now) }
    ensures valid { IfOk result (λ articles. All (λ (article : ArticleDraft). IsValidDraft resolvers article) articles) }
{
    let mut articles = Listing::empty(alloc);
    for value in values {
        let article = article_of(alloc, one_table(alloc, value, "article")?, resolvers)?;
        articles.push(article)?;
    }
    Ok(articles)
}

fn priority_at(alloc: Global, table: &Table, kind: SubscriptionKind) -> Result<u16, SchemaFault>
    ensures priority { Gives (λ x. x) result (optional (codes "priority") 0 (priority_for kind) (table_view table.now)) }
    ensures low { IfOk result (λ x. x ≤ 9999) }
    ensures none { IfOk result (λ x. kind ≡ Client → x ≡ 0) }
{
    match value_at(table, "priority") {
        None => Ok(0),
        Some(value) => match kind {
            SubscriptionKind::Client => Err(bad_value(alloc, "priority")),
            SubscriptionKind::Server => Ok(count_from(alloc, value, "priority", 0, 9999)? as u16),
        },
    }
}

#[tactic(auto, unfolding(crate::specs::FileTables::subscription_of))]
fn subscription_of(alloc: Global, table: &Table) -> Result<Subscription, SchemaFault>
    ensures subscription { Gives (λ x. x) result (subscription_of (table_view table.now)) }
    ensures valid { IfOk result (λ x. IsValidSubscription x) }
{
    known_only(alloc, table, Shape::Subscription)?;
    let site = count_at(alloc, table, "site", 1, 63)?;
    let host = short_text_at(alloc, table, "host", HOST_BYTES)?;
    let kind = kind_at(alloc, table)?;
    let priority = priority_at(alloc, table, kind)?;
    Ok(Subscription {
        site: SiteId(site as u16),
        host: HostName(host),
        kind,
        priority,
    })
}

fn subscriptions_of(alloc: Global, values: &[Value]) -> Result<Listing<Subscription>, SchemaFault>
    ensures subscriptions { Gives (λ x. x) result (each_table (codes "subscription") subscription_of (map view values.now)) }
    ensures long { IfOk result (λ x. length x ≡ length values.now) }
    ensures valid { IfOk result (λ x. All (λ (subscription : Subscription). IsValidSubscription subscription) x) }
{
    let mut subscriptions = Listing::empty(alloc);
    for value in values {
        let subscription = subscription_of(alloc, one_table(alloc, value, "subscription")?)?;
        subscriptions.push(subscription)?;
    }
    Ok(subscriptions)
}

/// What the document's tables say: the top table's keys, then each article, then each subscription.
#[tactic(auto, unfolding(crate::specs::FileTables::draft_of))]
pub fn draft_of(alloc: Global, table: &Table, resolvers: usize) -> Result<Draft, SchemaFault>
    ensures draft { Gives (λ x. x) result (draft_of resolvers (table_view table.now)) }
    ensures valid { IfOk result (λ draft. HasValidTables resolvers draft) }
{
    known_only(alloc, table, Shape::Top)?;
    let name = name_at(alloc, table, "name")?;
    let retention_days = count_or(alloc, table, "retention_days", 14, 1, DAYS)?;
    let conflict_retention_days = count_or(alloc, table, "conflict_retention_days", 14, 1, DAYS)?;
    let article_tables = tables_at(alloc, table, "article", ARTICLES)?;
    let subscription_tables = tables_or_none(alloc, table, "subscription", SUBSCRIPTIONS)?;
    let articles = articles_of(alloc, article_tables, resolvers)?;
    let subscriptions = subscriptions_of(alloc, subscription_tables)?;
    Ok(Draft {
        name,
        retention_days,
        conflict_retention_days,
        articles,
        subscriptions,
    })
}
