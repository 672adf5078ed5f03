//! The publication of the script.
ghost use Rattle.std.specs.Prelude.{◌≡◌, ◌∷◌, [], IfOk};
ghost use Rattle.merge_schema.specs.Valid.{IsValid};
ghost use Rattle.merge_make.specs.Publication.{client, customer, customer_columns, made_publication, of_region, order_columns, orders};

use merge_filter::{Filter, parse};
use merge_schema::{Article, JoinFilter, Publication, Subscription, SubscriptionKind};
use merge_types::{Column, ColumnType, HostName, Listing, NoMemory, SiteId, Tracking, Words};
use std::alloc::Global;

fn column(alloc: Global, name: &str, ty: ColumnType) -> Result<Column, NoMemory>
    ensures { IfOk result (λ column. column ≡ record { name = name.now; ty = ty }) }
{
    Ok(Column {
        name: Words::of(alloc, name)?,
        ty,
    })
}

fn customer_columns(alloc: Global) -> Result<Listing<Column>, NoMemory>
    ensures { IfOk result (λ columns. columns ≡ customer_columns) }
{
    let mut columns = Listing::empty(alloc);
    columns.push(column(alloc, "id", ColumnType::Int)?)?;
    columns.push(column(alloc, "region", ColumnType::Text)?)?;
    columns.push(column(alloc, "credit", ColumnType::Int)?)?;
    Ok(columns)
}

fn order_columns(alloc: Global) -> Result<Listing<Column>, NoMemory>
    ensures { IfOk result (λ columns. columns ≡ order_columns) }
{
    let mut columns = Listing::empty(alloc);
    columns.push(column(alloc, "id", ColumnType::Int)?)?;
    columns.push(column(alloc, "cust", ColumnType::Int)?)?;
    Ok(columns)
}

// The rows of a region are its host's.
fn of_region(alloc: Global, columns: &[Column]) -> Result<Filter, NoMemory>
    requires { columns.now ≡ customer_columns }
    ensures { IfOk result (λ filter. filter ≡ of_region) }
{
    match parse(alloc, b"region = HOST_NAME()", columns) {
        Ok(filter) => Ok(filter),
        // The text is a filter, so that only memory can be wanting.
        Err(_) => Err(NoMemory),
    }
}

fn customer(alloc: Global) -> Result<Article, NoMemory>
    ensures { IfOk result (λ article. article ≡ customer) }
{
    let columns = customer_columns(alloc)?;
    let filter = of_region(alloc, columns.as_slice())?;
    Ok(Article {
        name: Words::of(alloc, "customer")?,
        columns,
        tracking: Tracking::Row,
        filter: Some(filter),
        joins: Listing::empty(alloc),
        identity: None,
        resolver: 0,
        resolver_column: None,
    })
}

fn orders(alloc: Global) -> Result<Article, NoMemory>
    ensures { IfOk result (λ article. article ≡ orders) }
{
    let mut joins = Listing::empty(alloc);
    joins.push(JoinFilter {
        column: 1,
        parent: 0,
        parent_column: 0,
    })?;
    Ok(Article {
        name: Words::of(alloc, "orders")?,
        columns: order_columns(alloc)?,
        tracking: Tracking::Row,
        filter: None,
        joins,
        identity: None,
        resolver: 0,
        resolver_column: None,
    })
}

fn client(alloc: Global, site: u16, host: &str) -> Result<Subscription, NoMemory>
    ensures { IfOk result (λ subscription. subscription ≡ client site host.now) }
{
    Ok(Subscription {
        site: SiteId(site),
        host: HostName(Words::of(alloc, host)?),
        kind: SubscriptionKind::Client,
        priority: 0,
    })
}

fn built(alloc: Global) -> Result<Publication, NoMemory>
    ensures { IfOk result (λ publication. publication ≡ made_publication) }
{
    let mut articles = Listing::empty(alloc);
    articles.push(customer(alloc)?)?;
    articles.push(orders(alloc)?)?;
    let mut subscriptions = Listing::empty(alloc);
    subscriptions.push(client(alloc, 1, "r0")?)?;
    subscriptions.push(client(alloc, 2, "r1")?)?;
    subscriptions.push(client(alloc, 3, "r2")?)?;
    Ok(Publication {
        name: Words::of(alloc, "made")?,
        retention_days: 14,
        conflict_retention_days: 14,
        articles,
        subscriptions,
    })
}

/// The publication of the script: customers, of which each goes to the site of its region, and their
/// orders, which follow them.
pub fn made(alloc: Global) -> Result<Publication, NoMemory>
    ensures made { IfOk result (λ publication. publication ≡ made_publication) }
    ensures valid { IfOk result (λ publication. IsValid 1 publication) }
{
    built(alloc)
}
