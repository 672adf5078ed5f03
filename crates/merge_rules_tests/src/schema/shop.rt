//! A publication as a file says it whole, by its parts.
use crate::same::{same, same_in};
use merge_schema::{Article, Identity, JoinFilter, Subscription, SubscriptionKind, read};
use merge_types::{Column, ColumnType, Tracking};
use std::test::Fail;

const SHOP: &str = r#"
name = "shop"
retention_days = 30

[[article]]
name = "customer"
tracking = "column"
filter = "branch = HOST_NAME()"
resolver = "maximum"
resolver_column = "rating"

[[article.column]]
name = "branch"
type = "text"

[[article.column]]
name = "rating"
type = "int"

[[article.column]]
name = "id"
type = "guid"

[[article]]
name = "order"

[[article.column]]
name = "number"
type = "int"
identity = { range = 100, pub_range = 1000 }

[[article.column]]
name = "customer"
type = "guid"

[[article.join]]
column = "customer"
parent = "customer"
parent_column = "id"

[[subscription]]
site = 3
host = "north"
kind = "server"
priority = 50

[[subscription]]
site = 5
host = "south"
"#;

fn is_customer(article: &Article) -> bool {
    article.name.as_str() == "customer"
        && article.tracking == Tracking::ByColumn
        && article.filter.is_some()
        && article.resolver == 1
        && article.resolver_column == Some(1)
        && article.columns.len() == 3
}

fn is_order(article: &Article) -> bool {
    article.tracking == Tracking::Row
        && article.filter.is_none()
        && article.resolver == 0
        && article.resolver_column == None
}

fn are_number_and_reference(columns: &[Column]) -> bool {
    match columns {
        [number, reference] => {
            number.name.as_str() == "number"
                && number.ty == ColumnType::Int
                && reference.ty == ColumnType::Guid
        }
        _ => false,
    }
}

// An identity column of which the file gives the two ranges alone.
fn is_plain(identity: Identity) -> bool {
    identity.column == 0
        && identity.seed == 1
        && identity.range == 100
        && identity.pub_range == 1000
        && identity.threshold == 80
        && identity.greatest == i64::MAX
}

fn are_of_customers(joins: &[JoinFilter]) -> bool {
    match joins {
        [join] => join.column == 1 && join.parent == 0 && join.parent_column == 2,
        _ => false,
    }
}

fn are_north_and_south(subscriptions: &[Subscription]) -> bool {
    match subscriptions {
        [north, south] => {
            (north.site.0, north.kind, north.priority) == (3, SubscriptionKind::Server, 50)
                && (south.site.0, south.kind, south.priority) == (5, SubscriptionKind::Client, 0)
                && south.host.0.as_str() == "south"
        }
        _ => false,
    }
}

#[test]
fn a_publication(rt: HostRuntime) -> Result<(), Fail> {
    let publication = read(rt.alloc(), SHOP.as_bytes(), 5)?.copy()?;
    same(&rt, &publication.name.as_str(), &"shop");
    same(&rt, &publication.retention_days, &30);
    same(&rt, &publication.conflict_retention_days, &14);
    assert!(rt; are_north_and_south(publication.subscriptions.as_slice()));
    Ok(())
}

#[test]
fn articles_of_a_publication(rt: HostRuntime) -> Result<(), Fail> {
    let publication = read(rt.alloc(), SHOP.as_bytes(), 5)?.copy()?;
    if let [customer, order] = publication.articles.as_slice() {
        assert!(rt; is_customer(customer));
        assert!(rt; is_order(order));
        assert!(rt; are_number_and_reference(order.columns.as_slice()));
        assert!(rt; order.identity.is_some_and(|identity| is_plain(identity)));
        assert!(rt; are_of_customers(order.joins.as_slice()));
    } else {
        assert!(rt; false, "two articles");
    }
    Ok(())
}

const ARTICLE_PLACES: &[(&str, Option<usize>)] = &[("order", Some(1)), ("orders", None)];

const COLUMN_PLACES: &[(&str, Option<usize>)] = &[("id", Some(2)), ("i", None)];

#[test]
fn article_places(rt: HostRuntime) -> Result<(), Fail> {
    let publication = read(rt.alloc(), SHOP.as_bytes(), 5)?;
    for (name, place) in ARTICLE_PLACES {
        same_in(&rt, &publication.article_place(name), place, &name);
    }
    Ok(())
}

#[test]
fn column_places(rt: HostRuntime) -> Result<(), Fail> {
    let publication = read(rt.alloc(), SHOP.as_bytes(), 5)?;
    if let Some(customer) = publication.articles.as_slice().get(0) {
        for (name, place) in COLUMN_PLACES {
            same_in(&rt, &customer.column_place(name), place, &name);
        }
    }
    Ok(())
}
