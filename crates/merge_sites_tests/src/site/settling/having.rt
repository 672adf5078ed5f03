//! A publisher that begins, and that starts again with what its keeper holds: what it then has.
use super::asking::{Row, ask_in_turn};
use super::told::{Customer, customer_of};
use crate::same::same;
use crate::site::edits::{
    CUSTOMERS, Edit, NORTHERN, Put, SITE, can_be_asked, change_of, publication,
};
use crate::site::starting::beside;
use merge_conflict::{ConflictKind, ConflictRow, Verdict};
use merge_gens::{Filling, SiteState};
use merge_ident::Grant;
use merge_ports::Keeper;
use merge_resolve::Handed;
use merge_site::{DraftingSite, KeptPublisher};
use merge_types::{Moment, RowId, SiteId};
use merge_units::{Body, Version};
use std::alloc::Global;
use std::process::Abort;
use std::test::Fail;

/// A customer that lost.
#[derive(Clone, Copy, Debug, PartialEq, Eq)]
pub struct Lost {
    pub number: u64,
    pub kind: ConflictKind,
    pub losing: Option<Customer>,
    pub from: SiteId,
    pub verdict: Verdict,
    pub moment: Moment,
}

/// What a publisher of one customer has: how many conflicts and grants, of which one is told.
#[derive(Clone, Copy, Debug)]
pub struct Has {
    pub customer: Option<Customer>,
    pub conflicts: (usize, Option<Lost>),
    pub grants: (usize, Option<Grant>),
    pub filling: (Filling, u64),
    pub state: Option<SiteState>,
}

// The publisher that its keeper's entries are.
fn started<K: Keeper>(alloc: Global, keeper: K) -> Result<KeptPublisher<K>, Fail> {
    let publication = publication(alloc)?;
    match KeptPublisher::start(alloc, keeper, &publication) {
        Ok(site) => Ok(site),
        Err(_) => Err(Fail::from("no publisher")),
    }
}

fn change<K: Keeper>(
    alloc: Global,
    site: &mut KeptPublisher<K>,
    now: Moment,
    edit: Edit,
) -> Result<RowId, Fail> {
    let change = change_of(alloc, edit)?;
    if !can_be_asked(site.publication(), &change) {
        return Err(Fail::from("no change"));
    }
    Ok(site.local(now, &change)?)
}

// A customer of the north in a closed generation, whose rating is then set in the open one.
fn prepare<K: Keeper>(alloc: Global, site: &mut KeptPublisher<K>) -> Result<(), Fail> {
    let insert = Edit::Insert(CUSTOMERS, Put::Region("north"));
    change(alloc, site, Moment(1), insert)?;
    site.close_generation(Moment(1))?;
    let update = Edit::Update(NORTHERN, Put::Second(5));
    change(alloc, site, Moment(2), update)?;
    Ok(())
}

/// A publisher that made a customer in its first generation, and set its rating in the second, which
/// is open.
pub fn prepared<K: Keeper>(alloc: Global, keeper: K) -> Result<KeptPublisher<K>, Fail> {
    let mut site = started(alloc, keeper)?;
    let made = prepare(alloc, &mut site);
    let (site, _) = beside(site, made)?;
    Ok(site)
}

fn version_of(row: RowId, version: &Version) -> Option<Customer> {
    match &version.body {
        Body::Live(cells) => customer_of(row, &version.lineage, cells.as_slice()),
        Body::Dead(_) => None,
    }
}

fn customer_in<K: Keeper>(site: &KeptPublisher<K>) -> Option<Customer> {
    match site.rows().get(&NORTHERN) {
        Some(row) => version_of(NORTHERN.row, &row.version),
        None => None,
    }
}

fn lost_in(rows: &[ConflictRow]) -> Option<Lost> {
    let [row] = rows else {
        return None;
    };
    Some(Lost {
        number: row.number,
        kind: row.kind,
        losing: version_of(row.row, &row.losing),
        from: row.from,
        verdict: row.verdict,
        moment: row.moment,
    })
}

fn grant_in(grants: &[Grant]) -> Option<Grant> {
    match grants {
        [grant] => Some(*grant),
        _ => None,
    }
}

// That a publisher has so much.
fn check<K: Keeper, R: Abort>(rt: &R, site: &KeptPublisher<K>, wanted: &Has) {
    same(rt, &customer_in(site), &wanted.customer);
    let conflicts = site.conflicts();
    same(
        rt,
        &(conflicts.len(), lost_in(conflicts)),
        &wanted.conflicts,
    );
    let grants = site.grants();
    same(rt, &(grants.len(), grant_in(grants)), &wanted.grants);
    same(rt, &(site.filling(), site.kept()), &wanted.filling);
    same(rt, &site.site_state(SITE), &wanted.state);
}

/// Drops a value of a type that it does not know: where the type of a site is known, the proof of its
/// drop goes through all its tables.
pub fn forget<T: Drop>(_site: T) {}

// That the publisher has so much which starts with what a keeper holds.
fn check_started<K: Keeper, R: Abort>(
    rt: &R,
    alloc: Global,
    keeper: K,
    wanted: &Has,
) -> Result<(), Fail> {
    let site = started(alloc, keeper)?;
    check(rt, &site, wanted);
    forget(site);
    Ok(())
}

// The keeper of a publisher that these requests came to.
fn asked<K: Keeper, R: Abort>(
    rt: &R,
    alloc: Global,
    site: KeptPublisher<K>,
    resolvers: Vec<Handed>,
    rows: &[Row],
) -> Result<K, Fail> {
    let site = ask_in_turn(rt, alloc, DraftingSite::new(site, resolvers), rows)?;
    Ok(site.into_keeper())
}

/// Requests come to a prepared publisher, which then has so much.
pub fn follow<K: Keeper, R: Abort>(
    rt: &R,
    alloc: Global,
    keeper: K,
    resolvers: Vec<Handed>,
    rows: &[Row],
    wanted: &Has,
) -> Result<(), Fail> {
    let site = prepared(alloc, keeper)?;
    let keeper = asked(rt, alloc, site, resolvers, rows)?;
    check_started(rt, alloc, keeper, wanted)
}
