//! Calls with a counter of their caller. A counter takes no bytes: how far it goes is looked at in
//! clauses.
ghost use Rattle.std.specs.Prelude.{◌≡◌, ◌≤◌, ◌+◌, ◌*◌, length};

use super::asking::{JOIN, NOW, upload};
use super::having::{forget, prepared};
use super::told::{Answer, Told, answer_of, told_by};
use crate::site::edits::{Edit, NORTHERN, Put, can_be_asked, change_of};
use crate::site::pair::resolvers;
use crate::site::starting::{beside, keeper_of};
use merge_batch::{Request, Upload};
use merge_draft::DraftingPublisher;
use merge_ports::{Entries, Keeper};
use merge_resolve::Handed;
use merge_site::{DraftingSite, KeptPublisher};
use merge_types::{RowId, Steps};
use std::alloc::Global;
use std::marker::Brand;
use std::sync::ledger::{Blank, Ledger};
use std::test::Fail;

// A local change, for one evaluation for each of two subscriptions at most.
fn change<K: Keeper, L: Ledger>(
    alloc: Global,
    site: &mut KeptPublisher<K>,
    rating: i64,
    steps: &mut Steps<L>,
) -> Result<RowId, Fail>
    requires { length site.old.publication.subscriptions ≡ 2 }
    ensures publication { site.new.publication ≡ site.old.publication }
    ensures cost { steps.new ≤ steps.old + 2 }
{
    let change = change_of(alloc, Edit::Update(NORTHERN, Put::Second(rating)))?;
    if !can_be_asked(site.publication(), &change) {
        return Err(Fail::from("no change"));
    }
    Ok(site.local_in_steps(NOW, &change, steps)?)
}

// Two changes of a row, for twice as many.
fn change_twice<K: Keeper, L: Ledger>(
    alloc: Global,
    site: &mut KeptPublisher<K>,
    steps: &mut Steps<L>,
) -> Result<(RowId, RowId), Fail>
    requires { length site.old.publication.subscriptions ≡ 2 }
    ensures { steps.new ≤ steps.old + 4 }
{
    let first = change(alloc, site, 6, steps)?;
    let second = change(alloc, site, 7, steps)?;
    Ok((first, second))
}

// The publication of the tests has two subscriptions.
fn change_two<K: Keeper, L: Ledger>(
    alloc: Global,
    site: &mut KeptPublisher<K>,
    steps: &mut Steps<L>,
) -> Result<(RowId, RowId), Fail> {
    if site.publication().subscriptions.len() != 2 {
        return Err(Fail::from("other subscriptions"));
    }
    change_twice(alloc, site, steps)
}

// A join is answered, for no evaluation.
fn answer_join<K: Keeper, L: Ledger>(
    site: &mut KeptPublisher<K>,
    resolvers: &mut Vec<Handed>,
    steps: &mut Steps<L>,
) -> Result<Answer, Fail>
    ensures { steps.new ≤ steps.old }
{
    let request = Request::Join(JOIN);
    let reply = site.handle_in_steps(resolvers, NOW, &request, steps)?;
    Ok(answer_of(&reply))
}

// An upload is answered, for one evaluation for each subscription and item at most.
fn answer_upload<K: Keeper, L: Ledger>(
    site: &mut KeptPublisher<K>,
    resolvers: &mut Vec<Handed>,
    upload: Upload,
    steps: &mut Steps<L>,
) -> Result<Answer, Fail>
    ensures { steps.new ≤ steps.old + length site.old.publication.subscriptions * length upload.items }
{
    let request = Request::Upload(upload);
    let reply = site.handle_in_steps(resolvers, NOW, &request, steps)?;
    Ok(answer_of(&reply))
}

/// The rows of two local changes, and the answers to a join and an upload.
pub type Handled = ((RowId, RowId), (Answer, Answer));

fn handle_each<K: Keeper, L: Ledger>(
    alloc: Global,
    site: &mut KeptPublisher<K>,
    resolvers: &mut Vec<Handed>,
    steps: &mut Steps<L>,
) -> Result<Handled, Fail> {
    let rows = change_two(alloc, site, steps)?;
    let joined = answer_join(site, resolvers, steps)?;
    let uploaded = answer_upload(site, resolvers, upload(alloc)?, steps)?;
    Ok((rows, (joined, uploaded)))
}

fn handled<L: Ledger>(alloc: Global, blank: Blank) -> Result<Handled, Fail>
    requires name { blank.name ≡ L.name }
    requires parts { blank.parts ≡ L.parts }
    requires some { 1 ≤ blank.parts }
{
    let mut steps = Steps::<L>::new(blank);
    let mut resolvers = resolvers(alloc)?;
    let mut site = prepared(alloc, keeper_of(alloc, Entries::empty(alloc)))?;
    let told = handle_each(alloc, &mut site, &mut resolvers, &mut steps);
    forget(site);
    told
}

/// What a prepared publisher answers to two changes, a join and an upload.
pub fn handled_anew(alloc: Global) -> Result<Handled, Fail> {
    handled::<Brand>(alloc, Blank::new(1))
}

// A join is drafted, for no evaluation.
fn draft_join<K: Keeper, L: Ledger>(
    site: &mut DraftingSite<K>,
    steps: &mut Steps<L>,
) -> Result<Told, Fail>
    ensures { steps.new ≤ steps.old }
{
    let request = Request::Join(JOIN);
    Ok(told_by(site.draft_in_steps(NOW, &request, steps)?))
}

// An upload is drafted, for one evaluation for each subscription and item at most.
fn draft_upload<K: Keeper, L: Ledger>(
    site: &mut DraftingSite<K>,
    upload: Upload,
    steps: &mut Steps<L>,
) -> Result<Told, Fail>
    ensures { steps.new ≤ steps.old + length (⟦<DraftingSite<K> as DraftingPublisher>⟧.view site.old).publication.subscriptions * length upload.items }
{
    let request = Request::Upload(upload);
    Ok(told_by(site.draft_in_steps(NOW, &request, steps)?))
}

fn draft_each<K: Keeper, L: Ledger>(
    alloc: Global,
    site: &mut DraftingSite<K>,
    steps: &mut Steps<L>,
) -> Result<(Told, Told), Fail> {
    let joined = draft_join(site, steps)?;
    let uploaded = draft_upload(site, upload(alloc)?, steps)?;
    Ok((joined, uploaded))
}

// A prepared publisher which the site has joined.
fn joined<K: Keeper, L: Ledger>(
    alloc: Global,
    keeper: K,
    resolvers: &mut Vec<Handed>,
    steps: &mut Steps<L>,
) -> Result<KeptPublisher<K>, Fail> {
    let mut site = prepared(alloc, keeper)?;
    let answer = answer_join(&mut site, resolvers, steps);
    let (site, _) = beside(site, answer)?;
    Ok(site)
}

fn drafted<L: Ledger>(alloc: Global, blank: Blank) -> Result<(Told, Told), Fail>
    requires name { blank.name ≡ L.name }
    requires parts { blank.parts ≡ L.parts }
    requires some { 1 ≤ blank.parts }
{
    let mut steps = Steps::<L>::new(blank);
    let mut resolvers = resolvers(alloc)?;
    let keeper = keeper_of(alloc, Entries::empty(alloc));
    let site = joined(alloc, keeper, &mut resolvers, &mut steps)?;
    let mut site = DraftingSite::new(site, resolvers);
    let told = draft_each(alloc, &mut site, &mut steps);
    forget(site);
    told
}

/// What the drafts of the join, once more, and of the upload tell.
pub fn drafted_anew(alloc: Global) -> Result<(Told, Told), Fail> {
    drafted::<Brand>(alloc, Blank::new(1))
}
