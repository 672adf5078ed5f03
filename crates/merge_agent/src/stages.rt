//! Sessions.
ghost use Rattle.std.specs.Prelude.{◌≡◌, ◌≤◌, ℕ, None as nothing, Some as found};
ghost use Rattle.merge_model.specs.declared.letter.Message.TheVariants.{Replies};
ghost use Rattle.merge_wire.specs.Written.{IsVisible};
ghost use Rattle.merge_world.specs.Sessions.{brings_found, download_in, grants, one_if};
ghost use Rattle.merge_agent.specs.Meetings.{meeting};
ghost use Rattle.merge_agent.specs.Sessions.{Asks, Downloads, Goes, Over, Syncs, Uploads, at, session_at_start};

use crate::exchange::exchange;
use crate::fault::{Done, SessionFault};
use merge_batch::{Downloaded, Reply};
use merge_link::{Clock, Link};
use merge_types::Words;
use merge_world::{Sending, SubscriberSite};
use std::alloc::Global;

// A site that has not joined joins.
fn join_first<S: SubscriberSite, N: Link, C: Clock>(
    alloc: Global,
    site: &mut S,
    link: &mut N,
    address: &Words,
    clock: &mut C,
) -> Result<(), SessionFault>
    requires { IsVisible address.now }
    ensures peer { N.peer link.new ≡ N.peer link.old }
    ensures goes { Goes address.now (session_at_start (S.view site.old).tables) (λ _. at Uploads (S.view site.new).tables 0 0)
        (meeting (S.view site.old) (N.coming link.old) (N.exchanges link.old) (N.count link.old) (C.told clock.old))
        (meeting (S.view site.new) (N.coming link.new) (N.exchanges link.new) (N.count link.new) (C.told clock.new)) result }
{
    if !site.is_joined() {
        exchange(alloc, site, link, address, clock, Sending::Join)?;
    }
    Ok(())
}

// Uploads until there is none to make, and gives how many were answered.
fn upload_all<S: SubscriberSite, N: Link, C: Clock>(
    alloc: Global,
    site: &mut S,
    link: &mut N,
    address: &Words,
    clock: &mut C,
) -> Result<u64, SessionFault>
    requires { IsVisible address.now }
    ensures peer { N.peer link.new ≡ N.peer link.old }
    ensures goes { Goes address.now (at Uploads (S.view site.old).tables 0 0) (λ count. at Asks (S.view site.new).tables count 0)
        (meeting (S.view site.old) (N.coming link.old) (N.exchanges link.old) (N.count link.old) (C.told clock.old))
        (meeting (S.view site.new) (N.coming link.new) (N.exchanges link.new) (N.count link.new) (C.told clock.new)) result }
{
    let mut count = 0u64;
    'uploads: loop {
        match exchange(alloc, site, link, address, clock, Sending::Upload)? {
            None => return Ok(count),
            Some(_) => count += 1,
        }
    }
}

// Whether a reply grants a range.
fn grants_range(reply: &Reply) -> bool
    ensures { result ≡ grants (found (Replies reply.now)) }
{
    match reply {
        Reply::Joined(_) => false,
        Reply::Uploaded(_) => false,
        Reply::Ranged(reply) => reply.grants.len() > 0,
        Reply::Downloaded(_) => false,
        Reply::Refused { .. } => false,
    }
}

// Asks for identity ranges until a reply has no grant, or there is nothing to ask for.
fn ask_for_ranges<S: SubscriberSite, N: Link, C: Clock>(
    alloc: Global,
    site: &mut S,
    link: &mut N,
    address: &Words,
    clock: &mut C,
) -> Result<(), SessionFault>
    requires { IsVisible address.now }
    ensures peer { N.peer link.new ≡ N.peer link.old }
    ensures goes { (x : ℕ) → Goes address.now (at Asks (S.view site.old).tables x 0) (λ _. at (Downloads nothing) (S.view site.new).tables x 0)
        (meeting (S.view site.old) (N.coming link.old) (N.exchanges link.old) (N.count link.old) (C.told clock.old))
        (meeting (S.view site.new) (N.coming link.new) (N.exchanges link.new) (N.count link.new) (C.told clock.new)) result }
{
    'asks: loop {
        match exchange(alloc, site, link, address, clock, Sending::Ranges)? {
            None => return Ok(()),
            Some(reply) => {
                if !grants_range(&reply) {
                    return Ok(());
                }
            }
        }
    }
}

// What a reply answers to a download, where it does.
fn downloaded(reply: Reply) -> Option<Downloaded>
    ensures { result ≡ download_in (found (Replies reply)) }
{
    match reply {
        Reply::Joined(_) => None,
        Reply::Uploaded(_) => None,
        Reply::Ranged(_) => None,
        Reply::Downloaded(reply) => Some(reply),
        Reply::Refused { .. } => None,
    }
}

// 1 where a reply brings generations, else 0.
fn brought(reply: &Downloaded) -> u64
    ensures value { result ≡ one_if (brings_found (found reply.now)) }
    ensures within { result ≤ 1 }
{
    if reply.from < reply.to { 1 } else { 0 }
}

// Downloads until an ask was answered that came from the target on: the last closed generation that
// the first reply tells. Gives how many replies brought generations.
fn download_all<S: SubscriberSite, N: Link, C: Clock>(
    alloc: Global,
    site: &mut S,
    link: &mut N,
    address: &Words,
    clock: &mut C,
) -> Result<u64, SessionFault>
    requires { IsVisible address.now }
    ensures peer { N.peer link.new ≡ N.peer link.old }
    ensures goes { (x : ℕ) → Goes address.now (at (Downloads nothing) (S.view site.old).tables x 0) (λ count. at Over (S.view site.new).tables x count)
        (meeting (S.view site.old) (N.coming link.old) (N.exchanges link.old) (N.count link.old) (C.told clock.old))
        (meeting (S.view site.new) (N.coming link.new) (N.exchanges link.new) (N.count link.new) (C.told clock.new)) result }
{
    let mut count = 0u64;
    let mut target = None;
    'downloads: loop {
        let Some(reply) = exchange(alloc, site, link, address, clock, Sending::Download)? else {
            return Ok(count);
        };
        let Some(reply) = downloaded(reply) else {
            return Ok(count);
        };
        count += brought(&reply);
        let last = target.unwrap_or(reply.last);
        if last <= reply.from {
            return Ok(count);
        }
        target = Some(last);
    }
}

/// A session of a subscriber with the publisher behind a link: one join where it has not joined,
/// uploads until nothing is unsent, requests for identity ranges until a reply has no grant, and
/// downloads until it asked from the last closed generation that the first reply told. A refusal or a
/// fault ends it, and the steps that were made stand. Each step is made at the clock's moment.
pub fn session<S: SubscriberSite, N: Link, C: Clock>(
    alloc: Global,
    site: &mut S,
    link: &mut N,
    address: &Words,
    clock: &mut C,
) -> Result<Done, SessionFault>
    requires { IsVisible address.now }
    ensures peer { N.peer link.new ≡ N.peer link.old }
    ensures syncs { Syncs address.now
        (meeting (S.view site.old) (N.coming link.old) (N.exchanges link.old) (N.count link.old) (C.told clock.old))
        (meeting (S.view site.new) (N.coming link.new) (N.exchanges link.new) (N.count link.new) (C.told clock.new)) result }
{
    join_first(alloc, site, link, address, clock)?;
    let uploads = upload_all(alloc, site, link, address, clock)?;
    ask_for_ranges(alloc, site, link, address, clock)?;
    let downloads = download_all(alloc, site, link, address, clock)?;
    Ok(Done {
        uploads,
        downloads,
        watermark: site.marks().watermark,
    })
}
