//! The priorities of the two sides of a conflict.
ghost use Rattle.std.specs.Prelude.{◌≡◌, ◌==◌, find, unwrap_or, option_copied};
ghost use Rattle.merge_lineage.specs.Lineage.{knows};
ghost use Rattle.merge_schema.specs.declared.publication.Subscription.{Subscription};
ghost use Rattle.merge_units.specs.declared.version.Body.TheVariants.{Live, Dead};
ghost use Rattle.merge_units.specs.Version.{new_tops};
ghost use Rattle.merge_resolve.specs.Priorities.{server_priority, priority_at, top_priority, greatest_priority, incoming_priority};

use merge_lineage::Lineage;
use merge_schema::{Publication, Subscription, SubscriptionKind};
use merge_types::{Dot, SiteId};
use merge_units::{Body, Cell, Version};

// Above that of every server.
const MOST: u16 = 10000;

/// The priority of the publisher's version: the greatest over the changes in it that the incoming
/// version does not know.
pub fn publisher_priority(publication: &Publication, publisher: &Version, incoming: &Version) -> u16
    ensures { result ≡ greatest_priority publication.now (new_tops (knows incoming.now.lineage) publisher.now.body) }
{
    match &publisher.body {
        Body::Live(cells) => cells_priority(publication, cells.as_slice(), &incoming.lineage),
        Body::Dead(top) => new_priority(publication, *top, &incoming.lineage),
    }
}

/// The priority of the site whose version comes in.
pub fn incoming_priority(publication: &Publication, site: SiteId) -> u16
    ensures { result ≡ incoming_priority publication.now site.0 }
{
    match priority_at(publication, site) {
        Some(priority) => priority,
        None => 0,
    }
}

fn cells_priority(publication: &Publication, cells: &[Cell], known: &Lineage) -> u16
    ensures { result ≡ greatest_priority publication.now (new_tops (knows known.now) (Live cells.now)) }
{
    let mut most = 0;
    for cell in cells {
        most = new_priority(publication, cell.top, known).max(most);
    }
    most
}

// The priority of a change, where it is not known.
fn new_priority(publication: &Publication, top: Dot, known: &Lineage) -> u16
    ensures { result ≡ greatest_priority publication.now (new_tops (knows known.now) (Dead top)) }
{
    if known.knows(top) {
        0
    } else {
        top_priority(publication, top)
    }
}

fn top_priority(publication: &Publication, top: Dot) -> u16
    ensures { result ≡ top_priority publication.now top }
{
    if top.site.0 == 0 {
        return MOST;
    }
    match priority_at(publication, top.site) {
        Some(priority) => priority,
        None => MOST,
    }
}

// The priority of a site, where it is a server.
fn priority_at(publication: &Publication, site: SiteId) -> Option<u16>
    ensures { result ≡ priority_at publication.now site.0 }
{
    match subscription_of(publication.subscriptions.as_slice(), site) {
        Some(subscription) => server_priority(subscription),
        None => None,
    }
}

fn server_priority(subscription: &Subscription) -> Option<u16>
    ensures { result ≡ server_priority subscription.now }
{
    match subscription.kind {
        SubscriptionKind::Server => Some(subscription.priority),
        SubscriptionKind::Client => None,
    }
}

fn subscription_of(subscriptions: &[Subscription], site: SiteId) -> Option<&Subscription>
    ensures { option_copied result ≡ find (λ (subscription : Subscription). subscription.site.0 == site.0) subscriptions.now }
{
    subscriptions
        .iter()
        .find(|subscription| subscription.site.0 == site.0)
}
