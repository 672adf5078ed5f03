//! What the store of a site loads to.
ghost use Rattle.std.specs.Prelude.{◌≡◌, ◌≤◌, IfErr, IfOk, Ok, OnOk};
ghost use Rattle.merge_keeper.specs.PublisherStart.{publisher_loaded};
ghost use Rattle.merge_keeper.specs.SubscriberStart.{subscriber_loaded};
ghost use Rattle.merge_model.specs.Publisher.{new_holders};
ghost use Rattle.merge_sub.specs.Begin.{holders_from};
ghost use Rattle.merge_site.specs.Loading.{IsRead, LoadsNot};

use crate::loading::{are_map, load, refusal_of};
use merge_batch::Refusal;
use merge_ident::Ranges;
use merge_keeper::{PublisherStored, SubscriberStored, start_publisher, start_subscriber};
use merge_ports::Keeper;
use merge_schema::{Article, Publication};
use merge_types::{Listing, NoMemory, SiteId};
use std::alloc::Global;

// What is held of articles before a range was received: each with an identity column begins with
// none. A place of an article is a number of one byte.
fn first_ranges(alloc: Global, articles: &[Article]) -> Result<Listing<(u8, Ranges)>, NoMemory>
    ensures { IfOk result (λ held. held ≡ holders_from 0 articles.now) }
{
    let mut held = Listing::empty(alloc);
    for (place, article) in articles.iter().enumerate() {
        let Ok(place) = u8::try_from(place) else {
            return Err(NoMemory);
        };
        if let Some(identity) = article.identity {
            held.push((place, Ranges::new(identity.threshold)))?;
        }
    }
    Ok(held)
}

/// The tables that a subscriber's store loads to. The time grows with its entries.
pub(crate) fn load_subscriber<K: Keeper>(
    alloc: Global,
    keeper: &mut K,
    publication: &Publication,
    site: SiteId,
) -> Result<SubscriberStored, Refusal>
    ensures ok { IfOk result (λ tables. IsRead (subscriber_loaded publication.now site (new_holders publication.now)) (K.told keeper.old) (Ok tables)) }
    ensures same { K.told keeper.new ≡ K.told keeper.old }
    ensures count { OnOk result (K.count keeper.new ≡ K.count keeper.old) }
    ensures later { K.count keeper.old ≤ K.count keeper.new }
    ensures why { IfErr result (λ why. LoadsNot (subscriber_loaded publication.now site (new_holders publication.now)) (K.told keeper.old) why (K.count keeper.old) (K.count keeper.new)) }
{
    let entries = load(keeper)?;
    are_map(&entries);
    let held = first_ranges(alloc, publication.articles.as_slice())?;
    match start_subscriber(alloc, publication, site, held, &entries) {
        Ok(tables) => Ok(tables),
        Err(fault) => Err(refusal_of(fault)),
    }
}

/// The same of the publisher's.
pub(crate) fn load_publisher<K: Keeper>(
    alloc: Global,
    keeper: &mut K,
    publication: &Publication,
) -> Result<PublisherStored, Refusal>
    ensures ok { IfOk result (λ tables. IsRead (publisher_loaded publication.now (new_holders publication.now)) (K.told keeper.old) (Ok tables)) }
    ensures same { K.told keeper.new ≡ K.told keeper.old }
    ensures count { OnOk result (K.count keeper.new ≡ K.count keeper.old) }
    ensures later { K.count keeper.old ≤ K.count keeper.new }
    ensures why { IfErr result (λ why. LoadsNot (publisher_loaded publication.now (new_holders publication.now)) (K.told keeper.old) why (K.count keeper.old) (K.count keeper.new)) }
{
    let entries = load(keeper)?;
    are_map(&entries);
    let held = first_ranges(alloc, publication.articles.as_slice())?;
    match start_publisher(alloc, publication, held, &entries) {
        Ok(tables) => Ok(tables),
        Err(why) => Err(refusal_of(why)),
    }
}
