//! The subscriber that a site is.
ghost use Rattle.std.specs.Prelude.{◌≡◌, None, find, IfSome, IfNone};
ghost use Rattle.merge_part.specs.Subscribers.{is_site, IsPlaceOf};

use merge_schema::Subscription;
use merge_types::SiteId;

/// The place of the subscriber that is the site, if one is.
pub fn place_of(subscriptions: &[Subscription], site: SiteId) -> Option<usize>
    ensures some { IfSome result (λ place. IsPlaceOf subscriptions.now site place) }
    ensures none { IfNone result (find (is_site site) subscriptions.now ≡ None) }
{
    for (place, subscription) in subscriptions.iter().enumerate() {
        if subscription.site == site {
            return Some(place);
        }
    }
    None
}
