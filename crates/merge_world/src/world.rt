//! The world: all sites, and all messages that were ever made.
use crate::sites::{PublisherSite, SubscriberSite};
use merge_model::Letter;
use merge_types::Moment;

/// A publisher, its subscribers in the order of their sites, and the messages that were made. A
/// message is numbered by its place, from 1, and may come to where it goes any number of times.
#[derive(Drop)]
pub struct Sites<P: PublisherSite, S: SubscriberSite> {
    pub publisher: P,
    pub subscribers: Vec<S>,
    pub pool: Vec<Letter>,
    pub moment: Moment,
}

/// What contracts see of all sites.
pub trait Seen {
    ghost use Rattle.std.specs.Prelude.{ℕ, List};
    ghost use Rattle.merge_types.specs.declared.identifiers.SiteId.{SiteId};
    ghost use Rattle.merge_world.specs.Views.{SitesView};

    ghost seen: { Self → SitesView };

    /// That the record with this key is damaged in the store of a site.
    ghost IsDamaged: { Self → SiteId → ℕ → List ℕ → Type 0 };
}

impl<P: PublisherSite, S: SubscriberSite> Seen for Sites<P, S> {
    ghost use Rattle.std.specs.Prelude.{map};
    ghost use Rattle.merge_world.specs.Restarts.{IsDamagedAt};
    ghost use Rattle.merge_world.specs.Views.{sites_view};

    ghost seen = { λ sites. sites_view (P.view sites.publisher) (map S.view sites.subscribers.items) sites.pool.items sites.moment };

    ghost IsDamaged = { λ sites. IsDamagedAt P.Damage S.Damage (λ s. (S.view s).tables.site.0) sites.publisher sites.subscribers.items };
}
