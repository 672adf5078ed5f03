//! What a request of a site is refused for.
ghost use Rattle.std.specs.Prelude.{◌≡◌, IfOk, Some, unwrap_or};
ghost use Rattle.merge_model.specs.World.Faults.{fault_of};
ghost use Rattle.merge_model.specs.Tables.Keys.{at_number};
ghost use Rattle.merge_model.specs.Publisher.{later, no_state, site_refusal, state_refusal, unknown_site};
ghost use Rattle.merge_pub.specs.Held.{publication_of, tables_of};
ghost use Rattle.merge_pub.specs.Refused.{refusal_of};

use crate::closing::later;
use crate::publisher::Publisher;
use merge_batch::{BrokenRule, Refusal};
use merge_gens::{SiteState, expired};
use merge_schema::Publication;
use merge_table::Table;
use merge_types::{Moment, SiteId};

// Refuses a site that is no subscription.
pub fn check_subscription(publication: &Publication, site: SiteId) -> Result<(), Refusal>
    ensures { refusal_of result ≡ unknown_site publication.now site }
{
    if publication.is_subscription(site) {
        return Ok(());
    }
    Err(Refusal::UnknownSite { site })
}

// Refuses a site that has not joined or has expired, and a message that it made before it joined.
fn check_state(
    publication: &Publication,
    seq: u64,
    now: Moment,
    state: Option<SiteState>,
) -> Result<SiteState, Refusal>
    ensures state { IfOk result (λ found. state ≡ Some found) }
    ensures refusal { refusal_of result ≡ state_refusal publication.now seq now state }
{
    let Some(state) = state else {
        return Err(Refusal::NotJoined);
    };
    let last_sync = Moment(state.last_sync);
    if expired(last_sync, now, publication.retention_days) {
        return Err(Refusal::Expired { last_sync, now });
    }
    if seq <= state.joined_at {
        return Err(Refusal::Stale {
            seq,
            joined_at: state.joined_at,
        });
    }
    Ok(state)
}

// Refuses a message that breaks a rule.
pub fn check_rules(broken: Option<BrokenRule>) -> Result<(), Refusal>
    ensures { refusal_of result ≡ fault_of broken }
{
    match broken {
        None => Ok(()),
        Some(BrokenRule { item, rule }) => Err(Refusal::BadBatch { item, rule }),
    }
}

// What is remembered of a site, nothing where it never joined.
pub fn state_of(sites: &Table<u16, SiteState>, site: SiteId) -> SiteState
    ensures { result ≡ unwrap_or (at_number sites.now.rows site.0) no_state }
{
    match sites.get(&site.0) {
        Some(state) => *state,
        None => SiteState {
            joined_at: 0,
            received: 0,
            received_number: 0,
            seen: 0,
            watermark: 0,
            last_sync: 0,
        },
    }
}

impl Publisher {
    // The moment that the publisher keeps once a call was given this one.
    pub(crate) fn moment_at(&self, now: Moment) -> Moment
        ensures { result ≡ later now (tables_of self.now).latest }
    {
        later(now, self.latest)
    }

    // Refuses a site that is no subscription, has not joined or has expired, and a message that it
    // made before it joined. Gives what is remembered of the site.
    pub(crate) fn check_site(
        &self,
        now: Moment,
        site: SiteId,
        seq: u64,
    ) -> Result<SiteState, Refusal>
        ensures state { IfOk result (λ state. at_number (tables_of self.now).sites site.0 ≡ Some state) }
        ensures refusal { refusal_of result ≡ site_refusal (publication_of self.now) site seq now (tables_of self.now) }
    {
        check_subscription(self.publication(), site)?;
        let state = self.sites.get(&site.0).copied();
        check_state(self.publication(), seq, later(now, self.latest), state)
    }
}
