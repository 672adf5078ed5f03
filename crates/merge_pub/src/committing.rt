//! Whether a request that is not refused changes a record. One that changes none is not committed.
ghost use Rattle.std.specs.List.{list_any};
ghost use Rattle.std.specs.Prelude.{◌≡◌, ◌||◌, nat_lt};
ghost use Rattle.merge_model.specs.Judge.ByNumbers.{by_numbers};
ghost use Rattle.merge_model.specs.World.Calls.{is_behind, is_later, is_new_grant};
ghost use Rattle.merge_model.specs.Publisher.{state_of};
ghost use Rattle.merge_model.specs.Publisher.PublisherJoin.{join_acts};
ghost use Rattle.merge_model.specs.Publisher.PublisherUpload.{brings_news};
ghost use Rattle.merge_pub.specs.Held.{tables_of};

use crate::publisher::Publisher;
use crate::site::state_of;
use merge_batch::{Download, Join, Upload};
use merge_ident::{GrantAnswer, GrantPlan};
use merge_steps::Draft;
use merge_types::{Moment, SiteId};

// Whether a plan grants a range that was not granted before.
fn is_new_grant(plan: &GrantPlan) -> bool
    ensures { result ≡ is_new_grant plan.now.answer }
{
    matches!(plan.answer, Ok(GrantAnswer::Granted { .. }))
}

// Whether one of these plans does.
fn has_new_grant(plans: &[GrantPlan]) -> bool
    ensures { result ≡ list_any (λ plan. is_new_grant plan.answer) plans.now }
{
    plans.iter().any(|plan| is_new_grant(plan))
}

impl Publisher {
    // Whether the moment that the publisher keeps moves.
    fn is_later(&self, now: Moment) -> bool
        ensures { result ≡ is_later now (tables_of self.now).latest }
    {
        now.0 > self.latest.0
    }

    // The generation of a site that was taken last.
    fn received_of(&self, site: SiteId) -> u64
        ensures { result ≡ (by_numbers (tables_of self.now)).received site.0 }
    {
        match self.sites.get(&site.0) {
            Some(state) => state.received,
            None => 0,
        }
    }

    // Whether a site is further than the publisher remembers of it.
    fn is_behind(&self, m: &Download) -> bool
        ensures { result ≡ is_behind m.now (tables_of self.now) (state_of (tables_of self.now) m.now.site) }
    {
        let state = state_of(&self.sites, m.site);
        state.watermark < m.from || state.last_sync < self.in_step(m, self.latest)
    }

    /// Whether a join changes a record: the moment moves, or the join acts.
    pub fn commits_join(&self, now: Moment, m: &Join) -> bool
        ensures { result ≡ (is_later now (tables_of self.now).latest || join_acts m.now (tables_of self.now)) }
    {
        self.is_later(now) || state_of(&self.sites, m.site).joined_at < m.seq
    }

    /// Whether an upload changes a record: the moment moves, or a generation was not taken before.
    pub fn commits_upload(&self, now: Moment, m: &Upload) -> bool
        ensures { result ≡ (is_later now (tables_of self.now).latest || brings_news (by_numbers (tables_of self.now)) m.now) }
    {
        self.is_later(now) || self.received_of(m.site) < m.to
    }

    /// Whether a request for ranges changes a record, of which this draft was worked out: the moment
    /// moves, or a range is granted that was not granted before.
    pub fn commits_ranges(&self, now: Moment, draft: &Draft) -> bool
        ensures { result ≡ (is_later now (tables_of self.now).latest || list_any (λ plan. is_new_grant plan.answer) draft.now.changes.grants) }
    {
        self.is_later(now) || has_new_grant(draft.changes.grants.as_slice())
    }

    /// Whether a request for a download changes a record: the moment moves, the site is further than
    /// was remembered of it, or the open generation has an entry and so closes.
    pub fn commits_download(&self, now: Moment, m: &Download) -> bool
        ensures { result ≡ (is_later now (tables_of self.now).latest || (is_behind m.now (tables_of self.now) (state_of (tables_of self.now) m.now.site) || nat_lt 0 (tables_of self.now).gens.filling.filled)) }
    {
        self.is_later(now) || self.is_behind(m) || self.gens.filled() > 0
    }
}
