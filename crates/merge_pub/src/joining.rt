//! A site joins.
ghost use Rattle.std.specs.Prelude.{◌≡◌, ◌⊎◌, ◌++◌, ◌∷◌, [], Err, IfOk, Ok, OnOk, false, filter, if◌then◌else◌, map};
ghost use Rattle.merge_batch.specs.declared.refusal.Refusal.{Refusal as OneRefusal};
ghost use Rattle.merge_batch.specs.declared.refusal.Refusal.TheVariants.{NoMemory as no_memory};
ghost use Rattle.merge_gens.specs.Moves.{row_site_cmp};
ghost use Rattle.merge_table.specs.Edits.{rows_after_all};
ghost use Rattle.merge_model.specs.Publisher.{state_of, with_state};
ghost use Rattle.merge_model.specs.Publisher.PublisherJoin.{join, join_acts, join_refusal, joined_state, without_left};
ghost use Rattle.merge_model.specs.World.Calls.{RefusesOnlyAs};
ghost use Rattle.merge_pub.specs.After.{after};
ghost use Rattle.merge_pub.specs.Forgetting.{is_left_at, take_at};
ghost use Rattle.merge_pub.specs.Held.{IsDrafted, publication_of, tables_of};
ghost use Rattle.merge_pub.specs.Refused.{RefusesAs, refusal_of};
ghost use Rattle.merge_steps.specs.Working.{AreApart, places_of};

use crate::closing::counters_go_on;
use crate::forgetting::Forgetting;
use crate::publisher::Publisher;
use crate::site::{check_rules, check_subscription, state_of};
use crate::site_drafts::state_edits;
use merge_batch::{Join, Joined, Refusal, join_fault};
use merge_gens::{Mapping, MoveKind, RowSite, SiteState, sort_rows};
use merge_steps::{Draft, add_moved};
use merge_table::Edit;
use merge_types::{Listing, Moment, NoMemory, RowKey, SiteId};
use std::alloc::Global;

// What is remembered of a site once its join has acted.
fn joined_state(m: &Join, now: Moment, state: SiteState) -> SiteState
    ensures { result ≡ joined_state m.now now state }
{
    SiteState {
        joined_at: m.seq,
        received: m.generation,
        received_number: m.number,
        seen: state.seen.max(m.number),
        watermark: 0,
        last_sync: now.0,
    }
}

// The edits that take the mappings of these rows for a site.
fn take_edits(
    alloc: Global,
    site: u16,
    keys: &[RowKey],
) -> Result<Listing<Edit<RowSite, Mapping>>, NoMemory>
    ensures { IfOk result (λ edits. edits ≡ map (take_at site) keys.now) }
{
    let mut edits = Listing::empty(alloc);
    for key in keys {
        edits.push(Edit::Take(RowSite { key: *key, site }))?;
    }
    Ok(edits)
}

impl Publisher {
    // Refuses a join of a site that is no subscription, one that was made before the last one that
    // acted, and one whose numbers do not fit. Gives what is remembered of the site.
    fn check_join(&self, m: &Join) -> Result<SiteState, Refusal>
        ensures state { IfOk result (λ state. state ≡ state_of (tables_of self.now) m.now.site) }
        ensures refusal { refusal_of result ≡ join_refusal (publication_of self.now) m.now (tables_of self.now) }
    {
        check_subscription(self.publication(), m.site)?;
        let state = state_of(&self.sites, m.site);
        if m.seq < state.joined_at {
            return Err(Refusal::Stale {
                seq: m.seq,
                joined_at: state.joined_at,
            });
        }
        check_rules(join_fault(m))?;
        counters_go_on(self.changes, self.gens.last_closed(), self.conflict_count)?;
        Ok(state)
    }

    // Whether the last move of a row says that it left the site's partition.
    fn is_left_at(&self, site: u16, key: RowKey) -> bool
        ensures { result ≡ is_left_at (tables_of self.now).mappings site key }
    {
        match self.mappings.get(&RowSite { key, site }) {
            Some(mapping) => mapping.kind == MoveKind::Left,
            None => false,
        }
    }

    // Those of these rows that left the site's partition.
    fn left_among(&self, site: u16, keys: &[RowKey]) -> Result<Vec<RowKey>, NoMemory>
        ensures { IfOk result (λ left. left.items ≡ filter (is_left_at (tables_of self.now).mappings site) keys.now) }
    {
        let mut left = Vec::new(self.alloc);
        for key in keys {
            self.add_if_left(site, *key, &mut left)?;
        }
        Ok(left)
    }

    // Adds the row behind a list, where it left the site's partition.
    fn add_if_left(&self, site: u16, key: RowKey, left: &mut Vec<RowKey>) -> Result<(), NoMemory>
        ensures { OnOk result (left.new.items ≡ left.old.items ++ (if is_left_at (tables_of self.now).mappings site key then key ∷ [] else [])) }
    {
        if !self.is_left_at(site, key) {
            return Ok(());
        }
        left.push(key)?;
        Ok(())
    }

    // The edits after which no row is known to have left the site's partition. The time grows with
    // the site's mappings.
    fn left_edits(&self, site: SiteId) -> Result<Listing<Edit<RowSite, Mapping>>, NoMemory>
        ensures left { IfOk result (λ edits. rows_after_all row_site_cmp (tables_of self.now).mappings edits ≡ (without_left site (tables_of self.now)).mappings) }
        ensures apart { IfOk result (λ edits. AreApart (places_of edits)) }
    {
        self.mappings.is_ordered();
        let mut keys = Vec::new(self.alloc);
        add_moved(&self.moved, site.0, 0, None, &mut keys)?;
        sort_rows(&mut keys);
        let left = self.left_among(site.0, &keys)?;
        let edits = take_edits(self.alloc, site.0, &left)?;
        Ok(edits)
    }

    // A draft in which a join acts.
    fn draft_joined(
        &mut self,
        latest: Moment,
        site: SiteId,
        state: SiteState,
    ) -> Result<Draft, NoMemory>
        ensures made { IfOk result (λ d. after d.changes (tables_of self.old) ≡ without_left site (with_state site state (record (tables_of self.old) { latest = latest }))) }
        ensures ready { IfOk result (λ d. IsDrafted self.new d) }
        ensures same { tables_of self.new ≡ tables_of self.old }
        ensures publication { publication_of self.new ≡ publication_of self.old }
    {
        let mappings = self.left_edits(site)?;
        let sites = state_edits(self.alloc, site, state)?;
        self.draft_forgetting(
            latest,
            Forgetting {
                rows: Listing::empty(self.alloc),
                entries: Listing::empty(self.alloc),
                mappings,
                sites,
            },
        )
    }

    /// Works out a join, and what the site is told. The time grows with the site's mappings.
    pub fn draft_join(&mut self, now: Moment, m: &Join) -> Result<(Draft, Joined), Refusal>
        ensures made { IfOk result (λ d. join (publication_of self.old) now m.now (tables_of self.old) ≡ Ok (after d.0.changes (tables_of self.old), d.1)) }
        ensures ready { IfOk result (λ d. IsDrafted self.new d.0) }
        ensures refused { (refusal : OneRefusal) → result ≡ Err refusal → (refusal ≡ no_memory) ⊎ (join (publication_of self.old) now m.now (tables_of self.old) ≡ Err refusal) }
        ensures refuses { RefusesAs (join (publication_of self.old) now m.now (tables_of self.old)) result }
        ensures same { tables_of self.new ≡ tables_of self.old }
        ensures publication { publication_of self.new ≡ publication_of self.old }

        // One that does not act takes no memory.
        ensures nothing { join_acts m.now (tables_of self.old) ≡ false → RefusesOnlyAs (join (publication_of self.old) now m.now (tables_of self.old)) result }
    {
        let state = self.check_join(m)?;
        let latest = self.moment_at(now);
        let told = Joined { seq: m.seq };
        if m.seq <= state.joined_at {
            let draft = self.draft_moment(latest)?;
            return Ok((draft, told));
        }
        let draft = self.draft_joined(latest, m.site, joined_state(m, latest, state))?;
        Ok((draft, told))
    }
}
