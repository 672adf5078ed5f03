//! Drafts that change no row and no mapping.
ghost use Rattle.std.specs.Prelude.{◌≡◌, ◌<◌, ◌∷◌, [], IfOk, IsOk, None};
ghost use Rattle.merge_types.specs.Limits.{counter_limit};
ghost use Rattle.merge_table.specs.declared.edit.Edit.TheVariants.{Put};
ghost use Rattle.merge_ident.specs.Books as granting;
ghost use Rattle.merge_model.specs.Publisher.{tables_after_close, with_state};
ghost use Rattle.merge_model.specs.Publisher.PublisherRanges.{with_grants};
ghost use Rattle.merge_pub.specs.After.{after};
ghost use Rattle.merge_steps.specs.Keeps.{KeepsRules};
ghost use Rattle.merge_pub.specs.Held.{IsDrafted, publication_of, tables_of};

use crate::closing::still;
use crate::publisher::Publisher;
use merge_gens::{GenerationPlan, SiteState};
use merge_ident::GrantPlans;
use merge_steps::Draft;
use merge_table::Edit;
use merge_types::{Listing, Moment, NoMemory, SiteId};
use std::alloc::Global;

// The change of what is remembered of a site.
pub fn state_edits(
    alloc: Global,
    site: SiteId,
    state: SiteState,
) -> Result<Listing<Edit<u16, SiteState>>, NoMemory>
    ensures { IfOk result (λ edits. edits ≡ Put site.0 state ∷ []) }
{
    let mut edits = Listing::empty(alloc);
    edits.push(Edit::Put(site.0, state))?;
    Ok(edits)
}

// A draft that changes nothing but this of what is remembered of sites.
fn site_draft(
    alloc: Global,
    changes: u64,
    conflict_count: u64,
    latest: Moment,
    gens: GenerationPlan,
    sites: Listing<Edit<u16, SiteState>>,
) -> Draft
    ensures changes { result.changes ≡ record { changes = changes; conflict_count = conflict_count; latest = latest; gens = gens; rows = []; mappings = []; sites = sites; conflicts = record { rows = [] }; grants = []; held = [] } }
    ensures plan { result.plan ≡ None }
    ensures changed { result.index.changed.changes ≡ [] }
    ensures moved { result.index.moved ≡ [] }
{
    let mut draft = still(alloc, changes, conflict_count, latest, gens);
    draft.changes.sites = sites;
    draft
}

// A draft that grants ranges alone.
fn grant_draft(
    alloc: Global,
    changes: u64,
    conflict_count: u64,
    latest: Moment,
    gens: GenerationPlan,
    grants: GrantPlans,
) -> Draft
    ensures changes { result.changes ≡ record { changes = changes; conflict_count = conflict_count; latest = latest; gens = gens; rows = []; mappings = []; sites = []; conflicts = record { rows = [] }; grants = grants; held = [] } }
    ensures plan { result.plan ≡ None }
    ensures changed { result.index.changed.changes ≡ [] }
    ensures moved { result.index.moved ≡ [] }
{
    let mut draft = still(alloc, changes, conflict_count, latest, gens);
    draft.changes.grants = grants;
    draft
}

impl Publisher {
    // A draft in which the open generation closes and this is remembered of a site.
    #[tactic(auto, unfolding(merge_table::specs::Edits::IsReady))]
    pub(crate) fn draft_closing(
        &mut self,
        latest: Moment,
        site: SiteId,
        state: SiteState,
    ) -> Result<Draft, NoMemory>
        requires { self.old.gens.book.filling.last_closed < counter_limit }
        ensures made { IfOk result (λ d. after d.changes (tables_of self.old) ≡ tables_after_close (with_state site state (record (tables_of self.old) { latest = latest }))) }
        ensures ready { IfOk result (λ d. IsDrafted self.new d) }
        ensures same { tables_of self.new ≡ tables_of self.old }
        ensures publication { publication_of self.new ≡ publication_of self.old }
    {
        let (_, gens) = self.gens.prepare_close(latest)?;
        let sites = state_edits(self.alloc, site, state)?;
        self.sites.prepare(sites.as_slice())?;
        Ok(site_draft(
            self.alloc,
            self.changes,
            self.conflict_count,
            latest,
            gens,
            sites,
        ))
    }

    // A draft in which nothing changes but the moment.
    #[tactic(auto, unfolding(merge_table::specs::Edits::IsReady))]
    pub(crate) fn draft_moment(&mut self, latest: Moment) -> Result<Draft, NoMemory>
        ensures made { IfOk result (λ d. after d.changes (tables_of self.old) ≡ record (tables_of self.old) { latest = latest }) }
        ensures ready { IfOk result (λ d. IsDrafted self.new d) }
        ensures same { tables_of self.new ≡ tables_of self.old }
        ensures publication { publication_of self.new ≡ publication_of self.old }

        // What takes no memory is not refused.
        ensures nothing { IsOk result }
    {
        let (_, gens) = self.gens.prepare(&[])?;
        Ok(still(self.alloc, self.changes, self.conflict_count, latest, gens))
    }

    // A draft in which ranges are granted, of which the memory is taken.
    #[tactic(auto, unfolding(merge_table::specs::Edits::IsReady))]
    pub(crate) fn draft_granting(
        &mut self,
        latest: Moment,
        planned: GrantPlans,
    ) -> Result<Draft, NoMemory>
        requires ready { granting.IsReady self.old.grants planned }
        requires keeps { KeepsRules (publication_of self.old) (with_grants planned (tables_of self.old)) }
        ensures made { IfOk result (λ d. after d.changes (tables_of self.old) ≡ with_grants planned (record (tables_of self.old) { latest = latest })) }
        ensures planned { IfOk result (λ d. d.changes.grants ≡ planned) }
        ensures ready { IfOk result (λ d. IsDrafted self.new d) }
        ensures same { tables_of self.new ≡ tables_of self.old }
        ensures publication { publication_of self.new ≡ publication_of self.old }
        ensures nothing { IsOk result }
    {
        let (_, gens) = self.gens.prepare(&[])?;
        Ok(grant_draft(
            self.alloc,
            self.changes,
            self.conflict_count,
            latest,
            gens,
            planned,
        ))
    }
}
