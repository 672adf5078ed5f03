//! A site uploads rows.
ghost use Rattle.std.specs.Prelude.{◌≡◌, ◌⊎◌, ◌≤◌, ◌<◌, ◌+◌, ◌*◌, ◌&&◌, ◌++◌, ◌^◌, ℕ, [], true, None, Some, Ok, Err, IfOk, OnOk, count_by, length, map, nat_lt, take};
ghost use Rattle.merge_types.specs.Limits.{counter_limit, item_limit, rows_limit};
ghost use Rattle.merge_types.specs.declared.identifiers.Moment.{Moment as OneMoment};
ghost use Rattle.merge_conflict.specs.Rising.{AreRising};
ghost use Rattle.merge_conflict.specs.Table as losing;
ghost use Rattle.merge_resolve.specs.Asked.{says_at, tallies_after};
ghost use Rattle.merge_schema.specs.Places.{is_subscription};
ghost use Rattle.merge_batch.specs.Laws.{IsValidUpload};
ghost use Rattle.merge_batch.specs.LocalChanges.{refused_if};
ghost use Rattle.merge_batch.specs.declared.refusal.Refusal.{Refusal as OneRefusal};
ghost use Rattle.merge_batch.specs.declared.refusal.Refusal.TheVariants.{Gap, NoMemory as no_memory, TooManyRows};
ghost use Rattle.merge_model.specs.Publisher.Acts.{acts_of};
ghost use Rattle.merge_model.specs.Judge.ByNumbers.{by_numbers};
ghost use Rattle.merge_model.specs.World.Faults.{upload_fault};
ghost use Rattle.merge_model.specs.Tables.Keys.{at_number};
ghost use Rattle.merge_model.specs.Publisher.PublisherUpload.{too_many_new, upload_refusal};
ghost use Rattle.merge_model.specs.World.Steps.{kept_decisions};
ghost use Rattle.merge_pub.specs.After.{after};
ghost use Rattle.merge_pub.specs.Held.{IsDrafted, publication_of, tables_of};
ghost use Rattle.merge_pub.specs.Refused.{RefusesAs, refusal_of};
ghost use Rattle.merge_pub.specs.Uploaded.{IsActed, acted_tables, arrival_of, asked_on, decided_on, known_in, none_acted, taken_tables, upload_by};
ghost use Rattle.merge_steps.specs.Uploading.{AskedSome, after_items, known_of, makes_row_in, pass_at, questions_in};

use crate::closing::counters_go_on;
use crate::publisher::Publisher;
use crate::site::check_rules;
use merge_batch::{Refusal, Upload, UploadItem, Uploaded, upload_fault};
use merge_conflict::{ConflictPlan, ConflictRows};
use merge_gens::SiteState;
use merge_resolve::Handed;
use merge_steps::{
    Acting, Arrival, Besides, Draft, Holding, act_on_all, acts_in, is_made_by, key_of_item,
    site_edits,
};
use merge_table::{Edit, Table};
use merge_types::limits::ROWS_LIMIT;
use merge_types::{Listing, Moment, NoMemory, RowKey, Steps};
use merge_units::{Decision, PublisherRow};
use std::alloc::Global;
use std::sync::ledger::Ledger;

/// An upload that was worked out, and is not put in place.
#[derive(Drop)]
pub struct UploadDraft {
    pub draft: Draft,
    /// What is told to the site.
    pub told: Uploaded,
    /// What was decided on each conflict, as it counts, in the order in which the items act.
    pub decisions: Listing<Decision>,
}

// Refuses an upload that begins above the generation that was taken last.
fn check_gap(from: u64, received: u64) -> Result<(), Refusal>
    ensures { refusal_of result ≡ refused_if (nat_lt received from) (Gap from received) }
{
    if received < from {
        return Err(Refusal::Gap { from, received });
    }
    Ok(())
}

// Whether the item makes a row.
fn makes_row(rows: &Table<RowKey, PublisherRow>, arrival: Arrival, item: &UploadItem) -> bool
    ensures { result ≡ makes_row_in rows.now.rows arrival item.now }
{
    let key = key_of_item(item);
    acts_in(arrival, item) && rows.get(&key).is_none() && is_made_by(arrival, key)
}

// How many rows the items make.
fn rows_made(rows: &Table<RowKey, PublisherRow>, arrival: Arrival, items: &[UploadItem]) -> u64
    requires { length items.now ≤ item_limit }
    ensures made { result ≡ count_by (makes_row_in rows.now.rows arrival) items.now }
    ensures few { result ≤ item_limit }
{
    let mut made = 0;
    for item in items {
        if makes_row(rows, arrival, item) {
            made += 1;
        }
    }
    made
}

// Refuses rows that are too many.
fn check_count(held: u64, made: u64) -> Result<(), Refusal>
    requires { held + made < 2 ^ 64 }
    ensures { refusal_of result ≡ refused_if (nat_lt 0 made && nat_lt rows_limit (held + made)) (TooManyRows (held + made)) }
{
    let count = held + made;
    if made > 0 && count > ROWS_LIMIT as u64 {
        return Err(Refusal::TooManyRows { count });
    }
    Ok(())
}

// What an upload does besides giving rows versions. It grants nothing.
fn besides_of(
    alloc: Global,
    changes: u64,
    conflict_count: u64,
    latest: Moment,
    sites: Listing<Edit<u16, SiteState>>,
    conflicts: ConflictPlan,
) -> Besides
    ensures { result ≡ record { changes = changes; conflict_count = conflict_count; latest = latest; sites = sites; conflicts = conflicts; grants = []; held = [] } }
{
    Besides {
        changes,
        conflict_count,
        latest,
        sites,
        conflicts,
        grants: Listing::empty(alloc),
        held: Listing::empty(alloc),
    }
}

impl Publisher {
    // Refuses an upload that begins above the generation that was taken last.
    fn check_start(&self, upload: &Upload, state: SiteState) -> Result<(), Refusal>
        requires { at_number (tables_of self.now).sites upload.now.site.0 ≡ Some state }
        ensures { refusal_of result ≡ refused_if ((by_numbers (tables_of self.now)).is_gap upload.now.site.0 upload.now.from) (Gap upload.now.from ((by_numbers (tables_of self.now)).received upload.now.site.0)) }
    {
        check_gap(upload.from, state.received)
    }

    fn held_rows(&self) -> &Table<RowKey, PublisherRow>
        ensures { result.now.rows ≡ (tables_of self.now).rows }
    {
        &self.rows
    }

    fn held_sites(&self) -> &Table<u16, SiteState>
        ensures { result.now.rows ≡ (tables_of self.now).sites }
    {
        &self.sites
    }

    // No item has acted yet.
    fn none_acted(&self) -> Acting
        ensures { result ≡ none_acted (tables_of self.now) }
    {
        Acting::new(self.alloc, self.changes, self.conflict_count)
    }

    // What the rules of an upload ask for.
    fn holding(&self) -> Holding<'_>
        ensures publication { result.publication.now ≡ publication_of self.now }
        ensures known { known_of result.publication.now result.changes result.rows.now.rows result.sites.now.rows result.grants.now.grants ≡ known_in (publication_of self.now) (tables_of self.now) }
    {
        Holding {
            publication: self.membership.publication(),
            changes: self.changes,
            rows: &self.rows,
            sites: &self.sites,
            grants: &self.grants,
        }
    }

    // Refuses an upload that breaks a rule.
    fn check_upload_rules(&self, upload: &Upload) -> Result<(), Refusal>
        ensures refusal { refusal_of result ≡ upload_fault (publication_of self.now) (by_numbers (tables_of self.now)) upload.now (tables_of self.now) }
        ensures valid { OnOk result (IsValidUpload (publication_of self.now) (known_in (publication_of self.now) (tables_of self.now)) upload.now) }
    {
        let holding = self.holding();
        let broken = upload_fault(holding.publication, &holding, upload);
        check_rules(broken)
    }

    // What the items of an upload are held against.
    fn arrival_of(&self, now: Moment, upload: &Upload, state: SiteState) -> Arrival
        requires { at_number (tables_of self.now).sites upload.now.site.0 ≡ Some state }
        ensures { result ≡ arrival_of now upload.now (tables_of self.now) }
    {
        let moment = self.moment_at(now);
        Arrival {
            site: upload.site,
            received: state.received,
            received_number: state.received_number,
            moment,
        }
    }

    // Refuses new rows that are too many.
    fn check_new_rows(&self, arrival: Arrival, upload: &Upload) -> Result<(), Refusal>
        requires few { length upload.now.items ≤ item_limit }
        requires arrival { (now : OneMoment) × (arrival ≡ arrival_of now upload.now (tables_of self.now)) }
        ensures { refusal_of result ≡ too_many_new (acts_of (by_numbers (tables_of self.now)) upload.now [] (tables_of self.now)) (tables_of self.now) }
    {
        let rows = self.held_rows();
        let _ = rows.iter();
        let items = upload.items.as_slice();
        let made = rows_made(rows, arrival, items);
        check_count(rows.len() as u64, made)
    }

    // Refuses an upload, and gives what its items are held against.
    fn check_upload(&self, now: Moment, upload: &Upload) -> Result<Arrival, Refusal>
        ensures refusal { refusal_of result ≡ upload_refusal (publication_of self.now) (by_numbers (tables_of self.now)) now upload.now (tables_of self.now) }
        ensures arrival { IfOk result (λ arrival. arrival ≡ arrival_of now upload.now (tables_of self.now)) }
        ensures valid { OnOk result (IsValidUpload (publication_of self.now) (known_in (publication_of self.now) (tables_of self.now)) upload.now) }
        ensures subscribes { OnOk result (is_subscription (publication_of self.now) upload.now.site.0 ≡ true) }
        ensures changes_low { OnOk result ((tables_of self.now).changes < counter_limit) }
        ensures closed_low { OnOk result ((tables_of self.now).gens.filling.last_closed < counter_limit) }
        ensures conflicts_low { OnOk result ((tables_of self.now).conflict_count < counter_limit) }
    {
        let state = self.check_site(now, upload.site, upload.seq)?;
        self.check_start(upload, state)?;
        self.check_upload_rules(upload)?;
        let arrival = self.arrival_of(now, upload, state);
        self.check_new_rows(arrival, upload)?;
        counters_go_on(self.changes, self.gens.last_closed(), self.conflict_count)?;
        Ok(arrival)
    }

    // What the items do that act, and what was decided on them.
    fn act_on_upload(
        &self,
        resolvers: &mut Vec<Handed>,
        arrival: Arrival,
        upload: &Upload,
    ) -> Result<Acting, NoMemory>
        requires arrival { (now : OneMoment) × (arrival ≡ arrival_of now upload.now (tables_of self.now)) }
        requires valid { IsValidUpload (publication_of self.now) (known_in (publication_of self.now) (tables_of self.now)) upload.now }
        requires changes { (tables_of self.now).changes < counter_limit }
        requires conflicts { (tables_of self.now).conflict_count < counter_limit }
        ensures passed { IfOk result (λ acting. pass_at acting (map (λ r. tally_of r) resolvers.new.items)
            ≡ after_items (publication_of self.now) (tables_of self.now).rows arrival (says_at (λ r. says r) resolvers.old.items) (pass_at (none_acted (tables_of self.now)) (map (λ r. tally_of r) resolvers.old.items)) upload.now.items) }
        ensures acted { IfOk result (λ acting. IsActed (publication_of self.now) (tables_of self.now) acting) }
        ensures decided { IfOk result (λ acting. acting.decisions ≡ kept_decisions (says_at (λ r. says r) resolvers.old.items) (map (λ r. tally_of r) resolvers.old.items) (questions_in (publication_of self.now) (tables_of self.now).rows arrival upload.now.items)) }
        ensures few { IfOk result (λ acting. length acting.versions ≤ length upload.now.items) }
        ensures asked { AskedSome (map (λ r. tally_of r) resolvers.old.items) (map (λ r. tally_of r) resolvers.new.items) (questions_in (publication_of self.now) (tables_of self.now).rows arrival upload.now.items) }
        ensures steady { (k n : ℕ) (asked : _) → says_at (λ r. says r) resolvers.new.items k n asked ≡ says_at (λ r. says r) resolvers.old.items k n asked }
    {
        self.keeps_rules();
        let publication = self.publication();
        let rows = self.held_rows();
        let items = upload.items.as_slice();
        let mut acting = self.none_acted();
        act_on_all(
            self.alloc,
            publication,
            rows,
            arrival,
            resolvers,
            items,
            &mut acting,
        )?;
        Ok(acting)
    }

    // Takes the memory for what lost.
    fn prepare_lost(&mut self, lost: ConflictRows) -> Result<ConflictPlan, NoMemory>
        requires { AreRising ((tables_of self.old).conflicts ++ lost) }
        ensures plan { IfOk result (λ plan. plan.rows ≡ lost) }
        ensures ready { IfOk result (λ plan. losing.IsReady self.new.conflicts plan) }
        ensures same { tables_of self.new ≡ tables_of self.old }
        ensures publication { publication_of self.new ≡ publication_of self.old }
    {
        let plan = self.conflicts.prepare(lost)?;
        Ok(plan)
    }

    // A draft of what the items did, and what was decided.
    fn draft_acted<L: Ledger>(
        &mut self,
        arrival: Arrival,
        upload: &Upload,
        acting: Acting,
        steps: &mut Steps<L>,
    ) -> Result<(Draft, Listing<Decision>), NoMemory>
        requires acted { IsActed (publication_of self.old) (tables_of self.old) acting }
        requires subscribes { is_subscription (publication_of self.old) upload.now.site.0 ≡ true }
        requires low { (tables_of self.old).gens.filling.last_closed < counter_limit }
        ensures made { IfOk result (λ d. after d.0.changes (tables_of self.old) ≡ acted_tables (publication_of self.old) (by_numbers (tables_of self.old)) arrival upload.now acting (tables_of self.old)) }
        ensures ready { IfOk result (λ d. IsDrafted self.new d.0) }
        ensures decided { IfOk result (λ d. d.1 ≡ acting.decisions) }
        ensures same { tables_of self.new ≡ tables_of self.old }
        ensures publication { publication_of self.new ≡ publication_of self.old }
        ensures cost { steps.new ≤ steps.old + length (publication_of self.old).subscriptions * length acting.versions }
    {
        let Acting {
            versions,
            acted,
            lost,
            decisions,
            changes,
            conflict_count,
        } = acting;
        self.keeps_rules();
        let sites = site_edits(self.alloc, self.held_sites(), arrival, upload)?;
        let plan = self.prepare_lost(lost)?;
        let besides = besides_of(
            self.alloc,
            changes,
            conflict_count,
            arrival.moment,
            sites,
            plan,
        );
        let draft = self.draft_versions(
            versions.into_vec(),
            acted.as_slice(),
            upload.site.0,
            besides,
            steps,
        )?;
        Ok((draft, decisions))
    }

    // A draft of an upload, and what was decided. One that brings no news has no item that acts.
    fn draft_taken<L: Ledger>(
        &mut self,
        arrival: Arrival,
        upload: &Upload,
        acting: Acting,
        steps: &mut Steps<L>,
    ) -> Result<(Draft, Listing<Decision>), NoMemory>
        requires acted { IsActed (publication_of self.old) (tables_of self.old) acting }
        requires subscribes { is_subscription (publication_of self.old) upload.now.site.0 ≡ true }
        requires low { (tables_of self.old).gens.filling.last_closed < counter_limit }
        ensures made { IfOk result (λ d. after d.0.changes (tables_of self.old) ≡ taken_tables (publication_of self.old) (by_numbers (tables_of self.old)) arrival upload.now acting (tables_of self.old)) }
        ensures ready { IfOk result (λ d. IsDrafted self.new d.0) }
        ensures decided { IfOk result (λ d. d.1 ≡ acting.decisions) }
        ensures same { tables_of self.new ≡ tables_of self.old }
        ensures publication { publication_of self.new ≡ publication_of self.old }
        ensures cost { steps.new ≤ steps.old + length (publication_of self.old).subscriptions * length acting.versions }
    {
        if arrival.received < upload.to {
            let acted = self.draft_acted(arrival, upload, acting, steps)?;
            return Ok(acted);
        }
        let draft = self.draft_moment(arrival.moment)?;
        Ok((draft, acting.decisions))
    }

    /// Works out an upload, and tells up to which generation the site's changes are taken and what
    /// was decided. Each resolver is asked about its conflicts, once each. It is refused where the site does not
    /// subscribe, has not joined, is expired or made the message before it joined, where the upload
    /// leaves a gap or breaks a rule, where new rows are too many, and where a counter has come to
    /// its end. Then no resolver is asked. Where memory is wanting, the first few questions may have
    /// been asked.
    pub fn draft_upload<L: Ledger>(
        &mut self,
        resolvers: &mut Vec<Handed>,
        now: Moment,
        upload: &Upload,
        steps: &mut Steps<L>,
    ) -> Result<UploadDraft, Refusal>
        ensures made { IfOk result (λ d. upload_by (publication_of self.old) (says_at (λ r. says r) resolvers.old.items) (map (λ r. tally_of r) resolvers.old.items) now upload.now (tables_of self.old) ≡ Ok (after d.draft.changes (tables_of self.old), d.told)) }
        ensures decided { IfOk result (λ d. d.decisions ≡ decided_on (publication_of self.old) (says_at (λ r. says r) resolvers.old.items) (map (λ r. tally_of r) resolvers.old.items) now upload.now (tables_of self.old)) }
        ensures ready { IfOk result (λ d. IsDrafted self.new d.draft) }
        ensures refused { (refusal : OneRefusal) → result ≡ Err refusal → (refusal ≡ no_memory) ⊎ (upload_by (publication_of self.old) (says_at (λ r. says r) resolvers.old.items) (map (λ r. tally_of r) resolvers.old.items) now upload.now (tables_of self.old) ≡ Err refusal) }
        ensures refuses { RefusesAs (upload_by (publication_of self.old) (says_at (λ r. says r) resolvers.old.items) (map (λ r. tally_of r) resolvers.old.items) now upload.now (tables_of self.old)) result }

        // Each resolver is asked all its questions where the upload is made, none where it is
        // refused, and else the first few.
        ensures asked { OnOk result (map (λ r. tally_of r) resolvers.new.items ≡ tallies_after (map (λ r. tally_of r) resolvers.old.items) (asked_on (publication_of self.old) now upload.now (tables_of self.old))) }
        ensures some { (n : ℕ) × (map (λ r. tally_of r) resolvers.new.items ≡ tallies_after (map (λ r. tally_of r) resolvers.old.items) (take n (asked_on (publication_of self.old) now upload.now (tables_of self.old)))) }
        ensures none { (refusal : OneRefusal) → upload_by (publication_of self.old) (says_at (λ r. says r) resolvers.old.items) (map (λ r. tally_of r) resolvers.old.items) now upload.now (tables_of self.old) ≡ Err refusal
            → map (λ r. tally_of r) resolvers.new.items ≡ map (λ r. tally_of r) resolvers.old.items }
        ensures steady { (k n : ℕ) (asked : _) → says_at (λ r. says r) resolvers.new.items k n asked ≡ says_at (λ r. says r) resolvers.old.items k n asked }
        ensures same { tables_of self.new ≡ tables_of self.old }
        ensures publication { publication_of self.new ≡ publication_of self.old }

        // Filters are evaluated once for each subscription and item, at most.
        ensures cost { steps.new ≤ steps.old + length (publication_of self.old).subscriptions * length upload.now.items }
    {
        let arrival = self.check_upload(now, upload)?;
        let acting = self.act_on_upload(resolvers, arrival, upload)?;
        let (draft, decisions) = self.draft_taken(arrival, upload, acting, steps)?;
        Ok(UploadDraft {
            draft,
            told: Uploaded {
                seq: upload.seq,
                received: upload.to.max(arrival.received),
            },
            decisions,
        })
    }
}
