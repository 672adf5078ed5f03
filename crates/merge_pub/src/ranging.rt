//! A site asks for identity ranges.
ghost use Rattle.std.specs.Prelude.{◌≡◌, ◌⊎◌, Err, IfOk, Ok, OnOk, filter_map, map};
ghost use Rattle.merge_batch.specs.declared.refusal.Refusal.{Refusal as OneRefusal};
ghost use Rattle.merge_batch.specs.declared.refusal.Refusal.TheVariants.{NoMemory as no_memory};
ghost use Rattle.merge_ident.specs.Books as granting;
ghost use Rattle.merge_model.specs.Judge.ByNumbers.{by_numbers};
ghost use Rattle.merge_model.specs.Publisher.PublisherRanges.{ask_by, ended_by, granted_by, plans, ranges, ranges_refusal, reply_to_ranges};
ghost use Rattle.merge_pub.specs.After.{after};
ghost use Rattle.merge_pub.specs.Held.{IsDrafted, publication_of, tables_of};
ghost use Rattle.merge_pub.specs.Ranging.{AreRuled, IsForOthers};
ghost use Rattle.merge_pub.specs.Refused.{RefusesAs, refusal_of};

use crate::closing::counters_go_on;
use crate::publisher::Publisher;
use crate::site::check_rules;
use merge_batch::{
    Ended, EndedRanges, Holdings, RangeAsk, RangeGrant, RangeGrants, Ranged, Refusal, ranges_fault,
};
use merge_gens::SiteState;
use merge_ident::{Ask, GrantAnswer, GrantPlan, GrantPlans, IdentityFault, RangeBook};
use merge_steps::{Draft, push_some};
use merge_types::{Listing, Moment, NoMemory, RowId, SiteId};
use std::alloc::Global;

// The grants alone, which are all of what the publisher holds that the rules of a range request ask
// for.
#[derive(Clone, Copy)]
struct Granted<'a>(&'a RangeBook);

impl Holdings for Granted<'_> {
    ghost use Rattle.std.specs.Prelude.{None};

    ghost known = { λ granted. record { changes = 0; state = λ _. None; grants = granted.0.now.grants; identity = λ _ _. None } };

    fn changes(&self) -> u64 {
        0
    }

    fn state(&self, _: SiteId) -> Option<SiteState> {
        None
    }

    fn identity(&self, _: u8, _: RowId) -> Option<i64> {
        None
    }

    fn has_granted(&self, article: u8, site: SiteId, value: i64) -> bool {
        self.0.has_granted(article, site, value)
    }

    fn granted(&self, article: u8, site: SiteId) -> u64 {
        self.0.granted(article, site)
    }
}

// What is asked of the book of grants.
fn asks_of(alloc: Global, m: &RangeAsk) -> Result<Vec<Ask>, NoMemory>
    ensures { IfOk result (λ asks. asks.items ≡ map (ask_by m.now.site) m.now.wants) }
{
    let mut asks = Vec::new(alloc);
    for want in m.wants.as_slice() {
        asks.push(Ask {
            site: m.site,
            article: want.article,
            have: want.have,
            due: want.due,
        })?;
    }
    Ok(asks)
}

// A range that was granted, or that was granted before and not heard of.
fn granted_by(plan: &GrantPlan) -> Option<RangeGrant>
    ensures { result ≡ granted_by plan.now.ask.article plan.now.answer }
{
    match plan.answer {
        Ok(GrantAnswer::Granted { number, range }) => Some(RangeGrant {
            article: plan.ask.article,
            number,
            begin: range.begin,
            end: range.end,
        }),
        Ok(GrantAnswer::Kept { number, range }) => Some(RangeGrant {
            article: plan.ask.article,
            number,
            begin: range.begin,
            end: range.end,
        }),
        _ => None,
    }
}

// That no range is left.
fn ended_by(plan: &GrantPlan) -> Option<Ended>
    ensures { result ≡ ended_by plan.now.ask.article plan.now.answer }
{
    match plan.answer {
        Err(IdentityFault::NoRange { next, greatest }) => Some(Ended {
            article: plan.ask.article,
            next,
            greatest,
        }),
        _ => None,
    }
}

// The ranges that the site is told of.
fn grants_told(alloc: Global, plans: &[GrantPlan]) -> Result<RangeGrants, NoMemory>
    ensures { IfOk result (λ grants. grants ≡ filter_map (λ plan. granted_by plan.ask.article plan.answer) plans.now) }
{
    let mut grants = Listing::empty(alloc);
    for plan in plans {
        push_some(&mut grants, granted_by(plan))?;
    }
    Ok(grants)
}

// The articles of which it is told that no range is left.
fn ended_told(alloc: Global, plans: &[GrantPlan]) -> Result<EndedRanges, NoMemory>
    ensures { IfOk result (λ ended. ended ≡ filter_map (λ plan. ended_by plan.ask.article plan.answer) plans.now) }
{
    let mut ended = Listing::empty(alloc);
    for plan in plans {
        push_some(&mut ended, ended_by(plan))?;
    }
    Ok(ended)
}

// What the site is told.
fn ranged(alloc: Global, m: &RangeAsk, plans: &[GrantPlan]) -> Result<Ranged, NoMemory>
    ensures { IfOk result (λ told. told ≡ reply_to_ranges m.now plans.now) }
{
    let grants = grants_told(alloc, plans)?;
    let ended = ended_told(alloc, plans)?;
    Ok(Ranged {
        seq: m.seq,
        grants,
        ended,
    })
}

impl Publisher {
    // Refuses what is refused of every request, a range request that breaks a rule, and a step past
    // the limit of a counter.
    #[tactic(auto, unfolding(merge_batch::specs::Asks::broken_by_ranges))]
    fn check_ranges(&self, now: Moment, m: &RangeAsk) -> Result<(), Refusal>
        ensures refusal { refusal_of result ≡ ranges_refusal (publication_of self.now) (by_numbers (tables_of self.now)) now m.now (tables_of self.now) }
        ensures ruled { OnOk result (AreRuled (publication_of self.now) m.now) }
        ensures others { OnOk result (IsForOthers (publication_of self.now) m.now.site) }
    {
        self.check_site(now, m.site, m.seq)?;
        let broken = ranges_fault(self.publication(), &Granted(&self.grants), m);
        check_rules(broken)?;
        counters_go_on(self.changes, self.gens.last_closed(), self.conflict_count)?;
        Ok(())
    }

    // What the site is answered, with the memory for it taken.
    fn plan_ranges(&mut self, m: &RangeAsk) -> Result<GrantPlans, NoMemory>
        requires { AreRuled (publication_of self.old) m.now }
        ensures plans { IfOk result (λ planned. planned ≡ plans (publication_of self.old) m.now (tables_of self.old)) }
        ensures ready { IfOk result (λ planned. granting.IsReady self.new.grants planned) }
        ensures same { tables_of self.new ≡ tables_of self.old }
        ensures publication { publication_of self.new ≡ publication_of self.old }
    {
        let asks = asks_of(self.alloc, m)?;
        let planned = self.grants.prepare_all(&asks)?;
        Ok(planned)
    }

    /// Works out a request for ranges, and what the site is told.
    pub fn draft_ranges(&mut self, now: Moment, m: &RangeAsk) -> Result<(Draft, Ranged), Refusal>
        ensures made { IfOk result (λ d. ranges (publication_of self.old) (by_numbers (tables_of self.old)) now m.now (tables_of self.old) ≡ Ok (after d.0.changes (tables_of self.old), d.1)) }
        ensures planned { IfOk result (λ d. d.0.changes.grants ≡ plans (publication_of self.old) m.now (tables_of self.old)) }
        ensures ready { IfOk result (λ d. IsDrafted self.new d.0) }
        ensures refused { (refusal : OneRefusal) → result ≡ Err refusal → (refusal ≡ no_memory) ⊎ (ranges (publication_of self.old) (by_numbers (tables_of self.old)) now m.now (tables_of self.old) ≡ Err refusal) }
        ensures refuses { RefusesAs (ranges (publication_of self.old) (by_numbers (tables_of self.old)) now m.now (tables_of self.old)) result }
        ensures same { tables_of self.new ≡ tables_of self.old }
        ensures publication { publication_of self.new ≡ publication_of self.old }
    {
        self.check_ranges(now, m)?;
        let latest = self.moment_at(now);
        let planned = self.plan_ranges(m)?;
        let told = ranged(self.alloc, m, planned.as_slice())?;
        let draft = self.draft_granting(latest, planned)?;
        Ok((draft, told))
    }
}
