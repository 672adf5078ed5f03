//! The publisher's book of grants.
ghost use Rattle.std.specs.Prelude.{◌≡◌, ◌<◌, ◌≤◌, ◌+◌, ◌∷◌, ◌↔◌, [], All, vec_len, vec_capacity, IsSome, IsTrue, IfOk, IsOk, OnErr, IsPermutation};
ghost use Rattle.merge_ident.specs.Grants.{granted_to, is_granted, with_grant, AreGrants, AreInOrder};
ghost use Rattle.merge_ident.specs.Answers.{ask_of, answer_of, grants_after, rule_of, plan_of, plans_of, IsAnswer, NeedsMemory};
ghost use Rattle.merge_ident.specs.Books.{IsRule, IsReady, book_with, book_with_all};

use crate::{
    Ask, Grant, GrantAnswer, GrantPlan, GrantPlans, Grants, IdentityFault, Rules, asks, halving,
};
use merge_types::{Listing, NoMemory, SiteId};
use std::alloc::Global;
use std::marker::Model;

/// All ranges that the publisher granted, to subscribers and to itself.
#[derive(Debug, Drop)]
pub struct RangeBook {
    rules: Rules,
    grants: Vec<Grant>,
}

impl Model for RangeBook {
    ghost use Rattle.std.specs.Prelude.{◌-◌, vec_len, vec_capacity};
    ghost use Rattle.merge_ident.specs.Books.{Book, IsBook};

    ghost Value = { Book };

    ghost view = { λ b. record { rules = b.rules; grants = b.grants.items; room = vec_capacity b.grants - vec_len b.grants } };

    ghost invariant = { λ b. IsBook b.rules b.grants.items };
}

impl RangeBook {
    /// A book without grants.
    pub fn new(alloc: Global, rules: Rules) -> Self
        requires { All IsRule rules }
        ensures rules { result.rules ≡ rules }
        ensures grants { result.grants ≡ [] }
    {
        RangeBook {
            rules,
            grants: Vec::new(alloc),
        }
    }

    /// The book with these grants, in whatever order they come.
    pub fn restore(rules: Rules, grants: Grants) -> Self
        requires rules { All IsRule rules }
        requires grants { AreGrants grants }
        ensures rules { result.rules ≡ rules }
        ensures grants { IsPermutation grants result.grants }
        ensures in_order { AreInOrder result.grants }
    {
        let mut grants = grants.into_vec();
        sort(&mut grants);
        RangeBook { rules, grants }
    }

    /// All grants by article and begin, which within an article is the order in which they were
    /// made.
    pub fn grants(&self) -> &[Grant]
        ensures grants { result.now ≡ self.now.grants }
        ensures in_order { AreInOrder self.now.grants }
        ensures fit { AreGrants self.now.grants }
    {
        &self.grants
    }

    /// Answers a site that heard of `have` grants of the article. A number that it does not know
    /// of is told again, so that a lost answer costs no range.
    pub fn grant(
        &mut self,
        site: SiteId,
        article: u8,
        have: u64,
        due: bool,
    ) -> Result<GrantAnswer, IdentityFault>
        requires { IsSome (rule_of self.old.rules article) }
        ensures answer { IsAnswer result (answer_of self.old.rules self.old.grants (ask_of site article have due)) }
        ensures grants { self.new.grants ≡ grants_after self.old.grants (ask_of site article have due) result }
        ensures rules { self.new.rules ≡ self.old.rules }
    {
        let ask = Ask {
            site,
            article,
            have,
            due,
        };
        let plan = self.prepare(ask)?;
        self.settle(&plan);
        plan.answer
    }

    /// Works out the answer to an ask, takes the memory for it, and grants nothing yet.
    pub fn prepare(&mut self, ask: Ask) -> Result<GrantPlan, NoMemory>
        requires { IsSome (rule_of self.old.rules ask.article) }
        ensures plan { IfOk result (λ plan. plan ≡ plan_of self.old.rules self.old.grants ask) }
        ensures ready { IfOk result (λ plan. IsReady self.new (plan ∷ [])) }
        ensures memory { OnErr result (NeedsMemory (answer_of self.old.rules self.old.grants ask)) }
        ensures room { OnErr result (self.old.room ≡ 0) }
        ensures room_stays { self.old.room ≤ self.new.room }
        ensures grants { self.new.grants ≡ self.old.grants }
        ensures rules { self.new.rules ≡ self.old.rules }
    {
        let answer = asks::answer(self.rules.as_slice(), &self.grants, &[], ask);
        if let Ok(GrantAnswer::Granted { .. }) = answer {
            self.grants.reserve(1)?;
        }
        Ok(GrantPlan { ask, answer })
    }

    /// Grants what was planned for one ask. It takes no memory.
    pub fn settle(&mut self, plan: &GrantPlan)
        requires { IsReady self.old (plan.now ∷ []) }
        ensures { self.new ≡ book_with self.old plan.now }
    {
        if let Some(grant) = asks::new_grant(plan) {
            put(&mut self.grants, grant);
        }
    }

    /// Works out the answers to the asks of one step, each as if those before it were granted,
    /// takes the memory for them all, and grants nothing yet.
    pub fn prepare_all(&mut self, asks: &[Ask]) -> Result<GrantPlans, NoMemory>
        requires { All (λ ask. IsSome (rule_of self.old.rules ask.article)) asks.now }
        ensures plans { IfOk result (λ plans. plans ≡ plans_of self.old.rules self.old.grants asks.now) }
        ensures ready { IfOk result (λ plans. IsReady self.new plans) }
        ensures room { self.old.room ≤ self.new.room }
        ensures grants { self.new.grants ≡ self.old.grants }
        ensures rules { self.new.rules ≡ self.old.rules }

        // What takes no memory is not refused.
        ensures nothing { asks.now ≡ [] → IsOk result }
    {
        let alloc = *self.grants.allocator();
        let (plans, count) = asks::plans(alloc, self.rules.as_slice(), &self.grants, asks)?;
        self.grants.reserve(count)?;
        Ok(Listing::new(plans))
    }

    /// Grants what was planned for the asks of one step. It takes no memory.
    pub fn settle_all(&mut self, plans: &[GrantPlan])
        requires { IsReady self.old plans.now }
        ensures { self.new ≡ book_with_all self.old plans.now }
    {
        for plan in plans {
            self.settle(plan);
        }
    }

    /// How many ranges of the article were granted to the site.
    pub fn granted(&self, article: u8, site: SiteId) -> u64
        ensures { result ≡ granted_to article site.0 self.now.grants }
    {
        halving::granted(&self.grants, article, site)
    }

    /// Whether a value of the article lies in a range that was granted to the site. The time grows
    /// with the logarithm of all grants.
    pub fn has_granted(&self, article: u8, site: SiteId, value: i64) -> bool
        ensures { result ≡ is_granted article site.0 value self.now.grants }
    {
        halving::has_granted(&self.grants, article, site, value)
    }

    /// Whether the article has a rule, as an ask of it must.
    pub fn has_rule(&self, article: u8) -> bool
        ensures { IsTrue result ↔ IsSome (rule_of self.now.rules article) }
    {
        asks::has_rule(self.rules.as_slice(), article)
    }
}

// Brings grants into the order of article and begin.
fn sort(grants: &mut [Grant])
    requires { AreGrants grants.old }
    ensures permutation { IsPermutation grants.old grants.new }
    ensures fit { AreGrants grants.new }
    ensures in_order { AreInOrder grants.new }
{
    grants.sort_unstable_by_key(|grant| (grant.article, grant.range.begin));
}

// Writes a grant down where there is room for it.
fn put(grants: &mut Vec<Grant>, grant: Grant)
    requires room { vec_len grants.old < vec_capacity grants.old }
    requires order { AreInOrder grants.old.items }
    ensures items { grants.new.items ≡ with_grant grants.old.items grant }
    ensures len { vec_len grants.new ≡ vec_len grants.old + 1 }
    ensures capacity { vec_capacity grants.new ≡ vec_capacity grants.old }
{
    let at = halving::place(grants, grant.article);
    grants.insert(at, grant).unwrap();
}
