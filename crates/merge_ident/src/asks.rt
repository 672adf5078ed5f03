//! What an ask is answered: reads of the grants, and of those that are planned.
ghost use Rattle.std.specs.Prelude.{◌≡◌, ◌<◌, ◌≤◌, ◌+◌, ◌++◌, length, max, find, All, ◌↔◌, IsTrue, IsSome, IfOk, IsOk, OnOk, Some, [], ◌^◌};
ghost use Rattle.std.specs.Option.{option_or, option_to_list};
ghost use Rattle.merge_ident.specs.Grants.{granted_to, is_numbered, greatest_end, with_grants, AreInOrder, AreNumbered, IsGranted};
ghost use Rattle.merge_ident.specs.Answers.{answer_of, rule_of, kept_answer, next_answer, new_grant, plans_of};
ghost use Rattle.merge_ident.specs.Books.{IsRule, IsBook, AllFollow, room_for_all};

use crate::halving::{granted, greatest};
use crate::{Answer, Ask, Grant, GrantAnswer, GrantPlan, IdentityFault, Range, Rule};
use merge_types::NoMemory;
use std::alloc::Global;
use std::cmp::Ordering;

// How many of the grants are of the article and to the site.
fn granted_of(grants: &[Grant], ask: Ask) -> usize
    ensures count { result ≡ granted_to ask.article ask.site.0 grants.now }
    ensures bound { result ≤ length grants.now }
{
    grants
        .iter()
        .filter(|grant| grant.article == ask.article && grant.site.0 == ask.site.0)
        .count()
}

// The grant of the article and the site with a number.
fn numbered_of(grants: &[Grant], ask: Ask, number: u64) -> Option<Grant>
    ensures { result ≡ find (is_numbered ask.article ask.site.0 number) grants.now }
{
    for grant in grants {
        if grant.article == ask.article && grant.site.0 == ask.site.0 && grant.number == number {
            return Some(*grant);
        }
    }
    None
}

// The greatest end of the article's ranges.
fn greatest_of(grants: &[Grant], article: u8) -> u64
    requires { All IsGranted grants.now }
    ensures greatest { result ≡ greatest_end article grants.now }
    ensures bound { result < 2 ^ 63 }
{
    let mut greatest = 0u64;
    for grant in grants {
        if grant.article == article {
            greatest = greatest.max(grant.range.end as u64);
        }
    }
    greatest
}

// Whether the article has a rule.
pub fn has_rule(rules: &[Rule], article: u8) -> bool
    ensures { IsTrue result ↔ IsSome (rule_of rules.now article) }
{
    for rule in rules {
        if rule.article == article {
            return true;
        }
    }
    false
}

// The rule of an article that has one.
fn rule_for(rules: &[Rule], article: u8) -> Rule
    requires some { IsSome (rule_of rules.now article) }
    requires rules { All IsRule rules.now }
    ensures rule { Some result ≡ rule_of rules.now article }
    ensures fits { IsRule result }
{
    for rule in rules {
        if rule.article == article {
            return *rule;
        }
    }
    unreachable!()
}

// The next range of the rule's article, whose ranges end at `greatest` so far.
fn next_range(rule: &Rule, greatest: u64, ask: Ask) -> Answer
    requires rule { IsRule rule.now }
    requires bound { greatest < 2 ^ 63 }
    requires number { ask.have + 1 < 2 ^ 64 }
    ensures { result ≡ next_answer rule.now ask.site.0 (ask.have + 1) greatest }
{
    let begin = if greatest == 0 {
        rule.seed as u64
    } else {
        greatest + 1
    };
    let size = if ask.site.0 == 0 {
        rule.pub_range
    } else {
        rule.range
    };
    let end = begin + size as u64 - 1;
    if end > rule.greatest as u64 {
        return Err(IdentityFault::NoRange {
            next: begin,
            greatest: rule.greatest,
        });
    }
    Ok(GrantAnswer::Granted {
        number: ask.have + 1,
        range: Range {
            begin: begin as i64,
            end: end as i64,
        },
    })
}

// How many grants of the article the site has.
fn granted_in(grants: &[Grant], planned: &[Grant], ask: Ask) -> u64
    requires order { AreInOrder grants.now }
    requires numbered { AreNumbered grants.now }
    ensures granted { result ≡ granted_to ask.article ask.site.0 (with_grants grants.now planned.now) }
    ensures bound { result + 1 < 2 ^ 64 }
{
    granted(grants, ask.article, ask.site) + granted_of(planned, ask) as u64
}

// The greatest end of the article's ranges.
fn greatest_in(grants: &[Grant], planned: &[Grant], article: u8) -> u64
    requires order { AreInOrder grants.now }
    requires grants { All IsGranted grants.now }
    requires planned { All IsGranted planned.now }
    ensures greatest { result ≡ greatest_end article (with_grants grants.now planned.now) }
    ensures bound { result < 2 ^ 63 }
{
    greatest(grants, article).max(greatest_of(planned, article))
}

// The grant of the article and the site with a number, in either list.
fn numbered_in(grants: &[Grant], planned: &[Grant], ask: Ask, number: u64) -> Option<Grant>
    ensures { result ≡ option_or (find (is_numbered ask.article ask.site.0 number) grants.now) (find (is_numbered ask.article ask.site.0 number) planned.now) }
{
    if let Some(grant) = numbered_of(grants, ask, number) {
        return Some(grant);
    }
    numbered_of(planned, ask, number)
}

// The first grant that the site did not hear of.
fn kept(grants: &[Grant], planned: &[Grant], ask: Ask) -> Answer
    requires numbered { AreNumbered (with_grants grants.now planned.now) }
    requires below { ask.have < granted_to ask.article ask.site.0 (with_grants grants.now planned.now) }
    requires bound { ask.have + 1 < 2 ^ 64 }
    ensures { result ≡ kept_answer (find (is_numbered ask.article ask.site.0 (ask.have + 1)) (with_grants grants.now planned.now)) }
{
    match numbered_in(grants, planned, ask, ask.have + 1) {
        Some(Grant { number, range, .. }) => Ok(GrantAnswer::Kept { number, range }),
        None => unreachable!(),
    }
}

// What an ask is answered over the grants and those that are planned.
pub fn answer(rules: &[Rule], grants: &[Grant], planned: &[Grant], ask: Ask) -> Answer
    requires rule { IsSome (rule_of rules.now ask.article) }
    requires book { IsBook rules.now grants.now }
    requires planned { All IsGranted planned.now }
    requires numbered { AreNumbered (with_grants grants.now planned.now) }
    ensures { result ≡ answer_of rules.now (with_grants grants.now planned.now) ask }
{
    let granted = granted_in(grants, planned, ask);
    match ask.have.cmp(&granted) {
        Ordering::Less => kept(grants, planned, ask),
        Ordering::Greater => Err(IdentityFault::TooMany { granted }),
        Ordering::Equal if !ask.due => Ok(GrantAnswer::NotDue),
        Ordering::Equal => {
            let rule = rule_for(rules, ask.article);
            next_range(&rule, greatest_in(grants, planned, ask.article), ask)
        }
    }
}

// The grant that an answer makes.
pub fn new_grant(planned: &GrantPlan) -> Option<Grant>
    ensures { result ≡ new_grant planned.now.ask planned.now.answer }
{
    match planned.answer {
        Ok(GrantAnswer::Granted { number, range }) => Some(Grant {
            article: planned.ask.article,
            site: planned.ask.site,
            number,
            range,
        }),
        _ => None,
    }
}

// Adds a grant behind, if there is one.
fn add_if_some(grants: &mut Vec<Grant>, grant: Option<Grant>) -> Result<(), NoMemory>
    ensures { OnOk result (grants.new.items ≡ grants.old.items ++ option_to_list grant) }
{
    if let Some(grant) = grant {
        grants.push(grant)?;
    }
    Ok(())
}

// What several asks are answered, each as if those before it were granted, and how many grants
// that makes.
pub fn plans(
    alloc: Global,
    rules: &[Rule],
    grants: &[Grant],
    asks: &[Ask],
) -> Result<(Vec<GrantPlan>, usize), NoMemory>
    requires ruled { All (λ ask. IsSome (rule_of rules.now ask.article)) asks.now }
    requires book { IsBook rules.now grants.now }
    ensures nothing { asks.now ≡ [] → IsOk result }
    ensures plans { IfOk result (λ out. out.0.items ≡ plans_of rules.now grants.now asks.now) }
    ensures count { IfOk result (λ out. out.1 ≡ room_for_all out.0.items) }
    ensures follow { IfOk result (λ out. AllFollow grants.now out.0.items) }
{
    let mut plans = Vec::new(alloc);
    let mut planned = Vec::new(alloc);
    for ask in asks {
        let plan = GrantPlan {
            ask: *ask,
            answer: answer(rules, grants, &planned, *ask),
        };
        add_if_some(&mut planned, new_grant(&plan))?;
        plans.push(plan)?;
    }
    Ok((plans, planned.len()))
}
