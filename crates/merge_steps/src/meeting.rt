//! An item of an upload meets the version that the publisher holds.
ghost use Rattle.std.specs.Prelude.{◌≡◌, ◌≤◌, ◌<◌, ◌+◌, ◌^◌, ℕ, true, false, [], if◌then◌else◌, None, Some, IfOk, OnOk, length, map};
ghost use Rattle.std.specs.Option.{option_to_list};
ghost use Rattle.merge_types.specs.Limits.{number_limit};
ghost use Rattle.merge_units.specs.Cases.{case_of, is_conflict};
ghost use Rattle.merge_units.specs.Results.{result_by};
ghost use Rattle.merge_units.specs.Version.{HaveEqualCounts};
ghost use Rattle.merge_conflict.specs.Losers.{losing_rows};
ghost use Rattle.merge_resolve.specs.Asked.{says_at, tallies_after_question};
ghost use Rattle.merge_schema.specs.Valid.{IsValid};
ghost use Rattle.merge_batch.specs.Articles.{fits_article};
ghost use Rattle.merge_batch.specs.LocalChanges.{tracking_at};
ghost use Rattle.merge_model.specs.Publisher.Acts.{decided_changes, key_of_item};
ghost use Rattle.merge_steps.specs.Fits.{ItemFits, MayDecide};
ghost use Rattle.merge_steps.specs.Keeps.{FitsHere};
ghost use Rattle.merge_steps.specs.Uploading.{AskedSome, Grows, KeepsFits, after_act, decision_on, met_act, pass_at, question_met, row_with, tallies_on, with_act};

use crate::acting::{Acting, Arrival, key_of_item};
use merge_batch::UploadItem;
use merge_change::tracking;
use merge_conflict::{Conflict, ConflictRows, losing_rows};
use merge_resolve::{
    Handed, Meeting, Question, ask_at, counted_decision, incoming_priority, publisher_priority,
};
use merge_schema::Publication;
use merge_types::{Dot, NoMemory, SiteId};
use merge_units::{Case, Decision, Version, classify};
use std::alloc::Global;

// Whether the case asks for a decision.
fn is_conflict(case: &Case) -> bool
    ensures { result ≡ is_conflict case.now }
{
    match case {
        Case::Conflict(_) | Case::LifeConflict => true,
        Case::Nothing | Case::Take | Case::Unite | Case::Merge(_) => false,
    }
}

// No resolver stands at the question's place: none is asked, and the publisher's version stays.
fn unasked(resolvers: &Vec<Handed>, question: &Question) -> Decision
    requires { length resolvers.now.items ≤ question.now.place }
    ensures decision { result ≡ decision_on (says_at (λ r. says r) resolvers.now.items) (map (λ r. tally_of r) resolvers.now.items) (Some question.now) }
    ensures tallies { map (λ r. tally_of r) resolvers.now.items ≡ tallies_after_question (map (λ r. tally_of r) resolvers.now.items) question.now.place }
{
    let _ = resolvers.len();
    let _ = question.place;
    Decision::KeepPublisher
}

// What the decision on a question counts as. Where no resolver stands at its place, none is asked,
// and the publisher's version stays.
fn answer(
    alloc: Global,
    resolvers: &mut Vec<Handed>,
    question: &Question,
) -> Result<Decision, NoMemory>
    ensures decision { IfOk result (λ decision. decision ≡ decision_on (says_at (λ r. says r) resolvers.old.items) (map (λ r. tally_of r) resolvers.old.items) (Some question.now)) }
    ensures tallies { map (λ r. tally_of r) resolvers.new.items ≡ tallies_after_question (map (λ r. tally_of r) resolvers.old.items) question.now.place }
    ensures steady { (k n : ℕ) (asked : _) → says_at (λ r. says r) resolvers.new.items k n asked ≡ says_at (λ r. says r) resolvers.old.items k n asked }
{
    let place = question.place as usize;
    if place >= resolvers.len() {
        return Ok(unasked(resolvers, question));
    }
    let decision = ask_at(alloc, resolvers, place, &question.case)?;
    let counted = counted_decision(
        alloc,
        question.types.as_slice(),
        question.identity,
        question.sides.as_slice(),
        &question.case,
        decision,
    )?;
    Ok(counted)
}

// The question on two versions in conflict.
fn question_on(
    alloc: Global,
    publication: &Publication,
    arrival: Arrival,
    held: &Version,
    item: &UploadItem,
    case: &Case,
) -> Result<Question, NoMemory>
    requires valid { (count : ℕ) × IsValid count publication.now }
    requires held { fits_article publication.now item.now.article held.now.body ≡ true }
    requires item { fits_article publication.now item.now.article item.now.version.body ≡ true }
    requires case { case.now ≡ case_of held.now item.now.version }
    requires conflict { is_conflict case.now ≡ true }
    ensures { IfOk result (λ question. Some question ≡ question_met publication.now arrival item.now held.now) }
{
    let meeting = Meeting {
        article: item.article,
        row: item.row,
        site: arrival.site,
        publisher_priority: publisher_priority(publication, held, &item.version),
        incoming_priority: incoming_priority(publication, arrival.site),
        moment: arrival.moment,
    };
    match publication.article_at(item.article) {
        Some(article) => meeting.question(alloc, article, held, &item.version, case),
        None => unreachable!(),
    }
}

// The decision on a case. Where nothing conflicts, the publisher's version stays.
fn decide(
    alloc: Global,
    publication: &Publication,
    arrival: Arrival,
    resolvers: &mut Vec<Handed>,
    held: &Version,
    item: &UploadItem,
    case: &Case,
) -> Result<Decision, NoMemory>
    requires valid { (count : ℕ) × IsValid count publication.now }
    requires held { fits_article publication.now item.now.article held.now.body ≡ true }
    requires item { fits_article publication.now item.now.article item.now.version.body ≡ true }
    requires case { case.now ≡ case_of held.now item.now.version }
    ensures decision { IfOk result (λ decision. decision ≡ decision_on (says_at (λ r. says r) resolvers.old.items) (map (λ r. tally_of r) resolvers.old.items) (question_met publication.now arrival item.now held.now)) }
    ensures tallies { OnOk result (map (λ r. tally_of r) resolvers.new.items ≡ tallies_on (map (λ r. tally_of r) resolvers.old.items) (question_met publication.now arrival item.now held.now)) }
    ensures fits { IfOk result (λ decision. MayDecide publication.now item.now.article held.now item.now.version decision) }
    ensures asked { AskedSome (map (λ r. tally_of r) resolvers.old.items) (map (λ r. tally_of r) resolvers.new.items) (option_to_list (question_met publication.now arrival item.now held.now)) }
    ensures steady { (k n : ℕ) (asked : _) → says_at (λ r. says r) resolvers.new.items k n asked ≡ says_at (λ r. says r) resolvers.old.items k n asked }
{
    if is_conflict(case) {
        let question = question_on(alloc, publication, arrival, held, item, case)?;
        let decision = answer(alloc, resolvers, &question)?;
        return Ok(decision);
    }
    Ok(Decision::KeepPublisher)
}

// What loses by a decision.
fn losing(
    alloc: Global,
    conflict: &Conflict,
    held: &Version,
    incoming: &Version,
    case: &Case,
    decision: &Decision,
) -> Result<ConflictRows, NoMemory>
    requires { conflict.now.number + 1 < 2 ^ 64 }
    ensures lost { IfOk result (λ rows. rows ≡ (if is_conflict case.now then losing_rows conflict.now held.now incoming.now decision.now else [])) }
    ensures few { IfOk result (λ rows. length rows ≤ 2) }
{
    if !is_conflict(case) {
        return Ok(ConflictRows::empty(alloc));
    }
    let rows = losing_rows(alloc, conflict, held, incoming, decision)?;
    Ok(rows)
}

// What is kept of a decision: that on a conflict, and nothing where none was asked for.
fn kept(case: &Case, decision: Decision) -> Option<Decision>
    ensures { result ≡ (if is_conflict case.now then Some decision else None) }
{
    if is_conflict(case) {
        Some(decision)
    } else {
        None
    }
}

// How many changes of the publisher a decision makes.
fn decided_changes(decision: &Decision) -> u64
    ensures changes { result ≡ decided_changes decision.now }
    ensures one { result ≤ 1 }
{
    match decision {
        Decision::Custom(_) => 1,
        Decision::KeepPublisher | Decision::TakeSubscriber => 0,
    }
}

// The row becomes what the decision makes of the two versions.
fn take_met(
    alloc: Global,
    publication: &Publication,
    arrival: Arrival,
    held: &Version,
    item: &UploadItem,
    case: &Case,
    decision: Decision,
    acting: &mut Acting,
) -> Result<(), NoMemory>
    requires held { FitsHere publication.now acting.old.changes (key_of_item item.now, held.now) }
    requires item { ItemFits publication.now acting.old.changes item.now }
    requires case { case.now ≡ case_of held.now item.now.version }
    requires counts { HaveEqualCounts held.now.body item.now.version.body }
    requires decision { MayDecide publication.now item.now.article held.now item.now.version decision }
    requires changes { acting.old.changes < number_limit }
    requires conflicts { acting.old.conflict_count < number_limit }
    ensures passed { OnOk result (acting.new ≡ with_act publication.now arrival (met_act (acting.old.changes + 1) item.now held.now case.now decision) acting.old) }
    ensures grows { OnOk result (Grows acting.old acting.new) }
    ensures fits { OnOk result (KeepsFits publication.now acting.old acting.new) }
{
    let _ = held.lineage.dots();
    let _ = item.version.lineage.dots();
    let dot = Dot {
        site: SiteId(0),
        number: acting.changes + 1,
    };
    let conflict = Conflict {
        number: acting.conflict_count + 1,
        article: item.article,
        row: item.row,
        tracking: tracking(publication, item.article),
        site: arrival.site,
        moment: arrival.moment,
    };
    let key = key_of_item(item);
    let made = decided_changes(&decision);
    let version = case.apply(alloc, held, &item.version, &decision, dot)?;
    let lost = losing(alloc, &conflict, held, &item.version, case, &decision)?;
    let decided = kept(case, decision);
    acting.add(key, Some((key, version)), lost, decided, made)?;
    Ok(())
}

/// The item meets the version that is held of its row.
pub fn meet(
    alloc: Global,
    publication: &Publication,
    arrival: Arrival,
    resolvers: &mut Vec<Handed>,
    held: &Version,
    item: &UploadItem,
    acting: &mut Acting,
) -> Result<(), NoMemory>
    requires valid { (count : ℕ) × IsValid count publication.now }
    requires held { FitsHere publication.now acting.old.changes (key_of_item item.now, held.now) }
    requires item { ItemFits publication.now acting.old.changes item.now }
    requires changes { acting.old.changes < number_limit }
    requires conflicts { acting.old.conflict_count < number_limit }
    ensures passed { OnOk result (pass_at acting.new (map (λ r. tally_of r) resolvers.new.items)
        ≡ after_act publication.now arrival (says_at (λ r. says r) resolvers.old.items) (pass_at acting.old (map (λ r. tally_of r) resolvers.old.items)) item.now (Some (row_with held.now))) }
    ensures grows { OnOk result (Grows acting.old acting.new) }
    ensures fits { OnOk result (KeepsFits publication.now acting.old acting.new) }
    ensures asked { AskedSome (map (λ r. tally_of r) resolvers.old.items) (map (λ r. tally_of r) resolvers.new.items) (option_to_list (question_met publication.now arrival item.now held.now)) }
    ensures steady { (k n : ℕ) (asked : _) → says_at (λ r. says r) resolvers.new.items k n asked ≡ says_at (λ r. says r) resolvers.old.items k n asked }
{
    let case = classify(alloc, held, &item.version)?;
    let decision = decide(alloc, publication, arrival, resolvers, held, item, &case)?;
    take_met(
        alloc,
        publication,
        arrival,
        held,
        item,
        &case,
        decision,
        acting,
    )?;
    Ok(())
}
