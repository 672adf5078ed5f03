//! The identity value of a new row.
ghost use Rattle.std.specs.Prelude.{◌≡◌, ◌∷◌, ◌≤◌, ℕ, List, [], Some, IfOk, IsOk, IsSome, false, length, true};
ghost use Rattle.std.specs.BTreeMap.{is_at};
ghost use Rattle.std.specs.Map.{lookup};
ghost use Rattle.std.specs.Ordering.{nat_cmp};
ghost use Rattle.merge_types.specs.declared.values.Value.TheVariants.{Null};
ghost use Rattle.merge_table.specs.declared.edit.Edit.TheVariants.{Put as put};
ghost use Rattle.merge_batch.specs.LocalChanges.{is_insert};
ghost use Rattle.merge_ident.specs.Answers.{grants_with_all, rule_of};
ghost use Rattle.merge_ident.specs.Books.{IsReady};
ghost use Rattle.merge_ident.specs.Grants.{granted_to};
ghost use Rattle.merge_ident.specs.Holders.{Holder, after_take};
ghost use Rattle.merge_ident.specs.declared.grants.Grant.{Grant as OneGrant};
ghost use Rattle.merge_change.specs.Allowed.{HasIdentity};
ghost use Rattle.merge_model.specs.Tables.Publications.{rules_of};
ghost use Rattle.merge_steps.specs.Drawing.{Draws, Gives, KeepsHeld, Takes, TakesGranted, TakesNext, granted_range, is_whole};
ghost use Rattle.merge_steps.specs.Keeps.{AreHeard, HaveColumns};

use merge_batch::Refusal;
use merge_ident::{Ask, GrantAnswer, GrantPlan, GrantPlans, Range, RangeBook, Ranges};
use merge_schema::Publication;
use merge_table::{Edit, Table};
use merge_types::{Change, Listing, SiteId, Value};
use std::alloc::Global;

/// An identity value, with what is left of the ranges and the grant that was made for it.
#[derive(Drop)]
pub struct Draw {
    pub value: Value,
    pub held: Listing<Edit<u8, Ranges>>,
    pub grants: GrantPlans,
}

// No value is drawn.
fn no_draw(alloc: Global) -> Draw
    ensures { result ≡ record { value = Null; held = []; grants = [] } }
{
    Draw {
        value: Value::Null,
        held: Listing::empty(alloc),
        grants: Listing::empty(alloc),
    }
}

// The next value of an article's ranges, with what was granted for it.
fn take_from(
    alloc: Global,
    article: u8,
    ranges: Ranges,
    grants: GrantPlans,
) -> Result<Draw, Refusal>
    ensures drawn { (before : List OneGrant) (held : List (ℕ × Holder)) → Gives (Takes (grants_with_all before grants) held article ranges) before held result }
    ensures value { IfOk result (λ d. is_whole d.value ≡ true) }
    ensures held { IfOk result (λ d. d.held ≡ put article (after_take ranges) ∷ []) }
    ensures grants { IfOk result (λ d. d.grants ≡ grants) }
{
    let mut ranges = ranges;
    let value = match ranges.take() {
        Ok(value) => value,
        Err(used_up) => return Err(Refusal::IdentityUsedUp { end: used_up.end }),
    };
    let mut held = Listing::empty(alloc);
    held.push(Edit::Put(article, ranges))?;
    Ok(Draw {
        value: Value::Int(value),
        held,
        grants,
    })
}

// The next value of an article's ranges, where none is left of them: the publisher grants itself
// one, if there is one.
fn take_granted(
    alloc: Global,
    book: &mut RangeBook,
    article: u8,
    ranges: Ranges,
) -> Result<Draw, Refusal>
    requires rule { IsSome (rule_of book.old.rules article) }
    requires heard { ranges.have ≡ granted_to article 0 book.old.grants }
    ensures drawn { (held : List (ℕ × Holder)) → Gives (TakesGranted book.old.rules book.old.grants held article ranges) book.old.grants held result }
    ensures value { IfOk result (λ d. is_whole d.value ≡ true) }
    ensures ready { IfOk result (λ d. IsReady book.new d.grants) }
    ensures one { IfOk result (λ d. length d.held ≤ 1) }
    ensures heard { (held : List (ℕ × Holder)) → AreHeard book.old.grants held → lookup (is_at (nat_cmp article)) held ≡ Some ranges → IfOk result (λ d. KeepsHeld book.old.grants held d) }
    ensures same { book.new.grants ≡ book.old.grants }
    ensures rules { book.new.rules ≡ book.old.rules }
{
    let site = SiteId(0);
    let have = book.granted(article, site);
    let plan = book.prepare(Ask {
        site,
        article,
        have,
        due: true,
    })?;
    match granted_range(&plan) {
        Some((number, range)) => {
            let mut ranges = ranges;
            ranges.receive(number, range);
            let mut plans = Listing::empty(alloc);
            plans.push(plan)?;
            take_from(alloc, article, ranges, plans)
        }
        None => take_from(alloc, article, ranges, Listing::empty(alloc)),
    }
}

// The range that a plan grants.
fn granted_range(plan: &GrantPlan) -> Option<(u64, Range)>
    ensures { result ≡ granted_range plan.now.answer }
{
    match plan.answer {
        Ok(GrantAnswer::Granted { number, range }) => Some((number, range)),
        _ => None,
    }
}

// The next value of an article's ranges.
fn take_next(
    alloc: Global,
    book: &mut RangeBook,
    article: u8,
    ranges: Ranges,
) -> Result<Draw, Refusal>
    requires rule { IsSome (rule_of book.old.rules article) }
    requires heard { ranges.have ≡ granted_to article 0 book.old.grants }
    ensures drawn { (held : List (ℕ × Holder)) → Gives (TakesNext book.old.rules book.old.grants held article ranges) book.old.grants held result }
    ensures value { IfOk result (λ d. is_whole d.value ≡ true) }
    ensures ready { IfOk result (λ d. IsReady book.new d.grants) }
    ensures one { IfOk result (λ d. length d.held ≤ 1) }
    ensures heard { (held : List (ℕ × Holder)) → AreHeard book.old.grants held → lookup (is_at (nat_cmp article)) held ≡ Some ranges → IfOk result (λ d. KeepsHeld book.old.grants held d) }
    ensures same { book.new.grants ≡ book.old.grants }
    ensures rules { book.new.rules ≡ book.old.rules }
{
    match ranges.next() {
        Ok(_) => take_from(alloc, article, ranges, Listing::empty(alloc)),
        Err(_) => take_granted(alloc, book, article, ranges),
    }
}

/// The identity value of the row that the change makes, where its article has an identity column.
/// The memory for a grant is taken. The ranges of no other article change. Where no value is left,
/// that is the refusal, whatever memory there is.
pub fn draw_value(
    alloc: Global,
    publication: &Publication,
    book: &mut RangeBook,
    held: &Table<u8, Ranges>,
    change: &Change,
) -> Result<Draw, Refusal>
    requires rules { book.old.rules ≡ rules_of publication.now }
    requires columns { HaveColumns publication.now held.now.rows }
    requires heard { AreHeard book.old.grants held.now.rows }
    ensures drawn { Gives (Draws publication.now change.now book.old.grants held.now.rows) book.old.grants held.now.rows result }
    ensures value { IfOk result (λ d. HasIdentity publication.now change.now d.value) }
    ensures ready { IfOk result (λ d. IsReady book.new d.grants) }
    ensures keeps { IfOk result (λ d. KeepsHeld book.old.grants held.now.rows d) }
    ensures one { IfOk result (λ d. length d.held ≤ 1) }
    ensures same { book.new.grants ≡ book.old.grants }
    ensures rules { book.new.rules ≡ book.old.rules }

    // What takes no memory is not refused.
    ensures nothing { is_insert change.now ≡ false → IsOk result }
{
    match change {
        Change::Insert { article, .. } => match held.get(article) {
            Some(ranges) => take_next(alloc, book, *article, *ranges),
            None => Ok(no_draw(alloc)),
        },
        Change::Update { .. } => Ok(no_draw(alloc)),
        Change::Delete { .. } => Ok(no_draw(alloc)),
    }
}
