//! The order in which the articles of a publication are evaluated.
ghost use Rattle.std.specs.Prelude.{◌≡◌, ◌≤◌, ℕ, List, IfOk, OnOk, count_by, false, length, map, nat_le, position, slice_index_or};
ghost use Rattle.std.specs.List.{range_with_len};
ghost use Rattle.merge_schema.specs.Ancestors.{descendants_within};
ghost use Rattle.merge_schema.specs.EvaluationOrder.{IsEvaluationOrder};
ghost use Rattle.merge_schema.specs.ParentsFirst.{ancestors_of, put_by, ordered_below, evaluation_order};
ghost use Rattle.merge_schema.specs.declared.order.Ranked.{Ranked as OneRanked};
ghost use Rattle.merge_schema.specs.Ranks.{ancestors_in, place_in, ranked_at};

use crate::joins::{descendants, mark};
use crate::publication::{Article, Publication};
use merge_types::{Listing, NoMemory, Octets};
use std::alloc::Global;

/// The place of an article, and how many ancestors it has.
#[derive(Clone, Copy)]
struct Ranked {
    place: u8,
    ancestors: usize,
}

impl Publication {
    /// The places of the articles, by how many ancestors each has. Those of parents stand before
    /// those of their children, unless joins lead round or to no article.
    #[tactic(auto, using(crate::proofs::Ranks::places_ranked, crate::proofs::FoundOrders::order_is_found))]
    pub fn evaluation_order(&self, alloc: Global) -> Result<Octets, NoMemory>
        requires { length self.now.articles ≤ 256 }
        ensures order { IfOk result (λ order. order ≡ evaluation_order self.now) }
        ensures parents_first { IfOk result (λ order. (other : List ℕ) → IsEvaluationOrder self.now other → IsEvaluationOrder self.now order) }
    {
        let order = by_ancestors(alloc, self.articles.as_slice())?;
        places(alloc, order.as_slice())
    }
}

// The descendants of each article.
fn descendants_of_each(alloc: Global, articles: &[Article]) -> Result<Vec<Listing<bool>>, NoMemory>
    ensures { IfOk result (λ marked. marked.items ≡ map (descendants_within (length articles.now) articles.now) (range_with_len 0 (length articles.now))) }
{
    let mut marked = Vec::new(alloc);
    for place in 0..articles.len() {
        marked.push(descendants(alloc, articles, place)?)?;
    }
    Ok(marked)
}

// How many of these lists of descendants have the article at a place.
fn ancestors_among(marked: &[Listing<bool>], place: usize) -> usize
    ensures { result ≡ count_by (λ marks. slice_index_or marks place false) marked.now }
{
    marked
        .iter()
        .filter(|marks| mark(marks.as_slice(), place))
        .count()
}

// The place of the first article that has no fewer ancestors.
fn first_not_below(order: &[Ranked], ancestors: usize) -> Option<usize>
    ensures { result ≡ position (λ (other : OneRanked). nat_le ancestors other.ancestors) order.now }
{
    order.iter().position(|other| ancestors <= other.ancestors)
}

// Puts an article before the first that has no fewer ancestors.
#[tactic(auto, using(crate::proofs::Ranks::place_within))]
fn put(order: &mut Vec<Ranked>, next: Ranked) -> Result<(), NoMemory>
    ensures { OnOk result (order.new.items ≡ put_by ancestors_in next order.old.items) }
{
    let behind = first_not_below(order.as_slice(), next.ancestors);
    order.insert(behind.unwrap_or(order.len()), next)?;
    Ok(())
}

// The articles, by how many ancestors each has.
fn by_ancestors(alloc: Global, articles: &[Article]) -> Result<Vec<Ranked>, NoMemory>
    requires { length articles.now ≤ 256 }
    ensures { IfOk result (λ order. order.items ≡ map (ranked_at articles.now) (ordered_below (ancestors_of articles.now) (length articles.now))) }
{
    let marked = descendants_of_each(alloc, articles)?;
    let mut order = Vec::new(alloc);
    for place in 0..articles.len() {
        let ancestors = ancestors_among(marked.as_slice(), place);
        put(
            &mut order,
            Ranked {
                place: place as u8,
                ancestors,
            },
        )?;
    }
    Ok(order)
}

fn places(alloc: Global, order: &[Ranked]) -> Result<Octets, NoMemory>
    ensures { IfOk result (λ places. places ≡ map place_in order.now) }
{
    let mut places = Octets::empty(alloc);
    for article in order {
        places.push(article.place)?;
    }
    Ok(places)
}
