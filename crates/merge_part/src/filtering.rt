//! Which subscribers' row filters a row passes.
ghost use Rattle.std.specs.Prelude.{◌≡◌, ◌≤◌, ◌<◌, ◌+◌, ◌*◌, ℕ, nat_lt, ◌==◌, ◌&&◌, ◌||◌, length};
ghost use Rattle.merge_filter.specs.Eval.{width};
ghost use Rattle.merge_schema.specs.Partition.{is_true};
ghost use Rattle.merge_part.specs.Filtering.{passes_at, is_filtered, FitsFilter};
ghost use Rattle.merge_part.specs.Sites.{has_site};

use crate::sites::Sites;
use merge_filter::{Filter, Truth, eval};
use merge_schema::{Article, Subscription};
use merge_types::{Steps, Value};
use std::sync::ledger::Ledger;

// All subscribers at places below the count.
fn all_sites(count: usize) -> Sites
    requires { count < 64 }
    ensures { (place : ℕ) → has_site result place ≡ nat_lt place count }
{
    let mut sites = Sites::none();
    for place in 0..count {
        sites = sites.with(place);
    }
    sites
}

// The subscribers of whose hosts the filter is true.
fn passing<L: Ledger>(
    filter: &Filter,
    subscriptions: &[Subscription],
    values: &[Value],
    steps: &mut Steps<L>,
) -> Sites
    requires few { length subscriptions.now < 64 }
    requires fits { width filter.now ≤ length values.now }
    ensures sites { (place : ℕ) → has_site result place ≡ passes_at filter.now subscriptions.now values.now place }
    ensures cost { steps.new ≡ steps.old + length subscriptions.now }
{
    let mut sites = Sites::none();
    for (place, subscription) in subscriptions.iter().enumerate() {
        let truth = eval(filter, values, &subscription.host, steps);
        sites = with_if_true(sites, place, truth);
    }
    sites
}

// The sites, with the one at the place where this is true.
fn with_if_true(sites: Sites, place: usize, truth: Truth) -> Sites
    requires { place < 64 }
    ensures { (other : ℕ) → has_site result other ≡ ((other == place && is_true truth) || has_site sites other) }
{
    match truth {
        Truth::True => sites.with(place),
        Truth::False | Truth::Unknown => sites,
    }
}

/// The subscribers whose partitions have the row by its filter, or since its article has neither a
/// filter nor joins.
pub fn filtered<L: Ledger>(
    article: &Article,
    subscriptions: &[Subscription],
    values: &[Value],
    steps: &mut Steps<L>,
) -> Sites
    requires few { length subscriptions.now < 64 }
    requires fits { FitsFilter article.now values.now }
    ensures sites { (place : ℕ) → has_site result place ≡ is_filtered article.now subscriptions.now values.now place }
    ensures cost { steps.new ≤ steps.old + length subscriptions.now }
{
    match &article.filter {
        Some(filter) => passing(filter, subscriptions, values, steps),
        None if article.joins.len() == 0 => all_sites(subscriptions.len()),
        None => Sites::none(),
    }
}
