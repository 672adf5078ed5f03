//! The ranges that a step grants.
ghost use Rattle.std.specs.Prelude.{◌≡◌, IfOk};
ghost use Rattle.std.specs.List.{AllByRecursion};
ghost use Rattle.merge_ident.specs.Answers.{new_grant};
ghost use Rattle.merge_keeper.specs.Stored.{HasGrantKey};
ghost use Rattle.merge_site.specs.Grants.{granted_by};

use merge_ident::{Grant, GrantAnswer, GrantPlan, Grants};
use merge_types::{Listing, NoMemory};
use std::alloc::Global;

// The grant that a plan makes.
fn new_grant(plan: &GrantPlan) -> Option<Grant>
    ensures { result ≡ new_grant plan.now.ask plan.now.answer }
{
    match plan.answer {
        Ok(GrantAnswer::Granted { number, range }) => Some(Grant {
            article: plan.ask.article,
            site: plan.ask.site,
            number,
            range,
        }),
        _ => None,
    }
}

/// The grants that plans make, in their order.
pub(crate) fn granted_by(alloc: Global, plans: &[GrantPlan]) -> Result<Grants, NoMemory>
    ensures { IfOk result (λ grants. grants ≡ granted_by plans.now) }
{
    let mut grants = Listing::empty(alloc);
    for plan in plans {
        if let Some(grant) = new_grant(plan) {
            grants.push(grant)?;
        }
    }
    Ok(grants)
}

// That the key of a grant fits its fields.
fn fits_grant(grant: &Grant)
    ensures { HasGrantKey grant.now }
{
    let _article = grant.article;
    let _site = grant.site.0;
    let _number = grant.number;
}

/// That the keys of grants fit their fields. It is a fact for proofs, and does nothing.
pub(crate) fn fit_grants(grants: &[Grant])
    ensures { AllByRecursion HasGrantKey grants.now }
{
    for grant in grants {
        fits_grant(grant);
    }
}
