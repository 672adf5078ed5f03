//! Reads of the grants of a book, which are in order.
ghost use Rattle.std.specs.Prelude.{◌≡◌, ◌≤◌, ◌<◌, ◌^◌, ◌&&◌, true, false, nat_le, length, insert, All};
ghost use Rattle.std.specs.List.Sorted.{IsPartitionPoint};
ghost use Rattle.merge_ident.specs.declared.grants.Grant.{Grant};
ghost use Rattle.merge_ident.specs.Grants.{natural, granted_to, greatest_end, is_granted, is_in, is_of, with_grant, AreInOrder, AreNumbered, IsGranted};
ghost use Rattle.merge_ident.specs.Lasts.{last_where, is_of_article, is_to, starts_by};

use crate::Grant;
use merge_types::SiteId;

// Where a new grant of the article goes: behind all of articles up to it.
pub fn place(grants: &[Grant], article: u8) -> usize
    requires { AreInOrder grants.now }
    ensures bound { result ≤ length grants.now }
    ensures point { IsPartitionPoint (λ y. nat_le y.article article ≡ true) (λ y. nat_le y.article article ≡ false) grants.now result }
    ensures place { (new : Grant) → new.article ≡ article → insert grants.now result new ≡ with_grant grants.now new }
{
    grants.partition_point(|grant| grant.article <= article)
}

// The last grant of the article.
fn last_of(grants: &[Grant], article: u8) -> Option<Grant>
    requires { AreInOrder grants.now }
    ensures { result ≡ last_where (is_of_article article) grants.now }
{
    let behind = place(grants, article);
    if behind == 0 {
        return None;
    }
    let last = grants[behind - 1];
    if last.article != article {
        return None;
    }
    Some(last)
}

// The last grant of the article to the site. The grants behind it are walked over, which are as
// many as other sites got since.
fn last_to(grants: &[Grant], article: u8, site: SiteId) -> Option<Grant>
    requires { AreInOrder grants.now }
    ensures { result ≡ last_where (is_to article site.0) grants.now }
{
    let mut behind = place(grants, article);
    while behind > 0 && grants[behind - 1].article == article {
        behind -= 1;
        if grants[behind].site.0 == site.0 {
            return Some(grants[behind]);
        }
    }
    None
}

// The greatest end of the article's ranges, which is that of its last grant.
pub fn greatest(grants: &[Grant], article: u8) -> u64
    requires order { AreInOrder grants.now }
    requires granted { All IsGranted grants.now }
    ensures greatest { result ≡ greatest_end article grants.now }
    ensures bound { result < 2 ^ 63 }
{
    match last_of(grants, article) {
        Some(grant) => end_of(grant),
        None => 0,
    }
}

// The end of a granted range.
fn end_of(grant: Grant) -> u64
    requires { IsGranted grant }
    ensures end { result ≡ natural grant.range.end }
    ensures bound { result < 2 ^ 63 }
{
    grant.range.end as u64
}

// How many grants of the article the site has, which is the number of its last one.
pub fn granted(grants: &[Grant], article: u8, site: SiteId) -> u64
    requires order { AreInOrder grants.now }
    requires numbered { AreNumbered grants.now }
    ensures granted { result ≡ granted_to article site.0 grants.now }
    ensures bound { result ≤ length grants.now }
{
    match last_to(grants, article, site) {
        Some(grant) => grant.number,
        None => 0,
    }
}

// Whether a value of the article was granted to the site: it can only lie in the last range that
// begins no later.
pub fn has_granted(grants: &[Grant], article: u8, site: SiteId, value: i64) -> bool
    requires order { AreInOrder grants.now }
    requires granted { All IsGranted grants.now }
    ensures { result ≡ is_granted article site.0 value grants.now }
{
    let behind = behind_value(grants, article, value);
    if behind == 0 {
        return false;
    }
    gives_to(grants[behind - 1], article, site, value)
}

// Whether the grant gives a value of the article to the site.
fn gives_to(grant: Grant, article: u8, site: SiteId, value: i64) -> bool
    ensures { result ≡ (is_of article site.0 grant && is_in value grant.range) }
{
    grant.article == article
        && grant.site.0 == site.0
        && grant.range.begin <= value
        && value <= grant.range.end
}

// Behind the grants of earlier articles, and those of the article that begin no later than a value.
fn behind_value(grants: &[Grant], article: u8, value: i64) -> usize
    requires order { AreInOrder grants.now }
    requires granted { All IsGranted grants.now }
    ensures bound { result ≤ length grants.now }
    ensures point { IsPartitionPoint (λ y. starts_by article value y ≡ true) (λ y. starts_by article value y ≡ false) grants.now result }
{
    grants.partition_point(|grant| starts_by(grant, article, value))
}

// Whether the grant is of an earlier article, or of this one and begins no later than at the value.
fn starts_by(grant: &Grant, article: u8, value: i64) -> bool
    ensures { result ≡ starts_by article value grant.now }
{
    grant.article < article || grant.article == article && grant.range.begin <= value
}
