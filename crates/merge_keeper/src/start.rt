//! What a start makes of a store: what both kinds of site have in common.
ghost use Rattle.std.specs.Prelude.{◌≡◌, ◌↔◌, ◌<◌, All, IsTrue, true, IfOk};
ghost use Rattle.std.specs.List.{list_all};
ghost use Rattle.merge_types.specs.Limits.{number_limit};
ghost use Rattle.merge_ident.specs.Holders.{AreKept, HasValues, IsNextIn};
ghost use Rattle.merge_batch.specs.Lineages.{knows_tops as body_knows_tops};
ghost use Rattle.merge_keeper.specs.Start.{are_kept, cell_site_is_known, conflict_is_sound, conflict_reading, conflict_row, dot_site_is_known, has_values, holds_last, identity_at, is_counter, is_next_in, last_conflict, last_own, number_in, own_count, own_grant, own_grants, pair_reading, row_was_made, same_range, top_sites_are_known, version_is_sound, was_made, with_held, with_value_at};

use crate::ConflictValue;
use merge_batch::{fits_article, is_site, knows_tops, maker_of};
use merge_conflict::{ConflictKind, ConflictRow};
use merge_ident::{Range, Ranges};
use merge_lineage::Lineage;
use merge_ports::{Entries, EntryKey};
use merge_record::{Field, GrantKey, HeldRanges};
use merge_schema::{Identity, Publication};
use merge_types::limits::NUMBER_LIMIT;
use merge_types::{Dot, Listing, NoMemory, Octets, RowKey, SiteId};
use merge_units::{Body, Cell, Version};
use std::alloc::{AllocError, Global};

/// Why a store does not start.
#[derive(Debug, Drop)]
pub enum StartFault {
    /// The first entry whose record has no reading or breaks a rule.
    Damaged(EntryKey),
    NoMemory,
}

impl From<NoMemory> for StartFault {
    ghost use Rattle.std.specs.Prelude.{◌≡◌};
    ghost use Rattle.merge_keeper.specs.declared.start.StartFault.TheVariants.{NoMemory as no_memory};

    ghost from_gives = { λ _ fault. fault ≡ no_memory };

    fn from(_: NoMemory) -> Self {
        StartFault::NoMemory
    }
}

impl From<AllocError> for StartFault {
    ghost use Rattle.std.specs.Prelude.{◌≡◌};
    ghost use Rattle.merge_keeper.specs.declared.start.StartFault.TheVariants.{NoMemory as no_memory};

    ghost from_gives = { λ _ fault. fault ≡ no_memory };

    fn from(_: AllocError) -> Self {
        StartFault::NoMemory
    }
}

/// A key and a value that are read whole.
pub(crate) fn read_pair<K: Field, V: Field>(
    alloc: Global,
    key: &[u8],
    value: &[u8],
) -> Result<Option<(K, V)>, NoMemory>
    ensures { IfOk result (λ pair. pair ≡ pair_reading K.reading V.reading key.now value.now) }
{
    let Some(key) = K::read(alloc, key)? else {
        return Ok(None);
    };
    match V::read(alloc, value)? {
        Some(value) => Ok(Some((key, value))),
        None => Ok(None),
    }
}

// The row of the conflict table with this number.
fn conflict_row(number: u64, value: ConflictValue) -> Option<ConflictRow>
    ensures { result ≡ conflict_row number value }
{
    let ConflictValue { head, losing } = value;
    let kind = ConflictKind::of_number(head.kind)?;
    Some(ConflictRow {
        number,
        article: head.article,
        row: head.row,
        kind,
        losing,
        from: head.from,
        verdict: head.verdict,
        moment: head.moment,
    })
}

/// The row of the conflict table of a record.
pub(crate) fn read_conflict(
    alloc: Global,
    key: &[u8],
    value: &[u8],
) -> Result<Option<ConflictRow>, NoMemory>
    ensures { IfOk result (λ row. row ≡ conflict_reading key.now value.now) }
{
    match read_pair::<u64, ConflictValue>(alloc, key, value)? {
        Some((number, value)) => Ok(conflict_row(number, value)),
        None => Ok(None),
    }
}

// ---- what the rules seek in all entries

// The number in the key of a conflict.
fn conflict_number(alloc: Global, key: &EntryKey) -> Result<Option<u64>, NoMemory>
    ensures { IfOk result (λ number. number ≡ number_in key.now) }
{
    if key.table == 5 {
        return u64::read(alloc, key.key.as_slice());
    }
    Ok(None)
}

/// The number of the last conflict, by the keys alone, and 0 where there is none.
pub(crate) fn last_conflict(alloc: Global, entries: &Entries) -> Result<u64, NoMemory>
    ensures { IfOk result (λ last. last ≡ last_conflict entries.now) }
{
    let mut last = 0;
    for (key, _) in entries.iter() {
        if let Some(number) = conflict_number(alloc, key)? {
            last = number;
        }
    }
    Ok(last)
}

// The range that an entry grants to the publisher itself, with its article.
fn own_grant(alloc: Global, key: &EntryKey, value: &Octets) -> Result<Option<(u8, Range)>, NoMemory>
    ensures { IfOk result (λ own. own ≡ own_grant (key.now, value.now)) }
{
    if key.table != 6 {
        return Ok(None);
    }
    match read_pair::<GrantKey, Range>(alloc, key.key.as_slice(), value.as_slice())? {
        Some((grant, range)) if grant.site.0 == 0 => Ok(Some((grant.article, range))),
        _ => Ok(None),
    }
}

/// The publisher's own ranges, by article and number.
pub(crate) fn own_grants(alloc: Global, entries: &Entries) -> Result<Vec<(u8, Range)>, NoMemory>
    ensures { IfOk result (λ owns. owns.items ≡ own_grants entries.now) }
{
    let mut owns = Vec::new(alloc);
    for (key, value) in entries.iter() {
        if let Some(own) = own_grant(alloc, key, value)? {
            owns.push(own)?;
        }
    }
    Ok(owns)
}

/// How many of the publisher's own ranges are of an article.
pub(crate) fn own_count(article: u8, owns: &[(u8, Range)]) -> u64
    ensures { result ≡ own_count article owns.now }
{
    owns.iter().filter(|own| own.0 == article).count() as u64
}

/// The last of the publisher's own ranges of an article.
pub(crate) fn last_own(article: u8, owns: &[(u8, Range)]) -> Option<Range>
    ensures { result ≡ last_own article owns.now }
{
    let mut last = None;
    for own in owns {
        if own.0 == article {
            last = Some(own.1);
        }
    }
    last
}

// ---- rules on versions

fn sites_are_known(publication: &Publication, dots: &[Dot]) -> bool
    ensures { result ≡ list_all (dot_site_is_known publication.now) dots.now }
{
    dots.iter().all(|dot| is_site(publication, dot.site))
}

fn cell_sites_are_known(publication: &Publication, cells: &[Cell]) -> bool
    ensures { result ≡ list_all (cell_site_is_known publication.now) cells.now }
{
    cells.iter().all(|cell| is_site(publication, cell.top.site))
}

fn top_sites_are_known(publication: &Publication, body: &Body) -> bool
    ensures { result ≡ top_sites_are_known publication.now body.now }
{
    match body {
        Body::Live(cells) => cell_sites_are_known(publication, cells.as_slice()),
        Body::Dead(top) => is_site(publication, top.site),
    }
}

fn body_tops_are_known(lineage: &Lineage, body: &Body) -> bool
    ensures { result ≡ body_knows_tops lineage.now body.now }
{
    match body {
        Body::Live(cells) => knows_tops(lineage, cells.as_slice()),
        Body::Dead(top) => lineage.knows(*top),
    }
}

/// Whether the article, the sites, the cells and the types of values fit the publication, and the
/// lineage knows the tops.
#[tactic(auto, unfolding(crate::specs::Start::version_is_sound))]
pub(crate) fn version_is_sound(publication: &Publication, article: u8, version: &Version) -> bool
    ensures { result ≡ version_is_sound publication.now article version.now }
{
    fits_article(publication, article, &version.body)
        && sites_are_known(publication, version.lineage.dots())
        && top_sites_are_known(publication, &version.body)
        && body_tops_are_known(&version.lineage, &version.body)
}

// Whether a change is none that this site has yet to make.
fn was_made(site: SiteId, changes: u64, dot: Dot) -> bool
    ensures { result ≡ was_made site.0 changes dot }
{
    dot.site.0 != site.0 || dot.number <= changes
}

/// Whether neither the lineage of a row nor its maker is a change that this site has yet to make.
#[tactic(auto, unfolding(crate::specs::Start::row_was_made))]
pub(crate) fn row_was_made(site: SiteId, changes: u64, key: RowKey, version: &Version) -> bool
    requires { changes < number_limit }
    ensures { result ≡ row_was_made site.0 changes key version.now }
{
    let next = Dot {
        site,
        number: changes + 1,
    };
    if version.lineage.knows(next) {
        return false;
    }
    match maker_of(key.row) {
        None => true,
        Some(dot) => was_made(site, changes, dot),
    }
}

/// Whether a number is one that a counter may have.
pub(crate) fn is_counter(number: u64) -> bool
    ensures { result ≡ is_counter number }
{
    number < NUMBER_LIMIT
}

/// Whether a row of the conflict table keeps the rules behind so many before it.
#[tactic(auto, unfolding(crate::specs::Start::conflict_is_sound))]
pub(crate) fn conflict_is_sound(
    publication: &Publication,
    before: u64,
    counter: u64,
    row: &ConflictRow,
) -> bool
    ensures { result ≡ conflict_is_sound publication.now before counter row.now }
{
    row.number != 0
        && row.number - 1 == before
        && row.number <= counter
        && is_site(publication, row.from)
        && version_is_sound(publication, row.article, &row.losing)
}

// ---- rules on ranges

/// The identity column of an article, where it has one.
pub(crate) fn identity_at(publication: &Publication, article: u8) -> Option<Identity>
    ensures { result ≡ identity_at publication.now article }
{
    match publication.article_at(article) {
        Some(article) => article.identity,
        None => None,
    }
}

fn have_values(ranges: &[Range]) -> bool
    ensures test { result ≡ list_all has_values ranges.now }
    ensures values { IsTrue result ↔ All HasValues ranges.now }
{
    ranges.iter().all(|range| range.begin <= range.end)
}

fn is_next_in(ranges: &[Range], next: i64) -> bool
    ensures test { result ≡ is_next_in ranges.now next }
    ensures is_next { IsTrue result ↔ IsNextIn ranges.now next }
{
    match ranges {
        [] => next == 0,
        [first, ..] => first.begin <= next && next <= first.end,
    }
}

/// Whether there are two ranges at most, each has a value, and the next value lies in the first,
/// or is 0 where none is held.
#[tactic(auto, unfolding(crate::specs::Start::are_kept))]
pub(crate) fn are_kept(ranges: &[Range], next: i64) -> bool
    ensures test { result ≡ are_kept ranges.now next }
    ensures kept { result ≡ true → AreKept ranges.now next }
{
    ranges.len() <= 2 && have_values(ranges) && is_next_in(ranges, next)
}

fn same_range(a: Range, b: Range) -> bool
    ensures { result ≡ same_range a b }
{
    a.begin == b.begin && a.end == b.end
}

/// Whether no range is held, or this one alone.
pub(crate) fn holds_last(last: Option<Range>, held: &[Range]) -> bool
    ensures { result ≡ holds_last last held.now }
{
    match held {
        [] => true,
        [range] => match last {
            Some(last) => same_range(*range, last),
            None => false,
        },
        _ => false,
    }
}

/// The ranges that are held of all articles, with these ones of one of them.
pub(crate) fn replaced(
    alloc: Global,
    held: &[(u8, Ranges)],
    article: u8,
    ranges: Ranges,
) -> Result<Vec<(u8, Ranges)>, NoMemory>
    ensures { IfOk result (λ all. all.items ≡ with_value_at held.now article ranges) }
{
    let mut all = Vec::new(alloc);
    for place in held {
        all.push(if place.0 == article {
            (article, ranges)
        } else {
            *place
        })?;
    }
    Ok(all)
}

/// The ranges that are held of all articles, with those of a record.
pub(crate) fn with_held(
    alloc: Global,
    publication: &Publication,
    all: &[(u8, Ranges)],
    article: u8,
    held: &HeldRanges,
) -> Result<Listing<(u8, Ranges)>, NoMemory>
    requires { AreKept held.now.ranges held.now.next }
    ensures { IfOk result (λ new. new ≡ with_held publication.now all.now article held.now) }
{
    let Some(identity) = identity_at(publication, article) else {
        return Ok(Listing::new(all.to_vec(alloc)?));
    };
    let ranges = held.ranges.as_slice();
    let ranges = Ranges::restore(
        identity.threshold,
        held.have,
        held.last_end,
        ranges,
        held.next,
    );
    Ok(Listing::new(replaced(alloc, all, article, ranges)?))
}
