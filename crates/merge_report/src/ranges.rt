//! Ranges: those that the publisher granted, and those that a subscriber holds.
ghost use Rattle.std.specs.Prelude.{◌≡◌, ◌≤◌, ◌++◌, OnOk, length, option_map, slice_get, string_bytes, sum_by};
ghost use Rattle.merge_model.specs.Script.Play.{names_of};
ghost use Rattle.merge_model.specs.Script.Text.{begin_and_end, grant_line, grants_text, held_count, holder_line, holders_text, next_and_end, number_words};
ghost use Rattle.merge_report.specs.Words.{spaced_words};

use crate::names::article_name;
use merge_ident::{Grant, Ranges};
use merge_model::HeldRanges;
use merge_schema::Publication;
use merge_types::NoMemory;

// Adds the line of a grant.
fn add_grant(text: &mut String, publication: &Publication, grant: &Grant) -> Result<(), NoMemory>
    ensures { OnOk result (string_bytes text.new ≡ string_bytes text.old ++ grant_line (names_of publication.now) grant.now) }
{
    let article = article_name(publication, grant.article as usize);
    write!(text, "{article} {} {}", grant.site.0, grant.number)?;
    writeln!(text, " {} {}", grant.range.begin, grant.range.end)?;
    Ok(())
}

/// Adds the ranges that the publisher granted, and how many they are.
pub fn add_grants(
    text: &mut String,
    publication: &Publication,
    grants: &[Grant],
) -> Result<(), NoMemory>
    ensures { OnOk result (string_bytes text.new ≡ string_bytes text.old ++ grants_text (names_of publication.now) grants.now) }
{
    for grant in grants {
        add_grant(text, publication, grant)?;
    }
    writeln!(text, "ranges {}", grants.len())?;
    Ok(())
}

// The next value of the first range that is held, and its end.
fn next_and_end(ranges: &Ranges) -> Option<(i64, i64)>
    ensures { result ≡ option_map next_and_end (slice_get ranges.now.held 0) }
{
    let holding = ranges.holding();
    Some((holding.next?, holding.first?.end))
}

// The second range that is held.
fn begin_and_end(ranges: &Ranges) -> Option<(i64, i64)>
    ensures { result ≡ option_map begin_and_end (slice_get ranges.now.held 1) }
{
    let range = ranges.holding().second?;
    Some((range.begin, range.end))
}

// How many ranges are held.
fn held_count(ranges: &Ranges) -> u64
    ensures count { result ≡ length ranges.now.held }
    ensures two { result ≤ 2 }
{
    let holding = ranges.holding();
    match (holding.first, holding.second) {
        (None, _) => 0,
        (Some(_), None) => 1,
        (Some(_), Some(_)) => 2,
    }
}

// Adds both ends of a range, or `-` for each.
fn add_ends(text: &mut String, numbers: Option<(i64, i64)>) -> Result<(), NoMemory>
    ensures { OnOk result (string_bytes text.new ≡ string_bytes text.old ++ spaced_words (number_words numbers)) }
{
    match numbers {
        Some((first, second)) => write!(text, " {first} {second}")?,
        None => write!(text, " - -")?,
    }
    Ok(())
}

// Adds the line of the ranges that are held of an article.
fn add_holder(
    text: &mut String,
    publication: &Publication,
    holder: &HeldRanges,
) -> Result<(), NoMemory>
    ensures { OnOk result (string_bytes text.new ≡ string_bytes text.old ++ holder_line (names_of publication.now) holder.now) }
{
    let article = article_name(publication, holder.article as usize);
    write!(text, "{article} {}", holder.ranges.holding().have)?;
    add_ends(text, next_and_end(&holder.ranges))?;
    add_ends(text, begin_and_end(&holder.ranges))?;
    writeln!(text)?;
    Ok(())
}

// How many ranges are held of all articles.
fn held_in_all(holders: &[HeldRanges]) -> u64
    ensures { result ≡ sum_by held_count holders.now }
{
    let mut count = 0;
    for holder in holders {
        count += held_count(&holder.ranges);
    }
    count
}

/// Adds the ranges that a subscriber holds, and how many they are.
pub fn add_holders(
    text: &mut String,
    publication: &Publication,
    holders: &[HeldRanges],
) -> Result<(), NoMemory>
    ensures { OnOk result (string_bytes text.new ≡ string_bytes text.old ++ holders_text (names_of publication.now) holders.now) }
{
    for holder in holders {
        add_holder(text, publication, holder)?;
    }
    writeln!(text, "ranges {}", held_in_all(holders))?;
    Ok(())
}
