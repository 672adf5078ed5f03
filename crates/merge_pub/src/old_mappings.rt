//! The mappings that are old, found by the generations of their moves.
ghost use Rattle.std.specs.Prelude.{◌≡◌, ◌↔◌, ◌<◌, ◌≤◌, ◌++◌, ◌^◌, true, Contains, IfOk, IfSome, None, OnOk, Some, filter_map, map, not};
ghost use Rattle.std.specs.List.Sorted.{IsStrictlySortedBy};
ghost use Rattle.merge_table.specs.Edits.{takes_of};
ghost use Rattle.merge_gens.specs.Moves.{row_site_cmp};
ghost use Rattle.merge_gens.specs.declared.moves.RowSite.{RowSite as OnePlace};
ghost use Rattle.merge_pub.specs.Forgetting.{place_at};
ghost use Rattle.merge_pub.specs.Held.{tables_of};
ghost use Rattle.merge_steps.specs.Indexed.{has_entry};
ghost use Rattle.merge_steps.specs.MoveWalks.{keys_in_walk};
ghost use Rattle.merge_steps.specs.OldSpans.{HasMapped, HasMoved, IsNextBehind, IsNextFrom};
ghost use Rattle.merge_steps.specs.Purging.{is_old_mapping, taken_at};
ghost use Rattle.merge_steps.specs.declared.site_moves.MoveEntry.{MoveEntry as OneEntry};

use crate::publisher::Publisher;
use merge_gens::{Mapping, RowSite};
use merge_steps::{MoveEntry, Span, Staying, add_moved, old_span, push_some};
use merge_table::{Edit, Table};
use merge_types::{Listing, Moment, NoMemory, RowId, RowKey};
use std::alloc::Global;

// The last site of which there is an entry, and 0 where there is none.
fn last_site(moved: &Table<MoveEntry, ()>) -> u16
    ensures { (entry : OneEntry) → has_entry moved.now.rows entry ≡ true → entry.site ≤ result }
{
    match moved.iter().next_back() {
        Some((entry, _)) => entry.site,
        None => 0,
    }
}

// The first site from one on of which there is an entry.
fn next_from(moved: &Table<MoveEntry, ()>, site: u16) -> Option<u16>
    ensures next { IsNextFrom moved.now.rows site result }
    ensures onward { IfSome result (λ next. site ≤ next) }
{
    moved.is_ordered();
    let start = MoveEntry {
        site,
        generation: 0,
        key: RowKey {
            article: 0,
            row: RowId(0),
        },
    };
    match moved.range(start..).next() {
        Some((entry, _)) => Some(entry.site),
        None => None,
    }
}

// The first site behind one of which there is an entry.
fn next_behind(moved: &Table<MoveEntry, ()>, site: u16) -> Option<u16>
    ensures next { IsNextBehind moved.now.rows site result }
    ensures onward { IfSome result (λ next. site < next) }
    ensures fits { site < 2 ^ 16 }
{
    if last_site(moved) <= site {
        return None;
    }
    next_from(moved, site + 1)
}

// Adds the places of the site's mappings whose last move was in these generations.
fn add_places(
    alloc: Global,
    moved: &Table<MoveEntry, ()>,
    site: u16,
    span: Span,
    places: &mut Vec<RowSite>,
) -> Result<(), NoMemory>
    ensures { OnOk result (places.new.items ≡ places.old.items ++ map (place_at site) (keys_in_walk site span.first (Some span.last) moved.now.rows)) }
{
    let mut keys = Vec::new(alloc);
    add_moved(moved, site, span.first, Some(span.last), &mut keys)?;
    for key in &keys {
        places.push(RowSite { key: *key, site })?;
    }
    Ok(())
}

// The places of all mappings whose last move was in these generations, from site to site.
fn places_within(
    alloc: Global,
    moved: &Table<MoveEntry, ()>,
    span: Span,
) -> Result<Vec<RowSite>, NoMemory>
    ensures { IfOk result (λ places. HasMoved moved.now.rows span None places.items) }
{
    let mut places = Vec::new(alloc);
    let mut next = next_from(moved, 0);
    while let Some(site) = next {
        add_places(alloc, moved, site, span, &mut places)?;
        next = next_behind(moved, site);
    }
    Ok(places)
}

// Sorts places by row and site, and leaves each once.
fn sort_places(places: &mut Vec<RowSite>)
    ensures ascending { IsStrictlySortedBy row_site_cmp places.new.items }
    ensures same { (place : OnePlace) → Contains places.new.items place ↔ Contains places.old.items place }
{
    places.sort_unstable();
    places.dedup();
}

impl Publisher {
    // The places of all mappings whose last move was in these generations, by row and site.
    fn sorted_places(&self, span: Span) -> Result<Vec<RowSite>, NoMemory>
        ensures ascending { IfOk result (λ places. IsStrictlySortedBy row_site_cmp places.items) }
        ensures all { IfOk result (λ places. HasMapped (tables_of self.now).mappings span places.items) }
    {
        let mut places = places_within(self.alloc, &self.moved, span)?;
        sort_places(&mut places);
        Ok(places)
    }

    // The edit that takes a mapping, where it is old.
    fn taken_at(&self, staying: &Staying<'_>, place: RowSite) -> Option<Edit<RowSite, Mapping>>
        ensures { result ≡ taken_at staying.now.gens.now.book.closings staying.now.cutoff (tables_of self.now).mappings place }
    {
        match self.mappings.get(&place) {
            Some(mapping) => staying.take(place, *mapping),
            None => None,
        }
    }

    // The edits that take those of the mappings at these places that are old.
    fn taken_among(
        &self,
        staying: &Staying<'_>,
        places: &[RowSite],
    ) -> Result<Listing<Edit<RowSite, Mapping>>, NoMemory>
        ensures { IfOk result (λ edits. edits ≡ filter_map (taken_at staying.now.gens.now.book.closings staying.now.cutoff (tables_of self.now).mappings) places.now) }
    {
        let mut edits = Listing::empty(self.alloc);
        for place in places {
            push_some(&mut edits, self.taken_at(staying, *place))?;
        }
        Ok(edits)
    }

    // The edits after which the mappings are gone of rows that left a partition in a generation that
    // closed before the moment. The time grows with the mappings whose last move was in these
    // generations.
    pub(crate) fn old_mappings(
        &self,
        cutoff: Moment,
    ) -> Result<Listing<Edit<RowSite, Mapping>>, NoMemory>
        ensures { IfOk result (λ edits. edits ≡ takes_of (λ entry. not (is_old_mapping (tables_of self.now).gens.closings cutoff entry)) (tables_of self.now).mappings) }
    {
        self.mappings.is_ordered();
        let places = self.sorted_places(old_span(&self.gens, cutoff))?;
        let staying = Staying {
            gens: &self.gens,
            cutoff,
        };
        let edits = self.taken_among(&staying, &places)?;
        Ok(edits)
    }
}
