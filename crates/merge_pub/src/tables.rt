//! The tables of a store, in the form in which a publisher holds them.
ghost use Rattle.std.specs.Prelude.{◌≡◌, All, IfOk};
ghost use Rattle.std.specs.List.Sorted.{IsStrictlySortedBy};
ghost use Rattle.std.specs.Map.{keys_of};
ghost use Rattle.std.specs.Ordering.{nat_cmp};
ghost use Rattle.merge_types.specs.RowKeys.{key_cmp};
ghost use Rattle.merge_gens.specs.Moves.{row_site_cmp};
ghost use Rattle.merge_ident.specs.Books.{IsRule};
ghost use Rattle.merge_ident.specs.Grants.{AreGrants, AreInOrder};
ghost use Rattle.merge_conflict.specs.Rising.{AreRising};
ghost use Rattle.merge_model.specs.Laws.{AreSorted};
ghost use Rattle.merge_pub.specs.Restoring.{tables_in, tables_with};

use crate::starting::Kept;
use merge_change::table_of;
use merge_conflict::ConflictTable;
use merge_gens::{GenerationBook, Mapping, RowSite, SiteState};
use merge_ident::{Grants, RangeBook, Ranges, Rules};
use merge_table::Table;
use merge_types::{Listing, Moment, NoMemory, RowKey};
use merge_units::PublisherRow;
use std::alloc::Global;

// The tables with keys.
#[derive(Drop)]
pub(crate) struct KeyedTables {
    pub(crate) rows: Table<RowKey, PublisherRow>,
    pub(crate) mappings: Table<RowSite, Mapping>,
    pub(crate) sites: Table<u16, SiteState>,
    pub(crate) held: Table<u8, Ranges>,
}

// All tables of a publisher, and its counters.
#[derive(Drop)]
pub(crate) struct Tables {
    pub(crate) keyed: KeyedTables,
    pub(crate) gens: GenerationBook,
    pub(crate) conflicts: ConflictTable,
    pub(crate) grants: RangeBook,
    pub(crate) changes: u64,
    pub(crate) conflict_count: u64,
    pub(crate) latest: Moment,
}

// The tables that were kept, with the rules by which ranges are granted.
pub(crate) fn tables_of(alloc: Global, rules: Rules, kept: Kept) -> Result<Tables, NoMemory>
    requires rules { All IsRule rules }
    requires sorted { AreSorted (tables_in kept) }
    requires held { IsStrictlySortedBy nat_cmp (keys_of kept.held) }
    requires granted { AreGrants kept.grants }
    requires in_order { AreInOrder kept.grants }
    requires rising { AreRising kept.conflicts }
    ensures tables { IfOk result (λ tables. tables_with tables ≡ tables_in kept) }
    ensures rules { IfOk result (λ tables. tables.grants.rules ≡ rules) }
{
    let Kept {
        changes,
        filling,
        closings,
        conflict_count,
        latest,
        rows,
        mappings,
        conflicts,
        grants,
        held,
        sites,
    } = kept;
    let keyed = keyed_tables(alloc, rows, mappings, sites, held)?;
    Ok(Tables {
        keyed,
        gens: GenerationBook::restore(filling, closings),
        conflicts: ConflictTable::restore(conflicts),
        grants: book_of(rules, grants),
        changes,
        conflict_count,
        latest,
    })
}

// The tables of these rows, mappings, sites and ranges.
fn keyed_tables(
    alloc: Global,
    rows: Listing<(RowKey, PublisherRow)>,
    mappings: Listing<(RowSite, Mapping)>,
    sites: Listing<(u16, SiteState)>,
    held: Listing<(u8, Ranges)>,
) -> Result<KeyedTables, NoMemory>
    requires rows { IsStrictlySortedBy key_cmp (keys_of rows) }
    requires mappings { IsStrictlySortedBy row_site_cmp (keys_of mappings) }
    requires sites { IsStrictlySortedBy nat_cmp (keys_of sites) }
    requires held { IsStrictlySortedBy nat_cmp (keys_of held) }
    ensures rows { IfOk result (λ keyed. keyed.rows.rows ≡ rows) }
    ensures mappings { IfOk result (λ keyed. keyed.mappings.rows ≡ mappings) }
    ensures sites { IfOk result (λ keyed. keyed.sites.rows ≡ sites) }
    ensures held { IfOk result (λ keyed. keyed.held.rows ≡ held) }
{
    let rows = table_of(alloc, rows)?;
    let mappings = table_of(alloc, mappings)?;
    let sites = table_of(alloc, sites)?;
    let held = table_of(alloc, held)?;
    Ok(KeyedTables {
        rows,
        mappings,
        sites,
        held,
    })
}

// The book of grants that stand in order.
fn book_of(rules: Rules, grants: Grants) -> RangeBook
    requires rules { All IsRule rules }
    requires granted { AreGrants grants }
    requires in_order { AreInOrder grants }
    ensures rules { result.rules ≡ rules }
    ensures grants { result.grants ≡ grants }
{
    RangeBook::restore(rules, grants)
}
