//! A step that gives rows versions, as edits of what a publisher holds.
ghost use Rattle.std.specs.Prelude.{◌≡◌, ◌≤◌, ◌<◌, ◌+◌, ◌*◌, ℕ, map, length, drop, take, All, IfOk};
ghost use Rattle.std.specs.List.{zip as zipped};
ghost use Rattle.merge_types.specs.Limits.{counter_limit};
ghost use Rattle.merge_gens.specs.Book.{book_after_entries};
ghost use Rattle.merge_gens.specs.Filling.{generations_of};
ghost use Rattle.merge_gens.specs.Plan as generations_plan;
ghost use Rattle.merge_table.specs.Edits.{rows_after_all};
ghost use Rattle.merge_part.specs.Live.{live_after_all, live_rows as listed};
ghost use Rattle.merge_part.specs.Moves.{AreMoves};
ghost use Rattle.merge_part.specs.Taking.{EachRowOnce, FitsArticle, living};
ghost use Rattle.merge_part.specs.View.{IsPrepared, live_after_plan, live_in};
ghost use Rattle.merge_schema.specs.Valid.{IsValid};
ghost use Rattle.merge_types.specs.RowKeys.{key_cmp};
ghost use Rattle.merge_steps.specs.LiveRows.{live_pairs};
ghost use Rattle.merge_steps.specs.Rows as row;
ghost use Rattle.merge_steps.specs.Step.{EditsMappings, Indexes, IndexesMoves, IsStep, KeepsFitting, Subscribes, changing};
ghost use Rattle.merge_steps.specs.Working as work;

use crate::edits::{mapping_edits, moved_edits};
use crate::entries::{found_entries, indexing, keys_in, returns, row_changes, version_edits};
use crate::site_moves::MoveEntry;
use merge_gens::{GenerationBook, GenerationPlan, IndexChange, Mapping, MoveKind, RowSite};
use merge_part::{Membership, MembershipPlan, Move};
use merge_table::{Edit, Table};
use merge_types::{Listing, Moment, NoMemory, RowKey, Steps};
use merge_units::{PublisherRow, Version};
use std::alloc::Global;
use std::sync::ledger::Ledger;

/// The moves of a step and its entries.
#[derive(Drop)]
pub struct Found {
    pub changed: Listing<RowKey>,
    pub moves: Listing<Move>,
    pub entries: Listing<(RowSite, MoveKind)>,
    pub plan: MembershipPlan,
}

/// The edits of a step.
#[derive(Drop)]
pub struct Worked {
    pub rows: Listing<Edit<RowKey, PublisherRow>>,
    pub mappings: Listing<Edit<RowSite, Mapping>>,
    pub index: Listing<IndexChange>,
    pub moved: Listing<Edit<MoveEntry, ()>>,
    pub gens: GenerationPlan,
    pub plan: MembershipPlan,
}

// The edits of rows, mappings and the index.
#[derive(Drop)]
struct RowEdits {
    rows: Listing<Edit<RowKey, PublisherRow>>,
    mappings: Listing<Edit<RowSite, Mapping>>,
    index: Listing<IndexChange>,
}

/// What moves, and makes entries.
pub fn find_entries<L: Ledger>(
    alloc: Global,
    membership: &mut Membership,
    versions: &[(RowKey, Version)],
    acted: &[RowKey],
    site: u16,
    steps: &mut Steps<L>,
) -> Result<Found, NoMemory>
    requires fits { All (FitsArticle membership.old.publication) (map work.row_change versions.now) }
    requires once { EachRowOnce (map work.row_change versions.now) }
    ensures changed { IfOk result (λ f. f.changed ≡ work.keys_in versions.now) }
    ensures moves { IfOk result (λ f. AreMoves membership.old.publication (listed (live_in membership.old)) (listed (live_after_all (live_in membership.old) (map work.row_change versions.now))) f.moves) }
    ensures entries { IfOk result (λ f. f.entries ≡ work.found_entries membership.old.publication (listed (live_in membership.old)) (changing versions.now acted.now site) f.moves) }
    ensures plan { IfOk result (λ f. live_after_plan membership.new f.plan ≡ live_after_all (live_in membership.old) (map work.row_change versions.now)) }
    ensures ready { IfOk result (λ f. IsPrepared membership.new f.plan) }
    ensures publication { membership.new.publication ≡ membership.old.publication }
    ensures live { live_in membership.new ≡ live_in membership.old }
    ensures cost { steps.new ≤ steps.old + length membership.old.publication.subscriptions * living (map work.row_change versions.now) }
{
    let changed = keys_in(alloc, versions)?;
    let changes = row_changes(alloc, versions)?;
    let (moves, plan) = membership.prepare(changes.as_slice(), steps)?;
    let entries = found_entries(
        alloc,
        membership,
        changed.as_slice(),
        moves.as_slice(),
        site,
        acted,
    )?;
    Ok(Found {
        changed,
        moves,
        entries,
        plan,
    })
}

// The edits, once the generations are known.
fn row_edits(
    alloc: Global,
    rows: &Table<RowKey, PublisherRow>,
    mappings: &Table<RowSite, Mapping>,
    versions: Vec<(RowKey, Version)>,
    found: &Found,
    generations: &[u64],
) -> Result<RowEdits, NoMemory>
    requires counts { length generations.now ≡ length versions.items + length found.now.entries }
    ensures rows { IfOk result (λ e. e.rows ≡ work.version_edits versions.items (take (length versions.items) generations.now)) }
    ensures mappings { IfOk result (λ e. e.mappings ≡ row.mapping_edits found.now.entries (drop (length versions.items) generations.now) (work.returns mappings.now.rows found.now.changed found.now.moves)) }
    ensures index { IfOk result (λ e. e.index ≡ work.all_indexing rows.now.rows (zipped versions.items (take (length versions.items) generations.now))) }
{
    let first = &generations[..versions.len()];
    let rest = &generations[versions.len()..];
    let gone = returns(
        alloc,
        mappings,
        found.changed.as_slice(),
        found.moves.as_slice(),
    )?;
    let index = indexing(alloc, rows, &versions, first)?;
    let mappings = mapping_edits(alloc, found.entries.as_slice(), rest, gone.as_slice())?;
    let rows = version_edits(alloc, versions, first)?;
    Ok(RowEdits {
        rows,
        mappings,
        index,
    })
}

// The edits of what was found.
fn work_out(
    alloc: Global,
    rows: &Table<RowKey, PublisherRow>,
    mappings: &Table<RowSite, Mapping>,
    gens: &mut GenerationBook,
    versions: Vec<(RowKey, Version)>,
    found: Found,
    latest: Moment,
) -> Result<Worked, NoMemory>
    requires low { gens.old.book.filling.last_closed < counter_limit }
    requires few { length versions.items < counter_limit }
    ensures rows { IfOk result (λ w. w.rows ≡ work.version_edits versions.items (take (length versions.items) (generations_of gens.old.book.filling (length versions.items + length found.entries)))) }
    ensures mappings { IfOk result (λ w. w.mappings ≡ row.mapping_edits found.entries (drop (length versions.items) (generations_of gens.old.book.filling (length versions.items + length found.entries))) (work.returns mappings.now.rows found.changed found.moves)) }
    ensures index { IfOk result (λ w. w.index ≡ work.all_indexing rows.now.rows (zipped versions.items (take (length versions.items) (generations_of gens.old.book.filling (length versions.items + length found.entries))))) }
    ensures moved { IfOk result (λ w. w.moved ≡ row.moved_edits mappings.now.rows w.mappings) }
    ensures gens { IfOk result (λ w. generations_plan.book_after_plan gens.old.book w.gens ≡ book_after_entries gens.old.book (length versions.items + length found.entries) latest) }
    ensures ready { IfOk result (λ w. generations_plan.IsPrepared gens.new w.gens) }
    ensures plan { IfOk result (λ w. w.plan ≡ found.plan) }
    ensures same { gens.new.book ≡ gens.old.book }
{
    let count = versions.len() as u64 + found.entries.len() as u64;
    let (generations, gens) = gens.prepare_enter(count, latest)?;
    let edits = row_edits(alloc, rows, mappings, versions, &found, &generations)?;
    let moved = moved_edits(alloc, mappings, edits.mappings.as_slice())?;
    Ok(Worked {
        rows: edits.rows,
        mappings: edits.mappings,
        index: edits.index,
        moved,
        gens,
        plan: found.plan,
    })
}

/// The edits of a step that gives rows these versions, where a site sent the rows that acted.
pub fn draft_step<L: Ledger>(
    alloc: Global,
    membership: &mut Membership,
    gens: &mut GenerationBook,
    rows: &Table<RowKey, PublisherRow>,
    mappings: &Table<RowSite, Mapping>,
    versions: Vec<(RowKey, Version)>,
    acted: &[RowKey],
    site: u16,
    latest: Moment,
    steps: &mut Steps<L>,
) -> Result<Worked, NoMemory>
    requires valid { (resolvers : ℕ) × IsValid resolvers membership.old.publication }
    requires held { live_in membership.old ≡ live_pairs rows.now.rows }
    requires fits { All (FitsArticle membership.old.publication) (map work.row_change versions.items) }
    requires once { EachRowOnce (map work.row_change versions.items) }
    requires subscribes { Subscribes membership.old.publication acted.now site }
    requires low { gens.old.book.filling.last_closed < counter_limit }
    requires few { length versions.items < counter_limit }
    ensures made { IfOk result (λ w. IsStep membership.old.publication (changing versions.items acted.now site) rows.now.rows mappings.now.rows gens.old.book latest w) }
    ensures index { IfOk result (λ w. Indexes rows.now.rows w) }
    ensures moved { IfOk result (λ w. IndexesMoves mappings.now.rows w) }

    // There is no edit but these: one for each version, those of its entry in the index, one for each
    // mapping that the moves make or take, and those of this mapping's entry.
    ensures rows { IfOk result (λ w. w.rows ≡ work.version_edits versions.items (generations_of gens.old.book.filling (length versions.items))) }
    ensures indexing { IfOk result (λ w. w.index ≡ work.all_indexing rows.now.rows (zipped versions.items (generations_of gens.old.book.filling (length versions.items)))) }
    ensures mappings { IfOk result (λ w. EditsMappings membership.old.publication (listed (live_in membership.old)) (listed (live_after_all (live_in membership.old) (map work.row_change versions.items))) (changing versions.items acted.now site) gens.old.book.filling mappings.now.rows w.mappings) }
    ensures apart { IfOk result (λ w. work.AreApart (work.places_of w.mappings)) }
    ensures moving { IfOk result (λ w. w.moved ≡ row.moved_edits mappings.now.rows w.mappings) }

    ensures follows { IfOk result (λ w. live_after_plan membership.new w.plan ≡ live_pairs (rows_after_all key_cmp rows.now.rows w.rows)) }
    ensures kept { IfOk result (λ w. KeepsFitting membership.old.publication versions.items rows.now.rows w) }
    ensures planned { IfOk result (λ w. IsPrepared membership.new w.plan) }
    ensures prepared { IfOk result (λ w. generations_plan.IsPrepared gens.new w.gens) }
    ensures publication { membership.new.publication ≡ membership.old.publication }
    ensures live { live_in membership.new ≡ live_in membership.old }
    ensures cost { steps.new ≤ steps.old + length membership.old.publication.subscriptions * living (map work.row_change versions.items) }
    ensures same { gens.new.book ≡ gens.old.book }
{
    rows.is_ordered();
    mappings.is_ordered();
    let found = find_entries(alloc, membership, &versions, acted, site, steps)?;
    let worked = work_out(alloc, rows, mappings, gens, versions, found, latest)?;
    Ok(worked)
}
