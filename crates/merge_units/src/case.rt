//! What an incoming version of a row is to the publisher's.
ghost use Rattle.std.specs.Prelude.{◌≡◌, false, IfOk, IsOk, length, map};
ghost use Rattle.std.specs.List.{list_any, zip};
ghost use Rattle.merge_lineage.specs.Lineage.{knows};
ghost use Rattle.merge_units.specs.Version.{HaveEqualCounts};
ghost use Rattle.merge_units.specs.Cases.{is_both, side_by, side_of, live_case, sides_of, case_of, names_sides, are_long};

use crate::{Body, Cell, Version};
use merge_lineage::Lineage;
use merge_types::limits::UNITED_LIMIT;
use merge_types::{Exact, Listing, NoMemory};
use std::alloc::Global;

/// Where a cell is new: its top is not known by the lineage of the other side.
#[derive(Clone, Copy, Debug, PartialEq, Eq)]
pub enum Side {
    Neither,
    Publisher,
    Incoming,
    /// The cell conflicts.
    Both,
}

/// The side of each cell.
pub type Sides = Listing<Side>;

impl Exact for Side {
    ghost use Rattle.std.proofs.Common.{rules};

    ghost exact = { Prim.search rules };
}

/// What an incoming version of a row is to the publisher's, as SQL Server's merge process tells
/// updates of one side from conflicts of both.
#[derive(Debug, Drop, PartialEq, Eq)]
pub enum Case {
    /// The incoming version brings no news.
    Nothing,
    /// Only the incoming version has news: it is taken.
    Take,
    /// Both are deletes.
    Unite,
    /// Both have news, and no cell conflicts.
    Merge(Sides),
    /// Both have news, and some cell conflicts.
    Conflict(Sides),
    /// Both have news, and one is a delete.
    LifeConflict,
}

/// What the incoming version is to the publisher's.
pub fn classify(alloc: Global, publisher: &Version, incoming: &Version) -> Result<Case, NoMemory>
    requires { HaveEqualCounts publisher.now.body incoming.now.body }
    ensures case { IfOk result (λ case. case ≡ case_of publisher.now incoming.now) }

    // A case that names no sides takes no memory.
    ensures free { names_sides (case_of publisher.now incoming.now) ≡ false → IsOk result }
{
    match (
        publisher.has_news_over(incoming),
        incoming.has_news_over(publisher),
    ) {
        (_, false) => Ok(Case::Nothing),
        (false, true) => Ok(Case::Take),
        (true, true) => match (&publisher.body, &incoming.body) {
            (Body::Dead(_), Body::Dead(_)) => Ok(Case::Unite),
            (Body::Live(ours), Body::Live(theirs)) => {
                let sides = sides(
                    alloc,
                    &publisher.lineage,
                    &incoming.lineage,
                    ours.as_slice(),
                    theirs.as_slice(),
                )?;
                Ok(live_case(sides))
            }
            _ => Ok(Case::LifeConflict),
        },
    }
}

// The case of two live versions that both have news.
fn live_case(sides: Sides) -> Case
    ensures { result ≡ live_case sides }
{
    if any_conflicts(sides.as_slice()) {
        Case::Conflict(sides)
    } else {
        Case::Merge(sides)
    }
}

// Whether a cell conflicts.
fn any_conflicts(sides: &[Side]) -> bool
    ensures { result ≡ list_any is_both sides.now }
{
    sides.iter().any(|side| matches!(side, Side::Both))
}

// The side of each cell of two live versions with these lineages.
fn sides(
    alloc: Global,
    here: &Lineage,
    there: &Lineage,
    ours: &[Cell],
    theirs: &[Cell],
) -> Result<Sides, NoMemory>
    requires { length ours.now ≡ length theirs.now }
    ensures { IfOk result (λ sides. sides ≡ sides_of (knows here.now) (knows there.now) ours.now theirs.now) }
{
    let long = are_long(ours, theirs);
    Ok(Sides::new(pair_sides(alloc, long, here, there, ours, theirs)?))
}

fn pair_sides(
    alloc: Global,
    long: bool,
    here: &Lineage,
    there: &Lineage,
    ours: &[Cell],
    theirs: &[Cell],
) -> Result<Vec<Side>, NoMemory>
    requires { length ours.now ≡ length theirs.now }
    ensures { IfOk result (λ sides. sides.items ≡ map (side_of long (knows here.now) (knows there.now)) (zip ours.now theirs.now)) }
{
    let mut sides = Vec::new(alloc);
    for at in 0..ours.len() {
        sides.push(pair_side(long, here, there, &ours[at], &theirs[at]))?;
    }
    Ok(sides)
}

fn pair_side(long: bool, here: &Lineage, there: &Lineage, our: &Cell, their: &Cell) -> Side
    ensures { result ≡ side_of long (knows here.now) (knows there.now) (our.now, their.now) }
{
    side_by(long, !there.knows(our.top), !here.knows(their.top))
}

// From whether all cells conflict, and where the cell is new.
#[tactic(auto, unfolding(crate::specs::Cases::side_by))]
fn side_by(long: bool, new_here: bool, new_there: bool) -> Side
    ensures { result ≡ side_by long new_here new_there }
{
    match (long, new_here, new_there) {
        (true, _, _) | (false, true, true) => Side::Both,
        (false, true, false) => Side::Publisher,
        (false, false, true) => Side::Incoming,
        (false, false, false) => Side::Neither,
    }
}

// Whether the two are long together.
fn are_long(ours: &[Cell], theirs: &[Cell]) -> bool
    requires { length ours.now ≡ length theirs.now }
    ensures { result ≡ are_long ours.now theirs.now }
{
    let mut total = 0u64;
    for at in 0..ours.len() {
        let our = ours[at].values.weight();
        let their = theirs[at].values.weight();
        total = total.saturating_add(our.max(their));
    }
    total > UNITED_LIMIT
}
