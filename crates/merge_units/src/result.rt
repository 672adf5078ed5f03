//! What a row becomes by a decision on two versions of it.
ghost use Rattle.std.specs.Prelude.{◌≡◌, IfOk, length};
ghost use Rattle.merge_units.specs.Version.{HaveEqualCounts};
ghost use Rattle.merge_units.specs.Cases.{case_of};
ghost use Rattle.merge_units.specs.Results.{decided, taken, taken_count, result_cell, result_cells, case_body, result_lineage, result_by, result_of, FitsDecision, FitsBodies, IsNewWhereDecided};

use crate::{Body, Case, Cell, Cells, Side, Version, classify};
use merge_lineage::Lineage;
use merge_types::{Dot, Exact, NoMemory, Value, Values};
use std::alloc::{AllocError, Global};

/// What a resolver decides on the conflicting cells of a row, or on the whole row where one of the
/// two versions is a delete.
#[derive(Debug, Drop)]
pub enum Decision {
    KeepPublisher,
    TakeSubscriber,
    /// These values, for the conflicting cells in order.
    Custom(Values),
}

impl Clone for Decision {
    ghost is_clone = { λ old new. new ≡ old };

    fn clone(&self) -> Result<Decision, AllocError> {
        match self {
            Decision::KeepPublisher => Ok(Decision::KeepPublisher),
            Decision::TakeSubscriber => Ok(Decision::TakeSubscriber),
            Decision::Custom(values) => Ok(Decision::Custom(values.clone()?)),
        }
    }
}

impl Exact for Decision {
    ghost exact = { λ value copy same. same };
}

/// The row's version after the decision. The dot is the publisher's change that makes decided
/// values; the other decisions make no change.
pub fn apply(
    alloc: Global,
    publisher: &Version,
    incoming: &Version,
    decision: &Decision,
    dot: Dot,
) -> Result<Version, NoMemory>
    requires counts { HaveEqualCounts publisher.now.body incoming.now.body }
    requires decision { FitsDecision (case_of publisher.now incoming.now) publisher.now.body decision.now }
    requires dot { IsNewWhereDecided publisher.now.lineage incoming.now.lineage decision.now dot }
    ensures { IfOk result (λ version. version ≡ result_of publisher.now incoming.now decision.now dot) }
{
    let case = classify(alloc, publisher, incoming)?;
    case.apply(alloc, publisher, incoming, decision, dot)
}

impl Case {
    /// The row's version after the decision on two versions of which this is the case, for a caller
    /// that has told it before, as one must who asks a resolver.
    pub fn apply(
        &self,
        alloc: Global,
        publisher: &Version,
        incoming: &Version,
        decision: &Decision,
        dot: Dot,
    ) -> Result<Version, NoMemory>
        requires fits { FitsBodies self.now publisher.now.body incoming.now.body decision.now }
        requires dot { IsNewWhereDecided publisher.now.lineage incoming.now.lineage decision.now dot }
        ensures { IfOk result (λ version. version ≡ result_by self.now publisher.now incoming.now decision.now dot) }
    {
        let lineage = joined(&publisher.lineage, &incoming.lineage, decision, dot)?;
        let body = case_body(alloc, self, &publisher.body, &incoming.body, decision, dot)?;
        Ok(Version { lineage, body })
    }
}

// The join of both, with the dot of decided values.
fn joined(
    here: &Lineage,
    there: &Lineage,
    decision: &Decision,
    dot: Dot,
) -> Result<Lineage, NoMemory>
    requires { IsNewWhereDecided here.now there.now decision.now dot }
    ensures { IfOk result (λ lineage. lineage ≡ result_lineage here.now there.now decision.now dot) }
{
    let joined = here.join(there)?;
    match decision {
        Decision::Custom(_) => joined.advance(dot),
        Decision::KeepPublisher | Decision::TakeSubscriber => Ok(joined),
    }
}

// The body of the result.
fn case_body(
    alloc: Global,
    case: &Case,
    ours: &Body,
    theirs: &Body,
    decision: &Decision,
    dot: Dot,
) -> Result<Body, NoMemory>
    requires { FitsBodies case.now ours.now theirs.now decision.now }
    ensures { IfOk result (λ body. body ≡ case_body dot decision.now case.now ours.now theirs.now) }
{
    match case {
        Case::Nothing | Case::Unite => Ok(ours.clone()?),
        Case::Take => Ok(theirs.clone()?),
        Case::Merge(sides) | Case::Conflict(sides) => match (ours, theirs) {
            (Body::Live(our_cells), Body::Live(their_cells)) => Ok(Body::Live(merged(
                alloc,
                sides.as_slice(),
                our_cells.as_slice(),
                their_cells.as_slice(),
                decision,
                dot,
            )?)),
            _ => unreachable!(),
        },
        Case::LifeConflict => match decision {
            Decision::TakeSubscriber => Ok(theirs.clone()?),
            Decision::KeepPublisher | Decision::Custom(_) => Ok(ours.clone()?),
        },
    }
}

// The cells that pairs of cells give.
fn merged(
    alloc: Global,
    sides: &[Side],
    ours: &[Cell],
    theirs: &[Cell],
    decision: &Decision,
    dot: Dot,
) -> Result<Cells, NoMemory>
    requires here { length sides.now ≡ length ours.now }
    requires there { length sides.now ≡ length theirs.now }
    requires values { length (decided decision.now) ≡ taken_count decision.now sides.now ours.now }
    ensures { IfOk result (λ cells. cells ≡ result_cells dot decision.now (decided decision.now) sides.now ours.now theirs.now) }
{
    let mut rest = values_of(decision);
    let mut cells = Vec::new(alloc);
    for at in 0..sides.len() {
        let count = taken(decision, sides[at], &ours[at]);
        let (here, after) = rest.split_at(count);
        cells.push(result_cell(
            alloc,
            decision,
            here,
            sides[at],
            &ours[at],
            &theirs[at],
            dot,
        )?)?;
        rest = after;
    }
    Ok(Cells::new(cells))
}

// The values that a decision brings.
pub fn values_of(decision: &Decision) -> &[Value]
    ensures { result.now ≡ decided decision.now }
{
    match decision {
        Decision::Custom(values) => values.as_slice(),
        Decision::KeepPublisher | Decision::TakeSubscriber => &[],
    }
}

// How many decided values a cell takes.
pub fn taken(decision: &Decision, side: Side, our: &Cell) -> usize
    ensures { result ≡ taken decision.now side our.now }
{
    match (decision, side) {
        (Decision::Custom(_), Side::Both) => our.values.len(),
        _ => 0,
    }
}

// The cell that a pair gives, where these values are decided for it.
fn result_cell(
    alloc: Global,
    decision: &Decision,
    values: &[Value],
    side: Side,
    our: &Cell,
    their: &Cell,
    dot: Dot,
) -> Result<Cell, AllocError>
    ensures { IfOk result (λ cell. cell ≡ result_cell dot decision.now values.now side our.now their.now) }
{
    match (side, decision) {
        (Side::Incoming, _) => their.clone(),
        (Side::Both, Decision::TakeSubscriber) => their.clone(),
        (Side::Both, Decision::Custom(_)) => Ok(Cell {
            top: dot,
            values: Values::new(values.to_vec(alloc)?),
        }),
        (Side::Both, Decision::KeepPublisher) => our.clone(),
        (Side::Neither | Side::Publisher, _) => our.clone(),
    }
}
