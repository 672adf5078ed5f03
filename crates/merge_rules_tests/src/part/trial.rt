//! A membership beside the slow program, over the same changes.
ghost use Rattle.std.specs.Prelude.{◌≡◌, ◌≤◌, All, IfOk, IsTrue};
ghost use Rattle.merge_part.specs.Taking.{FitsArticle, EachRowOnce, key_of_change, count_if_some};

use super::slow::{LiveRow, Place, differences, partitions};
use merge_part::{Membership, RowChange};
use merge_schema::{Publication, SchemaFault, read};
use merge_types::{Listing, NoMemory, RowId, SiteId, Steps, Value, Values, Words};
use std::alloc::Global;
use std::marker::Brand;
use std::sync::ledger::{Blank, Ledger};

/// A value of a change.
#[derive(Clone, Copy)]
pub enum Cell {
    Null,
    Int(i64),
    Text(&'static str),
}

/// A change of a row with two columns: its article, its number, and what it has afterwards, if it
/// is live.
#[derive(Clone, Copy)]
pub struct Line(pub u8, pub u128, pub Option<(Cell, Cell)>);

fn value(alloc: Global, cell: Cell) -> Result<Value, NoMemory> {
    match cell {
        Cell::Null => Ok(Value::Null),
        Cell::Int(number) => Ok(Value::Int(number)),
        Cell::Text(text) => Ok(Value::Text(Words::of(alloc, text)?)),
    }
}

// The values of two cells, if there are any.
fn values_of(alloc: Global, cells: Option<(Cell, Cell)>) -> Result<Option<Values>, NoMemory>
    ensures { IfOk result (λ values. count_if_some values ≡ count_if_some cells) }
{
    let Some((first, second)) = cells else {
        return Ok(None);
    };
    let mut values = Listing::empty(alloc);
    values.push(value(alloc, first)?)?;
    values.push(value(alloc, second)?)?;
    Ok(Some(values))
}

/// The change that a line says.
pub fn change_of(alloc: Global, line: Line) -> Result<RowChange, NoMemory>
    ensures { IfOk result (λ change. count_if_some change.new ≡ count_if_some line.2) }
{
    let Line(article, row, cells) = line;
    Ok(RowChange {
        article,
        row: RowId(row),
        new: values_of(alloc, cells)?,
    })
}

fn changes_of(alloc: Global, lines: &[Line]) -> Result<Vec<RowChange>, NoMemory> {
    let mut changes = Vec::new(alloc);
    for line in lines {
        changes.push(change_of(alloc, *line)?)?;
    }
    Ok(changes)
}

// Whether a change is of an article that there is, and has its columns in number.
fn fits(publication: &Publication, change: &RowChange) -> bool
    ensures { IsTrue result → FitsArticle publication.now change.now }
{
    let Some(article) = publication.articles.as_slice().get(change.article as usize) else {
        return false;
    };
    match &change.new {
        Some(values) => values.len() == article.columns.len(),
        None => true,
    }
}

// Whether each change fits its article.
fn all_fit(publication: &Publication, changes: &[RowChange]) -> bool
    ensures { IsTrue result → All (FitsArticle publication.now) changes.now }
{
    changes.iter().all(|change| fits(publication, change))
}

// Whether the others are changes of other rows.
fn is_apart(change: &RowChange, others: &[RowChange]) -> bool
    ensures { IsTrue result → All (λ other. key_of_change change.now ≡ key_of_change other → ⊥) others.now }
{
    others.iter().all(|other| change.key() != other.key())
}

// Whether each row stands in the changes once.
#[tactic(auto, using(crate::proofs::Trials::once_with))]
fn each_once(changes: &[RowChange]) -> bool
    ensures { IsTrue result → EachRowOnce changes.now }
{
    match changes {
        [] => true,
        [change, others @ ..] => is_apart(change, others) && each_once(others),
    }
}

/// Whether a membership of the publication can be told the changes.
pub fn are_fit(publication: &Publication, changes: &[RowChange]) -> bool
    ensures fits { IsTrue result → All (FitsArticle publication.now) changes.now }
    ensures once { IsTrue result → EachRowOnce changes.now }
{
    all_fit(publication, changes) && each_once(changes)
}

#[derive(Drop)]
struct Trial {
    alloc: Global,
    membership: Membership,
    live: Vec<LiveRow>,
}

impl Trial {
    // Makes the change in the list of live rows.
    fn take_up(&mut self, change: RowChange) -> Result<(), NoMemory> {
        let RowChange { article, row, new } = change;
        self.live
            .retain(|live| live.article != article || live.row != row);
        if let Some(values) = new {
            self.live.push(LiveRow {
                article,
                row,
                values,
            })?;
        }
        Ok(())
    }

    fn take_up_all(&mut self, changes: Vec<RowChange>) -> Result<(), NoMemory> {
        for change in changes {
            self.take_up(change)?;
        }
        Ok(())
    }

    fn partitions<L: Ledger>(&self, steps: &mut Steps<L>) -> Result<Vec<Place>, NoMemory> {
        partitions(self.alloc, self.membership.publication(), &self.live, steps)
    }

    // Whether the membership knows exactly these places, of articles below 6, rows below 10 and
    // sites below 6.
    fn knows(&self, places: &[Place]) -> bool {
        for number in 0..360u16 {
            let place = Place {
                article: (number / 60) as u8,
                row: RowId((number / 6 % 10) as u128),
                site: SiteId(number % 6),
            };
            let is_in = self.membership.is_in(place.article, place.row, place.site);
            if is_in != places.contains(&place) {
                return false;
            }
        }
        true
    }

    // Makes the changes, and says whether both programs agree on what they do.
    fn agrees<L: Ledger>(
        &mut self,
        lines: &[Line],
        steps: &mut Steps<L>,
    ) -> Result<bool, NoMemory> {
        let changes = changes_of(self.alloc, lines)?;
        if !are_fit(self.membership.publication(), &changes) {
            return Ok(false);
        }
        let before = self.partitions(steps)?;
        let moves = self.membership.update(&changes, steps)?;
        self.take_up_all(changes)?;
        let after = self.partitions(steps)?;
        let expected = differences(self.alloc, &before, &after)?;
        Ok(moves.as_slice() == expected.as_slice() && self.knows(&after))
    }
}

fn counted_agreeing<L: Ledger>(
    alloc: Global,
    text: &[u8],
    script: &[&[Line]],
    blank: Blank,
) -> Result<usize, SchemaFault>
    requires name { blank.name ≡ L.name }
    requires parts { blank.parts ≡ L.parts }
    requires some { 1 ≤ blank.parts }
{
    let mut steps = Steps::<L>::new(blank);
    let publication = read(alloc, text, 5)?;
    let membership = Membership::new(alloc, &publication)?;
    let mut trial = Trial {
        alloc,
        membership,
        live: Vec::new(alloc),
    };
    for (agreeing, lines) in script.iter().enumerate() {
        if !trial.agrees(lines, &mut steps)? {
            return Ok(agreeing);
        }
    }
    Ok(script.len())
}

/// How many of the first steps of a script both programs agree on, for the publication of a text.
pub fn agreeing(alloc: Global, text: &[u8], script: &[&[Line]]) -> Result<usize, SchemaFault> {
    counted_agreeing::<Brand>(alloc, text, script, Blank::new(1))
}
