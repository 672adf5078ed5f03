//! Versions of a row as sites hold them.
ghost use Rattle.std.specs.Prelude.{◌≡◌};
ghost use Rattle.std.specs.List.{list_any};
ghost use Rattle.merge_lineage.specs.Lineage.{knows};
ghost use Rattle.merge_units.specs.Version.{is_new, has_news_over, is_live};

use merge_lineage::Lineage;
use merge_types::{Dot, Exact, Listing, Values};
use std::alloc::AllocError;

/// Values that stand or fall together, and the change that last set them.
/// With row tracking a row has one cell with all values, else one cell for each column.
#[derive(Debug, Drop, PartialEq, Eq)]
pub struct Cell {
    pub top: Dot,
    pub values: Values,
}

/// The cells of a live row, in the order of the columns.
pub type Cells = Listing<Cell>;

/// What a version has of the row: its cells, or the change that deleted it.
#[derive(Debug, Drop)]
pub enum Body {
    Live(Cells),
    Dead(Dot),
}

/// A row as a site has it, and the changes that this site knows of it.
#[derive(Debug, Drop)]
pub struct Version {
    pub lineage: Lineage,
    pub body: Body,
}

impl Clone for Cell {
    ghost is_clone = { λ old new. new ≡ old };

    fn clone(&self) -> Result<Cell, AllocError> {
        Ok(Cell {
            top: self.top,
            values: self.values.clone()?,
        })
    }
}

impl Exact for Cell {
    ghost exact = { λ value copy same. same };
}

impl Clone for Body {
    ghost is_clone = { λ old new. new ≡ old };

    fn clone(&self) -> Result<Body, AllocError> {
        match self {
            Body::Live(cells) => Ok(Body::Live(cells.clone()?)),
            Body::Dead(top) => Ok(Body::Dead(*top)),
        }
    }
}

impl Exact for Body {
    ghost exact = { λ value copy same. same };
}

impl Clone for Version {
    ghost is_clone = { λ old new. new ≡ old };

    fn clone(&self) -> Result<Version, AllocError> {
        Ok(Version {
            lineage: self.lineage.clone()?,
            body: self.body.clone()?,
        })
    }
}

impl Exact for Version {
    ghost exact = { λ value copy same. same };
}

impl Version {
    /// Whether the row lives.
    pub fn is_live(&self) -> bool
        ensures { result ≡ is_live self.now.body }
    {
        matches!(self.body, Body::Live(_))
    }

    /// Whether a change that last set something here is not known there.
    pub fn has_news_over(&self, other: &Version) -> bool
        ensures { result ≡ has_news_over self.now other.now }
    {
        match &self.body {
            Body::Live(cells) => any_new(&other.lineage, cells.as_slice()),
            Body::Dead(top) => !other.lineage.knows(*top),
        }
    }
}

/// Whether the top of some cell is not known.
pub fn any_new(lineage: &Lineage, cells: &[Cell]) -> bool
    ensures { result ≡ list_any (λ cell. is_new (knows lineage.now) cell.top) cells.now }
{
    cells.iter().any(|cell| !lineage.knows(cell.top))
}
