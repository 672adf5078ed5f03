//! Lineages, and how two of them stand to each other.
ghost use Rattle.std.specs.Prelude.{◌≡◌, ◌≤◌, ◌+◌, ◌∷◌, ◌++◌, [], false, length, IsTrue, ◌↔◌, IfOk, IfErr, OnOk, OnErr, vec_len};
ghost use Rattle.std.specs.List.{list_all};
ghost use Rattle.std.specs.Vec.{vec_capacity};
ghost use Rattle.merge_lineage.specs.Lineage.{IsAscending, ascending, ascending_behind, number_of, knows, Covers, HasOrder, Joins, Advances, with_dot, joined, IsAt, IsGapFor};
ghost use Rattle.merge_lineage.specs.Merging.{lesser, first_of, behind};

use merge_types::{Dot, Exact, NoMemory, SiteId};
use std::alloc::{AllocError, Global};
use std::cmp::Ordering;
use std::marker::Model;

/// How one lineage stands to another.
#[derive(Clone, Copy, Debug, PartialEq, Eq)]
pub enum Order4 {
    /// Each covers the other.
    Equal,
    /// Only the other covers this one.
    Less,
    /// Only this one covers the other.
    Greater,
    /// Neither covers the other.
    Concurrent,
}

/// For each site that a version has seen changes of, the greatest number of these. Sites ascend.
#[derive(Debug, Drop)]
pub struct Lineage {
    dots: Vec<Dot>,
}

impl Model for Lineage {
    ghost use Rattle.std.specs.Prelude.{List};
    ghost use Rattle.merge_types.specs.declared.Dot.{Dot};

    ghost Value = { List Dot };

    ghost use Rattle.merge_lineage.specs.Lineage.{IsAscending};

    ghost view = { λ l. l.dots.items };

    ghost invariant = { λ l. IsAscending l.dots.items };
}

impl Clone for Lineage {
    ghost is_clone = { λ old new. new ≡ old };

    fn clone(&self) -> Result<Lineage, AllocError> {
        Ok(Lineage {
            dots: self.dots.clone()?,
        })
    }
}

impl Exact for Lineage {
    ghost exact = { λ value copy same. same };
}

/// Whether these dots are those of a lineage: the test for `Lineage::restore`.
pub fn are_ascending(dots: &[Dot]) -> bool
    ensures test { result ≡ ascending dots.now }
    ensures ascending { IsTrue result ↔ IsAscending dots.now }
{
    match dots.split_first() {
        None => true,
        Some((first, rest)) => ascend_behind(first.site, rest),
    }
}

// Whether the sites ascend, and all are above this one.
fn ascend_behind(site: SiteId, dots: &[Dot]) -> bool
    ensures { result ≡ ascending_behind site.0 dots.now }
{
    let mut last = site.0;
    for dot in dots {
        if dot.site.0 <= last {
            return false;
        }
        last = dot.site.0;
    }
    true
}

// The first dot of a join of these: that of the smaller site, and of both the greater number.
fn first_of(ours: &[Dot], theirs: &[Dot]) -> Option<Dot>
    ensures { result ≡ first_of ours.now theirs.now }
{
    match (ours.first(), theirs.first()) {
        (None, None) => None,
        (Some(our), None) => Some(*our),
        (None, Some(their)) => Some(*their),
        (Some(our), Some(their)) => Some(lesser(*our, *their)),
    }
}

// The dot of the smaller site, or of one site the greater number.
fn lesser(our: Dot, their: Dot) -> Dot
    ensures { result ≡ lesser our their }
{
    match our.site.0.cmp(&their.site.0) {
        Ordering::Less => our,
        Ordering::Greater => their,
        Ordering::Equal => Dot {
            site: their.site,
            number: their.number.max(our.number),
        },
    }
}

// The dots behind that of the site, where it is the first.
fn behind(dots: &[Dot], site: SiteId) -> &[Dot]
    ensures { result.now ≡ behind site.0 dots.now }
{
    match dots.split_first() {
        Some((first, rest)) if first.site.0 == site.0 => rest,
        _ => dots,
    }
}

// Adds the join of both behind. There is room for all dots of both.
fn add_joined(dots: &mut Vec<Dot>, ours: &[Dot], theirs: &[Dot])
    requires room { vec_len dots.old + (length ours.now + length theirs.now) ≤ vec_capacity dots.old }
    requires ours { IsAscending ours.now }
    requires theirs { IsAscending theirs.now }
    ensures { dots.new.items ≡ dots.old.items ++ joined ours.now theirs.now }
{
    let mut here = ours;
    let mut there = theirs;
    while let Some(dot) = first_of(here, there) {
        dots.push_reserved(dot);
        here = behind(here, dot.site);
        there = behind(there, dot.site);
    }
}

impl Lineage {
    /// Knows no change.
    pub fn new(alloc: Global) -> Self
        ensures { result ≡ [] }
    {
        Lineage {
            dots: Vec::new(alloc),
        }
    }

    /// The lineage with these dots, as a record or a message has them. Takes no memory.
    pub fn restore(dots: Vec<Dot>) -> Self
        requires { IsAscending dots.items }
        ensures { result ≡ dots.items }
    {
        Lineage { dots }
    }

    /// The dots back, with no memory taken.
    pub fn into_vec(self) -> Vec<Dot>
        ensures all { result.items ≡ self }
        ensures ascending { IsAscending self }
    {
        self.dots
    }

    /// The dots, by site.
    pub fn dots(&self) -> &[Dot]
        ensures all { result.now ≡ self.now }
        ensures ascending { IsAscending self.now }
    {
        &self.dots
    }

    /// The greatest number of the site's changes that are known, 0 where none is.
    pub fn number_of(&self, site: SiteId) -> u64
        ensures { result ≡ number_of self.now site.0 }
    {
        match self.search(site) {
            Ok(at) => self.dots[at].number,
            Err(_) => 0,
        }
    }

    /// Whether the change is known.
    pub fn knows(&self, dot: Dot) -> bool
        ensures { result ≡ knows self.now dot }
    {
        dot.number <= self.number_of(dot.site)
    }

    /// Whether all is known that the other knows.
    pub fn covers(&self, other: &Lineage) -> bool
        ensures { IsTrue result ↔ Covers self.now other.now }
    {
        let dots = &other.dots;
        self.knows_all(dots)
    }

    // Whether each of the changes is known.
    fn knows_all(&self, dots: &[Dot]) -> bool
        ensures { result ≡ list_all (knows self.now) dots.now }
    {
        dots.iter().all(|dot| self.knows(*dot))
    }

    /// How this lineage stands to the other.
    pub fn compare(&self, other: &Lineage) -> Order4
        ensures { HasOrder result self.now other.now }
    {
        match (self.covers(other), other.covers(self)) {
            (true, true) => Order4::Equal,
            (true, false) => Order4::Greater,
            (false, true) => Order4::Less,
            (false, false) => Order4::Concurrent,
        }
    }

    /// The lineage that knows what one of the two knows.
    pub fn join(&self, other: &Lineage) -> Result<Lineage, NoMemory>
        ensures greater { IfOk result (Joins self.now other.now) }
        ensures value { IfOk result (λ lineage. lineage ≡ joined self.now other.now) }
    {
        let mut dots = Vec::new(*self.dots.allocator());
        dots.reserve(self.dots.len() + other.dots.len())?;
        add_joined(&mut dots, &self.dots, &other.dots);
        Ok(Lineage::restore(dots))
    }

    /// The lineage that knows a new change besides.
    pub fn advance(&self, dot: Dot) -> Result<Lineage, NoMemory>
        requires { knows self.now dot ≡ false }
        ensures numbers { IfOk result (Advances self.now dot) }
        ensures value { IfOk result (λ lineage. lineage ≡ with_dot dot self.now) }
    {
        // There is room for a dot of one more site.
        let mut dots = Vec::with_capacity(*self.dots.allocator(), self.dots.len() + 1)?;
        dots.extend_from_slice(&self.dots)?;
        let mut advanced = Lineage::restore(dots);
        advanced.raise(dot)?;
        Ok(advanced)
    }

    // Takes a dot in: the greater number, where its site is there.
    fn raise(&mut self, dot: Dot) -> Result<(), NoMemory>
        ensures numbers { OnOk result (Joins self.old (dot ∷ []) self.new) }
        ensures value { OnOk result (self.new ≡ with_dot dot self.old) }
        ensures err { OnErr result (self.new ≡ self.old) }
    {
        match self.search(dot.site) {
            Ok(at) => {
                let here = &mut self.dots[at];
                here.number = here.number.max(dot.number);
                Ok(())
            }
            Err(at) => Ok(self.dots.insert(at, dot)?),
        }
    }

    // Where the site's dot is, or where it would go.
    fn search(&self, site: SiteId) -> Result<usize, usize>
        ensures found { IfOk result (IsAt self.now site.0) }
        ensures absent { IfErr result (IsGapFor self.now site.0) }
    {
        self.dots.binary_search_by_key(&site.0, |dot| dot.site.0)
    }
}
