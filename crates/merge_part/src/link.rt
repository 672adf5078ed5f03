//! Joins between articles.
ghost use Rattle.std.specs.Prelude.{◌≡◌, ◌≤◌, ◌++◌, map, length, IfOk, OnOk};
ghost use Rattle.merge_part.specs.Rules.{link_of, links_from, links_of};

use merge_schema::{JoinFilter, Publication};
use merge_types::{Exact, Listing, NoMemory};
use std::alloc::Global;

/// A join filter with its article: a row of the child article follows the rows of the parent
/// article whose column has the value of its own. Articles and columns are named by their places.
#[derive(Clone, Copy, Debug, PartialEq, Eq)]
pub struct Link {
    pub child: u8,
    pub column: u8,
    pub parent: u8,
    pub parent_column: u8,
}

impl Exact for Link {
    ghost use Rattle.std.proofs.Common.{rules};

    ghost exact = { Prim.search rules };
}

/// The joins of a publication, and its articles in an order in which parents come first.
#[derive(Drop)]
pub struct Rules {
    pub links: Listing<Link>,
    pub order: Listing<u8>,
}

// Adds the joins of the article at a place.
fn push_links(child: u8, joins: &[JoinFilter], links: &mut Listing<Link>) -> Result<(), NoMemory>
    ensures { OnOk result (links.new ≡ links.old ++ map (link_of child) joins.now) }
{
    for join in joins {
        links.push(Link {
            child,
            column: join.column,
            parent: join.parent,
            parent_column: join.parent_column,
        })?;
    }
    Ok(())
}

/// The joins of all articles, in their order.
pub fn links_of(alloc: Global, publication: &Publication) -> Result<Listing<Link>, NoMemory>
    requires { length publication.now.articles ≤ 256 }
    ensures { IfOk result (λ links. links ≡ links_of publication.now) }
{
    let mut links = Listing::empty(alloc);
    for (child, article) in publication.articles.as_slice().iter().enumerate() {
        push_links(child as u8, article.joins.as_slice(), &mut links)?;
    }
    Ok(links)
}
