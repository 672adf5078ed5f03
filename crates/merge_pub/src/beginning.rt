//! A publisher that holds no rows yet.
ghost use Rattle.std.specs.Prelude.{◌≡◌, ℕ, All, IfOk, OnOk};
ghost use Rattle.merge_ident.specs.Books.{IsRule};
ghost use Rattle.merge_schema.specs.Valid.{IsValid};
ghost use Rattle.merge_model.specs.Tables.Publications.{rules_of};
ghost use Rattle.merge_model.specs.Publisher.{empty_publisher, new_holders};
ghost use Rattle.merge_steps.specs.Beginning.{with_holder, with_rule};
ghost use Rattle.merge_pub.specs.Held.{publication_of, tables_of};

use crate::publisher::Publisher;
use merge_conflict::ConflictTable;
use merge_gens::{GenerationBook, GenerationIndex};
use merge_ident::{RangeBook, Ranges, Rule, Rules};
use merge_part::Membership;
use merge_schema::{Article, Publication};
use merge_table::Table;
use merge_types::{Listing, Moment, NoMemory};
use std::alloc::Global;

// Adds the rule by which ranges of an article are granted.
fn push_rule(place: u8, article: &Article, rules: &mut Rules) -> Result<(), NoMemory>
    ensures { OnOk result (rules.new ≡ with_rule rules.old place article.now.identity) }
{
    let Some(identity) = &article.identity else {
        return Ok(());
    };
    rules.push(Rule {
        article: place,
        seed: identity.seed,
        range: identity.range,
        pub_range: identity.pub_range,
        greatest: identity.greatest,
    })?;
    Ok(())
}

// The rules by which ranges are granted.
pub(crate) fn rules_of(alloc: Global, publication: &Publication) -> Result<Rules, NoMemory>
    requires { (resolvers : ℕ) × IsValid resolvers publication.now }
    ensures are { IfOk result (λ rules. rules ≡ rules_of publication.now) }
    ensures fit { IfOk result (λ rules. All IsRule rules) }
{
    let mut rules = Listing::empty(alloc);
    let articles = publication.articles.as_slice();
    for (place, article) in articles.iter().enumerate() {
        push_rule(place as u8, article, &mut rules)?;
    }
    Ok(rules)
}

// Holds no range yet of an article.
fn hold_none(place: u8, article: &Article, held: &mut Table<u8, Ranges>) -> Result<(), NoMemory>
    ensures { OnOk result (held.new.rows ≡ with_holder held.old.rows place article.now.identity) }
{
    if let Some(identity) = &article.identity {
        held.insert(place, Ranges::new(identity.threshold))?;
    }
    Ok(())
}

// The publisher's own ranges: none yet of any article with an identity column.
fn new_holders(alloc: Global, publication: &Publication) -> Result<Table<u8, Ranges>, NoMemory>
    requires { (resolvers : ℕ) × IsValid resolvers publication.now }
    ensures { IfOk result (λ held. held.rows ≡ new_holders publication.now) }
{
    let mut held = Table::new(alloc);
    let articles = publication.articles.as_slice();
    for (place, article) in articles.iter().enumerate() {
        hold_none(place as u8, article, &mut held)?;
    }
    Ok(held)
}

impl Publisher {
    /// No rows and no site that has joined. Each article with an identity column has no range yet.
    pub fn new(alloc: Global, publication: &Publication) -> Result<Publisher, NoMemory>
        requires { (resolvers : ℕ) × IsValid resolvers publication.now }
        ensures tables { IfOk result (λ publisher. tables_of publisher ≡ empty_publisher publication.now) }
        ensures publication { IfOk result (λ publisher. publication_of publisher ≡ publication.now) }
    {
        let membership = Membership::new(alloc, publication)?;
        let rules = rules_of(alloc, publication)?;
        let held = new_holders(alloc, publication)?;
        Ok(Publisher {
            alloc,
            membership,
            changed: GenerationIndex::new(alloc),
            moved: Table::new(alloc),
            rows: Table::new(alloc),
            mappings: Table::new(alloc),
            sites: Table::new(alloc),
            held,
            gens: GenerationBook::new(alloc),
            conflicts: ConflictTable::new(alloc),
            grants: RangeBook::new(alloc, rules),
            changes: 0,
            conflict_count: 0,
            latest: Moment(0),
        })
    }
}
