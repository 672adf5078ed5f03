//! A subscriber that holds nothing yet.
ghost use Rattle.std.specs.Prelude.{◌≡◌, ◌≤◌, ℕ, false, None, IfOk, OnOk, length};
ghost use Rattle.merge_schema.specs.Valid.{IsValid};
ghost use Rattle.merge_model.specs.Subscriber.{empty_subscriber};
ghost use Rattle.merge_sub.specs.Begin.{holders_from, with_ranges};
ghost use Rattle.merge_sub.specs.Held.{tables_of};

use crate::{State, Subscriber};
use merge_conflict::ConflictTable;
use merge_gens::{GenerationBook, GenerationIndex};
use merge_ident::Ranges;
use merge_schema::{Article, Identity, Publication};
use merge_table::Table;
use merge_types::{Moment, NoMemory, SiteId};
use std::alloc::Global;

impl Subscriber {
    /// A site that has not joined, with no row and no range.
    pub fn new(
        alloc: Global,
        publication: Publication,
        site: SiteId,
    ) -> Result<Subscriber, NoMemory>
        requires { (resolvers : ℕ) × IsValid resolvers publication }
        ensures tables { IfOk result (λ subscriber. tables_of subscriber ≡ empty_subscriber publication site) }
        ensures publication { IfOk result (λ subscriber. subscriber.publication ≡ publication) }
    {
        let held = new_ranges(alloc, publication.articles.as_slice())?;
        Ok(Subscriber {
            alloc,
            publication,
            site,
            state: State::new(),
            gens: GenerationBook::new(alloc),
            rows: Table::new(alloc),
            unsent: GenerationIndex::new(alloc),
            conflicts: ConflictTable::new(alloc),
            held,
        })
    }
}

impl State {
    // Nothing was done yet.
    fn new() -> State
        ensures { result ≡ record { changes = 0; conflict_count = 0; latest = record { 0 = 0 }; seq = 0; outstanding = None; received = 0; watermark = 0; is_joined = false } }
    {
        State {
            changes: 0,
            conflict_count: 0,
            latest: Moment(0),
            seq: 0,
            outstanding: None,
            received: 0,
            watermark: 0,
            is_joined: false,
        }
    }
}

// Each article with an identity column begins with no range.
fn new_ranges(alloc: Global, articles: &[Article]) -> Result<Table<u8, Ranges>, NoMemory>
    requires { length articles.now ≤ 32 }
    ensures { IfOk result (λ held. held.rows ≡ holders_from 0 articles.now) }
{
    let mut held = Table::new(alloc);
    for (place, article) in articles.iter().enumerate() {
        add_ranges(&mut held, place as u8, article.identity)?;
    }
    Ok(held)
}

// Adds the ranges of an article, where it has an identity column.
fn add_ranges(
    held: &mut Table<u8, Ranges>,
    place: u8,
    identity: Option<Identity>,
) -> Result<(), NoMemory>
    ensures { OnOk result (held.new.rows ≡ with_ranges place identity held.old.rows) }
{
    if let Some(identity) = identity {
        held.insert(place, Ranges::new(identity.threshold))?;
    }
    Ok(())
}
