//! A publisher that is elsewhere.
ghost use Rattle.std.specs.Prelude.{◌≡◌};

use merge_batch::{Refusal, Reply, Request};
use merge_conflict::ConflictRow;
use merge_gens::{Filling, SiteState};
use merge_ident::Grant;
use merge_model::Forgotten;
use merge_resolve::Handed;
use merge_schema::Publication;
use merge_table::Table;
use merge_types::{Change, Listing, Moment, NoMemory, RowId, RowKey, SiteId};
use merge_units::PublisherRow;
use merge_world::PublisherSite;
use std::alloc::Global;
use std::marker::Model;

/// What stands for the publisher in a world of which a subscriber alone is here: its publication is
/// known, and it has done nothing. The events of a subscriber never ask it for anything else. It has
/// nothing to change, so each call for that answers want of memory.
#[derive(Drop)]
pub struct Elsewhere {
    publication: Publication,
    // None.
    rows: Table<RowKey, PublisherRow>,
}

impl Model for Elsewhere {
    ghost use Rattle.std.specs.Coded.{codes};
    ghost use Rattle.std.specs.Prelude.{[], ◌≡◌};
    ghost use Rattle.merge_filter.specs.Code.{syntax_code};
    ghost use Rattle.merge_schema.specs.declared.publication.Publication.{Publication as Published};

    ghost Value = { Published };

    ghost coded = { Prim.hlevel (codes, syntax_code) };

    ghost view = { λ e. e.publication };

    ghost invariant = { λ e. e.rows.rows ≡ [] };
}

impl Elsewhere {
    /// The publisher of a publication.
    pub fn new(alloc: Global, publication: Publication) -> Self
        ensures { result ≡ publication }
    {
        Elsewhere {
            publication,
            rows: Table::new(alloc),
        }
    }
}

impl PublisherSite for Elsewhere {
    ghost use Rattle.merge_command.specs.Alone.{fresh_publisher};

    ghost view = { fresh_publisher };

    ghost Damage = { λ publication table key. ⊥ };

    fn local(&mut self, _now: Moment, _change: &Change) -> Result<RowId, Refusal> {
        Err(Refusal::NoMemory)
    }

    fn close_generation(&mut self, _now: Moment) -> Result<u64, Refusal> {
        Err(Refusal::NoMemory)
    }

    fn handle(
        &mut self,
        _resolvers: &mut Vec<Handed>,
        _now: Moment,
        _request: &Request,
    ) -> Result<Reply, Refusal> {
        Err(Refusal::NoMemory)
    }

    fn purge(&mut self, _now: Moment) -> Result<Forgotten, Refusal> {
        Err(Refusal::NoMemory)
    }

    fn restart(&mut self) -> Result<(), Refusal> {
        Ok(())
    }

    fn publication(&self) -> &Publication {
        &self.publication
    }

    fn rows(&self) -> &Table<RowKey, PublisherRow> {
        &self.rows
    }

    fn partition(&self, _site: SiteId) -> Result<Listing<RowKey>, NoMemory> {
        Err(NoMemory)
    }

    fn conflicts(&self) -> &[ConflictRow] {
        &[]
    }

    fn grants(&self) -> &[Grant] {
        &[]
    }

    fn filling(&self) -> Filling {
        Filling {
            last_closed: 0,
            filled: 0,
        }
    }

    fn kept(&self) -> u64 {
        0
    }

    fn site_state(&self, _site: SiteId) -> Option<SiteState> {
        None
    }
}
