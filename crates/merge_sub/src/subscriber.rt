//! The subscriber.
ghost use Rattle.std.specs.Prelude.{◌≡◌};
ghost use Rattle.merge_gens.specs.Book.{forgotten_if_any};
ghost use Rattle.merge_sub.specs.Drafts.{IsDrafted, after};
ghost use Rattle.merge_sub.specs.Held.{tables_of};

use crate::{Changes, Draft, State};
use merge_conflict::ConflictTable;
use merge_gens::{GenerationBook, GenerationIndex};
use merge_ident::Ranges;
use merge_schema::Publication;
use merge_table::Table;
use merge_types::{Moment, RowKey, SiteId};
use merge_units::SubscriberRow;
use std::alloc::Global;
use std::marker::Model;

/// A site that subscribes to a publication. It holds the rows of its partition and its own changes.
///
/// Each step is worked out first, with all memory for it and no change, and then put in place.
#[derive(Drop)]
pub struct Subscriber {
    pub(crate) alloc: Global,
    pub(crate) publication: Publication,
    pub(crate) site: SiteId,
    pub(crate) state: State,
    pub(crate) gens: GenerationBook,
    pub(crate) rows: Table<RowKey, SubscriberRow>,
    // The rows by the generations that they keep.
    pub(crate) unsent: GenerationIndex,
    pub(crate) conflicts: ConflictTable,
    pub(crate) held: Table<u8, Ranges>,
}

impl Model for Subscriber {
    ghost use Rattle.std.specs.Coded.{codes};
    ghost use Rattle.merge_filter.specs.Code.{syntax_code};
    ghost use Rattle.merge_gens.specs.Index.{index_code};
    ghost use Rattle.merge_sub.specs.Held.{Held, IsSound, tables_of};

    ghost Value = { Held };

    ghost coded = { Prim.hlevel (codes, syntax_code, index_code) };

    ghost view = { λ s. record { publication = s.publication; site = s.site; state = s.state; gens = s.gens; rows = s.rows; unsent = s.unsent; conflicts = s.conflicts; held = s.held } };

    ghost invariant = { λ s. IsSound s.publication (tables_of (record { publication = s.publication; site = s.site; state = s.state; gens = s.gens; rows = s.rows; unsent = s.unsent; conflicts = s.conflicts; held = s.held })) s.unsent.entries };
}

impl Subscriber {
    /// Puts the changes of a draft in place, with no memory taken. The subscriber is as the draft
    /// left it.
    pub fn settle(&mut self, draft: Draft)
        requires { IsDrafted self.old draft }
        ensures tables { tables_of self.new ≡ after draft.changes (tables_of self.old) }
        ensures publication { self.new.publication ≡ self.old.publication }
    {
        let Draft { changes, index } = draft;
        let Changes {
            state,
            gens,
            done,
            rows,
            held,
            conflicts,
        } = changes;
        self.unsent.settle(index);
        self.rows.apply_and_sweep(rows.into_vec());
        self.held.apply(held.into_vec());
        self.conflicts.settle(conflicts);
        self.gens.settle(gens);
        forget(&mut self.gens, done);
        self.state = state;
    }
}

// Forgets the kept generations up to one, where there is one.
fn forget(gens: &mut GenerationBook, up_to: Option<u64>)
    ensures { gens.new.book ≡ forgotten_if_any gens.old.book up_to }
{
    if let Some(up_to) = up_to {
        gens.forget(up_to);
    }
}
