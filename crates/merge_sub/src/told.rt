//! What a subscriber tells of itself.
ghost use Rattle.std.specs.Prelude.{◌≡◌};
ghost use Rattle.merge_model.specs.World.Reports.{marks_of, outstanding_of, unsent_count};
ghost use Rattle.merge_sub.specs.Held.{tables_of};

use crate::Subscriber;
use crate::counting::count_changed;
use merge_conflict::ConflictRow;
use merge_gens::Marks;
use merge_ident::Ranges;
use merge_schema::Publication;
use merge_table::Table;
use merge_types::{RowKey, SiteId};
use merge_units::SubscriberRow;

impl Subscriber {
    pub fn publication(&self) -> &Publication
        ensures { result.now ≡ self.now.publication }
    {
        &self.publication
    }

    pub fn site(&self) -> SiteId
        ensures { result ≡ (tables_of self.now).site }
    {
        self.site
    }

    /// Whether the site has joined. Only one that has takes changes and asks for rows.
    pub fn is_joined(&self) -> bool
        ensures { result ≡ (tables_of self.now).is_joined }
    {
        self.state.is_joined
    }

    /// How many changes the site made.
    pub fn changes(&self) -> u64
        ensures { result ≡ (tables_of self.now).changes }
    {
        self.state.changes
    }

    /// Where the site stands with its generations and its messages.
    pub fn marks(&self) -> Marks
        ensures { result ≡ marks_of (tables_of self.now) }
    {
        Marks {
            closed: self.gens.last_closed(),
            filled: self.gens.filled(),
            received: self.state.received,
            watermark: self.state.watermark,
            seq: self.state.seq,
            outstanding: self.outstanding(),
        }
    }

    /// The own versions that were discarded, by number.
    pub fn conflicts(&self) -> &[ConflictRow]
        ensures { result.now ≡ (tables_of self.now).conflicts }
    {
        self.conflicts.rows()
    }

    /// The rows that the site holds.
    pub fn rows(&self) -> &Table<RowKey, SubscriberRow>
        ensures { result.now.rows ≡ (tables_of self.now).rows }
    {
        &self.rows
    }

    /// The identity ranges that are held, by article.
    pub fn held(&self) -> &Table<u8, Ranges>
        ensures { result.now.rows ≡ (tables_of self.now).held }
    {
        &self.held
    }

    /// How many rows have a change that was not sent. No memory is taken. The time grows with the
    /// generations that these rows keep.
    #[tactic(auto, using(crate::proofs::Counted::unsent_counted))]
    pub fn unsent(&self) -> u64
        ensures { result ≡ unsent_count (tables_of self.now) }
    {
        let open = self.gens.last_closed() + 1;
        count_changed(&self.unsent, &self.rows, self.state.received, open)
    }

    // The number of the outstanding message, 0 where none is.
    fn outstanding(&self) -> u64
        ensures { result ≡ outstanding_of (tables_of self.now) }
    {
        match self.state.outstanding {
            Some((seq, _)) => seq,
            None => 0,
        }
    }
}
