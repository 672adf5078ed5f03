//! The publisher forgets what is old.
ghost use Rattle.std.specs.Prelude.{◌≡◌, [], IfOk, count_by, filter, nat_lt, not};
ghost use Rattle.merge_table.specs.Edits.{takes_of};
ghost use Rattle.merge_gens.specs.Book.{book_after_purge};
ghost use Rattle.merge_model.specs.Publisher.PublisherPurge.{cutoff, purge};
ghost use Rattle.merge_pub.specs.After.{after};
ghost use Rattle.merge_pub.specs.Forgetting.{LeavesAll};
ghost use Rattle.merge_pub.specs.Held.{IsCompact, IsDrafted, publication_of, tables_of};
ghost use Rattle.merge_pub.specs.PurgeDrafts.{after_purge};
ghost use Rattle.merge_steps.specs.Purging.{is_old_mapping, is_old_row};

use crate::forgetting::Forgetting;
use crate::old_rows::{entry_takes, row_takes};
use crate::publisher::Publisher;
use merge_model::Forgotten;
use merge_steps::Draft;
use merge_types::{Listing, Moment, NoMemory};

const DAY_SECONDS: u64 = 86_400;

/// The changes of a purge: those of a step, and the moment before which the generations closed that
/// it forgets. The memory for them is taken.
#[derive(Drop)]
pub struct PurgeDraft {
    pub draft: Draft,
    pub cutoff: Moment,
}

impl Publisher {
    // The moment before which a generation is old: the retention and a day of grace ago.
    fn cutoff(&self, now: Moment) -> Moment
        ensures { result ≡ cutoff (publication_of self.now) (record (tables_of self.now) { latest = now }) }
    {
        let days = u64::from(self.publication().retention_days);
        Moment(now.0.saturating_sub(days * DAY_SECONDS + DAY_SECONDS))
    }

    // The edits by which all is forgotten that is old at the moment.
    fn old_edits(&self, cutoff: Moment) -> Result<Forgetting, NoMemory>
        ensures rows { IfOk result (λ edits. edits.rows ≡ takes_of (λ row. not (is_old_row (tables_of self.now).gens.closings cutoff row)) (tables_of self.now).rows) }
        ensures mappings { IfOk result (λ edits. edits.mappings ≡ takes_of (λ entry. not (is_old_mapping (tables_of self.now).gens.closings cutoff entry)) (tables_of self.now).mappings) }
        ensures sites { IfOk result (λ edits. edits.sites ≡ []) }
        ensures leaves { IfOk result (λ edits. LeavesAll self.now edits) }
    {
        self.rows.is_ordered();
        self.mappings.is_ordered();
        let gone = self.gone_entries(cutoff)?;
        let rows = row_takes(self.alloc, gone.as_slice())?;
        let entries = entry_takes(self.alloc, gone.as_slice())?;
        let mappings = self.old_mappings(cutoff)?;
        Ok(Forgetting {
            rows,
            entries,
            mappings,
            sites: Listing::empty(self.alloc),
        })
    }

    // Works out a purge, but for the closed generations that are forgotten, and how much it forgets.
    fn draft_old(&mut self, latest: Moment, cutoff: Moment) -> Result<(Draft, Forgotten), NoMemory>
        ensures made { IfOk result (λ d. after d.0.changes (tables_of self.old) ≡ record (tables_of self.old) { latest = latest; rows = filter (λ row. not (is_old_row (tables_of self.old).gens.closings cutoff row)) (tables_of self.old).rows; mappings = filter (λ entry. not (is_old_mapping (tables_of self.old).gens.closings cutoff entry)) (tables_of self.old).mappings }) }
        ensures forgotten { IfOk result (λ d. d.1 ≡ record { tombstones = count_by (is_old_row (tables_of self.old).gens.closings cutoff) (tables_of self.old).rows; mappings = count_by (is_old_mapping (tables_of self.old).gens.closings cutoff) (tables_of self.old).mappings; generations = count_by (λ closing. nat_lt closing.moment.0 cutoff.0) (tables_of self.old).gens.closings }) }
        ensures ready { IfOk result (λ d. IsDrafted self.new d.0) }
        ensures same { tables_of self.new ≡ tables_of self.old }
        ensures publication { publication_of self.new ≡ publication_of self.old }
    {
        self.rows.is_ordered();
        self.mappings.is_ordered();
        let edits = self.old_edits(cutoff)?;
        let rows = edits.rows.len() as u64;
        let mappings = edits.mappings.len() as u64;
        let forgotten = Forgotten {
            tombstones: rows,
            mappings,
            generations: self.gens.count_before(cutoff),
        };
        let draft = self.draft_forgetting(latest, edits)?;
        Ok((draft, forgotten))
    }

    /// Works out a purge, and how much it forgets: the tombstones of rows that died, the mappings of
    /// rows that left a partition, and the closed generations, where the generation closed longer ago
    /// than the retention and one day more. Live rows and their generations stay. The time grows with
    /// the rows and mappings that changed or moved last in the generations that it forgets, and with
    /// the closed generations that are kept.
    pub fn draft_purge(&mut self, now: Moment) -> Result<(PurgeDraft, Forgotten), NoMemory>
        ensures made { IfOk result (λ d. purge (publication_of self.old) now (tables_of self.old) ≡ (after_purge d.0 (tables_of self.old), d.1)) }
        ensures ready { IfOk result (λ d. IsDrafted self.new d.0.draft) }
        ensures same { tables_of self.new ≡ tables_of self.old }
        ensures publication { publication_of self.new ≡ publication_of self.old }
    {
        let latest = self.moment_at(now);
        let cutoff = self.cutoff(latest);
        let (draft, forgotten) = self.draft_old(latest, cutoff)?;
        Ok((PurgeDraft { draft, cutoff }, forgotten))
    }

    /// Makes the changes of a purge, whose draft is the last one that was made. No memory is taken,
    /// and spare memory goes back once it is the most.
    pub fn settle_purge(&mut self, purge: PurgeDraft)
        requires { IsDrafted self.old purge.draft }
        ensures tables { tables_of self.new ≡ after_purge purge (tables_of self.old) }
        ensures publication { publication_of self.new ≡ publication_of self.old }
        ensures compact { IsCompact self.new }
    {
        let PurgeDraft { draft, cutoff } = purge;
        self.settle(draft);
        self.forget_closings(cutoff);
    }

    // Forgets the generations that closed before the moment.
    fn forget_closings(&mut self, cutoff: Moment)
        ensures tables { tables_of self.new ≡ record (tables_of self.old) { gens = book_after_purge (tables_of self.old).gens cutoff } }
        ensures publication { publication_of self.new ≡ publication_of self.old }
        ensures compact { IsCompact self.old → IsCompact self.new }
    {
        self.gens.purge(cutoff);
    }
}
