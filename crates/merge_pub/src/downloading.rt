//! A site asks for what was touched.
ghost use Rattle.std.specs.Prelude.{◌≡◌, ◌<◌, ◌≤◌, ◌⊎◌, Err, IfOk, Ok, OnOk, Some};
ghost use Rattle.merge_types.specs.Limits.{counter_limit, number_limit};
ghost use Rattle.merge_batch.specs.declared.refusal.Refusal.{Refusal as OneRefusal};
ghost use Rattle.merge_batch.specs.declared.refusal.Refusal.TheVariants.{NoMemory as no_memory};
ghost use Rattle.merge_model.specs.Judge.ByNumbers.{by_numbers};
ghost use Rattle.merge_model.specs.Tables.Keys.{at_number};
ghost use Rattle.merge_model.specs.Publisher.{tables_after_close};
ghost use Rattle.merge_model.specs.Publisher.PublisherDownload.{download, download_refusal, in_step, reply_to, state_after_download};
ghost use Rattle.merge_pub.specs.After.{after};
ghost use Rattle.merge_pub.specs.Held.{IsDrafted, publication_of, tables_of};
ghost use Rattle.merge_pub.specs.Refused.{RefusesAs, refusal_of};

use crate::closing::counters_go_on;
use crate::publisher::Publisher;
use merge_batch::{Download, Downloaded, Refusal};
use merge_gens::SiteState;
use merge_steps::Draft;
use merge_types::{Moment, NoMemory};

impl Publisher {
    // Refuses what is refused of every request, a site that asks for what lies above the last closed
    // generation, and a step past the limit of a counter. Gives what is remembered of the site.
    fn check_download(&self, now: Moment, m: &Download) -> Result<SiteState, Refusal>
        ensures state { IfOk result (λ state. at_number (tables_of self.now).sites m.now.site.0 ≡ Some state) }
        ensures refusal { refusal_of result ≡ download_refusal (publication_of self.now) now m.now (tables_of self.now) }
        ensures order { OnOk result (m.now.from ≤ self.now.gens.book.filling.last_closed) }
        ensures low { OnOk result (self.now.gens.book.filling.last_closed < counter_limit) }
    {
        let state = self.check_site(now, m.site, m.seq)?;
        let last = self.gens.last_closed();
        if last < m.from {
            return Err(Refusal::WrongWatermark { from: m.from, last });
        }
        counters_go_on(self.changes, last, self.conflict_count)?;
        Ok(state)
    }

    // The last closed generation once the open one closes.
    fn last_after_closing(&self) -> u64
        requires { self.now.gens.book.filling.last_closed < counter_limit }
        ensures last { result ≡ (tables_after_close (tables_of self.now)).gens.filling.last_closed }
        ensures onward { self.now.gens.book.filling.last_closed ≤ result }
        ensures low { result < number_limit }
    {
        if self.gens.filled() == 0 {
            return self.gens.last_closed();
        }
        self.gens.last_closed() + 1
    }

    // What the site is told once the open generation has closed, of which the publisher has taken
    // the generations up to `received`.
    fn reply(&self, m: &Download, received: u64) -> Result<Downloaded, NoMemory>
        requires order { m.now.from ≤ self.now.gens.book.filling.last_closed }
        requires low { self.now.gens.book.filling.last_closed < counter_limit }
        ensures { IfOk result (λ reply. received ≡ (by_numbers (tables_of self.now)).received m.now.site.0 → reply ≡ reply_to (publication_of self.now) (by_numbers (tables_of self.now)) m.now (tables_after_close (tables_of self.now))) }
    {
        let last = self.last_after_closing();
        let to = self.batch_end(m.site, m.from, last)?;
        let items = self.items(m.site, m.from, to)?;
        Ok(Downloaded {
            seq: m.seq,
            from: m.from,
            to,
            last,
            received,
            items,
        })
    }

    // Up to when a site that asks is in step at this moment: up to the moment itself, where it holds
    // all closed generations and the open one is empty, and else up to when the last of those that it
    // holds closed.
    pub(crate) fn in_step(&self, m: &Download, latest: Moment) -> u64
        ensures { result ≡ in_step m.now (record (tables_of self.now) { latest = latest }) }
    {
        if m.from == self.gens.last_closed() && self.gens.filled() == 0 {
            return latest.0;
        }
        self.gens.closed_at(m.from).unwrap_or(0)
    }

    // What is remembered of a site that asks: it holds the generations up to the one that it asks
    // from.
    fn synced(&self, m: &Download, latest: Moment, state: SiteState) -> SiteState
        ensures { result ≡ state_after_download m.now (record (tables_of self.now) { latest = latest }) state }
    {
        SiteState {
            watermark: state.watermark.max(m.from),
            last_sync: state.last_sync.max(self.in_step(m, latest)),
            ..state
        }
    }

    /// Works out a request for a download, and what the site is told. The time grows with the rows
    /// that changed in the generations that the reply reaches over, or moved for the site in them,
    /// and in one more.
    pub fn draft_download(
        &mut self,
        now: Moment,
        m: &Download,
    ) -> Result<(Draft, Downloaded), Refusal>
        ensures made { IfOk result (λ d. download (publication_of self.old) (by_numbers (tables_of self.old)) now m.now (tables_of self.old) ≡ Ok (after d.0.changes (tables_of self.old), d.1)) }
        ensures ready { IfOk result (λ d. IsDrafted self.new d.0) }
        ensures refused { (refusal : OneRefusal) → result ≡ Err refusal → (refusal ≡ no_memory) ⊎ (download (publication_of self.old) (by_numbers (tables_of self.old)) now m.now (tables_of self.old) ≡ Err refusal) }
        ensures refuses { RefusesAs (download (publication_of self.old) (by_numbers (tables_of self.old)) now m.now (tables_of self.old)) result }
        ensures same { tables_of self.new ≡ tables_of self.old }
        ensures publication { publication_of self.new ≡ publication_of self.old }
    {
        let state = self.check_download(now, m)?;
        let reply = self.reply(m, state.received)?;
        let latest = self.moment_at(now);
        let draft = self.draft_closing(latest, m.site, self.synced(m, latest, state))?;
        Ok((draft, reply))
    }
}
