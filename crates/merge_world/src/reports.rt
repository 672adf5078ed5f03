//! Reports: what a site is asked, and what it tells.
ghost use Rattle.std.specs.Prelude.{◌≡◌, IfOk, map, true};
ghost use Rattle.merge_model.specs.World.Events.{is_site};
ghost use Rattle.merge_model.specs.World.Reports.{sites_report};
ghost use Rattle.merge_model.specs.declared.event.Event.TheVariants as event;
ghost use Rattle.merge_model.specs.Script.Proper.{IsProperAnswer};
ghost use Rattle.merge_world.specs.Happenings.{Happened};
ghost use Rattle.merge_world.specs.Reports.{IsReport, held_of, publisher_told, subscriber_told, told_at};
ghost use Rattle.merge_world.specs.Views.{IsOrdered};

use crate::naming::article_by;
use crate::rows::{counts, shown};
use crate::sites::{PublisherSite, SubscriberSite};
use crate::world::{Seen, Sites};
use merge_batch::Refusal;
use merge_ident::Ranges;
use merge_model::{Answer, HeldRanges, SiteStanding};
use merge_schema::Publication;
use merge_table::Table;
use merge_types::{Exact, Listing, NoMemory, SiteId, Words};
use std::alloc::Global;

/// What a site is asked.
#[derive(Clone, Copy, Debug, PartialEq, Eq)]
pub enum Report {
    /// The live rows of an article.
    Rows(u8),
    Conflicts,
    Ranges,
    Generations,
    /// How many live rows each article has.
    Counts,
}

fn publisher_report<P: PublisherSite>(
    alloc: Global,
    publisher: &P,
    report: Report,
) -> Result<Answer, NoMemory>
    ensures told { IfOk result (λ answer. answer ≡ publisher_told (P.view publisher.now).publication report (P.view publisher.now).tables) }
    ensures printable { IfOk result IsProperAnswer }
{
    match report {
        Report::Rows(article) => Ok(Answer::Rows(shown(alloc, publisher.rows(), article)?)),
        Report::Conflicts => Ok(Answer::Conflicts(copies(alloc, publisher.conflicts())?)),
        Report::Ranges => Ok(Answer::Grants(copies(alloc, publisher.grants())?)),
        Report::Generations => Ok(Answer::OfPublisher {
            filling: publisher.filling(),
            kept: publisher.kept(),
            sites: standings(alloc, publisher)?,
        }),
        Report::Counts => Ok(Answer::Counts(counts(
            alloc,
            publisher.publication(),
            publisher.rows(),
        )?)),
    }
}

// What the publisher remembers of each subscription.
fn standings<P: PublisherSite>(
    alloc: Global,
    publisher: &P,
) -> Result<Listing<SiteStanding>, NoMemory>
    ensures { IfOk result (λ sites. sites ≡ sites_report (P.view publisher.now).publication (P.view publisher.now).tables) }
{
    let subscriptions = publisher.publication().subscriptions.as_slice();
    let mut sites = Listing::empty(alloc);
    for subscription in subscriptions {
        let site = subscription.site;
        sites.push(SiteStanding {
            site,
            state: publisher.site_state(site),
        })?;
    }
    Ok(sites)
}

fn subscriber_report<S: SubscriberSite>(
    alloc: Global,
    publication: &Publication,
    subscriber: &S,
    report: Report,
) -> Result<Answer, NoMemory>
    ensures told { IfOk result (λ answer. answer ≡ subscriber_told publication.now report (S.view subscriber.now).tables) }
    ensures printable { IfOk result IsProperAnswer }
{
    match report {
        Report::Rows(article) => Ok(Answer::Rows(shown(alloc, subscriber.rows(), article)?)),
        Report::Conflicts => Ok(Answer::Conflicts(copies(alloc, subscriber.conflicts())?)),
        Report::Ranges => Ok(Answer::Held(holdings(alloc, subscriber.held())?)),
        Report::Generations => Ok(Answer::OfSubscriber {
            marks: subscriber.marks(),
            unsent: subscriber.unsent(),
        }),
        Report::Counts => Ok(Answer::Counts(counts(alloc, publication, subscriber.rows())?)),
    }
}

// The ranges that are held, by article.
fn holdings(alloc: Global, held: &Table<u8, Ranges>) -> Result<Listing<HeldRanges>, NoMemory>
    ensures { IfOk result (λ ranges. ranges ≡ map held_of held.now.rows) }
{
    let mut holdings = Listing::empty(alloc);
    for (article, ranges) in held.iter() {
        holdings.push(HeldRanges {
            article: *article,
            ranges: *ranges,
        })?;
    }
    Ok(holdings)
}

// Equal members.
fn copies<T: Exact + Drop>(alloc: Global, items: &[T]) -> Result<Listing<T>, NoMemory>
    ensures { IfOk result (λ copies. copies ≡ items.now) }
{
    let mut copies = Listing::empty(alloc);
    for item in items {
        copies.push(item.clone()?)?;
    }
    Ok(copies)
}

impl<P: PublisherSite, S: SubscriberSite> Sites<P, S> {
    // What a site tells.
    fn told(&self, alloc: Global, site: SiteId, report: Report) -> Result<Answer, NoMemory>
        requires { IsOrdered (⟦<Sites<P, S> as Seen>⟧.seen self.now) }
        ensures told { IfOk result (λ answer. answer ≡ told_at (⟦<Sites<P, S> as Seen>⟧.seen self.now) site report) }
        ensures printable { IfOk result IsProperAnswer }
    {
        if site.0 == 0 {
            return publisher_report(alloc, &self.publisher, report);
        }
        match self.subscriber(site) {
            Some(subscriber) => {
                subscriber_report(alloc, self.publisher.publication(), subscriber, report)
            }
            None => Ok(Answer::Refused(Refusal::UnknownSite { site })),
        }
    }

    // The report of a site that there is.
    fn report(&self, alloc: Global, site: SiteId, report: Report) -> Answer
        requires ordered { IsOrdered (⟦<Sites<P, S> as Seen>⟧.seen self.now) }
        requires known { is_site (⟦<Sites<P, S> as Seen>⟧.seen self.now).publication site ≡ true }
        ensures happened { (e : _) (h : _) → IsReport (⟦<Sites<P, S> as Seen>⟧.seen self.now).publication report site e → Happened e (⟦<Sites<P, S> as Seen>⟧.seen self.now) (⟦<Sites<P, S> as Seen>⟧.seen self.now) h h result }
        ensures printable { IsProperAnswer result }
    {
        match self.told(alloc, site, report) {
            Ok(answer) => answer,
            Err(_) => Answer::Refused(Refusal::NoMemory),
        }
    }

    /// The live rows of an article at a site.
    pub fn show_event(&self, alloc: Global, site: SiteId, article: &Words) -> Answer
        requires { IsOrdered (⟦<Sites<P, S> as Seen>⟧.seen self.now) }
        ensures happened { (h : _) → Happened (event.Show site article.now) (⟦<Sites<P, S> as Seen>⟧.seen self.now) (⟦<Sites<P, S> as Seen>⟧.seen self.now) h h result }
        ensures printable { IsProperAnswer result }
    {
        match self.check_site(site) {
            Ok(()) => match article_by(self.publisher.publication(), article) {
                Ok(article) => self.report(alloc, site, Report::Rows(article)),
                Err(refusal) => Answer::Refused(refusal),
            },
            Err(refusal) => Answer::Refused(refusal),
        }
    }

    /// The rows of a subscriber's partition.
    pub fn partition_event(&self, site: SiteId) -> Answer
        requires { IsOrdered (⟦<Sites<P, S> as Seen>⟧.seen self.now) }
        ensures { (h : _) → Happened (event.Partition site) (⟦<Sites<P, S> as Seen>⟧.seen self.now) (⟦<Sites<P, S> as Seen>⟧.seen self.now) h h result }
    {
        match self.check_subscriber(site) {
            Ok(()) => match self.publisher.partition(site) {
                Ok(rows) => Answer::Partition(rows),
                Err(_) => Answer::Refused(Refusal::NoMemory),
            },
            Err(refusal) => Answer::Refused(refusal),
        }
    }

    /// The conflicts that a site keeps.
    pub fn conflicts_event(&self, alloc: Global, site: SiteId) -> Answer
        requires { IsOrdered (⟦<Sites<P, S> as Seen>⟧.seen self.now) }
        ensures happened { (h : _) → Happened (event.Conflicts site) (⟦<Sites<P, S> as Seen>⟧.seen self.now) (⟦<Sites<P, S> as Seen>⟧.seen self.now) h h result }
        ensures printable { IsProperAnswer result }
    {
        match self.check_site(site) {
            Ok(()) => self.report(alloc, site, Report::Conflicts),
            Err(refusal) => Answer::Refused(refusal),
        }
    }

    /// The ranges that the publisher granted, or that a subscriber holds.
    pub fn ranges_event(&self, alloc: Global, site: SiteId) -> Answer
        requires { IsOrdered (⟦<Sites<P, S> as Seen>⟧.seen self.now) }
        ensures { (h : _) → Happened (event.Ranges site) (⟦<Sites<P, S> as Seen>⟧.seen self.now) (⟦<Sites<P, S> as Seen>⟧.seen self.now) h h result }
    {
        match self.check_site(site) {
            Ok(()) => self.report(alloc, site, Report::Ranges),
            Err(refusal) => Answer::Refused(refusal),
        }
    }

    /// How far a site is.
    pub fn generations_event(&self, alloc: Global, site: SiteId) -> Answer
        requires { IsOrdered (⟦<Sites<P, S> as Seen>⟧.seen self.now) }
        ensures { (h : _) → Happened (event.Generations site) (⟦<Sites<P, S> as Seen>⟧.seen self.now) (⟦<Sites<P, S> as Seen>⟧.seen self.now) h h result }
    {
        match self.check_site(site) {
            Ok(()) => self.report(alloc, site, Report::Generations),
            Err(refusal) => Answer::Refused(refusal),
        }
    }

    /// How many live rows each article has at a site.
    pub fn count_event(&self, alloc: Global, site: SiteId) -> Answer
        requires { IsOrdered (⟦<Sites<P, S> as Seen>⟧.seen self.now) }
        ensures { (h : _) → Happened (event.Count site) (⟦<Sites<P, S> as Seen>⟧.seen self.now) (⟦<Sites<P, S> as Seen>⟧.seen self.now) h h result }
    {
        match self.check_site(site) {
            Ok(()) => self.report(alloc, site, Report::Counts),
            Err(refusal) => Answer::Refused(refusal),
        }
    }
}
