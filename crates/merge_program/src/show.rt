//! The rows of an article at one site are shown.
ghost use Rattle.std.specs.Prelude.{◌≡◌, ◌≢◌, IfErr, IfOk, List, Ok, Option, ℕ, true};
ghost use Rattle.merge_ports.specs.Opened.{SameElsewhere};
ghost use Rattle.merge_schema.specs.Valid.{IsValid};
ghost use Rattle.merge_model.specs.World.Events.{is_site};
ghost use Rattle.merge_model.specs.World.Naming.{article_by};
ghost use Rattle.merge_world.specs.Views.{IsOrdered};
ghost use Rattle.merge_program.specs.Files.{IsNamed, IsUnnamed};
ghost use Rattle.merge_program.specs.Showing.{RowsEnd, ShowEnds, ShownBy};
ghost use Rattle.merge_program.specs.Stopping.{shown_by};

use crate::alone::{close_publisher, close_subscriber, open_publisher, open_subscriber};
use crate::command::Place;
use crate::ending::Ending;
use crate::files::{check_article, check_site, publication_in, read_file};
use merge_command::{Unwritten, show_rows};
use merge_outside::CommandOutside;
use merge_ports::{Outside, Sink};
use merge_schema::Publication;
use merge_types::{SiteId, Words};
use merge_world::{PublisherSite, Seen, Sites, SubscriberSite};
use std::alloc::Global;

// How a run ends by how the rows were written.
fn ending_of(shown: Result<(), Unwritten>) -> Ending
    ensures { result ≡ shown_by shown }
{
    match shown {
        Ok(()) => Ending::Done,
        Err(Unwritten::WriteFault) => Ending::WriteFault,
        Err(Unwritten::NoMemory) => Ending::NoMemory,
    }
}

// The rows of an article at a site, while all others are elsewhere.
fn show_sites<P: PublisherSite, S: SubscriberSite, O: Sink>(
    alloc: Global,
    sites: &Sites<P, S>,
    site: SiteId,
    article: &Words,
    output: &mut O,
) -> Ending
    requires ordered { IsOrdered (⟦<Sites<P, S> as Seen>⟧.seen sites.now) }
    requires known { is_site (⟦<Sites<P, S> as Seen>⟧.seen sites.now).publication site ≡ true }
    requires named { (place : ℕ) × (article_by (⟦<Sites<P, S> as Seen>⟧.seen sites.now).publication article.now ≡ Ok place) }
    ensures { (place : ℕ) → article_by (⟦<Sites<P, S> as Seen>⟧.seen sites.now).publication article.now ≡ Ok place
        → RowsEnd result site place (⟦<Sites<P, S> as Seen>⟧.seen sites.now) (O.written output.old) (O.written output.new) (O.count output.old) (O.count output.new) }
{
    let shown = show_rows(alloc, sites, site, article, output);
    ending_of(shown)
}

// The same of the publisher, which starts at its store.
fn show_publisher<O: Sink, E: Outside>(
    alloc: Global,
    publication: &Publication,
    place: &Place,
    article: &Words,
    output: &mut O,
    outside: &mut E,
) -> Ending
    requires valid { (resolvers : ℕ) × IsValid resolvers publication.now }
    requires publishes { place.now.site.0 ≡ 0 }
    requires known { is_site publication.now place.now.site ≡ true }
    requires named { (place : ℕ) × (article_by publication.now article.now ≡ Ok place) }
    ensures ends { ShownBy result publication.now place.now.site article.now (E.told outside.old place.now.site place.now.store)
        (record { was = O.written output.old; written = O.written output.new; before = (E.counts outside.old).stores; after = (E.counts outside.new).stores }) (E.told outside.new place.now.site place.now.store)
        (O.count output.old) (O.count output.new) }
    ensures others { SameElsewhere place.now.site place.now.store (E.told outside.old) (E.told outside.new) }
{
    let site = place.site;
    let sites = match open_publisher(alloc, outside, &place.store, publication, site) {
        Ok(sites) => sites,
        Err(ending) => return ending,
    };
    let ending = show_sites(alloc, &sites, site, article, output);
    close_publisher(outside, &place.store, site, sites);
    ending
}

// The same of a subscriber, which starts at its store.
fn show_subscriber<O: Sink, E: Outside>(
    alloc: Global,
    publication: &Publication,
    place: &Place,
    article: &Words,
    output: &mut O,
    outside: &mut E,
) -> Ending
    requires valid { (resolvers : ℕ) × IsValid resolvers publication.now }
    requires subscribes { place.now.site.0 ≢ 0 }
    requires known { is_site publication.now place.now.site ≡ true }
    requires named { (place : ℕ) × (article_by publication.now article.now ≡ Ok place) }
    ensures ends { ShownBy result publication.now place.now.site article.now (E.told outside.old place.now.site place.now.store)
        (record { was = O.written output.old; written = O.written output.new; before = (E.counts outside.old).stores; after = (E.counts outside.new).stores }) (E.told outside.new place.now.site place.now.store)
        (O.count output.old) (O.count output.new) }
    ensures others { SameElsewhere place.now.site place.now.store (E.told outside.old) (E.told outside.new) }
{
    let site = place.site;
    let sites = match open_subscriber(alloc, outside, &place.store, publication, site) {
        Ok(sites) => sites,
        Err(ending) => return ending,
    };
    let ending = show_sites(alloc, &sites, site, article, output);
    close_subscriber(outside, &place.store, site, sites);
    ending
}

// The rows of an article at the site of a place.
fn show_site<O: Sink, E: Outside>(
    alloc: Global,
    publication: &Publication,
    place: &Place,
    article: &Words,
    output: &mut O,
    outside: &mut E,
) -> Ending
    requires valid { (resolvers : ℕ) × IsValid resolvers publication.now }
    requires known { is_site publication.now place.now.site ≡ true }
    requires named { (place : ℕ) × (article_by publication.now article.now ≡ Ok place) }
    ensures ends { ShownBy result publication.now place.now.site article.now (E.told outside.old place.now.site place.now.store)
        (record { was = O.written output.old; written = O.written output.new; before = (E.counts outside.old).stores; after = (E.counts outside.new).stores }) (E.told outside.new place.now.site place.now.store)
        (O.count output.old) (O.count output.new) }
    ensures others { SameElsewhere place.now.site place.now.store (E.told outside.old) (E.told outside.new) }
{
    if place.site.0 == 0 {
        show_publisher(alloc, publication, place, article, output, outside)
    } else {
        show_subscriber(alloc, publication, place, article, output, outside)
    }
}

// Reads the publication's file, and looks for the site and the article.
fn read_named<E: CommandOutside>(
    alloc: Global,
    place: &Place,
    article: &Words,
    resolvers: usize,
    outside: &mut E,
) -> Result<Publication, Ending>
    ensures named { IfOk result (λ publication. (n : ℕ) × IsNamed ((E.offers outside.old).texts place.now.publication) resolvers place.now.site article.now publication n) }
    ensures valid { IfOk result (λ publication. IsValid resolvers publication) }
    ensures ends { IfErr result (λ ending. IsUnnamed ending ((E.offers outside.old).texts place.now.publication) resolvers place.now.site article.now (E.counts outside.old).texts (E.counts outside.new).texts) }
    ensures offers { E.offers outside.new ≡ E.offers outside.old }
    ensures told { E.told outside.new ≡ E.told outside.old }
    ensures stores { (E.counts outside.new).stores ≡ (E.counts outside.old).stores }
    ensures links { (E.counts outside.new).links ≡ (E.counts outside.old).links }
{
    let text = read_file(alloc, outside, &place.publication)?;
    let publication = publication_in(alloc, text.as_slice(), resolvers)?;
    check_site(&publication, place.site)?;
    check_article(&publication, article)?;
    Ok(publication)
}

/// Shows the rows of an article at the site of a place. The publication's file is read whole first;
/// then the site starts at its store, and its keeper is given back.
pub fn show<O: Sink, E: CommandOutside>(
    alloc: Global,
    place: &Place,
    article: &Words,
    resolvers: usize,
    output: &mut O,
    outside: &mut E,
) -> Ending
    ensures ends { (input : Option (List ℕ)) (reads failed : ℕ) → ShowEnds result place.now article.now resolvers (record {
      input = input;
      offers = E.offers outside.old;
      behind = E.offers outside.new;
      stored = E.told outside.old;
      kept = E.told outside.new;
      was = O.written output.old;
      written = O.written output.new;
      old = E.counts outside.old;
      new = E.counts outside.new;
      writes = O.count output.old;
      refused = O.count output.new;
      reads = reads;
      failed = failed;
    }) }
    ensures others { SameElsewhere place.now.site place.now.store (E.told outside.old) (E.told outside.new) }
{
    match read_named(alloc, place, article, resolvers, outside) {
        Ok(publication) => show_site(alloc, &publication, place, article, output, outside),
        Err(ending) => ending,
    }
}
