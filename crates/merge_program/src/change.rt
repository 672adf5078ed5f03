//! A script changes one site.
ghost use Rattle.std.specs.Prelude.{◌≡◌, ◌≢◌, ◌≤◌, IfErr, IfOk, ℕ, length, true};
ghost use Rattle.merge_script.specs.Lines.{lines_of};
ghost use Rattle.merge_ports.specs.Opened.{SameElsewhere};
ghost use Rattle.merge_schema.specs.Valid.{IsValid};
ghost use Rattle.merge_model.specs.World.Events.{is_site};
ghost use Rattle.merge_world.specs.Views.{IsOrdered};
ghost use Rattle.merge_command.specs.Changed.{ChangedInPart};
ghost use Rattle.merge_program.specs.Changing.{ChangeEnds, LinesEnd, SiteEnds};
ghost use Rattle.merge_program.specs.Files.{IsGiven, IsUngiven};
ghost use Rattle.merge_program.specs.Stopping.{changed_by};
ghost use Rattle.merge_types.specs.Limits.{input_limit};

use crate::alone::{close_publisher, close_subscriber, open_publisher, open_subscriber};
use crate::command::Place;
use crate::ending::Ending;
use crate::files::{check_site, publication_in, read_file, read_input};
use merge_command::{Stop, Unwritten, change_lines};
use merge_link::Clock;
use merge_outside::CommandOutside;
use merge_ports::{Outside, Sink, Source};
use merge_schema::Publication;
use merge_types::{Octets, SiteId};
use merge_world::{PublisherSite, Seen, Sites, SubscriberSite};
use std::alloc::Global;

// How a run ends by how the lines of its script did.
fn ending_of(changed: Result<(), Stop>) -> Ending
    ensures { result ≡ changed_by changed }
{
    match changed {
        Ok(()) => Ending::Done,
        Err(Stop::NoEvent { line, word }) => Ending::NoEvent { line, word },
        Err(Stop::NotTaken { line }) => Ending::NotTaken { line },
        Err(Stop::Unwritten(Unwritten::WriteFault)) => Ending::WriteFault,
        Err(Stop::Unwritten(Unwritten::NoMemory)) => Ending::NoMemory,
    }
}

// The lines of a script change a site, while all others are elsewhere.
fn change_sites<P: PublisherSite, S: SubscriberSite, C: Clock, O: Sink>(
    alloc: Global,
    sites: &mut Sites<P, S>,
    site: SiteId,
    clock: &mut C,
    script: &[u8],
    output: &mut O,
) -> Ending
    requires ordered { IsOrdered (⟦<Sites<P, S> as Seen>⟧.seen sites.old) }
    requires short { length script.now ≤ input_limit }
    ensures ends { LinesEnd result site (lines_of script.now) (⟦<Sites<P, S> as Seen>⟧.seen sites.old) (⟦<Sites<P, S> as Seen>⟧.seen sites.new) (C.told clock.old) (C.told clock.new)
        (O.written output.old) (O.written output.new) (O.count output.old) (O.count output.new) }
    ensures part { ChangedInPart site (lines_of script.now) (⟦<Sites<P, S> as Seen>⟧.seen sites.old) (⟦<Sites<P, S> as Seen>⟧.seen sites.new) (C.told clock.old) (C.told clock.new) (O.written output.old) (O.written output.new) }
{
    let changed = change_lines(alloc, sites, site, clock, script, output);
    ending_of(changed)
}

// The same of the publisher, which starts at its store.
fn change_publisher<C: Clock, O: Sink, E: Outside>(
    alloc: Global,
    publication: &Publication,
    place: &Place,
    clock: &mut C,
    script: &[u8],
    output: &mut O,
    outside: &mut E,
) -> Ending
    requires valid { (resolvers : ℕ) × IsValid resolvers publication.now }
    requires publishes { place.now.site.0 ≡ 0 }
    requires short { length script.now ≤ input_limit }
    ensures ends { SiteEnds result publication.now place.now.site (E.told outside.old place.now.site place.now.store) (lines_of script.now) (C.told clock.old)
        (record { was = O.written output.old; written = O.written output.new; before = (E.counts outside.old).stores; after = (E.counts outside.new).stores }) (E.told outside.new place.now.site place.now.store)
        (O.count output.old) (O.count output.new) }
    ensures others { SameElsewhere place.now.site place.now.store (E.told outside.old) (E.told outside.new) }
{
    let site = place.site;
    let mut sites = match open_publisher(alloc, outside, &place.store, publication, site) {
        Ok(sites) => sites,
        Err(ending) => return ending,
    };
    let ending = change_sites(alloc, &mut sites, site, clock, script, output);
    close_publisher(outside, &place.store, site, sites);
    ending
}

// The same of a subscriber, which starts at its store.
fn change_subscriber<C: Clock, O: Sink, E: Outside>(
    alloc: Global,
    publication: &Publication,
    place: &Place,
    clock: &mut C,
    script: &[u8],
    output: &mut O,
    outside: &mut E,
) -> Ending
    requires valid { (resolvers : ℕ) × IsValid resolvers publication.now }
    requires subscribes { place.now.site.0 ≢ 0 }
    requires known { is_site publication.now place.now.site ≡ true }
    requires short { length script.now ≤ input_limit }
    ensures ends { SiteEnds result publication.now place.now.site (E.told outside.old place.now.site place.now.store) (lines_of script.now) (C.told clock.old)
        (record { was = O.written output.old; written = O.written output.new; before = (E.counts outside.old).stores; after = (E.counts outside.new).stores }) (E.told outside.new place.now.site place.now.store)
        (O.count output.old) (O.count output.new) }
    ensures others { SameElsewhere place.now.site place.now.store (E.told outside.old) (E.told outside.new) }
{
    let site = place.site;
    let mut sites = match open_subscriber(alloc, outside, &place.store, publication, site) {
        Ok(sites) => sites,
        Err(ending) => return ending,
    };
    let ending = change_sites(alloc, &mut sites, site, clock, script, output);
    close_subscriber(outside, &place.store, site, sites);
    ending
}

// The site of a place is changed, each event at a moment of the clock.
fn change_site<C: Clock, O: Sink, E: Outside>(
    alloc: Global,
    publication: &Publication,
    place: &Place,
    clock: &mut C,
    script: &[u8],
    output: &mut O,
    outside: &mut E,
) -> Ending
    requires valid { (resolvers : ℕ) × IsValid resolvers publication.now }
    requires known { is_site publication.now place.now.site ≡ true }
    requires short { length script.now ≤ input_limit }
    ensures ends { SiteEnds result publication.now place.now.site (E.told outside.old place.now.site place.now.store) (lines_of script.now) (C.told clock.old)
        (record { was = O.written output.old; written = O.written output.new; before = (E.counts outside.old).stores; after = (E.counts outside.new).stores }) (E.told outside.new place.now.site place.now.store)
        (O.count output.old) (O.count output.new) }
    ensures others { SameElsewhere place.now.site place.now.store (E.told outside.old) (E.told outside.new) }
{
    if place.site.0 == 0 {
        change_publisher(alloc, publication, place, clock, script, output, outside)
    } else {
        change_subscriber(alloc, publication, place, clock, script, output, outside)
    }
}

// Reads the publication's file and then the input, and looks for the site.
fn read_given<I: Source, E: CommandOutside>(
    alloc: Global,
    place: &Place,
    resolvers: usize,
    input: &mut I,
    outside: &mut E,
) -> Result<(Publication, Octets), Ending>
    ensures given { IfOk result (λ given. IsGiven ((E.offers outside.old).texts place.now.publication) (I.left input.old) resolvers place.now.site given.0 given.1) }
    ensures fits { IfOk result (λ given. length given.1 ≤ input_limit) }
    ensures valid { IfOk result (λ given. IsValid resolvers given.0) }
    ensures ends { IfErr result (λ ending. IsUngiven ending ((E.offers outside.old).texts place.now.publication) (I.left input.old) resolvers place.now.site
        (E.counts outside.old).texts (E.counts outside.new).texts (I.count input.old) (I.count input.new)) }
    ensures offers { E.offers outside.new ≡ E.offers outside.old }
    ensures told { E.told outside.new ≡ E.told outside.old }
    ensures stores { (E.counts outside.new).stores ≡ (E.counts outside.old).stores }
    ensures counted { result ≢ Err Ending.ReadFault → I.count input.new ≡ I.count input.old }
    ensures links { (E.counts outside.new).links ≡ (E.counts outside.old).links }
{
    let text = read_file(alloc, outside, &place.publication)?;
    let script = read_input(alloc, input)?;
    let publication = publication_in(alloc, text.as_slice(), resolvers)?;
    check_site(&publication, place.site)?;
    Ok((publication, script))
}

/// Changes the site of a place by the script of the input. The publication's file and the input are
/// read whole first; then the site starts at its store, and is changed line by line, each event at
/// the moment of the clock. Its keeper is given back.
pub fn change<I: Source, O: Sink, E: CommandOutside>(
    alloc: Global,
    place: &Place,
    resolvers: usize,
    input: &mut I,
    output: &mut O,
    outside: &mut E,
) -> Ending
    ensures ends { ChangeEnds result place.now resolvers (record {
      input = I.left input.old;
      offers = E.offers outside.old;
      behind = E.offers outside.new;
      stored = E.told outside.old;
      kept = E.told outside.new;
      was = O.written output.old;
      written = O.written output.new;
      old = E.counts outside.old;
      new = E.counts outside.new;
      writes = O.count output.old;
      refused = O.count output.new;
      reads = I.count input.old;
      failed = I.count input.new;
    }) }
    ensures counted { result ≢ Ending.ReadFault → I.count input.new ≡ I.count input.old }
    ensures others { SameElsewhere place.now.site place.now.store (E.told outside.old) (E.told outside.new) }
{
    match read_given(alloc, place, resolvers, input, outside) {
        Ok((publication, script)) => {
            let mut clock = outside.clock();
            change_site(
                alloc,
                &publication,
                place,
                &mut clock,
                script.as_slice(),
                output,
                outside,
            )
        }
        Err(ending) => ending,
    }
}
