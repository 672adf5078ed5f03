//! The publisher serves subscribers.
ghost use Rattle.std.specs.Prelude.{◌≡◌, ◌⊎◌, IfErr, IfOk, IfSome, List, Option, Some, length, ℕ};
ghost use Rattle.merge_ports.specs.Opened.{SameElsewhere};
ghost use Rattle.merge_resolve.specs.Asked.{says_at};
ghost use Rattle.merge_schema.specs.Valid.{IsValid};
ghost use Rattle.merge_program.specs.Files.{IsAccepted};
ghost use Rattle.merge_program.specs.Serving.{IsUnordered, ServeEnds, finish_status, publisher_site};

use crate::ending::Ending;
use crate::files::{publication_in, read_file};
use crate::finish::{Finish, finish_of};
use crate::order::Order;
use merge_outside::CommandOutside;
use merge_ports::{Outside, Sink};
use merge_resolve::Handed;
use merge_schema::Publication;
use merge_serve::{Door, Doors};
use merge_service::{Hours, serve_store};
use merge_types::{SiteId, Words};
use std::alloc::Global;
use std::mem;
use std::sync::Wait;
use std::thread::Threads;

// Reads the publication's file.
fn read_ordered<E: CommandOutside>(
    alloc: Global,
    path: &Words,
    resolvers: usize,
    outside: &mut E,
) -> Result<Publication, Ending>
    ensures read { IfOk result (λ publication. IfSome ((E.offers outside.old).texts path.now) (IsAccepted resolvers publication)) }
    ensures valid { IfOk result (λ publication. IsValid resolvers publication) }
    ensures ends { IfErr result (λ ending. IsUnordered ending ((E.offers outside.old).texts path.now) resolvers (E.counts outside.old).texts (E.counts outside.new).texts) }
    ensures told { E.told outside.new ≡ E.told outside.old }
    ensures stores { (E.counts outside.new).stores ≡ (E.counts outside.old).stores }
{
    let text = read_file(alloc, outside, path)?;
    let publication = publication_in(alloc, text.as_slice(), resolvers)?;
    Ok(publication)
}

/// The publisher serves as an order says. The publication's file is read whole first; then the
/// publisher starts at its store, with the resolvers, which are spent, and serves over a door. Its
/// keeper and its door are given back. It has one worker at least and no more than 16, whatever the
/// order says. It may wait.
pub fn serve<R: Threads + Wait + Sync, O: Sink, E: CommandOutside, T: Doors>(
    rt: &R,
    alloc: Global,
    order: &Order,
    resolvers: &mut Vec<Handed>,
    output: &mut O,
    outside: &mut E,
    doors: &mut T,
) -> Finish
where
    E::Keep: Send,
    E::Timer: Send,
    T::Opened: Send,
    <T::Opened as Door>::Input: Send,
    <T::Opened as Door>::Output: Send,
    ensures asked { (T.asked doors.new ≡ Some order.now.address) ⊎ (doors.new ≡ doors.old) }
    ensures reached { finish_status result ≡ 0 → T.asked doors.new ≡ Some order.now.address }
    ensures ends { (input : Option (List ℕ)) (reads failed : ℕ) → ServeEnds result order.now (length resolvers.old.items) (says_at (λ r. says r) resolvers.old.items) (record {
      input = input;
      offers = E.offers outside.old;
      behind = E.offers outside.new;
      stored = E.told outside.old;
      kept = E.told outside.new;
      was = O.written output.old;
      written = O.written output.new;
      old = E.counts outside.old;
      new = E.counts outside.new;
      writes = O.count output.old;
      refused = O.count output.new;
      reads = reads;
      failed = failed;
    }) (record { handed = T.handed doors.new; before = T.count doors.old; after = T.count doors.new }) }
    ensures others { SameElsewhere publisher_site order.now.store (E.told outside.old) (E.told outside.new) }
{
    let publication = match read_ordered(alloc, &order.publication, resolvers.len(), outside) {
        Ok(publication) => publication,
        Err(ending) => return Finish::Ended(ending),
    };
    let handed = mem::replace(resolvers, Vec::new(alloc));
    let served = serve_store(
        rt,
        alloc,
        outside,
        doors,
        &publication,
        SiteId(0),
        &order.store,
        &order.address,
        Hours {
            workers: order.workers.clamp(1, 16),
            requests: order.requests,
        },
        handed,
        output,
    );
    finish_of(served)
}
