//! The rows of one article of one site.
ghost use Rattle.std.specs.Io.KnownBytes.{Appends};
ghost use Rattle.std.specs.Prelude.{◌≡◌, ◌≤◌, Err, Ok, OnErr, OnOk, true, ℕ};
ghost use Rattle.merge_ports.specs.Faults.{Rose};
ghost use Rattle.merge_ports.specs.Parts.{AppendsFront};
ghost use Rattle.merge_model.specs.World.Events.{is_site};
ghost use Rattle.merge_model.specs.World.Naming.{article_by};
ghost use Rattle.merge_world.specs.Views.{IsOrdered};
ghost use Rattle.merge_command.specs.Shown.{shown_text};
ghost use Rattle.merge_command.specs.declared.stop.Unwritten.TheVariants as unwritten;

use crate::stop::Unwritten;
use crate::writing::write_answer;
use merge_model::Answer;
use merge_ports::Sink;
use merge_types::{SiteId, Words};
use merge_world::{PublisherSite, Seen, Sites, SubscriberSite};
use std::alloc::Global;

/// Writes the live rows of an article at a site, as a script's `show` answers them. The publication
/// must have the site and the article. Nothing is written where memory is wanting.
pub fn show_rows<P: PublisherSite, S: SubscriberSite, O: Sink>(
    alloc: Global,
    sites: &Sites<P, S>,
    site: SiteId,
    article: &Words,
    output: &mut O,
) -> Result<(), Unwritten>
    requires ordered { IsOrdered (⟦<Sites<P, S> as Seen>⟧.seen sites.now) }
    requires known { is_site (⟦<Sites<P, S> as Seen>⟧.seen sites.now).publication site ≡ true }
    requires named { (place : ℕ) × (article_by (⟦<Sites<P, S> as Seen>⟧.seen sites.now).publication article.now ≡ Ok place) }
    ensures ok { (place : ℕ) → article_by (⟦<Sites<P, S> as Seen>⟧.seen sites.now).publication article.now ≡ Ok place
        → OnOk result (Appends (O.written output.old) (O.written output.new) (shown_text (⟦<Sites<P, S> as Seen>⟧.seen sites.now) site place)) }
    ensures part { (place : ℕ) → article_by (⟦<Sites<P, S> as Seen>⟧.seen sites.now).publication article.now ≡ Ok place
        → OnErr result (AppendsFront (O.written output.old) (O.written output.new) (shown_text (⟦<Sites<P, S> as Seen>⟧.seen sites.now) site place)) }
    ensures unsaid { result ≡ Err unwritten.NoMemory → O.written output.new ≡ O.written output.old }
    ensures write { result ≡ Err unwritten.WriteFault → Rose (O.count output.old) (O.count output.new) }
    ensures writes { O.count output.old ≤ O.count output.new }
{
    let answer = sites.show_event(alloc, site, article);
    match answer {
        Answer::Rows(_) => write_answer(alloc, sites.publisher.publication(), &answer, output),
        _ => Err(Unwritten::NoMemory),
    }
}
