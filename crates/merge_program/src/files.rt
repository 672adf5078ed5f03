//! What a command reads before its site starts, and what it names.
ghost use Rattle.std.specs.Prelude.{◌≡◌, ◌≢◌, ◌≤◌, Err, IfErr, IfOk, IfSome, Ok, OnOk, ℕ, false, length, true};
ghost use Rattle.merge_schema.specs.Answers.{IsAnswer};
ghost use Rattle.merge_schema.specs.Valid.{IsValid};
ghost use Rattle.merge_model.specs.World.Events.{is_site};
ghost use Rattle.merge_model.specs.World.Naming.{article_by};
ghost use Rattle.merge_program.specs.Files.{IsUnpublished, IsUnread};
ghost use Rattle.merge_program.specs.declared.ending.Ending.TheVariants as ending;
ghost use Rattle.merge_types.specs.Limits.{input_limit};

use crate::ending::{Ending, refused, unopened_text, unread};
use merge_outside::CommandOutside;
use merge_ports::{Source, read_whole};
use merge_schema::{Publication, read};
use merge_types::limits::INPUT_LIMIT;
use merge_types::{Octets, SiteId, Words};
use std::alloc::Global;

/// Reads an input whole.
pub fn read_input<I: Source>(alloc: Global, input: &mut I) -> Result<Octets, Ending>
    ensures whole { IfOk result (λ text. IfSome (I.left input.old) (λ left. text ≡ left)) }
    ensures fits { IfOk result (λ text. length text ≤ input_limit) }
    ensures unread { IfErr result (λ ending. IsUnread ending (I.left input.old) (I.count input.old) (I.count input.new)) }
    ensures later { I.count input.old ≤ I.count input.new }
    ensures kept { OnOk result (I.count input.new ≡ I.count input.old) }
    ensures counted { result ≢ Err ending.ReadFault → I.count input.new ≡ I.count input.old }
{
    match read_whole(alloc, input, INPUT_LIMIT) {
        Ok(text) => Ok(text),
        Err(fault) => Err(unread(fault)),
    }
}

/// Reads the file at a path whole. Its faults are counted at the outside.
pub fn read_file<E: CommandOutside>(
    alloc: Global,
    outside: &mut E,
    path: &Words,
) -> Result<Octets, Ending>
    ensures whole { IfOk result (λ text. IfSome ((E.offers outside.old).texts path.now) (λ left. text ≡ left)) }
    ensures fits { IfOk result (λ text. length text ≤ input_limit) }
    ensures unread { IfErr result (λ ending. IsUnread ending ((E.offers outside.old).texts path.now) (E.counts outside.old).texts (E.counts outside.new).texts) }
    ensures offers { E.offers outside.new ≡ E.offers outside.old }
    ensures told { E.told outside.new ≡ E.told outside.old }
    ensures stores { (E.counts outside.new).stores ≡ (E.counts outside.old).stores }
    ensures links { (E.counts outside.new).links ≡ (E.counts outside.old).links }
{
    let mut text = match outside.text(path) {
        Ok(text) => text,
        Err(fault) => return Err(unopened_text(fault)),
    };
    let read = read_input(alloc, &mut text);
    outside.text_back(text);
    read
}

/// The publication that a text is.
pub fn publication_in(alloc: Global, text: &[u8], resolvers: usize) -> Result<Publication, Ending>
    ensures answer { IfOk result (λ publication. IsAnswer resolvers text.now (Ok publication)) }
    ensures valid { IfOk result (λ publication. IsValid resolvers publication) }
    ensures refused { IfErr result (λ ending. IsUnpublished ending resolvers text.now) }
{
    match read(alloc, text, resolvers) {
        Ok(publication) => Ok(publication),
        Err(fault) => Err(refused(fault)),
    }
}

/// Refuses a site that is neither the publisher nor subscribes.
pub fn check_site(publication: &Publication, site: SiteId) -> Result<(), Ending>
    ensures ok { OnOk result (is_site publication.now site ≡ true) }
    ensures err { IfErr result (λ why. (why ≡ ending.UnknownSite) × (is_site publication.now site ≡ false)) }
{
    if site.0 == 0 || publication.is_subscription(site) {
        Ok(())
    } else {
        Err(Ending::UnknownSite)
    }
}

/// Refuses a name that no article has.
pub fn check_article(publication: &Publication, name: &Words) -> Result<(), Ending>
    ensures ok { OnOk result ((place : ℕ) × (article_by publication.now name.now ≡ Ok place)) }
    ensures err { IfErr result (λ why. (why ≡ ending.UnknownArticle) × (article_by publication.now name.now ≡ Err name.now)) }
{
    match publication.article_place(name.as_str()) {
        Some(_) => Ok(()),
        None => Err(Ending::UnknownArticle),
    }
}
