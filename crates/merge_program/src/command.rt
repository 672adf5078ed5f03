//! What the words behind the program's name say.
ghost use Rattle.std.specs.Prelude.{◌≡◌, ◌≢◌, IfOk, None, OnErr};
ghost use Rattle.merge_program.specs.Commands.{by_change, by_last, by_show, by_sync, by_word, by_word_and_number, command_of, customers_of, is_address, is_dashed, place_by, site_in};

use clap::Arg;
use merge_script::read_decimal;
use merge_types::{NoMemory, SiteId, Words};
use merge_wire::is_visible;
use std::alloc::{AllocError, Global};

/// The most customers that a generated script has.
pub const MOST_CUSTOMERS: u64 = 20_000;

/// The greatest number of a site.
pub const GREATEST_SITE: u64 = 65_535;

/// A site of the publication in a file, and the store that it has.
#[derive(Debug, Drop)]
pub struct Place {
    /// The path of the publication's file.
    pub publication: Words,
    /// The path of the store.
    pub store: Words,
    /// 0 is the publisher.
    pub site: SiteId,
}

/// What the program is told to do.
#[derive(Debug, Drop)]
pub enum Command {
    /// A publication and a script are read and played.
    Play,
    /// The script that is made for so many customers is played, and summed up.
    Make(u16),
    /// A script is read that changes one site.
    Change(Place),
    /// The rows of an article at a site are shown.
    Show { place: Place, article: Words },
    /// A subscriber meets the publisher at an address.
    Sync { place: Place, address: Words },
}

// A number of customers: a plain decimal from 1 to the most.
fn customers(word: &[u8]) -> Option<u16>
    ensures { result ≡ customers_of word.now }
{
    match read_decimal(word) {
        Some(number) if 1 <= number && number <= MOST_CUSTOMERS => Some(number as u16),
        _ => None,
    }
}

fn by_word(word: &Words) -> Option<Command>
    ensures { result ≡ by_word word.now }
{
    if word.as_str() == "play" {
        Some(Command::Play)
    } else {
        None
    }
}

fn by_word_and_number(word: &Words, number: &Words) -> Option<Command>
    ensures { result ≡ by_word_and_number word.now number.now }
{
    if word.as_str() == "make" {
        customers(number.as_str().as_bytes()).map(Command::Make)
    } else {
        None
    }
}

// A site's number: a plain decimal up to the greatest.
fn site_in(word: &[u8]) -> Option<SiteId>
    ensures { result ≡ site_in word.now }
{
    match read_decimal(word) {
        Some(number) if number <= GREATEST_SITE => Some(SiteId(number as u16)),
        _ => None,
    }
}

/// Whether a word begins as an option does.
pub(crate) fn is_dashed(word: &Words) -> bool
    ensures { result ≡ is_dashed word.now }
{
    match word.as_str().as_bytes() {
        [first, ..] => *first == b'-',
        [] => false,
    }
}

fn place_by(publication: &Words, store: &Words, site: &Words) -> Result<Option<Place>, NoMemory>
    ensures ok { IfOk result (λ place. place ≡ place_by publication.now store.now site.now) }
    ensures err { OnErr result (place_by publication.now store.now site.now ≢ None) }
{
    if is_dashed(publication) || is_dashed(store) {
        return Ok(None);
    }
    match site_in(site.as_str().as_bytes()) {
        Some(site) => Ok(Some(Place {
            publication: publication.clone()?,
            store: store.clone()?,
            site,
        })),
        None => Ok(None),
    }
}

fn by_change(
    word: &Words,
    publication: &Words,
    store: &Words,
    site: &Words,
) -> Result<Option<Command>, NoMemory>
    ensures ok { IfOk result (λ command. command ≡ by_change word.now publication.now store.now site.now) }
    ensures err { OnErr result (by_change word.now publication.now store.now site.now ≢ None) }
{
    if word.as_str() == "change" {
        match place_by(publication, store, site)? {
            Some(place) => Ok(Some(Command::Change(place))),
            None => Ok(None),
        }
    } else {
        Ok(None)
    }
}

fn by_show(
    word: &Words,
    publication: &Words,
    store: &Words,
    site: &Words,
    article: &Words,
) -> Result<Option<Command>, NoMemory>
    ensures ok { IfOk result (λ command. command ≡ by_show word.now publication.now store.now site.now article.now) }
    ensures err { OnErr result (by_show word.now publication.now store.now site.now article.now ≢ None) }
{
    if word.as_str() == "show" && !is_dashed(article) {
        match place_by(publication, store, site)? {
            Some(place) => Ok(Some(Command::Show {
                place,
                article: article.clone()?,
            })),
            None => Ok(None),
        }
    } else {
        Ok(None)
    }
}

/// Whether a word is an address.
pub(crate) fn is_address(word: &Words) -> bool
    ensures { result ≡ is_address word.now }
{
    is_visible(word.as_str())
}

fn by_sync(
    publication: &Words,
    store: &Words,
    site: &Words,
    address: &Words,
) -> Result<Option<Command>, NoMemory>
    ensures ok { IfOk result (λ command. command ≡ by_sync publication.now store.now site.now address.now) }
    ensures err { OnErr result (by_sync publication.now store.now site.now address.now ≢ None) }
{
    if is_address(address) && !is_dashed(address) {
        match place_by(publication, store, site)? {
            Some(place) => Ok(Some(Command::Sync {
                place,
                address: address.clone()?,
            })),
            None => Ok(None),
        }
    } else {
        Ok(None)
    }
}

fn by_last(
    word: &Words,
    publication: &Words,
    store: &Words,
    site: &Words,
    last: &Words,
) -> Result<Option<Command>, NoMemory>
    ensures ok { IfOk result (λ command. command ≡ by_last word.now publication.now store.now site.now last.now) }
    ensures err { OnErr result (by_last word.now publication.now store.now site.now last.now ≢ None) }
{
    if word.as_str() == "sync" {
        by_sync(publication, store, site, last)
    } else {
        by_show(word, publication, store, site, last)
    }
}

/// The command that the words say: `play`; `make` and a number of customers; `change`, a publication's
/// path, a store's path and a site; `show`, the same and an article; or `sync`, the same and an address.
/// None where they say something else. Memory is only wanting for words that are a command.
pub fn command_of(words: &[Words]) -> Result<Option<Command>, NoMemory>
    ensures ok { IfOk result (λ command. command ≡ command_of words.now) }
    ensures err { OnErr result (command_of words.now ≢ None) }
{
    match words {
        [word] => Ok(by_word(word)),
        [word, number] => Ok(by_word_and_number(word, number)),
        [word, publication, store, site] => by_change(word, publication, store, site),
        [word, publication, store, site, last] => by_last(word, publication, store, site, last),
        _ => Ok(None),
    }
}

// A program with the commands that read a script of all sites, or make one.
fn with_played(
    alloc: Global,
    program: clap::Command<'static>,
) -> Result<clap::Command<'static>, AllocError> {
    let play = clap::Command::new(alloc, "play").about(
        "Read a publication, a line --- and a script, and answer each event",
    );
    let make = clap::Command::new(alloc, "make")
        .about("Play a script that is made for N customers, 1 to 20000, and sum up its answers")
        .arg(Arg::new(alloc, "N").required(true))?;
    Ok(program.subcommand(play)?.subcommand(make)?)
}

// A program with the commands that one site obeys alone.
fn with_stored(
    alloc: Global,
    program: clap::Command<'static>,
) -> Result<clap::Command<'static>, AllocError> {
    let change = clap::Command::new(alloc, "change")
        .about(
            "Read a script that changes the site SITE of the publication in the file PUB, at the store STORE",
        )
        .arg(Arg::new(alloc, "PUB").required(true))?
        .arg(Arg::new(alloc, "STORE").required(true))?
        .arg(Arg::new(alloc, "SITE").required(true))?;
    let show = clap::Command::new(alloc, "show")
        .about("Show the rows of the article ARTICLE at that site")
        .arg(Arg::new(alloc, "PUB").required(true))?
        .arg(Arg::new(alloc, "STORE").required(true))?
        .arg(Arg::new(alloc, "SITE").required(true))?
        .arg(Arg::new(alloc, "ARTICLE").required(true))?;
    Ok(program.subcommand(change)?.subcommand(show)?)
}

// A program with the commands by which a subscriber and the publisher meet.
fn with_met(
    alloc: Global,
    program: clap::Command<'static>,
) -> Result<clap::Command<'static>, AllocError> {
    let sync = clap::Command::new(alloc, "sync")
        .about("Synchronise that site, a subscriber, with the publisher at ADDRESS over HTTP")
        .arg(Arg::new(alloc, "PUB").required(true))?
        .arg(Arg::new(alloc, "STORE").required(true))?
        .arg(Arg::new(alloc, "SITE").required(true))?
        .arg(Arg::new(alloc, "ADDRESS").required(true))?;
    let serve = clap::Command::new(alloc, "serve")
        .about(
            "Serve subscribers at ADDRESS over HTTP from the publisher at the store STORE, by 1 to 16 WORKERS and for 1 to 1000000 REQUESTS, and sum up",
        )
        .arg(Arg::new(alloc, "PUB").required(true))?
        .arg(Arg::new(alloc, "STORE").required(true))?
        .arg(Arg::new(alloc, "ADDRESS").required(true))?
        .arg(Arg::new(alloc, "WORKERS").required(true))?
        .arg(Arg::new(alloc, "REQUESTS").required(true))?;
    Ok(program.subcommand(sync)?.subcommand(serve)?)
}

// The program and its commands, as its help shows them.
fn program(alloc: Global) -> Result<clap::Command<'static>, AllocError> {
    let program = clap::Command::new(alloc, "replmerge")
        .about("Merge replication between a publisher and its subscribers")
        .after_help(
            "The lines of a script and their answers: docs/use/script.md and docs/use/commands.md",
        )
        .disable_help_flag(true)
        .disable_version_flag(true)
        .disable_help_subcommand(true);
    let program = with_played(alloc, program)?;
    let program = with_stored(alloc, program)?;
    with_met(alloc, program)
}

/// The program's help: each command with its words, and where the script's page is.
pub fn help(alloc: Global) -> Result<String, NoMemory> {
    Ok(program(alloc)?.render_help()?)
}
