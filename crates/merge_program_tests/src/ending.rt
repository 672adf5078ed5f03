//! How the program ends, over an input, an output, stores and a file in memory.
use crate::fixed::Fixed;
use merge_keeper::MemoryKeeper;
use merge_outside::{MemoryCommands, MemoryText};
use merge_ports::{Entries, MemoryOutside, MemorySink, MemorySource};
use merge_program::{Host, Status, run};
use merge_resolve::{Additive, Handed, Maximum, Minimum, Priority, SubscriberWins};
use merge_table::Table;
use merge_types::{Listing, Moment, NoMemory, Octets, Words};
use std::alloc::Global;
use std::test::Fail;

pub(crate) type MemoryHost = Host<
    MemorySource,
    MemorySink,
    MemorySink,
    MemoryCommands<MemoryKeeper>,
>;

// One article with one column.
const P1: &str = r#"name = "p"
[[article]]
name = "item"
[[article.column]]
name = "qty"
type = "int"
[[subscription]]
site = 1
host = "h"
"#;

fn empty_keeper(alloc: Global) -> MemoryKeeper {
    let none = Listing::empty(alloc);
    MemoryKeeper::new(alloc, Entries::empty(alloc), none, Listing::empty(alloc))
}

// Stores in memory, one for each site that a publication may have: that of the publisher, and the
// others start empty.
fn memory_stores(
    alloc: Global,
    publisher: MemoryKeeper,
    failing: Listing<u64>,
) -> Result<MemoryOutside<MemoryKeeper>, NoMemory> {
    let mut stores = Table::new(alloc);
    stores.insert(0u16, publisher)?;
    for site in 1..64u16 {
        stores.insert(site, empty_keeper(alloc))?;
    }
    Ok(MemoryOutside::new(stores, failing))
}

fn text(alloc: Global, path: &str, bytes: &str) -> Result<MemoryText, Fail> {
    Ok(MemoryText {
        path: Words::of(alloc, path)?,
        bytes: Octets::new(bytes.as_bytes().to_vec(alloc)?),
        failing: Listing::empty(alloc),
    })
}

/// An outside with such stores, of which the openings with these numbers fail, the file "p1", the empty
/// file "p0", and a clock.
pub(crate) fn outside(
    alloc: Global,
    openings: &[u64],
) -> Result<MemoryCommands<MemoryKeeper>, Fail> {
    outside_over(alloc, empty_keeper(alloc), openings)
}

/// The same with this keeper of the publisher.
pub(crate) fn outside_over(
    alloc: Global,
    publisher: MemoryKeeper,
    openings: &[u64],
) -> Result<MemoryCommands<MemoryKeeper>, Fail> {
    let failing = Listing::new(openings.to_vec(alloc)?);
    let mut outside = MemoryCommands::new(alloc, memory_stores(alloc, publisher, failing)?);
    outside.texts.push(text(alloc, "p1", P1)?)?;
    outside.texts.push(text(alloc, "p0", "")?)?;
    outside.moments.push(Moment(5))?;
    Ok(outside)
}

/// The calls that fail at the input, the output and the notes, by their numbers.
pub(crate) type Failing<'a> = [&'a [u64]; 3];

/// Ports over these bytes, whose calls with these numbers fail, and an outside.
pub(crate) fn host(
    alloc: Global,
    input: &[u8],
    failing: &Failing,
    outside: MemoryCommands<MemoryKeeper>,
) -> Result<MemoryHost, Fail> {
    let [reads, writes, notes] = *failing;
    Ok(Host {
        input: MemorySource::new(
            Octets::new(input.to_vec(alloc)?),
            Listing::new(reads.to_vec(alloc)?),
        ),
        output: MemorySink::new(alloc, Listing::new(writes.to_vec(alloc)?)),
        notes: MemorySink::new(alloc, Listing::new(notes.to_vec(alloc)?)),
        outside,
    })
}

/// The words of a line, with a space between two of them. An empty line has none.
pub(crate) fn words(alloc: Global, line: &str) -> Result<Vec<Words>, Fail> {
    let mut words = Vec::new(alloc);
    if line.is_empty() {
        return Ok(words);
    }
    for word in line.split(' ') {
        words.push(Words::of(alloc, word)?)?;
    }
    Ok(words)
}

/// The resolvers of the program, and behind them two of these tests.
pub(crate) fn resolvers(alloc: Global) -> Result<Vec<Handed>, Fail> {
    let mut resolvers: Vec<Handed> = Vec::new(alloc);
    resolvers.push(Box::new(alloc, Priority::new())?)?;
    resolvers.push(Box::new(alloc, Maximum::new())?)?;
    resolvers.push(Box::new(alloc, Minimum::new())?)?;
    resolvers.push(Box::new(alloc, Additive::new())?)?;
    resolvers.push(Box::new(alloc, SubscriberWins::new())?)?;
    resolvers.push(Box::new(alloc, Fixed::of(false))?)?;
    resolvers.push(Box::new(alloc, Fixed::of(true))?)?;
    Ok(resolvers)
}

fn status(
    alloc: Global,
    words: &[Words],
    host: &mut MemoryHost,
    resolvers: &mut Vec<Handed>,
) -> u8 {
    let Status(status) = run(alloc, words, host, resolvers);
    status
}

/// Runs the words of a line, with an input.
pub(crate) fn end(
    alloc: Global,
    line: &str,
    input: &[u8],
    failing: &Failing,
    outside: MemoryCommands<MemoryKeeper>,
) -> Result<(u8, MemoryHost), Fail> {
    let words = words(alloc, line)?;
    let mut resolvers = resolvers(alloc)?;
    let mut host = host(alloc, input, failing, outside)?;
    let status = status(alloc, words.as_slice(), &mut host, &mut resolvers);
    Ok((status, host))
}

/// No call fails.
pub(crate) const NONE: Failing<'static> = [&[], &[], &[]];

/// Whether a run ended so: its status, what it wrote, and the note.
pub(crate) fn is_ended(
    ended: u8,
    host: &MemoryHost,
    status: u8,
    output: &str,
    notes: &str,
) -> bool {
    ended == status
        && host.output.bytes.as_slice() == output.as_bytes()
        && host.notes.bytes.as_slice() == notes.as_bytes()
}

/// Plays a script of a publication.
pub(crate) fn play(
    alloc: Global,
    publication: &str,
    script: &[u8],
    failing: &Failing,
    outside: MemoryCommands<MemoryKeeper>,
) -> Result<(u8, MemoryHost), Fail> {
    let mut input = publication.as_bytes().to_vec(alloc)?;
    input.extend_from_slice(b"---\n".as_slice())?;
    input.extend_from_slice(script)?;
    end(alloc, "play", &input, failing, outside)
}
