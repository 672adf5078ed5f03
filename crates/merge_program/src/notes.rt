//! What the notes are told of an ending.
ghost use Rattle.std.specs.Prelude.{◌≡◌, ◌++◌, ◌∷◌, [], IfOk, List, OnErr, ℕ, codes, string_bytes, unwrap_or};
ghost use Rattle.std.specs.Fmt.{decimal};
ghost use Rattle.merge_schema.specs.Faults.{number_of, words_of};
ghost use Rattle.merge_program.specs.Notes.{EndingIsTold, IsTold, key_text};

use crate::command::help;
use crate::ending::Ending;
use merge_ports::{Sink, write_whole};
use merge_schema::SchemaFault;
use merge_types::{Moment, NoMemory, Octets};
use std::alloc::Global;

// The help, behind the word that says why it is told.
fn usage_note(alloc: Global) -> Result<String, NoMemory>
    ensures { IfOk result (λ note. (help : List ℕ) × (string_bytes note ≡ codes "usage\n" ++ help)) }
{
    let mut note = String::from_str(alloc, "usage\n")?;
    note.push_str(help(alloc)?.as_str())?;
    Ok(note)
}

// Why the publication was refused, by the fault's number and its words.
fn refused_note(alloc: Global, fault: &SchemaFault) -> Result<String, NoMemory>
    ensures { IfOk result (λ note. string_bytes note ≡ codes "publication refused: " ++ decimal (unwrap_or (number_of fault.now) 0) ++ 32 ∷ words_of fault.now ++ 10 ∷ []) }
{
    let number = fault.number().unwrap_or(0);
    Ok(format!(in alloc; "publication refused: {number} {fault}\n")?)
}

// A key in hexadecimal.
fn key_words(alloc: Global, key: &Octets) -> Result<String, NoMemory>
    ensures { IfOk result (λ words. string_bytes words ≡ key_text key.now) }
{
    if key.is_empty() {
        return Ok(String::from_str(alloc, "-")?);
    }
    Ok(hex::encode(alloc, key.as_slice())?)
}

// The damaged record, by its table and its key.
fn damaged_note(alloc: Global, table: u8, key: &Octets) -> Result<String, NoMemory>
    ensures { IfOk result (λ note. string_bytes note ≡ codes "damaged " ++ decimal table ++ 32 ∷ key_text key.now ++ 10 ∷ []) }
{
    let key = key_words(alloc, key)?;
    Ok(format!(in alloc; "damaged {table} {key}\n")?)
}

// The line that is no event, and its wrong word.
fn line_note(alloc: Global, line: u64, word: u64) -> Result<String, NoMemory>
    ensures { IfOk result (λ note. string_bytes note ≡ codes "line " ++ decimal line ++ codes " word " ++ decimal word ++ codes ": no event\n") }
{
    Ok(format!(in alloc; "line {line} word {word}: no event\n")?)
}

// The last moment at which an expired site was in step, and the moment now.
fn expired_note(alloc: Global, last_sync: Moment, now: Moment) -> Result<String, NoMemory>
    ensures { IfOk result (λ note. string_bytes note ≡ codes "expired " ++ decimal last_sync.0 ++ 32 ∷ decimal now.0 ++ 10 ∷ []) }
{
    let last = last_sync.0;
    let now = now.0;
    Ok(format!(in alloc; "expired {last} {now}\n")?)
}

// The place in a reply that does not fit.
fn reply_note(alloc: Global, place: u64) -> Result<String, NoMemory>
    ensures { IfOk result (λ note. string_bytes note ≡ codes "bad reply " ++ decimal place ++ 10 ∷ []) }
{
    Ok(format!(in alloc; "bad reply {place}\n")?)
}

// The number of a refusal.
fn declined_note(alloc: Global, number: u8) -> Result<String, NoMemory>
    ensures { IfOk result (λ note. string_bytes note ≡ codes "refused " ++ decimal number ++ 10 ∷ []) }
{
    Ok(format!(in alloc; "refused {number}\n")?)
}

/// Writes a note. A fault of the notes is nobody's.
pub(crate) fn write_note<N: Sink>(notes: &mut N, note: &str)
    ensures { IsTold note.now (N.written notes.old) (N.written notes.new) (N.count notes.old) (N.count notes.new) }
{
    if let Err(_) = write_whole(notes, note.as_bytes()) {}
}

/// Writes a note that was put together, and nothing where memory was wanting for that.
pub(crate) fn write_made<N: Sink>(notes: &mut N, note: Result<String, NoMemory>)
    ensures ok { IfOk note (λ note. IsTold (string_bytes note) (N.written notes.old) (N.written notes.new) (N.count notes.old) (N.count notes.new)) }
    ensures err { OnErr note (N.written notes.new ≡ N.written notes.old) }
{
    if let Ok(note) = note {
        write_note(notes, note.as_str());
    }
}

/// Tells the notes of an ending. Nothing is told of a good one.
pub fn tell<N: Sink>(alloc: Global, ending: &Ending, notes: &mut N)
    ensures { EndingIsTold ending.now (N.written notes.old) (N.written notes.new) (N.count notes.old) (N.count notes.new) }
{
    match ending {
        Ending::Done => {}
        Ending::Usage => write_made(notes, usage_note(alloc)),
        Ending::NotTaken { .. } => write_made(notes, usage_note(alloc)),
        Ending::Refused(fault) => write_made(notes, refused_note(alloc, fault)),
        Ending::NoEvent { line, word } => write_made(notes, line_note(alloc, *line, *word)),
        Ending::ReadFault => write_note(notes, "read fault\n"),
        Ending::WriteFault => write_note(notes, "write fault\n"),
        Ending::StoreFault => write_note(notes, "store fault\n"),
        Ending::Damaged { table, key } => write_made(notes, damaged_note(alloc, *table, key)),
        Ending::NoMemory => write_note(notes, "no memory\n"),
        Ending::UnknownSite => write_note(notes, "refused 1\n"),
        Ending::UnknownArticle => write_note(notes, "refused 18\n"),
        Ending::TooLong => write_note(notes, "input too long\n"),
        Ending::LinkFault => write_note(notes, "link fault\n"),
        Ending::Expired { last_sync, now } => {
            write_made(notes, expired_note(alloc, *last_sync, *now))
        }
        Ending::BadReply { place } => write_made(notes, reply_note(alloc, *place)),
        Ending::Declined { number } => write_made(notes, declined_note(alloc, *number)),
    }
}
