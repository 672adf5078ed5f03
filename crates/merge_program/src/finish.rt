//! How a run of `serve` finishes.
ghost use Rattle.std.specs.Fmt.{decimal};
ghost use Rattle.std.specs.Prelude.{◌≡◌, ◌++◌, ◌∷◌, [], IfOk, codes, string_bytes};
ghost use Rattle.merge_program.specs.Serving.{FinishIsTold, difference_text, finish_of, finish_status, mark_text};

use crate::ending::{Ending, Status};
use crate::notes::{tell, write_made, write_note};
use merge_desk::{Difference, Mark};
use merge_ports::Sink;
use merge_service::Stop;
use merge_types::NoMemory;
use std::alloc::Global;

/// How a run of `serve` finishes: as other commands end, or for its door or its journal.
#[derive(Debug, Drop)]
pub enum Finish {
    Ended(Ending),
    /// The door could not be opened, or failed before all requests had come.
    DoorFault,
    /// A seat was told something else than the journal has of it.
    Differs(Difference),
}

/// How a run finishes by how the publisher served.
pub fn finish_of(served: Result<(), Stop>) -> Finish
    ensures { result ≡ finish_of served }
{
    match served {
        Ok(()) => Finish::Ended(Ending::Done),
        Err(Stop::StoreFault) => Finish::Ended(Ending::StoreFault),
        Err(Stop::Damaged { table, key }) => Finish::Ended(Ending::Damaged { table, key }),
        Err(Stop::DoorFault) => Finish::DoorFault,
        Err(Stop::Differs(difference)) => Finish::Differs(difference),
        Err(Stop::WriteFault) => Finish::Ended(Ending::WriteFault),
        Err(Stop::NoMemory) => Finish::Ended(Ending::NoMemory),
    }
}

// A mark's place and its digest in hexadecimal.
fn mark_words(alloc: Global, mark: &Mark) -> Result<String, NoMemory>
    ensures { IfOk result (λ words. string_bytes words ≡ mark_text mark.now) }
{
    let place = mark.place;
    let bytes: &[u8] = &mark.digest;
    let digest = hex::encode(alloc, bytes)?;
    Ok(format!(in alloc; "{place}:{digest}")?)
}

// The first seat that was told something else, and both marks.
fn differs_note(alloc: Global, difference: &Difference) -> Result<String, NoMemory>
    ensures { IfOk result (λ note. string_bytes note ≡ difference_text difference.now) }
{
    let seat = difference.seat();
    let told = mark_words(alloc, difference.told())?;
    let kept = mark_words(alloc, difference.kept())?;
    Ok(format!(in alloc; "differs {seat} {told} {kept}\n")?)
}

impl Finish {
    /// The exit status by which it is told.
    pub fn status(&self) -> Status
        ensures { result.0 ≡ finish_status self.now }
    {
        match self {
            Finish::Ended(ending) => ending.status(),
            Finish::DoorFault => Status(7),
            Finish::Differs(_) => Status(13),
        }
    }

    /// Tells the notes of it. Nothing is told of a good one.
    pub fn tell<N: Sink>(&self, alloc: Global, notes: &mut N)
        ensures { FinishIsTold self.now (N.written notes.old) (N.written notes.new) (N.count notes.old) (N.count notes.new) }
    {
        match self {
            Finish::Ended(ending) => tell(alloc, ending, notes),
            Finish::DoorFault => write_note(notes, "link fault\n"),
            Finish::Differs(difference) => write_made(notes, differs_note(alloc, difference)),
        }
    }
}
