//! Two sites play scripts, and each answer is held against the one that is worked out.
use super::reports::{Report, write_row};
use super::uploads::{Filling, INSERT};
use crate::same::same_in;
use crate::site::edits::Edit;
use crate::site::pair::Sends;
use merge_batch::Refusal;
use merge_model::{Forgotten, Taken};
use merge_types::{Moment, NoMemory, RowId};
use std::alloc::Global;
use std::process::Abort;
use std::test::Fail;

/// A call of one of the sites.
#[derive(Clone, Copy)]
pub enum Step {
    /// The publisher changes a row.
    There(Edit),
    /// The subscriber changes a row.
    Here(Edit),
    /// The subscriber closes its open generation.
    Closes,
    BeginsAnew,
    Purges,
    /// The subscriber makes a message.
    Sends(Sends),
    /// The message with this number comes to where it goes, the first time or again.
    Delivers(usize),
}

/// What a step answers.
#[derive(Clone, Copy)]
pub enum Answer {
    Row(RowId),
    Closed(u64),
    Discarded(u64),
    Purged(Forgotten),
    /// The number of a message that was made, what it is, and a number of it.
    Message(usize, &'static str, u64),
    /// There is no message to make.
    Nothing,
    NoMessage,
    Took(Taken),
}

/// A line of a script: a step at a moment, with its answer or refusal, or what is told of a site.
#[derive(Clone, Copy)]
pub enum Line {
    At(u64, Step, &'static str),
    Tells(Report, &'static str),
}

/// Two sites that play.
///
/// What plays them is generic over them: where the types of sites are known, the proof of a drop goes
/// through all their tables.
pub trait Carry: Drop {
    /// Two sites of a publication that hold nothing, and no message.
    fn begun(alloc: Global, file: &[u8]) -> Result<Self, Fail>;

    /// Makes the step.
    fn step(&mut self, now: Moment, step: Step) -> Result<Answer, Refusal>;

    /// Writes what is told of a site.
    fn report(&self, text: &mut String, report: Report) -> Result<(), NoMemory>;
}

fn write_taken(text: &mut String, taken: Taken) -> Result<(), NoMemory> {
    match taken {
        Taken::Acted => write!(text, "applied")?,
        Taken::Missed { seq, outstanding } => write!(text, "ignored {seq} {outstanding}")?,
    }
    Ok(())
}

fn write_forgotten(text: &mut String, forgotten: Forgotten) -> Result<(), NoMemory> {
    let Forgotten {
        tombstones,
        mappings,
        generations,
    } = forgotten;
    write!(text, "purged {tombstones} {mappings} {generations}")?;
    Ok(())
}

fn write_answer(text: &mut String, answer: Answer) -> Result<(), NoMemory> {
    match answer {
        Answer::Row(row) => write_row(text, row)?,
        Answer::Closed(generation) => write!(text, "closed {generation}")?,
        Answer::Discarded(count) => write!(text, "discarded {count}")?,
        Answer::Purged(forgotten) => write_forgotten(text, forgotten)?,
        Answer::Message(at, word, number) => write!(text, "message {at} {word} {number}")?,
        Answer::Nothing => write!(text, "nothing")?,
        Answer::NoMessage => write!(text, "no message")?,
        Answer::Took(taken) => write_taken(text, taken)?,
    }
    Ok(())
}

// The answer or the refusal, in words. Want of memory is neither.
fn said(alloc: Global, answer: Result<Answer, Refusal>) -> Result<String, NoMemory> {
    let mut text = String::new(alloc);
    match answer {
        Ok(answer) => write_answer(&mut text, answer)?,
        Err(Refusal::NoMemory) => return Err(NoMemory),
        Err(refusal) => write!(text, "refused {} {refusal}", refusal.number())?,
    }
    Ok(text)
}

fn told<T: Carry>(alloc: Global, sites: &T, report: Report) -> Result<String, NoMemory> {
    let mut text = String::new(alloc);
    sites.report(&mut text, report)?;
    Ok(text)
}

fn play_line<T: Carry, R: Abort>(
    rt: &R,
    alloc: Global,
    sites: &mut T,
    place: usize,
    line: Line,
) -> Result<(), Fail> {
    match line {
        Line::At(now, step, wanted) => {
            let said = said(alloc, sites.step(Moment(now), step))?;
            same_in(rt, &said.as_str(), &wanted, &place);
        }
        Line::Tells(report, wanted) => {
            let told = told(alloc, sites, report)?;
            same_in(rt, &told.as_str(), &wanted, &place);
        }
    }
    Ok(())
}

fn follow<T: Carry, R: Abort>(
    rt: &R,
    alloc: Global,
    sites: &mut T,
    script: &[Line],
) -> Result<(), Fail> {
    for (place, line) in script.iter().enumerate() {
        play_line(rt, alloc, sites, place, *line)?;
    }
    Ok(())
}

/// Two sites of a publication play scripts one behind the other.
pub fn play<T: Carry, R: Abort>(
    rt: &R,
    alloc: Global,
    file: &[u8],
    scripts: &[&[Line]],
) -> Result<(), Fail> {
    let mut sites = T::begun(alloc, file)?;
    for script in scripts {
        follow(rt, alloc, &mut sites, *script)?;
    }
    Ok(())
}

// The subscriber makes so many rows, and closes its open generation behind each where it is told to.
fn fill<T: Carry>(sites: &mut T, count: u64, closes: bool) -> Result<Answer, Refusal> {
    let mut last = Answer::Nothing;
    for _ in 0..count {
        last = sites.step(Moment(0), INSERT)?;
        if closes {
            last = sites.step(Moment(0), Step::Closes)?;
        }
    }
    Ok(last)
}

fn play_filled<T: Carry, R: Abort>(
    rt: &R,
    alloc: Global,
    file: &[u8],
    front: &[Line],
    filling: &Filling,
) -> Result<(), Fail> {
    let (count, closes, last, script) = filling;
    let mut sites = T::begun(alloc, file)?;
    follow(rt, alloc, &mut sites, front)?;
    let answer = fill(&mut sites, *count, *closes)?;
    let said = said(alloc, Ok(answer))?;
    same_in(rt, &said.as_str(), last, count);
    follow(rt, alloc, &mut sites, *script)
}

/// Two sites play a script, the subscriber makes many rows, and they go on by another script, for each
/// of these.
pub fn fill_each<T: Carry, R: Abort>(
    rt: &R,
    alloc: Global,
    file: &[u8],
    front: &[Line],
    fillings: &[Filling],
) -> Result<(), Fail> {
    for filling in fillings {
        play_filled::<T, R>(rt, alloc, file, front, filling)?;
    }
    Ok(())
}
