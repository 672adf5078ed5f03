//! What is told of the answers.
ghost use Rattle.std.specs.Prelude.{◌≡◌, ◌++◌, ◌+◌, ◌<◌, ◌^◌, IfOk, OnOk, [], cond, length};
ghost use Rattle.std.specs.List.{flat_map};
ghost use Rattle.merge_model.specs.Script.Play.{names_of};
ghost use Rattle.merge_model.specs.Script.Proper.{IsProperAnswer};
ghost use Rattle.merge_model.specs.Script.Text.{text_of};
ghost use Rattle.merge_make.specs.Publication.{made_publication};
ghost use Rattle.merge_make.specs.Script.{script};
ghost use Rattle.merge_make.specs.Summary.{answer_text, is_refusal, last_line, made_line, shown_in_summary};

use crate::script::event_count;
use merge_model::{Answer, Event};
use merge_report::text_of;
use merge_schema::Publication;
use merge_script::cut_line;
use merge_types::{NoMemory, Octets, Words};
use std::alloc::Global;

/// What is told of the answers so far: how many are refusals, and what the summary has of the reports.
#[derive(Drop)]
pub struct Tally {
    pub refusals: u64,
    pub reports: Octets,
}

impl Tally {
    /// Of no answers.
    pub fn new(alloc: Global) -> Self
        ensures refusals { result.refusals ≡ 0 }
        ensures reports { result.reports ≡ [] }
    {
        Tally {
            refusals: 0,
            reports: Octets::empty(alloc),
        }
    }

    /// One answer more.
    pub fn add(
        &mut self,
        alloc: Global,
        publication: &Publication,
        event: &Event,
        answer: &Answer,
    ) -> Result<(), NoMemory>
        requires made { publication.now ≡ made_publication }
        requires printable { IsProperAnswer answer.now }
        requires room { self.old.refusals < 2 ^ 32 }
        ensures refusals { OnOk result (self.new.refusals ≡ self.old.refusals + cond (is_refusal (answer_text answer.now)) 1 0) }
        ensures reports { OnOk result (self.new.reports ≡ self.old.reports ++ shown_in_summary event.now (answer_text answer.now)) }
    {
        if is_refusal(alloc, publication, answer)? {
            self.refusals += 1;
        }
        let text = shown(alloc, publication, event, answer)?;
        self.reports.extend(text.as_slice())
    }

    /// The summary: the line of all, and the reports.
    pub fn summary(&self, alloc: Global, customers: u16) -> Result<Octets, NoMemory>
        ensures { IfOk result (λ text. text ≡ made_line customers (length (script customers)) self.now.refusals ++ self.now.reports) }
    {
        let mut text = Octets::empty(alloc);
        text.extend(
            made_line(alloc, customers, self.refusals)?
                .as_str()
                .as_bytes(),
        )?;
        text.extend(self.reports.as_slice())?;
        Ok(text)
    }
}

fn made_line(alloc: Global, customers: u16, refusals: u64) -> Result<Words, NoMemory>
    ensures { IfOk result (λ text. text ≡ made_line customers (length (script customers)) refusals) }
{
    let events = event_count(customers);
    let text = format!(in alloc; "made {customers} events {events} refused {refusals}\n")?;
    Ok(Words::new(text))
}

// Whether a text begins as that of a refusal.
fn is_refused_text(text: &[u8]) -> bool
    ensures { result ≡ is_refusal text.now }
{
    text.starts_with(b"refused") || text.starts_with(b"stopped") || text.starts_with(b"no memory")
}

// Whether an answer tells that its event was not done. The texts of most need not be made for that.
fn is_refusal(alloc: Global, publication: &Publication, answer: &Answer) -> Result<bool, NoMemory>
    requires made { publication.now ≡ made_publication }
    requires printable { IsProperAnswer answer.now }
    ensures { IfOk result (λ is. is ≡ is_refusal (answer_text answer.now)) }
{
    match answer {
        Answer::Refused(_) | Answer::RefusedIn { .. } | Answer::Stopped { .. } => Ok(true),
        Answer::RowMade(_)
        | Answer::Fine
        | Answer::Done { .. }
        | Answer::Sent(_)
        | Answer::Nothing => Ok(false),
        Answer::Counts(_) => Ok(false),
        Answer::Conflicts(_) => Ok(false),
        other => Ok(is_refused_text(text_of(alloc, publication, other)?.as_str().as_bytes())),
    }
}

// The last line of a text, with its end.
fn last_line(alloc: Global, text: &[u8]) -> Result<Octets, NoMemory>
    ensures { IfOk result (λ line. line ≡ last_line text.now) }
{
    let mut last: &[u8] = &[];
    let mut rest = text;
    while !rest.is_empty() {
        let (line, more) = cut_line(rest);
        last = line;
        rest = more;
    }
    let mut line = Octets::empty(alloc);
    line.extend(last)?;
    line.push(b'\n')?;
    Ok(line)
}

// What the summary has of the answer to an event.
fn shown(
    alloc: Global,
    publication: &Publication,
    event: &Event,
    answer: &Answer,
) -> Result<Octets, NoMemory>
    requires made { publication.now ≡ made_publication }
    requires printable { IsProperAnswer answer.now }
    ensures { IfOk result (λ text. text ≡ shown_in_summary event.now (answer_text answer.now)) }
{
    match event {
        Event::Count(_) => {
            let mut whole = Octets::empty(alloc);
            whole.extend(text_of(alloc, publication, answer)?.as_str().as_bytes())?;
            Ok(whole)
        }
        Event::Conflicts(_) => {
            last_line(
                alloc,
                text_of(alloc, publication, answer)?.as_str().as_bytes(),
            )
        }
        _ => Ok(Octets::empty(alloc)),
    }
}
