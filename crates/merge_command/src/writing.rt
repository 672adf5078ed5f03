//! An answer is written.
ghost use Rattle.std.specs.Io.KnownBytes.{Appends};
ghost use Rattle.std.specs.Prelude.{◌≡◌, ◌≤◌, Err, OnErr, OnOk};
ghost use Rattle.merge_ports.specs.Faults.{Rose};
ghost use Rattle.merge_ports.specs.Parts.{AppendsFront};
ghost use Rattle.merge_model.specs.Script.Play.{names_of};
ghost use Rattle.merge_model.specs.Script.Proper.{IsProperAnswer};
ghost use Rattle.merge_model.specs.Script.Text.{text_of};
ghost use Rattle.merge_command.specs.declared.stop.Unwritten.TheVariants as unwritten;

use crate::stop::Unwritten;
use merge_model::Answer;
use merge_ports::{Sink, write_whole};
use merge_report::text_of;
use merge_schema::Publication;
use std::alloc::Global;

/// Writes the text of an answer. Nothing of it is written where memory is wanting, and a front where
/// a write fails.
pub(crate) fn write_answer<O: Sink>(
    alloc: Global,
    publication: &Publication,
    answer: &Answer,
    output: &mut O,
) -> Result<(), Unwritten>
    requires { IsProperAnswer answer.now }
    ensures ok { OnOk result (Appends (O.written output.old) (O.written output.new) (text_of (names_of publication.now) answer.now)) }
    ensures part { OnErr result (AppendsFront (O.written output.old) (O.written output.new) (text_of (names_of publication.now) answer.now)) }
    ensures unsaid { result ≡ Err unwritten.NoMemory → O.written output.new ≡ O.written output.old }
    ensures write { result ≡ Err unwritten.WriteFault → Rose (O.count output.old) (O.count output.new) }
    ensures writes { O.count output.old ≤ O.count output.new }
{
    let text = text_of(alloc, publication, answer)?;
    write_whole(output, text.as_str().as_bytes())?;
    Ok(())
}
