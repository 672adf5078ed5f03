//! The summary of a journal is written.
ghost use Rattle.std.specs.Io.KnownBytes.{Appends};
ghost use Rattle.std.specs.Prelude.{IfErr, OnOk};
ghost use Rattle.merge_desk.specs.Summary.{summary_text};
ghost use Rattle.merge_service.specs.Written.{IsUnwritten};

use crate::stop::Stop;
use merge_desk::{Journal, summary};
use merge_ports::{Sink, write_whole};
use std::alloc::Global;

/// Writes the summary of a journal. Nothing of it is written where memory is wanting, and a front
/// where a write fails.
pub(crate) fn write_summary<O: Sink>(
    alloc: Global,
    journal: &Journal,
    output: &mut O,
) -> Result<(), Stop>
    ensures ok { OnOk result (Appends (O.written output.old) (O.written output.new) (summary_text journal.now)) }
    ensures err { IfErr result (λ stop. IsUnwritten stop (summary_text journal.now) (O.written output.old) (O.written output.new) (O.count output.old) (O.count output.new)) }
{
    let text = summary(alloc, journal)?;
    write_whole(output, text.as_str().as_bytes())?;
    Ok(())
}
