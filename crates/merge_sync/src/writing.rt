//! The line of a session is written.
ghost use Rattle.std.specs.Io.KnownBytes.{Appends};
ghost use Rattle.std.specs.Prelude.{◌≡◌, Err, IfErr, OnErr, OnOk};
ghost use Rattle.merge_ports.specs.Faults.{Rose};
ghost use Rattle.merge_ports.specs.Parts.{AppendsFront};
ghost use Rattle.merge_sync.specs.Stops.{done_text};
ghost use Rattle.merge_sync.specs.Written.{IsUnwritten};

use crate::stop::Stop;
use merge_agent::Done;
use merge_model::Answer;
use merge_ports::{Sink, write_whole};
use merge_report::text_of;
use merge_schema::Publication;
use std::alloc::Global;

/// Writes the line of a session that was done. Nothing of it is written where memory is wanting, and
/// a front where a write fails.
pub(crate) fn write_done<O: Sink>(
    alloc: Global,
    publication: &Publication,
    done: &Done,
    output: &mut O,
) -> Result<(), Stop>
    ensures ok { OnOk result (Appends (O.written output.old) (O.written output.new) (done_text done.now)) }
    ensures err { IfErr result (λ stop. IsUnwritten stop (done_text done.now) (O.written output.old) (O.written output.new) (O.count output.old) (O.count output.new)) }
{
    let answer = Answer::Done {
        uploads: done.uploads,
        downloads: done.downloads,
        watermark: done.watermark,
    };
    let text = text_of(alloc, publication, &answer)?;
    write_whole(output, text.as_str().as_bytes())?;
    Ok(())
}
