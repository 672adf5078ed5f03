//! Texts in files.
ghost use Rattle.std.specs.Prelude.{◌≡◌, ◌≢◌, IfOk, OnErr};
ghost use Rattle.std.specs.Io.{ReadsAtMost};
ghost use Rattle.std.specs.Io.KnownBytes.{ReadConsumes};
ghost use Rattle.std.specs.IoError.{error_kind};
ghost use Rattle.merge_ports.specs.Faults.{HasCause, one_more};

use merge_ports::{Failed, OpenFault, Reading, Source};
use std::fs::File;
use std::io::{Error, ErrorKind};

/// A text in a file. It counts each read that fails, and tells nothing of its bytes.
#[derive(Drop)]
pub struct FileText {
    reading: Reading<File>,
}

impl Source for FileText {
    ghost use Rattle.std.specs.Prelude.{None};

    ghost left = { λ t. None };

    ghost count = { λ t. t.reading.faults };

    fn read(&mut self, piece: &mut [u8]) -> Result<usize, Failed>
        ensures bound { ReadsAtMost result piece.new }
        ensures bytes { ReadConsumes None None result piece.new }
        ensures cause { HasCause self.old.reading.faults self.new.reading.faults result }
        ensures counted { OnErr result (self.new.reading.faults ≡ one_more self.old.reading.faults) }
    {
        self.reading.read(piece)
    }

    fn faults(&self) -> u64 {
        self.reading.faults()
    }
}

fn fault_of(error: &Error) -> OpenFault
    ensures starved { error_kind error.now ≡ ErrorKind.OutOfMemory → result ≡ OpenFault.NoMemory }
    ensures failed { error_kind error.now ≢ ErrorKind.OutOfMemory → result ≡ OpenFault.Failed }
{
    match error.kind() {
        ErrorKind::OutOfMemory => OpenFault::NoMemory,
        _ => OpenFault::Failed,
    }
}

/// Opens the text in a file.
pub(crate) fn open_text(rt: &HostRuntime, path: &str) -> Result<FileText, OpenFault>
    ensures { IfOk result (λ text. text.reading.faults ≡ 0) }
{
    match File::open(rt, path) {
        Ok(file) => Ok(FileText {
            reading: Reading::new(file),
        }),
        Err(error) => Err(fault_of(&error)),
    }
}
