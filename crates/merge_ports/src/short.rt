//! A port that moves little in one call, for tests of what reads or writes in a loop.
ghost use Rattle.std.specs.Prelude.{◌≡◌, ◌≤◌, ◌<◌, length, max, IfOk};
ghost use Rattle.std.specs.Io.{ReadsAtMost};
ghost use Rattle.std.specs.Io.KnownBytes.{ReadConsumes, WriteAppends};
ghost use Rattle.merge_ports.specs.Faults.{HasCause};

use crate::{Failed, Sink, Source};

/// A port each of whose calls moves at most so many bytes, and at least one where it can.
#[derive(Debug, Drop)]
pub struct Short<P> {
    pub port: P,
    pub most: usize,
}

impl<S: Source> Source for Short<S> {
    ghost left = { λ s. S.left s.port };

    ghost count = { λ s. S.count s.port };

    fn read(&mut self, piece: &mut [u8]) -> Result<usize, Failed>
        ensures bound { ReadsAtMost result piece.new }
        ensures bytes { ReadConsumes (S.left self.old.port) (S.left self.new.port) result piece.new }
        ensures cause { HasCause (S.count self.old.port) (S.count self.new.port) result }
        ensures few { IfOk result (λ taken. taken ≤ max self.old.most 1) }
        ensures same { self.new.most ≡ self.old.most }
    {
        let room = piece.len().min(self.most.max(1));
        self.port.read(&mut piece[..room])
    }

    fn faults(&self) -> u64 {
        self.port.faults()
    }
}

impl<S: Sink> Sink for Short<S> {
    ghost written = { λ s. S.written s.port };

    ghost count = { λ s. S.count s.port };

    fn write(&mut self, piece: &[u8]) -> Result<usize, Failed>
        ensures bound { IfOk result (λ taken. taken ≤ length piece.now) }
        ensures some { 0 < length piece.now → IfOk result (λ taken. 0 < taken) }
        ensures bytes { WriteAppends (S.written self.old.port) (S.written self.new.port) result piece.now }
        ensures cause { HasCause (S.count self.old.port) (S.count self.new.port) result }
        ensures few { IfOk result (λ taken. taken ≤ max self.old.most 1) }
        ensures same { self.new.most ≡ self.old.most }
    {
        let room = piece.len().min(self.most.max(1));
        self.port.write(&piece[..room])
    }

    fn faults(&self) -> u64 {
        self.port.faults()
    }
}
