//! A stream over TCP whose reads and writes end in time.
ghost use Rattle.std.specs.Prelude.{◌≡◌, ◌<◌, ◌≤◌, length, IfOk, OnErr};
ghost use Rattle.std.specs.Duration.{as_nanos};
ghost use Rattle.std.specs.Io.{ReadsAtMost, WritesAtMost};
ghost use Rattle.std.specs.Io.KnownBytes.{ReadConsumes, WriteAppends};
ghost use Rattle.merge_ports.specs.Faults.{HasCause, one_more};

use merge_ports::{Failed, Sink, Source};
use std::io;
use std::io::{ErrorKind, Read, Write};
use std::net::TcpStream;
use std::time::{Duration, Instant};

/// How much of a time is left, and an error where none is.
pub(crate) fn left_of(rt: &HostRuntime, started: &Instant, whole: Duration) -> io::Result<Duration>
    ensures some { IfOk result (λ left. 0 < as_nanos left) }
    ensures within { IfOk result (λ left. as_nanos left ≤ as_nanos whole) }
{
    let passed = started.elapsed(rt)?;
    match whole.checked_sub(passed) {
        Some(left) if !left.is_zero() => Ok(left),
        _ => Err(ErrorKind::TimedOut.into()),
    }
}

/// A stream that asks the system to end each of its reads and writes in a time of its own, and all of
/// them within a time from when it was started. It counts each that fails, and tells none of its bytes.
/// Its times stay as they were given; what is asked of the system is in no clause.
#[derive(Drop)]
pub struct TimedStream {
    rt: HostRuntime,
    stream: TcpStream,
    started: Instant,
    at_once: Duration,
    in_all: Duration,
    faults: u64,
}

impl TimedStream {
    /// A stream of which nothing was read or written yet. A time of 0 for each read or write is none.
    pub fn new(
        rt: HostRuntime,
        stream: TcpStream,
        started: Instant,
        at_once: Duration,
        in_all: Duration,
    ) -> Self
        ensures fresh { ⟦<TimedStream as Source>⟧.count result ≡ 0 }
        ensures unwritten { ⟦<TimedStream as Sink>⟧.count result ≡ 0 }
        ensures made { result ≡ record { rt = rt; stream = stream; started = started; at_once = at_once; in_all = in_all; faults = 0 } }
    {
        TimedStream {
            rt,
            stream,
            started,
            at_once,
            in_all,
            faults: 0,
        }
    }

    /// The stream itself, of whose reads and writes nothing is asked from now on.
    pub fn into_stream(self) -> TcpStream
        ensures { result ≡ self.stream }
    {
        let TimedStream { stream, .. } = self;
        stream
    }

    // How long the next read or write may take, and an error where no time is left.
    fn wait(&self) -> io::Result<Duration>
        ensures some { IfOk result (λ wait. 0 < as_nanos wait) }
        ensures within { IfOk result (λ wait. as_nanos wait ≤ as_nanos self.now.in_all) }
    {
        let left = left_of(&self.rt, &self.started, self.in_all)?;
        if left < self.at_once || self.at_once.is_zero() {
            return Ok(left);
        }
        Ok(self.at_once)
    }

    fn read_in_time(&mut self, piece: &mut [u8]) -> io::Result<usize>
        ensures bound { ReadsAtMost result piece.new }
        ensures kept { self.new ≡ record self.old { stream = self.new.stream } }
    {
        self.stream.set_read_timeout(Some(self.wait()?))?;
        self.stream.read(piece)
    }

    fn write_in_time(&mut self, piece: &[u8]) -> io::Result<usize>
        ensures bound { WritesAtMost result piece.now }
        ensures kept { self.new ≡ record self.old { stream = self.new.stream } }
    {
        self.stream.set_write_timeout(Some(self.wait()?))?;
        self.stream.write(piece)
    }
}

impl Source for TimedStream {
    ghost use Rattle.std.specs.Prelude.{None};

    ghost left = { λ s. None };

    ghost count = { λ s. s.faults };

    fn read(&mut self, piece: &mut [u8]) -> Result<usize, Failed>
        ensures bound { ReadsAtMost result piece.new }
        ensures bytes { ReadConsumes None None result piece.new }
        ensures cause { HasCause self.old.faults self.new.faults result }
        ensures counted { OnErr result (self.new.faults ≡ one_more self.old.faults) }
        ensures kept { self.new ≡ record self.old { stream = self.new.stream; faults = self.new.faults } }
    {
        match self.read_in_time(piece) {
            Ok(taken) => Ok(taken),
            Err(_) => {
                self.faults = self.faults.saturating_add(1);
                Err(Failed)
            }
        }
    }

    fn faults(&self) -> u64 {
        self.faults
    }
}

impl Sink for TimedStream {
    ghost use Rattle.std.specs.Prelude.{None};

    ghost written = { λ s. None };

    ghost count = { λ s. s.faults };

    fn write(&mut self, piece: &[u8]) -> Result<usize, Failed>
        ensures bound { IfOk result (λ taken. taken ≤ length piece.now) }
        ensures some { 0 < length piece.now → IfOk result (λ taken. 0 < taken) }
        ensures bytes { WriteAppends None None result piece.now }
        ensures cause { HasCause self.old.faults self.new.faults result }
        ensures counted { OnErr result (self.new.faults ≡ one_more self.old.faults) }
        ensures kept { self.new ≡ record self.old { stream = self.new.stream; faults = self.new.faults } }
    {
        match self.write_in_time(piece) {
            Ok(taken) if taken > 0 || piece.is_empty() => Ok(taken),
            _ => {
                self.faults = self.faults.saturating_add(1);
                Err(Failed)
            }
        }
    }

    fn faults(&self) -> u64 {
        self.faults
    }
}
