//! Doors over TCP.
ghost use Rattle.std.specs.Prelude.{◌≡◌, IfOk};
ghost use Rattle.merge_desk.specs.Views.{seat_noted};
ghost use Rattle.merge_serve.specs.Attending.{traffic};
ghost use Rattle.merge_serve.specs.Closing.{IsServed};

use crate::waits::Waits;
use merge_desk::Seat;
use merge_outside::TimedStream;
use merge_ports::{Failed, OpenFault, Sink, Source};
use merge_serve::{Connection, Door, Doors};
use merge_types::Words;
use std::io;
use std::io::{ErrorKind, Read};
use std::net::{Shutdown, TcpListener, TcpStream};
use std::snapshot::Snapshot;
use std::sync::ledger::Ledger;
use std::time::{Duration, Instant};

// How many peers in turn may go away before they are accepted.
const GONE_IN_TURN: usize = 1000;

// What a peer may still send once it was answered, in pieces of 4096 bytes.
const PIECES_BEHIND: usize = 16;

// The two halves of a connection, whose time begins now.
fn halves(
    rt: HostRuntime,
    stream: TcpStream,
    waits: Waits,
) -> io::Result<(TimedStream, TimedStream)>
    ensures input { IfOk result (λ halves. ⟦<TimedStream as Source>⟧.count halves.0 ≡ 0) }
    ensures output { IfOk result (λ halves. ⟦<TimedStream as Sink>⟧.count halves.1 ≡ 0) }
{
    let started = Instant::now(&rt)?;
    let output = stream.try_clone()?;
    Ok((
        TimedStream::new(rt, stream, started, waits.at_once, waits.in_all),
        TimedStream::new(rt, output, started, waits.at_once, waits.in_all),
    ))
}

// Nothing more is written, and some of what the peer still sends is read: a socket that is closed
// with bytes to read would be reset, and the peer could lose the response.
fn hang_up(mut stream: TcpStream) -> io::Result<()> {
    stream.shutdown(Shutdown::Write)?;
    stream.set_read_timeout(Some(Duration::from_secs(1)))?;
    let mut piece = [0; 4096];
    for _ in 0..PIECES_BEHIND {
        if stream.read(&mut piece)? == 0 {
            return Ok(());
        }
    }
    Ok(())
}

// Whether a peer went away before it was accepted, so that the next may be.
fn is_gone(fault: &io::Error) -> bool {
    match fault.kind() {
        ErrorKind::ConnectionAborted | ErrorKind::ConnectionReset | ErrorKind::Interrupted => true,
        _ => false,
    }
}

/// A door over TCP. It tells nothing of its connections, and counts each call that fails.
#[derive(Drop)]
pub struct TcpDoor {
    rt: HostRuntime,
    listener: TcpListener,
    waits: Waits,
    faults: u64,
}

impl TcpDoor {
    /// A door at `HOST:PORT`, at the first of the host's addresses that can be listened at.
    pub fn open(rt: HostRuntime, address: &str, waits: Waits) -> io::Result<TcpDoor>
        ensures unfailed { IfOk result (λ door. door.faults ≡ 0) }
        ensures waits { IfOk result (λ door. door.waits ≡ waits) }
    {
        let listener = TcpListener::bind(&rt, address)?;
        Ok(TcpDoor {
            rt,
            listener,
            waits,
            faults: 0,
        })
    }

    // The next peer that has not gone away.
    fn next(&self) -> io::Result<TcpStream> {
        for _ in 0..GONE_IN_TURN {
            match self.listener.accept() {
                Ok((stream, _)) => return Ok(stream),
                Err(fault) if is_gone(&fault) => {}
                Err(fault) => return Err(fault),
            }
        }
        Err(ErrorKind::ConnectionAborted.into())
    }

    fn take(&self) -> io::Result<(TimedStream, TimedStream)>
        ensures input { IfOk result (λ halves. ⟦<TimedStream as Source>⟧.count halves.0 ≡ 0) }
        ensures output { IfOk result (λ halves. ⟦<TimedStream as Sink>⟧.count halves.1 ≡ 0) }
    {
        halves(self.rt, self.next()?, self.waits)
    }
}

impl Door for TcpDoor {
    ghost use Rattle.std.specs.Prelude.{None};

    type Input = TimedStream;

    type Output = TimedStream;

    ghost handed = { λ d. None };

    ghost count = { λ d. d.faults };

    fn accept(&mut self) -> Result<Connection<TimedStream, TimedStream>, Failed> {
        match self.take() {
            Ok((input, output)) => Ok(Connection::new(input, output)),
            Err(_) => {
                self.faults = self.faults.saturating_add(1);
                Err(Failed)
            }
        }
    }

    fn close<L: Ledger, M: Ledger>(
        connection: Connection<TimedStream, TimedStream>,
        seat: &mut Seat<L, M>,
    )
        requires { IsServed
            (traffic None None (⟦<TimedStream as Source>⟧.count connection.first_input.value) (⟦<TimedStream as Sink>⟧.count connection.first_output.value))
            (traffic None None (⟦<TimedStream as Source>⟧.count connection.input) (⟦<TimedStream as Sink>⟧.count connection.output))
            seat.old }
        ensures { seat.new ≡ seat_noted seat.old }
    {
        let (_input, output) = connection.into_halves(seat);
        if let Err(_) = hang_up(output.into_stream()) {}
    }

    fn faults(&self) -> u64 {
        self.faults
    }
}

/// Opens doors over TCP, and takes them back.
#[derive(Drop)]
pub struct TcpDoors {
    rt: HostRuntime,
    faults: u64,
    asked: Option<Snapshot<Words>>,
}

impl TcpDoors {
    /// Of which none was opened yet.
    pub fn new(rt: HostRuntime) -> Self
        ensures { result.faults ≡ 0 }
    {
        TcpDoors {
            rt,
            faults: 0,
            asked: None,
        }
    }
}

impl Doors for TcpDoors {
    ghost use Rattle.std.specs.Prelude.{None, option_map};

    type Opened = TcpDoor;

    ghost handed = { λ d. None };

    ghost count = { λ d. d.faults };

    ghost asked = { λ d. option_map (λ s. s.value) d.asked };

    fn door(&mut self, address: &Words) -> Result<TcpDoor, OpenFault> {
        self.asked = Some(Snapshot::of(address));
        match TcpDoor::open(self.rt, address.as_str(), Waits::usual()) {
            Ok(door) => Ok(door),
            Err(fault) if fault.kind() == ErrorKind::OutOfMemory => Err(OpenFault::NoMemory),
            Err(_) => {
                self.faults = self.faults.saturating_add(1);
                Err(OpenFault::Failed)
            }
        }
    }

    fn door_back(&mut self, door: TcpDoor) {
        self.faults = self.faults.saturating_add(door.faults());
    }
}
