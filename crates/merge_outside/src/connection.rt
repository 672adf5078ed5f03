//! How a connection over TCP is made.
ghost use Rattle.std.specs.Prelude.{◌≡◌, IfOk};

use crate::timed::{TimedStream, left_of};
use merge_ports::Source;
use std::io;
use std::io::ErrorKind;
use std::net::{TcpStream, ToSocketAddrs};
use std::time::{Duration, Instant};

// Tries the addresses of `HOST:PORT` in turn, all of them within the time.
fn connect(rt: &HostRuntime, address: &str, within: Duration) -> io::Result<TcpStream> {
    let started = Instant::now(rt)?;
    let mut last = io::Error::from(ErrorKind::AddrNotAvailable);
    for addr in address.to_socket_addrs(rt)? {
        let left = left_of(rt, &started, within)?;
        match TcpStream::connect_timeout(rt, &addr, left) {
            Ok(stream) => return Ok(stream),
            Err(fault) => last = fault,
        }
    }
    Err(last)
}

/// Connects to `HOST:PORT` within a time, and begins the time for what is asked.
pub(crate) fn open_connection(
    rt: &HostRuntime,
    address: &str,
    to_connect: Duration,
    to_answer: Duration,
) -> io::Result<TimedStream>
    ensures fresh { IfOk result (λ connection. ⟦<TimedStream as Source>⟧.count connection ≡ 0) }
    ensures at_once { IfOk result (λ connection. connection.at_once ≡ to_answer) }
    ensures in_all { IfOk result (λ connection. connection.in_all ≡ to_answer) }
{
    let stream = connect(rt, address, to_connect)?;
    let started = Instant::now(rt)?;
    Ok(TimedStream::new(*rt, stream, started, to_answer, to_answer))
}
