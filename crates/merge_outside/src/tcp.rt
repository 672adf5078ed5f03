//! A link over TCP.
ghost use Rattle.std.specs.Prelude.{◌≡◌, ◌≤◌, ◌*◌, length, IfOk, IsErrOf};
ghost use Rattle.std.specs.Duration.{as_nanos};
ghost use Rattle.merge_ports.specs.Faults.{one_more};
ghost use Rattle.merge_link.specs.Carried.{HasLinkCause};
ghost use Rattle.merge_link.specs.declared.link.LinkFault.TheVariants.{Failed as failed};

use crate::connection::open_connection;
use crate::response::read_response;
use merge_link::{Link, LinkFault};
use merge_ports::write_whole;
use merge_types::{Octets, Words};
use std::time::Duration;

/// The most bytes of a response that are read: the longest body, twice the longest head and one more.
pub const RESPONSE_LIMIT: usize = 134_234_113;

/// How long a link waits.
#[derive(Clone, Copy, Debug, PartialEq, Eq)]
pub struct Waits {
    /// For a connection, over all addresses of the host.
    pub to_connect: Duration,
    /// From then on, until the request is written and the response read.
    pub to_answer: Duration,
}

impl Waits {
    /// 30 seconds to connect, and 300 to be answered.
    pub fn usual() -> Self
        ensures connect { as_nanos result.to_connect ≡ 30 * 1_000_000_000 }
        ensures answer { as_nanos result.to_answer ≡ 300 * 1_000_000_000 }
    {
        Waits {
            to_connect: Duration::from_secs(30),
            to_answer: Duration::from_secs(300),
        }
    }
}

/// A link over TCP with one connection for each request, which the peer ends. It tells its address, and
/// nothing of the responses to come nor of the exchanges.
///
/// A call fails where the address is none or has no answer, where the time ends, and where the
/// connection breaks. Looking up the name of a host ends in the system's time.
#[derive(Drop)]
pub struct TcpLink {
    rt: HostRuntime,
    pub(crate) address: Words,
    waits: Waits,
    faults: u64,
}

impl TcpLink {
    /// A link to `HOST:PORT`, which was asked nothing yet. No connection is made before it is asked.
    pub fn new(rt: HostRuntime, address: Words, waits: Waits) -> Self
        ensures { result ≡ record { rt = rt; address = address; waits = waits; faults = 0 } }
    {
        TcpLink {
            rt,
            address,
            waits,
            faults: 0,
        }
    }

    // One request over a connection of its own.
    fn exchange(&self, request: &[u8]) -> Result<Octets, LinkFault>
        ensures { IfOk result (λ response. length response ≤ 134_234_113) }
    {
        let address = self.address.as_str();
        let waits = self.waits;
        let opened = open_connection(&self.rt, address, waits.to_connect, waits.to_answer);
        let Ok(mut connection) = opened else {
            return Err(LinkFault::Failed);
        };
        if write_whole(&mut connection, request).is_err() {
            return Err(LinkFault::Failed);
        }
        read_response(self.rt.alloc(), &mut connection, RESPONSE_LIMIT)
    }
}

impl Link for TcpLink {
    ghost use Rattle.std.specs.Prelude.{None, Some};

    ghost coming = { λ l. None };

    ghost exchanges = { λ l. None };

    ghost count = { λ l. l.faults };

    ghost peer = { λ l. Some l.address };

    fn ask(&mut self, request: &[u8]) -> Result<Octets, LinkFault>
        ensures cause { HasLinkCause self.old.faults self.new.faults result }
        ensures fits { IfOk result (λ response. length response ≤ 134_234_113) }
        ensures counted { IsErrOf result failed → self.new.faults ≡ one_more self.old.faults }
        ensures kept { self.new ≡ record self.old { faults = self.new.faults } }
    {
        match self.exchange(request) {
            Ok(response) => Ok(response),
            Err(LinkFault::NoMemory) => Err(LinkFault::NoMemory),
            Err(LinkFault::Failed) => {
                self.faults = self.faults.saturating_add(1);
                Err(LinkFault::Failed)
            }
        }
    }

    fn faults(&self) -> u64 {
        self.faults
    }
}
