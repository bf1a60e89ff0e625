//! Sockets of upstreams that go wrong behind what came of them at first.

ghost use Rattle.std.specs.Io.{ReadsAtMost};

use mio::net::TcpStream;
use mio::{Interest, Registry, Token};
use socket_io::Socket;
use sockets::Wire;
use std::io;
use std::io::ErrorKind;
use std::net::{IpAddr, Ipv4Addr, Net, SocketAddr};
use std::test::*;

/// How a read goes wrong.
#[derive(Clone, Copy, Debug, PartialEq, Eq, Drop)]
pub(crate) enum Fault {
    /// It fails in this way.
    Fails(ErrorKind),
    /// One read fails in this way, and the next one is as it should be.
    FailsOnce(ErrorKind),
    /// There is an end, whatever is there.
    Ends,
    /// So many reads give an octet each, and the next one fails.
    Trickles(u8),
}

/// All that are tried.
pub(crate) const FAULTS: [Fault; 6] = [
    Fault::Fails(ErrorKind::ConnectionReset),
    Fault::Fails(ErrorKind::TimedOut),
    Fault::FailsOnce(ErrorKind::Interrupted),
    Fault::FailsOnce(ErrorKind::WouldBlock),
    Fault::Ends,
    Fault::Trickles(3),
];

/// So many octets of an upstream come before it goes wrong.
pub(crate) const SOUND: usize = 100;

/// A socket that gives so many octets as it should, and then goes wrong, unless it has no fault.
#[derive(Drop)]
pub(crate) struct Faulty {
    near: TcpStream,
    sound: usize,
    fault: Option<Fault>,
}

impl Faulty {
    /// A client's socket, which has no fault.
    pub(crate) fn client(near: TcpStream) -> Faulty {
        Faulty {
            near,
            sound: 0,
            fault: None,
        }
    }

    /// The address of an upstream at a port that has the fault at this place, if there is one.
    pub(crate) fn address(place: u8, port: u16) -> SocketAddr {
        SocketAddr::from((Ipv4Addr::new(127, 0, 1, place), port))
    }

    /// Reads where it goes wrong.
    fn receive_wrong(&mut self, fault: Fault, room: &mut [u8]) -> io::Result<usize>
        ensures { ReadsAtMost result room.new }
    {
        match fault {
            Fault::Fails(kind) => Err(io::Error::from(kind)),
            Fault::FailsOnce(kind) => {
                self.fault = None;
                Err(io::Error::from(kind))
            }
            Fault::Ends => Ok(0),
            Fault::Trickles(0) => Err(io::Error::from(ErrorKind::ConnectionReset)),
            Fault::Trickles(left) => {
                self.fault = Some(Fault::Trickles(left.saturating_sub(1)));
                let most = room.len().min(1);
                self.near.receive(&mut room[..most])
            }
        }
    }
}

/// The fault of an upstream at this address.
fn fault_at(address: &SocketAddr) -> Option<Fault> {
    let IpAddr::V4(ip) = address.ip() else {
        return None;
    };
    let [_, _, _, place] = ip.octets();
    FAULTS.get(usize::from(place)).copied()
}

impl Socket for Faulty {
    ghost use Rattle.std.specs.Prelude.{None};

    ghost left = { λ _. None };

    ghost held = { λ _. None };

    fn receive(&mut self, room: &mut [u8]) -> io::Result<usize> {
        let Some(fault) = self.fault else {
            return self.near.receive(room);
        };
        if self.sound == 0 {
            return self.receive_wrong(fault, room);
        }
        let most = room.len().min(self.sound);
        let received = self.near.receive(&mut room[..most]);
        if let Ok(count) = &received {
            self.sound = self.sound.saturating_sub(*count);
        }
        received
    }

    fn send(&mut self, octets: &[u8]) -> io::Result<usize> {
        self.near.send(octets)
    }
}

impl Wire for Faulty {
    fn connect<N: Net>(net: &N, address: SocketAddr) -> io::Result<Self> {
        Ok(Faulty {
            near: TcpStream::connect(net, address)?,
            sound: SOUND,
            fault: fault_at(&address),
        })
    }

    fn begin(&mut self, registry: &Registry, token: Token, interests: Interest) -> io::Result<()> {
        self.near.begin(registry, token, interests)
    }

    fn change(&mut self, registry: &Registry, token: Token, interests: Interest) -> io::Result<()> {
        self.near.change(registry, token, interests)
    }

    fn shut(&mut self) -> io::Result<()> {
        self.near.shut()
    }

    fn end(&mut self) -> io::Result<()> {
        self.near.end()
    }
}
