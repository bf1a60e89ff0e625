//! Peers whose octets come two by two, upstreams whose writes fail or take nothing for a while, and
//! those that can't be reached.

ghost use Rattle.std.specs.Prelude.{◌≡◌, ◌+◌, ◌<◌, ◌^◌, OnOk};

use crate::loopback::{numbers, pair, waiting_listener};
use crate::worlds::{PlainWorld, alone, open};
use driver::{Next, World};
use gateway::{Event, Output, Text};
use mio::{Interest, Registry, Token};
use socket_io::Socket;
use sockets::{SocketWorld, Wire};
use std::alloc::{AllocError, Global};
use std::io::{ErrorKind, Read, Write};
use std::net::{IpAddr, Ipv4Addr, Net, SocketAddr, TcpListener, TcpStream};
use std::process::Abort;
use std::test::*;
use std::{io, mem};

/// What a peer of these tests sent, behind which it ended.
const SENT: &[u8] = b"HTTP/1.1 200 OK\r\n\r\nhi";

/// A socket to which no octet can be written, and that gives two at most in a read. What a write
/// does stands in its address.
#[derive(Drop)]
struct Failing {
    near: mio::net::TcpStream,
    plan: Plan,
    /// What is left of what its peer sent: nothing as yet of a client.
    unread: Option<&'static [u8]>,
}

/// So many writes take nothing, and the next one fails in this way.
#[derive(Clone, Copy, Drop)]
struct Plan {
    quiet: u8,
    fault: ErrorKind,
}

impl Plan {
    /// The address of an upstream at a port for which this is the plan.
    fn address(self, port: u16) -> SocketAddr {
        let fault = u8::from(self.fault == ErrorKind::BrokenPipe);
        SocketAddr::from((
            Ipv4Addr::new(127, 0, self.quiet, fault.wrapping_add(1)),
            port,
        ))
    }

    /// The plan that stands in an address.
    fn of_address(address: &SocketAddr) -> Plan {
        match address.ip() {
            IpAddr::V4(ip) => {
                let [_, _, quiet, fault] = ip.octets();
                Plan {
                    quiet,
                    fault: if fault == 2 {
                        ErrorKind::BrokenPipe
                    } else {
                        ErrorKind::ConnectionReset
                    },
                }
            }
            IpAddr::V6(_) => Plan {
                quiet: 0,
                fault: ErrorKind::Unsupported,
            },
        }
    }
}

impl Socket for Failing {
    ghost use Rattle.std.specs.Prelude.{None};

    ghost left = { λ _. None };

    ghost held = { λ _. None };

    fn receive(&mut self, room: &mut [u8]) -> io::Result<usize> {
        match &mut self.unread {
            Some(unread) => {
                let count = room.len().min(2);
                unread.read(&mut room[..count])
            }
            None => Err(io::Error::from(ErrorKind::WouldBlock)),
        }
    }

    fn send(&mut self, _octets: &[u8]) -> io::Result<usize> {
        if self.plan.quiet == 0 {
            return Err(io::Error::from(self.plan.fault));
        }
        self.plan.quiet -= 1;
        Err(io::Error::from(ErrorKind::WouldBlock))
    }
}

impl Wire for Failing {
    fn connect<N: Net>(net: &N, address: SocketAddr) -> io::Result<Self> {
        Ok(Failing {
            near: mio::net::TcpStream::connect(net, address)?,
            plan: Plan::of_address(&address),
            unread: Some(SENT),
        })
    }

    fn begin(&mut self, registry: &Registry, token: Token, interests: Interest) -> io::Result<()> {
        self.near.begin(registry, token, interests)
    }

    fn change(&mut self, registry: &Registry, token: Token, interests: Interest) -> io::Result<()> {
        self.near.change(registry, token, interests)
    }

    fn shut(&mut self) -> io::Result<()> {
        self.near.shut()
    }

    fn end(&mut self) -> io::Result<()> {
        self.near.end()
    }
}

/// How a connection comes to its end.
#[derive(Clone, Copy, Debug, PartialEq, Eq, Drop)]
enum End {
    Ended,
    Failed,
}

/// What comes of connection 1, or of the client, in twenty turns at most: its octets, and its end.
#[derive(Drop)]
struct Heard {
    octets: Vec<u8>,
    end: Option<End>,
}

/// Hears connection 1 of a world, or its client.
fn hear<S: Wire>(
    alloc: Global,
    world: &mut SocketWorld<'_, HostRuntime, S>,
) -> Result<Heard, AllocError>
    requires calls { world.old.calls + 20 < 2 ^ 64 }
    requires failures { world.old.failures + 20 < 2 ^ 64 }
{
    let mut octets = Vec::new(alloc);
    let mut end = None;
    for _turn in 0..20_u64 {
        match world.next(&[(1, 65536)], &[]) {
            Ok(Next::Happened(Event::Up(1, piece) | Event::Client(piece))) =>
                octets.extend_from_slice(&piece)?,
            Ok(Next::Happened(Event::UpEnd(1) | Event::ClientEnd)) => end = Some(End::Ended),
            Ok(Next::Happened(Event::UpFailed(1))) => end = Some(End::Failed),
            Ok(_) => {}
            Err(_) => break,
        }
        if end.is_some() {
            break;
        }
    }
    Ok(Heard { octets, end })
}

/// Octets that are put out to connection 1.
fn request(alloc: Global) -> Result<Output, AllocError> {
    let octets = Vec::from_slice(alloc, b"GET / HTTP/1.1\r\n\r\n")?;
    Ok(Output::Up(1, Text::from_octets(octets)))
}

/// What is heard of an upstream to which octets are put out where the writes fail by this plan.
fn heard_by(host: &HostRuntime, plan: Plan) -> Result<Heard, Fail> {
    let listener = TcpListener::bind(host, SocketAddr::from((Ipv4Addr::UNSPECIFIED, 0)))?;
    let addresses = [plan.address(listener.local_addr()?.port())];
    let (_client, far) = pair(host)?;
    let client = Failing {
        near: far,
        plan,
        unread: None,
    };
    let mut world = SocketWorld::new(host.alloc(), host, &addresses, client)?;
    world.apply(&Output::Open(1, 0))?;
    world.apply(&request(host.alloc())?)?;
    Ok(hear(host.alloc(), &mut world)?)
}

/// These octets are heard, and then this end.
fn assert_heard(rt: &impl Abort, heard: &Heard, octets: &[u8], end: End) {
    assert_eq!(rt; heard.octets.as_slice(), octets);
    assert_eq!(rt; heard.end, Some(end));
}

#[test]
fn a_broken_pipe_is_an_end_where_one_came(rt: HostRuntime) -> Result<(), Fail> {
    for quiet in 0..2_u8 {
        let plan = Plan {
            quiet,
            fault: ErrorKind::BrokenPipe,
        };
        assert_heard(&rt, &heard_by(&rt, plan)?, SENT, End::Ended);
    }
    Ok(())
}

#[test]
fn a_reset_is_a_failure_behind_what_was_sent(rt: HostRuntime) -> Result<(), Fail> {
    for quiet in 0..2_u8 {
        let plan = Plan {
            quiet,
            fault: ErrorKind::ConnectionReset,
        };
        assert_heard(&rt, &heard_by(&rt, plan)?, SENT, End::Failed);
    }
    Ok(())
}

/// Opens connection 1, and puts a request out to it: its other end.
fn ask(alloc: Global, world: &mut PlainWorld<'_>, listener: &TcpListener) -> Result<TcpStream, Fail>
    requires { world.old.failures + 1 < 2 ^ 64 }
    ensures calls { world.new.calls ≡ world.old.calls }
    ensures failures { OnOk result (world.new.failures ≡ world.old.failures) }
{
    open(world, 1, 0)?;
    world.apply(&request(alloc)?)?;
    let (socket, _address) = listener.accept()?;
    Ok(socket)
}

#[test]
fn an_upstream_that_breaks_off_has_failed(rt: HostRuntime) -> Result<(), Fail> {
    let listener = waiting_listener(&rt)?;
    let addresses = [listener.local_addr()?];
    let (_client, mut world) = alone(&rt, &addresses)?;
    let mut socket = ask(rt.alloc(), &mut world, &listener)?;
    socket.write_all(SENT)?;
    // What it was sent lies unread, so that it doesn't end its connection but resets it.
    mem::drop(socket);
    assert_heard(&rt, &hear(rt.alloc(), &mut world)?, SENT, End::Failed);
    Ok(())
}

#[test]
fn what_is_behind_a_short_read_is_read(rt: HostRuntime) -> Result<(), Fail> {
    let (mut near, far) = pair(&rt)?;
    // It is reported this once.
    near.write_all(b"x")?;
    let client = Failing {
        near: far,
        plan: Plan {
            quiet: 0,
            fault: ErrorKind::BrokenPipe,
        },
        unread: Some(SENT),
    };
    let mut world = SocketWorld::new(rt.alloc(), &rt, &[], client)?;
    assert_heard(&rt, &hear(rt.alloc(), &mut world)?, SENT, End::Ended);
    Ok(())
}

#[test]
fn an_upstream_without_an_address_has_failed(rt: HostRuntime) -> Result<(), Fail> {
    let (_client, mut world) = alone(&rt, &[])?;
    open(&mut world, 1, 0)?;
    assert_heard(&rt, &hear(rt.alloc(), &mut world)?, b"", End::Failed);
    Ok(())
}

/// Reads so many octets of a connection, while its world goes on.
fn read_slowly(
    world: &mut PlainWorld<'_>,
    socket: &mut TcpStream,
    count: usize,
    read: &mut Vec<u8>,
) -> io::Result<()>
    requires calls { world.old.calls + 100000 < 2 ^ 64 }
    requires failures { world.old.failures + 100000 < 2 ^ 64 }
{
    let mut room = [0u8; 4096];
    for _turn in 0..100_000_u64 {
        match socket.read(&mut room) {
            Ok(count) => read.extend_from_slice(&room[..count])?,
            Err(error) if error.kind() == ErrorKind::WouldBlock => {
                let _ = world.next(&[(1, 65536)], &[]);
            }
            Err(error) => return Err(error),
        }
        if read.len() >= count {
            break;
        }
    }
    Ok(())
}

/// Opens connection 1, and puts these octets out to it: what its other end reads, slowly.
fn read_behind(
    alloc: Global,
    world: &mut PlainWorld<'_>,
    listener: &TcpListener,
    octets: Vec<u8>,
) -> Result<Vec<u8>, Fail>
    requires calls { world.old.calls + 100000 < 2 ^ 64 }
    requires failures { world.old.failures + 100000 < 2 ^ 64 }
{
    open(world, 1, 0)?;
    let (mut socket, _address) = listener.accept()?;
    socket.set_nonblocking(true)?;
    let count = octets.len();
    world.apply(&Output::Up(1, Text::from_octets(octets)))?;
    let mut read = Vec::new(alloc);
    read_slowly(world, &mut socket, count, &mut read)?;
    Ok(read)
}

#[test]
fn an_upstream_that_reads_slowly_reads_all(rt: HostRuntime) -> Result<(), Fail> {
    let listener = waiting_listener(&rt)?;
    let addresses = [listener.local_addr()?];
    let (_client, mut world) = alone(&rt, &addresses)?;
    // Its socket doesn't take so many at once.
    let written = numbers(rt.alloc(), 4_000_000)?;
    let read = read_behind(
        rt.alloc(),
        &mut world,
        &listener,
        numbers(rt.alloc(), 4_000_000)?,
    )?;
    assert!(rt; read == written);
    Ok(())
}
