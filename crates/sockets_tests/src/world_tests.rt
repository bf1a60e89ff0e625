//! A world in whose turns a client and an upstream take part.

ghost use Rattle.std.specs.Prelude.{IfOk};
ghost use Rattle.gateway.specs.Setups.{setup_of, IsServable};

use crate::loopback::{pair, quiet_listener};
use crate::worlds::{Came, PlainWorld, alone, came_next, open};
use driver::{Next, ServeFault, ServiceEnd, World, WorldFault, serve};
use gateway::{Config, Event, Output, Route};
use sockets::SocketWorld;
use std::alloc::{AllocError, Global};
use std::io::{ErrorKind, Read, Write};
use std::net::{Shutdown, SocketAddr, TcpListener, TcpStream};
use std::process::Abort;
use std::test::*;
use std::{io, mem};

/// The preface, settings without entries, and a GET without a body on stream 1.
const REQUEST: &[u8] =
    b"PRI * HTTP/2.0\r\n\r\nSM\r\n\r\n\0\0\0\x04\0\0\0\0\0\0\0\x14\x01\x05\0\0\0\x01\x82\x86\x84\x41\x0fwww.example.com";

/// What the client is sent for these settings: the gateway's, and their acknowledgement.
const GREETING: &[u8] =
    b"\0\0\x0c\x04\0\0\0\0\0\0\x03\0\0\0\x64\0\x06\0\0\x40\0\0\0\0\x04\x01\0\0\0\0";

/// The request's text upstream.
const TEXT: &[u8] =
    b"GET / HTTP/1.1\r\nhost: www.example.com\r\nvia: 2.0 h2gw\r\nconnection: close\r\n\r\n";

/// The response's text, and its frames.
const ANSWER: &[u8] = b"HTTP/1.1 200 OK\r\nContent-Length: 2\r\n\r\nhi";

const FRAMES: &[u8] = b"\0\0\x05\x01\x04\0\0\0\x01\x88\x0f\x0d\x01\x32\0\0\x02\0\x01\0\0\0\x01hi";

/// The frames that go back where the upstream is down: the status 502.
const BAD_GATEWAY: &[u8] = b"\0\0\x09\x01\x05\0\0\0\x01\x08\x03502\x0f\x0d\x01\x30";

/// A response in chunks, in three pieces, and the frames that go back.
const CHUNKS: [&[u8]; 3] = [
    b"HTTP/1.1 200 OK\r\nTransfer-Encoding: chunked\r\n\r\n1",
    b"0\r\n0123456789abcdef\r\n",
    b"0\r\n\r\n",
];

const CHUNK_FRAMES: &[u8] =
    b"\0\0\x01\x01\x04\0\0\0\x01\x88\0\0\x10\0\x01\0\0\0\x010123456789abcdef";

/// A response that ends with its connection, and the frames that go back.
const OPEN_ENDED: &[u8] = b"HTTP/1.1 200 OK\r\n\r\nhi";

const OPEN_ENDED_FRAMES: &[u8] = b"\0\0\x01\x01\x04\0\0\0\x01\x88\0\0\x02\0\x01\0\0\0\x01hi";

/// Responses whose length is given twice: the same one, and two.
const SAME_LENGTHS: &[u8] = b"HTTP/1.1 200 OK\r\nContent-Length: 2\r\nContent-Length: 2\r\n\r\nhi";

const TWO_LENGTHS: &[u8] = b"HTTP/1.1 200 OK\r\nContent-Length: 2\r\nContent-Length: 3\r\n\r\nhi";

/// The frames that go back where no route matches: the status 404.
const NOT_FOUND: &[u8] = b"\0\0\x05\x01\x05\0\0\0\x01\x8d\x0f\x0d\x01\x30";

/// The frames that go back on streams 5, 1 and 3.
const JOINED: &[u8] =
    b"\0\0\x05\x01\x04\0\0\0\x05\x88\x0f\x0d\x01\x32\0\0\x02\0\x01\0\0\0\x05hi\0\0\x05\x01\x04\0\0\0\x01\x88\x0f\x0d\x01\x32\0\0\x02\0\x01\0\0\0\x01hi\0\0\x05\x01\x04\0\0\0\x03\x88\x0f\x0d\x01\x32\0\0\x02\0\x01\0\0\0\x03hi";

/// A world of sockets in whose turns a client and an upstream take part, each with one step before each `next`.
#[derive(Drop)]
struct Loopback<'a> {
    world: PlainWorld<'a>,
    peers: Peers,
}

/// The client and the upstream.
#[derive(Drop)]
struct Peers {
    upstream: TcpListener,
    client: Option<TcpStream>,
    /// The client leaves once it read so many octets.
    enough: usize,
    /// What the client read, in how many reads, and what the upstream did.
    read: Vec<u8>,
    reads: u32,
    asked: Vec<u8>,
    /// The upstream answers once so many connections wait, the last one first.
    answers: usize,
    waiting: Vec<TcpStream>,
    /// What it answers with in place of the answer in one piece, one piece a turn; then it closes.
    pieces: Vec<Vec<u8>>,
    answering: Option<TcpStream>,
}

impl Peers {
    /// The next connection waits, if there is one.
    fn accept(&mut self) -> io::Result<()> {
        match self.upstream.accept() {
            Ok((socket, _address)) => {
                self.waiting.push(socket)?;
                Ok(())
            }
            Err(error) if error.kind() == ErrorKind::WouldBlock => Ok(()),
            Err(error) => Err(error),
        }
    }

    /// The upstream answers once enough connections wait: the last one, and then the others in order.
    fn answer(&mut self) -> io::Result<()> {
        self.go_on()?;
        for _ in 0..self.answers {
            self.accept()?;
        }
        if self.waiting.len() < self.answers {
            return Ok(());
        }
        if let Some(socket) = self.waiting.pop() {
            self.answer_at(socket)?;
        }
        for _ in 0..self.answers {
            if self.waiting.is_empty() {
                break;
            }
            let socket = self.waiting.remove(0);
            self.answer_at(socket)?;
        }
        Ok(())
    }

    /// The upstream goes on with the next piece of an answer that it began, or closes behind the last.
    fn go_on(&mut self) -> io::Result<()> {
        let Some(mut socket) = self.answering.take() else {
            return Ok(());
        };
        if self.pieces.is_empty() {
            return Ok(());
        }
        let piece = self.pieces.remove(0);
        socket.write_all(&piece)?;
        self.answering = Some(socket);
        Ok(())
    }

    /// The upstream reads a request, and answers it, or begins to.
    fn answer_at(&mut self, mut socket: TcpStream) -> io::Result<()> {
        let mut room = [0u8; 256];
        let count = socket.read(&mut room)?;
        self.asked.extend_from_slice(&room[..count])?;
        if self.pieces.is_empty() {
            return socket.write_all(ANSWER);
        }
        self.answering = Some(socket);
        Ok(())
    }

    /// The client reads what is there, and leaves if that is enough.
    fn listen(&mut self) -> io::Result<()> {
        if let Some(socket) = &mut self.client {
            let mut room = [0u8; 256];
            match socket.read(&mut room) {
                Ok(count) => {
                    self.read.extend_from_slice(&room[..count])?;
                    self.reads = self.reads.saturating_add(1);
                }
                Err(error) if error.kind() == ErrorKind::WouldBlock => {}
                Err(error) => return Err(error),
            }
        }
        if self.read.len() >= self.enough {
            self.client = None;
        }
        Ok(())
    }
}

impl World for Loopback<'_> {
    ghost use Rattle.std.specs.Prelude.{None, false, true, ⊤};

    ghost calls = { λ w. w.world.calls };

    ghost failures = { λ w. w.world.failures };

    ghost over = { λ _. false };

    ghost log = { λ _. None };

    ghost handed = { λ _. None };

    ghost keeps_rooms = { λ _. true };

    ghost moves = { λ _ _ _. ⊤ };

    ghost hears_idle_first = { λ _. ⊥ };

    ghost could_read = { λ _ _. true };

    ghost looks = { λ _. 0 };

    ghost heard_at = { λ _. 0 };

    fn next(&mut self, rooms: &[(u32, usize)], idle: &[u32]) -> Result<Next, WorldFault> {
        let _ = self.peers.answer();
        let _ = self.peers.listen();
        self.world.next(rooms, idle)
    }

    fn apply(&mut self, output: &Output) -> Result<(), WorldFault> {
        self.world.apply(output)
    }
}

/// A configuration with one route, for every request.
fn one_route(alloc: Global) -> Result<Config, AllocError>
    ensures { IfOk result (λ config. IsServable (setup_of config)) }
{
    route_of(alloc, b"")
}

/// A configuration with one route, for requests of this authority.
fn route_of(alloc: Global, authority: &[u8]) -> Result<Config, AllocError>
    ensures { IfOk result (λ config. IsServable (setup_of config)) }
{
    let route = Route {
        authority: Vec::from_slice(alloc, authority)?,
        prefix: Vec::from_slice(alloc, b"/")?,
        upstream: String::new(alloc),
    };
    Ok(Config {
        max_body: 1,
        max_response: 1000,
        ..Config::new(vec![in alloc; route]?)
    })
}

/// A client and its upstream: what the client sends, how many connections the upstream answers at
/// once, the last one first, with which pieces in place of the answer in one piece, and how many
/// octets the client reads before it leaves.
#[derive(Clone, Copy)]
struct Visit<'a> {
    sent: &'a [u8],
    answers: usize,
    pieces: &'a [&'a [u8]],
    enough: usize,
}

/// How serving ended, what the client read, in how many reads, and what the upstream was asked.
#[derive(Drop)]
struct Seen {
    ended: Result<ServiceEnd, ServeFault>,
    read: Vec<u8>,
    reads: u32,
    asked: Vec<u8>,
}

/// Copies of these pieces.
fn owned(alloc: Global, pieces: &[&[u8]]) -> Result<Vec<Vec<u8>>, AllocError> {
    let mut copies = Vec::new(alloc);
    for piece in pieces {
        copies.push(Vec::from_slice(alloc, piece)?)?;
    }
    Ok(copies)
}

/// The peers of a visit before anything happened but that the client sent all.
fn peers_of(
    rt: &HostRuntime,
    visit: &Visit<'_>,
    upstream: TcpListener,
    mut client: TcpStream,
) -> io::Result<Peers> {
    client.write_all(visit.sent)?;
    Ok(Peers {
        upstream,
        client: Some(client),
        enough: visit.enough,
        read: Vec::new(rt.alloc()),
        reads: 0,
        asked: Vec::new(rt.alloc()),
        answers: visit.answers,
        waiting: Vec::new(rt.alloc()),
        pieces: owned(rt.alloc(), visit.pieces)?,
        answering: None,
    })
}

/// Serves a visit, where the upstream listens, and is reached at the one of these addresses.
fn serve_visit<'a>(
    rt: &'a HostRuntime,
    addresses: &'a [SocketAddr],
    config: &Config,
    visit: &Visit<'_>,
    upstream: TcpListener,
) -> Result<Seen, Fail>
    requires { IsServable (setup_of config.now) }
{
    let (client, far) = pair(rt)?;
    let peers = peers_of(rt, visit, upstream, client)?;
    let mut world = Loopback {
        world: SocketWorld::new(rt.alloc(), rt, addresses, far)?,
        peers,
    };
    let ended = serve(rt.alloc(), config, &mut world, 100);
    Ok(Seen {
        ended,
        read: mem::replace(&mut world.peers.read, Vec::new(rt.alloc())),
        reads: world.peers.reads,
        asked: mem::replace(&mut world.peers.asked, Vec::new(rt.alloc())),
    })
}

/// A client read the greeting and then these frames, and left.
fn assert_read(rt: &impl Abort, seen: &Seen, frames: &[u8]) {
    let ended = &seen.ended;
    assert!(rt; matches!(ended, Ok(ServiceEnd::Closed)));
    let (greeting, rest) = seen.read.split_at(GREETING.len().min(seen.read.len()));
    assert_eq!(rt; greeting, GREETING);
    assert_eq!(rt; rest, frames);
}

/// A client that asks an upstream which answers with these pieces, and then closes, reads these frames.
fn assert_goes_back(
    rt: &impl Abort,
    host: &HostRuntime,
    pieces: &[&[u8]],
    frames: &[u8],
) -> Result<(), Fail> {
    let config = one_route(host.alloc())?;
    let upstream = quiet_listener(host)?;
    let addresses = [upstream.local_addr()?];
    let visit = Visit {
        sent: REQUEST,
        answers: 1,
        pieces,
        enough: GREETING.len().saturating_add(frames.len()),
    };
    let seen = serve_visit(host, &addresses, &config, &visit, upstream)?;
    assert_read(rt, &seen, frames);
    assert_eq!(rt; seen.asked.as_slice(), TEXT);
    Ok(())
}

#[test]
fn a_request_goes_there_and_back(rt: HostRuntime) -> Result<(), Fail> {
    assert_goes_back(&rt, &rt, &[], FRAMES)
}

#[test]
fn responses_go_back_once_they_are_whole(rt: HostRuntime) -> Result<(), Fail> {
    assert_goes_back(&rt, &rt, &[SAME_LENGTHS], FRAMES)?;
    assert_goes_back(&rt, &rt, &[TWO_LENGTHS], BAD_GATEWAY)?;
    assert_goes_back(&rt, &rt, &[OPEN_ENDED], OPEN_ENDED_FRAMES)?;
    assert_goes_back(&rt, &rt, &[b"junk"], BAD_GATEWAY)?;
    assert_goes_back(&rt, &rt, &CHUNKS, CHUNK_FRAMES)?;
    assert_goes_back(&rt, &rt, &CHUNKS[..2], BAD_GATEWAY)
}

#[test]
fn an_upstream_that_is_down_is_no_fault_of_the_world(rt: HostRuntime) -> Result<(), Fail> {
    let config = one_route(rt.alloc())?;
    let addresses = [quiet_listener(&rt)?.local_addr()?];
    let visit = Visit {
        sent: REQUEST,
        answers: 1,
        pieces: &[],
        enough: GREETING.len() + BAD_GATEWAY.len(),
    };
    let seen = serve_visit(&rt, &addresses, &config, &visit, quiet_listener(&rt)?)?;
    assert_read(&rt, &seen, BAD_GATEWAY);
    Ok(())
}

#[test]
fn a_request_without_a_route_is_not_found(rt: HostRuntime) -> Result<(), Fail> {
    let config = route_of(rt.alloc(), b"a.example")?;
    let upstream = quiet_listener(&rt)?;
    let addresses = [upstream.local_addr()?];
    let visit = Visit {
        sent: REQUEST,
        answers: 1,
        pieces: &[],
        enough: GREETING.len() + NOT_FOUND.len(),
    };
    let seen = serve_visit(&rt, &addresses, &config, &visit, upstream)?;
    assert_read(&rt, &seen, NOT_FOUND);
    assert!(rt; seen.asked.is_empty());
    Ok(())
}

/// Whether a connection waits at a listener.
fn is_called(listener: &TcpListener) -> bool {
    for _ in 0..1000 {
        if listener.accept().is_ok() {
            return true;
        }
    }
    false
}

#[test]
fn each_route_has_its_own_address(rt: HostRuntime) -> Result<(), Fail> {
    let first = quiet_listener(&rt)?;
    let second = quiet_listener(&rt)?;
    let addresses = [first.local_addr()?, second.local_addr()?];
    let (_client, mut world) = alone(&rt, &addresses)?;
    open(&mut world, 1, 1)?;
    let by_second = [is_called(&first), is_called(&second)];
    open(&mut world, 2, 0)?;
    let by_first = [is_called(&first), is_called(&second)];
    assert_eq!(rt; [by_second, by_first], [[false, true], [true, false]]);
    Ok(())
}

#[test]
fn a_client_that_breaks_off_is_one(rt: HostRuntime) -> Result<(), Fail> {
    let config = one_route(rt.alloc())?;
    let (mut client, mut far) = pair(&rt)?;
    far.write_all(b"unread")?;
    client.write_all(&REQUEST[..30])?;
    drop(client);
    let mut world = SocketWorld::new(rt.alloc(), &rt, &[], far)?;
    let ended = serve(rt.alloc(), &config, &mut world, 100);
    assert_eq!(rt; ended, Err(ServeFault::World));
    Ok(())
}

/// As many connections as fill the queue of a listener that accepts none.
fn crowd(rt: &HostRuntime, address: SocketAddr) -> io::Result<Vec<mio::net::TcpStream>> {
    let mut all = Vec::new(rt.alloc());
    for _ in 0..200 {
        all.push(mio::net::TcpStream::connect(rt, address)?)?;
    }
    Ok(all)
}

#[test]
fn a_world_waits_until_something_comes(rt: HostRuntime) -> Result<(), Fail> {
    let upstream = quiet_listener(&rt)?;
    let addresses = [upstream.local_addr()?];
    let _crowd = crowd(&rt, addresses[0])?;
    let (_client, mut world) = alone(&rt, &addresses)?;
    open(&mut world, 1, 0)?;
    // The first try isn't answered. The next one, a second later, is refused, since nobody listens
    // any more: until then nothing comes.
    mem::drop(upstream);
    assert_eq!(rt;
        came_next(&mut world, &[(1, 65536)], &[]),
        Came::UpFailed(1)
    );
    Ok(())
}

#[test]
fn an_end_that_is_known_comes_before_the_clients_octets(rt: HostRuntime) -> Result<(), Fail> {
    let upstream = quiet_listener(&rt)?;
    let addresses = [upstream.local_addr()?];
    let (mut client, mut world) = alone(&rt, &addresses)?;
    open(&mut world, 1, 0)?;
    client.write_all(REQUEST)?;
    // The connection is accepted, and ended. So a request that comes then doesn't go out on it, were it an idle one.
    let is_called = is_called(&upstream);
    let first = came_next(&mut world, &[(1, 65536)], &[]);
    let second = came_next(&mut world, &[], &[]);
    assert_eq!(rt;
        (is_called, first, second),
        (true, Came::UpEnd(1), Came::Client)
    );
    Ok(())
}

/// The request on three streams.
const THREE: &[u8] =
    b"PRI * HTTP/2.0\r\n\r\nSM\r\n\r\n\0\0\0\x04\0\0\0\0\0\0\0\x14\x01\x05\0\0\0\x01\x82\x86\x84\x41\x0fwww.example.com\0\0\x04\x01\x05\0\0\0\x03\x82\x86\x84\xbe\0\0\x04\x01\x05\0\0\0\x05\x82\x86\x84\xbe";

#[test]
fn responses_that_are_there_go_back_in_one_write(rt: HostRuntime) -> Result<(), Fail> {
    let config = one_route(rt.alloc())?;
    let upstream = quiet_listener(&rt)?;
    let addresses = [upstream.local_addr()?];
    let visit = Visit {
        sent: THREE,
        answers: 3,
        pieces: &[],
        enough: GREETING.len() + JOINED.len(),
    };
    let seen = serve_visit(&rt, &addresses, &config, &visit, upstream)?;
    assert_read(&rt, &seen, JOINED);
    // The greeting, and then all three: each in a write of its own would be read in as many reads more.
    assert!(rt; seen.reads < 4);
    Ok(())
}

#[test]
fn what_is_put_out_goes_out_where_the_turns_end(rt: HostRuntime) -> Result<(), Fail> {
    let config = one_route(rt.alloc())?;
    let (mut client, far) = pair(&rt)?;
    client.write_all(REQUEST)?;
    let mut world = SocketWorld::new(rt.alloc(), &rt, &[], far)?;
    let ended = serve(rt.alloc(), &config, &mut world, 1);
    assert_eq!(rt; ended, Ok(ServiceEnd::Turns));
    client.shutdown(Shutdown::Write)?;
    world.finish()?;
    let mut room = [0u8; 256];
    let count = client.read(&mut room)?;
    assert_eq!(rt; &room[..count], GREETING);
    Ok(())
}

/// The gateway's settings, which go out before all else.
const SETTINGS: &[u8] = b"\0\0\x0c\x04\0\0\0\0\0\0\x03\0\0\0\x64\0\x06\0\0\x40\0";

/// The GOAWAY behind a wrong preface (RFC 9113, sections 3.4 and 6.8).
const FAREWELL: &[u8] = b"\0\0\x08\x07\0\0\0\0\0\0\0\0\0\0\0\0\x01";

/// Writes so many octets that are no preface, and then no more.
fn send_on(alloc: Global, client: &mut TcpStream, count: usize) -> io::Result<()> {
    let octets = vec![in alloc; b'x'; count]?;
    client.write_all(&octets)?;
    client.shutdown(Shutdown::Write)
}

#[test]
fn a_client_that_sends_on_reads_why_it_was_left(rt: HostRuntime) -> Result<(), Fail> {
    let config = one_route(rt.alloc())?;
    let (mut client, far) = pair(&rt)?;
    send_on(rt.alloc(), &mut client, 200_000)?;
    let mut world = SocketWorld::new(rt.alloc(), &rt, &[], far)?;
    let ended = serve(rt.alloc(), &config, &mut world, 100);
    assert_eq!(rt; ended, Ok(ServiceEnd::Closed));
    world.finish()?;
    mem::drop(world);
    // Were octets left unread, the socket would be reset, and what was written might be lost.
    let mut read = Vec::new(rt.alloc());
    client.read_to_end(&mut read)?;
    let (settings, goaway) = read.split_at(SETTINGS.len().min(read.len()));
    assert_eq!(rt; settings, SETTINGS);
    assert_eq!(rt; goaway, FAREWELL);
    Ok(())
}
