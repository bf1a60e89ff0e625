//! Bodies that go through a world of sockets, either way.

ghost use Rattle.std.specs.Prelude.{IfOk};
ghost use Rattle.gateway.specs.Setups.{setup_of, IsServable};

use crate::loopback::{pair, quiet_listener};
use driver::{Next, ServiceEnd, World, WorldFault, serve};
use gateway::{Config, Output, Passing, Route};
use sockets::SocketWorld;
use std::alloc::{AllocError, Global};
use std::io;
use std::io::{ErrorKind, Read, Write};
use std::net::{TcpListener, TcpStream};
use std::process::Abort;
use std::test::*;

/// How many octets each body has.
const LENGTH: usize = 100_000;

/// How many octets of a body stand in each DATA frame of the client.
const PART: usize = 10_000;

/// How many octets of a body a client may send at first, on a stream and on all (RFC 9113, section 6.9.2).
const FIRST_WINDOW: u64 = 65_535;

/// The preface, settings and a WINDOW_UPDATE by which the client takes 1,000,000 octets, and the
/// head of a POST with a body of 100,000 octets.
const OPENING: &[u8] =
    b"PRI * HTTP/2.0\r\n\r\nSM\r\n\r\n\0\0\x06\x04\0\0\0\0\0\0\x04\0\x0f\x42\x40\0\0\x04\x08\0\0\0\0\0\0\x0f\x42\x40\0\0\x1d\x01\x04\0\0\0\x01\x83\x86\x84\x41\x0fwww.example.com\x0f\x0d\x06100000";

/// The head of the response, whose body has as many.
const HEAD: &[u8] = b"HTTP/1.1 200 OK\r\nContent-Length: 100000\r\n\r\n";

/// A body in which each octet tells where it stands, and by this number which body it is.
fn body_of(alloc: Global, number: u32) -> Result<Vec<u8>, AllocError> {
    let mut body = Vec::new(alloc);
    for place in 0u32..100_000 {
        body.push((place.wrapping_mul(number) % 251) as u8)?;
    }
    Ok(body)
}

/// Reads what is there of a socket that doesn't wait, behind what was read before.
fn read_on(socket: &mut TcpStream, read: &mut Vec<u8>) -> io::Result<()> {
    let mut room = [0u8; 4096];
    for _ in 0..1_000 {
        match socket.read(&mut room) {
            Ok(0) => return Ok(()),
            Ok(count) => read.extend_from_slice(&room[..count])?,
            Err(error) if error.kind() == ErrorKind::WouldBlock => return Ok(()),
            Err(error) => return Err(error),
        }
    }
    Ok(())
}

/// A client that sends a body as far as the windows let it, and takes one.
#[derive(Drop)]
struct Client {
    socket: Option<TcpStream>,
    /// What it sends of the body yet.
    rest: Vec<u8>,
    /// How many octets it may send on all streams and on its own.
    on_all: u64,
    on_one: u64,
    /// What it read that is no whole frame yet.
    unread: Vec<u8>,
    /// What it read of the response's body.
    body: Vec<u8>,
}

impl Client {
    /// It reads what is there, and sends what it may. Once it has a body it leaves.
    fn go_on(&mut self) -> io::Result<()> {
        let Some(socket) = &mut self.socket else {
            return Ok(());
        };
        read_on(socket, &mut self.unread)?;
        self.take_frames()?;
        for _ in 0..LENGTH / PART {
            self.send_part()?;
        }
        if self.body.len() >= LENGTH {
            self.socket = None;
        }
        Ok(())
    }

    /// It takes the whole ones of the frames that it read.
    fn take_frames(&mut self) -> io::Result<()> {
        for _ in 0..self.unread.len() {
            if !self.take_frame()? {
                break;
            }
        }
        Ok(())
    }

    /// It takes the first of the frames that it read, if that is whole.
    fn take_frame(&mut self) -> io::Result<bool> {
        let Some((header, rest)) = self.unread.split_first_chunk::<9>() else {
            return Ok(false);
        };
        let [
            high,
            middle,
            low,
            kind,
            _flags,
            _first,
            _second,
            _third,
            stream,
        ] = *header;
        let length = u32::from_be_bytes([0, high, middle, low]) as usize;
        let Some(payload) = rest.get(..length) else {
            return Ok(false);
        };
        if kind == 0 {
            self.body.extend_from_slice(payload)?;
        }
        let increment = match payload.first_chunk::<4>() {
            Some(octets) if kind == 8 => u64::from(u32::from_be_bytes(*octets)),
            _ => 0,
        };
        if stream == 0 {
            self.on_all = self.on_all.saturating_add(increment);
        } else {
            self.on_one = self.on_one.saturating_add(increment);
        }
        let left = rest.len().saturating_sub(length);
        let taken = self.unread.len().saturating_sub(left);
        let _ = self.unread.drain(..taken);
        Ok(true)
    }

    /// It sends the next part of its body, if there is one and the windows let it.
    fn send_part(&mut self) -> io::Result<()> {
        let part = PART as u64;
        let (Some(on_all), Some(on_one)) = (
            self.on_all.checked_sub(part),
            self.on_one.checked_sub(part),
        ) else {
            return Ok(());
        };
        let (Some(socket), Some(octets)) = (&mut self.socket, self.rest.get(..PART)) else {
            return Ok(());
        };
        let is_last = u8::from(self.rest.len() == PART);
        socket.write_all(&[0, 0x27, 0x10, 0, is_last, 0, 0, 0, 1])?;
        socket.write_all(octets)?;
        let _ = self.rest.drain(..PART);
        self.on_all = on_all;
        self.on_one = on_one;
        Ok(())
    }
}

/// An upstream that answers once it has so many octets of a request's end.
#[derive(Drop)]
struct Server {
    listener: TcpListener,
    socket: Option<TcpStream>,
    /// What it was asked.
    asked: Vec<u8>,
    /// What its request ends with.
    wanted: Vec<u8>,
    /// What it answers yet.
    answer: Vec<u8>,
}

impl Server {
    /// It accepts its connection, reads what is there, and answers what it can.
    fn go_on(&mut self) -> io::Result<()> {
        if self.socket.is_none() {
            let (socket, _address) = self.listener.accept()?;
            socket.set_nonblocking(true)?;
            self.socket = Some(socket);
        }
        let Some(socket) = &mut self.socket else {
            return Ok(());
        };
        read_on(socket, &mut self.asked)?;
        if self.asked.ends_with(&self.wanted) && !self.answer.is_empty() {
            let count = socket.write(&self.answer)?;
            let _ = self.answer.drain(..count);
        }
        Ok(())
    }
}

/// A world of sockets whose client and upstream do before each `next` what they can.
#[derive(Drop)]
struct Passage<'a> {
    world: SocketWorld<'a, HostRuntime, mio::net::TcpStream>,
    client: Client,
    server: Server,
}

impl World for Passage<'_> {
    ghost use Rattle.std.specs.Prelude.{None, false, true, ⊤};

    ghost calls = { λ w. w.world.calls };

    ghost failures = { λ w. w.world.failures };

    ghost over = { λ _. false };

    ghost log = { λ _. None };

    ghost handed = { λ _. None };

    ghost keeps_rooms = { λ _. true };

    ghost moves = { λ _ _ _. ⊤ };

    ghost hears_idle_first = { λ _. ⊥ };

    ghost could_read = { λ _ _. true };

    ghost looks = { λ _. 0 };

    ghost heard_at = { λ _. 0 };

    fn next(&mut self, rooms: &[(u32, usize)], idle: &[u32]) -> Result<Next, WorldFault> {
        let _ = self.server.go_on();
        let _ = self.client.go_on();
        self.world.next(rooms, idle)
    }

    fn apply(&mut self, output: &Output) -> Result<(), WorldFault> {
        self.world.apply(output)
    }
}

/// A configuration with one route, by which bodies of this length pass.
fn config_of(alloc: Global, passing: Passing) -> Result<Config, AllocError>
    ensures { IfOk result (λ config. IsServable (setup_of config)) }
{
    let route = Route {
        authority: Vec::new(alloc),
        prefix: Vec::from_slice(alloc, b"/")?,
        upstream: String::new(alloc),
    };
    Ok(Config {
        passing,
        max_body: 100_000,
        max_response: 100_000,
        ..Config::new(vec![in alloc; route]?)
    })
}

/// A client that has sent the head of its request, and the socket of its world.
fn client_of(host: &HostRuntime) -> io::Result<(Client, mio::net::TcpStream)> {
    let (mut near, far) = pair(host)?;
    near.write_all(OPENING)?;
    let client = Client {
        socket: Some(near),
        rest: body_of(host.alloc(), 3)?,
        on_all: FIRST_WINDOW,
        on_one: FIRST_WINDOW,
        unread: Vec::new(host.alloc()),
        body: Vec::new(host.alloc()),
    };
    Ok((client, far))
}

/// An upstream that listens there.
fn server_of(alloc: Global, listener: TcpListener) -> Result<Server, AllocError> {
    let mut answer = Vec::from_slice(alloc, HEAD)?;
    answer.extend_from_slice(&body_of(alloc, 7)?)?;
    Ok(Server {
        listener,
        socket: None,
        asked: Vec::new(alloc),
        wanted: body_of(alloc, 3)?,
        answer,
    })
}

/// Bodies pass either way just as they are.
fn assert_passes(rt: &impl Abort, host: &HostRuntime, passing: Passing) -> Result<(), Fail> {
    let config = config_of(host.alloc(), passing)?;
    let listener = quiet_listener(host)?;
    let addresses = [listener.local_addr()?];
    let (client, far) = client_of(host)?;
    let mut passage = Passage {
        world: SocketWorld::new(host.alloc(), host, &addresses, far)?,
        client,
        server: server_of(host.alloc(), listener)?,
    };
    let ended = serve(host.alloc(), &config, &mut passage, 10_000);
    assert_eq!(rt; ended, Ok(ServiceEnd::Closed));
    assert!(rt; passage.client.body == body_of(host.alloc(), 7)?);
    let asked = &passage.server.asked;
    assert!(rt; asked.starts_with(b"POST / HTTP/1.1\r\n"));
    assert!(rt; asked.ends_with(&passage.server.wanted));
    // A head stands before it, and nothing else.
    assert!(rt; asked.len() < LENGTH + 200);
    Ok(())
}

#[test]
fn bodies_pass_once_they_are_whole(rt: HostRuntime) -> Result<(), Fail> {
    assert_passes(&rt, &rt, Passing::Whole)
}

#[test]
fn bodies_pass_as_their_octets_come(rt: HostRuntime) -> Result<(), Fail> {
    assert_passes(&rt, &rt, Passing::Streaming)
}
