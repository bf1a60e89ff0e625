//! One side: what it hears once it is shut, what it takes again, and for what it is reported.

use crate::loopback::{numbers, pair};
use mio::{Events, Interest, Poll, Registry, Token};
use socket_io::{Got, PutFault, Socket};
use sockets::{Side, Wire};
use std::alloc::Global;
use std::cell::RefCell;
use std::io;
use std::io::{ErrorKind, Read, Write};
use std::net::{Net, SocketAddr, TcpStream};
use std::test::*;
use std::time::Duration;

#[test]
fn a_side_that_is_shut_still_hears(rt: HostRuntime) -> Result<(), Fail> {
    let (mut far, near) = pair(&rt)?;
    let poll = Poll::new(&rt)?;
    let mut side = Side::new(rt.alloc(), poll.registry(), near, Token(1), 1000)?;
    side.shut()?;
    let mut room = [0u8; 4];
    assert!(rt; matches!(far.read(&mut room), Ok(0)));
    far.write_all(b"x")?;
    let got = side.read(rt.alloc(), &mut room)?;
    assert!(rt; matches!(&got, Got::Octets(octets) if octets.as_slice() == b"x".as_slice()));
    Ok(())
}

/// What the other end of a socket reads, with what is reported in between, until it has so many
/// octets.
fn read_slowly(
    alloc: Global,
    poll: &mut Poll,
    side: &mut Side<mio::net::TcpStream>,
    far: &mut TcpStream,
    most: usize,
    read: &mut Vec<u8>,
) -> io::Result<()> {
    let mut reports = Events::with_capacity(alloc, 8)?;
    let mut room = [0u8; 4096];
    for _ in 0..100_000 {
        if read.len() >= most {
            return Ok(());
        }
        match far.read(&mut room) {
            Ok(count) => read.extend_from_slice(&room[..count])?,
            Err(error) if error.kind() == ErrorKind::WouldBlock => {
                poll.poll(&mut reports, Some(Duration::from_millis(10)))?;
                note_all(&reports, side);
                side.flush(poll.registry())?;
            }
            Err(error) => return Err(error),
        }
    }
    Ok(())
}

fn note_all(reports: &Events, side: &mut Side<mio::net::TcpStream>) {
    for report in reports {
        side.note(report);
    }
}

/// Puts octets out in pieces.
fn put_all(
    registry: &Registry,
    side: &mut Side<mio::net::TcpStream>,
    octets: &[u8],
) -> Result<(), PutFault> {
    for piece in octets.chunks(777) {
        side.put(registry, piece)?;
    }
    Ok(())
}

#[test]
fn a_client_that_reads_slowly_reads_all(rt: HostRuntime) -> Result<(), Fail> {
    let (mut far, near) = pair(&rt)?;
    let mut poll = Poll::new(&rt)?;
    let mut side = Side::new(rt.alloc(), poll.registry(), near, Token(1), 1000)?;
    let written = numbers(rt.alloc(), 1_500_000)?;
    put_all(poll.registry(), &mut side, &written)?;
    let all = written.len() as u64;
    let owes_all = side.owes_more_than(all.saturating_sub(1));
    let taken = side.tell(1);
    let mut read = Vec::new(rt.alloc());
    read_slowly(
        rt.alloc(),
        &mut poll,
        &mut side,
        &mut far,
        written.len(),
        &mut read,
    )?;
    assert!(rt; read == written);
    // Its socket doesn't take so many while nothing is read.
    assert!(rt; owes_all && taken < all);
    assert_eq!(rt; taken.saturating_add(side.tell(1)), all);
    Ok(())
}

/// A socket that takes nothing, and notes under which token and for what it is reported.
#[derive(Drop)]
struct Noting<'a> {
    near: mio::net::TcpStream,
    asked: &'a RefCell<Vec<(Token, Interest)>>,
}

impl Noting<'_> {
    /// Notes what it is reported for.
    fn note(&self, token: Token, interests: Interest) -> io::Result<()> {
        let Ok(mut asked) = self.asked.try_borrow_mut() else {
            return Err(io::Error::from(ErrorKind::Other));
        };
        asked.push((token, interests))?;
        Ok(())
    }
}

impl Socket for Noting<'_> {
    ghost use Rattle.std.specs.Prelude.{None};

    ghost left = { λ _. None };

    ghost held = { λ _. None };

    fn receive(&mut self, room: &mut [u8]) -> io::Result<usize> {
        self.near.receive(room)
    }

    fn send(&mut self, _octets: &[u8]) -> io::Result<usize> {
        Err(io::Error::from(ErrorKind::WouldBlock))
    }
}

impl Wire for Noting<'_> {
    fn connect<N: Net>(_net: &N, _address: SocketAddr) -> io::Result<Self> {
        Err(io::Error::from(ErrorKind::Unsupported))
    }

    fn begin(&mut self, registry: &Registry, token: Token, interests: Interest) -> io::Result<()> {
        self.note(token, interests)?;
        self.near.begin(registry, token, interests)
    }

    fn change(&mut self, registry: &Registry, token: Token, interests: Interest) -> io::Result<()> {
        self.note(token, interests)?;
        self.near.change(registry, token, interests)
    }

    fn shut(&mut self) -> io::Result<()> {
        self.near.shut()
    }

    fn end(&mut self) -> io::Result<()> {
        self.near.end()
    }
}

#[test]
fn a_side_that_is_full_is_still_read(rt: HostRuntime) -> Result<(), Fail> {
    let (_far, near) = pair(&rt)?;
    let asked = RefCell::new(Vec::new(rt.alloc()));
    let near = Noting {
        near,
        asked: &asked,
    };
    let poll = Poll::new(&rt)?;
    let mut side = Side::new(rt.alloc(), poll.registry(), near, Token(7), 0)?;
    side.put(poll.registry(), b"x")?;
    side.put(poll.registry(), b"y")?;
    let both = Interest::READABLE | Interest::WRITABLE;
    let wanted = [(Token(7), Interest::READABLE), (Token(7), both)];
    let found = asked.try_borrow();
    assert!(rt; matches!(&found, Ok(found) if found.as_slice() == wanted.as_slice()));
    Ok(())
}
