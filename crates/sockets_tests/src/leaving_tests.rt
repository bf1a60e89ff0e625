//! A client that is left: while more waits for it than its socket takes at once, and where it is silent.

use crate::loopback::{numbers, pair};
use driver::World;
use gateway::Output;
use mio::{Interest, Registry, Token};
use socket_io::Socket;
use sockets::{SocketWorld, Wire};
use std::cell::RefCell;
use std::io;
use std::io::{ErrorKind, Read};
use std::net::{Net, Shutdown, SocketAddr, TcpStream};
use std::test::*;
use std::time::{Duration, Instant};

/// A socket whose other end reads what is there where no more fits into it, or nothing more comes, and then ends too.
#[derive(Drop)]
struct Filling<'a> {
    near: mio::net::TcpStream,
    far: TcpStream,
    read: &'a RefCell<Vec<u8>>,
}

impl Filling<'_> {
    /// The other end reads what is there.
    fn read_on(&mut self) -> io::Result<()> {
        let Ok(mut read) = self.read.try_borrow_mut() else {
            return Err(io::Error::from(ErrorKind::Other));
        };
        let mut room = [0u8; 4096];
        for _ in 0..100_000 {
            match self.far.read(&mut room) {
                Ok(0) => return Ok(()),
                Ok(count) => read.extend_from_slice(&room[..count])?,
                Err(error) if error.kind() == ErrorKind::WouldBlock => return Ok(()),
                Err(error) => return Err(error),
            }
        }
        Ok(())
    }
}

impl Socket for Filling<'_> {
    ghost use Rattle.std.specs.Prelude.{None};

    ghost left = { λ _. None };

    ghost held = { λ _. None };

    fn receive(&mut self, room: &mut [u8]) -> io::Result<usize> {
        self.near.receive(room)
    }

    fn send(&mut self, octets: &[u8]) -> io::Result<usize> {
        let sent = self.near.send(octets);
        if !matches!(&sent, Ok(count) if *count == octets.len()) {
            self.read_on()?;
        }
        sent
    }
}

impl Wire for Filling<'_> {
    fn connect<N: Net>(_net: &N, _address: SocketAddr) -> io::Result<Self> {
        Err(io::Error::from(ErrorKind::Unsupported))
    }

    fn begin(&mut self, registry: &Registry, token: Token, interests: Interest) -> io::Result<()> {
        self.near.begin(registry, token, interests)
    }

    fn change(&mut self, registry: &Registry, token: Token, interests: Interest) -> io::Result<()> {
        self.near.change(registry, token, interests)
    }

    fn shut(&mut self) -> io::Result<()> {
        self.near.shut()?;
        self.read_on()?;
        self.far.shutdown(Shutdown::Write)
    }

    fn end(&mut self) -> io::Result<()> {
        self.near.end()
    }
}

/// A socket, of which nothing was read yet.
fn socket_of<'a>(host: &HostRuntime, read: &'a RefCell<Vec<u8>>) -> io::Result<Filling<'a>> {
    let (far, near) = pair(host)?;
    Ok(Filling { near, far, read })
}

#[test]
fn a_client_that_is_left_reads_all(rt: HostRuntime) -> Result<(), Fail> {
    let read = RefCell::new(Vec::new(rt.alloc()));
    let client = socket_of(&rt, &read)?;
    let mut world = SocketWorld::new(rt.alloc(), &rt, &[], client)?;
    let sent = world.apply(&Output::Client(numbers(rt.alloc(), 4_000_000)?));
    assert_eq!(rt; sent, Ok(()));
    world.finish()?;
    let found = read.try_borrow();
    let written = numbers(rt.alloc(), 4_000_000)?;
    assert!(rt; matches!(&found, Ok(octets) if **octets == written));
    Ok(())
}

#[test]
fn a_silent_client_is_left_after_a_while(rt: HostRuntime) -> Result<(), Fail> {
    let (_client, far) = pair(&rt)?;
    let mut world = SocketWorld::new(rt.alloc(), &rt, &[], far)?;
    let begun = Instant::now(&rt)?;
    world.finish()?;
    let taken = Instant::now(&rt)?.duration_since(begun);
    assert!(rt; taken >= Duration::from_secs(5));
    assert!(rt; taken < Duration::from_secs(15));
    Ok(())
}
