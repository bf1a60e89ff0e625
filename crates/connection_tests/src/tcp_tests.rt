//! Streams of the system as sockets: what is read of one is what its peer sent, and what is written
//! to one its peer reads, once and in order. No contract can say so of them.

use mio::net::TcpStream as Near;
use socket_io::Socket;
use std::alloc::{AllocError, Global};
use std::io;
use std::io::{ErrorKind, Read, Write};
use std::net::{Ipv4Addr, Shutdown, SocketAddr, TcpListener, TcpStream};
use std::test::*;

/// The two ends of a connection, neither of which waits: that of a peer, and the other.
fn pair(host: &HostRuntime) -> io::Result<(TcpStream, Near)> {
    let listener = TcpListener::bind(host, SocketAddr::from((Ipv4Addr::LOCALHOST, 0)))?;
    let far = TcpStream::connect(host, listener.local_addr()?)?;
    let (near, _address) = listener.accept()?;
    far.set_nonblocking(true)?;
    near.set_nonblocking(true)?;
    Ok((far, Near::from_std(near)))
}

/// So many octets, which tell where they stand, and by this number of whom they are.
fn octets_of(alloc: Global, number: u32, count: u32) -> Result<Vec<u8>, AllocError> {
    let mut octets = Vec::new(alloc);
    for place in 0..count {
        octets.push((place.wrapping_mul(number) % 251) as u8)?;
    }
    Ok(octets)
}

/// Reads once, with room for 300 octets, behind what was read before. The answer is how many came.
fn read_once(near: &mut Near, read: &mut Vec<u8>) -> io::Result<usize> {
    let mut room = [0u8; 300];
    let count = near.receive(&mut room)?;
    read.extend_from_slice(&room[..count])?;
    Ok(count)
}

/// Writes octets in pieces while they are taken. The answer is how many were.
fn write_on(near: &mut Near, octets: &[u8]) -> io::Result<usize> {
    let mut taken = 0usize;
    for piece in octets.chunks(700) {
        let count = near.send(piece)?;
        taken = taken.saturating_add(count);
        if count < piece.len() {
            break;
        }
    }
    Ok(taken)
}

/// Reads all that is there of a peer's end.
fn read_all(far: &mut TcpStream, read: &mut Vec<u8>) -> io::Result<()> {
    let mut room = [0u8; 512];
    for _ in 0..1_000 {
        match far.read(&mut room) {
            Ok(0) => return Ok(()),
            Ok(count) => read.extend_from_slice(&room[..count])?,
            Err(error) if error.kind() == ErrorKind::WouldBlock => return Ok(()),
            Err(error) => return Err(error),
        }
    }
    Ok(())
}

#[test]
fn what_is_read_was_sent(rt: HostRuntime) -> Result<(), Fail> {
    let alloc = rt.alloc();
    let (mut one_far, mut one) = pair(&rt)?;
    let (mut other_far, mut other) = pair(&rt)?;
    let (one_sent, other_sent) = (octets_of(alloc, 7, 1_000)?, octets_of(alloc, 11, 1_000)?);
    one_far.write_all(&one_sent)?;
    other_far.write_all(&other_sent)?;
    one_far.shutdown(Shutdown::Write)?;
    let (mut of_one, mut of_other) = (Vec::new(alloc), Vec::new(alloc));
    for _ in 0..4 {
        read_once(&mut one, &mut of_one)?;
        read_once(&mut other, &mut of_other)?;
    }
    let end = read_once(&mut one, &mut of_one);
    let rest = read_once(&mut other, &mut of_other);
    assert!(rt; of_one == one_sent && of_other == other_sent);
    assert!(rt; matches!(end, Ok(0)));
    assert!(rt; matches!(rest, Err(error) if error.kind() == ErrorKind::WouldBlock));
    Ok(())
}

#[test]
fn what_is_written_is_read_once(rt: HostRuntime) -> Result<(), Fail> {
    let alloc = rt.alloc();
    let (mut far, mut near) = pair(&rt)?;
    let octets = octets_of(alloc, 7, 10_000)?;
    let taken = write_on(&mut near, &octets)?;
    let mut read = Vec::new(alloc);
    read_all(&mut far, &mut read)?;
    assert!(rt; taken == octets.len() && read == octets);
    Ok(())
}
