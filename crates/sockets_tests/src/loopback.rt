//! Sockets of the loopback, for tests.

use std::alloc::{AllocError, Global};
use std::io;
use std::net::{Ipv4Addr, SocketAddr, TcpListener, TcpStream};
use std::test::*;

/// A listener that waits until somebody comes.
pub(crate) fn waiting_listener(host: &HostRuntime) -> io::Result<TcpListener> {
    TcpListener::bind(host, SocketAddr::from((Ipv4Addr::LOCALHOST, 0)))
}

/// A listener that doesn't wait.
pub(crate) fn quiet_listener(host: &HostRuntime) -> io::Result<TcpListener> {
    let listener = waiting_listener(host)?;
    listener.set_nonblocking(true)?;
    Ok(listener)
}

/// The two ends of a connection, neither of which waits: that of a peer, and the gateway's.
pub(crate) fn pair(host: &HostRuntime) -> io::Result<(TcpStream, mio::net::TcpStream)> {
    let listener = waiting_listener(host)?;
    let near = TcpStream::connect(host, listener.local_addr()?)?;
    let (far, _address) = listener.accept()?;
    near.set_nonblocking(true)?;
    far.set_nonblocking(true)?;
    Ok((near, mio::net::TcpStream::from_std(far)))
}

/// The numbers below this one, in octets. Those below a million are more than a socket takes at
/// once.
pub(crate) fn numbers(alloc: Global, end: u32) -> Result<Vec<u8>, AllocError> {
    let mut octets = Vec::new(alloc);
    for number in 0..end {
        octets.extend_from_slice(&number.to_be_bytes())?;
    }
    Ok(octets)
}
