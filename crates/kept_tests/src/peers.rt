//! A client that asks twice, and its server: what kept connections are tried with.

use std::alloc::{AllocError, Global};
use std::io;
use std::io::{ErrorKind, Read, Write};
use std::net::{Ipv4Addr, Shutdown, SocketAddr, TcpListener, TcpStream};
use std::test::*;

/// The preface, and settings up to the value of INITIAL_WINDOW_SIZE; and a WINDOW_UPDATE by which
/// the client takes 1,048,576 octets more on all streams.
const PREFACE: &[u8] = b"PRI * HTTP/2.0\r\n\r\nSM\r\n\r\n\0\0\x06\x04\0\0\0\0\0\0\x04";

const WINDOW_UPDATE: &[u8] = b"\0\0\x04\x08\0\0\0\0\0\0\x10\0\0";

/// A HEADERS frame up to its stream, and a GET up to the last octet of its authority.
const HEADERS: &[u8] = b"\0\0\x14\x01\x05\0\0\0";

const GET: &[u8] = b"\x82\x86\x84\x41\x0fwww.example.co";

/// Responses that no request asked for, and the answer to the second one up to its last octet.
const STRAY: &[u8] = b"HTTP/1.1 200 OK\r\nContent-Length: 6\r\n\r\nPOISON";

const INTERIM: &[u8] = b"HTTP/1.1 103 Early Hints\r\n\r\n";

const RIGHT: &[u8] = b"HTTP/1.1 200 OK\r\nContent-Length: 6\r\n\r\nright";

/// What stands behind the first response.
#[derive(Clone, Copy, Debug, PartialEq, Eq, Drop)]
pub(crate) enum Behind {
    Response,
    Octet,
    Interim,
    End,
    Reset,
}

/// A first response with so many octets, head included, of whose body the client takes so many at
/// first, and what stands behind it.
#[derive(Clone, Copy, Debug, Drop)]
pub(crate) struct Case {
    pub(crate) size: usize,
    pub(crate) window: u32,
    pub(crate) behind: Behind,
}

/// All of a response's body.
pub(crate) const ALL: u32 = 1_048_576;

/// So many octets of a first response are its head.
const HEAD: usize = 43;

impl Case {
    /// How many octets the first response's body has.
    pub(crate) fn length(&self) -> usize {
        self.size.saturating_sub(HEAD)
    }
}

/// The first response, whose body is the server's name again and again, and what stands behind it
/// that is octets.
fn answer_of(alloc: Global, name: u8, case: Case) -> Result<Vec<u8>, AllocError> {
    let mut answer = Vec::from_slice(alloc, b"HTTP/1.1 200 OK\r\nContent-Length: ")?;
    let length = case.length();
    for place in [100_000, 10_000, 1_000, 100, 10, 1] {
        answer.push(b'0' + (length / place % 10) as u8)?;
    }
    answer.extend_from_slice(b"\r\n\r\n")?;
    for _ in 0..length {
        answer.push(name)?;
    }
    match case.behind {
        Behind::Response => answer.extend_from_slice(STRAY)?,
        Behind::Octet => answer.push(b'H')?,
        Behind::Interim => answer.extend_from_slice(INTERIM)?,
        Behind::End | Behind::Reset => {}
    }
    Ok(answer)
}

/// A server that answers its first connection so, and the second one right.
#[derive(Drop)]
pub(crate) struct Server {
    listener: TcpListener,
    name: u8,
    behind: Behind,
    first: Option<TcpStream>,
    /// What it sends yet of its first answer, once it was asked.
    answer: Vec<u8>,
    is_asked: bool,
    second: Option<TcpStream>,
    /// How many octets of a request came on the second connection.
    pub(crate) asked: usize,
}

/// A listener that waits until somebody comes.
pub(crate) fn waiting_listener(host: &HostRuntime, ip: Ipv4Addr) -> io::Result<TcpListener> {
    TcpListener::bind(host, SocketAddr::from((ip, 0)))
}

/// A listener that doesn't wait.
pub(crate) fn quiet_listener(host: &HostRuntime, ip: Ipv4Addr) -> io::Result<TcpListener> {
    let listener = waiting_listener(host, ip)?;
    listener.set_nonblocking(true)?;
    Ok(listener)
}

/// Has a peer's socket not wait, and has what is written to it go out at once.
fn quicken(socket: &TcpStream) -> io::Result<()> {
    socket.set_nonblocking(true)?;
    socket.set_nodelay(true)
}

/// A connection to this address: its end, which doesn't wait.
pub(crate) fn connect(host: &HostRuntime, address: SocketAddr) -> io::Result<TcpStream> {
    let near = TcpStream::connect(host, address)?;
    quicken(&near)?;
    Ok(near)
}

/// The two ends of a connection, neither of which waits: that of a peer, and the gateway's.
pub(crate) fn pair(host: &HostRuntime) -> io::Result<(TcpStream, mio::net::TcpStream)> {
    let listener = waiting_listener(host, Ipv4Addr::LOCALHOST)?;
    let near = connect(host, listener.local_addr()?)?;
    let (far, _address) = listener.accept()?;
    far.set_nonblocking(true)?;
    Ok((near, mio::net::TcpStream::from_std(far)))
}

/// Whether a socket that doesn't wait had an octet. The octets behind it stay unread.
fn has_octet(socket: &mut TcpStream) -> bool {
    let mut room = [0u8; 1];
    matches!(socket.read(&mut room), Ok(1))
}

/// The next connection, if one is there. It doesn't wait.
fn accept(listener: &TcpListener) -> Option<TcpStream> {
    let (socket, _address) = listener.accept().ok()?;
    quicken(&socket).ok()?;
    Some(socket)
}

impl Server {
    /// A server that listens there, and has this name.
    fn new(
        alloc: Global,
        name: u8,
        case: Case,
        listener: TcpListener,
    ) -> Result<Server, AllocError> {
        Ok(Server {
            listener,
            name,
            behind: case.behind,
            first: None,
            answer: answer_of(alloc, name, case)?,
            is_asked: false,
            second: None,
            asked: 0,
        })
    }

    /// It does what it can. Its first answer it gives only if it may.
    fn go_on(&mut self, may_answer: bool) -> io::Result<()> {
        if self.first.is_none() && !self.is_asked {
            self.first = accept(&self.listener);
        } else if self.second.is_none() {
            self.second = accept(&self.listener);
        }
        if may_answer {
            self.answer_first()?;
        }
        self.answer_second()
    }

    /// It sends what it can of its first answer, once it was asked, and ends behind that, if it is to.
    fn answer_first(&mut self) -> io::Result<()> {
        let Some(socket) = &mut self.first else {
            return Ok(());
        };
        self.is_asked = self.is_asked || has_octet(socket);
        if !self.is_asked {
            return Ok(());
        }
        if !self.answer.is_empty() {
            let count = socket.write(&self.answer)?;
            let _ = self.answer.drain(..count);
        }
        if !self.answer.is_empty() {
            return Ok(());
        }
        match self.behind {
            Behind::End => {
                let _ = socket.shutdown(Shutdown::Write);
            }
            // Octets of the request are unread.
            Behind::Reset => self.first = None,
            Behind::Response | Behind::Octet | Behind::Interim => {}
        }
        Ok(())
    }

    /// It answers on the second connection what it was asked there.
    fn answer_second(&mut self) -> io::Result<()> {
        let Some(socket) = &mut self.second else {
            return Ok(());
        };
        let mut room = [0u8; 256];
        match socket.read(&mut room) {
            Ok(count) if count > 0 => {
                self.asked = self.asked.saturating_add(count);
                socket.write_all(RIGHT)?;
                socket.write_all(&[self.name])
            }
            Ok(_) => Ok(()),
            Err(error) if error.kind() == ErrorKind::WouldBlock => Ok(()),
            Err(error) => Err(error),
        }
    }
}

/// A client that asks once more when the server was asked, and leaves once it has a second answer.
#[derive(Drop)]
pub(crate) struct Client {
    socket: Option<TcpStream>,
    pub(crate) name: u8,
    asks_again: bool,
    /// What it read that is no whole frame yet.
    unread: Vec<u8>,
    /// The bodies on streams 1 and 3.
    pub(crate) first: Vec<u8>,
    pub(crate) second: Vec<u8>,
    is_over: bool,
}

impl Client {
    /// A client that has sent its first request.
    fn new(alloc: Global, name: u8, window: u32, mut socket: TcpStream) -> io::Result<Client> {
        socket.write_all(PREFACE)?;
        socket.write_all(&window.to_be_bytes())?;
        socket.write_all(WINDOW_UPDATE)?;
        ask(&mut socket, 1, name)?;
        Ok(Client {
            socket: Some(socket),
            name,
            asks_again: false,
            unread: Vec::new(alloc),
            first: Vec::new(alloc),
            second: Vec::new(alloc),
            is_over: false,
        })
    }

    /// It does what it can.
    fn go_on(&mut self, server_is_asked: bool) -> io::Result<()> {
        let Some(socket) = &mut self.socket else {
            return Ok(());
        };
        if server_is_asked && !self.asks_again {
            self.asks_again = true;
            ask(socket, 3, self.name)?;
        }
        read_on(socket, &mut self.unread)?;
        for _ in 0..self.unread.len() {
            if !self.take_frame()? {
                break;
            }
        }
        if self.is_over {
            self.socket = None;
        }
        Ok(())
    }

    /// It takes the first of the frames that it read, if that is whole.
    fn take_frame(&mut self) -> io::Result<bool> {
        let Some((header, rest)) = self.unread.split_first_chunk::<9>() else {
            return Ok(false);
        };
        let [
            high,
            middle,
            low,
            kind,
            flags,
            _first,
            _second,
            _third,
            stream,
        ] = *header;
        let length = u32::from_be_bytes([0, high, middle, low]) as usize;
        let Some(payload) = rest.get(..length) else {
            return Ok(false);
        };
        match (stream, kind) {
            (1, 0) => self.first.extend_from_slice(payload)?,
            (3, 0) => self.second.extend_from_slice(payload)?,
            _ => {}
        }
        // END_STREAM of DATA or HEADERS, or RST_STREAM.
        self.is_over = self.is_over || stream == 3 && (kind == 3 || kind < 2 && flags % 2 == 1);
        let left = rest.len().saturating_sub(length);
        let taken = self.unread.len().saturating_sub(left);
        let _ = self.unread.drain(..taken);
        Ok(true)
    }
}

/// Sends a GET on a stream, to the authority that ends with this name.
fn ask(socket: &mut TcpStream, stream: u8, name: u8) -> io::Result<()> {
    socket.write_all(HEADERS)?;
    socket.write_all(&[stream])?;
    socket.write_all(GET)?;
    socket.write_all(&[name])
}

/// Reads what is there of a socket that doesn't wait, behind what was read before.
fn read_on(socket: &mut TcpStream, read: &mut Vec<u8>) -> io::Result<()> {
    let mut room = [0u8; 4096];
    for _ in 0..1_000 {
        match socket.read(&mut room) {
            Ok(0) => return Ok(()),
            Ok(count) => read.extend_from_slice(&room[..count])?,
            Err(error) if error.kind() == ErrorKind::WouldBlock => return Ok(()),
            Err(error) => return Err(error),
        }
    }
    Ok(())
}

/// A client and its server.
#[derive(Drop)]
pub(crate) struct Peers {
    pub(crate) client: Client,
    pub(crate) server: Server,
}

impl Peers {
    /// A client of this name that has sent its first request by this socket, and a server that
    /// listens there.
    pub(crate) fn new(
        alloc: Global,
        name: u8,
        case: Case,
        socket: TcpStream,
        listener: TcpListener,
    ) -> io::Result<Peers> {
        Ok(Peers {
            client: Client::new(alloc, name, case.window, socket)?,
            server: Server::new(alloc, name, case, listener)?,
        })
    }

    /// They do what they can. The server gives its first answer only if it may; the client's second
    /// request is on its way then, too.
    pub(crate) fn go_on(&mut self, may_answer: bool) {
        let _ = self.server.go_on(may_answer);
        let _ = self.client.go_on(self.server.is_asked);
    }
}
