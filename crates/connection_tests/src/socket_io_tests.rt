//! Octets that go out to sockets and come in from them.

use socket_io::{Got, Outgoing, PutFault, Socket, read_piece};
use std::alloc::{AllocError, Global};
use std::io;
use std::io::{ErrorKind, Read};
use std::test::*;

/// A socket that takes so many octets and no more, three at a time, and then would wait.
#[derive(Drop)]
struct Narrow {
    taken: Vec<u8>,
    room: usize,
}

impl Socket for Narrow {
    ghost use Rattle.std.specs.Prelude.{None};

    ghost left = { λ _. None };

    ghost held = { λ _. None };

    fn receive(&mut self, _room: &mut [u8]) -> io::Result<usize> {
        Err(io::Error::from(ErrorKind::WouldBlock))
    }

    fn send(&mut self, octets: &[u8]) -> io::Result<usize> {
        let count = octets.len().min(3).min(self.room);
        if count == 0 && !octets.is_empty() {
            return Err(io::Error::from(ErrorKind::WouldBlock));
        }
        self.taken.extend_from_slice(&octets[..count])?;
        self.room -= count;
        Ok(count)
    }
}

/// A socket that failed: each call says so.
#[derive(Drop)]
struct Broken;

impl Socket for Broken {
    ghost use Rattle.std.specs.Prelude.{None};

    ghost left = { λ _. None };

    ghost held = { λ _. None };

    fn receive(&mut self, _room: &mut [u8]) -> io::Result<usize> {
        Err(io::Error::from(ErrorKind::ConnectionReset))
    }

    fn send(&mut self, _octets: &[u8]) -> io::Result<usize> {
        Err(io::Error::from(ErrorKind::ConnectionReset))
    }
}

/// A socket that takes nothing, whose peer sent these octets, and then no more.
#[derive(Drop)]
struct Spoken<'a> {
    text: &'a [u8],
}

impl Socket for Spoken<'_> {
    ghost use Rattle.std.specs.Prelude.{None};

    ghost left = { λ _. None };

    ghost held = { λ _. None };

    fn receive(&mut self, room: &mut [u8]) -> io::Result<usize> {
        self.text.read(room)
    }

    fn send(&mut self, _octets: &[u8]) -> io::Result<usize> {
        Err(io::Error::from(ErrorKind::WouldBlock))
    }
}

/// What is done with octets on their way out, or asked of them.
#[derive(Clone, Copy)]
enum Step {
    /// Octets are put out.
    Put(&'static [u8]),
    /// Octets are put out without a write.
    Gather(&'static [u8]),
    /// What waits is written, in one write, or until a write takes nothing.
    Flush,
    FlushAll,
    /// The socket takes so many octets from now on.
    Room(usize),
    /// So many octets wait, and the socket took so many.
    Waits(usize, usize),
    /// If so many octets at least were taken, as many as this are told of now.
    Tell(u64, u64),
    /// Whether more than so many weren't told of as taken.
    Owes(u64, bool),
}

fn answers(out: &mut Outgoing, socket: &mut Narrow, step: Step) -> Result<bool, Fail> {
    match step {
        Step::Put(octets) => out.put(socket, octets)?,
        Step::Gather(octets) => out.gather(octets)?,
        Step::Flush => {
            out.flush(socket)?;
        }
        Step::FlushAll => out.flush_all(socket)?,
        Step::Room(room) => socket.room = room,
        Step::Waits(waiting, taken) => {
            return Ok(out.waiting() == waiting && socket.taken.len() == taken);
        }
        Step::Tell(least, count) => return Ok(out.tell(least) == count),
        Step::Owes(most, owes) => return Ok(out.owes_more_than(most) == owes),
    }
    Ok(true)
}

/// The first of these steps that answers something else.
fn first_that_differs(
    out: &mut Outgoing,
    socket: &mut Narrow,
    steps: &[Step],
) -> Result<Option<usize>, Fail> {
    for (place, step) in steps.iter().enumerate() {
        if !answers(out, socket, *step)? {
            return Ok(Some(place));
        }
    }
    Ok(None)
}

static NARROW: [Step; 22] = [
    Step::Put(b"abcd"),
    Step::Waits(1, 3),
    Step::Tell(1, 3),
    Step::Put(b"efg"),
    Step::Waits(4, 3),
    Step::Flush,
    Step::Flush,
    Step::Waits(2, 5),
    Step::Tell(3, 0),
    Step::Tell(2, 2),
    Step::Room(9),
    Step::Put(b"hi"),
    Step::FlushAll,
    Step::Waits(0, 9),
    Step::Owes(3, true),
    Step::Owes(4, false),
    Step::Waits(0, 9),
    Step::Gather(b"jk"),
    Step::Put(b"l"),
    Step::Waits(3, 9),
    Step::FlushAll,
    Step::Waits(0, 12),
];

#[test]
fn what_a_socket_does_not_take_waits(rt: HostRuntime) -> Result<(), Fail> {
    let mut socket = Narrow {
        taken: Vec::new(rt.alloc()),
        room: 5,
    };
    let mut out = Outgoing::new(rt.alloc());
    assert_eq!(rt; first_that_differs(&mut out, &mut socket, &NARROW)?, None);
    assert_eq!(rt; socket.taken.as_slice(), b"abcdefghijkl".as_slice());
    Ok(())
}

/// Whether a call failed as the broken socket does.
fn is_reset<T>(answer: &io::Result<T>) -> bool {
    matches!(answer, Err(error) if error.kind() == ErrorKind::ConnectionReset)
}

/// Whether a broken socket takes nothing of these octets, so that none wait, and then nothing of
/// those that do wait. Each call says that it failed.
fn takes_nothing(alloc: Global, octets: &[u8]) -> Result<bool, AllocError> {
    let mut out = Outgoing::new(alloc);
    let put = out.put(&mut Broken, octets);
    if !matches!(put, Err(PutFault::Socket(error)) if error.kind() == ErrorKind::ConnectionReset) {
        return Ok(false);
    }
    let waited = out.waiting();
    out.gather(octets)?;
    Ok(
        waited == 0
            && is_reset(&out.flush(&mut Broken))
            && is_reset(&out.flush_all(&mut Broken))
            && out.waiting() == octets.len()
            && out.tell(0) == 0,
    )
}

#[test]
fn a_broken_socket_takes_nothing(rt: HostRuntime) -> Result<(), Fail> {
    assert!(rt; takes_nothing(rt.alloc(), b"a")?);
    Ok(())
}

/// Whether what was got is this piece, or the end where there is none.
fn is_piece(got: &Got, piece: Option<&[u8]>) -> bool {
    match (got, piece) {
        (Got::Octets(octets), Some(piece)) => octets.as_slice() == piece,
        (Got::End, None) => true,
        _ => false,
    }
}

/// Whether a text comes in these pieces, of three octets at most, and then ends.
fn comes_in(alloc: Global, text: &[u8], pieces: &[&[u8]]) -> io::Result<bool> {
    let mut socket = Spoken { text };
    let mut buffer = [0u8; 3];
    for piece in pieces {
        if !is_piece(&read_piece(alloc, &mut socket, &mut buffer)?, Some(piece)) {
            return Ok(false);
        }
    }
    Ok(is_piece(&read_piece(alloc, &mut socket, &mut buffer)?, None))
}

/// Whether a read that fails says so.
fn fails(alloc: Global) -> bool {
    is_reset(&read_piece(alloc, &mut Broken, &mut [0u8; 3]))
}

/// Whether a socket that would wait gives nothing.
fn gives_nothing(alloc: Global) -> io::Result<bool> {
    let mut buffer = [0u8; 3];
    let mut socket = Narrow {
        taken: Vec::new(alloc),
        room: 0,
    };
    Ok(matches!(read_piece(alloc, &mut socket, &mut buffer)?, Got::Nothing))
}

#[test]
fn pieces_are_read(rt: HostRuntime) -> Result<(), Fail> {
    assert!(rt; comes_in(rt.alloc(), b"abcde", &[b"abc", b"de"])?);
    assert!(rt; gives_nothing(rt.alloc())?);
    assert!(rt; fails(rt.alloc()));
    Ok(())
}

/// A socket of which a signal interrupts every other call, the first one too.
#[derive(Drop)]
struct Interrupted<S> {
    socket: S,
    goes_on: bool,
}

impl<S> Interrupted<S> {
    fn new(socket: S) -> Interrupted<S> {
        Interrupted {
            socket,
            goes_on: false,
        }
    }

    /// A call begins. Every other one is interrupted.
    fn begin(&mut self) -> io::Result<()> {
        let goes_on = self.goes_on;
        self.goes_on = !goes_on;
        if goes_on {
            Ok(())
        } else {
            Err(io::Error::from(ErrorKind::Interrupted))
        }
    }
}

impl<S: Socket> Socket for Interrupted<S> {
    ghost use Rattle.std.specs.Prelude.{None};

    ghost left = { λ _. None };

    ghost held = { λ _. None };

    fn receive(&mut self, room: &mut [u8]) -> io::Result<usize> {
        self.begin()?;
        self.socket.receive(room)
    }

    fn send(&mut self, octets: &[u8]) -> io::Result<usize> {
        self.begin()?;
        self.socket.send(octets)
    }
}

#[test]
fn a_call_that_is_interrupted_is_made_again(rt: HostRuntime) -> Result<(), Fail> {
    let mut spoken = Interrupted::new(Spoken { text: b"ab" });
    let got = read_piece(rt.alloc(), &mut spoken, &mut [0u8; 3])?;
    assert!(rt; is_piece(&got, Some(b"ab")));
    let mut narrow = Interrupted::new(Narrow {
        taken: Vec::new(rt.alloc()),
        room: 3,
    });
    let mut out = Outgoing::new(rt.alloc());
    out.put(&mut narrow, b"abc")?;
    assert_eq!(rt; out.waiting(), 0);
    assert_eq!(rt; narrow.socket.taken.as_slice(), b"abc".as_slice());
    Ok(())
}
