//! What octets pass through.

ghost use Rattle.std.specs.Prelude.{◌≡◌, ℕ, List, Option};
ghost use Rattle.std.specs.Io.{ReadsAtMost, WritesAtMost};
ghost use Rattle.std.specs.Io.KnownBytes.{ReadConsumes, WriteAppends};

use mio::net::TcpStream;
use std::io;
use std::io::{ErrorKind, Read, Write};

/// A socket that doesn't wait: what is read of it and what is written to it don't touch one
/// another. What it tells of itself is for contracts alone.
pub trait Socket {
    /// The octets that its peer sent and that weren't read, where they are known.
    ghost left: { Self → Option (List ℕ) };

    /// The octets that were written to it, where they are known.
    ghost held: { Self → Option (List ℕ) };

    /// Reads octets that are there, as many as there is room for at most. The answer is how many,
    /// and with room it is 0 only at the end.
    fn receive(&mut self, room: &mut [u8]) -> io::Result<usize>
        ensures bound { ReadsAtMost result room.new }
        ensures octets { ReadConsumes (left self.old) (left self.new) result room.new }
        ensures held { held self.new ≡ held self.old };

    /// Writes a front of these octets, as many as it takes at once. The answer is how many.
    fn send(&mut self, octets: &[u8]) -> io::Result<usize>
        ensures bound { WritesAtMost result octets.now }
        ensures octets { WriteAppends (held self.old) (held self.new) result octets.now }
        ensures left { left self.new ≡ left self.old };
}

impl Socket for TcpStream {
    ghost use Rattle.std.specs.Prelude.{None};

    ghost left = { λ _. None };

    ghost held = { λ _. None };

    fn receive(&mut self, room: &mut [u8]) -> io::Result<usize> {
        self.read(room)
    }

    fn send(&mut self, octets: &[u8]) -> io::Result<usize> {
        self.write(octets)
    }
}

/// So many times in a row a call is made again that a signal interrupted: one on a socket that
/// doesn't wait isn't interrupted twice.
const MOST_AGAIN: u32 = 100;

/// Reads octets that are there, again where a signal interrupts that.
pub fn receive_uninterrupted<S: Socket>(socket: &mut S, room: &mut [u8]) -> io::Result<usize>
    ensures bound { ReadsAtMost result room.new }
    ensures octets { ReadConsumes (S.left socket.old) (S.left socket.new) result room.new }
    ensures held { S.held socket.new ≡ S.held socket.old }
{
    for _ in 0..MOST_AGAIN {
        match socket.receive(room) {
            Err(error) if error.kind() == ErrorKind::Interrupted => {}
            received => return received,
        }
    }
    socket.receive(room)
}

/// Writes a front of these octets, again where a signal interrupts that.
pub fn send_uninterrupted<S: Socket>(socket: &mut S, octets: &[u8]) -> io::Result<usize>
    ensures bound { WritesAtMost result octets.now }
    ensures octets { WriteAppends (S.held socket.old) (S.held socket.new) result octets.now }
    ensures left { S.left socket.new ≡ S.left socket.old }
{
    for _ in 0..MOST_AGAIN {
        match socket.send(octets) {
            Err(error) if error.kind() == ErrorKind::Interrupted => {}
            sent => return sent,
        }
    }
    socket.send(octets)
}
