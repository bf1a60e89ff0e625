//! Octets that come from a socket.

ghost use Rattle.std.specs.Prelude.{◌≡◌, IfOk, length};
ghost use Rattle.socket_io.specs.Transfers.{Gives};

use crate::outgoing::is_early;
use crate::socket::{Socket, receive_uninterrupted};
use std::alloc::Global;
use std::io;

/// What a read gave.
#[derive(Debug, Drop)]
pub enum Got {
    /// These octets, of which there is one at least.
    Octets(Vec<u8>),
    /// Nothing as yet.
    Nothing,
    /// The end, behind which nothing comes.
    End,
}

/// Reads octets, in one read: as many as are there, at most as many as there is room for in the buffer.
///
/// A socket that would wait gives nothing. An error is the socket's, or says that memory was refused.
pub fn read_piece<S: Socket>(alloc: Global, socket: &mut S, buffer: &mut [u8]) -> io::Result<Got>
    ensures gives { IfOk result (λ got. Gives (S.left socket.old) (S.left socket.new) (length buffer.old) got) }
    ensures held { S.held socket.new ≡ S.held socket.old }
{
    match receive_uninterrupted(socket, buffer) {
        Ok(0) => Ok(Got::End),
        Ok(count) => Ok(Got::Octets(Vec::from_slice(alloc, &buffer[..count])?)),
        Err(error) if is_early(error.kind()) => Ok(Got::Nothing),
        Err(error) => Err(error),
    }
}
