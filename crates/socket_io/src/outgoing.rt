//! Octets on their way out to a socket.

ghost use Rattle.std.specs.Prelude.{◌≡◌, ◌+◌, ◌-◌, ◌<◌, ◌≤◌, ◌^◌, ◌↔◌, ◌++◌, [], length, take, drop, IsTrue, IfOk, OnOk, OnErr, IfErr, vec_len};
ghost use Rattle.std.specs.Io.KnownBytes.{Appends, Keeps};
ghost use Rattle.std.specs.IoError.{error_kind};
ghost use Rattle.socket_io.specs.Transfers.{IsEarly, IsEarlyFault, IsMemoryFault, IsSocketFault, Loses, Passes, nothing_put, told, told_count};

use crate::socket::{Socket, send_uninterrupted};
use std::alloc::{AllocError, Global};
use std::io;
use std::io::ErrorKind;
use std::marker::Model;

/// Why octets can't be put out.
#[derive(Debug, Drop)]
pub enum PutFault {
    /// The socket failed, and not since it would wait. Nothing was written, and nothing changed.
    Socket(io::Error),
    /// No memory was left for what the socket didn't take: that is lost, and what waited before
    /// waits still. The connection has to be ended.
    Memory,
}

impl From<AllocError> for PutFault {
    ghost use Rattle.socket_io.specs.declared.outgoing.PutFault.{PutFault};
    ghost use Rattle.socket_io.specs.declared.outgoing.PutFault.TheVariants.{Memory};

    ghost from_gives = { λ _ fault. fault ≡ Memory };

    fn from(_error: AllocError) -> PutFault {
        PutFault::Memory
    }
}

/// Octets on their way out to a socket: those that wait since the socket didn't take them yet, and
/// how many it took that weren't told of. That number stops at 2^64 - 1.
#[derive(Drop)]
pub struct Outgoing {
    octets: Vec<u8>,
    start: usize,
    untold: u64,
}

impl Model for Outgoing {
    ghost use Rattle.std.specs.Prelude.{drop, ◌≤◌, ◌<◌, ◌^◌, vec_len};
    ghost use Rattle.socket_io.specs.Transfers.{Way};

    ghost Value = { Way };

    ghost view = { λ out. record { waiting = drop out.start out.octets.items; untold = out.untold; sent = out.start } };

    ghost invariant = { λ out. (out.start ≤ vec_len out.octets) × (out.untold < 2 ^ 64) };
}

/// Room for so many octets is kept where nothing waits.
const MOST_KEPT: usize = 262_144;

impl Outgoing {
    /// Nothing was put out yet.
    pub fn new(alloc: Global) -> Outgoing
        ensures { result ≡ nothing_put }
    {
        Outgoing {
            octets: Vec::new(alloc),
            start: 0,
            untold: 0,
        }
    }

    /// How many octets wait.
    pub fn waiting(&self) -> usize
        ensures { result ≡ length self.now.waiting }
    {
        self.octets.len() - self.start
    }

    /// Whether more than so many octets that were put out weren't told of as taken.
    pub fn owes_more_than(&self, most: u64) -> bool
        ensures { IsTrue result ↔ (most < length self.now.waiting + self.now.untold) }
    {
        self.untold > most || self.waiting() as u64 > most - self.untold
    }

    /// How many octets the socket took that weren't told of, if that is at least so many, and else
    /// none. They are told of now.
    pub fn tell(&mut self, least: u64) -> u64
        ensures count { result ≡ told_count least self.old }
        ensures told { self.new ≡ told least self.old }
    {
        if self.untold < least {
            return 0;
        }
        let count = self.untold;
        self.untold = 0;
        count
    }

    /// Puts octets out. Where none wait they go straight to the socket, in one write; what it doesn't take then waits.
    pub fn put<S: Socket>(&mut self, socket: &mut S, octets: &[u8]) -> Result<(), PutFault>
        ensures passes { OnOk result (Passes (S.held socket.old) (S.held socket.new) self.old octets.now self.new) }
        ensures failed { IsSocketFault result → Keeps (S.held socket.old) (S.held socket.new) × (self.new ≡ self.old) }
        ensures asked { IsSocketFault result → self.old.waiting ≡ [] }
        ensures never_early { ¬ IsEarlyFault result }
        ensures refused { IsMemoryFault result → Loses (S.held socket.old) (S.held socket.new) self.old octets.now self.new }
        ensures short { OnOk result (self.new.sent ≤ length self.old.waiting) }
        ensures left { S.left socket.new ≡ S.left socket.old }
    {
        let taken = match self.write_first(socket, octets) {
            Ok(taken) => taken,
            Err(error) => return Err(PutFault::Socket(error)),
        };
        self.untold = self.untold.saturating_add(taken as u64);
        self.gather(&octets[taken..])?;
        Ok(())
    }

    /// Puts octets out without a write: they wait behind those that wait. Of octets that were
    /// written no more are kept then than wait. An `Err` says that memory was refused; then what
    /// waits is as it was.
    pub fn gather(&mut self, octets: &[u8]) -> Result<(), AllocError>
        ensures gathered { OnOk result (self.new ≡ record self.old { waiting = self.old.waiting ++ octets.now; sent = self.new.sent }) }
        ensures refused { OnErr result (self.new ≡ record self.old { sent = self.new.sent }) }
        ensures needed { OnErr result (0 < length octets.now) }
        ensures short { self.new.sent ≤ length self.old.waiting }
    {
        if self.start >= self.octets.len() - self.start {
            cut_front(&mut self.octets, self.start);
            self.start = 0;
        }
        self.octets.extend_from_slice(octets)
    }

    /// Writes what waits, in one write. The answer is how many octets were written.
    pub fn flush<S: Socket>(&mut self, socket: &mut S) -> io::Result<usize>
        ensures count { IfOk result (λ taken. length self.new.waiting + taken ≡ length self.old.waiting) }
        ensures passes { OnOk result (Passes (S.held socket.old) (S.held socket.new) self.old [] self.new) }
        ensures failed { OnErr result (Keeps (S.held socket.old) (S.held socket.new) × (self.new ≡ self.old)) }
        ensures never_early { IfErr result (λ error. ¬ IsEarly (error_kind error)) }
        ensures left { S.left socket.new ≡ S.left socket.old }
    {
        let taken = write_some(socket, &self.octets[self.start..])?;
        self.start += taken;
        self.untold = self.untold.saturating_add(taken as u64);
        self.give_back();
        Ok(taken)
    }

    /// Where nothing waits, much room that was taken for what did is given back.
    fn give_back(&mut self)
        ensures { self.new ≡ record self.old { sent = self.new.sent } }
    {
        if self.start == self.octets.len() && self.octets.capacity() > MOST_KEPT {
            self.octets = Vec::new(*self.octets.allocator());
            self.start = 0;
        }
    }

    /// Writes what waits until a write takes nothing, or nothing waits. Where the socket fails,
    /// what wasn't written still waits.
    pub fn flush_all<S: Socket>(&mut self, socket: &mut S) -> io::Result<()>
        ensures passes { Passes (S.held socket.old) (S.held socket.new) self.old [] self.new }
        ensures never_early { IfErr result (λ error. ¬ IsEarly (error_kind error)) }
        ensures left { S.left socket.new ≡ S.left socket.old }
    {
        let _ = &self.untold;
        while self.waiting() > 0 {
            if self.flush(socket)? == 0 {
                break;
            }
        }
        Ok(())
    }

    /// Writes what the socket takes of octets now, if none wait before them.
    fn write_first<S: Socket>(&self, socket: &mut S, octets: &[u8]) -> io::Result<usize>
        ensures within { IfOk result (λ taken. taken ≤ length octets.now) }
        ensures behind { IfOk result (λ taken. 0 < length self.now.waiting → taken ≡ 0) }
        ensures written { IfOk result (λ taken. Appends (S.held socket.old) (S.held socket.new) (take taken octets.now)) }
        ensures failed { OnErr result (Keeps (S.held socket.old) (S.held socket.new)) }
        ensures asked { OnErr result (self.now.waiting ≡ []) }
        ensures never_early { IfErr result (λ error. ¬ IsEarly (error_kind error)) }
        ensures left { S.left socket.new ≡ S.left socket.old }
    {
        if self.waiting() > 0 {
            return Ok(0);
        }
        write_some(socket, octets)
    }
}

/// Cuts octets off the front.
fn cut_front(octets: &mut Vec<u8>, count: usize)
    requires { count ≤ vec_len octets.old }
    ensures { octets.new.items ≡ drop count octets.old.items }
{
    let _ = octets.drain(..count);
}

/// Writes what a socket takes now: nothing where it would wait.
fn write_some<S: Socket>(socket: &mut S, octets: &[u8]) -> io::Result<usize>
    ensures within { IfOk result (λ taken. taken ≤ length octets.now) }
    ensures written { IfOk result (λ taken. Appends (S.held socket.old) (S.held socket.new) (take taken octets.now)) }
    ensures failed { OnErr result (Keeps (S.held socket.old) (S.held socket.new)) }
    ensures never_early { IfErr result (λ error. ¬ IsEarly (error_kind error)) }
    ensures left { S.left socket.new ≡ S.left socket.old }
{
    match send_uninterrupted(socket, octets) {
        Ok(taken) => Ok(taken),
        Err(error) if is_early(error.kind()) => Ok(0),
        Err(error) => Err(error),
    }
}

/// Whether a call only came too early, so that it is to be made again.
pub fn is_early(kind: ErrorKind) -> bool
    ensures { IsTrue result ↔ IsEarly kind }
{
    matches!(kind, ErrorKind::WouldBlock | ErrorKind::Interrupted)
}
