//! One socket, and what is known of it.

ghost use Rattle.std.specs.Prelude.{◌≡◌, ◌+◌, ◌<◌, ◌↔◌, ◌&&◌, ◌||◌, [], true, false, not, length, IsTrue, IfOk, OnOk, OnErr};
ghost use Rattle.mio.specs.Interest.{is_readable, is_writable};
ghost use Rattle.sockets.specs.Putting.{Passes, PassesFront};
ghost use Rattle.sockets.specs.Sides.{noted, given_up, may_go_on};
ghost use Rattle.socket_io.specs.Transfers.{Gives, nothing_put, told, told_count};

use crate::wire::Wire;
use mio::event::Event;
use mio::{Interest, Registry, Token};
use socket_io::{Got, Outgoing, PutFault, read_piece};
use std::alloc::Global;
use std::io;

/// A socket that doesn't wait, with what is on its way out to it and what was reported of it.
#[derive(Drop)]
pub struct Side<S> {
    socket: S,
    token: Token,
    out: Outgoing,
    /// It may have something to be read: octets, or its end.
    readable: bool,
    /// Its end was read.
    ended: bool,
    /// Both its directions are over: what is written to it reaches nobody.
    lost: bool,
    /// It was told that nothing more is written.
    shut: bool,
    /// The last write took less than all, and it wasn't reported since that it takes octets again.
    full: bool,
    /// What it is reported for: that it takes octets again too, once a write took less than all.
    interests: Interest,
    /// From so many octets on what was put out is written at once.
    least: usize,
}

impl<S: Wire> Side<S> {
    /// A socket, which is reported under a token from now on. Octets that are put out are written
    /// once there are so many, and others at the next `flush`; what is written goes out at once.
    pub fn new(
        alloc: Global,
        registry: &Registry,
        mut socket: S,
        token: Token,
        least: usize,
    ) -> io::Result<Side<S>>
        ensures nothing { IfOk result (λ side. side.out ≡ nothing_put) }
        ensures least { IfOk result (λ side. side.least ≡ least) }
        ensures token { IfOk result (λ side. side.token ≡ token) }
        ensures unheard { IfOk result (λ side. (side.readable ≡ false) × (side.ended ≡ false) × (side.lost ≡ false)) }
        ensures unwritten { IfOk result (λ side. (side.shut ≡ false) × (side.full ≡ false)) }
        ensures interests { IfOk result (λ side. (is_readable side.interests ≡ true) × (is_writable side.interests ≡ false)) }
    {
        let interests = Interest::READABLE;
        socket.begin(registry, token, interests)?;
        Ok(Side {
            socket,
            token,
            out: Outgoing::new(alloc),
            readable: false,
            ended: false,
            lost: false,
            shut: false,
            full: false,
            interests,
            least,
        })
    }

    /// Whether more than so many octets that were put out weren't told of as taken.
    pub fn owes_more_than(&self, most: u64) -> bool
        ensures { IsTrue result ↔ (most < length self.now.out.waiting + self.now.out.untold) }
    {
        self.out.owes_more_than(most)
    }

    /// How many octets the socket took that weren't told of, if at least so many. They are told of
    /// now.
    pub fn tell(&mut self, least: u64) -> u64
        ensures count { result ≡ told_count least self.old.out }
        ensures told { self.new ≡ record self.old { out = told least self.old.out } }
        ensures passes { Passes (S.held self.old.socket) (S.held self.new.socket) [] result self.old.out self.new.out }
    {
        self.out.tell(least)
    }

    /// Whether it may have something to be read.
    pub fn is_readable(&self) -> bool
        ensures { result ≡ (self.now.readable && not self.now.ended) }
    {
        self.readable && !self.ended
    }

    /// Whether its end was read.
    pub fn is_ended(&self) -> bool
        ensures { result ≡ self.now.ended }
    {
        self.ended
    }

    /// Whether both its directions are over, so that what is written to it reaches nobody.
    pub fn is_lost(&self) -> bool
        ensures { result ≡ self.now.lost }
    {
        self.lost
    }

    /// How many octets wait to be written.
    pub fn waiting(&self) -> usize
        ensures { result ≡ length self.now.out.waiting }
    {
        self.out.waiting()
    }

    /// A write failed: what is written to it reaches nobody, and reads go on until its end, or to a
    /// failure.
    pub fn lose(&mut self)
        ensures { self.new ≡ given_up self.old }
    {
        self.lost = true;
        self.readable = true;
    }

    /// Notes what was reported.
    pub fn note(&mut self, event: &Event)
        ensures { self.new ≡ noted event.now self.old }
    {
        let over = event.is_read_closed() || event.is_error();
        self.readable = self.readable || over || event.is_readable();
        self.full = self.full && !event.is_writable();
        self.lost = self.lost || event.is_error() || event.is_write_closed();
    }

    /// Puts octets out.
    pub fn put(&mut self, registry: &Registry, octets: &[u8]) -> Result<(), PutFault>
        ensures puts { OnOk result (Passes (S.held self.old.socket) (S.held self.new.socket) octets.now 0 self.old.out self.new.out) }
        ensures front { PassesFront (S.held self.old.socket) (S.held self.new.socket) octets.now self.old.out self.new.out }
        ensures left { S.left self.new.socket ≡ S.left self.old.socket }
        ensures heard { is_readable self.old.interests ≡ true → is_readable self.new.interests ≡ true }
        ensures stays { self.new ≡ record self.old { socket = self.new.socket; out = self.new.out; full = self.new.full; interests = self.new.interests } }
    {
        if self.out.waiting() == 0 && octets.len() >= self.least {
            self.out.put(&mut self.socket, octets)?;
            return self.watch(registry).map_err(PutFault::Socket);
        }
        self.out.gather(octets)?;
        if self.out.waiting() >= self.least {
            self.flush(registry).map_err(PutFault::Socket)?;
        }
        Ok(())
    }

    /// Writes what waits, if the socket may take it.
    pub fn flush(&mut self, registry: &Registry) -> io::Result<()>
        ensures puts { Passes (S.held self.old.socket) (S.held self.new.socket) [] 0 self.old.out self.new.out }
        ensures left { S.left self.new.socket ≡ S.left self.old.socket }
        ensures heard { is_readable self.old.interests ≡ true → is_readable self.new.interests ≡ true }
        ensures stays { self.new ≡ record self.old { socket = self.new.socket; out = self.new.out; full = self.new.full; interests = self.new.interests } }
    {
        if !self.full && self.out.waiting() > 0 {
            self.out.flush(&mut self.socket)?;
            self.watch(registry)?;
        }
        Ok(())
    }

    /// Writes what waits until a write takes nothing.
    pub fn finish(&mut self) -> io::Result<()>
        ensures puts { Passes (S.held self.old.socket) (S.held self.new.socket) [] 0 self.old.out self.new.out }
        ensures left { S.left self.new.socket ≡ S.left self.old.socket }
        ensures heard { is_readable self.old.interests ≡ true → is_readable self.new.interests ≡ true }
        ensures stays { self.new ≡ record self.old { socket = self.new.socket; out = self.new.out } }
    {
        self.out.flush_all(&mut self.socket)
    }

    /// Tells it that nothing more is written.
    pub fn shut(&mut self) -> io::Result<()>
        ensures shut { OnOk result (self.new.shut ≡ true) }
        ensures left { S.left self.new.socket ≡ S.left self.old.socket }
        ensures held { S.held self.new.socket ≡ S.held self.old.socket }
        ensures stays { self.new ≡ record self.old { socket = self.new.socket; shut = self.new.shut } }
    {
        if !self.shut {
            self.socket.shut()?;
            self.shut = true;
        }
        Ok(())
    }

    /// Ends what its peer sends: what came before is still read, and then its end.
    pub fn end(&mut self) -> io::Result<()>
        ensures left { S.left self.new.socket ≡ S.left self.old.socket }
        ensures held { S.held self.new.socket ≡ S.held self.old.socket }
        ensures stays { self.new ≡ record self.old { socket = self.new.socket } }
    {
        self.socket.end()
    }

    /// Reads what is there, as far as there is room.
    pub fn read(&mut self, alloc: Global, room: &mut [u8]) -> io::Result<Got>
        ensures gives { IfOk result (λ got. Gives (S.left self.old.socket) (S.left self.new.socket) (length room.old) got) }
        ensures held { S.held self.new.socket ≡ S.held self.old.socket }
        ensures ended { IfOk result (λ got. IsTrue self.new.ended ↔ (got ≡ Got.End)) }
        ensures failed { OnErr result (self.new.ended ≡ self.old.ended) }
        ensures readable { IfOk result (λ got. self.new.readable ≡ may_go_on got) }
        ensures stays { self.new ≡ record self.old { socket = self.new.socket; readable = self.new.readable; ended = self.new.ended } }
    {
        let got = read_piece(alloc, &mut self.socket, room)?;
        self.ended = matches!(got, Got::End);
        // Behind octets more may be there, or the end, though there was room for more: a read stops
        // before an urgent octet too.
        self.readable = matches!(got, Got::Octets(_));
        Ok(got)
    }

    /// Notes behind a write whether octets wait, and has the socket reported once it takes those.
    fn watch(&mut self, registry: &Registry) -> io::Result<()>
        ensures full { IsTrue self.new.full ↔ (0 < length self.old.out.waiting) }
        ensures watched { self.new.full ≡ true → is_writable self.new.interests ≡ true }
        ensures heard { is_readable self.old.interests ≡ true → is_readable self.new.interests ≡ true }
        ensures left { S.left self.new.socket ≡ S.left self.old.socket }
        ensures held { S.held self.new.socket ≡ S.held self.old.socket }
        ensures stays { self.new ≡ record self.old { socket = self.new.socket; full = self.new.full; interests = self.new.interests } }
    {
        self.full = self.out.waiting() > 0;
        if self.interests.is_writable() || !self.full {
            return Ok(());
        }
        self.interests = Interest::READABLE | Interest::WRITABLE;
        self.socket.change(registry, self.token, self.interests)
    }
}
