//! What is kept of an active stream.

ghost use Rattle.std.specs.Prelude.{◌≡◌, ◌+◌, ◌<◌, ◌≤◌, ◌^◌, length, false, OnOk, OnErr};
ghost use Rattle.theory_receive_windows.specs.Marks.{total, released};
ghost use Rattle.window_credit.specs.Sides.{opened, passing, putting, taking, waiting, has_untaken_if, behind_of, waits_on, taking_on, released_on};

use crate::queue::CreditQueue;
use std::alloc::{AllocError, Global};
use std::marker::Model;

/// An active stream: the number of the connection that it was given, the octets that were put out
/// for that and that its side took, the octets of DATA that wait for it, and whether the connection
/// was given to another stream since.
#[derive(Drop)]
pub struct StreamCredit {
    id: u32,
    number: u32,
    put_out: u64,
    taken: u64,
    queue: CreditQueue,
    past: bool,
}

impl Model for StreamCredit {
    ghost use Rattle.std.specs.Prelude.{◌≡◌, ◌≤◌, false};
    ghost use Rattle.window_credit.specs.Sides.{Side};

    ghost Value = { Side };

    ghost view = { λ side. record { id = side.id; k = side.number; out = side.put_out; took = side.taken; queue = side.queue; past = side.past } };

    ghost invariant = { λ side. side.past ≡ false → side.taken ≤ side.put_out };
}

impl StreamCredit {
    /// A stream that was given a connection, of which so many octets were put out and taken.
    pub fn opened(alloc: Global, id: u32, number: u32, put_out: u64, taken: u64) -> StreamCredit
        requires { taken ≤ put_out }
        ensures { result ≡ opened id number put_out taken }
    {
        StreamCredit {
            id,
            number,
            put_out,
            taken,
            queue: CreditQueue::new(alloc),
            past: false,
        }
    }

    /// Its id (RFC 9113, section 5.1.1).
    pub fn id(&self) -> u32
        ensures { result ≡ self.now.id }
    {
        let StreamCredit { id, .. } = self;
        *id
    }

    /// The number of its connection.
    pub fn number(&self) -> u32
        ensures { result ≡ self.now.k }
    {
        let StreamCredit { number, .. } = self;
        *number
    }

    /// How many octets of its DATA wait. It has no more marks than these.
    pub fn total(&self) -> u64
        ensures all { result ≡ total self.now.queue }
        ensures few { length self.now.queue ≤ result }
    {
        self.queue.total()
    }

    /// Not all octets that were put out for its connection are taken, and no other stream was given that since.
    pub fn has_untaken(&self) -> bool
        ensures { result ≡ has_untaken_if (Some self.now) }
    {
        if self.past {
            return false;
        }
        self.taken < self.put_out
    }

    /// How many octets of its DATA wait, if another stream was given its connection since.
    pub fn behind(&self) -> u64
        ensures { result ≡ behind_of self.now }
    {
        if self.past { self.queue.total() } else { 0 }
    }

    /// Another stream is given its connection: how many more octets wait so.
    pub fn pass(&mut self) -> u64
        ensures more { behind_of self.old + result ≡ behind_of self.new }
        ensures passed { self.new ≡ passing self.old }
    {
        let more = self.queue.total() - self.behind();
        self.past = true;
        more
    }

    /// So many octets more were put out.
    pub fn put(&mut self, count: u64)
        requires { self.old.out + count < 2 ^ 64 }
        ensures { self.new ≡ putting count self.old }
    {
        self.put_out += count;
    }

    /// So many are taken by now: the octets of DATA that waited for them, which no longer do.
    pub fn take(&mut self, taken: u64) -> u64
        requires { self.old.past ≡ false → taken ≤ self.old.out }
        ensures released { result ≡ released taken self.old.queue }
        ensures kept { self.new ≡ taking taken self.old }
    {
        self.taken = taken;
        self.queue.reach(taken)
    }

    /// Whether some of its octets wait for the connection with this number, which another stream was given since.
    pub fn waits_on(&self, number: u32) -> bool
        ensures { result ≡ waits_on number self.now }
    {
        self.number == number && self.past && self.queue.total() > 0
    }

    /// So many octets of a connection are taken by now, which another stream was given since: the
    /// octets of its DATA that waited for them.
    pub fn take_behind(&mut self, number: u32, taken: u64) -> u64
        ensures released { result ≡ released_on number taken self.old }
        ensures kept { self.new ≡ taking_on number taken self.old }
    {
        if self.waits_on(number) {
            self.take(taken)
        } else {
            0
        }
    }

    /// So many octets of DATA, of which there are some, wait until all is taken that was put out.
    /// An `Err` says that memory was refused; it changes nothing.
    pub fn wait(&mut self, count: u64) -> Result<(), AllocError>
        requires some { 0 < count }
        requires fits { total self.now.queue + count < 2 ^ 64 }
        ensures added { OnOk result (self.new ≡ waiting count self.old) }
        ensures unchanged { OnErr result (self.new ≡ self.old) }
        ensures id { self.new.id ≡ self.old.id }
        ensures past { self.new.past ≡ self.old.past }
    {
        self.queue.wait(self.put_out, count)
    }
}
