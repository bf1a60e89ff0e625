//! What is kept of the DATA of all active streams.

ghost use Rattle.std.specs.Prelude.{◌≡◌, ◌+◌, ◌<◌, ◌≤◌, ◌^◌, ℕ, [], ◌∷◌, ◌++◌, length, true, false, IfSome, OnOk, OnErr};
ghost use Rattle.theory_receive_windows.specs.Marks.{total, released};
ghost use Rattle.window_credit.specs.Sides.{find, change, without, is_above_all, opened, passing, putting, taking};
ghost use Rattle.window_credit.specs.Sides.{waiting, number_of, queue_of, has_untaken, is_past, MayTake, octets_behind};
ghost use Rattle.window_credit.specs.Sides.{taking_behind, released_behind, taken_of_all};

use crate::older::take_from_all;
use crate::places::place_of;
use crate::stream_credit::StreamCredit;
use std::alloc::{AllocError, Global};
use std::marker::Model;

/// The octets of streams' DATA that waited for what the side of a connection took, and go back on
/// the connection to the client (RFC 9113, section 6.9).
#[derive(Clone, Copy, Debug)]
pub struct TakenOctets {
    /// Those of the stream that the connection was given to last, which go back on that too.
    pub own: u64,
    /// Those of streams that had it before, whose requests are whole: on these streams nothing goes back.
    pub older: u64,
}

/// The octets of active streams' DATA that wait until their upstreams' sides took what was put out
/// for them, where bodies are passed on as they come. A clause sees the streams that were given a
/// connection, in the order of their ids, each with the numbers of its connection, also once that
/// is closed: what was taken of it counts as it stood then. Behind each mark of a stream wait some
/// octets. Where a connection was given to another stream since, octets that wait still are
/// counted, so that the streams are looked through only where some do.
#[derive(Drop)]
pub struct Marks {
    alloc: Global,
    sides: Vec<StreamCredit>,
    behind: u64,
}

impl Model for Marks {
    ghost use Rattle.std.specs.Prelude.{◌≡◌, List};
    ghost use Rattle.window_credit.specs.Sides.{Side as SideOfStream, octets_behind};
    ghost use Rattle.window_credit.specs.Places.{AreRising, AllAreSome};

    ghost Value = { List SideOfStream };

    ghost view = { λ marks. marks.sides.items };

    ghost invariant = { λ marks. AreRising marks.sides.items × AllAreSome marks.sides.items × (octets_behind marks.sides.items ≡ marks.behind) };
}

impl Marks {
    /// Nothing is kept.
    pub fn new(alloc: Global) -> Marks
        ensures { result ≡ [] }
    {
        Marks {
            alloc,
            sides: Vec::new(alloc),
            behind: 0,
        }
    }

    /// A connection was given to a stream, above all that are kept (RFC 9113, section 5.1.1); so
    /// many octets were put out for it and taken, none of one that was just opened. An `Err` says
    /// that memory was refused; it changes nothing.
    pub fn open(&mut self, id: u32, number: u32, put_out: u64, taken: u64) -> Result<(), AllocError>
        requires above { is_above_all id self.old ≡ true }
        requires within { taken ≤ put_out }
        ensures opened { OnOk result (self.new ≡ self.old ++ opened id number put_out taken ∷ []) }
        ensures unchanged { OnErr result (self.new ≡ self.old) }
    {
        self.sides.push(StreamCredit::opened(self.alloc, id, number, put_out, taken))?;
        Ok(())
    }

    /// The connection of a stream, whose request is whole, is given to another one: octets of its
    /// DATA that wait for it wait on, and none come any more. One that isn't kept changes nothing.
    pub fn pass(&mut self, id: u32)
        requires { octets_behind self.old + total (queue_of id self.old) < 2 ^ 64 }
        ensures { self.new ≡ change id passing self.old }
    {
        if let Some(place) = place_of(&self.sides, id) {
            let more = self.sides[place].pass();
            self.behind += more;
        }
    }

    /// How many octets wait of streams whose connections were given to others since.
    pub fn behind(&self) -> u64
        ensures { result ≡ octets_behind self.now }
    {
        let Marks { behind, .. } = self;
        *behind
    }

    /// The number of a stream's connection, if it was given one and it is kept.
    pub fn number(&self, id: u32) -> Option<u32>
        ensures { result ≡ number_of id self.now }
    {
        match place_of(&self.sides, id) {
            Some(place) => Some(self.sides[place].number()),
            None => None,
        }
    }

    /// How many octets of a stream's DATA wait. It has no more marks than these.
    pub fn total(&self, id: u32) -> u64
        ensures all { result ≡ total (queue_of id self.now) }
        ensures few { length (queue_of id self.now) ≤ result }
    {
        match place_of(&self.sides, id) {
            Some(place) => self.sides[place].total(),
            None => 0,
        }
    }

    /// A law of what is kept, which takes no step: no stream has more marks than octets that wait,
    /// since behind each mark some do.
    pub fn are_few(&self)
        ensures { (id : ℕ) → length (queue_of id self.now) ≤ total (queue_of id self.now) }
    {
        let _ = &self.sides;
    }

    /// Whether not all octets that were put out for a stream's connection are taken: then its DATA
    /// waits. Of a connection that was given to another stream since this isn't told.
    pub fn has_untaken(&self, id: u32) -> bool
        ensures { result ≡ has_untaken id self.now }
    {
        match place_of(&self.sides, id) {
            Some(place) => self.sides[place].has_untaken(),
            None => false,
        }
    }

    /// So many octets more were put out for a stream's connection. One that isn't kept changes nothing.
    pub fn put(&mut self, id: u32, count: u64)
        requires { IfSome (find id self.old) (λ side. side.out + count < 2 ^ 64) }
        ensures { self.new ≡ change id (putting count) self.old }
    {
        if let Some(place) = place_of(&self.sides, id) {
            self.sides[place].put(count);
        }
    }

    /// The side of a connection, which was given to this stream last, took so many by now of all
    /// octets that were put out for it: the octets of streams' DATA that waited for them, which go
    /// back (RFC 9113, section 6.9). A stream that isn't kept has none. Each frame's octets are
    /// taken off once. Where no octets wait of streams that had a connection before, this is one
    /// look-up.
    pub fn take(&mut self, id: u32, number: u32, taken: u64) -> TakenOctets
        requires { IfSome (find id self.old) (MayTake taken) }
        ensures own { result.own ≡ released taken (queue_of id self.old) }
        ensures older { result.older ≡ released_behind number taken self.old }
        ensures kept { self.new ≡ taken_of_all id number taken self.old }
    {
        let older = self.take_behind(number, taken);
        let own = self.take_own(id, taken);
        TakenOctets { own, older }
    }

    // Those of streams that had the connection before.
    fn take_behind(&mut self, number: u32, taken: u64) -> u64
        ensures released { result ≡ released_behind number taken self.old }
        ensures kept { self.new ≡ taking_behind number taken self.old }
    {
        if self.behind == 0 {
            return 0;
        }
        let count = take_from_all(&mut self.sides, number, taken);
        self.behind -= count;
        count
    }

    // Those of a stream whose connection was given to no other since.
    fn take_own(&mut self, id: u32, taken: u64) -> u64
        requires { IfSome (find id self.old) (MayTake taken) }
        ensures released { result ≡ released taken (queue_of id self.old) }
        ensures kept { self.new ≡ change id (taking taken) self.old }
    {
        match place_of(&self.sides, id) {
            Some(place) => self.sides[place].take(taken),
            None => 0,
        }
    }

    /// So many octets of a stream's DATA, of which there are some, wait until all is taken that was
    /// put out for its connection, which was given to no other stream since. One that isn't kept
    /// changes nothing. An `Err` says that memory was refused; it changes nothing.
    pub fn wait(&mut self, id: u32, count: u64) -> Result<(), AllocError>
        requires some { 0 < count }
        requires newest { is_past id self.old ≡ false }
        requires fits { total (queue_of id self.old) + count < 2 ^ 64 }
        ensures added { OnOk result (self.new ≡ change id (waiting count) self.old) }
        ensures unchanged { OnErr result (self.new ≡ self.old) }
    {
        match place_of(&self.sides, id) {
            Some(place) => self.sides[place].wait(count),
            None => Ok(()),
        }
    }

    /// A stream is over: how many octets of its DATA waited, which go back on the connection (RFC
    /// 9113, section 6.9). Nothing is kept of it any more; one that isn't kept changes nothing.
    pub fn close(&mut self, id: u32) -> u64
        ensures dropped { result ≡ total (queue_of id self.old) }
        ensures closed { self.new ≡ without id self.old }
    {
        match place_of(&self.sides, id) {
            Some(place) => {
                let side = self.sides.remove(place);
                self.behind -= side.behind();
                side.total()
            }
            None => 0,
        }
    }
}
