//! The streams of a connection, and what is kept of each (RFC 9113, section 5.1): of an active
//! stream all that `theory_errors` keeps, of one that is over only whether the gateway reset it.
//!
//! A clause sees the rows of the book of `theory_errors`, the newest first. A stream is found by
//! halves among all that were opened.
#![tactic(auto)]

ghost use Rattle.std.specs.Prelude.{◌≡◌, ◌==◌, ◌<◌, ◌≤◌, true, false, [], ◌∷◌, length, pos, ◌+ℤ◌, ◌≤ℤ◌, IfSome, IfNone, OnOk, OnErr};
ghost use Rattle.model.specs.Limits.{most_streams, greatest_window};
ghost use Rattle.model.specs.Windows.{IsSize};
ghost use Rattle.theory_errors.specs.Owing.{highest_in};
ghost use Rattle.theory_errors.specs.Judging.{is_over_in};
ghost use Rattle.theory_errors.specs.Rows.{find as kept_of, ids_of, slot_of};
ghost use Rattle.theory_errors.specs.Rows.Slot.{Live as Active, Over as Done};
ghost use Rattle.theory_errors.specs.Tidy.{AreKept, IsTidy};
ghost use Rattle.streams.specs.Views.{outline_of};
ghost use Rattle.stream_state.specs.Views.{kind_in, standing_in, verdict_in};

mod course;
mod entries;
pub mod laws;
mod live;
mod records;
mod steps;

pub use crate::course::{Course, Reply};
use crate::entries::{Slot, StreamEntry, last_id, place_of};
pub use crate::live::Live;
use crate::records::{
    StreamRecord, grant_at, live_at, shifts_past, state_of, step_at, store, take_at, vacate,
};
use crate::steps::StreamStep;
pub use local_replies::Cause;
use protocol::limits;
use slab::Slab;
use std::alloc::{AllocError, Global};
use std::marker::Model;
use stream_state::{Kind, Standing, Verdict, unopened_standing, verdict_at};

/// How many streams are opened on a connection (this project's profile).
const MOST_STREAMS: usize = limits::MOST_STREAMS as usize;

/// The streams of a connection, seen as the rows of the book of `theory_errors`, the newest first.
#[derive(Debug, Drop)]
pub struct StreamTable {
    entries: Vec<StreamEntry>,
    records: Slab<StreamRecord>,
}

impl Model for StreamTable {
    ghost use Rattle.std.specs.Prelude.{List};
    ghost use Rattle.theory_errors.specs.Rows.{Row};

    ghost Value = { List Row };

    ghost use Rattle.streams.specs.Records.{rows_in, AreHeld};

    ghost view = { λ streams. rows_in streams.entries.items streams.records.slots };

    ghost invariant = { λ streams. AreHeld streams.entries.items streams.records.slots };
}

impl StreamTable {
    ghost use Rattle.streams.specs.Asked.{standing, verdict, AllowsOpening, MayOpen, active_in, is_active, shifts_past, changed, IsLive};
    ghost use Rattle.streams.specs.Steps.{granted, taken};
    ghost use Rattle.streams.specs.Sending.{AreTakable, head_sent, data_sent, given_back, failed, stepped, AreSendable, AreReturnable, HasRoom, is_served};

    /// A connection on which no stream was opened.
    pub fn new(alloc: Global) -> Self
        ensures { result ≡ [] }
    {
        StreamTable {
            entries: Vec::new(alloc),
            records: Slab::new(alloc),
        }
    }

    /// The active stream with this id, if there is one (RFC 9113, section 5.1).
    pub fn find(&self, id: u32) -> Option<&Live>
        ensures live { IfSome result (λ live. IsLive self.now id live.now) }
        ensures none { IfNone result (is_active self.now id ≡ false) }
        ensures kept { AreKept self.now }
    {
        let Ok(place) = place_of(&self.entries, id) else {
            return None;
        };
        match self.entries[place].slot {
            Slot::Live(key) => live_at(&self.records, key, id),
            Slot::Over(_) => None,
        }
    }

    /// Grants octets to the sending window of an active stream (RFC 9113, section 6.9.1); no other
    /// changes. The window has room for them.
    pub fn grant(&mut self, id: u32, increment: u32)
        requires live { is_active self.old id ≡ true }
        requires fits { IsSize ((kept_of self.old id).balance +ℤ pos increment) }
        ensures is { self.new ≡ changed id (Active (granted increment (kept_of self.old id))) self.old }
        ensures kept { AreKept self.new }
    {
        let Ok(place) = place_of(&self.entries, id) else {
            return;
        };
        if let Slot::Live(key) = self.entries[place].slot {
            grant_at(&mut self.records, key, increment);
        }
    }

    /// Takes octets of DATA on an active stream, all of the payload, or trailers of 0 octets; no
    /// other stream changes. What was given back on it is then at most a window's size less than
    /// what came (RFC 9113, section 6.9.1). Behind them this is the course of its request, and its
    /// client has ended it with them, or hasn't. Where both sides have ended it then, it is over
    /// (RFC 9113, section 5.1).
    pub fn take(&mut self, id: u32, octets: u32, course: Course, ended: bool)
        requires live { is_active self.old id ≡ true }
        requires fits { (octets == 0) ≡ false → AreTakable octets (kept_of self.old id) }
        ensures is { self.new ≡ changed id (slot_of (taken octets (outline_of course) ended (kept_of self.old id))) self.old }
        ensures kept { AreKept self.new }
    {
        let Some(live) = self.find(id) else {
            return;
        };
        if live.is_over_with(ended) {
            self.close(id, false);
        } else {
            self.put(id, octets, course, ended);
        }
    }

    /// The same, where it is active behind them.
    fn put(&mut self, id: u32, octets: u32, course: Course, ended: bool)
        requires live { is_active self.old id ≡ true }
        requires fits { (octets == 0) ≡ false → AreTakable octets (kept_of self.old id) }
        requires goes_on { is_over_in (taken octets (outline_of course) ended (kept_of self.old id)) ≡ false }
        ensures is { self.new ≡ changed id (Active (taken octets (outline_of course) ended (kept_of self.old id))) self.old }
        ensures kept { AreKept self.new }
    {
        let Ok(place) = place_of(&self.entries, id) else {
            return;
        };
        if let Slot::Live(key) = self.entries[place].slot {
            take_at(&mut self.records, key, octets, course, ended);
        }
    }

    /// Notes a header block that went out on an active stream (RFC 9113, section 8.1), a response's
    /// final head or not, with which the gateway ends the stream or doesn't; no other stream
    /// changes. Where both sides have ended it then, it is over (RFC 9113, section 5.1).
    pub fn send_head(&mut self, id: u32, is_final: bool, ends: bool)
        requires { is_active self.old id ≡ true }
        ensures is { self.new ≡ changed id (slot_of (head_sent is_final ends (kept_of self.old id))) self.old }
        ensures kept { AreKept self.new }
    {
        self.step(id, StreamStep::Head { is_final, ends });
    }

    /// Notes octets of DATA that went out on an active stream (RFC 9113, section 6.9.1), all of the
    /// payload, with which the gateway ends the stream or doesn't; no other changes. Where both
    /// sides have ended it then, it is over (RFC 9113, section 5.1).
    pub fn send_data(&mut self, id: u32, octets: u32, ends: bool)
        requires live { is_active self.old id ≡ true }
        requires fits { AreSendable octets (kept_of self.old id) }
        ensures is { self.new ≡ changed id (slot_of (data_sent octets ends (kept_of self.old id))) self.old }
        ensures kept { AreKept self.new }
    {
        self.step(id, StreamStep::Data { octets, ends });
    }

    /// Notes octets that were given back to an active stream (RFC 9113, section 6.9.1); no other
    /// changes. Its receiving window has room for them.
    pub fn give_back(&mut self, id: u32, octets: u32)
        requires live { is_active self.old id ≡ true }
        requires fits { AreReturnable octets (kept_of self.old id) }
        ensures is { self.new ≡ changed id (slot_of (given_back octets (kept_of self.old id))) self.old }
        ensures kept { AreKept self.new }
    {
        self.step(id, StreamStep::GivenBack { octets });
    }

    /// Notes that the upstream's answer failed for an active stream: the gateway replies itself
    /// (RFC 9110, section 15.6.3), unless it did before. No other changes.
    pub fn fail(&mut self, id: u32)
        requires { is_active self.old id ≡ true }
        ensures is { self.new ≡ changed id (slot_of (failed (kept_of self.old id))) self.old }
        ensures kept { AreKept self.new }
    {
        self.step(id, StreamStep::Failed);
    }

    /// Does a step on an active stream, for which its numbers have room.
    fn step(&mut self, id: u32, step: StreamStep)
        requires live { is_active self.old id ≡ true }
        requires fits { HasRoom step (kept_of self.old id) }
        ensures is { self.new ≡ changed id (slot_of (stepped step (kept_of self.old id))) self.old }
        ensures kept { AreKept self.new }
    {
        let Some(live) = self.find(id) else {
            return;
        };
        if !live.is_over_behind(step) {
            return self.go_on(id, step);
        }
        self.close(id, false)
    }

    /// The same, where it is active behind it.
    fn go_on(&mut self, id: u32, step: StreamStep)
        requires live { is_active self.old id ≡ true }
        requires fits { HasRoom step (kept_of self.old id) }
        requires goes_on { is_over_in (stepped step (kept_of self.old id)) ≡ false }
        ensures is { self.new ≡ changed id (Active (stepped step (kept_of self.old id))) self.old }
        ensures kept { AreKept self.new }
    {
        let Ok(place) = place_of(&self.entries, id) else {
            return;
        };
        if let Slot::Live(key) = self.entries[place].slot {
            step_at(&mut self.records, key, step);
        }
    }

    /// Whether a stream is served: it is active (RFC 9113, section 5.1), and the gateway doesn't reply to it itself.
    pub fn is_served(&self, id: u32) -> bool
        ensures { result ≡ is_served self.now id }
    {
        match self.find(id) {
            Some(live) => !live.is_replied(),
            None => false,
        }
    }

    /// How an id stands to the streams that were opened (RFC 9113, sections 5.1 and 5.1.1); an id
    /// above that of the 10,000th, and above all where the connection is drained, is beyond the last
    /// that a GOAWAY with NO_ERROR named (RFC 9113, section 6.8).
    pub fn standing(&self, drained: bool, id: u32) -> Standing
        ensures { standing_in result ≡ standing drained self.now id }
    {
        if id == 0 {
            return Standing::WholeConnection;
        }
        match place_of(&self.entries, id) {
            Ok(place) => Standing::Opened(state_of(&self.records, self.entries[place])),
            Err(place) => {
                let count = self.entries.len();
                unopened_standing(id, place == count, drained, count == MOST_STREAMS)
            }
        }
    }

    /// What comes of a frame on this id by the state of its stream (RFC 9113, sections 5.1, 5.1.1
    /// and 5.1.2). Where the answer is `Open`, or REFUSED_STREAM for want of room, `open` may be
    /// called with the id.
    pub fn verdict(&self, drained: bool, id: u32, kind: Kind) -> Verdict
        ensures is { verdict_in result ≡ verdict drained self.now id (kind_in kind) }
        ensures allows { AllowsOpening result self.now id }
        ensures kept { AreKept self.now }
    {
        let standing = self.standing(drained, id);
        verdict_at(self.records.len() as u32, standing, kind)
    }

    /// How many streams are active (RFC 9113, section 5.1.2).
    pub fn active(&self) -> u32
        ensures is { result ≡ length (active_in self.now) }
        ensures kept { AreKept self.now }
    {
        self.records.len() as u32
    }

    /// How many streams were opened, whatever became of them (RFC 9113, section 5.1); at most 10,000.
    pub fn count(&self) -> u32
        ensures is { result ≡ length self.now }
        ensures few { result ≤ most_streams }
    {
        self.entries.len() as u32
    }

    /// The highest id of a stream that was opened, or 0 where none was: it is what a GOAWAY names
    /// (RFC 9113, section 6.8).
    pub fn highest(&self) -> u32
        ensures { result ≡ highest_in (ids_of self.now) }
    {
        last_id(&self.entries)
    }

    /// Whether a first size of windows makes the sending window of an active stream too large (RFC
    /// 9113, section 6.9.2): a walk over the records of active streams.
    pub fn shifts_past(&self, first: u32) -> bool
        requires { first ≤ greatest_window }
        ensures { result ≡ shifts_past first self.now }
    {
        shifts_past(&self.records, first)
    }

    /// Forgets all of an active stream but whether the gateway reset it (RFC 9113, section 5.1); no other changes.
    pub fn close(&mut self, id: u32, by_us: bool)
        requires { is_active self.old id ≡ true }
        ensures is { self.new ≡ changed id (Done by_us) self.old }
        ensures kept { AreKept self.new }
    {
        let Ok(place) = place_of(&self.entries, id) else {
            return;
        };
        let Slot::Live(key) = self.entries[place].slot else {
            return;
        };
        self.entries[place] = StreamEntry {
            id,
            slot: Slot::Over(by_us),
        };
        vacate(&mut self.records, key);
    }

    /// Opens a stream, above all that were opened (RFC 9113, sections 5.1 and 5.1.1). An `Err` says
    /// that memory was refused; it changes nothing.
    pub fn open(&mut self, id: u32, live: Live) -> Result<(), AllocError>
        requires may { MayOpen self.old id }
        requires tidy { IsTidy (Active live) }
        ensures ok { OnOk result (self.new ≡ record { id = id; slot = Active live } ∷ self.old) }
        ensures err { OnErr result (self.new ≡ self.old) }
        ensures kept { AreKept self.new }
    {
        self.entries.reserve(1)?;
        let key = store(&mut self.records, StreamRecord { id, live })?;
        let slot = Slot::Live(key);
        let Ok(()) = self.entries.push(StreamEntry { id, slot }) else {
            unreachable!();
        };
        Ok(())
    }
}
