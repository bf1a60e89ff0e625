//! What the gateway's own doing changes of a connection: frames that it sent, octets that it gave
//! back, and upstreams' answers that failed. Whoever sends a frame notes it here;
//! `sent_frames_lead` says that this is what the book of `theory_errors` is behind it.

ghost use Rattle.std.specs.Prelude.{◌≡◌, ◌≤◌, true, if◌then◌else◌, Some, None, pos, ◌+ℤ◌, ◌-ℤ◌, ◌≤ℤ◌};
ghost use Rattle.model.specs.Windows.{IsSize};
ghost use Rattle.model.specs.Limits.{greatest_window};
ghost use Rattle.theory_errors.specs.Judging.{window_in};
ghost use Rattle.theory_errors.specs.Owing.{must_end_in, highest_in};
ghost use Rattle.theory_errors.specs.Rows.{find, ids_of};
ghost use Rattle.theory_errors.specs.Rows.Slot.{Over as Done};
ghost use Rattle.theory_errors.specs.Tidy.{AreKept};
ghost use Rattle.streams.specs.Asked.{is_active, changed};
ghost use Rattle.streams.specs.Sending.{head_sent, data_sent, given_back, failed, AreReturnable, is_served};
ghost use Rattle.connection_state.specs.Inbound.{Outside, told_of};
ghost use Rattle.connection_state.specs.Draining.{is_full_in};
ghost use Rattle.connection_state.specs.Sending.{with_kept, AreWithin};

use crate::connection::Connection;
use protocol::limits::MOST_STREAMS;
use streams::{Live, StreamTable};

impl Connection {
    /// Notes that the last frame of a header block went out on an active stream (RFC 9113, section
    /// 8.1): whether it is a response's final head, and whether it ends the stream. Where both
    /// sides have ended the stream then, it is over (RFC 9113, section 5.1).
    pub fn sent_head(&mut self, id: u32, is_final: bool, ends: bool)
        requires { is_active self.old.rows id ≡ true }
        ensures { self.new ≡ record self.old { rows = with_kept id (head_sent is_final ends (find self.old.rows id)) self.old.rows } }
    {
        self.streams.send_head(id, is_final, ends);
    }

    /// Notes that so many octets of DATA went out on an active stream, all of the payload, and
    /// whether they end the stream. Both sending windows have room for them (RFC 9113, section
    /// 6.9.1). Where both sides have ended the stream then, it is over (RFC 9113, section 5.1).
    pub fn sent_data(&mut self, id: u32, octets: u32, ends: bool)
        requires live { is_active self.old.rows id ≡ true }
        requires within { AreWithin self.old id octets }
        ensures { self.new ≡ record self.old {
          window = self.old.window -ℤ pos octets;
          rows = with_kept id (data_sent octets ends (find self.old.rows id)) self.old.rows;
        } }
    {
        if octets > 0 {
            self.window.take(octets);
        }
        // The first size is a window's, so what is kept without it is above the least.
        let _first = self.first_size();
        self.streams.send_data(id, octets, ends);
    }

    /// Notes that RST_STREAM went out on an active stream (RFC 9113, section 6.4): it is over, by the gateway.
    pub fn sent_reset(&mut self, id: u32)
        requires { is_active self.old.rows id ≡ true }
        ensures { self.new ≡ record self.old { rows = changed id (Done true) self.old.rows } }
    {
        self.streams.close(id, true);
    }

    /// Notes that so many octets were given back to the connection (RFC 9113, section 6.9), whose
    /// receiving window has no more then than it is to have at first.
    pub fn gave_back(&mut self, octets: u32)
        requires { (self.old.room +ℤ pos octets) ≤ℤ pos self.old.own }
        ensures { self.new ≡ record self.old { room = self.old.room +ℤ pos octets } }
    {
        // The size with which receiving windows begin is a window's.
        let _own = self.receiving_window();
        let _ = self.room.grant(octets);
    }

    /// Notes that so many octets were given back to an active stream (RFC 9113, section 6.9), whose
    /// receiving window has room for them.
    pub fn gave_back_on(&mut self, id: u32, octets: u32)
        requires live { is_active self.old.rows id ≡ true }
        requires fits { AreReturnable octets (find self.old.rows id) }
        ensures { self.new ≡ record self.old { rows = with_kept id (given_back octets (find self.old.rows id)) self.old.rows } }
    {
        self.streams.give_back(id, octets);
    }

    /// Notes that the upstream's answer failed for an active stream: the gateway replies itself
    /// (RFC 9110, section 15.6.3), unless it did before.
    pub fn answer_failed(&mut self, id: u32)
        requires { is_active self.old.rows id ≡ true }
        ensures { self.new ≡ record self.old { rows = with_kept id (failed (find self.old.rows id)) self.old.rows } }
    {
        self.streams.fail(id);
    }

    /// How many octets of DATA may be sent on the connection (RFC 9113, section 6.9.1).
    pub fn window(&self) -> i64
        ensures is { result ≡ self.now.window }
        ensures in_range { IsSize self.now.window }
    {
        self.window.left()
    }

    /// How many octets of DATA may come on the connection (RFC 9113, section 6.9.1).
    pub fn room(&self) -> i64
        ensures is { result ≡ self.now.room }
        ensures in_range { IsSize self.now.room }
    {
        self.room.left()
    }

    /// The size with which receiving windows begin, in octets, of at most 2,147,483,647: those of
    /// streams, and that of the connection once it was made as large (RFC 9113, section 6.9.2).
    pub fn receiving_window(&self) -> u32
        ensures is { result ≡ self.now.own }
        ensures in_range { self.now.own ≤ greatest_window }
    {
        self.own
    }

    /// The size with which streams' sending windows begin, in octets, of at most 2,147,483,647 (RFC
    /// 9113, section 6.9.2).
    pub fn first_size(&self) -> u32
        ensures is { result ≡ self.now.first_size }
        ensures in_range { self.now.first_size ≤ greatest_window }
    {
        self.settings.initial_window()
    }

    /// How many octets of DATA may be sent on one of its active streams (RFC 9113, sections 6.9.1 and 6.9.2).
    pub fn window_on(&self, live: &Live) -> i64
        ensures { result ≡ window_in self.now.first_size live.now }
    {
        i64::from(self.settings.initial_window()) + live.balance()
    }

    /// Whether no stream may be opened any more: all were that a connection may have, or it is drained.
    fn is_full(&self) -> bool
        ensures { result ≡ is_full_in self.now }
    {
        self.drained || self.streams.count() == MOST_STREAMS
    }

    /// Notes that the operator wants the connection to end: no stream is opened from now on. Answers
    /// the highest that was, or 0, for the GOAWAY that says so (RFC 9113, section 6.8), unless none
    /// might be opened before.
    pub fn drain(&mut self) -> Option<u32>
        ensures drained { self.new ≡ record self.old { drained = true } }
        ensures last { result ≡ (if is_full_in self.old then None else Some (highest_in (ids_of self.old.rows))) }
    {
        let was_full = self.is_full();
        self.drained = true;
        if was_full {
            return None;
        }
        Some(self.streams.highest())
    }

    /// Whether the connection is to end, though nothing that came calls for it: no stream may be
    /// opened any more, and none is active (RFC 9113, section 6.8).
    pub fn is_exhausted(&self) -> bool
        ensures { (outside : Outside) → result ≡ must_end_in (told_of outside self.now) }
    {
        self.is_full() && self.streams.active() == 0
    }

    /// The streams of the connection (RFC 9113, section 5.1).
    pub fn streams(&self) -> &StreamTable
        ensures is { result.now ≡ self.now.rows }
        ensures kept { AreKept self.now.rows }
    {
        &self.streams
    }

    /// Whether a stream is served: it is active (RFC 9113, section 5.1), and the gateway doesn't reply to it itself.
    pub fn is_served(&self, id: u32) -> bool
        ensures { result ≡ is_served self.now.rows id }
    {
        self.streams.is_served(id)
    }
}
