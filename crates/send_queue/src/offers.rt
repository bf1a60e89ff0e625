//! What is on offer for all active streams.

ghost use Rattle.std.specs.Prelude.{◌≡◌, [], ◌∷◌, ◌++◌, true, option_map, IfOk, OnOk, OnErr};
ghost use Rattle.model.specs.Turns.{IsNextTurn};
ghost use Rattle.theory_responses.specs.State.{start, change, without, blank, answered, ready};
ghost use Rattle.send_buffer.specs.Views.{part_in};
ghost use Rattle.local_replies.specs.Views.{cause_of};
ghost use Rattle.send_queue.specs.Asked.{is_kept, is_cut, held_for, is_above_all, is_head, are_octets, are_trailers, part_for, windows_over};
ghost use Rattle.send_queue.specs.Changes.{IsHeardFor, IsEndedFor, IsHeadGone, AreOctetsGone, AreTrailersGone};

use crate::kept::Kept;
use crate::offered::Offered;
use crate::places::{place_near, place_of, remove_at};
use crate::turns::next_of;
use h1_reader::ResponseHead;
use hpack_table::Field;
use local_replies::Cause;
use send_buffer::Part;
use std::alloc::{AllocError, Global};
use std::marker::Model;
use streams::StreamTable;
use upstream_response::{Answer, AnswerEnd, Heard};

/// What is on offer for all active streams, and which stream had the last turn. A clause sees it as
/// the rule of responses does: the streams in the order in which they were opened.
#[derive(Drop)]
pub struct Offers {
    alloc: Global,
    kept: Vec<Kept>,
    last: u32,
    offered: Offered,
}

impl Model for Offers {
    ghost use Rattle.theory_responses.specs.State.{State};
    ghost use Rattle.send_queue.specs.Places.{AreSound};

    ghost Value = { State };

    ghost view = { λ offers. record { kept = offers.kept.items; last = offers.last } };

    ghost invariant = { λ offers. AreSound offers.kept.items offers.offered };
}

impl Offers {
    /// No stream is active yet.
    pub fn new(alloc: Global) -> Offers
        ensures { result ≡ start }
    {
        Offers {
            alloc,
            kept: Vec::new(alloc),
            last: 0,
            offered: Offered::none(),
        }
    }

    /// A stream is opened, above all that are active (RFC 9113, section 5.1.1); nothing is on offer
    /// for it. An `Err` says that memory was refused; it changes nothing.
    pub fn open(&mut self, id: u32) -> Result<(), AllocError>
        requires { is_above_all id self.old.kept ≡ true }
        ensures ok { OnOk result (self.new ≡ record self.old { kept = self.old.kept ++ blank id ∷ [] }) }
        ensures err { OnErr result (self.new ≡ self.old) }
    {
        self.kept.push(Kept::new(self.alloc, id))?;
        Ok(())
    }

    /// Nothing is on offer for a stream any more, which is over. One that isn't active changes nothing.
    pub fn close(&mut self, id: u32)
        ensures { self.new ≡ record self.old { kept = without id self.old.kept } }
    {
        if let Some(place) = place_of(&self.kept, id) {
            let had = self.kept[place].is_offered();
            remove_at(&mut self.kept, place);
            self.offered = self.offered.behind(id, had, false);
        }
    }

    /// Takes octets of an active stream's upstream: what is news of its answer is on offer for it,
    /// and no other stream changes. An `Err` says that memory was refused, and then neither the
    /// answer nor what is on offer is of use any more.
    pub fn hear(&mut self, id: u32, answer: &mut Answer, octets: &[u8]) -> Result<Heard, AllocError>
        requires { is_kept id self.old.kept ≡ true }
        ensures { IfOk result (λ heard. IsHeardFor self.old id answer.old octets.now heard answer.new self.new) }
    {
        let Some(place) = place_of(&self.kept, id) else {
            unreachable!();
        };
        let had = self.kept[place].is_offered();
        let heard = self.kept[place].hear(answer, octets);
        self.offered = self.offered.behind(id, had, self.kept[place].is_offered());
        heard
    }

    /// Takes the end of the connection of an active stream's upstream: the rest of its answer is on
    /// offer for it, where that is whole with it, and no other stream changes. An `Err` says that
    /// memory was refused, and then neither the answer nor what is on offer is of use any more.
    pub fn end(&mut self, id: u32, answer: &mut Answer) -> Result<AnswerEnd, AllocError>
        requires { is_kept id self.old.kept ≡ true }
        ensures { IfOk result (λ ended. IsEndedFor self.old id answer.old ended self.new) }
    {
        let Some(place) = place_of(&self.kept, id) else {
            unreachable!();
        };
        let had = self.kept[place].is_offered();
        let ended = self.kept[place].end(answer);
        self.offered = self.offered.behind(id, had, self.kept[place].is_offered());
        ended
    }

    /// The gateway answers a stream itself: its reply takes the place of what is on offer, or a
    /// reset is owed where a final head is out. A stream that isn't active changes nothing. An
    /// `Err` says that memory was refused; it changes nothing.
    pub fn reply(&mut self, id: u32, cause: Cause) -> Result<(), AllocError>
        ensures ok { OnOk result (self.new ≡ record self.old { kept = change id (answered (cause_of cause)) self.old.kept }) }
        ensures err { OnErr result (self.new ≡ self.old) }
    {
        let Some(place) = place_of(&self.kept, id) else {
            return Ok(());
        };
        let had = self.kept[place].is_offered();
        let answered = self.kept[place].answer(self.alloc, cause);
        self.offered = self.offered.behind(id, had, self.kept[place].is_offered());
        answered
    }

    /// The stream that has the next turn, each in turn by rising ids: none just where nothing can
    /// go. `first_size` is the first size of the streams' windows, and `shared` the connection's
    /// window, in octets (RFC 9113, sections 6.9.1 and 6.9.2).
    pub fn next_turn(&self, streams: &StreamTable, first_size: u32, shared: i64) -> Option<u32>
        ensures { IsNextTurn self.now.last (ready (windows_over streams.now first_size shared) self.now) result }
    {
        let offered = self.offered.among(&self.kept);
        next_of(offered, self.last, streams, first_size, shared)
    }

    /// The part of a stream's response that goes next, where so many octets of its body may; it has
    /// the end where nothing is held behind it. There is none where nothing can go, or the stream
    /// isn't active. Where it is a head, `take_head` may be called, and where it is trailers
    /// `take_trailers`.
    pub fn part(&self, id: u32, most: usize) -> Option<Part<'_>>
        ensures is { option_map part_in result ≡ part_for most id self.now.kept }
        ensures head { is_head (option_map part_in result) ≡ is_head (part_for 1 id self.now.kept) }
        ensures trailers { are_trailers (option_map part_in result) ≡ are_trailers (part_for 1 id self.now.kept) }
    {
        let Some(place) = place_of(&self.kept, id) else {
            return None;
        };
        self.kept[place].next(most)
    }

    /// Takes the head that goes next on a stream, as `part` answers it; the stream had its turn with it.
    pub fn take_head(&mut self, id: u32) -> ResponseHead
        requires { is_head (part_for 1 id self.old.kept) ≡ true }
        ensures { IsHeadGone self.old id result self.new }
    {
        let Some(place) = place_of(&self.kept, id) else {
            unreachable!();
        };
        self.last = id;
        let had = self.kept[place].is_offered();
        let head = self.kept[place].take_head();
        self.offered = self.offered.behind(id, had, self.kept[place].is_offered());
        head
    }

    /// Takes the trailers that go next on a stream, as `part` answers them; the stream had its turn with them.
    pub fn take_trailers(&mut self, id: u32) -> Vec<Field>
        requires { are_trailers (part_for 1 id self.old.kept) ≡ true }
        ensures { AreTrailersGone self.old id result.items self.new }
    {
        let Some(place) = place_of(&self.kept, id) else {
            unreachable!();
        };
        self.last = id;
        let had = self.kept[place].is_offered();
        let trailers = self.kept[place].take_trailers();
        self.offered = self.offered.behind(id, had, self.kept[place].is_offered());
        trailers
    }

    /// The octets that `part` answers for `most` were sent on a stream, or the end without octets;
    /// the stream had its turn with them.
    pub fn take_octets(&mut self, id: u32, most: usize)
        requires { are_octets (part_for most id self.old.kept) ≡ true }
        ensures { AreOctetsGone self.old id most self.new }
    {
        let Some(place) = place_of(&self.kept, id) else {
            unreachable!();
        };
        self.last = id;
        let had = self.kept[place].is_offered();
        self.kept[place].drop_octets(most);
        self.offered = self.offered.behind(id, had, self.kept[place].is_offered());
    }

    /// Whether a stream is active.
    pub fn is_kept(&self, id: u32) -> bool
        ensures { result ≡ is_kept id self.now.kept }
    {
        place_of(&self.kept, id).is_some()
    }

    /// Whether a reset of a stream is owed (RFC 9113, section 5.4.2), since the gateway answers it
    /// itself and a final head is out.
    pub fn is_cut(&self, id: u32) -> bool
        ensures { result ≡ is_cut id self.now.kept }
    {
        match place_of(&self.kept, id) {
            Some(place) => self.kept[place].is_cut(),
            None => false,
        }
    }

    /// How many octets of a stream's body are on offer and weren't sent; none where it isn't
    /// active. It is looked for at `guess` first, which then is the place behind it: so streams
    /// that are asked for in the order of their ids are found at once. Whatever `guess` is, the
    /// result is the same.
    pub fn held(&self, id: u32, guess: &mut usize) -> usize
        ensures { result ≡ held_for id self.now.kept }
    {
        match place_near(&self.kept, id, *guess) {
            Some(place) => {
                *guess = place + 1;
                self.kept[place].held()
            }
            None => 0,
        }
    }
}
