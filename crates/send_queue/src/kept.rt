//! What is kept of an active stream.

ghost use Rattle.std.specs.Prelude.{◌≡◌, true, length, option_map, IfOk, OnOk, OnErr};
ghost use Rattle.theory_responses.specs.State.{answered, blank, is_ready};
ghost use Rattle.theory_responses.specs.Outbox.{part_of};
ghost use Rattle.theory_responses.specs.Held.{body_waiting};
ghost use Rattle.send_buffer.specs.Views.{part_in};
ghost use Rattle.upstream_response.specs.Hearing.{IsHeard, IsEnded};
ghost use Rattle.local_replies.specs.Views.{cause_of};
ghost use Rattle.send_queue.specs.Asked.{is_head, are_octets, are_trailers, windows_over};
ghost use Rattle.send_queue.specs.Places.{is_offered};
ghost use Rattle.send_queue.specs.Changes.{IsHeadTaken, AreOctetsTaken, AreTrailersTaken};

use crate::reply::reply_head;
use crate::turns::are_open;
use h1_reader::ResponseHead;
use hpack_table::Field;
use local_replies::Cause;
use send_buffer::{Outbox, Part};
use std::alloc::{AllocError, Global};
use std::marker::Model;
use streams::StreamTable;
use upstream_response::{Answer, AnswerEnd, Heard};

/// An active stream: its outbox, and whether a reset of it is owed.
#[derive(Drop)]
pub struct Kept {
    id: u32,
    outbox: Outbox,
    cut: bool,
}

impl Model for Kept {
    ghost use Rattle.theory_responses.specs.State.{Kept};

    ghost Value = { Kept };

    ghost view = { λ stream. record { id = stream.id; box = stream.outbox; cut = stream.cut } };
}

impl Kept {
    /// A stream with nothing on offer.
    pub fn new(alloc: Global, id: u32) -> Kept
        ensures { result ≡ blank id }
    {
        Kept {
            id,
            outbox: Outbox::new(alloc),
            cut: false,
        }
    }

    /// Its id (RFC 9113, section 5.1.1).
    pub fn id(&self) -> u32
        ensures { result ≡ self.now.id }
    {
        let Kept { id, .. } = self;
        *id
    }

    /// Whether a reset of it is owed (RFC 9113, section 5.4.2).
    pub fn is_cut(&self) -> bool
        ensures { result ≡ self.now.cut }
    {
        self.cut
    }

    /// Whether something of it is on offer, which can go where its windows are open.
    pub fn is_offered(&self) -> bool
        ensures { result ≡ is_offered self.now }
    {
        !self.cut && self.outbox.can_go(true)
    }

    /// Whether something of it can go. Its window is looked up only where octets of a body wait.
    pub fn is_ready(&self, streams: &StreamTable, first_size: u32, shared: i64) -> bool
        ensures { result ≡ is_ready (windows_over streams.now first_size shared) self.now }
    {
        if self.cut {
            return false;
        }
        if self.outbox.can_go(false) {
            return true;
        }
        self.outbox.can_go(true) && are_open(streams, first_size, shared, self.id)
    }

    /// How many octets of its body are on offer and weren't sent.
    pub fn held(&self) -> usize
        ensures { result ≡ length (body_waiting self.now.box) }
    {
        self.outbox.held()
    }

    /// The part that goes next, where so many octets of the body may.
    pub fn next(&self, most: usize) -> Option<Part<'_>>
        ensures { option_map part_in result ≡ part_of most self.now.box }
    {
        self.outbox.next(most)
    }

    /// The gateway answers the stream itself: its reply takes the place of what is on offer, or a
    /// reset is owed where a final head is out. An `Err` says that memory was refused; it changes
    /// nothing.
    pub fn answer(&mut self, alloc: Global, cause: Cause) -> Result<(), AllocError>
        ensures ok { OnOk result (self.new ≡ answered (cause_of cause) self.old) }
        ensures err { OnErr result (self.new ≡ self.old) }
        ensures id { self.new.id ≡ self.old.id }
    {
        if self.outbox.is_begun() {
            self.cut = true;
            return Ok(());
        }
        let head = reply_head(alloc, cause)?;
        self.outbox.reply(alloc, head);
        Ok(())
    }

    /// Takes octets of its upstream into its outbox. An `Err` says that memory was refused, and
    /// then neither the answer nor the outbox is of use any more.
    pub fn hear(&mut self, answer: &mut Answer, octets: &[u8]) -> Result<Heard, AllocError>
        ensures heard { IfOk result (λ heard. IsHeard answer.old octets.now self.old.box heard answer.new self.new.box) }
        ensures id { self.new.id ≡ self.old.id }
        ensures cut { self.new.cut ≡ self.old.cut }
    {
        answer.hear(octets, &mut self.outbox)
    }

    /// Takes the end of its upstream's connection into its outbox. An `Err` says that memory was
    /// refused, and then neither the answer nor the outbox is of use any more.
    pub fn end(&mut self, answer: &mut Answer) -> Result<AnswerEnd, AllocError>
        ensures ended { IfOk result (λ ended. IsEnded answer.old self.old.box ended self.new.box) }
        ensures id { self.new.id ≡ self.old.id }
        ensures cut { self.new.cut ≡ self.old.cut }
    {
        answer.end(&mut self.outbox)
    }

    /// Takes the head that goes next.
    pub fn take_head(&mut self) -> ResponseHead
        requires { is_head (part_of 1 self.old.box) ≡ true }
        ensures { IsHeadTaken self.old result self.new }
    {
        let Some(head) = self.outbox.take_head() else {
            unreachable!();
        };
        head
    }

    /// Takes the trailers that go next.
    pub fn take_trailers(&mut self) -> Vec<Field>
        requires { are_trailers (part_of 1 self.old.box) ≡ true }
        ensures { AreTrailersTaken self.old result.items self.new }
    {
        let Some(trailers) = self.outbox.take_trailers() else {
            unreachable!();
        };
        trailers
    }

    /// The octets that `next` answers for `most` were sent.
    pub fn drop_octets(&mut self, most: usize)
        requires { are_octets (part_of most self.old.box) ≡ true }
        ensures { AreOctetsTaken self.old most self.new }
    {
        self.outbox.drop_octets(most);
    }
}
