//! The answer of an upstream.

ghost use Rattle.std.specs.Prelude.{◌≡◌, ◌+◌, ◌<◌, ◌≤◌, ◌&&◌, ◌==◌, [], ◌++◌, ◌∷◌, true, false, None, Some, length, OnOk, IfOk};
ghost use Rattle.theory_responses.specs.Outbox.{trailers_at, grown};
ghost use Rattle.h1_reader.specs.Standing.{is_end, is_done, Stands};
ghost use Rattle.h1_reader.specs.Keeps.{Knows};
ghost use Rattle.h1_reader.specs.Parts.Part.{Final, Body};
ghost use Rattle.h1_reader.specs.Views.{part_of, parts_of};
ghost use Rattle.h1_reader.specs.declared.reader.Place.TheVariants as place;
ghost use Rattle.upstream_response.specs.Telling.{head_of, body_of, trailers_of};
ghost use Rattle.upstream_response.specs.Waiting.{passing_in, waiting, news_at_once, IsPast, IsWithin};
ghost use Rattle.upstream_response.specs.Hearing.{IsHeard, IsEnded};

use h1_reader::{Piece, Reader, ResponseFault, ResponseHead, Trailers};
use send_buffer::Outbox;
use std::alloc::{AllocError, Global};
use std::marker::Model;
use std::mem;

/// How a response is passed on.
#[derive(Clone, Copy, Debug, PartialEq, Eq, Drop)]
pub enum ResponsePassing {
    /// Once it is whole, with a body of at most so many octets.
    Whole(u64),
    /// As it comes.
    Streaming,
}

/// What octets of an upstream come to.
#[derive(Clone, Copy, Debug, PartialEq, Eq, Drop)]
pub enum Heard {
    /// The response goes on.
    GoesOn,
    /// It is whole with them, no octet stands behind it, and it leaves the connection open (RFC
    /// 9112, sections 9.3 and 9.6).
    Keepable,
    /// It is whole with them, and the connection is of no more use.
    Finished,
    /// It is no response, or its body is too long to be passed on whole.
    Failed,
}

/// What the end of an upstream's connection comes to.
#[derive(Clone, Copy, Debug, PartialEq, Eq, Drop)]
pub enum AnswerEnd {
    /// The response is whole with it (RFC 9112, section 6.3).
    Complete,
    /// It is cut short.
    Short,
}

/// The answer of an upstream to one request, as far as it has come.
#[derive(Drop)]
pub struct Answer {
    alloc: Global,
    reader: Reader,
    passing: ResponsePassing,
    head: Option<ResponseHead>,
    body: Vec<u8>,
    trailers: Option<Trailers>,
}

impl Model for Answer {
    ghost use Rattle.upstream_response.specs.Waiting.{Answer};

    ghost Value = { Answer };

    ghost view = { λ a. record { reader = a.reader; way = a.passing; head = a.head; body = a.body.items; trailers = a.trailers } };
}

/// Whether a piece says that the response is whole.
fn is_end(piece: &Piece) -> bool
    ensures { result ≡ is_end (part_of piece.now) }
{
    matches!(piece, Piece::Done)
}

/// Whether pieces say that the response is whole.
fn is_whole(pieces: &[Piece]) -> bool
    ensures { result ≡ is_done (parts_of pieces.now) }
{
    for piece in pieces {
        if is_end(piece) {
            return true;
        }
    }
    false
}

/// How many octets of a body a piece has.
fn octets_in(piece: &Piece) -> usize
    ensures { result ≡ length (body_of (part_of piece.now ∷ [])) }
{
    match piece {
        Piece::Body(octets) => octets.len(),
        _ => 0,
    }
}

/// Whether pieces have more octets of a body than so many.
fn are_past(pieces: &[Piece], most: u64) -> bool
    ensures past { result ≡ true → most < length (body_of (parts_of pieces.now)) }
    ensures within { result ≡ false → length (body_of (parts_of pieces.now)) ≤ most }
{
    let mut left = most;
    for piece in pieces {
        let count = octets_in(piece) as u64;
        if count > left {
            return true;
        }
        left -= count;
    }
    false
}

impl Answer {
    /// Nothing has come of the response to a request, whose method is HEAD or isn't.
    pub fn new(alloc: Global, to_head: bool, passing: ResponsePassing) -> Answer
        ensures is { result ≡ record {
          reader = record {
            to_head = to_head;
            place = place.Head 0;
            held = record { octets = []; connections = []; keeps = false };
          };
          way = passing;
          head = None;
          body = [];
          trailers = None;
        } }
        ensures stands { Stands [] [] result.reader }
        ensures knows { Knows [] result.reader }
    {
        Answer {
            alloc,
            reader: Reader::new(alloc, to_head),
            passing,
            head: None,
            body: Vec::new(alloc),
            trailers: None,
        }
    }

    /// How the response is passed on.
    pub fn passing(&self) -> ResponsePassing
        ensures { result ≡ self.now.way }
    {
        let Answer { passing, .. } = self;
        *passing
    }

    /// Takes octets of the upstream. Heads that are interim are on offer at once; the rest too
    /// where the response is passed on as it comes, and else once it is whole. Where the answer
    /// fails nothing of these octets is on offer. An `Err` says that memory was refused, and then
    /// neither the answer nor the outbox is of use any more.
    pub fn hear(&mut self, octets: &[u8], outbox: &mut Outbox) -> Result<Heard, AllocError>
        ensures { IfOk result (λ heard. IsHeard self.old octets.now outbox.old heard self.new outbox.new) }
    {
        let mut pieces = Vec::new(self.alloc);
        let used = match self.reader.feed(octets, &mut pieces) {
            Ok(used) => used,
            Err(fault) => {
                if fault == ResponseFault::Memory {
                    return Err(AllocError);
                }
                return Ok(Heard::Failed);
            }
        };
        if self.is_too_long(&pieces) {
            return Ok(Heard::Failed);
        }
        let kept = self.is_kept(used, octets);
        let whole = is_whole(&pieces);
        self.take_all(pieces, outbox)?;
        if !whole {
            return Ok(Heard::GoesOn);
        }
        self.release(outbox)?;
        if kept {
            return Ok(Heard::Keepable);
        }
        Ok(Heard::Finished)
    }

    /// What the end of the connection comes to (RFC 9112, sections 6.3 and 8). Where the response
    /// is whole with it, the rest of it is on offer. An `Err` says that memory was refused, and
    /// then neither the answer nor the outbox is of use any more.
    pub fn end(&mut self, outbox: &mut Outbox) -> Result<AnswerEnd, AllocError>
        ensures { IfOk result (λ ended. IsEnded self.old outbox.old ended outbox.new) }
    {
        match self.reader.end() {
            h1_reader::Ended::Complete => {
                self.release(outbox)?;
                Ok(AnswerEnd::Complete)
            }
            h1_reader::Ended::Short => Ok(AnswerEnd::Short),
        }
    }

    /// Whether all octets were used, so that none stands behind a response that is whole with them,
    /// and its head lets the connection stay open.
    fn is_kept(&self, used: usize, octets: &[u8]) -> bool
        ensures { result ≡ (used == length octets.now && self.now.reader.held.keeps) }
    {
        used == octets.len() && self.reader.keeps()
    }

    /// Whether the body has more octets with these pieces than a response that is passed on whole may have.
    fn is_too_long(&self, pieces: &[Piece]) -> bool
        ensures long { result ≡ true → IsPast self.now.way (self.now.body ++ body_of (parts_of pieces.now)) }
        ensures fits { result ≡ false → IsWithin self.now.way (self.now.body ++ body_of (parts_of pieces.now)) }
    {
        match self.passing {
            ResponsePassing::Whole(most) => {
                let held = self.body.len() as u64;
                held > most || are_past(pieces, most - held)
            }
            ResponsePassing::Streaming => false,
        }
    }

    /// Takes a piece: what waits of it, and what goes on offer at once.
    fn take(&mut self, piece: Piece, outbox: &mut Outbox) -> Result<(), AllocError>
        ensures waits { OnOk result (self.new ≡ waiting (passing_in self.old.way) self.old (head_of (part_of piece ∷ [])) (body_of (part_of piece ∷ []))
            (trailers_of (part_of piece ∷ []))) }
        ensures offers { OnOk result (outbox.new ≡ grown outbox.old (news_at_once (passing_in self.old.way) (part_of piece ∷ []))) }
    {
        match piece {
            Piece::Interim(head) => outbox.add_interim(head)?,
            Piece::Head(head) => self.take_head(head, outbox)?,
            Piece::Body(octets) => self.take_body(octets, outbox)?,
            Piece::Trailers(trailers) => self.take_trailers(trailers),
            Piece::Done => {}
        }
        Ok(())
    }

    /// Takes the final head.
    fn take_head(&mut self, head: ResponseHead, outbox: &mut Outbox) -> Result<(), AllocError>
        ensures waits { OnOk result (self.new ≡ waiting (passing_in self.old.way) self.old (Some head) [] None) }
        ensures offers { OnOk result (outbox.new ≡ grown outbox.old (news_at_once (passing_in self.old.way) (Final head ∷ []))) }
    {
        match self.passing {
            ResponsePassing::Whole(_) => {
                if self.head.is_none() {
                    self.head = Some(head);
                }
                Ok(())
            }
            ResponsePassing::Streaming => outbox.add(Some(head), Vec::new(self.alloc), None),
        }
    }

    /// Takes octets of the body.
    fn take_body(&mut self, octets: Vec<u8>, outbox: &mut Outbox) -> Result<(), AllocError>
        ensures waits { OnOk result (self.new ≡ waiting (passing_in self.old.way) self.old None octets.items None) }
        ensures offers { OnOk result (outbox.new ≡ grown outbox.old (news_at_once (passing_in self.old.way) (Body octets.items ∷ []))) }
    {
        match self.passing {
            ResponsePassing::Whole(_) => {
                if self.body.is_empty() {
                    self.body = octets;
                    return Ok(());
                }
                self.body.extend_from_slice(&octets)
            }
            ResponsePassing::Streaming => outbox.add(None, octets, None),
        }
    }

    /// Takes trailers, which wait for the end.
    fn take_trailers(&mut self, trailers: Trailers)
        ensures { self.new ≡ waiting (passing_in self.old.way) self.old None [] (Some trailers) }
    {
        if self.trailers.is_none() {
            self.trailers = Some(trailers);
        }
    }

    /// Takes pieces in their order.
    fn take_all(&mut self, pieces: Vec<Piece>, outbox: &mut Outbox) -> Result<(), AllocError>
        ensures waits { OnOk result (self.new ≡ waiting (passing_in self.old.way) self.old (head_of (parts_of pieces.items))
            (body_of (parts_of pieces.items)) (trailers_of (parts_of pieces.items))) }
        ensures offers { OnOk result (outbox.new ≡ grown outbox.old (news_at_once (passing_in self.old.way) (parts_of pieces.items))) }
    {
        for piece in pieces {
            self.take(piece, outbox)?;
        }
        Ok(())
    }

    /// What waited goes on offer, with the end and the trailers that were told.
    fn release(&mut self, outbox: &mut Outbox) -> Result<(), AllocError>
        ensures offers { OnOk result (outbox.new ≡ grown outbox.old (record {
          interims = [];
          head = self.old.head;
          body = self.old.body;
          ends = Some (trailers_at self.old.trailers);
        })) }
        ensures same { (self.new.reader ≡ self.old.reader) × (self.new.way ≡ self.old.way) }
    {
        let body = mem::replace(&mut self.body, Vec::new(self.alloc));
        outbox.add(self.head.take(), body, Some(self.trailers.take()))
    }
}
