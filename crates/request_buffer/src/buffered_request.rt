//! A request that waits.

ghost use Rattle.std.specs.Prelude.{◌≡◌, [], ◌++◌, true, length, OnOk, OnErr, IfOk};
ghost use Rattle.model.specs.Http2.{HasLength};
ghost use Rattle.request_buffer.specs.Waits.{Ends, MayEnd, IsEnded, IsEndedText};
ghost use Rattle.request_buffer.specs.Beginning.{IsBegun};

use crate::going::Going;
use h1_writer::{LINE_ROOM, Sender, Text};
use hpack_table::Field;
use request_rules::RequestHead;
use std::alloc::{AllocError, Global};
use std::marker::Model;

/// A request of which more is to come, and which is passed on whole. A clause sees the place of its
/// route, its head's text, what that waits for, and the octets of its body so far. Both texts lie
/// in one piece of memory, where they go out as they lie: a body of a declared length right behind
/// its head, any other behind room for the line of its chunk, which is written once its size is
/// known.
#[derive(Drop)]
pub struct BufferedRequest {
    route: u32,
    sender: Sender,
    /// The head's text, and behind it the body.
    octets: Vec<u8>,
    /// Where the head ends.
    head: usize,
    /// Where the body begins.
    body: usize,
}

impl Model for BufferedRequest {
    ghost use Rattle.std.specs.Prelude.{take, drop, vec_len};
    ghost use Rattle.request_buffer.specs.Waits.{Request, IsLaid};

    ghost Value = { Request };

    ghost view = { λ w. record { route = w.route; text = take w.head w.octets.items; stage = w.sender; body = drop w.body w.octets.items } };

    ghost invariant = { λ w. IsLaid w.sender w.head w.body (vec_len w.octets) };
}

/// A request whose head came.
#[derive(Drop)]
pub enum Begun {
    /// It is whole with its head: its text.
    Whole(Vec<u8>),
    /// Its body is to come.
    Waits(BufferedRequest),
}

/// Room for so many octets of a body at most is made before they come, and for most heads before it.
const MOST_ROOM: u64 = 65_536;

const HEAD_ROOM: usize = 1024;

/// Room for a chunk's line and for the last chunk (RFC 9112, section 7.1).
pub(crate) const CHUNK_ROOM: usize = 32;

/// Room for a head and for the length that it declares of a body, if that isn't 0.
fn room_for(alloc: Global, length: Option<u64>) -> Result<Vec<u8>, AllocError>
    ensures { IfOk result (λ octets. octets.items ≡ []) }
{
    match length.unwrap_or(0).min(MOST_ROOM) as usize {
        0 => Ok(Vec::new(alloc)),
        count => Vec::with_capacity(alloc, HEAD_ROOM + count),
    }
}

/// Writes a request's head (RFC 9112, sections 2 to 3 and 6), which ends its stream or doesn't, for
/// a connection that is kept for another request or is closed behind this one (RFC 9112, section
/// 9.6); the place of its route is kept. An `Err` says that memory was refused.
pub fn begin(
    alloc: Global,
    head: &RequestHead,
    ended: bool,
    keep: bool,
    route: u32,
) -> Result<Begun, AllocError>
    requires { ended ≡ true → HasLength head.now.length [] }
    ensures { IfOk result (IsBegun keep head.now ended route) }
{
    let mut octets = room_for(alloc, head.length())?;
    let sender = Sender::start(head, ended, keep, &mut octets)?;
    if ended {
        return Ok(Begun::Whole(octets));
    }
    let head = octets.len();
    Ok(Begun::Waits(BufferedRequest {
        route,
        sender,
        octets,
        head,
        body: head,
    }))
}

/// The whole text of a request whose head is this text, and which may be ended, where nothing of
/// the body was sent: its head, the body in one piece, and these trailers.
fn end_text(
    mut sender: Sender,
    head: Vec<u8>,
    body: &[u8],
    trailers: &[Field],
) -> Result<Vec<u8>, AllocError>
    requires { Ends sender head.items body.now }
    ensures { IfOk result (λ text. IsEndedText head.items sender body.now trailers.now text.items) }
{
    let mut text = head;
    text.reserve(body.len().saturating_add(CHUNK_ROOM))?;
    sender.push(body, &mut text)?;
    sender.finish(trailers, &mut text)?;
    Ok(text)
}

impl BufferedRequest {
    /// The place of its route.
    pub fn route(&self) -> u32
        ensures { result ≡ self.now.route }
    {
        self.route
    }

    /// How many octets of its body have come.
    pub fn len(&self) -> usize
        ensures { result ≡ length self.now.body }
    {
        self.octets.len() - self.body
    }

    /// More octets of its body have come. An `Err` says that memory was refused; it changes nothing.
    pub fn gather(&mut self, octets: &[u8]) -> Result<(), AllocError>
        ensures added { OnOk result (self.new ≡ record self.old { body = self.old.body ++ octets.now }) }
        ensures unchanged { OnErr result (self.new ≡ self.old) }
    {
        if self.octets.len() == self.head && self.sender.may_finish() {
            self.octets.extend_from_slice(&[0; LINE_ROOM])?;
            self.body = self.octets.len();
        }
        self.octets.extend_from_slice(octets)
    }

    /// The text of its head, which goes out now, and the request whose body goes out as it comes;
    /// none of that has come.
    pub fn go(self) -> (Vec<u8>, Going)
        requires { self.body ≡ [] }
        ensures head { result.0.items ≡ self.text }
        ensures rest { result.1 ≡ self.stage }
    {
        let BufferedRequest {
            sender,
            mut octets,
            head,
            ..
        } = self;
        octets.truncate(head);
        (octets, Going::by(sender))
    }

    /// The whole text, where these octets end the body: that of the head, the body in one piece,
    /// and behind chunks these trailers (RFC 9112, sections 6 and 7.1). An `Err` says that memory
    /// was refused.
    pub fn finish(self, octets: &[u8], trailers: &[Field]) -> Result<Text, AllocError>
        requires { MayEnd self octets.now }
        ensures { IfOk result (IsEnded self octets.now trailers.now) }
    {
        let BufferedRequest {
            sender,
            octets: mut text,
            head,
            body,
            ..
        } = self;
        if !sender.may_finish() {
            // Its length was declared.
            text.extend_from_slice(octets)?;
            return Ok(Text::from_octets(text));
        }
        if text.len() == body {
            // The body came in one frame.
            text.truncate(head);
            let whole = end_text(sender, text, octets, trailers)?;
            return Ok(Text::from_octets(whole));
        }
        text.extend_from_slice(octets)?;
        sender.close(text, head, body, trailers)
    }
}
