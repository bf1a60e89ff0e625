//! A request's text on its way to a server.

ghost use Rattle.std.specs.Prelude.{◌≡◌, ◌+◌, ◌-◌, ◌≤◌, ◌<◌, ◌++◌, List, ℕ, length, take, drop, OnOk, OnErr, IfOk};
ghost use Rattle.model.specs.Http1Text.{chunk_text, hex_size, last_chunk};
ghost use Rattle.model.specs.Http1.{crlf};

use crate::{lines, numbers};
use hpack_table::Field;
use std::alloc::{AllocError, Global};
use std::marker::Model;

/// Room for the line of a chunk of any size (RFC 9112, section 7.1): sixteen digits, CR and LF.
pub const LINE_ROOM: usize = 18;

/// A request's text, or a part of it. A clause sees its octets. It may lie behind some that mean
/// nothing: a body of one chunk stands where it was gathered, and what stands before it, which ends
/// with the digits of its size, isn't as long as the room that was left for it.
#[derive(Drop)]
pub struct Text {
    octets: Vec<u8>,
    start: usize,
}

impl Model for Text {
    ghost use Rattle.std.specs.Prelude.{◌≤◌, List, ℕ, drop, vec_len};

    ghost Value = { List ℕ };

    ghost view = { λ text. drop text.start text.octets.items };

    ghost invariant = { λ text. text.start ≤ vec_len text.octets };
}

impl Text {
    /// A text of these octets.
    pub fn from_octets(octets: Vec<u8>) -> Text
        ensures { result ≡ octets.items }
    {
        Text { octets, start: 0 }
    }

    /// The octets.
    pub fn as_slice(&self) -> &[u8]
        ensures { result.now ≡ self.now }
    {
        &self.octets[self.start..]
    }

    /// Adds octets at its end. An `Err` says that memory was refused; it changes nothing.
    pub fn append(&mut self, octets: &[u8]) -> Result<(), AllocError>
        ensures ok { OnOk result (self.new ≡ self.old ++ octets.now) }
        ensures refused { OnErr result (self.new ≡ self.old) }
    {
        self.octets.extend_from_slice(octets)
    }
}

/// Writes these octets right before the place `body`.
fn set_before(octets: &mut [u8], front: &[u8], body: usize)
    requires room { length front.now ≤ body }
    requires within { body ≤ length octets.old }
    ensures { octets.new ≡ take (body - length front.now) octets.old ++ (front.now ++ drop body octets.old) }
{
    octets[body - front.len()..body].copy_from_slice(front);
}

/// What stands before a body in one chunk: its head, and the line with its size.
fn front_of(alloc: Global, head: &[u8], size: usize) -> Result<Vec<u8>, AllocError>
    ensures { IfOk result (λ front. front.items ≡ (head.now ++ hex_size size) ++ crlf) }
{
    let mut front = Vec::with_capacity(alloc, head.len().saturating_add(LINE_ROOM))?;
    front.extend_from_slice(head)?;
    numbers::push_hex(size, &mut front)?;
    front.extend_from_slice(b"\r\n")?;
    Ok(front)
}

/// Adds the last chunk with trailers (RFC 9112, section 7.1.2).
pub(crate) fn push_last(trailers: &[Field], out: &mut Vec<u8>) -> Result<(), AllocError>
    ensures { OnOk result (out.new.items ≡ out.old.items ++ last_chunk trailers.now) }
{
    out.extend_from_slice(b"0\r\n")?;
    lines::push_lines(trailers, out)?;
    out.extend_from_slice(b"\r\n")?;
    Ok(())
}

/// The text of a head, of so many octets, and behind it of a body in one chunk, with the last chunk
/// and these trailers (RFC 9112, section 7.1). The body stays where it stands, from the place
/// `body` on; between it and the head lies room for its line. An `Err` says that memory was
/// refused.
pub(crate) fn close_chunk(
    mut octets: Vec<u8>,
    head: usize,
    body: usize,
    trailers: &[Field],
) -> Result<Text, AllocError>
    requires room { head + 18 ≤ body }
    requires some { body < length octets.items }
    ensures { IfOk result (λ text. text ≡ take head octets.items ++ (chunk_text (drop body octets.items) ++ last_chunk trailers.now)) }
{
    let front = front_of(*octets.allocator(), &octets[..head], octets.len() - body)?;
    let start = body - front.len();
    set_before(&mut octets, &front, body);
    octets.extend_from_slice(b"\r\n")?;
    push_last(trailers, &mut octets)?;
    Ok(Text { octets, start })
}
