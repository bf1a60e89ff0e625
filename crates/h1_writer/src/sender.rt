//! A request as it is sent.

ghost use Rattle.std.specs.Prelude.{◌≡◌, ◌<◌, ◌++◌, [], ◌∷◌, ℕ, List, true, false, OnOk, OnErr, IfOk, MatchBool, length, take, drop, ◌+◌, ◌≤◌, vec_len, vec_capacity};
ghost use Rattle.model.specs.Http2.{HasLength};
ghost use Rattle.h1_writer.specs.Sending.{Sending, Continues, MayPush, MayFinish, head_of, Begins, most_pushed};
ghost use Rattle.model.specs.Http1Text.{chunk_text, last_chunk};
ghost use Rattle.h1_writer.specs.Views.{stage_of};
ghost use Rattle.h1_writer.specs.Sending.Stage.{Whole, Chunking};

use crate::text::{Text, close_chunk};
use crate::{lines, numbers, text};
use hpack_table::Field;
use request_rules::RequestHead;
use std::alloc::AllocError;
use std::marker::Model;

/// What a request's text still waits for.
#[derive(Drop)]
enum Waiting {
    /// Nothing: it is whole.
    Nothing,
    /// So many octets of the declared body, one or more.
    Octets(u64),
    /// The end; this octet, its last, is held back.
    End(u8),
    /// Chunks and the end.
    Chunks,
}

/// A request on its way to a server: the text goes out as the body comes (RFC 9112). The last octet
/// of a declared length is held back until [`Sender::finish`], so that no server takes a request
/// for whole before it is.
#[derive(Drop)]
pub struct Sender {
    waiting: Waiting,
}

impl Model for Sender {
    ghost use Rattle.h1_writer.specs.Sending.{Stage};

    ghost Value = { Stage };

    ghost use Rattle.h1_writer.specs.Views.{stage_of};

    ghost view = { λ sender. stage_of sender.waiting };
}

/// Room for most heads, in octets.
const ROOM: usize = 1024;

/// Adds the head (RFC 9112, section 2.1).
fn push_head(
    head: &RequestHead,
    ended: bool,
    keep: bool,
    out: &mut Vec<u8>,
) -> Result<(), AllocError>
    ensures { OnOk result (out.new.items ≡ out.old.items ++ head_of keep head.now ended) }
{
    out.extend_from_slice(head.method())?;
    out.extend_from_slice(b" ")?;
    out.extend_from_slice(head.path())?;
    out.extend_from_slice(b" HTTP/1.1\r\n")?;
    lines::push_line(b"host", head.authority(), out)?;
    lines::push_lines(head.fields(), out)?;
    lines::push_line(b"via", b"2.0 h2gw", out)?;
    lines::push_framing(head.length(), ended, out)?;
    lines::push_closing(keep, out)?;
    out.extend_from_slice(b"\r\n")?;
    Ok(())
}

/// Takes the last octet off.
fn hold_back(text: &mut Vec<u8>) -> u8
    requires { 0 < length text.old.items }
    ensures { text.old.items ≡ text.new.items ++ result ∷ [] }
{
    let Some(octet) = text.pop() else {
        unreachable!();
    };
    octet
}

/// What the text still waits for behind its head, whose last octet is held back where an empty body is declared.
fn begin(declared: Option<u64>, ended: bool, text: &mut Vec<u8>) -> Waiting
    requires { 0 < length text.old.items }
    ensures { Begins declared ended text.old.items text.new.items (stage_of result) }
{
    if ended {
        return Waiting::Nothing;
    }
    match declared {
        None => Waiting::Chunks,
        Some(0) => Waiting::End(hold_back(text)),
        Some(left) => Waiting::Octets(left),
    }
}

/// Adds a chunk, and of a refused one perhaps a part.
fn push_chunk_parts(octets: &[u8], out: &mut Vec<u8>) -> Result<(), AllocError>
    ensures ok { OnOk result (out.new.items ≡ out.old.items ++ chunk_text octets.now) }
    ensures kept { take (length out.old.items) out.new.items ≡ out.old.items }
    ensures full { OnErr result (vec_capacity out.old < vec_len out.old + length (chunk_text octets.now)) }
{
    numbers::push_hex(octets.len(), out)?;
    out.extend_from_slice(b"\r\n")?;
    out.extend_from_slice(octets)?;
    out.extend_from_slice(b"\r\n")?;
    Ok(())
}

/// Adds a chunk (RFC 9112, section 7.1), and nothing of a refused one.
fn push_chunk(octets: &[u8], out: &mut Vec<u8>) -> Result<(), AllocError>
    ensures ok { OnOk result (out.new.items ≡ out.old.items ++ chunk_text octets.now) }
    ensures refused { OnErr result (out.new.items ≡ out.old.items) }
    ensures full { OnErr result (vec_capacity out.old < vec_len out.old + length (chunk_text octets.now)) }
{
    let start = out.len();
    let result = push_chunk_parts(octets, out);
    if result.is_err() {
        out.truncate(start);
    }
    result
}

/// Adds the last chunk with trailers (RFC 9112, section 7.1.2), and nothing of a refused one.
fn push_last(trailers: &[Field], out: &mut Vec<u8>) -> Result<(), AllocError>
    ensures ok { OnOk result (out.new.items ≡ out.old.items ++ last_chunk trailers.now) }
    ensures refused { OnErr result (out.new.items ≡ out.old.items) }
{
    let mut text = Vec::new(*out.allocator());
    text::push_last(trailers, &mut text)?;
    out.extend_from_slice(&text)
}

impl Sender {
    /// Adds the head of a request, and answers what sends the rest; `ended` where the head ended
    /// its stream, so that there is no body: then, and only then, the text is whole. Of a head that
    /// declares an empty body whose stream goes on, the last octet is held back. Where the
    /// connection is to be kept, the head doesn't ask the server to close it. An error is refused
    /// memory; nothing is added then.
    pub fn start(
        head: &RequestHead,
        ended: bool,
        keep: bool,
        out: &mut Vec<u8>,
    ) -> Result<Self, AllocError>
        requires { ended ≡ true → HasLength head.now.length [] }
        ensures ok { IfOk result (λ sender. (written : List ℕ) × (out.new.items ≡ out.old.items ++ written)
            × Sending keep head.now ended written [] [] sender) }
        ensures whole { IfOk result (λ sender. ended ≡ true → sender ≡ Whole) }
        ensures goes_on { IfOk result (λ sender. ended ≡ false → sender ≡ Whole → ⊥) }
        ensures refused { OnErr result (out.new.items ≡ out.old.items) }
    {
        let mut text = Vec::with_capacity(*out.allocator(), ROOM)?;
        push_head(head, ended, keep, &mut text)?;
        let waiting = begin(head.length(), ended, &mut text);
        out.extend_from_slice(&text)?;
        Ok(Sender { waiting })
    }

    /// Adds octets of the body: as a chunk, or as they are where the length was declared, of which
    /// the last octet is held back, so that the text isn't whole behind them. An error is refused
    /// memory; nothing is added then, and the sender stays as it was.
    pub fn push(&mut self, octets: &[u8], out: &mut Vec<u8>) -> Result<(), AllocError>
        requires { MayPush self.old (length octets.now) }
        ensures ok { OnOk result ((written : List ℕ) × (out.new.items ≡ out.old.items ++ written) × Continues self.old written octets.now [] self.new) }
        ensures goes_on { self.new ≡ Whole → ⊥ }
        ensures refused { OnErr result ((out.new.items ≡ out.old.items) × (self.new ≡ self.old)) }

        // It fails only where the vector had to grow.
        ensures full { OnErr result (vec_capacity out.old < vec_len out.old + most_pushed self.old octets.now) }
    {
        let [front @ .., last] = octets else {
            return Ok(());
        };
        match self.waiting {
            Waiting::Octets(left) => {
                let count = octets.len() as u64;
                if count < left {
                    out.extend_from_slice(octets)?;
                    self.waiting = Waiting::Octets(left - count);
                } else {
                    out.extend_from_slice(front)?;
                    self.waiting = Waiting::End(*last);
                }
                Ok(())
            }
            Waiting::Chunks => push_chunk(octets, out),
            Waiting::Nothing | Waiting::End(_) => unreachable!(),
        }
    }

    /// Ends the text: with the octet that was held back, or the last chunk and these trailers,
    /// which are written behind chunks alone. An error is refused memory; nothing is added then,
    /// and the sender stays as it was.
    pub fn finish(&mut self, trailers: &[Field], out: &mut Vec<u8>) -> Result<(), AllocError>
        requires { MayFinish self.old }
        ensures ok { OnOk result ((written : List ℕ) × (out.new.items ≡ out.old.items ++ written) × Continues self.old written [] trailers.now self.new) }
        ensures whole { OnOk result (self.new ≡ Whole) }
        ensures refused { OnErr result ((out.new.items ≡ out.old.items) × (self.new ≡ self.old)) }
    {
        match self.waiting {
            Waiting::End(octet) => out.push(octet)?,
            Waiting::Chunks => push_last(trailers, out)?,
            Waiting::Nothing | Waiting::Octets(_) => unreachable!(),
        }
        self.waiting = Waiting::Nothing;
        Ok(())
    }

    /// The whole text, where octets of no declared length wait for their end: that of the head,
    /// which has so many octets, and behind it what is written for the body at once. The body stays
    /// where it stands, from the place `body` on, with room for its chunk's line between it and the
    /// head. These trailers stand behind it. An `Err` says that memory was refused.
    pub fn close(
        self,
        octets: Vec<u8>,
        head: usize,
        body: usize,
        trailers: &[Field],
    ) -> Result<Text, AllocError>
        requires chunked { self ≡ Chunking }
        requires room { head + 18 ≤ body }
        requires some { body < length octets.items }
        ensures { IfOk result (λ text. (written : List ℕ) × (text ≡ take head octets.items ++ written)
            × Continues self written (drop body octets.items) trailers.now Whole) }
    {
        close_chunk(octets, head, body, trailers)
    }

    /// Whether so many octets may be pushed.
    pub fn may_push(&self, count: usize) -> bool
        ensures { MatchBool result (MayPush self.now count) (MayPush self.now count → ⊥) }
    {
        match self.waiting {
            Waiting::Octets(left) => count as u64 <= left,
            Waiting::End(_) => count == 0,
            Waiting::Chunks => true,
            Waiting::Nothing => false,
        }
    }

    /// Whether the text may be ended.
    pub fn may_finish(&self) -> bool
        ensures { MatchBool result (MayFinish self.now) (MayFinish self.now → ⊥) }
    {
        matches!(self.waiting, Waiting::End(_) | Waiting::Chunks)
    }
}
