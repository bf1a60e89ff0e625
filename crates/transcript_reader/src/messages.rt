//! Texts of requests and of responses, as far as rows have them.

use crate::texts::{body_of, place_of};
use std::str;

/// What stands before the length that a head declares, in small letters.
const LENGTH: &[u8] = b"\r\ncontent-length: ";

/// What stands before the length that the head of a response declares in rows.
const LENGTH_OF_RESPONSE: &[u8] = b"\r\nContent-Length: ";

/// The line of a head behind which the body comes in chunks, in small letters, and as the head of a
/// response has it in rows.
const CHUNKED: &[u8] = b"\r\ntransfer-encoding: chunked\r\n";

const CHUNKED_RESPONSE: &[u8] = b"\r\nTransfer-Encoding: chunked\r\n";

/// What stands behind the first line's end.
fn behind_line(text: &[u8]) -> Option<&[u8]> {
    let end = place_of(text, b"\r\n")?;
    text.get(end.saturating_add(2)..)
}

/// The value of a digit in hex.
fn digit_of(octet: u8) -> Option<usize> {
    match octet {
        b'0'..=b'9' => Some(usize::from(octet).saturating_sub(48)),
        b'a'..=b'f' => Some(usize::from(octet).saturating_sub(87)),
        _ => None,
    }
}

/// The size that begins a chunk.
fn size_of_chunk(text: &[u8]) -> Option<usize> {
    let end = place_of(text, b"\r\n")?;
    let mut size = 0usize;
    for octet in text.get(..end)? {
        size = size.saturating_mul(16).saturating_add(digit_of(*octet)?);
    }
    Some(size)
}

/// What stands behind trailers and the empty line that ends them.
fn behind_trailers(text: &[u8]) -> Option<&[u8]> {
    if let Some(rest) = text.strip_prefix(b"\r\n") {
        return Some(rest);
    }
    body_of(text)
}

/// What stands behind a body in chunks, if all of it stands there.
fn behind_chunks(body: &[u8]) -> Option<&[u8]> {
    let mut rest = body;
    for _ in 0..body.len() {
        let size = size_of_chunk(rest)?;
        rest = behind_line(rest)?;
        if size == 0 {
            return behind_trailers(rest);
        }
        rest = rest.get(size.saturating_add(2)..)?;
    }
    None
}

/// The length that stands behind a name in a head.
fn length_in(head: &[u8], name: &[u8]) -> Option<usize> {
    let place = place_of(head, name)?;
    let value = head.get(place.saturating_add(name.len())..)?;
    let end = place_of(value, b"\r\n")?;
    str::from_utf8(value.get(..end)?).ok()?.parse().ok()
}

/// What stands behind the first whole request of a text, if one begins it: its head with chunks up
/// to the last and the end of the trailers, or with as many octets as it declares, or with none.
fn behind_request(text: &[u8]) -> Option<&[u8]> {
    let body = body_of(text)?;
    let head = text.get(..text.len().saturating_sub(body.len()))?;
    if place_of(head, CHUNKED).is_some() {
        return behind_chunks(body);
    }
    body.get(length_in(head, LENGTH).unwrap_or(0)..)
}

/// Whole requests of a text, one behind another, and what is left behind them.
#[derive(Clone, Copy)]
pub(crate) struct Requests<'a> {
    /// How many they are.
    pub count: usize,
    /// What is left.
    pub rest: &'a [u8],
}

/// The whole requests with which a text begins.
pub(crate) fn requests_in(text: &[u8]) -> Requests<'_> {
    let mut found = Requests {
        count: 0,
        rest: text,
    };
    for _ in 0..text.len() {
        match behind_request(found.rest) {
            Some(rest) => {
                found.count = found.count.saturating_add(1);
                found.rest = rest;
            }
            None => return found,
        }
    }
    found
}

/// How the body of a response ends.
#[derive(Clone, Copy, PartialEq, Eq)]
enum Framing {
    /// There is none.
    Nothing,
    /// With the last chunk.
    Chunks,
    /// Behind so many octets.
    Length(usize),
    /// With the connection.
    Connection,
}

/// How the body behind a response's final head ends, where the request's method is HEAD or isn't.
fn framing_of(head: &[u8], to_head: bool) -> Framing {
    let status = head.get(9..12).unwrap_or(&[]);
    if to_head || status == b"204".as_slice() || status == b"304".as_slice() {
        return Framing::Nothing;
    }
    if place_of(head, CHUNKED_RESPONSE).is_some() {
        return Framing::Chunks;
    }
    match length_in(head, LENGTH_OF_RESPONSE) {
        Some(length) => Framing::Length(length),
        None => Framing::Connection,
    }
}

/// A text without the interim heads with which it begins.
fn behind_hints(text: &[u8]) -> &[u8] {
    let mut rest = text;
    for _ in 0..text.len() {
        if !rest.starts_with(b"HTTP/1.1 1") {
            return rest;
        }
        match body_of(rest) {
            Some(behind) => rest = behind,
            None => return rest,
        }
    }
    rest
}

/// A response as far as it was heard, whose final head is whole.
#[derive(Clone, Copy)]
pub(crate) struct Heard<'a> {
    /// What came behind the head.
    pub body: &'a [u8],
    framing: Framing,
}

impl<'a> Heard<'a> {
    /// The response that was heard, if its final head was; its request's method is HEAD or isn't.
    pub(crate) fn read(text: &'a [u8], to_head: bool) -> Option<Heard<'a>> {
        let text = behind_hints(text);
        let body = body_of(text)?;
        let head = text.get(..text.len().saturating_sub(body.len()))?;
        Some(Heard {
            body,
            framing: framing_of(head, to_head),
        })
    }

    /// Whether it is whole, and no octet stands behind it.
    pub(crate) fn is_whole(self) -> bool {
        match self.framing {
            Framing::Nothing => self.body.is_empty(),
            Framing::Length(length) => self.body.len() == length,
            Framing::Chunks => match behind_chunks(self.body) {
                Some(rest) => rest.is_empty(),
                None => false,
            },
            Framing::Connection => false,
        }
    }

    /// Whether the connection's end ends it.
    pub(crate) fn ends_with_connection(self) -> bool {
        self.framing == Framing::Connection
    }
}
