//! What is on offer for a stream, with ample memory: calls of an outbox, one after another, and what they answer.

use h1_reader::{Piece, Reader};
use send_buffer::{Outbox, Part};
use std::alloc::{AllocError, Global};
use std::test::*;

/// A response with an interim head and a body of five octets.
const RESPONSE: &[u8] =
    b"HTTP/1.1 103 Early Hints\r\n\r\nHTTP/1.1 200 OK\r\ncontent-length: 5\r\n\r\nhello";

/// A response whose body goes on until the connection ends, with five octets of it.
const OPEN: &[u8] = b"HTTP/1.1 200 OK\r\n\r\nhello";

/// A response whose body goes on until the connection ends.
const HEAD: &[u8] = b"HTTP/1.1 200 OK\r\n\r\n";

/// The reply that the gateway gives.
const REPLY: &[u8] = b"HTTP/1.1 502 Bad Gateway\r\ncontent-length: 0\r\n\r\n";

/// A response in chunks with two octets of a body and with two trailers.
const TRAILING: &[u8] =
    b"HTTP/1.1 200 OK\r\nTransfer-Encoding: chunked\r\n\r\n2\r\nhi\r\n0\r\nX-A: 1\r\nX-B: 2\r\n\r\n";

/// More octets than a ring holds half of.
const LONG: [u8; 40000] = [7; 40000];

/// A call, and what it answers.
#[derive(Clone, Copy)]
enum Call<'a> {
    /// More of a response comes, of which nothing came yet.
    Come(&'a [u8]),
    /// Octets of a body come, and its end or not.
    Add(&'a [u8], bool),
    /// The gateway replies.
    Reply(&'a [u8]),
    /// Nothing is next, where so many octets may go.
    Nothing(usize),
    /// A head is next, with this status, and ends the response or doesn't.
    Head(u16, bool),
    /// Octets are next where so many may go: these, as they lie, and they end the response or don't.
    Octets(usize, &'a [u8], &'a [u8], bool),
    /// Trailers are next, so many, which end the response.
    Trailers(usize),
    /// The head that is next is taken, if one is.
    TakeHead(bool),
    /// The trailers that are next are taken, if some are.
    TakeTrailers(bool),
    /// So many octets were sent.
    Drop(usize),
    /// So many octets wait.
    Held(usize),
    /// Something can go, or can't, where the windows are open or aren't.
    CanGo(bool, bool),
    /// The final head was sent, or wasn't.
    Begun(bool),
}

/// All that stands in octets of a response.
fn pieces_of(alloc: Global, octets: &[u8]) -> Result<Vec<Piece>, Fail> {
    let mut reader = Reader::new(alloc, false);
    let mut pieces = Vec::new(alloc);
    reader.feed(octets, &mut pieces)?;
    Ok(pieces)
}

/// Puts a piece of a response on offer.
fn add(alloc: Global, outbox: &mut Outbox, piece: Piece) -> Result<(), AllocError> {
    match piece {
        Piece::Interim(head) => outbox.add_interim(head),
        Piece::Head(head) => outbox.add(Some(head), Vec::new(alloc), None),
        Piece::Body(body) => outbox.add(None, body, None),
        Piece::Trailers(trailers) => outbox.add(None, Vec::new(alloc), Some(Some(trailers))),
        Piece::Done => outbox.add(None, Vec::new(alloc), Some(None)),
    }
}

/// Puts all that stands in octets of a response on offer.
fn come(alloc: Global, outbox: &mut Outbox, octets: &[u8]) -> Result<(), Fail> {
    for piece in pieces_of(alloc, octets)? {
        add(alloc, outbox, piece)?;
    }
    Ok(())
}

/// Replies with the head of a response.
fn reply(alloc: Global, outbox: &mut Outbox, response: &[u8]) -> Result<bool, Fail> {
    let mut other = Outbox::new(alloc);
    come(alloc, &mut other, response)?;
    let Some(head) = other.take_head() else {
        return Ok(false);
    };
    outbox.reply(alloc, head);
    Ok(true)
}

/// Whether a head is next, with this status and this end.
fn is_head(part: Option<Part<'_>>, status: u16, ends: bool) -> bool {
    match part {
        Some(Part::Early(head)) => head.status() == status && !ends,
        Some(Part::Final(head, last)) => head.status() == status && last == ends,
        _ => false,
    }
}

/// Whether these octets are next, as they lie, with this end.
fn are_octets(part: Option<Part<'_>>, front: &[u8], back: &[u8], ends: bool) -> bool {
    match part {
        Some(Part::Octets(first, second, last)) => {
            first == front && second == back && last == ends
        }
        _ => false,
    }
}

/// Whether so many trailers are next.
fn are_trailers(part: Option<Part<'_>>, count: usize) -> bool {
    match part {
        Some(Part::Trailing(fields)) => fields.len() == count,
        _ => false,
    }
}

/// Makes a call, and says whether it answers so.
fn answers(alloc: Global, outbox: &mut Outbox, call: Call<'_>) -> Result<bool, Fail> {
    match call {
        Call::Come(octets) => come(alloc, outbox, octets)?,
        Call::Add(octets, ends) => outbox.add(
            None,
            Vec::from_slice(alloc, octets)?,
            if ends { Some(None) } else { None },
        )?,
        Call::Reply(response) => return reply(alloc, outbox, response),
        Call::Nothing(most) => return Ok(outbox.next(most).is_none()),
        Call::Head(status, ends) => return Ok(is_head(outbox.next(1), status, ends)),
        Call::Octets(most, front, back, ends) => {
            return Ok(are_octets(outbox.next(most), front, back, ends));
        }
        Call::Trailers(count) => return Ok(are_trailers(outbox.next(1), count)),
        Call::TakeHead(is) => return Ok(outbox.take_head().is_some() == is),
        Call::TakeTrailers(is) => return Ok(outbox.take_trailers().is_some() == is),
        Call::Drop(count) => outbox.drop_octets(count),
        Call::Held(count) => return Ok(outbox.held() == count),
        Call::CanGo(windows_open, can) => return Ok(outbox.can_go(windows_open) == can),
        Call::Begun(is) => return Ok(outbox.is_begun() == is),
    }
    Ok(true)
}

/// The first of some calls of a new outbox that answers otherwise.
fn first_that_differs(alloc: Global, calls: &[Call<'_>]) -> Result<Option<usize>, Fail> {
    let mut outbox = Outbox::new(alloc);
    for (place, call) in calls.iter().enumerate() {
        if !answers(alloc, &mut outbox, *call)? {
            return Ok(Some(place));
        }
    }
    Ok(None)
}

/// Rows: what each shows, and calls of a new outbox.
static ROWS: [(&str, &[Call]); 11] = [
    (
        "nothing goes of a new outbox",
        &[
            Call::CanGo(true, false),
            Call::Begun(false),
            Call::Nothing(100),
            Call::Held(0),
        ],
    ),
    (
        "parts go in their order",
        &[
            Call::Come(RESPONSE),
            Call::Held(5),
            Call::Head(103, false),
            Call::TakeHead(true),
            Call::Head(200, false),
            Call::TakeHead(true),
            Call::Begun(true),
            Call::TakeHead(false),
            Call::Octets(3, b"hel", b"", false),
            Call::Drop(3),
            Call::Held(2),
            Call::CanGo(true, true),
            Call::CanGo(false, false),
            Call::Octets(3, b"lo", b"", true),
            Call::Drop(3),
            Call::Nothing(3),
            Call::Held(0),
            Call::CanGo(true, false),
        ],
    ),
    (
        "octets join those that wait",
        &[
            Call::Come(OPEN),
            Call::TakeHead(true),
            Call::Drop(1),
            Call::Add(b" you", false),
            Call::Octets(100, b"ello you", b"", false),
            Call::Drop(6),
            Call::Add(b"rs", true),
            Call::Octets(100, b"ours", b"", true),
            Call::Held(4),
        ],
    ),
    (
        "the end goes alone behind all octets",
        &[
            Call::Come(OPEN),
            Call::TakeHead(true),
            Call::Drop(9),
            Call::CanGo(true, false),
            Call::Add(b"", true),
            Call::CanGo(false, true),
            Call::Octets(9, b"", b"", true),
            Call::Drop(9),
            Call::Nothing(9),
        ],
    ),
    (
        "trailers go behind all octets and need no window",
        &[
            Call::Come(TRAILING),
            Call::TakeTrailers(false),
            Call::Head(200, false),
            Call::TakeHead(true),
            Call::CanGo(false, false),
            Call::Octets(9, b"hi", b"", false),
            Call::TakeTrailers(false),
            Call::Drop(1),
            Call::CanGo(false, false),
            Call::Octets(9, b"i", b"", false),
            Call::Drop(9),
            Call::Held(0),
            Call::CanGo(false, true),
            Call::Trailers(2),
            Call::TakeHead(false),
            Call::TakeTrailers(true),
            Call::TakeTrailers(false),
            Call::CanGo(true, false),
            Call::Nothing(9),
        ],
    ),
    (
        "a reply takes the place of trailers",
        &[
            Call::Come(TRAILING),
            Call::Reply(REPLY),
            Call::Head(502, true),
            Call::TakeHead(true),
            Call::Nothing(9),
        ],
    ),
    (
        "a head alone ends a response without body",
        &[
            Call::Come(b"HTTP/1.1 204 No Content\r\n\r\n"),
            Call::Head(204, true),
            Call::TakeHead(true),
            Call::Begun(true),
            Call::Nothing(1),
        ],
    ),
    (
        "a reply takes the place of what was on offer",
        &[
            Call::Come(RESPONSE),
            Call::Reply(REPLY),
            Call::Head(502, true),
        ],
    ),
    (
        "a ring goes round",
        &[
            Call::Come(HEAD),
            Call::TakeHead(true),
            Call::Add(b"01234", false),
            Call::Add(b"56789", false),
            Call::Drop(8),
            Call::Add(b"abcdefghijklmno", true),
            Call::Held(17),
            Call::Octets(13, b"89abcdefghij", b"k", false),
            Call::Octets(17, b"89abcdefghij", b"klmno", true),
            Call::Drop(13),
            Call::Octets(17, b"lmno", b"", true),
        ],
    ),
    (
        "a ring grows",
        &[
            Call::Come(HEAD),
            Call::TakeHead(true),
            Call::Add(b"01", false),
            Call::Add(b"2", false),
            Call::Drop(2),
            Call::Add(b"34567", false),
            Call::Add(b"89abcdef", false),
            Call::Octets(20, b"23456789abcdef", b"", false),
        ],
    ),
    (
        "what no ring holds stands in one piece",
        &[
            Call::Come(HEAD),
            Call::TakeHead(true),
            Call::Add(&LONG, false),
            Call::Drop(10000),
            Call::Add(&LONG, false),
            Call::Held(70000),
            Call::Drop(69999),
            Call::Octets(20, b"\x07", b"", false),
        ],
    ),
];

#[test]
fn outboxes_answer_as_they_should(rt: HostRuntime) -> Result<(), Fail> {
    for (name, calls) in &ROWS {
        assert_eq!(rt; first_that_differs(rt.alloc(), calls)?, None, "{name}");
    }
    Ok(())
}
