//! Offers with ample memory.

use local_replies::Cause;
use send_buffer::Part;
use send_queue::Offers;
use std::alloc::{AllocError, Global};
use std::test::*;
use stream_state::{Kind, Verdict};
use streams::{Course, Live, StreamTable};
use upstream_response::{Answer, AnswerEnd, Heard, ResponsePassing};

/// A response with a body of five octets.
const RESPONSE: &[u8] = b"HTTP/1.1 200 OK\r\ncontent-length: 5\r\n\r\nhello";

/// A response with a body of two octets and a trailer.
const TRAILING: &[u8] =
    b"HTTP/1.1 200 OK\r\nTransfer-Encoding: chunked\r\n\r\n2\r\nhi\r\n0\r\nX-A: 1\r\n\r\n";

/// The first size of windows (RFC 9113, section 6.9.2).
const FIRST_SIZE: u32 = 65535;

/// What goes next.
#[derive(PartialEq, Eq, Debug, Clone, Copy)]
enum Next {
    Nothing,
    Early(u16),
    Final(u16, bool),
    Octets(usize, bool),
    Trailers(usize),
}

/// What goes next on a stream, where so many octets may.
fn upcoming(offers: &Offers, id: u32, most: usize) -> Next {
    match offers.part(id, most) {
        None => Next::Nothing,
        Some(Part::Early(head)) => Next::Early(head.status()),
        Some(Part::Final(head, ends)) => Next::Final(head.status(), ends),
        Some(Part::Octets(front, back, ends)) => Next::Octets(front.len() + back.len(), ends),
        Some(Part::Trailing(fields)) => Next::Trailers(fields.len()),
    }
}

/// Sends what goes next on a stream, where so many octets may.
fn send(offers: &mut Offers, id: u32, most: usize) -> Next {
    match offers.part(id, most) {
        None => Next::Nothing,
        Some(Part::Octets(front, back, ends)) => {
            let count = front.len() + back.len();
            offers.take_octets(id, most);
            Next::Octets(count, ends)
        }
        Some(Part::Early(_)) => Next::Early(offers.take_head(id).status()),
        Some(Part::Final(_, ends)) => Next::Final(offers.take_head(id).status(), ends),
        Some(Part::Trailing(_)) => Next::Trailers(offers.take_trailers(id).len()),
    }
}

/// Hears octets for a stream, where it is active.
fn hear(
    offers: &mut Offers,
    id: u32,
    answer: &mut Answer,
    octets: &[u8],
) -> Result<Option<Heard>, Fail> {
    if !offers.is_kept(id) {
        return Ok(None);
    }
    Ok(Some(offers.hear(id, answer, octets)?))
}

/// Hears the end of a connection for a stream, where it is active.
fn end(offers: &mut Offers, id: u32, answer: &mut Answer) -> Result<Option<AnswerEnd>, Fail> {
    if !offers.is_kept(id) {
        return Ok(None);
    }
    Ok(Some(offers.end(id, answer)?))
}

/// Streams 1, 3 and 5 are active, and nothing is on offer for them.
fn three(alloc: Global) -> Result<Offers, AllocError> {
    let mut offers = Offers::new(alloc);
    offers.open(1)?;
    offers.open(3)?;
    offers.open(5)?;
    Ok(offers)
}

/// A streamed answer to a request that isn't HEAD.
fn streamed(alloc: Global) -> Answer {
    Answer::new(alloc, false, ResponsePassing::Streaming)
}

/// Opens a stream where its HEADERS may, and says whether they do.
fn open_if_idle(streams: &mut StreamTable, id: u32) -> Result<bool, AllocError> {
    match streams.verdict(false, id, Kind::Headers) {
        Verdict::Open => {
            streams.open(id, Live::opened(Course::new(), false))?;
            Ok(true)
        }
        _ => Ok(false),
    }
}

/// What is done with offers, and what that comes to.
#[derive(Clone, Copy)]
enum Step<'a> {
    /// Octets of an upstream come for a stream.
    Hears(u32, &'a [u8], Option<Heard>),
    /// The connection of a stream's upstream ends.
    Ends(u32, Option<AnswerEnd>),
    /// Another answer is read from now on.
    Anew,
    /// What goes next on a stream goes, where so many octets may.
    Sends(u32, usize, Next),
    /// So it will, but it doesn't go yet.
    Waits(u32, usize, Next),
    /// The gateway replies itself.
    Replies(u32, Cause),
    Closes(u32),
    IsKept(u32, bool),
    IsCut(u32, bool),
    /// A stream of the connection is opened, which has a window of its own.
    Opens(u32),
    /// Whose turn it is, by the first size of windows and by the connection's window.
    Turns(u32, i64, Option<u32>),
    /// How many octets of a stream's body wait.
    Holds(u32, usize),
}

/// Offers, the streams of their connection, and the answer that is read.
#[derive(Drop)]
struct Offered {
    alloc: Global,
    offers: Offers,
    streams: StreamTable,
    answer: Answer,
}

/// Whether what is only looked at is as it should be.
fn is_seen(offered: &Offered, step: &Step<'_>) -> bool {
    match step {
        Step::Waits(id, most, wanted) => upcoming(&offered.offers, *id, *most) == *wanted,
        Step::IsKept(id, wanted) => offered.offers.is_kept(*id) == *wanted,
        Step::IsCut(id, wanted) => offered.offers.is_cut(*id) == *wanted,
        Step::Turns(first_size, shared, wanted) => {
            offered
                .offers
                .next_turn(&offered.streams, *first_size, *shared)
                == *wanted
        }
        Step::Holds(id, wanted) => offered.offers.held(*id, &mut 0) == *wanted,
        _ => false,
    }
}

/// Whether a step comes to what it should.
fn is_so(offered: &mut Offered, step: &Step<'_>) -> Result<bool, Fail> {
    match step {
        Step::Hears(id, octets, wanted) => {
            Ok(hear(&mut offered.offers, *id, &mut offered.answer, octets)? == *wanted)
        }
        Step::Ends(id, wanted) => {
            Ok(end(&mut offered.offers, *id, &mut offered.answer)? == *wanted)
        }
        Step::Anew => {
            offered.answer = streamed(offered.alloc);
            Ok(true)
        }
        Step::Sends(id, most, wanted) => Ok(send(&mut offered.offers, *id, *most) == *wanted),
        Step::Replies(id, cause) => {
            offered.offers.reply(*id, *cause)?;
            Ok(true)
        }
        Step::Closes(id) => {
            offered.offers.close(*id);
            Ok(true)
        }
        Step::Opens(id) => Ok(open_if_idle(&mut offered.streams, *id)?),
        _ => Ok(is_seen(offered, step)),
    }
}

/// The first step at a offered that comes to something else.
fn first_at(offered: &mut Offered, steps: &[Step<'_>]) -> Result<Option<usize>, Fail> {
    for (place, step) in steps.iter().enumerate() {
        if !is_so(offered, step)? {
            return Ok(Some(place));
        }
    }
    Ok(None)
}

/// The first step that comes to something else, where three streams are active.
fn first_that_differs(alloc: Global, steps: &[Step<'_>]) -> Result<Option<usize>, Fail> {
    let offers = three(alloc)?;
    let mut offered = Offered {
        alloc,
        offers,
        streams: StreamTable::new(alloc),
        answer: streamed(alloc),
    };
    first_at(&mut offered, steps)
}

#[test]
fn a_stream_is_looked_for_behind_the_last_one(rt: HostRuntime) -> Result<(), Fail> {
    let offers = three(rt.alloc())?;
    let mut guess = 0;
    assert_eq!(rt; offers.held(3, &mut guess), 0);
    assert_eq!(rt; guess, 2);
    Ok(())
}

/// Rows: what each shows, and steps where three streams are active.
static ROWS: [(&str, &[Step]); 9] = [
    (
        "streams are opened and closed",
        &[
            Step::IsKept(3, true),
            Step::IsKept(2, false),
            Step::Closes(3),
            Step::Closes(2),
            Step::IsKept(1, true),
            Step::IsKept(3, false),
            Step::IsKept(5, true),
        ],
    ),
    (
        "what is heard goes to its stream",
        &[
            Step::Hears(3, RESPONSE, Some(Heard::Keepable)),
            Step::Waits(1, 9, Next::Nothing),
            Step::Sends(3, 9, Next::Final(200, false)),
            Step::Sends(3, 2, Next::Octets(2, false)),
            Step::Sends(3, 9, Next::Octets(3, true)),
            Step::Sends(3, 9, Next::Nothing),
            Step::Hears(7, RESPONSE, None),
        ],
    ),
    (
        "what waits of a body is held for its stream",
        &[
            Step::Hears(3, RESPONSE, Some(Heard::Keepable)),
            Step::Holds(3, 5),
            Step::Holds(1, 0),
            Step::Sends(3, 9, Next::Final(200, false)),
            Step::Sends(3, 2, Next::Octets(2, false)),
            Step::Holds(3, 3),
            Step::Closes(3),
            Step::Holds(3, 0),
            Step::Holds(7, 0),
        ],
    ),
    (
        "the end of a connection ends its stream",
        &[
            Step::Hears(5, b"HTTP/1.1 200 OK\r\n\r\n", Some(Heard::GoesOn)),
            Step::Sends(5, 9, Next::Final(200, false)),
            Step::Waits(5, 9, Next::Nothing),
            Step::Ends(5, Some(AnswerEnd::Complete)),
            Step::Sends(5, 9, Next::Octets(0, true)),
        ],
    ),
    (
        "a reply takes the place of a response",
        &[
            Step::Hears(1, RESPONSE, Some(Heard::Keepable)),
            Step::Replies(1, Cause::BadAnswer),
            Step::Replies(7, Cause::BadAnswer),
            Step::IsCut(1, false),
            Step::Sends(1, 9, Next::Final(502, true)),
            Step::Waits(1, 9, Next::Nothing),
        ],
    ),
    (
        "a reply behind a final head is a reset",
        &[
            Step::Hears(1, RESPONSE, Some(Heard::Keepable)),
            Step::Sends(1, 9, Next::Final(200, false)),
            Step::Turns(FIRST_SIZE, 65535, Some(1)),
            Step::Replies(1, Cause::LargeBody),
            Step::IsCut(1, true),
            Step::IsCut(3, false),
            Step::Turns(FIRST_SIZE, 65535, None),
        ],
    ),
    (
        "turns go round",
        &[
            Step::Turns(FIRST_SIZE, 9, None),
            Step::Hears(1, RESPONSE, Some(Heard::Keepable)),
            Step::Anew,
            Step::Hears(3, RESPONSE, Some(Heard::Keepable)),
            Step::Anew,
            Step::Hears(5, RESPONSE, Some(Heard::Keepable)),
            Step::Turns(FIRST_SIZE, 9, Some(1)),
            Step::Sends(1, 2, Next::Final(200, false)),
            Step::Turns(FIRST_SIZE, 9, Some(3)),
            Step::Sends(3, 2, Next::Final(200, false)),
            Step::Turns(FIRST_SIZE, 9, Some(5)),
            Step::Sends(5, 2, Next::Final(200, false)),
            Step::Turns(FIRST_SIZE, 9, Some(1)),
            Step::Sends(1, 2, Next::Octets(2, false)),
            Step::Turns(FIRST_SIZE, 9, Some(3)),
            Step::Sends(3, 2, Next::Octets(2, false)),
            Step::Turns(FIRST_SIZE, 9, Some(5)),
            Step::Sends(5, 2, Next::Octets(2, false)),
            Step::Closes(1),
            Step::Turns(FIRST_SIZE, 9, Some(3)),
        ],
    ),
    (
        "trailers wait for their body and for no window",
        &[
            Step::Hears(3, TRAILING, Some(Heard::Keepable)),
            Step::Opens(3),
            Step::Sends(3, 9, Next::Final(200, false)),
            Step::Turns(0, 9, None),
            Step::Turns(9, 9, Some(3)),
            Step::Sends(3, 9, Next::Octets(2, false)),
            Step::Waits(3, 9, Next::Trailers(1)),
            Step::Turns(0, 0, Some(3)),
            Step::Sends(3, 9, Next::Trailers(1)),
            Step::Turns(9, 9, None),
            Step::Waits(3, 9, Next::Nothing),
        ],
    ),
    (
        "closed windows hold octets and no heads",
        &[
            Step::Hears(3, RESPONSE, Some(Heard::Keepable)),
            Step::Opens(3),
            Step::Turns(0, -1, Some(3)),
            Step::Sends(3, 9, Next::Final(200, false)),
            Step::Turns(0, 9, None),
            Step::Turns(9, 0, None),
            Step::Turns(1, 1, Some(3)),
            Step::Sends(3, 9, Next::Octets(5, true)),
            Step::Turns(9, 9, None),
        ],
    ),
];

#[test]
fn offers_come_to_what_they_should(rt: HostRuntime) -> Result<(), Fail> {
    for (name, steps) in &ROWS {
        assert_eq!(rt; first_that_differs(rt.alloc(), steps)?, None, "{name}");
    }
    Ok(())
}
