//! Answers of upstreams, with ample memory.

use send_buffer::{Outbox, Part};
use std::alloc::Global;
use std::test::*;
use upstream_response::{Answer, AnswerEnd, Heard, ResponsePassing};

/// A response with an interim head and a body of five octets.
const RESPONSE: &[u8] =
    b"HTTP/1.1 103 Early Hints\r\n\r\nHTTP/1.1 200 OK\r\ncontent-length: 5\r\n\r\nhello";

/// The same without its last octet, and without its last two.
const BUT_ONE: &[u8] =
    b"HTTP/1.1 103 Early Hints\r\n\r\nHTTP/1.1 200 OK\r\ncontent-length: 5\r\n\r\nhell";

const BUT_TWO: &[u8] =
    b"HTTP/1.1 103 Early Hints\r\n\r\nHTTP/1.1 200 OK\r\ncontent-length: 5\r\n\r\nhel";

/// A response whose body goes on until the connection ends.
const UNTIL_END: &[u8] = b"HTTP/1.1 200 OK\r\n\r\nhello";

/// What goes next.
#[derive(PartialEq, Eq, Debug, Clone, Copy)]
enum Next {
    Nothing,
    Early(u16),
    Final(u16, bool),
    Octets(usize, bool),
    Trailers(usize),
}

/// What happens to an answer, and what that comes to: octets come, the connection ends, or what goes next goes.
#[derive(Clone, Copy)]
enum Step<'a> {
    Hears(&'a [u8], Heard),
    Ends(AnswerEnd),
    Sends(Next),
}

/// Sends what goes next of an outbox.
fn send(outbox: &mut Outbox) -> Next {
    match outbox.next(100) {
        None => Next::Nothing,
        Some(Part::Octets(front, back, ends)) => {
            let count = front.len() + back.len();
            outbox.drop_octets(100);
            Next::Octets(count, ends)
        }
        Some(Part::Early(head)) => {
            let status = head.status();
            let _early = outbox.take_head();
            Next::Early(status)
        }
        Some(Part::Final(head, ends)) => {
            let status = head.status();
            let _head = outbox.take_head();
            Next::Final(status, ends)
        }
        Some(Part::Trailing(fields)) => {
            let count = fields.len();
            let _trailers = outbox.take_trailers();
            Next::Trailers(count)
        }
    }
}

/// Hears octets.
fn hear(answer: &mut Answer, octets: &[u8], outbox: &mut Outbox) -> Result<Heard, Fail> {
    Ok(answer.hear(octets, outbox)?)
}

/// Hears the end of the connection.
fn end(answer: &mut Answer, outbox: &mut Outbox) -> Result<AnswerEnd, Fail> {
    Ok(answer.end(outbox)?)
}

/// Whether a step comes to what it should.
fn is_so(answer: &mut Answer, outbox: &mut Outbox, step: &Step<'_>) -> Result<bool, Fail> {
    match step {
        Step::Hears(octets, wanted) => Ok(hear(answer, octets, outbox)? == *wanted),
        Step::Ends(wanted) => Ok(end(answer, outbox)? == *wanted),
        Step::Sends(wanted) => Ok(send(outbox) == *wanted),
    }
}

/// The first step of an answer, lent with its outbox, that comes to something else.
fn first_of(
    answer: &mut Answer,
    outbox: &mut Outbox,
    steps: &[Step<'_>],
) -> Result<Option<usize>, Fail> {
    for (place, step) in steps.iter().enumerate() {
        if !is_so(answer, outbox, step)? {
            return Ok(Some(place));
        }
    }
    Ok(None)
}

/// The first step of a new answer that comes to something else.
fn first_that_differs(
    alloc: Global,
    passing: ResponsePassing,
    steps: &[Step<'_>],
) -> Result<Option<usize>, Fail> {
    let mut outbox = Outbox::new(alloc);
    let mut answer = Answer::new(alloc, false, passing);
    first_of(&mut answer, &mut outbox, steps)
}

#[test]
fn an_answer_is_passed_on_as_it_is_told_to(rt: HostRuntime) {
    let answer = Answer::new(rt.alloc(), false, ResponsePassing::Whole(5));
    assert_eq!(rt; answer.passing(), ResponsePassing::Whole(5));
}

/// A response in chunks, behind which two fields are passed back and one isn't.
const TRAILING: &[u8] =
    b"HTTP/1.1 200 OK\r\nTransfer-Encoding: chunked\r\n\r\n2\r\nhi\r\n0\r\nX-A: 1\r\nContent-Length: 2\r\nX-B: 3\r\n\r\n";

/// The same without its last octet.
const TRAILING_BUT_ONE: &[u8] =
    b"HTTP/1.1 200 OK\r\nTransfer-Encoding: chunked\r\n\r\n2\r\nhi\r\n0\r\nX-A: 1\r\nContent-Length: 2\r\nX-B: 3\r\n\r";

/// Rows: what each shows, how a new answer is passed on, and its steps.
static ROWS: [(&str, ResponsePassing, &[Step]); 12] = [
    (
        "a whole response waits for its end",
        ResponsePassing::Whole(5),
        &[
            Step::Hears(BUT_ONE, Heard::GoesOn),
            Step::Sends(Next::Early(103)),
            Step::Sends(Next::Nothing),
            Step::Hears(b"o", Heard::Keepable),
            Step::Sends(Next::Final(200, false)),
            Step::Sends(Next::Octets(5, true)),
            Step::Sends(Next::Nothing),
        ],
    ),
    (
        "a streamed response goes as it comes",
        ResponsePassing::Streaming,
        &[
            Step::Hears(BUT_TWO, Heard::GoesOn),
            Step::Sends(Next::Early(103)),
            Step::Sends(Next::Final(200, false)),
            Step::Sends(Next::Octets(3, false)),
            Step::Sends(Next::Nothing),
            Step::Hears(b"lo", Heard::Keepable),
            Step::Sends(Next::Octets(2, true)),
        ],
    ),
    (
        "what is too long fails",
        ResponsePassing::Whole(4),
        &[
            Step::Hears(RESPONSE, Heard::Failed),
            Step::Sends(Next::Nothing),
        ],
    ),
    (
        "what is no response fails",
        ResponsePassing::Streaming,
        &[
            Step::Hears(b"SMTP ready\r\n\r\n", Heard::Failed),
            Step::Sends(Next::Nothing),
        ],
    ),
    (
        "the end makes a response whole",
        ResponsePassing::Whole(100),
        &[
            Step::Hears(UNTIL_END, Heard::GoesOn),
            Step::Sends(Next::Nothing),
            Step::Ends(AnswerEnd::Complete),
            Step::Sends(Next::Final(200, false)),
            Step::Sends(Next::Octets(5, true)),
        ],
    ),
    (
        "the end cuts a response short",
        ResponsePassing::Whole(100),
        &[
            Step::Hears(BUT_ONE, Heard::GoesOn),
            Step::Ends(AnswerEnd::Short),
        ],
    ),
    (
        "a connection may be kept",
        ResponsePassing::Streaming,
        &[Step::Hears(b"HTTP/1.1 204 No Content\r\n\r\n", Heard::Keepable)],
    ),
    (
        "a connection with more octets isn't kept",
        ResponsePassing::Streaming,
        &[Step::Hears(b"HTTP/1.1 204 No Content\r\n\r\nH", Heard::Finished)],
    ),
    (
        "a connection by HTTP/1.0 isn't kept",
        ResponsePassing::Streaming,
        &[Step::Hears(b"HTTP/1.0 204 No Content\r\n\r\n", Heard::Finished)],
    ),
    (
        "a connection that is to be closed isn't kept",
        ResponsePassing::Streaming,
        &[Step::Hears(
            b"HTTP/1.1 204 No Content\r\nConnection: te, Close\r\n\r\n",
            Heard::Finished,
        )],
    ),
    (
        "trailers go behind the body of a whole response",
        ResponsePassing::Whole(2),
        &[
            Step::Hears(TRAILING, Heard::Keepable),
            Step::Sends(Next::Final(200, false)),
            Step::Sends(Next::Octets(2, false)),
            Step::Sends(Next::Trailers(2)),
            Step::Sends(Next::Nothing),
        ],
    ),
    (
        "trailers go behind the body as they come",
        ResponsePassing::Streaming,
        &[
            Step::Hears(TRAILING_BUT_ONE, Heard::GoesOn),
            Step::Sends(Next::Final(200, false)),
            Step::Sends(Next::Octets(2, false)),
            Step::Sends(Next::Nothing),
            Step::Hears(b"\n", Heard::Keepable),
            Step::Sends(Next::Trailers(2)),
            Step::Sends(Next::Nothing),
        ],
    ),
];

#[test]
fn answers_come_to_what_they_should(rt: HostRuntime) -> Result<(), Fail> {
    for (name, passing, steps) in &ROWS {
        let first = first_that_differs(rt.alloc(), *passing, steps)?;
        assert_eq!(rt; first, None, "{name}");
    }
    Ok(())
}
