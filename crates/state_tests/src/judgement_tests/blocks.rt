//! Header blocks by the error table, each row beside a frame that just keeps within.

use connection_state::{BlockJudged, Connection, FrameError, Judged, Terms};
use frames::View;
use local_replies::{Cause, RoutePattern};
use std::alloc::{AllocError, Global};
use std::slice;
use std::test::*;

/// Types of frames (RFC 9113, section 6).
const HEADERS: u8 = 1;

const CONTINUATION: u8 = 9;

const DATA: u8 = 0;

const RST_STREAM: u8 = 3;

/// Flags: END_STREAM, END_HEADERS, and both.
const ENDS: u8 = 1;

const WHOLE: u8 = 4;

const ALL: u8 = 5;

/// PADDED; and END_STREAM, END_HEADERS and PRIORITY.
const PADDED: u8 = 8;

const WITH_PRIORITY: u8 = 37;

/// The most octets of a body.
const MOST: u64 = 10;

/// `:method: GET`, `:scheme: http`, `:path: /`, `:authority: h` (RFC 7541, appendix A and section 6.2.2).
const GET: &[u8] = &[0x82, 0x86, 0x84, 0x01, 0x01, 0x68];

/// The same in three fragments.
const GET_FRONT: &[u8] = &[0x82, 0x86];

const GET_MORE: &[u8] = &[0x84, 0x01];

const GET_REST: &[u8] = &[0x01, 0x68];

/// An index of 0, which is no field (RFC 7541, section 6.1).
const NO_BLOCK: &[u8] = &[0x80];

/// A POST, otherwise so, with `content-length: 2`, and with one of 11.
const POST: &[u8] = &[0x83, 0x86, 0x84, 0x01, 0x01, 0x68, 0x0f, 0x0d, 0x01, 0x32];

const LARGE: &[u8] = &[
    0x83, 0x86, 0x84, 0x01, 0x01, 0x68, 0x0f, 0x0d, 0x02, 0x31, 0x31,
];

/// `x: y`.
const TRAILERS: &[u8] = &[0x00, 0x01, 0x78, 0x01, 0x79];

/// `x: y`, `content-length: 2` and `host: h`, of which the first alone is passed on; and these two.
const SOME_DROPPED: &[u8] = &[
    0x00, 0x01, 0x78, 0x01, 0x79, 0x0f, 0x0d, 0x01, 0x32, 0x0f, 0x17, 0x01, 0x68,
];

const ALL_DROPPED: &[u8] = &[0x0f, 0x0d, 0x01, 0x32, 0x0f, 0x17, 0x01, 0x68];

/// `:path: /`, which trailers can't have.
const PATH: &[u8] = &[0x84];

/// The octets of GET behind those of a priority.
const GET_WITH_PRIORITY: &[u8] = &[
    0x00, 0x00, 0x00, 0x00, 0x10, 0x82, 0x86, 0x84, 0x01, 0x01, 0x68,
];

/// A pad length with as many octets behind it, and one with fewer.
const ALL_PADDING: &[u8] = &[0x03, 0x00, 0x00, 0x00];

const TOO_MUCH_PADDING: &[u8] = &[0x04, 0x00, 0x00, 0x00];

/// The octet of `:method: GET`, 400 times, and as often as the longest payload takes it.
static METHODS: [u8; 400] = [0x82; 400];

static LONG: [u8; 16384] = [0x82; 16384];

/// What comes of a frame, the parts of a head aside.
#[derive(Clone, Copy, PartialEq, Eq)]
enum Told {
    NoSuchFrame,
    Plain,
    Failed(FrameError),
    GoesOn,
    Begins(u32),
    Answered(Cause),
    Trailers(usize),
    Ignored,
}

/// The type, the flags and the stream's number of a frame, its payload, and what is wanted of it.
type Row<'a> = (u8, u8, u32, &'a [u8], Told);

/// An answer without the parts of a head.
fn told_of(judged: BlockJudged) -> Told {
    match judged {
        BlockJudged::Failed(fault) => Told::Failed(fault),
        BlockJudged::GoesOn => Told::GoesOn,
        BlockJudged::Begins { route, .. } => Told::Begins(route),
        BlockJudged::Answered(cause) => Told::Answered(cause),
        BlockJudged::Trailers(fields) => Told::Trailers(fields.len()),
        BlockJudged::Ignored => Told::Ignored,
    }
}

/// Judges HEADERS or CONTINUATION.
fn told_of_fragment(
    connection: &mut Connection,
    routes: &[RoutePattern],
    view: View<'_>,
) -> Result<Told, AllocError> {
    if view.payload.len() > 16384
        || routes.len() > 9
        || (view.kind != HEADERS && view.kind != CONTINUATION)
    {
        return Ok(Told::NoSuchFrame);
    }
    let terms = Terms {
        routes,
        max_body: MOST,
    };
    let judged = connection.judge_fragment(view, false, terms)?;
    Ok(told_of(judged))
}

/// Judges a frame that is neither.
fn told_of_other(connection: &mut Connection, view: View<'_>) -> Told {
    if view.payload.len() > 16384 || view.kind == HEADERS || view.kind == CONTINUATION {
        return Told::NoSuchFrame;
    }
    match connection.judge(view, MOST) {
        Judged::Failed(fault) => Told::Failed(fault),
        _ => Told::Plain,
    }
}

/// Judges a frame of any type.
fn told_any(
    connection: &mut Connection,
    routes: &[RoutePattern],
    view: View<'_>,
) -> Result<Told, AllocError> {
    if view.kind == HEADERS || view.kind == CONTINUATION {
        return told_of_fragment(connection, routes, view);
    }
    Ok(told_of_other(connection, view))
}

fn view_of<'a>(row: &Row<'a>) -> View<'a> {
    let (kind, flags, id, payload, _) = *row;
    View {
        kind,
        flags,
        id,
        payload,
    }
}

/// Whether what should comes of a frame with a fragment.
fn is_as_told(
    connection: &mut Connection,
    routes: &[RoutePattern],
    row: &Row<'_>,
) -> Result<bool, AllocError> {
    let told = told_of_fragment(connection, routes, view_of(row))?;
    Ok(told == row.4)
}

/// The first of these frames, which are judged in turn, of which something else comes.
fn first_that_differs(
    connection: &mut Connection,
    routes: &[RoutePattern],
    rows: &[Row<'_>],
) -> Result<Option<usize>, AllocError> {
    for (place, row) in rows.iter().enumerate() {
        if !is_as_told(connection, routes, row)? {
            return Ok(Some(place));
        }
    }
    Ok(None)
}

/// The same, as frames of any type.
fn first_of_any(
    connection: &mut Connection,
    routes: &[RoutePattern],
    rows: &[Row<'_>],
) -> Result<Option<usize>, AllocError> {
    for (place, row) in rows.iter().enumerate() {
        if told_any(connection, routes, view_of(row))? != row.4 {
            return Ok(Some(place));
        }
    }
    Ok(None)
}

/// Ends stream 1 with a response's head, where it is active.
fn respond(connection: &mut Connection) {
    if connection.streams().find(1).is_some() {
        connection.sent_head(1, true, true);
    }
}

/// A request that its client ends.
static ENDED: Row<'static> = (HEADERS, ALL, 1, GET, Told::Begins(0));

/// The first of these frames behind a request that its client ends, and behind the response to it.
/// Where no request begins, it is one behind all.
fn first_behind_a_response(
    connection: &mut Connection,
    routes: &[RoutePattern],
    rows: &[Row<'_>],
) -> Result<Option<usize>, AllocError> {
    if !is_as_told(connection, routes, &ENDED)? {
        return Ok(Some(rows.len()));
    }
    respond(connection);
    first_that_differs(connection, routes, rows)
}

/// Whether requests begin on the first hundred streams.
fn a_hundred_begin(
    connection: &mut Connection,
    routes: &[RoutePattern],
) -> Result<bool, AllocError> {
    for place in 0u32..100 {
        let row = (HEADERS, WHOLE, 2 * place + 1, GET, Told::Begins(0));
        if !is_as_told(connection, routes, &row)? {
            return Ok(false);
        }
    }
    Ok(true)
}

/// The first of these frames behind requests on a hundred streams. Where one of them doesn't begin,
/// it is one behind all.
fn first_behind_a_hundred(
    connection: &mut Connection,
    routes: &[RoutePattern],
    rows: &[Row<'_>],
) -> Result<Option<usize>, AllocError> {
    if !a_hundred_begin(connection, routes)? {
        return Ok(Some(rows.len()));
    }
    first_that_differs(connection, routes, rows)
}

/// How the frames of a table are taken.
#[derive(Clone, Copy)]
enum Taken {
    /// Each as one that has a fragment.
    AsFragments,
    /// Each as one of any type.
    AsAny,
    /// As fragments, behind a request and the response that ends its stream.
    BehindAResponse,
    /// As fragments, behind requests on a hundred streams.
    BehindAHundred,
}

/// The first of these frames of which something else comes, on a connection that is lent.
fn first_on(
    connection: &mut Connection,
    routes: &[RoutePattern],
    taken: Taken,
    rows: &[Row<'_>],
) -> Result<Option<usize>, AllocError> {
    match taken {
        Taken::AsFragments => first_that_differs(connection, routes, rows),
        Taken::AsAny => first_of_any(connection, routes, rows),
        Taken::BehindAResponse => first_behind_a_response(connection, routes, rows),
        Taken::BehindAHundred => first_behind_a_hundred(connection, routes, rows),
    }
}

/// A route for the paths with this front.
fn route_of(alloc: Global, prefix: &[u8]) -> Result<RoutePattern, AllocError> {
    let prefix = Vec::from_slice(alloc, prefix)?;
    Ok(RoutePattern {
        authority: Vec::new(alloc),
        prefix,
    })
}

/// A connection on which settings came.
fn settled(alloc: Global) -> Connection {
    let mut connection = Connection::new(alloc, 0);
    let settings = View {
        kind: 4,
        flags: 0,
        id: 0,
        payload: &[],
    };
    connection.judge(settings, MOST);
    connection
}

/// The first of these frames of which something else comes, with a route for the paths with this front.
fn first_by(
    alloc: Global,
    prefix: &[u8],
    taken: Taken,
    rows: &[Row<'_>],
) -> Result<Option<usize>, AllocError> {
    let route = route_of(alloc, prefix)?;
    let mut connection = settled(alloc);
    first_on(&mut connection, slice::from_ref(&route), taken, rows)
}

/// The same, with a route for all paths.
fn first_of(alloc: Global, taken: Taken, rows: &[Row<'_>]) -> Result<Option<usize>, AllocError> {
    first_by(alloc, b"/", taken, rows)
}

/// Tables: what each shows, how its frames are taken, and its rows, with a route for all paths.
static TABLES: [(&str, Taken, &[Row]); 9] = [
    (
        "frames of any type are judged",
        Taken::AsAny,
        &[
            (
                CONTINUATION,
                WHOLE,
                1,
                GET,
                Told::Failed(FrameError::Connection(1)),
            ),
            (
                DATA,
                0,
                1,
                TRAILERS,
                Told::Failed(FrameError::Connection(1)),
            ),
            (HEADERS, WHOLE, 1, GET, Told::Begins(0)),
            (DATA, 0, 1, TRAILERS, Told::Plain),
        ],
    ),
    (
        "a request begins and ends",
        Taken::AsFragments,
        &[
            (HEADERS, ALL, 1, GET, Told::Begins(0)),
            (
                HEADERS,
                ALL,
                1,
                TRAILERS,
                Told::Failed(FrameError::Stream(5)),
            ),
            (
                HEADERS,
                ALL,
                1,
                TRAILERS,
                Told::Failed(FrameError::Discarded),
            ),
            (HEADERS, ALL, 5, GET, Told::Begins(0)),
            (
                HEADERS,
                ALL,
                3,
                GET,
                Told::Failed(FrameError::Connection(1)),
            ),
        ],
    ),
    (
        "a block comes in fragments",
        Taken::AsFragments,
        &[
            (
                CONTINUATION,
                WHOLE,
                1,
                GET,
                Told::Failed(FrameError::Connection(1)),
            ),
            (HEADERS, ENDS, 1, GET_FRONT, Told::GoesOn),
            (
                HEADERS,
                WHOLE,
                3,
                GET,
                Told::Failed(FrameError::Connection(1)),
            ),
            (CONTINUATION, 0, 1, GET_MORE, Told::GoesOn),
            (CONTINUATION, WHOLE, 1, GET_REST, Told::Begins(0)),
        ],
    ),
    // HEADERS too short for its pad length or its priority, with more padding than there are octets, and with as much.
    (
        "payloads hold their fragments",
        Taken::AsFragments,
        &[
            (
                HEADERS,
                PADDED,
                1,
                b"",
                Told::Failed(FrameError::Connection(6)),
            ),
            (
                HEADERS,
                WITH_PRIORITY,
                1,
                b"1234",
                Told::Failed(FrameError::Connection(6)),
            ),
            (
                HEADERS,
                PADDED,
                1,
                TOO_MUCH_PADDING,
                Told::Failed(FrameError::Connection(1)),
            ),
            (HEADERS, PADDED, 1, ALL_PADDING, Told::GoesOn),
            (CONTINUATION, WHOLE, 1, GET, Told::Begins(0)),
            (
                HEADERS,
                WITH_PRIORITY,
                3,
                GET_WITH_PRIORITY,
                Told::Begins(0),
            ),
        ],
    ),
    // Trailers that end their request, that don't, that come before all octets that the head
    // declares, that have a pseudo-field, of which one is passed on, and of which none is.
    (
        "trailers end a request",
        Taken::AsFragments,
        &[
            (HEADERS, WHOLE, 1, GET, Told::Begins(0)),
            (HEADERS, ALL, 1, TRAILERS, Told::Trailers(1)),
            (HEADERS, WHOLE, 3, GET, Told::Begins(0)),
            (
                HEADERS,
                WHOLE,
                3,
                TRAILERS,
                Told::Failed(FrameError::Stream(1)),
            ),
            (HEADERS, WHOLE, 5, POST, Told::Begins(0)),
            (
                HEADERS,
                ALL,
                5,
                TRAILERS,
                Told::Failed(FrameError::Stream(1)),
            ),
            (HEADERS, WHOLE, 7, GET, Told::Begins(0)),
            (HEADERS, ALL, 7, PATH, Told::Failed(FrameError::Stream(1))),
            (HEADERS, WHOLE, 9, GET, Told::Begins(0)),
            (HEADERS, ALL, 9, SOME_DROPPED, Told::Trailers(1)),
            (HEADERS, WHOLE, 11, GET, Told::Begins(0)),
            (HEADERS, ALL, 11, ALL_DROPPED, Told::Trailers(0)),
        ],
    ),
    // HEADERS on a stream that its client reset.
    (
        "nothing follows on a stream that its client reset",
        Taken::AsAny,
        &[
            (HEADERS, WHOLE, 1, GET, Told::Begins(0)),
            (RST_STREAM, 0, 1, b"code", Told::Plain),
            (
                HEADERS,
                ALL,
                1,
                TRAILERS,
                Told::Failed(FrameError::Connection(5)),
            ),
        ],
    ),
    // HEADERS on a stream that its client ended, and then the response.
    (
        "nothing follows on a stream that its client ended, and then the response",
        Taken::BehindAResponse,
        &[(
            HEADERS,
            ALL,
            1,
            TRAILERS,
            Told::Failed(FrameError::Connection(5)),
        )],
    ),
    // A head without a path, one on a stream that is over, one on a stream of the server, and one
    // that can't be decoded.
    (
        "heads that are none",
        Taken::AsFragments,
        &[
            (
                HEADERS,
                ALL,
                1,
                GET_FRONT,
                Told::Failed(FrameError::Stream(1)),
            ),
            (HEADERS, ALL, 1, GET, Told::Failed(FrameError::Discarded)),
            (
                HEADERS,
                ALL,
                2,
                GET,
                Told::Failed(FrameError::Connection(1)),
            ),
            (
                HEADERS,
                ALL,
                3,
                NO_BLOCK,
                Told::Failed(FrameError::Connection(9)),
            ),
        ],
    ),
    (
        "the 101st stream is refused",
        Taken::BehindAHundred,
        &[
            (
                HEADERS,
                WHOLE,
                201,
                GET,
                Told::Failed(FrameError::Stream(7)),
            ),
            (
                HEADERS,
                WHOLE,
                201,
                GET,
                Told::Failed(FrameError::Discarded),
            ),
        ],
    ),
];

#[test]
fn blocks_are_judged_as_they_should(rt: HostRuntime) -> Result<(), Fail> {
    for (name, taken, rows) in &TABLES {
        assert_eq!(rt; first_of(rt.alloc(), *taken, rows)?, None, "{name}");
    }
    Ok(())
}

/// Four frames with 16,384 octets of a block each, and a fifth that makes it longer than blocks may be.
#[test]
fn blocks_have_a_length(rt: HostRuntime) -> Result<(), Fail> {
    let rows: [Row<'_>; 5] = [
        (HEADERS, 0, 1, &LONG, Told::GoesOn),
        (CONTINUATION, 0, 1, &LONG, Told::GoesOn),
        (CONTINUATION, 0, 1, &LONG, Told::GoesOn),
        (CONTINUATION, 0, 1, &LONG, Told::GoesOn),
        (
            CONTINUATION,
            WHOLE,
            1,
            PATH,
            Told::Failed(FrameError::Connection(11)),
        ),
    ];
    assert_eq!(rt; first_of(rt.alloc(), Taken::AsFragments, &rows)?, None);
    Ok(())
}

/// Four such frames are a whole block, whose fields are too large together.
#[test]
fn the_longest_block_is_read(rt: HostRuntime) -> Result<(), Fail> {
    let rows: [Row<'_>; 4] = [
        (HEADERS, 0, 1, &LONG, Told::GoesOn),
        (CONTINUATION, 0, 1, &LONG, Told::GoesOn),
        (CONTINUATION, 0, 1, &LONG, Told::GoesOn),
        (
            CONTINUATION,
            WHOLE,
            1,
            &LONG,
            Told::Answered(Cause::LargeFields),
        ),
    ];
    assert_eq!(rt; first_of(rt.alloc(), Taken::AsFragments, &rows)?, None);
    Ok(())
}

#[test]
fn the_gateway_answers_itself(rt: HostRuntime) -> Result<(), Fail> {
    let rows: [Row<'_>; 4] = [
        (HEADERS, WHOLE, 1, GET, Told::Answered(Cause::NoRoute)),
        (HEADERS, ALL, 1, TRAILERS, Told::Ignored),
        (HEADERS, WHOLE, 3, LARGE, Told::Answered(Cause::LargeBody)),
        (
            HEADERS,
            WHOLE,
            5,
            &METHODS,
            Told::Answered(Cause::LargeFields),
        ),
    ];
    assert_eq!(rt;
        first_by(rt.alloc(), b"/a", Taken::AsFragments, &rows)?,
        None
    );
    Ok(())
}
