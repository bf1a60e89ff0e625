//! What goes out, and what is left of the connection behind it.

use super::open_if_idle;
use crate::streams_seen::{self, BEGUN, Fact, Seen};
use connection_state::Connection;
use frames::View;
use std::alloc::AllocError;
use std::process::Abort;
use std::test::*;
use stream_state::{Kind, Standing, State, Verdict};
use streams::{Cause, Course, Reply};

/// What goes out on stream 1, or comes to it.
#[derive(Clone, Copy)]
enum Act<'a> {
    /// Nothing.
    Nothing,
    /// A header block goes out: whether it is a response's final head, and whether it ends the stream.
    Head(bool, bool),
    /// So many octets of DATA go out, which end the stream or don't.
    Data(u32, bool),
    /// RST_STREAM goes out.
    Reset,
    /// A frame of this type and on this stream comes in.
    Come(u8, u32, &'a [u8]),
    /// So many octets are given back to the connection.
    GiveBack(u32),
    /// So many octets are given back to the stream.
    GiveBackOn(u32),
    /// The upstream's answer fails.
    Fail,
}

/// Sends DATA where the stream is active and both windows take it, and says whether they do.
fn sends_data(connection: &mut Connection, octets: u32, ends: bool) -> bool {
    let Some(live) = connection.streams().find(1) else {
        return false;
    };
    let count = i64::from(octets);
    // What has no octets takes no window (RFC 9113, section 6.9).
    if count > 0 && (count > connection.window() || count > connection.window_on(live)) {
        return false;
    }
    connection.sent_data(1, octets, ends);
    true
}

/// Takes a frame without a fragment of a header block.
fn takes(connection: &mut Connection, kind: u8, id: u32, payload: &[u8]) -> bool {
    if kind == 1 || kind == 9 || payload.len() > 16384 {
        return false;
    }
    let view = View {
        kind,
        flags: 0,
        id,
        payload,
    };
    let _ = connection.judge(view, 1000);
    true
}

/// Gives octets back to the connection where it has room for them, and says whether it does.
fn gives_back(connection: &mut Connection, octets: u32) -> bool {
    if connection.room() + i64::from(octets) > i64::from(connection.receiving_window()) {
        return false;
    }
    connection.gave_back(octets);
    true
}

/// Gives octets back to the stream where it is active and has room for them, and says whether it does.
fn gives_back_on(connection: &mut Connection, octets: u32) -> bool {
    let Some(live) = connection.streams().find(1) else {
        return false;
    };
    if live.room() > 2147483647 - i64::from(octets) {
        return false;
    }
    connection.gave_back_on(1, octets);
    true
}

/// Does this where the stream is active, and says whether it is.
fn does_on(connection: &mut Connection, act: Act<'_>) -> bool {
    if connection.streams().find(1).is_none() {
        return false;
    }
    match act {
        Act::Head(is_final, ends) => connection.sent_head(1, is_final, ends),
        Act::Reset => connection.sent_reset(1),
        Act::Fail => connection.answer_failed(1),
        _ => return false,
    }
    true
}

/// Does this where it may be done, and says whether it may.
fn does(connection: &mut Connection, act: Act<'_>) -> bool {
    match act {
        Act::Nothing => true,
        Act::Data(octets, ends) => sends_data(connection, octets, ends),
        Act::Come(kind, id, payload) => takes(connection, kind, id, payload),
        Act::GiveBack(octets) => gives_back(connection, octets),
        Act::GiveBackOn(octets) => gives_back_on(connection, octets),
        _ => does_on(connection, act),
    }
}

/// What is seen of the connection.
#[derive(Clone, Copy)]
enum Of<'a> {
    /// The octets that may go out on it, and the first size of windows.
    Window(i64, u32),
    /// The octets that may go out on stream 1.
    WindowOn(i64),
    /// The octets that may come.
    Room(i64),
    /// Whether a stream is served.
    Served(u32, bool),
    /// Whether it is spent.
    Exhausted(bool),
    /// What is seen of its streams.
    Streams(&'a [Fact]),
}

fn window_on(connection: &Connection) -> Option<i64> {
    let live = connection.streams().find(1)?;
    Some(connection.window_on(live))
}

fn is_so(connection: &Connection, seen: Of<'_>) -> bool {
    match seen {
        Of::Window(octets, first) => {
            connection.window() == octets && connection.first_size() == first
        }
        Of::WindowOn(octets) => window_on(connection) == Some(octets),
        Of::Room(octets) => connection.room() == octets,
        Of::Served(id, is) => connection.is_served(id) == is,
        Of::Exhausted(is) => connection.is_exhausted() == is,
        Of::Streams(facts) => streams_seen::are_so(connection.streams(), facts),
    }
}

/// What is done, whether it may be done, and what is seen behind it.
type Row<'a> = (Act<'a>, bool, &'a [Of<'a>]);

/// Whether all of this is seen of the connection.
fn are_so(connection: &Connection, seen: &[Of<'_>]) -> bool {
    for one in seen {
        if !is_so(connection, *one) {
            return false;
        }
    }
    true
}

fn is_as_told(connection: &mut Connection, row: &Row<'_>) -> bool {
    let (act, wanted, seen) = *row;
    if does(connection, act) != wanted {
        return false;
    }
    are_so(connection, seen)
}

/// The first of these rows that goes otherwise on a connection that is lent.
fn first_on(connection: &mut Connection, rows: &[Row<'_>]) -> Option<usize> {
    for (place, row) in rows.iter().enumerate() {
        if !is_as_told(connection, row) {
            return Some(place);
        }
    }
    None
}

/// The same, once stream 1 is opened there.
fn first_behind_opening(
    connection: &mut Connection,
    ended: bool,
    rows: &[Row<'_>],
) -> Result<Option<usize>, Fail> {
    if !open_if_idle(connection, 1, BEGUN, ended)? {
        return Err(Fail::from("the stream isn't opened"));
    }
    Ok(first_on(connection, rows))
}

/// The first of these rows that goes otherwise on a connection with one active stream, 1, which its
/// client has ended or not.
fn first_that_differs(
    rt: &HostRuntime,
    ended: bool,
    rows: &[Row<'_>],
) -> Result<Option<usize>, Fail> {
    let mut connection = Connection::new(rt.alloc(), 0);
    first_behind_opening(&mut connection, ended, rows)
}

/// The gateway's own reply behind a final head.
const REPLIED: Course = Course {
    begun: true,
    declared: None,
    octets: 0,
    over: true,
    reply: Some(Reply {
        cause: Cause::BadAnswer,
        head_out: true,
    }),
};

/// Tables: what each shows, whether its client has ended the stream, and its rows.
static TABLES: [(&str, bool, &[Row]); 6] = [
    (
        "heads go out",
        false,
        &[
            (
                Act::Head(false, false),
                true,
                &[Of::Streams(&[Fact::Of(1, Seen::HeadOut(false))])],
            ),
            (
                Act::Head(true, true),
                true,
                &[Of::Streams(&[
                    Fact::Of(1, Seen::HeadOut(true)),
                    Fact::Stands(1, Standing::Opened(State::HalfClosedLocal)),
                ])],
            ),
        ],
    ),
    (
        "heads go out behind ends",
        true,
        &[(
            Act::Head(true, true),
            true,
            &[Of::Streams(&[Fact::Stands(1, Standing::Opened(State::Closed))])],
        )],
    ),
    (
        "data takes windows",
        false,
        &[
            (Act::Nothing, true, &[Of::Window(65535, 65535)]),
            (
                Act::Data(65534, false),
                true,
                &[
                    Of::Window(1, 65535),
                    Of::Streams(&[Fact::Of(1, Seen::Balance(-65534))]),
                    Of::WindowOn(1),
                ],
            ),
            (Act::Data(2, false), false, &[]),
            (Act::Data(1, false), true, &[]),
            (Act::Data(1, false), false, &[]),
            (
                Act::Data(0, true),
                true,
                &[
                    Of::Window(0, 65535),
                    Of::Streams(&[Fact::Stands(1, Standing::Opened(State::HalfClosedLocal))]),
                ],
            ),
        ],
    ),
    (
        "resets end streams",
        true,
        &[(
            Act::Reset,
            true,
            &[Of::Streams(&[
                Fact::Stands(1, Standing::Opened(State::ResetByUs)),
                Fact::Active(0),
                Fact::Highest(1),
            ])],
        )],
    ),
    (
        "octets are given back",
        false,
        &[
            (Act::Come(4, 0, b""), true, &[]),
            (Act::Come(0, 1, b"abcde"), true, &[Of::Room(65530)]),
            (Act::GiveBack(6), false, &[]),
            (Act::GiveBack(5), true, &[Of::Room(65535)]),
            (
                Act::GiveBackOn(3),
                true,
                &[Of::Streams(&[Fact::Of(1, Seen::Room(-2))])],
            ),
        ],
    ),
    (
        "answers fail",
        true,
        &[
            (
                Act::Nothing,
                true,
                &[Of::Served(1, true), Of::Served(3, false)],
            ),
            (Act::Head(true, false), true, &[]),
            (
                Act::Fail,
                true,
                &[
                    Of::Served(1, false),
                    Of::Streams(&[Fact::Of(1, Seen::With(REPLIED))]),
                ],
            ),
        ],
    ),
];

#[test]
fn what_goes_out_leaves_what_it_should(rt: HostRuntime) -> Result<(), Fail> {
    for (name, ended, rows) in &TABLES {
        assert_eq!(rt; first_that_differs(&rt, *ended, rows)?, None, "{name}");
    }
    Ok(())
}

/// Sends a response's final head on a stream where it is active, which ends it or doesn't.
fn respond(connection: &mut Connection, id: u32, ends: bool) {
    if connection.streams().find(id).is_some() {
        connection.sent_head(id, true, ends);
    }
}

/// Opens a stream that its client has ended, and sends a response's final head on it, which ends it
/// or doesn't; says whether it was opened.
fn serves(connection: &mut Connection, id: u32, ends: bool) -> Result<bool, AllocError> {
    let opened = open_if_idle(connection, id, BEGUN, true)?;
    respond(connection, id, ends);
    Ok(opened)
}

/// The first place at which a connection is spent, or on which no stream is opened: of 10,000, all
/// but the last of which are over.
fn first_unserved(connection: &mut Connection) -> Result<Option<u32>, AllocError> {
    for place in 0u32..10000 {
        if connection.is_exhausted() || !serves(connection, 2 * place + 1, place != 9999)? {
            return Ok(Some(place));
        }
    }
    Ok(None)
}

/// Resets a stream where it is active.
fn reset(connection: &mut Connection, id: u32) {
    if connection.streams().find(id).is_some() {
        connection.sent_reset(id);
    }
}

/// What is seen where the last of 10,000 streams is still active.
static COUNTED: [Of<'static>; 2] = [Of::Streams(&[Fact::Count(10000)]), Of::Exhausted(false)];

/// A connection is spent once 10,000 streams were served and none is active any more.
fn assert_is_exhausted(rt: &impl Abort, connection: &mut Connection) -> Result<(), AllocError> {
    assert_eq!(rt; first_unserved(connection)?, None);
    assert!(rt; are_so(connection, &COUNTED));
    reset(connection, 19999);
    assert!(rt; connection.is_exhausted());
    Ok(())
}

/// On a connection that is drained a stream goes on that was opened, and no other is opened. The
/// connection is spent once none is active.
fn assert_is_drained(rt: &impl Abort, connection: &mut Connection) -> Result<(), AllocError> {
    assert!(rt; serves(connection, 5, false)?);
    assert_eq!(rt; connection.drain(), Some(5));
    assert_eq!(rt; connection.drain(), None);
    assert_eq!(rt; connection.verdict(7, Kind::Headers), Verdict::Discard);
    assert!(rt; !connection.is_exhausted());
    reset(connection, 5);
    assert!(rt; connection.is_exhausted());
    Ok(())
}

#[test]
fn connections_are_drained(rt: HostRuntime) -> Result<(), Fail> {
    assert_is_drained(&rt, &mut Connection::new(rt.alloc(), 0))?;
    Ok(())
}

#[test]
fn connections_are_exhausted(rt: HostRuntime) -> Result<(), Fail> {
    assert_is_exhausted(&rt, &mut Connection::new(rt.alloc(), 0))?;
    Ok(())
}
