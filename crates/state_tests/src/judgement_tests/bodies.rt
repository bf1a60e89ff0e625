//! The rows of the error table for DATA, each beside a frame that just keeps within.

use super::plain::{
    DISCARDED, FLOW_CONTROL_ERROR, FRAME_SIZE_ERROR, PROTOCOL_ERROR, Row, STREAM_CLOSED,
    first_that_differs, is_as_told, open_all,
};
use crate::streams_seen::BEGUN;
use connection_state::{Connection, FrameError, Judged};
use std::alloc::Global;
use std::test::*;
use streams::Course;

/// The longest payload, what three leave of a window, the same less one octet, and what two leave of the longest body.
static WHOLE: [u8; 16384] = [7; 16384];

static REST: [u8; 16383] = [7; 16383];

static LESS: [u8; 16382] = [7; 16382];

static LAST: [u8; 7232] = [7; 7232];

/// The first of these frames of which something else comes, once these streams are opened with requests of this course.
fn first_behind_opening(
    connection: &mut Connection,
    ids: &[u32],
    course: Course,
    rows: &[Row<'_>],
) -> Result<Option<usize>, Fail> {
    open_all(connection, ids, course)?;
    Ok(first_that_differs(connection, rows))
}

/// The same, on a connection of its own.
fn first_with(
    alloc: Global,
    ids: &[u32],
    course: Course,
    rows: &[Row<'_>],
) -> Result<Option<usize>, Fail> {
    let mut connection = Connection::new(alloc, 0);
    first_behind_opening(&mut connection, ids, course, rows)
}

/// The same, with requests that declare nothing.
fn first_on(alloc: Global, ids: &[u32], rows: &[Row<'_>]) -> Result<Option<usize>, Fail> {
    first_with(alloc, ids, BEGUN, rows)
}

static PADDED: [Row<'static>; 7] = [
    (0, 0, 1, b"abc", Judged::Content(b"abc", false)),
    (0, 8, 1, &[2, 97, 0, 0], Judged::Content(b"a", false)),
    (0, 8, 1, &[3, 0, 0, 0], Judged::Content(b"", false)),
    (0, 9, 1, &[1, 97, 0], Judged::Content(b"a", true)),
    (0, 8, 1, &[4, 0, 0, 0], PROTOCOL_ERROR),
    (0, 8, 1, b"", FRAME_SIZE_ERROR),
    (0, 0, 0, b"abc", PROTOCOL_ERROR),
];

#[test]
fn content_comes_without_padding(rt: HostRuntime) -> Result<(), Fail> {
    assert_eq!(rt; first_on(rt.alloc(), &[1], &PADDED)?, None);
    Ok(())
}

#[test]
fn content_keeps_to_the_connections_window(rt: HostRuntime) -> Result<(), Fail> {
    let rows: [Row<'_>; 8] = [
        (0, 0, 1, &WHOLE, Judged::Content(&WHOLE, false)),
        (0, 0, 1, &WHOLE, Judged::Content(&WHOLE, false)),
        (0, 0, 3, &WHOLE, Judged::Content(&WHOLE, false)),
        (0, 0, 7, &WHOLE, PROTOCOL_ERROR),
        (0, 0, 3, &WHOLE, FLOW_CONTROL_ERROR),
        (0, 0, 3, &REST, Judged::Content(&REST, false)),
        (0, 0, 3, b"a", FLOW_CONTROL_ERROR),
        (0, 0, 3, b"", Judged::Content(b"", false)),
    ];
    assert_eq!(rt; first_on(rt.alloc(), &[1, 3], &rows)?, None);
    Ok(())
}

/// Gives an octet back to the connection alone.
fn give_back_one(connection: &mut Connection) {
    if connection.room() < i64::from(connection.receiving_window()) {
        connection.gave_back(1);
    }
}

/// One octet on stream 1 for which it has no room.
static PAST: Row<'static> = (0, 0, 1, b"a", Judged::Failed(FrameError::Stream(3)));

/// Fills the windows of the connection and of stream 1, but for 16,383 octets. The gateway replies
/// itself, as that is past the most octets of a body.
fn fill(connection: &mut Connection) -> Result<(), Fail> {
    let rows: [Row<'_>; 3] = [
        (0, 0, 1, &WHOLE, Judged::Content(&WHOLE, false)),
        (0, 0, 1, &WHOLE, Judged::Content(&WHOLE, false)),
        (0, 0, 1, &WHOLE, Judged::LargeBody),
    ];
    match first_behind_opening(connection, &[1], BEGUN, &rows)? {
        Some(_) => Err(Fail::from("the windows aren't filled")),
        None => Ok(()),
    }
}

/// The first of these frames of which something else comes, once the windows are filled.
fn first_behind_filling(
    connection: &mut Connection,
    rows: &[Row<'_>],
) -> Result<Option<usize>, Fail> {
    fill(connection)?;
    Ok(first_that_differs(connection, rows))
}

/// The same. Behind these frames an octet is given back to the connection, and one more comes on
/// the stream, for which that has no room. If it has, that is one behind all.
fn first_before_the_last(
    connection: &mut Connection,
    rows: &[Row<'_>],
) -> Result<Option<usize>, Fail> {
    if let Some(place) = first_behind_filling(connection, rows)? {
        return Ok(Some(place));
    }
    give_back_one(connection);
    if is_as_told(connection, &PAST) {
        return Ok(None);
    }
    Ok(Some(rows.len()))
}

/// The same, on a connection of its own.
fn first_within_window(alloc: Global, rows: &[Row<'_>]) -> Result<Option<usize>, Fail> {
    let mut connection = Connection::new(alloc, 0);
    first_before_the_last(&mut connection, rows)
}

#[test]
fn content_keeps_to_its_streams_window(rt: HostRuntime) -> Result<(), Fail> {
    let rows: [Row<'_>; 1] = [(0, 0, 1, &REST, Judged::Content(&REST, false))];
    assert_eq!(rt; first_within_window(rt.alloc(), &rows)?, None);
    Ok(())
}

/// Behind its request's end, octets for which the stream has no room are an error of flow control first.
#[test]
fn windows_go_before_ends(rt: HostRuntime) -> Result<(), Fail> {
    let rows: [Row<'_>; 1] = [(0, 1, 1, &REST, Judged::Content(&REST, true))];
    assert_eq!(rt; first_within_window(rt.alloc(), &rows)?, None);
    Ok(())
}

#[test]
fn ends_are_ends_within_windows(rt: HostRuntime) -> Result<(), Fail> {
    let rows: [Row<'_>; 2] = [
        (0, 1, 1, &LESS, Judged::Content(&LESS, true)),
        (0, 0, 1, b"a", Judged::Failed(FrameError::Stream(5))),
    ];
    let mut connection = Connection::new(rt.alloc(), 0);
    assert_eq!(rt; first_behind_filling(&mut connection, &rows)?, None);
    Ok(())
}

static STATES: [Row<'static>; 8] = [
    (0, 0, 7, b"a", PROTOCOL_ERROR),
    (0, 0, 2, b"a", PROTOCOL_ERROR),
    (0, 0, 1, b"a", STREAM_CLOSED),
    (0, 1, 3, b"a", Judged::Content(b"a", true)),
    (0, 0, 3, b"a", Judged::Failed(FrameError::Stream(5))),
    (0, 0, 3, b"a", DISCARDED),
    (3, 0, 5, b"code", Judged::Reset),
    (0, 0, 5, b"a", STREAM_CLOSED),
];

#[test]
fn content_comes_on_active_streams(rt: HostRuntime) -> Result<(), Fail> {
    assert_eq!(rt; first_on(rt.alloc(), &[3, 5], &STATES)?, None);
    Ok(())
}

#[test]
fn discarded_octets_take_room(rt: HostRuntime) -> Result<(), Fail> {
    let rows: [Row<'_>; 5] = [
        (
            8,
            0,
            1,
            &[0, 0, 0, 0],
            Judged::Failed(FrameError::Stream(1)),
        ),
        (0, 0, 1, &WHOLE, DISCARDED),
        (0, 0, 1, &WHOLE, DISCARDED),
        (0, 0, 1, &WHOLE, DISCARDED),
        (0, 0, 1, &WHOLE, FLOW_CONTROL_ERROR),
    ];
    assert_eq!(rt; first_on(rt.alloc(), &[1], &rows)?, None);
    Ok(())
}

/// Bodies of which the head declares five octets.
static DECLARED: [Row<'static>; 6] = [
    (0, 0, 1, b"abcd", Judged::Content(b"abcd", false)),
    (0, 1, 1, b"e", Judged::Content(b"e", true)),
    (0, 0, 3, b"abcdef", Judged::Failed(FrameError::Stream(1))),
    (0, 1, 5, b"abcd", Judged::Failed(FrameError::Stream(1))),
    (0, 0, 7, b"abcde", Judged::Content(b"abcde", false)),
    (0, 0, 7, b"f", Judged::Failed(FrameError::Stream(1))),
];

#[test]
fn bodies_have_their_declared_lengths(rt: HostRuntime) -> Result<(), Fail> {
    let course = Course::new().with_block(Some(5), false);
    let first = first_with(rt.alloc(), &[1, 3, 5, 7], course, &DECLARED)?;
    assert_eq!(rt; first, None);
    Ok(())
}

#[test]
fn bodies_keep_to_the_most(rt: HostRuntime) -> Result<(), Fail> {
    let rows: [Row<'_>; 5] = [
        (0, 0, 1, &WHOLE, Judged::Content(&WHOLE, false)),
        (0, 0, 1, &WHOLE, Judged::Content(&WHOLE, false)),
        (0, 0, 1, &LAST, Judged::Content(&LAST, false)),
        (0, 0, 1, b"a", Judged::LargeBody),
        (0, 0, 1, b"a", Judged::Content(b"a", false)),
    ];
    assert_eq!(rt; first_on(rt.alloc(), &[1], &rows)?, None);
    Ok(())
}
