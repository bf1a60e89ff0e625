//! The rows of the error table for frames without a fragment of a header block, each beside a frame
//! that just keeps within.

use super::open_if_idle;
use crate::streams_seen::BEGUN;
use connection_state::{Connection, FrameError, Judged};
use frames::View;
use settings::Change;
use std::alloc::{AllocError, Global};
use std::process::Abort;
use std::test::*;
use stream_state::{Kind, Verdict};
use streams::Course;

/// The most octets of a body.
const MOST: u64 = 40000;

/// The type, the flags and the stream's number of a frame, its payload, and what is wanted of it.
pub type Row<'a> = (u8, u8, u32, &'a [u8], Judged<'a>);

/// Errors of the connection, with their codes.
pub const PROTOCOL_ERROR: Judged<'static> = Judged::Failed(FrameError::Connection(1));

pub const FLOW_CONTROL_ERROR: Judged<'static> = Judged::Failed(FrameError::Connection(3));

pub const STREAM_CLOSED: Judged<'static> = Judged::Failed(FrameError::Connection(5));

pub const FRAME_SIZE_ERROR: Judged<'static> = Judged::Failed(FrameError::Connection(6));

pub const ENHANCE_YOUR_CALM: Judged<'static> = Judged::Failed(FrameError::Connection(11));

pub const DISCARDED: Judged<'static> = Judged::Failed(FrameError::Discarded);

/// Settings that change the first size of windows by so many octets: by none, to 10, from 10 to the
/// most, and to one more than at first.
const UNCHANGED: Change = Change {
    difference: 0,
    smallest: None,
    last: None,
};

const TO_TEN: Change = Change {
    difference: -65525,
    smallest: None,
    last: None,
};

const TO_THE_MOST: Change = Change {
    difference: 2147483637,
    smallest: None,
    last: None,
};

const BY_ONE: Change = Change {
    difference: 1,
    smallest: None,
    last: None,
};

/// SETTINGS without settings, and what comes of it.
pub const SETTINGS: Row<'static> = (4, 0, 0, b"", Judged::Settings(UNCHANGED));

/// Judges a frame that has no fragment of a header block; nothing comes of another.
fn judged<'a>(
    connection: &mut Connection,
    kind: u8,
    flags: u8,
    id: u32,
    payload: &'a [u8],
) -> Option<Judged<'a>> {
    if kind == 1 || kind == 9 || payload.len() > 16384 {
        return None;
    }
    let view = View {
        kind,
        flags,
        id,
        payload,
    };
    Some(connection.judge(view, MOST))
}

/// Whether what should comes of a frame.
pub(crate) fn is_as_told(connection: &mut Connection, row: &Row<'_>) -> bool {
    let (kind, flags, id, payload, wanted) = *row;
    judged(connection, kind, flags, id, payload) == Some(wanted)
}

/// The first of these frames, which a connection takes in turn, of which something else comes.
pub(crate) fn first_that_differs(connection: &mut Connection, rows: &[Row<'_>]) -> Option<usize> {
    for (place, row) in rows.iter().enumerate() {
        if !is_as_told(connection, row) {
            return Some(place);
        }
    }
    None
}

/// The same, on a connection on which nothing came.
fn first_that_differs_at_first(alloc: Global, rows: &[Row<'_>]) -> Option<usize> {
    first_that_differs(&mut Connection::new(alloc, 0), rows)
}

/// Takes settings, and opens these streams with requests of this course.
pub(crate) fn open_all(
    connection: &mut Connection,
    ids: &[u32],
    course: Course,
) -> Result<(), Fail> {
    if !is_as_told(connection, &SETTINGS) {
        return Err(Fail::from("settings aren't taken"));
    }
    for id in ids {
        if !open_if_idle(connection, *id, course, false)? {
            return Err(Fail::from("a stream isn't opened"));
        }
    }
    Ok(())
}

/// Tables: what each shows, and its rows, on a connection on which nothing came.
static TABLES: [(&str, &[Row]); 6] = [
    (
        "the first frame has settings",
        &[
            (6, 0, 0, b"12345678", PROTOCOL_ERROR),
            (4, 1, 0, b"", PROTOCOL_ERROR),
            SETTINGS,
            (6, 0, 0, b"12345678", Judged::Ping(b"12345678")),
            (6, 1, 0, b"12345678", Judged::Ignored),
        ],
    ),
    // Frames on streams where they may not stand, and where they may.
    (
        "frames stand where they may",
        &[
            SETTINGS,
            (4, 0, 1, b"", PROTOCOL_ERROR),
            (6, 0, 1, b"12345678", PROTOCOL_ERROR),
            (7, 0, 1, b"12345678", PROTOCOL_ERROR),
            (2, 0, 0, b"12345", PROTOCOL_ERROR),
            (3, 0, 0, b"1234", PROTOCOL_ERROR),
            (5, 0, 1, b"1234", PROTOCOL_ERROR),
            (2, 0, 1, b"12345", Judged::Ignored),
            (7, 0, 0, b"12345678", Judged::Ignored),
            (200, 255, 77, b"123", Judged::Ignored),
        ],
    ),
    (
        "payloads have their lengths",
        &[
            SETTINGS,
            (6, 0, 0, b"1234567", FRAME_SIZE_ERROR),
            (2, 0, 1, b"1234", FRAME_SIZE_ERROR),
            (3, 0, 1, b"12345", FRAME_SIZE_ERROR),
            (4, 0, 0, b"12345", FRAME_SIZE_ERROR),
            (4, 1, 0, b"123456", FRAME_SIZE_ERROR),
            (7, 0, 0, b"1234567", FRAME_SIZE_ERROR),
            (8, 0, 0, b"12345", FRAME_SIZE_ERROR),
        ],
    ),
    (
        "settings are taken",
        &[
            (4, 0, 0, &[0, 2, 0, 0, 0, 2], PROTOCOL_ERROR),
            (4, 0, 0, &[0, 2, 0, 0, 0, 1], Judged::Settings(UNCHANGED)),
            (4, 0, 0, &[0, 4, 128, 0, 0, 0], FLOW_CONTROL_ERROR),
            (4, 0, 0, &[0, 5, 0, 0, 0, 1], PROTOCOL_ERROR),
            (4, 0, 0, &[0, 5, 0, 0, 63, 255], PROTOCOL_ERROR),
            (4, 0, 0, &[0, 5, 0, 0, 64, 0], Judged::Settings(UNCHANGED)),
            (
                4,
                0,
                0,
                &[0, 5, 0, 255, 255, 255],
                Judged::Settings(UNCHANGED),
            ),
            (4, 0, 0, &[0, 5, 1, 0, 0, 0], PROTOCOL_ERROR),
            (4, 0, 0, &[0, 4, 0, 0, 0, 10], Judged::Settings(TO_TEN)),
            (
                4,
                0,
                0,
                &[0, 4, 127, 255, 255, 255],
                Judged::Settings(TO_THE_MOST),
            ),
        ],
    ),
    (
        "windows grow",
        &[
            SETTINGS,
            (8, 0, 0, &[0, 0, 0, 0], PROTOCOL_ERROR),
            (8, 0, 0, &[127, 255, 0, 1], FLOW_CONTROL_ERROR),
            (8, 0, 0, &[127, 255, 0, 0], Judged::Granted),
            (8, 0, 0, &[0, 0, 0, 1], FLOW_CONTROL_ERROR),
        ],
    ),
    (
        "idle streams are left alone",
        &[
            SETTINGS,
            (3, 0, 1, b"1234", PROTOCOL_ERROR),
            (8, 0, 1, &[0, 0, 0, 1], PROTOCOL_ERROR),
            (8, 0, 2, &[0, 0, 0, 1], PROTOCOL_ERROR),
        ],
    ),
];

#[test]
fn frames_are_judged_as_they_should(rt: HostRuntime) {
    for (name, rows) in &TABLES {
        assert_eq!(rt;
            first_that_differs_at_first(rt.alloc(), rows),
            None,
            "{name}"
        );
    }
}

/// Windows of streams 3, 5 and 9 that grow or grow too large, and resets, beside frames on streams
/// that aren't active any more.
static GRANTS: [Row<'static>; 16] = [
    (8, 0, 3, &[127, 255, 0, 0], Judged::Granted),
    (4, 0, 0, &[0, 4, 0, 1, 0, 0], FLOW_CONTROL_ERROR),
    (
        8,
        0,
        3,
        &[0, 0, 0, 1],
        Judged::Failed(FrameError::Stream(3)),
    ),
    (
        8,
        0,
        5,
        &[0, 0, 0, 0],
        Judged::Failed(FrameError::Stream(1)),
    ),
    (8, 0, 9, &[0, 0, 0, 1], Judged::Granted),
    (3, 0, 9, b"code", Judged::Reset),
    (3, 0, 1, b"code", DISCARDED),
    (8, 0, 1, &[0, 0, 0, 0], DISCARDED),
    (3, 0, 3, b"code", DISCARDED),
    (8, 0, 3, &[0, 0, 0, 0], DISCARDED),
    (3, 0, 5, b"code", DISCARDED),
    (8, 0, 5, &[0, 0, 0, 0], DISCARDED),
    (3, 0, 7, b"code", DISCARDED),
    (8, 0, 7, &[0, 0, 0, 0], DISCARDED),
    (3, 0, 9, b"code", DISCARDED),
    (8, 0, 9, &[0, 0, 0, 0], DISCARDED),
];

/// Settings that none of the windows of streams is in the way of any more.
static LARGER: [Row<'static>; 1] = [(4, 0, 0, &[0, 4, 0, 1, 0, 0], Judged::Settings(BY_ONE))];

/// What comes of frames on streams that are granted to and reset.
fn assert_granted_and_reset(rt: &impl Abort, connection: &mut Connection) -> Result<(), Fail> {
    open_all(connection, &[3, 5, 9, 11], BEGUN)?;
    assert_eq!(rt; first_that_differs(connection, &GRANTS), None);
    assert_eq!(rt; connection.verdict(3, Kind::Data), Verdict::Discard);
    assert_eq!(rt; connection.verdict(9, Kind::Data), Verdict::Connection(5));
    assert_eq!(rt; first_that_differs(connection, &LARGER), None);
    // Whatever became of them.
    assert_eq!(rt; connection.opened(), 4);
    Ok(())
}

#[test]
fn streams_are_granted_to_and_reset(rt: HostRuntime) -> Result<(), Fail> {
    assert_granted_and_reset(&rt, &mut Connection::new(rt.alloc(), 0))
}

/// The first of a thousand streams that isn't opened, reset while it is active, and left alone when it is reset again.
fn first_not_reset(connection: &mut Connection) -> Result<Option<u32>, AllocError> {
    for place in 0u32..1000 {
        let id = 2 * place + 1;
        if !open_if_idle(connection, id, BEGUN, false)?
            || !is_as_told(connection, &(3, 0, id, b"code", Judged::Reset))
            || !is_as_told(connection, &(3, 0, id, b"code", DISCARDED))
        {
            return Ok(Some(id));
        }
    }
    Ok(None)
}

/// Frames behind a thousand resets: one more of stream 2001, which is active, each time changes nothing.
static ONE_MORE: [Row<'static>; 5] = [
    (3, 0, 1, b"code", DISCARDED),
    (3, 0, 2001, b"code", ENHANCE_YOUR_CALM),
    (3, 0, 1999, b"code", DISCARDED),
    (3, 0, 2001, b"code", ENHANCE_YOUR_CALM),
    (8, 0, 2001, &[0, 0, 0, 1], Judged::Granted),
];

/// What comes of a thousand resets of active streams, beside which others aren't counted, and of one more.
fn assert_resets_are_counted(rt: &impl Abort, connection: &mut Connection) -> Result<(), Fail> {
    open_all(connection, &[], BEGUN)?;
    assert_eq!(rt; first_not_reset(connection)?, None);
    assert!(rt; open_if_idle(connection, 2001, BEGUN, false)?);
    assert_eq!(rt; first_that_differs(connection, &ONE_MORE), None);
    assert_eq!(rt; connection.verdict(2001, Kind::RstStream), Verdict::Pass);
    Ok(())
}

#[test]
fn a_thousand_active_streams_are_reset(rt: HostRuntime) -> Result<(), Fail> {
    assert_resets_are_counted(&rt, &mut Connection::new(rt.alloc(), 0))
}
