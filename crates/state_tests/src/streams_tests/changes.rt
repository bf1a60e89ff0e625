//! What comes and goes on streams.

use super::open_if_idle;
use crate::streams_seen::{BEGUN, Fact, Seen, are_so};
use std::alloc::{AllocError, Global};
use std::process::Abort;
use std::test::*;
use stream_state::{Kind, Standing, State, Verdict};
use streams::{Cause, Course, Reply, StreamTable};

/// What is done to a stream.
#[derive(Clone, Copy)]
enum Act {
    /// It is opened, ended by its client or not.
    Open(bool),
    /// It is over, by the gateway or not.
    Close(bool),
    /// So many octets are granted to it.
    Grant(u32),
    /// So many octets of DATA come, all content, which end it or don't.
    Take(u32, bool),
    /// A header block goes out: whether it is a response's final head, and whether it ends the stream.
    Head(bool, bool),
    /// So many octets of DATA go out, which end the stream or don't.
    Data(u32, bool),
    /// So many octets are given back to it.
    GiveBack(u32),
    /// The upstream's answer fails.
    Fail,
}

/// Grants octets where the stream is active and has room for them, and says whether it does.
fn grants(streams: &mut StreamTable, id: u32, increment: u32) -> bool {
    let Some(live) = streams.find(id) else {
        return false;
    };
    if live.balance() > 2147483647 - i64::from(increment) {
        return false;
    }
    streams.grant(id, increment);
    true
}

/// Takes DATA of so many octets, all content, where the stream is active and its receiving window
/// stays a window's size, and says whether it does.
fn takes(streams: &mut StreamTable, id: u32, count: u32, ended: bool) -> bool {
    let Some(live) = streams.find(id) else {
        return false;
    };
    if live.room() - i64::from(count) < -2147483647 {
        return false;
    }
    let course = live
        .course()
        .with_content(count, ended, 100000, live.head_out());
    streams.take(id, count, course, ended);
    true
}

/// Sends octets of DATA where the stream is active and takes them, and says whether it does.
fn sends_data(streams: &mut StreamTable, id: u32, octets: u32, ends: bool) -> bool {
    let Some(live) = streams.find(id) else {
        return false;
    };
    if live.balance() - i64::from(octets) < -2147483647 {
        return false;
    }
    streams.send_data(id, octets, ends);
    true
}

/// Gives octets back where the stream is active and has room for them, and says whether it does.
fn gives_back(streams: &mut StreamTable, id: u32, octets: u32) -> bool {
    let Some(live) = streams.find(id) else {
        return false;
    };
    if live.room() + i64::from(octets) > 2147483647 {
        return false;
    }
    streams.give_back(id, octets);
    true
}

/// Does this where the stream is active, and says whether it is.
fn does_on(streams: &mut StreamTable, id: u32, act: Act) -> bool {
    if streams.find(id).is_none() {
        return false;
    }
    match act {
        Act::Close(by_us) => streams.close(id, by_us),
        Act::Head(is_final, ends) => streams.send_head(id, is_final, ends),
        Act::Fail => streams.fail(id),
        _ => return false,
    }
    true
}

/// Does this where it may be done, and says whether it may.
fn does(streams: &mut StreamTable, id: u32, act: Act) -> Result<bool, AllocError> {
    Ok(match act {
        Act::Open(ended) => open_if_idle(streams, id, ended)?,
        Act::Grant(increment) => grants(streams, id, increment),
        Act::Take(count, ended) => takes(streams, id, count, ended),
        Act::Data(octets, ends) => sends_data(streams, id, octets, ends),
        Act::GiveBack(octets) => gives_back(streams, id, octets),
        _ => does_on(streams, id, act),
    })
}

/// A stream, what is done to it, whether it may be done, and what is seen of the streams behind it.
type Row<'a> = (u32, Act, bool, &'a [Fact]);

/// Whether a row goes as it should.
fn is_as_told(streams: &mut StreamTable, row: &Row<'_>) -> Result<bool, AllocError> {
    let (id, act, wanted, facts) = *row;
    let done = does(streams, id, act)?;
    Ok(done == wanted && are_so(streams, facts))
}

/// The first of these rows that goes otherwise on streams that are lent.
fn first_on(streams: &mut StreamTable, rows: &[Row<'_>]) -> Result<Option<usize>, AllocError> {
    for (place, row) in rows.iter().enumerate() {
        if !is_as_told(streams, row)? {
            return Ok(Some(place));
        }
    }
    Ok(None)
}

/// The first of these rows that goes otherwise where nothing was opened before.
fn first_that_differs(alloc: Global, rows: &[Row<'_>]) -> Result<Option<usize>, AllocError> {
    let mut streams = StreamTable::new(alloc);
    first_on(&mut streams, rows)
}

/// The course behind 16,384 octets of a body.
const TAKEN: Course = Course {
    begun: true,
    declared: None,
    octets: 16384,
    over: false,
    reply: None,
};

/// The gateway's own reply before a final head.
const REPLIED: Course = Course {
    begun: true,
    declared: None,
    octets: 0,
    over: true,
    reply: Some(Reply {
        cause: Cause::BadAnswer,
        head_out: false,
    }),
};

/// Tables: what each shows, and its rows, where nothing was opened before.
static TABLES: [(&str, &[Row]); 7] = [
    (
        "streams open and close",
        &[
            (1, Act::Open(false), true, &[]),
            (3, Act::Open(true), true, &[]),
            (
                7,
                Act::Open(false),
                true,
                &[
                    Fact::Active(3),
                    Fact::Count(3),
                    Fact::Highest(7),
                    Fact::Stands(3, Standing::Opened(State::HalfClosedRemote)),
                    Fact::Stands(5, Standing::Skipped),
                    Fact::Stands(9, Standing::Idle),
                ],
            ),
            (3, Act::Close(true), true, &[]),
            (3, Act::Close(false), false, &[]),
            (
                1,
                Act::Close(false),
                true,
                &[
                    Fact::Active(1),
                    Fact::Count(3),
                    Fact::Judged(3, Kind::Data, Verdict::Discard),
                    Fact::Judged(3, Kind::Headers, Verdict::Discard),
                    Fact::Judged(3, Kind::RstStream, Verdict::Discard),
                    Fact::Judged(3, Kind::WindowUpdate, Verdict::Discard),
                    Fact::Stands(1, Standing::Opened(State::Closed)),
                    Fact::Stands(0, Standing::WholeConnection),
                ],
            ),
            (
                9,
                Act::Open(false),
                true,
                &[Fact::Kept(7, true), Fact::Kept(9, true)],
            ),
        ],
    ),
    (
        "octets are granted",
        &[
            (5, Act::Open(false), true, &[]),
            (9, Act::Open(false), true, &[]),
            (
                9,
                Act::Grant(2147418112),
                true,
                &[Fact::Shifts(65535, false), Fact::Shifts(65536, true)],
            ),
            (7, Act::Grant(1), false, &[]),
            (
                9,
                Act::Close(false),
                true,
                &[
                    Fact::Shifts(65536, false),
                    Fact::Of(5, Seen::Balance(0)),
                    Fact::Of(5, Seen::Room(0)),
                    Fact::Of(5, Seen::At(State::Open)),
                ],
            ),
        ],
    ),
    (
        "octets are taken",
        &[
            (5, Act::Open(false), true, &[]),
            (9, Act::Open(false), true, &[]),
            (5, Act::Take(65535, false), true, &[]),
            (5, Act::Take(2147418112, false), true, &[]),
            (5, Act::Take(1, false), false, &[]),
            (5, Act::Take(0, true), true, &[]),
            (
                9,
                Act::Take(16384, false),
                true,
                &[
                    Fact::Stands(5, Standing::Opened(State::HalfClosedRemote)),
                    Fact::Of(9, Seen::Room(-16384)),
                    Fact::Of(9, Seen::With(TAKEN)),
                    Fact::Of(9, Seen::At(State::Open)),
                    Fact::Of(9, Seen::HeadOut(false)),
                    Fact::Of(9, Seen::EndedByClient(false)),
                ],
            ),
        ],
    ),
    (
        "responses end before requests",
        &[
            (5, Act::Open(false), true, &[]),
            (
                5,
                Act::Head(false, false),
                true,
                &[Fact::Of(5, Seen::HeadOut(false))],
            ),
            (
                5,
                Act::Head(true, false),
                true,
                &[
                    Fact::Of(5, Seen::HeadOut(true)),
                    Fact::Stands(5, Standing::Opened(State::Open)),
                    Fact::Of(5, Seen::EndedByGateway(false)),
                ],
            ),
            (
                5,
                Act::Data(0, true),
                true,
                &[
                    Fact::Of(5, Seen::EndedByGateway(true)),
                    Fact::Stands(5, Standing::Opened(State::HalfClosedLocal)),
                ],
            ),
            (7, Act::Head(true, true), false, &[]),
        ],
    ),
    (
        "responses end streams",
        &[
            (5, Act::Open(true), true, &[]),
            (
                5,
                Act::Head(true, true),
                true,
                &[
                    Fact::Stands(5, Standing::Opened(State::Closed)),
                    Fact::Active(0),
                ],
            ),
            (7, Act::Open(true), true, &[]),
            (7, Act::Head(true, false), true, &[]),
            (
                7,
                Act::Data(100, true),
                true,
                &[Fact::Stands(7, Standing::Opened(State::Closed))],
            ),
        ],
    ),
    (
        "windows are used and given back",
        &[
            (5, Act::Open(false), true, &[]),
            (5, Act::Data(16384, false), true, &[]),
            (5, Act::Data(1, false), true, &[]),
            (
                5,
                Act::GiveBack(1000),
                true,
                &[
                    Fact::Of(5, Seen::Balance(-16385)),
                    Fact::Of(5, Seen::Room(1000)),
                    Fact::Of(5, Seen::With(BEGUN)),
                    Fact::Of(5, Seen::At(State::Open)),
                ],
            ),
            (5, Act::Data(2147467262, false), true, &[]),
            (5, Act::Data(1, false), false, &[]),
            (5, Act::GiveBack(2147482647), true, &[]),
            (5, Act::GiveBack(1), false, &[]),
        ],
    ),
    (
        "answers fail once",
        &[
            (
                5,
                Act::Open(true),
                true,
                &[Fact::Served(5, true), Fact::Served(7, false)],
            ),
            (5, Act::Fail, true, &[Fact::Served(5, false)]),
            (5, Act::Head(true, false), true, &[]),
            (
                5,
                Act::Fail,
                true,
                &[
                    Fact::Of(5, Seen::With(REPLIED)),
                    Fact::Of(5, Seen::Replied(true)),
                ],
            ),
            (5, Act::Data(9, true), true, &[Fact::Served(5, false)]),
        ],
    ),
];

#[test]
fn streams_change_as_they_should(rt: HostRuntime) -> Result<(), Fail> {
    assert_eq!(rt; StreamTable::new(rt.alloc()).highest(), 0);
    for (name, rows) in &TABLES {
        assert_eq!(rt; first_that_differs(rt.alloc(), rows)?, None, "{name}");
    }
    Ok(())
}

/// The first of 10,000 streams that isn't opened and closed, every other by the gateway.
fn first_refused(streams: &mut StreamTable) -> Result<Option<u32>, AllocError> {
    for place in 0u32..10000 {
        let id = 2 * place + 1;
        if !open_if_idle(streams, id, true)? || !does_on(streams, id, Act::Close(place % 2 == 0)) {
            return Ok(Some(id));
        }
    }
    Ok(None)
}

static CLOSED: [Fact; 5] = [
    Fact::Active(0),
    Fact::Count(10000),
    Fact::Stands(20001, Standing::Beyond),
    Fact::Stands(10001, Standing::Opened(State::ResetByUs)),
    Fact::Stands(10003, Standing::Opened(State::Closed)),
];

/// Ten thousand streams are opened and closed.
fn assert_ten_thousand(rt: &impl Abort, streams: &mut StreamTable) -> Result<(), AllocError> {
    assert_eq!(rt; first_refused(streams)?, None);
    assert!(rt; are_so(streams, &CLOSED));
    Ok(())
}

#[test]
fn ten_thousand_are_opened(rt: HostRuntime) -> Result<(), Fail> {
    assert_ten_thousand(&rt, &mut StreamTable::new(rt.alloc()))?;
    Ok(())
}
