//! The states of streams, and the verdicts on the frames that come on them.

use std::alloc::{AllocError, Global};
use std::test::*;
use stream_state::{Kind, Standing, State, Streams, Verdict};

const PASS: Verdict = Verdict::Pass;

const DISCARD: Verdict = Verdict::Discard;

const PROTOCOL: Verdict = Verdict::Connection(1);

const CLOSED: Verdict = Verdict::Connection(5);

const CLOSED_STREAM: Verdict = Verdict::Stream(5);

/// What is done with streams, or asked of them.
#[derive(Clone, Copy)]
enum Step {
    /// A stream is opened, which the verdict on HEADERS allows.
    Open(u32),
    EndRemote(u32),
    EndLocal(u32),
    ResetByPeer(u32),
    ResetByUs(u32),
    /// So many are active, so many were opened, and the highest of them is this one.
    Counts(u32, u32, u32),
    /// The verdicts on DATA, HEADERS, RST_STREAM and WINDOW_UPDATE.
    Verdicts(u32, Verdict, Verdict, Verdict, Verdict),
    /// Where a number stands, and whether that is idle.
    Standing(u32, Standing, bool),
    /// Where a number stands on a connection that is drained.
    Drained(u32, Standing),
}

/// The verdicts on DATA, HEADERS, RST_STREAM and WINDOW_UPDATE.
fn verdicts(streams: &Streams, id: u32) -> [Verdict; 4] {
    [
        streams.verdict(false, id, Kind::Data),
        streams.verdict(false, id, Kind::Headers),
        streams.verdict(false, id, Kind::RstStream),
        streams.verdict(false, id, Kind::WindowUpdate),
    ]
}

/// Opens a stream where the verdict allows it, and says whether it does.
fn opens(streams: &mut Streams, id: u32) -> Result<bool, AllocError> {
    match streams.verdict(false, id, Kind::Headers) {
        Verdict::Open => {
            streams.open(id)?;
            Ok(true)
        }
        _ => Ok(false),
    }
}

fn are_counted(streams: &Streams, active: u32, count: u32, highest: u32) -> bool {
    streams.active() == active && streams.count() == count && streams.highest() == highest
}

fn stands(streams: &Streams, id: u32, wanted: Standing, is_idle: bool) -> bool {
    let standing = streams.standing(false, id);
    standing == wanted && standing.is_idle() == is_idle
}

fn answers(streams: &mut Streams, step: Step) -> Result<bool, AllocError> {
    match step {
        Step::Open(id) => return opens(streams, id),
        Step::EndRemote(id) => streams.end_remote(id),
        Step::EndLocal(id) => streams.end_local(id),
        Step::ResetByPeer(id) => streams.reset_by_peer(id),
        Step::ResetByUs(id) => streams.reset_by_us(id),
        Step::Counts(active, count, highest) => {
            return Ok(are_counted(streams, active, count, highest));
        }
        Step::Verdicts(id, data, headers, reset, update) => {
            return Ok(verdicts(streams, id) == [data, headers, reset, update]);
        }
        Step::Standing(id, wanted, is_idle) => return Ok(stands(streams, id, wanted, is_idle)),
        Step::Drained(id, wanted) => return Ok(streams.standing(true, id) == wanted),
    }
    Ok(true)
}

/// The first of these steps that answers something else.
fn first_that_differs(streams: &mut Streams, steps: &[Step]) -> Result<Option<usize>, AllocError> {
    for (place, step) in steps.iter().enumerate() {
        if !answers(streams, *step)? {
            return Ok(Some(place));
        }
    }
    Ok(None)
}

static STATES: [Step; 20] = [
    Step::Open(1),
    Step::Open(3),
    Step::Open(5),
    Step::Open(7),
    Step::Open(9),
    Step::Open(11),
    Step::EndRemote(3),
    Step::EndLocal(5),
    Step::EndLocal(7),
    Step::EndRemote(7),
    Step::ResetByPeer(9),
    Step::ResetByUs(11),
    Step::Counts(3, 6, 11),
    Step::Verdicts(1, PASS, PASS, PASS, PASS),
    Step::Verdicts(3, CLOSED_STREAM, CLOSED_STREAM, PASS, PASS),
    Step::Verdicts(5, PASS, PASS, PASS, PASS),
    Step::Verdicts(7, CLOSED, CLOSED, DISCARD, DISCARD),
    Step::Verdicts(9, CLOSED, CLOSED, DISCARD, DISCARD),
    Step::Verdicts(11, DISCARD, DISCARD, DISCARD, DISCARD),
    Step::Counts(3, 6, 11),
];

#[test]
fn each_state(rt: HostRuntime) -> Result<(), Fail> {
    assert_eq!(rt;
        first_that_differs(&mut Streams::new(rt.alloc()), &STATES)?,
        None
    );
    Ok(())
}

static WITHOUT_A_STREAM: [Step; 7] = [
    Step::Verdicts(5, PROTOCOL, Verdict::Open, PROTOCOL, PROTOCOL),
    Step::Open(5),
    Step::Verdicts(3, CLOSED, PROTOCOL, DISCARD, DISCARD),
    Step::Verdicts(7, PROTOCOL, Verdict::Open, PROTOCOL, PROTOCOL),
    Step::Verdicts(2, PROTOCOL, PROTOCOL, PROTOCOL, PROTOCOL),
    Step::Verdicts(8, PROTOCOL, PROTOCOL, PROTOCOL, PROTOCOL),
    Step::Verdicts(0, PASS, PROTOCOL, PASS, PASS),
];

#[test]
fn ids_without_a_stream(rt: HostRuntime) -> Result<(), Fail> {
    assert_eq!(rt;
        first_that_differs(&mut Streams::new(rt.alloc()), &WITHOUT_A_STREAM)?,
        None
    );
    Ok(())
}

/// Opens so many streams from 1 on, which end at once on both sides or stay, and says whether each was opened.
fn opens_many(streams: &mut Streams, count: u16, end: bool) -> Result<bool, AllocError> {
    for place in 0..count {
        let id = 2 * u32::from(place) + 1;
        if !opens(streams, id)? {
            return Ok(false);
        }
        if end {
            streams.end_local(id);
            streams.end_remote(id);
        }
    }
    Ok(true)
}

static HUNDRED: [Step; 7] = [
    Step::Counts(100, 100, 199),
    Step::Verdicts(201, PROTOCOL, Verdict::Stream(7), PROTOCOL, PROTOCOL),
    Step::ResetByUs(51),
    Step::Counts(99, 100, 199),
    Step::Verdicts(201, PROTOCOL, Verdict::Open, PROTOCOL, PROTOCOL),
    Step::EndRemote(51),
    Step::Counts(99, 100, 199),
];

#[test]
fn a_hundred_are_active(rt: HostRuntime) -> Result<(), Fail> {
    let mut streams = Streams::new(rt.alloc());
    assert!(rt; opens_many(&mut streams, 100, false)?);
    assert_eq!(rt; first_that_differs(&mut streams, &HUNDRED)?, None);
    Ok(())
}

static TEN_THOUSAND: [Step; 6] = [
    Step::Counts(0, 10000, 19999),
    Step::Standing(20001, Standing::Beyond, false),
    Step::Verdicts(19999, CLOSED, CLOSED, DISCARD, DISCARD),
    Step::Verdicts(20000, DISCARD, DISCARD, DISCARD, DISCARD),
    Step::Verdicts(20001, DISCARD, DISCARD, DISCARD, DISCARD),
    Step::Verdicts(19998, PROTOCOL, PROTOCOL, PROTOCOL, PROTOCOL),
];

#[test]
fn the_last_of_ten_thousand(rt: HostRuntime) -> Result<(), Fail> {
    let mut streams = Streams::new(rt.alloc());
    assert!(rt; opens_many(&mut streams, 10000, true)?);
    assert_eq!(rt; first_that_differs(&mut streams, &TEN_THOUSAND)?, None);
    Ok(())
}

static STANDINGS: [Step; 19] = [
    Step::Standing(1, Standing::Idle, true),
    Step::Open(3),
    Step::Open(7),
    Step::ResetByUs(3),
    Step::Standing(0, Standing::WholeConnection, false),
    Step::Standing(1, Standing::Skipped, false),
    Step::Standing(2, Standing::ServerIdle, true),
    Step::Standing(3, Standing::Opened(State::ResetByUs), false),
    Step::Standing(4, Standing::ServerIdle, true),
    Step::Standing(5, Standing::Skipped, false),
    Step::Standing(6, Standing::ServerIdle, true),
    Step::Standing(7, Standing::Opened(State::Open), false),
    Step::Standing(8, Standing::ServerIdle, true),
    Step::Standing(9, Standing::Idle, true),
    Step::Drained(6, Standing::ServerIdle),
    Step::Drained(5, Standing::Skipped),
    Step::Drained(7, Standing::Opened(State::Open)),
    Step::Drained(8, Standing::Beyond),
    Step::Drained(9, Standing::Beyond),
];

#[test]
fn standings(rt: HostRuntime) -> Result<(), Fail> {
    assert_eq!(rt;
        first_that_differs(&mut Streams::new(rt.alloc()), &STANDINGS)?,
        None
    );
    assert!(rt; State::HalfClosedLocal.is_active() && !State::ResetByUs.is_active());
    Ok(())
}

static HIGHEST: [Step; 5] = [
    Step::Counts(0, 0, 0),
    Step::Open(5),
    Step::Open(2147483647),
    Step::ResetByPeer(2147483647),
    Step::Counts(1, 2, 2147483647),
];

#[test]
fn the_highest_and_how_many(rt: HostRuntime) -> Result<(), Fail> {
    assert_eq!(rt;
        first_that_differs(&mut Streams::new(rt.alloc()), &HIGHEST)?,
        None
    );
    Ok(())
}
