//! Worlds under a reactor.

ghost use Rattle.std.specs.Prelude.{◌≡◌, ◌+◌, ◌<◌, ◌≤◌, ◌^◌};

use crate::worlds::{Came, PlainWorld, came_next, under};
use driver::{Next, World, WorldFault};
use gateway::{Event, Output};
use mio::Registry;
use mio::event::Event as Report;
use sockets::{Buffer, Departure, Reactor, client_in, number_in, token_in};
use std::io;
use std::io::{ErrorKind, Read, Write};
use std::net::{Shutdown, TcpStream};
use std::process::Abort;
use std::test::*;
use std::time::{Duration, Instant};

/// More octets than a socket takes at once.
const MANY: usize = 5_000_000;

/// Tells a report to the world whose it is. The answer is how many reports were of neither.
fn tell_one(
    report: &Report,
    first: &mut PlainWorld<'_>,
    second: &mut PlainWorld<'_>,
) -> Result<usize, WorldFault>
    ensures first { (first.new.calls ≡ first.old.calls) × (first.new.failures ≡ first.old.failures) }
    ensures second { (second.new.calls ≡ second.old.calls) × (second.new.failures ≡ second.old.failures) }
{
    let client = client_in(report.token());
    if client == 1 {
        first.hear(report)?;
        return Ok(0);
    }
    if client == 2 {
        second.hear(report)?;
        return Ok(0);
    }
    Ok(1)
}

/// Waits a little, and tells each world what was reported for its sockets. The answer is how many
/// reports were of neither.
fn tell(
    reactor: &mut Reactor,
    first: &mut PlainWorld<'_>,
    second: &mut PlainWorld<'_>,
) -> Result<usize, Fail>
    ensures first { (first.new.calls ≡ first.old.calls) × (first.new.failures ≡ first.old.failures) }
    ensures second { (second.new.calls ≡ second.old.calls) × (second.new.failures ≡ second.old.failures) }
{
    reactor.wait(Some(Duration::from_millis(50)))?;
    let mut others = 0usize;
    for report in reactor.reports() {
        others = others.saturating_add(tell_one(report, first, second)?);
    }
    Ok(others)
}

#[test]
fn a_token_tells_whose_it_is(rt: HostRuntime) {
    for (client, number) in [(0, 0), (0, 7), (1, 0), (7, 1), (u32::MAX, u32::MAX)] {
        let token = token_in(client, number);
        assert_eq!(rt; client_in(token), client);
        assert_eq!(rt; number_in(token), number);
    }
}

/// What comes next of a world, and whether it is quiet then.
fn came_and_quiet(world: &mut PlainWorld<'_>) -> (Came, bool)
    requires calls { world.old.calls + 1 < 2 ^ 64 }
    requires failures { world.old.failures + 1 < 2 ^ 64 }
    ensures calls { world.new.calls ≡ world.old.calls + 1 }
    ensures failures { world.new.failures ≤ world.old.failures + 1 }
{
    let came = came_next(world, &[], &[]);
    (came, world.is_quiet())
}

/// Whether these octets of the client come next of a world, which noted once that it moved.
fn is_given(world: &mut PlainWorld<'_>, octets: &[u8]) -> bool
    requires calls { world.old.calls + 1 < 2 ^ 64 }
    requires failures { world.old.failures + 1 < 2 ^ 64 }
    ensures calls { world.new.calls ≡ world.old.calls + 1 }
    ensures failures { world.new.failures ≤ world.old.failures + 1 }
{
    let next = world.next(&[], &[]);
    matches!(&next, Ok(Next::Happened(Event::Client(piece))) if piece.as_slice() == octets)
        && world.take_moved()
        && !world.take_moved()
}

/// Of two worlds that were told of nothing as yet, octets come to the first one's client. The
/// answer is whether they come of that world alone, once it is told.
fn is_told_alone(
    reactor: &mut Reactor,
    one: &mut PlainWorld<'_>,
    other: &mut PlainWorld<'_>,
    octets: &[u8],
) -> Result<bool, Fail>
    requires calls { (one.old.calls + 3 < 2 ^ 64) × (other.old.calls + 3 < 2 ^ 64) }
    requires failures { (one.old.failures + 3 < 2 ^ 64) × (other.old.failures + 3 < 2 ^ 64) }
{
    // Nothing was reported to either as yet, and neither waits.
    let before = [came_and_quiet(one), came_and_quiet(other)];
    let others = tell(reactor, one, other)?;
    let are_quiet = [one.is_quiet(), other.is_quiet()];
    let is_given = is_given(one, octets) && !other.take_moved();
    let behind = [came_and_quiet(one), came_and_quiet(other)];
    let nothing = [(Came::Nothing, true); 2];
    Ok(is_given && others == 0 && are_quiet == [false, true] && [before, behind] == [nothing; 2])
}

/// What a client sends is told of its world alone.
fn assert_told_alone(
    rt: &impl Abort,
    reactor: &mut Reactor,
    client: &mut TcpStream,
    one: &mut PlainWorld<'_>,
    other: &mut PlainWorld<'_>,
) -> Result<(), Fail>
    requires calls { (one.old.calls + 3 < 2 ^ 64) × (other.old.calls + 3 < 2 ^ 64) }
    requires failures { (one.old.failures + 3 < 2 ^ 64) × (other.old.failures + 3 < 2 ^ 64) }
{
    client.write_all(b"abc")?;
    assert!(rt; is_told_alone(reactor, one, other, b"abc")?);
    Ok(())
}

#[test]
fn each_world_is_told_what_is_its_own(rt: HostRuntime) -> Result<(), Fail> {
    let mut reactor = Reactor::new(rt.alloc(), &rt)?;
    let sources = reactor.sources()?;
    let (mut first, mut one) = under(&rt, &[], &sources, 1)?;
    let (_second, mut other) = under(&rt, &[], &sources, 2)?;
    assert_told_alone(&rt, &mut reactor, &mut first, &mut one, &mut other)
}

/// Behind what a client sent comes its end, once it is given up.
fn assert_given_up(
    rt: &impl Abort,
    reactor: &mut Reactor,
    client: &mut TcpStream,
    one: &mut PlainWorld<'_>,
    other: &mut PlainWorld<'_>,
) -> Result<(), Fail>
    requires calls { one.old.calls + 3 < 2 ^ 64 }
    requires failures { one.old.failures + 3 < 2 ^ 64 }
{
    client.write_all(b"abc")?;
    one.end_client()?;
    let others = tell(reactor, one, other)?;
    let came = [
        came_next(one, &[], &[]),
        came_next(one, &[], &[]),
        came_next(one, &[], &[]),
    ];
    let wanted = [Came::Client, Came::ClientEnd, Came::Nothing];
    assert_eq!(rt; (others, came), (0, wanted));
    Ok(())
}

#[test]
fn a_client_that_is_given_up_ends(rt: HostRuntime) -> Result<(), Fail> {
    let mut reactor = Reactor::new(rt.alloc(), &rt)?;
    let sources = reactor.sources()?;
    let (mut first, mut one) = under(&rt, &[], &sources, 1)?;
    let (_second, mut other) = under(&rt, &[], &sources, 2)?;
    assert_given_up(&rt, &mut reactor, &mut first, &mut one, &mut other)
}

/// Goes on leaving a client until it is left, in 100,000 rounds at most, while its other end reads,
/// and then ends too. The answer is how many rounds that took.
fn leave(
    rt: &HostRuntime,
    reactor: &mut Reactor,
    sources: &Registry,
    departure: &mut Departure<mio::net::TcpStream>,
    far: &mut TcpStream,
    read: &mut Vec<u8>,
) -> Result<u32, Fail> {
    let mut buffer = Buffer::new(rt.alloc());
    let mut has_ended = false;
    for round in 0u32..100_000 {
        if departure
            .go_on(rt.alloc(), Instant::now(rt)?, sources, &mut buffer)?
            .is_none()
        {
            return Ok(round);
        }
        if !has_ended && read_on(far, read)? {
            far.shutdown(Shutdown::Write)?;
            has_ended = true;
        }
        reactor.wait(Some(Duration::from_millis(1)))?;
        for report in reactor.reports() {
            departure.hear(report);
        }
    }
    Err(Fail::new("the client is there still"))
}

/// Reads what is there of a socket that doesn't wait. The answer is whether its end was.
fn read_on(socket: &mut TcpStream, read: &mut Vec<u8>) -> io::Result<bool> {
    let mut room = [0u8; 65536];
    for _ in 0..1_000 {
        match socket.read(&mut room) {
            Ok(0) => return Ok(true),
            Ok(count) => read.extend_from_slice(&room[..count])?,
            Err(error) if error.kind() == ErrorKind::WouldBlock => return Ok(false),
            Err(error) => return Err(error),
        }
    }
    Ok(false)
}

#[test]
fn a_client_is_left_beside_others(rt: HostRuntime) -> Result<(), Fail> {
    let mut reactor = Reactor::new(rt.alloc(), &rt)?;
    let sources = reactor.sources()?;
    let (mut far, mut world) = under(&rt, &[], &sources, 1)?;
    let sent = world.apply(&Output::Client(vec![in rt.alloc(); 7; MANY]?));
    assert_eq!(rt; sent, Ok(()));
    let mut departure = world.leave(Instant::now(&rt)?);
    let mut read = Vec::new(rt.alloc());
    let rounds = leave(
        &rt,
        &mut reactor,
        &sources,
        &mut departure,
        &mut far,
        &mut read,
    )?;
    assert!(rt; rounds > 1);
    assert_eq!(rt; read.len(), MANY);
    Ok(())
}

#[test]
fn a_client_that_is_left_is_waited_for_as_long(rt: HostRuntime) -> Result<(), Fail> {
    let reactor = Reactor::new(rt.alloc(), &rt)?;
    let sources = reactor.sources()?;
    let (_far, world) = under(&rt, &[], &sources, 1)?;
    let mut departure = world.leave(Instant::now(&rt)?);
    let mut buffer = Buffer::new(rt.alloc());
    let most = departure.go_on(rt.alloc(), Instant::now(&rt)?, &sources, &mut buffer)?;
    // Five seconds, since nothing waits for it and it says nothing.
    assert!(rt;
        matches!(most, Some(most) if most > Duration::from_secs(4) && most <= Duration::from_secs(5))
    );
    Ok(())
}
