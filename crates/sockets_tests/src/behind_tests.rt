//! A client is read behind connections that their servers ended.

ghost use Rattle.std.specs.Prelude.{◌≡◌, ◌+◌, ◌<◌, ◌^◌, OnOk};

use crate::loopback::waiting_listener;
use crate::worlds::{Came, PlainWorld, alone, came_next, open, under};
use sockets::Reactor;
use std::io::Write;
use std::net::{TcpListener, TcpStream};
use std::process::Abort;
use std::test::*;
use std::time::Duration;
use std::{io, mem};

/// There is room for an upstream's octets.
const ROOMS: [(u32, usize); 1] = [(1, 65536)];

/// There is none for the first upstream's, and some for the second's.
const NO_ROOM: [(u32, usize); 2] = [(1, 0), (2, 65536)];

/// The rooms of connections, and those that are idle.
type Told<'a> = (&'a [(u32, usize)], &'a [u32]);

/// What comes in turn, and whether the client is read behind connections after the first and the
/// second of it.
type Turns = ([Came; 3], [bool; 2]);

/// What comes where the client sends an octet, and then another one while an upstream ends its
/// connection, by these rooms and with these connections idle.
fn turns_around_an_end(
    world: &mut PlainWorld<'_>,
    told: Told<'_>,
    client: &mut TcpStream,
    upstream: TcpStream,
) -> io::Result<Turns>
    requires calls { world.old.calls + 3 < 2 ^ 64 }
    requires failures { world.old.failures + 3 < 2 ^ 64 }
{
    let (rooms, idle) = told;
    client.write_all(b"a")?;
    let first = came_next(world, rooms, idle);
    let is_behind = world.is_behind();
    client.write_all(b"b")?;
    mem::drop(upstream);
    let second = came_next(world, rooms, idle);
    let stays_behind = world.is_behind();
    let third = came_next(world, rooms, idle);
    Ok(([first, second, third], [is_behind, stays_behind]))
}

/// An end that comes behind an octet of the client comes before the next one, and the client is
/// read behind connections until it did.
fn assert_end_comes_first(
    rt: &impl Abort,
    world: &mut PlainWorld<'_>,
    listener: &TcpListener,
    client: &mut TcpStream,
) -> Result<(), Fail>
    requires calls { world.old.calls + 3 < 2 ^ 64 }
    requires failures { world.old.failures + 3 < 2 ^ 64 }
{
    open(world, 1, 0)?;
    let (upstream, _address) = listener.accept()?;
    let turns = turns_around_an_end(world, (&ROOMS, &[1]), client, upstream)?;
    let wanted = [Came::Client, Came::UpEnd(1), Came::Client];
    assert_eq!(rt; turns, (wanted, [true, false]));
    Ok(())
}

#[test]
fn a_connection_that_ended_comes_first(rt: HostRuntime) -> Result<(), Fail> {
    let listener = waiting_listener(&rt)?;
    let addresses = [listener.local_addr()?];
    let (mut client, mut world) = alone(&rt, &addresses)?;
    assert_end_comes_first(&rt, &mut world, &listener, &mut client)
}

/// Opens two connections, and sends an octet on the first: its other end, and that of the second.
fn open_two(
    world: &mut PlainWorld<'_>,
    listener: &TcpListener,
) -> Result<(TcpStream, TcpStream), Fail>
    requires { world.old.failures + 1 < 2 ^ 64 }
    ensures calls { world.new.calls ≡ world.old.calls }
    ensures failures { OnOk result (world.new.failures ≡ world.old.failures) }
{
    open(world, 1, 0)?;
    let (mut first, _address) = listener.accept()?;
    open(world, 2, 0)?;
    let (second, _address) = listener.accept()?;
    first.write_all(b"x")?;
    Ok((first, second))
}

/// The end of a second connection comes before the client's next octet, though the first one has
/// octets and no room.
fn assert_end_is_not_kept_back(
    rt: &impl Abort,
    world: &mut PlainWorld<'_>,
    listener: &TcpListener,
    client: &mut TcpStream,
) -> Result<(), Fail>
    requires calls { world.old.calls + 3 < 2 ^ 64 }
    requires failures { world.old.failures + 3 < 2 ^ 64 }
{
    let (_waits, upstream) = open_two(world, listener)?;
    let (came, _behind) = turns_around_an_end(world, (&NO_ROOM, &[2]), client, upstream)?;
    assert_eq!(rt; came, [Came::Client, Came::UpEnd(2), Came::Client]);
    Ok(())
}

#[test]
fn one_without_room_keeps_no_end_back(rt: HostRuntime) -> Result<(), Fail> {
    let listener = waiting_listener(&rt)?;
    let addresses = [listener.local_addr()?];
    let (mut client, mut world) = alone(&rt, &addresses)?;
    assert_end_is_not_kept_back(&rt, &mut world, &listener, &mut client)
}

/// Waits a little, and tells a world what was reported for its sockets.
fn tell(reactor: &mut Reactor, world: &mut PlainWorld<'_>) -> Result<(), Fail>
    ensures { (world.new.calls ≡ world.old.calls) × (world.new.failures ≡ world.old.failures) }
{
    reactor.wait(Some(Duration::from_millis(50)))?;
    for report in reactor.reports() {
        world.hear(report)?;
    }
    Ok(())
}

/// What comes under a reactor where the client sends an octet, and then another one while an
/// upstream ends its connection.
fn turns_under_a_reactor(
    reactor: &mut Reactor,
    world: &mut PlainWorld<'_>,
    client: &mut TcpStream,
    upstream: TcpStream,
) -> Result<Turns, Fail>
    requires calls { world.old.calls + 3 < 2 ^ 64 }
    requires failures { world.old.failures + 3 < 2 ^ 64 }
{
    client.write_all(b"a")?;
    tell(reactor, world)?;
    let first = came_next(world, &ROOMS, &[1]);
    let is_behind = world.is_behind();
    client.write_all(b"b")?;
    mem::drop(upstream);
    tell(reactor, world)?;
    world.catch_up();
    let stays_behind = world.is_behind();
    let second = came_next(world, &ROOMS, &[1]);
    let third = came_next(world, &ROOMS, &[1]);
    Ok(([first, second, third], [is_behind, stays_behind]))
}

/// The same as without a reactor, where the world is told before each turn.
fn assert_end_comes_first_as_told(
    rt: &impl Abort,
    reactor: &mut Reactor,
    world: &mut PlainWorld<'_>,
    listener: &TcpListener,
    client: &mut TcpStream,
) -> Result<(), Fail>
    requires calls { world.old.calls + 3 < 2 ^ 64 }
    requires failures { world.old.failures + 3 < 2 ^ 64 }
{
    open(world, 1, 0)?;
    let (upstream, _address) = listener.accept()?;
    let turns = turns_under_a_reactor(reactor, world, client, upstream)?;
    let wanted = [Came::Client, Came::UpEnd(1), Came::Client];
    assert_eq!(rt; turns, (wanted, [true, false]));
    Ok(())
}

#[test]
fn a_connection_that_ended_comes_first_under_a_reactor(rt: HostRuntime) -> Result<(), Fail> {
    let listener = waiting_listener(&rt)?;
    let addresses = [listener.local_addr()?];
    let mut reactor = Reactor::new(rt.alloc(), &rt)?;
    let sources = reactor.sources()?;
    let (mut client, mut world) = under(&rt, &addresses, &sources, 1)?;
    assert_end_comes_first_as_told(&rt, &mut reactor, &mut world, &listener, &mut client)
}
