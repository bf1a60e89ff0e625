//! An idle connection whose reads go wrong is heard before the client too, and one that isn't idle
//! holds the client back in no way.

ghost use Rattle.std.specs.Prelude.{◌≡◌, ◌+◌, ◌<◌, ◌≤◌, ◌^◌, IfOk, OnOk};

use crate::faults::{Faulty, SOUND};
use crate::meeting::{Came, Trial, assert_right, came_of, meet, tell_if};
use crate::peers::{ALL, Behind, Case, pair, quiet_listener, waiting_listener};
use driver::World;
use gateway::{Output, Passing};
use mio::Registry;
use sockets::{Reactor, SocketWorld};
use std::io;
use std::io::Write;
use std::net::{Ipv4Addr, SocketAddr, TcpListener, TcpStream};
use std::process::Abort;
use std::test::*;

/// A world whose upstreams may go wrong.
type FaultyWorld<'a> = SocketWorld<'a, HostRuntime, Faulty>;

/// What comes of connection 1 between its response and the client's second request, by the fault at
/// each place but of one that would block: nothing is known then of what comes later.
const BETWEEN: [(u8, Came); 5] = [
    (0, Came::UpFailed(1)),
    (1, Came::UpFailed(1)),
    (2, Came::Up(1)),
    (4, Came::UpEnd(1)),
    (5, Came::Up(1)),
];

/// The gateway hears that, and then the second request, which is answered on a connection of its own.
fn assert_heard_first(
    rt: &impl Abort,
    host: &HostRuntime,
    place: u8,
    came: Came,
    trial: Trial,
) -> Result<(), Fail> {
    let listener = quiet_listener(host, Ipv4Addr::UNSPECIFIED)?;
    let address = Faulty::address(place, listener.local_addr()?.port());
    let (near, far) = pair(host)?;
    let seen = meet(host, trial, listener, address, (near, Faulty::client(far)))?;
    let wanted = [
        Came::Client,
        Came::Up(1),
        came,
        Came::Client,
        Came::Up(2),
        Came::ClientEnd,
    ];
    assert_eq!(rt; (place, seen.came.as_slice()), (place, wanted.as_slice()));
    assert_right(rt, &trial, &seen);
    Ok(())
}

#[test]
fn a_request_is_read_behind_what_goes_wrong(rt: HostRuntime) -> Result<(), Fail> {
    let case = Case {
        size: SOUND,
        window: ALL,
        behind: Behind::Response,
    };
    for (place, came) in BETWEEN {
        for passing in [Passing::Whole, Passing::Streaming] {
            for is_told in [false, true] {
                let trial = Trial {
                    passing,
                    is_told,
                    case,
                };
                assert_heard_first(&rt, &rt, place, came, trial)?;
            }
        }
    }
    Ok(())
}

/// There is room for what comes of two connections.
const ROOMS: [(u32, usize); 2] = [(1, 65536), (2, 10)];

/// What comes of a world whose client sent an octet, where these connections are idle.
fn turn(world: &mut FaultyWorld<'_>, client: &mut TcpStream, idle: &[u32]) -> Option<Came>
    requires calls { world.old.calls + 1 < 2 ^ 64 }
    requires failures { world.old.failures + 1 < 2 ^ 64 }
    ensures calls { world.new.calls ≡ world.old.calls + 1 }
    ensures failures { world.new.failures ≤ world.old.failures + 1 }
{
    let _ = client.write_all(b"c");
    let next = world.next(&ROOMS, idle);
    came_of(&next)
}

/// The same where it is told before what was reported, if something tells it.
fn told_turn(
    world: &mut FaultyWorld<'_>,
    reactor: &mut Option<Reactor>,
    client: &mut TcpStream,
    idle: &[u32],
) -> Option<Came>
    requires calls { world.old.calls + 1 < 2 ^ 64 }
    requires failures { world.old.failures + 1 < 2 ^ 64 }
    ensures calls { world.new.calls ≡ world.old.calls + 1 }
    ensures failures { world.new.failures ≤ world.old.failures + 1 }
{
    let _ = client.write_all(b"c");
    tell_if(reactor, world);
    turn(world, client, idle)
}

/// What comes in three turns and in three more.
type Turns = [[Option<Came>; 3]; 2];

/// What comes where connection 1 is idle from the second turn on. Its upstream sends at first a
/// response with more behind it, and an octet behind the third turn.
fn turns_of_idle(
    world: &mut FaultyWorld<'_>,
    reactor: &mut Option<Reactor>,
    client: &mut TcpStream,
    upstream: &mut TcpStream,
) -> io::Result<Turns>
    requires calls { world.old.calls + 6 < 2 ^ 64 }
    requires failures { world.old.failures + 6 < 2 ^ 64 }
{
    upstream.write_all(&[b'u'; SOUND + 5])?;
    let first = [
        told_turn(world, reactor, client, &[]),
        told_turn(world, reactor, client, &[1]),
        told_turn(world, reactor, client, &[1]),
    ];
    // Nobody takes that where the connection is gone.
    let _ = upstream.write_all(b"u");
    let second = [
        told_turn(world, reactor, client, &[1]),
        told_turn(world, reactor, client, &[1]),
        told_turn(world, reactor, client, &[1]),
    ];
    Ok([first, second])
}

const CLIENT: Option<Came> = Some(Came::Client);

const UP: Option<Came> = Some(Came::Up(1));

const FAILED: Option<Came> = Some(Came::UpFailed(1));

const END: Option<Came> = Some(Came::UpEnd(1));

/// What comes in these turns by the fault at each place: all that can be known of connection 1 comes
/// before the client. Where a read would block there is nothing to be known until more is sent.
const TURNS: [(u8, Turns); 6] = [
    (0, [[UP, FAILED, CLIENT], [CLIENT; 3]]),
    (1, [[UP, FAILED, CLIENT], [CLIENT; 3]]),
    (2, [[UP, UP, CLIENT], [UP, CLIENT, CLIENT]]),
    (3, [[UP, CLIENT, CLIENT], [UP, CLIENT, CLIENT]]),
    (4, [[UP, END, CLIENT], [CLIENT; 3]]),
    (5, [[UP; 3], [UP, FAILED, CLIENT]]),
];

/// A world of a client's socket, by these sources, or with a poll of its own.
fn world_of<'a>(
    host: &'a HostRuntime,
    addresses: &'a [SocketAddr],
    sources: Option<&'a Registry>,
    far: Faulty,
) -> io::Result<FaultyWorld<'a>>
    ensures { IfOk result (λ world. (world.calls ≡ 0) × (world.failures ≡ 0)) }
{
    match sources {
        Some(sources) => SocketWorld::under(host.alloc(), host, addresses, sources, 1, far),
        None => SocketWorld::new(host.alloc(), host, addresses, far),
    }
}

/// A client and its world.
fn begin<'a>(
    host: &'a HostRuntime,
    addresses: &'a [SocketAddr],
    sources: Option<&'a Registry>,
) -> io::Result<(TcpStream, FaultyWorld<'a>)>
    ensures { IfOk result (λ both. (both.1.calls ≡ 0) × (both.1.failures ≡ 0)) }
{
    let (client, far) = pair(host)?;
    let world = world_of(host, addresses, sources, Faulty::client(far))?;
    Ok((client, world))
}

/// Opens a connection to the upstream of the only route: its other end.
fn open(world: &mut FaultyWorld<'_>, listener: &TcpListener, number: u32) -> Result<TcpStream, Fail>
    requires { world.old.failures + 1 < 2 ^ 64 }
    ensures calls { world.new.calls ≡ world.old.calls }
    ensures failures { OnOk result (world.new.failures ≡ world.old.failures) }
{
    world.apply(&Output::Open(number, 0))?;
    let (upstream, _address) = listener.accept()?;
    Ok(upstream)
}

/// These turns come by the fault at this place, of a world by these sources or of one alone.
fn assert_turns(
    rt: &impl Abort,
    host: &HostRuntime,
    sources: Option<&Registry>,
    reactor: &mut Option<Reactor>,
    row: (u8, Turns),
) -> Result<(), Fail> {
    let (place, wanted) = row;
    let listener = waiting_listener(host, Ipv4Addr::UNSPECIFIED)?;
    let addresses = [Faulty::address(place, listener.local_addr()?.port())];
    let (mut client, mut world) = begin(host, &addresses, sources)?;
    let mut upstream = open(&mut world, &listener, 1)?;
    let came = turns_of_idle(&mut world, reactor, &mut client, &mut upstream)?;
    assert_eq!(rt; (place, came), (place, wanted));
    Ok(())
}

#[test]
fn an_idle_one_is_heard_to_its_end(rt: HostRuntime) -> Result<(), Fail> {
    for row in TURNS {
        assert_turns(&rt, &rt, None, &mut None, row)?;
        let reactor = Reactor::new(rt.alloc(), &rt)?;
        let sources = reactor.sources()?;
        assert_turns(&rt, &rt, Some(&sources), &mut Some(reactor), row)?;
    }
    Ok(())
}

/// What comes where connection 1 is idle and says nothing, and connection 2 isn't, and has octets
/// for more than six turns.
fn turns_beside_busy(
    world: &mut FaultyWorld<'_>,
    client: &mut TcpStream,
    upstream: &mut TcpStream,
) -> io::Result<Turns>
    requires calls { world.old.calls + 6 < 2 ^ 64 }
    requires failures { world.old.failures + 6 < 2 ^ 64 }
{
    upstream.write_all(&[b'u'; 100])?;
    let first = [
        turn(world, client, &[1]),
        turn(world, client, &[1]),
        turn(world, client, &[1]),
    ];
    let second = [
        turn(world, client, &[1]),
        turn(world, client, &[1]),
        turn(world, client, &[1]),
    ];
    Ok([first, second])
}

#[test]
fn a_busy_one_holds_nobody_back(rt: HostRuntime) -> Result<(), Fail> {
    let listener = waiting_listener(&rt, Ipv4Addr::LOCALHOST)?;
    let addresses = [listener.local_addr()?];
    let (mut client, mut world) = begin(&rt, &addresses, None)?;
    let _idle = open(&mut world, &listener, 1)?;
    let mut busy = open(&mut world, &listener, 2)?;
    let came = turns_beside_busy(&mut world, &mut client, &mut busy)?;
    let busy = Some(Came::Up(2));
    assert_eq!(rt; came, [[busy, CLIENT, busy], [CLIENT, busy, CLIENT]]);
    Ok(())
}
