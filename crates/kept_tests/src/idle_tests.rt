//! A connection to a server that was idle for long ends as if its server had ended it.

ghost use Rattle.std.specs.Prelude.{◌≡◌, ◌+◌, ◌<◌, ◌≤◌, ◌^◌, IfOk, OnOk};

use crate::meeting::{Came, came_of};
use crate::peers::{pair, waiting_listener};
use driver::World;
use gateway::{Output, Text};
use mio::net::TcpStream as Socket;
use sockets::SocketWorld;
use std::alloc::Global;
use std::io;
use std::io::Write;
use std::net::{Ipv4Addr, Shutdown, TcpStream};
use std::test::*;
use std::time::{Clock, Duration, Instant};

/// A world of sockets.
type Sockets<'a> = SocketWorld<'a, HostRuntime, Socket>;

/// A clock that stands at so many seconds.
#[derive(Drop)]
struct Stands(u64);

impl Clock for Stands {
    fn monotonic(&self) -> io::Result<Duration> {
        Ok(Duration::from_secs(self.0))
    }

    fn since_1970(&self) -> io::Result<Duration> {
        Ok(Duration::from_secs(self.0))
    }
}

/// What is done with connection 1.
#[derive(Clone, Copy, Drop)]
enum Deed {
    /// It is noted to be idle, at so many seconds. It may be so for ten.
    Idle(u64),
    /// Octets are put out for it.
    Put,
    /// Its server sends an octet.
    Sent,
}

/// Does that.
fn act(
    alloc: Global,
    world: &mut Sockets<'_>,
    server: &mut TcpStream,
    deed: Deed,
) -> Result<(), Fail>
    requires { world.old.failures + 1 < 2 ^ 64 }
    ensures calls { world.new.calls ≡ world.old.calls }
    ensures failures { world.new.failures ≤ world.old.failures + 1 }
{
    match deed {
        Deed::Idle(at) => {
            let now = Instant::now(&Stands(at))?;
            world.note_idle(&[1], now, Duration::from_secs(10));
        }
        Deed::Put => put(alloc, world)?,
        Deed::Sent => server.write_all(b"u")?,
    }
    Ok(())
}

/// Puts octets out for connection 1.
fn put(alloc: Global, world: &mut Sockets<'_>) -> Result<(), Fail>
    requires { world.old.failures + 1 < 2 ^ 64 }
    ensures calls { world.new.calls ≡ world.old.calls }
    ensures failures { world.new.failures ≤ world.old.failures + 1 }
{
    let octets = Vec::from_slice(alloc, b"put")?;
    world.apply(&Output::Up(1, Text::from_octets(octets)))?;
    Ok(())
}

/// What comes first in two turns, but that octets were taken, where connection 1 is idle.
fn next_of(world: &mut Sockets<'_>) -> Option<Came>
    requires calls { world.old.calls + 2 < 2 ^ 64 }
    requires failures { world.old.failures + 2 < 2 ^ 64 }
{
    let first = came_of(&world.next(&ROOMS, &[1]));
    let second = came_of(&world.next(&ROOMS, &[1]));
    first.or(second)
}

/// There is room for what comes of connection 1.
const ROOMS: [(u32, usize); 1] = [(1, 65536)];

/// What comes first of a world behind these deeds. Its client sent an octet and its end.
fn came_behind(host: &HostRuntime, deeds: [Deed; 3]) -> Result<Option<Came>, Fail> {
    let listener = waiting_listener(host, Ipv4Addr::LOCALHOST)?;
    let addresses = [listener.local_addr()?];
    let (mut client, far) = pair(host)?;
    let mut world = SocketWorld::new(host.alloc(), host, &addresses, far)?;
    world.apply(&Output::Open(1, 0))?;
    let (mut server, _address) = listener.accept()?;
    let [first, second, third] = deeds;
    act(host.alloc(), &mut world, &mut server, first)?;
    act(host.alloc(), &mut world, &mut server, second)?;
    act(host.alloc(), &mut world, &mut server, third)?;
    client.write_all(b"c")?;
    client.shutdown(Shutdown::Write)?;
    Ok(next_of(&mut world))
}

/// What comes behind deeds.
const ROWS: [([Deed; 3], Came); 5] = [
    ([Deed::Idle(5), Deed::Idle(9), Deed::Idle(14)], Came::Client),
    (
        [Deed::Idle(5), Deed::Idle(9), Deed::Idle(15)],
        Came::UpEnd(1),
    ),
    ([Deed::Idle(5), Deed::Put, Deed::Idle(15)], Came::Client),
    ([Deed::Idle(5), Deed::Sent, Deed::Idle(15)], Came::Up(1)),
    ([Deed::Put, Deed::Idle(5), Deed::Idle(20)], Came::UpEnd(1)),
];

#[test]
fn what_was_idle_for_long_ends(rt: HostRuntime) -> Result<(), Fail> {
    for (deeds, wanted) in ROWS {
        assert_eq!(rt; came_behind(&rt, deeds)?, Some(wanted));
    }
    Ok(())
}
