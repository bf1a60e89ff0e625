//! A client and a server that meet over a world of sockets: all that they send is there at once.

ghost use Rattle.std.specs.Prelude.{◌≡◌, [], ⊤};
ghost use Rattle.gateway.specs.Setups.{setup_of, IsServable};

use crate::peers::{Case, Peers};
use driver::{Next, ServiceEnd, World, WorldFault, serve};
use gateway::{Config, Event, Output, Passing, Route};
use sockets::{Reactor, SocketWorld, Wire};
use std::alloc::{AllocError, Global};
use std::net::{SocketAddr, TcpListener, TcpStream};
use std::process::Abort;
use std::test::*;
use std::time::Duration;

/// What came of a client, or of a connection with this number, but that they took octets.
#[derive(Clone, Copy, Debug, PartialEq, Eq, Drop)]
pub(crate) enum Came {
    Client,
    ClientEnd,
    Up(u32),
    UpEnd(u32),
    UpFailed(u32),
}

/// What came of a world, if something did.
pub(crate) fn came_of(next: &Result<Next, WorldFault>) -> Option<Came> {
    let Ok(Next::Happened(event)) = next else {
        return None;
    };
    match event {
        Event::Client(_) => Some(Came::Client),
        Event::ClientEnd => Some(Came::ClientEnd),
        Event::Up(number, _) => Some(Came::Up(*number)),
        Event::UpEnd(number) => Some(Came::UpEnd(*number)),
        Event::UpFailed(number) => Some(Came::UpFailed(*number)),
        Event::ClientTook(_) | Event::UpTook(_, _) | Event::Drain => None,
    }
}

/// A world of sockets whose client and server do before each `next` what they can.
#[derive(Drop)]
struct Meeting<'a, S> {
    world: SocketWorld<'a, HostRuntime, S>,
    /// What tells it of reports, unless it has a poll of its own.
    reactor: Option<Reactor>,
    peers: Peers,
    seen: Sight,
}

/// What was seen of a world.
#[derive(Drop)]
struct Sight {
    /// What came, in order.
    came: Vec<Came>,
    /// An upstream took octets. All that had come of the client was read before that was told.
    is_taken: bool,
}

impl Sight {
    /// Notes what came.
    fn note(&mut self, next: &Result<Next, WorldFault>) {
        if let Some(came) = came_of(next) {
            let _ = self.came.push(came);
        }
        if let Ok(Next::Happened(Event::UpTook(_, _))) = next {
            self.is_taken = true;
        }
    }
}

/// Waits a little, and tells a world what was reported for its sockets.
fn tell<S: Wire>(
    reactor: &mut Reactor,
    world: &mut SocketWorld<'_, HostRuntime, S>,
) -> Result<(), WorldFault>
    ensures { (world.new.calls ≡ world.old.calls) × (world.new.failures ≡ world.old.failures) }
{
    reactor.wait(Some(Duration::from_millis(5)))?;
    for report in reactor.reports() {
        world.hear(report)?;
    }
    world.catch_up();
    Ok(())
}

/// Tells a world what was reported, if something tells it.
pub(crate) fn tell_if<S: Wire>(
    reactor: &mut Option<Reactor>,
    world: &mut SocketWorld<'_, HostRuntime, S>,
)
    ensures { (world.new.calls ≡ world.old.calls) × (world.new.failures ≡ world.old.failures) }
{
    if let Some(reactor) = reactor {
        let _ = tell(reactor, world);
    }
}

impl<S: Wire> World for Meeting<'_, S> {
    ghost use Rattle.std.specs.Prelude.{None, false, true, ⊤};

    ghost calls = { λ w. w.world.calls };

    ghost failures = { λ w. w.world.failures };

    ghost over = { λ _. false };

    ghost log = { λ _. None };

    ghost handed = { λ _. None };

    ghost keeps_rooms = { λ _. true };

    ghost moves = { λ _ _ _. ⊤ };

    ghost hears_idle_first = { λ _. ⊥ };

    ghost could_read = { λ _ _. true };

    ghost looks = { λ _. 0 };

    ghost heard_at = { λ _. 0 };

    fn next(&mut self, rooms: &[(u32, usize)], idle: &[u32]) -> Result<Next, WorldFault> {
        self.peers.go_on(self.seen.is_taken);
        tell_if(&mut self.reactor, &mut self.world);
        let next = self.world.next(rooms, idle);
        self.seen.note(&next);
        next
    }

    fn apply(&mut self, output: &Output) -> Result<(), WorldFault> {
        self.world.apply(output)
    }
}

/// A route for requests of this authority.
pub(crate) fn route_of(alloc: Global, authority: &[u8]) -> Result<Route, AllocError> {
    Ok(Route {
        authority: Vec::from_slice(alloc, authority)?,
        prefix: Vec::from_slice(alloc, b"/")?,
        upstream: String::new(alloc),
    })
}

/// A configuration without a route, whose connections are kept.
pub(crate) fn config_of(alloc: Global, passing: Passing) -> Config
    ensures servable { IsServable (setup_of result) }
    ensures routes { result.routes.items ≡ [] }
{
    Config {
        passing,
        max_body: 1,
        max_response: 200_000,
        keep: true,
        ..Config::new(Vec::new(alloc))
    }
}

/// How serving ended, what became of the peers, and what came.
#[derive(Drop)]
pub(crate) struct Seen {
    ended: Option<ServiceEnd>,
    peers: Peers,
    pub(crate) came: Vec<Came>,
}

/// Serves these peers by a world that wasn't asked for anything yet.
fn serve_world<S: Wire>(
    alloc: Global,
    passing: Passing,
    world: SocketWorld<'_, HostRuntime, S>,
    reactor: Option<Reactor>,
    peers: Peers,
) -> Result<Seen, Fail>
    requires { (world.calls ≡ 0) × (world.failures ≡ 0) }
{
    let mut config = config_of(alloc, passing);
    config.routes.push(route_of(alloc, b"")?)?;
    let seen = Sight {
        came: Vec::new(alloc),
        is_taken: false,
    };
    let mut meeting = Meeting {
        world,
        reactor,
        peers,
        seen,
    };
    let ended = serve(alloc, &config, &mut meeting, 2_000).ok();
    let Meeting { peers, seen, .. } = meeting;
    let Sight { came, .. } = seen;
    Ok(Seen { ended, peers, came })
}

/// How a case is tried: with this passing, and in a world under a reactor or in one alone.
#[derive(Clone, Copy, Drop)]
pub(crate) struct Trial {
    pub(crate) passing: Passing,
    pub(crate) is_told: bool,
    pub(crate) case: Case,
}

/// The ends of a client's connection: its own, and the gateway's.
type Ends<S> = (TcpStream, S);

/// Serves a client before a server that listens there, where it is reached at this address.
pub(crate) fn meet<S: Wire>(
    host: &HostRuntime,
    trial: Trial,
    listener: TcpListener,
    address: SocketAddr,
    ends: Ends<S>,
) -> Result<Seen, Fail> {
    let (near, far) = ends;
    let peers = Peers::new(host.alloc(), b'0', trial.case, near, listener)?;
    if trial.is_told {
        meet_told(host, trial.passing, address, far, peers)
    } else {
        meet_alone(host, trial.passing, address, far, peers)
    }
}

/// So in a world with a poll of its own.
fn meet_alone<S: Wire>(
    host: &HostRuntime,
    passing: Passing,
    address: SocketAddr,
    far: S,
    peers: Peers,
) -> Result<Seen, Fail> {
    let addresses = [address];
    let world = SocketWorld::new(host.alloc(), host, &addresses, far)?;
    serve_world(host.alloc(), passing, world, None, peers)
}

/// So in a world under a reactor.
fn meet_told<S: Wire>(
    host: &HostRuntime,
    passing: Passing,
    address: SocketAddr,
    far: S,
    peers: Peers,
) -> Result<Seen, Fail> {
    let addresses = [address];
    let reactor = Reactor::new(host.alloc(), host)?;
    let sources = reactor.sources()?;
    let world = SocketWorld::under(host.alloc(), host, &addresses, &sources, 1, far)?;
    serve_world(host.alloc(), passing, world, Some(reactor), peers)
}

/// The second stream has its own answer, on a connection of its own.
pub(crate) fn assert_right(rt: &impl Abort, trial: &Trial, seen: &Seen) {
    let case = trial.case;
    let body = seen.peers.client.second.as_slice();
    assert_eq!(rt;
        (case.size, case.behind, body),
        (case.size, case.behind, b"right0".as_slice())
    );
    assert_eq!(rt; seen.ended, Some(ServiceEnd::Closed));
    assert!(rt; seen.peers.server.asked > 0);
}
