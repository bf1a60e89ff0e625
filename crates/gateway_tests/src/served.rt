//! Serving over a world in memory.

ghost use Rattle.std.specs.Prelude.{◌≡◌, IfOk};
ghost use Rattle.gateway.specs.Setups.{setup_of, IsServable};

use driver::{
    HandedCall, MemoryWorld, Next, Peer, ServeFault, Service, ServiceEnd, World, WorldFault, serve,
};
use gateway::{Config, Event, Output, Route};
use std::alloc::{AllocError, Global};
use std::io;
use std::io::Write;
use std::process::Abort;
use std::test::*;

/// The preface, settings without entries, and a GET without a body on stream 1.
const REQUEST: &[u8] =
    b"PRI * HTTP/2.0\r\n\r\nSM\r\n\r\n\0\0\0\x04\0\0\0\0\0\0\0\x14\x01\x05\0\0\0\x01\x82\x86\x84\x41\x0fwww.example.com";

/// What is put out for it: the gateway's settings and the acknowledgement of the client's, and the
/// request's text on a new connection.
const FORWARDED: &[u8] =
    b"\nC \0\0\x0c\x04\0\0\0\0\0\0\x03\0\0\0\x64\0\x06\0\0\x40\0\0\0\0\x04\x01\0\0\0\0\nO 1 0\nU 1 GET / HTTP/1.1\r\nhost: www.example.com\r\nvia: 2.0 h2gw\r\nconnection: close\r\n\r\n";

/// A response, and what is put out for it: its connection is closed, and its frames go back.
const ANSWER: &[u8] = b"HTTP/1.1 200 OK\r\nContent-Length: 2\r\n\r\nhi";

const FRAMES: &[u8] =
    b"\nX 1\nC \0\0\x05\x01\x04\0\0\0\x01\x88\x0f\x0d\x01\x32\0\0\x02\0\x01\0\0\0\x01hi";

/// A world in which the client goes at a turn, and nothing else comes.
#[derive(Drop)]
struct Quiet {
    goes_at: u64,
    turn: u64,
    over: bool,
    applied: u64,
}

impl World for Quiet {
    ghost use Rattle.std.specs.Prelude.{None, true, ⊤};

    ghost calls = { λ world. world.turn };

    ghost failures = { λ _. 0 };

    ghost over = { λ world. world.over };

    ghost log = { λ _. None };

    ghost handed = { λ _. None };

    ghost keeps_rooms = { λ _. true };

    ghost moves = { λ _ _ _. ⊤ };

    ghost hears_idle_first = { λ _. ⊥ };

    ghost could_read = { λ _ _. true };

    ghost looks = { λ _. 0 };

    ghost heard_at = { λ _. 0 };

    fn next(&mut self, _rooms: &[(u32, usize)], _idle: &[u32]) -> Result<Next, WorldFault> {
        let turn = self.turn;
        self.turn += 1;
        self.over = turn > self.goes_at;
        if self.over {
            return Ok(Next::Over);
        }
        if turn == self.goes_at {
            return Ok(Next::Happened(Event::ClientEnd));
        }
        Ok(Next::Nothing)
    }

    fn apply(&mut self, _output: &Output) -> Result<(), WorldFault> {
        self.applied = self.applied.saturating_add(1);
        Ok(())
    }
}

/// A world in which the client goes at this turn.
fn leaving_at(goes_at: u64) -> Quiet
    ensures { result.turn ≡ 0 }
{
    Quiet {
        goes_at,
        turn: 0,
        over: false,
        applied: 0,
    }
}

/// A configuration without routes.
fn no_routes(alloc: Global) -> Config
    ensures { IsServable (setup_of result) }
{
    Config {
        max_body: 1,
        max_response: 1,
        ..Config::new(Vec::new(alloc))
    }
}

#[test]
fn turns_are_taken(rt: HostRuntime) -> Result<(), Fail> {
    let mut world = leaving_at(9);
    let ended = serve(rt.alloc(), &no_routes(rt.alloc()), &mut world, 5);
    assert_eq!(rt; ended, Ok(ServiceEnd::Turns));
    assert_eq!(rt; world.turn, 5);
    assert_eq!(rt; world.applied, 0);
    Ok(())
}

#[test]
fn the_client_is_closed(rt: HostRuntime) -> Result<(), Fail> {
    let mut world = leaving_at(2);
    let ended = serve(rt.alloc(), &no_routes(rt.alloc()), &mut world, 5);
    assert_eq!(rt; ended, Ok(ServiceEnd::Closed));
    assert_eq!(rt; world.turn, 3);
    assert_eq!(rt; world.applied, 2);
    Ok(())
}

/// A service takes a turn in a world that had fewer than a hundred; another world counts as one that fails.
fn turn(service: &mut Service, world: &mut Quiet) -> Result<Option<ServiceEnd>, ServeFault> {
    if world.turn >= 100 {
        return Err(ServeFault::World);
    }
    service.take_turn(world)
}

/// Of two services that took no turn the world of the second ends, at its second turn.
fn assert_take_turns(rt: &impl Abort, stays: &mut Service, goes: &mut Service) {
    let (mut one, mut other) = (leaving_at(9), leaving_at(1));
    let answers = [
        turn(stays, &mut one),
        turn(goes, &mut other),
        turn(goes, &mut other),
        turn(stays, &mut one),
        // Behind its end a service answers as it did, and its world isn't asked.
        turn(goes, &mut other),
    ];
    let closed = Ok(Some(ServiceEnd::Closed));
    assert_eq!(rt; answers, [Ok(None), Ok(None), closed, Ok(None), closed]);
    assert_eq!(rt; (one.turn, other.turn), (2, 2));
}

/// The same of a service that took no turn, and one that begins here.
fn assert_take_turns_beside(
    rt: &impl Abort,
    alloc: Global,
    stays: &mut Service,
) -> Result<(), AllocError> {
    let mut goes = Service::new(alloc, &no_routes(alloc))?;
    assert_take_turns(rt, stays, &mut goes);
    Ok(())
}

/// Two services that begin here take their turns.
fn assert_both_take_turns(rt: &impl Abort, alloc: Global) -> Result<(), AllocError> {
    let mut stays = Service::new(alloc, &no_routes(alloc))?;
    assert_take_turns_beside(rt, alloc, &mut stays)
}

#[test]
fn services_take_their_turns_beside_others(rt: HostRuntime) -> Result<(), Fail> {
    assert_both_take_turns(&rt, rt.alloc())?;
    Ok(())
}

/// What a service answers in its turns whose world failed before the first.
fn turns_behind_a_failure(
    alloc: Global,
    world: &mut Quiet,
) -> Result<[Result<Option<ServiceEnd>, ServeFault>; 2], AllocError> {
    let mut service = Service::new(alloc, &no_routes(alloc))?;
    service.fail();
    Ok([turn(&mut service, world), turn(&mut service, world)])
}

#[test]
fn a_world_that_fails_between_turns_ends_serving_it(rt: HostRuntime) -> Result<(), Fail> {
    let mut world = leaving_at(1);
    let answers = turns_behind_a_failure(rt.alloc(), &mut world)?;
    assert_eq!(rt; answers, [Err(ServeFault::World), Err(ServeFault::World)]);
    assert_eq!(rt; world.turn, 0);
    Ok(())
}

/// A configuration with one route, for each request.
fn one_route(alloc: Global) -> Result<Config, AllocError>
    ensures { IfOk result (λ config. IsServable (setup_of config)) }
{
    let route = Route {
        authority: Vec::new(alloc),
        prefix: Vec::from_slice(alloc, b"/")?,
        upstream: String::new(alloc),
    };
    Ok(Config {
        max_body: 1000,
        max_response: 2000,
        ..Config::new(vec![in alloc; route]?)
    })
}

/// The client sends the request, and the first upstream these pieces.
fn exchange(alloc: Global, pieces: &[&[u8]]) -> Result<Vec<Event>, AllocError> {
    let mut events = Vec::new(alloc);
    events.push(Event::Client(Vec::from_slice(alloc, REQUEST)?))?;
    for piece in pieces {
        events.push(Event::Up(1, Vec::from_slice(alloc, piece)?))?;
    }
    Ok(events)
}

/// How many streams a service counts once it took what comes next in this world.
fn opened_in_turn(alloc: Global, config: &Config, world: &mut MemoryWorld) -> Result<u32, Fail>
    requires begins { (world.old.calls ≡ 0) × (world.old.failures ≡ 0) }
    requires servable { IsServable (setup_of config.now) }
{
    let mut service = Service::new(alloc, config)?;
    if service.take_turn(world) != Ok(None) {
        return Err("the service ended".into());
    }
    Ok(service.opened())
}

#[test]
fn a_service_counts_opened_streams(rt: HostRuntime) -> Result<(), Fail> {
    let config = one_route(rt.alloc())?;
    let mut world = MemoryWorld::new(rt.alloc(), exchange(rt.alloc(), &[])?, None);
    assert_eq!(rt; opened_in_turn(rt.alloc(), &config, &mut world)?, 1);
    Ok(())
}

/// Writes an output on a line.
fn write_output(output: &Output, text: &mut Vec<u8>) -> io::Result<()> {
    match output {
        Output::Client(octets) => {
            write!(text, "\nC ")?;
            text.extend_from_slice(octets)?;
        }
        Output::Open(k, route) => write!(text, "\nO {k} {route}")?,
        Output::Up(k, octets) => {
            write!(text, "\nU {k} ")?;
            text.extend_from_slice(octets.as_slice())?;
        }
        Output::Close(k) => write!(text, "\nX {k}")?,
        Output::CloseClient => write!(text, "\nXC")?,
    }
    Ok(())
}

/// What was put out for all events, a line for each output.
fn text_of(alloc: Global, log: &[(Event, Vec<Output>)]) -> io::Result<Vec<u8>> {
    let mut text = Vec::new(alloc);
    for (_event, outputs) in log {
        for output in outputs {
            write_output(output, &mut text)?;
        }
    }
    Ok(text)
}

/// Writes an event on a line.
fn write_event(event: &Event, text: &mut Vec<u8>) -> io::Result<()> {
    match event {
        Event::Client(octets) => {
            write!(text, "\nc ")?;
            text.extend_from_slice(octets)?;
        }
        Event::ClientEnd => write!(text, "\nce")?,
        Event::ClientTook(count) => write!(text, "\nct {count}")?,
        Event::Up(k, octets) => {
            write!(text, "\nu {k} ")?;
            text.extend_from_slice(octets)?;
        }
        Event::UpEnd(k) => write!(text, "\nue {k}")?,
        Event::UpFailed(k) => write!(text, "\nuf {k}")?,
        Event::UpTook(k, count) => write!(text, "\nut {k} {count}")?,
        Event::Drain => write!(text, "\nd")?,
    }
    Ok(())
}

/// A log, a line for each event and each output.
fn log_text(alloc: Global, log: &[(Event, Vec<Output>)]) -> io::Result<Vec<u8>> {
    let mut text = Vec::new(alloc);
    for (event, outputs) in log {
        write_event(event, &mut text)?;
        for output in outputs {
            write_output(output, &mut text)?;
        }
    }
    Ok(text)
}

/// How serving a world, of which nothing was asked yet, by one route ends, within nine turns.
fn served_world(
    alloc: Global,
    world: &mut MemoryWorld,
) -> Result<Result<ServiceEnd, ServeFault>, AllocError>
    requires { (world.old.calls ≡ 0) × (world.old.failures ≡ 0) }
{
    let config = one_route(alloc)?;
    Ok(serve(alloc, &config, world, 9))
}

/// How serving a world that gives these events ends, and what is put out.
fn served(
    alloc: Global,
    events: Vec<Event>,
) -> Result<(Result<ServiceEnd, ServeFault>, Vec<u8>), Fail> {
    let mut world = MemoryWorld::new(alloc, events, None);
    let ended = served_world(alloc, &mut world)?;
    Ok((ended, text_of(alloc, world.log())?))
}

/// What is handed at each turn of an exchange: how many events had come, and the rooms.
static HANDED: [(usize, &[(u32, usize)]); 3] = [(0, &[]), (1, &[(1, 65536)]), (2, &[])];

/// Just that was handed.
fn assert_handed(rt: &impl Abort, handed: &[HandedCall]) {
    assert_eq!(rt; handed.len(), HANDED.len());
    for ((steps, rooms, idle), (wanted_steps, wanted_rooms)) in handed.iter().zip(&HANDED) {
        assert_eq!(rt; *steps, *wanted_steps);
        assert_eq!(rt; rooms.as_slice(), *wanted_rooms);
        assert!(rt; idle.is_empty());
    }
}

#[test]
fn each_turn_is_handed_the_open_connections(rt: HostRuntime) -> Result<(), Fail> {
    let alloc = rt.alloc();
    let mut world = MemoryWorld::new(alloc, exchange(alloc, &[ANSWER])?, None);
    assert_eq!(rt; served_world(alloc, &mut world)?, Ok(ServiceEnd::Over));
    assert_handed(&rt, world.handed());
    Ok(())
}

#[test]
fn an_event_that_may_not_come_is_left_alone(rt: HostRuntime) -> Result<(), Fail> {
    let alloc = rt.alloc();
    let mut events = exchange(alloc, &[ANSWER])?;
    events.push(Event::UpEnd(1))?;
    let (ended, text) = served(alloc, events)?;
    assert_eq!(rt; ended, Err(ServeFault::NotAdmitted(Peer::Upstream(1))));
    let (first, rest) = text.split_at(FORWARDED.len().min(text.len()));
    assert_eq!(rt; first, FORWARDED);
    assert_eq!(rt; rest, FRAMES);
    Ok(())
}

/// The calls of a world that gives the request and a response: three of `next`, and five of `apply`.
const CALLS: u64 = 8;

/// How serving a world that gives the request and a response ends, where its call with this number fails, and its log.
fn served_failing(
    alloc: Global,
    fail_at: u64,
) -> Result<(Result<ServiceEnd, ServeFault>, Vec<u8>), Fail> {
    let mut world = MemoryWorld::new(alloc, exchange(alloc, &[ANSWER])?, Some(fail_at));
    let ended = served_world(alloc, &mut world)?;
    Ok((ended, log_text(alloc, world.log())?))
}

/// The log of the request, a response, and what is put out for them.
fn whole_log(alloc: Global) -> Result<Vec<u8>, AllocError> {
    let mut text = Vec::new(alloc);
    for part in [b"\nc ", REQUEST, FORWARDED, b"\nu 1 ", ANSWER, FRAMES] {
        text.extend_from_slice(part)?;
    }
    Ok(text)
}

/// Where the call with this number fails, a front of the whole log stands there; all of it where it
/// is the last, which would have said that nothing comes any more.
fn assert_fails(rt: &impl Abort, alloc: Global, fail_at: u64, whole: &[u8]) -> Result<(), Fail> {
    let (ended, text) = served_failing(alloc, fail_at)?;
    assert_eq!(rt; ended, Err(ServeFault::World));
    assert!(rt; whole.starts_with(&text));
    assert_eq!(rt; text.len() == whole.len(), fail_at == CALLS - 1);
    Ok(())
}

#[test]
fn each_call_fails_in_turn(rt: HostRuntime) -> Result<(), Fail> {
    let whole = whole_log(rt.alloc())?;
    for fail_at in 0..CALLS {
        assert_fails(&rt, rt.alloc(), fail_at, &whole)?;
    }
    Ok(())
}

#[test]
fn no_call_fails(rt: HostRuntime) -> Result<(), Fail> {
    let (ended, text) = served_failing(rt.alloc(), CALLS)?;
    assert_eq!(rt; ended, Ok(ServiceEnd::Over));
    assert_eq!(rt; text.as_slice(), whole_log(rt.alloc())?.as_slice());
    Ok(())
}
