//! Calls of the gateway, one by one.

ghost use Rattle.std.specs.Prelude.{IfOk};
ghost use Rattle.gateway.specs.Setups.{setup_of, IsServable};
ghost use Rattle.gateway_tests.specs.Driven.{IsDriven};

use gateway::{Config, Event, Gateway, Output, Passing, Route, RunFault, run, run_into};
use std::alloc::{AllocError, Global};
use std::string::String;
use std::test::*;

/// The preface, SETTINGS without entries, and HEADERS of stream 1: GET, http, / and www.example.com.
const FIRST_REQUEST: &[u8] =
    b"PRI * HTTP/2.0\r\n\r\nSM\r\n\r\n\0\0\0\x04\0\0\0\0\0\0\0\x14\x01\x05\0\0\0\x01\x82\x86\x84\x41\x0fwww.example.com";

/// The same with SETTINGS that give streams no window at first (RFC 9113, section 6.9.2).
const WITHOUT_WINDOW: &[u8] =
    b"PRI * HTTP/2.0\r\n\r\nSM\r\n\r\n\0\0\x06\x04\0\0\0\0\0\0\x04\0\0\0\0\0\0\x14\x01\x05\0\0\0\x01\x82\x86\x84\x41\x0fwww.example.com";

/// The first request, and DATA on stream 0, which closes the connection (RFC 9113, section 6.1).
const CLOSED_BEHIND_IT: &[u8] =
    b"PRI * HTTP/2.0\r\n\r\nSM\r\n\r\n\0\0\0\x04\0\0\0\0\0\0\0\x14\x01\x05\0\0\0\x01\x82\x86\x84\x41\x0fwww.example.com\0\0\0\0\0\0\0\0\0";

/// The request's text upstream.
const FORWARDED: &[u8] =
    b"GET / HTTP/1.1\r\nhost: www.example.com\r\nvia: 2.0 h2gw\r\nconnection: close\r\n\r\n";

/// What the client is sent for these settings: the gateway's, and their acknowledgement.
const GREETING: &[u8] =
    b"\0\0\x0c\x04\0\0\0\0\0\0\x03\0\0\0\x64\0\x06\0\0\x40\0\0\0\0\x04\x01\0\0\0\0";

/// A response, its frames, and the front of one with a longer body.
const RESPONSE: &[u8] = b"HTTP/1.1 200 OK\r\nContent-Length: 2\r\n\r\nhi";

const FRAMES: &[u8] = b"\0\0\x05\x01\x04\0\0\0\x01\x88\x0f\x0d\x01\x32\0\0\x02\0\x01\0\0\0\x01hi";

const FRONT: &[u8] = b"HTTP/1.1 200 OK\r\nContent-Length: 100000\r\n\r\nhello";

/// One route, for paths that begin with `/`.
fn config(alloc: Global, passing: Passing) -> Result<Config, AllocError>
    ensures { IfOk result (λ config. IsServable (setup_of config)) }
{
    let route = Route {
        authority: Vec::new(alloc),
        prefix: Vec::from_slice(alloc, b"/")?,
        upstream: String::new(alloc),
    };
    Ok(Config {
        passing,
        max_body: 1000,
        max_response: 2000,
        ..Config::new(vec![in alloc; route]?)
    })
}

/// These octets of the client.
fn client(alloc: Global, octets: &[u8]) -> Result<Event, AllocError> {
    Ok(Event::Client(Vec::from_slice(alloc, octets)?))
}

/// Octets of the first upstream.
fn answer(alloc: Global, octets: &[u8]) -> Result<Event, AllocError> {
    Ok(Event::Up(1, Vec::from_slice(alloc, octets)?))
}

/// A gateway to which nothing came.
fn new_gateway(alloc: Global, config: &Config) -> Result<Gateway, AllocError>
    requires { IsServable (setup_of config.now) }
    ensures { IfOk result IsDriven }
{
    Gateway::new(alloc, config)
}

/// A gateway to which nothing came, and which passes bodies on whole.
fn whole_gateway(alloc: Global) -> Result<Gateway, AllocError>
    ensures { IfOk result IsDriven }
{
    new_gateway(alloc, &config(alloc, Passing::Whole)?)
}

/// This comes, which may come, and is answered.
fn take(gateway: &mut Gateway, event: &Event, out: &mut Vec<Output>) -> Result<(), Fail>
    requires { IsDriven gateway.old }
{
    if !gateway.admits(event) || gateway.step(event, out).is_err() {
        return Err("the event was refused".into());
    }
    Ok(())
}

/// What each of these events puts out.
fn steps_of(alloc: Global, config: &Config, events: &[Event]) -> Result<Vec<Vec<Output>>, RunFault>
    requires { IsServable (setup_of config.now) }
{
    run(alloc, config, events)
}

/// Why a run of these events is refused.
fn fault_of(
    alloc: Global,
    passing: Passing,
    events: &[Event],
) -> Result<Option<RunFault>, AllocError> {
    let config = config(alloc, passing)?;
    Ok(steps_of(alloc, &config, events).err())
}

#[test]
fn a_configuration_bounds_what_is_held(rt: HostRuntime) -> Result<(), Fail> {
    let config = config(rt.alloc(), Passing::Whole)?;
    assert_eq!(rt; config.held_bound(), 40_500_000);
    Ok(())
}

/// How many streams a gateway counts to which these octets came first.
fn opened_behind(alloc: Global, first: &[u8]) -> Result<u32, Fail> {
    let mut gateway = whole_gateway(alloc)?;
    take(&mut gateway, &client(alloc, first)?, &mut Vec::new(alloc))?;
    Ok(gateway.opened())
}

#[test]
fn opened_streams_are_counted(rt: HostRuntime) -> Result<(), Fail> {
    assert_eq!(rt; opened_behind(rt.alloc(), &FIRST_REQUEST[..33])?, 0);
    assert_eq!(rt; opened_behind(rt.alloc(), FIRST_REQUEST)?, 1);
    assert_eq!(rt; opened_behind(rt.alloc(), CLOSED_BEHIND_IT)?, 1);
    Ok(())
}

/// Adds the rooms that a gateway lists to which these octets came first.
fn list_behind(
    alloc: Global,
    gateway: &mut Gateway,
    first: &[u8],
    rooms: &mut Vec<(u32, usize)>,
) -> Result<(), Fail>
    requires { IsDriven gateway.old }
{
    take(gateway, &client(alloc, first)?, &mut Vec::new(alloc))?;
    Ok(gateway.list_rooms(rooms)?)
}

/// The rooms that a gateway lists to which these octets came first.
fn listed_behind(alloc: Global, first: &[u8]) -> Result<Vec<(u32, usize)>, Fail> {
    let mut gateway = whole_gateway(alloc)?;
    let mut rooms = Vec::new(alloc);
    list_behind(alloc, &mut gateway, first, &mut rooms)?;
    Ok(rooms)
}

#[test]
fn open_connections_are_listed(rt: HostRuntime) -> Result<(), Fail> {
    assert!(rt; listed_behind(rt.alloc(), &FIRST_REQUEST[..33])?.is_empty());
    let rooms = listed_behind(rt.alloc(), FIRST_REQUEST)?;
    assert_eq!(rt; rooms.as_slice(), [(1, 65536)].as_slice());
    Ok(())
}

/// The room of the first connection and of the next one behind these octets, which come first.
fn rooms_behind(alloc: Global, gateway: &mut Gateway, first: &[u8]) -> Result<[usize; 2], Fail>
    requires { IsDriven gateway.old }
{
    take(gateway, &client(alloc, first)?, &mut Vec::new(alloc))?;
    Ok([gateway.room(1), gateway.room(2)])
}

#[test]
fn open_connections_have_room(rt: HostRuntime) -> Result<(), Fail> {
    let mut gateway = whole_gateway(rt.alloc())?;
    let rooms = rooms_behind(rt.alloc(), &mut gateway, FIRST_REQUEST)?;
    assert_eq!(rt; rooms, [65536, 0]);
    Ok(())
}

/// Brings rooms up to date behind an event that comes first.
fn update_behind(
    alloc: Global,
    gateway: &mut Gateway,
    event: &Event,
    rooms: &mut Vec<(u32, usize)>,
) -> Result<(), Fail>
    requires { IsDriven gateway.old }
{
    let mut out = Vec::new(alloc);
    take(gateway, event, &mut out)?;
    Ok(gateway.update_rooms(event, &out, rooms)?)
}

#[test]
fn rooms_are_brought_up_to_date(rt: HostRuntime) -> Result<(), Fail> {
    let request = client(rt.alloc(), FIRST_REQUEST)?;
    let mut gateway = whole_gateway(rt.alloc())?;
    let mut rooms = Vec::new(rt.alloc());
    update_behind(rt.alloc(), &mut gateway, &request, &mut rooms)?;
    assert_eq!(rt; rooms.as_slice(), [(1, 65536)].as_slice());
    Ok(())
}

/// A request, its response, and the client's end.
fn exchange(alloc: Global) -> Result<Vec<Event>, AllocError> {
    Ok(vec![in alloc;
        client(alloc, FIRST_REQUEST)?,
        Event::UpTook(1, 75),
        answer(alloc, RESPONSE)?,
        Event::ClientEnd,
    ]?)
}

/// Whether a first request is answered: by settings and their acknowledgement, and the request on a first connection.
fn answers_request(out: &[Output]) -> bool {
    match out {
        [
            Output::Client(settings),
            Output::Open(1, 0),
            Output::Up(1, text),
        ] => settings.as_slice() == GREETING && text.as_slice() == FORWARDED,
        _ => false,
    }
}

/// Whether a response is passed back, and its connection closed.
fn passes_back(out: &[Output]) -> bool {
    match out {
        [Output::Close(1), Output::Client(frames)] => frames.as_slice() == FRAMES,
        _ => false,
    }
}

/// Whether these are the answers to an exchange.
fn answer_exchange(steps: &[Vec<Output>]) -> bool {
    match steps {
        [first, took, passed, ended] => {
            answers_request(first)
                && took.is_empty()
                && passes_back(passed)
                && matches!(ended.as_slice(), [Output::CloseClient])
        }
        _ => false,
    }
}

/// Why a run of these events is refused, with what was put out before in place of what a list has.
fn fault_behind(
    alloc: Global,
    events: &[Event],
    outputs: &mut Vec<Vec<Output>>,
) -> Result<Option<RunFault>, AllocError> {
    let config = config(alloc, Passing::Whole)?;
    Ok(run_into(alloc, &config, events, outputs).err())
}

#[test]
fn what_was_put_out_before_an_event_that_may_not_come_is_told(rt: HostRuntime) -> Result<(), Fail> {
    let mut events = exchange(rt.alloc())?;
    events.push(Event::ClientEnd)?;
    let mut outputs = vec![in rt.alloc(); Vec::new(rt.alloc())]?;
    let fault = fault_behind(rt.alloc(), &events, &mut outputs)?;
    assert!(rt; fault == Some(RunFault::NotAdmitted(4)));
    assert!(rt; answer_exchange(&outputs));
    Ok(())
}

/// A request whose response has no window to go through, five octets of it, and so many more.
fn waiting(alloc: Global, count: usize) -> Result<Vec<Event>, AllocError> {
    Ok(vec![in alloc;
        client(alloc, WITHOUT_WINDOW)?,
        answer(alloc, FRONT)?,
        Event::Up(1, vec![in alloc; 0; count]?),
    ]?)
}

#[test]
fn octets_that_wait_take_room(rt: HostRuntime) -> Result<(), Fail> {
    let over = waiting(rt.alloc(), 65532)?;
    let fault = fault_of(rt.alloc(), Passing::Streaming, &over)?;
    assert!(rt; fault == Some(RunFault::NotAdmitted(2)));
    let fits = waiting(rt.alloc(), 65531)?;
    assert!(rt; fault_of(rt.alloc(), Passing::Streaming, &fits)?.is_none());
    Ok(())
}
