//! Requests through the whole gateway: all events of a connection, from the client's octets to its
//! upstreams' and back.

ghost use Rattle.std.specs.Prelude.{IfSome};
ghost use Rattle.gateway.specs.Setups.{setup_of, IsServable};

use crate::made::Made;
use crate::posts::post_at;
use crate::samples::{FIRST_BLOCK, LATER_BLOCKS};
use gateway::{Config, Event, Output, Passing, Route, run};
use std::alloc::Global;

/// The preface of a client, and its settings, without entries (RFC 9113, section 3.4).
pub(crate) const BEGIN: &[u8] =
    b"PRI * HTTP/2.0\r\n\r\nSM\r\n\r\n\x00\x00\x00\x04\x00\x00\x00\x00\x00";

/// How many octets of a request its upstream's side takes at once.
const TAKEN: u64 = 100;

/// What is requested.
#[derive(Clone, Copy)]
pub enum Method {
    /// GET, with ten fields.
    Get,
    /// POST, with few fields and a body.
    Post,
}

/// Of which requests a connection consists: some that nobody answers, and then some that are
/// answered one after another, each with this response. All have this method. Connections to
/// upstreams are kept, so that those that are answered go out on one, or aren't.
#[derive(Clone, Copy)]
pub struct Load {
    pub method: Method,
    pub is_kept: bool,
    pub active: u32,
    pub answered: u32,
    pub response: &'static [u8],
}

/// One route for all requests, and bodies passed on so.
pub(crate) fn config(alloc: Global, passing: Passing) -> Option<Config>
    ensures { IfSome result (λ config. IsServable (setup_of config)) }
{
    let route = Route {
        authority: Vec::new(alloc),
        prefix: Vec::from_slice(alloc, b"/").ok()?,
        upstream: String::new(alloc),
    };
    Some(Config {
        passing,
        ..Config::new(vec![in alloc; route].ok()?)
    })
}

/// The block of a connection's request at a place.
fn block_at(place: u32) -> &'static [u8] {
    if place == 0 {
        FIRST_BLOCK
    } else {
        LATER_BLOCKS[place as usize % LATER_BLOCKS.len()]
    }
}

/// Adds the HEADERS frame of a connection's request at a place, the preface before the first one
/// (RFC 9113, section 6.2).
fn push_request(place: u32, octets: &mut Vec<u8>) -> Option<()> {
    if place == 0 {
        octets.extend_from_slice(BEGIN).ok()?;
    }
    let block = block_at(place);
    let length = u32::try_from(block.len()).ok()?.to_be_bytes();
    let id = place.checked_mul(2)?.checked_add(1)?.to_be_bytes();
    octets.extend_from_slice(&length[1..]).ok()?;
    octets.extend_from_slice(&[1, 5]).ok()?;
    octets.extend_from_slice(&id).ok()?;
    octets.extend_from_slice(block).ok()
}

/// A connection's GET at a place.
pub(crate) fn request_at(alloc: Global, place: u32) -> Option<Event> {
    let mut octets = Vec::new(alloc);
    push_request(place, &mut octets)?;
    Some(Event::Client(octets))
}

/// A connection's request at a place.
fn event_at(alloc: Global, method: Method, place: u32) -> Option<Event> {
    match method {
        Method::Get => request_at(alloc, place),
        Method::Post => post_at(alloc, place),
    }
}

/// The number of the upstream connection on which the request at a place is answered.
fn number_for(load: Load, place: u32) -> Option<u32> {
    let before = if load.is_kept { load.active } else { place };
    before.checked_add(1)
}

/// How many octets for the client are put out.
fn for_client(outputs: &[Output]) -> u64 {
    let mut sum = 0_u64;
    for output in outputs {
        if let Output::Client(octets) = output {
            sum = sum.saturating_add(octets.len() as u64);
        }
    }
    sum
}

/// Adds the events of an answer on a connection.
fn answer(alloc: Global, k: u32, response: &[u8], events: &mut Vec<Event>) -> Option<()> {
    events.push(Event::UpTook(k, TAKEN)).ok()?;
    let response = Vec::from_slice(alloc, response).ok()?;
    events.push(Event::Up(k, response)).ok()
}

/// What each event puts out.
fn steps_of(alloc: Global, config: &Config, events: &[Event]) -> Option<Vec<Vec<Output>>>
    requires { IsServable (setup_of config.now) }
{
    run(alloc, config, events).ok()
}

/// The events of a request that is answered.
fn push_first(alloc: Global, load: Load, events: &mut Vec<Event>) -> Option<()> {
    events.push(event_at(alloc, load.method, 0)?).ok()?;
    answer(alloc, 1, load.response, events)
}

/// How many octets for the client an answer takes.
fn answer_octets(alloc: Global, config: &Config, load: Load) -> Option<u64>
    requires { IsServable (setup_of config.now) }
{
    let mut events = Vec::new(alloc);
    push_first(alloc, load, &mut events)?;
    let steps = steps_of(alloc, config, &events)?;
    Some(for_client(steps.last()?))
}

/// Adds the events of a connection, on which the client takes so many octets of each answer.
fn push_events(alloc: Global, load: Load, count: u64, events: &mut Vec<Event>) -> Option<()> {
    let all = load.active.checked_add(load.answered)?;
    for place in 0..all {
        events.push(event_at(alloc, load.method, place)?).ok()?;
        if place >= load.active {
            answer(alloc, number_for(load, place)?, load.response, events)?;
            events.push(Event::ClientTook(count)).ok()?;
        }
    }
    Some(())
}

/// Keeps the octets of outputs.
fn keep(outputs: &[Output], made: &mut Made) -> Option<()> {
    for output in outputs {
        match output {
            Output::Client(octets) => made.octets.extend_from_slice(octets).ok()?,
            Output::Up(_, text) => made.octets.extend_from_slice(text.as_slice()).ok()?,
            Output::Open(_, _) | Output::Close(_) | Output::CloseClient => {}
        }
    }
    Some(())
}

/// Keeps the octets of the outputs of all steps.
fn keep_all(steps: &[Vec<Output>], made: &mut Made) -> Option<()> {
    for outputs in steps {
        keep(outputs, made)?;
    }
    Some(())
}

/// A connection with these events.
pub(crate) fn run_once(
    alloc: Global,
    config: &Config,
    events: &[Event],
    made: &mut Made,
) -> Option<()>
    requires { IsServable (setup_of config.now) }
{
    made.clear();
    let steps = steps_of(alloc, config, events)?;
    keep_all(&steps, made)
}

/// A connection a round, each with the same events.
fn request_by(
    alloc: Global,
    config: &Config,
    rounds: u32,
    made: &mut Made,
    load: Load,
) -> Option<()>
    requires { IsServable (setup_of config.now) }
{
    let count = answer_octets(alloc, config, load)?;
    let mut events = Vec::new(alloc);
    push_events(alloc, load, count, &mut events)?;
    for _ in 0..rounds {
        run_once(alloc, config, &events, made)?;
    }
    Some(())
}

/// The same by one route for all requests.
pub(crate) fn request(alloc: Global, rounds: u32, made: &mut Made, load: Load) -> Option<()> {
    let config = Config {
        keep: load.is_kept,
        ..config(alloc, Passing::Whole)?
    };
    request_by(alloc, &config, rounds, made, load)
}
