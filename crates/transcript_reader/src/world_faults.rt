//! A world that fails at each of its calls.

ghost use Rattle.gateway.specs.Setups.{setup_of, IsServable};

use crate::texts::is_cut;
use driver::{MemoryWorld, ServeFault, serve};
use gateway::{Config, Event, Output};
use replay::{ScriptFault, read_script};
use std::alloc::{AllocError, Global};

/// The events of a script, if each line of it is one.
fn events_of(alloc: Global, script: &str) -> Result<Option<Vec<Event>>, AllocError> {
    match read_script(alloc, script) {
        Ok(events) => Ok(Some(events)),
        Err(ScriptFault::NotALine(_)) => Ok(None),
        Err(ScriptFault::Memory) => Err(AllocError),
    }
}

/// Whether two events are the same.
fn is_same_event(one: &Event, other: &Event) -> bool {
    match (one, other) {
        (Event::Client(octets), Event::Client(others)) => octets.as_slice() == others.as_slice(),
        (Event::ClientEnd, Event::ClientEnd) | (Event::Drain, Event::Drain) => true,
        (Event::ClientTook(count), Event::ClientTook(most)) => count == most,
        (Event::Up(k, octets), Event::Up(j, others)) => {
            k == j && octets.as_slice() == others.as_slice()
        }
        (Event::UpEnd(k), Event::UpEnd(j)) => k == j,
        (Event::UpFailed(k), Event::UpFailed(j)) => k == j,
        (Event::UpTook(k, count), Event::UpTook(j, most)) => k == j && count == most,
        _ => false,
    }
}

/// Whether two outputs are the same.
fn is_same_output(one: &Output, other: &Output) -> bool {
    match (one, other) {
        (Output::Client(octets), Output::Client(others)) => octets.as_slice() == others.as_slice(),
        (Output::Open(k, route), Output::Open(j, place)) => k == j && route == place,
        (Output::Up(k, text), Output::Up(j, others)) => {
            k == j && text.as_slice() == others.as_slice()
        }
        (Output::Close(k), Output::Close(j)) => k == j,
        (Output::CloseClient, Output::CloseClient) => true,
        _ => false,
    }
}

/// Whether these outputs are the first of those.
fn are_first(outputs: &[Output], all: &[Output]) -> bool {
    for (one, other) in outputs.iter().zip(all) {
        if !is_same_output(one, other) {
            return false;
        }
    }
    outputs.len() <= all.len()
}

/// Whether a log is a front of another one: the same events, and what was put out for each of them,
/// for the last one some of the first.
fn is_front(log: &[(Event, Vec<Output>)], whole: &[(Event, Vec<Output>)]) -> bool {
    for (place, (step, other)) in log.iter().zip(whole).enumerate() {
        let is_last = place.saturating_add(1) == log.len();
        if !is_same_event(&step.0, &other.0) || !are_first(&step.1, &other.1) {
            return false;
        }
        if !is_last && step.1.len() != other.1.len() {
            return false;
        }
    }
    log.len() <= whole.len()
}

/// How many calls of its world a log stands for: one for each event, and one for each output.
fn calls_in(log: &[(Event, Vec<Output>)]) -> usize {
    let mut calls = 0usize;
    for (_event, outputs) in log {
        calls = calls.saturating_add(outputs.len()).saturating_add(1);
    }
    calls
}

/// Whether serving a world that fails at this call ends with that, and its log is a front of this one.
fn is_served_so(
    alloc: Global,
    config: &Config,
    script: &str,
    call: usize,
    whole: &[(Event, Vec<Output>)],
) -> Result<bool, AllocError>
    requires { IsServable (setup_of config.now) }
{
    let Some(events) = events_of(alloc, script)? else {
        return Ok(false);
    };
    let mut world = MemoryWorld::new(alloc, events, Some(call as u64));
    match serve(alloc, config, &mut world, u64::MAX) {
        Err(ServeFault::World) => Ok(is_front(world.log(), whole)),
        Err(ServeFault::Memory) => Err(AllocError),
        _ => Ok(false),
    }
}

/// The first call at which a world that gives the events of a script fails, and something else comes of it than should.
pub(crate) fn difference(
    alloc: Global,
    config: &Config,
    script: &str,
) -> Result<Option<String>, AllocError>
    requires { IsServable (setup_of config.now) }
{
    let Some(events) = events_of(alloc, script)? else {
        return Ok(Some(String::from_str(alloc, "no script")?));
    };
    let mut world = MemoryWorld::new(alloc, events, None);
    match serve(alloc, config, &mut world, u64::MAX) {
        Ok(_) => {}
        Err(ServeFault::Memory) => return Err(AllocError),
        Err(_) => return Ok(Some(String::from_str(alloc, "an event that may not come")?)),
    }
    let calls = calls_in(world.log());
    for call in 0..calls {
        if is_cut(call, calls) && !is_served_so(alloc, config, script, call, world.log())? {
            return Ok(Some(format!(in alloc; "call {call}")?));
        }
    }
    Ok(None)
}
