//! Gateways to which a growth of memory is refused: `refused_memory FILE`.
//!
//! The file has a line with a number and with how bodies are passed on, `whole` or `streaming`, and
//! scripts of `h2replay`, each behind an empty line. A script's first line may be `keep`: then
//! connections to upstreams are kept. The next may be `route AUTHORITY`: then the route is for that
//! authority, else for any. Each goes through two gateways at once, under either policy, and both
//! put out the same at each event, until a growth is refused to one of them: that step says so and
//! puts out nothing, and its gateway is closed from then on.
//!
//! As many growths as the number says are made first. `.ci/refusals` has one growth refused, always
//! that of the same number, and reaches each growth of a gateway by how many are made before it.
#![tactic(auto)]

ghost use Rattle.std.specs.Prelude.{IfOk};
ghost use Rattle.gateway.specs.Setups.{setup_of, IsServable};

mod pairs;

use crate::pairs::{Met, met_by};
use gateway::{Config, Passing, Policy, Route};
use replay::{ScriptFault, read_script};
use std::alloc::{AllocError, Global};
use std::io::ErrorKind;
use std::process::ExitCode;
use std::{env, fs, io};

/// The status is 0 where no growth was refused, 2 where one was, but not to a gateway, and 3 where
/// one was to a gateway, all else being as said above. It is 1 where something else was, and where
/// a file can't be read or has a line that says nothing.
fn main(rt: HostRuntime) -> ExitCode {
    let status = match outcome(&rt) {
        Ok(Met::Nothing) => 0,
        Ok(Met::Refusal) => 3,
        Ok(Met::Difference) => 1,
        Err(error) => match error.kind() {
            ErrorKind::OutOfMemory => 2,
            _ => 1,
        },
    };
    ExitCode::from(status)
}

/// Makes the growths, and then goes through the scripts.
fn outcome(rt: &HostRuntime) -> io::Result<Met> {
    let Some(file) = env::args(rt)?.nth(1) else {
        return Ok(Met::Difference);
    };
    let text = fs::read_to_string(rt, file)?;
    let mut words = text.split("\n\n").next().unwrap_or("").split(' ');
    let Ok(count) = words.next().unwrap_or("").parse::<u32>() else {
        return Ok(Met::Difference);
    };
    let Some(passing) = passing_of(words.next().unwrap_or("")) else {
        return Ok(Met::Difference);
    };
    grow(rt.alloc(), count)?;
    Ok(go_through(rt.alloc(), &text, passing)?)
}

/// How bodies are passed on, by its word.
fn passing_of(word: &str) -> Option<Passing> {
    match word {
        "whole" => Some(Passing::Whole),
        "streaming" => Some(Passing::Streaming),
        _ => None,
    }
}

/// Makes so many growths, one after another, and keeps nothing.
fn grow(alloc: Global, count: u32) -> Result<(), AllocError> {
    for _ in 0..count {
        let _octet: Vec<u8> = Vec::with_capacity(alloc, 1)?;
    }
    Ok(())
}

/// What is met in the scripts of a file, up to the first in which it is something.
fn go_through(alloc: Global, text: &str, passing: Passing) -> Result<Met, AllocError> {
    for script in text.split("\n\n").skip(1) {
        let met = met_in(alloc, script, passing)?;
        if met != Met::Nothing {
            return Ok(met);
        }
    }
    Ok(Met::Nothing)
}

/// A script: what its first lines say, and the lines of its events.
#[derive(Clone, Copy)]
struct Script<'a> {
    /// Whether connections to upstreams are kept.
    keep: bool,
    /// The authority that the route is for; empty for any.
    authority: &'a str,
    lines: &'a str,
}

/// A script by its text.
fn script_of(text: &str) -> Script<'_> {
    let (keep, rest) = match text.strip_prefix("keep\n") {
        Some(rest) => (true, rest),
        None => (false, text),
    };
    let (authority, lines) = rest
        .strip_prefix("route ")
        .and_then(|rest| rest.split_once('\n'))
        .unwrap_or(("", rest));
    Script {
        keep,
        authority,
        lines,
    }
}

/// What is met in a script, under one policy and then under the other.
fn met_in(alloc: Global, script: &str, passing: Passing) -> Result<Met, AllocError> {
    let script = script_of(script);
    let events = match read_script(alloc, script.lines) {
        Ok(events) => events,
        Err(ScriptFault::Memory) => return Err(AllocError),
        Err(ScriptFault::NotALine(_)) => return Ok(Met::Difference),
    };
    let plain = config(alloc, script, Policy::Plain, passing)?;
    let met = met_by(alloc, &plain, &events);
    if met != Met::Nothing {
        return Ok(met);
    }
    let indexing = config(alloc, script, Policy::Indexing, passing)?;
    Ok(met_by(alloc, &indexing, &events))
}

/// The default configuration, but for how blocks are written, bodies passed on and connections
/// kept, with one route: for an authority, or for any if that is empty.
fn config(
    alloc: Global,
    script: Script<'_>,
    policy: Policy,
    passing: Passing,
) -> Result<Config, AllocError>
    ensures { IfOk result (λ config. IsServable (setup_of config)) }
{
    let route = Route {
        authority: Vec::from_slice(alloc, script.authority.as_bytes())?,
        prefix: Vec::from_slice(alloc, b"/")?,
        upstream: String::new(alloc),
    };
    Ok(Config {
        policy,
        passing,
        keep: script.keep,
        ..Config::new(vec![in alloc; route]?)
    })
}
