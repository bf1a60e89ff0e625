//! Two gateways that are given the same events.

ghost use Rattle.std.specs.Prelude.{◌≡◌, true};
ghost use Rattle.gateway.specs.Setups.{setup_of, IsServable};
ghost use Rattle.gateway.specs.Stands.{is_dead};
ghost use Rattle.refused_memory.specs.Driven.{IsDriven};

use gateway::{Config, Event, Fault, Gateway, Output};
use std::alloc::Global;

/// What is met where the same events are given to two gateways.
#[derive(Clone, Copy, PartialEq, Eq)]
pub enum Met {
    /// Both put out the same, and no growth was refused to them.
    Nothing,
    /// They did so until a growth was refused to one of them, as it should be.
    Refusal,
    /// Something else.
    Difference,
}

/// What a gateway does with an event.
#[derive(Clone, Copy, PartialEq, Eq)]
enum Taken {
    /// It may not come.
    LeftOut,
    /// It came.
    Came,
    /// A growth was refused, nothing was put out, and the gateway is closed.
    Refused,
    /// A growth was refused, but not so.
    Broken,
}

/// Whether a gateway that a growth was refused to says so from then on, whatever it is asked.
fn is_closed(alloc: Global, gateway: &mut Gateway, event: &Event) -> bool
    requires { is_dead gateway.old.phase ≡ true }
    ensures { is_dead gateway.new.phase ≡ true }
{
    let mut out = Vec::new(alloc);
    let answer = gateway.step(event, &mut out);
    matches!(answer, Err(Fault::Closed))
        && out.is_empty()
        && !gateway.admits(event)
        && gateway.room(1) == 0
}

/// Gives an event to a gateway, if it may come.
fn take(alloc: Global, gateway: &mut Gateway, event: &Event, out: &mut Vec<Output>) -> Taken
    requires { IsDriven gateway.old }
    ensures { IsDriven gateway.new }
{
    if !gateway.admits(event) {
        return Taken::LeftOut;
    }
    match gateway.step(event, out) {
        Ok(()) => Taken::Came,
        Err(Fault::Closed) => Taken::Broken,
        Err(Fault::Memory) => {
            if is_closed(alloc, gateway, event) && out.is_empty() {
                Taken::Refused
            } else {
                Taken::Broken
            }
        }
    }
}

/// Whether the same is put out by both.
fn is_same(output: &Output, other: &Output) -> bool {
    match (output, other) {
        (Output::Client(octets), Output::Client(others)) => octets.as_slice() == others.as_slice(),
        (Output::Up(k, octets), Output::Up(j, others)) => {
            k == j && octets.as_slice() == others.as_slice()
        }
        (Output::Open(k, route), Output::Open(j, other)) => k == j && route == other,
        (Output::Close(k), Output::Close(j)) => k == j,
        (Output::CloseClient, Output::CloseClient) => true,
        _ => false,
    }
}

/// Whether the same is put out by both, one output after another.
fn are_same(outputs: &[Output], others: &[Output]) -> bool {
    for (output, other) in outputs.iter().zip(others) {
        if !is_same(output, other) {
            return false;
        }
    }
    outputs.len() == others.len()
}

/// What is met where an event is given to both.
fn met_at(alloc: Global, gateway: &mut Gateway, other: &mut Gateway, event: &Event) -> Met
    requires one { IsDriven gateway.old }
    requires other { IsDriven other.old }
    ensures one { IsDriven gateway.new }
    ensures other { IsDriven other.new }
{
    let mut out = Vec::new(alloc);
    let mut other_out = Vec::new(alloc);
    let taken = take(alloc, gateway, event, &mut out);
    let other_taken = take(alloc, other, event, &mut other_out);
    match (taken, other_taken) {
        (Taken::LeftOut, Taken::LeftOut) => Met::Nothing,
        (Taken::Came, Taken::Came) if are_same(&out, &other_out) => Met::Nothing,
        (Taken::Refused, Taken::Came) | (Taken::Came, Taken::Refused) => Met::Refusal,
        _ => Met::Difference,
    }
}

/// What is met where these events are given to both, up to where it is something. Events that may
/// not come are left out.
fn met_among(alloc: Global, gateway: &mut Gateway, other: &mut Gateway, events: &[Event]) -> Met
    requires one { IsDriven gateway.old }
    requires other { IsDriven other.old }
{
    for event in events {
        let met = met_at(alloc, gateway, other, event);
        if met != Met::Nothing {
            return met;
        }
    }
    Met::Nothing
}

/// What is met where these events are given to two new gateways.
pub(crate) fn met_by(alloc: Global, config: &Config, events: &[Event]) -> Met
    requires { IsServable (setup_of config.now) }
{
    let Ok(mut gateway) = Gateway::new(alloc, config) else {
        return Met::Refusal;
    };
    let Ok(mut other) = Gateway::new(alloc, config) else {
        return Met::Refusal;
    };
    met_among(alloc, &mut gateway, &mut other, events)
}
