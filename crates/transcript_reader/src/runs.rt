//! A gateway that is driven event by event, and what it put out, by where it went.

ghost use Rattle.gateway.specs.Setups.{setup_of, IsServable};
ghost use Rattle.std.specs.Prelude.{IfOk};
ghost use Rattle.transcript_reader.specs.Driven.{IsDriven};

use crate::messages::{Heard, requests_in};
use frames::{Split, split};
use gateway::{Config, Event, Gateway, Output};
use std::alloc::{AllocError, Global};

/// What became of a connection to an upstream: its route; what was put out for it; where in that
/// the last request begins, and its stream; and what came of it since.
#[derive(Drop)]
pub struct SeenUpstream {
    pub route: u32,
    pub text: Vec<u8>,
    begins: usize,
    pub stream: u32,
    pub heard: Vec<u8>,
    pub is_closed: bool,
}

impl SeenUpstream {
    /// A connection that was opened by a route for a stream.
    fn opened(alloc: Global, route: u32, stream: u32) -> SeenUpstream {
        SeenUpstream {
            route,
            text: Vec::new(alloc),
            begins: 0,
            stream,
            heard: Vec::new(alloc),
            is_closed: false,
        }
    }

    /// The last request, as far as it was put out.
    fn request(&self) -> &[u8] {
        self.text.get(self.begins..).unwrap_or(&[])
    }

    /// The response to it as far as it was heard, if its final head was.
    pub(crate) fn response(&self) -> Option<Heard<'_>> {
        Heard::read(&self.heard, self.request().starts_with(b"HEAD "))
    }

    /// Whether the last request and its response are whole, with no octet behind that.
    pub(crate) fn is_idle(&self) -> bool {
        let requests = requests_in(self.request());
        match self.response() {
            Some(heard) => requests.count == 1 && requests.rest.is_empty() && heard.is_whole(),
            None => false,
        }
    }

    /// Notes what was put out for it behind a frame of this stream: where it was idle, that begins another request.
    fn put(&mut self, octets: &[u8], stream: u32) -> Result<(), AllocError> {
        if !self.heard.is_empty() && self.is_idle() {
            self.begins = self.text.len();
            self.stream = stream;
            self.heard.clear();
        }
        self.text.extend_from_slice(octets)
    }

    /// Whether the same was put out for both.
    fn is_same(&self, other: &SeenUpstream) -> bool {
        self.route == other.route
            && self.text.as_slice() == other.text.as_slice()
            && self.is_closed == other.is_closed
    }
}

/// What was put out in all, by where it went.
#[derive(Drop)]
pub struct Told {
    pub client: Vec<u8>,
    pub upstreams: Vec<SeenUpstream>,
    pub is_over: bool,
    /// How many octets the client's side took.
    taken: u64,
    /// How many octets were put out for the client before the last event.
    before: usize,
    /// Whether the last event came.
    pub came: bool,
    /// How many events couldn't come though what they belong to was open.
    pub strays: u32,
    /// The stream of the client's last frame, where each came by itself.
    stream: u32,
}

impl Told {
    /// Nothing was put out.
    fn new(alloc: Global) -> Told {
        Told {
            client: Vec::new(alloc),
            upstreams: Vec::new(alloc),
            is_over: false,
            taken: 0,
            before: 0,
            came: false,
            strays: 0,
            stream: 0,
        }
    }

    /// The connection of this number.
    pub(crate) fn upstream(&self, k: u32) -> Option<&SeenUpstream> {
        self.upstreams.get((k as usize).checked_sub(1)?)
    }

    /// The connection of this number, to be changed.
    fn upstream_mut(&mut self, k: u32) -> Option<&mut SeenUpstream> {
        self.upstreams.get_mut((k as usize).checked_sub(1)?)
    }

    /// Whether the same was put out, and nothing was left out without a reason.
    pub(crate) fn is_same(&self, other: &Told) -> bool {
        self.client.as_slice() == other.client.as_slice() && self.is_same_upstream(other)
    }

    /// The same, but for what was put out for the client.
    pub(crate) fn is_same_upstream(&self, other: &Told) -> bool {
        self.upstreams.len() == other.upstreams.len()
            && are_same(&self.upstreams, &other.upstreams)
            && self.is_over == other.is_over
            && self.strays == 0
    }

    /// How many octets for the client it hadn't taken before the last event.
    pub(crate) fn untaken_before(&self) -> u64 {
        (self.before as u64).saturating_sub(self.taken)
    }

    /// What the last event put out for the client.
    pub(crate) fn last_of_client(&self) -> &[u8] {
        self.client.get(self.before..).unwrap_or(&[])
    }

    /// Notes that a connection is closed.
    fn note_closed(&mut self, k: u32) {
        if let Some(upstream) = self.upstream_mut(k) {
            upstream.is_closed = true;
        }
    }

    /// Notes what was put out.
    fn note_output(&mut self, alloc: Global, output: &Output) -> Result<(), AllocError> {
        match output {
            Output::Client(octets) => self.client.extend_from_slice(octets)?,
            Output::Open(_, route) => {
                let upstream = SeenUpstream::opened(alloc, *route, self.stream);
                self.upstreams.push(upstream)?;
            }
            Output::Up(k, octets) => {
                let stream = self.stream;
                if let Some(upstream) = self.upstream_mut(*k) {
                    upstream.put(octets.as_slice(), stream)?;
                }
            }
            Output::Close(k) => self.note_closed(*k),
            Output::CloseClient => self.is_over = true,
        }
        Ok(())
    }

    /// Notes the stream of octets of the client that are just one frame.
    fn note_frame(&mut self, octets: &[u8]) {
        if let Split::Frame(view, used) = split(octets) {
            if used == octets.len() {
                self.stream = view.id;
            }
        }
    }

    /// Notes what an event that came tells by itself.
    fn note_event(&mut self, event: &Event) -> Result<(), AllocError> {
        match event {
            Event::Client(octets) => self.note_frame(octets),
            Event::ClientTook(count) => self.taken = self.taken.saturating_add(*count),
            Event::UpFailed(k) => self.note_closed(*k),
            Event::Up(k, octets) => {
                if let Some(upstream) = self.upstream_mut(*k) {
                    upstream.heard.extend_from_slice(octets)?;
                }
            }
            _ => {}
        }
        Ok(())
    }

    /// Notes an event that came, and what it put out.
    fn note(&mut self, alloc: Global, event: &Event, outputs: &[Output]) -> Result<(), AllocError> {
        self.came = true;
        self.before = self.client.len();
        self.note_event(event)?;
        for output in outputs {
            self.note_output(alloc, output)?;
        }
        Ok(())
    }

    /// Notes an event that couldn't come.
    fn note_left_out(&mut self, event: &Event) {
        self.came = false;
        if !self.is_closed_for(event) {
            self.strays = self.strays.saturating_add(1);
        }
    }

    /// Whether the connection of an event is closed.
    fn is_closed_for(&self, event: &Event) -> bool {
        if self.is_over {
            return true;
        }
        match event {
            Event::Up(k, _) | Event::UpEnd(k) | Event::UpFailed(k) | Event::UpTook(k, _) => {
                match self.upstream(*k) {
                    Some(upstream) => upstream.is_closed,
                    None => false,
                }
            }
            _ => false,
        }
    }
}

/// Whether the same was put out for connections, as far as both lists go.
fn are_same(upstreams: &[SeenUpstream], others: &[SeenUpstream]) -> bool {
    for (upstream, other) in upstreams.iter().zip(others) {
        if !upstream.is_same(other) {
            return false;
        }
    }
    true
}

/// A gateway to which nothing came.
fn new_gateway(alloc: Global, config: &Config) -> Result<Gateway, AllocError>
    requires { IsServable (setup_of config.now) }
    ensures { IfOk result IsDriven }
{
    Gateway::new(alloc, config)
}

/// Takes an event, if it may come.
fn take(
    alloc: Global,
    gateway: &mut Gateway,
    event: &Event,
    told: &mut Told,
) -> Result<(), AllocError>
    requires { IsDriven gateway.old }
    ensures { IsDriven gateway.new }
{
    if !gateway.admits(event) {
        told.note_left_out(event);
        return Ok(());
    }
    let mut out = Vec::new(alloc);
    match gateway.step(event, &mut out) {
        Ok(()) => told.note(alloc, event, &out),
        Err(_) => Err(AllocError),
    }
}

/// Takes events one after another, those that may come.
fn take_all(
    alloc: Global,
    gateway: &mut Gateway,
    events: &[Event],
    told: &mut Told,
) -> Result<(), AllocError>
    requires { IsDriven gateway.old }
    ensures { IsDriven gateway.new }
{
    for event in events {
        take(alloc, gateway, event, told)?;
    }
    Ok(())
}

/// What a new gateway puts out at these events, and then at those.
pub(crate) fn drive(
    alloc: Global,
    config: &Config,
    events: &[Event],
    more: &[Event],
) -> Result<Told, AllocError>
    requires { IsServable (setup_of config.now) }
{
    let mut gateway = new_gateway(alloc, config)?;
    let mut told = Told::new(alloc);
    take_all(alloc, &mut gateway, events, &mut told)?;
    take_all(alloc, &mut gateway, more, &mut told)?;
    Ok(told)
}
