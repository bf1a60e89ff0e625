//! A response that is passed on through the whole gateway: the pieces in which it comes, and the
//! parts in which it goes.

ghost use Rattle.std.specs.Prelude.{IfSome};
ghost use Rattle.gateway.specs.Setups.{setup_of, IsServable};

use crate::gets::{config, request_at, run_once};
use crate::made::Made;
use gateway::{Config, Event, Passing};
use std::alloc::Global;

/// How many pieces come, or parts go, a round.
const COUNT: u32 = 100;

/// The head of a response with a long body.
const HEAD: &[u8] = b"HTTP/1.1 200 OK\r\nContent-Length: 100000\r\n\r\n";

/// A piece of its body.
static PIECE: [u8; 100] = [b'x'; 100];

/// SETTINGS: the first size of each stream's window is 0 (RFC 9113, section 6.5.2).
const NO_WINDOW: &[u8] = b"\x00\x00\x06\x04\x00\x00\x00\x00\x00\x00\x04\x00\x00\x00\x00";

/// WINDOW_UPDATE by one octet, on the first stream and on the connection (RFC 9113, section 6.9).
const STREAM_UPDATE: &[u8] = b"\x00\x00\x04\x08\x00\x00\x00\x00\x01\x00\x00\x00\x01";

const SHARED_UPDATE: &[u8] = b"\x00\x00\x04\x08\x00\x00\x00\x00\x00\x00\x00\x00\x01";

/// What is passed on of a response behind its head.
#[derive(Clone, Copy)]
pub enum Passed {
    /// Nothing comes.
    NoPieces,
    /// Pieces come, and each goes on at once.
    Pieces,
    /// Pieces came, and none may go: the connection's window grows, and the stream's doesn't.
    NoParts,
    /// They may go, an octet at a time.
    Parts,
}

/// Adds an event with octets of the upstream.
fn push_up(alloc: Global, octets: &[u8], events: &mut Vec<Event>) -> Option<()> {
    let octets = Vec::from_slice(alloc, octets).ok()?;
    events.push(Event::Up(1, octets)).ok()
}

/// Adds an event with the same octets of the client, so many times.
fn push_client(alloc: Global, octets: &[u8], count: u32, events: &mut Vec<Event>) -> Option<()> {
    let mut all = Vec::new(alloc);
    for _ in 0..count {
        all.extend_from_slice(octets).ok()?;
    }
    events.push(Event::Client(all)).ok()
}

/// Adds pieces of a response, each in an event of its own.
fn push_pieces(alloc: Global, count: u32, events: &mut Vec<Event>) -> Option<()> {
    for _ in 0..count {
        push_up(alloc, &PIECE, events)?;
    }
    Some(())
}

/// Adds the events behind a request.
fn push_events(alloc: Global, passed: Passed, events: &mut Vec<Event>) -> Option<()> {
    match passed {
        Passed::NoPieces => push_up(alloc, HEAD, events),
        Passed::Pieces => {
            push_up(alloc, HEAD, events)?;
            push_pieces(alloc, COUNT, events)
        }
        Passed::NoParts => push_parts(alloc, SHARED_UPDATE, events),
        Passed::Parts => push_parts(alloc, STREAM_UPDATE, events),
    }
}

/// Adds the events of a response that waits for the stream's window, and then this frame, as often as parts go.
fn push_parts(alloc: Global, frame: &[u8], events: &mut Vec<Event>) -> Option<()> {
    push_client(alloc, NO_WINDOW, 1, events)?;
    push_up(alloc, HEAD, events)?;
    push_pieces(alloc, 2, events)?;
    push_client(alloc, frame, COUNT, events)
}

/// A connection a round, each with the same events.
fn pass_by(
    alloc: Global,
    config: &Config,
    rounds: u32,
    made: &mut Made,
    passed: Passed,
) -> Option<()>
    requires { IsServable (setup_of config.now) }
{
    let mut events = Vec::new(alloc);
    events.push(request_at(alloc, 0)?).ok()?;
    push_events(alloc, passed, &mut events)?;
    for _ in 0..rounds {
        run_once(alloc, config, &events, made)?;
    }
    Some(())
}

/// The same by one route for all requests, with bodies that are passed on as they come.
pub(crate) fn pass(alloc: Global, rounds: u32, made: &mut Made, passed: Passed) -> Option<()> {
    pass_by(
        alloc,
        &config(alloc, Passing::Streaming)?,
        rounds,
        made,
        passed,
    )
}
