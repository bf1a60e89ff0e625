//! Upstreams that end or fail behind each of their octets.

ghost use Rattle.gateway.specs.Setups.{setup_of, IsServable};

use crate::messages::Heard;
use crate::runs::{SeenUpstream, Told, drive};
use crate::texts::{is_cut, place_of};
use frames::{Split, View, split};
use gateway::{Config, Event, Passing};
use std::alloc::{AllocError, Global};

/// The block of the gateway's reply 502, as the plain policy writes it.
const REPLY: &[u8] = b"\x08\x03502\x0f\x0d\x010";

/// Its status as Huffman text that is inserted.
const INSERTED_STATUS: &[u8] = b"\x48\x82\x6c\x02";

/// The block of a response with the status 200 and no fields.
const STATUS_200: &[u8] = b"\x88";

/// New maxima of the table, which a block may begin with.
const MAXIMA: &[u8] = b"\x20\x3f\xe1\x1f";

/// Whether a frame is the gateway's reply 502, which ends its stream.
fn is_reply(view: View<'_>) -> bool {
    let fields = view.payload.strip_prefix(MAXIMA).unwrap_or(view.payload);
    view.kind == 1
        && view.flags == 5
        && (fields == REPLY || place_of(fields, INSERTED_STATUS).is_some())
}

/// Whether octets are nothing, or octets that go back to the connection.
fn gives_back(octets: &[u8]) -> bool {
    match split(octets) {
        Split::Frame(view, used) => view.kind == 8 && view.id == 0 && used == octets.len(),
        _ => octets.is_empty(),
    }
}

/// Whether octets begin with a reset of a stream by this code, behind which octets go back at most.
fn is_reset(octets: &[u8], code: u8) -> bool {
    match split(octets) {
        Split::Frame(view, used) => {
            view.kind == 3
                && view.payload == [0, 0, 0, code].as_slice()
                && gives_back(octets.get(used..).unwrap_or(&[]))
        }
        _ => false,
    }
}

/// Whether octets are the reply 502, behind which the stream is reset where its request hasn't ended.
fn is_replied(octets: &[u8]) -> bool {
    match split(octets) {
        Split::Frame(view, used) => {
            let rest = octets.get(used..).unwrap_or(&[]);
            is_reply(view) && (gives_back(rest) || is_reset(rest, 0))
        }
        _ => false,
    }
}

/// Whether octets are a frame of DATA that ends a stream with this.
fn ends_with_data(octets: &[u8], stream: u32, body: &[u8]) -> bool {
    match split(octets) {
        Split::Frame(view, used) => {
            let is_end = view.kind == 0 && view.id == stream && view.flags == 1;
            is_end && view.payload == body && used == octets.len()
        }
        _ => false,
    }
}

/// Whether octets are the status 200 and this body, all of a response on a stream.
fn is_response(octets: &[u8], stream: u32, body: &[u8]) -> bool {
    let Split::Frame(head, used) = split(octets) else {
        return false;
    };
    if head.kind != 1 || head.id != stream || head.payload != STATUS_200 {
        return false;
    }
    let rest = octets.get(used..).unwrap_or(&[]);
    if body.is_empty() {
        return head.flags == 5 && rest.is_empty();
    }
    head.flags == 4 && ends_with_data(rest, stream, body)
}

/// Whether octets begin with a frame of a stream.
fn is_of_stream(octets: &[u8], stream: u32) -> bool {
    match split(octets) {
        Split::Frame(view, _) => view.id == stream,
        _ => false,
    }
}

/// Whether what is put out last is right where an upstream ends, or fails, whose response on a
/// stream was heard so far: where the end completes that, all of it, or what is left; else 502, or
/// a reset where the response's head went out.
fn is_told_well(
    last: &[u8],
    stream: u32,
    heard: Option<Heard<'_>>,
    is_end: bool,
    passing: Passing,
) -> bool {
    if !is_of_stream(last, stream) {
        return false;
    }
    match (heard, passing) {
        (Some(heard), Passing::Whole) if is_end && heard.ends_with_connection() => {
            is_response(last, stream, heard.body)
        }
        (Some(heard), Passing::Streaming) if is_end && heard.ends_with_connection() => {
            ends_with_data(last, stream, b"")
        }
        (Some(_), Passing::Streaming) => is_reset(last, 2),
        _ => is_replied(last),
    }
}

/// Whether the other connections are open or closed as they are where the whole piece comes.
fn are_others_alike(upstreams: &[SeenUpstream], others: &[SeenUpstream], k: u32) -> bool {
    for (place, (upstream, other)) in upstreams.iter().zip(others).enumerate() {
        if place.saturating_add(1) != k as usize && upstream.is_closed != other.is_closed {
            return false;
        }
    }
    upstreams.len() == others.len()
}

/// Whether what is put out for the client is right where an upstream ends, or fails. Where its
/// connection was closed before, that is what is put out where the whole piece comes, whose front
/// decided it (`whole`), and so it is where the connection is idle; where the client takes nothing
/// it is nothing yet.
fn is_ended_well(told: &Told, whole: &Told, k: u32, is_end: bool, passing: Passing) -> bool {
    if told.strays > 0 || !are_others_alike(&told.upstreams, &whole.upstreams, k) {
        return false;
    }
    let is_same = told.client.as_slice() == whole.client.as_slice();
    if !told.came {
        return is_same;
    }
    let Some(upstream) = told.upstream(k) else {
        return false;
    };
    let last = told.last_of_client();
    let heard = upstream.response();
    if upstream.is_idle() {
        return upstream.is_closed && last.is_empty() && is_same;
    }
    if told.untaken_before() >= 65536 {
        return last.is_empty();
    }
    upstream.is_closed && is_told_well(last, upstream.stream, heard, is_end, passing)
}

/// The first cut of a piece at which it is wrong what is put out, where the upstream ends or fails there.
fn wrong_cut(
    alloc: Global,
    config: &Config,
    before: &[Event],
    k: u32,
    piece: &[u8],
) -> Result<Option<usize>, AllocError>
    requires { IsServable (setup_of config.now) }
{
    let passing = config.passing;
    let whole = [Event::Up(k, Vec::from_slice(alloc, piece)?)];
    let whole = drive(alloc, config, before, &whole)?;
    for cut in 1..piece.len() + 1 {
        if !is_cut(cut, piece.len()) {
            continue;
        }
        let front = piece.get(..cut).unwrap_or(piece);
        let ends = [
            Event::Up(k, Vec::from_slice(alloc, front)?),
            Event::UpEnd(k),
        ];
        let fails = [
            Event::Up(k, Vec::from_slice(alloc, front)?),
            Event::UpFailed(k),
        ];
        if !is_ended_well(
            &drive(alloc, config, before, &ends)?,
            &whole,
            k,
            true,
            passing,
        ) || !is_ended_well(
            &drive(alloc, config, before, &fails)?,
            &whole,
            k,
            false,
            passing,
        ) {
            return Ok(Some(cut));
        }
    }
    Ok(None)
}

/// The octets of the client's preface.
const PREFACE: usize = 24;

/// How many octets the first frame of a client's octets has, or the preface, if that begins them.
fn first_frame(octets: &[u8]) -> usize {
    if octets.starts_with(b"PRI") {
        return PREFACE;
    }
    match split(octets) {
        Split::Frame(_, used) => used,
        _ => octets.len(),
    }
}

/// Adds octets of the client, each frame by itself, so that what is put out behind one is of its stream.
fn push_frames(alloc: Global, piece: &[u8], events: &mut Vec<Event>) -> Result<(), AllocError> {
    let mut rest = piece;
    for _ in 0..piece.len() {
        if rest.is_empty() {
            return Ok(());
        }
        let used = first_frame(rest);
        let frame = rest.get(..used).unwrap_or(rest);
        events.push(Event::Client(Vec::from_slice(alloc, frame)?))?;
        rest = rest.get(used..).unwrap_or(&[]);
    }
    Ok(())
}

/// Adds an event once more, with each frame of the client by itself.
fn push_event(alloc: Global, event: &Event, events: &mut Vec<Event>) -> Result<(), AllocError> {
    let copied = match event {
        Event::Client(piece) => return push_frames(alloc, piece, events),
        Event::ClientEnd => Event::ClientEnd,
        Event::ClientTook(count) => Event::ClientTook(*count),
        Event::Up(k, piece) => Event::Up(*k, Vec::from_slice(alloc, piece)?),
        Event::UpEnd(k) => Event::UpEnd(*k),
        Event::UpFailed(k) => Event::UpFailed(*k),
        Event::UpTook(k, count) => Event::UpTook(*k, *count),
        Event::Drain => Event::Drain,
    };
    events.push(copied)?;
    Ok(())
}

/// The first event of an upstream behind an octet of which it ends or fails and something else is
/// put out than there should be.
pub(crate) fn difference(
    alloc: Global,
    config: &Config,
    events: &[Event],
) -> Result<Option<String>, AllocError>
    requires { IsServable (setup_of config.now) }
{
    let mut before = Vec::new(alloc);
    for (place, event) in events.iter().enumerate() {
        if let Event::Up(k, piece) = event {
            if let Some(cut) = wrong_cut(alloc, config, &before, *k, piece)? {
                let number = place.saturating_add(1);
                return Ok(Some(format!(in alloc; "event {number}, octet {cut}")?));
            }
        }
        push_event(alloc, event, &mut before)?;
    }
    Ok(None)
}
