//! A client that goes away behind each of its octets.

ghost use Rattle.gateway.specs.Setups.{setup_of, IsServable};

use crate::messages::requests_in;
use crate::runs::{SeenUpstream, Told, drive};
use crate::texts::is_cut;
use frames::{Split, View, split};
use gateway::{Config, Event, Passing};
use std::alloc::{AllocError, Global};

/// What was seen of the frames of a client: how many requests have ended, and whether the header
/// block that is begun ends one.
#[derive(Clone, Copy)]
struct Seen {
    ended: usize,
    is_last: bool,
}

/// What is seen behind one more frame: a request ends with DATA that has END_STREAM, or with the
/// last frame of a header block that has it.
fn seen_behind(seen: Seen, view: View<'_>) -> Seen {
    let ends_stream = view.flags & 1 != 0;
    let ends_block = view.flags & 4 != 0;
    let is_last = match view.kind {
        1 => ends_stream,
        _ => seen.is_last,
    };
    let ends = match view.kind {
        0 => ends_stream,
        1 | 9 => is_last && ends_block,
        _ => false,
    };
    let ended = seen.ended.saturating_add(usize::from(ends));
    Seen { ended, is_last }
}

/// How many requests have ended in octets of a client.
fn ended_in(octets: &[u8]) -> usize {
    let mut seen = Seen {
        ended: 0,
        is_last: false,
    };
    let mut rest = octets.get(24..).unwrap_or(&[]);
    for _ in 0..octets.len() {
        match split(rest) {
            Split::Frame(view, used) => {
                seen = seen_behind(seen, view);
                rest = rest.get(used..).unwrap_or(&[]);
            }
            _ => return seen.ended,
        }
    }
    seen.ended
}

/// How many whole requests these upstreams were sent.
fn whole_requests(upstreams: &[SeenUpstream]) -> usize {
    let mut count = 0usize;
    for upstream in upstreams {
        count = count.saturating_add(requests_in(&upstream.text).count);
    }
    count
}

/// Whether a connection was sent whole requests alone, of which there are some.
fn has_whole_requests(upstream: &SeenUpstream) -> bool {
    let found = requests_in(&upstream.text);
    found.count > 0 && found.rest.is_empty()
}

/// Whether all connections were closed, and were sent fronts of what they're sent in the whole run;
/// where bodies are passed on whole, whole requests alone.
fn are_fronts(upstreams: &[SeenUpstream], others: &[SeenUpstream], passes_whole: bool) -> bool {
    for (upstream, other) in upstreams.iter().zip(others) {
        if !upstream.is_closed || !other.text.starts_with(&upstream.text) {
            return false;
        }
        if passes_whole && !has_whole_requests(upstream) {
            return false;
        }
    }
    upstreams.len() <= others.len()
}

/// Whether all was closed, and upstreams were sent no more whole requests than the client had
/// ended, and else fronts of what they're sent in the whole run; where bodies are passed on whole,
/// whole requests alone.
fn is_left_well(told: &Told, whole: &Told, octets: &[u8], passing: Passing) -> bool {
    let passes_whole = matches!(passing, Passing::Whole);
    told.is_over
        && told.strays == 0
        && whole_requests(&told.upstreams) <= ended_in(octets)
        && are_fronts(&told.upstreams, &whole.upstreams, passes_whole)
}

/// The first cut of a piece at which it is wrong what is put out, where the client goes away there;
/// `came` came before it, and is left as it was.
fn wrong_cut(
    alloc: Global,
    config: &Config,
    before: &[Event],
    piece: &[u8],
    whole: &Told,
    came: &mut Vec<u8>,
) -> Result<Option<usize>, AllocError>
    requires { IsServable (setup_of config.now) }
{
    let start = came.len();
    for cut in 0..piece.len() + 1 {
        if !is_cut(cut, piece.len()) {
            continue;
        }
        let front = piece.get(..cut).unwrap_or(piece);
        came.truncate(start);
        came.extend_from_slice(front)?;
        let more = [
            Event::Client(Vec::from_slice(alloc, front)?),
            Event::ClientEnd,
        ];
        let told = drive(alloc, config, before, &more)?;
        if !is_left_well(&told, whole, came, config.passing) {
            return Ok(Some(cut));
        }
    }
    came.truncate(start);
    Ok(None)
}

/// The first event of the client behind an octet of which it goes away and something else comes than it should.
pub(crate) fn difference(
    alloc: Global,
    config: &Config,
    events: &[Event],
) -> Result<Option<String>, AllocError>
    requires { IsServable (setup_of config.now) }
{
    let whole = drive(alloc, config, events, &[])?;
    let mut came = Vec::new(alloc);
    for (place, event) in events.iter().enumerate() {
        let Event::Client(piece) = event else {
            continue;
        };
        if is_cut(place, events.len()) {
            let before = events.get(..place).unwrap_or(&[]);
            if let Some(cut) = wrong_cut(alloc, config, before, piece, &whole, &mut came)? {
                let number = place.saturating_add(1);
                return Ok(Some(format!(in alloc; "event {number}, octet {cut}")?));
            }
        }
        came.extend_from_slice(piece)?;
    }
    Ok(None)
}
