//! POSTs with a body of three frames, as a client sends them.

use crate::gets::BEGIN;
use gateway::Event;
use std::alloc::Global;

/// The block of a POST for `/` of `www.example.com` (RFC 7541, section 6).
const BLOCK: &[u8] = b"\x83\x86\x84\x41\x0fwww.example.com";

/// What a frame of the body brings.
static PAYLOAD: [u8; 16_384] = [b'x'; 16_384];

/// Adds a frame on a stream (RFC 9113, section 4.1).
fn push_frame(
    kind: u8,
    flags: u8,
    id: [u8; 4],
    payload: &[u8],
    octets: &mut Vec<u8>,
) -> Option<()> {
    let length = u32::try_from(payload.len()).ok()?.to_be_bytes();
    octets.extend_from_slice(&length[1..]).ok()?;
    octets.extend_from_slice(&[kind, flags]).ok()?;
    octets.extend_from_slice(&id).ok()?;
    octets.extend_from_slice(payload).ok()
}

/// A connection's POST at a place, the preface before the first one: HEADERS, and three DATA frames
/// of which the last ends the stream (RFC 9113, section 8.1).
pub(crate) fn post_at(alloc: Global, place: u32) -> Option<Event> {
    let mut octets = Vec::new(alloc);
    if place == 0 {
        octets.extend_from_slice(BEGIN).ok()?;
    }
    let id = place.checked_mul(2)?.checked_add(1)?.to_be_bytes();
    push_frame(1, 4, id, BLOCK, &mut octets)?;
    push_frame(0, 0, id, &PAYLOAD, &mut octets)?;
    push_frame(0, 0, id, &PAYLOAD, &mut octets)?;
    push_frame(0, 1, id, &PAYLOAD, &mut octets)?;
    Some(Event::Client(octets))
}
