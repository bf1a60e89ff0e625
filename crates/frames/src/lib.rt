//! Frames of HTTP/2 (RFC 9113, sections 4.1 and 6): one is split from the front of some octets,
//! what its payload says is told, and one is written behind others.
#![tactic(auto)]

ghost use Rattle.std.specs.Prelude.{◌≡◌, ℕ, ◌+◌, ◌<◌, ◌≤◌, List, ◌++◌, length, vec_len, vec_capacity, OnOk, OnErr};
ghost use Rattle.model.specs.Frames.{spell, Fits};
ghost use Rattle.frames.specs.Views.{frame_of, with_payload, joined, IsSplit};

mod flags;
mod parts;
mod payload;
mod views;

pub use flags::{ends_headers, ends_stream, has_settings, is_ack, is_misplaced};
pub use parts::{Frame, FrameFault};
pub use payload::parse;
use protocol::lengths::FRAME_HEADER;
use protocol::limits::LONGEST_PAYLOAD;
use std::alloc::AllocError;
pub use views::{Split, View};

/// Splits off the frame with which `octets` begin, and says how many octets it takes.
///
/// Nothing is copied: the payload is the slice of `octets` behind the nine of the header (RFC 9113,
/// section 4.1). The reserved bit of the stream's number is ignored. A length of over 16,384 octets
/// is refused as soon as the whole header is there; anything else that is less than a frame waits
/// for more.
pub fn split(octets: &[u8]) -> Split<'_>
    ensures { IsSplit octets.now result }
{
    if octets.len() < FRAME_HEADER {
        return Split::More;
    }
    let length = octets[0] as usize * 65536 + octets[1] as usize * 256 + octets[2] as usize;
    if length > LONGEST_PAYLOAD {
        return Split::TooLong;
    }
    if octets.len() - FRAME_HEADER < length {
        return Split::More;
    }
    let id = (octets[5] % 128) as u32 * 16777216
        + octets[6] as u32 * 65536
        + octets[7] as u32 * 256
        + octets[8] as u32;
    let view = View {
        kind: octets[3],
        flags: octets[4],
        id,
        payload: &octets[FRAME_HEADER..FRAME_HEADER + length],
    };
    Split::Frame(view, FRAME_HEADER + length)
}

/// Writes a frame at the end of `out`, with the reserved bit 0 (RFC 9113, section 4.1).
///
/// The payload has at most 16,384 octets, and the stream's number is below 2,147,483,648. The only error is that no
/// memory was left, and then `out` keeps its octets.
pub fn write(view: &View<'_>, out: &mut Vec<u8>) -> Result<(), AllocError>
    requires { Fits (frame_of view.now) }
    ensures ok { OnOk result (out.new.items ≡ out.old.items ++ spell (frame_of view.now)) }
    ensures err { OnErr result (out.new.items ≡ out.old.items) }

    // It fails only where the vector had to grow.
    ensures full { OnErr result (vec_capacity out.old < vec_len out.old + (9 + length view.now.payload.now)) }
{
    write_joined(view, &[], out)
}

/// Writes a frame whose payload lies in two parts, that of `view` and `more` behind it, at the end of `out`.
///
/// Its conditions and its error are those of `write`, where the payload is both parts.
pub fn write_joined(view: &View<'_>, more: &[u8], out: &mut Vec<u8>) -> Result<(), AllocError>
    requires { Fits (joined view.now more.now) }
    ensures ok { OnOk result (out.new.items ≡ out.old.items ++ spell (joined view.now more.now)) }
    ensures err { OnErr result (out.new.items ≡ out.old.items) }
    ensures full { OnErr result (vec_capacity out.old < vec_len out.old + (9 + (length view.now.payload.now + length more.now))) }
{
    let count = view.payload.len() + more.len();
    let header = header_of(view, count);
    out.reserve(FRAME_HEADER + count)?;
    out.extend_from_slice(&header)?;
    out.extend_from_slice(view.payload)?;
    out.extend_from_slice(more)
}

/// The octets before a payload of so many octets.
fn header_of(view: &View<'_>, count: usize) -> [u8; FRAME_HEADER]
    requires count { count ≤ 16384 }
    requires stream { view.now.id < 2147483648 }
    ensures { (payload : List ℕ) → length payload ≡ count → result ++ payload ≡ spell (with_payload view.now payload) }
{
    [
        (count / 65536) as u8,
        (count / 256 % 256) as u8,
        (count % 256) as u8,
        view.kind,
        view.flags,
        (view.id / 16777216) as u8,
        (view.id / 65536 % 256) as u8,
        (view.id / 256 % 256) as u8,
        (view.id % 256) as u8,
    ]
}
