//! Frames, read off the front of a text.

ghost use Rattle.std.specs.Prelude.{◌≡◌, ◌≤◌, ◌++◌, length, slice_index, IfOk};
ghost use Rattle.model.specs.Setup.{Setup};
ghost use Rattle.refinement.specs.View.{balanced};
ghost use Rattle.refinement.specs.Rest.{Reached};
ghost use Rattle.event_handlers.specs.Resting.{IsSettled, IsServed};
ghost use Rattle.gateway.specs.Reading.{Reads, completing_in, used_in, RestsIn};

use effects::Outputs;
use event_handlers::{Breach, Onward, ServiceTerms, leave_at, take_frame};
use frames::{Split, split};
use protocol::lengths::FRAME_HEADER;
use refinement::Session;
use std::alloc::{AllocError, Global};

/// The octet at a place of two texts, one behind the other; 0 behind both.
#[tactic(auto, using(crate::proofs::Octets::in_front, crate::proofs::Octets::behind))]
fn octet_at(waiting: &[u8], piece: &[u8], place: usize) -> usize
    ensures octet { result ≡ slice_index (waiting.now ++ piece.now) place }
    ensures within { result ≤ 255 }
{
    let octet = match waiting.get(place) {
        Some(octet) => Some(octet),
        None => piece.get(place.saturating_sub(waiting.len())),
    };
    usize::from(octet.copied().unwrap_or(0))
}

/// How many octets of a piece complete the frame that begins with those that wait (RFC 9113,
/// section 4.1), or its header, or all of the piece where they are fewer. How a piece is cut means
/// nothing: what stands behind the cut can be read where it lies.
pub fn completing(waiting: &[u8], piece: &[u8]) -> usize
    ensures { result ≡ completing_in waiting.now piece.now }
{
    let length = octet_at(waiting, piece, 0) * 65536
        + octet_at(waiting, piece, 1) * 256
        + octet_at(waiting, piece, 2);
    (FRAME_HEADER + length)
        .saturating_sub(waiting.len())
        .min(piece.len())
}

/// How the reading of a text ended.
#[derive(Clone, Copy, Debug, PartialEq, Eq)]
pub enum Read {
    /// So many octets were frames, which were taken; the rest isn't one yet.
    Rest(usize),
    /// The connection was closed.
    Over,
}

/// Takes the whole frames off the front of a text, one after another, until the connection is
/// closed (RFC 9113, section 4.1). An `Err` says that memory was refused.
pub fn take_frames(
    alloc: Global,
    session: &mut Session,
    text: &[u8],
    service: ServiceTerms<'_>,
    out: &mut Outputs,
) -> Result<Read, AllocError>
    requires few { length service.terms.routes.now ≤ u32.MAX }
    requires bounded { service.terms.max_body ≤ 1073741824 }
    requires settled { IsSettled session.old }
    requires reached { (setup : Setup) × IsServed setup service × Reached setup session.old balanced }
    ensures within { IfOk result (λ read. used_in read ≤ length text.now) }
    ensures reads { IfOk result (λ read. Reads (λ setup. IsServed setup service.entry) session.old out.old text.now read session.new out.new) }
    ensures rests { IfOk result (λ read. RestsIn read session.new) }
{
    let mut used = 0;
    while used <= text.len() {
        match split(&text[used..]) {
            Split::Frame(view, octets) => {
                match take_frame(alloc, session, view, service, out)? {
                    Onward::On => used += octets,
                    Onward::Over => return Ok(Read::Over),
                }
            }
            Split::More => return Ok(Read::Rest(used)),
            Split::TooLong => {
                leave_at(session, Breach::TooLong, out)?;
                return Ok(Read::Over);
            }
        }
    }
    // No frame takes more octets than there are.
    unreachable!()
}
