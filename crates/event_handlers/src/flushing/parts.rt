//! The next part of a stream's response goes out, and what is left of it is kept.

ghost use Rattle.std.specs.Prelude.{◌≡◌, ◌+◌, ◌*◌, ◌-◌, ◌/◌, ◌<◌, ◌≤◌, ◌^◌, true, false, nat_lt, ◌≤ℤ◌, pos, IfErr, IfOk, OnOk};
ghost use Rattle.model.specs.Limits.{high_water, most_untaken};
ghost use Rattle.theory_errors.specs.Judging.{window_in};
ghost use Rattle.theory_errors.specs.Rows.{find};
ghost use Rattle.theory_responses.specs.State.{are_open, can_turn};
ghost use Rattle.streams.specs.Asked.{is_active};
ghost use Rattle.connection_state.specs.Sending.{AreWithin};
ghost use Rattle.send_queue.specs.Asked.{are_octets, are_trailers, part_for, windows_over};
ghost use Rattle.refinement.specs.View.{waiting_for};
ghost use Rattle.event_handlers.specs.Stopping.{IfOver, IsCalmed};
ghost use Rattle.event_handlers.specs.flushing.Changes.{ended, put_at_end, AreTrailersSent, IsHeadPart, IsHeadSent, AreOctetsNoted, IsPartSent};

use crate::forgetting::forget_stream;
use crate::halt::Halt;
use crate::paying::{Control, pay};
use connection_state::Connection;
use effects::{Outputs, section_of};
use protocol::error_codes::NO_ERROR;
use protocol::lengths::FRAME_HEADER;
use protocol::limits::LONGEST_PAYLOAD;
use refinement::Session;
use send_buffer::Part;
use std::alloc::{AllocError, Global};

/// The octets of a frame's header (RFC 9113, section 4.1).
const HEADER: u64 = FRAME_HEADER as u64;

/// The most octets of a frame's payload (RFC 9113, section 4.2).
const LONGEST: i64 = LONGEST_PAYLOAD as i64;

/// A head that goes next on a stream.
#[derive(Clone, Copy)]
struct NextHead {
    /// It is a response's final head, and no interim one.
    is_final: bool,
    /// It ends the stream.
    ends: bool,
}

/// How many octets the frames of a header block are (RFC 9113, sections 4.1, 6.2 and 6.10), by its own.
fn octets_of_block(block: usize) -> u64
    requires { block < 2 ^ 63 }
    ensures { result ≡ block + 9 * ((block - 1) / 16384 + 1) }
{
    let further = block.saturating_sub(1) / LONGEST_PAYLOAD;
    block as u64 + HEADER * (further as u64 + 1)
}

/// Sends the head that goes next on an active stream, in the frames of one header block (RFC 9113,
/// sections 6.2, 6.10 and 8.1). An `Err` says that memory was refused.
fn send_head(
    alloc: Global,
    session: &mut Session,
    id: u32,
    next: NextHead,
    out: &mut Outputs,
) -> Result<(), AllocError>
    requires head { IsHeadPart (part_for 1 id session.old.offers.kept) next.is_final next.ends }
    requires live { is_active session.old.inbound.rows id ≡ true }
    requires small { id < 2147483648 }
    requires few { session.old.untaken < high_water }
    ensures sent { OnOk result (IsHeadSent session.old out.old id next.is_final next.ends session.new out.new) }
    ensures room { OnOk result (session.new.untaken + 13 < 2 ^ 64) }
{
    let head = session.offers.take_head(id);
    let fields = section_of(alloc, head)?;
    let mut block = Vec::new(alloc);
    session.encoder.encode(&fields, &mut block)?;
    out.send_block(id, &block, next.ends)?;
    session.untaken += octets_of_block(block.len());
    session.inbound.sent_head(id, next.is_final, next.ends);
    Ok(())
}

/// Sends the trailers that go next on an active stream, in the frames of one header block, which
/// ends it (RFC 9113, section 8.1). An `Err` says that memory was refused.
fn send_trailers(
    alloc: Global,
    session: &mut Session,
    id: u32,
    out: &mut Outputs,
) -> Result<(), AllocError>
    requires trailers { are_trailers (part_for 1 id session.old.offers.kept) ≡ true }
    requires live { is_active session.old.inbound.rows id ≡ true }
    requires small { id < 2147483648 }
    requires few { session.old.untaken < high_water }
    ensures sent { OnOk result (AreTrailersSent session.old out.old id session.new out.new) }
    ensures room { OnOk result (session.new.untaken + 13 < 2 ^ 64) }
{
    let trailers = session.offers.take_trailers(id);
    let mut block = Vec::new(alloc);
    session.encoder.encode(&trailers, &mut block)?;
    out.send_block(id, &block, true)?;
    session.untaken += octets_of_block(block.len());
    session.inbound.sent_head(id, false, true);
    Ok(())
}

/// How many octets of DATA may go on a stream at once, at least one: what a frame holds and, where
/// both windows are open, what they let through (RFC 9113, sections 4.2 and 6.9.1).
fn most_octets(inbound: &Connection, id: u32) -> usize
    ensures some { 0 < result }
    ensures few { result ≤ 16384 }
    ensures shared { are_open (windows_over inbound.now.rows inbound.now.first_size inbound.now.window) id ≡ true → pos result ≤ℤ inbound.now.window }
    ensures own { are_open (windows_over inbound.now.rows inbound.now.first_size inbound.now.window) id ≡ true → is_active inbound.now.rows id ≡ true
        → pos result ≤ℤ window_in inbound.now.first_size (find inbound.now.rows id) }
{
    let shared = inbound.window();
    let own = match inbound.streams().find(id) {
        Some(live) => inbound.window_on(live),
        None => 0,
    };
    let most = if own < shared { own } else { shared };
    if most <= 0 {
        1
    } else if most < LONGEST {
        most as usize
    } else {
        LONGEST_PAYLOAD
    }
}

/// Notes that octets that go next on an active stream were sent in one frame, or its end without
/// octets: as many as the part has where `most` may go (RFC 9113, section 6.1).
fn note_octets(session: &mut Session, id: u32, most: usize, count: usize, ends: bool)
    requires octets { are_octets (part_for most id session.old.offers.kept) ≡ true }
    requires live { is_active session.old.inbound.rows id ≡ true }
    requires within { AreWithin session.old.inbound id count }
    requires short { count ≤ 16384 }
    requires few { session.old.untaken < high_water }
    ensures noted { AreOctetsNoted session.old id most count ends session.new }
    ensures room { session.new.untaken + 13 < 2 ^ 64 }
{
    session.offers.take_octets(id, most);
    session.untaken += HEADER + count as u64;
    session.inbound.sent_data(id, count as u32, ends);
}

/// Sends the next part of an active stream of which something can go: a head, trailers or octets;
/// whether that ends the stream is the answer. An `Err` says that memory was refused.
pub fn send_part(
    alloc: Global,
    session: &mut Session,
    id: u32,
    out: &mut Outputs,
) -> Result<bool, AllocError>
    requires ready { can_turn (windows_over session.old.inbound.rows session.old.inbound.first_size session.old.inbound.window) session.old.offers id ≡ true }
    requires live { is_active session.old.inbound.rows id ≡ true }
    requires small { id < 2147483648 }
    requires few { session.old.untaken < high_water }
    ensures sent { IfOk result (λ ends. IsPartSent session.old out.old id ends session.new out.new) }
    ensures room { OnOk result (session.new.untaken + 13 < 2 ^ 64) }
{
    let most = most_octets(&session.inbound, id);
    match session.offers.part(id, most) {
        Some(Part::Early(_)) => {
            let next = NextHead {
                is_final: false,
                ends: false,
            };
            send_head(alloc, session, id, next, out)?;
            Ok(false)
        }
        Some(Part::Final(_, ends)) => {
            let next = NextHead {
                is_final: true,
                ends,
            };
            send_head(alloc, session, id, next, out)?;
            Ok(ends)
        }
        Some(Part::Trailing(_)) => {
            send_trailers(alloc, session, id, out)?;
            Ok(true)
        }
        Some(Part::Octets(front, back, ends)) => {
            let count = front.len() + back.len();
            out.send_data(id, front, back, ends)?;
            note_octets(session, id, most, count, ends);
            Ok(ends)
        }
        None => unreachable!(),
    }
}

/// A stream is over that the gateway ended: where the client hasn't ended it, it is reset (RFC
/// 9113, section 8.1). Nothing is on offer for it any more, and nothing is held of its request; so
/// many octets that waited of its DATA go back. An `Err` says that memory was refused, or that the
/// connection was ended in place of the reset.
pub fn end_stream(session: &mut Session, id: u32, out: &mut Outputs) -> Result<u64, Halt>
    requires small { id < 2147483648 }
    ensures dropped { IfOk result (λ dropped. dropped ≡ waiting_for id session.old) }
    ensures kept { OnOk result (session.new ≡ ended id session.old) }
    ensures puts { OnOk result (out.new ≡ put_at_end id session.old out.old) }
    ensures few { OnOk result (is_active session.old.inbound.rows id ≡ true → nat_lt most_untaken session.old.untaken ≡ false) }
    ensures over { IfErr result (λ stop. IfOver stop ((is_active session.old.inbound.rows id ≡ true) × IsCalmed session.old out.old out.new)) }
{
    if session.inbound.streams().find(id).is_some() {
        let control = Control::Reset {
            stream: id,
            code: NO_ERROR,
        };
        pay(session, control, out)?;
        session.inbound.sent_reset(id);
    }
    Ok(forget_stream(session, id))
}
