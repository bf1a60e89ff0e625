//! What is done behind the judgement of a frame.

ghost use Rattle.std.specs.Prelude.{◌≡◌, ◌+◌, ◌<◌, true, false, nat_lt, length, if◌then◌else◌, IfErr, IfOk, OnOk};
ghost use Rattle.model.specs.Limits.{most_untaken};
ghost use Rattle.model.specs.Frames.{spell};
ghost use Rattle.model.specs.ErrorClause.{rst_stream};
ghost use Rattle.model.specs.Logs.Output.{ToClient};
ghost use Rattle.model.specs.Tapes.{put};
ghost use Rattle.theory_errors.specs.Rows.{find};
ghost use Rattle.streams.specs.Asked.{is_active};
ghost use Rattle.streams.specs.Sending.{is_served};
ghost use Rattle.theory_receive_windows.specs.Marks.{total};
ghost use Rattle.window_credit.specs.Sides.{queue_of};
ghost use Rattle.refinement.specs.View.{waiting_for};
ghost use Rattle.event_handlers.specs.Stopping.{IfOver, IsCalmed};
ghost use Rattle.event_handlers.specs.Forgetting.{forgotten};
ghost use Rattle.event_handlers.specs.block_frames.Following.{followed, dropped_by, goaway_behind, held_if, marks_if};
ghost use Rattle.event_handlers.specs.block_frames.Following.{offers_if, put_goaway, with_goaway, IsCalmedBehind};
ghost use Rattle.event_handlers.specs.block_frames.Following.{IsNewest, WasFree};

use crate::forgetting::forget_stream;
use crate::halt::Halt;
use crate::paying::{Control, pay};
use connection_state::Connection;
use effects::Outputs;
use protocol::error_codes::NO_ERROR;
use protocol::limits::MOST_STREAMS;
use refinement::Session;
use send_queue::Offers;
use std::alloc::AllocError;
use streams::StreamTable;
use upstream_connections::Upstreams;
use window_credit::Marks;

/// Whether a stream is active (RFC 9113, section 5.1), and whether it is served: it is active, and the
/// gateway doesn't reply to it itself.
fn stays(streams: &StreamTable, id: u32) -> (bool, bool)
    ensures active { result.0 ≡ is_active streams.now id }
    ensures served { result.1 ≡ is_served streams.now id }
{
    match streams.find(id) {
        Some(live) => (true, !live.is_replied()),
        None => (false, false),
    }
}

/// Whether the client has ended an active stream (RFC 9113, section 5.1).
pub(crate) fn has_ended(inbound: &Connection, id: u32) -> bool
    requires { is_active inbound.now.rows id ≡ true }
    ensures { result ≡ (find inbound.now.rows id).ended_by_client }
{
    match inbound.streams().find(id) {
        Some(live) => live.ended_by_client(),
        None => unreachable!(),
    }
}

/// The last stream that the connection may have, where it was opened just now: so many were opened
/// before (RFC 9113, section 6.8).
pub(crate) fn goaway_behind(before: u32, streams: &StreamTable) -> Option<u32>
    ensures { result ≡ goaway_behind before streams.now }
{
    if before < MOST_STREAMS && streams.count() == MOST_STREAMS {
        return Some(streams.highest());
    }
    None
}

/// Begins to keep what is on offer for a stream that became active, and ends to where it is no
/// longer. An `Err` says that memory was refused.
fn follow_offers(offers: &mut Offers, id: u32, active: bool) -> Result<(), AllocError>
    requires { IsNewest active id offers.old }
    ensures { OnOk result (offers.new ≡ offers_if active id offers.old) }
{
    if !active {
        offers.close(id);
        return Ok(());
    }
    if offers.is_kept(id) {
        return Ok(());
    }
    offers.open(id)
}

/// Nothing is held of a request whose stream isn't served any more.
fn follow_requests(upstreams: &mut Upstreams, id: u32, served: bool)
    ensures { upstreams.new ≡ record upstreams.old { held = held_if served id upstreams.old.held } }
{
    if !served {
        upstreams.forget(id);
    }
}

/// Nothing is kept of a stream's DATA that waited once the stream isn't active: so many octets go back.
fn follow_marks(marks: &mut Marks, id: u32, active: bool) -> u64
    ensures kept { marks.new ≡ marks_if active id marks.old }
    ensures dropped { result ≡ (if active then 0 else total (queue_of id marks.old)) }
{
    if active { 0 } else { marks.close(id) }
}

/// What is kept of a stream follows what the judgement left of it; so many octets that waited of
/// its DATA go back. An `Err` says that memory was refused.
pub(crate) fn follow(session: &mut Session, id: u32) -> Result<u64, AllocError>
    requires { IsNewest (is_active session.old.inbound.rows id) id session.old.offers }
    ensures kept { OnOk result (session.new ≡ followed id session.old) }
    ensures dropped { IfOk result (λ dropped. dropped ≡ dropped_by id session.old) }
{
    let (active, served) = stays(session.inbound.streams(), id);
    follow_offers(&mut session.offers, id, active)?;
    follow_requests(&mut session.upstreams, id, served);
    Ok(follow_marks(&mut session.marks, id, active))
}

/// Pays the GOAWAY, where it is owed (RFC 9113, section 6.8). An `Err` says that memory was
/// refused, or that the connection was ended in its place.
fn pay_goaway(session: &mut Session, goaway: Option<u32>, out: &mut Outputs) -> Result<(), Halt>
    ensures kept { OnOk result (session.new ≡ with_goaway goaway session.old) }
    ensures sent { OnOk result (out.new ≡ put_goaway goaway out.old) }
    ensures free { OnOk result (WasFree goaway session.old) }
    ensures over { IfErr result (λ stop. IfOver stop (IsCalmed session.old out.old out.new)) }
{
    match goaway {
        Some(last) => pay(
            session,
            Control::Goaway {
                last,
                code: NO_ERROR,
            },
            out,
        ),
        None => Ok(()),
    }
}

/// Sends the reset of a stream behind the GOAWAY, if that is owed; nothing is kept of the stream
/// any more (RFC 9113, section 6.4), and so many octets that waited of its DATA go back. An `Err`
/// says that memory was refused, or that the connection was ended in place of one of the frames.
pub(crate) fn reset(
    session: &mut Session,
    id: u32,
    code: u32,
    goaway: Option<u32>,
    out: &mut Outputs,
) -> Result<u64, Halt>
    requires { id < 2147483648 }
    ensures dropped { IfOk result (λ dropped. dropped ≡ waiting_for id session.old) }
    ensures kept { OnOk result (session.new ≡ record (forgotten id session.old) {
      untaken = (with_goaway goaway session.old).untaken
          + length (spell (rst_stream id code));
    }) }
    ensures sent { OnOk result (out.new ≡ put (put_goaway goaway out.old) (ToClient (spell (rst_stream id code)))) }
    ensures few { OnOk result (nat_lt most_untaken (with_goaway goaway session.old).untaken ≡ false) }
    ensures over { IfErr result (λ stop. IfOver stop (IsCalmedBehind goaway session.old out.old out.new)) }
{
    pay_goaway(session, goaway, out)?;
    pay(session, Control::Reset { stream: id, code }, out)?;
    Ok(forget_stream(session, id))
}
