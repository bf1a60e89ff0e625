//! A frame of the client with a fragment of a header block is taken.

ghost use Rattle.std.specs.Prelude.{◌≡◌, ◌≤◌, ◌<◌, true, [], ◌∷◌, None, length, IfErr, IfOk};
ghost use Rattle.model.specs.Causes.{reset_code};
ghost use Rattle.model.specs.Setup.{Setup};
ghost use Rattle.local_replies.specs.Views.{cause_of};
ghost use Rattle.theory_errors.specs.Rows.{find};
ghost use Rattle.frames.specs.Views.{frame_of};
ghost use Rattle.streams.specs.Asked.{is_active};
ghost use Rattle.connection_state.specs.Blocks.{IsFor};
ghost use Rattle.connection_state.specs.Fragments.{IsOfBlock};
ghost use Rattle.theory_requests.specs.State.{held_of};
ghost use Rattle.upstream_connections.specs.Requests.{MayTakeOf};
ghost use Rattle.refinement.specs.View.{balanced};
ghost use Rattle.refinement.specs.Rest.{IsAtRest, Reached};
ghost use Rattle.event_handlers.specs.Comings.{ComesFrom};
ghost use Rattle.event_handlers.specs.Inputs.Input.{OfFrame};
ghost use Rattle.event_handlers.specs.Stopping.{IfOver};
ghost use Rattle.event_handlers.specs.block_frames.Following.{IsCalmedBehind, IsNewest};
ghost use Rattle.event_handlers.specs.block_frames.Acting.{HasBegun, HasEnded, IsActed, IsCutShort, IsFollowed};
ghost use Rattle.event_handlers.specs.block_frames.Acting.{IsReplied, IsReset, IsStopped, MayAct, MayBegin};
ghost use Rattle.event_handlers.specs.block_frames.Taken.{IsBlockTaken, IsOutlet};

use crate::asking::head_out;
use crate::block_frames::doing::{follow, goaway_behind, has_ended, reset};
use crate::block_frames::outlet::Outlet;
use crate::crowding::is_crowded;
use crate::halt::Halt;
use connection_state::{BlockJudged, FrameError, Terms};
use effects::Outputs;
use frames::View;
use header_blocks::Field;
use local_replies::Cause;
use refinement::Session;
use request_rules::RequestHead;
use std::alloc::AllocError;
use upstream_connections::Due;

/// What is to be done behind a frame of the client that has a fragment of a header block.
#[derive(Drop)]
pub enum BlockTaken {
    /// The connection ends with GOAWAY and this code (RFC 9113, section 5.4.1).
    Fatal(u32),
    /// It goes on; a request, or more of one, may be due to its upstream.
    Goes {
        /// What is due.
        due: Due,
        /// The last stream that the connection may have, where GOAWAY with NO_ERROR is owed, since
        /// it was opened (RFC 9113, section 6.8).
        goaway: Option<u32>,
        /// How many octets that waited of the stream's DATA go back on the connection, since it is over.
        dropped: u64,
    },
}

/// Does nothing but that what is kept of the stream follows.
fn pass(
    session: &mut Session,
    id: u32,
    goaway: Option<u32>,
    out: &mut Outputs,
) -> Result<BlockTaken, AllocError>
    requires { IsNewest (is_active session.old.inbound.rows id) id session.old.offers }
    ensures { IfOk result (λ taken. IsFollowed id goaway session.old out.old taken session.new out.new) }
{
    let dropped = follow(session, id)?;
    Ok(BlockTaken::Goes {
        due: Due::Nothing,
        goaway,
        dropped,
    })
}

/// Resets a stream on which the frame is an error (RFC 9113, section 5.4.2).
pub(crate) fn refuse(
    session: &mut Session,
    id: u32,
    code: u32,
    goaway: Option<u32>,
    out: &mut Outputs,
) -> Result<BlockTaken, Halt>
    requires { id < 2147483648 }
    ensures taken { IfOk result (λ taken. IsReset id code goaway session.old out.old taken session.new out.new) }
    ensures over { IfErr result (λ stop. IfOver stop (IsCalmedBehind goaway session.old out.old out.new)) }
{
    let dropped = reset(session, id, code, goaway, out)?;
    Ok(BlockTaken::Goes {
        due: Due::Nothing,
        goaway: None,
        dropped,
    })
}

/// Begins a request: it is due where its head ends it, or where requests go out at once, and waits
/// else (RFC 9113, section 8.1).
fn begin(
    session: &mut Session,
    id: u32,
    head: &RequestHead,
    route: u32,
    outlet: Outlet,
    goaway: Option<u32>,
    out: &mut Outputs,
) -> Result<BlockTaken, AllocError>
    requires newest { IsNewest (is_active session.old.inbound.rows id) id session.old.offers }
    requires may { MayBegin id head.now session.old }
    ensures { IfOk result (λ taken. HasBegun id route head.now outlet goaway session.old out.old taken session.new out.new) }
{
    let ended = has_ended(&session.inbound, id);
    let dropped = follow(session, id)?;
    let Outlet { at_once, keep } = outlet;
    let due = session
        .upstreams
        .begin(id, route, head, ended, keep, at_once)?;
    Ok(BlockTaken::Goes {
        due,
        goaway,
        dropped,
    })
}

/// Replies to a request in place of an upstream, or resets its stream where it is too late for that.
fn reply(
    session: &mut Session,
    id: u32,
    cause: Cause,
    goaway: Option<u32>,
    out: &mut Outputs,
) -> Result<BlockTaken, Halt>
    requires newest { IsNewest (is_active session.old.inbound.rows id) id session.old.offers }
    requires live { is_active session.old.inbound.rows id ≡ true }
    requires of_stream { id < 2147483648 }
    ensures taken { IfOk result (λ taken. IsReplied (find session.old.inbound.rows id).head_out (reset_code (cause_of cause)) id
        (cause_of cause) goaway session.old out.old taken session.new out.new) }
    ensures over { IfErr result (λ stop. IfOver stop (IsCutShort (find session.old.inbound.rows id).head_out
        (reset_code (cause_of cause)) id goaway session.old out.old out.new)) }
{
    if head_out(&session.inbound, id) {
        if let Some(code) = cause.reset_code() {
            session.inbound.sent_reset(id);
            return refuse(session, id, code, goaway, out);
        }
    }
    let dropped = follow(session, id)?;
    session.offers.reply(id, cause)?;
    Ok(BlockTaken::Goes {
        due: Due::Nothing,
        goaway,
        dropped,
    })
}

/// Ends a request behind which trailers came, of which these are passed on: it is due, or what is
/// left of it where it goes out.
fn finish(
    session: &mut Session,
    id: u32,
    trailers: &[Field],
    goaway: Option<u32>,
    out: &mut Outputs,
) -> Result<BlockTaken, AllocError>
    requires { MayTakeOf [] true (held_of id session.old.upstreams.held) }
    ensures { IfOk result (λ taken. HasEnded id trailers.now goaway session.old out.old taken session.new out.new) }
{
    let due = session.upstreams.take_body(id, &[], true, trailers)?;
    Ok(BlockTaken::Goes {
        due,
        goaway,
        dropped: 0,
    })
}

/// Does what the judgement of a frame says.
fn act(
    session: &mut Session,
    id: u32,
    outlet: Outlet,
    answer: BlockJudged,
    goaway: Option<u32>,
    out: &mut Outputs,
) -> Result<BlockTaken, Halt>
    requires newest { IsNewest (is_active session.old.inbound.rows id) id session.old.offers }
    requires may { MayAct id answer session.old }
    requires of_stream { id < 2147483648 }
    ensures taken { IfOk result (λ taken. IsActed id outlet answer goaway session.old out.old taken session.new out.new) }
    ensures over { IfErr result (λ stop. IfOver stop (IsStopped id answer goaway session.old out.old out.new)) }
{
    match answer {
        BlockJudged::Failed(FrameError::Connection(code)) => Ok(BlockTaken::Fatal(code)),
        BlockJudged::Failed(FrameError::Stream(code)) => refuse(session, id, code, goaway, out),
        BlockJudged::Begins { head, route } => {
            Ok(begin(session, id, &head, route, outlet, goaway, out)?)
        },
        BlockJudged::Answered(cause) => reply(session, id, cause, goaway, out),
        BlockJudged::Trailers(trailers) => Ok(finish(session, id, &trailers, goaway, out)?),
        BlockJudged::Failed(FrameError::Discarded) | BlockJudged::GoesOn | BlockJudged::Ignored => {
            Ok(pass(session, id, goaway, out)?)
        }
    }
}

/// Takes a frame of the client that has a fragment of a header block: HEADERS or CONTINUATION. Its
/// stream is reset where it is in error, or where it is too late to reply (RFC 9113, section
/// 5.4.2); then the GOAWAY goes before that, if it is owed. A request goes out at once, before its
/// body came, where bodies are passed on as they come. An `Err` says that memory was refused, or
/// that the connection was ended in place of such a frame; then neither the session nor, in the first
/// case, the outputs are of use any more.
pub fn take_block(
    session: &mut Session,
    view: View<'_>,
    terms: Terms<'_>,
    outlet: Outlet,
    out: &mut Outputs,
) -> Result<BlockTaken, Halt>
    requires kind { IsOfBlock (frame_of view) }
    requires short { length view.payload.now ≤ 16384 }
    requires few { length terms.routes.now ≤ u32.MAX }
    requires of_stream { view.id < 2147483648 }
    requires rest { IsAtRest session.old }
    requires reached { (setup : Setup) × IsFor setup terms × IsOutlet setup outlet × Reached setup session.old balanced }
    ensures taken { IfOk result (λ taken. (setup : Setup) → IsFor setup terms.entry → IsOutlet setup outlet
        → IsBlockTaken setup session.old out.old (frame_of view.entry) taken session.new out.new) }
    ensures over { IfErr result (λ stop. IfOver stop ((setup : Setup) → IsFor setup terms.entry → IsOutlet setup outlet
        → ComesFrom setup session.old balanced out.old (OfFrame (frame_of view.entry) ∷ []) balanced None out.new)) }
{
    let before = session.inbound.streams().count();
    let crowded = is_crowded(session);
    let answer = session.inbound.judge_fragment(view, crowded, terms)?;
    let goaway = goaway_behind(before, session.inbound.streams());
    act(session, view.id, outlet, answer, goaway, out)
}
