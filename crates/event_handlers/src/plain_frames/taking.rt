//! A frame of the client without a fragment of a header block is taken.

ghost use Rattle.std.specs.Prelude.{◌≡◌, ◌≤◌, ◌<◌, true, length, IfOk};
ghost use Rattle.model.specs.Setup.{Setup};
ghost use Rattle.theory_errors.specs.Rows.{find};
ghost use Rattle.frames.specs.Views.{frame_of};
ghost use Rattle.streams.specs.Asked.{is_active};
ghost use Rattle.connection_state.specs.Judgement.{IsPlain};
ghost use Rattle.theory_requests.specs.State.{held_of};
ghost use Rattle.upstream_connections.specs.Requests.{MayTakeOf};
ghost use Rattle.refinement.specs.View.{balanced};
ghost use Rattle.refinement.specs.Rest.{IsAtRest, Reached};
ghost use Rattle.theory_requests.specs.State.Due.{Nothing};
ghost use Rattle.event_handlers.specs.declared.plain_frames.taking.Owed.TheVariants.{Reset};
ghost use Rattle.event_handlers.specs.plain_frames.Acting.{goes_on, Goes, IsActed, IsContent, IsForgotten, IsRepliedBy, IsSet, MayAct};
ghost use Rattle.event_handlers.specs.plain_frames.Taken.{IsPlainTaken};

use crate::asking::head_out;
use crate::forgetting::forget_stream;
use crate::plain_frames::doing::note_limits;
use connection_state::{Connection, FrameError, Judged};
use frames::View;
use local_replies::Cause;
use protocol::error_codes::ENHANCE_YOUR_CALM;
use refinement::Session;
use settings::Change;
use std::alloc::AllocError;
use upstream_connections::Due;

/// What a frame of the client calls for.
#[derive(Clone, Copy, Debug, PartialEq, Eq)]
pub enum Owed {
    /// Nothing.
    Nothing,
    /// Its settings are acknowledged (RFC 9113, section 6.5.3).
    SettingsAck,
    /// It is answered with its octets (RFC 9113, section 6.7).
    PingAck,
    /// Its stream is reset with this code (RFC 9113, section 6.4).
    Reset(u32),
}

/// What is to be done behind a frame of the client.
#[derive(Drop)]
pub enum TakenFrame {
    /// The connection ends with GOAWAY and this code (RFC 9113, section 5.4.1).
    Fatal(u32),
    /// It goes on; a frame may be owed to the client, and then a request, or more of one, be due to
    /// its upstream, and octets that waited of a stream's DATA go back on the connection.
    Goes {
        /// What is due.
        due: Due,
        /// What is owed.
        owed: Owed,
        /// How many octets.
        dropped: u64,
    },
}

/// It goes on, nothing is due, this is owed, and so many octets go back.
fn goes(owed: Owed, dropped: u64) -> TakenFrame
    ensures { Goes Nothing owed dropped result }
{
    TakenFrame::Goes {
        due: Due::Nothing,
        owed,
        dropped,
    }
}

/// Whether items of a stream's request may come yet.
pub(crate) fn goes_on(inbound: &Connection, id: u32) -> bool
    ensures { result ≡ goes_on inbound.now.rows id }
{
    match inbound.streams().find(id) {
        Some(live) => {
            let course = live.course();
            !course.over && course.reply.is_none()
        }
        None => false,
    }
}

/// Notes settings of the client, which are to be acknowledged (RFC 9113, section 6.5.3).
pub(crate) fn acknowledge(session: &mut Session, change: Change) -> TakenFrame
    ensures { IsSet change session.old result session.new }
{
    note_limits(&mut session.encoder, change);
    goes(Owed::SettingsAck, 0)
}

/// Nothing is kept of a stream on which the frame is an error. It is to be reset (RFC 9113, section
/// 5.4.2), and octets that waited of its DATA go back.
pub(crate) fn refuse(session: &mut Session, id: u32, code: u32) -> TakenFrame
    ensures { IsForgotten (Reset code) id session.old result session.new }
{
    goes(Owed::Reset(code), forget_stream(session, id))
}

/// Takes octets of the body of a request, which may end it: they wait with it, or are due where it goes out.
pub(crate) fn take_content(
    session: &mut Session,
    id: u32,
    octets: &[u8],
    ends: bool,
) -> Result<TakenFrame, AllocError>
    requires { MayTakeOf octets.now ends (held_of id session.old.upstreams.held) }
    ensures { IfOk result (λ taken. IsContent ends id octets.now session.old taken session.new) }
{
    let due = session.upstreams.take_body(id, octets, ends, &[])?;
    Ok(TakenFrame::Goes {
        due,
        owed: Owed::Nothing,
        dropped: 0,
    })
}

/// Replies to a request whose body is too long (RFC 9110, section 15.5.14), or has its stream reset
/// where it is too late to reply.
pub(crate) fn reply(session: &mut Session, id: u32) -> Result<TakenFrame, AllocError>
    requires live { is_active session.old.inbound.rows id ≡ true }
    ensures { IfOk result (λ taken. IsRepliedBy (find session.old.inbound.rows id).head_out id session.old taken session.new) }
{
    if head_out(&session.inbound, id) {
        session.inbound.sent_reset(id);
        return Ok(refuse(session, id, ENHANCE_YOUR_CALM));
    }
    session.offers.reply(id, Cause::LargeBody)?;
    session.upstreams.forget(id);
    Ok(goes(Owed::Nothing, 0))
}

/// Does what the judgement of a frame says.
fn act(
    session: &mut Session,
    id: u32,
    goes_on: bool,
    answer: Judged<'_>,
) -> Result<TakenFrame, AllocError>
    requires { MayAct goes_on id answer session.old }
    ensures { IfOk result (λ taken. IsActed goes_on id answer.entry session.old taken session.new) }
{
    match answer {
        Judged::Failed(FrameError::Connection(code)) => Ok(TakenFrame::Fatal(code)),
        Judged::Failed(FrameError::Stream(code)) => Ok(refuse(session, id, code)),
        Judged::Settings(change) => Ok(acknowledge(session, change)),
        Judged::Ping(_) => Ok(goes(Owed::PingAck, 0)),
        Judged::Reset => Ok(goes(Owed::Nothing, forget_stream(session, id))),
        Judged::Content(octets, ends) if goes_on => take_content(session, id, octets, ends),
        Judged::LargeBody => reply(session, id),
        Judged::Failed(FrameError::Discarded)
        | Judged::Ignored
        | Judged::Granted
        | Judged::Content(..) => Ok(goes(Owed::Nothing, 0)),
    }
}

/// Takes a frame of the client that has no fragment of a header block: any but HEADERS and
/// CONTINUATION. A body may have `max_body` octets, at most 1,073,741,824. The answer says which
/// frame is owed, to be sent before all else: settings and PING are acknowledged, and its stream is
/// reset where it is in error, or where it is too late to reply (RFC 9113, sections 5.4, 6.5.3 and
/// 6.7). An `Err` says that memory was refused; then the session is of no use any more.
pub fn take_plain(
    session: &mut Session,
    view: View<'_>,
    max_body: u64,
) -> Result<TakenFrame, AllocError>
    requires short { length view.payload.now ≤ 16384 }
    requires bounded { max_body ≤ 1073741824 }
    requires plain { IsPlain (frame_of view) }
    requires of_stream { view.id < 2147483648 }
    requires rest { IsAtRest session.old }
    requires reached { (setup : Setup) × (setup.max_body ≡ max_body) × Reached setup session.old balanced }
    ensures { IfOk result (λ taken. (setup : Setup) → setup.max_body ≡ max_body
        → IsPlainTaken setup session.old (frame_of view.entry) taken session.new) }
{
    let goes_on = goes_on(&session.inbound, view.id);
    let answer = session.inbound.judge(view, max_body);
    act(session, view.id, goes_on, answer)
}
