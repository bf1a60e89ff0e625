//! A frame of the client, taken whole.

ghost use Rattle.std.specs.Prelude.{◌≡◌, ◌≤◌, ◌<◌, ◌==◌, ◌||◌, ℕ, List, [], ◌∷◌, length, true, false, None, is_some, IfErr, IfOk, OnOk};
ghost use Rattle.model.specs.Frames.{Frame};
ghost use Rattle.model.specs.Setup.{Setup};
ghost use Rattle.model.specs.WindowsOnTape.{is_any, data_length};
ghost use Rattle.frames.specs.Views.{frame_of};
ghost use Rattle.connection_state.specs.AnyFrame.{has_fragment};
ghost use Rattle.theory_requests.specs.State as theory_requests;
ghost use Rattle.theory_requests.specs.State.{is_streaming};
ghost use Rattle.upstream_response.specs.Waiting.{passing_in};
ghost use Rattle.window_credit.specs.Sides.{is_past};
ghost use Rattle.upstream_connections.specs.Requests.{due_by};
ghost use Rattle.refinement.specs.View.{balanced};
ghost use Rattle.refinement.specs.Rest.{Reached};
ghost use Rattle.refinement.specs.Bringing.{PerformsOwn};
ghost use Rattle.event_handlers.specs.block_frames.Following.{goaway_frames};
ghost use Rattle.event_handlers.specs.Comings.{FollowsFrom, ComesFrom};
ghost use Rattle.event_handlers.specs.Inputs.Input.{OfFrame};
ghost use Rattle.event_handlers.specs.MidStep.{IsHandedOn, IsMidStep};
ghost use Rattle.event_handlers.specs.Resting.{now_of, IsSettled, RestsSo, IsPassedBy, IsServed};
ghost use Rattle.event_handlers.specs.Stopping.{IfOver, IsCalmed, EndsFrom};
ghost use Rattle.event_handlers.specs.plain_frames.Owed.{owed_frame, with_sent, put_sent, WasFree};

use crate::block_frames::{BlockTaken, Outlet, take_block};
use crate::ending::{Ending, end, shut};
use crate::exchanges::{open, reuse, send};
use crate::halt::Halt;
use crate::paying::{Control, pay, settle};
use crate::plain_frames::{Owed, TakenFrame, take_plain};
use crate::resting::{Onward, come_to_rest, conclude, rest_behind};
use connection_state::Terms;
use effects::Outputs;
use frames::View;
use protocol::error_codes::NO_ERROR;
use protocol::frame_types::{CONTINUATION, DATA, HEADERS};
use refinement::Session;
use std::alloc::{AllocError, Global};
use upstream_connections::Due;
use upstream_response::ResponsePassing;

/// By what a connection is served: by what requests are judged, and how bodies are passed on.
#[derive(Clone, Copy)]
pub struct ServiceTerms<'a> {
    /// By what requests are judged.
    pub terms: Terms<'a>,
    /// How bodies are passed on: whole, those of responses with so many octets at most, or as they come.
    pub passing: ResponsePassing,
    /// Whether connections to upstreams are kept for further requests (RFC 9112, section 9.3).
    pub keep: bool,
}

/// Whether bodies are passed on as they come.
fn is_streaming(passing: ResponsePassing) -> bool
    ensures { result ≡ is_streaming (passing_in passing) }
{
    match passing {
        ResponsePassing::Whole(_) => false,
        ResponsePassing::Streaming => true,
    }
}

/// Whether a frame has a fragment of a header block.
pub(crate) fn has_fragment(view: View<'_>) -> bool
    ensures { result ≡ has_fragment (frame_of view.entry) }
{
    view.kind == HEADERS || view.kind == CONTINUATION
}

/// How many octets of DATA a frame has that are given back, its padding among them (RFC 9113, section 6.9.1).
pub(crate) fn data_octets(view: View<'_>) -> u32
    requires { length view.payload.now ≤ 16384 }
    ensures { result ≡ data_length is_any (frame_of view.entry) }
{
    if view.kind == DATA {
        view.payload.len() as u32
    } else {
        0
    }
}

/// Opens the connection for a request that is due, or gives it an idle one, or sends what is due of
/// one that goes out; no frame is owed then.
fn serve(
    session: &mut Session,
    due: Due,
    passing: ResponsePassing,
    out: &mut Outputs,
) -> Result<(), AllocError>
    requires reached { (setup : Setup) × IsPassedBy setup passing × (fresh back : ℕ)
        × Reached setup session.old (record balanced { due = due_by due; fresh = fresh; shared = back }) }
    ensures performs { OnOk result ((setup : Setup) (fresh back : ℕ) → IsPassedBy setup passing
        → PerformsOwn setup session.old (record balanced { due = due_by due; fresh = fresh; shared = back }) out.old session.new (record balanced {
          fresh = fresh;
          shared = back;
        }) out.new) }
    ensures handed { OnOk result (IsHandedOn session.old session.new) }
{
    match due {
        Due::Nothing => Ok(()),
        Due::ToOpen(request) => open(session, request, passing, out),
        Due::ToUse { number, request } => reuse(session, number, request, passing, out),
        Due::ToSend { number, text } => send(session, number, text, out),
    }
}

/// What follows a frame of the client: its octets of DATA are given back on the connection and on
/// its stream, or wait, and then the gateway comes to rest.
fn follow(
    alloc: Global,
    session: &mut Session,
    id: u32,
    octets: u32,
    dropped: u64,
    out: &mut Outputs,
) -> Result<Onward, Halt>
    requires reached { (setup : Setup) × Reached setup session.old (record balanced { fresh = octets; shared = dropped }) }
    requires last { id ≡ session.old.inbound.last }
    requires few { octets ≤ 16384 }
    requires newest { 0 < octets → is_past id session.old.marks ≡ false }
    requires mid { IsMidStep id session.old }
    ensures follows { IfOk result (λ went. (setup : Setup) → FollowsFrom setup session.old (record balanced {
      fresh = octets;
      shared = dropped;
    }) out.old balanced (now_of went session.new) out.new) }
    ensures rests { IfOk result (λ went. RestsSo went session.new) }
    ensures over { IfErr result (λ stop. IfOver stop ((setup : Setup)
        → EndsFrom setup session.old (record balanced { fresh = octets; shared = dropped }) out.old out.new)) }
{
    if session.inbound.is_exhausted() {
        shut(session, out)?;
        return Ok(Onward::Over);
    }
    settle(session, id, octets, dropped, out)?;
    rest_behind(alloc, session, id, out)
}

/// Sends what is owed for a frame of the client, if something is. An `Err` says that memory was
/// refused, or that the connection was ended in its place.
fn pay_owed(
    session: &mut Session,
    view: View<'_>,
    owed: Owed,
    out: &mut Outputs,
) -> Result<(), Halt>
    requires short { length view.payload.now ≤ 16384 }
    requires of_stream { view.id < 2147483648 }
    ensures kept { OnOk result (session.new ≡ with_sent (owed_frame owed (frame_of view.entry)) session.old) }
    ensures puts { OnOk result (out.new ≡ put_sent (owed_frame owed (frame_of view.entry)) out.old) }
    ensures free { OnOk result (WasFree (owed_frame owed (frame_of view.entry)) session.old) }
    ensures over { IfErr result (λ stop. IfOver stop ((is_some (owed_frame owed (frame_of view.entry)) ≡ true) × IsCalmed session.old out.old out.new)) }
{
    match owed {
        Owed::Nothing => Ok(()),
        Owed::SettingsAck => pay(session, Control::SettingsAck, out),
        Owed::PingAck => pay(session, Control::PingAck(view.payload), out),
        Owed::Reset(code) => {
            let reset = Control::Reset {
                stream: view.id,
                code,
            };
            pay(session, reset, out)
        }
    }
}

/// Takes a frame without a fragment of a header block.
fn take_other(
    alloc: Global,
    session: &mut Session,
    view: View<'_>,
    service: ServiceTerms<'_>,
    out: &mut Outputs,
) -> Result<Onward, Halt>
    requires short { length view.payload.now ≤ 16384 }
    requires bounded { service.terms.max_body ≤ 1073741824 }
    requires other { has_fragment (frame_of view) ≡ false }
    requires of_stream { view.id < 2147483648 }
    requires settled { IsSettled session.old }
    requires reached { (setup : Setup) × IsServed setup service × Reached setup session.old balanced }
    ensures comes { IfOk result (λ went. (setup : Setup) → IsServed setup service.entry
        → ComesFrom setup session.old balanced out.old (OfFrame (frame_of view.entry) ∷ []) balanced (now_of went session.new) out.new) }
    ensures rests { IfOk result (λ went. RestsSo went session.new) }
    ensures over { IfErr result (λ stop. IfOver stop ((setup : Setup) → IsServed setup service.entry
        → ComesFrom setup session.old balanced out.old (OfFrame (frame_of view.entry) ∷ []) balanced None out.new)) }
{
    match take_plain(session, view, service.terms.max_body)? {
        TakenFrame::Fatal(code) => {
            end(session, Ending::Frame(code), out)?;
            Ok(Onward::Over)
        }
        TakenFrame::Goes { due, owed, dropped } => {
            pay_owed(session, view, owed, out)?;
            serve(session, due, service.passing, out)?;
            follow(alloc, session, view.id, data_octets(view), dropped, out)
        }
    }
}

/// Takes a frame with a fragment of a header block.
fn take_fragment(
    alloc: Global,
    session: &mut Session,
    view: View<'_>,
    service: ServiceTerms<'_>,
    out: &mut Outputs,
) -> Result<Onward, Halt>
    requires short { length view.payload.now ≤ 16384 }
    requires few { length service.terms.routes.now ≤ u32.MAX }
    requires bounded { service.terms.max_body ≤ 1073741824 }
    requires fragment { has_fragment (frame_of view) ≡ true }
    requires of_stream { view.id < 2147483648 }
    requires settled { IsSettled session.old }
    requires reached { (setup : Setup) × IsServed setup service × Reached setup session.old balanced }
    ensures comes { IfOk result (λ went. (setup : Setup) → IsServed setup service.entry
        → ComesFrom setup session.old balanced out.old (OfFrame (frame_of view.entry) ∷ []) balanced (now_of went session.new) out.new) }
    ensures rests { IfOk result (λ went. RestsSo went session.new) }
    ensures over { IfErr result (λ stop. IfOver stop ((setup : Setup) → IsServed setup service.entry
        → ComesFrom setup session.old balanced out.old (OfFrame (frame_of view.entry) ∷ []) balanced None out.new)) }
{
    let at_once = is_streaming(service.passing);
    let outlet = Outlet {
        at_once,
        keep: service.keep,
    };
    match take_block(session, view, service.terms, outlet, out)? {
        BlockTaken::Fatal(code) => {
            end(session, Ending::Frame(code), out)?;
            Ok(Onward::Over)
        }
        BlockTaken::Goes {
            due,
            goaway,
            dropped,
        } => {
            say_goaway(session, goaway, out)?;
            serve(session, due, service.passing, out)?;
            come_to_rest(alloc, session, view.id, dropped, out)
        }
    }
}

/// Says GOAWAY with the last stream, where that is owed: behind the last that a connection may
/// have, before what is due of its request, or where the operator wants the end (RFC 9113, section
/// 6.8).
pub(crate) fn say_goaway(
    session: &mut Session,
    last: Option<u32>,
    out: &mut Outputs,
) -> Result<(), Halt>
    ensures performs { OnOk result ((setup : Setup) (due : theory_requests.Due) (back : ℕ)
        → PerformsOwn setup session.old (record balanced {
          owed = goaway_frames last;
          due = due;
          shared = back;
        }) out.old session.new (record balanced { due = due; shared = back }) out.new) }
    ensures stays { OnOk result ((session.new.inbound ≡ session.old.inbound) × (session.new.offers ≡ session.old.offers)) }
    ensures upstreams { OnOk result (session.new.upstreams ≡ session.old.upstreams) }
    ensures over { IfErr result (λ stop. IfOver stop ((is_some last ≡ true) × IsCalmed session.old out.old out.new)) }
{
    match last {
        Some(last) => {
            let goaway = Control::Goaway {
                last,
                code: NO_ERROR,
            };
            pay(session, goaway, out)
        }
        None => Ok(()),
    }
}

/// Takes a frame of the client, whole: what it calls for, what is due of its request, octets that
/// go back, and responses that can go on. An `Err` says that memory was refused; then what is kept
/// and the outputs are of no use any more.
pub fn take_frame(
    alloc: Global,
    session: &mut Session,
    view: View<'_>,
    service: ServiceTerms<'_>,
    out: &mut Outputs,
) -> Result<Onward, AllocError>
    requires short { length view.payload.now ≤ 16384 }
    requires few { length service.terms.routes.now ≤ u32.MAX }
    requires bounded { service.terms.max_body ≤ 1073741824 }
    requires of_stream { view.id < 2147483648 }
    requires settled { IsSettled session.old }
    requires reached { (setup : Setup) × IsServed setup service × Reached setup session.old balanced }
    ensures comes { IfOk result (λ went. (setup : Setup) → IsServed setup service.entry
        → ComesFrom setup session.old balanced out.old (OfFrame (frame_of view.entry) ∷ []) balanced (now_of went session.new) out.new) }
    ensures rests { IfOk result (λ went. RestsSo went session.new) }
{
    if has_fragment(view) {
        conclude(take_fragment(alloc, session, view, service, out))
    } else {
        conclude(take_other(alloc, session, view, service, out))
    }
}
