//! Upstreams are heard: octets of one, the end of its connection, and its failure.

ghost use Rattle.std.specs.Prelude.{◌≡◌, ℕ, ◌<◌, ◌≤◌, true, [], ◌∷◌, None, length, IfSome, IfErr, IfOk, OnOk, is_some};
ghost use Rattle.model.specs.Logs.Event.{Up, UpEnd, UpFailed};
ghost use Rattle.model.specs.Setup.{Setup};
ghost use Rattle.model.specs.Tapes.Entry.{Happened};
ghost use Rattle.theory_requests.specs.Lines.{find};
ghost use Rattle.theory_requests.specs.State.{held_of};
ghost use Rattle.upstream_connections.specs.Connections.{number_of};
ghost use Rattle.upstream_connections.specs.Progress.{heard_of};
ghost use Rattle.refinement.specs.View.{balanced};
ghost use Rattle.refinement.specs.Rest.{Reached, back_of};
ghost use Rattle.refinement.specs.Bringing.{Brings};
ghost use Rattle.event_handlers.specs.Comings.{ComesFrom};
ghost use Rattle.event_handlers.specs.Inputs.Input.{OfEvent};
ghost use Rattle.event_handlers.specs.MidStep.{IsMidStep};
ghost use Rattle.event_handlers.specs.Resting.{IsSettled};
ghost use Rattle.event_handlers.specs.Stopping.{IfOver};
ghost use Rattle.event_handlers.specs.exchanges.Finishing.{IsKeeping, closed_by, put_closed_by, verdict_by, finished_at, put_finished};

use crate::exchanges::failing::give_up;
use crate::exchanges::listening::{abandon, close, served_by, take_end, take_octets};
use crate::halt::Halt;
use effects::Outputs;
use refinement::Session;
use std::alloc::{AllocError, Global};
use upstream_connections::ResponseStage;
use upstream_response::{AnswerEnd, Heard};

/// Octets came of the upstream whose open connection has this number, at most 65,536 of them: what
/// is news of its response is on offer. Where that is whole with them the connection is idle from
/// now on, if it may be kept, and else it is closed; where it fails with them (RFC 9110, section
/// 15.6.3) it is too, and the gateway replies itself, or resets the stream, whose connection is
/// closed once octets of its DATA that waited are given back: so many are the answer, as from each
/// call here. An `Err` says that memory was refused, or that the connection was ended in place of
/// that reset; then neither the session nor, in the first case, the outputs are of use any more.
pub fn hear(
    alloc: Global,
    session: &mut Session,
    k: u32,
    octets: &[u8],
    keep: bool,
    most_idle: u8,
    out: &mut Outputs,
) -> Result<u64, Halt>
    requires opened { is_some (find number_of k session.old.upstreams.live) ≡ true }
    requires short { length octets.now ≤ 65536 }
    requires settled { IsSettled session.old }
    requires reached { (setup : Setup) × IsKeeping keep most_idle setup × Reached setup session.old balanced }
    ensures brings { IfOk result (λ back. (setup : Setup) → IsKeeping keep most_idle setup
        → Brings setup session.old balanced out.old (Happened (Up k octets.now)) session.new (back_of back) out.new) }
    ensures mid { OnOk result (IfSome (find number_of k session.old.upstreams.live) (λ connection. IsMidStep connection.live.stream session.new)) }
    ensures over { IfErr result (λ stop. IfOver stop ((setup : Setup) → IsKeeping keep most_idle setup
        → ComesFrom setup session.old balanced out.old (OfEvent (Up k octets.now) ∷ []) balanced None out.new)) }
{
    let Some(stream) = served_by(session, k) else {
        hear_idle(session, k, octets, out)?;
        return Ok(0);
    };
    match take_octets(alloc, session, k, stream, octets)? {
        Heard::GoesOn => Ok(0),
        Heard::Keepable => {
            let verdict = verdict_for(session, stream, keep);
            finish(session, k, verdict, most_idle, out)?;
            Ok(0)
        }
        Heard::Finished => {
            finish(session, k, ResponseStage::Finished, 0, out)?;
            Ok(0)
        }
        Heard::Failed => abandon(session, k, stream, out),
    }
}

/// What was heard of a response that leaves its connection open: that may be kept where connections
/// are, and nothing is held of its stream's request any more.
fn verdict_for(session: &Session, stream: u32, keep: bool) -> ResponseStage
    ensures { heard_of result ≡ verdict_by keep (held_of stream session.now.upstreams.held) }
{
    if keep && !session.upstreams.holds(stream) {
        return ResponseStage::Keepable;
    }
    ResponseStage::Finished
}

/// Octets came of an idle connection, which belong to no request (RFC 9112, section 9.2): where
/// there are some, it is closed.
fn hear_idle(
    session: &mut Session,
    k: u32,
    octets: &[u8],
    out: &mut Outputs,
) -> Result<(), AllocError>
    ensures kept { OnOk result (session.new ≡ closed_by octets.now k session.old) }
    ensures puts { OnOk result (out.new ≡ put_closed_by octets.now k out.old) }
{
    if octets.is_empty() {
        return Ok(());
    }
    close(session, k, out)
}

/// The response of a connection is whole: the connection is idle, where fewer than so many others
/// are, or closed.
fn finish(
    session: &mut Session,
    k: u32,
    verdict: ResponseStage,
    most_idle: u8,
    out: &mut Outputs,
) -> Result<(), AllocError>
    requires opened { is_some (find number_of k session.old.upstreams.live) ≡ true }
    ensures kept { OnOk result (session.new ≡ finished_at most_idle k (heard_of verdict) session.old) }
    ensures puts { OnOk result (out.new ≡ put_finished most_idle k (heard_of verdict) session.old out.old) }
{
    session.upstreams.mark_heard(k, verdict, most_idle);
    if served_by(session, k).is_none() {
        return Ok(());
    }
    close(session, k, out)
}

/// The upstream ended the open connection with this number (RFC 9112, section 8): its response is
/// whole with that, and it is closed, or else fails.
pub fn end(alloc: Global, session: &mut Session, k: u32, out: &mut Outputs) -> Result<u64, Halt>
    requires opened { is_some (find number_of k session.old.upstreams.live) ≡ true }
    requires settled { IsSettled session.old }
    requires reached { (setup : Setup) × Reached setup session.old balanced }
    ensures brings { IfOk result (λ back. (setup : Setup) → Brings setup session.old balanced out.old (Happened (UpEnd k)) session.new (back_of back) out.new) }
    ensures mid { OnOk result (IfSome (find number_of k session.old.upstreams.live) (λ connection. IsMidStep connection.live.stream session.new)) }
    ensures over { IfErr result (λ stop. IfOver stop ((setup : Setup)
        → ComesFrom setup session.old balanced out.old (OfEvent (UpEnd k) ∷ []) balanced None out.new)) }
{
    let Some(stream) = served_by(session, k) else {
        close(session, k, out)?;
        return Ok(0);
    };
    match take_end(alloc, session, k, stream)? {
        AnswerEnd::Complete => {
            finish(session, k, ResponseStage::Finished, 0, out)?;
            Ok(0)
        }
        AnswerEnd::Short => abandon(session, k, stream, out),
    }
}

/// The open connection with this number failed, and is gone: its response fails with it.
pub fn fail(session: &mut Session, k: u32, out: &mut Outputs) -> Result<u64, Halt>
    requires opened { is_some (find number_of k session.old.upstreams.live) ≡ true }
    requires settled { IsSettled session.old }
    requires reached { (setup : Setup) × Reached setup session.old balanced }
    ensures brings { IfOk result (λ back. (setup : Setup) → Brings setup session.old balanced out.old (Happened (UpFailed k)) session.new
        (back_of back) out.new) }
    ensures mid { OnOk result (IfSome (find number_of k session.old.upstreams.live) (λ connection. IsMidStep connection.live.stream session.new)) }
    ensures over { IfErr result (λ stop. IfOver stop ((setup : Setup)
        → ComesFrom setup session.old balanced out.old (OfEvent (UpFailed k) ∷ []) balanced None out.new)) }
{
    let served = served_by(session, k);
    session.upstreams.close(k);
    let Some(stream) = served else {
        return Ok(0);
    };
    match give_up(session, stream, out)? {
        Some(waiting) => Ok(waiting),
        None => Ok(0),
    }
}
