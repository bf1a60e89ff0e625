//! Events of upstreams, and what the sides took.

ghost use Rattle.std.specs.Prelude.{◌≡◌, [], ◌∷◌, true, None, IfErr, IfOk};
ghost use Rattle.model.specs.Setup.{Setup};
ghost use Rattle.model.specs.Logs.Event.{ClientTook, Up, UpEnd, UpFailed, UpTook};
ghost use Rattle.refinement.specs.View.{balanced};
ghost use Rattle.refinement.specs.Rest.{Reached};
ghost use Rattle.event_handlers.specs.Admission.{admits};
ghost use Rattle.event_handlers.specs.Comings.{ComesFrom};
ghost use Rattle.event_handlers.specs.Inputs.Input.{OfEvent};
ghost use Rattle.event_handlers.specs.Resting.{now_of, IsSettled, RestsSo};
ghost use Rattle.event_handlers.specs.Stopping.{IfOver};
ghost use Rattle.event_handlers.specs.exchanges.Finishing.{IsKeeping};

use crate::exchanges;
use crate::exchanges::stream_of;
use crate::halt::Halt;
use crate::paying::{is_nothing, note_client_took, note_up_took, return_taken};
use crate::resting::{Onward, come_to_rest, conclude, rest};
use effects::Outputs;
use protocol::limits::HIGH_WATER;
use refinement::Session;
use std::alloc::{AllocError, Global};

/// Octets of an open upstream, to where the gateway rests. An `Err` says that memory was refused,
/// or that the connection was ended in place of a frame.
fn hear_to_rest(
    alloc: Global,
    session: &mut Session,
    k: u32,
    octets: &[u8],
    keep: bool,
    most_idle: u8,
    out: &mut Outputs,
) -> Result<Onward, Halt>
    requires admitted { admits session.old (Up k octets.now) ≡ true }
    requires settled { IsSettled session.old }
    requires reached { (setup : Setup) × IsKeeping keep most_idle setup × Reached setup session.old balanced }
    ensures comes { IfOk result (λ went. (setup : Setup) → IsKeeping keep most_idle setup
        → ComesFrom setup session.old balanced out.old (OfEvent (Up k octets.now) ∷ []) balanced (now_of went session.new) out.new) }
    ensures rests { IfOk result (λ went. RestsSo went session.new) }
    ensures over { IfErr result (λ stop. IfOver stop ((setup : Setup) → IsKeeping keep most_idle setup
        → ComesFrom setup session.old balanced out.old (OfEvent (Up k octets.now) ∷ []) balanced None out.new)) }
{
    let stream = stream_of(session, k);
    let back = exchanges::hear(alloc, session, k, octets, keep, most_idle, out)?;
    come_to_rest(alloc, session, stream, back, out)
}

/// Takes octets of an open upstream, at most 65,536. An `Err` says that memory was refused; then
/// what is kept and the outputs are of no use any more.
pub fn hear(
    alloc: Global,
    session: &mut Session,
    k: u32,
    octets: &[u8],
    keep: bool,
    most_idle: u8,
    out: &mut Outputs,
) -> Result<Onward, AllocError>
    requires admitted { admits session.old (Up k octets.now) ≡ true }
    requires settled { IsSettled session.old }
    requires reached { (setup : Setup) × IsKeeping keep most_idle setup × Reached setup session.old balanced }
    ensures comes { IfOk result (λ went. (setup : Setup) → IsKeeping keep most_idle setup
        → ComesFrom setup session.old balanced out.old (OfEvent (Up k octets.now) ∷ []) balanced (now_of went session.new) out.new) }
    ensures rests { IfOk result (λ went. RestsSo went session.new) }
{
    conclude(hear_to_rest(alloc, session, k, octets, keep, most_idle, out))
}

/// The end of an open upstream's connection, to where the gateway rests. An `Err` says that memory
/// was refused, or that the connection to the client was ended in place of a frame.
fn end_to_rest(
    alloc: Global,
    session: &mut Session,
    k: u32,
    out: &mut Outputs,
) -> Result<Onward, Halt>
    requires admitted { admits session.old (UpEnd k) ≡ true }
    requires settled { IsSettled session.old }
    requires reached { (setup : Setup) × Reached setup session.old balanced }
    ensures comes { IfOk result (λ went. (setup : Setup) → ComesFrom setup session.old balanced out.old (OfEvent (UpEnd k) ∷ []) balanced
        (now_of went session.new) out.new) }
    ensures rests { IfOk result (λ went. RestsSo went session.new) }
    ensures over { IfErr result (λ stop. IfOver stop ((setup : Setup)
        → ComesFrom setup session.old balanced out.old (OfEvent (UpEnd k) ∷ []) balanced None out.new)) }
{
    let stream = stream_of(session, k);
    let back = exchanges::end(alloc, session, k, out)?;
    come_to_rest(alloc, session, stream, back, out)
}

/// Takes the end of an open upstream's connection. An `Err` says that memory was refused; then what
/// is kept and the outputs are of no use any more.
pub fn end(
    alloc: Global,
    session: &mut Session,
    k: u32,
    out: &mut Outputs,
) -> Result<Onward, AllocError>
    requires admitted { admits session.old (UpEnd k) ≡ true }
    requires settled { IsSettled session.old }
    requires reached { (setup : Setup) × Reached setup session.old balanced }
    ensures comes { IfOk result (λ went. (setup : Setup) → ComesFrom setup session.old balanced out.old (OfEvent (UpEnd k) ∷ []) balanced
        (now_of went session.new) out.new) }
    ensures rests { IfOk result (λ went. RestsSo went session.new) }
{
    conclude(end_to_rest(alloc, session, k, out))
}

/// The failure of an open upstream's connection, to where the gateway rests. An `Err` says that
/// memory was refused, or that the connection to the client was ended in place of a frame.
fn fail_to_rest(
    alloc: Global,
    session: &mut Session,
    k: u32,
    out: &mut Outputs,
) -> Result<Onward, Halt>
    requires admitted { admits session.old (UpFailed k) ≡ true }
    requires settled { IsSettled session.old }
    requires reached { (setup : Setup) × Reached setup session.old balanced }
    ensures comes { IfOk result (λ went. (setup : Setup) → ComesFrom setup session.old balanced out.old (OfEvent (UpFailed k) ∷ []) balanced
        (now_of went session.new) out.new) }
    ensures rests { IfOk result (λ went. RestsSo went session.new) }
    ensures over { IfErr result (λ stop. IfOver stop ((setup : Setup)
        → ComesFrom setup session.old balanced out.old (OfEvent (UpFailed k) ∷ []) balanced None out.new)) }
{
    let stream = stream_of(session, k);
    let back = exchanges::fail(session, k, out)?;
    come_to_rest(alloc, session, stream, back, out)
}

/// Takes the failure of an open upstream's connection. An `Err` says that memory was refused; then
/// what is kept and the outputs are of no use any more.
pub fn fail(
    alloc: Global,
    session: &mut Session,
    k: u32,
    out: &mut Outputs,
) -> Result<Onward, AllocError>
    requires admitted { admits session.old (UpFailed k) ≡ true }
    requires settled { IsSettled session.old }
    requires reached { (setup : Setup) × Reached setup session.old balanced }
    ensures comes { IfOk result (λ went. (setup : Setup) → ComesFrom setup session.old balanced out.old (OfEvent (UpFailed k) ∷ []) balanced
        (now_of went session.new) out.new) }
    ensures rests { IfOk result (λ went. RestsSo went session.new) }
{
    conclude(fail_to_rest(alloc, session, k, out))
}

/// What the client's side took, to where the gateway rests. An `Err` says that memory was refused,
/// or that the connection was ended in place of a frame.
fn give_to_rest(
    alloc: Global,
    session: &mut Session,
    count: u64,
    out: &mut Outputs,
) -> Result<Onward, Halt>
    requires admitted { admits session.old (ClientTook count) ≡ true }
    requires settled { IsSettled session.old }
    requires reached { (setup : Setup) × Reached setup session.old balanced }
    ensures comes { IfOk result (λ went. (setup : Setup) → ComesFrom setup session.old balanced out.old (OfEvent (ClientTook count) ∷ []) balanced
        (now_of went session.new) out.new) }
    ensures rests { IfOk result (λ went. RestsSo went session.new) }
    ensures over { IfErr result (λ stop. IfOver stop ((setup : Setup)
        → ComesFrom setup session.old balanced out.old (OfEvent (ClientTook count) ∷ []) balanced None out.new)) }
{
    let were_few = session.untaken < HIGH_WATER;
    note_client_took(session, count);
    if were_few {
        return Ok(Onward::On);
    }
    rest(alloc, session, out)
}

/// Notes that the client's side took so many octets; responses may go on then, where too many were
/// untaken before. An `Err` says that memory was refused; then what is kept and the outputs are of
/// no use any more.
pub fn client_took(
    alloc: Global,
    session: &mut Session,
    count: u64,
    out: &mut Outputs,
) -> Result<Onward, AllocError>
    requires admitted { admits session.old (ClientTook count) ≡ true }
    requires settled { IsSettled session.old }
    requires reached { (setup : Setup) × Reached setup session.old balanced }
    ensures comes { IfOk result (λ went. (setup : Setup) → ComesFrom setup session.old balanced out.old (OfEvent (ClientTook count) ∷ []) balanced
        (now_of went session.new) out.new) }
    ensures rests { IfOk result (λ went. RestsSo went session.new) }
{
    conclude(give_to_rest(alloc, session, count, out))
}

/// What an open upstream's side took, to where the gateway rests. An `Err` says that memory was
/// refused, or that the connection to the client was ended in place of a frame.
fn return_to_rest(
    alloc: Global,
    session: &mut Session,
    k: u32,
    count: u64,
    out: &mut Outputs,
) -> Result<Onward, Halt>
    requires admitted { admits session.old (UpTook k count) ≡ true }
    requires settled { IsSettled session.old }
    requires reached { (setup : Setup) × Reached setup session.old balanced }
    ensures comes { IfOk result (λ went. (setup : Setup) → ComesFrom setup session.old balanced out.old (OfEvent (UpTook k count) ∷ []) balanced
        (now_of went session.new) out.new) }
    ensures rests { IfOk result (λ went. RestsSo went session.new) }
    ensures over { IfErr result (λ stop. IfOver stop ((setup : Setup)
        → ComesFrom setup session.old balanced out.old (OfEvent (UpTook k count) ∷ []) balanced None out.new)) }
{
    let stream = stream_of(session, k);
    let taken = note_up_took(session, k, stream, count);
    if is_nothing(taken) {
        return Ok(Onward::On);
    }
    return_taken(session, stream, taken, out)?;
    rest(alloc, session, out)
}

/// Notes that an open upstream's side took so many octets. Octets of its stream's DATA that waited
/// for them are given back (RFC 9113, section 6.9). An `Err` says that memory was refused; then
/// what is kept and the outputs are of no use any more.
pub fn up_took(
    alloc: Global,
    session: &mut Session,
    k: u32,
    count: u64,
    out: &mut Outputs,
) -> Result<Onward, AllocError>
    requires admitted { admits session.old (UpTook k count) ≡ true }
    requires settled { IsSettled session.old }
    requires reached { (setup : Setup) × Reached setup session.old balanced }
    ensures comes { IfOk result (λ went. (setup : Setup) → ComesFrom setup session.old balanced out.old (OfEvent (UpTook k count) ∷ []) balanced
        (now_of went session.new) out.new) }
    ensures rests { IfOk result (λ went. RestsSo went session.new) }
{
    conclude(return_to_rest(alloc, session, k, count, out))
}
