//! Octets of DATA that came are given back (RFC 9113, section 6.9), at once or once their stream's
//! upstream took what was put out for it.

ghost use Rattle.std.specs.Prelude.{◌≡◌, ◌+◌, ◌<◌, ◌≤◌, ℕ, true, false, nat_lt, IfErr, IfOk, OnOk, pos, ◌+ℤ◌, ◌≤ℤ◌};
ghost use Rattle.model.specs.Limits.{most_untaken};
ghost use Rattle.model.specs.Frames.{spell};
ghost use Rattle.model.specs.Setup.{Setup};
ghost use Rattle.model.specs.Logs.Output.{ToClient};
ghost use Rattle.model.specs.Tapes.{put};
ghost use Rattle.theory_errors.specs.Rows.{find};
ghost use Rattle.streams.specs.Asked.{has, is_active};
ghost use Rattle.streams.specs.Sending.{AreReturnable};
ghost use Rattle.window_credit.specs.Sides.{change, is_past, waiting};
ghost use Rattle.effects.specs.Sent.{window_update};
ghost use Rattle.refinement.specs.View.{balanced};
ghost use Rattle.refinement.specs.Rest.{GoesOn, Reached, back_of, IsBack};
ghost use Rattle.refinement.specs.Bringing.{PerformsOwn};
ghost use Rattle.event_handlers.specs.Stopping.{IfOver, IsCalmed, EndsFrom};
ghost use Rattle.event_handlers.specs.paying.Returning.{back_on, due_on_stream, goes_back_on, given_on_connection, given_on_stream, IsReturned};

use crate::halt::Halt;
use crate::paying::control::{Control, pay};
use effects::Outputs;
use protocol::limits::GREATEST_WINDOW;
use refinement::Session;
use std::alloc::AllocError;
use window_credit::TakenOctets;

/// The most octets that one gives back (RFC 9113, section 6.9).
const GREATEST: u64 = GREATEST_WINDOW as u64;

/// Whether octets go back on a stream: it is active, and its client hasn't ended it (RFC 9113, section 5.1).
pub(crate) fn goes_back_on(session: &Session, stream: u32) -> bool
    ensures { result ≡ goes_back_on session.now.inbound.rows stream }
{
    match session.inbound.streams().find(stream) {
        Some(live) => !live.ended_by_client(),
        None => false,
    }
}

/// Gives so many octets back on the connection.
pub(crate) fn give_back(session: &mut Session, octets: u32, out: &mut Outputs) -> Result<(), Halt>
    requires { (session.old.inbound.room +ℤ pos octets) ≤ℤ pos session.old.inbound.own }
    ensures given { OnOk result (session.new ≡ given_on_connection session.old octets) }
    ensures put_out { OnOk result (out.new ≡ put out.old (ToClient (spell (window_update 0 octets)))) }
    ensures few { OnOk result (nat_lt most_untaken session.old.untaken ≡ false) }
    ensures over { IfErr result (λ stop. IfOver stop (IsCalmed session.old out.old out.new)) }
{
    pay(session, Control::Update { stream: 0, octets }, out)?;
    session.inbound.gave_back(octets);
    Ok(())
}

/// Gives so many octets back on an active stream.
fn give_back_on(
    session: &mut Session,
    stream: u32,
    octets: u32,
    out: &mut Outputs,
) -> Result<(), Halt>
    requires live { is_active session.old.inbound.rows stream ≡ true }
    requires fits { AreReturnable octets (find session.old.inbound.rows stream) }
    requires small { stream < 2147483648 }
    ensures given { OnOk result (session.new ≡ given_on_stream session.old stream octets) }
    ensures put_out { OnOk result (out.new ≡ put out.old (ToClient (spell (window_update stream octets)))) }
    ensures few { OnOk result (nat_lt most_untaken session.old.untaken ≡ false) }
    ensures over { IfErr result (λ stop. IfOver stop (IsCalmed session.old out.old out.new)) }
{
    pay(session, Control::Update { stream, octets }, out)?;
    session.inbound.gave_back_on(stream, octets);
    Ok(())
}

/// So many octets as a WINDOW_UPDATE can give back (RFC 9113, section 6.9). More never wait: an
/// `Err` says that these would.
fn returnable(octets: u64) -> Result<u32, AllocError>
    ensures { IfOk result (λ count. (count ≡ octets) × (count < 2147483648)) }
{
    if octets > GREATEST {
        return Err(AllocError);
    }
    Ok(octets as u32)
}

/// Octets that waited of a stream that is over are given back, on the connection, unless that is to
/// end (RFC 9113, section 6.9): then they don't go back any more. An `Err` says that memory was
/// refused, or that the connection was ended in place of the frame; then neither the session nor, in
/// the first case, the outputs are of use any more.
pub fn return_dropped(session: &mut Session, dropped: u64, out: &mut Outputs) -> Result<(), Halt>
    requires reached { (setup : Setup) × Reached setup session.old (back_of dropped) }
    ensures performs { OnOk result ((back : ℕ) × IsBack session.new back
        × ((setup : Setup) → PerformsOwn setup session.old (back_of dropped) out.old session.new (back_of back) out.new)) }
    ensures stays { OnOk result (IsReturned session.old session.new) }
    ensures over { IfErr result (λ stop. IfOver stop ((setup : Setup) → EndsFrom setup session.old (back_of dropped) out.old out.new)) }
{
    if dropped == 0 {
        return Ok(());
    }
    if session.inbound.is_exhausted() {
        return Ok(());
    }
    let octets = returnable(dropped)?;
    give_back(session, octets, out)
}

/// So many octets of the last frame, of which there are some, wait until its stream's upstream has
/// taken all that was put out for it. An `Err` says that memory was refused, or that these would be
/// more than 2^64 - 1, which never wait.
fn wait(session: &mut Session, stream: u32, octets: u32) -> Result<(), AllocError>
    requires some { 0 < octets }
    requires newest { is_past stream session.old.marks ≡ false }
    ensures { OnOk result (session.new ≡ record session.old { marks = change stream (waiting octets) session.old.marks }) }
{
    let count = u64::from(octets);
    if session.marks.total(stream).checked_add(count).is_none() {
        return Err(AllocError);
    }
    session.marks.wait(stream, count)
}

/// The last frame's effect is over. The octets of DATA that came with it, of which there are at
/// most 16,384, wait where its stream's upstream hasn't taken all that was put out for it; else
/// they are given back, on the connection and on their stream while that goes on (RFC 9113, section
/// 6.9), and with them on the connection those that waited of a stream that is over. An `Err` says
/// that memory was refused; then neither the session nor the outputs are of use any more.
pub fn settle(
    session: &mut Session,
    stream: u32,
    octets: u32,
    dropped: u64,
    out: &mut Outputs,
) -> Result<(), Halt>
    requires reached { (setup : Setup) × Reached setup session.old (record balanced { fresh = octets; shared = dropped }) }
    requires goes_on { GoesOn session.old }
    requires few { octets ≤ 16384 }
    requires last { stream ≡ session.old.inbound.last }
    requires newest { 0 < octets → is_past stream session.old.marks ≡ false }
    requires numbered { (id : ℕ) → has session.old.inbound.rows id ≡ true → id < 2147483648 }
    ensures performs { OnOk result ((setup : Setup) → PerformsOwn setup session.old (record balanced {
      fresh = octets;
      shared = dropped;
    }) out.old session.new balanced out.new) }
    ensures stays { OnOk result (IsReturned session.old session.new) }
    ensures over { IfErr result (λ stop. IfOver stop ((setup : Setup)
        → EndsFrom setup session.old (record balanced { fresh = octets; shared = dropped }) out.old out.new)) }
{
    if octets == 0 {
        return return_dropped(session, dropped, out);
    }
    if session.marks.has_untaken(stream) {
        wait(session, stream, octets)?;
        return return_dropped(session, dropped, out);
    }
    let Some(sum) = dropped.checked_add(u64::from(octets)) else {
        return Err(Halt::Memory);
    };
    let all = returnable(sum)?;
    give_back(session, all, out)?;
    if goes_back_on(session, stream) {
        give_back_on(session, stream, octets, out)?;
    }
    Ok(())
}

/// Octets of DATA that don't wait any more, of which there are some, since the side of an
/// upstream's connection took what was put out for it, are given back: all on the connection, and
/// those of the stream that the connection was given to last on that, while it goes on (RFC 9113,
/// section 6.9). Streams that had it before were ended by the client: on these nothing goes back.
/// An `Err` says that memory was refused; then neither the session nor the outputs are of use any
/// more.
pub fn return_taken(
    session: &mut Session,
    stream: u32,
    taken: TakenOctets,
    out: &mut Outputs,
) -> Result<(), Halt>
    requires some { 0 < taken.own + taken.older }
    requires reached { (setup : Setup) × Reached setup session.old (back_on stream taken) }
    requires goes_on { GoesOn session.old }
    requires numbered { (id : ℕ) → has session.old.inbound.rows id ≡ true → id < 2147483648 }
    ensures performs { OnOk result ((setup : Setup) → PerformsOwn setup session.old (back_on stream taken) out.old session.new balanced out.new) }
    ensures stays { OnOk result (IsReturned session.old session.new) }
    ensures over { IfErr result (λ stop. IfOver stop ((setup : Setup) → EndsFrom setup session.old (back_on stream taken) out.old out.new)) }
{
    let Some(sum) = taken.own.checked_add(taken.older) else {
        return Err(Halt::Memory);
    };
    let octets = returnable(sum)?;
    give_back(session, octets, out)?;
    return_own(session, stream, taken.own, out)
}

/// Octets of a stream's DATA that went back on the connection go back on the stream too, if there
/// are some, while it goes on. An `Err` says that memory was refused, or that the connection was
/// ended in place of the frame.
fn return_own(session: &mut Session, stream: u32, own: u64, out: &mut Outputs) -> Result<(), Halt>
    requires reached { (setup : Setup) × Reached setup session.old (due_on_stream stream own) }
    requires goes_on { GoesOn session.old }
    requires numbered { (id : ℕ) → has session.old.inbound.rows id ≡ true → id < 2147483648 }
    ensures performs { OnOk result ((setup : Setup) → PerformsOwn setup session.old (due_on_stream stream own) out.old session.new balanced out.new) }
    ensures stays { OnOk result (IsReturned session.old session.new) }
    ensures over { IfErr result (λ stop. IfOver stop ((setup : Setup) → EndsFrom setup session.old (due_on_stream stream own) out.old out.new)) }
{
    if own == 0 {
        return Ok(());
    }
    if !goes_back_on(session, stream) {
        return Ok(());
    }
    let octets = returnable(own)?;
    give_back_on(session, stream, octets, out)
}
