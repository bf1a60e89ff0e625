//! The operator wants the connection to end.

ghost use Rattle.std.specs.Prelude.{◌≡◌, List, [], ◌∷◌, None, IfErr, IfOk};
ghost use Rattle.model.specs.Setup.{Setup};
ghost use Rattle.model.specs.Logs.{Output};
ghost use Rattle.model.specs.Logs.Event.{Drain};
ghost use Rattle.model.specs.Tapes.Entry.{Happened};
ghost use Rattle.refinement.specs.View.{balanced};
ghost use Rattle.refinement.specs.Rest.{IsAtRest, Reached};
ghost use Rattle.refinement.specs.Bringing.{Brings};
ghost use Rattle.event_handlers.specs.block_frames.Following.{goaway_frames};
ghost use Rattle.event_handlers.specs.Draining.{drained_at};
ghost use Rattle.event_handlers.specs.Comings.{ComesFrom};
ghost use Rattle.event_handlers.specs.Inputs.Input.{OfEvent};
ghost use Rattle.event_handlers.specs.Resting.{now_of, IsSettled, RestsSo};
ghost use Rattle.event_handlers.specs.Stopping.{IfOver};

use crate::halt::Halt;
use crate::resting::{Onward, conclude, rest};
use crate::taking::say_goaway;
use effects::Outputs;
use refinement::Session;
use std::alloc::{AllocError, Global};

/// Notes that the operator wants the connection to end, and answers the last stream, for the GOAWAY.
fn note_drain(session: &mut Session) -> Option<u32>
    requires rest { IsAtRest session.old }
    ensures brings { (setup : Setup) (outputs : List Output)
        → Brings setup session.old balanced outputs (Happened Drain) session.new (record balanced { owed = goaway_frames result }) outputs }
    ensures notes { session.new ≡ drained_at session.old }
{
    session.inbound.drain()
}

/// The operator's wish, to where the gateway rests. An `Err` says that memory was refused, or that
/// the connection was ended in place of the GOAWAY.
fn drain_to_rest(alloc: Global, session: &mut Session, out: &mut Outputs) -> Result<Onward, Halt>
    requires settled { IsSettled session.old }
    requires reached { (setup : Setup) × Reached setup session.old balanced }
    ensures comes { IfOk result (λ went. (setup : Setup) → ComesFrom setup session.old balanced out.old (OfEvent Drain ∷ []) balanced
        (now_of went session.new) out.new) }
    ensures rests { IfOk result (λ went. RestsSo went session.new) }
    ensures over { IfErr result (λ stop. IfOver stop ((setup : Setup)
        → ComesFrom setup session.old balanced out.old (OfEvent Drain ∷ []) balanced None out.new)) }
{
    let last = note_drain(session);
    say_goaway(session, last, out)?;
    rest(alloc, session, out)
}

/// Takes that the operator wants the connection to end (RFC 9113, section 6.8). The client is told
/// by a GOAWAY, unless it was before, and no stream is opened any more. Those that were opened are
/// answered; once none is active the connection is shut. An `Err` says that memory was refused; then
/// what is kept and the outputs are of no use any more.
pub fn drain(alloc: Global, session: &mut Session, out: &mut Outputs) -> Result<Onward, AllocError>
    requires settled { IsSettled session.old }
    requires reached { (setup : Setup) × Reached setup session.old balanced }
    ensures comes { IfOk result (λ went. (setup : Setup) → ComesFrom setup session.old balanced out.old (OfEvent Drain ∷ []) balanced
        (now_of went session.new) out.new) }
    ensures rests { IfOk result (λ went. RestsSo went session.new) }
{
    conclude(drain_to_rest(alloc, session, out))
}
