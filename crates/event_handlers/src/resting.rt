//! Where the gateway rests behind something that came in.

ghost use Rattle.std.specs.Prelude.{◌≡◌, ℕ, true, ◌<◌, IfErr, IfOk};
ghost use Rattle.model.specs.Setup.{Setup};
ghost use Rattle.streams.specs.Asked.{has};
ghost use Rattle.refinement.specs.View.{balanced};
ghost use Rattle.refinement.specs.Rest.{NoneCut, NoneDone, Reached, back_of, IsBack};
ghost use Rattle.event_handlers.specs.Comings.{FollowsFrom};
ghost use Rattle.event_handlers.specs.MidStep.{IsMidStep};
ghost use Rattle.event_handlers.specs.Resting.{now_of, RestsSo};
ghost use Rattle.event_handlers.specs.Stopping.{Concludes, IfOver, EndsBack, EndsFrom};

use crate::ending::shut;
use crate::flushing::flush;
use crate::halt::Halt;
use crate::paying::{close_unserved, return_dropped};
use effects::Outputs;
use refinement::Session;
use std::alloc::{AllocError, Global};

/// Whether the connection to the client goes on.
#[derive(Clone, Copy, Debug, PartialEq, Eq)]
pub enum Onward {
    /// It does.
    On,
    /// It was closed; what is kept is of no use any more.
    Over,
}

/// What a step comes to: where the connection was ended in place of a frame, it is over. An `Err`
/// says that memory was refused.
pub(crate) fn conclude(stepped: Result<Onward, Halt>) -> Result<Onward, AllocError>
    ensures { IfOk result (Concludes stepped) }
{
    match stepped {
        Ok(went) => Ok(went),
        Err(Halt::Over) => Ok(Onward::Over),
        Err(Halt::Memory) => Err(AllocError),
    }
}

/// Octets that waited of a stream that is over go back on the connection; then connections of the
/// stream that a step was about are closed, if that isn't served any more, and the gateway comes to
/// rest.
pub(crate) fn come_to_rest(
    alloc: Global,
    session: &mut Session,
    id: u32,
    dropped: u64,
    out: &mut Outputs,
) -> Result<Onward, Halt>
    requires reached { (setup : Setup) × Reached setup session.old (back_of dropped) }
    requires mid { IsMidStep id session.old }
    ensures follows { IfOk result (λ went. (setup : Setup)
        → FollowsFrom setup session.old (back_of dropped) out.old balanced (now_of went session.new) out.new) }
    ensures rests { IfOk result (λ went. RestsSo went session.new) }
    ensures over { IfErr result (λ stop. IfOver stop ((setup : Setup) → EndsFrom setup session.old (back_of dropped) out.old out.new)) }
{
    return_dropped(session, dropped, out)?;
    rest_behind(alloc, session, id, out)
}

/// Connections of the stream that a step was about are closed, if that isn't served any more; then
/// the gateway comes to rest.
pub(crate) fn rest_behind(
    alloc: Global,
    session: &mut Session,
    id: u32,
    out: &mut Outputs,
) -> Result<Onward, Halt>
    requires reached { (setup : Setup) × (back : ℕ) × IsBack session.old back × Reached setup session.old (back_of back) }
    requires mid { IsMidStep id session.old }
    ensures follows { IfOk result (λ went. (back : ℕ) → IsBack session.old back → (setup : Setup)
        → FollowsFrom setup session.old (back_of back) out.old balanced (now_of went session.new) out.new) }
    ensures rests { IfOk result (λ went. RestsSo went session.new) }
    ensures over { IfErr result (λ stop. IfOver stop (EndsBack session.old out.old out.new)) }
{
    close_unserved(session, id, out)?;
    rest(alloc, session, out)
}

/// Responses go on, each in its turn, and then the gateway rests. A connection that is spent is shut.
pub(crate) fn rest(alloc: Global, session: &mut Session, out: &mut Outputs) -> Result<Onward, Halt>
    requires reached { (setup : Setup) × (back : ℕ) × IsBack session.old back × Reached setup session.old (back_of back) }
    requires none_cut { NoneCut session.old.offers }
    requires none_done { NoneDone session.old }
    requires numbered { (id : ℕ) → has session.old.inbound.rows id ≡ true → id < 2147483648 }
    ensures follows { IfOk result (λ went. (back : ℕ) → IsBack session.old back → (setup : Setup)
        → FollowsFrom setup session.old (back_of back) out.old balanced (now_of went session.new) out.new) }
    ensures rests { IfOk result (λ went. RestsSo went session.new) }
    ensures over { IfErr result (λ stop. IfOver stop (EndsBack session.old out.old out.new)) }
{
    flush(alloc, session, out)?;
    if session.inbound.is_exhausted() {
        shut(session, out)?;
        return Ok(Onward::Over);
    }
    Ok(Onward::On)
}
