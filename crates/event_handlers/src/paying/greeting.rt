//! What the gateway sends before all else.

ghost use Rattle.std.specs.Prelude.{◌≡◌, IfErr, OnOk};
ghost use Rattle.model.specs.Setup.{Setup};
ghost use Rattle.refinement.specs.View.{balanced, first_pending};
ghost use Rattle.refinement.specs.Rest.{GoesOn, Reached};
ghost use Rattle.refinement.specs.Bringing.{PerformsOwn};
ghost use Rattle.event_handlers.specs.paying.Greeting.{more_in, greeting, behind_greeting, IsMemory};

use crate::halt::Halt;
use crate::paying::control::{Control, pay};
use crate::paying::returning::give_back;
use effects::Outputs;
use protocol::limits::FIRST_WINDOW;
use refinement::Session;
use std::alloc::AllocError;

/// Sends the gateway's settings, before all else (RFC 9113, section 3.4). Where the windows in which
/// it receives are larger than 65,535, the connection's is made so right behind them (RFC 9113,
/// section 6.9.2). An `Err` says that memory was refused.
pub fn greet(session: &mut Session, out: &mut Outputs) -> Result<(), AllocError>
    requires fresh { session.old.untaken ≡ 0 }
    requires goes_on { GoesOn session.old }
    requires reached { (setup : Setup) × Reached setup session.old (first_pending setup.more_room) }
    ensures performs { OnOk result ((setup : Setup)
        → PerformsOwn setup session.old (first_pending setup.more_room) out.old session.new balanced out.new) }
    ensures puts { OnOk result (out.new ≡ greeting (more_in session.old) out.old) }
    ensures counts { OnOk result (session.new ≡ behind_greeting (more_in session.old) session.old) }
{
    match announce(session, out) {
        Ok(()) => Ok(()),
        Err(Halt::Memory) => Err(AllocError),
        Err(Halt::Over) => unreachable!(),
    }
}

/// Sends them, and gives the connection what its window is to have beyond 65,535 octets.
fn announce(session: &mut Session, out: &mut Outputs) -> Result<(), Halt>
    requires fresh { session.old.untaken ≡ 0 }
    requires goes_on { GoesOn session.old }
    requires reached { (setup : Setup) × Reached setup session.old (first_pending setup.more_room) }
    ensures performs { OnOk result ((setup : Setup)
        → PerformsOwn setup session.old (first_pending setup.more_room) out.old session.new balanced out.new) }
    ensures puts { OnOk result (out.new ≡ greeting (more_in session.old) out.old) }
    ensures counts { OnOk result (session.new ≡ behind_greeting (more_in session.old) session.old) }
    ensures few { IfErr result IsMemory }
{
    let more_room = session.inbound.receiving_window() - FIRST_WINDOW;
    pay(session, Control::Settings { more_room }, out)?;
    if more_room == 0 {
        return Ok(());
    }
    give_back(session, more_room, out)
}
