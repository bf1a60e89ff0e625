//! The end of a connection to a client with what came in.

ghost use Rattle.std.specs.Prelude.{[], ◌∷◌, None, OnOk};
ghost use Rattle.model.specs.Setup.{Setup};
ghost use Rattle.model.specs.Logs.Event.{ClientEnd};
ghost use Rattle.refinement.specs.View.{balanced};
ghost use Rattle.refinement.specs.Rest.{IsAtRest};
ghost use Rattle.event_handlers.specs.Comings.{ComesFrom};
ghost use Rattle.event_handlers.specs.Inputs.Input.{OfBreach, OfEvent};
ghost use Rattle.event_handlers.specs.Leaving.{breach_of};

use crate::ending::{Ending, end};
use effects::Outputs;
use protocol::error_codes::{FRAME_SIZE_ERROR, PROTOCOL_ERROR};
use refinement::Session;
use std::alloc::AllocError;

/// Why the client's octets are no frames.
#[derive(Clone, Copy, Debug, PartialEq, Eq)]
pub enum Breach {
    /// They don't begin with the preface (RFC 9113, section 3.4).
    WrongPreface,
    /// A frame is longer than 16,384 octets (RFC 9113, section 4.2).
    TooLong,
}

/// Ends the connection where the client's side of it ended: each connection to an upstream is
/// closed, and the client's. An `Err` says that memory was refused.
pub fn leave(session: &mut Session, out: &mut Outputs) -> Result<(), AllocError>
    requires { IsAtRest session.old }
    ensures { OnOk result ((setup : Setup) → ComesFrom setup session.old balanced out.old (OfEvent ClientEnd ∷ []) balanced None out.new) }
{
    end(session, Ending::Gone, out)
}

/// Ends the connection where the client's octets are no frames: behind GOAWAY (RFC 9113, section
/// 5.4.1) each connection to an upstream is closed, and the client's. An `Err` says that memory was
/// refused.
pub fn leave_at(session: &mut Session, breach: Breach, out: &mut Outputs) -> Result<(), AllocError>
    requires { IsAtRest session.old }
    ensures { OnOk result ((setup : Setup) → ComesFrom setup session.old balanced out.old (OfBreach (breach_of breach) ∷ []) balanced None out.new) }
{
    let code = match breach {
        Breach::WrongPreface => PROTOCOL_ERROR,
        Breach::TooLong => FRAME_SIZE_ERROR,
    };
    end(session, Ending::Breach(code), out)
}
